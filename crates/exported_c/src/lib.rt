// What callers in C or Rust link to: the functions of `exported` under their names, by C's calling convention. A slice
// passes as its pointer and its length. The clauses are said again, since these contracts are what such a caller reads.
#![tactic(auto)]

ghost use Rattle.std.specs.Prelude.{◌≡◌};
ghost use Rattle.carrier.specs.declared.endings.Ending.TheVariants.{Clean};
ghost use Rattle.chunks.specs.Decoding.{data_in, ending_in};
ghost use Rattle.chunks.specs.Laws.{start};
ghost use Rattle.exported.specs.Reading.{play_sum, play_buffer};

// Reads a Play body.
#[unsafe(no_mangle)]
pub extern "C" fn receive_play(bytes: &[u8], work: &mut [u8]) -> u64
    ensures sum { result ≡ play_sum bytes.now Clean work.old }
    ensures buffer { work.new ≡ play_buffer bytes.now Clean work.old }
{
    exported::receive_play(bytes, work)
}

// Reads a Play body that is sent in chunks.
#[unsafe(no_mangle)]
pub extern "C" fn receive_chunked_play(bytes: &[u8], work: &mut [u8]) -> u64
    ensures sum { result ≡ play_sum (data_in start bytes.now) (ending_in start 0 bytes.now Clean) work.old }
    ensures buffer { work.new ≡ play_buffer (data_in start bytes.now) (ending_in start 0 bytes.now Clean) work.old }
{
    exported::receive_chunked_play(bytes, work)
}
