// The data of chunked bodies (RFC 2616, section 3.6.1), as a layer over any carrier.
//
// A size line has 1 to 8 hexadecimal digits of either case, perhaps an extension of at most 256 bytes that begins with `;` and
// holds no CR or LF, and CR LF. So many bytes of data and CR LF follow. A size of 0 has a trailer instead, of at most 1,024 bytes,
// through the first CR LF that opens it or directly follows another; there the body ends, and no more is drawn.
//
// The layer has used the bytes beneath just through the last data byte that it gave, and none before its first; and once it has
// told its ending, through what shows that ending. So the CR LF behind a chunk and the next size line are drawn with the next
// data byte, or with the ending.
//
// A fault that it finds (`ChunkCause`) is told with the byte that shows it drawn, and has for its place how many bytes were drawn
// by then, at most 2^64 - 1. A fault from beneath is passed on with its depth one more, at most 255.
#![tactic(auto)]

ghost use Rattle.std.specs.Prelude.{◌≡◌};
ghost use Rattle.chunks.specs.Layer.{data_coming, data_ending, data_lacks, data_adds};
ghost use Rattle.chunks.specs.Laws.{start, CleanExactly, NoneGoesOn, ExamplesHold};

mod drawing;
mod machine;

use carrier::{Carrier, Ending, Layer};
pub use machine::ChunkCause;
use machine::State;

// Gives the data of the chunked body that the carrier beneath gives.
#[derive(Drop)]
pub struct Chunks<C> {
    beneath: C,
    state: State,
    // how many bytes were drawn from beneath
    drawn: u64,
}

impl<C: Carrier> Chunks<C> {
    // Stands at the start of a body; draws nothing yet.
    pub fn new(beneath: C) -> Chunks<C>
        ensures stands { (result.beneath ≡ beneath) × (result.state ≡ start) × (result.drawn ≡ 0) }
        ensures ends_clean_exactly_for_chunked_bodies { CleanExactly }
        ensures no_chunked_body_goes_on_at_a_fault { NoneGoesOn }
        ensures examples_hold { ExamplesHold }
    {
        Chunks {
            beneath,
            state: State::START,
            drawn: 0,
        }
    }
}

impl<C: Carrier> Carrier for Chunks<C> {
    ghost coming = { data_coming C.Carrier.coming };

    ghost ending = { data_ending C.Carrier.coming C.Carrier.ending };

    ghost lacks = { data_lacks C.Carrier.coming C.Carrier.lacks };

    fn pull(&mut self, out: &mut [u8]) -> Result<usize, Ending> {
        if out.is_empty() {
            return Ok(0);
        }
        let left = self.advance()?;
        // the data goes straight into the caller's stretch
        let most = out.len().min(left as usize);
        let n = self.draw(&mut out[..most])?;
        self.state = State::Data {
            left: left - n as u32,
        };
        Ok(n)
    }

    ghost adds = { data_adds C.Carrier.coming C.Carrier.ending C.Carrier.lacks C.Carrier.adds };
}

impl<C: Carrier> Layer for Chunks<C> {
    type Beneath = C;

    ghost beneath = { λ s. s.beneath };

    fn lift(self) -> C {
        self.beneath
    }
}
