// Captures: a recorded connection, replayed as a carrier.
//
// A capture is a byte string of three sections, each behind a count of its items in four bytes, the low one first:
// the lengths of the pieces that the bytes came in, four bytes each; the bytes; and the ending, one byte.
#![tactic(auto)]

ghost use Rattle.std.specs.Prelude.{◌≡◌, ◌≤◌, true, length};
ghost use Rattle.capture.specs.Pieces.{numbers, to_come};
ghost use Rattle.capture.specs.Captures.{pieced};

use carrier::Ending;

mod checking;
mod replaying;
mod sections;

pub use sections::{CaptureCause, CaptureRefusal};

// A capture that was checked, and what of it is still to come.
#[derive(Drop)]
pub struct Capture<'a> {
    // the lengths of the pieces not begun, four bytes each: as they are written, which is what the definitions speak of
    lengths: &'a [u8],
    // what is left of the piece being handed out, 0 where none is: no piece is empty
    left: u32,
    // the bytes to come
    bytes: &'a [u8],
    // what stands behind them
    ending: Ending,
    // at most 4,096 pieces are to come, none of them empty, and they make up the bytes to come
    ghost few: { length (to_come left (numbers lengths.now)) ≤ 4096 },
    ghost made_up: { pieced (to_come left (numbers lengths.now)) (length bytes.now) ≡ true },
}
