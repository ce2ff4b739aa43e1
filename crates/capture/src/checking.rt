// Whether a byte string is a capture.
ghost use Rattle.std.specs.Prelude.{◌≡◌, [], Ok, Err, OnErr};
ghost use Rattle.carrier.specs.declared.endings.Ending.TheVariants.{Clean};
ghost use Rattle.capture.specs.Pieces.{numbers};
ghost use Rattle.capture.specs.Examples.{SaysSo};
ghost use Rattle.capture.specs.Recordings.{AcceptsExactlyCaptures};
ghost use Rattle.capture.specs.Replays.{held, carried, Holds, Carries};
ghost use Rattle.capture.specs.Captures.{pieced, ended, checked, captured};

use super::Capture;
use super::sections::{CaptureCause, CaptureRefusal, Sections, read_sections};
use carrier::{Ending, Fault};

// Whether the pieces are none of them empty, and make up so many bytes.
fn make_up(lengths: &[u8], count: usize) -> bool
    ensures { result ≡ pieced (numbers lengths.now) count }
{
    // nothing is left behind the last: the section has four bytes for each
    let (pieces, _) = lengths.as_chunks::<4>();
    let mut left = count;
    for piece in pieces {
        let piece = u32::from_le_bytes(*piece) as usize;
        if piece == 0 || piece > left {
            return false;
        }
        left -= piece;
    }
    left == 0
}

// The ending that the third section tells, behind so many bytes.
fn read_ending(endings: &[u8], count: usize) -> Result<Ending, CaptureRefusal>
    ensures { result ≡ ended endings.now count }
{
    // one byte of the format, read here alone
    match endings {
        [0] => Ok(Ending::Clean),
        [1] => Ok(Ending::Broken(Fault::found(CaptureCause::LineBroke as u8, count as u64))),
        _ => Err(CaptureRefusal::BadEnding),
    }
}

impl<'a> Capture<'a> {
    // A capture of nothing: no pieces, no bytes, and a clean end.
    pub fn new() -> Capture<'a>
        ensures { held result ≡ ([], [], Clean) }
    {
        Capture {
            lengths: &[],
            left: 0,
            bytes: &[],
            ending: Ending::Clean,
        }
    }

    // Takes up the input where it is a capture; otherwise says why it is none, and stays as it was. For callers that hold a capture
    // already, which they keep then.
    // The first two clauses compare by cases, as a caller knows `self.new` and not the capture that was read.
    pub fn check(&mut self, input: &'a [u8]) -> Result<(), CaptureRefusal>
        ensures holds { elim result [ Ok _ ↦ checked input.now ≡ Ok (held self.new) | Err e ↦ checked input.now ≡ Err e ] }
        ensures carries { elim result [ Ok _ ↦ captured input.now ≡ Ok (carried self.new) | Err e ↦ captured input.now ≡ Err e ] }
        ensures kept { OnErr result (self.new ≡ self.old) }
        ensures accepts_exactly_captures { AcceptsExactlyCaptures }
        ensures examples { SaysSo }
    {
        *self = Capture::try_from(input)?;
        Ok(())
    }
}

// The capture that a byte string is, or why it is none.
impl<'a> TryFrom<&'a [u8]> for Capture<'a> {
    type Error = CaptureRefusal;

    ghost try_from_gives = { λ input read. Holds input.now read × Carries input.now read };

    fn try_from(input: &'a [u8]) -> Result<Capture<'a>, CaptureRefusal>
        ensures holds { Holds input.now result }
        ensures carries { Carries input.now result }
        ensures accepts_exactly_captures { AcceptsExactlyCaptures }
        ensures examples { SaysSo }
    {
        let Sections {
            lengths,
            bytes,
            endings,
        } = read_sections(input)?;
        if !make_up(lengths, bytes.len()) {
            return Err(CaptureRefusal::PiecesDisagree);
        }
        let ending = read_ending(endings, bytes.len())?;
        Ok(Capture {
            lengths,
            left: 0,
            bytes,
            ending,
        })
    }
}
