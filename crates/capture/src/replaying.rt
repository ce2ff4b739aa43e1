// A capture as a carrier: it hands its bytes out piece by piece, as they came.
ghost use Rattle.std.specs.Prelude.{◌≡◌, [], length};
ghost use Rattle.carrier.specs.Pulls.{Answers, given, told};
ghost use Rattle.carrier.specs.Alone.{Alone, alone_adds};
ghost use Rattle.capture.specs.declared.Capture.{Capture};
ghost use Rattle.capture.specs.Replays.{pieces, held, answer, less};

use super::Capture;
use carrier::{Carrier, Ending, hand_out};

impl Capture<'_> {
    // Begins the next piece where none is being handed out.
    fn begin(&mut self)
        ensures same { held self.new ≡ held self.old }
        ensures begun { self.new.left ≡ 0 → pieces self.new ≡ [] }
    {
        if self.left == 0
            && let Some((piece, rest)) = self.lengths.split_first_chunk::<4>()
        {
            self.left = u32::from_le_bytes(*piece);
            self.lengths = rest;
        }
    }
}

impl Carrier for Capture<'_> {
    ghost coming = { λ s. s.bytes.now };

    ghost ending = { λ s. s.ending };

    ghost lacks = { Alone {S = Capture} (λ s. s.bytes.now) (λ s. s.ending) };

    fn pull(&mut self, out: &mut [u8]) -> Result<usize, Ending>
        ensures answers { Answers self.old.bytes.now self.old.ending out.old result self.new.bytes.now self.new.ending out.new }
        ensures lacks { Alone {S = Capture} (λ s. s.bytes.now) (λ s. s.ending) self.old (given result) (told result) self.new }
        ensures one_piece { result ≡ answer (pieces self.old) self.old.ending (length out.old) }
        ensures left { pieces self.new ≡ less (given result) (pieces self.old) }
    {
        if out.is_empty() {
            return Ok(0);
        }
        self.begin();
        if self.left == 0 {
            return Err(self.ending);
        }
        // of this piece alone; that it holds a byte is what lets the compiler move a single byte without a call
        let mut piece = &self.bytes[..self.left as usize];
        let n = hand_out(&mut piece, out);
        self.bytes = &self.bytes[n..];
        self.left -= n as u32;
        Ok(n)
    }

    ghost adds = { alone_adds {S = Capture} (λ s. s.bytes.now) (λ s. s.ending) };
}
