// Draws bytes from beneath: single ones up to the next data byte or to the ending, and the data itself.
ghost use Rattle.std.specs.Prelude.{◌≡◌};
ghost use Rattle.carrier.specs.Pulls.{Answers, given, told};
ghost use Rattle.carrier.specs.Passing.{counted};
ghost use Rattle.chunks.specs.Decoding.{own_fault, cut_short};
ghost use Rattle.chunks.specs.Drawing.{Drew, Advanced};

use super::Chunks;
use super::machine::{ChunkCause, State, next_state};
use carrier::{Carrier, Ending, Fault};

impl<C: Carrier> Chunks<C> {
    // A fault that the layer itself finds; its place is how many bytes were drawn.
    fn fault(&self, cause: ChunkCause) -> Fault
        ensures { result ≡ own_fault cause self.now.drawn }
    {
        Fault::found(cause as u8, self.drawn)
    }

    // Draws bytes of a body that is not over, and counts them; or tells where they end that the body is cut short.
    pub(super) fn draw(&mut self, out: &mut [u8]) -> Result<usize, Ending>
        ensures answers { Answers (C.Carrier.coming self.old.beneath) (cut_short self.old.drawn (C.Carrier.ending self.old.beneath)) out.old result (C.Carrier.coming self.new.beneath) (cut_short self.old.drawn (C.Carrier.ending self.new.beneath)) out.new }
        ensures lacks { C.Carrier.lacks self.old.beneath (given result) (told result) self.new.beneath }
        ensures state { self.new.state ≡ self.old.state }
        ensures drawn { self.new.drawn ≡ counted self.old.drawn (given result) }
    {
        let early = self.fault(ChunkCause::EndsEarly);
        let n = self
            .beneath
            .pull(out)
            .map_err(|ending| ending.too_early(early))?;
        self.drawn = self.drawn.saturating_add(n as u64);
        Ok(n)
    }

    // A single byte of them. The members of what is beneath come one by one, as to `data_coming` and `data_lacks`.
    fn draw_byte(&mut self) -> Result<u8, Ending>
        ensures { Drew C.Carrier.coming C.Carrier.ending C.Carrier.lacks self.old self.new result }
    {
        let mut byte = [0];
        self.draw(&mut byte)?;
        Ok(byte[0])
    }

    // Draws single bytes until data is next, and answers how much is left of its chunk; or tells the ending.
    // A loop: each state is made of the last one and a byte, whose drawing may fail.
    pub(super) fn advance(&mut self) -> Result<u32, Ending>
        ensures { Advanced C.Carrier.coming C.Carrier.ending C.Carrier.lacks self.old self.new result }
    {
        loop {
            match self.state {
                State::Data { left } if left > 0 => return Ok(left),
                State::Done => return Err(Ending::Clean),
                State::Failed(cause) => return Err(Ending::Broken(self.fault(cause))),
                _ => {
                    let byte = self.draw_byte()?;
                    self.state = next_state(self.state, byte);
                }
            }
        }
    }
}
