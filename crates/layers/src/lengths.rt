// The length layer: gives the first so many bytes beneath, and then ends clean without drawing more.
ghost use Rattle.std.specs.Prelude.{◌≡◌};
ghost use Rattle.layers.specs.Lengths.{gives, ends, GivesExactlySoMany, LengthFacts, Uses, length_adds};
ghost use Rattle.layers.specs.Examples.{ExamplesHold};

use carrier::{Carrier, Ending, Fault, Layer};

// What the length layer finds wrong itself. Each finder has an enum of its own causes, numbered as they are told.
#[derive(Clone, Copy)]
pub enum LengthCause {
    // the bytes beneath end clean before so many have come
    EndsEarly = 6,
}

#[derive(Drop)]
pub struct Length<C> {
    beneath: C,
    // how many bytes are still to be given
    left: u64,
    // how many were drawn from beneath
    drawn: u64,
}

impl<C: Carrier> Length<C> {
    // Gives the next `length` bytes of what is beneath.
    pub fn new(beneath: C, length: u64) -> Length<C>
        ensures beneath { result.beneath ≡ beneath }
        ensures left { result.left ≡ length }
        ensures drawn { result.drawn ≡ 0 }
        ensures gives_exactly_so_many { GivesExactlySoMany length (C.Carrier.coming beneath) (C.Carrier.ending beneath) (gives result.left (C.Carrier.coming result.beneath)) (ends result.left result.drawn (C.Carrier.coming result.beneath) (C.Carrier.ending result.beneath)) }
        ensures facts { LengthFacts }
        ensures examples_hold { ExamplesHold }
    {
        Length {
            beneath,
            left: length,
            drawn: 0,
        }
    }
}

impl<C: Carrier> Carrier for Length<C> {
    ghost coming = { λ s. gives s.left (C.Carrier.coming s.beneath) };

    ghost ending = { λ s. ends s.left s.drawn (C.Carrier.coming s.beneath) (C.Carrier.ending s.beneath) };

    ghost lacks = { Uses C.Carrier.coming C.Carrier.lacks };

    fn pull(&mut self, out: &mut [u8]) -> Result<usize, Ending> {
        if out.is_empty() {
            return Ok(0);
        }
        if self.left == 0 {
            return Err(Ending::Clean);
        }
        // no more than the length allows is asked of what is beneath
        let most = out.len().min(self.left as usize);
        let early = Fault::found(LengthCause::EndsEarly as u8, self.drawn);
        let n = self
            .beneath
            .pull(&mut out[..most])
            .map_err(|ending| ending.too_early(early))?;
        // counted as the chunk layer does; one function for both would take carrier, count, fault and `out`, for two lines
        self.left -= n as u64;
        self.drawn = self.drawn.saturating_add(n as u64);
        Ok(n)
    }

    ghost adds = { length_adds C.Carrier.adds };
}

impl<C: Carrier> Layer for Length<C> {
    type Beneath = C;

    ghost beneath = { λ s. s.beneath };

    fn lift(self) -> C {
        self.beneath
    }
}
