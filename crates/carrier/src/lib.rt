// Carriers: where the bytes of a body come from, and how they end.
//
// A carrier is known by its meaning alone: the list of bytes to come and the ending behind them.
// Whatever reads from one is generic over the trait `Carrier`, and rests on its contract only.
#![tactic(auto)]

ghost use Rattle.std.specs.Prelude.{◌≡◌, ℕ, Bool, List};
ghost use Rattle.carrier.specs.declared.endings.Ending.{Ending};
ghost use Rattle.carrier.specs.Pulls.{Answers, Adds, given, told};

mod endings;
mod filling;
mod images;

pub use endings::{Ending, Fault};
pub use filling::{Short, fill};
pub use images::{Image, hand_out};

pub trait Carrier {
    // The body bytes to come, and what stands behind them. Two members, as lists and endings each have definitions of their own.
    ghost coming: { Self → List ℕ };

    ghost ending: { Self → Ending };

    // `lacks s n b t`: t is s after it gave n bytes, with its ending told (b) or not; and each
    // carrier beneath t lacks exactly what the one above it has used for that.
    ghost lacks: { Self → ℕ → Bool → Self → Type 0 };

    // Puts some of the bytes to come at the front of `out`, and answers how many; or tells the ending where none are to come.
    // An empty `out` is answered by each carrier or left to what is beneath: a provided method over another would be two for one.
    fn pull(&mut self, out: &mut [u8]) -> Result<usize, Ending>
        ensures answers { Answers (coming self.old) (ending self.old) out.old result (coming self.new) (ending self.new) out.new }
        ensures lacks { lacks self.old (given result) (told result) self.new };

    // What holds of `lacks` for every carrier.
    ghost adds: { Adds coming ending lacks };
}

// A carrier that stands over another one.
pub trait Layer: Carrier {
    type Beneath;

    ghost beneath: { Self → Self.Beneath };

    // The carrier beneath, as it stands.
    fn lift(self) -> Self::Beneath
        ensures { result ≡ beneath self };
}
