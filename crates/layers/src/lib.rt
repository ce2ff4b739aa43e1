// Layers: carriers that stand over any carrier.
#![tactic(auto)]

mod leftovers;
mod lengths;

pub use leftovers::{Leftover, LoadRefusal};
pub use lengths::{Length, LengthCause};
