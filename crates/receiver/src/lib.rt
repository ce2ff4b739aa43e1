// The receiver: reads a response body from any carrier, and tells its packets one by one.
//
// Open gives a receiver and a ticket, Step answers one event, Pass goes over data packets, and Close takes
// receiver and ticket and gives back the carrier.
#![tactic(auto)]

mod answers;
mod drawing;
mod receiving;
mod standings;
mod tickets;

pub use answers::{Answer, Failure, PassRefusal, Passed, StepFault, StepRefusal};
pub use receiving::{Closed, Receiver, WORK_LENGTH, close, open};
pub use tickets::Ticket;
