// What Step and Pass answer.
ghost use Rattle.std.specs.Prelude.{◌≡◌};
ghost use Rattle.receiver.specs.Passes.{counts, pass_refusal_number};
ghost use Rattle.receiver.specs.Steps.{step_fault_number, step_refusal_number};

use carrier::Fault;
use packet::{Event, Letter, PacketFault};

// Why a Step is refused; nothing is altered then. An enum of its own, so that no Step is refused for a Pass's reason.
#[derive(Clone, Copy)]
pub enum StepRefusal {
    ShortWorkBuffer = 11, // the only one
}

impl From<StepRefusal> for u8 {
    ghost from_gives = { λ refusal number. number ≡ step_refusal_number refusal };

    fn from(refusal: StepRefusal) -> u8 {
        refusal as u8
    }
}

// What Step finds wrong.
#[derive(Clone, Copy)]
pub enum StepFault {
    // a packet, or its head, is not as it should be
    Packet(PacketFault),
    // a clean end inside a packet, or where the body may not end
    EndsEarly,
    // the carrier broke off: its own fault, whole
    CarrierBroke(Fault),
}

// The number that a fault is told by; 28 and 29 stand here, since an enum with data in a case has no numbered cases.
impl From<StepFault> for u8 {
    ghost from_gives = { λ fault number. number ≡ step_fault_number fault };

    fn from(fault: StepFault) -> u8 {
        match fault {
            StepFault::Packet(fault) => u8::from(fault),
            StepFault::EndsEarly => 28,
            StepFault::CarrierBroke(_) => 29,
        }
    }
}

// A fault ends the body: what is wrong, and where.
#[derive(Clone, Copy)]
pub struct Failure {
    pub fault: StepFault,
    // the packet's first byte; for `EndsEarly` and `CarrierBroke` the body bytes drawn
    pub place: u64,
}

// What a Step answers. No `Result`: an end is no error, and stops a body like a fault.
#[derive(Clone, Copy)]
pub enum Answer {
    Event(Event),
    // the clean end; its place is the body's length
    End(u64),
    Failed(Failure),
}

// Why a Pass is refused; nothing is altered then.
#[derive(Clone, Copy)]
pub enum PassRefusal {
    ShortWorkBuffer = 11,
    NoHeaderInForce = 12,
}

impl From<PassRefusal> for u8 {
    ghost from_gives = { λ refusal number. number ≡ pass_refusal_number refusal };

    fn from(refusal: PassRefusal) -> u8 {
        refusal as u8
    }
}

// What a Pass came to: the answer behind the data packets, and how many it passed over.
#[derive(Clone, Copy)]
pub struct Passed {
    pub answer: Answer,
    pub delivered: u64,
    pub stale: u64,
}

// What a Pass counts a data packet as.
#[derive(Clone, Copy)]
pub enum Counted {
    Delivered,
    Stale,
}

// What an answer counts as in a Pass; None where it tells no data packet.
pub fn counted_as(answer: Answer) -> Option<Counted>
    ensures { result ≡ counts answer }
{
    let Answer::Event(event) = answer else {
        return None;
    };
    match event.letter {
        Letter::Data => Some(Counted::Delivered),
        Letter::Stale => Some(Counted::Stale),
        Letter::StreamChange
        | Letter::EndOfStream
        | Letter::Header
        | Letter::Metadata
        | Letter::PacketPair => None,
    }
}
