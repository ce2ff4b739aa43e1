// Where a receiver stands in its body, and what a drawn packet makes of that.
ghost use Rattle.std.specs.Prelude.{◌≡◌, Ok, Err};
ghost use Rattle.receiver.specs.declared.drawing.NoPacket.TheVariants.{CutShort};
ghost use Rattle.receiver.specs.Steps.{opened, settles, fails, failure, ended, headed};

use super::answers::{Answer, Failure, StepFault};
use super::drawing::NoPacket;
use carrier::{Ending, Short};
use packet::{
    BodyKind, Event, Packet, PacketFault, Position, fixed_length, in_force, judge, may_end,
    size_agrees, start,
};

// Whether packets are still to be read, or what Step answers for good: three outcomes, like an answer's.
#[derive(Clone, Copy)]
pub enum Progress {
    Reading(Position),
    // the clean end, at this position
    Ended(Position),
    Failed(Failure),
}

#[derive(Clone, Copy)]
pub struct Standing {
    // how many body bytes were drawn
    pub place: u64,
    // how many headers were completed
    pub entry: u8,
    pub progress: Progress,
}

impl Standing {
    pub fn opened(body: BodyKind, before: Option<u8>) -> Standing
        ensures { result ≡ opened body before }
    {
        Standing {
            place: 0,
            entry: 0,
            progress: Progress::Reading(start(body, before)),
        }
    }

    // Whether the clean end was answered.
    pub fn ended(self) -> bool
        ensures { result ≡ ended self }
    {
        matches!(self.progress, Progress::Ended(_))
    }

    // Whether a header is in force, and no fault was answered.
    pub fn has_header(self) -> bool
        ensures { result ≡ headed self }
    {
        match self.progress {
            Progress::Reading(at) | Progress::Ended(at) => in_force(at).is_some(),
            Progress::Failed(_) => false,
        }
    }

    // What was drawn is settled at a position of the grammar.
    pub fn settle(&mut self, at: Position, drawn: Result<Packet, NoPacket>) -> Answer
        ensures answer { result ≡ (settles self.old at drawn).answer }
        ensures standing { self.new ≡ (settles self.old at drawn).standing }
    {
        match drawn {
            Ok(packet) => self.settle_packet(at, packet),
            Err(NoPacket::BadHead(fault)) => {
                self.fail(
                    self.place.saturating_add(4),
                    StepFault::Packet(fault),
                    self.place,
                )
            }
            Err(NoPacket::CutShort(short)) => self.settle_end(at, short),
        }
    }

    fn settle_packet(&mut self, at: Position, packet: Packet) -> Answer
        ensures answer { result ≡ (settles self.old at (Ok packet)).answer }
        ensures standing { self.new ≡ (settles self.old at (Ok packet)).standing }
    {
        let place = self.place;
        let behind = place.saturating_add(4 + u64::from(packet.length));
        if !size_agrees(packet) {
            return self.fail(behind, StepFault::Packet(PacketFault::PacketSize), place);
        }
        match judge(packet, at, self.entry) {
            Err(fault) => self.fail(behind, StepFault::Packet(fault), place),
            Ok(judged) => {
                self.place = behind;
                self.entry = judged.entry;
                self.progress = Progress::Reading(judged.next);
                Answer::Event(Event {
                    letter: judged.letter,
                    place,
                    entry: judged.entry,
                    fields: packet.fields,
                    payload_length: packet.length.saturating_sub(fixed_length(packet.kind)),
                })
            }
        }
    }

    fn settle_end(&mut self, at: Position, short: Short) -> Answer
        ensures answer { result ≡ (settles self.old at (Err (CutShort short))).answer }
        ensures standing { self.new ≡ (settles self.old at (Err (CutShort short))).standing }
    {
        let place = self.place.saturating_add(short.came as u64);
        match short.ending {
            Ending::Broken(fault) => self.fail(place, StepFault::CarrierBroke(fault), place),
            Ending::Clean if short.came == 0 && may_end(at) => {
                self.place = place;
                self.progress = Progress::Ended(at);
                Answer::End(place)
            }
            Ending::Clean => self.fail(place, StepFault::EndsEarly, place),
        }
    }

    // The fault is answered from now on, with `drawn` bytes drawn.
    fn fail(&mut self, drawn: u64, fault: StepFault, place: u64) -> Answer
        ensures answer { result ≡ (fails drawn self.old.entry (failure fault place)).answer }
        ensures standing { self.new ≡ (fails drawn self.old.entry (failure fault place)).standing }
    {
        let failure = Failure { fault, place };
        self.place = drawn;
        self.progress = Progress::Failed(failure);
        Answer::Failed(failure)
    }
}
