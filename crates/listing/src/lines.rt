// One line for each answer: its fields in order, one space between two, and a line feed. Contracts tell the bytes of a text in the
// library's words, `IfOk` and `string_bytes`; a word of our own would say no more.
ghost use Rattle.std.specs.Prelude.{◌≡◌, ◌<◌, [], ◌∷◌, Some, IfOk, string_bytes};
ghost use Rattle.listing.specs.Lines.{letter_text, event_line_of, failure_line_of, line_of, refusal_line_of, refused_line_of};
ghost use Rattle.listing.specs.Samples.{SampleLines};

use capture::CaptureRefusal;
use carrier::Fault;
use packet::{Event, Fields, Letter};
use receiver::{Answer, Failure, StepFault};
use std::alloc::{AllocError, Global};
use std::fmt;

// The line for what a receiver answers; a clean end has its place.
#[derive(Clone, Copy)]
pub struct AnswerLine(pub Answer);

impl fmt::Display for AnswerLine {
    ghost output = { λ l. Some (line_of l.0) };

    fn fmt<W: fmt::Write>(&self, f: &mut fmt::Formatter<W>) -> fmt::Result {
        match self.0 {
            Answer::Event(event) => EventLine(event).fmt(f),
            Answer::End(place) => writeln!(f, ". {place}"),
            Answer::Failed(failure) => FailureLine(failure).fmt(f),
        }
    }
}

// The line for a packet: its letter, where it stands, and its numbers.
#[derive(Clone, Copy)]
struct EventLine(Event);

impl fmt::Display for EventLine {
    ghost output = { λ l. Some (event_line_of l.0) };

    fn fmt<W: fmt::Write>(&self, f: &mut fmt::Formatter<W>) -> fmt::Result {
        let Event {
            letter,
            place,
            entry,
            fields,
            payload_length,
        } = self.0;
        let Fields {
            location_id,
            incarnation,
            reason,
            ..
        } = fields;
        let letter = letter_of(letter);
        writeln!(
            f,
            "{letter} {place} {entry} {location_id} {incarnation} {payload_length} {reason}"
        )
    }
}

// The letter that a packet is told by: one byte of the line.
// No `From<Letter>`, which would stand in packet's crate: the characters of a line are written where lines are made.
fn letter_of(letter: Letter) -> char
    ensures text { result ∷ [] ≡ letter_text letter }
    ensures ascii { result < 128 }
{
    match letter {
        Letter::StreamChange => 'C',
        Letter::Data => 'D',
        Letter::EndOfStream => 'E',
        Letter::Header => 'H',
        Letter::Metadata => 'M',
        Letter::PacketPair => 'P',
        Letter::Stale => 'S',
    }
}

// The line for a fault: what is wrong and where, and behind that the carrier's own fault where it broke.
#[derive(Clone, Copy)]
struct FailureLine(Failure);

impl fmt::Display for FailureLine {
    ghost output = { λ l. Some (failure_line_of l.0) };

    fn fmt<W: fmt::Write>(&self, f: &mut fmt::Formatter<W>) -> fmt::Result {
        let Failure { fault, place } = self.0;
        let number = u8::from(fault);
        match fault {
            StepFault::Packet(_) | StepFault::EndsEarly => writeln!(f, "! {number} {place}"),
            StepFault::CarrierBroke(
                Fault {
                    cause,
                    place: carrier_place,
                    depth,
                },
            ) => writeln!(f, "! {number} {place} {cause} {carrier_place} {depth}"),
        }
    }
}

// The line for what is refused, by its number, since refusals of several types have such a line.
#[derive(Clone, Copy)]
pub struct RefusalLine(pub u8);

impl fmt::Display for RefusalLine {
    ghost output = { λ l. Some (refusal_line_of l.0) };

    fn fmt<W: fmt::Write>(&self, f: &mut fmt::Formatter<W>) -> fmt::Result {
        let number = self.0;
        writeln!(f, "? {number}")
    }
}

// The line for what a receiver answers, as text.
pub fn line(heap: Global, answer: Answer) -> Result<String, AllocError>
    ensures bytes { IfOk result (λ t. string_bytes t ≡ line_of answer) }
    ensures sample_lines { SampleLines }
{
    AnswerLine(answer).to_string(heap)
}

// The line for a capture that is refused, as text. A function beside `line`, since each promises a line of its own.
pub fn refused_line(heap: Global, refusal: CaptureRefusal) -> Result<String, AllocError>
    ensures { IfOk result (λ t. string_bytes t ≡ refused_line_of refusal) }
{
    RefusalLine(u8::from(refusal)).to_string(heap)
}
