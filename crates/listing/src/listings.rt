// The listing of a whole body: a line for each answer, through the end or the fault.
ghost use Rattle.std.specs.Prelude.{◌≡◌, ◌≤◌, length, IfOk, string_bytes};
ghost use Rattle.receiver.specs.Views.{view};
ghost use Rattle.listing.specs.Listings.{lines_from, lines, listed};
ghost use Rattle.listing.specs.Examples.{ExampleListings};
ghost use Rattle.runs.specs.Laws.{EndsCleanExactlyForBodies, FaultsExactlyWhereNoBodyGoesOn, LimitExactlyAtThe256thHeader};

use super::lines::{AnswerLine, refused_line};
use capture::{Capture, CaptureRefusal};
use carrier::Carrier;
use packet::BodyKind;
use receiver::{Answer, Receiver, WORK_LENGTH, close, open};
use std::alloc::{AllocError, Global};
use std::fmt::Write;

// The longest input that is read as a capture.
pub const MOST_INPUT: usize = 65_536;

// The lines of the answers to come. A loop of its own, as each reader of answers has: what is done with one may fail.
fn list_answers<C: Carrier>(
    heap: Global,
    receiver: &mut Receiver<C>,
    work: &mut [u8],
) -> Result<String, AllocError>
    requires { 65535 ≤ length work.old }
    ensures { IfOk result (λ t. string_bytes t ≡ lines_from (view C.Carrier receiver.old)) }
{
    let mut text = String::new(heap);
    while let Ok(answer) = receiver.step(work) {
        write!(text, "{}", AnswerLine(answer))?;
        let Answer::Event(_) = answer else {
            break;
        };
    }
    Ok(text)
}

// The lines of a body from any carrier.
pub fn list_body<C: Carrier + Drop>(
    heap: Global,
    carrier: C,
    body: BodyKind,
    before: Option<u8>,
) -> Result<String, AllocError>
    ensures { IfOk result (λ t. string_bytes t ≡ lines body before (C.Carrier.coming carrier) (C.Carrier.ending carrier)) }
{
    let mut work = vec![in heap; 0u8; WORK_LENGTH]?;
    let (mut receiver, ticket) = open(carrier, body, 0, before);
    let text = list_answers(heap, &mut receiver, &mut work);
    // closed before an error is passed on
    close(receiver, ticket);
    text
}

// The lines of a captured connection, read as a Play body; or the line of its refusal. Apart from `list_capture`, whose laws
// would be shown again at each return.
fn capture_text(heap: Global, input: &[u8]) -> Result<String, AllocError>
    ensures { IfOk result (λ t. string_bytes t ≡ listed input.now) }
{
    if input.len() > MOST_INPUT {
        return refused_line(heap, CaptureRefusal::CutShort);
    }
    match Capture::try_from(input) {
        Ok(capture) => list_body(heap, capture, BodyKind::Play, None),
        Err(refusal) => refused_line(heap, refusal),
    }
}

// The listing of a captured connection, and what the answers in it are in terms of the grammar of bodies.
pub fn list_capture(heap: Global, input: &[u8]) -> Result<String, AllocError>
    ensures text { IfOk result (λ t. string_bytes t ≡ listed input.now) }
    ensures ends_clean_exactly_for_bodies { EndsCleanExactlyForBodies }
    ensures faults_exactly_where_no_body_goes_on { FaultsExactlyWhereNoBodyGoesOn }
    ensures limit_exactly_at_the_256th_header { LimitExactlyAtThe256thHeader }
    ensures example_listings { ExampleListings }
{
    capture_text(heap, input)
}
