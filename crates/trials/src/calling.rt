// The answers to single calls of a receiver, one line each.
use super::cases::Reading;
use super::told::Told;
use anyhow::bail;
use carrier::{Carrier, Image};
use listing::{RefusalLine, line};
use packet::BodyKind;
use receiver::{Closed, Passed, Receiver, Ticket, WORK_LENGTH, close, open};
use std::alloc::{AllocError, Global};

// How many bytes of the work buffer are shown.
const SHOWN: usize = 6;

// The line for what a call gave, or for the number of its refusal.
pub(super) fn outcome_line<T, E: Into<u8>, F: FnOnce(T) -> Result<String, AllocError>>(
    heap: Global,
    outcome: Result<T, E>,
    line_of: F,
) -> Result<String, AllocError>
    requires { F.IsAlwaysCallable line_of }
{
    match outcome {
        Ok(value) => line_of(value),
        Err(refusal) => RefusalLine(refusal.into()).to_string(heap),
    }
}

// How many data packets were passed over, delivered and stale, and the answer behind them.
fn passed_line(heap: Global, passed: Passed) -> Result<String, AllocError> {
    let Passed {
        answer,
        delivered,
        stale,
    } = passed;
    let answer = line(heap, answer)?;
    format!(in heap; "{delivered} D {stale} S {answer}")
}

// The first bytes of the work buffer.
fn work_line(heap: Global, work: &[u8]) -> Result<String, AllocError> {
    let front = &work[..SHOWN.min(work.len())];
    format!(in heap; "work {front:?}\n")
}

// The lines of all the calls.
fn call_lines<C: Carrier>(
    heap: Global,
    receiver: &mut Receiver<C>,
    calls: &str,
) -> anyhow::Result<String> {
    let mut work = vec![in heap; 0; WORK_LENGTH]?;
    // a buffer of its own: that the front of `work` lies in it was tried, and the check ran out of memory
    let mut short = vec![in heap; 0; WORK_LENGTH - 1]?;
    let mut text = String::new(heap);
    let step_line = |outcome| outcome_line(heap, outcome, |answer| line(heap, answer));
    let pass_line = |outcome| outcome_line(heap, outcome, |passed| passed_line(heap, passed));
    for call in calls.chars() {
        // read and made in one: an enum of the calls would only name each of them twice
        let more = match call {
            's' => step_line(receiver.step(&mut work))?,
            'S' => step_line(receiver.step(&mut short))?,
            'p' => pass_line(receiver.pass(&mut work))?,
            'P' => pass_line(receiver.pass(&mut short))?,
            'w' => work_line(heap, &work)?,
            _ => bail!("an unknown call"),
        };
        text.push_str(&more)?;
    }
    Ok(text)
}

// Whether the carrier of a closed body may be read on.
fn reusable_line(reusable: bool) -> &'static str {
    if reusable {
        "reusable\n"
    } else {
        "not reusable\n"
    }
}

impl Reading<'_> {
    // Opens the body, makes the calls and closes it.
    pub fn answers<C: Carrier + Drop>(
        &self,
        heap: Global,
        carrier: C,
        calls: &str,
    ) -> anyhow::Result<Told<C>> {
        let (mut receiver, ticket) = open(carrier, self.body, 0, self.before);
        let lines = call_lines(heap, &mut receiver, calls);
        let Closed { carrier, reusable } = close(receiver, ticket);
        let mut text = lines?;
        text.push_str(reusable_line(reusable))?;
        Ok(Told {
            text,
            left: Some(carrier),
        })
    }
}

// An empty body with this number, read to its clean end.
fn read_empty(number: u32, work: &mut [u8]) -> (Receiver<Image<'static>>, Ticket) {
    let (mut receiver, ticket) = open(Image::new(&[]), BodyKind::PlayNext, number, None);
    let _ = receiver.step(work);
    (receiver, ticket)
}

// Reads two empty bodies with these numbers, and closes each with the ticket of the other.
pub fn tickets_record(heap: Global, words: &str) -> anyhow::Result<String> {
    let (one, other) = words.split_once(' ').unwrap_or((words, words));
    let one = one.parse::<u32>()?;
    let other = other.parse::<u32>()?;
    let mut work = vec![in heap; 0; WORK_LENGTH]?;
    let (first, first_ticket) = read_empty(one, &mut work);
    let (second, second_ticket) = read_empty(other, &mut work);
    let first_line = reusable_line(close(first, second_ticket).reusable);
    let second_line = reusable_line(close(second, first_ticket).reusable);
    Ok(format!(in heap; "{first_line}{second_line}")?)
}
