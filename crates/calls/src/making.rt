// Lists of calls on a new receiver, alike on two carriers.
ghost use Rattle.std.specs.Prelude.{◌≡◌, ◌≤◌, length, vec_len, vec_capacity};
ghost use Rattle.receiver.specs.Views.{view, Moved};
ghost use Rattle.calls.specs.Calling.{calls_run};
ghost use Rattle.calls.specs.Outcomes.{RunsFrom, Agree, SameAnswers};
ghost use Rattle.calls.specs.Law.{KeepsTheLaw};

use super::replies::{Call, Reply, make_call};
use carrier::Carrier;
use packet::BodyKind;
use receiver::{Closed, Receiver, close, open};
use std::alloc::Global;

// A body to open, and the calls to make.
#[derive(Clone, Copy)]
pub struct Script<'a> {
    pub body: BodyKind,
    pub number: u32,
    // the Incarnation from before
    pub before: Option<u8>,
    pub calls: &'a [Call],
}

// What a run gives back: the replies, and the receiver closed.
pub struct Ran<C> {
    pub replies: Vec<Reply>,
    pub closed: Closed<C>,
}

// There was no memory for the replies: nothing was called, and here is the carrier.
pub struct NoMemory<C> {
    pub carrier: C,
}

// Makes the same calls on a new receiver over each of two carriers, which are of two types. Its contract is the law of runs.
pub fn run_alike<C: Carrier, D: Carrier>(
    heap: Global,
    left: C,
    right: D,
    script: Script<'_>,
    left_work: &mut [u8],
    right_work: &mut [u8],
) -> (Result<Ran<C>, NoMemory<C>>, Result<Ran<D>, NoMemory<D>>)
    ensures left_runs { RunsFrom C.Carrier script.entry left left_work.old result.0 left_work.new }
    ensures right_runs { RunsFrom D.Carrier script.entry right right_work.old result.1 right_work.new }
    ensures left_law { KeepsTheLaw C.Carrier script.entry left left_work.old result.0 left_work.new }
    ensures right_law { KeepsTheLaw D.Carrier script.entry right right_work.old result.1 right_work.new }
    ensures same_bytes_same_answers { Agree C.Carrier left D.Carrier right → left_work.old ≡ right_work.old → SameAnswers result.0 result.1 left_work.new right_work.new }
{
    let left_run = run(heap, left, script, left_work);
    let right_run = run(heap, right, script, right_work);
    (left_run, right_run)
}

// Opens a receiver, makes the calls, and closes it.
fn run<C: Carrier>(
    heap: Global,
    carrier: C,
    script: Script<'_>,
    work: &mut [u8],
) -> Result<Ran<C>, NoMemory<C>>
    ensures { RunsFrom C.Carrier script.entry carrier work.old result work.new }
{
    let Ok(mut replies) = Vec::with_capacity(heap, script.calls.len()) else {
        return Err(NoMemory { carrier });
    };
    let (mut receiver, ticket) = open(carrier, script.body, script.number, script.before);
    make_calls(&mut receiver, script.calls, work, &mut replies);
    let closed = close(receiver, ticket);
    Ok(Ran { replies, closed })
}

// Makes the calls one after another, and adds their replies.
fn make_calls<C: Carrier>(
    receiver: &mut Receiver<C>,
    calls: &[Call],
    work: &mut [u8],
    replies: &mut Vec<Reply>,
)
    requires empty { vec_len replies.old ≡ 0 }
    requires room { length calls.now ≤ vec_capacity replies.old }
    ensures replied { replies.new.items ≡ (calls_run (view C.Carrier receiver.old) work.old calls.now).replies }
    ensures buffer { work.new ≡ (calls_run (view C.Carrier receiver.old) work.old calls.now).buffer }
    ensures moved { let run = calls_run (view C.Carrier receiver.old) work.old calls.now in Moved C.Carrier receiver.old run.standing run.usage receiver.new }
{
    for &call in calls {
        replies.push_reserved(make_call(receiver, call, work));
    }
}
