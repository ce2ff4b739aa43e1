// One call of a list, and its reply.
ghost use Rattle.std.specs.Prelude.{◌≡◌};
ghost use Rattle.receiver.specs.Views.{view, Moved};
ghost use Rattle.calls.specs.Calling.{called};

use carrier::Carrier;
use receiver::{Answer, PassRefusal, Passed, Receiver, StepRefusal};

// A call, with the length of the buffer that it is lent: no struct of a kind and a length, since each call is read by its case.
#[derive(Clone, Copy)]
pub enum Call {
    Step(usize),
    Pass(usize),
}

// What a call answered.
#[derive(Clone, Copy)]
pub enum Reply {
    Step(Result<Answer, StepRefusal>),
    Pass(Result<Passed, PassRefusal>),
}

// Makes a call, which is lent the front of the work buffer, as long as it says or as there is.
#[tactic(auto, using(std::proofs::lemmas::List::take_min, std::proofs::lemmas::List::drop_min))]
pub(crate) fn make_call<C: Carrier>(
    receiver: &mut Receiver<C>,
    call: Call,
    work: &mut [u8],
) -> Reply
    ensures replied { result ≡ (called (view C.Carrier receiver.old) work.old call).replied }
    ensures buffer { work.new ≡ (called (view C.Carrier receiver.old) work.old call).buffer }
    ensures moved { let made = called (view C.Carrier receiver.old) work.old call in Moved C.Carrier receiver.old made.standing made.usage receiver.new }
{
    let room = work.len();
    match call {
        Call::Step(length) => Reply::Step(receiver.step(&mut work[..length.min(room)])),
        Call::Pass(length) => Reply::Pass(receiver.pass(&mut work[..length.min(room)])),
    }
}
