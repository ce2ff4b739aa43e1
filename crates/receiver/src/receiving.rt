// Open, Step, Pass and Close.
ghost use Rattle.std.specs.Prelude.{◌≡◌, ◌≤◌, false, ◌&&◌, length, ◌==◌};
ghost use Rattle.receiver.specs.Draws.{laid_over};
ghost use Rattle.receiver.specs.Passes.{passes, passed, pass_standing, pass_buffer, pass_usage};
ghost use Rattle.receiver.specs.Steps.{opened, ended, advanced, advance_front, advance_usage, stepped, step_standing, step_front, step_usage};
ghost use Rattle.receiver.specs.Views.{view, Moved};

use super::answers::{Answer, Counted, PassRefusal, Passed, StepRefusal, counted_as};
use super::drawing::draw;
use super::standings::{Progress, Standing};
use super::tickets::Ticket;
use carrier::Carrier;
use packet::BodyKind;

// The least length of a work buffer: every payload fits.
pub const WORK_LENGTH: usize = 65_535;

pub struct Receiver<C> {
    carrier: C,
    number: u32,
    standing: Standing,
}

// What Close gives back.
#[derive(Drop)]
pub struct Closed<C> {
    pub carrier: C,
    // whether the body was read to its clean end, so that another may be read from the carrier; beside it, since the carrier is
    // given back in either case
    pub reusable: bool,
}

// A receiver for a body, and the ticket that closes it. Each reader opens and closes by itself: a function around a closure would
// have to say again what each closure promises.
// The Incarnation from before counts for PlayNext only; it is a parameter of its own, as a caller has it whatever the kind.
pub fn open<C: Carrier>(
    carrier: C,
    body: BodyKind,
    number: u32,
    before: Option<u8>,
) -> (Receiver<C>, Ticket)
    ensures carrier { result.0.carrier ≡ carrier }
    ensures number { (result.0.number ≡ number) × (result.1.number ≡ number) }
    ensures unspent { result.1.spent ≡ false }
    ensures standing { result.0.standing ≡ opened body before }
{
    let receiver = Receiver {
        carrier,
        number,
        standing: Standing::opened(body, before),
    };
    (receiver, Ticket::new(number))
}

impl<C: Carrier> Receiver<C> {
    // Reads one packet, its payload to the front of `work`; or tells the end, or a fault.
    // What Step and `advance` lay over the buffer differs, so that their clauses share the word `laid_over` alone.
    pub fn step(&mut self, work: &mut [u8]) -> Result<Answer, StepRefusal>
        ensures answer { result ≡ stepped (view C.Carrier self.old) (length work.old) }
        ensures buffer { work.new ≡ laid_over (step_front (view C.Carrier self.old) (length work.old)) work.old }
        ensures moved { Moved C.Carrier self.old (step_standing (view C.Carrier self.old) (length work.old)) (step_usage (view C.Carrier self.old) (length work.old)) self.new }
    {
        let Some(work) = work.first_chunk_mut() else {
            return Err(StepRefusal::ShortWorkBuffer);
        };
        Ok(self.advance(work))
    }

    // A Step whose work buffer is long enough. Its length has a clause that the proofs of both callers read:
    // `laid_over` alone does not say it.
    fn advance(&mut self, work: &mut [u8; WORK_LENGTH]) -> Answer
        ensures answer { result ≡ (advanced (view C.Carrier self.old)).answer }
        ensures buffer { work.new ≡ laid_over (advance_front (view C.Carrier self.old)) work.old }
        ensures length { length work.new ≡ 65535 }
        ensures moved { Moved C.Carrier self.old (advanced (view C.Carrier self.old)).standing (advance_usage (view C.Carrier self.old)) self.new }
    {
        match self.standing.progress {
            Progress::Reading(at) => {
                let drawn = draw(&mut self.carrier, work);
                self.standing.settle(at, drawn)
            }
            Progress::Ended(_) => Answer::End(self.standing.place),
            Progress::Failed(failure) => Answer::Failed(failure),
        }
    }

    // Steps over data packets, delivered and stale, up to anything else.
    pub fn pass(&mut self, work: &mut [u8]) -> Result<Passed, PassRefusal>
        ensures answer { result ≡ passed (view C.Carrier self.old) work.old }
        ensures buffer { work.new ≡ pass_buffer (view C.Carrier self.old) work.old }
        ensures moved { Moved C.Carrier self.old (pass_standing (view C.Carrier self.old) work.old) (pass_usage (view C.Carrier self.old) work.old) self.new }
    {
        // as Step begins, with a refusal of Pass's own
        let Some(work) = work.first_chunk_mut() else {
            return Err(PassRefusal::ShortWorkBuffer);
        };
        if !self.standing.has_header() {
            return Err(PassRefusal::NoHeaderInForce);
        }
        Ok(self.pass_over(work))
    }

    // A Pass that is granted.
    fn pass_over(&mut self, work: &mut [u8; WORK_LENGTH]) -> Passed
        ensures answer { result ≡ (passes (view C.Carrier self.old) work.old).passed }
        ensures buffer { work.new ≡ (passes (view C.Carrier self.old) work.old).buffer }
        ensures length { length work.new ≡ 65535 }
        ensures moved { Moved C.Carrier self.old (passes (view C.Carrier self.old) work.old).standing (passes (view C.Carrier self.old) work.old).usage self.new }
    {
        // counted by hand, since counts stop at their greatest value
        let mut delivered = 0u64;
        let mut stale = 0u64;
        loop {
            let answer = self.advance(work);
            let Some(counted) = counted_as(answer) else {
                return Passed {
                    answer,
                    delivered,
                    stale,
                };
            };
            match counted {
                Counted::Delivered => delivered = delivered.saturating_add(1),
                Counted::Stale => stale = stale.saturating_add(1),
            }
        }
    }
}

// The carrier back, reusable where the clean end was answered and the ticket is this body's.
pub fn close<C: Carrier>(receiver: Receiver<C>, mut ticket: Ticket) -> Closed<C>
    ensures carrier { result.carrier ≡ receiver.carrier }
    ensures reusable { result.reusable ≡ (ended receiver.standing && receiver.number == ticket.number) }
{
    let Receiver {
        carrier,
        number,
        standing,
    } = receiver;
    let shown = ticket.spend();
    Closed {
        carrier,
        reusable: standing.ended() && number == shown,
    }
}
