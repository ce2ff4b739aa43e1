// The ticket of a body: whoever opens a body owes its close.
ghost use Rattle.std.specs.Prelude.{◌≡◌, true, false};

pub struct Ticket {
    number: u32,
    // whether Close has taken the number; a flag, since what may be let go is told by a clause about a field
    spent: bool,
}

// Only a spent ticket can be let go. Open gives out tickets that are not spent, and only Close spends one.
impl Drop for Ticket {
    fn drop(self)
        requires close_it { self.spent ≡ true }
    {
        let Ticket {
            number: _,
            spent: _,
        } = self;
    }
}

impl Ticket {
    pub(crate) fn new(number: u32) -> Ticket
        ensures number { result.number ≡ number }
        ensures unspent { result.spent ≡ false }
    {
        Ticket {
            number,
            spent: false,
        }
    }

    // The one way to be rid of a ticket: Close takes its number, and may then let it go.
    pub(crate) fn spend(&mut self) -> u32
        ensures number { result ≡ self.old.number }
        ensures spent { self.new.spent ≡ true }
    {
        self.spent = true;
        self.number
    }
}
