// What stands behind the last byte of a carrier, and how a layer passes it on.
ghost use Rattle.std.specs.Prelude.{◌≡◌};
ghost use Rattle.carrier.specs.Passing.{found, deeper, passed, too_early};

// Why a carrier broke off, and where that was found.
#[derive(Clone, Copy)]
pub struct Fault {
    // what went wrong, by its number; no enum, since a carrier of any crate may have causes of its own
    pub cause: u8,
    // how many bytes its finder had drawn from beneath, or handed out where nothing is beneath
    pub place: u64,
    // how many layers stand above its finder
    pub depth: u8,
}

// What stands behind the last byte. It is the error of a Pull, and has names where an `Option<Fault>` would have none.
#[derive(Clone, Copy)]
pub enum Ending {
    Clean,
    Broken(Fault),
}

impl Fault {
    // A fault that its finder tells, by the number of its own cause: no layer stands above it yet.
    // Each finder casts its cause, whose enum has the numbers; a `From` for each would say no more.
    pub fn found(cause: u8, place: u64) -> Fault
        ensures { result ≡ found cause place }
    {
        Fault {
            cause,
            place,
            depth: 0,
        }
    }

    // The fault with one layer more above its finder.
    pub fn passed_on(self) -> Fault
        ensures { result ≡ deeper self }
    {
        Fault {
            depth: self.depth.saturating_add(1),
            ..self
        }
    }
}

impl Ending {
    // The ending as a layer tells it that found it beneath.
    pub fn passed_on(self) -> Ending
        ensures { result ≡ passed self }
    {
        match self {
            Ending::Clean => Ending::Clean,
            Ending::Broken(fault) => Ending::Broken(fault.passed_on()),
        }
    }

    // The ending as a layer tells it that wants more from beneath: the fault `early` where it is a clean one.
    pub fn too_early(self, early: Fault) -> Ending
        ensures { result ≡ too_early early self }
    {
        match self {
            Ending::Clean => Ending::Broken(early),
            Ending::Broken(_) => self.passed_on(),
        }
    }
}
