// The leftover layer: gives the bytes loaded into it, and then those beneath.
ghost use Rattle.std.specs.Prelude.{◌≡◌, ◌≤◌, [], length, OnOk, OnErr};

use carrier::{Carrier, Ending, Layer, hand_out};

// Why bytes are not loaded.
#[derive(Clone, Copy)]
pub enum LoadRefusal {
    // more than the layer has room for
    TooManyBytes = 71,
    // bytes loaded before are still to be given
    StillLoaded = 72,
}

// The number that a refusal is told by.
impl From<LoadRefusal> for u8 {
    ghost use Rattle.layers.specs.Leftovers.{refusal_number};

    ghost from_gives = { λ refusal n. n ≡ refusal_number refusal };

    fn from(refusal: LoadRefusal) -> u8 {
        refusal as u8
    }
}

// How many bytes can be loaded at once.
const ROOM: usize = 4096;

#[derive(Drop)]
pub struct Leftover<C> {
    beneath: C,
    // the loaded bytes, at the back of an array: a layer allocates nothing, and a Pull moves no byte that remains
    bytes: [u8; ROOM],
    // where those that are still to be given begin
    at: usize,
    ghost within: { at ≤ 4096 },
}

impl<C: Carrier> Leftover<C> {
    ghost use Rattle.layers.specs.Leftovers.{held, gives, loads, LoadedFirst, LoadFacts};
    ghost use Rattle.layers.specs.Examples.{ExamplesHold};
    ghost use Rattle.carrier.specs.Passing.{passed};

    // Nothing is loaded. The worked examples stand at each `new` that makes a layer, which is where a reader looks for them.
    pub fn new(beneath: C) -> Leftover<C>
        ensures beneath { result.beneath ≡ beneath }
        ensures held { held result ≡ [] }
        ensures loaded_first { LoadedFirst [] (C.Carrier.coming beneath) (C.Carrier.ending beneath) (gives (held result) (C.Carrier.coming result.beneath)) (passed (C.Carrier.ending result.beneath)) }
        ensures examples_hold { ExamplesHold }
    {
        Leftover {
            beneath,
            bytes: [0; ROOM],
            at: ROOM,
        }
    }

    // Has these bytes given next, also after the ending was told. Refused while bytes loaded before remain.
    pub fn load(&mut self, bytes: &[u8]) -> Result<(), LoadRefusal>
        ensures answer { result ≡ loads (length (held self.old)) (length bytes.now) }
        ensures beneath { self.new.beneath ≡ self.old.beneath }
        ensures held { OnOk result (held self.new ≡ bytes.now) }
        ensures loaded { OnOk result (LoadedFirst bytes.now (C.Carrier.coming self.old.beneath) (C.Carrier.ending self.old.beneath) (gives (held self.new) (C.Carrier.coming self.new.beneath)) (passed (C.Carrier.ending self.new.beneath))) }
        ensures refused { OnErr result (self.new ≡ self.old) }
        ensures facts { LoadFacts }
    {
        if bytes.len() > ROOM {
            return Err(LoadRefusal::TooManyBytes);
        }
        if !self.loaded().is_empty() {
            return Err(LoadRefusal::StillLoaded);
        }
        self.at = ROOM - bytes.len();
        self.bytes[self.at..].copy_from_slice(bytes);
        Ok(())
    }

    // The loaded bytes that remain.
    fn loaded(&self) -> &[u8]
        ensures { result.now ≡ held self.now }
    {
        &self.bytes[self.at..]
    }
}

impl<C: Carrier> Carrier for Leftover<C> {
    ghost use Rattle.layers.specs.Leftovers.{held, gives, Uses, leftover_adds};
    ghost use Rattle.carrier.specs.Passing.{passed};

    ghost coming = { λ s. gives (held s) (C.Carrier.coming s.beneath) };

    ghost ending = { λ s. passed (C.Carrier.ending s.beneath) };

    ghost lacks = { Uses C.Carrier.lacks };

    fn pull(&mut self, out: &mut [u8]) -> Result<usize, Ending> {
        let mut loaded = self.loaded();
        if loaded.is_empty() {
            return self.beneath.pull(out).map_err(Ending::passed_on);
        }
        // only loaded bytes, also where there is room for more
        let n = hand_out(&mut loaded, out);
        self.at += n;
        Ok(n)
    }

    ghost adds = { leftover_adds C.Carrier.adds };
}

impl<C: Carrier> Layer for Leftover<C> {
    type Beneath = C;

    ghost beneath = { λ s. s.beneath };

    // The loaded bytes are let go.
    fn lift(self) -> C {
        self.beneath
    }
}
