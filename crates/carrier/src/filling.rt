// Fills a stretch of memory by repeated Pulls.
ghost use Rattle.std.specs.Prelude.{◌≡◌, length};
ghost use Rattle.carrier.specs.Fills.{fills, stretched, used, ran_out};

use super::{Carrier, Ending};

// The bytes came to an ending before a stretch was full.
#[derive(Clone, Copy)]
pub struct Short {
    // how many bytes came
    pub came: usize,
    pub ending: Ending,
}

pub fn fill<C: Carrier>(carrier: &mut C, out: &mut [u8]) -> Result<(), Short>
    ensures answer { result ≡ fills (C.Carrier.coming carrier.old) (C.Carrier.ending carrier.old) (length out.old) }
    ensures bytes { out.new ≡ stretched (C.Carrier.coming carrier.old) out.old }
    ensures lacks { C.Carrier.lacks carrier.old (used (C.Carrier.coming carrier.old) (length out.old)) (ran_out result) carrier.new }
{
    let len = out.len();
    let mut came = 0;
    // each Pull takes as many bytes as it likes, so that no iterator counts them
    while came < len {
        match carrier.pull(&mut out[came..len]) {
            Ok(n) => came += n,
            Err(ending) => return Err(Short { came, ending }),
        }
    }
    Ok(())
}
