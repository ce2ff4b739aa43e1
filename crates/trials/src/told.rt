// What is told of a body, and what its carrier still gives.
use anyhow::bail;
use carrier::{Carrier, Ending, Fault, Layer, Short, fill};
use std::alloc::Global;
use std::fmt;

// So many bytes that are left are too many to be shown.
const TOO_MANY: usize = 4096;

// What a carrier still gives: the bytes, and what stands behind them.
#[derive(Drop)]
struct Rest {
    bytes: Vec<u8>,
    ending: Ending,
}

impl Rest {
    // Draws all of it.
    fn drawn_from<C: Carrier>(heap: Global, carrier: &mut C) -> anyhow::Result<Rest> {
        let mut bytes = vec![in heap; 0; TOO_MANY]?;
        match fill(carrier, &mut bytes) {
            Ok(()) => bail!("more bytes than are shown"),
            Err(Short { came, ending }) => {
                bytes.truncate(came);
                Ok(Rest { bytes, ending })
            }
        }
    }
}

// The line for it: the bytes in hexadecimal, and the ending.
impl fmt::Display for Rest {
    fn fmt<W: fmt::Write>(&self, f: &mut fmt::Formatter<W>) -> fmt::Result {
        write!(f, "beneath x.")?;
        for byte in &self.bytes {
            write!(f, "{byte:02x}")?;
        }
        match self.ending {
            Ending::Clean => writeln!(f, " clean"),
            Ending::Broken(
                Fault {
                    cause,
                    place,
                    depth,
                },
            ) => writeln!(f, " broken {cause} {place} {depth}"),
        }
    }
}

// What is told of a body, and its carrier as it stands behind that.
#[derive(Drop)]
pub struct Told<C> {
    pub text: String,
    // none where the body was listed, which gives no carrier back
    pub left: Option<C>,
}

impl<L: Layer> Told<L> {
    // The same, with the carrier's uppermost layer lifted off.
    pub fn lifted(self) -> Told<L::Beneath> {
        Told {
            text: self.text,
            left: self.left.map(|layer| layer.lift()),
        }
    }
}

impl<C: Carrier + Drop> Told<C> {
    // The text, and behind it what the carrier still gives.
    pub fn with_rest(self, heap: Global) -> anyhow::Result<String> {
        let Told { mut text, left } = self;
        if let Some(mut carrier) = left {
            let rest = Rest::drawn_from(heap, &mut carrier)?.to_string(heap)?;
            text.push_str(&rest)?;
        }
        Ok(text)
    }
}
