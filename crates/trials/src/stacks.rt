// A body read from one lowest carrier: the layers are put over it, and lifted off again behind the body.
use super::cases::{Above, Reading, Stack, Wanted};
use super::running::Trial;
use super::told::Told;
use anyhow::anyhow;
use carrier::{Carrier, Layer};
use chunks::Chunks;
use layers::{Leftover, Length};
use listing::list_body;

impl Trial<'_> {
    // Reads the body that a carrier gives.
    fn read<C: Carrier + Drop>(
        &self,
        reading: &Reading<'_>,
        carrier: C,
    ) -> anyhow::Result<Told<C>> {
        // an arm for each reader: the calls that the case lists, or the listing
        match reading.wanted {
            Wanted::Calls(calls) => reading.answers(self.heap, carrier, calls),
            Wanted::Every | Wanted::Once | Wanted::Tail => Ok(Told {
                text: list_body(self.heap, carrier, reading.body, reading.before)?,
                left: None,
            }),
        }
    }

    // Reads it through the empty layers above: an arm for each count, which makes another type.
    fn read_above<C: Carrier + Drop>(
        &self,
        reading: &Reading<'_>,
        carrier: C,
    ) -> anyhow::Result<Told<C>> {
        match reading.above {
            Above::Nothing => self.read(reading, carrier),
            Above::One => Ok(self.read(reading, Leftover::new(carrier))?.lifted()),
            Above::Two => {
                let two = Leftover::new(Leftover::new(carrier));
                Ok(self.read(reading, two)?.lifted().lifted())
            }
        }
    }

    // Reads it through a layer of the stack, which is lifted off again.
    fn read_through<L: Layer + Drop>(
        &self,
        reading: &Reading<'_>,
        layer: L,
    ) -> anyhow::Result<Told<L::Beneath>> {
        Ok(self.read_above(reading, layer)?.lifted())
    }

    // Reads it through two layers of the stack, one over the other.
    fn read_through_two<Upper: Layer<Beneath = Lower> + Drop, Lower: Layer>(
        &self,
        reading: &Reading<'_>,
        layers: Upper,
    ) -> anyhow::Result<Told<Lower::Beneath>> {
        Ok(self.read_through(reading, layers)?.lifted())
    }

    // A leftover layer over a carrier, loaded as the case says.
    fn loaded<C: Carrier + Drop>(&self, beneath: C) -> anyhow::Result<Leftover<C>> {
        let mut leftover = Leftover::new(beneath);
        leftover
            .load(&self.given.loaded)
            .map_err(|_| anyhow!("bytes that cannot be loaded"))?;
        Ok(leftover)
    }

    // Reads a body from the lowest carrier, through the layers of its stack: an arm for each stack, since each is a type of its own,
    // and a function that made a boxed carrier of any of them could not hand it out.
    pub fn read_stack<C: Carrier + Drop>(
        &self,
        reading: &Reading<'_>,
        lowest: C,
    ) -> anyhow::Result<Told<C>> {
        match reading.stack {
            Stack::Bare => self.read_above(reading, lowest),
            Stack::Chunk => self.read_through(reading, Chunks::new(lowest)),
            Stack::Length(length) => self.read_through(reading, Length::new(lowest, length)),
            Stack::Leftover => self.read_through(reading, self.loaded(lowest)?),
            Stack::ChunkOverLength(length) => {
                self.read_through_two(reading, Chunks::new(Length::new(lowest, length)))
            }
            Stack::LengthOverChunk(length) => {
                self.read_through_two(reading, Length::new(Chunks::new(lowest), length))
            }
            Stack::LeftoverOverChunk => {
                self.read_through_two(reading, self.loaded(Chunks::new(lowest))?)
            }
            Stack::LeftoverOverLength(length) => {
                self.read_through_two(reading, self.loaded(Length::new(lowest, length))?)
            }
            Stack::ChunkOverLeftover => {
                self.read_through_two(reading, Chunks::new(self.loaded(lowest)?))
            }
            Stack::ChunkOverChunk => {
                self.read_through_two(reading, Chunks::new(Chunks::new(lowest)))
            }
        }
    }
}
