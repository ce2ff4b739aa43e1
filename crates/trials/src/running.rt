// The record of a case: what comes of it from an image, and from captures cut into pieces.
use super::cases::{Case, Disconnect, Reading, Wanted};
use super::told::Told;
use super::words::{Given, push_number};
use anyhow::anyhow;
use capture::Capture;
use carrier::{Carrier, Image};
use std::alloc::{AllocError, Global};

// In which pieces a capture has its bytes.
#[derive(Clone, Copy)]
enum Cut {
    // as one piece
    Whole,
    // as two, the first of so many bytes
    At(u32),
    // each byte alone
    Bytes,
}

impl Cut {
    // The lengths of the pieces of so many bytes.
    fn pieces(self, heap: Global, count: u32) -> Result<Vec<u32>, AllocError> {
        Ok(match self {
            Cut::Whole if count == 0 => Vec::new(heap),
            Cut::Whole => vec![in heap; count]?,
            Cut::At(first) => vec![in heap; first, count.wrapping_sub(first)]?,
            Cut::Bytes => vec![in heap; 1; count as usize]?,
        })
    }
}

// The capture of these bytes.
fn recorded(heap: Global, bytes: &[u8], cut: Cut, ending: Disconnect) -> anyhow::Result<Vec<u8>> {
    let count = u32::try_from(bytes.len())?;
    let pieces = cut.pieces(heap, count)?;
    let mut record = Vec::new(heap);
    push_number::<4>(&mut record, u32::try_from(pieces.len())?)?;
    for piece in pieces {
        push_number::<4>(&mut record, piece)?;
    }
    push_number::<4>(&mut record, count)?;
    record.extend_from_slice(bytes)?;
    push_number::<4>(&mut record, 1)?;
    record.push(u8::from(ending))?;
    Ok(record)
}

// How many lines a text has, and the last of them.
fn tail_of(heap: Global, text: &str) -> Result<String, AllocError> {
    let count = text.lines().count();
    let last = text.lines().last().unwrap_or("");
    format!(in heap; "{count} lines, the last {last}\n")
}

// A case, and what it is given.
#[derive(Drop)]
pub struct Trial<'a> {
    pub heap: Global,
    case: Case<'a>,
    // the bodies that are read behind the first
    behind: Vec<Reading<'a>>,
    pub given: Given,
}

impl<'a> Trial<'a> {
    // The trial that a line of the table writes: a case, and behind it ` | READING` for each body that is read behind the first.
    fn new(heap: Global, text: &'a str) -> anyhow::Result<Trial<'a>> {
        let mut texts = text.split(" | ");
        let case = Case::try_from(texts.next().unwrap_or(""))?;
        let behind = texts
            .map(|text| -> anyhow::Result<Reading> { Ok(Reading::try_from(text)?) })
            .try_collect(heap)?;
        let given = Given::from_words(heap, case.words)?;
        Ok(Trial {
            heap,
            case,
            behind,
            given,
        })
    }

    // Reads a body from what is left behind others, and adds its text to theirs.
    fn read_on<C: Carrier + Drop>(
        &self,
        told: Told<C>,
        reading: &Reading<'_>,
    ) -> anyhow::Result<Told<C>> {
        let Told { mut text, left } = told;
        let lowest = left.ok_or_else(|| anyhow!("nothing is left behind a listing"))?;
        let more = self.read_stack(reading, lowest)?;
        text.push_str(&more.text)?;
        Ok(Told {
            text,
            left: more.left,
        })
    }

    // Reads the bodies one behind the other, and shows what the lowest carrier still gives.
    fn read_bodies<C: Carrier + Drop>(&self, lowest: C) -> anyhow::Result<String> {
        let first = self.read_stack(&self.case.first, lowest)?;
        self.behind
            .iter()
            .try_fold(first, |told, reading| self.read_on(told, reading))?
            .with_rest(self.heap)
    }

    // What comes of the case from a capture.
    fn read_capture(&self, cut: Cut) -> anyhow::Result<String> {
        let record = recorded(self.heap, &self.given.bytes, cut, self.case.ending)?;
        let capture = Capture::try_from(record.as_slice()).map_err(|_| anyhow!("no capture"))?;
        self.read_bodies(capture)
    }

    // What comes of the case from one piece: an image where the ending is clean.
    fn read_one_piece(&self) -> anyhow::Result<String> {
        match self.case.ending {
            Disconnect::Clean => self.read_bodies(Image::new(&self.given.bytes)),
            Disconnect::Broken => self.read_capture(Cut::Whole),
        }
    }

    // Whether a cut gives another text.
    fn differs(&self, cut: Cut, text: &str) -> anyhow::Result<bool> {
        Ok(self.read_capture(cut)?.as_str() != text)
    }

    // How many of all cuts give another text: whole, into two pieces, and byte by byte.
    fn disagreements(&self, text: &str) -> anyhow::Result<u32> {
        let count = u32::try_from(self.given.bytes.len())?;
        (1..count)
            .map(Cut::At)
            .chain([Cut::Whole, Cut::Bytes])
            .try_fold(0u32, |others, cut| -> anyhow::Result<u32> {
                Ok(others.saturating_add(u32::from(self.differs(cut, text)?)))
            })
    }

    // The text, and a line that says whether all cuts give it.
    fn with_cuts(&self, text: &str) -> anyhow::Result<String> {
        Ok(match self.disagreements(text)? {
            0 => format!(in self.heap; "{text}= all cuts\n")?,
            others => format!(in self.heap; "{text}= {others} cuts differ\n")?,
        })
    }

    // What is recorded of the case.
    fn record(&self) -> anyhow::Result<String> {
        let text = self.read_one_piece()?;
        match self.case.first.wanted {
            Wanted::Every | Wanted::Calls(_) => self.with_cuts(&text),
            Wanted::Tail => Ok(tail_of(self.heap, &text)?),
            Wanted::Once => Ok(text),
        }
    }
}

// The record of a case.
pub fn record_of(heap: Global, text: &str) -> anyhow::Result<String> {
    Trial::new(heap, text)?.record()
}
