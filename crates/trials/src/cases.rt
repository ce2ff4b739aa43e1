// A case: what is given, and how the bodies are read that stand in it one behind the other, each through layers of its own.
use packet::BodyKind;
use std::num::ParseIntError;
use std::str::{FromStr, SplitN};
use thiserror::Error;

// Why a text is no case.
#[derive(Debug, Drop, Error)]
pub enum CaseError {
    #[error("an unknown body")]
    UnknownBody,
    #[error("an unknown stack")]
    UnknownStack,
    #[error("an unknown number of layers")]
    UnknownAbove,
    #[error("an unknown ending")]
    UnknownEnding,
    #[error(transparent)]
    BadNumber(#[from] ParseIntError),
}

// What is recorded of a body.
#[derive(Clone, Copy)]
pub enum Wanted<'a> {
    // the listing, and that it is the same in whatever pieces the bytes come
    Every,
    // the listing, from one piece
    Once,
    // how many lines the listing has, and the last of them
    Tail,
    // the answers to some calls and what they leave beneath, and that it is the same in whatever pieces the bytes come: `s` a
    // Step, `p` a Pass; `S` and `P` with a work buffer that is too short; `w` shows the front of the work buffer
    Calls(&'a str),
}

// A name, or else the calls; `-` for none. Not by `parse`, which could not keep the text of the calls.
impl<'a> From<&'a str> for Wanted<'a> {
    fn from(name: &'a str) -> Wanted<'a> {
        match name {
            "every" => Wanted::Every,
            "once" => Wanted::Once,
            "tail" => Wanted::Tail,
            "-" => Wanted::Calls(""),
            calls => Wanted::Calls(calls),
        }
    }
}

// The layers over the lowest carrier, the upper ones first; a length layer with its length.
#[derive(Clone, Copy)]
pub enum Stack {
    Bare,
    Chunk,
    Length(u64),
    Leftover,
    ChunkOverLength(u64),
    LengthOverChunk(u64),
    LeftoverOverChunk,
    LeftoverOverLength(u64),
    ChunkOverLeftover,
    ChunkOverChunk,
}

// The names of the layers, and the length, which counts only where there is a length layer; the names are looked at first.
impl TryFrom<(&str, &str)> for Stack {
    type Error = CaseError;

    fn try_from((names, length): (&str, &str)) -> Result<Stack, CaseError> {
        let length = length.parse::<u64>();
        let stack = match names {
            "bare" => length.map(|_| Stack::Bare),
            "chunk" => length.map(|_| Stack::Chunk),
            "length" => length.map(Stack::Length),
            "leftover" => length.map(|_| Stack::Leftover),
            "chunk/length" => length.map(Stack::ChunkOverLength),
            "length/chunk" => length.map(Stack::LengthOverChunk),
            "leftover/chunk" => length.map(|_| Stack::LeftoverOverChunk),
            "leftover/length" => length.map(Stack::LeftoverOverLength),
            "chunk/leftover" => length.map(|_| Stack::ChunkOverLeftover),
            "chunk/chunk" => length.map(|_| Stack::ChunkOverChunk),
            _ => return Err(CaseError::UnknownStack),
        };
        Ok(stack?)
    }
}

// How many empty leftover layers stand above those. No number: each count makes another type of carrier, so only these are built.
#[derive(Clone, Copy)]
pub enum Above {
    Nothing,
    One,
    Two,
}

impl FromStr for Above {
    type Err = CaseError;

    fn from_str(name: &str) -> Result<Above, CaseError> {
        match name {
            "+0" => Ok(Above::Nothing),
            "+1" => Ok(Above::One),
            "+2" => Ok(Above::Two),
            _ => Err(CaseError::UnknownAbove),
        }
    }
}

// How the connection ends behind the bytes. A carrier's `Ending` would ask for the fault, which a capture makes.
#[derive(Clone, Copy)]
pub enum Disconnect {
    Clean,
    Broken,
}

impl FromStr for Disconnect {
    type Err = CaseError;

    fn from_str(name: &str) -> Result<Disconnect, CaseError> {
        match name {
            "clean" => Ok(Disconnect::Clean),
            "broken" => Ok(Disconnect::Broken),
            _ => Err(CaseError::UnknownEnding),
        }
    }
}

// The byte that tells it in a capture.
impl From<Disconnect> for u8 {
    fn from(ending: Disconnect) -> u8 {
        match ending {
            Disconnect::Clean => 0,
            Disconnect::Broken => 1,
        }
    }
}

// How a body is read.
#[derive(Clone, Copy)]
pub struct Reading<'a> {
    pub wanted: Wanted<'a>,
    pub body: BodyKind,
    pub before: Option<u8>,
    pub stack: Stack,
    pub above: Above,
}

// The first body, and what is given.
#[derive(Clone, Copy)]
pub struct Case<'a> {
    pub first: Reading<'a>,
    pub ending: Disconnect,
    // the bytes, in words
    pub words: &'a str,
}

// A function: `BodyKind` is packet's, and can have no `FromStr` here; one for a newtype around it would say no more.
fn body_named(name: &str) -> Result<BodyKind, CaseError> {
    match name {
        "describe" => Ok(BodyKind::Describe),
        "play" => Ok(BodyKind::Play),
        "next" => Ok(BodyKind::PlayNext),
        _ => Err(CaseError::UnknownBody),
    }
}

// A number, or `-` for none; a function too, since `Option` is std's.
fn before_named(name: &str) -> Result<Option<u8>, CaseError> {
    match name {
        "-" => Ok(None),
        number => Ok(Some(number.parse::<u8>()?)),
    }
}

// The columns of a text, from the left. One that is missing is empty; the eighth holds all words.
#[derive(Drop)]
struct Columns<'a>(SplitN<'a, char>);

impl<'a> Columns<'a> {
    fn of(text: &'a str) -> Columns<'a> {
        Columns(text.splitn(8, ' '))
    }

    fn take(&mut self) -> &'a str {
        self.0.next().unwrap_or("")
    }

    // How a body is read: `WANTED BODY BEFORE STACK LENGTH ABOVE`.
    fn take_reading(&mut self) -> Result<Reading<'a>, CaseError> {
        Ok(Reading {
            wanted: Wanted::from(self.take()),
            body: body_named(self.take())?,
            before: before_named(self.take())?,
            stack: Stack::try_from((self.take(), self.take()))?,
            above: self.take().parse::<Above>()?,
        })
    }
}

impl<'a> TryFrom<&'a str> for Reading<'a> {
    type Error = CaseError;

    fn try_from(text: &'a str) -> Result<Reading<'a>, CaseError> {
        Columns::of(text).take_reading()
    }
}

// A case written as `READING ENDING WORDS..`.
impl<'a> TryFrom<&'a str> for Case<'a> {
    type Error = CaseError;

    fn try_from(text: &'a str) -> Result<Case<'a>, CaseError> {
        let mut columns = Columns::of(text);
        Ok(Case {
            first: columns.take_reading()?,
            ending: columns.take().parse::<Disconnect>()?,
            words: columns.take(),
        })
    }
}
