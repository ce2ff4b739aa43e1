// The bytes of a case, written as words:
//
// - `D.LOCATION.INCARNATION.FLAGS.PAYLOAD`, also `H` and `M`: a packet with so many bytes of payload, which count up from
//   LOCATION + 1;
// - `E.REASON`, `C.REASON` and `P.PAYLOAD`: the other packets;
// - `groups.N`: so many groups of `$C`, `$H` and `$E`;
// - `x.HEX`: bytes in hexadecimal; `t.TEXT`: those of a text; `r`: CR LF; `fill.N.BYTE`: a byte so many times;
// - `chunked.SIZE`: what stands before it, as a chunked body with chunks of that size;
// - `cut.N`: the first so many of what stands before it;
// - `loaded`: what stands before it is loaded into the leftover layer of each body.
use std::alloc::{AllocError, Global};
use std::io::Write;
use std::iter::repeat_n;
use std::num::ParseIntError;
use std::str::FromStr;
use thiserror::Error;

// Why a text is no word.
#[derive(Debug, Drop, Error)]
pub enum WordError {
    #[error("an unknown word")]
    UnknownName,
    #[error(transparent)]
    BadNumber(#[from] ParseIntError),
}

// The numbers behind a word's name; those that are left out are 0. An array, since no word has more and each reads its own.
#[derive(Clone, Copy)]
struct Numbers([u32; 4]);

impl FromStr for Numbers {
    type Err = ParseIntError;

    fn from_str(fields: &str) -> Result<Numbers, ParseIntError> {
        let mut numbers = [0; 4];
        // `split` gives one empty field here
        if fields.is_empty() {
            return Ok(Numbers(numbers));
        }
        for (number, field) in numbers.iter_mut().zip(fields.split('.')) {
            *number = field.parse::<u32>()?;
        }
        Ok(Numbers(numbers))
    }
}

// What a word says. A letter is its byte, as it goes onto the wire.
#[derive(Clone, Copy)]
enum Word<'a> {
    // a packet by its letter, with LocationId, Incarnation, AFFlags and how long the payload is
    Framed(u8, Numbers),
    // a packet by its letter, with its Reason
    Reason(u8, u32),
    // a `$P` with so long a payload
    Pair(u32),
    Groups(u32),
    Hex(&'a str),
    Text(&'a str),
    LineEnd,
    Fill(u32, u8),
    Chunked(u32),
    Cut(u32),
    Loaded,
}

impl<'a> TryFrom<&'a str> for Word<'a> {
    type Error = WordError;

    fn try_from(word: &'a str) -> Result<Word<'a>, WordError> {
        let (name, fields) = word.split_once('.').unwrap_or((word, ""));
        match name {
            "x" => Ok(Word::Hex(fields)),
            "t" => Ok(Word::Text(fields)),
            "r" => Ok(Word::LineEnd),
            "loaded" => Ok(Word::Loaded),
            _ => numbered(name, fields.parse::<Numbers>()?),
        }
    }
}

// The word of this name and these numbers.
fn numbered<'a>(name: &str, numbers: Numbers) -> Result<Word<'a>, WordError> {
    let Numbers([first, second, _, _]) = numbers;
    match name {
        "D" => Ok(Word::Framed(b'D', numbers)),
        "H" => Ok(Word::Framed(b'H', numbers)),
        "M" => Ok(Word::Framed(b'M', numbers)),
        "C" => Ok(Word::Reason(b'C', first)),
        "E" => Ok(Word::Reason(b'E', first)),
        "P" => Ok(Word::Pair(first)),
        "groups" => Ok(Word::Groups(first)),
        "fill" => Ok(Word::Fill(first, low_byte(second))),
        "chunked" => Ok(Word::Chunked(first)),
        "cut" => Ok(Word::Cut(first)),
        _ => Err(WordError::UnknownName),
    }
}

// The lowest byte of a number; the others fall away, which `try_from` would refuse.
fn low_byte(number: u32) -> u8 {
    (number & 0xff) as u8
}

// The lowest N bytes of a number, the low one first.
pub fn push_number<const N: usize>(bytes: &mut Vec<u8>, number: u32) -> Result<(), AllocError> {
    let low = number.to_le_bytes();
    // as a slice, which is copied at once
    bytes.extend_from_slice(&low[..N.min(low.len())])
}

// Bytes that count up from behind a number, so that payloads can be told apart.
fn push_payload(bytes: &mut Vec<u8>, number: u32, count: u32) -> Result<(), AllocError> {
    bytes.extend((0..count).map(|i| low_byte(number.wrapping_add(i).wrapping_add(1))))
}

// The mark, the kind letter and PacketLength.
fn push_head(bytes: &mut Vec<u8>, letter: u8, length: u32) -> Result<(), AllocError> {
    bytes.extend_from_slice(&[b'$', letter])?;
    push_number::<2>(bytes, length)
}

// A `$D`, `$H` or `$M`.
fn push_framed(bytes: &mut Vec<u8>, letter: u8, numbers: Numbers) -> Result<(), AllocError> {
    let Numbers([location, incarnation, flags, payload]) = numbers;
    let length = payload.wrapping_add(8);
    push_head(bytes, letter, length)?;
    push_number::<4>(bytes, location)?;
    push_number::<1>(bytes, incarnation)?;
    push_number::<1>(bytes, flags)?;
    push_number::<2>(bytes, length)?;
    push_payload(bytes, location, payload)
}

// A `$C` or `$E`.
fn push_reason(bytes: &mut Vec<u8>, letter: u8, reason: u32) -> Result<(), AllocError> {
    push_head(bytes, letter, 4)?;
    push_number::<4>(bytes, reason)
}

// A `$P`.
fn push_pair(bytes: &mut Vec<u8>, payload: u32) -> Result<(), AllocError> {
    push_head(bytes, b'P', payload)?;
    push_payload(bytes, 0, payload)
}

// Groups that each may be followed by another.
fn push_groups(bytes: &mut Vec<u8>, count: u32) -> Result<(), AllocError> {
    for _ in 0..count {
        push_reason(bytes, b'C', 0)?;
        push_framed(bytes, b'H', Numbers([0, 5, 12, 0]))?;
        push_reason(bytes, b'E', 1)?;
    }
    Ok(())
}

// Bytes in hexadecimal. A loop and no `extend`, which would not stop where the digits are wrong.
fn push_hex(bytes: &mut Vec<u8>, digits: &str) -> anyhow::Result<()> {
    for pair in digits.as_bytes().chunks(2) {
        let digits = std::str::from_utf8(pair)?;
        bytes.push(u8::from_str_radix(digits, 16)?)?;
    }
    Ok(())
}

// The bytes as a chunked body.
fn chunked(heap: Global, body: &[u8], size: usize) -> Result<Vec<u8>, AllocError> {
    let mut wrapped = Vec::new(heap);
    for data in body.chunks(size.max(1)) {
        // a vector fails to take a line only where memory runs out, which is told here as everywhere
        write!(wrapped, "{:x}\r\n", data.len()).map_err(|_| AllocError)?;
        wrapped.extend_from_slice(data)?;
        wrapped.extend_from_slice(b"\r\n")?;
    }
    wrapped.extend_from_slice(b"0\r\n\r\n")?;
    Ok(wrapped)
}

// What a case is given.
#[derive(Drop)]
pub struct Given {
    // what the leftover layer is loaded with, empty where no word is `loaded`: an empty load leaves the layer as it is
    pub loaded: Vec<u8>,
    // what the lowest carrier gives
    pub bytes: Vec<u8>,
}

impl Given {
    // What the words say.
    pub fn from_words(heap: Global, words: &str) -> anyhow::Result<Given> {
        let mut given = Given {
            loaded: Vec::new(heap),
            bytes: Vec::new(heap),
        };
        for word in words.split_ascii_whitespace() {
            given.add(heap, Word::try_from(word)?)?;
        }
        Ok(given)
    }

    // Adds what a word says.
    fn add(&mut self, heap: Global, word: Word<'_>) -> anyhow::Result<()> {
        let bytes = &mut self.bytes;
        match word {
            Word::Framed(letter, numbers) => push_framed(bytes, letter, numbers)?,
            Word::Reason(letter, reason) => push_reason(bytes, letter, reason)?,
            Word::Pair(payload) => push_pair(bytes, payload)?,
            Word::Groups(count) => push_groups(bytes, count)?,
            Word::Hex(digits) => push_hex(bytes, digits)?,
            Word::Text(text) => bytes.extend_from_slice(text.as_bytes())?,
            Word::LineEnd => bytes.extend_from_slice(b"\r\n")?,
            Word::Fill(count, byte) => bytes.extend(repeat_n(byte, count as usize))?,
            Word::Chunked(size) => *bytes = chunked(heap, bytes, size as usize)?,
            Word::Cut(count) => bytes.truncate(count as usize),
            Word::Loaded => std::mem::swap(bytes, &mut self.loaded),
        }
        Ok(())
    }
}
