// The sections of a capture, each behind a count of its items. Each contract compares case by case with its definition, since what
// is read borrows and is compared by its bytes.
ghost use Rattle.std.specs.Prelude.{◌≡◌, Ok, Err};
ghost use Rattle.capture.specs.Sections.{counted, parted, section, sections};
ghost use Rattle.capture.specs.Captures.{refusal_number};

// Why a byte string is no capture.
#[derive(Clone, Copy)]
pub enum CaptureRefusal {
    // there are more than 4,096 pieces
    TooManyPieces = 61,
    // a section is cut short, or bytes stand behind the third
    CutShort = 62,
    // a piece is empty, or the pieces do not make up the bytes
    PiecesDisagree = 63,
    // there is not one ending, or it is neither clean nor broken
    BadEnding = 64,
}

// The number that a refusal is told by.
impl From<CaptureRefusal> for u8 {
    ghost from_gives = { λ refusal number. number ≡ refusal_number refusal };

    fn from(refusal: CaptureRefusal) -> u8 {
        refusal as u8
    }
}

// What a capture finds wrong when it is replayed.
#[derive(Clone, Copy)]
pub enum CaptureCause {
    // the recorded connection broke off
    LineBroke = 7,
}

const MOST_PIECES: u32 = 4096;

// What the three sections hold. The lengths stay as they are written: that is what the definitions of a recording speak of.
pub(crate) struct Sections<'a> {
    pub(crate) lengths: &'a [u8],
    pub(crate) bytes: &'a [u8],
    pub(crate) endings: &'a [u8],
}

// A count, and what follows it.
fn read_count(input: &[u8]) -> Result<(u32, &[u8]), CaptureRefusal>
    ensures { elim result [ Ok s ↦ counted input.now ≡ Ok (s.0, s.1.now) | Err e ↦ counted input.now ≡ Err e ] }
{
    let (count, rest) = input
        .split_first_chunk::<4>()
        .ok_or(CaptureRefusal::CutShort)?;
    Ok((u32::from_le_bytes(*count), rest))
}

// The first so many bytes, and what follows them.
fn part(input: &[u8], size: usize) -> Result<(&[u8], &[u8]), CaptureRefusal>
    ensures { elim result [ Ok s ↦ parted size input.now ≡ Ok (s.0.now, s.1.now) | Err e ↦ parted size input.now ≡ Err e ] }
{
    input.split_at_checked(size).ok_or(CaptureRefusal::CutShort)
}

// A section whose items are bytes, and what follows it.
fn read_section(input: &[u8]) -> Result<(&[u8], &[u8]), CaptureRefusal>
    ensures { elim result [ Ok s ↦ section input.now ≡ Ok (s.0.now, s.1.now) | Err e ↦ section input.now ≡ Err e ] }
{
    let (count, rest) = read_count(input)?;
    part(rest, count as usize)
}

// All three, with nothing behind them.
pub(crate) fn read_sections(input: &[u8]) -> Result<Sections<'_>, CaptureRefusal>
    ensures { elim result [ Ok s ↦ sections input.now ≡ Ok (s.lengths.now, s.bytes.now, s.endings.now) | Err e ↦ sections input.now ≡ Err e ] }
{
    let (count, rest) = read_count(input)?;
    if count > MOST_PIECES {
        return Err(CaptureRefusal::TooManyPieces);
    }
    let (lengths, rest) = part(rest, 4 * count as usize)?;
    let (bytes, rest) = read_section(rest)?;
    let (endings, rest) = read_section(rest)?;
    if !rest.is_empty() {
        return Err(CaptureRefusal::CutShort);
    }
    Ok(Sections {
        lengths,
        bytes,
        endings,
    })
}
