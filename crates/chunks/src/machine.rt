// The byte-by-byte machine: what each byte of a chunked body does to where a reader stands in it.
ghost use Rattle.std.specs.Prelude.{◌≡◌};
ghost use Rattle.chunks.specs.Machine.{digit_of, after_size, after_extension, after_size_cr, after_data, after_data_cr, after_trailer, line_after, next_state};

const CR: u8 = b'\r';

const LF: u8 = b'\n';

const SEMICOLON: u8 = b';';

const MOST_DIGITS: u8 = 8;

const LONGEST_EXTENSION: u16 = 256;

const LONGEST_TRAILER: u16 = 1024;

// Why the bytes are no chunked body.
#[derive(Clone, Copy)]
pub enum ChunkCause {
    // a byte that a size line cannot have there
    BadSizeLine = 1,
    NinthDigit = 2,
    // an extension of more than 256 bytes
    LongExtension = 3,
    // no CR LF behind a chunk's data
    NoLineEnd = 4,
    // a trailer of more than 1,024 bytes
    LongTrailer = 5,
    // a clean end beneath before the body's end
    EndsEarly = 6,
}

// Where in a line of the trailer.
#[derive(Clone, Copy)]
pub enum Line {
    // at its first byte
    Start,
    // behind a CR that is its first byte
    StartCr,
    // behind any other byte but a CR
    Inside,
    // behind any other CR
    InsideCr,
}

// Where in a chunked body, in the order of its parts.
#[derive(Clone, Copy)]
pub enum State {
    // in the digits of a size line
    Size { digits: u8, value: u32 },
    // in an extension, of which so many bytes have come
    Extension { length: u16, value: u32 },
    // behind the CR of a size line
    SizeCr { value: u32 },
    // in a chunk, of whose data so many bytes are still to come; with none, a CR is due
    Data { left: u32 },
    // behind the CR that follows the data
    DataCr,
    // in the trailer, of which so many bytes have come
    Trailer { length: u16, line: Line },
    Done,
    Failed(ChunkCause),
}

impl State {
    // At the first digit of a size line.
    pub const START: State = State::Size {
        digits: 0,
        value: 0,
    };
}

// The value of a hexadecimal digit.
fn digit_of(byte: u8) -> Option<u32>
    ensures { result ≡ digit_of byte }
{
    (byte as char).to_digit(16)
}

// A byte among the digits of a size line, or behind them.
fn after_size(digits: u8, value: u32, byte: u8) -> State
    ensures { result ≡ after_size digits value byte (digit_of byte) }
{
    match digit_of(byte) {
        Some(digit) if digits < MOST_DIGITS => State::Size {
            digits: digits + 1,
            // no more than 7 digits came before, so that the remainder takes nothing away; a state that kept this as an invariant
            // would ask it of each function here
            value: value % (1 << 28) * 16 + digit,
        },
        Some(_) => State::Failed(ChunkCause::NinthDigit),
        None if digits == 0 => State::Failed(ChunkCause::BadSizeLine),
        None => match byte {
            CR => State::SizeCr { value },
            SEMICOLON => State::Extension { length: 1, value },
            _ => State::Failed(ChunkCause::BadSizeLine),
        },
    }
}

// A byte of an extension, or behind it.
fn after_extension(length: u16, value: u32, byte: u8) -> State
    ensures { result ≡ after_extension length value byte }
{
    match byte {
        CR => State::SizeCr { value },
        LF => State::Failed(ChunkCause::BadSizeLine),
        _ if length < LONGEST_EXTENSION => State::Extension {
            length: length + 1,
            value,
        },
        _ => State::Failed(ChunkCause::LongExtension),
    }
}

// The byte behind a size line's CR.
fn after_size_cr(value: u32, byte: u8) -> State
    ensures { result ≡ after_size_cr value byte }
{
    match byte {
        LF if value == 0 => State::Trailer {
            length: 0,
            line: Line::Start,
        },
        LF => State::Data { left: value },
        _ => State::Failed(ChunkCause::BadSizeLine),
    }
}

// A data byte, or the byte behind the last of them.
fn after_data(left: u32, byte: u8) -> State
    ensures { result ≡ after_data left byte }
{
    if left > 0 {
        return State::Data { left: left - 1 };
    }
    match byte {
        CR => State::DataCr,
        _ => State::Failed(ChunkCause::NoLineEnd),
    }
}

// The byte behind the CR that follows the data.
fn after_data_cr(byte: u8) -> State
    ensures { result ≡ after_data_cr byte }
{
    match byte {
        LF => State::START,
        _ => State::Failed(ChunkCause::NoLineEnd),
    }
}

// Where a byte leads in a line of the trailer; None where it ends the trailer.
fn line_after(line: Line, byte: u8) -> Option<Line>
    ensures { result ≡ line_after line byte }
{
    match (line, byte) {
        (Line::StartCr, LF) => None,
        (Line::InsideCr, LF) => Some(Line::Start),
        (Line::Start, CR) => Some(Line::StartCr),
        (_, CR) => Some(Line::InsideCr),
        (_, _) => Some(Line::Inside),
    }
}

// A byte of the trailer, of which `length` bytes came before it. Counted like an extension, but in another state and to another end.
fn after_trailer(length: u16, line: Line, byte: u8) -> State
    ensures { result ≡ after_trailer length (line_after line byte) }
{
    match line_after(line, byte) {
        None => State::Done,
        Some(line) if length < LONGEST_TRAILER - 1 => State::Trailer {
            length: length + 1,
            line,
        },
        Some(_) => State::Failed(ChunkCause::LongTrailer),
    }
}

// The state that a byte leads to.
pub fn next_state(state: State, byte: u8) -> State
    ensures { result ≡ next_state state byte }
{
    match state {
        State::Size { digits, value } => after_size(digits, value, byte),
        State::Extension { length, value } => after_extension(length, value, byte),
        State::SizeCr { value } => after_size_cr(value, byte),
        State::Data { left } => after_data(left, byte),
        State::DataCr => after_data_cr(byte),
        State::Trailer { length, line } => after_trailer(length, line, byte),
        State::Done => State::Done,
        State::Failed(cause) => State::Failed(cause),
    }
}
