// The grammar of bodies: which packet may come where, and what it then gives.
ghost use Rattle.std.specs.Prelude.{◌≡◌};
ghost use Rattle.packet.specs.Judging.{fault_number, judged, ends, starts, in_force_at, completed, told as tells};

use super::wire::{Fields, Kind, Packet};

// The kinds of response body.
#[derive(Clone, Copy)]
pub enum BodyKind {
    Describe,
    Play,
    PlayNext,
}

// Where in a body's grammar the next packet stands. The number is the Incarnation of the header that is being read or is in force.
// With and without one are two positions, and so are Describe's and another body's, since each has rules of its own in the one match.
#[derive(Clone, Copy)]
pub enum Position {
    // Describe: the mix of $P and $M, before and behind its first $M
    Preface,
    PrefaceOf(u8),
    // Describe: inside the run of $H, and behind it
    DescribeRun(u8),
    Described(u8),
    // a header is to come; its $M have begun; its $H have begun
    HeaderDue,
    MetadataOf(u8),
    HeaderRun(u8),
    // a header is in force: the entry's $D and its $E
    InForce(u8),
    // behind $E: another group may come, or none may
    EntryOver,
    BodyOver,
    // the start of PlayNext, without and with a header in force from before
    Resuming,
    ResumingUnder(u8),
}

// What a packet shows to be wrong, by its number.
#[derive(Clone, Copy)]
pub enum PacketFault {
    Mark = 21,
    Kind = 22,
    PacketLength = 23,
    PacketSize = 24,
    HeaderMarks = 25,
    NotAllowedHere = 26,
    Incarnation = 27,
    TooManyEntries = 30,
}

// The number that a fault is told by. One cast for each enum that is told so: its clause names its own rule.
impl From<PacketFault> for u8 {
    ghost from_gives = { λ fault number. number ≡ fault_number fault };

    fn from(fault: PacketFault) -> u8 {
        fault as u8
    }
}

// What a packet is told as: its kind, or stale for a $D of another Incarnation than the header in force. The kinds stand here
// once more, since a letter that held a `Kind` would be taken apart at every use.
#[derive(Clone, Copy)]
pub enum Letter {
    StreamChange,
    Data,
    EndOfStream,
    Header,
    Metadata,
    PacketPair,
    Stale,
}

// What an allowed packet gives: its letter, the position behind it and the headers completed so far.
#[derive(Clone, Copy)]
pub struct Judged {
    pub letter: Letter,
    pub next: Position,
    pub entry: u8,
}

// What Step tells of a packet.
#[derive(Clone, Copy)]
pub struct Event {
    pub letter: Letter,
    // where in the body the packet's first byte stands
    pub place: u64,
    // how many headers the body has completed, this packet's among them
    pub entry: u8,
    pub fields: Fields,
    // how many bytes of the work buffer are the payload; no slice, since the caller lends the buffer again while it has the event
    pub payload_length: u16,
}

// AFFlags of a $H, as the byte that an event tells: neither the first nor the last of its header, the first, the last, or both.
const MIDDLE: u8 = 0x00;

const FIRST: u8 = 0x04;

const LAST: u8 = 0x08;

const FIRST_AND_LAST: u8 = 0x0C;

// Where a body begins. The Incarnation from before counts for PlayNext only.
pub fn start(body: BodyKind, before: Option<u8>) -> Position
    ensures { result ≡ starts body before }
{
    match body {
        BodyKind::Describe => Position::Preface,
        BodyKind::Play => Position::HeaderDue,
        BodyKind::PlayNext => match before {
            Some(incarnation) => Position::ResumingUnder(incarnation),
            None => Position::Resuming,
        },
    }
}

// Whether a body may end here. Every position is named, so that a new one must be placed.
pub fn may_end(at: Position) -> bool
    ensures { result ≡ ends at }
{
    match at {
        Position::Described(_)
        | Position::EntryOver
        | Position::BodyOver
        | Position::Resuming
        | Position::ResumingUnder(_) => true,
        Position::Preface
        | Position::PrefaceOf(_)
        | Position::DescribeRun(_)
        | Position::HeaderDue
        | Position::MetadataOf(_)
        | Position::HeaderRun(_)
        | Position::InForce(_) => false,
    }
}

// The Incarnation of the header in force, where one is. Every position is named, as in `may_end`.
pub fn in_force(at: Position) -> Option<u8>
    ensures { result ≡ in_force_at at }
{
    match at {
        Position::Described(of) | Position::InForce(of) | Position::ResumingUnder(of) => Some(of),
        Position::Preface
        | Position::PrefaceOf(_)
        | Position::DescribeRun(_)
        | Position::HeaderDue
        | Position::MetadataOf(_)
        | Position::HeaderRun(_)
        | Position::EntryOver
        | Position::BodyOver
        | Position::Resuming => None,
    }
}

// The packet is told by its letter, and the body goes on at `next`. Three arguments, since this is what makes a `Judged` of them.
fn told(letter: Letter, next: Position, entry: u8) -> Result<Judged, PacketFault>
    ensures { result ≡ tells letter next entry }
{
    Ok(Judged {
        letter,
        next,
        entry,
    })
}

// The packet completes a header, unless the entry number has reached its limit.
fn completes(next: Position, entry: u8) -> Result<Judged, PacketFault>
    ensures { result ≡ completed next entry }
{
    if entry == u8::MAX {
        return Err(PacketFault::TooManyEntries);
    }
    told(Letter::Header, next, entry + 1)
}

// Whether the packet may come at this position, and what it then gives.
pub fn judge(packet: Packet, at: Position, entry: u8) -> Result<Judged, PacketFault>
    ensures { result ≡ judged packet at entry }
{
    let Fields {
        incarnation,
        af_flags,
        reason,
        ..
    } = packet.fields;
    match (packet.kind, at) {
        // a Describe body's $P
        (Kind::PacketPair, Position::Preface | Position::PrefaceOf(_)) => {
            told(Letter::PacketPair, at, entry)
        }
        // $M
        (Kind::Metadata, Position::Preface) => {
            told(Letter::Metadata, Position::PrefaceOf(incarnation), entry)
        }
        (Kind::Metadata, Position::HeaderDue | Position::Resuming | Position::ResumingUnder(_)) =>
            told(Letter::Metadata, Position::MetadataOf(incarnation), entry),
        (Kind::Metadata, Position::PrefaceOf(of) | Position::MetadataOf(of)) if incarnation != of =>
            { Err(PacketFault::Incarnation) }
        (Kind::Metadata, Position::PrefaceOf(_) | Position::MetadataOf(_)) => {
            told(Letter::Metadata, at, entry)
        }
        // the first $H of a header
        (Kind::Header, Position::PrefaceOf(of) | Position::MetadataOf(of))
            if (af_flags == FIRST || af_flags == FIRST_AND_LAST) && incarnation != of => {
            Err(PacketFault::Incarnation)
        }
        (Kind::Header, Position::Preface | Position::PrefaceOf(_)) if af_flags == FIRST => {
            told(Letter::Header, Position::DescribeRun(incarnation), entry)
        }
        (Kind::Header, Position::Preface | Position::PrefaceOf(_)) if af_flags == FIRST_AND_LAST =>
            { completes(Position::Described(incarnation), entry) }
        (
            Kind::Header,
            Position::HeaderDue
            | Position::MetadataOf(_)
            | Position::Resuming
            | Position::ResumingUnder(_),
        ) if af_flags == FIRST => told(Letter::Header, Position::HeaderRun(incarnation), entry),
        (
            Kind::Header,
            Position::HeaderDue
            | Position::MetadataOf(_)
            | Position::Resuming
            | Position::ResumingUnder(_),
        ) if af_flags == FIRST_AND_LAST => completes(Position::InForce(incarnation), entry),
        // the later $H of a header
        (Kind::Header, Position::DescribeRun(of) | Position::HeaderRun(of))
            if (af_flags == MIDDLE || af_flags == LAST) && incarnation != of => {
            Err(PacketFault::Incarnation)
        }
        (Kind::Header, Position::DescribeRun(_) | Position::HeaderRun(_)) if af_flags == MIDDLE => {
            told(Letter::Header, at, entry)
        }
        (Kind::Header, Position::DescribeRun(of)) if af_flags == LAST => {
            completes(Position::Described(of), entry)
        }
        (Kind::Header, Position::HeaderRun(of)) if af_flags == LAST => {
            completes(Position::InForce(of), entry)
        }
        // a $H may stand here, and its marks are wrong
        (
            Kind::Header,
            Position::Preface
            | Position::PrefaceOf(_)
            | Position::DescribeRun(_)
            | Position::HeaderDue
            | Position::MetadataOf(_)
            | Position::HeaderRun(_)
            | Position::Resuming
            | Position::ResumingUnder(_),
        ) => Err(PacketFault::HeaderMarks),
        // an entry's $D and $E
        (Kind::Data, Position::InForce(of) | Position::ResumingUnder(of)) if incarnation == of => {
            told(Letter::Data, Position::InForce(of), entry)
        }
        (Kind::Data, Position::InForce(of) | Position::ResumingUnder(of)) => {
            told(Letter::Stale, Position::InForce(of), entry)
        }
        // an event tells Reason as it is; only 1 means something here
        (Kind::EndOfStream, Position::InForce(_) | Position::ResumingUnder(_)) if reason == 1 => {
            told(Letter::EndOfStream, Position::EntryOver, entry)
        }
        (Kind::EndOfStream, Position::InForce(_) | Position::ResumingUnder(_)) => {
            told(Letter::EndOfStream, Position::BodyOver, entry)
        }
        // the $C of another group
        (
            Kind::StreamChange,
            Position::EntryOver | Position::Resuming | Position::ResumingUnder(_),
        ) => told(Letter::StreamChange, Position::HeaderDue, entry),
        _ => Err(PacketFault::NotAllowedHere),
    }
}
