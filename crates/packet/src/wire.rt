// The wire format of one packet: four bytes of head, the fixed fields of its kind, and the payload.
// Numbers of several bytes are little-endian.
ghost use Rattle.std.specs.Prelude.{◌≡◌};
ghost use Rattle.std.specs.Option.{ok_or};
ghost use Rattle.packet.specs.Wire.{kind_of, fixed, head_of, lawful, fields_of, sized};

use super::grammar::PacketFault;

// The packet kinds, by the letter behind the mark.
#[derive(Clone, Copy)]
pub enum Kind {
    StreamChange,
    Data,
    EndOfStream,
    Header,
    Metadata,
    PacketPair,
}

// The first four bytes, once they are found lawful.
#[derive(Clone, Copy)]
pub struct Head {
    pub kind: Kind,
    // PacketLength: how many bytes follow the head
    pub length: u16,
}

// The header fields. A kind that lacks one has 0 there, which is a rule and no mark of absence.
#[derive(Clone, Copy, Default)]
pub struct Fields {
    pub location_id: u32,
    pub incarnation: u8,
    pub af_flags: u8,
    pub packet_size: u16,
    pub reason: u32,
}

// A packet without its payload bytes. It has no `Head` within: each of its readers would go through `head`.
#[derive(Clone, Copy)]
pub struct Packet {
    pub kind: Kind,
    pub length: u16,
    pub fields: Fields,
}

// The byte that every packet begins with.
const MARK: u8 = b'$';

impl TryFrom<u8> for Kind {
    ghost use Rattle.packet.specs.declared.grammar.PacketFault.TheVariants as fault;

    type Error = PacketFault;

    ghost try_from_gives = { λ letter r. r ≡ ok_or (kind_of letter) fault.Kind };

    fn try_from(letter: u8) -> Result<Kind, PacketFault> {
        match letter as char {
            'C' => Ok(Kind::StreamChange),
            'D' => Ok(Kind::Data),
            'E' => Ok(Kind::EndOfStream),
            'H' => Ok(Kind::Header),
            'M' => Ok(Kind::Metadata),
            'P' => Ok(Kind::PacketPair),
            _ => Err(PacketFault::Kind),
        }
    }
}

// How many bytes of fixed fields a kind has: its Reason, or LocationId through PacketSize.
pub fn fixed_length(kind: Kind) -> u16
    ensures { result ≡ fixed kind }
{
    match kind {
        Kind::StreamChange | Kind::EndOfStream => 4,
        Kind::Data | Kind::Header | Kind::Metadata => 8,
        Kind::PacketPair => 0,
    }
}

// Whether a kind may have this PacketLength.
fn lawful_length(kind: Kind, length: u16) -> bool
    ensures { result ≡ lawful kind length }
{
    let least = fixed_length(kind);
    match kind {
        Kind::StreamChange | Kind::EndOfStream => length == least,
        Kind::Data | Kind::Header | Kind::Metadata | Kind::PacketPair => length >= least,
    }
}

// Takes the four bytes apart; refuses the mark, then the kind, then PacketLength.
pub fn read_head(head: [u8; 4]) -> Result<Head, PacketFault>
    ensures { result ≡ head_of head }
{
    let [mark, letter, low, high] = head;
    if mark != MARK {
        return Err(PacketFault::Mark);
    }
    let kind = Kind::try_from(letter)?;
    let length = u16::from_le_bytes([low, high]);
    if !lawful_length(kind, length) {
        return Err(PacketFault::PacketLength);
    }
    Ok(Head { kind, length })
}

// The fields of a kind, from its fixed bytes at the front of `bytes`.
pub fn fields_of(kind: Kind, bytes: [u8; 8]) -> Fields
    ensures { result ≡ fields_of kind bytes }
{
    let [a, b, c, d, incarnation, af_flags, low, high] = bytes;
    let number = u32::from_le_bytes([a, b, c, d]);
    match kind {
        Kind::StreamChange | Kind::EndOfStream => Fields {
            reason: number,
            ..Fields::default()
        },
        Kind::Data | Kind::Header | Kind::Metadata => Fields {
            location_id: number,
            incarnation,
            af_flags,
            packet_size: u16::from_le_bytes([low, high]),
            reason: 0,
        },
        Kind::PacketPair => Fields::default(),
    }
}

// Whether PacketSize equals PacketLength, where the kind has it.
pub fn size_agrees(packet: Packet) -> bool
    ensures { result ≡ sized packet }
{
    match packet.kind {
        Kind::Data | Kind::Header | Kind::Metadata => packet.fields.packet_size == packet.length,
        Kind::StreamChange | Kind::EndOfStream | Kind::PacketPair => true,
    }
}
