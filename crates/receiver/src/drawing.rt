// Draws one packet from a carrier: four bytes, then the rest that they announce.
// Its fixed fields go into an array, its payload straight to the front of the work buffer.
ghost use Rattle.std.specs.Prelude.{◌≡◌, ◌+◌, ◌^◌, ◌<◌, ◌≤◌, true, length};
ghost use Rattle.packet.specs.Wire.{lawful};
ghost use Rattle.receiver.specs.declared.drawing.NoPacket.TheVariants.{BadHead, CutShort};
ghost use Rattle.receiver.specs.Draws.{draws, cut_short as cut_at, rest_drawn, used, rest_used, ran_out, front, rest_front, laid_over};

use super::receiving::WORK_LENGTH;
use carrier::{Carrier, Short, fill};
use packet::{Head, Packet, PacketFault, fields_of, fixed_length, read_head};

// What comes in place of a packet.
#[derive(Clone, Copy)]
pub enum NoPacket {
    // four bytes that are no packet's head
    BadHead(PacketFault),
    // an ending, behind fewer bytes than a packet has
    CutShort(Short),
}

impl From<PacketFault> for NoPacket {
    ghost from_gives = { λ fault gives. gives ≡ BadHead fault };

    fn from(fault: PacketFault) -> NoPacket {
        NoPacket::BadHead(fault)
    }
}

impl From<Short> for NoPacket {
    ghost from_gives = { λ short gives. gives ≡ CutShort short };

    fn from(short: Short) -> NoPacket {
        NoPacket::CutShort(short)
    }
}

// An ending, behind so many bytes of a packet and those that came then.
fn cut_short(before: usize, short: Short) -> NoPacket
    requires { before + short.came < 2 ^ 64 }
    ensures { result ≡ cut_at (before + short.came) short.ending }
{
    NoPacket::CutShort(Short {
        came: before + short.came,
        ..short
    })
}

// The packet that comes next, its payload in front of the work buffer.
pub(crate) fn draw<C: Carrier>(
    carrier: &mut C,
    work: &mut [u8; WORK_LENGTH],
) -> Result<Packet, NoPacket>
    ensures answer { result ≡ draws (C.Carrier.coming carrier.old) (C.Carrier.ending carrier.old) }
    ensures buffer { work.new ≡ laid_over (front (C.Carrier.coming carrier.old)) work.old }
    ensures lacks { C.Carrier.lacks carrier.old (used (C.Carrier.coming carrier.old)) (ran_out result) carrier.new }
{
    let mut head = [0; 4];
    fill(carrier, &mut head)?;
    let head = read_head(head)?;
    draw_rest(carrier, head, work)
}

// What is behind the head.
fn draw_rest<C: Carrier>(
    carrier: &mut C,
    head: Head,
    work: &mut [u8; WORK_LENGTH],
) -> Result<Packet, NoPacket>
    requires { lawful head.kind head.length ≡ true }
    ensures answer { result ≡ rest_drawn head (C.Carrier.coming carrier.old) (C.Carrier.ending carrier.old) }
    ensures buffer { work.new ≡ laid_over (rest_front head (C.Carrier.coming carrier.old)) work.old }
    ensures lacks { C.Carrier.lacks carrier.old (rest_used head (C.Carrier.coming carrier.old)) (ran_out result) carrier.new }
{
    let fixed = usize::from(fixed_length(head.kind));
    // no kind has more, and a receiver allocates nothing
    let mut bytes = [0; 8];
    fill(carrier, &mut bytes[..fixed]).map_err(|short| cut_short(4, short))?;
    let payload = usize::from(head.length) - fixed;
    fill(carrier, &mut work[..payload]).map_err(|short| cut_short(4 + fixed, short))?;
    // field by field, since a `Packet` has no `Head` within
    Ok(Packet {
        kind: head.kind,
        length: head.length,
        fields: fields_of(head.kind, bytes),
    })
}
