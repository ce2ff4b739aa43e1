// Packets of the Windows Media HTTP Streaming Protocol, and the bodies that they make up.
#![tactic(auto)]

mod grammar;
mod wire;

pub use grammar::{
    BodyKind, Event, Judged, Letter, PacketFault, Position, in_force, judge, may_end, start,
};
pub use wire::{Fields, Head, Kind, Packet, fields_of, fixed_length, read_head, size_agrees};
