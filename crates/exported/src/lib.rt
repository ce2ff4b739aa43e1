// Bodies in one stretch of memory, read by a receiver to their end or fault.
//
// A function answers a checksum of all that the Steps told and of three bytes of each payload, so that its caller can compare it
// with another decoder's. It is 0 for a work buffer that is too short.
#![tactic(auto)]

ghost use Rattle.std.specs.Prelude.{◌≡◌, ◌≤◌, length};
ghost use Rattle.carrier.specs.declared.endings.Ending.TheVariants.{Clean};
ghost use Rattle.chunks.specs.Decoding.{data_in, ending_in};
ghost use Rattle.chunks.specs.Laws.{start};
ghost use Rattle.receiver.specs.Views.{view};
ghost use Rattle.exported.specs.Checksums.{mixed, mixed_payload, mixed_fields, mixed_event, mixed_failure};
ghost use Rattle.exported.specs.Reading.{reads_from, play_sum, play_buffer};

use carrier::{Carrier, Image};
use chunks::Chunks;
use packet::{BodyKind, Event, Fields};
use receiver::{Answer, Failure, Receiver, StepFault, WORK_LENGTH, close, open};

// What a checksum is multiplied by at each number: 2^64 over the golden ratio.
const FACTOR: u64 = 0x9E37_79B9_7F4A_7C15;

// A checksum of the numbers that were told so far.
#[derive(Clone, Copy)]
struct Checksum(u64);

impl Checksum {
    // With one more number.
    #[tactic(auto, unfolding(crate::specs::Checksums::mixed))]
    fn with(self, number: u64) -> Checksum
        ensures { result.0 ≡ mixed self.0 number }
    {
        Checksum(self.0.wrapping_mul(FACTOR).wrapping_add(number))
    }

    // With three bytes of a payload: its first, middle and last.
    fn with_payload(self, payload: &[u8]) -> Checksum
        ensures { result.0 ≡ mixed_payload self.0 payload.now }
    {
        let length = payload.len();
        if length == 0 {
            return self;
        }
        self.with(u64::from(payload[0]))
            .with(u64::from(payload[length / 2]))
            .with(u64::from(payload[length - 1]))
    }

    // With the header fields.
    fn with_fields(self, fields: Fields) -> Checksum
        ensures { result.0 ≡ mixed_fields self.0 fields }
    {
        self.with(u64::from(fields.location_id))
            .with(u64::from(fields.incarnation))
            .with(u64::from(fields.af_flags))
            .with(u64::from(fields.packet_size))
            .with(u64::from(fields.reason))
    }

    // With all that is told of a packet.
    fn with_event(self, event: Event) -> Checksum
        ensures { result.0 ≡ mixed_event self.0 event }
    {
        // a letter counts by its place in the enum, and has no other number
        self.with(event.letter as u64)
            .with(event.place)
            .with(u64::from(event.entry))
            .with_fields(event.fields)
            .with(u64::from(event.payload_length))
    }

    // With a fault, and the carrier's own where it broke.
    fn with_failure(self, failure: Failure) -> Checksum
        ensures { result.0 ≡ mixed_failure self.0 failure }
    {
        let Failure { fault, place } = failure;
        let told = self.with(u64::from(u8::from(fault))).with(place);
        match fault {
            StepFault::Packet(_) | StepFault::EndsEarly => told,
            StepFault::CarrierBroke(fault) => told
                .with(u64::from(fault.cause))
                .with(fault.place)
                .with(u64::from(fault.depth)),
        }
    }
}

// Steps to the end or the fault; the one caller has tested the work buffer's length. A loop of its own, since a payload is read out of
// the work buffer that the next Step is lent. A slice, as Step is lent one.
fn receive_body<C: Carrier>(receiver: &mut Receiver<C>, work: &mut [u8]) -> Checksum
    requires { 65535 ≤ length work.old }
    ensures sum { result.0 ≡ (reads_from (view C.Carrier receiver.old) work.old 1).sum }
    ensures buffer { work.new ≡ (reads_from (view C.Carrier receiver.old) work.old 1).buffer }
    ensures standing { receiver.new.standing ≡ (reads_from (view C.Carrier receiver.old) work.old 1).standing }
    ensures number { receiver.new.number ≡ receiver.old.number }
{
    let mut sum = Checksum(1);
    while let Ok(answer) = receiver.step(work) {
        match answer {
            Answer::Event(event) => {
                let payload = &work[..usize::from(event.payload_length)];
                sum = sum.with_event(event).with_payload(payload);
            }
            Answer::End(place) => return sum.with(place),
            Answer::Failed(failure) => return sum.with_failure(failure),
        }
    }
    sum
}

// Reads a Play body from a carrier.
fn receive_play_from<C: Carrier + Drop>(carrier: C, work: &mut [u8]) -> u64
    ensures sum { result ≡ play_sum (C.Carrier.coming carrier) (C.Carrier.ending carrier) work.old }
    ensures buffer { work.new ≡ play_buffer (C.Carrier.coming carrier) (C.Carrier.ending carrier) work.old }
{
    if work.len() < WORK_LENGTH {
        return 0;
    }
    let (mut receiver, ticket) = open(carrier, BodyKind::Play, 0, None);
    let sum = receive_body(&mut receiver, work);
    let closed = close(receiver, ticket);
    sum.with(u64::from(closed.reusable)).0
}

// Reads a Play body.
pub fn receive_play(bytes: &[u8], work: &mut [u8]) -> u64
    ensures sum { result ≡ play_sum bytes.now Clean work.old }
    ensures buffer { work.new ≡ play_buffer bytes.now Clean work.old }
{
    receive_play_from(Image::new(bytes), work)
}

// Reads a Play body that is sent in chunks.
pub fn receive_chunked_play(bytes: &[u8], work: &mut [u8]) -> u64
    ensures sum { result ≡ play_sum (data_in start bytes.now) (ending_in start 0 bytes.now Clean) work.old }
    ensures buffer { work.new ≡ play_buffer (data_in start bytes.now) (ending_in start 0 bytes.now Clean) work.old }
{
    receive_play_from(Chunks::new(Image::new(bytes)), work)
}
