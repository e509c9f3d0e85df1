// An event with its delta, to the end of its fields, or to its length where data follow.
#![tactic(auto, using(crate::proofs::WriteLaws::nothing, crate::proofs::HeadLaws::meta_length, std::proofs::lemmas::Bool::Decides::nat_tests), unfolding(crate::specs::Head::manner_of, crate::specs::Head::status_bytes, crate::specs::Head::long_bytes, crate::specs::Head::tail_bytes, event::specs::Choice::pick))]

ghost use Rattle.std.specs.Prelude.{◌∷◌, ◌++◌, ◌<◌, ◌≤◌, ◌^◌, length};
ghost use Rattle.event_write.specs.Written.{Written};
ghost use Rattle.event_write.specs.Head.{fewest, manner_of, status_bytes, meta_bytes, long_bytes, tail_bytes, head_bytes};

use super::bytes::{put_big_endian, put_byte, put_bytes};
use super::number::put_number;
use event::{Delta, EventKind};

// A variable-length number is below it: it has 28 bits.
const NUMBERS: usize = 268435456;

// The status in force before an event (0: none), and whether it is left out where it stands again.
#[derive(Clone, Copy)]
struct Running {
    force: u8,
    short: bool,
}

// The status of a channel event: in the short manner it is left out where it is in force.
fn put_status(out: &mut [u8], at: usize, status: u8, running: Running) -> usize
    requires { at < 2 ^ 47 }
    ensures { Written out.old at (status_bytes (manner_of running.short) running.force status) out.new result }
{
    if running.short && running.force == status {
        return at;
    }
    put_byte(out, at, status)
}

// A channel event with its data bytes.
fn put_channel(out: &mut [u8], at: usize, status: u8, running: Running, values: &[u8]) -> usize
    requires fact_1 { at < 2 ^ 46 }
    requires fact_2 { length values.now ≤ 2 }
    ensures { Written out.old at (status_bytes (manner_of running.short) running.force status ++ values.now) out.new result }
{
    let p = put_status(out, at, status, running);
    put_bytes(out, p, values)
}

// The length of any data: the code has no bound on it, but a number has.
fn put_length(out: &mut [u8], at: usize, len: usize) -> usize
    requires { at < 2 ^ 47 }
    ensures { Written out.old at (fewest len) out.new result }
{
    put_number(out, at, (len % NUMBERS) as u32)
}

// FF, the type and the length of a meta event.
fn put_meta(out: &mut [u8], at: usize, t: u8, len: usize) -> usize
    requires { at < 2 ^ 46 }
    ensures { Written out.old at (meta_bytes t len) out.new result }
{
    let p = put_bytes(out, at, &[0xFF, t]);
    put_length(out, p, len)
}

// A meta event with its fields, a byte each.
fn put_fields(out: &mut [u8], at: usize, t: u8, fields: &[u8]) -> usize
    requires fact_1 { at < 2 ^ 45 }
    requires fact_2 { length fields.now ≤ 5 }
    ensures { Written out.old at (meta_bytes t (length fields.now) ++ fields.now) out.new result }
{
    let p = put_meta(out, at, t, fields.len());
    put_bytes(out, p, fields)
}

// The status F0 or F7 and the length of a system exclusive event.
fn put_exclusive(out: &mut [u8], at: usize, status: u8, len: usize) -> usize
    requires { at < 2 ^ 46 }
    ensures { Written out.old at (status ∷ fewest len) out.new result }
{
    let p = put_byte(out, at, status);
    put_length(out, p, len)
}

// A system exclusive or meta event; of a channel event nothing.
fn put_long(out: &mut [u8], at: usize, kind: EventKind) -> usize
    requires { at < 2 ^ 45 }
    ensures { Written out.old at (long_bytes kind) out.new result }
{
    match kind {
        EventKind::SystemExclusive { len, .. } => put_exclusive(out, at, 0xF0, len),
        EventKind::SystemExclusivePacket { len, .. } => put_exclusive(out, at, 0xF7, len),
        EventKind::SequenceNumber { number } => {
            let p = put_meta(out, at, 0x00, 2);
            put_big_endian::<2>(out, p, number)
        }
        EventKind::Text { kind: t, len, .. } => put_meta(out, at, t, len),
        EventKind::ChannelPrefix { number } => put_fields(out, at, 0x20, &[number]),
        EventKind::MidiPort { number } => put_fields(out, at, 0x21, &[number]),
        EventKind::EndTrack => put_meta(out, at, 0x2F, 0),
        EventKind::Tempo { micros } => {
            let p = put_meta(out, at, 0x51, 3);
            put_big_endian::<3>(out, p, micros)
        }
        EventKind::SmpteOffset {
            hour,
            minute,
            second,
            frame,
            part,
        } => { put_fields(out, at, 0x54, &[hour, minute, second, frame, part]) }
        EventKind::TimeSignature {
            numerator,
            denominator,
            click,
            notes,
        } => { put_fields(out, at, 0x58, &[numerator, denominator, click, notes]) }
        EventKind::KeySignature { key, minor } => put_fields(out, at, 0x59, &[key, minor]),
        EventKind::SequencerSpecific { len, .. } => put_meta(out, at, 0x7F, len),
        EventKind::UnknownMeta { kind: t, len, .. } => put_meta(out, at, t, len),
        _ => at,
    }
}

// An event after its delta.
fn put_tail(out: &mut [u8], at: usize, kind: EventKind, running: Running) -> usize
    requires { at < 2 ^ 44 }
    ensures { Written out.old at (tail_bytes (manner_of running.short) running.force kind) out.new result }
{
    match kind {
        EventKind::NoteOff {
            channel,
            key,
            velocity,
        } => put_channel(out, at, 0x80 + channel % 16, running, &[key, velocity]),
        EventKind::NoteOn {
            channel,
            key,
            velocity,
        } => put_channel(out, at, 0x90 + channel % 16, running, &[key, velocity]),
        EventKind::PolyAftertouch {
            channel,
            key,
            value,
        } => put_channel(out, at, 0xA0 + channel % 16, running, &[key, value]),
        EventKind::Control {
            channel,
            controller,
            value,
        } => put_channel(out, at, 0xB0 + channel % 16, running, &[controller, value]),
        EventKind::Program { channel, number } => {
            let status = 0xC0 + channel % 16;
            put_channel(out, at, status, running, &[number])
        }
        EventKind::ChannelAftertouch { channel, value } => {
            let status = 0xD0 + channel % 16;
            put_channel(out, at, status, running, &[value])
        }
        EventKind::PitchBend { channel, value } => {
            let low = (value % 128) as u8;
            let high = (value / 128 % 128) as u8;
            put_channel(out, at, 0xE0 + channel % 16, running, &[low, high])
        }
        _ => put_long(out, at, kind),
    }
}

// An event to its data: force is the status in force before it (0: none).
pub fn put_head(
    out: &mut [u8],
    at: usize,
    delta: Delta,
    kind: EventKind,
    force: u8,
    short: bool,
) -> usize
    requires { at < 2 ^ 43 }
    ensures { Written out.old at (head_bytes (manner_of short) force delta.0 kind) out.new result }
{
    let d = delta.0;
    let p = put_number(out, at, d);
    put_tail(out, p, kind, Running { force, short })
}
