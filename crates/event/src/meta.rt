// System exclusive and meta events.
ghost use Rattle.std.specs.Prelude.{◌≡◌, true, ◌+◌, ◌≤◌, length, drop};
ghost use Rattle.event.specs.Meta.{kind_of};
ghost use Rattle.event.specs.Reader.{length_ok, read_exclusive, meta_data, read_meta};
ghost use Rattle.event.specs.Step.{frame_step, padded, silent};
ghost use Rattle.event.specs.Padding.{vlq_padding, meta_padding};
ghost use Rattle.event.specs.Refusal.{numbered};

use super::number::{big_endian, byte_at, read_number};
use super::refusal::Refusal;
use super::{EventKind, FrameRead};

// An event that leaves no status in force.
fn silent(kind: EventKind, next: usize) -> FrameRead
    ensures { result ≡ silent kind next }
{
    FrameRead {
        kind,
        next,
        status: 0,
        padding: 0,
    }
}

// A system exclusive event from its length on.
pub fn exclusive_event(body: &[u8], at: usize, status: u8) -> Result<FrameRead, Refusal>
    ensures { numbered result ≡ padded (vlq_padding (drop at body.now)) (frame_step (length body.now) (read_exclusive status (drop at body.now))) }
{
    let number = read_number(body, at)?;
    let start = number.next;
    let len = number.value as usize;
    if body.len() - start < len {
        return Err(Refusal::EventCutShort);
    }
    let kind = match status {
        0xF0 => EventKind::SystemExclusive { start, len },
        _ => EventKind::SystemExclusivePacket { start, len },
    };
    let padding = number.padding;
    Ok(FrameRead {
        padding,
        ..silent(kind, start + len)
    })
}

// Whether a meta event of the type t may have n data bytes.
fn length_ok(t: u8, n: u32) -> bool
    ensures { result ≡ length_ok (kind_of t) n }
{
    match t {
        0 => n == 2,
        0x20 => n == 1,
        0x21 => n == 1,
        0x2F => n == 0,
        0x51 => n == 3,
        0x54 => n == 5,
        0x58 => n == 4,
        0x59 => n == 2,
        _ => true,
    }
}

fn sequence_number(body: &[u8], start: usize) -> FrameRead
    requires { start + 2 ≤ length body.now }
    ensures { Ok result ≡ frame_step (length body.now) (meta_data 0 2 (drop start body.now)) }
{
    let number = big_endian::<2>(body, start);
    silent(EventKind::SequenceNumber { number }, start + 2)
}

fn tempo(body: &[u8], start: usize) -> Result<FrameRead, Refusal>
    requires { start + 3 ≤ length body.now }
    ensures { numbered result ≡ frame_step (length body.now) (meta_data 0x51 3 (drop start body.now)) }
{
    let micros = big_endian::<3>(body, start);
    if micros == 0 {
        return Err(Refusal::BadMetaValue);
    }
    Ok(silent(EventKind::Tempo { micros }, start + 3))
}

fn smpte_offset(body: &[u8], start: usize) -> Result<FrameRead, Refusal>
    requires { start + 5 ≤ length body.now }
    ensures { numbered result ≡ frame_step (length body.now) (meta_data 0x54 5 (drop start body.now)) }
{
    let hour = byte_at(body, start, 0);
    let minute = byte_at(body, start, 1);
    let second = byte_at(body, start, 2);
    let frame = byte_at(body, start, 3);
    let part = byte_at(body, start, 4);
    if 99 < part {
        return Err(Refusal::BadMetaValue);
    }
    let kind = EventKind::SmpteOffset {
        hour,
        minute,
        second,
        frame,
        part,
    };
    Ok(silent(kind, start + 5))
}

fn time_signature(body: &[u8], start: usize) -> FrameRead
    requires { start + 4 ≤ length body.now }
    ensures { Ok result ≡ frame_step (length body.now) (meta_data 0x58 4 (drop start body.now)) }
{
    let kind = EventKind::TimeSignature {
        numerator: byte_at(body, start, 0),
        denominator: byte_at(body, start, 1),
        click: byte_at(body, start, 2),
        notes: byte_at(body, start, 3),
    };
    silent(kind, start + 4)
}

fn key_signature(body: &[u8], start: usize) -> Result<FrameRead, Refusal>
    requires { start + 2 ≤ length body.now }
    ensures { numbered result ≡ frame_step (length body.now) (meta_data 0x59 2 (drop start body.now)) }
{
    let key = byte_at(body, start, 0);
    let minor = byte_at(body, start, 1);
    if 1 < minor {
        return Err(Refusal::BadMetaValue);
    }
    match key {
        0..=7 => Ok(silent(EventKind::KeySignature { key, minor }, start + 2)),
        8..=248 => Err(Refusal::BadMetaValue),
        249..=255 => Ok(silent(EventKind::KeySignature { key, minor }, start + 2)),
    }
}

// A meta event whose data is there.
fn meta_value(body: &[u8], t: u8, start: usize, len: usize) -> Result<FrameRead, Refusal>
    requires there { start + len ≤ length body.now }
    requires fits { length_ok (kind_of t) len ≡ true }
    ensures { numbered result ≡ frame_step (length body.now) (meta_data t len (drop start body.now)) }
{
    let next = start + len;
    match t {
        0 => Ok(sequence_number(body, start)),
        1..=7 => Ok(silent(
            EventKind::Text {
                kind: t,
                start,
                len,
            },
            next,
        )),
        0x20 => Ok(silent(
            EventKind::ChannelPrefix {
                number: byte_at(body, start, 0),
            },
            next,
        )),
        0x21 => Ok(silent(
            EventKind::MidiPort {
                number: byte_at(body, start, 0),
            },
            next,
        )),
        0x2F => Ok(silent(EventKind::EndTrack, next)),
        0x51 => tempo(body, start),
        0x54 => smpte_offset(body, start),
        0x58 => Ok(time_signature(body, start)),
        0x59 => key_signature(body, start),
        0x7F => Ok(silent(EventKind::SequencerSpecific { start, len }, next)),
        _ => Ok(silent(
            EventKind::UnknownMeta {
                kind: t,
                start,
                len,
            },
            next,
        )),
    }
}

// A meta event from its type on.
pub fn meta_event(body: &[u8], at: usize) -> Result<FrameRead, Refusal>
    ensures { numbered result ≡ padded (meta_padding (drop at body.now)) (frame_step (length body.now) (read_meta (drop at body.now))) }
{
    if body.len() <= at {
        return Err(Refusal::EventCutShort);
    }
    let t = body[at];
    if 127 < t {
        return Err(Refusal::BadStatus);
    }
    let number = read_number(body, at + 1)?;
    if !length_ok(t, number.value) {
        return Err(Refusal::BadMetaLength);
    }
    let start = number.next;
    let len = number.value as usize;
    if body.len() - start < len {
        return Err(Refusal::EventCutShort);
    }
    let read = meta_value(body, t, start, len)?;
    let padding = number.padding;
    Ok(FrameRead { padding, ..read })
}
