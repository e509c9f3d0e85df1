// A row's event written: its head by the event side, its Text or Data from the line.
ghost use Rattle.std.specs.Prelude.{◌≡◌, ◌-◌, ◌%◌, ◌≤◌, ◌<◌, ◌^◌, length, drop};
ghost use Rattle.event_write.specs.Written.{Written};
ghost use Rattle.event_write.specs.Head.{manner_of};
ghost use Rattle.midicsv.specs.ReadField.{plain};
ghost use Rattle.midicsv_scan.specs.Unquoted.{unquoted};
ghost use Rattle.midicsv_record.specs.Row.{data_from};
ghost use Rattle.midicsv_read.specs.RowEvent.{part_of, row_kind, row_body, row_bytes, status_after};
ghost use Rattle.midicsv_read.specs.Data.{DataIs};

use super::DataStep;
use event::{Delta, EventKind};
use event_write::bytes::put_byte;
use midicsv_record::body::after_comma;
use midicsv_record::text::text_step;
use midicsv_record::{Name, Row, TextState, TextStep};
use midicsv_scan::FieldAt;
use midicsv_scan::field::field_at;

// A number as a byte.
fn byte(n: u32) -> u8
    ensures { result ≡ n % 256 }
{
    (n % 256) as u8
}

// The channel events of three numbers.
#[tactic(auto, unfolding(crate::specs::RowEvent::event_kind, crate::specs::RowEvent::kind_numbered), using(crate::proofs::RowEventLaws::kind_cut))]
fn triple_kind(row: Row, len: usize) -> EventKind
    requires { part_of row.name ≡ 0 }
    ensures { result ≡ row_kind row len }
{
    let [first, second, third, ..] = row.columns;
    let channel = byte(first);
    let key = byte(second);
    let value = byte(third);
    match row.name {
        Name::NoteOff => EventKind::NoteOff {
            channel,
            key,
            velocity: value,
        },
        Name::NoteOn => EventKind::NoteOn {
            channel,
            key,
            velocity: value,
        },
        Name::PolyAftertouch => EventKind::PolyAftertouch {
            channel,
            key,
            value,
        },
        _ => EventKind::Control {
            channel,
            controller: key,
            value,
        },
    }
}

// The channel events of two numbers.
#[tactic(auto, unfolding(crate::specs::RowEvent::event_kind, crate::specs::RowEvent::kind_numbered), using(crate::proofs::RowEventLaws::kind_cut))]
fn pair_kind(row: Row, len: usize) -> EventKind
    requires { part_of row.name ≡ 1 }
    ensures { result ≡ row_kind row len }
{
    let [first, second, ..] = row.columns;
    let channel = byte(first);
    let value = byte(second);
    match row.name {
        Name::Program => EventKind::Program {
            channel,
            number: value,
        },
        Name::ChannelAftertouch => EventKind::ChannelAftertouch { channel, value },
        _ => EventKind::PitchBend {
            channel,
            value: (second % 65536) as u16,
        },
    }
}

// The texts.
#[tactic(auto, unfolding(crate::specs::RowEvent::event_kind, crate::specs::RowEvent::kind_numbered), using(crate::proofs::RowEventLaws::kind_cut))]
fn text_kind(row: Row, len: usize) -> EventKind
    requires { part_of row.name ≡ 2 }
    ensures { result ≡ row_kind row len }
{
    let kind = match row.name {
        Name::Text => 1,
        Name::Copyright => 2,
        Name::Title => 3,
        Name::InstrumentName => 4,
        Name::Lyric => 5,
        Name::Marker => 6,
        _ => 7,
    };
    EventKind::Text {
        kind,
        start: row.start,
        len,
    }
}

// The events with Data.
#[tactic(auto, unfolding(crate::specs::RowEvent::event_kind, crate::specs::RowEvent::kind_numbered), using(crate::proofs::RowEventLaws::kind_cut))]
fn data_kind(row: Row, len: usize) -> EventKind
    requires { part_of row.name ≡ 3 }
    ensures { result ≡ row_kind row len }
{
    let [first, ..] = row.columns;
    let kind = byte(first);
    let start = row.start;
    match row.name {
        Name::SystemExclusive => EventKind::SystemExclusive { start, len },
        Name::SystemExclusivePacket => EventKind::SystemExclusivePacket { start, len },
        Name::SequencerSpecific => EventKind::SequencerSpecific { start, len },
        _ => EventKind::UnknownMeta { kind, start, len },
    }
}

// The metas of numbers, and End_track, which stands for what is no event too.
#[tactic(auto, unfolding(crate::specs::RowEvent::event_kind, crate::specs::RowEvent::kind_numbered), using(crate::proofs::RowEventLaws::kind_cut))]
fn meta_kind(row: Row, len: usize) -> EventKind
    requires { part_of row.name ≡ 4 }
    ensures { result ≡ row_kind row len }
{
    let [first, second, third, fourth, fifth] = row.columns;
    let number = byte(first);
    let second = byte(second);
    let third = byte(third);
    let fourth = byte(fourth);
    match row.name {
        Name::SequenceNumber => EventKind::SequenceNumber { number: first },
        Name::ChannelPrefix => EventKind::ChannelPrefix { number },
        Name::MidiPort => EventKind::MidiPort { number },
        Name::Tempo => EventKind::Tempo { micros: first },
        Name::SmpteOffset => EventKind::SmpteOffset {
            hour: number,
            minute: second,
            second: third,
            frame: fourth,
            part: byte(fifth),
        },
        Name::TimeSignature => EventKind::TimeSignature {
            numerator: number,
            denominator: second,
            click: third,
            notes: fourth,
        },
        Name::KeySignature => EventKind::KeySignature {
            key: number,
            minor: second,
        },
        _ => EventKind::EndTrack,
    }
}

// The event of a row that has so many data bytes.
pub fn row_kind(row: Row, len: usize) -> EventKind
    ensures { result ≡ row_kind row len }
{
    match row.name {
        Name::NoteOff | Name::NoteOn | Name::PolyAftertouch | Name::Control => {
            triple_kind(row, len)
        }
        Name::Program | Name::ChannelAftertouch | Name::PitchBend => pair_kind(row, len),
        Name::Text | Name::Copyright | Name::Title | Name::InstrumentName => text_kind(row, len),
        Name::Lyric | Name::Marker | Name::CuePoint => text_kind(row, len),
        Name::SystemExclusive | Name::SystemExclusivePacket => data_kind(row, len),
        Name::SequencerSpecific | Name::UnknownMetaEvent => data_kind(row, len),
        _ => meta_kind(row, len),
    }
}

// The status in force after an event; 0 is none.
pub fn status_after(kind: EventKind) -> u8
    ensures { result ≡ status_after kind }
{
    match kind {
        EventKind::NoteOff { channel, .. } => 0x80 + channel % 16,
        EventKind::NoteOn { channel, .. } => 0x90 + channel % 16,
        EventKind::PolyAftertouch { channel, .. } => 0xA0 + channel % 16,
        EventKind::Control { channel, .. } => 0xB0 + channel % 16,
        EventKind::Program { channel, .. } => 0xC0 + channel % 16,
        EventKind::ChannelAftertouch { channel, .. } => 0xD0 + channel % 16,
        EventKind::PitchBend { channel, .. } => 0xE0 + channel % 16,
        _ => 0,
    }
}

// The bytes of the quoted text that begins at a place of the line, after its quote.
fn put_quoted(out: &mut [u8], at: usize, line: &[u8], start: usize) -> usize
    requires fact_1 { at < 2 ^ 45 }
    requires fact_2 { start ≤ length line.now }
    requires fact_3 { length line.now ≤ 33554432 }
    ensures { Written out.old at (unquoted (drop start line.now) plain) out.new result }
{
    let mut next = at;
    let mut passed = TextState::Plain;
    for c in &line[start..] {
        match text_step(passed, *c) {
            TextStep::Nothing(seen) => passed = seen,
            TextStep::Byte(b, seen) => {
                next = put_byte(out, next, b);
                passed = seen;
            }
            TextStep::Closed => return next,
        }
    }
    next
}

// The byte of the field of Data at a place, and the place of the field after it.
fn data_at(line: &[u8], at: usize) -> DataStep
    requires { at ≤ length line.now }
    ensures { DataIs line.now at result }
{
    let Some(field) = field_at(line, at) else {
        return DataStep {
            byte: 0,
            next: line.len(),
        };
    };
    let next = after_comma(line, field.next());
    match field {
        FieldAt::Number { value, .. } => DataStep {
            byte: byte(value),
            next,
        },
        _ => DataStep { byte: 0, next },
    }
}

// The bytes of so many fields of Data from a place of the line on.
fn put_data(out: &mut [u8], at: usize, line: &[u8], start: usize, len: usize) -> usize
    requires fact_1 { at < 2 ^ 45 }
    requires fact_2 { start ≤ length line.now }
    requires fact_3 { len ≤ 33554432 }
    requires fact_4 { length line.now ≤ 33554432 }
    ensures { Written out.old at (data_from len (drop start line.now)) out.new result }
{
    let mut next = at;
    let mut place = start;
    for _ in 0..len {
        let step = data_at(line, place);
        next = put_byte(out, next, step.byte);
        place = step.next;
    }
    next
}

// The bytes of a row's Text or Data.
#[tactic(auto, unfolding(midicsv::specs::Table::shape, midicsv::specs::Table::event_shape, midicsv_record::specs::Row::body_in), using(event_write::proofs::WriteLaws::nothing))]
fn put_row_body(out: &mut [u8], at: usize, row: Row, line: &[u8]) -> usize
    requires fact_1 { at < 2 ^ 44 }
    requires fact_2 { row.start ≤ length line.now }
    requires fact_3 { row.len ≤ length line.now }
    requires fact_4 { length line.now ≤ 33554432 }
    ensures { Written out.old at (row_body line.now row) out.new result }
{
    let start = row.start;
    let len = row.len;
    match row.name {
        Name::SystemExclusive | Name::SystemExclusivePacket => put_data(out, at, line, start, len),
        Name::SequencerSpecific | Name::UnknownMetaEvent => put_data(out, at, line, start, len),
        Name::Text | Name::Copyright | Name::Title => put_quoted(out, at, line, start),
        Name::InstrumentName | Name::Lyric => put_quoted(out, at, line, start),
        Name::Marker | Name::CuePoint => put_quoted(out, at, line, start),
        _ => at,
    }
}

// The bytes of a row's event; force is the status in force before it.
pub fn put_row(
    out: &mut [u8],
    at: usize,
    delta: Delta,
    row: Row,
    line: &[u8],
    force: u8,
    short: bool,
) -> usize
    requires fact_1 { at < 2 ^ 42 }
    requires fact_2 { row.start ≤ length line.now }
    requires fact_3 { row.len ≤ length line.now }
    requires fact_4 { length line.now ≤ 33554432 }
    ensures { Written out.old at (row_bytes (manner_of short) force delta.0 line.now row) out.new result }
{
    let len = put_row_body(&mut out[..0], 0, row, line);
    let kind = row_kind(row, len);
    let p = event_write::head::put_head(out, at, delta, kind, force, short);
    put_row_body(out, p, row, line)
}
