// The lines of records written, in a text or (`sheet`) in a sheet. Each writes only where there is room and answers the place after.
#![tactic(auto, using(event_write::proofs::WriteLaws::nothing, event_write::proofs::DataLaws::data_length), unfolding(event::specs::Step::kind_from, midicsv::specs::Record::name_of, midicsv::specs::Record::values_of, midicsv::specs::Record::fields_of, midicsv::specs::Record::column_field, midicsv::specs::Record::tail_fields, midicsv::specs::Record::data_fields, midicsv::specs::Table::event_shape, midicsv::specs::Show::further))]

ghost use Rattle.std.specs.Prelude.{[], ◌++◌, ◌≤◌, ◌<◌, ◌^◌, length};
ghost use Rattle.event.specs.Step.{kind_from};
ghost use Rattle.event_write.specs.Written.{Written};
ghost use Rattle.midicsv.specs.Field.{decimal, num};
ghost use Rattle.midicsv.specs.Show.{gap, joined, further};
ghost use Rattle.midicsv.specs.Code.Form.{form_of};
ghost use Rattle.midicsv.specs.Table.{mode, start_track, end_of_file};
ghost use Rattle.midicsv.specs.Record.{signed_field, column_field};
ghost use Rattle.midicsv.specs.Text.{mark, event_record};
ghost use Rattle.midicsv_write.specs.Line.{event_from, column_fields, column_count, body_fields, line, header_for};

use event::number::event_data;
use event::{EventKind, Time};
use event_write::bytes::{put_byte, put_bytes};
use midicsv::field::{
    put_byte_fields, put_comma, put_decimal, put_number_field, put_sized, put_text_field,
};
use midicsv::name::put_event_name;

// A number from what it is in a file: from `first` on it is below 0, and `all` more.
fn put_signed_field(out: &mut [u8], at: usize, n: u32, first: u32, all: u32, sheet: bool) -> usize
    requires fact_1 { at < 2 ^ 45 }
    requires fact_2 { n ≤ all }
    ensures { Written out.old at (joined (form_of sheet) (signed_field first all n)) out.new result }
{
    if n < first {
        return put_number_field(out, at, n, sheet);
    }
    let a = put_comma(out, at, sheet);
    let b = put_byte(out, a, b'-');
    put_decimal(out, b, all - n)
}

// "major" or "minor".
fn put_mode_field(out: &mut [u8], at: usize, minor: u8, sheet: bool) -> usize
    requires { at < 2 ^ 45 }
    ensures { Written out.old at (joined (form_of sheet) (column_field mode minor)) out.new result }
{
    let a = put_comma(out, at, sheet);
    if minor == 0 {
        return put_bytes(out, a, b"\"major\"");
    }
    put_bytes(out, a, b"\"minor\"")
}

// The columns of an event's record, of which there are at most two; data play no part in them.
fn put_few_columns(out: &mut [u8], at: usize, kind: EventKind, sheet: bool) -> usize
    requires fact_1 { at < 2 ^ 42 }
    requires fact_2 { column_count kind ≤ 2 }
    ensures { Written out.old at (further (form_of sheet) (column_fields (kind_from [] kind))) out.new result }
{
    match kind {
        EventKind::Program { channel, number } => put_byte_fields(
            out,
            at,
            &[channel, number],
            sheet,
        ),
        EventKind::ChannelAftertouch { channel, value } => put_byte_fields(
            out,
            at,
            &[channel, value],
            sheet,
        ),
        EventKind::PitchBend { channel, value } => {
            let p = put_number_field(out, at, channel as u32, sheet);
            put_number_field(out, p, value as u32, sheet)
        }
        EventKind::SequenceNumber { number } | EventKind::Tempo { micros: number } =>
            put_number_field(out, at, number, sheet),
        EventKind::ChannelPrefix { number }
        | EventKind::MidiPort { number }
        | EventKind::UnknownMeta { kind: number, .. } => put_byte_fields(out, at, &[number], sheet),
        EventKind::KeySignature { key, minor } => {
            let p = put_signed_field(out, at, key as u32, 8, 256, sheet);
            put_mode_field(out, p, minor, sheet)
        }
        _ => at,
    }
}

// The same of any event.
fn put_columns(out: &mut [u8], at: usize, kind: EventKind, sheet: bool) -> usize
    requires { at < 2 ^ 42 }
    ensures { Written out.old at (further (form_of sheet) (column_fields (kind_from [] kind))) out.new result }
{
    match kind {
        EventKind::NoteOff {
            channel,
            key,
            velocity,
        }
        | EventKind::NoteOn {
            channel,
            key,
            velocity,
        } => put_byte_fields(out, at, &[channel, key, velocity], sheet),
        EventKind::PolyAftertouch {
            channel,
            key,
            value,
        } => put_byte_fields(out, at, &[channel, key, value], sheet),
        EventKind::Control {
            channel,
            controller,
            value,
        } => put_byte_fields(out, at, &[channel, controller, value], sheet),
        EventKind::SmpteOffset {
            hour,
            minute,
            second,
            frame,
            part,
        } => put_byte_fields(out, at, &[hour, minute, second, frame, part], sheet),
        EventKind::TimeSignature {
            numerator,
            denominator,
            click,
            notes,
        } => put_byte_fields(out, at, &[numerator, denominator, click, notes], sheet),
        _ => put_few_columns(out, at, kind, sheet),
    }
}

// The Text, or the Length and Data, of an event's record.
fn put_body(out: &mut [u8], at: usize, kind: EventKind, body: &[u8], sheet: bool) -> usize
    requires fact_1 { at < 2 ^ 42 }
    requires fact_2 { length body.now < 2 ^ 32 }
    ensures { Written out.old at (further (form_of sheet) (body_fields (kind_from body.now kind))) out.new result }
{
    match kind {
        EventKind::Text { start, len, .. } => put_text_field(
            out,
            at,
            event_data(body, start, len),
            sheet,
        ),
        EventKind::SystemExclusive { start, len }
        | EventKind::SystemExclusivePacket { start, len }
        | EventKind::SequencerSpecific { start, len }
        | EventKind::UnknownMeta { start, len, .. } => put_sized(
            out,
            at,
            event_data(body, start, len),
            sheet,
        ),
        _ => at,
    }
}

// Track and Time, to where the name begins.
fn put_line_start(out: &mut [u8], at: usize, track: u32, time: u32, sheet: bool) -> usize
    requires { at < 2 ^ 42 }
    ensures { Written out.old at (decimal track ++ joined (form_of sheet) (num time) ++ gap (form_of sheet)) out.new result }
{
    let p = put_decimal(out, at, track);
    let q = put_number_field(out, p, time, sheet);
    put_comma(out, q, sheet)
}

// The line of an event of the track so numbered.
pub fn put_event_line(
    out: &mut [u8],
    at: usize,
    track: u32,
    time: Time,
    kind: EventKind,
    body: &[u8],
    sheet: bool,
) -> usize
    requires fact_1 { at < 2 ^ 41 }
    requires fact_2 { length body.now ≤ 1048576 }
    ensures { Written out.old at (line (form_of sheet) (event_record track (event_from time body.now kind))) out.new result }
{
    let t = time.0;
    let p = put_line_start(out, at, track, t, sheet);
    let q = put_event_name(out, p, kind);
    let r = put_columns(out, q, kind, sheet);
    let s = put_body(out, r, kind, body, sheet);
    put_byte(out, s, b'\n')
}

// Start_track of the track so numbered.
pub fn put_start_line(out: &mut [u8], at: usize, track: u32, sheet: bool) -> usize
    requires { at < 2 ^ 42 }
    ensures { Written out.old at (line (form_of sheet) (mark start_track track)) out.new result }
{
    let p = put_line_start(out, at, track, 0, sheet);
    put_bytes(out, p, b"Start_track\n")
}

// End_of_file, which ends a text.
pub fn put_end_line(out: &mut [u8], at: usize, sheet: bool) -> usize
    requires { at < 2 ^ 42 }
    ensures { Written out.old at (line (form_of sheet) (mark end_of_file 0)) out.new result }
{
    let p = put_line_start(out, at, 0, 0, sheet);
    put_bytes(out, p, b"End_of_file\n")
}

// The Header's line, which begins a text.
pub fn put_header_line(out: &mut [u8], format: u32, count: u32, bits: u32, sheet: bool) -> usize
    requires { bits ≤ 65535 }
    ensures { Written out.old 0 (line (form_of sheet) (header_for format count bits)) out.new result }
{
    let p = put_line_start(out, 0, 0, 0, sheet);
    let q = put_bytes(out, p, b"Header");
    let r = put_number_field(out, q, format, sheet);
    let s = put_number_field(out, r, count, sheet);
    let t = put_signed_field(out, s, bits, 32768, 65536, sheet);
    put_byte(out, t, b'\n')
}
