// Records in their order: each is taken where it may stand, and its bytes are written. The length of
// a track is known at its End_track, and is then written over the zero that stood for it.
ghost use Rattle.std.specs.Prelude.{◌≡◌, ◌↔◌, IsTrue, true, ◌&&◌, [], ◌+◌, ◌≤◌, ◌<◌, ◌^◌, length, slice_index, eqb};
ghost use Rattle.event_write.specs.Written.{Written};
ghost use Rattle.event_write.specs.Head.{manner_of};
ghost use Rattle.smf.specs.Layout.{lay_header};
ghost use Rattle.smf.specs.Division.{division_ok, division_of};
ghost use Rattle.midicsv_record.specs.Name.{name_at};
ghost use Rattle.midicsv_read.specs.RowEvent.{is_event};
ghost use Rattle.midicsv_read.specs.declared.Phase.TheVariants.{BeforeHeader};
ghost use Rattle.midicsv_read.specs.Progress.{header_step, start_step, end_step, row_step, line_step, RowOf, InTrack, Follows, FollowsEither, FollowsStill, Near, Sized};

use super::write_row::{put_row, row_kind, status_after};
use super::{Phase, Progress};
use event::refusal::Refusal;
use event::{Delta, Time};
use event_write::bytes::put_big_endian;
use midicsv_record::line::read_line;
use midicsv_record::{Name, Row};
use midicsv_scan::frame::{passed_over, trim};

// The longest step between two events.
const MOST_DELTA: u32 = 268435455;

// Whether a Header, Start_track or End_of_file has this Track and the Time 0.
fn is_marked(row: Row, track: u32) -> bool
    ensures { result ≡ (eqb row.track track && eqb row.time 0) }
{
    row.track == track && row.time == 0
}

// MThd, 6, and the numbers of a Header, its division by its 16 bits.
fn put_header(out: &mut [u8], at: usize, format: u32, count: u32, bits: u32) -> usize
    requires fact_1 { at < 2 ^ 44 }
    requires fact_2 { division_ok bits ≡ true }
    ensures { Written out.old at (lay_header format count (division_of bits) [] []) out.new result }
{
    let a = put_big_endian::<4>(out, at, 0x4D546864);
    let b = put_big_endian::<4>(out, a, 6);
    let c = put_big_endian::<2>(out, b, format);
    let d = put_big_endian::<2>(out, c, count);
    put_big_endian::<2>(out, d, bits)
}

// Whether no record has been passed yet.
fn is_first(phase: Phase) -> bool
    ensures { IsTrue result ↔ phase ≡ BeforeHeader }
{
    phase == Phase::BeforeHeader
}

// A Header stands first.
fn take_header(out: &mut [u8], st: Progress, row: Row) -> Result<Progress, Refusal>
    requires fact_1 { Sized st }
    requires fact_2 { slice_index row.columns 1 ≤ 65535 }
    requires fact_3 { division_ok (slice_index row.columns 2) ≡ true }
    ensures fact_1 { FollowsEither st out.old (header_step row) result out.new }
    ensures fact_2 { Near (st.at + 15) result }
{
    if !is_first(st.phase) {
        return Err(Refusal::RecordOutOfOrder);
    }
    if !is_marked(row, 0) {
        return Err(Refusal::RecordOutOfOrder);
    }
    let [format, count, bits, ..] = row.columns;
    let at = put_header(out, st.at, format, count, bits);
    Ok(Progress {
        phase: Phase::BetweenTracks,
        count,
        tracks: 0,
        time: Time(0),
        force: 0,
        size: 0,
        at,
    })
}

// A Start_track stands between tracks, while the Header counts more: MTrk, and a zero for the length.
fn take_start(out: &mut [u8], st: Progress, row: Row) -> Result<Progress, Refusal>
    requires { Sized st }
    ensures fact_1 { FollowsEither st out.old (start_step row) result out.new }
    ensures fact_2 { Near (st.at + 15) result }
{
    if st.phase != Phase::BetweenTracks {
        return Err(Refusal::RecordOutOfOrder);
    }
    if st.count <= st.tracks {
        return Err(Refusal::RecordOutOfOrder);
    }
    if !is_marked(row, st.tracks + 1) {
        return Err(Refusal::RecordOutOfOrder);
    }
    let size = put_big_endian::<4>(out, st.at, 0x4D54726B);
    let at = put_big_endian::<4>(out, size, 0);
    Ok(Progress {
        phase: Phase::InTrack,
        time: Time(0),
        force: 0,
        size,
        at,
        ..st
    })
}

// An End_of_file stands after as many tracks as the Header counts.
fn take_end(st: Progress, row: Row) -> Result<Progress, Refusal>
    ensures fact_1 { FollowsStill st (end_step row) result }
    ensures fact_2 { Near (st.at + 15) result }
{
    if st.phase != Phase::BetweenTracks {
        return Err(Refusal::RecordOutOfOrder);
    }
    if st.tracks != st.count {
        return Err(Refusal::RecordOutOfOrder);
    }
    if !is_marked(row, 0) {
        return Err(Refusal::RecordOutOfOrder);
    }
    Ok(Progress {
        phase: Phase::AfterEnd,
        time: Time(0),
        force: 0,
        size: 0,
        ..st
    })
}

// An event that may stand there, with its delta. End_track ends the track, whose length is now known.
fn put_event(
    out: &mut [u8],
    st: Progress,
    delta: Delta,
    row: Row,
    line: &[u8],
    short: bool,
) -> Result<Progress, Refusal>
    requires fact_1 { Sized st }
    requires fact_2 { RowOf line.now row }
    requires fact_3 { is_event (name_at row.name) ≡ true }
    requires fact_4 { InTrack st row.track row.time delta.0 }
    ensures fact_1 { Follows (manner_of short) st out.old (row_step line.now row) result out.new }
    ensures fact_2 { Near (st.at + 15 + length line.now) result }
{
    let at = put_row(out, st.at, delta, row, line, st.force, short);
    // End_track and the status after an event are the same for any number of data bytes
    let kind = row_kind(row, 0);
    if event::read::is_end(kind) {
        put_big_endian::<4>(out, st.size, (at - st.size - 4) as u32);
        return Ok(Progress {
            phase: Phase::BetweenTracks,
            tracks: st.tracks + 1,
            time: Time(0),
            force: 0,
            size: 0,
            at,
            ..st
        });
    }
    Ok(Progress {
        time: Time(row.time),
        force: status_after(kind),
        at,
        ..st
    })
}

// An event stands in its track, not before the event before it, and at most 268,435,455 after it.
fn take_event(
    out: &mut [u8],
    st: Progress,
    row: Row,
    line: &[u8],
    short: bool,
) -> Result<Progress, Refusal>
    requires fact_1 { Sized st }
    requires fact_2 { RowOf line.now row }
    requires fact_3 { is_event (name_at row.name) ≡ true }
    ensures fact_1 { Follows (manner_of short) st out.old (row_step line.now row) result out.new }
    ensures fact_2 { Near (st.at + 15 + length line.now) result }
{
    if st.phase != Phase::InTrack {
        return Err(Refusal::RecordOutOfOrder);
    }
    if row.track != st.tracks + 1 {
        return Err(Refusal::RecordOutOfOrder);
    }
    let Some(delta) = Time(row.time).since(st.time) else {
        return Err(Refusal::RecordOutOfOrder);
    };
    let d = delta.0;
    if MOST_DELTA < d {
        return Err(Refusal::StepTooGreat);
    }
    put_event(out, st, delta, row, line, short)
}

// A record, by its name.
fn take_row(
    out: &mut [u8],
    st: Progress,
    row: Row,
    line: &[u8],
    short: bool,
) -> Result<Progress, Refusal>
    requires fact_1 { Sized st }
    requires fact_2 { RowOf line.now row }
    ensures fact_1 { Follows (manner_of short) st out.old (row_step line.now row) result out.new }
    ensures fact_2 { Near (st.at + 15 + length line.now) result }
{
    match row.name {
        Name::Header => take_header(out, st, row),
        Name::StartTrack => take_start(out, st, row),
        Name::EndOfFile => take_end(st, row),
        _ => take_event(out, st, row, line, short),
    }
}

// A line of the text, without its LF.
pub fn take_line(
    out: &mut [u8],
    st: Progress,
    line: &[u8],
    short: bool,
) -> Result<Progress, Refusal>
    requires fact_1 { Sized st }
    requires fact_2 { length line.now ≤ 33554432 }
    ensures fact_1 { Follows (manner_of short) st out.old (line_step line.now) result out.new }
    ensures fact_2 { Near (st.at + 15 + length line.now) result }
{
    let body = trim(line);
    if passed_over(body) {
        return Ok(st);
    }
    let row = read_line(body)?;
    take_row(out, st, row, body, short)
}
