// Tidying: a file's piece written again in manner 1. The writers below take the manner, short or
// full; each writes only where there is room and answers the place after: lent no room, it measures.
ghost use Rattle.std.specs.Prelude.{◌≡◌, [], ◌++◌, ◌≤◌, ◌<◌, ◌^◌, length, drop};
ghost use Rattle.event.specs.Outcome.{Readable, value_or};
ghost use Rattle.event.specs.Step.{kind_from};
ghost use Rattle.event_write.specs.Written.{Written};
ghost use Rattle.event_write.specs.Head.{manner_of, head_bytes, data_of};
ghost use Rattle.smf.specs.Reader.{read_all, read_tracks, read_header, read_file};
ghost use Rattle.smf.specs.Step.{header_step};
ghost use Rattle.smf.specs.Manner.{file_of};
ghost use Rattle.smf.specs.PieceRead.{piece_read};
ghost use Rattle.smf.specs.Writing.{short_answer, short_leaves};
ghost use Rattle.smf_write.specs.Tidy.{step_of, events_in, track_in, tracks_in};

use event::refusal::Refusal;
use event::{Cursor, Delta, EventKind, Time};
use event_write::bytes::{put_big_endian, put_bytes};
use smf::{Answer, HEADER_TAG, HeaderRead, TRACK_TAG};

// The longest file that is written, in bytes.
const FILE_LIMIT: usize = 1048576;

// An event's data. Where no room is left, as when a file is measured, nothing goes through it byte by byte.
#[tactic(auto, using(crate::proofs::RoomLaws::past_room))]
fn put_data(out: &mut [u8], at: usize, bytes: &[u8]) -> usize
    requires fact_1 { at < 2 ^ 47 }
    requires fact_2 { length bytes.now < 2 ^ 46 }
    ensures { Written out.old at bytes.now out.new result }
{
    if out.len() <= at {
        return at + bytes.len();
    }
    put_bytes(out, at, bytes)
}

// An event of a track's body, with its data; force is the status in force before it.
pub fn put_event(
    out: &mut [u8],
    at: usize,
    delta: Delta,
    kind: EventKind,
    force: u8,
    body: &[u8],
    short: bool,
) -> usize
    requires fact_1 { at < 2 ^ 42 }
    requires fact_2 { length body.now < 2 ^ 42 }
    ensures { Written out.old at (head_bytes (manner_of short) force delta.0 kind ++ data_of (kind_from body.now kind)) out.new result }
{
    let p = event_write::head::put_head(out, at, delta, kind, force, short);
    let place = event::read::data_place(kind);
    let start = place.start;
    let len = place.len;
    put_data(out, p, event::number::event_data(body, start, len))
}

// The delta from an earlier Time to a Time.
pub fn step(time: Time, earlier: Time) -> Delta
    ensures { result ≡ step_of time.0 earlier.0 }
{
    time.since(earlier).unwrap_or(Delta(0))
}

// The events of a track's body, which are known to read.
fn put_events(out: &mut [u8], from: usize, body: &[u8], short: bool) -> usize
    requires fact_1 { from < 2 ^ 40 }
    requires fact_2 { length body.now ≤ 1048576 }
    requires fact_3 { Readable (read_all 0 0 0 body.now) }
    ensures { Written out.old from (events_in (manner_of short) 0 0 (value_or [] (read_all 0 0 0 body.now))) out.new result }
{
    let mut next = from;
    let mut cursor = Cursor::start(0);
    // The cursor after an event comes with the event; an iterator would hold the same cursor and could not say where it stopped.
    loop {
        let Ok(read) = event::read::read_event(body, cursor) else {
            return next;
        };
        let delta = step(read.next.time, cursor.time);
        next = put_event(out, next, delta, read.kind, cursor.status, body, short);
        if event::read::is_end(read.kind) {
            return next;
        }
        cursor = read.next;
    }
}

// A track's chunk: the number of bytes its events take, and those bytes. The number is known when they are
// written, and is then written over the zero that stood for it.
fn put_track(out: &mut [u8], at: usize, body: &[u8], short: bool) -> usize
    requires fact_1 { at < 2 ^ 39 }
    requires fact_2 { length body.now ≤ 1048576 }
    requires fact_3 { Readable (read_all 0 0 0 body.now) }
    ensures { Written out.old at (track_in (manner_of short) (value_or [] (read_all 0 0 0 body.now))) out.new result }
{
    let p = put_big_endian::<4>(out, at, TRACK_TAG);
    let q = put_big_endian::<4>(out, p, 0);
    let end = put_events(out, q, body, short);
    let size = (end - q) as u32;
    put_big_endian::<4>(out, p, size);
    end
}

// So many tracks from a place of the file on, which are known to read.
fn put_tracks(
    out: &mut [u8],
    from: usize,
    file: &[u8],
    count: u32,
    first: usize,
    short: bool,
) -> usize
    requires fact_1 { from < 2 ^ 38 }
    requires fact_2 { first ≤ length file.now }
    requires fact_3 { length file.now ≤ 1048576 }
    requires fact_4 { Readable (read_tracks count first (drop first file.now)) }
    ensures { Written out.old from (tracks_in (manner_of short) (value_or [] (read_tracks count first (drop first file.now)))) out.new result }
{
    let mut next = from;
    let mut at = first;
    for _ in 0..count {
        let Ok(chunk) = smf::track::next_track(file, at) else {
            return next;
        };
        let start = chunk.start;
        let end = chunk.end;
        next = put_track(out, next, &file[start..end], short);
        at = end;
    }
    next
}

// The file, in the manner asked, of the piece of a file that is known to read, whose header was read.
fn put_file(out: &mut [u8], file: &[u8], header: HeaderRead, short: bool) -> usize
    requires small { length file.now ≤ 1048576 }
    requires readable { Readable (read_file file.now) }
    requires header { Ok header ≡ header_step (length file.now) (read_header file.now) }
    ensures { Written out.old 0 (file_of (manner_of short) (piece_read file.now)) out.new result }
{
    let bits = smf::header::division_bits(header.division);
    let a = put_big_endian::<4>(out, 0, HEADER_TAG);
    let b = put_big_endian::<4>(out, a, 6);
    let c = put_big_endian::<2>(out, b, header.format);
    let d = put_big_endian::<2>(out, c, header.count);
    let e = put_big_endian::<2>(out, d, bits);
    put_tracks(out, e, file, header.count, header.next, short)
}

// The file's piece in manner 1, into lent room; on any refusal the room keeps what it held.
pub fn tidy(file: &[u8], out: &mut [u8]) -> Answer
    ensures fact_1 { result ≡ short_answer (length out.old) (read_file file.now) }
    ensures fact_2 { out.new ≡ short_leaves (read_file file.now) out.old }
{
    let header = match smf::check::read_file(file) {
        Ok(header) => header,
        Err(refused) => return refused.answer(),
    };
    let need = put_file(&mut out[..0], file, header, true);
    if FILE_LIMIT < need {
        return Answer::refuse(Refusal::WrittenTooLong, 0);
    }
    let too_small = out.len() < need;
    if too_small {
        return Answer::room_needed(need);
    }
    put_file(out, file, header, true);
    Answer::success(need)
}
