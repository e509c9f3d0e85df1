// File to text and file to sheet: a file's piece written as records. The writers below write only where there is room and
// answer the place after: lent no room, they measure.
ghost use Rattle.std.specs.Prelude.{◌≡◌, [], ◌∷◌, ◌≤◌, ◌<◌, ◌^◌, length, drop};
ghost use Rattle.event.specs.Outcome.{Readable, value_or};
ghost use Rattle.event_write.specs.Written.{Written};
ghost use Rattle.smf.specs.Reader.{read_all, read_tracks, read_header, read_file};
ghost use Rattle.smf.specs.Step.{header_step};
ghost use Rattle.smf.specs.PieceRead.{piece_read};
ghost use Rattle.midicsv.specs.Show.{as_text, as_sheet};
ghost use Rattle.midicsv.specs.Table.{start_track};
ghost use Rattle.midicsv.specs.Code.Form.{form_of};
ghost use Rattle.midicsv.specs.Text.{mark, event_records, track_records, records_text, written_as, most};
ghost use Rattle.midicsv_write.specs.ToText.{written_answer, written_leaves};

use super::record::{put_end_line, put_event_line, put_header_line, put_start_line};
use event::Cursor;
use smf::{Answer, HeaderRead};

// The two forms: whether a sheet is written.
const TEXT: bool = false;

const SHEET: bool = true;

// The lines of the events of a track's body, which are known to read.
fn put_events(out: &mut [u8], from: usize, body: &[u8], track: u32, sheet: bool) -> usize
    requires fact_1 { from < 2 ^ 40 }
    requires fact_2 { length body.now ≤ 1048576 }
    requires fact_3 { track ≤ 65535 }
    requires fact_4 { Readable (read_all 0 0 0 body.now) }
    ensures { Written out.old from (records_text (form_of sheet) (event_records track (value_or [] (read_all 0 0 0 body.now)))) out.new result }
{
    let mut next = from;
    let mut cursor = Cursor::start(0);
    // The cursor after an event comes with the event; an iterator would hold the same cursor and could not say where it stopped.
    loop {
        let Ok(read) = event::read::read_event(body, cursor) else {
            return next;
        };
        next = put_event_line(out, next, track, read.next.time, read.kind, body, sheet);
        if event::read::is_end(read.kind) {
            return next;
        }
        cursor = read.next;
    }
}

// Start_track and the events of a track.
fn put_track(out: &mut [u8], at: usize, body: &[u8], track: u32, sheet: bool) -> usize
    requires fact_1 { at < 2 ^ 39 }
    requires fact_2 { length body.now ≤ 1048576 }
    requires fact_3 { track ≤ 65535 }
    requires fact_4 { Readable (read_all 0 0 0 body.now) }
    ensures { Written out.old at (records_text (form_of sheet) (mark start_track track ∷ event_records track (value_or [] (read_all 0 0 0 body.now)))) out.new result }
{
    let p = put_start_line(out, at, track, sheet);
    put_events(out, p, body, track, sheet)
}

// So many tracks from a place of the file on, which are known to read, numbered from 1.
fn put_tracks(
    out: &mut [u8],
    from: usize,
    file: &[u8],
    count: u32,
    first: usize,
    sheet: bool,
) -> usize
    requires fact_1 { from < 2 ^ 38 }
    requires fact_2 { first ≤ length file.now }
    requires fact_3 { length file.now ≤ 1048576 }
    requires fact_4 { count ≤ 65535 }
    requires fact_5 { Readable (read_tracks count first (drop first file.now)) }
    ensures { Written out.old from (records_text (form_of sheet) (track_records 1 (value_or [] (read_tracks count first (drop first file.now))))) out.new result }
{
    let mut next = from;
    let mut at = first;
    for track in 1..=count {
        let Ok(chunk) = smf::track::next_track(file, at) else {
            return next;
        };
        let start = chunk.start;
        let end = chunk.end;
        next = put_track(out, next, &file[start..end], track, sheet);
        at = end;
    }
    next
}

// The text of the piece of a file that is known to read, whose header was read.
fn put_text(out: &mut [u8], file: &[u8], header: HeaderRead, sheet: bool) -> usize
    requires small { length file.now ≤ 1048576 }
    requires readable { Readable (read_file file.now) }
    requires header { Ok header ≡ header_step (length file.now) (read_header file.now) }
    ensures { Written out.old 0 (written_as (form_of sheet) (piece_read file.now)) out.new result }
{
    let count = header.count;
    let bits = smf::header::division_bits(header.division);
    let p = put_header_line(out, header.format, count, bits, sheet);
    let q = put_tracks(out, p, file, count, header.next, sheet);
    put_end_line(out, q, sheet)
}

// The most bytes that are written for so many bytes of a file.
fn most_for(n: usize, sheet: bool) -> usize
    requires { n ≤ 1048576 }
    ensures { result ≡ most (form_of sheet) n }
{
    if sheet {
        return 23 * n;
    }
    25 * n
}

// The piece of a file in one of its forms, into lent room; on any refusal the room keeps what it held. In a room that is always
// enough nothing is measured first.
fn put_file(file: &[u8], out: &mut [u8], sheet: bool) -> Answer
    ensures fact_1 { result ≡ written_answer (form_of sheet) (length out.old) (read_file file.now) }
    ensures fact_2 { out.new ≡ written_leaves (form_of sheet) (read_file file.now) out.old }
{
    let header = match smf::check::read_file(file) {
        Ok(header) => header,
        Err(refused) => return refused.answer(),
    };
    if most_for(file.len(), sheet) <= out.len() {
        let written = put_text(out, file, header, sheet);
        return Answer::success(written);
    }
    let need = put_text(&mut out[..0], file, header, sheet);
    if out.len() < need {
        return Answer::room_needed(need);
    }
    put_text(out, file, header, sheet);
    Answer::success(need)
}

// The text of the file's piece.
pub fn file_to_text(file: &[u8], out: &mut [u8]) -> Answer
    ensures fact_1 { result ≡ written_answer as_text (length out.old) (read_file file.now) }
    ensures fact_2 { out.new ≡ written_leaves as_text (read_file file.now) out.old }
{
    put_file(file, out, TEXT)
}

// The sheet of the file's piece.
pub fn file_to_sheet(file: &[u8], out: &mut [u8]) -> Answer
    ensures fact_1 { result ≡ written_answer as_sheet (length out.old) (read_file file.now) }
    ensures fact_2 { out.new ≡ written_leaves as_sheet (read_file file.now) out.old }
{
    put_file(file, out, SHEET)
}
