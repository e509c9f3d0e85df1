// The folded file, written only where there is room: lent no room, the writers measure.
ghost use Rattle.std.specs.Prelude.{◌≡◌, ◌≤◌, ◌<◌, ◌^◌, length};
ghost use Rattle.event.specs.Manner.{short};
ghost use Rattle.event_write.specs.Written.{Written};
ghost use Rattle.smf.specs.Writing.{write_answer, write_leaves};
ghost use Rattle.smf_write.specs.Tidy.{track_in};
ghost use Rattle.fold_piece.specs.FoldAnswer.{place_shown, time_shown, status_shown};
ghost use Rattle.fold.specs.Code.Row.{TracksRead, track_of, file_in, RowsFor, showing};

use super::FILE_LIMIT;
use super::merge::merge;
use event::refusal::Refusal;
use event_write::bytes::put_big_endian;
use smf::{Answer, HEADER_TAG, TRACK_TAG};

// The tag, the length and the events of the one track. The length is known when the events are written, and
// is then written over the zero that stood for it.
fn put_track(
    out: &mut [u8],
    places: &mut [usize],
    times: &mut [u32],
    statuses: &mut [u8],
    at: usize,
    file: &[u8],
    count: usize,
    first: usize,
) -> usize
    requires fact_1 { at < 2 ^ 39 }
    requires fact_2 { length file.now ≤ 1048576 }
    requires fact_3 { TracksRead file.now count first }
    requires fact_4 { RowsFor count places.old times.old statuses.old }
    ensures fact_1 { Written out.old at (track_in short (track_of file.now count first)) out.new result }
    ensures fact_2 { places.new ≡ showing place_shown file.now count first places.old }
    ensures fact_3 { times.new ≡ showing time_shown file.now count first times.old }
    ensures fact_4 { statuses.new ≡ showing status_shown file.now count first statuses.old }
{
    let p = put_big_endian::<4>(out, at, TRACK_TAG);
    let q = put_big_endian::<4>(out, p, 0);
    let end = merge(out, places, times, statuses, q, file, count, first);
    let size = (end - q) as u32;
    put_big_endian::<4>(out, p, size);
    end
}

// The whole file: a header of format 0 and one track, and that track.
fn put_file(
    out: &mut [u8],
    places: &mut [usize],
    times: &mut [u32],
    statuses: &mut [u8],
    file: &[u8],
    count: usize,
    first: usize,
    bits: u32,
) -> usize
    requires fact_1 { bits ≤ 65535 }
    requires fact_2 { length file.now ≤ 1048576 }
    requires fact_3 { TracksRead file.now count first }
    requires fact_4 { RowsFor count places.old times.old statuses.old }
    ensures fact_1 { Written out.old 0 (file_in bits (track_of file.now count first)) out.new result }
    ensures fact_2 { places.new ≡ showing place_shown file.now count first places.old }
    ensures fact_3 { times.new ≡ showing time_shown file.now count first times.old }
    ensures fact_4 { statuses.new ≡ showing status_shown file.now count first statuses.old }
{
    let a = put_big_endian::<4>(out, 0, HEADER_TAG);
    let b = put_big_endian::<4>(out, a, 6);
    let c = put_big_endian::<2>(out, b, 0);
    let d = put_big_endian::<2>(out, c, 1);
    let e = put_big_endian::<2>(out, d, bits);
    put_track(out, places, times, statuses, e, file, count, first)
}

// The same into lent room, measured first: a refusal leaves the room as it was.
pub fn put_measured(
    out: &mut [u8],
    places: &mut [usize],
    times: &mut [u32],
    statuses: &mut [u8],
    file: &[u8],
    count: usize,
    first: usize,
    bits: u32,
) -> Answer
    requires fact_1 { bits ≤ 65535 }
    requires fact_2 { length file.now ≤ 1048576 }
    requires fact_3 { TracksRead file.now count first }
    requires fact_4 { RowsFor count places.old times.old statuses.old }
    ensures fact_1 { result ≡ write_answer (length out.old) (length (file_in bits (track_of file.now count first))) }
    ensures fact_2 { out.new ≡ write_leaves (file_in bits (track_of file.now count first)) out.old }
    ensures fact_3 { places.new ≡ showing place_shown file.now count first places.old }
    ensures fact_4 { times.new ≡ showing time_shown file.now count first times.old }
    ensures fact_5 { statuses.new ≡ showing status_shown file.now count first statuses.old }
{
    let need = put_file(
        &mut out[..0],
        places,
        times,
        statuses,
        file,
        count,
        first,
        bits,
    );
    if FILE_LIMIT < need {
        return Answer::refuse(Refusal::WrittenTooLong, 0);
    }
    if out.len() < need {
        return Answer::room_needed(need);
    }
    put_file(out, places, times, statuses, file, count, first, bits);
    Answer::success(need)
}
