// The merge: the events of all tracks, by Time, at equal Times by track number.
ghost use Rattle.std.specs.Prelude.{◌≡◌, ◌≤◌, ◌<◌, ◌^◌, length};
ghost use Rattle.event.specs.Manner.{short};
ghost use Rattle.event_write.specs.Written.{Written};
ghost use Rattle.smf_write.specs.Tidy.{events_in};
ghost use Rattle.fold_piece.specs.FoldAnswer.{place_shown, time_shown, status_shown};
ghost use Rattle.fold.specs.Code.Row.{TracksRead, track_of, RowsFor, showing};

use super::rows::{clear, row_at, start_rows};
use super::search::{greatest_time, least, least_after};
use event::read::read_event;
use event::{Cursor, EventKind, Time};
use smf_write::tidy::{put_event, step};

// The events of so many tracks from a place of the file on, which are known to read, as those of one
// track. A row has its next event's Time, so the event is read again after the Time 0 when it is taken: all
// but its Time is the same. At the end each row stands at its track's End_track.
pub fn merge(
    out: &mut [u8],
    places: &mut [usize],
    times: &mut [u32],
    statuses: &mut [u8],
    from: usize,
    file: &[u8],
    count: usize,
    first: usize,
) -> usize
    requires fact_1 { from < 2 ^ 40 }
    requires fact_2 { length file.now ≤ 1048576 }
    requires fact_3 { TracksRead file.now count first }
    requires fact_4 { RowsFor count places.old times.old statuses.old }
    ensures fact_1 { Written out.old from (events_in short 0 0 (track_of file.now count first)) out.new result }
    ensures fact_2 { places.new ≡ showing place_shown file.now count first places.old }
    ensures fact_3 { times.new ≡ showing time_shown file.now count first times.old }
    ensures fact_4 { statuses.new ≡ showing status_shown file.now count first statuses.old }
{
    start_rows(places, times, statuses, file, count, first);
    let mut next = from;
    let mut last = Time(0);
    let mut force: u8 = 0;
    let mut i = least(times, statuses, count);
    // Which row comes next is searched for after each event: there is no index to count.
    'turn: loop {
        let none_left = count <= i;
        if none_left {
            let t = greatest_time(times, count);
            let end = put_event(
                out,
                next,
                step(Time(t), last),
                EventKind::EndTrack,
                force,
                file,
                true,
            );
            clear(statuses, count);
            return end;
        }
        let now = times[i];
        let time = Time(now);
        let cursor = Cursor {
            place: places[i],
            time: Time(0),
            status: statuses[i],
        };
        let Ok(read) = read_event(file, cursor) else {
            return next;
        };
        let after = Cursor { time, ..read.next };
        next = put_event(out, next, step(time, last), read.kind, force, file, true);
        let row = row_at(file, after);
        places[i] = row.place;
        times[i] = row.time;
        statuses[i] = row.status;
        last = time;
        force = after.status;
        i = least_after(times, statuses, count, i, now);
    }
}
