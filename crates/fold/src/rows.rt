// The rows, one for each track, as three lent lists of numbers: where the track's next event stands, its
// Time, and the status in force before it.
ghost use Rattle.std.specs.Prelude.{◌≡◌, ◌++◌, ◌≤◌, min, length, drop, replicate};
ghost use Rattle.event.specs.Reader.{read_event};
ghost use Rattle.event.specs.Padding.{event_padding};
ghost use Rattle.event.specs.Refusal.{numbered};
ghost use Rattle.event.specs.Step.{event_step};
ghost use Rattle.smf.specs.Code.Chain.{placed_from};
ghost use Rattle.fold_piece.specs.FoldAnswer.{rows_lent};
ghost use Rattle.fold.specs.Code.Row.{row_of, TracksRead};
ghost use Rattle.fold.specs.Code.Stand.{Rows};

use super::{ENDED, Row};
use event::refusal::Refusal;
use event::{Cursor, EventRead};

// How many rows are lent: as many as the shortest of the lists has numbers.
pub fn rows_lent(places: &[usize], times: &[u32], statuses: &[u8]) -> usize
    ensures { result ≡ rows_lent places.now times.now statuses.now }
{
    places.len().min(times.len().min(statuses.len()))
}

// The row of a track at a cursor, of its next event as it was read.
pub fn row_of(cursor: Cursor, step: Result<EventRead, Refusal>) -> Row
    ensures { result ≡ row_of cursor.place cursor.time.0 cursor.status (numbered step) }
{
    let place = cursor.place;
    match step {
        Err(_) => Row {
            place,
            time: cursor.time.0,
            status: ENDED,
        },
        Ok(read) => {
            let time = read.next.time.0;
            if event::read::is_end(read.kind) {
                return Row {
                    place,
                    time,
                    status: ENDED,
                };
            }
            Row {
                place,
                time,
                status: cursor.status,
            }
        }
    }
}

// The same, read from the file.
pub fn row_at(file: &[u8], cursor: Cursor) -> Row
    ensures { result ≡ row_of cursor.place cursor.time.0 cursor.status (event_step (length file.now) (event_padding (drop cursor.place file.now)) (read_event cursor.time.0 cursor.status (drop cursor.place file.now))) }
{
    row_of(cursor, event::read::read_event(file, cursor))
}

// Rows for so many tracks from a place of the file on, which are known to read: each stands before its
// track's first event.
pub fn start_rows(
    places: &mut [usize],
    times: &mut [u32],
    statuses: &mut [u8],
    file: &[u8],
    count: usize,
    first: usize,
)
    requires fact_1 { TracksRead file.now count first }
    requires fact_2 { count ≤ length places.old }
    requires fact_3 { count ≤ length times.old }
    requires fact_4 { count ≤ length statuses.old }
    ensures { Rows file.now count (placed_from file.now count first) places.new times.new statuses.new places.old times.old statuses.old }
{
    let mut at = first;
    for i in 0..count {
        let Ok(chunk) = smf::track::next_track(file, at) else {
            return;
        };
        let row = row_at(file, Cursor::start(chunk.start));
        places[i] = row.place;
        times[i] = row.time;
        statuses[i] = row.status;
        at = chunk.end;
    }
}

// The first n statuses become 0.
pub fn clear(statuses: &mut [u8], n: usize)
    requires { n ≤ length statuses.old }
    ensures { statuses.new ≡ replicate n 0 ++ drop n statuses.old }
{
    statuses[..n].fill(0);
}
