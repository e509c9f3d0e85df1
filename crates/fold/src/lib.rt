// Many tracks into one.
#![tactic(auto)]

ghost use Rattle.std.specs.Prelude.{◌≡◌, length};
ghost use Rattle.smf.specs.PlacedFile.{placed_file};
ghost use Rattle.fold_piece.specs.FoldAnswer.{fold_answer, fold_leaves, fold_outcome, rows_lent, rows_leave, place_shown, time_shown, status_shown};

use event::refusal::Refusal;
use smf::Answer;

mod search; // search.rt: which row gives its event next
mod rows; // rows.rt: the rows, one for each track
mod merge; // merge.rt: the events of all tracks as those of one
mod write; // write.rt: the folded file
mod look; // look.rt: Channel_prefix and MIDI_port

// The longest file, and "Up to 64 tracks".
const FILE_LIMIT: usize = 1048576;

const MOST_TRACKS: u32 = 64;

// No status byte: in a row it says that the track has come to its End_track. The clause fact_5 of `fold` shows statuses as numbers.
const ENDED: u8 = 1;

// The row of a track: where its next event stands, that event's Time, and the status in force before it; 1, which is no
// status byte, says that it is End_track.
#[derive(Clone, Copy)]
struct Row {
    place: usize,
    time: u32,
    status: u8,
}

// The piece of the file as one track of format 0, in manner 1, into lent room, with a lent row for each track: its place, Time and
// status in three lists, of which the clauses fact_3 to fact_5 speak. Wherever the piece could be folded, even if the room is too small or the folded file too long, each row then shows its
// track's End_track; on every other refusal the rows, and on any refusal the room, keep what they held.
pub fn fold(
    file: &[u8],
    out: &mut [u8],
    places: &mut [usize],
    times: &mut [u32],
    statuses: &mut [u8],
) -> Answer
    ensures fact_1 { result ≡ fold_answer (length out.old) (rows_lent places.old times.old statuses.old) file.now }
    ensures fact_2 { out.new ≡ fold_leaves (rows_lent places.old times.old statuses.old) file.now out.old }
    ensures fact_3 { places.new ≡ rows_leave place_shown (fold_outcome (rows_lent places.old times.old statuses.old) file.now) (placed_file file.now) places.old }
    ensures fact_4 { times.new ≡ rows_leave time_shown (fold_outcome (rows_lent places.old times.old statuses.old) file.now) (placed_file file.now) times.old }
    ensures fact_5 { statuses.new ≡ rows_leave status_shown (fold_outcome (rows_lent places.old times.old statuses.old) file.now) (placed_file file.now) statuses.old }
{
    let header = match smf::check::read_file(file) {
        Ok(header) => header,
        Err(refused) => return refused.answer(),
    };
    let format = header.format;
    if 1 < format {
        return Answer::refuse(Refusal::Format2, 8);
    }
    let count = header.count;
    if MOST_TRACKS < count {
        return Answer::refuse(Refusal::TooManyTracks, 10);
    }
    let tracks = count as usize;
    if rows::rows_lent(places, times, statuses) < tracks {
        return Answer::refuse(Refusal::TooFewRows, 10);
    }
    let next = header.next;
    if let Some(place) = look::look(file, tracks, next) {
        return Answer::refuse(Refusal::PrefixOrPort, place);
    }
    let bits = smf::header::division_bits(header.division);
    write::put_measured(out, places, times, statuses, file, tracks, next, bits)
}
