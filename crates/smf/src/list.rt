// Listing the tracks.
ghost use Rattle.std.specs.Prelude.{◌≡◌, ◌≤◌, length, drop, []};
ghost use Rattle.std.proofs.lemmas.List.Edits.{sets};
ghost use Rattle.smf.specs.Reader.{read_tracks, read_file};
ghost use Rattle.smf.specs.Listing.{end_times, event_counts, paddings_in, list_answer, list_leaves, PaddingTold};
ghost use Rattle.smf.specs.Padding.{tracks_padding};
ghost use Rattle.event.specs.Outcome.{Readable, value_or};

use super::Answer;
use super::check::read_file;
use super::track::read_track;

// Fills the three lists from the tracks at a place on, which are known to read.
fn fill(
    file: &[u8],
    count: usize,
    first: usize,
    ends: &mut [u32],
    counts: &mut [u32],
    padding: &mut [u32],
)
    requires fact_1 { first ≤ length file.now }
    requires fact_2 { Readable (read_tracks count first (drop first file.now)) }
    requires fact_3 { count ≤ length ends.old }
    requires fact_4 { count ≤ length counts.old }
    requires fact_5 { count ≤ length padding.old }
    ensures fact_1 { ends.new ≡ sets ends.old 0 (end_times (value_or [] (read_tracks count first (drop first file.now)))) }
    ensures fact_2 { counts.new ≡ sets counts.old 0 (event_counts (value_or [] (read_tracks count first (drop first file.now)))) }
    ensures fact_3 { padding.new ≡ sets padding.old 0 (tracks_padding count first (drop first file.now)) }
{
    let mut at = first;
    for i in 0..count {
        let Ok(track) = read_track(file, at) else {
            return;
        };
        ends[i] = track.time.0;
        counts[i] = track.events;
        padding[i] = track.padding;
        at = track.next;
    }
}

// The End_track Time, the number of events and the padding of each track, into lists that the caller lends.
pub fn list_tracks(file: &[u8], ends: &mut [u32], counts: &mut [u32], padding: &mut [u32]) -> Answer
    ensures fact_1 { result ≡ list_answer (length ends.old) (length counts.old) (length padding.old) (read_file file.now) }
    ensures fact_2 { ends.new ≡ list_leaves end_times (length ends.old) (length counts.old) (length padding.old) (read_file file.now) ends.old }
    ensures fact_3 { counts.new ≡ list_leaves event_counts (length ends.old) (length counts.old) (length padding.old) (read_file file.now) counts.old }
    ensures fact_4 { padding.new ≡ list_leaves (paddings_in file.now) (length ends.old) (length counts.old) (length padding.old) (read_file file.now) padding.old }
    ensures fact_5 { PaddingTold file.now result.number result.length padding.new }
{
    let header = match read_file(file) {
        Ok(header) => header,
        Err(refused) => return refused.answer(),
    };
    let tracks = header.count as usize;
    let times = ends.len();
    if times < tracks {
        return Answer::room_needed(tracks);
    }
    if counts.len() < tracks {
        return Answer::room_needed(tracks);
    }
    let third = padding.len();
    if third < tracks {
        return Answer::room_needed(tracks);
    }
    fill(file, tracks, header.next, ends, counts, padding);
    Answer::success(tracks)
}
