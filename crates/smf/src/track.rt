// A track: its chunk, and the walk over its events to End_track.
ghost use Rattle.std.specs.Prelude.{◌≡◌, ◌+◌, ◌≤◌, ◌<◌, ◌^◌, length, drop};
ghost use Rattle.smf.specs.Reader.{read_all, read_chunk, read_track};
ghost use Rattle.smf.specs.Padding.{all_padding, track_padding};
ghost use Rattle.smf.specs.Step.{chunk_step, walk_step, track_step, told};

use super::{Chunk, Refused, TRACK_TAG, TrackRead, Walked, refuse};
use event::number::big_endian;
use event::refusal::Refusal;

// The chunk of the next track from a place on, past chunks with other tags: where its events begin,
// and where they end.
pub fn next_track(file: &[u8], from: usize) -> Result<Chunk, Refused>
    ensures { told result ≡ chunk_step (length file.now) (read_chunk from (drop from file.now)) }
{
    let mut at = from;
    // A chunk says itself where the next begins: there is no index to count.
    loop {
        if file.len() < 8 {
            return refuse(Refusal::FileCutShort, at);
        }
        if file.len() - 8 < at {
            return refuse(Refusal::FileCutShort, at);
        }
        let start = at + 8;
        let len = big_endian::<4>(file, at + 4) as usize;
        if file.len() - start < len {
            return refuse(Refusal::FileCutShort, at);
        }
        let end = start + len;
        let is_track = big_endian::<4>(file, at) == TRACK_TAG;
        if is_track {
            return Ok(Chunk { start, end });
        }
        at = end;
    }
}

// The events of a track's body, whose first byte is the file's byte at base.
fn walk_track(body: &[u8], base: usize) -> Result<Walked, Refused>
    requires fact_1 { base + length body.now < 2 ^ 64 }
    requires fact_2 { length body.now ≤ 4294967295 }
    ensures { told result ≡ walk_step 0 0 (all_padding 0 0 body.now) (read_all base 0 0 body.now) }
{
    let start = event::Cursor::start(0);
    let mut cursor = start;
    let mut events: u32 = 0;
    let mut padding: u32 = 0;
    // The cursor after an event comes with the event; an iterator would hold the same cursor and could not say where it stopped.
    loop {
        let read = match event::read::read_event(body, cursor) {
            Ok(read) => read,
            Err(why) => return refuse(why, base + cursor.place),
        };
        let next = read.next;
        events += 1;
        padding += read.padding;
        if event::read::is_end(read.kind) {
            let more = next.place < body.len();
            if more {
                let place = base + next.place;
                return refuse(Refusal::BytesAfterEndTrack, place);
            }
            return Ok(Walked {
                time: next.time,
                events,
                padding,
            });
        }
        cursor = next;
    }
}

// A track at a place of the file.
pub fn read_track(file: &[u8], at: usize) -> Result<TrackRead, Refused>
    ensures { told result ≡ track_step (length file.now) (track_padding at (drop at file.now)) (read_track at (drop at file.now)) }
{
    let chunk = next_track(file, at)?;
    let start = chunk.start;
    let end = chunk.end;
    let walked = walk_track(&file[start..end], start)?;
    Ok(TrackRead {
        time: walked.time,
        events: walked.events,
        next: end,
        padding: walked.padding,
    })
}
