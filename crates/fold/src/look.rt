// Looking for a Channel_prefix or MIDI_port, which a piece of several tracks may not have.
ghost use Rattle.std.specs.Prelude.{◌≡◌, ◌+◌, ◌<◌, ◌^◌, length};
ghost use Rattle.event.specs.Outcome.{Readable};
ghost use Rattle.smf.specs.Reader.{read_all};
ghost use Rattle.smf.specs.Walk.{walked_body, placed_of};
ghost use Rattle.smf.specs.Code.Chain.{placed_from};
ghost use Rattle.fold_piece.specs.FoldAnswer.{track_free, tracks_free, several_free};
ghost use Rattle.fold.specs.Code.Look.{prefix_or_port_of, looked, look_answer, fine};
ghost use Rattle.fold.specs.Code.Row.{TracksRead};

use event::{Cursor, EventKind};

// Fewer tracks than so many may have a Channel_prefix or a MIDI_port.
const SEVERAL: usize = 2;

// Whether the event is Channel_prefix or MIDI_port.
fn is_prefix_or_port(kind: EventKind) -> bool
    ensures { result ≡ prefix_or_port_of kind }
{
    matches!(
        kind,
        EventKind::ChannelPrefix { .. } | EventKind::MidiPort { .. }
    )
}

// The place of the first one in a track's body, which is known to read and whose first byte is the file's byte at base.
fn scan_track(body: &[u8], base: usize) -> Option<usize>
    requires fact_1 { base + length body.now < 2 ^ 64 }
    requires fact_2 { Readable (read_all 0 0 0 body.now) }
    ensures { looked result ≡ look_answer (track_free (placed_of (walked_body base body.now)) fine) }
{
    let mut cursor = Cursor::start(0);
    // The cursor after an event comes with the event; an iterator would hold the same cursor and could not say where it stopped.
    loop {
        let Ok(read) = event::read::read_event(body, cursor) else {
            return None;
        };
        let kind = read.kind;
        if is_prefix_or_port(kind) {
            return Some(base + cursor.place);
        }
        if event::read::is_end(kind) {
            return None;
        }
        cursor = read.next;
    }
}

// The place of the first one in so many tracks from a place of the file on, which are known to read.
fn scan_tracks(file: &[u8], count: usize, first: usize) -> Option<usize>
    requires { TracksRead file.now count first }
    ensures { looked result ≡ look_answer (tracks_free (placed_from file.now count first) fine) }
{
    let mut at = first;
    for _ in 0..count {
        let Ok(chunk) = smf::track::next_track(file, at) else {
            return None;
        };
        let start = chunk.start;
        let end = chunk.end;
        if let Some(place) = scan_track(&file[start..end], start) {
            return Some(place);
        }
        at = end;
    }
    None
}

// The same, if they are several.
pub fn look(file: &[u8], count: usize, first: usize) -> Option<usize>
    requires { TracksRead file.now count first }
    ensures { looked result ≡ look_answer (several_free count (placed_from file.now count first) fine) }
{
    if count < SEVERAL {
        return None;
    }
    scan_tracks(file, count, first)
}
