// An event of a track's body, with its delta.
ghost use Rattle.std.specs.Prelude.{◌≡◌, length, drop};
ghost use Rattle.event.specs.Reader.{read_frame, read_event};
ghost use Rattle.event.specs.Step.{frame_step, padded, event_step, end_of, place_of};
ghost use Rattle.event.specs.Padding.{frame_padding, event_padding};
ghost use Rattle.event.specs.Refusal.{numbered};
ghost use Rattle.event.specs.Sort.{sort_of};

use super::channel::channel_event;
use super::meta::{exclusive_event, meta_event};
use super::number::read_number;
use super::refusal::Refusal;
use super::sort::{DATA_BYTE, EXCLUSIVE, META, ONE_FOLLOWS, PACKET, SORTS, TWO_FOLLOW};
use super::{Cursor, DataPlace, Delta, EventKind, EventRead, FrameRead};

// What the table says of a byte.
fn sort_of(b: u8) -> u8
    ensures { result ≡ sort_of b }
{
    let i = b as usize;
    SORTS[i]
}

// An event after its delta, from its status on; status is the one in force.
fn after_delta(body: &[u8], at: usize, status: u8) -> Result<FrameRead, Refusal>
    ensures { numbered result ≡ padded (frame_padding (drop at body.now)) (frame_step (length body.now) (read_frame status (drop at body.now))) }
{
    if body.len() <= at {
        return Err(Refusal::EventCutShort);
    }
    let b = body[at];
    let next = at + 1;
    let sort = sort_of(b);
    match sort {
        DATA_BYTE => channel_event(body, at, status, sort_of(status)),
        ONE_FOLLOWS | TWO_FOLLOW => channel_event(body, next, b, sort),
        EXCLUSIVE => exclusive_event(body, next, b),
        PACKET => exclusive_event(body, next, b),
        META => meta_event(body, next),
        _ => Err(Refusal::BadStatus),
    }
}

// The event at the cursor in a track's body.
pub fn read_event(body: &[u8], cursor: Cursor) -> Result<EventRead, Refusal>
    ensures { numbered result ≡ event_step (length body.now) (event_padding (drop cursor.place body.now)) (read_event cursor.time.0 cursor.status (drop cursor.place body.now)) }
{
    let delta = read_number(body, cursor.place)?;
    let Some(time) = cursor.time.later(Delta(delta.value)) else {
        return Err(Refusal::TimeTooGreat);
    };
    let frame = after_delta(body, delta.next, cursor.status)?;
    let padding = delta.padding + frame.padding;
    let next = Cursor {
        place: frame.next,
        time,
        status: frame.status,
    };
    Ok(EventRead {
        kind: frame.kind,
        next,
        padding,
    })
}

// Whether the event is End_track.
pub fn is_end(kind: EventKind) -> bool
    ensures { result ≡ end_of kind }
{
    matches!(kind, EventKind::EndTrack)
}

// Where the data of the event stand; of an event without data none.
pub fn data_place(kind: EventKind) -> DataPlace
    ensures { result ≡ place_of kind }
{
    match kind {
        EventKind::SystemExclusive { start, len } => DataPlace { start, len },
        EventKind::SystemExclusivePacket { start, len } => DataPlace { start, len },
        EventKind::Text { start, len, .. } => DataPlace { start, len },
        EventKind::SequencerSpecific { start, len } => DataPlace { start, len },
        EventKind::UnknownMeta { start, len, .. } => DataPlace { start, len },
        _ => DataPlace { start: 0, len: 0 },
    }
}
