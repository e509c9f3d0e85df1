// Whole files: the header, the tracks, checking, and listing the tracks.
#![tactic(auto)]

ghost use Rattle.std.specs.Prelude.{◌≡◌};
ghost use Rattle.event.specs.Refusal.{number_of};
ghost use Rattle.smf.specs.Answer.{success, refusal, room_needed};

use event::refusal::Refusal;

pub mod header; // header.rt: the header, and a division's 16 bits
pub mod track; // track.rt: a track's chunk and its events
pub mod check; // check.rt: checking a file
pub mod list; // list.rt: listing the tracks

// The tag MThd as a number.
pub const HEADER_TAG: u32 = 0x4D546864;
// The tag MTrk.
pub const TRACK_TAG: u32 = 0x4D54726B;

// What every operation answers: a refusal's number and place, or 0, 0 and the length written. C gets these three, and public
// clauses speak of the number (`Demand3`, `PaddingTold`); inside, a refusal is a `Refused`.
#[derive(Clone, Copy)]
pub struct Answer {
    pub number: u8,
    pub place: usize,
    pub length: usize,
}

impl Answer {
    pub fn success(length: usize) -> Answer
        ensures { result ≡ success length }
    {
        Answer {
            number: 0,
            place: 0,
            length,
        }
    }

    pub fn refusal(number: u8, place: usize) -> Answer
        ensures { result ≡ refusal number place }
    {
        Answer {
            number,
            place,
            length: 0,
        }
    }

    // A refusal by its name.
    pub fn refuse(why: Refusal, place: usize) -> Answer
        ensures { result ≡ refusal (number_of why) place }
    {
        Answer::refusal(why.number(), place)
    }

    pub fn room_needed(length: usize) -> Answer
        ensures { result ≡ room_needed length }
    {
        Answer {
            number: Refusal::RoomTooSmall.number(),
            place: 0,
            length,
        }
    }
}

// Why a file is refused, and at which place of it.
#[derive(Clone, Copy)]
pub struct Refused {
    pub why: Refusal,
    pub place: usize,
}

impl Refused {
    // As an operation answers it.
    pub fn answer(self) -> Answer
        ensures { result ≡ refusal (number_of self.why) self.place }
    {
        Answer::refuse(self.why, self.place)
    }
}

// The end of a function that reads something of any kind.
fn refuse<T>(why: Refusal, place: usize) -> Result<T, Refused>
    ensures { result ≡ Err (record { why = why; place = place }) }
{
    Err(Refused { why, place })
}

// Pulses per quarter note, or frames a second and ticks a frame.
#[derive(Clone, Copy)]
pub enum Division {
    Pulses(u32),
    Frames { rate: u32, ticks: u32 },
}

// A header that was read: its fields and the place after it.
#[derive(Clone, Copy)]
pub struct HeaderRead {
    pub format: u32,
    pub count: u32,
    pub division: Division,
    pub next: usize,
}

// A track's chunk: where its events begin and where the chunk ends.
#[derive(Clone, Copy)]
pub struct Chunk {
    pub start: usize,
    pub end: usize,
}

// A track's events that were walked: the Time of its End_track, the number of its events, End_track included, and the sum of their
// padding.
#[derive(Clone, Copy)]
struct Walked {
    time: event::Time,
    events: u32,
    padding: u32,
}

// A track that was read: the same, and the place after its chunk.
#[derive(Clone, Copy)]
pub struct TrackRead {
    pub time: event::Time,
    pub events: u32,
    pub next: usize,
    pub padding: u32,
}
