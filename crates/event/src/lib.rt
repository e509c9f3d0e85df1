// Numbers, Times and events: one event of a track, read from its bytes.
#![tactic(auto)]

ghost use Rattle.std.specs.Prelude.{◌≡◌};
ghost use Rattle.event.specs.Dates.{later_of, since_of};
ghost use Rattle.event.specs.Step.{start_at};

pub mod refusal; // refusal.rt: why a file, a text or a table is refused
pub mod number; // number.rt: variable-length numbers, and bytes at a place
mod sort; // sort.rt: the byte after the delta
mod channel; // channel.rt: channel events
pub mod meta; // meta.rt: system exclusive and meta events
pub mod read; // read.rt: an event with its delta

// A relative date: the delta in the file.
#[derive(Clone, Copy)]
pub struct Delta(pub u32);

// An absolute date: the Time in the text.
#[derive(Clone, Copy)]
pub struct Time(pub u32);

impl Time {
    // A delta added to a Time; two Times are never added.
    pub fn later(self, d: Delta) -> Option<Time>
        ensures { result ≡ later_of self.0 d.0 }
    {
        let sum = self.0.checked_add(d.0)?;
        Some(Time(sum))
    }

    // A Time less an earlier one is a delta.
    pub fn since(self, earlier: Time) -> Option<Delta>
        ensures { result ≡ since_of self.0 earlier.0 }
    {
        let step = self.0.checked_sub(earlier.0)?;
        Some(Delta(step))
    }
}

// The kind of an event and its fields; data bytes as their place in the track's body and their
// count, a key as its byte.
#[derive(Clone, Copy)]
pub enum EventKind {
    NoteOff {
        channel: u8,
        key: u8,
        velocity: u8,
    },
    NoteOn {
        channel: u8,
        key: u8,
        velocity: u8,
    },
    PolyAftertouch {
        channel: u8,
        key: u8,
        value: u8,
    },
    Control {
        channel: u8,
        controller: u8,
        value: u8,
    },
    Program {
        channel: u8,
        number: u8,
    },
    ChannelAftertouch {
        channel: u8,
        value: u8,
    },
    PitchBend {
        channel: u8,
        value: u16,
    },
    SystemExclusive {
        start: usize,
        len: usize,
    },
    SystemExclusivePacket {
        start: usize,
        len: usize,
    },
    SequenceNumber {
        number: u32,
    },
    Text {
        kind: u8,
        start: usize,
        len: usize,
    },
    ChannelPrefix {
        number: u8,
    },
    MidiPort {
        number: u8,
    },
    EndTrack,
    Tempo {
        micros: u32,
    },
    SmpteOffset {
        hour: u8,
        minute: u8,
        second: u8,
        frame: u8,
        part: u8,
    },
    TimeSignature {
        numerator: u8,
        denominator: u8,
        click: u8,
        notes: u8,
    },
    KeySignature {
        key: u8,
        minor: u8,
    },
    SequencerSpecific {
        start: usize,
        len: usize,
    },
    UnknownMeta {
        kind: u8,
        start: usize,
        len: usize,
    },
}

// Where the data bytes of an event stand in the track's body, and how many they are.
#[derive(Clone, Copy)]
pub struct DataPlace {
    pub start: usize,
    pub len: usize,
}

// A variable-length number that was read: its value, the place after it and its padding, which is how many bytes it took above
// the fewest.
#[derive(Clone, Copy)]
pub struct NumberRead {
    pub value: u32,
    pub next: usize,
    pub padding: u32,
}

// An event that was read after its delta: the event, the place after it, the status then in force (0: none) and the padding of
// its length (0 where it has none).
#[derive(Clone, Copy)]
pub struct FrameRead {
    pub kind: EventKind,
    pub next: usize,
    pub status: u8,
    pub padding: u32,
}

// Before an event of a track: where it stands in the track's body, the Time so far, and the status in force, a number as in
// the definitions (0: none, `no_status`).
#[derive(Clone, Copy)]
pub struct Cursor {
    pub place: usize,
    pub time: Time,
    pub status: u8,
}

impl Cursor {
    // Before the first event of a track whose events begin at a place.
    pub fn start(place: usize) -> Cursor
        ensures { result ≡ start_at place }
    {
        Cursor {
            place,
            time: Time(0),
            status: 0,
        }
    }
}

// An event that was read with its delta: the padding of delta and length, and the cursor after it, which has its Time.
#[derive(Clone, Copy)]
pub struct EventRead {
    pub kind: EventKind,
    pub next: Cursor,
    pub padding: u32,
}
