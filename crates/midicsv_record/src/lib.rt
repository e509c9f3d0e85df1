// A line's record: its name, its numbers, and where its Text or Data stand.
#![tactic(auto)]

mod names; // names.rt: the names of records
mod table; // table.rt: the columns and the tail of each record
pub mod text; // text.rt: a quoted text beside a word
mod column; // column.rt: fields beside their columns
mod in_turn; // in_turn.rt: the fields of a line in turn, and the columns
pub mod body; // body.rt: where Text and Data stand
mod record; // record.rt: the record of a line that has no fault
mod refusal; // refusal.rt: the refusal of a line that has one
pub mod line; // line.rt: the record of a line, or its refusal

// The names of records, in the order of the list of names.
#[derive(Clone, Copy, PartialEq, Eq)]
pub enum Name {
    Header,
    StartTrack,
    EndOfFile,
    NoteOff,
    NoteOn,
    PolyAftertouch,
    Control,
    Program,
    ChannelAftertouch,
    PitchBend,
    SystemExclusive,
    SystemExclusivePacket,
    SequenceNumber,
    Text,
    Copyright,
    Title,
    InstrumentName,
    Lyric,
    Marker,
    CuePoint,
    ChannelPrefix,
    MidiPort,
    EndTrack,
    Tempo,
    SmpteOffset,
    TimeSignature,
    KeySignature,
    SequencerSpecific,
    UnknownMetaEvent,
}

// A record: its name, Track, Time, up to five numbers (0 past those that the name has), and where in
// the line its Text begins, after the quote, or its Data; len is the number of the Data.
#[derive(Clone, Copy)]
pub struct Row {
    pub name: Name,
    pub track: u32,
    pub time: u32,
    pub columns: [u32; 5],
    pub start: usize,
    pub len: usize,
}

// A column of the table.
#[derive(Clone, Copy)]
pub enum ColumnKind {
    Range { lo: u32, hi: u32 },
    Key,
    Mode,
    FreeType,
    Division,
}

// What follows the columns: nothing, a Text, or Length and Data.
#[derive(Clone, Copy)]
pub enum TailKind {
    NoTail,
    OneText,
    Sized,
}

// What has just been passed in a quoted text: nothing special, a quote, a backslash, or one or two
// octal digits.
#[derive(Clone, Copy)]
pub enum TextState {
    Plain,
    Quote,
    Slash,
    One(u32),
    Two(u32),
}

// What a character of a quoted text gives.
#[derive(Clone, Copy)]
pub enum TextStep {
    Nothing(TextState),
    Byte(u8, TextState),
    Closed,
}

// The number of a column, and the place after its field.
#[derive(Clone, Copy)]
struct Cell {
    value: u32,
    next: usize,
}

// The numbers of a record's columns, 0 past the last, and the place after their fields.
#[derive(Clone, Copy)]
pub struct Columns {
    pub values: [u32; 5],
    pub next: usize,
}

// Where the Text or the Data begin, and how many Data there are.
#[derive(Clone, Copy)]
pub struct BodyPlace {
    pub start: usize,
    pub len: usize,
}
