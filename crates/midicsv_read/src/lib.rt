// Text to file.
#![tactic(auto)]

mod write_row; // write_row.rt: a row's event written
mod order; // order.rt: records in their order
pub mod to_file; // to_file.rt: text to file

// The byte of a field of Data, and the place of the field after it.
#[derive(Clone, Copy)]
struct DataStep {
    byte: u8,
    next: usize,
}

// What has been passed of the records: nothing yet; the Header, and so far no track or whole ones; an
// open track too; End_of_file.
#[derive(Clone, Copy, PartialEq, Eq)]
pub enum Phase {
    BeforeHeader,
    BetweenTracks,
    InTrack,
    AfterEnd,
}

// Where a pass over the records stands: count is the Header's, tracks are those ended; time and force
// are the Time and the status after the last event; size is the place of the present track's length,
// and at that of the next byte.
#[derive(Clone, Copy)]
pub struct Progress {
    pub phase: Phase,
    pub count: u32,
    pub tracks: u32,
    pub time: event::Time,
    pub force: u8,
    pub size: usize,
    pub at: usize,
}

// Why a pass stopped, and at which line.
#[derive(Clone, Copy)]
pub struct Stopped {
    pub refusal: event::refusal::Refusal,
    pub line: usize,
}
