// Texts written: records' lines, and a file's text.
#![tactic(auto)]

pub mod record; // record.rt: the lines of records
pub mod to_text; // to_text.rt: file to text
