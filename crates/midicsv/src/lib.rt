// The text side: fields and names of records written, in a text or in a sheet; bytes and words.
#![tactic(auto)]

pub mod byte; // byte.rt: kinds of bytes
pub mod word; // word.rt: words compared
mod truth; // truth.rt: the words that spreadsheets take for booleans
mod spell; // spell.rt: a text spelled for a cell of a sheet
pub mod field; // field.rt: decimals, quoted texts, data
pub mod name; // name.rt: the names of records
