// Tables that a spreadsheet saved, turned into texts.
#![tactic(auto)]

ghost use Rattle.std.specs.Prelude.{◌≤◌, length};

mod part; // part.rt: the bytes of a part of a line
mod cutting; // cutting.rt: where a cell stands
mod field; // field.rt: a cell as a field
mod name; // name.rt: which cell of a row is its text
mod rows; // rows.rt: a row as a line
mod lines; // lines.rt: a line of the table as a line of the text
pub mod table; // table.rt: the whole table

// What can separate cells.
const COMMA: u8 = b',';

const SEMICOLON: u8 = b';';

const TAB: u8 = b'\t';

// No longer table is turned into a text.
const TABLE_LIMIT: usize = 268435456;

// A part of a line, and what separates its cells. Where it stands in quotes (`twice`), two quotes are one byte.
#[derive(Clone, Copy)]
struct LinePart<'a> {
    bytes: &'a [u8],
    sep: u8,
    twice: bool,
    ghost short: { length bytes.now ≤ 268435456 },
}

// The bytes of a cell in such a part; a quoted cell's are those between its quotes.
#[derive(Clone, Copy)]
struct Content<'a> {
    bytes: &'a [u8],
    twice: bool,
    quoted: bool,
    ghost short: { length bytes.now ≤ 268435456 },
}

// A cell of a part of a line: its bytes (between the quotes, where it is quoted), and the place of the
// separator after it or the part's end.
#[derive(Clone, Copy)]
pub struct Cell {
    pub from: usize,
    pub to: usize,
    pub quoted: bool,
    pub next: usize,
}

// The cells of a row: how many, how many up to the last that is not empty, and how many stand before the
// text, where the row has one.
#[derive(Clone, Copy)]
pub struct Row {
    pub cells: usize,
    pub kept: usize,
    pub place: Option<usize>,
}
