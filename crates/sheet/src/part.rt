// The bytes of a part of a line.
ghost use Rattle.std.specs.Prelude.{◌≡◌, Bool, ◌<◌, ◌≤◌, length, drop};
ghost use Rattle.std.specs.List.{list_all};
ghost use Rattle.midicsv.specs.ReadField.{is_blank};
ghost use Rattle.sheet_table.specs.Cut.{blank_beside};
ghost use Rattle.sheet_table.specs.Table.{is_empty, is_remark};
ghost use Rattle.sheet.specs.Code.Seen.{seen, slice, Passed, SkippedTo};
ghost use Rattle.sheet.specs.Code.Cell.{content_of};

use super::{Cell, Content, LinePart, SEMICOLON, TAB};
use midicsv::byte::is_blank;
use midicsv_scan::past;

// The semicolon: where it separates, it begins no remark.
const SEPARATING: u8 = SEMICOLON;

// The place after the byte at a place.
pub fn after_byte(bytes: &[u8], at: usize, twice: bool) -> usize
    requires { at < length bytes.now }
    ensures { Passed twice bytes.now at result }
{
    if twice && bytes[at] == b'"' && at + 1 < bytes.len() {
        return at + 2;
    }
    at + 1
}

// A space, or a tab where that does not separate. A `match`, so that the loops over it look at `sep` for a tab alone: `&&` and `||` of
// comparisons become one test of both for every byte.
#[tactic(auto, unfolding(sheet_table::specs::Cut::blank_beside))]
pub fn is_blank_beside(sep: u8, c: u8) -> bool
    ensures { result ≡ blank_beside sep c }
{
    match c {
        b' ' => true,
        TAB => sep != TAB,
        _ => false,
    }
}

impl<'a> LinePart<'a> {
    // The place of the first byte from a place on that is no blank; no blank is a quote, so each is one byte.
    pub fn skip_beside(self, at: usize) -> usize
        requires { at ≤ length self.bytes.now }
        ensures { SkippedTo self.entry.sep self.entry.bytes.now at result }
    {
        let sep = self.sep;
        past(self.bytes, at, |c| is_blank_beside(sep, c))
    }

    // Whether a line stands as it is: `#` comes first, or `;` where that does not separate.
    pub fn is_remark(self) -> bool
        ensures { result ≡ is_remark self.entry.sep (seen self.entry.twice self.entry.bytes.now) }
    {
        let p = self.skip_beside(0);
        if self.bytes.len() <= p {
            return false;
        }
        self.bytes[p] == b'#' || (self.bytes[p] == b';' && self.sep != SEPARATING)
    }

    // What a cell of it holds.
    pub fn content(self, cell: Cell) -> Content<'a>
        requires ordered { cell.from ≤ cell.to }
        requires inside { cell.to ≤ length self.bytes.now }
        ensures bytes { result.bytes.now ≡ slice cell.from cell.to self.entry.bytes.now }
        ensures twice { result.twice ≡ self.entry.twice }
        ensures quoted { result.quoted ≡ cell.quoted }
    {
        Content {
            bytes: &self.bytes[cell.from..cell.to],
            twice: self.twice,
            quoted: cell.quoted,
        }
    }
}

// Whether bytes are blanks alone.
fn are_blank(bytes: &[u8]) -> bool
    ensures { result ≡ list_all is_blank bytes.now }
{
    bytes.iter().all(|c| is_blank(*c))
}

impl Content<'_> {
    // Whether it is blanks alone, however its bytes are read.
    pub fn is_empty(self) -> bool
        ensures { result ≡ is_empty (content_of self.entry.quoted (seen self.entry.twice self.entry.bytes.now)) }
    {
        are_blank(self.bytes)
    }
}
