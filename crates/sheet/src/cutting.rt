// Where a cell stands in a part of a line.
ghost use Rattle.std.specs.Prelude.{◌≡◌, ◌≤◌, length};
ghost use Rattle.sheet.specs.Code.Cell.{CellIs, BareEnd, QuoteEnd, ClosedTo, QuotedIs, BareIs};

use super::part::{after_byte, is_blank_beside};
use super::{Cell, LinePart};
use midicsv_scan::past;

// The place of the quote that closes a cell, from after its opening quote on; the bytes' end where none does.
fn quote_end(bytes: &[u8], at: usize, twice: bool) -> usize
    requires { at ≤ length bytes.now }
    ensures { QuoteEnd twice bytes.now at result }
{
    let mut p = at;
    // a place goes on by one byte or by two, so no iterator over bytes is plainer
    while p < bytes.len() {
        let next = after_byte(bytes, p, twice);
        if bytes[p] != b'"' {
            p = next;
        } else {
            if bytes.len() <= next || bytes[next] != b'"' {
                return p;
            }
            p = after_byte(bytes, next, twice);
        }
    }
    p
}

impl LinePart<'_> {
    // The place of the separator from a place on, or the part's end: there a bare cell ends.
    fn bare_end(self, at: usize) -> usize
        requires { at ≤ length self.bytes.now }
        ensures { BareEnd self.entry.sep self.entry.twice self.entry.bytes.now at result }
    {
        let mut p = at;
        // by one byte or by two
        while p < self.bytes.len() {
            if self.bytes[p] == self.sep {
                return p;
            }
            p = after_byte(self.bytes, p, self.twice);
        }
        p
    }

    // The place of the first byte after a closing quote that separates or is no blank.
    fn closed_end(self, at: usize) -> usize
        requires { at ≤ length self.bytes.now }
        ensures { ClosedTo self.entry.sep self.entry.bytes.now at result }
    {
        let sep = self.sep;
        past(self.bytes, at, |c| c != sep && is_blank_beside(sep, c))
    }

    // A quoted cell, from after its opening quote on, where it can be cut: after the closing one only blanks may come. It stands in
    // cell_at: a call for each, with the part and the answer by way of memory, makes a table of quoted cells a quarter slower.
    #[inline(always)]
    fn quoted_cell(self, at: usize) -> Option<Cell>
        requires { at ≤ length self.bytes.now }
        ensures { QuotedIs self.entry.sep self.entry.twice self.entry.bytes.now at result }
    {
        let to = quote_end(self.bytes, at, self.twice);
        if self.bytes.len() <= to {
            return None;
        }
        let next = self.closed_end(after_byte(self.bytes, to, self.twice));
        if next < self.bytes.len() && self.bytes[next] != self.sep {
            return None;
        }
        Some(Cell {
            from: at,
            to,
            quoted: true,
            next,
        })
    }

    // A bare cell, blanks and all.
    fn bare_cell(self, at: usize) -> Option<Cell>
        requires { at ≤ length self.bytes.now }
        ensures { BareIs self.entry.sep self.entry.twice self.entry.bytes.now at result }
    {
        let to = self.bare_end(at);
        Some(Cell {
            from: at,
            to,
            quoted: false,
            next: to,
        })
    }

    // The cell from a place on, where it can be cut: its quotes are closed, and no bytes follow them. It stands
    // in the loops over cells, where a call for each would cost a tenth of their time.
    #[inline(always)]
    pub fn cell_at(self, at: usize) -> Option<Cell>
        requires { at ≤ length self.bytes.now }
        ensures { CellIs self.entry.sep self.entry.twice self.entry.bytes.now at result }
    {
        let p = self.skip_beside(at);
        if self.bytes.len() <= p || self.bytes[p] != b'"' {
            return self.bare_cell(at);
        }
        self.quoted_cell(after_byte(self.bytes, p, self.twice))
    }
}
