// A row of cells as a line of a text.
ghost use Rattle.std.specs.Prelude.{◌≡◌, ◌&&◌, not, is_none, ◌<◌, ◌≤◌, ◌^◌, eqb, length};
ghost use Rattle.event.specs.Choice.{pick};
ghost use Rattle.event_write.specs.Written.{Written};
ghost use Rattle.midicsv.specs.ReadField.{read_field};
ghost use Rattle.sheet_table.specs.Cut.{has, cut};
ghost use Rattle.sheet_table.specs.Table.{is_empty, name_in, text_of_name, line_by, row_line};
ghost use Rattle.sheet.specs.Code.Seen.{seen};
ghost use Rattle.sheet.specs.Code.Cell.{content_of};
ghost use Rattle.sheet.specs.Code.Row.{place_as, RowIs, field_count};
ghost use Rattle.sheet.specs.Code.Walk.{Grown, Stepped, comma, fields_of, Fielded};

use super::field::put_seen;
use super::part::after_byte;
use super::{COMMA, Content, LinePart, Row};
use event_write::bytes::{put_byte, put_bytes};

impl Row {
    // How many cells stand up to the last that is not empty, after the cell numbered cells - 1.
    fn kept_after(self, cells: usize, content: Content) -> usize
        ensures { result ≡ pick (is_empty (content_of content.entry.quoted (seen content.entry.twice content.entry.bytes.now))) self.kept cells }
    {
        if content.is_empty() { self.kept } else { cells }
    }

    // How many cells stand before the text, after the cell numbered cells - 1: the third tells.
    fn place_after(self, cells: usize, content: Content) -> Option<usize>
        ensures { place_as result ≡ pick (eqb cells 3) (text_of_name (name_in (read_field (content_of content.entry.quoted (seen content.entry.twice content.entry.bytes.now))))) (place_as self.place) }
    {
        if cells == 3 {
            return content.text_place();
        }
        self.place
    }

    // What is known of a row after its cell numbered self.cells.
    fn with_cell(self, content: Content) -> Row
        requires { self.cells < 2 ^ 63 }
        ensures { Grown self (content_of content.entry.quoted (seen content.entry.twice content.entry.bytes.now)) result }
    {
        let cells = self.cells + 1;
        Row {
            cells,
            kept: self.kept_after(cells, content),
            place: self.place_after(cells, content),
        }
    }

    // How many fields the row's line has.
    fn field_count(self) -> usize
        requires { self.cells < 2 ^ 32 }
        ensures { result ≡ field_count self.place self.cells self.kept }
    {
        match self.place {
            None => self.kept,
            Some(place) if self.cells < place => self.cells,
            Some(place) => self.kept.max(place + 1),
        }
    }
}

// A comma before a field that is not the first.
fn put_comma(out: &mut [u8], at: usize, i: usize) -> usize
    requires { at < 2 ^ 39 }
    ensures { Written out.old at (comma i) out.new result }
{
    if i == 0 {
        return at;
    }
    put_byte(out, at, COMMA)
}

impl LinePart<'_> {
    // Looks through a row, where it can be cut.
    fn look(self) -> Option<Row>
        ensures { RowIs self.entry.sep self.entry.twice self.entry.bytes.now result }
    {
        let mut row = Row {
            cells: 0,
            kept: 0,
            place: None,
        };
        let mut at = 0;
        // each cell tells where the next begins, and the first that cannot be cut ends it: no iterator is plainer
        loop {
            let cell = self.cell_at(at)?;
            row = row.with_cell(self.content(cell));
            if self.bytes.len() <= cell.next {
                return Some(row);
            }
            at = after_byte(self.bytes, cell.next, self.twice);
        }
    }

    // The place after a cell that ends at a place.
    fn after_cell(self, end: usize) -> usize
        requires { end ≤ length self.bytes.now }
        ensures fact_1 { Stepped self.entry.twice self.entry.bytes.now end result }
        ensures fact_2 { result ≤ length self.entry.bytes.now }
    {
        if self.bytes.len() <= end {
            return end;
        }
        after_byte(self.bytes, end, self.twice)
    }

    // So many fields of a row that can be cut.
    fn put_row(self, out: &mut [u8], at: usize, count: usize, place: Option<usize>) -> usize
        requires fact_1 { at < 2 ^ 38 }
        requires fact_2 { Fielded count (cut self.sep (seen self.twice self.bytes.now)) }
        ensures { Written out.old at (fields_of count place (cut self.entry.sep (seen self.entry.twice self.entry.bytes.now))) out.new result }
    {
        let mut next = at;
        let mut p = 0;
        for i in 0..count {
            let start = put_comma(out, next, i);
            let Some(cell) = self.cell_at(p) else {
                return start;
            };
            let text = place == Some(i);
            next = self.content(cell).put(out, start, text);
            p = self.after_cell(cell.next);
        }
        next
    }

    // Whether a row stands in its line as it is: commas part its cells, none is a text, none at the end is
    // empty, and there is no quote in it. So are most rows, and such a row need not be written cell by cell.
    // The quote is looked for last, since only that takes a walk through the row.
    fn stands(self, row: Row) -> bool
        ensures { result ≡ (eqb self.entry.sep 44 && (is_none row.place && (eqb row.kept row.cells && not (has 34 self.entry.bytes.now)))) }
    {
        self.sep == COMMA
            && row.place.is_none()
            && row.kept == row.cells
            && !self.bytes.contains(&b'"')
    }

    // A part of a line, cut into cells, as a line of a text.
    pub fn put(self, out: &mut [u8], at: usize) -> usize
        requires { at < 2 ^ 38 }
        ensures { Written out.old at (line_by row_line self.entry.sep (seen self.entry.twice self.entry.bytes.now)) out.new result }
    {
        if self.is_remark() {
            return put_seen(out, at, self.bytes, self.twice, false);
        }
        let Some(row) = self.look() else {
            return put_byte(out, at, b'"');
        };
        if self.stands(row) {
            return put_bytes(out, at, self.bytes);
        }
        self.put_row(out, at, row.field_count(), row.place)
    }
}
