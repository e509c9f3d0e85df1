// A line of a saved table as a line of a text.
ghost use Rattle.std.specs.Prelude.{◌≡◌, ◌<◌, ◌≤◌, ◌^◌, false, length, drop};
ghost use Rattle.event_write.specs.Written.{Written};
ghost use Rattle.sheet_table.specs.Cut.{cut};
ghost use Rattle.sheet_table.specs.Table.{table_line};
ghost use Rattle.sheet.specs.Code.Row.{LoneIs};
ghost use Rattle.sheet.specs.Code.Walk.{all_empty_in, LoneWithin};

use super::{COMMA, Cell, LinePart};

// Whether the cells of a line from a place after a separator on are all empty; no where it cannot be cut.
fn are_empty(line: LinePart, from: usize) -> bool
    requires fact_1 { from ≤ length line.bytes.now }
    requires fact_2 { line.twice ≡ false }
    ensures { result ≡ all_empty_in (cut line.entry.sep (drop from line.entry.bytes.now)) }
{
    let mut at = from;
    // each cell tells where the next begins, and the first that cannot be cut ends it: no iterator is plainer
    loop {
        let Some(cell) = line.cell_at(at) else {
            return false;
        };
        if !line.content(cell).is_empty() {
            return false;
        }
        if line.bytes.len() <= cell.next {
            return true;
        }
        at = cell.next + 1;
    }
}

// The one cell of a line whose other cells are empty, where there is one.
fn lone_cell(line: LinePart) -> Option<Cell>
    requires { line.twice ≡ false }
    ensures fact_1 { LoneIs line.entry.sep line.entry.bytes.now result }
    ensures fact_2 { LoneWithin line.entry.bytes.now result }
{
    if line.is_remark() {
        return None;
    }
    let cell = line.cell_at(0)?;
    if line.bytes.len() <= cell.next || are_empty(line, cell.next + 1) {
        return Some(cell);
    }
    None
}

// The line of the text.
pub fn put_line(out: &mut [u8], at: usize, bytes: &[u8], sep: u8) -> usize
    requires fact_1 { at < 2 ^ 38 }
    requires fact_2 { length bytes.now ≤ 268435456 }
    ensures { Written out.old at (table_line sep bytes.now) out.new result }
{
    let line = LinePart {
        bytes,
        sep,
        twice: false,
    };
    let Some(cell) = lone_cell(line) else {
        return line.put(out, at);
    };
    let held = LinePart {
        bytes: &bytes[cell.from..cell.to],
        sep: COMMA,
        twice: cell.quoted,
    };
    held.put(out, at)
}
