// The fields of a line in turn, each from the comma before it on.
ghost use Rattle.std.specs.Prelude.{◌≡◌, drop};
ghost use Rattle.midicsv_scan.specs.FieldAt.{field_as, Within};
ghost use Rattle.midicsv_record.specs.Table.{columns_at, column_as};
ghost use Rattle.midicsv_record.specs.InTurn.{field_after, column_after, columns_after, cell_as, columns_as};

use super::column::value_in;
use super::table::columns;
use super::{Cell, ColumnKind, Columns, Name};
use midicsv_scan::FieldAt;
use midicsv_scan::field::field_at;

// The field after the comma at a place; none where the line ends there.
pub fn field_after(line: &[u8], comma: usize) -> Option<FieldAt>
    ensures fact_1 { field_as line.now result ≡ field_after (drop comma line.now) }
    ensures fact_2 { Within line.now comma result }
{
    if line.len() <= comma {
        return None;
    }
    field_at(line, comma + 1)
}

// The number of a column, of the field after a comma.
fn column_after(line: &[u8], comma: usize, column: ColumnKind) -> Option<Cell>
    ensures { cell_as line.now result ≡ column_after (column_as column) (drop comma line.now) }
{
    let f = field_after(line, comma)?;
    let value = value_in(line, f, column)?;
    Some(Cell {
        value,
        next: f.next(),
    })
}

// The numbers of all columns, of the fields after a comma; no record has more than five.
pub fn columns_after(line: &[u8], comma: usize, name: Name) -> Option<Columns>
    ensures { columns_as (columns_at name) line.now result ≡ columns_after (columns_at name) (drop comma line.now) }
{
    let mut values = [0; 5];
    let mut next = comma;
    for (i, column) in columns(name).iter().enumerate() {
        let cell = column_after(line, next, *column)?;
        values[i] = cell.value;
        next = cell.next;
    }
    Some(Columns { values, next })
}
