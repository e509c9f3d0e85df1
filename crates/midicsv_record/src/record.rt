// The record of a line that has no fault, its fields read in turn.
ghost use Rattle.std.specs.Prelude.{◌≡◌, drop};
ghost use Rattle.midicsv_record.specs.Name.{name_at};
ghost use Rattle.midicsv.specs.ReadRecord.{together};
ghost use Rattle.midicsv_record.specs.InTurn.{named_after, record_after, record_in_turn, row_as, RowInside};

use super::body::tail_after;
use super::column::number_in;
use super::in_turn::{columns_after, field_after};
use super::names::name_of;
use super::{Name, Row};
use midicsv_scan::field::field_at;

// The greatest Track and Time.
const MOST_TRACK: u32 = 65535;

const MOST_TIME: u32 = 4294967295;

// Whether the numbers go together: a Header of format 0 has one track.
fn is_together(name: Name, columns: [u32; 5]) -> bool
    ensures { result ≡ together (name_at name) columns }
{
    match name {
        Name::Header => columns[0] != 0 || columns[1] == 1,
        _ => true,
    }
}

// The record of a listed name, of the fields after the name's comma.
fn named_row(line: &[u8], comma: usize, name: Name, track: u32, time: u32) -> Option<Row>
    ensures fact_1 { row_as line.now result ≡ named_after track time (name_at name) (drop comma line.now) }
    ensures fact_2 { RowInside line.now result }
{
    let found = columns_after(line, comma, name)?;
    let columns = found.values;
    let body = tail_after(line, found.next, name)?;
    if !is_together(name, columns) {
        return None;
    }
    Some(Row {
        name,
        track,
        time,
        columns,
        start: body.start,
        len: body.len,
    })
}

// The record, of its name after a comma and what follows.
fn row_after(line: &[u8], comma: usize, track: u32, time: u32) -> Option<Row>
    ensures fact_1 { row_as line.now result ≡ record_after track time (drop comma line.now) }
    ensures fact_2 { RowInside line.now result }
{
    let f = field_after(line, comma)?;
    let name = name_of(line, f)?;
    named_row(line, f.next(), name, track, time)
}

// The record of a line: Track, Time, name, and the fields of the name.
pub fn row_in_turn(line: &[u8]) -> Option<Row>
    ensures fact_1 { row_as line.now result ≡ record_in_turn line.now }
    ensures fact_2 { RowInside line.now result }
{
    let first = field_at(line, 0)?;
    let track = number_in(first, 0, MOST_TRACK)?;
    let second = field_after(line, first.next())?;
    let time = number_in(second, 0, MOST_TIME)?;
    row_after(line, second.next(), track, time)
}
