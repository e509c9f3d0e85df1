// The record of a line, or its refusal.
ghost use Rattle.std.specs.Prelude.{◌≡◌};
ghost use Rattle.midicsv.specs.ReadRecord.{read_line};
ghost use Rattle.midicsv_record.specs.Row.{line_as, Placed};

use super::Row;
use super::record::row_in_turn;
use super::refusal::refusal_of;
use event::refusal::Refusal;

// The record of a line without its end that is not passed over: 22, 24, 23, 24, 25. A good line is read
// once; only where that finds a fault are its fields counted, to tell which refusal comes first.
pub fn read_line(line: &[u8]) -> Result<Row, Refusal>
    ensures fact_1 { line_as line.now result ≡ read_line line.now }
    ensures fact_2 { Placed line.now result }
{
    // `ok_or_else` was tried: what `refusal_of` asks is then a goal over raw values, which no answer closed
    match row_in_turn(line) {
        Some(row) => Ok(row),
        None => Err(refusal_of(line)),
    }
}
