// Where a record's Text or Data stand in the line.
ghost use Rattle.std.specs.Prelude.{◌≡◌, [], ◌+◌, ◌≤◌, length, drop};
ghost use Rattle.midicsv.specs.Table.{one_text, sized};
ghost use Rattle.midicsv_record.specs.Table.{tail_at};
ghost use Rattle.midicsv_record.specs.InTurn.{last_after, tail_step_as, TailInside, DataEnd};

use super::column::{number_in, number_of};
use super::in_turn::field_after;
use super::table::tail_kind;
use super::{BodyPlace, Name, TailKind};
use midicsv_scan::FieldAt;

// A Text: the field after a comma must be quoted, and the last.
fn text_after(line: &[u8], comma: usize) -> Option<BodyPlace>
    ensures fact_1 { tail_step_as one_text line.now result ≡ last_after one_text (drop comma line.now) }
    ensures fact_2 { TailInside line.now result }
{
    let FieldAt::Quoted { start, next } = field_after(line, comma)? else {
        return None;
    };
    if next < line.len() {
        return None;
    }
    Some(BodyPlace { start, len: 0 })
}

// The place after a comma, or the line's end where no comma stands.
pub fn after_comma(line: &[u8], comma: usize) -> usize
    ensures fact_1 { drop result line.now ≡ drop (comma + 1) line.now }
    ensures fact_2 { result ≤ length line.now }
{
    if comma < line.len() {
        return comma + 1;
    }
    line.len()
}

// Whether the len fields after a comma are all data bytes, and the last of them ends the line.
fn are_data(line: &[u8], comma: usize, len: usize) -> bool
    ensures { DataEnd len (drop comma line.now) result }
{
    let mut at = comma;
    for _ in 0..len {
        let Some(f) = field_after(line, at) else {
            return false;
        };
        if number_in(f, 0, 255).is_none() {
            return false;
        }
        at = f.next();
    }
    line.len() <= at
}

// Length and Data: the fields after a comma, to the last.
fn sized_after(line: &[u8], comma: usize) -> Option<BodyPlace>
    ensures fact_1 { tail_step_as sized line.now result ≡ last_after sized (drop comma line.now) }
    ensures fact_2 { TailInside line.now result }
{
    let f = field_after(line, comma)?;
    let v = number_of(f)?;
    let next = f.next();
    let len = v as usize;
    if !are_data(line, next, len) {
        return None;
    }
    let start = after_comma(line, next);
    Some(BodyPlace { start, len })
}

// The Text or the Data of a record, of the fields after a comma, which must end the line.
pub fn tail_after(line: &[u8], comma: usize, name: Name) -> Option<BodyPlace>
    ensures fact_1 { tail_step_as (tail_at name) line.now result ≡ last_after (tail_at name) (drop comma line.now) }
    ensures fact_2 { TailInside line.now result }
{
    match tail_kind(name) {
        TailKind::NoTail => {
            if comma < line.len() {
                return None;
            }
            Some(BodyPlace { start: 0, len: 0 })
        }
        TailKind::OneText => text_after(line, comma),
        TailKind::Sized => sized_after(line, comma),
    }
}
