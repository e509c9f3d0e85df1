// The refusal of a line that has a fault, by the tests in the order of document 01: 22, 24, 23, 24 with the Length's 25, 25.
ghost use Rattle.std.specs.Prelude.{◌≡◌, eqb, Some};
ghost use Rattle.event.specs.Refusal.{number_of};
ghost use Rattle.midicsv.specs.Result.{good, bad, test};
ghost use Rattle.midicsv.specs.ReadRecord.{read_line};
ghost use Rattle.midicsv_scan.specs.FieldAt.{Counted};
ghost use Rattle.midicsv_record.specs.Name.{name_as};
ghost use Rattle.midicsv_record.specs.Column.{later_in};
ghost use Rattle.midicsv_record.specs.Line.{Fields, size_in, size_as, named_in};
ghost use Rattle.midicsv_record.specs.InTurn.{Refused};

use super::column::number_of;
use super::names::name_of;
use super::table::{columns, tail_kind};
use super::{Name, TailKind};
use event::refusal::Refusal;
use midicsv_scan::fields::{count_fields, field};

// 24 where the count of fields is not the one that is wanted.
fn size_step(count: usize, wanted: usize) -> Result<(), Refusal>
    ensures { size_as result ≡ test (eqb count wanted) 24 (good 0) }
{
    if count != wanted {
        return Err(Refusal::WrongFieldCount);
    }
    Ok(())
}

// The count of fields beside the name's columns and tail, and the Length: 24, 25, 24.
fn size_of(line: &[u8], count: usize, name: Name) -> Result<(), Refusal>
    requires { Fields line.now count }
    ensures { size_as result ≡ size_in name (later_in line.now) }
{
    let k = 3 + columns(name).len();
    match tail_kind(name) {
        TailKind::NoTail => size_step(count, k),
        TailKind::OneText => size_step(count, k + 1),
        TailKind::Sized => {
            if count <= k {
                return Err(Refusal::WrongFieldCount);
            }
            let Some(v) = field(line, k).and_then(number_of) else {
                return Err(Refusal::FieldOutOfRange);
            };
            let wanted = k + 1 + v as usize;
            size_step(count, wanted)
        }
    }
}

// A line by its name: 23 where it has none, the size, and else it is 25.
fn named_refusal(line: &[u8], count: usize, name: Option<Name>) -> Refusal
    requires fact_1 { Fields line.now count }
    requires fact_2 { Refused (named_in line.now (name_as name)) }
    ensures { bad (number_of result) ≡ named_in line.now (name_as name) }
{
    let Some(name) = name else {
        return Refusal::UnknownRecord;
    };
    match size_of(line, count, name) {
        Ok(()) => Refusal::FieldOutOfRange,
        Err(refusal) => refusal,
    }
}

// A line of so many good fields: 24 under three, and 23 where the third is no name.
fn counted_refusal(line: &[u8], count: usize) -> Refusal
    requires fact_1 { Counted line.now (Some count) }
    requires fact_2 { Refused (read_line line.now) }
    ensures { bad (number_of result) ≡ read_line line.now }
{
    if count < 3 {
        return Refusal::WrongFieldCount;
    }
    let Some(third) = field(line, 2) else {
        return Refusal::UnknownRecord;
    };
    let name = name_of(line, third);
    named_refusal(line, count, name)
}

// The refusal of a line that is refused.
pub fn refusal_of(line: &[u8]) -> Refusal
    requires { Refused (read_line line.now) }
    ensures { bad (number_of result) ≡ read_line line.now }
{
    match count_fields(line) {
        Some(count) => counted_refusal(line, count),
        None => Refusal::BadField,
    }
}
