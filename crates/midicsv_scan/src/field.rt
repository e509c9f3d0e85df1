// The field at a place of a line.
ghost use Rattle.std.specs.Prelude.{◌≡◌, ◌≤◌, length, drop};
ghost use Rattle.midicsv.specs.ReadField.{read_field};
ghost use Rattle.midicsv_scan.specs.FieldAt.{field_as, Within};
ghost use Rattle.midicsv_scan.specs.Part.{quoted_field, minus_field, number_field, name_field};

use super::FieldAt;
use super::ends::{closed, name_end, skip_blanks};
use super::number::number_at;
use super::text::text_end;
use midicsv::byte::{is_digit, is_letter};

// A text, from after its opening quote on.
fn quoted_field(line: &[u8], at: usize) -> Option<FieldAt>
    requires { at ≤ length line.now }
    ensures fact_1 { field_as line.now result ≡ quoted_field (drop at line.now) }
    ensures fact_2 { Within line.now at result }
{
    let end = text_end(line, at)?;
    let next = closed(line, end)?;
    Some(FieldAt::Quoted { start: at, next })
}

// A number below zero, from after its minus on; minus zero is the number 0.
fn minus_field(line: &[u8], at: usize) -> Option<FieldAt>
    requires { at ≤ length line.now }
    ensures fact_1 { field_as line.now result ≡ minus_field (drop at line.now) }
    ensures fact_2 { Within line.now at result }
{
    let (value, end) = number_at(line, at)?;
    let next = closed(line, end)?;
    if value == 0 {
        return Some(FieldAt::Number { value: 0, next });
    }
    Some(FieldAt::Minus { value, next })
}

// A number, from its first digit on.
fn number_field(line: &[u8], at: usize) -> Option<FieldAt>
    requires { at ≤ length line.now }
    ensures fact_1 { field_as line.now result ≡ number_field (drop at line.now) }
    ensures fact_2 { Within line.now at result }
{
    let (value, end) = number_at(line, at)?;
    let next = closed(line, end)?;
    Some(FieldAt::Number { value, next })
}

// A name, from its first letter on.
fn name_field(line: &[u8], at: usize) -> Option<FieldAt>
    requires { at ≤ length line.now }
    ensures fact_1 { field_as line.now result ≡ name_field (drop at line.now) }
    ensures fact_2 { Within line.now at result }
{
    let end = name_end(line, at);
    let next = closed(line, end)?;
    Some(FieldAt::Name {
        start: at,
        end,
        next,
    })
}

// The field from a place on, with the blanks round it.
#[inline(always)]
pub fn field_at(line: &[u8], at: usize) -> Option<FieldAt>
    requires { at ≤ length line.now }
    ensures fact_1 { field_as line.now result ≡ read_field (drop at line.now) }
    ensures fact_2 { Within line.now at result }
{
    let p = skip_blanks(line, at);
    if line.len() <= p {
        return None;
    }
    match line[p] {
        b'"' => quoted_field(line, p + 1),
        b'-' => minus_field(line, p + 1),
        c if is_digit(c) => number_field(line, p),
        c if is_letter(c) => name_field(line, p),
        _ => None,
    }
}
