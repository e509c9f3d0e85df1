// Fields of a record written, in a text or (`sheet`) in a sheet. Each writes only where there is room and answers the place after.
#![tactic(auto, using(std::proofs::lemmas::Bool::Decides::nat_tests), unfolding(crate::specs::Field::in_octal, crate::specs::Field::escape, crate::specs::Spell::octal, crate::specs::Show::gap, crate::specs::Code::Form::form_of, event::specs::Choice::pick))]

ghost use Rattle.std.specs.Prelude.{◌≡◌, [], ◌∷◌, ◌<◌, ◌^◌, length};
ghost use Rattle.event_write.specs.Written.{Written};
ghost use Rattle.midicsv.specs.Field.{decimal, in_octal, escape, num, quoted};
ghost use Rattle.midicsv.specs.Show.{as_text, gap, quote, joined, further};
ghost use Rattle.midicsv.specs.Code.Form.{form_of};
ghost use Rattle.midicsv.specs.Table.{sized};
ghost use Rattle.midicsv.specs.Record.{data_fields, tail_fields};

use super::spell::{put_cell_text, put_octal};
use event_write::bytes::{put_byte, put_bytes};

// The quote, which is written twice in a text.
const DOUBLED: u8 = b'"';

// Numbers below it have one digit.
const TEN: u32 = 10;

// A number in decimal: the digits before the last, then the last. Not by Display, which has no place to answer where the room ends.
pub fn put_decimal(out: &mut [u8], at: usize, n: u32) -> usize
    requires { at < 2 ^ 47 }
    ensures { Written out.old at (decimal n) out.new result }
{
    if n < TEN {
        return put_byte(out, at, b'0' + (n % 10) as u8);
    }
    let m = put_decimal(out, at, n / 10);
    put_byte(out, m, b'0' + (n % 10) as u8)
}

// Whether a byte of a text is written in octal.
fn in_octal(c: u8) -> bool
    ensures { result ≡ in_octal c }
{
    matches!(c, 0..=31 | 127..=160)
}

// A byte of a text between its quotes.
fn put_escaped(out: &mut [u8], at: usize, c: u8) -> usize
    requires { at < 2 ^ 47 }
    ensures { Written out.old at (escape c) out.new result }
{
    match c {
        DOUBLED => put_bytes(out, at, b"\"\""),
        b'\\' => put_bytes(out, at, b"\\\\"),
        _ if in_octal(c) => put_octal(out, at, c),
        _ => put_byte(out, at, c),
    }
}

// A text in its quotes, as a text has it.
fn put_text(out: &mut [u8], at: usize, text: &[u8]) -> usize
    requires fact_1 { at < 2 ^ 44 }
    requires fact_2 { length text.now < 2 ^ 42 }
    ensures { Written out.old at (quote as_text text.now) out.new result }
{
    let mut next = put_byte(out, at, b'"');
    for c in text {
        next = put_escaped(out, next, *c);
    }
    put_byte(out, next, b'"')
}

// What stands between two fields: a comma, and in a text a space.
pub fn put_comma(out: &mut [u8], at: usize, sheet: bool) -> usize
    requires { at < 2 ^ 47 }
    ensures { Written out.old at (gap (form_of sheet)) out.new result }
{
    if sheet {
        return put_byte(out, at, b',');
    }
    put_bytes(out, at, b", ")
}

// A further number of a record.
pub fn put_number_field(out: &mut [u8], at: usize, n: u32, sheet: bool) -> usize
    requires { at < 2 ^ 46 }
    ensures { Written out.old at (joined (form_of sheet) (num n)) out.new result }
{
    let a = put_comma(out, at, sheet);
    put_decimal(out, a, n)
}

// A further text of a record.
pub fn put_text_field(out: &mut [u8], at: usize, text: &[u8], sheet: bool) -> usize
    requires fact_1 { at < 2 ^ 42 }
    requires fact_2 { length text.now < 2 ^ 42 }
    ensures { Written out.old at (joined (form_of sheet) (quoted text.now)) out.new result }
{
    let a = put_comma(out, at, sheet);
    if sheet {
        return put_cell_text(out, a, text);
    }
    put_text(out, a, text)
}

// Bytes, a field each.
pub fn put_byte_fields(out: &mut [u8], at: usize, values: &[u8], sheet: bool) -> usize
    requires fact_1 { at < 2 ^ 44 }
    requires fact_2 { length values.now < 2 ^ 32 }
    ensures { Written out.old at (further (form_of sheet) (data_fields values.now)) out.new result }
{
    let mut next = at;
    for b in values {
        next = put_number_field(out, next, *b as u32, sheet);
    }
    next
}

// Length and data.
pub fn put_sized(out: &mut [u8], at: usize, body: &[u8], sheet: bool) -> usize
    requires fact_1 { at < 2 ^ 43 }
    requires fact_2 { length body.now < 2 ^ 32 }
    ensures { Written out.old at (further (form_of sheet) (tail_fields sized body.now)) out.new result }
{
    let a = put_number_field(out, at, body.len() as u32, sheet);
    put_byte_fields(out, a, body, sheet)
}
