// A text spelled for a cell of a sheet (docs/SPREADSHEET.md). Each writer writes only where there is room and answers the place after.
#![tactic(auto, unfolding(crate::specs::Spell::octal, crate::specs::Spell::or_octal, crate::specs::Spell::is_mark, crate::specs::Spell::is_solid, crate::specs::Spell::stands_inside, crate::specs::Spell::stands_last, event::specs::Choice::pick))]

ghost use Rattle.std.specs.Prelude.{◌≡◌, ◌&&◌, ◌<◌, ◌^◌, length};
ghost use Rattle.event_write.specs.Written.{Written};
ghost use Rattle.midicsv.specs.Spell.{octal, or_octal, is_mark, is_solid, stands_inside, stands_last, is_truth, spell_rest, spell_short, octal_all, spell_text};
ghost use Rattle.midicsv.specs.Show.{as_sheet, quote};

use super::byte::is_letter;
use super::truth::is_truth;
use event_write::bytes::{put_byte, put_bytes};

// The last of the marks before the digits.
const LAST_MARK: u8 = b'.';

// A longer text is all in octal: cut off at a spreadsheet's limit it is refused.
const LONGEST: usize = 8191;

// One of ! ' ( ) * + - . : ?
fn is_mark(c: u8) -> bool
    ensures { result ≡ is_mark c }
{
    matches!(c, b'!' | b'\''..=b'+' | b'-'..=LAST_MARK | b':' | b'?')
}

// A letter or a mark.
fn is_solid(c: u8) -> bool
    ensures { result ≡ is_solid c }
{
    is_letter(c) || is_mark(c)
}

// Whether a byte inside a text stands.
fn stands_inside(c: u8) -> bool
    ensures { result ≡ stands_inside c }
{
    is_solid(c) || c == b' ' || c == b','
}

// Whether the last byte of a text stands, after the byte before it.
fn stands_last(before: u8, c: u8) -> bool
    ensures { result ≡ stands_last before c }
{
    is_solid(c) || c == b' ' && is_solid(before)
}

// A backslash and three octal digits.
pub fn put_octal(out: &mut [u8], at: usize, c: u8) -> usize
    requires { at < 2 ^ 47 }
    ensures { Written out.old at (octal c) out.new result }
{
    put_bytes(
        out,
        at,
        &[b'\\', b'0' + c / 64, b'0' + c / 8 % 8, b'0' + c % 8],
    )
}

// A byte where it stands, else in octal.
fn put_or_octal(out: &mut [u8], at: usize, c: u8, stands: bool) -> usize
    requires { at < 2 ^ 47 }
    ensures { Written out.old at (or_octal stands c) out.new result }
{
    if stands {
        return put_byte(out, at, c);
    }
    put_octal(out, at, c)
}

// The bytes after the one before them. The last of them stands only in a text that is no word.
fn put_rest(out: &mut [u8], at: usize, first: u8, rest: &[u8], free: bool) -> usize
    requires fact_1 { at < 2 ^ 45 }
    requires fact_2 { length rest.now < 2 ^ 42 }
    ensures { Written out.old at (spell_rest free first rest.now) out.new result }
{
    let [inside @ .., last] = rest else {
        return at;
    };
    let mut next = at;
    let mut before = first;
    for c in inside {
        next = put_or_octal(out, next, *c, stands_inside(*c));
        before = *c;
    }
    put_or_octal(out, next, *last, free && stands_last(before, *last))
}

// A text that is not too long.
fn put_short(out: &mut [u8], at: usize, text: &[u8]) -> usize
    requires fact_1 { at < 2 ^ 44 }
    requires fact_2 { length text.now < 2 ^ 42 }
    ensures { Written out.old at (spell_short text.now) out.new result }
{
    let [first, rest @ ..] = text else {
        return at;
    };
    let next = put_or_octal(out, at, *first, is_letter(*first));
    put_rest(out, next, *first, rest, !is_truth(text))
}

// Every byte in octal.
fn put_octals(out: &mut [u8], at: usize, text: &[u8]) -> usize
    requires fact_1 { at < 2 ^ 44 }
    requires fact_2 { length text.now < 2 ^ 42 }
    ensures { Written out.old at (octal_all text.now) out.new result }
{
    let mut next = at;
    for c in text {
        next = put_octal(out, next, *c);
    }
    next
}

// A text between its quotes.
fn put_spelled(out: &mut [u8], at: usize, text: &[u8]) -> usize
    requires fact_1 { at < 2 ^ 44 }
    requires fact_2 { length text.now < 2 ^ 42 }
    ensures { Written out.old at (spell_text text.now) out.new result }
{
    if text.len() > LONGEST {
        return put_octals(out, at, text);
    }
    put_short(out, at, text)
}

// A text in its quotes, as a sheet has it.
pub fn put_cell_text(out: &mut [u8], at: usize, text: &[u8]) -> usize
    requires fact_1 { at < 2 ^ 43 }
    requires fact_2 { length text.now < 2 ^ 42 }
    ensures { Written out.old at (quote as_sheet text.now) out.new result }
{
    let a = put_byte(out, at, b'"');
    let b = put_spelled(out, a, text);
    put_byte(out, b, b'"')
}
