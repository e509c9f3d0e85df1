// Quoted texts, from after their opening quote on. Where a text ends does not depend on its bytes, so they are not kept here.
ghost use Rattle.std.specs.Prelude.{◌≡◌, ◌≤◌, length, drop};
ghost use Rattle.midicsv.specs.ReadField.{plain, read_quoted};
ghost use Rattle.midicsv_scan.specs.Part.{Turned, text_as, EndWithin};
ghost use Rattle.midicsv_scan.specs.declared.Look.TheVariants.{Plain, Slash};

use super::{Look, Turn};
use midicsv::byte::is_octal;

// The first of three octal digits is at most 3: "up to 377".
const TOP_DIGIT: u8 = b'3';

// What a byte does with nothing special before it.
fn after_plain(c: u8) -> Turn
    ensures { Turned Plain c result }
{
    match c {
        b'"' => Turn::On(Look::Quote),
        b'\\' => Turn::On(Look::Slash),
        // "CR is not allowed"
        b'\r' => Turn::Broken,
        _ => Turn::On(Look::Plain),
    }
}

// After a backslash: another one, or the first of "three octal digits up to 377".
#[tactic(auto, using(crate::proofs::TextLaws::slash_slash, crate::proofs::TextLaws::slash_low, crate::proofs::TextLaws::slash_high, crate::proofs::TextLaws::slash_octal))]
fn after_slash(c: u8) -> Turn
    ensures { Turned Slash c result }
{
    match c {
        b'\\' => Turn::On(Look::Plain),
        b'0'..=TOP_DIGIT => Turn::On(Look::One),
        _ => Turn::Broken,
    }
}

// What the byte c does to a text.
fn after_byte(look: Look, c: u8) -> Turn
    ensures { Turned look c result }
{
    match look {
        Look::Plain => after_plain(c),
        Look::Quote if c == b'"' => Turn::On(Look::Plain),
        Look::Quote => Turn::Ended,
        Look::Slash => after_slash(c),
        Look::One if is_octal(c) => Turn::On(Look::Two),
        Look::Two if is_octal(c) => Turn::On(Look::Plain),
        Look::One | Look::Two => Turn::Broken,
    }
}

// The place after the closing quote.
pub fn text_end(line: &[u8], at: usize) -> Option<usize>
    requires { at ≤ length line.now }
    ensures fact_1 { text_as line.now at result ≡ read_quoted (drop at line.now) plain }
    ensures fact_2 { EndWithin line.now at result }
{
    let mut look = Look::Plain;
    for p in at..line.len() {
        match after_byte(look, line[p]) {
            Turn::On(to) => look = to,
            Turn::Ended => return Some(p),
            Turn::Broken => return None,
        }
    }
    if look == Look::Quote {
        return Some(line.len());
    }
    None
}
