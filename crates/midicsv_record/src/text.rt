// A quoted text, its escapes undone, beside a word.
ghost use Rattle.std.specs.Prelude.{◌≡◌, ◌-◌, drop};
ghost use Rattle.midicsv.specs.ReadField.{plain};
ghost use Rattle.midicsv.specs.ReadRecord.{same_bytes};
ghost use Rattle.midicsv_scan.specs.Unquoted.{unquoted};
ghost use Rattle.midicsv_record.specs.TextState.{Gives, Small, SmallStep};

use super::{TextState, TextStep};

// The value of an octal digit; of other characters some number, for the scanner has refused them.
fn digit(c: u8) -> u32
    ensures { result ≡ c - 48 }
{
    u32::from(c.saturating_sub(b'0'))
}

// What the next character of a quoted text gives.
pub fn text_step(passed: TextState, c: u8) -> TextStep
    requires { Small passed }
    ensures fact_1 { Gives passed c result }
    ensures fact_2 { SmallStep result }
{
    match passed {
        TextState::Plain => {
            if c == b'"' {
                return TextStep::Nothing(TextState::Quote);
            }
            if c == b'\\' {
                return TextStep::Nothing(TextState::Slash);
            }
            TextStep::Byte(c, TextState::Plain)
        }
        TextState::Quote => {
            if c == b'"' {
                return TextStep::Byte(b'"', TextState::Plain);
            }
            TextStep::Closed
        }
        TextState::Slash => {
            if c == b'\\' {
                return TextStep::Byte(b'\\', TextState::Plain);
            }
            TextStep::Nothing(TextState::One(digit(c)))
        }
        TextState::One(n) => TextStep::Nothing(TextState::Two(n * 8 + digit(c))),
        TextState::Two(n) => TextStep::Byte(((n * 8 + digit(c)) % 256) as u8, TextState::Plain),
    }
}

// Whether the quoted text whose first character, after the quote, is at start is the word.
pub fn is_word(line: &[u8], start: usize, word: &[u8]) -> bool
    ensures { result ≡ same_bytes (unquoted (drop start line.now) plain) word.now }
{
    let mut k = 0;
    let mut passed = TextState::Plain;
    // start may lie past the end of the line
    for i in start..line.len() {
        match text_step(passed, line[i]) {
            TextStep::Nothing(next) => passed = next,
            TextStep::Byte(b, next) => {
                if word.len() <= k {
                    return false;
                }
                if b != word[k] {
                    return false;
                }
                k += 1;
                passed = next;
            }
            TextStep::Closed => return k == word.len(),
        }
    }
    k == word.len()
}
