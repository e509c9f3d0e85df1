// Where blanks, names and fields end.
ghost use Rattle.std.specs.Prelude.{◌≡◌, ℕ, Bool, ◌+◌, ◌≤◌, length, drop};
ghost use Rattle.std.specs.List.{prefix_len};
ghost use Rattle.midicsv_scan.specs.Part.{Skipped, NameEnds, Closes, EndWithin};

use midicsv::byte::{is_blank, is_letter};

// How many bytes stand before the first that a test does not hold of.
fn front<F: Fn(u8) -> bool>(part: &[u8], test: F) -> usize
    ghost holds: { ℕ → Bool }
    requires callable { F.IsAlwaysCallable test }
    requires tests { (x : ℕ) (r : Bool) → F.post test x r → r ≡ holds x }
    ensures { result ≡ prefix_len holds part.now }
{
    part.iter().take_while(|c| test(**c)).count()
}

// The place after the bytes from a place on that a test holds of.
pub fn past<F: Fn(u8) -> bool>(line: &[u8], at: usize, test: F) -> usize
    ghost holds: { ℕ → Bool }
    requires inside { at ≤ length line.now }
    requires callable { F.IsAlwaysCallable test }
    requires tests { (x : ℕ) (r : Bool) → F.post test x r → r ≡ holds x }
    ensures { result ≡ at + prefix_len holds (drop at line.now) }
{
    at + front(&line[at..], test)
}

// The place of the first byte from a place on that is no blank.
pub fn skip_blanks(line: &[u8], at: usize) -> usize
    requires { at ≤ length line.now }
    ensures { Skipped line.now at result }
{
    past(line, at, is_blank)
}

// The place after the letters from a place on.
pub fn name_end(line: &[u8], at: usize) -> usize
    requires { at ≤ length line.now }
    ensures { NameEnds line.now at result }
{
    past(line, at, is_letter)
}

// The place of the comma, or the line's end, after a field that ends at a place and the blanks after it.
pub fn closed(line: &[u8], at: usize) -> Option<usize>
    requires { at ≤ length line.now }
    ensures fact_1 { Closes line.now at result }
    ensures fact_2 { EndWithin line.now at result }
{
    let p = skip_blanks(line, at);
    if line.len() <= p || line[p] == b',' {
        return Some(p);
    }
    None
}
