// Numbers: "1 to 10 digits, size at most 4,294,967,295".
ghost use Rattle.std.specs.Prelude.{◌≡◌, ◌≤◌, length, drop};
ghost use Rattle.midicsv.specs.ReadField.{read_digits, read_number};
ghost use Rattle.midicsv_scan.specs.Part.{number_as, NumberWithin};

use midicsv::byte::is_digit;

const MOST_DIGITS: usize = 10;

// The digits from a place on, of which there may be none, and the place after them. Ten of them fit 64 bits.
fn digits(line: &[u8], at: usize) -> Option<(u64, usize)>
    requires { at ≤ length line.now }
    ensures fact_1 { number_as line.now result ≡ read_digits 10 0 (drop at line.now) }
    ensures fact_2 { NumberWithin line.now at result }
{
    let mut value: u64 = 0;
    for p in at..line.len() {
        let c = line[p];
        if !is_digit(c) {
            return Some((value, p));
        }
        if MOST_DIGITS <= p - at {
            return None;
        }
        value = value * 10 + u64::from(c - b'0');
    }
    Some((value, line.len()))
}

// The number from a place on, and the place after it. Inline, as field_at is: an answer by way of memory cost the
// scanner a fifth of its time.
#[inline(always)]
pub fn number_at(line: &[u8], at: usize) -> Option<(u32, usize)>
    requires { at ≤ length line.now }
    ensures fact_1 { number_as line.now result ≡ read_number (drop at line.now) }
    ensures fact_2 { NumberWithin line.now at result }
{
    if line.len() <= at || !is_digit(line[at]) {
        return None;
    }
    let (value, next) = digits(line, at)?;
    Some((u32::try_from(value).ok()?, next))
}
