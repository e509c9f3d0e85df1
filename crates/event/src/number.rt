// Numbers and bytes at a place of a slice.
ghost use Rattle.std.specs.Prelude.{◌≡◌, length, drop, get_or, ◌+◌, ◌≤◌, eqb};
ghost use Rattle.event.specs.Bytes.{number};
ghost use Rattle.event.specs.Reader.{read_vlq};
ghost use Rattle.event.specs.Step.{bytes_from, number_step, data_at};
ghost use Rattle.event.specs.Choice.{pick};
ghost use Rattle.event.specs.Padding.{vlq_padding};
ghost use Rattle.event.specs.Refusal.{numbered};

use super::NumberRead;
use super::refusal::Refusal;

// A variable-length number has at most so many bytes.
const MOST_BYTES: u32 = 4;

// The padding of a number of which so much has come: one more where that is 0, since 80h came then and nothing else.
fn padding_after(acc: u32, padding: u32) -> u32
    requires { padding ≤ 4 }
    ensures { result ≡ pick (eqb acc 0) (padding + 1) padding }
{
    if acc == 0 {
        return padding + 1;
    }
    padding
}

// A variable-length number, and how many bytes it takes above the fewest: its leading 80h bytes.
pub fn read_number(body: &[u8], at: usize) -> Result<NumberRead, Refusal>
    ensures { numbered result ≡ number_step (length body.now) (vlq_padding (drop at body.now)) (read_vlq (drop at body.now)) }
{
    let mut acc: u32 = 0;
    let mut p = at;
    let mut padding: u32 = 0;
    for come in 0..MOST_BYTES {
        if body.len() <= p {
            return Err(Refusal::EventCutShort);
        }
        let b = body[p] as u32;
        p += 1;
        if b < 128 {
            let value = acc * 128 + b;
            return Ok(NumberRead {
                value,
                next: p,
                padding,
            });
        }
        let low = b - 128;
        acc = acc * 128 + low;
        padding = padding_after(acc, padding);
    }
    Err(Refusal::VariableTooLong)
}

// The byte k after a place, or 0 where there is none.
pub fn byte_at(body: &[u8], at: usize, k: usize) -> u8
    ensures { result ≡ get_or (drop at body.now) k 0 }
{
    if at < body.len() {
        if k < body.len() - at {
            return body[at + k];
        }
        return 0;
    }
    0
}

// The number of so many bytes at a place, high byte first; a byte past the end counts as 0.
pub fn big_endian<const N: usize>(body: &[u8], at: usize) -> u32
    requires { N ≤ 4 }
    ensures { result ≡ number (bytes_from N (drop at body.now) 0) }
{
    let mut number: u32 = 0;
    for k in 0..N {
        number = number * 256 + byte_at(body, at, k) as u32;
    }
    number
}

// The data bytes of an event: so many of the body's own bytes from a place on, or none where they
// are not all there.
pub fn event_data(body: &[u8], start: usize, len: usize) -> &[u8]
    ensures { result.now ≡ data_at body.now start len }
{
    if start <= body.len() {
        if len <= body.len() - start {
            let end = start + len;
            return &body[start..end];
        }
        return &body[..0];
    }
    &body[..0]
}
