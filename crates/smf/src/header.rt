// The header of a file.
ghost use Rattle.std.specs.Prelude.{◌≡◌, ◌≤◌, length};
ghost use Rattle.smf.specs.Division.{LawfulDivision, bits, division_of, division_ok};
ghost use Rattle.smf.specs.Reader.{count_ok, read_header};
ghost use Rattle.smf.specs.Step.{division_step, division_from, header_step, told};

use super::{Division, HEADER_TAG, HeaderRead, Refused, refuse};
use event::number::big_endian;
use event::refusal::Refusal;

// The most pulses to a quarter note; above it stand the frames, whose high byte is negative.
const MOST_PULSES: u32 = 32767;

fn count_ok(format: u32, count: u32) -> bool
    ensures { result ≡ count_ok format count }
{
    if count == 0 {
        return false;
    }
    if format == 0 {
        return count == 1;
    }
    true
}

// Whether the 16 bits are those of a division of either kind.
pub fn division_ok(bits: u32) -> bool
    ensures { result ≡ division_ok bits }
{
    if bits <= MOST_PULSES {
        return 1 <= bits;
    }
    match bits / 256 {
        0xE2 | 0xE3 | 0xE7 | 0xE8 => 1 <= bits % 256,
        _ => false,
    }
}

// The division that has these bits.
fn division_of(bits: u32) -> Division
    requires { bits ≤ 65535 }
    ensures { result ≡ division_step (division_of bits) }
{
    if bits <= MOST_PULSES {
        return Division::Pulses(bits);
    }
    Division::Frames {
        rate: 256 - bits / 256,
        ticks: bits % 256,
    }
}

// The 16 bits of a division.
pub fn division_bits(division: Division) -> u32
    requires { LawfulDivision (division_from division) }
    ensures { result ≡ bits (division_from division) }
{
    match division {
        Division::Pulses(pulses) => pulses,
        Division::Frames { rate, ticks } => (256 - rate) * 256 + ticks,
    }
}

pub fn read_header(file: &[u8]) -> Result<HeaderRead, Refused>
    ensures { told result ≡ header_step (length file.now) (read_header file.now) }
{
    if file.len() < 14 {
        return refuse(Refusal::FileCutShort, 0);
    }
    if big_endian::<4>(file, 0) != HEADER_TAG {
        return refuse(Refusal::BadHeader, 0);
    }
    let size = big_endian::<4>(file, 4);
    let too_short = size < 6;
    if too_short {
        return refuse(Refusal::BadHeader, 4);
    }
    let len = size as usize;
    if file.len() - 8 < len {
        return refuse(Refusal::FileCutShort, 0);
    }
    let format = big_endian::<2>(file, 8);
    if 2 < format {
        return refuse(Refusal::BadHeader, 8);
    }
    let count = big_endian::<2>(file, 10);
    if !count_ok(format, count) {
        return refuse(Refusal::BadHeader, 10);
    }
    let bits = big_endian::<2>(file, 12);
    if !division_ok(bits) {
        return refuse(Refusal::BadHeader, 12);
    }
    Ok(HeaderRead {
        format,
        count,
        division: division_of(bits),
        next: 8 + len,
    })
}
