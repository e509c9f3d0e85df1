// The writer of variable-length numbers, to be held beside event/specs/Number: `least` has the tests
// below, and `vlq` has the bytes of each case, in the same order.
ghost use Rattle.std.specs.Prelude.{◌<◌, ◌^◌};
ghost use Rattle.event_write.specs.Written.{Written};
ghost use Rattle.event_write.specs.Head.{fewest};

use super::bytes::put_byte;

// The greatest numbers that fit one, two and three bytes.
const MOST_IN_ONE: u32 = 127;

const MOST_IN_TWO: u32 = 16383;

const MOST_IN_THREE: u32 = 2097151;

// A number of 28 bits in the fewest bytes.
pub fn put_number(out: &mut [u8], at: usize, number: u32) -> usize
    requires { at < 2 ^ 47 }
    ensures { Written out.old at (fewest number) out.new result }
{
    let n = number % 268435456;
    if n <= MOST_IN_ONE {
        return put_byte(out, at, n as u8);
    }
    if n <= MOST_IN_TWO {
        let a = put_byte(out, at, (128 + n / 128) as u8);
        return put_byte(out, a, (n % 128) as u8);
    }
    if n <= MOST_IN_THREE {
        let a = put_byte(out, at, (128 + n / 16384) as u8);
        let b = put_byte(out, a, (128 + n / 128 % 128) as u8);
        return put_byte(out, b, (n % 128) as u8);
    }
    let a = put_byte(out, at, (128 + n / 2097152) as u8);
    let b = put_byte(out, a, (128 + n / 16384 % 128) as u8);
    let c = put_byte(out, b, (128 + n / 128 % 128) as u8);
    put_byte(out, c, (n % 128) as u8)
}
