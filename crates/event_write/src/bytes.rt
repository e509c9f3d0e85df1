// Bytes, runs of bytes and numbers of up to four bytes.
ghost use Rattle.std.specs.Prelude.{[], ◌∷◌, ◌<◌, ◌≤◌, ◌^◌, length};
ghost use Rattle.event.specs.Bytes.{big_endian};
ghost use Rattle.event_write.specs.Written.{Written};

// A byte.
pub fn put_byte(out: &mut [u8], at: usize, b: u8) -> usize
    requires { at < 2 ^ 48 }
    ensures { Written out.old at (b ∷ []) out.new result }
{
    if at < out.len() {
        out[at] = b;
    }
    at + 1
}

// A run of bytes.
pub fn put_bytes(out: &mut [u8], at: usize, bytes: &[u8]) -> usize
    requires fact_1 { at < 2 ^ 47 }
    requires fact_2 { length bytes.now < 2 ^ 46 }
    ensures { Written out.old at bytes.now out.new result }
{
    let mut next = at;
    for b in bytes {
        next = put_byte(out, next, *b);
    }
    next
}

// The N low bytes of a number, high byte first.
#[tactic(auto, using(crate::proofs::BytesLaws::low_bytes))]
pub fn put_big_endian<const N: usize>(out: &mut [u8], at: usize, number: u32) -> usize
    requires fact_1 { at < 2 ^ 47 }
    requires fact_2 { N ≤ 4 }
    ensures { Written out.old at (big_endian N number) out.new result }
{
    let bytes = number.to_be_bytes();
    put_bytes(out, at, &bytes[bytes.len() - N..])
}
