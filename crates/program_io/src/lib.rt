// What the programs share: a file read into a buffer, and the lines in which they list what came.
#![tactic(auto)]

ghost use Rattle.std.specs.Prelude.{Some, ◌≤◌, take, length};
ghost use Rattle.std.specs.Io.KnownBytes.{Consumes};
ghost use Rattle.program_io.specs.Shown.{listed, answer_text};

use smf::Answer;
use std::fmt;
use std::fmt::{Display, Formatter};
use std::io::Read;

// Reads until the buffer is full or the source ends, and says how many bytes came. A read that fails
// counts as the end.
pub fn read_full<R: Read>(source: &mut R, buffer: &mut [u8]) -> usize
    ensures filled { result ≤ length buffer.new }
    ensures bytes { Consumes (R.remaining source.old) (R.remaining source.new) (take result buffer.new) }
{
    let mut filled = 0;
    // Every read but the last brings a byte or more, so no more reads than bytes are wanted.
    for _ in 0..buffer.len() {
        let got = source.read(&mut buffer[filled..]).unwrap_or(0);
        if got == 0 {
            break;
        }
        filled += got;
    }
    filled
}

// A list of numbers, a blank after each.
#[derive(Drop)]
pub struct Listed<'a, N>(pub &'a [N]);

impl<N: Display> Display for Listed<'_, N> {
    ghost output = { λ list. listed N.output list.0.now };

    fn fmt<W: fmt::Write>(&self, f: &mut Formatter<W>) -> fmt::Result {
        for number in self.0 {
            write!(f, "{number} ")?;
        }
        Ok(())
    }
}

// Number, place and length of an answer, a blank after each.
#[derive(Drop)]
pub struct Answered(pub Answer);

impl Display for Answered {
    ghost output = { λ answered. Some (answer_text answered.0) };

    fn fmt<W: fmt::Write>(&self, f: &mut Formatter<W>) -> fmt::Result {
        let answer = self.0;
        write!(f, "{} {} {} ", answer.number, answer.place, answer.length)
    }
}
