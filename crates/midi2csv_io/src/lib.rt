// The program midi2csv, but for what it reads from. It stands in a library so that the tests run the
// same code on further files: a program has one standard input to be tested on.
#![tactic(auto)]

ghost use Rattle.std.specs.Prelude.{◌≡◌, length};
ghost use Rattle.midi2csv_io.specs.Program.{program_answer, program_leaves};

use event::refusal::Refusal;
use program_io::read_full;
use smf::Answer;
use std::io;
use std::io::Read;

// One byte over the limit of limited_text: a full buffer tells that there was more.
const FILE_ROOM: usize = 16385;

// The longest text that is written.
const TEXT_ROOM: usize = 65536;

// File to text, in a program that takes no more than 16,384 bytes.
#[tactic(auto, using(crate::proofs::ProgramLaws::over_limit, crate::proofs::ProgramLaws::over_leaves, crate::proofs::ProgramLaws::within_limit))]
fn limited_text(file: &[u8], room: &mut [u8]) -> Answer
    ensures answer { result ≡ program_answer (length room.old) file.now }
    ensures leaves { room.new ≡ program_leaves file.now room.old }
{
    if 16384 < file.len() {
        return Answer::refuse(Refusal::FileTooLong, 0);
    }
    midicsv_write::to_text::file_to_text(file, room)
}

fn write_refusal(rt: &impl Print, number: u8, place: usize) -> io::Result<()> {
    println!(rt; "refused {number} at {place}")
}

// Converts a file that was read, and writes its text or why it is refused.
fn convert_file(rt: &impl Print, file: &[u8], room: &mut [u8]) -> io::Result<()> {
    let answer = limited_text(file, room);
    if answer.number == 0 {
        rt.write_all(&room[..answer.length])
    } else {
        write_refusal(rt, answer.number, answer.place)
    }
}

// Converts what a source gives until its end; a read that fails counts as the end.
pub fn convert(rt: &impl Print, source: &mut impl Read) -> io::Result<()> {
    let mut file = [0; FILE_ROOM];
    let got = read_full(source, &mut file);
    let mut room = [0; TEXT_ROOM];
    convert_file(rt, &file[..got], &mut room)
}
