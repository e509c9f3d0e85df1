// Text to file.
ghost use Rattle.std.specs.Prelude.{◌≡◌, ◌≤◌, length};
ghost use Rattle.event_write.specs.Head.{manner_of};
ghost use Rattle.midicsv.specs.PieceOfText.{piece_of_text};
ghost use Rattle.midicsv_read.specs.Progress.{passed_as, length_of, Leaves};
ghost use Rattle.midicsv_read.specs.ToFile.{file_answer, file_leaves};

use super::order::take_line;
use super::{Phase, Progress, Stopped};
use event::Time;
use event::refusal::Refusal;
use midicsv_scan::frame::line_at;
use smf::Answer;

// The most bytes of a text, and of a file.
const TEXT_LIMIT: usize = 33554432;

const FILE_LIMIT: usize = 1048576;

// Reads all lines, and writes their file as far as there is room: lent no room, it measures. Answers
// the length of the file.
fn pass(out: &mut [u8], text: &[u8], short: bool) -> Result<usize, Stopped>
    requires { length text.now ≤ 33554432 }
    ensures fact_1 { passed_as result ≡ length_of (manner_of short) (piece_of_text text.now) }
    ensures fact_2 { Leaves (manner_of short) (piece_of_text text.now) out.old out.new }
{
    let mut st = Progress {
        phase: Phase::BeforeHeader,
        count: 0,
        tracks: 0,
        time: Time(0),
        force: 0,
        size: 0,
        at: 0,
    };
    let mut i = 0;
    let mut line = 1;
    // a `for` would need an iterator of lines, whose items and state are these same places
    while i < text.len() {
        let cut = line_at(text, i);
        let end = cut.end;
        match take_line(out, st, &text[i..end], short) {
            Ok(next) => st = next,
            Err(refusal) => return Err(Stopped { refusal, line }),
        }
        i = cut.next;
        line += 1;
    }
    if st.phase != Phase::AfterEnd {
        return Err(Stopped {
            refusal: Refusal::TextCutShort,
            line,
        });
    }
    Ok(st.at)
}

// The file of a text's piece in a manner, 0 full or 1 short, into lent room; on any refusal the room keeps what it held.
pub fn text_to_file(text: &[u8], manner: u32, out: &mut [u8]) -> Answer
    ensures fact_1 { result ≡ file_answer text.now manner (length out.old) }
    ensures fact_2 { out.new ≡ file_leaves text.now manner out.old }
{
    if 1 < manner {
        return Answer::refuse(Refusal::BadManner, 0);
    }
    if TEXT_LIMIT < text.len() {
        return Answer::refuse(Refusal::TextTooLong, 0);
    }
    match pass(&mut out[..0], text, manner == 1) {
        Err(stopped) => Answer::refuse(stopped.refusal, stopped.line),
        Ok(need) => {
            if FILE_LIMIT < need {
                return Answer::refuse(Refusal::WrittenTooLong, 0);
            }
            if out.len() < need {
                return Answer::room_needed(need);
            }
            // The same text as before, which was not refused.
            let _ = pass(out, text, manner == 1);
            Answer::success(need)
        }
    }
}
