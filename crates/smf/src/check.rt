// Checking a file.
ghost use Rattle.std.specs.Prelude.{◌≡◌, ◌≤◌, length, drop};
ghost use Rattle.smf.specs.Reader.{read_tracks, read_behind, read_file};
ghost use Rattle.smf.specs.Step.{tracks_step, told, HeaderOf};
ghost use Rattle.smf.specs.Answer.{verdict, answered};
ghost use Rattle.smf.specs.Demand3.{Demand3};

use super::header::read_header;
use super::track::read_track;
use super::{Answer, HeaderRead, Refused, TRACK_TAG, refuse};
use event::number::big_endian;
use event::refusal::Refusal;

// The longest file that is read, in bytes.
const FILE_LIMIT: usize = 1048576;

// So many tracks from a place on: the place after the last.
fn read_tracks(file: &[u8], count: u32, first: usize) -> Result<usize, Refused>
    requires { first ≤ length file.now }
    ensures { told result ≡ tracks_step (length file.now) (read_tracks count first (drop first file.now)) }
{
    let mut at = first;
    for _ in 0..count {
        let track = read_track(file, at)?;
        at = track.next;
    }
    Ok(at)
}

// What stands after the last track: chunks with other tags, and nothing else.
fn after_tracks(file: &[u8], from: usize) -> Result<(), Refused>
    ensures { answered result ≡ verdict (read_behind from (drop from file.now)) }
{
    let mut at = from;
    // A chunk says itself where the next begins: there is no index to count.
    while at < file.len() {
        if file.len() - at < 8 {
            return refuse(Refusal::FileCutShort, at);
        }
        let is_track = big_endian::<4>(file, at) == TRACK_TAG;
        if is_track {
            return refuse(Refusal::BytesAfterLastTrack, at);
        }
        let start = at + 8;
        let len = big_endian::<4>(file, at + 4) as usize;
        if file.len() - start < len {
            return refuse(Refusal::FileCutShort, at);
        }
        at = start + len;
    }
    Ok(())
}

// The header of a whole file, where the file is the layout of a piece.
pub fn read_file(file: &[u8]) -> Result<HeaderRead, Refused>
    ensures verdict { answered result ≡ verdict (read_file file.now) }
    ensures header { HeaderOf file.now result }
{
    if FILE_LIMIT < file.len() {
        return refuse(Refusal::FileTooLong, 0);
    }
    let header = read_header(file)?;
    let end = read_tracks(file, header.count, header.next)?;
    after_tracks(file, end)?;
    Ok(header)
}

// The verdict on a file: number 0 exactly where it is the layout of a piece.
pub fn check(file: &[u8]) -> Answer
    ensures fact_1 { result ≡ verdict (read_file file.now) }
    ensures fact_2 { Demand3 file.now result.number }
{
    match read_file(file) {
        Ok(_) => Answer::success(0),
        Err(refused) => refused.answer(),
    }
}
