// Folds a few files with lent rows: the C face of fold has rows of its own, so they are seen here only.
#![tactic(auto)]

use program_io::{Answered, Listed, read_full};
use std::rt::Files;
use std::{fs, io};

// How much of a file is read: of a longer one, its first bytes are folded.
const BUFFER_LENGTH: usize = 4096;

// One file into lent room: number, place and length of the answer, then the rows, list by list, and the whole room. Rows and room
// hold sevens before, so that what stayed is told from what was written.
fn fold_file(rt: &(impl Files + Print + Eprint), path: &str, room: &mut [u8]) -> io::Result<()> {
    let mut file = match fs::open(rt, path) {
        Ok(file) => file,
        // The other files are folded all the same.
        Err(error) => return eprintln!(rt; "{path}: {error}"),
    };
    let mut buffer = [0u8; BUFFER_LENGTH];
    let got = read_full(&mut file, &mut buffer);
    let mut places = [7usize; 4];
    let mut times = [7u32; 4];
    let mut statuses = [7u8; 4];
    let answer = fold::fold(&buffer[..got], room, &mut places, &mut times, &mut statuses);
    println!(rt; "{path}: {}", Answered(answer))?;
    println!(rt; "{}", Listed(&places))?;
    println!(rt; "{}", Listed(&times))?;
    println!(rt; "{}", Listed(&statuses))?;
    println!(rt; "{}", Listed(room))
}

// In more room than any of the folded files takes.
fn with_much_room(rt: &(impl Files + Print + Eprint), path: &str) -> io::Result<()> {
    fold_file(rt, path, &mut [7; 48])
}

fn main(rt: HostRuntime) -> io::Result<()> {
    // With one byte less the file is not written, but the rows are shown all the same.
    let mut enough = [7; 42];
    fold_file(&rt, "two_tracks.mid", &mut enough)?;
    let mut too_small = [7; 41];
    fold_file(&rt, "two_tracks.mid", &mut too_small)?;
    // All rows taken, and one: format 0, where a Channel_prefix may stand.
    with_much_room(&rt, "four_tracks.mid")?;
    with_much_room(&rt, "one_track.mid")?;
    // The two tracks again, with other chunks round them: the places are those in this file.
    with_much_room(&rt, "other_chunks.mid")?;
    // And with a division of 25 frames of 40 ticks, which is kept.
    with_much_room(&rt, "film_division.mid")?;
    // Refused for other reasons, in the order in which they are tried: rows and room stay.
    with_much_room(&rt, "after_end_track.mid")?;
    with_much_room(&rt, "format2.mid")?;
    with_much_room(&rt, "sixty_five_tracks.mid")?;
    with_much_room(&rt, "five_tracks.mid")?;
    with_much_room(&rt, "prefix_in_both.mid")
}
