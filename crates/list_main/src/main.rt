// Lists the tracks of a few files: list_tracks has no C face, so it is run here.
#![tactic(auto)]

use program_io::{Answered, Listed, read_full};
use std::rt::Files;
use std::{fs, io};

// How much of a file is read: of a longer one, its first bytes are listed.
const BUFFER_LENGTH: usize = 65536;

// One file: the answer, then the three lists, which hold sevens before.
fn list_with(
    rt: &(impl Files + Print + Eprint),
    path: &str,
    padding: &mut [u32],
) -> io::Result<()> {
    let mut file = match fs::open(rt, path) {
        Ok(file) => file,
        // The other files are listed all the same.
        Err(error) => return eprintln!(rt; "{path}: {error}"),
    };
    let mut buffer = [0u8; BUFFER_LENGTH];
    let got = read_full(&mut file, &mut buffer);
    let mut ends = [7u32; 4];
    let mut counts = [7u32; 4];
    let answer = smf::list::list_tracks(&buffer[..got], &mut ends, &mut counts, padding);
    println!(rt; "{path}: {}", Answered(answer))?;
    println!(rt; "{}", Listed(&ends))?;
    println!(rt; "{}", Listed(&counts))?;
    println!(rt; "{}", Listed(padding))
}

fn list_file(rt: &(impl Files + Print + Eprint), path: &str) -> io::Result<()> {
    list_with(rt, path, &mut [7; 4])
}

// The same with a third list of one number.
fn list_short(rt: &(impl Files + Print + Eprint), path: &str) -> io::Result<()> {
    list_with(rt, path, &mut [7; 1])
}

fn main(rt: HostRuntime) -> io::Result<()> {
    list_file(&rt, "example.mid")?;
    list_file(&rt, "three_tracks.mid")?;
    list_file(&rt, "other_chunks.mid")?;
    list_file(&rt, "film_division.mid")?;
    list_file(&rt, "further_track.mid")?;
    list_file(&rt, "format2.mid")?;
    list_file(&rt, "five_tracks.mid")?;
    list_file(&rt, "after_end_track.mid")?;
    list_file(&rt, "empty.mid")?;
    list_file(&rt, "padded.mid")?;
    list_short(&rt, "padded.mid")?;
    list_short(&rt, "example.mid")
}
