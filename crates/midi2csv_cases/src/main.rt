// Runs what midi2csv runs on further files: refusals, and files at its limits and past them.
#![tactic(auto)]

use std::rt::Files;
use std::{fs, io};

fn convert_file(rt: &(impl Files + Print + Eprint), path: &str) -> io::Result<()> {
    let mut file = match fs::open(rt, path) {
        Ok(file) => file,
        // The other files are converted all the same.
        Err(error) => return eprintln!(rt; "{path}: {error}"),
    };
    print!(rt; "{path}: ")?;
    midi2csv_io::convert(rt, &mut file)
}

fn main(rt: HostRuntime) -> io::Result<()> {
    convert_file(&rt, "empty.mid")?;
    convert_file(&rt, "film_division.mid")?;
    convert_file(&rt, "rate_26.mid")?;
    convert_file(&rt, "after_end_track.mid")?;
    convert_file(&rt, "other_chunks.mid")?;
    convert_file(&rt, "further_track.mid")?;
    convert_file(&rt, "over_limit.mid")?;
    convert_file(&rt, "over_room.mid")?;
    convert_file(&rt, "at_limits.mid")
}
