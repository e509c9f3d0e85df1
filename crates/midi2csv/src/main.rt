// Writes the text of the MIDI file on standard input, or "refused N at P".
#![tactic(auto)]

use std::io;

fn main(rt: HostRuntime) -> io::Result<()> {
    midi2csv_io::convert(&rt, &mut rt.stdin())
}
