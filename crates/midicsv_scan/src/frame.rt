// The lines of a text: where one ends, the CR at its end, and those that are passed over.
ghost use Rattle.std.specs.Prelude.{◌≡◌, ◌<◌, length};
ghost use Rattle.midicsv.specs.Lines.{trimmed, passed_over};
ghost use Rattle.midicsv_scan.specs.Cut.{CutAt};

use super::Cut;
use super::ends::{past, skip_blanks};

// The first line from a place on; its LF is not part of it.
pub fn line_at(text: &[u8], at: usize) -> Cut
    requires { at < length text.now }
    ensures { CutAt text.now at result.end result.next }
{
    let end = past(text, at, |c| c != b'\n');
    if end < text.len() {
        return Cut { end, next: end + 1 };
    }
    Cut { end, next: end }
}

// A line without the CR at its end.
pub fn trim(line: &[u8]) -> &[u8]
    ensures { result.now ≡ trimmed line.now }
{
    match line {
        [rest @ .., b'\r'] => rest,
        _ => line,
    }
}

// Whether a line is a comment or has only blanks.
pub fn passed_over(line: &[u8]) -> bool
    ensures { result ≡ passed_over line.now }
{
    let p = skip_blanks(line, 0);
    line.len() <= p || line[p] == b'#' || line[p] == b';'
}
