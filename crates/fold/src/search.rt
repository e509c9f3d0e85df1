// The search among the rows: which track gives its event next, and the greatest Time. A row with
// status 1 has no event left but its End_track.
ghost use Rattle.std.specs.Prelude.{◌≡◌, ◌≤◌, ◌<◌, length, take};
ghost use Rattle.fold_piece.specs.Fold.{greatest};
ghost use Rattle.fold.specs.Code.Search.{nearer, least_of, least_after};

use super::ENDED;

// The better of two rows: best, unless row i has an event left, and an earlier one; n stands for none.
// The Time is looked at before the status, since most rows fail by it.
fn lesser(times: &[u32], statuses: &[u8], n: usize, best: usize, i: usize) -> usize
    requires fact_1 { n ≤ length times.now }
    requires fact_2 { n ≤ length statuses.now }
    requires fact_3 { i < n }
    requires fact_4 { best ≤ n }
    ensures { result ≡ nearer n times.now statuses.now best i }
{
    if best == n {
        if statuses[i] == ENDED {
            return best;
        }
        return i;
    }
    if times[best] <= times[i] {
        return best;
    }
    if statuses[i] == ENDED {
        return best;
    }
    i
}

// The first of the n rows whose next event is earliest, or n where none has an event left.
pub fn least(times: &[u32], statuses: &[u8], n: usize) -> usize
    requires fact_1 { n ≤ length times.now }
    requires fact_2 { n ≤ length statuses.now }
    ensures { result ≡ least_of n times.now statuses.now }
{
    let mut best = n;
    for i in 0..n {
        best = lesser(times, statuses, n, best, i);
    }
    best
}

// The same after an event of row i at a Time was taken: a further event of that row at that Time comes
// next, and no search is needed.
pub fn least_after(times: &[u32], statuses: &[u8], n: usize, i: usize, time: u32) -> usize
    requires fact_1 { n ≤ length times.now }
    requires fact_2 { n ≤ length statuses.now }
    requires fact_3 { i < n }
    ensures { result ≡ least_after n times.now statuses.now i time }
{
    if times[i] != time {
        return least(times, statuses, n);
    }
    if statuses[i] == ENDED {
        return least(times, statuses, n);
    }
    i
}

// The greatest of the first n Times.
pub fn greatest_time(times: &[u32], n: usize) -> u32
    requires { n ≤ length times.now }
    ensures { result ≡ greatest (take n times.now) }
{
    let mut t: u32 = 0;
    for time in &times[..n] {
        t = t.max(*time);
    }
    t
}
