// The search by halves. All runs of `width` neighbours that start at `count` places in a row, with
// `count` at most `width`, share a middle part. Its extremes are carried along, and each half of the
// places extends them by what its own runs share. A list of n values so takes some n * log2(width)
// steps, and no memory but a stack of log2(width) calls.
ghost use Rattle.std.specs.Prelude.{◌≡◌, ◌≤◌, ◌<◌, ◌+◌, ◌-◌, length};
ghost use Rattle.quietest.specs.Quietest.{quieter};
ghost use Rattle.quietest.specs.Search.{extremes_of, found, better, Within};

use crate::extremes::{Extremes, extremes_of, joined, spread_of};

// A start and its run's spread.
#[derive(Clone, Copy)]
pub struct Found {
    pub start: usize,
    pub spread: i64,
}

// The quieter of what was found and one more run; what was found where they are equal.
fn better(best: Found, start: usize, spread: i64) -> Found
    ensures { result ≡ better best start spread }
{
    if spread < best.spread {
        Found { start, spread }
    } else {
        best
    }
}

// The extremes of what the first `half` of the `count` starts share.
// By itself beside `shared_by_second`: a half as a parameter would turn two plain recursions into one with a case in each step.
fn shared_by_first(
    values: &[i32],
    width: usize,
    from: usize,
    count: usize,
    half: usize,
    shared: Extremes,
) -> Extremes
    requires within { Within (length values.now) width from count }
    requires le_half { (1 ≤ half) × (half < count) }
    requires shared_value { shared ≡ extremes_of values.now (from + count - 1) (width + 1 - count) }
    ensures { result ≡ extremes_of values.now (from + half - 1) (width + 1 - half) }
{
    joined(extremes_of(values, from + half - 1, count - half), shared)
}

// The extremes of what the others share.
fn shared_by_second(
    values: &[i32],
    width: usize,
    from: usize,
    count: usize,
    half: usize,
    shared: Extremes,
) -> Extremes
    requires within { Within (length values.now) width from count }
    requires le_half { (1 ≤ half) × (half < count) }
    requires shared_value { shared ≡ extremes_of values.now (from + count - 1) (width + 1 - count) }
    ensures { result ≡ extremes_of values.now (from + count - 1) (width + 1 - (count - half)) }
{
    joined(shared, extremes_of(values, from + width, half))
}

// Tries the `count` starts from `from`; `shared` are the extremes of what their runs share.
fn search(
    values: &[i32],
    width: usize,
    from: usize,
    count: usize,
    shared: Extremes,
    best: Found,
) -> Found
    requires within { Within (length values.now) width from count }
    requires shared_value { shared ≡ extremes_of values.now (from + count - 1) (width + 1 - count) }
    requires best_value { best ≡ found values.now width best.start }
    ensures { result ≡ found values.now width (quieter values.now width best.start from count) }
{
    if count == 1 {
        return better(best, from, spread_of(shared));
    }
    let half = count / 2;
    let first = shared_by_first(values, width, from, count, half, shared);
    let second = shared_by_second(values, width, from, count, half, shared);
    let next = search(values, width, from, half, first, best);
    search(values, width, from + half, count - half, second, next)
}

fn search_block(values: &[i32], width: usize, from: usize, count: usize, best: Found) -> Found
    requires within { Within (length values.now) width from count }
    requires best_value { best ≡ found values.now width best.start }
    ensures { result ≡ found values.now width (quieter values.now width best.start from count) }
{
    let shared = extremes_of(values, from + count - 1, width + 1 - count);
    search(values, width, from, count, shared, best)
}

// Tries every start, `width` of them at a time.
pub fn search_all(values: &[i32], width: usize) -> Found
    requires { (1 ≤ width) × (width ≤ length values.now) }
    ensures { result ≡ found values.now width (quieter values.now width 0 1 (length values.now - width)) }
{
    let mut best = Found {
        start: 0,
        spread: spread_of(extremes_of(values, 0, width)),
    };
    let end = values.len() - width + 1;
    for from in (1..end).step_by(width) {
        let count = width.min(end - from);
        best = search_block(values, width, from, count, best);
    }
    best
}
