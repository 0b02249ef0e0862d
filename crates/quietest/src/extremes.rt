// The largest and the smallest value of a run.
ghost use Rattle.std.specs.Prelude.{◌≡◌, ◌≤◌, ◌+◌, nat_abs, length};
ghost use Rattle.quietest.specs.Search.{extremes_of, joined, spread_of};

#[derive(Clone, Copy)]
pub struct Extremes {
    pub high: i32,
    pub low: i32,
}

// The extremes of two runs together.
pub fn joined(a: Extremes, b: Extremes) -> Extremes
    ensures { result ≡ joined a b }
{
    Extremes {
        high: a.high.max(b.high),
        low: a.low.min(b.low),
    }
}

// The largest less the smallest.
pub fn spread_of(e: Extremes) -> i64
    ensures { result ≡ spread_of e }
{
    i64::from(e.high) - i64::from(e.low)
}

// The same as a number without a sign.
pub fn distance(e: Extremes) -> u64
    ensures { result ≡ nat_abs (spread_of e) }
{
    u64::from(e.high.abs_diff(e.low))
}

// The extremes of `count` neighbours from a place on.
pub fn extremes_of(values: &[i32], from: usize, count: usize) -> Extremes
    requires { (1 ≤ count) × (from + count ≤ length values.now) }
    ensures { result ≡ extremes_of values.now from count }
{
    let mut high = values[from];
    let mut low = high;
    // One value alone: at narrow widths most calls have just one, and a loop costs more than its value.
    if count == 1 {
        return Extremes { high, low };
    }
    for x in &values[from..from + count] {
        high = high.max(*x);
        low = low.min(*x);
    }
    Extremes { high, low }
}
