// Differences as two's complement words, and means. A sum of differences is kept with 2^31 added to each, so that it has
// no sign: its quotient is then the floor.
ghost use Rattle.std.specs.Prelude.{◌≡◌, ◌<◌};
ghost use Rattle.hit.specs.Difference.{difference_word, biased, difference_mean, port_mean};

use unit::Quanta;

// 2^31, which is added to a difference so that it has no sign.
const BIAS: u64 = 2147483648;

// 2^32: words are numbers below it.
const WORDS: u64 = 4294967296;

pub fn difference_word(up: Quanta, down: Quanta) -> u32
    requires { (up.0 < 2147483648) × (down.0 < 2147483648) }
    ensures { result ≡ difference_word up down }
{
    ((up.0 + WORDS - down.0) % WORDS) as u32
}

pub fn biased(up: Quanta, down: Quanta) -> Quanta
    requires { (up.0 < 2147483648) × (down.0 < 2147483648) }
    ensures { (result ≡ biased up down) × (result.0 < 4294967296) }
{
    Quanta(up.0 + BIAS - down.0)
}

// The word of the mean of n differences, by their biased sum; 0 of none.
pub fn difference_mean(sum: Quanta, n: u32) -> u32
    ensures { result ≡ difference_mean sum n }
{
    if n == 0 {
        return 0;
    }
    let mean = sum.0 / u64::from(n);
    ((mean % WORDS + BIAS) % WORDS) as u32
}

// The mean of n port words by their sum; 0 of none.
pub fn port_mean(sum: Quanta, n: u32) -> u32
    ensures { result ≡ port_mean sum n }
{
    if n == 0 {
        return 0;
    }
    (sum.0 / u64::from(n) % WORDS) as u32
}
