// The words that are late, open or short.
ghost use Rattle.std.specs.Prelude.{◌≡◌};
ghost use Rattle.hit.specs.Limit.{late_from, open_from, short_below, any_from, any_below};

use unit::Quanta;

// The least word that is no hit, 2^31.
const NO_HIT: u64 = 2147483648;

// Quanta in a microsecond: 4 periods of 4 MHz, 65,536 each.
const MICROSECOND: u64 = 4 * 65536;

// The least word that is no short: 8 µs.
const SHORT: u64 = 32 * 65536;

// The least late word, by the TIMOUT code.
pub fn late_from(timeout: u32) -> Quanta
    ensures { result ≡ late_from timeout }
{
    let bound = u64::from(setup::timeout_row(timeout)) * MICROSECOND;
    if NO_HIT < bound {
        return Quanta(NO_HIT);
    }
    Quanta(bound)
}

// The least open word, by the PORTCYC code.
pub fn open_from(cycle: u32) -> Quanta
    ensures { result ≡ open_from cycle }
{
    Quanta((512 * (u64::from(cycle) + 1) - 8) * 65536)
}

// The least word that is no short.
pub fn short_below() -> Quanta
    ensures { result ≡ short_below }
{
    Quanta(SHORT)
}

// Whether a word is at least the limit.
pub fn any_from(limit: Quanta, words: &[u32]) -> bool
    ensures { result ≡ any_from limit words.now }
{
    words.iter().any(|w| limit.0 <= u64::from(*w))
}

// Whether a word is below the limit.
pub fn any_below(limit: Quanta, words: &[u32]) -> bool
    ensures { result ≡ any_below limit words.now }
{
    words.iter().any(|w| u64::from(*w) < limit.0)
}
