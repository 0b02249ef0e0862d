// A difference as the registers hold it, and as a number with a sign.
#![tactic(auto)]

ghost use Rattle.std.specs.Prelude.{◌≡◌};
ghost use Rattle.difference.specs.Difference.{signed_of, joined_word};

// The word of 32 bits of two registers, the high one first.
pub fn joined(high: u32, low: u32) -> u32
    ensures { result ≡ joined_word high low }
{
    high % 65536 * 65536 + low % 65536
}

// The number of a two's complement word.
pub fn signed(word: u32) -> i32
    ensures { result ≡ signed_of word }
{
    word.cast_signed()
}
