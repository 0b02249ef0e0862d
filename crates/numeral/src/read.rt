// Numbers from the bytes of a word.
ghost use Rattle.std.specs.Prelude.{◌≡◌, ◌≤◌, ◌<◌, SomeIff, length};
ghost use Rattle.numeral.specs.Digit.{digit_of};
ghost use Rattle.numeral.specs.Read.{value_in, read_hex, read_decimal, read_signed};

// A hexadecimal number of `least` to `most` digits, at least one and at most eight.
pub fn read_hex(s: &[u8], least: usize, most: usize) -> Option<u32>
    ensures { result ≡ read_hex least most s.now }
{
    if s.len() < 1 || s.len() < least || most < s.len() || 8 < s.len() {
        return None;
    }
    value_in(s, 16, 4294967295)
}

// A decimal of one to ten digits, of a value that is at most `limit`.
pub fn read_decimal(s: &[u8], limit: u32) -> Option<u32>
    ensures { result ≡ read_decimal limit s.now }
{
    if s.len() < 1 || 10 < s.len() {
        return None;
    }
    value_in(s, 10, u64::from(limit))
}

// A decimal of one to ten digits, with or without a minus before them, from -2,147,483,648 to
// 2,147,483,647, as a two's complement word.
pub fn read_signed(s: &[u8]) -> Option<u32>
    ensures { result ≡ read_signed s.now }
{
    match s.strip_prefix(b"-") {
        Some(digits) => Some(read_decimal(digits, 2147483648)?.wrapping_neg()),
        None => read_decimal(s, 2147483647),
    }
}

fn value_in(s: &[u8], base: u64, limit: u64) -> Option<u32>
    requires { (length s.now ≤ 10) × (base ≤ 16) × (limit ≤ 4294967295) }
    ensures { result ≡ value_in base limit s.now }
{
    let mut n: u64 = 0;
    for c in s {
        let d = u64::from(hex_digit(*c)?);
        if base <= d {
            return None;
        }
        n = n * base + d;
    }
    if n <= limit { Some(n as u32) } else { None }
}

// The value of a hexadecimal digit.
pub fn hex_digit(c: u8) -> Option<u32>
    ensures { SomeIff result (digit_of c < 16) (digit_of c) }
{
    char::from(c).to_digit(16)
}
