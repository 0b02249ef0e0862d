// Texts, numbers and times, put into a lent buffer.
ghost use Rattle.std.specs.Prelude.{◌≡◌, ◌+◌, ◌*◌, ◌≤◌, ◌<◌, leb, length};
ghost use Rattle.numeral.specs.Digit.{glyph as Digit·glyph, digits};
ghost use Rattle.numeral.specs.Place.{overwrite, Put};
ghost use Rattle.numeral.specs.Print.{low_bytes, hex_bytes, decimal_width, decimal, four_decimals, nanoseconds, signed_nanoseconds, signed_decimal, pointed, thousandths};

// The answer where there is no room.
pub const NO_ROOM: usize = usize::MAX;

// The bytes of a text.
pub fn put_text(buf: &mut [u8], at: usize, text: &[u8]) -> usize
    ensures { Put buf.old at text.now result buf.new }
{
    if has_room(buf.len(), at, text.len()) {
        let end = at + text.len();
        buf[at..end].copy_from_slice(text);
        end
    } else {
        NO_ROOM
    }
}

// The low byte of each word.
pub fn put_low_bytes(buf: &mut [u8], at: usize, words: &[u32]) -> usize
    ensures { Put buf.old at (low_bytes words.now) result buf.new }
{
    if has_room(buf.len(), at, words.len()) {
        fill_low_bytes(buf, at, words);
        at + words.len()
    } else {
        NO_ROOM
    }
}

// The last `count` hexadecimal digits of v, in capitals.
pub fn put_hex(buf: &mut [u8], at: usize, count: usize, v: u32) -> usize
    ensures { Put buf.old at (digits 16 count v) result buf.new }
{
    put_digits(buf, at, 16, count, u64::from(v))
}

// Two hexadecimal digits for each byte, in capitals.
pub fn put_hex_bytes(buf: &mut [u8], at: usize, bytes: &[u8]) -> usize
    ensures { Put buf.old at (hex_bytes bytes.now) result buf.new }
{
    if at <= buf.len() && bytes.len() <= (buf.len() - at) / 2 {
        fill_hex_bytes(buf, at, bytes);
        at + 2 * bytes.len()
    } else {
        NO_ROOM
    }
}

fn fill_hex_bytes(buf: &mut [u8], at: usize, bytes: &[u8])
    requires { at + 2 * length bytes.now ≤ length buf.old }
    ensures { buf.new ≡ overwrite buf.old at (hex_bytes bytes.now) }
{
    for (i, b) in bytes.iter().enumerate() {
        buf[at + 2 * i] = glyph(u64::from(*b / 16));
        buf[at + 2 * i + 1] = glyph(u64::from(*b % 16));
    }
}

// A decimal without leading zeros.
pub fn put_decimal(buf: &mut [u8], at: usize, v: u64) -> usize
    ensures { Put buf.old at (decimal v) result buf.new }
{
    put_digits(buf, at, 10, decimal_width(v), v)
}

// A two's complement word in decimal.
pub fn put_signed(buf: &mut [u8], at: usize, word: u32) -> usize
    ensures { Put buf.old at (signed_decimal word) result buf.new }
{
    if word < 2147483648 {
        return put_decimal(buf, at, u64::from(word));
    }
    if buf.len() <= at {
        return NO_ROOM;
    }
    let next = put_decimal(buf, at + 1, 4294967296 - u64::from(word));
    if next != NO_ROOM {
        buf[at] = b'-';
    }
    next
}

// An unsigned word of quanta, in nanoseconds.
pub fn put_nanoseconds(buf: &mut [u8], at: usize, word: u32) -> usize
    ensures { Put buf.old at (nanoseconds word) result buf.new }
{
    put_four_decimals(buf, at, (u64::from(word) * 2500000 + 32768) / 65536)
}

// A two's complement word of quanta, in nanoseconds.
pub fn put_signed_nanoseconds(buf: &mut [u8], at: usize, word: u32) -> usize
    ensures { Put buf.old at (signed_nanoseconds word) result buf.new }
{
    if word < 2147483648 {
        return put_nanoseconds(buf, at, word);
    }
    if buf.len() <= at {
        return NO_ROOM;
    }
    let next = put_four_decimals(
        buf,
        at + 1,
        ((4294967296 - u64::from(word)) * 2500000 + 32768) / 65536,
    );
    if next != NO_ROOM {
        buf[at] = b'-';
    }
    next
}

// A number of ten-thousandths, with four decimals.
fn put_four_decimals(buf: &mut [u8], at: usize, n: u64) -> usize
    ensures { Put buf.old at (four_decimals n) result buf.new }
{
    put_pointed(buf, at, n / 10000, 4, n % 10000)
}

// A number of thousandths, with three decimals.
pub fn put_thousandths(buf: &mut [u8], at: usize, n: u32) -> usize
    ensures { Put buf.old at (thousandths n) result buf.new }
{
    put_pointed(buf, at, u64::from(n) / 1000, 3, u64::from(n) % 1000)
}

// A decimal, a point and the last `places` digits of another.
fn put_pointed(buf: &mut [u8], at: usize, whole: u64, places: usize, rest: u64) -> usize
    requires { places ≤ 4 }
    ensures { Put buf.old at (pointed whole places rest) result buf.new }
{
    let width = decimal_width(whole);
    let count = width + 1 + places;
    if has_room(buf.len(), at, count) {
        let point = at + width;
        fill_digits(buf, at, 10, width, whole);
        buf[point] = b'.';
        fill_digits(buf, point + 1, 10, places, rest);
        at + count
    } else {
        NO_ROOM
    }
}

fn put_digits(buf: &mut [u8], at: usize, base: u64, count: usize, v: u64) -> usize
    requires { (0 < base) × (base ≤ 16) }
    ensures { Put buf.old at (digits base count v) result buf.new }
{
    if has_room(buf.len(), at, count) {
        fill_digits(buf, at, base, count, v);
        at + count
    } else {
        NO_ROOM
    }
}

// The places from `at` on have room for `count` bytes.
fn has_room(len: usize, at: usize, count: usize) -> bool
    ensures { result ≡ leb (at + count) len }
{
    at <= len && count <= len - at
}

fn fill_low_bytes(buf: &mut [u8], at: usize, words: &[u32])
    requires { at + length words.now ≤ length buf.old }
    ensures { buf.new ≡ overwrite buf.old at (low_bytes words.now) }
{
    for (i, word) in words.iter().enumerate() {
        buf[at + i] = (*word % 256) as u8;
    }
}

// From the last digit to the first.
fn fill_digits(buf: &mut [u8], at: usize, base: u64, count: usize, v: u64)
    requires { (0 < base) × (base ≤ 16) × (at + count ≤ length buf.old) }
    ensures { buf.new ≡ overwrite buf.old at (digits base count v) }
{
    let mut rest = v;
    for i in (0..count).rev() {
        buf[at + i] = glyph(rest % base);
        rest /= base;
    }
}

fn glyph(d: u64) -> u8
    requires { d < 16 }
    ensures { result ≡ Digit·glyph d }
{
    if d < 10 {
        b'0' + d as u8
    } else {
        b'A' - 10 + d as u8
    }
}

// How many digits v has in decimal.
fn decimal_width(v: u64) -> usize
    ensures { (result ≡ decimal_width v) × (result ≤ 20) }
{
    match v.checked_ilog10() {
        Some(power) => power as usize + 1,
        None => 1,
    }
}
