// Numbers as text: hexadecimal and decimal numbers are read from the bytes of a word; texts,
// numbers and times are put into a buffer that the caller lends.
//
// No public function has a `requires`. What a `put_` function writes goes into the places from `at`
// on, and the answer is the place after it. Where there is no room, nothing is written and the
// answer is NO_ROOM, at which nothing else has room: a caller looks at the last answer alone.
#![tactic(auto)]

mod print;
mod read;

pub use print::{
    NO_ROOM, put_decimal, put_hex, put_hex_bytes, put_low_bytes, put_nanoseconds, put_signed,
    put_signed_nanoseconds, put_text, put_thousandths,
};
pub use read::{hex_digit, read_decimal, read_hex, read_signed};
