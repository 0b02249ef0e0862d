// The lines `listing` and `quietest`, on the record of differences.
ghost use Rattle.std.specs.Prelude.{◌≡◌, ◌++◌, length};
ghost use Rattle.numeral.specs.Ascii.{ascii};
ghost use Rattle.numeral.specs.Print.{decimal};
ghost use Rattle.listing.specs.Listing.{capture_digits, last_above};
ghost use Rattle.quietest.specs.Quietest.{quietest_place};
ghost use Rattle.text.specs.OwnPut.{Puts};
ghost use Rattle.item_answer.specs.Answer.{listing_told, quietest_told};
ghost use Rattle.item_keep_code.specs.OwnAnswered.{AnswersFor, FurtherFor};
ghost use Rattle.item_keep_code.specs.OwnListed.{listed_at, written_in};

use crate::Answered;
use crate::refused::put_refused;
use listing::Width;
use refusal::Refusal;

// The line `listing`: how many lines there are, or its refusal.
pub fn put_listing(buf: &mut [u8], at: usize, kept: &[i32], width: Width, first: u32) -> Answered
    ensures { AnswersFor (λ i. i.recorded ≡ kept.now) buf.old at (listing_told width first) result buf.new }
{
    if last_above(kept, width, first) {
        return put_refused(buf, at, b"listing ", Refusal::LastCapture);
    }
    let a = numeral::put_text(buf, at, b"listing ");
    let end = numeral::put_decimal(buf, a, kept.len() as u64);
    Answered {
        end,
        refused: false,
    }
}

// Whether the last capture has too many digits, which is said of a buffer of any length.
fn last_above(kept: &[i32], width: Width, first: u32) -> bool
    ensures { result ≡ last_above (capture_digits width) first (length kept.now) }
{
    let mut some = [0u8; 1];
    match listing::write_listing_as(width, kept, first, &mut some) {
        Ok(_) => false,
        Err(refusal) => refusal == Refusal::LastCapture,
    }
}

// The lines of a listing; none of one that is refused.
pub fn put_listed(buf: &mut [u8], at: usize, kept: &[i32], width: Width, first: u32) -> usize
    ensures { FurtherFor (λ i. i.recorded ≡ kept.now) buf.old at (listing_told width first) result buf.new }
{
    let places = buf.len();
    let length = written(list(buf, at, kept, width, first));
    if places < at {
        return at;
    }
    // No text is longer than its buffer.
    if places - at < length {
        return at;
    }
    at + length
}

fn list(buf: &mut [u8], at: usize, kept: &[i32], width: Width, first: u32) -> Result<usize, Refusal>
    ensures { record { answer = result; bytes = buf.new } ≡ listed_at (capture_digits width) kept.now first buf.old at }
{
    if at <= buf.len() {
        return listing::write_listing_as(width, kept, first, &mut buf[at..]);
    }
    Err(Refusal::ShortListing)
}

// How many bytes were written.
fn written(listed: Result<usize, Refusal>) -> usize
    ensures { result ≡ written_in listed }
{
    listed.unwrap_or(0)
}

// The line `quietest`.
pub fn put_quietest(buf: &mut [u8], at: usize, kept: &[i32], width: u32) -> Answered
    ensures { AnswersFor (λ i. i.recorded ≡ kept.now) buf.old at (λ i. quietest_told width (quietest_place i.recorded width) i) result buf.new }
{
    let w = width as usize;
    match quietest::quietest_place(kept, w) {
        Ok(start) => {
            let spread = quietest::run_spread(&kept[start..start + w]);
            let end = put_run(buf, at, start as u64, spread);
            Answered {
                end,
                refused: false,
            }
        }
        Err(refusal) => put_refused(buf, at, b"quietest ", refusal),
    }
}

// `quietest START SPREAD`
fn put_run(buf: &mut [u8], at: usize, start: u64, spread: u64) -> usize
    ensures { Puts buf.old at (ascii "quietest " ++ decimal start ++ ascii " " ++ decimal spread) result buf.new }
{
    let a = numeral::put_text(buf, at, b"quietest ");
    let b = numeral::put_decimal(buf, a, start);
    let c = numeral::put_text(buf, b, b" ");
    numeral::put_decimal(buf, c, spread)
}
