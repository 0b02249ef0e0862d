// The lines `listing` and `quietest`.
ghost use Rattle.std.specs.Prelude.{◌≡◌, take};
ghost use Rattle.listing.specs.Listing.{capture_digits};
ghost use Rattle.quietest.specs.Quietest.{quietest_place};
ghost use Rattle.item_analysis.specs.Lines.{width_of, listed_at, listing_told, listing_line, quietest_told, quietest_line};

use item_state::counts::{RECORD, USED, count, more};
use listing::Width;
use refusal::Refusal;

// The first n differences; all where there are fewer.
fn first_of(kept: &[i32], n: usize) -> &[i32]
    ensures { result.now ≡ take n kept.now }
{
    if n <= kept.len() { &kept[..n] } else { kept }
}

pub fn listing(old: bool, first: u32, kept: &[i32], counts: &mut [usize; 22], answers: &mut [u8])
    ensures { record { counts = counts.exit.now; answers = answers.new } ≡ listing_line old first kept.now record { counts = counts.entry.now; answers = answers.old } }
{
    let n = counts[RECORD];
    let at = phrase::heads::put_listing(answers, counts[USED], n as u64);
    let listed = lines(old, first, first_of(kept, n), answers, at);
    tell_listed(listed, at, counts, answers);
}

fn tell_listed(
    listed: Result<usize, Refusal>,
    at: usize,
    counts: &mut [usize; 22],
    answers: &mut [u8],
)
    ensures { record { counts = counts.exit.now; answers = answers.new } ≡ listing_told listed at record { counts = counts.entry.now; answers = answers.old } }
{
    match listed {
        Ok(n) => count(counts, 0, more(at, n)),
        Err(refusal) => {
            let used = phrase::heads::put_listing_refused(answers, counts[USED], refusal);
            count(counts, 1, used);
        }
    }
}

// The lines, put into the places from `at` on.
fn lines(
    old: bool,
    first: u32,
    kept: &[i32],
    answers: &mut [u8],
    at: usize,
) -> Result<usize, Refusal>
    ensures { record { answer = result; bytes = answers.new } ≡ listed_at (capture_digits (width_of old)) kept.now first answers.old at }
{
    if at <= answers.len() {
        return listing::write_listing_as(width_of(old), kept, first, &mut answers[at..]);
    }
    Err(Refusal::ShortListing)
}

fn width_of(old: bool) -> Width
    ensures { result ≡ width_of old }
{
    if old { Width::Two } else { Width::Eight }
}

pub fn quietest(width: usize, kept: &[i32], counts: &mut [usize; 22], answers: &mut [u8])
    ensures { record { counts = counts.exit.now; answers = answers.new } ≡ quietest_line width kept.now record { counts = counts.entry.now; answers = answers.old } }
{
    let values = first_of(kept, counts[RECORD]);
    let place = quietest::quietest_place(values, width);
    tell_quietest(place, values, width, counts, answers);
}

fn tell_quietest(
    place: Result<usize, Refusal>,
    values: &[i32],
    width: usize,
    counts: &mut [usize; 22],
    answers: &mut [u8],
)
    requires { place ≡ quietest_place values.now width }
    ensures { record { counts = counts.exit.now; answers = answers.new } ≡ quietest_told place values.now width record { counts = counts.entry.now; answers = answers.old } }
{
    match place {
        Ok(start) => {
            let mut number = 0u32;
            let spread = quietest::run_spread(quietest::quietest(values, width, &mut number));
            let used = phrase::kept::put_quietest(answers, counts[USED], start as u64, spread);
            count(counts, 0, used);
        }
        Err(refusal) => {
            let used = phrase::heads::put_quietest_refused(answers, counts[USED], refusal);
            count(counts, 1, used);
        }
    }
}
