// Lines that are no calls.
ghost use Rattle.numeral.specs.Place.{Put};
ghost use Rattle.numeral.specs.Ascii.{ascii};
ghost use Rattle.wording.specs.Text.{PutEach};
ghost use Rattle.wording.specs.Wording.{why, fault};

use line::Content;

// `line NUMBER: WHY`: of an `at` line that is a call, that its moment has passed, and of `probe` and
// `record`, that there is no room.
pub fn put_fault(out: &mut [u8], at: usize, number: u64, content: Content) -> usize
    ensures { PutEach out.old at (fault number content) result out.new }
{
    let a = numeral::put_text(out, at, b"line ");
    let b = numeral::put_decimal(out, a, number);
    put_why(out, b, content)
}

fn put_why(out: &mut [u8], at: usize, content: Content) -> usize
    ensures { Put out.old at (ascii (why content)) result out.new }
{
    match content {
        Content::TooLong => numeral::put_text(out, at, b": too long\n"),
        Content::UnknownWord => numeral::put_text(out, at, b": unknown word\n"),
        Content::BadNumber => numeral::put_text(out, at, b": bad number\n"),
        Content::At(_) => numeral::put_text(out, at, b": past\n"),
        Content::Probe(_) => numeral::put_text(out, at, b": no room\n"),
        Content::Record(_) => numeral::put_text(out, at, b": no room\n"),
        _ => numeral::put_text(out, at, b": wrong count\n"),
    }
}
