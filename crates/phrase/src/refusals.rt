// Refusals, by number.
ghost use Rattle.std.specs.Prelude.{◌≡◌};
ghost use Rattle.refusal.specs.Number.{number};
ghost use Rattle.numeral.specs.Ascii.{ascii};
ghost use Rattle.wording.specs.Text.{PutEach};
ghost use Rattle.wording.specs.Wording.{refusal_word, refusal};

use refusal::Refusal;

// ` no NUMBER WORD`
pub fn put_refusal(out: &mut [u8], at: usize, why: Refusal) -> usize
    ensures { PutEach out.old at (refusal (number why)) result out.new }
{
    let a = numeral::put_text(out, at, b" no ");
    let b = numeral::put_decimal(out, a, u64::from(why.number()));
    let c = numeral::put_text(out, b, b" ");
    numeral::put_text(out, c, word(why))
}

// 02 has no words for the last two: the format names the first of them.
fn word(why: Refusal) -> &'static [u8]
    ensures { result.now ≡ ascii (refusal_word (number why)) }
{
    match why {
        Refusal::NotSound => b"record",
        Refusal::NoFrame => b"no frame",
        Refusal::Opcode => b"opcode",
        Refusal::FrameLength => b"frame length",
        Refusal::Address => b"address",
        Refusal::ShortOutput => b"short output",
        Refusal::Busy => b"busy",
        Refusal::Calendar => b"calendar",
        Refusal::NotInitialised => b"not initialised",
        Refusal::SetUp => b"set-up",
        Refusal::NotAwaited => b"not awaited",
        Refusal::WordCount => b"word count",
        Refusal::Span => b"span",
        Refusal::OffTable => b"off the table",
        Refusal::BadTable => b"bad table",
        Refusal::SupplyOff => b"supply off",
        Refusal::FlashAddress => b"flash address",
        Refusal::NotErased => b"not erased",
        Refusal::Width => b"width",
        Refusal::ShortBuffer => b"short buffer",
        Refusal::LastCapture => b"capture number",
        Refusal::ShortListing => b"short output",
    }
}
