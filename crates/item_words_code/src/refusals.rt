// Refusals, by number.
ghost use Rattle.std.specs.Prelude.{◌≡◌, get_or};
ghost use Rattle.refusal.specs.Number.{number};
ghost use Rattle.numeral.specs.Ascii.{ascii};
ghost use Rattle.text.specs.OwnPut.{Puts};
ghost use Rattle.item_page.specs.Row.{refusal_words, refusal};

use refusal::Refusal;

// `no NUMBER WORD`
pub fn put_refusal(buf: &mut [u8], at: usize, why: Refusal) -> usize
    ensures { Puts buf.old at (refusal (number why)) result buf.new }
{
    let a = numeral::put_text(buf, at, b"no ");
    let b = numeral::put_decimal(buf, a, u64::from(why.number()));
    let c = numeral::put_text(buf, b, b" ");
    numeral::put_text(buf, c, word(why))
}

// The word of a refusal; the last has none.
fn word(why: Refusal) -> &'static [u8]
    ensures { result.now ≡ ascii (get_or refusal_words (number why) "") }
{
    match why {
        Refusal::NotSound => b"record",
        Refusal::NoFrame => b"no frame",
        Refusal::Opcode => b"opcode",
        Refusal::FrameLength => b"frame length",
        Refusal::Address => b"address",
        Refusal::ShortOutput => b"short output",
        Refusal::Busy => b"busy",
        Refusal::Calendar => b"calendar",
        Refusal::NotInitialised => b"not initialised",
        Refusal::SetUp => b"set-up",
        Refusal::NotAwaited => b"not awaited",
        Refusal::WordCount => b"word count",
        Refusal::Span => b"span",
        Refusal::OffTable => b"off the table",
        Refusal::BadTable => b"bad table",
        Refusal::SupplyOff => b"supply off",
        Refusal::FlashAddress => b"flash address",
        Refusal::NotErased => b"not erased",
        Refusal::Width => b"width",
        Refusal::ShortBuffer => b"short buffer",
        Refusal::LastCapture => b"capture number",
        Refusal::ShortListing => b"",
    }
}
