// The line `item`.
ghost use Rattle.std.specs.Prelude.{◌≡◌, ◌∷◌, length};
ghost use Rattle.numeral.specs.Ascii.{ascii};
ghost use Rattle.device.specs.Model.{fresh_model};
ghost use Rattle.text.specs.Text.{ended, spaced, spaced_each, words};
ghost use Rattle.text.specs.OwnPart.{part};
ghost use Rattle.text.specs.OwnPut.{Puts};
ghost use Rattle.item_keep_code.specs.OwnFresh.{Fresh};

use device::Model;
use item_answer::Carried;
use text::Span;

// `item` and the words of its name, with the line feed.
pub fn put_item(buf: &mut [u8], at: usize, text: &[u8], name: Span) -> usize
    ensures { Puts buf.old at (ended (spaced (ascii "item" ∷ words (part text.now name)))) result buf.new }
{
    let a = numeral::put_text(buf, at, b"item");
    let b = put_name(buf, a, text_code::part_of(text, name));
    numeral::put_text(buf, b, b"\n")
}

// A blank before each word.
fn put_name(buf: &mut [u8], at: usize, name: &[u8]) -> usize
    ensures { Puts buf.old at (spaced_each (words name.now)) result buf.new }
{
    if text_code::count_words(name) == 0 {
        return at;
    }
    let a = numeral::put_text(buf, at, b" ");
    text_code::put_spaced(buf, a, name)
}

// An item starts on a fresh model, an erased user flash, an empty record and an empty probe table.
pub fn fresh_item(flash: &mut [u8]) -> Carried
    requires { length flash.old ≡ 8192 }
    ensures { Fresh result flash.new }
{
    flash.fill(0xff);
    Carried {
        model: fresh(),
        moment: 0,
        recorded: 0,
        probes: 0,
    }
}

fn fresh() -> Model
    ensures { result ≡ fresh_model }
{
    model::state::fresh_with(status::por_bit())
}
