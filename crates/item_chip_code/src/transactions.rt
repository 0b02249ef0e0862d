// The lines `bus` and `set`.
ghost use Rattle.std.specs.Prelude.{true, ◌≡◌, take};
ghost use Rattle.device.specs.Model.{is_sound};
ghost use Rattle.item_line.specs.declared.CallRead.{CallRead};
ghost use Rattle.item_line.specs.OwnBounds.{CallBound};
ghost use Rattle.item_line.specs.OwnRead.{as_output, as_call};
ghost use Rattle.item_answer.specs.Answer.{bus_told, set_told};
ghost use Rattle.item_chip_code.specs.OwnAnswered.{Answers, Exchanges};

use crate::frames::{put_words, size_of};
use crate::replies::{moment_after, tell};
use crate::{Answered, Exchanged};
use item_answer::Carried;
use item_words_code::answer::put_output;
use text_code::{first_bytes, first_words};

// One transaction of a frame, on the item's flash.
pub fn exchange(c: Carried, frame: &[u8], out: &mut [u8], flash: &mut [u8]) -> Exchanged
    requires { is_sound c.model ≡ true }
    ensures { Exchanges c frame.now out.old flash.old result out.new flash.new }
{
    let reply = bus::sound_transaction(c.model, frame, out, flash);
    let moment = moment_after(reply.answer, c.moment);
    Exchanged {
        carried: Carried {
            model: reply.model,
            moment,
            ..c
        },
        answer: reply.answer,
    }
}

// A transaction of the first n numbers.
pub fn bus(
    c: Carried,
    output: Option<usize>,
    n: usize,
    numbers: &[u32],
    flash: &mut [u8],
    buf: &mut [u8],
    at: usize,
) -> Answered
    requires { (is_sound c.model ≡ true) × CallBound (as_call numbers.now (CallRead.Bus output n)) }
    ensures { Answers (bus_told (as_output output) (take n numbers.now)) c flash.old buf.old at result flash.new buf.new }
{
    let mut bytes = [0u8; 200];
    let k = numeral::put_low_bytes(&mut bytes, 0, first_words(numbers, n));
    let frame = first_bytes(&bytes, k);
    let size = size_of(output, frame);
    let mut buffer = [238u8; 200];
    let out = &mut buffer[..size];
    let e = exchange(c, frame, out, flash);
    let told = tell(e.carried, e.answer, b"bus ", buf, at);
    let end = put_output(buf, told.end, out);
    Answered { end, ..told }
}

// A write of the first n numbers, so many words, from the address a on.
pub fn set(
    c: Carried,
    a: u32,
    n: usize,
    numbers: &[u32],
    flash: &mut [u8],
    buf: &mut [u8],
    at: usize,
) -> Answered
    requires { (is_sound c.model ≡ true) × CallBound (as_call numbers.now (CallRead.Set a n)) }
    ensures { Answers (set_told a (take n numbers.now)) c flash.old buf.old at result flash.new buf.new }
{
    let mut bytes = [0u8; 200];
    let first = numeral::put_low_bytes(&mut bytes, 0, &[a]);
    let k = put_words(&mut bytes, first, first_words(numbers, n));
    let mut none = [0u8; 0];
    let e = exchange(c, first_bytes(&bytes, k), &mut none, flash);
    tell(e.carried, e.answer, b"set ", buf, at)
}
