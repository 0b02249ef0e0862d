// The lines `flight` and `temperature`.
ghost use Rattle.std.specs.Prelude.{true, ◌≡◌, take, drop};
ghost use Rattle.device.specs.Model.{is_sound};
ghost use Rattle.device.specs.Call.{Call};
ghost use Rattle.item_answer.specs.Answer.{delivery_told};
ghost use Rattle.item_chip_code.specs.OwnAnswered.{AnswersBeside, Tells};

use crate::Answered;
use crate::replies::tell;
use device::Reply;
use item_answer::Carried;
use text_code::{first_words, words_from};

// The up words are the first numbers, and the down words stand after them.
pub fn flight(
    c: Carried,
    up: usize,
    down: usize,
    numbers: &[u32],
    buf: &mut [u8],
    at: usize,
) -> Answered
    requires { is_sound c.model ≡ true }
    ensures { AnswersBeside (delivery_told "flight" (Call.flight (take up numbers.now) (take down (drop up numbers.now)))) c buf.old at result buf.new }
{
    let ups = first_words(numbers, up);
    let downs = first_words(words_from(numbers, up), down);
    let reply = sound_calls::sound_flight_delivery(c.model, ups, downs);
    deliver(c, reply, b"flight ", buf, at)
}

// The first n numbers.
pub fn temperature(c: Carried, n: usize, numbers: &[u32], buf: &mut [u8], at: usize) -> Answered
    requires { is_sound c.model ≡ true }
    ensures { AnswersBeside (delivery_told "temperature" (Call.temperature (take n numbers.now))) c buf.old at result buf.new }
{
    let reply = sound_calls::sound_temperature_delivery(c.model, first_words(numbers, n));
    deliver(c, reply, b"temperature ", buf, at)
}

// A delivery leaves the moment as it is.
fn deliver(c: Carried, reply: Reply, keyword: &[u8], buf: &mut [u8], at: usize) -> Answered
    ensures { Tells record { model = reply.model; moment = c.moment; recorded = c.recorded; probes = c.probes } reply.answer keyword.now buf.old at result buf.new }
{
    let carried = Carried {
        model: reply.model,
        ..c
    };
    tell(carried, reply.answer, keyword, buf, at)
}
