// The lines `flight` and `temperature`.
ghost use Rattle.std.specs.Prelude.{◌≡◌, take, drop};
ghost use Rattle.item_calls.specs.Lines.{flight_line, temperature_line};

use device::Model;
use item_state::counts::{USED, count_call};
use item_state::output::{first_words, words_from};

// The up words are the first numbers, and the down words stand behind them.
pub fn flight(
    m: Model,
    numbers: &[u32],
    up: usize,
    down: usize,
    counts: &mut [usize; 22],
    answers: &mut [u8],
) -> Model
    ensures { record { model = result; log = record { counts = counts.exit.now; answers = answers.new } } ≡ flight_line (take up numbers.now) (take down (drop up numbers.now)) m record { counts = counts.entry.now; answers = answers.old } }
{
    let ups = first_words(numbers, up);
    let downs = first_words(words_from(numbers, up), down);
    let reply = converter::flight_delivery(m, ups, downs);
    let answer = reply.answer;
    let used = phrase::heads::put_flight(answers, counts[USED], answer);
    count_call(counts, answer, used);
    reply.model
}

pub fn temperature(
    m: Model,
    numbers: &[u32],
    n: usize,
    counts: &mut [usize; 22],
    answers: &mut [u8],
) -> Model
    ensures { record { model = result; log = record { counts = counts.exit.now; answers = answers.new } } ≡ temperature_line (take n numbers.now) m record { counts = counts.entry.now; answers = answers.old } }
{
    let reply = converter::temperature_delivery(m, first_words(numbers, n));
    let answer = reply.answer;
    let used = phrase::heads::put_temperature(answers, counts[USED], answer);
    count_call(counts, answer, used);
    reply.model
}
