// The lines that move the model: items, transactions, ticks, stretches and deliveries.
#![tactic(auto)]

mod deliveries;
mod start;
mod ticks;
mod transaction;

ghost use Rattle.std.specs.Prelude.{◌≡◌};
ghost use Rattle.line.specs.Line.{Bounded};
ghost use Rattle.item_calls.specs.Lines.{timed_line, call_line};

use device::Model;
use line::Content;
use unit::Ticks;

// Answers such a line, and hands back the model after it. Any other line leaves the model as it is.
pub fn answer_call(
    m: Model,
    content: Content,
    numbers: &[u32],
    counts: &mut [usize; 22],
    mem: &mut [u8],
    answers: &mut [u8],
) -> Model
    requires { Bounded content }
    ensures { record { model = result; flash = mem.new; log = record { counts = counts.exit.now; answers = answers.new } } ≡ call_line content numbers.now record { model = m; flash = mem.old; log = record { counts = counts.entry.now; answers = answers.old } } }
{
    match content {
        Content::Tick(n) => ticks::tick(m, Ticks(n), counts, answers),
        Content::Bus { bytes } => transaction::bus(m, numbers, bytes, counts, mem, answers),
        Content::BusOut { out, bytes } => {
            transaction::bus_out(m, numbers, bytes, out as usize, counts, mem, answers)
        }
        Content::Set { address, words } => {
            transaction::set(m, address, numbers, words, counts, mem, answers)
        }
        Content::Item => start::start(counts, mem),
        _ => answer_time(m, content, numbers, counts, answers),
    }
}

// The lines on time: moments, stretches, and what is delivered as time goes by.
fn answer_time(
    m: Model,
    content: Content,
    numbers: &[u32],
    counts: &mut [usize; 22],
    answers: &mut [u8],
) -> Model
    ensures { record { model = result; log = record { counts = counts.exit.now; answers = answers.new } } ≡ timed_line content numbers.now m record { counts = counts.entry.now; answers = answers.old } }
{
    match content {
        Content::At(t) => ticks::at(m, Ticks(t), counts, answers),
        Content::Stretch(n) => ticks::stretch(m, Ticks(n), counts, answers),
        Content::Flight { up, down } => deliveries::flight(m, numbers, up, down, counts, answers),
        Content::Temperature(n) => deliveries::temperature(m, numbers, n, counts, answers),
        _ => m,
    }
}
