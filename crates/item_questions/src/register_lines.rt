// The lines `regs`, `int` and `awaited`.
ghost use Rattle.std.specs.Prelude.{◌≡◌};
ghost use Rattle.wording.specs.Text.{PutEach};
ghost use Rattle.item_state.specs.Told.{told_value, read_word};
ghost use Rattle.item_questions.specs.Answers.{row_words, row, registers, interrupt, awaited};

use device::Model;
use item_state::told::value;

// The word that a read of one register would give.
pub fn word(m: Model, a: u32) -> u32
    ensures { result ≡ read_word m a }
{
    value(converter::peek(m, a))
}

// Ten lines of eight registers.
pub fn put_registers(answers: &mut [u8], at: usize, m: Model) -> usize
    ensures { PutEach answers.old at (registers m) result answers.new }
{
    let mut place = at;
    for i in 0..10 {
        place = put_row(answers, place, m, 176 + 8 * i);
    }
    place
}

fn put_row(answers: &mut [u8], at: usize, m: Model, a: u32) -> usize
    ensures { PutEach answers.old at (row m a) result answers.new }
{
    let words = row_words(m, a);
    phrase::question::put_row(answers, at, a, &words)
}

// The words of the eight registers from a on.
fn row_words(m: Model, a: u32) -> [u32; 8]
    ensures { result ≡ row_words m a 8 }
{
    let mut words = [0u32; 8];
    let mut address = a;
    for i in 0..8 {
        words[i] = word(m, address);
        address = address.wrapping_add(1);
    }
    words
}

pub fn put_interrupt(answers: &mut [u8], at: usize, m: Model) -> usize
    ensures { PutEach answers.old at (interrupt m) result answers.new }
{
    let told = value(converter::interrupt_pending(m));
    phrase::question::put_interrupt(answers, at, told)
}

pub fn put_awaited(answers: &mut [u8], at: usize, m: Model) -> usize
    ensures { PutEach answers.old at (awaited m) result answers.new }
{
    let flight = value(converter::flight_awaited(m));
    let temperature = value(converter::temperature_awaited(m));
    phrase::question::put_awaited(answers, at, flight, temperature)
}
