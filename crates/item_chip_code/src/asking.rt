// The lines `int`, `awaited` and `regs`.
ghost use Rattle.std.specs.Prelude.{◌≡◌, get_or};
ghost use Rattle.refusal.specs.Number.{value_told};
ghost use Rattle.text.specs.OwnPut.{Puts};
ghost use Rattle.item_answer.specs.Answer.{int_text, awaited_text, ask_told};
ghost use Rattle.item_line.specs.OwnRead.{as_ask};
ghost use Rattle.item_chip_code.specs.OwnAnswered.{AnswersBeside, ask_line, ask_further};

use crate::Answered;
use device::Model;
use item_answer::Carried;
use item_line::AskRead;
use item_words_code::register_lines::{put_further_lines, put_register_line};
use refusal::Refusal;
use schedule::is_awaited;

// A question changes nothing. Of `regs` the first line is put.
pub fn ask(c: Carried, a: AskRead, buf: &mut [u8], at: usize) -> Answered
    ensures { AnswersBeside (ask_told (as_ask a)) c buf.old at result buf.new }
{
    let end = put_answer_line(buf, at, c.model, a);
    Answered {
        carried: c,
        end,
        refused: false,
    }
}

fn put_answer_line(buf: &mut [u8], at: usize, m: Model, a: AskRead) -> usize
    ensures { Puts buf.old at (ask_line (as_ask a) m) result buf.new }
{
    match a {
        AskRead::Int => put_interrupt(buf, at, m),
        AskRead::Awaited => put_awaited(buf, at, m),
        AskRead::Regs => put_register_line(buf, at, m, 0xb0),
    }
}

// The lines after the first, which `regs` alone has, each with its line feed.
pub fn put_further(buf: &mut [u8], at: usize, m: Model, a: AskRead) -> usize
    ensures { Puts buf.old at (ask_further (as_ask a) m) result buf.new }
{
    match a {
        AskRead::Int => at,
        AskRead::Awaited => at,
        AskRead::Regs => put_further_lines(buf, at, m),
    }
}

fn put_interrupt(buf: &mut [u8], at: usize, m: Model) -> usize
    ensures { Puts buf.old at (int_text m) result buf.new }
{
    if value(question::interrupt_pending(m)) == 1 {
        return numeral::put_text(buf, at, b"int yes");
    }
    numeral::put_text(buf, at, b"int no")
}

// The number told, or 0.
fn value(told: Result<u32, Refusal>) -> u32
    ensures { result ≡ get_or (value_told told) 0 0 }
{
    told.unwrap_or(0)
}

fn put_awaited(buf: &mut [u8], at: usize, m: Model) -> usize
    ensures { Puts buf.old at (awaited_text m) result buf.new }
{
    let a = numeral::put_text(buf, at, b"awaited ");
    let b = numeral::put_decimal(buf, a, u64::from(is_awaited(m.flight.schedule)));
    let c = numeral::put_text(buf, b, b" ");
    numeral::put_decimal(buf, c, u64::from(is_awaited(m.temperature.schedule)))
}
