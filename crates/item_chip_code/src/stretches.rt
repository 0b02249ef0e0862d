// The line `stretch`.
ghost use Rattle.std.specs.Prelude.{true, ◌++◌, ◌≡◌, ◌+◌, ◌<◌};
ghost use Rattle.numeral.specs.Ascii.{ascii};
ghost use Rattle.numeral.specs.Print.{decimal};
ghost use Rattle.device.specs.declared.Answer.TheVariants.{Stretched};
ghost use Rattle.device.specs.Model.{is_sound};
ghost use Rattle.text.specs.OwnPut.{Puts};
ghost use Rattle.item_answer.specs.Words.{reports_to};
ghost use Rattle.item_chip_code.specs.OwnAnswered.{AnswersBeside, stretch_line};

use crate::Answered;
use crate::replies::tell;
use device::{Answer, StretchReport};
use item_answer::Carried;
use item_words_code::reports::put_reports_to;
use unit::Ticks;

// One stretch of n ticks. One that is refused moves no moment.
pub fn stretch(c: Carried, n: Ticks, buf: &mut [u8], at: usize) -> Answered
    requires { (is_sound c.model ≡ true) × (c.moment + n.0 < 18446744073709551616) }
    ensures { AnswersBeside (stretch_line n.0) c buf.old at result buf.new }
{
    let reply = sound_calls::sound_stretch(c.model, n);
    match reply.answer {
        Answer::Stretched(flight, temperature) => {
            let end = put_stretched(buf, at, n, flight, temperature);
            let moment = c.moment + unit::wide(n.0);
            Answered {
                carried: Carried {
                    model: reply.model,
                    moment,
                    ..c
                },
                end,
                refused: false,
            }
        }
        _ => tell(c, reply.answer, b"stretch ", buf, at),
    }
}

fn put_stretched(
    buf: &mut [u8],
    at: usize,
    n: Ticks,
    flight: StretchReport,
    temperature: StretchReport,
) -> usize
    ensures { Puts buf.old at (ascii "stretch " ++ decimal n.0 ++ reports_to n.0 (Stretched flight temperature)) result buf.new }
{
    let a = numeral::put_text(buf, at, b"stretch ");
    let b = numeral::put_decimal(buf, a, unit::wide(n.0));
    put_reports_to(buf, b, n, flight, temperature)
}
