// The reply to a transaction: its answer, and the model after it.
ghost use Rattle.std.specs.Prelude.{◌≡◌};
ghost use Rattle.device.specs.Reply.{refuse};
ghost use Rattle.device.specs.Parts.{accept};

use device::{Answer, Model, Reply};
use refusal::Refusal;

pub fn refuse(m: Model, refusal: Refusal) -> Reply
    ensures { result ≡ refuse refusal m }
{
    Reply {
        answer: Answer::Refused(refusal),
        model: m,
    }
}

pub fn accept(m: Model, flight: bool, temperature: bool) -> Reply
    ensures { result ≡ accept flight temperature m }
{
    Reply {
        answer: Answer::Accepted(flight, temperature),
        model: m,
    }
}
