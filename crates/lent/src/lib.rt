// Calls on a model that its caller keeps and lends by reference.
#![tactic(auto)]

ghost use Rattle.device.specs.Call.{Call};
ghost use Rattle.device.specs.Reply.{Replied};

use converter::stretch;
use device::{Answer, Model};
use unit::Ticks;

// The model is moved by n ticks, or left as it was where the answer is a refusal.
pub fn stretch_own(m: &mut Model, n: Ticks) -> Answer
    ensures { Replied m.old (Call.stretch n.0) record { answer = result; model = m.new } }
{
    let r = stretch(*m, n);
    *m = r.model;
    r.answer
}
