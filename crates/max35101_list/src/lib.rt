// A list of calls for C, Rust and Python: a part of the static library, and an archive of its own. In it each call of the model is
// called from one place, so that the compiler puts it into the list's loop, where no model is copied.
#![tactic(auto)]

ghost use Rattle.max35101_list.specs.ListRun.{Ran};

use list_run::run;
use model::state::is_sound;
use outcome::keep;
use snapshot::load;

// A list of calls, one after the other, with the model loaded and stored once. How many of them were done.
#[unsafe(no_mangle)]
pub extern "C" fn max35101_run(
    model: &mut [u8],
    calls: &[u32],
    frames: &[u8],
    hits: &[u32],
    out: &mut [u8],
    flash: &mut [u8],
    answers: &mut [u32],
) -> usize
    ensures { Ran model.old calls.now frames.now hits.now out.old flash.old answers.old result model.new out.new flash.new answers.new }
{
    let m = load(model);
    let p = run(m, calls, frames, hits, out, flash, answers);
    let place = p.place;
    if is_sound(m) {
        keep(p.model, model);
        return place.calls;
    }
    place.calls
}
