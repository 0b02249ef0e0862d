// The calls that move a model on, for C, Rust and Python, on numbers and slices alone: a part of the static library.
//
// A model is 233 bytes (`snapshot`). Each call returns the number of a refusal, or `ACCEPTED` (`outcome`), puts its answer into the
// first places of a lent buffer, as many as it has, and changes nothing where it refuses.
#![tactic(auto)]

ghost use Rattle.std.specs.Prelude.{◌≡◌};
ghost use Rattle.device.specs.Call.{Call};
ghost use Rattle.device.specs.Reply.{reply, output, memory};
ghost use Rattle.layout.specs.Layout.{loaded};
ghost use Rattle.layout.specs.Code.{Settled};
ghost use Rattle.max35101_calls.specs.Fresh.{fresh_bytes, fresh_code};

use converter::{flight_delivery, fresh, stretch, temperature_delivery, tick, transaction};
use outcome::{ACCEPTED, settle};
use snapshot::{load, store};
use unit::Ticks;

// A fresh model. Number 0 for a buffer of another length than 233.
#[unsafe(no_mangle)]
pub extern "C" fn max35101_fresh(model: &mut [u8]) -> u32
    ensures { (result ≡ fresh_code model.old) × (model.new ≡ fresh_bytes model.old) }
{
    if model.len() == 233 {
        store(fresh(), model);
        return ACCEPTED;
    }
    0
}

// One bus transaction. The answer's words: whether it started a flight measurement, and a temperature one.
#[unsafe(no_mangle)]
pub extern "C" fn max35101_transaction(
    model: &mut [u8],
    frame: &[u8],
    out: &mut [u8],
    flash: &mut [u8],
    answer: &mut [u32],
) -> u32
    ensures { Settled (reply (loaded model.old) (Call.transaction frame.now out.old flash.old)) model.old answer.old result model.new answer.new × (out.new ≡ output (loaded model.old) (Call.transaction frame.now out.old flash.old)) × (flash.new ≡ memory (loaded model.old) (Call.transaction frame.now out.old flash.old)) }
{
    let m = load(model);
    let r = transaction(m, frame, out, flash);
    settle(r, model, answer)
}

// One period of the 32,768 Hz clock. The answer's words: flight started, flight failed, temperature started, temperature failed.
#[unsafe(no_mangle)]
pub extern "C" fn max35101_tick(model: &mut [u8], answer: &mut [u32]) -> u32
    ensures { Settled (reply (loaded model.old) Call.tick) model.old answer.old result model.new answer.new }
{
    let m = load(model);
    let r = tick(m);
    settle(r, model, answer)
}

// n such periods at once, at most 16,384. The answer's words name the ticks, from 1 on, of the same four; 0 for none.
#[unsafe(no_mangle)]
pub extern "C" fn max35101_stretch(model: &mut [u8], n: u32, answer: &mut [u32]) -> u32
    ensures { Settled (reply (loaded model.old) (Call.stretch n)) model.old answer.old result model.new answer.new }
{
    let ticks = Ticks(n);
    let m = load(model);
    let r = stretch(m, ticks);
    settle(r, model, answer)
}

// The hit words of an awaited flight measurement. There is no answer but what is returned: `ACCEPTED` for good, or `FAILED`.
#[unsafe(no_mangle)]
pub extern "C" fn max35101_flight_delivery(
    model: &mut [u8],
    up: &[u32],
    down: &[u32],
    answer: &mut [u32],
) -> u32
    ensures { Settled (reply (loaded model.old) (Call.flight up.now down.now)) model.old answer.old result model.new answer.new }
{
    let m = load(model);
    let r = flight_delivery(m, up, down);
    settle(r, model, answer)
}

// The words of an awaited temperature measurement, T1 to T4. `ACCEPTED` for good, or `FAILED`.
#[unsafe(no_mangle)]
pub extern "C" fn max35101_temperature_delivery(
    model: &mut [u8],
    words: &[u32],
    answer: &mut [u32],
) -> u32
    ensures { Settled (reply (loaded model.old) (Call.temperature words.now)) model.old answer.old result model.new answer.new }
{
    let m = load(model);
    let r = temperature_delivery(m, words);
    settle(r, model, answer)
}
