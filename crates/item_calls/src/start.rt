// The line `item`.
ghost use Rattle.std.specs.Prelude.{◌≡◌, length, replicate};
ghost use Rattle.device.specs.Model.{fresh_model};
ghost use Rattle.item_calls.specs.Lines.{item_counts};

use device::Model;
use item_state::counts::{MOMENT, PROBES, RECORD};

// An item starts on a fresh model, an erased user flash, an empty record and an empty probe table.
pub fn start(counts: &mut [usize; 22], mem: &mut [u8]) -> Model
    ensures { (result ≡ fresh_model) × (counts.new ≡ item_counts counts.old) × (mem.new ≡ replicate (length mem.old) 255) }
{
    counts[MOMENT] = 0;
    counts[RECORD] = 0;
    counts[PROBES] = 0;
    mem.fill(255);
    converter::fresh()
}
