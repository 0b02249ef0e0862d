// What code keeps of an item is within its bounds, by the types of the lent lists. The functions change nothing and return nothing: they are
// called for what they ensure. That a difference has 32 bits is known of one that is read, so each is read once.
#![tactic(auto)]

ghost use Rattle.std.specs.Prelude.{ℕ, ◌≤◌, true, ◌≡◌, take};
ghost use Rattle.device.specs.Model.{is_sound};
ghost use Rattle.item_line.specs.OwnBounds.{Quanta};
ghost use Rattle.item_answer.specs.OwnView.{item_of};
ghost use Rattle.item_answer.specs.OwnKept.{Kept};

use item_answer::Carried;

// Each difference has 32 bits.
pub fn within_types(recorded: &[i32])
    ensures { (n : ℕ) → Quanta (take n recorded.now) }
{
    for difference in recorded {
        let _read = *difference;
    }
}

// An item of a sound model, a record of at most 4,096 differences and a probe table of at most 1,024 entries.
pub fn carried_fits(c: Carried, flash: &[u8], recorded: &[i32], probes: &[u32])
    ensures { is_sound c.model ≡ true → c.recorded ≤ 4096 → c.probes ≤ 1024
        → Kept (item_of c flash.now recorded.now probes.now) }
{
    within_types(recorded);
}
