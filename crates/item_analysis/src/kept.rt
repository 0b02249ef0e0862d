// Values kept in a buffer, one behind the other.
ghost use Rattle.std.specs.Prelude.{◌≡◌};
ghost use Rattle.item_analysis.specs.Kept.{kept_one};

// Puts a value behind the first `used`, where there is room, and answers how many there are then.
#[tactic(auto, unfolding(crate::specs::Kept::kept_one))]
pub fn put<T: Copy>(values: &mut [T], used: usize, value: T) -> usize
    ensures { record { values = values.new; used = result } ≡ kept_one value record { values = values.old; used = used } }
{
    if used < values.len() {
        values[used] = value;
        used + 1
    } else {
        used
    }
}
