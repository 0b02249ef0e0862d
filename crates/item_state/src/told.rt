// What a model tells of itself.
ghost use Rattle.std.specs.Prelude.{◌≡◌};
ghost use Rattle.item_state.specs.Told.{told_value};

use refusal::Refusal;

// The number told, or 0.
pub fn value(told: Result<u32, Refusal>) -> u32
    ensures { result ≡ told_value told }
{
    told.unwrap_or(0)
}
