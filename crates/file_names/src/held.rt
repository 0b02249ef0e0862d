// The start of a name that comes in byte by byte.
ghost use Rattle.std.specs.Prelude.{◌≡◌};
ghost use Rattle.file_names.specs.Held.{held_bytes, held_count};

// Stores a name's next byte behind the `count` that the buffer holds, where it has room, and answers
// how many it holds then.
#[tactic(auto, unfolding(crate::specs::Held::held_bytes, crate::specs::Held::held_count))]
pub(crate) fn hold_byte(held: &mut [u8], count: usize, b: u8) -> usize
    ensures { (result ≡ held_count held.old count) × (held.new ≡ held_bytes held.old count b) }
{
    if count < held.len() {
        held[count] = b;
        count + 1
    } else {
        count
    }
}
