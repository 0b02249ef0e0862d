// A model's set-up as the bus frames that bring a fresh model to it.
#![tactic(auto)]

ghost use Rattle.setup_frames.specs.Frames.{Written};
ghost use Rattle.setup_frames.specs.Sending.{Sent};

use device::Model;
use model::state::is_sound;

mod put;
mod run;

pub use put::Counts;
use refusal::Refusal;

// The most that a set-up needs: bytes, and frames.
const MOST_BYTES: usize = 33;

const MOST_FRAMES: usize = 8;

// Writes the frames one after the other into the bytes, and the length of each into the lengths.
pub fn setup_frames(m: Model, bytes: &mut [u8], lengths: &mut [u32]) -> Result<Counts, Refusal>
    ensures { Written m bytes.old lengths.old result bytes.new lengths.new × Sent m.setup result bytes.new lengths.new }
{
    if is_sound(m) {
        if bytes.len() < MOST_BYTES {
            return Err(Refusal::ShortBuffer);
        }
        if lengths.len() < MOST_FRAMES {
            return Err(Refusal::ShortBuffer);
        }
        let setup = m.setup;
        return Ok(put::put_frames(setup, bytes, lengths));
    }
    Err(Refusal::NotSound)
}
