// The words that the page tells of.
ghost use Rattle.std.specs.Prelude.{◌≡◌, ◌≤◌};
ghost use Rattle.device.specs.Registers.{register_word};
ghost use Rattle.item_page_code.specs.OwnWords.{page_words};

use device::Model;

pub fn word(m: Model, a: u32) -> u32
    requires { (176 ≤ a) × (a ≤ 255) }
    ensures { result ≡ register_word m a }
{
    registers::read::register_word(m, a)
}

// The words of B0h to FFh.
pub fn page_words(m: Model) -> [u32; 80]
    ensures { result ≡ page_words m }
{
    let mut words = [0u32; 80];
    for i in 0..80 {
        words[i] = word(m, 0xb0 + i as u32);
    }
    words
}
