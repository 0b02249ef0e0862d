// Runs of words that differ from a fresh model's.
ghost use Rattle.std.specs.Prelude.{◌≡◌, ◌-◌, ◌+◌, ◌≤◌, ◌<◌};
ghost use Rattle.setup_frames.specs.Frames.{differs, differs_before, starts, run_length};

// The registers 34h to 43h.
pub const WORDS: usize = 16;

fn differs(s: [u16; WORDS], i: usize) -> bool
    requires { i < 16 }
    ensures { result ≡ differs s i }
{
    s[i] != setup::factory()[i]
}

fn differs_before(s: [u16; WORDS], i: usize) -> bool
    requires { i < 16 }
    ensures { result ≡ differs_before s i }
{
    i != 0 && differs(s, i - 1)
}

pub fn starts(s: [u16; WORDS], i: usize) -> bool
    requires { i < 16 }
    ensures { result ≡ starts s i }
{
    !differs_before(s, i) && differs(s, i)
}

// How many words differ from i on, up to the first that does not.
pub fn run_length(s: [u16; WORDS], i: usize) -> usize
    requires { i ≤ 16 }
    ensures { (result ≡ run_length s i (16 - i)) × (i + result ≤ 16) }
{
    for n in 0..WORDS - i {
        if !differs(s, i + n) {
            return n;
        }
    }
    WORDS - i
}
