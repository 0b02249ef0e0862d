// The names of a list of files that is read in pieces.
#![tactic(auto)]

mod held;

ghost use Rattle.std.specs.Prelude.{◌≡◌, cond, eqb, drop};
ghost use Rattle.file_names.specs.Held.{held_bytes, held_count};
ghost use Rattle.file_names.specs.Names.{ends_name, NameTaken};

use crate::held::hold_byte;

// How far the bytes are used, how many bytes of a name are held, and whether the name is whole.
#[derive(Clone, Copy)]
pub struct Taken {
    pub at: usize,
    pub length: usize,
    pub whole: bool,
}

// Adds bytes, from a place on and up to a line feed, to the first ones of a name, as many as there is
// room for. Empty lines are passed over.
pub fn take_name(part: &[u8], at: usize, path: &mut [u8], length: usize) -> Taken
    ensures { NameTaken (drop at part.now) path.old length path.new result.whole (drop result.at part.now) result.length }
{
    let mut n = length;
    for i in at..part.len() {
        let b = part[i];
        if ends_name(b, n) {
            return Taken {
                at: i + 1,
                length: n,
                whole: true,
            };
        }
        n = add_byte(path, n, b);
    }
    Taken {
        at: part.len(),
        length: n,
        whole: false,
    }
}

#[tactic(auto, unfolding(crate::specs::Names::ends_name))]
fn ends_name(b: u8, n: usize) -> bool
    ensures { result ≡ ends_name b n }
{
    b == b'\n' && 0 < n
}

fn add_byte(path: &mut [u8], n: usize, b: u8) -> usize
    ensures { (result ≡ cond (eqb b 10) n (held_count path.old n)) × (path.new ≡ cond (eqb b 10) path.old (held_bytes path.old n b)) }
{
    if b == b'\n' {
        return n;
    }
    hold_byte(path, n, b)
}
