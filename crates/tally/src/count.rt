// The tally of a run, file by file.
ghost use Rattle.std.specs.Prelude.{◌≡◌};
ghost use Rattle.collection.specs.Tally.{none, collection, after, agreed as Tally·agreed};

use crate::kind::{is_agreeing, kinds_of};
use crate::member::join;
use collection::{Group, Kinds, Outcome, Tally};
use item_state::counts::more;

// No file yet.
pub fn empty() -> Tally
    ensures { result ≡ none }
{
    let g = Group {
        count: 0,
        named: 0,
        used: 0,
    };
    Tally {
        files: 0,
        agree: 0,
        differ: g,
        unannounced: g,
        bad: g,
        unread: g,
        plain: g,
    }
}

// The tally after another file.
pub fn add(
    t: Tally,
    o: Outcome,
    name: &[u8],
    differ: &mut [u8],
    unannounced: &mut [u8],
    bad: &mut [u8],
    unread: &mut [u8],
    plain: &mut [u8],
) -> Tally
    ensures { collection result differ.new unannounced.new bad.new unread.new plain.new ≡ after o name.now (collection t differ.old unannounced.old bad.old unread.old plain.old) }
{
    let k = kinds_of(o);
    Tally {
        files: more(t.files, 1),
        agree: agreed(t.agree, k),
        differ: join(t.differ, k.differ, name, differ),
        unannounced: join(t.unannounced, k.unannounced, name, unannounced),
        bad: join(t.bad, k.bad, name, bad),
        unread: join(t.unread, k.unread, name, unread),
        plain: join(t.plain, k.plain, name, plain),
    }
}

fn agreed(n: usize, k: Kinds) -> usize
    ensures { result ≡ Tally·agreed n k }
{
    if is_agreeing(k) { more(n, 1) } else { n }
}
