// A group of files, and the names of its files.
ghost use Rattle.std.specs.Prelude.{◌≡◌};
ghost use Rattle.numeral.specs.Place.{put_each};
ghost use Rattle.collection.specs.Group.{name_texts, joined};

use collection::Group;
use item_state::counts::more;

// The group after another file, which belongs to it or not.
pub fn join(g: Group, belongs: bool, name: &[u8], names: &mut [u8]) -> Group
    ensures { record { group = result; names = names.new } ≡ joined belongs name.now (record { group = g; names = names.old }) }
{
    if !belongs {
        return g;
    }
    let end = put_name(names, g.used, name);
    if end == numeral::NO_ROOM {
        return Group {
            count: more(g.count, 1),
            ..g
        };
    }
    Group {
        count: more(g.count, 1),
        named: more(g.named, 1),
        used: end,
    }
}

// A name in a line of its own.
fn put_name(names: &mut [u8], at: usize, name: &[u8]) -> usize
    ensures { record { next = result; bytes = names.new } ≡ put_each names.old at (name_texts name.now) }
{
    let a = numeral::put_text(names, at, b"  ");
    let b = numeral::put_text(names, a, name);
    numeral::put_text(names, b, b"\n")
}
