// What a file is, by its outcome.
ghost use Rattle.std.specs.Prelude.{◌≡◌};
ghost use Rattle.collection.specs.Kind.{kinds, agreeing};

use collection::{Kinds, Outcome};

#[tactic(auto, unfolding(collection::specs::Kind::kinds))]
pub fn kinds_of(o: Outcome) -> Kinds
    ensures { result ≡ kinds o }
{
    if o.whole {
        Kinds {
            differ: 0 < o.differ,
            unannounced: 0 < o.unannounced,
            bad: 0 < o.bad,
            unread: false,
            plain: o.expected == 0,
        }
    } else {
        Kinds {
            differ: false,
            unannounced: false,
            bad: false,
            unread: true,
            plain: false,
        }
    }
}

#[tactic(auto, unfolding(collection::specs::Kind::agreeing))]
pub fn is_agreeing(k: Kinds) -> bool
    ensures { result ≡ agreeing k }
{
    !(k.differ || k.unannounced || k.bad || k.unread || k.plain)
}
