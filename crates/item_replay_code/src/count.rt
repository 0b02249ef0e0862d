// Counts, added up.
ghost use Rattle.std.specs.Prelude.{◌≡◌, ℕ, ◌+◌};
ghost use Rattle.item_answer.specs.OwnView.{tally_of};
ghost use Rattle.item_replay.specs.Replay.{plus};
ghost use Rattle.item_replay_code.specs.OwnState.{Few};

use item_answer::Counts;

// Counts, with those that a line adds.
pub fn add(s: Counts, t: Counts) -> Counts
    requires { Few s 9223372036854775807 × Few t 80 }
    ensures result_value { tally_of result ≡ plus (tally_of s) (tally_of t) }
    ensures few { (n : ℕ) → Few s n → Few result (n + 80) }
{
    Counts {
        calls: s.calls + t.calls,
        refused: s.refused + t.refused,
        unannounced: s.unannounced + t.unannounced,
        bad: s.bad + t.bad,
        expectations: s.expectations + t.expectations,
        differ: s.differ + t.differ,
    }
}
