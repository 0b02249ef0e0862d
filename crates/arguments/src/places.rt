// The places of the words, by the options that were found.
ghost use Rattle.std.specs.Prelude.{◌-◌, ◌≤◌, ◌≡◌};
ghost use Rattle.arguments.specs.Reading.{asked as Reading·asked, taken, files_place, list_place, first_place};
ghost use Rattle.arguments.specs.Arguments.{is_several};

use crate::{Found, Options, Reading};

// What the words that were read ask for, where there are n arguments, the program's name among them.
#[tactic(auto, unfolding(crate::specs::Reading::asked))]
pub fn asked(r: Reading, n: usize) -> Options
    ensures { result ≡ Reading·asked r n }
{
    let found = r.found;
    let first = first_place(found);
    Options {
        check: found.check,
        total: found.total,
        list: list_place(found),
        first,
        files: n.saturating_sub(first),
    }
}

fn first_place(f: Found) -> usize
    ensures { result ≡ first_place f }
{
    files_place(f) + taken_by(f.listed, 2) + taken_by(f.ended, 1)
}

fn list_place(f: Found) -> usize
    ensures { result ≡ list_place f }
{
    if f.listed { files_place(f) + 1 } else { 0 }
}

// Whether headings and a summary are asked for.
#[tactic(auto, unfolding(crate::specs::Arguments::is_several))]
pub fn is_several(o: Options) -> bool
    ensures { result ≡ is_several o }
{
    o.check || o.list != 0 || 1 < o.files
}

// The place at which `--files` stands, if it is there.
fn files_place(f: Found) -> usize
    ensures { (result ≡ files_place f) × (result ≤ 4) }
{
    1 + taken_by(f.check, 1) + taken_by(f.told, 2)
}

// How many places an option of so many words takes.
fn taken_by(there: bool, words: usize) -> usize
    ensures { (result ≡ taken there words) × (result ≤ words) }
{
    if there { words } else { 0 }
}
