// The quietest run of neighbours in a list of differences: the run whose largest value less its
// smallest is least.
#![tactic(auto)]

ghost use Rattle.std.specs.Prelude.{◌≡◌};
ghost use Rattle.unit.specs.Says.{Says};
ghost use Rattle.quietest.specs.Quietest.{quietest_place, number_given, Handed, run_spread};
ghost use Rattle.refusal.specs.Number.{number_told, value_told};

mod extremes;
mod search;

use refusal::Refusal;

// Where the quietest run of `width` neighbours starts, the earliest among equals; a width of 0 or above the list's length is refused.
pub fn quietest_place(values: &[i32], width: usize) -> Result<usize, Refusal>
    ensures { Says number_told value_told result (quietest_place values.now width) }
{
    if width == 0 {
        return Err(Refusal::Width);
    }
    if values.len() < width {
        return Err(Refusal::Width);
    }
    let found = search::search_all(values, width);
    Ok(found.start)
}

// That run, as a part of the caller's own list, with 0 in `number`; for a refusal its number there, and the empty part from the
// list's start.
// A number beside the part and no Result: a refusal hands a part back too, which `Handed` says.
pub fn quietest<'a>(values: &'a [i32], width: usize, number: &mut u32) -> &'a [i32]
    ensures { Handed (quietest_place values.now width) width values.entry result × (number.new ≡ number_given (quietest_place values.now width)) }
{
    let place = quietest_place(values, width);
    match place {
        Ok(start) => {
            *number = 0;
            &values[start..start + width]
        }
        Err(refusal) => {
            *number = refusal.number();
            &values[..0]
        }
    }
}

// How far the values of a run lie apart: the largest less the smallest, 0 of none.
pub fn run_spread(run: &[i32]) -> u64
    ensures { result ≡ run_spread run.now }
{
    if run.is_empty() {
        return 0;
    }
    extremes::distance(extremes::extremes_of(run, 0, run.len()))
}
