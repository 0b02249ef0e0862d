// The heading of a file, and the summary that closes a run.
ghost use Rattle.std.specs.Prelude.{◌≡◌, [], ◌∷◌};
ghost use Rattle.numeral.specs.Print.{decimal};
ghost use Rattle.wording.specs.Text.{PutEach};
ghost use Rattle.collection.specs.Tally.{collection};
ghost use Rattle.collection.specs.Summary.{heading_texts, head_texts, more_texts, group_texts, groups_texts, first_counts, last_counts, summary_texts};

use collection::{Group, Tally};
use item_state::output::first_bytes;

// Puts a file's heading into the places from `at` on.
pub fn put_heading(out: &mut [u8], at: usize, name: &[u8]) -> usize
    ensures { PutEach out.old at (heading_texts name.now) result out.new }
{
    let a = numeral::put_text(out, at, b"== ");
    let b = numeral::put_text(out, a, name);
    numeral::put_text(out, b, b" ==\n")
}

// Puts the summary of a tally into the places from 0 on.
pub fn put_summary(
    out: &mut [u8],
    t: Tally,
    differ: &[u8],
    unannounced: &[u8],
    bad: &[u8],
    unread: &[u8],
    plain: &[u8],
) -> usize
    ensures { PutEach out.old 0 (summary_texts (collection t differ.now unannounced.now bad.now unread.now plain.now)) result out.new }
{
    let a = put_head(out, 0, t.files);
    let b = put_groups(out, a, t, differ, unannounced, bad, unread, plain);
    let c = put_first_counts(out, b, t);
    put_last_counts(out, c, t)
}

fn put_head(out: &mut [u8], at: usize, files: usize) -> usize
    ensures { PutEach out.old at (head_texts files) result out.new }
{
    let a = numeral::put_text(out, at, b"== ");
    put_count(out, a, files, b" files ==\n")
}

// A count, and what it counts.
fn put_count(out: &mut [u8], at: usize, n: usize, what: &[u8]) -> usize
    ensures { PutEach out.old at (decimal n ∷ what.now ∷ []) result out.new }
{
    let a = numeral::put_decimal(out, at, n as u64);
    numeral::put_text(out, a, what)
}

fn put_groups(
    out: &mut [u8],
    at: usize,
    t: Tally,
    differ: &[u8],
    unannounced: &[u8],
    bad: &[u8],
    unread: &[u8],
    plain: &[u8],
) -> usize
    ensures { PutEach out.old at (groups_texts (collection t differ.now unannounced.now bad.now unread.now plain.now)) result out.new }
{
    let a = put_group(out, at, b"expectations differ", t.differ, differ);
    let b = put_group(out, a, b"unannounced refusals", t.unannounced, unannounced);
    let c = put_group(out, b, b"bad lines", t.bad, bad);
    let d = put_group(out, c, b"cannot be read", t.unread, unread);
    put_group(out, d, b"no expectation", t.plain, plain)
}

fn put_group(out: &mut [u8], at: usize, what: &[u8], g: Group, names: &[u8]) -> usize
    ensures { PutEach out.old at (group_texts what.now (record { group = g; names = names.now })) result out.new }
{
    if g.count == 0 {
        return at;
    }
    let a = numeral::put_text(out, at, what);
    let b = numeral::put_text(out, a, b": ");
    let c = put_count(out, b, g.count, b"\n");
    let d = numeral::put_text(out, c, first_bytes(names, g.used));
    put_more(out, d, g)
}

fn put_more(out: &mut [u8], at: usize, g: Group) -> usize
    ensures { PutEach out.old at (more_texts g) result out.new }
{
    if g.named < g.count {
        let a = numeral::put_text(out, at, b"  and ");
        put_count(out, a, g.count - g.named, b" more\n")
    } else {
        at
    }
}

// `end N files, N agree, N differ, N unannounced, `
fn put_first_counts(out: &mut [u8], at: usize, t: Tally) -> usize
    ensures { PutEach out.old at (first_counts t) result out.new }
{
    let a = numeral::put_text(out, at, b"end ");
    let b = put_count(out, a, t.files, b" files, ");
    let c = put_count(out, b, t.agree, b" agree, ");
    let d = put_count(out, c, t.differ.count, b" differ, ");
    put_count(out, d, t.unannounced.count, b" unannounced, ")
}

// `N bad lines, N cannot be read, N no expectation`
fn put_last_counts(out: &mut [u8], at: usize, t: Tally) -> usize
    ensures { PutEach out.old at (last_counts t) result out.new }
{
    let a = put_count(out, at, t.bad.count, b" bad lines, ");
    let b = put_count(out, a, t.unread.count, b" cannot be read, ");
    put_count(out, b, t.plain.count, b" no expectation\n")
}
