// Several files: each is replayed, and a summary closes the run.
ghost use Rattle.std.specs.Prelude.{◌≤◌, ◌≡◌, length, take};
ghost use Rattle.collection.specs.Tally.{none, collection};
ghost use Rattle.file_replay.specs.Files.{not_read, Came, Gathered, Summed, Ran};
ghost use Rattle.file_replay.specs.Sources.{number_of};

use crate::names::{Source, SourceState};
use crate::opened::{Opened, OpenedBy, input_beside};
use crate::single::{not_read, replay_file};
use crate::system::System;
use crate::{names, progress};
use arguments::Options;
use collection::{Outcome, Tally};
use item_state::output::first_bytes;

// Each group has this much room for its names. The summary has room for all names, and for 20 lines
// more.
pub fn replay_several<R: System>(rt: &R, o: Options)
    ensures { Ran o }
{
    let mut out = [0u8; 331776];
    let mut differ = [0u8; 65536];
    let mut unannounced = [0u8; 65536];
    let mut bad = [0u8; 65536];
    let mut unread = [0u8; 65536];
    let mut plain = [0u8; 65536];
    let end = replay_each(
        rt,
        o,
        &mut out,
        &mut differ,
        &mut unannounced,
        &mut bad,
        &mut unread,
        &mut plain,
    );
    let _ = rt.write_all(first_bytes(&out, end));
}

// Replays the files, and puts the summary of them all into the places from 0 on.
fn replay_each<R: System>(
    rt: &R,
    o: Options,
    out: &mut [u8],
    differ: &mut [u8],
    unannounced: &mut [u8],
    bad: &mut [u8],
    unread: &mut [u8],
    plain: &mut [u8],
) -> usize
    requires { (331776 ≤ length out.old) × (length differ.old ≤ 65536) × (length unannounced.old ≤ 65536) × (length bad.old ≤ 65536) × (length unread.old ≤ 65536) × (length plain.old ≤ 65536) }
    ensures { Summed o (collection none differ.old unannounced.old bad.old unread.old plain.old) (take result out.new) }
{
    let tally = gather(rt, o, differ, unannounced, bad, unread, plain);
    tally::put_summary(out, tally, differ, unannounced, bad, unread, plain)
}

// Replays file after file, and hands on what each came to.
//
// Nothing says that a list of names ends, so the turns are counted, to a number that no run comes to.
fn gather<R: System>(
    rt: &R,
    o: Options,
    differ: &mut [u8],
    unannounced: &mut [u8],
    bad: &mut [u8],
    unread: &mut [u8],
    plain: &mut [u8],
) -> Tally
    ensures { Gathered o (collection none differ.old unannounced.old bad.old unread.old plain.old) (collection result differ.new unannounced.new bad.new unread.new plain.new) }
{
    let mut part = [0u8; 65536];
    let mut path = [0u8; 4096];
    let mut list = Opened::Closed;
    let mut tally = tally::empty();
    let mut shown = progress::begin(rt, o.total);
    let mut source = names::first(rt, o, &mut list, &mut part, &mut path);
    for _ in 0..u64::MAX {
        if !names::is_there(source) {
            break;
        }
        let outcome = replay_named(rt, source, &list, &path, o.check);
        tally = tally::add(
            tally,
            outcome,
            first_bytes(&path, source.length),
            differ,
            unannounced,
            bad,
            unread,
            plain,
        );
        shown = progress::tell(rt, shown, tally.files);
        source = names::next(rt, source, &mut list, &mut part, &mut path);
    }
    progress::end(rt, shown);
    tally
}

// The file of the name that was found.
fn replay_named<R: System>(
    rt: &R,
    source: Source,
    list: &OpenedBy<R>,
    path: &[u8],
    check: bool,
) -> Outcome
    requires { length path.now ≤ 4096 }
    ensures { Came (take source.length path.now) check result × (number_of source.state ≡ 2 → result ≡ not_read) }
{
    if source.state == SourceState::Broken {
        return not_read();
    }
    let input = input_beside(rt, list);
    replay_file(rt, input, first_bytes(path, source.length), check, !check)
}
