// Replays items.
//
//     replay                                               the text on standard input
//     replay FILE                                          one file
//     replay [--check] [--of N] [--files LIST] [FILE ..]   several files, with headings and a summary
//
// `--check` writes only what needs a look. LIST has a name a line. N is how many files there are, for
// the progress of the run. Options stand in this order; `--` ends them. `-`, as a FILE or as LIST, is
// standard input.
#![tactic(auto)]

mod options;

fn main(rt: HostRuntime) {
    let o = options::given(&rt, options::count(&rt));
    if arguments::is_several(o) {
        file_replay::replay_several(&rt, o);
        return;
    }
    if o.files == 0 {
        file_replay::replay_input(&rt);
        return;
    }
    file_replay::replay_argument(&rt, o.first);
}
