// A replay: the lines of an item's text, answered one after the other on the model.
//
// The model goes into each function and comes back by value. The rest that is kept from line to line
// stands in buffers that the caller lends: the counts, the numbers of a line, the user flash, the
// record, the probe table, the names of the file and the item, and the answers that are not written
// yet. Answers are written when what was read is answered, or when the buffer may not hold another
// one. A function that branches takes few of the buffers, since each of them makes its proof longer.
#![tactic(auto)]

mod ends;
mod feed;
mod flush;
mod input;
mod lines;
mod unread;

pub use feed::replay;
pub use unread::{Errors, tell_unread};
