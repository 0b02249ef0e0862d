// The code of `collection`: what each file of a run comes to, their counts, headings and the summary.
#![tactic(auto)]

mod count;
mod kind;
mod member;
mod summary;

pub use count::{add, empty};
pub use summary::{put_heading, put_summary};
