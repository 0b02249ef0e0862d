// The code of `text`: the words of a text, one after the other, compared and put; and parts of lists.
#![tactic(auto)]

mod compare;
mod put;
mod slices;
mod words;

pub use compare::{begin_with, fits, same};
pub use put::put_spaced;
pub use slices::{
    bytes_from, first_bytes, first_items, first_words, items_from, part_of, words_from,
};
pub use words::{Words, count_words, each_word, is_blank, next_word, skip_blanks};
