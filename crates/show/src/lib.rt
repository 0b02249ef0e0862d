// The registers as a page for a person to read, put into a lent buffer: each by its address, its
// name in the data sheet, its words and what they mean; then the state of the run, and what
// commands would be answered. No line has more than 80 characters.
//
// `page` in specs/Page.antt of the crate `page` has the rows. Each file puts those of one part of the page, and `row`
// what several rows share. What puts a row, or rows, puts their line feeds too.
//
// No public function has a `requires`. Where the buffer has no room for the whole page, the answer
// is numeral::NO_ROOM.
#![tactic(auto)]

mod commands;
mod date;
mod fields;
mod row;
mod run;
mod state;
mod times;

ghost use Rattle.std.specs.Prelude.{◌≡◌};
ghost use Rattle.device.specs.declared.Model.{Model};
ghost use Rattle.device.specs.Question.{regulator_on};
ghost use Rattle.wording.specs.Text.{PutEach};
ghost use Rattle.item_state.specs.Told.{told_value};
ghost use Rattle.page.specs.Row.{lines};
ghost use Rattle.show.specs.Words.{page_words, register_rows};
ghost use Rattle.page.specs.Page.{page_texts};

use device::Model;
use item_state::told::value;

pub fn put_page(buf: &mut [u8], at: usize, m: Model) -> usize
    ensures { PutEach buf.old at (page_texts m) result buf.new }
{
    let words = row::page_words(m);
    let a = put_registers(buf, at, &words, value(question::regulator_on(m)));
    let b = run::put_run(buf, a, m);
    commands::put_commands(buf, b, m)
}

// The rows of all registers, with what is told of the regulator.
fn put_registers(buf: &mut [u8], at: usize, words: &[u32], on: u32) -> usize
    ensures { (m : Model) → words.now ≡ page_words m → on ≡ told_value (regulator_on m) → PutEach buf.old at (lines (register_rows m)) result buf.new }
{
    let a = date::put_clock(buf, at, words);
    let b = fields::put_setup(buf, a, words);
    let c = fields::put_more_setup(buf, b, words);
    let d = times::put_ups(buf, c, words);
    let e = times::put_downs(buf, d, words);
    let f = times::put_differences(buf, e, words);
    let g = times::put_ports(buf, f, words);
    state::put_last(buf, g, words, on)
}
