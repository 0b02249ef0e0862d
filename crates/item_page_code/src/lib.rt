// The page of `show`, put into a lent buffer: each file puts the rows of one part of it, with their line feeds.
// Where the page has no room nothing is said of what stands there.
#![tactic(auto)]

mod commands;
mod date;
mod fields;
mod run;
mod state;
mod times;
mod words;

ghost use Rattle.std.specs.Prelude.{◌≡◌, length};
ghost use Rattle.text.specs.Text.{ended_each};
ghost use Rattle.text.specs.OwnPut.{Puts};
ghost use Rattle.item_page.specs.Page.{page};
ghost use Rattle.item_page_code.specs.OwnWords.{rows_by};

use device::Model;

pub fn put_page(buf: &mut [u8], at: usize, m: Model) -> usize
    ensures { Puts buf.old at (ended_each (page m)) result buf.new }
{
    let words = words::page_words(m);
    let a = put_registers(buf, at, &words, m.regulator);
    let b = run::put_run(buf, a, m);
    commands::put_commands(buf, b, m)
}

fn put_registers(buf: &mut [u8], at: usize, words: &[u32], on: bool) -> usize
    requires { length words.now ≡ 80 }
    ensures { Puts buf.old at (ended_each (rows_by words.now on)) result buf.new }
{
    let a = date::put_clock(buf, at, words);
    let b = fields::put_setup(buf, a, words);
    let c = times::put_flight(buf, b, words);
    let d = times::put_temperatures(buf, c, words);
    let e = state::put_status(buf, d, words[0xfe - 0xb0]);
    state::put_last(buf, e, on, words[0xff - 0xb0])
}
