// The first word of a line.
ghost use Rattle.std.specs.Prelude.{◌≡◌};
ghost use Rattle.line.specs.Line.{keyword_of, other_keyword, later_keyword, last_keyword};

use crate::words::same;
use line::Keyword;

pub(crate) fn keyword(word: &[u8]) -> Keyword
    ensures { result ≡ keyword_of word.now }
{
    if same(word, b"item") {
        return Keyword::Item;
    }
    if same(word, b"bus") {
        return Keyword::Bus;
    }
    if same(word, b"tick") {
        return Keyword::Tick;
    }
    if same(word, b"flight") {
        return Keyword::Flight;
    }
    if same(word, b"temperature") {
        return Keyword::Temperature;
    }
    other_keyword(word)
}

fn other_keyword(word: &[u8]) -> Keyword
    ensures { result ≡ other_keyword word.now }
{
    if same(word, b"int") {
        return Keyword::Int;
    }
    if same(word, b"awaited") {
        return Keyword::Awaited;
    }
    if same(word, b"regs") {
        return Keyword::Regs;
    }
    if same(word, b"expect") {
        return Keyword::Expect;
    }
    if same(word, b"show") {
        return Keyword::Show;
    }
    later_keyword(word)
}

fn later_keyword(word: &[u8]) -> Keyword
    ensures { result ≡ later_keyword word.now }
{
    if same(word, b"set") {
        return Keyword::Set;
    }
    if same(word, b"at") {
        return Keyword::At;
    }
    if same(word, b"stretch") {
        return Keyword::Stretch;
    }
    if same(word, b"frames") {
        return Keyword::Frames;
    }
    if same(word, b"probe") {
        return Keyword::Probe;
    }
    last_keyword(word)
}

fn last_keyword(word: &[u8]) -> Keyword
    ensures { result ≡ last_keyword word.now }
{
    if same(word, b"degrees") {
        return Keyword::Degrees;
    }
    if same(word, b"record") {
        return Keyword::Record;
    }
    if same(word, b"listing") {
        return Keyword::Listing;
    }
    if same(word, b"quietest") {
        return Keyword::Quietest;
    }
    Keyword::Unknown
}
