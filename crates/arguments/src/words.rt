// The words, one by one.
ghost use Rattle.std.specs.Prelude.{◌≡◌};
ghost use Rattle.line.specs.Words.{same_bytes};
ghost use Rattle.arguments.specs.Arguments.{number_of};
ghost use Rattle.arguments.specs.Reading.{begun, is_open, next_read, check_read, of_read, total_read, files_read, name_read, dashes_read};

use crate::{Found, Reading, Stage};

// Before the first word.
pub fn begin() -> Reading
    ensures { result ≡ begun }
{
    let found = Found {
        check: false,
        told: false,
        total: 0,
        listed: false,
        ended: false,
    };
    Reading {
        stage: Stage::Check,
        found,
    }
}

// Another word is needed.
pub fn is_open(r: Reading) -> bool
    ensures { result ≡ is_open r }
{
    !matches!(r.stage, Stage::Closed)
}

// Reads the next word.
pub fn next(r: Reading, word: &[u8]) -> Reading
    ensures { result ≡ next_read r word.now }
{
    let found = r.found;
    match r.stage {
        Stage::Check => read_check(found, word),
        Stage::Of => read_of(found, word),
        Stage::Total => read_total(found, word),
        Stage::Files => read_files(found, word),
        Stage::Name => read_name(found),
        Stage::Dashes => read_dashes(found, word),
        Stage::Closed => r,
    }
}

// Each word by itself: its text, its field, what may follow and what reads that differ, and no two share all but one.
#[tactic(auto, unfolding(crate::specs::Reading::check_read, numeral::specs::Ascii::ascii))]
fn read_check(f: Found, word: &[u8]) -> Reading
    ensures { result ≡ check_read f word.now }
{
    if is_word(word, b"--check") {
        return Reading {
            stage: Stage::Of,
            found: Found { check: true, ..f },
        };
    }
    read_of(f, word)
}

#[tactic(auto, unfolding(crate::specs::Reading::of_read, numeral::specs::Ascii::ascii))]
fn read_of(f: Found, word: &[u8]) -> Reading
    ensures { result ≡ of_read f word.now }
{
    if is_word(word, b"--of") {
        return Reading {
            stage: Stage::Total,
            found: Found { told: true, ..f },
        };
    }
    read_files(f, word)
}

fn read_total(f: Found, word: &[u8]) -> Reading
    ensures { result ≡ total_read f word.now }
{
    Reading {
        stage: Stage::Files,
        found: Found {
            total: number_of(word),
            ..f
        },
    }
}

#[tactic(auto, unfolding(crate::specs::Reading::files_read, numeral::specs::Ascii::ascii))]
fn read_files(f: Found, word: &[u8]) -> Reading
    ensures { result ≡ files_read f word.now }
{
    if is_word(word, b"--files") {
        return Reading {
            stage: Stage::Name,
            found: Found { listed: true, ..f },
        };
    }
    read_dashes(f, word)
}

fn read_name(f: Found) -> Reading
    ensures { result ≡ name_read f }
{
    Reading {
        stage: Stage::Dashes,
        found: f,
    }
}

#[tactic(auto, unfolding(numeral::specs::Ascii::ascii))]
fn read_dashes(f: Found, word: &[u8]) -> Reading
    ensures { result ≡ dashes_read f word.now }
{
    Reading {
        stage: Stage::Closed,
        found: Found {
            ended: is_word(word, b"--"),
            ..f
        },
    }
}

fn is_word(word: &[u8], text: &[u8]) -> bool
    ensures { result ≡ same_bytes word.now text.now }
{
    word == text
}

// The number that a word is, or 0.
fn number_of(word: &[u8]) -> u32
    ensures { result ≡ number_of word.now }
{
    numeral::read_decimal(word, 4294967295).unwrap_or(0)
}
