// Parts of lists. A part that reaches past the end is what there is of it.
ghost use Rattle.std.specs.Prelude.{◌≡◌, take, drop};
ghost use Rattle.text.specs.OwnPart.{part};

use text::Span;

pub fn first_items<T>(items: &[T], n: usize) -> &[T]
    ensures { result.now ≡ take n items.now }
{
    &items[..n.min(items.len())]
}

pub fn items_from<T>(items: &[T], n: usize) -> &[T]
    ensures { result.now ≡ drop n items.now }
{
    &items[n.min(items.len())..]
}

pub fn first_bytes(bytes: &[u8], n: usize) -> &[u8]
    ensures { result.now ≡ take n bytes.now }
{
    first_items(bytes, n)
}

pub fn bytes_from(bytes: &[u8], n: usize) -> &[u8]
    ensures { result.now ≡ drop n bytes.now }
{
    items_from(bytes, n)
}

pub fn first_words(words: &[u32], n: usize) -> &[u32]
    ensures { result.now ≡ take n words.now }
{
    first_items(words, n)
}

pub fn words_from(words: &[u32], n: usize) -> &[u32]
    ensures { result.now ≡ drop n words.now }
{
    items_from(words, n)
}

// The part of a text between two places.
pub fn part_of(s: &[u8], span: Span) -> &[u8]
    ensures { result.now ≡ part s.now span }
{
    first_bytes(
        bytes_from(s, span.start),
        span.end.saturating_sub(span.start),
    )
}
