// Parts of buffers, and how full that of the answers may be.
ghost use Rattle.std.specs.Prelude.{◌≡◌, take, drop};

// The first n bytes of a buffer; all of it where it has fewer.
pub fn first_bytes(bytes: &[u8], n: usize) -> &[u8]
    ensures { result.now ≡ take n bytes.now }
{
    first(bytes, n)
}

// The bytes from the place n on; none where it has fewer.
pub fn bytes_from(bytes: &[u8], n: usize) -> &[u8]
    ensures { result.now ≡ drop n bytes.now }
{
    from(bytes, n)
}

// The first n words of a buffer; all of it where it has fewer.
pub fn first_words(words: &[u32], n: usize) -> &[u32]
    ensures { result.now ≡ take n words.now }
{
    first(words, n)
}

// The words from the place n on; none where it has fewer.
pub fn words_from(words: &[u32], n: usize) -> &[u32]
    ensures { result.now ≡ drop n words.now }
{
    from(words, n)
}

fn first<T>(items: &[T], n: usize) -> &[T]
    ensures { result.now ≡ take n items.now }
{
    &items[..n.min(items.len())]
}

fn from<T>(items: &[T], n: usize) -> &[T]
    ensures { result.now ≡ drop n items.now }
{
    &items[n.min(items.len())..]
}

// Answers that are not written yet may use this many places when another is begun. Behind them the
// buffer of 163,840 has room for the longest, a listing of 4,096 lines, and what a line expects.
pub const FULL: usize = 49152;
