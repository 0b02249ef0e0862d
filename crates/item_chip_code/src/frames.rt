// The frames of transactions, and their output buffers.
ghost use Rattle.std.specs.Prelude.{◌≡◌};
ghost use Rattle.text.specs.OwnPut.{Puts};
ghost use Rattle.item_line.specs.OwnRead.{as_output};
ghost use Rattle.item_answer.specs.Answer.{frame_size, size_of};
ghost use Rattle.item_chip_code.specs.OwnFrame.{low_word_bytes};

// Words as bytes, the high one first.
pub fn put_words(buf: &mut [u8], at: usize, words: &[u32]) -> usize
    ensures { Puts buf.old at (low_word_bytes words.now) result buf.new }
{
    let mut place = at;
    for word in words {
        place = numeral::put_low_bytes(buf, place, &[*word / 256, *word]);
    }
    place
}

// How long the output buffer of a frame is.
pub fn size_of(output: Option<usize>, frame: &[u8]) -> usize
    ensures { result ≡ size_of (as_output output) frame.now }
{
    match output {
        None => frame_size(frame),
        Some(n) => n,
    }
}

fn frame_size(frame: &[u8]) -> usize
    ensures { result ≡ frame_size frame.now }
{
    match frame {
        [] => 0,
        [op, further @ ..] => {
            if 0xb0 <= *op {
                2 * (further.len() / 2)
            } else if *op == 0x90 {
                2
            } else {
                0
            }
        }
    }
}
