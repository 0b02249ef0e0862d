// Lines that are no calls.
ghost use Rattle.text.specs.Text.{ended};
ghost use Rattle.text.specs.OwnPut.{Puts};
ghost use Rattle.item_line.specs.OwnRead.{as_fault};
ghost use Rattle.item_answer.specs.Words.{fault_line};

use item_line::FaultRead;
use item_words_code::fault::put_fault;

// The number of the line, and why it is none.
pub fn put_bad(buf: &mut [u8], at: usize, number: u64, text: &[u8], fault: FaultRead) -> usize
    ensures { Puts buf.old at (ended (fault_line number (as_fault text.now fault))) result buf.new }
{
    let a = put_fault(buf, at, number, text, fault);
    numeral::put_text(buf, a, b"\n")
}
