// The chip's user flash: 8,192 bytes, words high byte first, blocks of 256 bytes.
#![tactic(auto)]

ghost use Rattle.std.specs.Prelude.{◌≡◌, ◌+◌, ◌<◌, ◌≤◌, length};
ghost use Rattle.flash.specs.Flash.{flash_word, flash_written, flash_erased, first_word, address_refused, erase_refused, not_erased};

// The word at an address.
pub fn read_word(mem: &[u8], a: usize) -> u32
    requires { a + 1 < length mem.now }
    ensures { (result ≡ flash_word mem.now a) × (result < 65536) }
{
    u32::from(u16::from_be_bytes([mem[a], mem[a + 1]]))
}

// Fills the first two bytes with a word.
pub fn put_word(out: &mut [u8], w: u32)
    requires { 2 ≤ length out.old }
    ensures { out.new ≡ first_word out.old w }
{
    let [_, _, high, low] = w.to_be_bytes();
    out[0] = high;
    out[1] = low;
}

// Puts a word at an address.
pub fn write_word(mem: &mut [u8], a: usize, w: u32)
    requires { (a + 1 < length mem.old) × (w < 65536) }
    ensures { mem.new ≡ flash_written mem.old a w }
{
    put_word(&mut mem[a..a + 2], w);
}

// Sets the block that holds an address to FFh.
pub fn erase_block(mem: &mut [u8], a: usize)
    requires { (a < 8192) × (length mem.old ≡ 8192) }
    ensures { mem.new ≡ flash_erased mem.old a }
{
    let start = a / 256 * 256;
    mem[start..start + 256].fill(0xff);
}

// Number 16 for a read or a write, given the memory's length.
pub fn address_refused(size: usize, a: u32) -> bool
    ensures { result ≡ address_refused size a }
{
    size != 8192 || a % 2 == 1 || 0x1fff < a
}

// Number 16 for an erase.
pub fn erase_refused(size: usize, a: u32) -> bool
    ensures { result ≡ erase_refused size a }
{
    size != 8192 || 0x1fff < a
}

// Number 17, at an address that number 16 does not refuse.
pub fn not_erased(mem: &[u8], a: usize) -> bool
    requires { a + 1 < length mem.now }
    ensures { result ≡ not_erased mem.now a }
{
    read_word(mem, a) != 0xffff
}
