// Pairs of words, and the times that they are.
ghost use Rattle.std.specs.Prelude.{◌≡◌};
ghost use Rattle.text.specs.OwnPut.{Puts};
ghost use Rattle.item_page.specs.Registers.{time, signed_time, result_text, port_text};
ghost use Rattle.item_page_form.specs.OwnForm.{Leads, pair_of, pair_then};

pub fn pair_of(v: u32, w: u32) -> u32
    ensures { result ≡ pair_of v w }
{
    v % 65536 * 65536 + w % 65536
}

pub fn put_pair(buf: &mut [u8], at: usize, q: u32) -> usize
    ensures { Leads buf.old at (pair_then q) result buf.new }
{
    let a = numeral::put_hex(buf, at, 4, q / 65536);
    let b = numeral::put_text(buf, a, b" ");
    let c = numeral::put_hex(buf, b, 4, q % 65536);
    numeral::put_text(buf, c, b"  ")
}

pub fn put_result(buf: &mut [u8], at: usize, q: u32) -> usize
    ensures { Puts buf.old at (result_text q) result buf.new }
{
    if q == 4294967295 {
        return numeral::put_text(buf, at, b"no time");
    }
    put_time(buf, at, q)
}

pub fn put_port(buf: &mut [u8], at: usize, q: u32) -> usize
    ensures { Puts buf.old at (port_text q) result buf.new }
{
    if q == 0 {
        return numeral::put_text(buf, at, b"no time: short, or not measured");
    }
    put_result(buf, at, q)
}

fn put_time(buf: &mut [u8], at: usize, q: u32) -> usize
    ensures { Puts buf.old at (time q) result buf.new }
{
    let mut field = [b' '; 32];
    let end = numeral::put_nanoseconds(&mut field, 14, q);
    let start = end - 14;
    let a = numeral::put_text(buf, at, &field[start..end]);
    numeral::put_text(buf, a, b" ns")
}

// By itself beside `put_time`: they share two lines, and a closure that prints would need clauses on the buffer.
pub fn put_signed_time(buf: &mut [u8], at: usize, q: u32) -> usize
    ensures { Puts buf.old at (signed_time q) result buf.new }
{
    let mut field = [b' '; 32];
    let end = numeral::put_signed_nanoseconds(&mut field, 14, q);
    let start = end - 14;
    let a = numeral::put_text(buf, at, &field[start..end]);
    numeral::put_text(buf, a, b" ns")
}
