// Pairs of words, and the times that they are.
ghost use Rattle.std.specs.Prelude.{◌≡◌, ◌++◌};
ghost use Rattle.wording.specs.Text.{PutEach};
ghost use Rattle.form.specs.Form.{pair_of, pair_texts, time_texts, result_texts, port_texts};

pub fn pair_of(v: u32, w: u32) -> u32
    ensures { result ≡ pair_of v w }
{
    v % 65536 * 65536 + w % 65536
}

pub fn put_pair(buf: &mut [u8], at: usize, q: u32) -> usize
    ensures { PutEach buf.old at (pair_texts q) result buf.new }
{
    let a = numeral::put_hex(buf, at, 4, q / 65536);
    let b = numeral::put_text(buf, a, b" ");
    let c = numeral::put_hex(buf, b, 4, q % 65536);
    numeral::put_text(buf, c, b"  ")
}

pub fn put_result(buf: &mut [u8], at: usize, q: u32) -> usize
    ensures { PutEach buf.old at (pair_texts q ++ result_texts q) result buf.new }
{
    let a = put_pair(buf, at, q);
    put_result_time(buf, a, q)
}

pub fn put_port(buf: &mut [u8], at: usize, q: u32) -> usize
    ensures { PutEach buf.old at (pair_texts q ++ port_texts q) result buf.new }
{
    let a = put_pair(buf, at, q);
    if q == 0 {
        return numeral::put_text(buf, a, b"no time: short, or not measured");
    }
    put_result_time(buf, a, q)
}

fn put_result_time(buf: &mut [u8], at: usize, q: u32) -> usize
    ensures { PutEach buf.old at (result_texts q) result buf.new }
{
    if q == 4294967295 {
        return numeral::put_text(buf, at, b"no time");
    }
    put_time(buf, at, q)
}

fn put_time(buf: &mut [u8], at: usize, q: u32) -> usize
    ensures { PutEach buf.old at (time_texts q) result buf.new }
{
    let mut field = [b' '; 32];
    let end = numeral::put_nanoseconds(&mut field, 14, q);
    let start = end - 14;
    let a = numeral::put_text(buf, at, &field[start..end]);
    numeral::put_text(buf, a, b" ns")
}
