// Expectations.
ghost use Rattle.wording.specs.Text.{PutEach};
ghost use Rattle.wording.specs.Wording.{head, pair};

// `expect AT ok` or `expect AT differs`, where n words differ.
pub fn put_head(out: &mut [u8], at: usize, a: u32, n: u64) -> usize
    ensures { PutEach out.old at (head a n) result out.new }
{
    let x = numeral::put_text(out, at, b"expect ");
    let y = numeral::put_hex(out, x, 2, a);
    if n == 0 {
        numeral::put_text(out, y, b" ok")
    } else {
        numeral::put_text(out, y, b" differs")
    }
}

// ` AT:HAS/WANTED`, where they differ.
pub fn put_pair(out: &mut [u8], at: usize, address: u32, has: u32, wanted: u32) -> usize
    ensures { PutEach out.old at (pair address has wanted) result out.new }
{
    if has == wanted {
        return at;
    }
    let a = numeral::put_text(out, at, b" ");
    let b = numeral::put_hex(out, a, 2, address);
    let c = numeral::put_text(out, b, b":");
    let d = numeral::put_hex(out, c, 4, has);
    let e = numeral::put_text(out, d, b"/");
    numeral::put_hex(out, e, 4, wanted)
}
