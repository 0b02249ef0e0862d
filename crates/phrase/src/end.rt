// The last line of a replay.
ghost use Rattle.wording.specs.Text.{PutEach};
ghost use Rattle.wording.specs.Wording.{counted, calls as Wording·calls, faults};

// `end C calls, R refused, U unannounced, `
pub fn put_calls(out: &mut [u8], at: usize, calls: u64, refused: u64, unannounced: u64) -> usize
    ensures { PutEach out.old at (Wording·calls calls refused unannounced) result out.new }
{
    let a = numeral::put_text(out, at, b"end ");
    let b = put_count(out, a, calls, b" calls, ");
    let c = put_count(out, b, refused, b" refused, ");
    put_count(out, c, unannounced, b" unannounced, ")
}

// `B bad lines, E expectations, X differ`
pub fn put_faults(out: &mut [u8], at: usize, bad: u64, expected: u64, differ: u64) -> usize
    ensures { PutEach out.old at (faults bad expected differ) result out.new }
{
    let a = put_count(out, at, bad, b" bad lines, ");
    let b = put_count(out, a, expected, b" expectations, ");
    put_count(out, b, differ, b" differ\n")
}

// A count, and what it counts.
pub fn put_count(out: &mut [u8], at: usize, n: u64, what: &[u8]) -> usize
    ensures { PutEach out.old at (counted n what.now) result out.new }
{
    let a = numeral::put_decimal(out, at, n);
    numeral::put_text(out, a, what)
}
