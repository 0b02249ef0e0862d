// The lines `bus` and `set`.
ghost use Rattle.std.specs.Prelude.{◌≡◌, ◌≤◌, length, take};
ghost use Rattle.numeral.specs.Print.{low_bytes};
ghost use Rattle.wording.specs.Text.{PutEach};
ghost use Rattle.item_calls.specs.Buffer.{buffer_size};
ghost use Rattle.item_calls.specs.Lines.{start_moment, bus_line, set_line, write_bytes};

use device::{Answer, Model};
use item_state::counts::{MOMENT, USED, count_call};
use item_state::output::{first_bytes, first_words};

// With the output buffer that the bytes ask for.
pub fn bus(
    m: Model,
    numbers: &[u32],
    bytes: usize,
    counts: &mut [usize; 22],
    mem: &mut [u8],
    answers: &mut [u8],
) -> Model
    requires { bytes ≤ 200 }
    ensures { record { model = result; flash = mem.new; log = record { counts = counts.exit.now; answers = answers.new } } ≡ bus_line (low_bytes (take bytes numbers.now)) (buffer_size (take bytes numbers.now)) record { model = m; flash = mem.old; log = record { counts = counts.entry.now; answers = answers.old } } }
{
    let size = buffer_size(first_words(numbers, bytes));
    bus_out(m, numbers, bytes, size, counts, mem, answers)
}

// A transaction of the low bytes of the first numbers, with an output buffer of `size` bytes.
pub fn bus_out(
    m: Model,
    numbers: &[u32],
    bytes: usize,
    size: usize,
    counts: &mut [usize; 22],
    mem: &mut [u8],
    answers: &mut [u8],
) -> Model
    requires { (bytes ≤ 200) × (size ≤ 200) }
    ensures { record { model = result; flash = mem.new; log = record { counts = counts.exit.now; answers = answers.new } } ≡ bus_line (low_bytes (take bytes numbers.now)) size record { model = m; flash = mem.old; log = record { counts = counts.entry.now; answers = answers.old } } }
{
    let mut frame = [0u8; 200];
    let n = numeral::put_low_bytes(&mut frame, 0, first_words(numbers, bytes));
    let mut buffer = [238u8; 200];
    let out = &mut buffer[..size];
    let reply = converter::transaction(m, first_bytes(&frame, n), out, mem);
    let answer = reply.answer;
    let used = phrase::bus::put_bus(answers, counts[USED], answer, out);
    count_call(counts, answer, used);
    start_moment(counts, answer);
    reply.model
}

// Moments count from a transaction that starts a measurement.
fn start_moment(counts: &mut [usize; 22], answer: Answer)
    ensures { counts.new ≡ start_moment answer counts.old }
{
    match answer {
        Answer::Accepted(flight, temperature) => {
            if flight {
                counts[MOMENT] = 0;
                return;
            }
            if temperature {
                counts[MOMENT] = 0;
            }
        }
        _ => {}
    }
}

// A write of the first numbers, so many words, from the address a on.
pub fn set(
    m: Model,
    a: u32,
    numbers: &[u32],
    words: usize,
    counts: &mut [usize; 22],
    mem: &mut [u8],
    answers: &mut [u8],
) -> Model
    requires { words ≤ 99 }
    ensures { record { model = result; flash = mem.new; log = record { counts = counts.exit.now; answers = answers.new } } ≡ set_line a (take words numbers.now) record { model = m; flash = mem.old; log = record { counts = counts.entry.now; answers = answers.old } } }
{
    let mut frame = [0u8; 200];
    let n = put_write(&mut frame, a, first_words(numbers, words));
    let mut none = [0u8; 0];
    let reply = converter::transaction(m, first_bytes(&frame, n), &mut none, mem);
    let answer = reply.answer;
    let used = phrase::bus::put_set(answers, counts[USED], answer);
    count_call(counts, answer, used);
    start_moment(counts, answer);
    reply.model
}

// The address, and each word high byte first.
fn put_write(frame: &mut [u8], a: u32, words: &[u32]) -> usize
    ensures { PutEach frame.old 0 (write_bytes a words.now) result frame.new }
{
    let mut place = numeral::put_low_bytes(frame, 0, &[a]);
    for word in words {
        let pair = [word / 256, *word];
        place = numeral::put_low_bytes(frame, place, &pair);
    }
    place
}

// The output buffer of a frame whose line does not give it.
fn buffer_size(words: &[u32]) -> usize
    ensures { result ≡ buffer_size words.now }
{
    let n = words.len();
    if n == 0 {
        return 0;
    }
    let first = words[0];
    if first == 0x90 {
        return 2;
    }
    if first < 0xb0 {
        return 0;
    }
    (n - 1) / 2 * 2
}
