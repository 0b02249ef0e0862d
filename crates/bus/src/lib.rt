// The bus transaction, on a model that is known to be sound. It takes any frame; a refusal changes nothing.
#![tactic(auto)]

ghost use Rattle.std.specs.Prelude.{◌≡◌, true, ◌≤◌, ◌+◌, ◌*◌, length};
ghost use Rattle.device.specs.Model.{is_sound};
ghost use Rattle.device.specs.Call.{Call};
ghost use Rattle.device.specs.Reply.{reply, output, memory};
ghost use Rattle.device.specs.Parts.{command_reply, write_reply, read_reply, read_output, refusal_of, read_fits, frame_fits, flash_frame_reply, flash_frame_output, flash_frame_memory, words_reply};

use command::{
    before_initialize, command_busy, command_unset, run_model, starts_flight, starts_temperature,
};
use device::{Model, Reply};
use flash_access::flash_reply;
use frame::Decoded;
use model::reply::{accept, refuse};
use model::state::is_busy;
use refusal::Refusal;
use registers::read::{fill_words, read_model};
use registers::write::{write_invalid, write_model};

fn command_reply(m: Model, op: u32) -> Reply
    ensures { result ≡ command_reply m op }
{
    if command_busy(m, op) {
        return refuse(m, Refusal::Busy);
    }
    if before_initialize(m, op) {
        return refuse(m, Refusal::NotInitialised);
    }
    if command_unset(m, op) {
        return refuse(m, Refusal::SetUp);
    }
    accept(run_model(m, op), starts_flight(op), starts_temperature(op))
}

fn write_reply(m: Model, words: &[u8], op: u32, n: usize) -> Reply
    requires { (is_sound m ≡ true) × (48 ≤ op) × (op + n ≤ 68) × (2 * n ≤ length words.now) }
    ensures { result ≡ write_reply m words.now op n }
{
    if is_busy(m) {
        return refuse(m, Refusal::Busy);
    }
    if write_invalid(m, words, op, n) {
        return refuse(m, Refusal::Calendar);
    }
    accept(write_model(m, words, op, n), false, false)
}

fn refusal_of(d: Decoded) -> Refusal
    ensures { result ≡ refusal_of d }
{
    match d {
        Decoded::Refused(refusal) => refusal,
        _ => Refusal::Opcode,
    }
}

// A read, or the refusal that decoding found.
fn read_reply(m: Model, d: Decoded, out: &mut [u8]) -> Reply
    requires { (is_sound m ≡ true) × (read_fits d (length out.old) ≡ true) }
    ensures { (result ≡ read_reply m d) × (out.new ≡ read_output m d out.old) }
{
    let Decoded::Read(op, n) = d else {
        return refuse(m, refusal_of(d));
    };
    fill_words(m, op, n, out);
    accept(read_model(m, op, n), false, false)
}

// A flash frame, else a read or a refusal. `b` is the frame from its second byte.
fn flash_frame_reply(m: Model, d: Decoded, b: &[u8], out: &mut [u8], mem: &mut [u8]) -> Reply
    requires { (is_sound m ≡ true) × (read_fits d (length out.old) ≡ true) × (frame_fits d (length b.now) (length out.old) ≡ true) }
    ensures { (result ≡ flash_frame_reply m b.now mem.old d) × (out.new ≡ flash_frame_output m b.now out.old mem.old d) × (mem.new ≡ flash_frame_memory m b.now mem.old d) }
{
    let Decoded::Flash(op) = d else {
        return read_reply(m, d, out);
    };
    flash_reply(m, op, b, out, mem)
}

// A write, else a flash frame, a read or a refusal.
fn words_reply(m: Model, d: Decoded, b: &[u8], out: &mut [u8], mem: &mut [u8]) -> Reply
    requires { (is_sound m ≡ true) × (read_fits d (length out.old) ≡ true) × (frame_fits d (length b.now) (length out.old) ≡ true) }
    ensures { (result ≡ words_reply m b.now mem.old d) × (out.new ≡ flash_frame_output m b.now out.old mem.old d) × (mem.new ≡ flash_frame_memory m b.now mem.old d) }
{
    let Decoded::Write(op, n) = d else {
        return flash_frame_reply(m, d, b, out, mem);
    };
    write_reply(m, b, op, n)
}

// One bus transaction: the bytes of a chip-enable window, the output buffer, and the user flash.
pub fn sound_transaction(m: Model, frame: &[u8], out: &mut [u8], mem: &mut [u8]) -> Reply
    requires { is_sound m ≡ true }
    ensures { (result ≡ reply m (Call.transaction frame.now out.old mem.old)) × (out.new ≡ output m (Call.transaction frame.now out.old mem.old)) × (mem.new ≡ memory m (Call.transaction frame.now out.old mem.old)) }
{
    if frame.is_empty() {
        return refuse(m, Refusal::NoFrame);
    }
    let d = frame::decode_frame(frame, out.len());
    let Decoded::Command(op) = d else {
        return words_reply(m, d, &frame[1..], out, mem);
    };
    command_reply(m, op)
}
