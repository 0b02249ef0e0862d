// The frames of the user flash, on a sound model: block erase, write and read.
#![tactic(auto)]

ghost use Rattle.std.specs.Prelude.{◌≡◌, true, false, ◌≤◌, eqb, length};
ghost use Rattle.unit.specs.Choice.{either};
ghost use Rattle.device.specs.FlashFrame.{flash_model};
ghost use Rattle.device.specs.Parts.{erase_left, program_left, load_out, accept, flash_reply, flash_out, flash_left, flash_fits};
ghost use Rattle.flash_access.specs.Work.{erase_done, program_done, load_done, flash_done, work_model, work_out, work_left};

use device::{Model, Reply};
use flash::{
    address_refused, erase_block, erase_refused, not_erased, put_word, read_word, write_word,
};
use model::reply::{accept, refuse};
use model::state::is_busy;
use refusal::Refusal;
use status::{flash_bit, joined};

// The model after a write or an erase.
fn changed(m: Model) -> Model
    ensures { (result ≡ flash_model m 0x10) × (result ≡ flash_model m 0x13) }
{
    Model {
        status: joined(m.status, flash_bit()),
        ..m
    }
}

// What a frame does with the memory and the output, or what refuses it. `b` is the frame from its second byte: the address, and the word of a write. None of these takes the model: it is a large value, and a frame changes only
// its status, so that the other frames of a list do not pay for a copy.
fn erase(b: &[u8], mem: &mut [u8]) -> Result<(), Refusal>
    requires { 2 ≤ length b.now }
    ensures { (result ≡ erase_done b.now mem.old) × (mem.new ≡ erase_left b.now mem.old) }
{
    let a = frame::word_at(b, 0);
    if erase_refused(mem.len(), a) {
        return Err(Refusal::FlashAddress);
    }
    erase_block(mem, a as usize);
    Ok(())
}

fn program(b: &[u8], mem: &mut [u8]) -> Result<(), Refusal>
    requires { 4 ≤ length b.now }
    ensures { (result ≡ program_done b.now mem.old) × (mem.new ≡ program_left b.now mem.old) }
{
    let a = frame::word_at(b, 0);
    if address_refused(mem.len(), a) {
        return Err(Refusal::FlashAddress);
    }
    if not_erased(mem, a as usize) {
        return Err(Refusal::NotErased);
    }
    let w = frame::word_at(b, 1);
    write_word(mem, a as usize, w);
    Ok(())
}

fn load(b: &[u8], out: &mut [u8], mem: &[u8]) -> Result<(), Refusal>
    requires { (2 ≤ length b.now) × (2 ≤ length out.old) }
    ensures { (result ≡ load_done b.now mem.now) × (out.new ≡ load_out b.now out.old mem.now) }
{
    let a = frame::word_at(b, 0);
    if address_refused(mem.len(), a) {
        return Err(Refusal::FlashAddress);
    }
    let w = read_word(mem, a as usize);
    put_word(out, w);
    Ok(())
}

fn work(op: u32, b: &[u8], out: &mut [u8], mem: &mut [u8]) -> Result<(), Refusal>
    requires { flash_fits op (length b.now) (length out.old) ≡ true }
    ensures { (result ≡ flash_done op b.now mem.old) × (out.new ≡ work_out op b.now out.old mem.old) × (mem.new ≡ work_left op b.now mem.old) }
{
    if op == 0x13 {
        return erase(b, mem);
    }
    if op == 0x10 {
        return program(b, mem);
    }
    load(b, out, mem)
}

// Whether a frame changes the memory.
fn changes(op: u32) -> bool
    ensures { result ≡ either (eqb op 0x13) (eqb op 0x10) }
{
    op == 0x13 || op == 0x10
}

fn done(m: Model, op: u32) -> Reply
    ensures { result ≡ accept false false (work_model m op) }
{
    if changes(op) {
        return accept(changed(m), false, false);
    }
    accept(m, false, false)
}

// A frame of the user flash whose length and output are right.
pub fn flash_reply(m: Model, op: u32, b: &[u8], out: &mut [u8], mem: &mut [u8]) -> Reply
    requires { flash_fits op (length b.now) (length out.old) ≡ true }
    ensures { (result ≡ flash_reply m op b.now mem.old) × (out.new ≡ flash_out m op b.now out.old mem.old) × (mem.new ≡ flash_left m op b.now mem.old) }
{
    if is_busy(m) {
        return refuse(m, Refusal::Busy);
    }
    if m.regulator {
        return match work(op, b, out, mem) {
            Ok(()) => done(m, op),
            Err(refusal) => refuse(m, refusal),
        };
    }
    refuse(m, Refusal::SupplyOff)
}
