// One bus transaction's bytes: decoding the opcode and the lengths, and reading words.
#![tactic(auto)]

ghost use Rattle.std.specs.Prelude.{◌≡◌, ◌+◌, ◌*◌, ◌<◌, length};
ghost use Rattle.frame.specs.Frame.{is_command, is_write, is_read, is_flash, flash_further, not_whole, past_end, word_at};
ghost use Rattle.frame.specs.Decoding.{write_frame, read_frame, flash_frame, decode_frame};

pub mod opcode;

use opcode::{BLOCK_ERASE, READ_FLASH, WRITE_FLASH};
use refusal::Refusal;

// The registers past the last that is written, 43h, and past the last that is read, FFh.
const WRITE_END: u32 = 0x44;

const READ_END: u32 = 0x100;

// What the bytes ask for. A read or a write names its first register, as in the opcode, and how many words follow;
// a frame of the user flash has its opcode.
#[derive(Clone, Copy)]
pub enum Decoded {
    Command(u32),
    Read(u32, usize),
    Write(u32, usize),
    Flash(u32),
    Refused(Refusal),
}

fn is_command(op: u32) -> bool
    ensures { result ≡ is_command op }
{
    match op {
        0x06 | 0x0b => false,
        _ => op <= 0x0d,
    }
}

fn is_write(op: u32) -> bool
    ensures { result ≡ is_write op }
{
    (0x30..=0x43).contains(&op)
}

fn is_read(op: u32) -> bool
    ensures { result ≡ is_read op }
{
    (0xb0..=0xff).contains(&op)
}

fn is_flash(op: u32) -> bool
    ensures { result ≡ is_flash op }
{
    matches!(op, READ_FLASH | WRITE_FLASH | BLOCK_ERASE)
}

fn flash_further(op: u32) -> usize
    ensures { result ≡ flash_further op }
{
    if op == BLOCK_ERASE { 2 } else { 4 }
}

// Whether the bytes after the opcode are other than one or more whole words.
fn not_whole(further: usize) -> bool
    ensures { result ≡ not_whole further }
{
    further == 0 || further % 2 == 1
}

// Whether so many words from a register on go past the register before the end.
fn past_end(op: u32, words: usize, end: u32) -> bool
    ensures { result ≡ past_end op words end }
{
    (end as usize)
        .checked_sub(words)
        .is_none_or(|last| last < op as usize)
}

fn write_frame(op: u32, further: usize) -> Decoded
    ensures { result ≡ write_frame op further }
{
    if not_whole(further) {
        return Decoded::Refused(Refusal::FrameLength);
    }
    let words = further / 2;
    if past_end(op, words, WRITE_END) {
        return Decoded::Refused(Refusal::Address);
    }
    Decoded::Write(op, words)
}

fn read_frame(op: u32, further: usize, room: usize) -> Decoded
    ensures { result ≡ read_frame op further room }
{
    if not_whole(further) {
        return Decoded::Refused(Refusal::FrameLength);
    }
    let words = further / 2;
    if past_end(op, words, READ_END) {
        return Decoded::Refused(Refusal::Address);
    }
    if room < 2 * words {
        return Decoded::Refused(Refusal::ShortOutput);
    }
    Decoded::Read(op, words)
}

fn flash_frame(op: u32, further: usize, room: usize) -> Decoded
    ensures { result ≡ flash_frame op further room }
{
    let wanted = flash_further(op);
    if further != wanted {
        return Decoded::Refused(Refusal::FrameLength);
    }
    if op == READ_FLASH && room < 2 {
        return Decoded::Refused(Refusal::ShortOutput);
    }
    Decoded::Flash(op)
}

// Decodes a transaction, given the room in the output buffer. A frame is judged by its first byte and its length alone.
pub fn decode_frame(frame: &[u8], room: usize) -> Decoded
    ensures { result ≡ decode_frame frame.now room }
{
    let Some((first, rest)) = frame.split_first() else {
        return Decoded::Refused(Refusal::NoFrame);
    };
    let op = u32::from(*first);
    let further = rest.len();
    if is_command(op) {
        if further == 0 {
            return Decoded::Command(op);
        }
        return Decoded::Refused(Refusal::FrameLength);
    }
    if is_write(op) {
        return write_frame(op, further);
    }
    if is_flash(op) {
        return flash_frame(op, further, room);
    }
    if is_read(op) {
        return read_frame(op, further, room);
    }
    Decoded::Refused(Refusal::Opcode)
}

// The i-th word of some bytes, high byte first.
pub fn word_at(bytes: &[u8], i: usize) -> u32
    requires { 2 * i + 1 < length bytes.now }
    ensures { (result ≡ word_at bytes.now i) × (result < 65536) }
{
    u32::from(u16::from_be_bytes([bytes[2 * i], bytes[2 * i + 1]]))
}
