// What the model would answer to commands: nothing is changed, since the model that a transaction leaves is thrown away.
ghost use Rattle.refusal.specs.Number.{number};
ghost use Rattle.std.specs.Prelude.{◌≡◌, [], ◌∷◌};
ghost use Rattle.device.specs.Bus.{is_event};
ghost use Rattle.device.specs.Reply.{number_in};
ghost use Rattle.wording.specs.Text.{PutEach};
ghost use Rattle.page.specs.Row.{ended, lines};
ghost use Rattle.page.specs.Commands.{answer_to, flight_fields, temperature_fields, clock_fields, fields, refused_texts, answer_texts, frame_row, command_row, flash_row, write_row, command_rows};

use crate::row::{put_binary, put_line, word};
use device::{Answer, Model};
use form::put_where;
use refusal::Refusal;

pub fn put_commands(buf: &mut [u8], at: usize, m: Model) -> usize
    ensures { PutEach buf.old at (lines (command_rows m)) result buf.new }
{
    let a = put_line(buf, at, b"COMMANDS NOW");
    let b = put_command(buf, a, m, b"00-02  TOF_UP, TOF_DOWN, TOF_DIFF         ", 0);
    let c = put_command(buf, b, m, b"03     Temperature                        ", 3);
    let d = put_command(buf, c, m, b"05     Initialize                         ", 5);
    let e = put_command(buf, d, m, b"07     EVTMG1, both kinds                 ", 7);
    let f = put_command(buf, e, m, b"08     EVTMG2, differences                ", 8);
    let g = put_command(buf, f, m, b"09     EVTMG3, temperatures               ", 9);
    let h = put_command(buf, g, m, b"0C 0D  LDO_ON, LDO_OFF                    ", 12);
    let i = put_flash(buf, h, m);
    put_write(buf, i, m)
}

// A row for the frame that is one opcode.
fn put_command(buf: &mut [u8], at: usize, m: Model, label: &[u8], op: u8) -> usize
    ensures { PutEach buf.old at (ended (command_row m label.now op)) result buf.new }
{
    let frame = [op];
    put_frame(buf, at, m, label, op as u32, &frame)
}

fn put_flash(buf: &mut [u8], at: usize, m: Model) -> usize
    ensures { PutEach buf.old at (ended (flash_row m)) result buf.new }
{
    let frame = [0x90, 0, 0, 0, 0];
    put_frame(
        buf,
        at,
        m,
        b"10 13  Flash write, erase, read (90)      ",
        0x90,
        &frame,
    )
}

fn put_write(buf: &mut [u8], at: usize, m: Model) -> usize
    ensures { PutEach buf.old at (ended (write_row m)) result buf.new }
{
    let frame = [0x34, 0, 0];
    put_frame(
        buf,
        at,
        m,
        b"30-43  Register writes                    ",
        0x34,
        &frame,
    )
}

// A row for any frame, whose first byte is op.
fn put_frame(buf: &mut [u8], at: usize, m: Model, label: &[u8], op: u32, frame: &[u8]) -> usize
    ensures { PutEach buf.old at (ended (frame_row m label.now op frame.now)) result buf.new }
{
    let a = numeral::put_text(buf, at, label);
    let b = put_answer(buf, a, m, op, answer_to(m, frame));
    numeral::put_text(buf, b, b"\n")
}

fn answer_to(m: Model, frame: &[u8]) -> Answer
    ensures { result ≡ answer_to m frame.now }
{
    let mut out = [0u8; 2];
    let mut mem = [0u8; 8192];
    let reply = converter::transaction(m, frame, &mut out, &mut mem);
    reply.answer
}

fn put_answer(buf: &mut [u8], at: usize, m: Model, op: u32, answer: Answer) -> usize
    ensures { PutEach buf.old at (answer_texts m op (number_in answer)) result buf.new }
{
    match answer {
        Answer::Refused(refusal) => put_refused(buf, at, m, op, refusal),
        _ => numeral::put_text(buf, at, b" ok"),
    }
}

fn put_refused(buf: &mut [u8], at: usize, m: Model, op: u32, refusal: Refusal) -> usize
    ensures { PutEach buf.old at (refused_texts m op (number refusal)) result buf.new }
{
    let a = phrase::refusals::put_refusal(buf, at, refusal);
    if refusal == Refusal::SetUp {
        let b = numeral::put_text(buf, a, b":");
        return put_fields(buf, b, m, op);
    }
    a
}

// The fields that stand in the way of a command.
fn put_fields(buf: &mut [u8], at: usize, m: Model, op: u32) -> usize
    ensures { PutEach buf.old at (fields m op) result buf.new }
{
    let a = put_flight_fields(buf, at, command::starts_flight(op), word(m, 0xb8));
    let b = put_temperature_fields(buf, a, command::starts_temperature(op), word(m, 0xc0));
    put_clock_fields(buf, b, is_event(op), word(m, 0xc3))
}

fn put_flight_fields(buf: &mut [u8], at: usize, judged: bool, w: u32) -> usize
    ensures { PutEach buf.old at (flight_fields judged w) result buf.new }
{
    if judged {
        let a = put_where(buf, at, w / 256 % 256 == 0, b" PL 0");
        return put_where(buf, a, w / 16 % 16 == 0, b" DPL 0");
    }
    at
}

fn put_temperature_fields(buf: &mut [u8], at: usize, judged: bool, w: u32) -> usize
    ensures { PutEach buf.old at (temperature_fields judged w) result buf.new }
{
    if judged {
        if w / 32 % 4 == 0b11 {
            return at;
        }
        let a = numeral::put_text(buf, at, b" TP ");
        return put_binary(buf, a, w / 32 % 4);
    }
    at
}

fn put_clock_fields(buf: &mut [u8], at: usize, judged: bool, w: u32) -> usize
    ensures { PutEach buf.old at (clock_fields judged w) result buf.new }
{
    if judged {
        return put_where(buf, at, w / 16 % 2 == 1, b" EOSC 1");
    }
    at
}

fn is_event(op: u32) -> bool
    ensures { result ≡ is_event op }
{
    if op < 7 {
        return false;
    }
    op <= 9
}
