// What the model would answer to commands. The model that a transaction leaves is dropped.
ghost use Rattle.refusal.specs.Number.{number};
ghost use Rattle.std.specs.Prelude.{◌≡◌, [], ◌∷◌, ◌++◌, drop};
ghost use Rattle.unit.specs.Choice.{pick};
ghost use Rattle.text.specs.Text.{ended, ended_each, spaced_each};
ghost use Rattle.text.specs.OwnPut.{Puts};
ghost use Rattle.device.specs.Bus.{is_event};
ghost use Rattle.device.specs.Reply.{number_in};
ghost use Rattle.item_page.specs.Page.{flight_fields, temperature_fields, clock_fields, fields, answer_text, command_rows};
ghost use Rattle.item_page_code.specs.OwnWords.{answer_to, text_to};

use crate::words::word;
use device::{Answer, Model};
use item_page_form::put_form;
use item_words_code::refusals::put_refusal;
use refusal::Refusal;

pub fn put_commands(buf: &mut [u8], at: usize, m: Model) -> usize
    ensures { Puts buf.old at (ended_each (command_rows m)) result buf.new }
{
    let a = numeral::put_text(buf, at, b"COMMANDS NOW\n");
    let b = put_command(buf, a, m, b"00-02  TOF_UP, TOF_DOWN, TOF_DIFF          ", 0);
    let c = put_command(buf, b, m, b"03     Temperature                         ", 3);
    let d = put_command(buf, c, m, b"05     Initialize                          ", 5);
    let e = put_command(buf, d, m, b"07     EVTMG1, both kinds                  ", 7);
    let f = put_command(buf, e, m, b"08     EVTMG2, differences                 ", 8);
    let g = put_command(buf, f, m, b"09     EVTMG3, temperatures                ", 9);
    let h = put_command(
        buf,
        g,
        m,
        b"0C 0D  LDO_ON, LDO_OFF                     ",
        12,
    );
    put_longer(buf, h, m)
}

// The rows of frames that are more than an opcode.
fn put_longer(buf: &mut [u8], at: usize, m: Model) -> usize
    ensures { Puts buf.old at (ended_each (drop 8 (command_rows m))) result buf.new }
{
    let read = [0x90, 0, 0, 0, 0];
    let write = [0x34, 0, 0];
    let a = put_frame(
        buf,
        at,
        m,
        b"10 13  Flash write, erase, read (90)       ",
        0x90,
        &read,
    );
    put_frame(
        buf,
        a,
        m,
        b"30-43  Register writes                     ",
        0x34,
        &write,
    )
}

// A row for the frame that is one opcode.
fn put_command(buf: &mut [u8], at: usize, m: Model, label: &[u8], op: u8) -> usize
    ensures { Puts buf.old at (ended (label.now ++ text_to m op (op ∷ []))) result buf.new }
{
    let frame = [op];
    put_frame(buf, at, m, label, op as u32, &frame)
}

// A row for any frame, whose first byte is op.
fn put_frame(buf: &mut [u8], at: usize, m: Model, label: &[u8], op: u32, frame: &[u8]) -> usize
    ensures { Puts buf.old at (ended (label.now ++ text_to m op frame.now)) result buf.new }
{
    let a = numeral::put_text(buf, at, label);
    let b = put_answer(buf, a, m, op, answer_to(m, frame));
    numeral::put_text(buf, b, b"\n")
}

fn answer_to(m: Model, frame: &[u8]) -> Answer
    ensures { result ≡ answer_to m frame.now }
{
    let mut out = [0u8; 2];
    let mut mem = [0u8; 8192];
    let reply = converter::transaction(m, frame, &mut out, &mut mem);
    reply.answer
}

fn put_answer(buf: &mut [u8], at: usize, m: Model, op: u32, answer: Answer) -> usize
    ensures { Puts buf.old at (answer_text m op (number_in answer)) result buf.new }
{
    match answer {
        Answer::Refused(refusal) => put_refused(buf, at, m, op, refusal),
        _ => numeral::put_text(buf, at, b"ok"),
    }
}

fn put_refused(buf: &mut [u8], at: usize, m: Model, op: u32, refusal: Refusal) -> usize
    ensures { Puts buf.old at (answer_text m op (number refusal ∷ [])) result buf.new }
{
    let a = put_refusal(buf, at, refusal);
    if refusal == Refusal::SetUp {
        let b = numeral::put_text(buf, a, b":");
        return put_fields(buf, b, m, op);
    }
    a
}

// The fields that stand in the way of a command.
fn put_fields(buf: &mut [u8], at: usize, m: Model, op: u32) -> usize
    ensures { Puts buf.old at (spaced_each (fields m op)) result buf.new }
{
    let a = put_flight_fields(buf, at, command::starts_flight(op), word(m, 0xb8));
    let b = put_temperature_fields(buf, a, command::starts_temperature(op), word(m, 0xc0));
    put_clock_fields(buf, b, is_event(op), word(m, 0xc3))
}

fn put_flight_fields(buf: &mut [u8], at: usize, judged: bool, w: u32) -> usize
    ensures { Puts buf.old at (spaced_each (pick judged (flight_fields w) [])) result buf.new }
{
    if judged {
        let values = [w / 256 % 256, w / 16 % 16];
        return put_form(buf, at, b"?0 PL 0|?0 DPL 0|", &values, 0);
    }
    at
}

fn put_temperature_fields(buf: &mut [u8], at: usize, judged: bool, w: u32) -> usize
    ensures { Puts buf.old at (spaced_each (pick judged (temperature_fields w) [])) result buf.new }
{
    if judged {
        let tp = w / 32 % 4;
        if tp == 0b11 {
            return at;
        }
        let values = [tp / 2, tp % 2];
        return put_form(buf, at, b" TP |#|#|b|", &values, 0);
    }
    at
}

fn put_clock_fields(buf: &mut [u8], at: usize, judged: bool, w: u32) -> usize
    ensures { Puts buf.old at (spaced_each (pick judged (clock_fields w) [])) result buf.new }
{
    if judged {
        let values = [w / 16 % 2];
        return put_form(buf, at, b"?1 EOSC 1|", &values, 0);
    }
    at
}

fn is_event(op: u32) -> bool
    ensures { result ≡ is_event op }
{
    7 <= op && op <= 9
}
