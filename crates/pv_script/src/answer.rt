ghost use Rattle.std.specs.Prelude.{◌≡◌, ℕ, ◌≤◌, ◌++◌, take, IfErr, OnOk, codes, decimal};
ghost use Rattle.std.specs.Io.KnownBytes.{Appends};
ghost use Rattle.pv_outside.specs.Counts.{Rose, one_more};
ghost use Rattle.pv_page.specs.Names.{name_text};
ghost use Rattle.pv_script.specs.Evening.{summary_text};
ghost use Rattle.pv_script.specs.Transcript.{answer_text, charge_text, charges_text, turn_text, turns_text, limits_text, ack_text, end_text, newline};

use crate::ends::AnswerEnd;
use crate::tally::Tally;
use itoa::Buffer;
use pv_cells::push_notation;
use pv_network::{BillLine, Outcome, Turn, Why};
use pv_outside::{Limits, Sink};
use pv_page::FrameName;
use pv_screen::{BUFFER, Screen};
use std::alloc::AllocError;

/// Writes an answer, the whole of it by one write. The only error is that the write failed.
pub fn write_answer<K: Sink>(answer: &[u8], out: &mut K) -> Result<(), AnswerEnd>
    ensures ok { OnOk result (Appends (K.written out.old) (K.written out.new) answer.now) }
    ensures writes { OnOk result (K.writes out.new ≡ one_more (K.writes out.old)) }

    // After a fault a prefix of it was written. The count of faults never falls.
    ensures err { IfErr result (λ end. (end ≡ AnswerEnd.Fault)
        × Rose (K.write_faults out.old) (K.write_faults out.new)
        × ((count : ℕ) × Appends (K.written out.old) (K.written out.new) (take count answer.now))) }
    ensures counted { K.write_faults out.old ≤ K.write_faults out.new }
{
    match out.write_all(answer) {
        Ok(()) => Ok(()),
        Err(_) => Err(AnswerEnd::Fault),
    }
}

/// Appends the line or lines of an outcome. A screen is painted into the buffer first.
pub fn push_answer(
    text: &mut Vec<u8>,
    buffer: &mut [u8; BUFFER],
    outcome: &Outcome,
) -> Result<(), AllocError>
    ensures { OnOk result (text.new.items ≡ text.old.items ++ answer_text outcome.now) }
{
    match outcome {
        Outcome::Reply(reply) => {
            text.extend_from_slice(reply.bytes())?;
            push_words(text, b"\n")
        }
        Outcome::Shown(turn) => push_screen(text, buffer, &turn.screen, turn.ended),
        Outcome::Busy => push_words(text, b"busy\n"),
        Outcome::Quiet => push_words(text, b"quiet\n"),
        Outcome::Owes => push_words(text, b"owes\n"),
        Outcome::Owing => push_words(text, b"owing\n"),
        Outcome::NoCall => push_words(text, b"no call\n"),
        Outcome::Nothing => push_words(text, b"nothing\n"),
        Outcome::Hung => push_words(text, b"hung\n"),
        Outcome::Stored => push_words(text, b"stored\n"),
        Outcome::StoreFull { count, screen } => {
            push_line(text, b"full ", *count)?;
            push_screen(text, buffer, screen, Some(Why::Full))
        }
        Outcome::Turns(turns) => push_turns(text, buffer, turns.all()),
        Outcome::Idle => push_words(text, b"idle\n"),
        Outcome::PacketsFull => push_words(text, b"packets full\n"),
        Outcome::NoPacket => push_words(text, b"no packet\n"),
        Outcome::SentRecord { index, number } => {
            push_number(text, b"sent ", *index)?;
            push_number(text, b" record ", *number)?;
            push_words(text, b"\n")
        }
        Outcome::SentItem { index, number } => {
            push_number(text, b"sent ", *index)?;
            push_number(text, b" item ", *number)?;
            push_words(text, b"\n")
        }
        Outcome::Taken { number, ack } => push_arrival(text, b"taken ", *number, *ack),
        Outcome::Old { number, ack } => push_arrival(text, b"old ", *number, *ack),
        Outcome::Early { number, ack } => push_arrival(text, b"early ", *number, *ack),
        Outcome::Heard { number } => push_line(text, b"heard ", *number),
        Outcome::Full { count } => push_line(text, b"full ", *count),
        Outcome::Carried { records, items } => {
            push_number(text, b"carried ", *records)?;
            push_number(text, b" ", *items)?;
            push_words(text, b"\n")
        }
        Outcome::Crashed { count } => push_line(text, b"crashed ", *count),
        Outcome::Kept => push_words(text, b"kept\n"),
        Outcome::Lost => push_words(text, b"lost\n"),
        Outcome::NotStored => push_words(text, b"none\n"),
        Outcome::Clock { moment } => push_line(text, b"clock ", *moment as u64),
        Outcome::NotHeld => push_words(text, b"-\n"),
        Outcome::Applied { count } => push_line(text, b"applied ", *count),
        Outcome::Records { count } => push_line(text, b"records ", *count),
        Outcome::Bill { lines, pence } => {
            push_charges(text, lines.all())?;
            push_line(text, b"sum ", *pence)
        }
    }
}

/// Appends the line that answers limits.
pub fn push_limits(text: &mut Vec<u8>, limits: Limits) -> Result<(), AllocError>
    ensures { OnOk result (text.new.items ≡ text.old.items ++ limits_text limits) }
{
    push_number(text, b"limits ", limits.frames as u64)?;
    push_number(text, b" ", limits.records as u64)?;
    push_words(text, b"\n")
}

/// Appends the line that sums up an evening: how many records the Update Centre has, and the tally
/// of what came of it.
pub fn push_summary(text: &mut Vec<u8>, records: u64, tally: Tally) -> Result<(), AllocError>
    ensures { OnOk result (text.new.items ≡ text.old.items ++ summary_text records tally) }
{
    push_number(text, b"records ", records)?;
    push_sum(text, b" screens ", tally.screens)?;
    push_sum(text, b" lines ", tally.lines)?;
    push_sum(text, b" pence ", tally.pence)?;
    push_words(text, b"\n")
}

/// Appends words.
fn push_words(text: &mut Vec<u8>, words: &[u8]) -> Result<(), AllocError>
    ensures { OnOk result (text.new.items ≡ text.old.items ++ words.now) }
{
    text.extend_from_slice(words)
}

/// Appends words and then a number in decimal.
fn push_number(text: &mut Vec<u8>, words: &[u8], number: u64) -> Result<(), AllocError>
    ensures { OnOk result (text.new.items ≡ text.old.items ++ (words.now ++ decimal number)) }
{
    text.extend_from_slice(words)?;
    text.extend_from_slice(Buffer::new().format(number).as_bytes())
}

/// Appends words and then a sum in decimal.
fn push_sum(text: &mut Vec<u8>, words: &[u8], sum: u128) -> Result<(), AllocError>
    ensures { OnOk result (text.new.items ≡ text.old.items ++ (words.now ++ decimal sum)) }
{
    text.extend_from_slice(words)?;
    text.extend_from_slice(Buffer::new().format(sum).as_bytes())
}

/// Appends a line of words and then a number in decimal.
fn push_line(text: &mut Vec<u8>, words: &[u8], number: u64) -> Result<(), AllocError>
    ensures { OnOk result (text.new.items ≡ text.old.items ++ (words.now ++ decimal number ++ newline)) }
{
    push_number(text, words, number)?;
    push_words(text, b"\n")
}

/// Appends what happened to a record that arrived, and its acknowledgement.
fn push_arrival(
    text: &mut Vec<u8>,
    words: &[u8],
    number: u64,
    ack: Option<u64>,
) -> Result<(), AllocError>
    ensures { OnOk result (text.new.items
        ≡ text.old.items ++ (words.now ++ decimal number ++ ack_text ack ++ newline)) }
{
    push_number(text, words, number)?;
    match ack {
        Some(index) => push_number(text, b" ack ", index)?,
        None => push_words(text, b" ack -")?,
    }
    push_words(text, b"\n")
}

/// Appends charge lines, one after another.
fn push_charges(text: &mut Vec<u8>, charges: &[BillLine]) -> Result<(), AllocError>
    ensures { OnOk result (text.new.items ≡ text.old.items ++ charges_text charges.now) }
{
    for charge in charges {
        push_charge(text, charge)?;
    }
    Ok(())
}

/// Appends a charge line.
fn push_charge(text: &mut Vec<u8>, charge: &BillLine) -> Result<(), AllocError>
    ensures { OnOk result (text.new.items ≡ text.old.items ++ charge_text charge.now) }
{
    push_number(text, b"line ", charge.centre as u64)?;
    push_number(text, b" ", charge.line.serial)?;
    push_number(text, b" ", charge.line.number as u64)?;
    push_name(text, charge.line.name)?;
    push_number(text, b" ", charge.line.price as u64)?;
    push_number(text, b" ", charge.line.moment as u64)?;
    push_words(text, b"\n")
}

/// Appends a space and the name of a frame.
fn push_name(text: &mut Vec<u8>, name: FrameName) -> Result<(), AllocError>
    ensures { OnOk result (text.new.items ≡ text.old.items ++ (codes " " ++ name_text name)) }
{
    let mut bytes = [0; 10];
    let count = name.text(&mut bytes);
    push_words(text, b" ")?;
    push_words(text, &bytes[..count])
}

/// Appends screens, one after another.
fn push_turns(
    text: &mut Vec<u8>,
    buffer: &mut [u8; BUFFER],
    turns: &[Turn],
) -> Result<(), AllocError>
    ensures { OnOk result (text.new.items ≡ text.old.items ++ turns_text turns.now) }
{
    for turn in turns {
        push_screen(text, buffer, &turn.screen, turn.ended)?;
    }
    Ok(())
}

/// Appends a screen, and the end of the call if it ended.
fn push_screen(
    text: &mut Vec<u8>,
    buffer: &mut [u8; BUFFER],
    screen: &Screen,
    ended: Option<Why>,
) -> Result<(), AllocError>
    ensures { OnOk result (text.new.items
        ≡ text.old.items ++ turn_text (record { screen = screen.now; ended = ended })) }
{
    let count = screen.bytes(buffer);
    push_words(text, b"screen ")?;
    push_notation(&buffer[..count], text)?;
    push_words(text, b"\n")?;
    push_end(text, ended)
}

/// Appends why a call ended, if it did.
fn push_end(text: &mut Vec<u8>, ended: Option<Why>) -> Result<(), AllocError>
    ensures { OnOk result (text.new.items ≡ text.old.items ++ end_text ended) }
{
    match ended {
        None => Ok(()),
        Some(Why::Finished) => push_words(text, b"ended finished\n"),
        Some(Why::Refused) => push_words(text, b"ended refused\n"),
        Some(Why::Spent) => push_words(text, b"ended spent\n"),
        Some(Why::Full) => push_words(text, b"ended full\n"),
    }
}
