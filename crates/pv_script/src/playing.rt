ghost use Rattle.std.specs.Prelude.{◌≡◌, ◌⊎◌, ℕ, ◌+◌, ◌^◌, ◌<◌, ◌≤◌, ◌==◌, ◌↔◌, List, [], ◌∷◌, map, length, Some, None, IfOk, IfErr, IfSome, OnOk, IsSome, string_bytes};
ghost use Rattle.pv_outside.specs.Counts.{Rose, one_more};
ghost use Rattle.pv_words.specs.Lines.{lines_of};
ghost use Rattle.pv_input.specs.Reading.{HasRead};
ghost use Rattle.pv_account.specs.declared.account.TheConstants.{MAX_CENTRES};
ghost use Rattle.pv_network.specs.Standing.{StandsFor, IsPossible};
ghost use Rattle.pv_script.specs.declared.grammar.Command.TheVariants.{Do};
ghost use Rattle.pv_script.specs.declared.grammar.Command.TheVariants as commands;
ghost use Rattle.pv_script.specs.Ends.{GivesAnswer, HasRun, IsAnswerEnd, IsTallied, IsLineEnd, IsRunEnd};
ghost use Rattle.pv_script.specs.Play.{AskToPlay, AskNoPlay, IsPlayOf, IsScript, IsNotRun, WritesEach, first_world};
ghost use Rattle.pv_script.specs.Tally.{tally_of, IsTallyWithin};

use crate::answer::{push_answer, push_limits, write_answer};
use crate::asking::number_asked;
use crate::ends::{AnswerEnd, RunEnd};
use crate::grammar::{Command, parse};
use crate::tally::Tally;
use pv_account::MAX_CENTRES;
use pv_input::{LONGEST_TEXT, read_text};
use pv_network::{Event, Network};
use pv_outside::{Limits, Sink, Source, Status};
use pv_screen::BUFFER;
use pv_words::first_line;
use std::alloc::Global;

/// How many frames a node of a play may have, unless its script says otherwise.
pub const FRAMES: u32 = 2_000;

/// How many records a node of a play may have, unless its script says otherwise.
pub const RECORDS: u32 = 10_000;

/// How a play ended, and the network after it, which is there exactly when all was done.
#[derive(Drop)]
pub struct Played {
    /// How it ended.
    pub status: Status,
    /// The network after all lines.
    pub network: Option<Network>,
}

/// Reads a whole script, runs it on a network of as many centres as the words ask for, on which nothing
/// has happened, and writes the transcript.
pub fn play<S: Source, K: Sink>(
    alloc: Global,
    words: &[String],
    script: &mut S,
    out: &mut K,
) -> Played
    // If the words ask for a play, what was read is a text, and what was made of it is the play of that text. If all was
    // done, each answer was one write.
    ensures plays { (centres : ℕ) → AskToPlay (map string_bytes words.now) centres → (text : List ℕ)
        × HasRead (S.taken script.old) (S.taken script.new) (S.left script.old) (S.left script.new) text
        × IsPlayOf centres (first_world centres) text result.network (S.left script.old) (S.ended script.new) (K.written out.old) (K.written out.new) result.status
        × (result.status ≡ Status.Done → WritesEach (lines_of text) (K.writes out.old) (K.writes out.new)) }

    // The words are refused exactly when they ask for no play, and then nothing is read.
    ensures usage { (result.status ≡ Status.Usage) ↔ AskNoPlay (map string_bytes words.now) }
    ensures unread { result.status ≡ Status.Usage → script.new ≡ script.old }

    // Nothing is run, and nothing written, if the words, the reading or the length is at fault.
    ensures not_run { IsNotRun result.status → out.new ≡ out.old }

    // A fault of the outside comes only if its count rose.
    ensures read_fault { result.status ≡ Status.ReadFault
        → Rose (S.read_faults script.old) (S.read_faults script.new) }
    ensures write_fault { result.status ≡ Status.WriteFault
        → Rose (K.write_faults out.old) (K.write_faults out.new) }
    ensures counted { (S.read_faults script.old ≤ S.read_faults script.new)
        × (K.write_faults out.old ≤ K.write_faults out.new) }

    // So a valid script that a source has left is played to its end if no count rises, or memory runs
    // out.
    ensures succeeds { (centres : ℕ) (text : List ℕ) → AskToPlay (map string_bytes words.now) centres
        → S.left script.old ≡ Some text → IsScript centres text
        → (Rose (S.read_faults script.old) (S.read_faults script.new) → ⊥)
        → (Rose (K.write_faults out.old) (K.write_faults out.new) → ⊥)
        → (result.status ≡ Status.Done) ⊎ (result.status ≡ Status.Memory) }

    // The network is there exactly when all was done.
    ensures network { IsSome result.network ↔ (result.status ≡ Status.Done) }
{
    let Some(centres) = centres_asked(words) else {
        return ended(Status::Usage);
    };
    let text = match read_text(alloc, script) {
        Ok(text) => text,
        Err(end) => return ended(end.status()),
    };
    match run(alloc, centres, &text, out) {
        Ok((network, _)) => Played {
            status: Status::Done,
            network: Some(network),
        },
        Err(end) => ended(end.status()),
    }
}

/// A play that ended without a network.
pub(crate) fn ended(status: Status) -> Played
    ensures status { result.status ≡ status }
    ensures network { result.network ≡ None }
{
    Played {
        status,
        network: None,
    }
}

/// How many centres the words ask for a play of. `None` exactly when they ask for no play.
fn centres_asked(words: &[String]) -> Option<u8>
    ensures found { IfSome result (AskToPlay (map string_bytes words.now)) }
    ensures only { (centres : ℕ) → AskToPlay (map string_bytes words.now) centres → result ≡ Some centres }
{
    match number_asked(words, b"play", MAX_CENTRES as u32) {
        Some(centres) => Some(centres as u8),
        None => None,
    }
}

/// Runs a script's text on a new network, and counts what came of it.
pub(crate) fn run<K: Sink>(
    alloc: Global,
    centres: u8,
    text: &[u8],
    out: &mut K,
) -> Result<(Network, Tally), RunEnd>
    requires short { length text.now ≤ LONGEST_TEXT }
    requires some { 1 ≤ centres }
    requires few { centres ≤ MAX_CENTRES }

    // The whole text was played; or the play ended before, for the reason that is returned.
    ensures ok { IfOk result (λ played. IsTallied centres (first_world centres) text.now played.0
        (K.written out.old) (K.written out.new) played.1) }
    ensures writes { OnOk result (WritesEach (lines_of text.now) (K.writes out.old) (K.writes out.new)) }
    ensures err { IfErr result (IsRunEnd centres (first_world centres) text.now
        (K.written out.old) (K.written out.new) (K.write_faults out.old) (K.write_faults out.new)) }
    ensures counted { K.write_faults out.old ≤ K.write_faults out.new }
{
    let limits = Limits {
        frames: FRAMES,
        records: RECORDS,
    };
    let Ok(mut network) = Network::open(alloc, centres, limits) else {
        return Err(RunEnd::Unanswered(AnswerEnd::Memory));
    };
    let tally = run_lines(alloc, centres, text, &mut network, out)?;
    Ok((network, tally))
}

/// The answers of a play so far.
#[derive(Drop)]
struct Answers {
    /// The text of the last one.
    text: Vec<u8>,
    /// Where its screens are painted.
    buffer: [u8; BUFFER],
    /// What all of them add up to.
    tally: Tally,
}

/// Runs the lines of a text, one after another, and counts what came of them.
fn run_lines<K: Sink>(
    alloc: Global,
    centres: u8,
    text: &[u8],
    network: &mut Network,
    out: &mut K,
) -> Result<Tally, RunEnd>
    requires short { length text.now ≤ LONGEST_TEXT }
    requires centres { length network.old.centres ≡ centres }
    requires some { 1 ≤ centres }
    requires few { centres ≤ MAX_CENTRES }
    requires new { StandsFor network.old (first_world centres) }

    // Every line was played; or the play ended at one, for the reason that is returned.
    ensures ok { IfOk result (λ tally. IsTallied centres (first_world centres) text.now network.new
        (K.written out.old) (K.written out.new) tally) }
    ensures writes { OnOk result (WritesEach (lines_of text.now) (K.writes out.old) (K.writes out.new)) }
    ensures err { IfErr result (IsRunEnd centres (first_world centres) text.now
        (K.written out.old) (K.written out.new) (K.write_faults out.old) (K.write_faults out.new)) }
    ensures counted { K.write_faults out.old ≤ K.write_faults out.new }
{
    let mut answers = Answers {
        text: Vec::new(alloc),
        buffer: [0; BUFFER],
        tally: Tally::new(),
    };
    let mut rest = text;
    let mut number = 0;
    while !rest.is_empty() {
        let (line, later) = first_line(rest);
        number += 1;
        run_line(alloc, centres, line, number, network, &mut answers, out)?;
        rest = later;
    }
    Ok(answers.tally)
}

/// Runs one line, of this number, in a play of this many centres.
fn run_line<K: Sink>(
    alloc: Global,
    centres: u8,
    line: &[u8],
    number: u32,
    network: &mut Network,
    answers: &mut Answers,
    out: &mut K,
) -> Result<(), RunEnd>
    requires centres { length network.old.centres ≡ centres }
    requires some { 1 ≤ centres }
    requires few { centres ≤ MAX_CENTRES }
    requires room { IsTallyWithin answers.old.tally number }

    // The line was played; or the play ends at it, for the reason that is returned.
    ensures ok { OnOk result (HasRun centres (number == 1) line.now network.old network.new
        (K.written out.old) (K.written out.new) answers.old.tally answers.new.tally) }
    ensures writes { OnOk result (WritesEach (line.now ∷ []) (K.writes out.old) (K.writes out.new)) }
    ensures err { IfErr result (IsLineEnd centres line.now number network.old
        (K.written out.old) (K.written out.new) (K.write_faults out.old) (K.write_faults out.new)) }
    ensures counted { K.write_faults out.old ≤ K.write_faults out.new }

    // There are as many centres as before, and the tally counts the line.
    ensures centres { length network.new.centres ≡ length network.old.centres }
    ensures within { (count : ℕ) → IsTallyWithin answers.old.tally count
        → IsTallyWithin answers.new.tally (count + 1) }
{
    match parse(line, number == 1, centres) {
        None => Err(RunEnd::BadLine { line: number }),
        Some(Command::Nothing) => Ok(()),
        Some(Command::Limits(limits)) => {
            match begin_again(alloc, centres, limits, network, answers, out) {
                Ok(()) => Ok(()),
                Err(end) => Err(RunEnd::Unanswered(end)),
            }
        }
        Some(Command::Do(event)) => match run_event(&event, network, answers, out) {
            Ok(()) => Ok(()),
            Err(end) => Err(RunEnd::Unanswered(end)),
        },
    }
}

/// Begins the play again with these limits, and writes the answer. Nothing has happened yet.
fn begin_again<K: Sink>(
    alloc: Global,
    centres: u8,
    limits: Limits,
    network: &mut Network,
    answers: &mut Answers,
    out: &mut K,
) -> Result<(), AnswerEnd>
    requires centres { length network.old.centres ≡ centres }
    requires some { 1 ≤ centres }
    requires few { centres ≤ MAX_CENTRES }

    // The answer is written; or memory ran out, or the write failed.
    ensures ok { OnOk result (GivesAnswer (commands.Limits limits) network.old network.new (K.written out.old)
        (K.written out.new) answers.old.tally answers.new.tally) }
    ensures writes { OnOk result (K.writes out.new ≡ one_more (K.writes out.old)) }
    ensures err { IfErr result (IsAnswerEnd (commands.Limits limits) network.old
        (K.written out.old) (K.written out.new) (K.write_faults out.old) (K.write_faults out.new)) }
    ensures counted { K.write_faults out.old ≤ K.write_faults out.new }

    // There are as many centres as before, and nothing is counted.
    ensures centres { length network.new.centres ≡ length network.old.centres }
    ensures tally { answers.new.tally ≡ answers.old.tally }
{
    let Ok(fresh) = Network::open(alloc, centres, limits) else {
        return Err(AnswerEnd::Memory);
    };
    *network = fresh;
    answers.text.clear();
    if push_limits(&mut answers.text, limits).is_err() {
        return Err(AnswerEnd::Memory);
    }
    write_answer(&answers.text, out)
}

/// Lets an event happen, counts what came of it, and writes the answer by one write.
fn run_event<K: Sink>(
    event: &Event,
    network: &mut Network,
    answers: &mut Answers,
    out: &mut K,
) -> Result<(), AnswerEnd>
    requires possible { IsPossible network.old event.now }
    requires room { IsTallyWithin answers.old.tally (2 ^ 32) }
    ensures ok { OnOk result (GivesAnswer (Do event.now) network.old network.new (K.written out.old)
        (K.written out.new) answers.old.tally answers.new.tally) }
    ensures writes { OnOk result (K.writes out.new ≡ one_more (K.writes out.old)) }
    ensures err { IfErr result (IsAnswerEnd (Do event.now) network.old
        (K.written out.old) (K.written out.new) (K.write_faults out.old) (K.write_faults out.new)) }

    // No count of faults falls, no centre is lost, and the tally has at most one line's outcome more.
    ensures counted { K.write_faults out.old ≤ K.write_faults out.new }
    ensures centres { length network.new.centres ≡ length network.old.centres }
    ensures within { (count : ℕ) → IsTallyWithin answers.old.tally count
        → IsTallyWithin answers.new.tally (count + 1) }
{
    let answer = network.step(event);
    let Ok(outcome) = &answer else {
        return Err(AnswerEnd::Memory);
    };
    answers.tally.add(outcome);
    answers.text.clear();
    if push_answer(&mut answers.text, &mut answers.buffer, outcome).is_err() {
        return Err(AnswerEnd::Memory);
    }
    write_answer(&answers.text, out)
}
