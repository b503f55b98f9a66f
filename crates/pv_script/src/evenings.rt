ghost use Rattle.std.specs.Prelude.{◌≡◌, ℕ, ◌≤◌, ◌↔◌, ◌⊎◌, List, length, map, None, Some, IfOk, IfErr, IsSome, string_bytes};
ghost use Rattle.pv_outside.specs.Counts.{Rose};
ghost use Rattle.pv_outside.specs.declared.failed.TheConstants.{COUNT_END};
ghost use Rattle.pv_gen.specs.Script.{script_of};
ghost use Rattle.pv_gen.specs.declared.writing.TheConstants.{LAST_NUMBER};
ghost use Rattle.pv_network.specs.Standing.{StandsFor};
ghost use Rattle.pv_network.specs.World.{World};
ghost use Rattle.pv_script.specs.Ends.{IsTallied, run_status};
ghost use Rattle.pv_script.specs.Evening.{AskForEvening, AskNoEvening, IsEveningOf, summary_text};
ghost use Rattle.pv_script.specs.Play.{first_world};

use crate::answer::push_summary;
use crate::asking::number_asked;
use crate::ends::{AnswerEnd, RunEnd};
use crate::playing::{Played, ended, run};
use crate::tally::Tally;
use pv_gen::{LAST_NUMBER, script};
use pv_input::LONGEST_TEXT;
use pv_memory::MemSink;
use pv_network::{Event, Network, Outcome};
use pv_outside::{Failed, Sink, Status};
use std::alloc::{AllocError, Global};

/// Plays the generated script of the number that the words ask for, on one centre, and writes what
/// came of it in one line: the records of the Update Centre, the screens, the charge lines and the
/// sum of the bill.
pub fn evening<K: Sink>(alloc: Global, words: &[String], out: &mut K) -> Played
    // If they ask for an evening, its script was run, and the line was written; or the output
    // failed, or memory ran out.
    ensures plays { (number : ℕ) → AskForEvening (map string_bytes words.now) number
        → IsEveningOf number result.network (K.written out.old) (K.written out.new) result.status }

    // The words are refused exactly when they ask for no evening, and then nothing is written.
    ensures usage { (result.status ≡ Status.Usage) ↔ AskNoEvening (map string_bytes words.now) }
    ensures unwritten { result.status ≡ Status.Usage → out.new ≡ out.old }

    // The output failed only if its count rose. So if the words ask for an evening and no count
    // rises, all is done, or memory ran out.
    ensures write_fault { result.status ≡ Status.WriteFault
        → Rose (K.write_faults out.old) (K.write_faults out.new) }
    ensures counted { K.write_faults out.old ≤ K.write_faults out.new }
    ensures succeeds { (number : ℕ) → AskForEvening (map string_bytes words.now) number
        → (Rose (K.write_faults out.old) (K.write_faults out.new) → ⊥)
        → (result.status ≡ Status.Done) ⊎ (result.status ≡ Status.Memory) }

    // The network is there exactly when all was done.
    ensures network { IsSome result.network ↔ (result.status ≡ Status.Done) }
{
    let Some(number) = number_asked(words, b"evening", LAST_NUMBER) else {
        return ended(Status::Usage);
    };
    match play_evening(alloc, number, out) {
        Ok(network) => Played {
            status: Status::Done,
            network: Some(network),
        },
        Err(end) => ended(end.status()),
    }
}

/// Plays the generated script of a number, and writes the summary.
fn play_evening<K: Sink>(alloc: Global, number: u32, out: &mut K) -> Result<Network, RunEnd>
    requires some { 1 ≤ number }
    requires within { number ≤ LAST_NUMBER }
    ensures ok { IfOk result (λ network. IsEveningOf number (Some network)
        (K.written out.old) (K.written out.new) Status.Done) }
    ensures err { IfErr result (λ end. IsEveningOf number None
        (K.written out.old) (K.written out.new) (run_status end)) }

    // A write fault is a fault of the sink, whose count never falls.
    ensures write_fault { IfErr result (λ end. run_status end ≡ Status.WriteFault
        → Rose (K.write_faults out.old) (K.write_faults out.new)) }
    ensures counted { K.write_faults out.old ≤ K.write_faults out.new }
{
    let (mut network, tally) = run_script(alloc, number)?;
    let Ok(summary) = summary(alloc, &mut network, tally) else {
        return Err(RunEnd::Unanswered(AnswerEnd::Memory));
    };
    if out.write_all(&summary).is_err() {
        return Err(RunEnd::Unanswered(AnswerEnd::Fault));
    }
    Ok(network)
}

/// Runs the generated script of a number on one centre, and counts what came of it. The only error
/// is that memory ran out.
fn run_script(alloc: Global, number: u32) -> Result<(Network, Tally), RunEnd>
    requires some { 1 ≤ number }
    requires within { number ≤ LAST_NUMBER }
    ensures ok { IfOk result (λ played. IsTallied 1 (first_world 1) (script_of number) played.0
        None None played.1) }
    ensures memory { IfErr result (λ end. end ≡ RunEnd.Unanswered AnswerEnd.Memory) }
{
    let Ok(text) = script_text(alloc, number) else {
        return Err(RunEnd::Unanswered(AnswerEnd::Memory));
    };
    run(alloc, 1, text.bytes(), &mut Nowhere)
}

/// The generated script of a number. The only error is that memory ran out, since the longest
/// script has room.
fn script_text(alloc: Global, number: u32) -> Result<MemSink, AllocError>
    requires some { 1 ≤ number }
    requires within { number ≤ LAST_NUMBER }
    ensures { IfOk result (λ text. text.bytes ≡ script_of number) }
{
    let mut text = MemSink::new(alloc, LONGEST_TEXT, &[])?;
    match script(number, &mut text) {
        Ok(()) => Ok(text),
        Err(Failed) => Err(AllocError),
    }
}

/// The line that sums up a play: the records of the Update Centre, which the network lists, and the
/// tally. The only error is that memory ran out.
fn summary(alloc: Global, network: &mut Network, tally: Tally) -> Result<Vec<u8>, AllocError>
    ensures { IfOk result (λ line. (w : World) → StandsFor network.old w → StandsFor network.new w
        × (line.items ≡ summary_text (length w.update.records) tally)) }
{
    let Outcome::Records { count } = network.step(&Event::List)? else {
        return Err(AllocError);
    };
    let mut line = Vec::new(alloc);
    push_summary(&mut line, count, tally)?;
    Ok(line)
}

/// A sink that keeps nothing of what is written to it.
#[derive(Drop)]
struct Nowhere;

impl Sink for Nowhere {
    ghost write_faults = { λ _. 0 };

    ghost written = { λ _. None };

    ghost writes = { λ _. COUNT_END };

    fn write_all(&mut self, _bytes: &[u8]) -> Result<(), Failed> {
        Ok(())
    }
}
