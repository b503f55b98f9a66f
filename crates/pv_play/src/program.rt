ghost use Rattle.std.specs.Prelude.{◌≡◌, ◌≢◌, ℕ, ◌≤◌, ◌↔◌, List, map, string_bytes};
ghost use Rattle.pv_outside.specs.Counts.{Rose};
ghost use Rattle.pv_play.specs.About.{about_words, about_text};
ghost use Rattle.pv_input.specs.Reading.{HasRead};
ghost use Rattle.pv_gen.specs.Script.{script_of};
ghost use Rattle.pv_script.specs.Evening.{AskForEvening, AskNoEvening};
ghost use Rattle.pv_script.specs.Generating.{AskToGenerate, AskNoScript};
ghost use Rattle.pv_script.specs.Play.{AskToPlay, AskNoPlay, first_world, IsNotRun};
ghost use Rattle.pv_play.specs.Program.{WritesText, WritesSummary, IsRunOf};
ghost use Rattle.pv_play.specs.declared.about.About.{About};

use crate::about::About;
use pv_files::StandardOutput;
use pv_outside::{Failed, Sink, Source, Status};
use pv_script::{evening, generate, play};
use std::alloc::Global;
use std::io::Write;

/// Does what the words ask for: prints the help or the version, writes a generated script or sums
/// up its evening, or plays the script. All that the program does is this.
pub fn run_program<S: Source, W: Write + Drop>(
    alloc: Global,
    words: &[String],
    script: &mut S,
    out: &mut StandardOutput<W>,
) -> Status
    // The help and the version are written to the writer itself, and nothing is read then.
    ensures about { (about : About) → map string_bytes words.now ≡ about_words about
        → WritesText W.contents (about_text about) out.old out.new result × (script.new ≡ script.old) }

    // So is the script of the number that they ask for.
    ensures generates { (number : ℕ) → AskToGenerate (map string_bytes words.now) number
        → WritesText W.contents (script_of number) out.old out.new result × (script.new ≡ script.old) }

    // So is the summary of the evening that they ask for.
    ensures sums_up { (number : ℕ) → AskForEvening (map string_bytes words.now) number
        → WritesSummary W.contents number out.old out.new result × (script.new ≡ script.old) }

    // If they ask for a play, what was read is a text, and what the writer has now is what a run of that text
    // makes of it.
    ensures runs { (centres : ℕ) → AskToPlay (map string_bytes words.now) centres → (text : List ℕ)
        × HasRead (S.taken script.old) (S.taken script.new) (S.left script.old) (S.left script.new) text
        × IsRunOf W.contents centres (first_world centres) text (S.left script.old) (S.ended script.new) out.old out.new result }

    // The words are refused exactly when they are none of those, and then nothing is read.
    ensures usage { (result ≡ Status.Usage)
        ↔ (AskNoPlay (map string_bytes words.now) × AskNoScript (map string_bytes words.now)
        × AskNoEvening (map string_bytes words.now)
        × ((about : About) → map string_bytes words.now ≢ about_words about)) }
    ensures unread { result ≡ Status.Usage → script.new ≡ script.old }

    // Nothing is run, and nothing written, if the words, the reading or the length is at fault.
    ensures not_run { IsNotRun result → out.new ≡ out.old }

    // A fault of the outside comes only if its count rose.
    ensures read_fault { result ≡ Status.ReadFault
        → Rose (S.read_faults script.old) (S.read_faults script.new) }
    ensures write_fault { result ≡ Status.WriteFault → Rose out.old.faults out.new.faults }
    ensures counted { (S.read_faults script.old ≤ S.read_faults script.new)
        × (out.old.faults ≤ out.new.faults) }
{
    match About::asked(words) {
        Some(about) => write_about(about, out),
        None => match generate_out(words, out) {
            Status::Usage => match evening_out(alloc, words, out) {
                Status::Usage => play_out(alloc, words, script, out),
                status => status,
            },
            status => status,
        },
    }
}

/// Writes the help or the version.
fn write_about<W: Write + Drop>(about: About, out: &mut StandardOutput<W>) -> Status
    ensures about { WritesText W.contents (about_text about) out.old out.new result }
    ensures write_fault { result ≡ Status.WriteFault → Rose out.old.faults out.new.faults }
    ensures counted { out.old.faults ≤ out.new.faults }
{
    if out.write_all(about.text().as_bytes()).is_err() {
        return Status::WriteFault;
    }
    if out.flush().is_err() {
        return Status::WriteFault;
    }
    Status::Done
}

/// Writes a generated script, and flushes what is still in the buffer.
fn generate_out<W: Write + Drop>(words: &[String], out: &mut StandardOutput<W>) -> Status
    // If the words ask for a script, the writer itself has the whole of it, or the output failed after a prefix.
    ensures generates { (number : ℕ) → AskToGenerate (map string_bytes words.now) number
        → WritesText W.contents (script_of number) out.old out.new result }

    // The words are refused exactly when they ask for no script, and then nothing is written.
    ensures usage { (result ≡ Status.Usage) ↔ AskNoScript (map string_bytes words.now) }
    ensures unwritten { result ≡ Status.Usage → out.new ≡ out.old }

    // A fault of the outside comes only if its count rose.
    ensures write_fault { result ≡ Status.WriteFault → Rose out.old.faults out.new.faults }
    ensures counted { out.old.faults ≤ out.new.faults }
{
    match generate(words, out) {
        Status::Done => match out.flush() {
            Ok(()) => Status::Done,
            Err(Failed) => Status::WriteFault,
        },
        status => status,
    }
}

/// Plays an evening, and flushes its summary if that is still in the buffer.
fn evening_out<W: Write + Drop>(
    alloc: Global,
    words: &[String],
    out: &mut StandardOutput<W>,
) -> Status
    // If the words ask for an evening, the writer itself has the whole summary, or the output
    // failed after a prefix, or memory ran out.
    ensures sums_up { (number : ℕ) → AskForEvening (map string_bytes words.now) number
        → WritesSummary W.contents number out.old out.new result }

    // The words are refused exactly when they ask for no evening, and then nothing is written.
    ensures usage { (result ≡ Status.Usage) ↔ AskNoEvening (map string_bytes words.now) }
    ensures unwritten { result ≡ Status.Usage → out.new ≡ out.old }

    // A fault of the outside comes only if its count rose.
    ensures write_fault { result ≡ Status.WriteFault → Rose out.old.faults out.new.faults }
    ensures counted { out.old.faults ≤ out.new.faults }
{
    let status = evening(alloc, words, out).status;
    match status {
        Status::Done => {
            if out.flush().is_err() {
                return Status::WriteFault;
            }
            status
        }
        _ => status,
    }
}

/// Plays a script, and flushes the answers that are still in the buffer. If memory ran out, that is the
/// status, whether the answers before could be flushed or not.
fn play_out<S: Source, W: Write + Drop>(
    alloc: Global,
    words: &[String],
    script: &mut S,
    out: &mut StandardOutput<W>,
) -> Status
    // If the words ask for a play, what was read is a text, and what the writer has now is what a run of that
    // text makes of it.
    ensures runs { (centres : ℕ) → AskToPlay (map string_bytes words.now) centres → (text : List ℕ)
        × HasRead (S.taken script.old) (S.taken script.new) (S.left script.old) (S.left script.new) text
        × IsRunOf W.contents centres (first_world centres) text (S.left script.old) (S.ended script.new) out.old out.new result }

    // The words are refused exactly when they ask for no play, and then nothing is read.
    ensures usage { (result ≡ Status.Usage) ↔ AskNoPlay (map string_bytes words.now) }
    ensures unread { result ≡ Status.Usage → script.new ≡ script.old }

    // Nothing is run, and nothing written, if the words, the reading or the length is at fault.
    ensures not_run { IsNotRun result → out.new ≡ out.old }

    // A fault of the outside comes only if its count rose.
    ensures read_fault { result ≡ Status.ReadFault
        → Rose (S.read_faults script.old) (S.read_faults script.new) }
    ensures write_fault { result ≡ Status.WriteFault → Rose out.old.faults out.new.faults }
    ensures counted { (S.read_faults script.old ≤ S.read_faults script.new)
        × (out.old.faults ≤ out.new.faults) }
{
    let status = play(alloc, words, script, out).status;
    match status {
        Status::Done | Status::BadLine { .. } => match out.flush() {
            Ok(()) => status,
            Err(Failed) => Status::WriteFault,
        },
        Status::Memory => {
            let _ = out.flush();
            status
        }
        Status::Usage | Status::ReadFault | Status::TooLong | Status::WriteFault => status,
    }
}
