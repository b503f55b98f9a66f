ghost use Rattle.std.specs.Prelude.{◌≡◌, ℕ, ◌≤◌, ◌↔◌, map, string_bytes};
ghost use Rattle.pv_outside.specs.Counts.{Rose};
ghost use Rattle.pv_script.specs.Generating.{AskToGenerate, AskNoScript, WritesScript};

use crate::asking::number_asked;
use pv_gen::{LAST_NUMBER, script};
use pv_outside::{Failed, Sink, Status};

/// Writes the generated script of the number that the words ask for. It takes no memory.
pub fn generate<K: Sink>(words: &[String], out: &mut K) -> Status
    // If they ask for a script, it is written whole; or a prefix of it, if the output failed.
    ensures generates { (number : ℕ) → AskToGenerate (map string_bytes words.now) number
        → WritesScript number (K.written out.old) (K.written out.new) result }

    // The words are refused exactly when they ask for no script, and then nothing is written.
    ensures usage { (result ≡ Status.Usage) ↔ AskNoScript (map string_bytes words.now) }
    ensures unwritten { result ≡ Status.Usage → out.new ≡ out.old }

    // The output failed only if its count rose. So if the words ask for a script and no count rises, all is done.
    ensures write_fault { result ≡ Status.WriteFault
        → Rose (K.write_faults out.old) (K.write_faults out.new) }
    ensures counted { K.write_faults out.old ≤ K.write_faults out.new }
    ensures succeeds { (number : ℕ) → AskToGenerate (map string_bytes words.now) number
        → (Rose (K.write_faults out.old) (K.write_faults out.new) → ⊥) → result ≡ Status.Done }
{
    let Some(number) = number_asked(words, b"gen", LAST_NUMBER) else {
        return Status::Usage;
    };
    match script(number, out) {
        Ok(()) => Status::Done,
        Err(Failed) => Status::WriteFault,
    }
}
