//! The word `tape`, over any tape, output and disk.
ghost use Rattle.std.specs.Prelude.{◌≡◌, ◌≢◌, ◌↔◌, ◌≤◌, List, ℕ, [], ◌∷◌, take, map, string_bytes, IfSome, IsNone};
ghost use Rattle.pv_outside.specs.Counts.{CountsFaults, Rose};
ghost use Rattle.pv_outside.specs.Sink.{Writes};
ghost use Rattle.pv_office.specs.Options.{AskForTape, AskNoTape};
ghost use Rattle.pv_office.specs.Tapes.{counts_text, LoadsTape, IsTapeEnd};

use crate::statements::LIMITS;
use crate::status::OfficeStatus;
use itoa::Buffer;
use pv_fields::Out;
use pv_node::{Node, Rules};
use pv_outside::{Disk, Failed, Sink, Source};
use pv_tape::{TapeEnd, run_tape};
use pv_udc::UdcRules;
use std::alloc::Global;

/// How many bytes the line of the counts has at most, with its end.
const COUNTS_ROOM: usize = 40;

/// The folder that the words name, if they are `tape` and a folder. `None` exactly when they are not.
pub fn tape_folder(words: &[String]) -> Option<&str>
    ensures found { IfSome result (λ folder. AskForTape (map string_bytes words.now) folder.now) }
    ensures none { IsNone result ↔ AskNoTape (map string_bytes words.now) }
{
    match words {
        [command, folder] => folder_after(command, folder),
        _ => None,
    }
}

/// The folder after the command.
fn folder_after<'a>(command: &str, folder: &'a str) -> Option<&'a str>
    ensures found { IfSome result (λ it. AskForTape (command.now ∷ folder.entry.now ∷ []) it.now) }
    ensures none { IsNone result ↔ AskNoTape (command.now ∷ folder.entry.now ∷ []) }
{
    if command == "tape" {
        Some(folder)
    } else {
        None
    }
}

/// Loads a tape into the Update Centre on this disk, if the words are those of [`tape_folder`]. If all its edits are stored then,
/// it writes how many of them this run stored, and how many were there. The disk is handed back.
pub fn tape_of<S: Source, K: Sink, D: Disk + Drop>(
    alloc: Global,
    words: &[String],
    disk: D,
    tape: &mut S,
    out: &mut K,
) -> (OfficeStatus<D>, D)
    // The words are refused exactly when they ask for no tape, and then nothing is touched.
    ensures usage { (result.0 ≡ OfficeStatus.Usage) ↔ AskNoTape (map string_bytes words.now) }
    ensures untouched { result.0 ≡ OfficeStatus.Usage
        → (result.1 ≡ disk) × (tape.new ≡ tape.old) × (out.new ≡ out.old) }

    // If they ask for one, the disk could not be opened, and nothing was read or written. Or what was read is a text, and the run
    // of that text came to this end: a crash at any moment leaves the disk's records and then a prefix of what the tape asks for.
    ensures ends { (folder : List ℕ) → AskForTape (map string_bytes words.now) folder
        → IsTapeEnd ⟦<UdcRules as Rules>⟧ D.Reports disk result.1
        ((tape.new ≡ tape.old) × (out.new ≡ out.old))
        (record {
          taken_before = S.taken tape.old;
          taken_now = S.taken tape.new;
          left_before = S.left tape.old;
          left_now = S.left tape.new;
          ended = S.ended tape.new;
          faults_before = S.read_faults tape.old;
          faults_now = S.read_faults tape.new;
          written_before = K.written out.old;
          written_now = K.written out.new;
        }) result.0 }

    // A fault of the output comes only if its count rose.
    ensures write_fault { result.0 ≡ OfficeStatus.WriteFault
        → Rose (K.write_faults out.old) (K.write_faults out.new) }
    ensures counted { (S.read_faults tape.old ≤ S.read_faults tape.new)
        × (K.write_faults out.old ≤ K.write_faults out.new) }
{
    if tape_folder(words).is_none() {
        return (OfficeStatus::Usage, disk);
    }
    match Node::<UdcRules, D>::open(alloc, disk, LIMITS) {
        Ok(mut node) => {
            let status = load_tape(alloc, &mut node, tape, out);
            (status, node.into_disk())
        }
        Err((fault, disk)) => (OfficeStatus::of_open(fault), disk),
    }
}

/// Loads a tape into a node. If all its edits are stored then, it writes the line of the counts.
fn load_tape<S: Source, K: Sink, D: Disk>(
    alloc: Global,
    node: &mut Node<UdcRules, D>,
    tape: &mut S,
    out: &mut K,
) -> OfficeStatus<D>
    ensures loads { (text : List ℕ) × LoadsTape ⟦<UdcRules as Rules>⟧ D.Reports node.old node.new
        (record {
          taken_before = S.taken tape.old;
          taken_now = S.taken tape.new;
          left_before = S.left tape.old;
          left_now = S.left tape.new;
          ended = S.ended tape.new;
          faults_before = S.read_faults tape.old;
          faults_now = S.read_faults tape.new;
          written_before = K.written out.old;
          written_now = K.written out.new;
        }) result text }
    ensures asked { result ≢ OfficeStatus.Usage }
    ensures write_fault { result ≡ OfficeStatus.WriteFault
        → Rose (K.write_faults out.old) (K.write_faults out.new) }
    ensures read_count { S.read_faults tape.old ≤ S.read_faults tape.new }
    ensures write_count { K.write_faults out.old ≤ K.write_faults out.new }
{
    match run_tape(alloc, node, tape) {
        TapeEnd::Done { stored, skipped } => match put_counts(stored, skipped, out) {
            Ok(()) => OfficeStatus::Done,
            Err(Failed) => OfficeStatus::WriteFault,
        },
        end => OfficeStatus::of_tape(end),
    }
}

/// Writes the line of the counts.
fn put_counts<K: Sink>(stored: u32, skipped: u32, out: &mut K) -> Result<(), Failed>
    ensures written { Writes (K.written out.old) (K.written out.new) result (counts_text stored skipped) }
    ensures counted { CountsFaults (K.write_faults out.old) (K.write_faults out.new) result }
{
    let mut bytes = [0; COUNTS_ROOM];
    let size = spell_counts(stored, skipped, &mut bytes);
    out.write_all(&bytes[..size])
}

/// Spells the line of the counts, and returns how many bytes it has.
#[tactic(auto, using(crate::proofs::Counts::spelled))]
fn spell_counts(stored: u32, skipped: u32, into: &mut [u8; COUNTS_ROOM]) -> usize
    ensures within { result ≤ COUNTS_ROOM }
    ensures spelled { take result into.new ≡ counts_text stored skipped }
{
    let mut out = Out::new(into);
    out.put_run(b"stored ");
    out.put_run(Buffer::new().format(stored).as_bytes());
    out.put_run(b" skipped ");
    out.put_run(Buffer::new().format(skipped).as_bytes());
    out.put_run(b"\n");
    out.written()
}
