ghost use Rattle.std.specs.Prelude.{◌≡◌, ◌↔◌, ◌≤◌, ℕ, List, map, string_bytes};
ghost use Rattle.pv_outside.specs.Counts.{Rose};
ghost use Rattle.pv_office.specs.Options.{AskForStatement, AskNoStatement};
ghost use Rattle.pv_office.specs.Statements.{IsStatementEnd};

use crate::options::{StatementOptions, statement_options};
use crate::status::OfficeStatus;
use pv_node::{Node, Rules};
use pv_outside::{Disk, Limits, MAX_FRAMES, MAX_RECORDS, Reports, Sink};
use pv_statement::statement;
use pv_udc::UdcRules;
use std::alloc::Global;

/// The limits of the Update Centre: as many frames and records as any node may have.
pub(crate) const LIMITS: Limits = Limits {
    frames: MAX_FRAMES,
    records: MAX_RECORDS,
};

/// Writes the statement of an account for a month, from the disk of the Update Centre, if the words are those of
/// [`statement_options`].
pub fn statement_of<K: Sink, D: Disk + Drop>(
    alloc: Global,
    words: &[String],
    disk: D,
    out: &mut K,
) -> OfficeStatus<D>
    // The words are refused exactly when they ask for no statement, and then nothing is written.
    ensures usage { (result ≡ OfficeStatus.Usage) ↔ AskNoStatement (map string_bytes words.now) }
    ensures unwritten { result ≡ OfficeStatus.Usage → out.new ≡ out.old }

    // If they ask for one, this is written: the statement at the records of the disk.
    ensures ends { (folder : List ℕ) (account year month : ℕ)
        → AskForStatement (map string_bytes words.now) folder account year month
        → IsStatementEnd ⟦<UdcRules as Rules>⟧ D.Reports disk account year month
        (K.written out.old) (K.written out.new) result }

    // A fault of the output comes only if its count rose.
    ensures write_fault { result ≡ OfficeStatus.WriteFault
        → Rose (K.write_faults out.old) (K.write_faults out.new) }
    ensures counted { K.write_faults out.old ≤ K.write_faults out.new }
{
    let Some(options) = statement_options(words) else {
        return OfficeStatus::Usage;
    };
    match Node::<UdcRules, D>::open(alloc, disk, LIMITS) {
        Ok(node) => OfficeStatus::of_statement(statement(
            node.state(),
            options.account,
            options.year,
            options.month,
            out,
        )),
        Err((fault, _)) => OfficeStatus::of_open(fault),
    }
}
