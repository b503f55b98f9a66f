//! The law of runs of one tape, as the clauses of a function that does nothing.

ghost use Rattle.std.specs.Prelude.{◌≡◌, ◌≤◌, ℕ, List, [], take};
ghost use Rattle.pv_edits.specs.declared.record.Record.{Record};
ghost use Rattle.pv_tape.specs.Laws.{Run, IsWhole, records_after_run, records_after_runs, HasNoEdits, HasOnlyOthers, edits_from};
ghost use Rattle.pv_tape.specs.Loading.{edit_records};
ghost use Rattle.pv_tape.specs.Tape.{TapeEdit};
ghost use Rattle.pv_tape.specs.declared.head.Head.{Head};

/// Any runs of one tape, each cut anywhere or whole, leave a prefix of its edits, each once; and once one of them was whole, all
/// of them.
///
/// The account had no edit numbered as the tape's first or above, and no other edit of it comes between the runs.
pub fn runs_leave_each_edit_once()
    ensures prefix { (head : Head) (edits : List TapeEdit) (runs : List Run) (records : List Record)
        → 1 ≤ head.first → edits_from head.account head.first records ≡ []
        → HasOnlyOthers head.account runs
        → (k : ℕ) × (edits_from head.account head.first (records_after_runs head edits records runs)
        ≡ take k (edit_records head.account head.first edits)) }
    ensures whole { (head : Head) (edits : List TapeEdit) (runs : List Run) (run : Run)
        (records : List Record) → 1 ≤ head.first → edits_from head.account head.first records ≡ []
        → HasOnlyOthers head.account runs → HasNoEdits head.account run.others
        → IsWhole head edits (records_after_runs head edits records runs) run
        → edits_from head.account head.first
        (records_after_run head edits (records_after_runs head edits records runs) run)
        ≡ edit_records head.account head.first edits }
{}
