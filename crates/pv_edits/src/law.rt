ghost use Rattle.pv_fields.specs.Reading.{ReadsBack};
ghost use Rattle.pv_edits.specs.Down.{IsDown, down_bytes};
ghost use Rattle.pv_edits.specs.Record.{IsRecord, record_bytes};

/// A law: no spelling of a record is a prefix of another's, so bytes spell at most one record.
pub fn no_record_begins_another()
    ensures { ReadsBack IsRecord record_bytes }
{}

/// A law: no spelling of what goes down is a prefix of another's, so bytes spell at most one such record.
pub fn no_down_record_begins_another()
    ensures { ReadsBack IsDown down_bytes }
{}
