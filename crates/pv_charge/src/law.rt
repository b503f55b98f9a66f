ghost use Rattle.pv_fields.specs.Reading.{ReadsBack};
ghost use Rattle.pv_charge.specs.Line.{IsCharge, charge_bytes};

/// A law: no spelling of a line is a prefix of another's, so bytes begin with at most one line.
pub fn no_line_begins_another()
    ensures { ReadsBack IsCharge charge_bytes }
{}
