//! Laws of statements, each the clause of a function that does nothing.

ghost use Rattle.std.specs.Prelude.{◌≡◌, ℕ, ◌≤◌, List, true};
ghost use Rattle.pv_edits.specs.declared.record.Record.{Record};
ghost use Rattle.pv_udc.specs.Bills.{billed_pence};
ghost use Rattle.pv_statement.specs.Laws.{HaveMoments, all_months, pence_of_months};
ghost use Rattle.pv_statement.specs.Months.{IsMonth, IsDateOf, is_in_month, day_in_month};

/// The sums of an account's statements, for all months from 1970-01 to 2099-12, add up to the sum of its
/// bill.
pub fn months_add_up()
    ensures { (records : List Record) (account : ℕ) → HaveMoments records account
        → pence_of_months records account all_months ≡ billed_pence records account }
{}

/// A moment lies in a month, on one of its days, exactly when that is its date by the Gregorian calendar.
pub fn dates_are_those_of_the_calendar()
    ensures written { (year month moment : ℕ) → IsMonth year month → is_in_month year month moment ≡ true
        → IsDateOf year month (day_in_month year month moment) moment }
    ensures only { (year month day moment : ℕ) → IsMonth year month → IsDateOf year month day moment
        → (is_in_month year month moment ≡ true) × (day ≡ day_in_month year month moment) }
{}
