ghost use Rattle.std.specs.Prelude.{◌≡◌, ℕ, ◌+◌, ◌*◌, ◌<◌, ◌≤◌, ◌↔◌, length, take, true, None, Some, OnOk, OnErr, IfOk, IfSome, IsErrOf, slice_get};
ghost use Rattle.std.specs.Io.KnownBytes.{Appends};
ghost use Rattle.pv_outside.specs.Counts.{CountsFaults, Rose};
ghost use Rattle.pv_outside.specs.Sink.{Writes};
ghost use Rattle.pv_outside.specs.declared.limits.TheConstants.{MAX_RECORDS};
ghost use Rattle.pv_charge.specs.declared.line.TheConstants.{MAX_PRICE};
ghost use Rattle.pv_edits.specs.Edits.{account_at};
ghost use Rattle.pv_edits.specs.declared.record.Record.{Record};
ghost use Rattle.pv_statement.specs.Months.{IsMonth, is_in_month};
ghost use Rattle.pv_statement.specs.Statement.{month_lines, month_pence, line_in_month, text_of_line, pence_of_line, count_of_line, head_text, statement_line, statement_lines, sum_text, statement_text};

use crate::fault::StatementFault;
use crate::month::Month;
use crate::spelling::{DAY_SECONDS, LINE_ROOM, spell_head, spell_line, spell_sum};
use pv_charge::{Bill, Line};
use pv_edits::Record;
use pv_outside::{Failed, Sink};
use pv_page::AccountNo;
use pv_post::Item;
use pv_udc::UdcState;

/// Writes the statement of an account for a month, and returns how many lines of its bill are in it. The
/// year is 1970 to 2099, the month 1 to 12.
///
/// [`StatementFault::NoAccount`] exactly when there is no such account, and then nothing is written.
/// [`StatementFault::WriteFault`] only if the sink's count rose, and then a prefix of the statement was
/// written.
pub fn statement<K: Sink>(
    udc: &UdcState,
    account: AccountNo,
    year: u16,
    month: u8,
    out: &mut K,
) -> Result<u32, StatementFault>
    requires { IsMonth year month }
    ensures written { OnOk result (Appends (K.written out.old) (K.written out.new)
        (statement_text udc.now.records account year month)) }
    ensures lines { IfOk result (λ lines. lines ≡ length (month_lines udc.now.records account year month)) }

    // There is no such account, and then nothing is written; or a prefix is.
    ensures unknown { IsErrOf result StatementFault.NoAccount ↔ (account_at udc.now.records account ≡ None) }
    ensures silent { IsErrOf result StatementFault.NoAccount → out.new ≡ out.old }
    ensures prefix { OnErr result ((n : ℕ) × Appends (K.written out.old) (K.written out.new)
        (take n (statement_text udc.now.records account year month))) }

    // The sink's count never falls, and a fault is returned only if it rose.
    ensures counted { K.write_faults out.old ≤ K.write_faults out.new }
    ensures failed { IsErrOf result StatementFault.WriteFault
        → Rose (K.write_faults out.old) (K.write_faults out.new) }
{
    if udc.base().account(account).is_none() {
        return Err(StatementFault::NoAccount);
    }
    match put_statement(udc, account, &Month::new(year, month), out) {
        Ok(lines) => Ok(lines),
        Err(Failed) => Err(StatementFault::WriteFault),
    }
}

/// Writes the whole statement, and returns how many lines of the bill are in it.
fn put_statement<K: Sink>(
    udc: &UdcState,
    account: AccountNo,
    month: &Month,
    out: &mut K,
) -> Result<u32, Failed>
    ensures written { Writes (K.written out.old) (K.written out.new) result
        (statement_text udc.now.records account month.now.year month.now.number) }
    ensures counted { CountsFaults (K.write_faults out.old) (K.write_faults out.new) result }
    ensures lines { IfOk result (λ lines.
        lines ≡ length (month_lines udc.now.records account month.now.year month.now.number)) }
{
    put_head(account, month, out)?;
    let bill = put_lines(udc, account, month, out)?;
    put_sum(bill.pence, out)?;
    Ok(bill.lines)
}

/// Writes the lines of the bill that the month has, and returns how many they are and the sum of their
/// prices.
fn put_lines<K: Sink>(
    udc: &UdcState,
    account: AccountNo,
    month: &Month,
    out: &mut K,
) -> Result<Bill, Failed>
    ensures written { Writes (K.written out.old) (K.written out.new) result
        (statement_lines udc.now.records account month.now.year month.now.number) }
    ensures counted { CountsFaults (K.write_faults out.old) (K.write_faults out.new) result }
    ensures lines { IfOk result (λ bill.
        bill.lines ≡ length (month_lines udc.now.records account month.now.year month.now.number)) }
    ensures pence { IfOk result (λ bill.
        bill.pence ≡ month_pence udc.now.records account month.now.year month.now.number) }
{
    let mut bill = Bill::new();
    for place in 0..udc.front() {
        put_at(udc, account, month, place, &mut bill, out)?;
    }
    Ok(bill)
}

/// Writes the line of the record at a place and adds it to the bill, if it is one of the account and its
/// date lies in the month.
fn put_at<K: Sink>(
    udc: &UdcState,
    account: AccountNo,
    month: &Month,
    place: u64,
    bill: &mut Bill,
    out: &mut K,
) -> Result<(), Failed>
    requires place { place < length udc.now.records }
    requires within { place < MAX_RECORDS }
    requires few { bill.old.lines ≤ place }
    requires low { bill.old.pence ≤ MAX_PRICE * place }

    // The line's text is written.
    ensures written { (edit : Record) → slice_get udc.now.records place ≡ Some edit
        → Writes (K.written out.old) (K.written out.new) result
        (text_of_line month.now.year month.now.number (line_in_month account month.now.year month.now.number edit)) }
    ensures counted { CountsFaults (K.write_faults out.old) (K.write_faults out.new) result }

    // The bill has the line.
    ensures lines { (edit : Record) → slice_get udc.now.records place ≡ Some edit → OnOk result
        (bill.new.lines ≡ bill.old.lines
        + count_of_line (line_in_month account month.now.year month.now.number edit)) }
    ensures pence { (edit : Record) → slice_get udc.now.records place ≡ Some edit → OnOk result
        (bill.new.pence ≡ bill.old.pence
        + pence_of_line (line_in_month account month.now.year month.now.number edit)) }
    ensures few { OnOk result (bill.new.lines ≤ place + 1) }
    ensures low { OnOk result (bill.new.pence ≤ MAX_PRICE * (place + 1)) }
{
    match line_at(udc, account, month, place) {
        Some(line) => {
            line.within();
            put_line(month, &line, out)?;
            bill.add(&line);
            Ok(())
        }
        None => Ok(()),
    }
}

/// The charge line that the record at a place brought, if it is one of the account and its date lies in
/// the month.
fn line_at(udc: &UdcState, account: AccountNo, month: &Month, place: u64) -> Option<Line>
    requires { place < length udc.now.records }
    ensures value { (edit : Record) → slice_get udc.now.records place ≡ Some edit
        → result ≡ line_in_month account month.now.year month.now.number edit }
    ensures within { IfSome result (λ line. is_in_month month.now.year month.now.number line.moment ≡ true) }
{
    match udc.rec_at(place) {
        Some(Record::Taken(taken)) => match taken.item {
            Item::Charge(line) if line.account == account && is_in(month, line.moment) => Some(
                line,
            ),
            _ => None,
        },
        _ => None,
    }
}

/// Whether the date of a moment lies in the month.
fn is_in(month: &Month, moment: u32) -> bool
    ensures { result ≡ is_in_month month.now.year month.now.number moment }
{
    let day = moment / DAY_SECONDS;
    month.first <= day && day < month.first + u32::from(month.days)
}

/// Writes the first line.
fn put_head<K: Sink>(account: AccountNo, month: &Month, out: &mut K) -> Result<(), Failed>
    ensures written { Writes (K.written out.old) (K.written out.new) result
        (head_text account month.now.year month.now.number) }
    ensures counted { CountsFaults (K.write_faults out.old) (K.write_faults out.new) result }
{
    let mut bytes = [0; LINE_ROOM];
    let size = spell_head(account, month, &mut bytes);
    out.write_all(&bytes[..size])
}

/// Writes a line of the bill. Its date lies in the month.
fn put_line<K: Sink>(month: &Month, line: &Line, out: &mut K) -> Result<(), Failed>
    requires { is_in_month month.now.year month.now.number line.now.moment ≡ true }
    ensures written { Writes (K.written out.old) (K.written out.new) result
        (statement_line month.now.year month.now.number line.now) }
    ensures counted { CountsFaults (K.write_faults out.old) (K.write_faults out.new) result }
{
    let mut bytes = [0; LINE_ROOM];
    let size = spell_line(month, line, &mut bytes);
    out.write_all(&bytes[..size])
}

/// Writes the last line.
fn put_sum<K: Sink>(pence: u64, out: &mut K) -> Result<(), Failed>
    ensures written { Writes (K.written out.old) (K.written out.new) result (sum_text pence) }
    ensures counted { CountsFaults (K.write_faults out.old) (K.write_faults out.new) result }
{
    let mut bytes = [0; LINE_ROOM];
    let size = spell_sum(pence, &mut bytes);
    out.write_all(&bytes[..size])
}
