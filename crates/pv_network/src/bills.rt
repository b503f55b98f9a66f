ghost use Rattle.std.specs.Prelude.{◌≡◌, ◌<◌, ◌≤◌, Some, length, slice_get, option_map, IfOk};
ghost use Rattle.pv_edits.specs.declared.record.Record.{Record};
ghost use Rattle.pv_post.specs.declared.item.Item.{Item};
ghost use Rattle.pv_network.specs.Bills.{bill_answer, billed_in, bill_lines, stored_lines};
ghost use Rattle.pv_network.specs.Charging.{line_at, line_in};

use crate::lines::BillLines;
use crate::outcome::{BillLine, Outcome};
use pv_edits::Record;
use pv_irc::IrcState;
use pv_page::AccountNo;
use pv_post::Item;
use pv_udc::UdcState;
use std::alloc::{AllocError, Global};

/// The bill of an account: the charge lines that the Update Centre took up for it. They are found from the
/// last one back, and no other record is read. The only error is that memory ran out.
pub(crate) fn bill(
    alloc: Global,
    update: &UdcState,
    account: AccountNo,
) -> Result<Outcome, AllocError>
    ensures { IfOk result (λ outcome. outcome ≡ bill_answer (bill_lines update.now.records account)) }
{
    let mut lines = BillLines::new(alloc);
    let mut next = update.last_charge(account);
    while let Some(place) = next {
        lines.add(billed_at(update, account, place))?;
        next = update.charge_before(place);
    }
    lines.reverse();
    Ok(answer(lines))
}

/// The charge line of an account that the record at a place brought, with its centre. `None` if it brought none.
fn billed_at(update: &UdcState, account: AccountNo, place: u64) -> Option<BillLine>
    requires { place < length update.now.records }
    ensures { (rec : Record) → slice_get update.now.records place ≡ Some rec
        → result ≡ billed_in account rec }
{
    match update.rec_at(place) {
        Some(Record::Taken(taken)) => match taken.item {
            Item::Charge(line) if line.account == account => Some(BillLine {
                centre: taken.centre,
                line,
            }),
            _ => None,
        },
        _ => None,
    }
}

/// The charge lines that a centre has stored. The only error is that memory ran out.
pub(crate) fn stored_lines(
    alloc: Global,
    centre: u8,
    state: &IrcState,
) -> Result<Outcome, AllocError>
    requires { length state.now.items ≤ state.now.limits.records }
    ensures { IfOk result (λ outcome. outcome ≡ bill_answer (stored_lines centre state.now.items)) }
{
    let mut lines = BillLines::new(alloc);
    for number in 0..state.items() {
        lines.add(stored_at(state, centre, number))?;
    }
    Ok(answer(lines))
}

/// The charge line that the item of a number is, with its centre. `None` if it is none.
fn stored_at(state: &IrcState, centre: u8, number: u64) -> Option<BillLine>
    requires { number < length state.now.items }
    ensures { (item : Item) → slice_get state.now.items number ≡ Some item
        → result ≡ option_map (line_at centre) (line_in item) }
{
    match state.item_at(number) {
        Some(Item::Charge(line)) => Some(BillLine {
            centre,
            line: *line,
        }),
        _ => None,
    }
}

/// The answer that has these charge lines.
fn answer(lines: BillLines) -> Outcome
    ensures { result ≡ bill_answer lines }
{
    let pence = lines.pence();
    Outcome::Bill { lines, pence }
}
