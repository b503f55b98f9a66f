use crate::{FIRST_YEAR, LAST_YEAR, MONTHS as LAST_MONTH, StatementFault, statement};
use pv_charge::{LAST_MOMENT, Line, MAX_PRICE};
use pv_edits::{Record, Taken};
use pv_memory::MemSink;
use pv_outside::Limits;
use pv_page::{AccountNo, FrameName};
use pv_post::Item;
use pv_udc::UdcState;
use std::alloc::Global;
use std::test::Fail;

/// Room for the lines of the tests.
const LIMITS: Limits = Limits {
    frames: 1,
    records: 5,
};

/// Who pays: the operator, whose account there always is.
const PAYER: u64 = 0;

/// The last second of January 1980, and the first of February.
const LAST_OF_JANUARY: u32 = 318_211_199;

const FIRST_OF_FEBRUARY: u32 = 318_211_200;

/// The price and the moment of each line, in the order in which they came up.
const LINES: [(u16, u32); 4] = [
    (2, 315_532_800),
    (3, FIRST_OF_FEBRUARY),
    (5, LAST_OF_JANUARY),
    (99, 4_102_444_799),
];

fn account_no(number: u64) -> Result<AccountNo, Fail> {
    Ok(AccountNo::of_number(number).ok_or("an account")?)
}

fn line(number: u32, price: u16, moment: u32) -> Result<Line, Fail> {
    if price > MAX_PRICE || moment > LAST_MOMENT {
        return Err(Fail::from("no line"));
    }
    Ok(Line {
        serial: 0,
        number,
        account: account_no(PAYER)?,
        name: FrameName::of_text(b"20a").ok_or("a name")?,
        price,
        moment,
    })
}

/// The state after these lines.
fn billed(alloc: Global) -> Result<UdcState, Fail> {
    let mut state = UdcState::open(alloc, LIMITS)?;
    for (i, (price, moment)) in LINES.iter().enumerate() {
        let record = Record::Taken(Taken {
            centre: 0,
            k: i as u64,
            item: Item::Charge(line(i as u32, *price, *moment)?),
        });
        if state.is_full() || !state.has_room(&record) {
            return Err(Fail::from("no room"));
        }
        let front = state.front();
        state.absorb(&record, front);
    }
    Ok(state)
}

/// A month, how many lines of the bill it has, and its statement.
const MONTHS: [(u16, u8, u32, &str); 5] = [
    (
        1980,
        1,
        2,
        "STATEMENT 0000000000 1980-01\n1980-01-01 00:00:00 20a 2\n1980-01-31 23:59:59 20a 5\nSUM 7\n",
    ),
    (
        1980,
        2,
        1,
        "STATEMENT 0000000000 1980-02\n1980-02-01 00:00:00 20a 3\nSUM 3\n",
    ),
    (1980, 3, 0, "STATEMENT 0000000000 1980-03\nSUM 0\n"),
    (1970, 1, 0, "STATEMENT 0000000000 1970-01\nSUM 0\n"),
    (
        2099,
        12,
        1,
        "STATEMENT 0000000000 2099-12\n2099-12-31 23:59:59 20a 99\nSUM 99\n",
    ),
];

#[test]
fn statements_have_the_lines_of_their_months(rt: HostRuntime) -> Result<(), Fail> {
    let state = billed(rt.alloc())?;
    for &(year, month, lines, text) in &MONTHS {
        if year < FIRST_YEAR || LAST_YEAR < year || month < 1 || LAST_MONTH < month {
            return Err(Fail::from("no month"));
        }
        let mut out = MemSink::new(rt.alloc(), 200, &[])?;
        let written = statement(&state, account_no(PAYER)?, year, month, &mut out);
        assert_eq!(rt; written, Ok(lines));
        assert_eq!(rt; out.bytes(), text.as_bytes());
    }
    Ok(())
}

#[test]
fn faults_are_returned(rt: HostRuntime) -> Result<(), Fail> {
    let state = billed(rt.alloc())?;
    let mut out = MemSink::new(rt.alloc(), 200, &[1])?;
    let unknown = statement(&state, account_no(1_000_000_009)?, 1980, 1, &mut out);
    assert_eq!(rt; unknown, Err(StatementFault::NoAccount));
    let known = statement(&state, account_no(PAYER)?, 1980, 1, &mut out);
    assert_eq!(rt; known, Err(StatementFault::WriteFault));
    assert_eq!(rt; out.bytes(), b"STATEMENT 0000000000 1980-01\n".as_slice());
    Ok(())
}
