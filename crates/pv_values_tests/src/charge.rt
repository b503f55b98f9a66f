use pv_charge::{Bill, LAST_MOMENT, LINE_BYTES, Line};
use pv_fields::{In, Out};
use pv_page::{AccountNo, FrameName};
use std::test::Fail;

const SPELLING: [u8; LINE_BYTES] = [
    0, 0, 0, 0, 0, 0, 0, 7, 0, 0, 0, 9, 0, 0, 0, 2, 0x54, 0x0b, 0xe3, 0xff, 0, 0, 0, 5, b'c', 0,
    99, 0, 0, 0, 1,
];

fn line() -> Option<Line> {
    Some(Line {
        serial: 7,
        number: 9,
        account: AccountNo::of_number(9_999_999_999)?,
        name: FrameName::of_text(b"5c")?,
        price: 99,
        moment: 1,
    })
}

#[test]
fn a_line_is_spelled_part_by_part(rt: HostRuntime) -> Result<(), Fail> {
    let mut slice = [0xee; LINE_BYTES];
    line().ok_or("a line")?.encode(&mut Out::new(&mut slice))?;
    assert_eq!(rt; slice, SPELLING);
    Ok(())
}

#[test]
fn a_line_is_written_whole_or_not(rt: HostRuntime) -> Result<(), Fail> {
    let mut short = [0xee; LINE_BYTES - 1];
    let answer = line().ok_or("a line")?.encode(&mut Out::new(&mut short));
    assert!(rt; answer.is_err());
    Ok(())
}

#[test]
fn a_line_is_read_before_other_bytes(rt: HostRuntime) {
    let mut slice = [0xee; LINE_BYTES + 1];
    slice[..LINE_BYTES].copy_from_slice(&SPELLING);
    let mut bytes = In::new(&slice);
    let read = Line::decode(&mut bytes);
    assert_eq!(rt; (read, bytes.left()), (line(), 1));
}

#[test]
fn a_part_of_a_line_is_none_and_is_left(rt: HostRuntime) {
    for end in 0..LINE_BYTES {
        let mut bytes = In::new(&SPELLING[..end]);
        let read = Line::decode(&mut bytes);
        assert_eq!(rt; (read, bytes.left()), (None, end));
    }
}

#[test]
fn another_byte_is_another_line_or_none(rt: HostRuntime) {
    let line = line();
    for at in 0..LINE_BYTES {
        for by in 1..=u8::MAX {
            let mut bytes = SPELLING;
            bytes[at] ^= by;
            assert!(rt; Line::decode(&mut In::new(&bytes)) != line, "{by} at {at}");
        }
    }
}

/// A byte of the spelling, and a value that makes it no line's.
const WRONG: [(usize, u8); 6] = [
    (14, 3),
    (20, 0x3c),
    (24, b'`'),
    (24, b'{'),
    (26, 100),
    (27, 0xf5),
];

#[test]
fn a_part_out_of_its_range_is_no_line(rt: HostRuntime) {
    for &(at, byte) in &WRONG {
        let mut bytes = SPELLING;
        bytes[at] = byte;
        assert_eq!(rt; Line::decode(&mut In::new(&bytes)), None);
    }
}

#[test]
fn a_moment_goes_up_to_the_last_one(rt: HostRuntime) {
    for (moment, is_line) in [(LAST_MOMENT, true), (LAST_MOMENT + 1, false)] {
        let mut bytes = SPELLING;
        bytes[27..].copy_from_slice(&moment.to_be_bytes());
        assert_eq!(rt; Line::decode(&mut In::new(&bytes)).is_some(), is_line);
    }
}

#[test]
fn a_bill_adds_the_prices(rt: HostRuntime) -> Result<(), Fail> {
    let line = line().ok_or("a line")?;
    let mut bill = Bill::new();
    bill.add(&line);
    bill.add(&line);
    assert_eq!(rt;
        bill,
        Bill {
            lines: 2,
            pence: 198
        }
    );
    Ok(())
}
