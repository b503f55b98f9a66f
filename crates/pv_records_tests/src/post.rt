use pv_charge::Line;
use pv_fields::{In, Out};
use pv_page::{AccountNo, FrameName};
use pv_post::{Fields, Filled, Item, Letter, Mail, Mailboxes, Reply, TEXT_CELLS};
use std::alloc::Global;
use std::process::Abort;
use std::test::Fail;

/// A reply of account 1000000001 to frame 40a, with one empty field and one of two bytes.
const REPLY: [u8; 23] = [
    2, 0, 0, 0, 0, 0x3b, 0x9a, 0xca, 0x01, 0, 0, 0, 40, b'a', 0, 0, 0, 9, 2, 0, 2, b'A', b'9',
];

/// A charge line of the same account for frame 40a.
const CHARGE: [u8; 32] = [
    1, 0, 0, 0, 0, 0, 0, 0, 7, 0, 0, 0, 3, 0, 0, 0, 0, 0x3b, 0x9a, 0xca, 0x01, 0, 0, 0, 40, b'a',
    0, 25, 0, 0, 0, 9,
];

/// All but the text of a letter from this account to the operator.
const MAIL_HEAD: [u8; 21] = [
    3, 0, 0, 0, 0, 0x3b, 0x9a, 0xca, 0x01, 0, 0, 0, 0, 0, 0, 0, 0, 0, 0, 0, 9,
];

fn account() -> Option<AccountNo> {
    AccountNo::of_number(1_000_000_001)
}

fn reply() -> Option<Item> {
    Some(Item::Reply(Reply {
        account: account()?,
        name: FrameName::of_text(b"40a")?,
        moment: 9,
        fields: Fields::of_list(&[Filled::empty(), Filled::of_text(b"A9")?])?,
    }))
}

fn charge() -> Option<Item> {
    Some(Item::Charge(Line {
        serial: 7,
        number: 3,
        account: account()?,
        name: FrameName::of_text(b"40a")?,
        price: 25,
        moment: 9,
    }))
}

fn mail() -> Option<Item> {
    Some(Item::Mail(Mail {
        sender: account()?,
        to: AccountNo::of_number(0)?,
        moment: 9,
        text: [b'~'; TEXT_CELLS],
    }))
}

/// The item has this spelling, and the spelling this meaning.
fn assert_spelled(rt: &impl Abort, item: Option<Item>, bytes: &[u8]) -> Result<(), Fail> {
    let mut slice = [0xee; 261];
    let mut out = Out::new(&mut slice);
    item.ok_or("an item")?.encode(&mut out)?;
    let written = out.written();
    assert_eq!(rt; slice.get(..written), Some(bytes));
    assert_eq!(rt; Item::decode(&mut In::new(bytes)), item);
    Ok(())
}

#[test]
fn a_reply_is_spelled_part_by_part(rt: HostRuntime) -> Result<(), Fail> {
    assert_spelled(&rt, reply(), &REPLY)
}

#[test]
fn a_charge_is_spelled_by_its_line(rt: HostRuntime) -> Result<(), Fail> {
    assert_spelled(&rt, charge(), &CHARGE)
}

/// The spelling of the letter, up to the last cell of its text.
fn letter_bytes(last: u8) -> [u8; 261] {
    let mut bytes = [b'~'; 261];
    bytes[..21].copy_from_slice(&MAIL_HEAD);
    bytes[260] = last;
    bytes
}

#[test]
fn a_letter_is_spelled_with_all_its_text(rt: HostRuntime) -> Result<(), Fail> {
    assert_spelled(&rt, mail(), &letter_bytes(b'~'))
}

#[test]
fn a_letter_has_cells_that_can_be_keyed_and_all_of_them(rt: HostRuntime) {
    assert_eq!(rt; Item::decode(&mut In::new(&letter_bytes(0x7f))), None);
    assert_eq!(rt; Item::decode(&mut In::new(&MAIL_HEAD)), None);
}

/// The first prefix of an item's spelling of which something is read.
fn first_read(bytes: &[u8]) -> Option<usize> {
    for end in 0..bytes.len() {
        let mut reader = In::new(&bytes[..end]);
        if Item::decode(&mut reader).is_some() || reader.left() != end {
            return Some(end);
        }
    }
    None
}

#[test]
fn each_prefix_is_no_item_and_is_left(rt: HostRuntime) {
    let letter = letter_bytes(b'~');
    let spellings: [&[u8]; 3] = [&REPLY, &CHARGE, &letter];
    for bytes in spellings {
        assert_eq!(rt; first_read(bytes), None, "{bytes:?}");
    }
}

/// Puts another byte at a place. A place past the end is left alone.
fn change(bytes: &mut [u8], at: usize, byte: u8) {
    if let Some(changed) = bytes.get_mut(at) {
        *changed = byte;
    }
}

/// The first byte of an item's spelling that can be another one without the item being another one or none.
fn first_unread(alloc: Global, bytes: &[u8]) -> Result<Option<usize>, Fail> {
    let item = Item::decode(&mut In::new(bytes));
    let mut other = Vec::from_slice(alloc, bytes)?;
    for (at, byte) in bytes.iter().enumerate() {
        for by in 1..=u8::MAX {
            change(&mut other, at, *byte ^ by);
            if Item::decode(&mut In::new(&other)) == item {
                return Ok(Some(at));
            }
        }
        change(&mut other, at, *byte);
    }
    Ok(None)
}

#[test]
fn another_byte_is_another_item_or_none(rt: HostRuntime) -> Result<(), Fail> {
    let letter = letter_bytes(b'~');
    let spellings: [&[u8]; 3] = [&REPLY, &CHARGE, &letter];
    for bytes in spellings {
        assert_eq!(rt; first_unread(rt.alloc(), bytes)?, None, "{bytes:?}");
    }
    Ok(())
}

/// A byte of the reply's spelling, and a value that makes it no item's.
const WRONG: [(usize, u8); 8] = [
    (0, 0),
    (0, 4),
    (9, 60),
    (13, b'A'),
    (18, 0),
    (18, 9),
    (20, 41),
    (22, b'*'),
];

#[test]
fn a_part_out_of_its_range_is_no_item(rt: HostRuntime) -> Result<(), Fail> {
    for &(at, byte) in &WRONG {
        let mut bytes = REPLY;
        bytes[at] = byte;
        let mut reader = In::new(&bytes);
        assert_eq!(rt; Item::decode(&mut reader), None);
        assert_eq!(rt; reader.left(), 23);
    }
    Ok(())
}

#[test]
fn a_field_takes_what_can_be_keyed(rt: HostRuntime) {
    for (count, wanted) in [(40, true), (41, false)] {
        assert_eq!(rt; Filled::of_text(&[b' '; 41][..count]).is_some(), wanted);
    }
    for wrong in [0x1f, 0x7f, b'*', b'#', b'_', b'|', b'\\'] {
        assert!(rt; Filled::of_text(&[wrong]).is_none());
    }
}

#[test]
fn a_reply_has_one_to_eight_fields(rt: HostRuntime) {
    for (count, wanted) in [(0, false), (1, true), (8, true), (9, false)] {
        assert_eq!(rt;
            Fields::of_list(&[Filled::empty(); 9][..count]).is_some(),
            wanted
        );
    }
}

/// A letter of this number.
fn letter(number: u64) -> Option<Letter> {
    Some(Letter {
        number,
        sender: account()?,
        moment: 9,
        text: [b'A'; TEXT_CELLS],
    })
}

/// Boxes in which letters 3 and 5 wait for the account.
fn two_letters(alloc: Global, to: AccountNo) -> Result<Mailboxes, Fail> {
    let mut mail = Mailboxes::open(alloc, 1)?;
    mail.arrive(to, &letter(3).ok_or("a letter")?);
    mail.arrive(to, &letter(5).ok_or("a letter")?);
    Ok(mail)
}

#[test]
fn the_oldest_letter_is_shown_first(rt: HostRuntime) -> Result<(), Fail> {
    let to = account().ok_or("an account")?;
    let mut mail = two_letters(rt.alloc(), to)?;
    assert_eq!(rt; mail.oldest(to).copied(), letter(3));
    mail.remove(to, 3);
    assert_eq!(rt; mail.oldest(to).copied(), letter(5));
    Ok(())
}

#[test]
fn a_letter_waits_until_it_is_removed(rt: HostRuntime) -> Result<(), Fail> {
    let to = account().ok_or("an account")?;
    let mut mail = two_letters(rt.alloc(), to)?;
    let before = (mail.waits(to, 3), mail.remove(to, 3));
    let after = (mail.waits(to, 3), mail.remove(to, 3));
    assert_eq!(rt; (before, after), ((true, true), (false, false)));
    Ok(())
}

#[test]
fn a_copy_keeps_what_is_removed(rt: HostRuntime) -> Result<(), Fail> {
    let to = account().ok_or("an account")?;
    let mut mail = two_letters(rt.alloc(), to)?;
    let copy = mail.copy(rt.alloc())?;
    mail.remove(to, 3);
    assert_eq!(rt; copy.oldest(to).copied(), letter(3));
    Ok(())
}

#[test]
fn no_letter_waits_in_new_boxes(rt: HostRuntime) -> Result<(), Fail> {
    let mail = Mailboxes::open(rt.alloc(), 1)?;
    assert_eq!(rt; mail.oldest(account().ok_or("an account")?).copied(), None);
    Ok(())
}
