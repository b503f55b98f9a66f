use super::Sent::{self, Nothing, Page, Row};
use super::{Centre, base_of, keyed, logged_on, name, number, play, step_of};
use pv_charge::LAST_MOMENT;
use pv_page::AccountNo;
use pv_post::{Fields, Filled, Item, Letter, Mail, Mailboxes, Reply, TEXT_CELLS};
use pv_screen::{COLUMNS, Grid, Screen};
use pv_session::{Message, Seat, Step, Wish};
use std::alloc::Global;
use std::test::Fail;

/// Keys bytes at a copy of a seat, and then 1 at the last moment. What is owed then is not stored.
fn sent(seat: &Seat, keys: &[u8], base: &Centre) -> Step {
    let mut seat = *seat;
    let _ = keyed(&mut seat, keys, base);
    let sight = base.sight(seat.account());
    seat.key(b'1', &sight, LAST_MOMENT)
}

/// Frame 7a, as the member fills it in and sends it at the last moment.
fn reply(digits: &[u8], words: &[u8]) -> Result<Reply, Fail> {
    let digits = Filled::of_text(digits).ok_or("digits")?;
    let words = Filled::of_text(words).ok_or("words")?;
    Ok(Reply {
        account: number(1_000_000_001)?,
        name: name(b"7a")?,
        moment: LAST_MOMENT,
        fields: Fields::of_list(&[digits, words]).ok_or("two fields")?,
    })
}

/// Whether a field of digits takes a byte, and whether one of words does.
fn takers(byte: u8) -> (bool, bool) {
    match byte {
        b'0'..=b'9' => (true, true),
        b' '..=b'"' | b'$'..=b')' | b'+'..=b'[' | b']' | b'^' | b'`'..=b'{' | b'}' | b'~' => {
            (false, true)
        }
        _ => (false, false),
    }
}

/// The byte, if it is taken.
fn text_if(takes: bool, byte: &[u8; 1]) -> &[u8] {
    if takes { byte } else { &[] }
}

/// Whether these bytes and 1 send this of frame 7a.
fn sends(
    seat: &Seat,
    keys: &[u8],
    digits: &[u8],
    words: &[u8],
    base: &Centre,
) -> Result<bool, Fail> {
    let reply = reply(digits, words)?;
    Ok(sent(seat, keys, base) == Step::Owe(Wish::Post(Item::Reply(reply))))
}

/// Whether a byte alone is taken as it should, by the field of digits and by that of words.
fn is_taken(seat: &Seat, byte: &[u8; 1], base: &Centre) -> Result<bool, Fail> {
    let (digits, words) = takers(byte[0]);
    let in_digits = sends(
        seat,
        &[byte[0], b'#', b'#'],
        text_if(digits, byte),
        b"",
        base,
    )?;
    let in_words = sends(
        seat,
        &[b'#', byte[0], b'#'],
        b"",
        text_if(words, byte),
        base,
    )?;
    Ok(in_digits && in_words)
}

#[test]
fn each_byte_in_a_field(rt: HostRuntime) -> Result<(), Fail> {
    let base = base_of(rt.alloc(), &[b"7a"])?;
    let seat = logged_on(b"1000000001ABCD*7#", &base);
    for byte in 0..=u8::MAX {
        let taken = is_taken(&seat, &[byte], &base)?;
        assert_eq!(rt; taken, byte != b'*', "{byte}");
    }
    Ok(())
}

#[test]
fn a_field_takes_as_many_bytes_as_it_has_cells(rt: HostRuntime) -> Result<(), Fail> {
    let base = base_of(rt.alloc(), &[b"7a"])?;
    let seat = logged_on(b"1000000001ABCD*7#", &base);
    let rows: [(&[u8], &[u8], &[u8]); 5] = [
        (b"##", b"", b""),
        (b"123#ABCDE#", b"123", b"ABCDE"),
        (b"1234#ABCDEF#", b"123", b"ABCDE"),
        (b"A1_ 2_", b"1", b" 2"),
        (b"12#AB*00##", b"", b""),
    ];
    for (keys, digits, words) in rows {
        let sends = sends(&seat, keys, digits, words, &base)?;
        assert!(rt; sends, "{keys:?}");
    }
    Ok(())
}

#[test]
fn a_form_is_left_in_each_of_its_modes(rt: HostRuntime) -> Result<(), Fail> {
    let base = base_of(rt.alloc(), &[b"7a"])?;
    let rows: [(&[u8], Sent); 8] = [
        (b"1", Nothing),
        (b"*", Nothing),
        (b"1**", Row(Message::Blank)),
        (b"1*0#", Row(Message::PageNotAvailable)),
        (b"##", Row(Message::KeyToSend)),
        (b"##**", Row(Message::Blank)),
        (b"1#A#**1", Row(Message::NoSuchRoute)),
        (b"##*00", Page(b"7a")),
    ];
    for row in rows {
        let mut seat = logged_on(b"1000000001ABCD*7#", &base);
        play(&rt, &mut seat, &base, &[row])?;
    }
    Ok(())
}

/// What a byte at the question is answered, and what 2 is after it.
fn at_question(byte: u8) -> (Sent, Sent) {
    match byte {
        b'1' => (Row(Message::MessageStored), Row(Message::PageNotAvailable)),
        b'2' => (Row(Message::MessageNotSent), Row(Message::PageNotAvailable)),
        b'*' => (Nothing, Nothing),
        _ => (Nothing, Row(Message::MessageNotSent)),
    }
}

#[test]
fn each_byte_at_the_question(rt: HostRuntime) -> Result<(), Fail> {
    let base = base_of(rt.alloc(), &[b"7a"])?;
    let seat = logged_on(b"1000000001ABCD*7#1#A#", &base);
    for byte in 0..=u8::MAX {
        let (first, second) = at_question(byte);
        let mut other = seat;
        let keys = [byte];
        play(&rt, &mut other, &base, &[(&keys, first), (b"2", second)])?;
    }
    Ok(())
}

#[test]
fn a_letter_is_written_to_a_whole_account(rt: HostRuntime) -> Result<(), Fail> {
    let base = base_of(rt.alloc(), &[b"8a"])?;
    let mut seat = logged_on(b"1000000001ABCD", &base);
    let rows: [(&[u8], Sent); 7] = [
        (b"*8#", Page(b"8a")),
        (b"#", Nothing),
        (b"100000000#", Nothing),
        (b"2", Nothing),
        (b"3#", Nothing),
        (b"HI#", Nothing),
        (b"#", Row(Message::KeyToSend)),
    ];
    play(&rt, &mut seat, &base, &rows)?;
    let step = sent(&seat, b"", &base);
    assert_eq!(rt; mail_in(&step)?.to, number(1_000_000_002)?);
    play(
        &rt,
        &mut seat,
        &base,
        &[(b"1", Row(Message::MessageStored))],
    )
}

/// The item that is owed.
fn item_in(step: &Step) -> Option<&Item> {
    match step {
        Step::Owe(Wish::Post(item)) => Some(item),
        _ => None,
    }
}

/// The letter that is owed.
fn mail_in(step: &Step) -> Result<&Mail, Fail> {
    match item_in(step) {
        Some(Item::Mail(mail)) => Ok(mail),
        _ => Err("a letter".into()),
    }
}

/// The letter of two rows that the member writes to the stranger.
fn written(base: &Centre) -> Result<Mail, Fail> {
    let seat = logged_on(b"1000000001ABCD*8#", base);
    let step = sent(&seat, b"1000000002#HI#YES#", base);
    Ok(*mail_in(&step)?)
}

#[test]
fn a_letter_holds_what_was_keyed(rt: HostRuntime) -> Result<(), Fail> {
    let base = base_of(rt.alloc(), &[b"8a"])?;
    let mail = written(&base)?;
    let mut text = [b' '; TEXT_CELLS];
    text[..2].copy_from_slice(b"HI");
    text[40..43].copy_from_slice(b"YES");
    assert_eq!(rt; mail.sender, number(1_000_000_001)?);
    assert_eq!(rt; mail.to, number(1_000_000_002)?);
    assert_eq!(rt; mail.moment, LAST_MOMENT);
    assert!(rt; mail.text == text);
    Ok(())
}

/// A centre at which this letter waits for its addressee, as number 5.
fn centre_with(alloc: Global, mail: &Mail) -> Result<Centre, Fail> {
    let mut boxes = Mailboxes::open(alloc, 1)?;
    boxes.arrive(mail.to, &Letter::of_mail(5, mail));
    let Centre { base, boxes: _ } = base_of(alloc, &[])?;
    Ok(Centre { base, boxes })
}

/// The whole screen that is shown.
fn grid_in(step: &Step) -> Result<&Grid, Fail> {
    match step {
        Step::Show(Screen::Whole(grid)) => Ok(grid),
        _ => Err("a whole screen".into()),
    }
}

/// Each row of a letter's screen that is not blank.
const SHOWN: [(u8, &[u8; COLUMNS]); 4] = [
    (1, b"MAIL                     1000000001     "),
    (3, b"HI                                      "),
    (4, b"YES                                     "),
    (24, b"KEY 1 TO DELETE                         "),
];

/// The first row of a grid that is not as it should be.
fn first_wrong_row(grid: &Grid, shown: &[(u8, &[u8; COLUMNS])]) -> Option<u8> {
    for number in 1..25 {
        let mut wanted = &[b' '; COLUMNS];
        for (row, text) in shown {
            if *row == number {
                wanted = text;
            }
        }
        if grid.row(number) != wanted {
            return Some(number);
        }
    }
    None
}

#[test]
fn a_letter_is_shown(rt: HostRuntime) -> Result<(), Fail> {
    let mail = written(&base_of(rt.alloc(), &[b"8a"])?)?;
    let base = centre_with(rt.alloc(), &mail)?;
    let mut seat = logged_on(b"1000000002ABCD", &base);
    let step = keyed(&mut seat, b"*930#", &base);
    assert_eq!(rt; first_wrong_row(grid_in(&step)?, &SHOWN), None);
    Ok(())
}

#[test]
fn a_letter_is_deleted(rt: HostRuntime) -> Result<(), Fail> {
    let mail = written(&base_of(rt.alloc(), &[b"8a"])?)?;
    let base = centre_with(rt.alloc(), &mail)?;
    let mut seat = logged_on(b"1000000002ABCD*930#", &base);
    let removal = Wish::Remove(number(1_000_000_002)?, 5);
    assert!(rt; sent(&seat, b"", &base) == Step::Owe(removal));
    let rows: [(&[u8], Sent); 2] = [
        (b"1", Row(Message::MessageRemoved)),
        (b"1", Row(Message::NoSuchRoute)),
    ];
    play(&rt, &mut seat, &base, &rows)
}

#[test]
fn a_letter_is_left_by_each_other_byte(rt: HostRuntime) -> Result<(), Fail> {
    let mail = written(&base_of(rt.alloc(), &[b"8a"])?)?;
    let base = centre_with(rt.alloc(), &mail)?;
    let seat = logged_on(b"1000000002ABCD*930#", &base);
    let removal = Step::Owe(Wish::Remove(number(1_000_000_002)?, 5));
    for byte in 0..=u8::MAX {
        let removes = sent(&seat, &[byte], &base) == removal;
        assert!(rt; !removes, "{byte}");
    }
    let rows: [(&[u8], Sent); 5] = [
        (b"**", Row(Message::Blank)),
        (b"5", Row(Message::NoSuchRoute)),
        (b"#", Row(Message::PageNotAvailable)),
        (b"*0#", Row(Message::PageNotAvailable)),
        (b" 1", Row(Message::NoSuchRoute)),
    ];
    for row in rows {
        let mut other = seat;
        play(&rt, &mut other, &base, &[row])?;
    }
    Ok(())
}

#[test]
fn a_letter_waits_for_its_addressee_alone(rt: HostRuntime) -> Result<(), Fail> {
    let mail = written(&base_of(rt.alloc(), &[b"8a"])?)?;
    let base = centre_with(rt.alloc(), &mail)?;
    let mut seat = logged_on(b"1000000001ABCD", &base);
    let rows: [(&[u8], Sent); 2] = [
        (b"*930#", Row(Message::NoMessages)),
        (b"1", Row(Message::NoSuchRoute)),
    ];
    play(&rt, &mut seat, &base, &rows)
}
