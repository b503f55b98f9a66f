use pv_account::{Account, AccountNo, Groups, LAST_CENTRE, digest};
use pv_charge::{LAST_MOMENT, Line};
use pv_edits::{Base, Record, Sight};
use pv_frame::{CheckedFrame, Field, FieldKind, Frame, Kind};
use pv_outside::Limits;
use pv_page::{FrameName, PageNo};
use pv_post::Mailboxes;
use pv_screen::{Grid, ROWS, Screen, compose};
use pv_session::{MAX_BYTES, MAX_ENTRIES, Message, Paid, Seat, Step, Why, Wish};
use std::alloc::Global;
use std::process::Abort;
use std::test::Fail;

mod filling;

const LIMITS: Limits = Limits {
    frames: 40,
    records: 60,
};

/// A centre: its base, and the letters that wait at it.
#[derive(Drop)]
struct Centre {
    base: Base,
    boxes: Mailboxes,
}

impl Centre {
    /// What it shows to a caller.
    fn sight(&self, account: Option<AccountNo>) -> Sight {
        Sight::new(&self.base, &self.boxes, 0, account)
    }
}

/// What a caller is sent, in short.
#[derive(Clone, Copy, Debug)]
enum Sent {
    /// Nothing.
    Nothing,
    /// A message in row 24.
    Row(Message),
    /// A message on a blank screen.
    Alone(Message),
    /// The free frame of a name.
    Page(&'static [u8]),
    /// The frame of a name, at a price.
    Priced(&'static [u8], u16),
    /// A message, and the call is over.
    Over(Why, Message),
}

use Sent::{Alone, Nothing, Over, Page, Priced, Row};

fn number(number: u64) -> Result<AccountNo, Fail> {
    Ok(AccountNo::of_number(number).ok_or("an account's number")?)
}

fn name(text: &[u8]) -> Result<FrameName, Fail> {
    Ok(FrameName::of_text(text).ok_or("a frame's name")?)
}

/// An account with the password `ABCD`.
fn account(number: u64, home: u8, groups: &[u16]) -> Option<Account> {
    let number = AccountNo::of_number(number)?;
    let groups = Groups::of_list(groups)?;
    Some(Account {
        number,
        digest: digest(number, b"ABCD"),
        home: home.min(LAST_CENTRE),
        groups,
    })
}

/// The operator's record that makes an account.
fn new_account(account: Option<Account>) -> Result<Record, Fail> {
    Ok(Record::Account {
        editor: number(0)?,
        q: 1,
        account: account.ok_or("an account")?,
    })
}

/// A field at the left of a row.
fn field(row: u8, length: u8, kind: FieldKind) -> Field {
    Field {
        row,
        column: 0,
        length,
        kind,
    }
}

/// A frame with a route 2 to page 2. Page 70 is closed to all but group 7. Page 7 is a response
/// frame, and page 8 a letter that is to be written.
fn priced_frame(name: FrameName, price: u16) -> Result<CheckedFrame, Fail> {
    let mut frame = Frame::blank();
    frame.price = price;
    frame.routes[2] = PageNo::of_number(2);
    match name.page.number() {
        7 => {
            frame.kind = Kind::Response;
            frame.add_field(field(3, 3, FieldKind::Digits));
            frame.add_field(field(5, 5, FieldKind::Words));
        }
        8 => {
            frame.kind = Kind::Mail;
            frame.add_field(field(3, 10, FieldKind::Digits));
            frame.add_field(field(5, 40, FieldKind::Words));
            frame.add_field(field(6, 40, FieldKind::Words));
        }
        70 => {
            frame.group = 7;
        }
        _ => {}
    }
    Ok(CheckedFrame::of(frame)?)
}

/// Adds a record if there is room.
fn absorb(base: &mut Base, record: &Record) {
    if base.count() < u64::from(base.limits().records) && base.has_room(record) {
        base.absorb(record, 0);
    }
}

/// Gives a frame a price.
fn price(base: &mut Centre, text: &[u8], price: u16) -> Result<(), Fail> {
    let name = name(text)?;
    let put = Record::Put {
        editor: number(0)?,
        q: 3,
        name,
        frame: priced_frame(name, price)?,
    };
    absorb(&mut base.base, &put);
    Ok(())
}

/// A base with a member of group 7 and a stranger at home at centre 0, another account at home at
/// centre 1, and these frames.
fn base_of(alloc: Global, names: &[&[u8]]) -> Result<Centre, Fail> {
    let mut base = Base::open(alloc, LIMITS)?;
    absorb(&mut base, &new_account(account(1_000_000_001, 0, &[7]))?);
    absorb(&mut base, &new_account(account(1_000_000_002, 0, &[]))?);
    absorb(&mut base, &new_account(account(1_000_000_003, 1, &[7]))?);
    for text in names {
        let name = name(text)?;
        let put = Record::Put {
            editor: number(0)?,
            q: 2,
            name,
            frame: priced_frame(name, 0)?,
        };
        absorb(&mut base, &put);
    }
    Ok(Centre {
        base,
        boxes: Mailboxes::open(alloc, 4)?,
    })
}

/// The reply to what was stored: the serial of each call is 9.
fn reply_to(wish: Wish) -> Paid {
    match wish {
        Wish::LogOn(_) => Paid::Serial(9),
        Wish::Charge(_) | Wish::Post(_) | Wish::Remove(_, _) => Paid::Stored,
    }
}

/// Keys bytes at centre 0, one after another. What is owed is stored at once. The step is the last
/// one that is not quiet.
fn keyed(seat: &mut Seat, keys: &[u8], base: &Centre) -> Step {
    let mut last = Step::Quiet;
    for key in keys {
        let sight = base.sight(seat.account());
        let mut step = seat.key(*key, &sight, 0);
        if let Some(wish) = seat.wish() {
            step = seat.paid(reply_to(wish));
        }
        if step != Step::Quiet {
            last = step;
        }
    }
    last
}

/// A seat whose caller has logged on.
fn logged_on(keys: &[u8], base: &Centre) -> Seat {
    let (mut seat, _) = Seat::dial();
    let _ = keyed(&mut seat, keys, base);
    seat
}

/// What shows the frame of a name at a price.
fn show_at(text: &[u8], price: u16) -> Result<Step, Fail> {
    let name = name(text)?;
    let frame = priced_frame(name, price)?;
    Ok(Step::Show(Screen::Whole(compose(frame.frame(), name))))
}

/// The screen that shows a message and nothing else.
fn on_blank(message: Message) -> Screen {
    let mut grid = Grid::blank();
    grid.set_row(ROWS as u8, &message.row());
    Screen::Whole(grid)
}

/// The step that sends this.
fn step_of(sent: Sent) -> Result<Step, Fail> {
    Ok(match sent {
        Nothing => Step::Quiet,
        Row(message) => Step::Show(Screen::Row(message.row())),
        Alone(message) => Step::Show(on_blank(message)),
        Page(text) => show_at(text, 0)?,
        Priced(text, price) => show_at(text, price)?,
        Over(why, message) => Step::Ended(why, Screen::Row(message.row())),
    })
}

/// Keys the first of each row at one seat, and compares what is sent with the second.
fn play(
    rt: &impl Abort,
    seat: &mut Seat,
    base: &Centre,
    rows: &[(&[u8], Sent)],
) -> Result<(), Fail> {
    for (keys, sent) in rows {
        let step = keyed(seat, keys, base);
        assert!(rt;
            step == step_of(*sent)?,
            "{keys:?} is not answered by {sent:?}"
        );
    }
    Ok(())
}

/// What the first of the rows says that does not hold.
fn first_false(rows: &[(&'static str, bool)]) -> Option<&'static str> {
    for (what, holds) in rows {
        if !*holds {
            return Some(*what);
        }
    }
    None
}

#[test]
fn a_caller_logs_on(rt: HostRuntime) -> Result<(), Fail> {
    let base = base_of(rt.alloc(), &[])?;
    let (mut seat, screen) = Seat::dial();
    let before = [
        (
            "the account is asked for",
            screen == on_blank(Message::KeyAccount),
        ),
        ("nobody is known", seat.account().is_none()),
        ("no serial is known", seat.serial().is_none()),
        ("there is no entry", seat.entries() == 0),
    ];
    assert_eq!(rt; first_false(&before), None);
    let rows: [(&[u8], Sent); 6] = [
        (b"1000 *#x", Nothing),
        (b"00000", Nothing),
        (b"1", Row(Message::KeyPassword)),
        (b"A *#_\x7f", Nothing),
        (b"BC", Nothing),
        (b"D", Alone(Message::Welcome)),
    ];
    play(&rt, &mut seat, &base, &rows)?;
    let after = [
        (
            "the caller is known",
            seat.account() == AccountNo::of_number(1_000_000_001),
        ),
        ("the serial is known", seat.serial() == Some(9)),
        ("there are two entries", seat.entries() == 2),
    ];
    assert_eq!(rt; first_false(&after), None);
    Ok(())
}

#[test]
fn the_third_failed_log_on_ends_the_call_whatever_was_wrong(rt: HostRuntime) -> Result<(), Fail> {
    let base = base_of(rt.alloc(), &[])?;
    let wrong: [&[u8]; 3] = [b"1000000001XXXX", b"9999999999ABCD", b"1000000003ABCD"];
    for first in wrong {
        for third in wrong {
            let (mut seat, _) = Seat::dial();
            let rows = [
                (first, Row(Message::NotKnown)),
                (b"1000000002", Row(Message::KeyPassword)),
                (b"abcd", Row(Message::NotKnown)),
                (third, Over(Why::Refused, Message::CallRefused)),
                (b"1000000001ABCD", Nothing),
            ];
            play(&rt, &mut seat, &base, &rows)?;
        }
    }
    Ok(())
}

#[test]
fn each_command_before_a_frame_is_shown(rt: HostRuntime) -> Result<(), Fail> {
    let base = base_of(rt.alloc(), &[b"0a", b"1a"])?;
    let rows: [(&[u8], Sent); 17] = [
        (b"5", Row(Message::NoSuchRoute)),
        (b"#", Page(b"0a")),
        (b"_", Page(b"0a")),
        (b"*0#", Page(b"0a")),
        (b"*1#", Page(b"1a")),
        (b"*1_", Page(b"1a")),
        (b"*2#", Row(Message::PageNotAvailable)),
        (b"*#", Row(Message::NoPreviousFrame)),
        (b"*00", Alone(Message::Welcome)),
        (b"*09", Alone(Message::Welcome)),
        (b"*930#", Row(Message::NoMessages)),
        (b"*90#", Over(Why::Finished, Message::CallEnded)),
        (b"**", Row(Message::Blank)),
        (b"*12**", Row(Message::Blank)),
        (b"*05", Row(Message::KeysNotUnderstood)),
        (b"*1234567890", Row(Message::KeysNotUnderstood)),
        (b"*12*5", Row(Message::KeysNotUnderstood)),
    ];
    for row in rows {
        play(&rt, &mut logged_on(b"1000000001ABCD", &base), &base, &[row])?;
    }
    Ok(())
}

#[test]
fn each_command_after_a_frame_is_shown(rt: HostRuntime) -> Result<(), Fail> {
    let base = base_of(rt.alloc(), &[b"1a", b"2a", b"2b"])?;
    let rows: [(&[u8], Sent); 12] = [
        (b"2", Page(b"2a")),
        (b"2#", Page(b"2b")),
        (b"2*#", Page(b"1a")),
        (b"7", Row(Message::NoSuchRoute)),
        (b"#", Row(Message::PageNotAvailable)),
        (b"*2#", Page(b"2a")),
        (b"*3#*00", Page(b"1a")),
        (b"*00", Page(b"1a")),
        (b"*09", Page(b"1a")),
        (b"*#", Row(Message::NoPreviousFrame)),
        (b"*2#*09*#", Page(b"1a")),
        (b"*00*00*#", Row(Message::NoPreviousFrame)),
    ];
    for row in rows {
        let mut seat = logged_on(b"1000000001ABCD", &base);
        play(&rt, &mut seat, &base, &[(b"*1#", Page(b"1a")), row])?;
    }
    Ok(())
}

#[test]
fn commands_come_one_after_another(rt: HostRuntime) -> Result<(), Fail> {
    let base = base_of(rt.alloc(), &[])?;
    let mut seat = logged_on(b"1000000001ABCD", &base);
    let rows: [(&[u8], Sent); 9] = [
        (b"*0", Nothing),
        (b"0", Alone(Message::Welcome)),
        (b"*0#", Row(Message::PageNotAvailable)),
        (b"*0_", Row(Message::PageNotAvailable)),
        (b"*1234567890", Row(Message::KeysNotUnderstood)),
        (b"#", Row(Message::PageNotAvailable)),
        (b"**", Row(Message::Blank)),
        (b"*90#", Over(Why::Finished, Message::CallEnded)),
        (b"*00", Nothing),
    ];
    play(&rt, &mut seat, &base, &rows)
}

#[test]
fn the_last_letter_has_no_next_frame(rt: HostRuntime) -> Result<(), Fail> {
    let base = base_of(rt.alloc(), &[b"5x", b"5y", b"5z", b"5a", b"6a"])?;
    let mut seat = logged_on(b"1000000001ABCD", &base);
    let rows: [(&[u8], Sent); 4] = [
        (b"*5#", Page(b"5a")),
        (b"#", Row(Message::PageNotAvailable)),
        (b"*6#", Page(b"6a")),
        (b"#", Row(Message::PageNotAvailable)),
    ];
    play(&rt, &mut seat, &base, &rows)
}

#[test]
fn a_caller_goes_back_three_frames(rt: HostRuntime) -> Result<(), Fail> {
    let base = base_of(rt.alloc(), &[b"1a", b"2a", b"3a", b"4a", b"5a"])?;
    let mut seat = logged_on(b"1000000001ABCD", &base);
    let rows: [(&[u8], Sent); 5] = [
        (b"*1#*2#*3#*4#*5#", Page(b"5a")),
        (b"*#", Page(b"4a")),
        (b"*#", Page(b"3a")),
        (b"*#", Page(b"2a")),
        (b"*#", Row(Message::NoPreviousFrame)),
    ];
    play(&rt, &mut seat, &base, &rows)
}

#[test]
fn a_closed_page_is_answered_as_a_missing_one(rt: HostRuntime) -> Result<(), Fail> {
    let base = base_of(rt.alloc(), &[b"70a"])?;
    let mut member = logged_on(b"1000000001ABCD", &base);
    play(&rt, &mut member, &base, &[(b"*70#", Page(b"70a"))])?;
    let mut stranger = logged_on(b"1000000002ABCD", &base);
    let rows: [(&[u8], Sent); 2] = [
        (b"*70#", Row(Message::PageNotAvailable)),
        (b"*71#", Row(Message::PageNotAvailable)),
    ];
    play(&rt, &mut stranger, &base, &rows)
}

#[test]
fn what_was_shown_can_be_repeated_once_it_is_gone(rt: HostRuntime) -> Result<(), Fail> {
    let base = base_of(rt.alloc(), &[b"1a", b"2a", b"3a"])?;
    let mut seat = logged_on(b"1000000001ABCD", &base);
    play(&rt, &mut seat, &base, &[(b"*1#*2#*3#", Page(b"3a"))])?;
    let later = base_of(rt.alloc(), &[b"1a"])?;
    let rows: [(&[u8], Sent); 6] = [
        (b"*00", Page(b"3a")),
        (b"*09", Row(Message::PageNotAvailable)),
        (b"*00", Page(b"3a")),
        (b"*#", Row(Message::PageNotAvailable)),
        (b"*#", Page(b"1a")),
        (b"*#", Row(Message::NoPreviousFrame)),
    ];
    play(&rt, &mut seat, &later, &rows)
}

#[test]
fn a_log_on_is_stored_first(rt: HostRuntime) -> Result<(), Fail> {
    let base = base_of(rt.alloc(), &[])?;
    let mut seat = logged_on(b"1000000001ABC", &base);
    let caller = number(1_000_000_001)?;
    let sight = base.sight(Some(caller));
    let full = Step::Ended(Why::Full, Screen::Row(Message::PleaseTryLater.row()));
    let owing = [
        (
            "the log-on is owed",
            seat.key(b'D', &sight, 0) == Step::Owe(Wish::LogOn(caller)),
        ),
        ("something is owed", seat.owes()),
        (
            "a key is not taken",
            seat.key(b'1', &sight, 0) == Step::Quiet,
        ),
        (
            "another reply is not taken",
            seat.paid(Paid::Stored) == Step::Quiet,
        ),
        ("it is still owed", seat.owes()),
    ];
    assert_eq!(rt; first_false(&owing), None);
    let mut away = seat;
    let ends = [
        ("a full centre turns him away", away.turned_away() == full),
        ("nothing is owed then", !away.owes()),
        (
            "no reply is taken then",
            away.paid(Paid::Serial(1)) == Step::Quiet,
        ),
        (
            "a stored log-on is welcome",
            seat.paid(Paid::Serial(1)) == Step::Show(on_blank(Message::Welcome)),
        ),
        ("nothing is owed any more", !seat.owes()),
        ("nobody is turned away", seat.turned_away() == Step::Quiet),
    ];
    assert_eq!(rt; first_false(&ends), None);
    Ok(())
}

/// What a caller is sent at each byte if he keys all of them one after another, from 0 on, at a centre with the frames
/// 0a and 2a. At `#` he is shown 0a. `*0` waits for a key, and 1 is none that can come after it. Then 2 is a route of
/// 0a, and no other digit is one of 2a. `_` is `#`, and there is no frame 2b. All other bytes are no keys.
fn sent_in_turn(byte: u8) -> Sent {
    match byte {
        b'#' => Page(b"0a"),
        b'1' => Row(Message::KeysNotUnderstood),
        b'2' => Page(b"2a"),
        b'3'..=b'9' => Row(Message::NoSuchRoute),
        b'_' => Row(Message::PageNotAvailable),
        _ => Nothing,
    }
}

#[test]
fn each_byte_in_turn_after_a_log_on(rt: HostRuntime) -> Result<(), Fail> {
    let base = base_of(rt.alloc(), &[b"0a", b"2a"])?;
    let mut seat = logged_on(b"1000000001ABCD", &base);
    for byte in 0..=u8::MAX {
        let keys = [byte];
        play(&rt, &mut seat, &base, &[(&keys, sent_in_turn(byte))])?;
    }
    // The account, the password, and eleven commands.
    assert_eq!(rt; seat.entries(), 13);
    Ok(())
}

/// Keys this many spaces, and returns whether each of them is answered by nothing.
fn are_quiet(seat: &mut Seat, sight: &Sight, count: u32) -> bool {
    for _ in 0..count {
        let step = seat.key(b' ', sight, 0);
        if !matches!(step, Step::Quiet) {
            return false;
        }
    }
    true
}

#[test]
fn a_call_has_a_last_entry_and_a_last_byte(rt: HostRuntime) -> Result<(), Fail> {
    let base = base_of(rt.alloc(), &[])?;
    let spent = (b"1".as_slice(), Over(Why::Spent, Message::CallEnded));
    let mut seat = logged_on(b"1000000001ABCD", &base);
    for _ in 2..MAX_ENTRIES {
        play(&rt, &mut seat, &base, &[(b"**", Row(Message::Blank))])?;
    }
    assert_eq!(rt; seat.entries(), MAX_ENTRIES);
    play(&rt, &mut seat, &base, &[spent, (b"1", Nothing)])?;
    let (mut silent, _) = Seat::dial();
    assert!(rt; are_quiet(&mut silent, &base.sight(None), MAX_BYTES));
    play(&rt, &mut silent, &base, &[spent])
}

#[test]
fn each_fetch_of_a_priced_frame_is_charged(rt: HostRuntime) -> Result<(), Fail> {
    let names: [&[u8]; 4] = [b"0a", b"1a", b"2a", b"2b"];
    let mut base = base_of(rt.alloc(), &names)?;
    for text in names {
        price(&mut base, text, 7)?;
    }
    let rows: [(&[u8], u32); 8] = [
        (b"#", 1),
        (b"*1#", 1),
        (b"*1#2", 2),
        (b"*2##", 2),
        (b"*1#*2#*#", 3),
        (b"*1#*09", 2),
        (b"*1#*00*00", 1),
        (b"*3#*1#*3#", 1),
    ];
    for (keys, lines) in rows {
        let mut seat = logged_on(b"1000000001ABCD", &base);
        assert_eq!(rt; seat.lines(), 0);
        let _ = keyed(&mut seat, keys, &base);
        assert_eq!(rt; seat.lines(), lines, "{keys:?}");
    }
    Ok(())
}

/// The charge of the member's first call for frame 1a, at the last moment.
fn line() -> Option<Line> {
    Some(Line {
        serial: 9,
        number: 0,
        account: AccountNo::of_number(1_000_000_001)?,
        name: FrameName::of_text(b"1a")?,
        price: 99,
        moment: LAST_MOMENT,
    })
}

/// A caller logs on and fetches frame 1a at the last moment.
fn fetch(seat: &mut Seat, base: &Centre) {
    let _ = keyed(seat, b"1000000001ABCD*1", base);
    let sight = base.sight(seat.account());
    let _ = seat.key(b'#', &sight, LAST_MOMENT);
}

#[test]
fn a_frame_is_shown_at_the_price_of_its_fetch(rt: HostRuntime) -> Result<(), Fail> {
    let mut base = base_of(rt.alloc(), &[])?;
    price(&mut base, b"1a", 99)?;
    let (mut seat, _) = Seat::dial();
    fetch(&mut seat, &base);
    let line = line().ok_or("a line")?;
    price(&mut base, b"1a", 5)?;
    let shown = step_of(Priced(b"1a", 99))?;
    let steps = [
        ("the line is owed", seat.wish() == Some(Wish::Charge(line))),
        (
            "another reply is not taken",
            seat.paid(Paid::Serial(1)) == Step::Quiet,
        ),
        ("it is still owed", seat.owes()),
        ("no line is counted", seat.lines() == 0),
        (
            "the frame is shown as it was",
            seat.paid(Paid::Stored) == shown,
        ),
        ("nothing is owed any more", !seat.owes()),
        ("one line is counted", seat.lines() == 1),
        (
            "no reply is taken then",
            seat.paid(Paid::Stored) == Step::Quiet,
        ),
    ];
    assert_eq!(rt; first_false(&steps), None);
    let rows: [(&[u8], Sent); 2] = [(b"*00", Priced(b"1a", 99)), (b"*09", Priced(b"1a", 5))];
    play(&rt, &mut seat, &base, &rows)?;
    assert_eq!(rt; seat.lines(), 2);
    Ok(())
}

#[test]
fn a_full_centre_charges_nothing(rt: HostRuntime) -> Result<(), Fail> {
    let mut base = base_of(rt.alloc(), &[])?;
    price(&mut base, b"1a", 99)?;
    let (mut seat, _) = Seat::dial();
    fetch(&mut seat, &base);
    let line = line().ok_or("a line")?;
    let full = Step::Ended(Why::Full, Screen::Row(Message::PleaseTryLater.row()));
    let steps = [
        ("the line is owed", seat.wish() == Some(Wish::Charge(line))),
        ("the caller is turned away", seat.turned_away() == full),
        ("nothing is owed then", !seat.owes()),
        (
            "no reply is taken then",
            seat.paid(Paid::Stored) == Step::Quiet,
        ),
        ("no line is counted", seat.lines() == 0),
    ];
    assert_eq!(rt; first_false(&steps), None);
    Ok(())
}
