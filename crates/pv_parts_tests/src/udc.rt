ghost use Rattle.pv_udc.specs.Requests.{HasCentre};

use pv_account::{Account, Groups, LAST_CENTRE, digest};
use pv_charge::{Bill, Line};
use pv_edits::{DownRecord, EditWish, MAX_ACCOUNTS, MAX_LEASES};
use pv_frame::{Frame, FrameError, Kind};
use pv_node::Decision;
use pv_outside::Limits;
use pv_page::{AccountNo, FrameName, PageNo};
use pv_post::{Fields, Filled, Item, Mail, Reply, TEXT_CELLS};
use pv_udc::{Code, Refusal, UdcReply, UdcRequest, UdcState, down};
use std::test::Fail;

mod node;

/// Room for two frames and five records.
const SMALL: Limits = Limits {
    frames: 2,
    records: 5,
};

/// Room for more than the tests store.
const LARGE: Limits = Limits {
    frames: 10,
    records: 2_100,
};

fn account_no(number: u64) -> Result<AccountNo, Fail> {
    Ok(AccountNo::of_number(number).ok_or("an account")?)
}

fn page(number: u32) -> Result<PageNo, Fail> {
    Ok(PageNo::of_number(number).ok_or("a page")?)
}

fn name(text: &[u8]) -> Result<FrameName, Fail> {
    Ok(FrameName::of_text(text).ok_or("a name")?)
}

/// What an editor may ask for in these tests.
#[derive(Clone, Copy)]
enum Ask {
    /// A blank frame under a name.
    Put(&'static [u8]),
    /// A response frame without a field, whose error has the number 5.
    Misshapen(&'static [u8]),
    Drop(&'static [u8]),
    Account(u64),
    Lease(u32, u64),
}

fn wish(ask: Ask) -> Result<EditWish, Fail> {
    Ok(match ask {
        Ask::Put(text) => EditWish::Put {
            name: name(text)?,
            frame: Frame::blank(),
        },
        Ask::Misshapen(text) => EditWish::Put {
            name: name(text)?,
            frame: misshapen(),
        },
        Ask::Drop(text) => EditWish::Drop { name: name(text)? },
        Ask::Account(number) => EditWish::Account {
            account: account(account_no(number)?),
        },
        Ask::Lease(root, number) => EditWish::Lease {
            root: page(root)?,
            account: account_no(number)?,
        },
    })
}

fn misshapen() -> Frame {
    let mut frame = Frame::blank();
    frame.kind = Kind::Response;
    frame
}

fn account(number: AccountNo) -> Account {
    Account {
        number,
        digest: digest(number, b"ABCD"),
        home: 0,
        groups: Groups::none(),
    }
}

/// The reply to a request, whose record is absorbed if it is to be stored.
fn reply_to(state: &mut UdcState, request: &UdcRequest) -> Result<UdcReply, Fail>
    requires { HasCentre request.now }
{
    match state.decide(request) {
        Decision::Answer(reply) => Ok(reply),
        Decision::Store(record, reply) => {
            if state.is_full() || !state.has_room(&record) {
                return Err(Fail::from("no room"));
            }
            let front = state.front();
            state.absorb(&record, front);
            Ok(reply)
        }
    }
}

/// The reply to what an editor asks under a number.
fn edit(state: &mut UdcState, editor: u64, q: u32, asked: Ask) -> Result<UdcReply, Fail> {
    let editor = account_no(editor)?;
    let wish = wish(asked)?;
    reply_to(state, &UdcRequest::Edit { editor, q, wish })
}

/// A reply to an editor; a refusal by its code and what it shows.
#[derive(Clone, Copy)]
enum Said {
    Stored(u64),
    Again(u64),
    No(u8, u64),
}

fn whole(reply: Said) -> UdcReply {
    match reply {
        Said::Stored(place) => UdcReply::Stored(place),
        Said::Again(place) => UdcReply::Again(place),
        Said::No(code, shown) => UdcReply::Refused(Code { code, shown }),
    }
}

/// An editor, a number, what he asks and the reply.
type Turn = (u64, u32, Ask, Said);

/// The index of the first ask that has another reply.
fn first_wrong(state: &mut UdcState, turns: &[Turn]) -> Result<Option<usize>, Fail> {
    for (i, (editor, q, asked, reply)) in turns.iter().enumerate() {
        if edit(state, *editor, *q, *asked)? != whole(*reply) {
            return Ok(Some(i));
        }
    }
    Ok(None)
}

/// Two information providers.
const FIRST: u64 = 1_000_000_001;

const SECOND: u64 = 1_000_000_002;

const REPEATS: [Turn; 4] = [
    (0, 1, Ask::Put(b"1a"), Said::Stored(0)),
    (0, 1, Ask::Put(b"1a"), Said::Again(0)),
    (0, 3, Ask::Put(b"1a"), Said::No(3, 2)),
    (0, 0, Ask::Put(b"1a"), Said::No(3, 2)),
];

#[test]
fn the_last_number_is_the_same_edit(rt: HostRuntime) -> Result<(), Fail> {
    let mut state = UdcState::open(rt.alloc(), LARGE)?;
    assert_eq!(rt; first_wrong(&mut state, &REPEATS)?, None);
    assert_eq!(rt; state.front(), 1);
    Ok(())
}

const OTHER_WISHES: [Turn; 7] = [
    (0, 1, Ask::Account(FIRST), Said::Stored(0)),
    (0, 2, Ask::Lease(12, FIRST), Said::Stored(1)),
    (0, 2, Ask::Drop(b"9a"), Said::Again(1)),
    (0, 2, Ask::Misshapen(b"9a"), Said::Again(1)),
    (0, 2, Ask::Put(b"12a"), Said::Again(1)),
    (0, 9, Ask::Put(b"12a"), Said::No(2, 0)),
    (0, 9, Ask::Put(b"13a"), Said::No(3, 3)),
];

#[test]
fn a_repeat_comes_first_and_the_owner_before_the_number(rt: HostRuntime) -> Result<(), Fail> {
    let mut state = UdcState::open(rt.alloc(), LARGE)?;
    assert_eq!(rt; first_wrong(&mut state, &OTHER_WISHES)?, None);
    assert_eq!(rt; state.front(), 2);
    Ok(())
}

const OWNERS: [Turn; 11] = [
    (0, 1, Ask::Account(FIRST), Said::Stored(0)),
    (0, 2, Ask::Account(SECOND), Said::Stored(1)),
    (0, 3, Ask::Lease(12, FIRST), Said::Stored(2)),
    (0, 4, Ask::Lease(123, SECOND), Said::Stored(3)),
    (FIRST, 1, Ask::Put(b"12a"), Said::Stored(4)),
    (FIRST, 2, Ask::Put(b"1234a"), Said::No(2, 0)),
    (FIRST, 2, Ask::Put(b"13a"), Said::No(2, 0)),
    (SECOND, 1, Ask::Put(b"1234a"), Said::Stored(5)),
    (SECOND, 2, Ask::Put(b"12a"), Said::No(2, 0)),
    (0, 5, Ask::Put(b"0a"), Said::Stored(6)),
    (0, 6, Ask::Put(b"12b"), Said::No(2, 0)),
];

#[test]
fn pages_are_edited_by_whom_they_are_leased_to(rt: HostRuntime) -> Result<(), Fail> {
    let mut state = UdcState::open(rt.alloc(), LARGE)?;
    assert_eq!(rt; first_wrong(&mut state, &OWNERS)?, None);
    Ok(())
}

const NEW_FRAMES: [Turn; 7] = [
    (0, 1, Ask::Put(b"1a"), Said::Stored(0)),
    (0, 2, Ask::Put(b"2a"), Said::Stored(1)),
    (0, 3, Ask::Put(b"3a"), Said::No(5, 2)),
    (0, 3, Ask::Put(b"1a"), Said::Stored(2)),
    (0, 4, Ask::Put(b"1a"), Said::Stored(3)),
    (0, 5, Ask::Put(b"1a"), Said::Stored(4)),
    (0, 6, Ask::Drop(b"9a"), Said::No(4, 0)),
];

#[test]
fn a_full_base_refuses_new_frames_alone(rt: HostRuntime) -> Result<(), Fail> {
    let mut state = UdcState::open(rt.alloc(), SMALL)?;
    assert_eq!(rt; first_wrong(&mut state, &NEW_FRAMES)?, None);

    // That there are as many records as the limit is for the node to say, after all refusals.
    assert!(rt; state.is_full());
    let request = UdcRequest::Edit {
        editor: account_no(0)?,
        q: 6,
        wish: wish(Ask::Drop(b"1a"))?,
    };
    assert!(rt;
        matches!(
            state.decide(&request),
            Decision::Store(_, UdcReply::Stored(5))
        )
    );
    Ok(())
}

const REFUSALS: [Turn; 13] = [
    (0, 1, Ask::Account(FIRST), Said::Stored(0)),
    (0, 2, Ask::Put(b"1a"), Said::Stored(1)),
    (0, 3, Ask::Put(b"2a"), Said::Stored(2)),
    (7, 1, Ask::Put(b"1a"), Said::No(1, 0)),
    (FIRST, 1, Ask::Put(b"1a"), Said::No(2, 0)),
    (0, 5, Ask::Put(b"1a"), Said::No(3, 4)),
    (0, 4, Ask::Drop(b"3a"), Said::No(4, 0)),
    (0, 4, Ask::Put(b"3a"), Said::No(5, 2)),
    (0, 4, Ask::Misshapen(b"3a"), Said::No(5, 2)),
    (0, 4, Ask::Misshapen(b"1a"), Said::No(7, 5)),
    (FIRST, 1, Ask::Account(7), Said::No(8, 0)),
    (FIRST, 1, Ask::Lease(12, 7), Said::No(8, 0)),
    (0, 4, Ask::Lease(12, 7), Said::No(10, 0)),
];

#[test]
fn each_refusal_shows_its_number(rt: HostRuntime) -> Result<(), Fail> {
    let mut state = UdcState::open(rt.alloc(), SMALL)?;
    assert_eq!(rt; first_wrong(&mut state, &REFUSALS)?, None);
    assert_eq!(rt; state.front(), 3);
    Ok(())
}

/// With accounts 1 to 999 and roots 1,000 to 1,999.
const THOUSANDS: [Turn; 7] = [
    (0, 2_000, Ask::Account(1_000), Said::No(6, 1_000)),
    (0, 2_000, Ask::Lease(999, 1), Said::No(9, 1_000)),
    (1, 1, Ask::Account(1_000), Said::No(6, 1_000)),
    (1, 1, Ask::Lease(999, 1), Said::No(8, 0)),
    (0, 2_000, Ask::Lease(999, 2_000), Said::No(9, 1_000)),
    (0, 2_000, Ask::Account(999), Said::Stored(1_999)),
    (0, 2_001, Ask::Lease(1_000, 2), Said::Stored(2_000)),
];

#[test]
fn a_thousand_accounts_and_a_thousand_roots_are_full(rt: HostRuntime) -> Result<(), Fail> {
    let mut state = UdcState::open(rt.alloc(), LARGE)?;
    for q in 1..MAX_ACCOUNTS {
        edit(&mut state, 0, q, Ask::Account(u64::from(q)))?;
    }
    for q in MAX_ACCOUNTS..MAX_ACCOUNTS + MAX_LEASES {
        edit(&mut state, 0, q, Ask::Lease(q, 1))?;
    }
    assert_eq!(rt; first_wrong(&mut state, &THOUSANDS)?, None);
    Ok(())
}

const ONE_ACCOUNT: [Turn; 4] = [
    (0, 1, Ask::Put(b"1a"), Said::Stored(0)),
    (0, 1, Ask::Put(b"2a"), Said::Again(0)),
    (0, 2, Ask::Put(b"2a"), Said::Stored(1)),
    (0, 1, Ask::Put(b"1a"), Said::No(3, 3)),
];

#[test]
fn two_editors_share_the_numbers_of_one_account(rt: HostRuntime) -> Result<(), Fail> {
    let mut state = UdcState::open(rt.alloc(), LARGE)?;
    assert_eq!(rt; first_wrong(&mut state, &ONE_ACCOUNT)?, None);
    assert_eq!(rt; state.front(), 2);
    Ok(())
}

/// Each refusal, its number and the number that it shows.
const CODES: [(Refusal, u8, u64); 10] = [
    (Refusal::NotLoggedOn, 1, 0),
    (Refusal::NotOwner, 2, 0),
    (
        Refusal::BadNumber {
            wanted: 4_294_967_296,
        },
        3,
        4_294_967_296,
    ),
    (Refusal::NoFrame, 4, 0),
    (Refusal::FramesFull { count: 20_000 }, 5, 20_000),
    (Refusal::AccountsFull { count: 1_000 }, 6, 1_000),
    (Refusal::BadFrame(FrameError::FieldRange { i: 6 }), 7, 3),
    (Refusal::OperatorOnly, 8, 0),
    (Refusal::LeasesFull { count: 1_000 }, 9, 1_000),
    (Refusal::NoAccount, 10, 0),
];

#[test]
fn refusals_have_codes(rt: HostRuntime) -> Result<(), Fail> {
    for (refusal, code, shown) in &CODES {
        assert_eq!(rt;
            refusal.code(),
            Code {
                code: *code,
                shown: *shown
            }
        );
    }
    Ok(())
}

/// What may come up from a centre in these tests.
#[derive(Clone, Copy)]
enum Sent {
    Charge,
    ChargeToSecond,
    Reply(&'static [u8]),
    Mail,
}

fn item(sent: Sent) -> Result<Item, Fail> {
    let account = account_no(FIRST)?;
    Ok(match sent {
        Sent::Charge => Item::Charge(Line {
            serial: 7,
            number: 3,
            account,
            name: name(b"40a")?,
            price: 25,
            moment: 9,
        }),
        Sent::ChargeToSecond => Item::Charge(Line {
            serial: 8,
            number: 0,
            account: account_no(SECOND)?,
            name: name(b"40a")?,
            price: 99,
            moment: 9,
        }),
        Sent::Reply(text) => Item::Reply(Reply {
            account,
            name: name(text)?,
            moment: 9,
            fields: Fields::of_list(&[Filled::empty()]).ok_or("fields")?,
        }),
        Sent::Mail => Item::Mail(Mail {
            sender: account,
            to: account,
            moment: 9,
            text: [b' '; TEXT_CELLS],
        }),
    })
}

/// A centre, a number, what it sends and the reply.
type Arrival = (u8, u64, Sent, UdcReply);

/// The index of the first arrival that has another reply.
fn first_amiss(state: &mut UdcState, arrivals: &[Arrival]) -> Result<Option<usize>, Fail> {
    for (i, &(centre, k, sent, reply)) in arrivals.iter().enumerate() {
        let item = item(sent)?;
        if centre > LAST_CENTRE
            || reply_to(state, &UdcRequest::TakeUp { centre, k, item })? != reply
        {
            return Ok(Some(i));
        }
    }
    Ok(None)
}

const ARRIVALS: [Arrival; 5] = [
    (3, 1, Sent::Charge, UdcReply::Early(0)),
    (3, 0, Sent::Charge, UdcReply::Stored(0)),
    (3, 0, Sent::Mail, UdcReply::Old(1)),
    (3, 1, Sent::Reply(b"1a"), UdcReply::Stored(1)),
    (2, 0, Sent::Mail, UdcReply::Stored(2)),
];

#[test]
fn items_of_a_centre_are_taken_up_once_and_in_order(rt: HostRuntime) -> Result<(), Fail> {
    let mut state = UdcState::open(rt.alloc(), LARGE)?;
    assert_eq!(rt; first_amiss(&mut state, &ARRIVALS)?, None);
    let counts = [0, 1, 2, 3, 4].map(|centre| state.taken(centre));
    assert_eq!(rt; counts, [0, 0, 1, 2, 0]);
    Ok(())
}

#[test]
fn charges_and_replies_do_not_go_down(rt: HostRuntime) -> Result<(), Fail> {
    let mut state = UdcState::open(rt.alloc(), LARGE)?;
    first_amiss(&mut state, &ARRIVALS)?;
    edit(&mut state, 0, 1, Ask::Put(b"1a"))?;
    for (n, whole) in [(0, false), (1, false), (2, true), (3, true)] {
        let rec = state.rec_at(n).ok_or("a record")?;
        let sent = if whole {
            DownRecord::Whole(*rec)
        } else {
            DownRecord::Blank
        };
        assert_eq!(rt; down(rec), sent);
    }
    assert!(rt; state.rec_at(4).is_none());
    Ok(())
}

const REPLIES: [Arrival; 3] = [
    (0, 0, Sent::Charge, UdcReply::Stored(0)),
    (0, 1, Sent::Reply(b"12a"), UdcReply::Stored(1)),
    (0, 2, Sent::Reply(b"40a"), UdcReply::Stored(2)),
];

#[test]
fn a_reply_is_for_whoever_has_the_page_now(rt: HostRuntime) -> Result<(), Fail> {
    let owner = account_no(FIRST)?;
    let operator = account_no(0)?;
    let mut state = UdcState::open(rt.alloc(), LARGE)?;
    assert_eq!(rt; first_amiss(&mut state, &REPLIES)?, None);
    for (from, place) in [(0, Some(1)), (2, Some(2)), (3, None), (u64::MAX, None)] {
        assert_eq!(rt; state.reply_for(operator, from), place);
    }
    assert_eq!(rt; state.reply_for(owner, 0), None);
    edit(&mut state, 0, 1, Ask::Account(FIRST))?;
    edit(&mut state, 0, 2, Ask::Lease(12, FIRST))?;
    assert_eq!(rt; state.reply_for(owner, 0), Some(1));
    assert_eq!(rt; state.reply_for(owner, 2), None);
    assert_eq!(rt; state.reply_for(operator, 0), Some(2));
    Ok(())
}

/// Charge lines of one account and of the other by turns, and a reply among them.
const CHARGES: [Arrival; 6] = [
    (0, 0, Sent::Charge, UdcReply::Stored(0)),
    (0, 1, Sent::Reply(b"12a"), UdcReply::Stored(1)),
    (1, 0, Sent::ChargeToSecond, UdcReply::Stored(2)),
    (0, 2, Sent::Charge, UdcReply::Stored(3)),
    (2, 0, Sent::Charge, UdcReply::Stored(4)),
    (1, 1, Sent::ChargeToSecond, UdcReply::Stored(5)),
];

/// An account, how many lines its bill has, their pence, and the place of the last one.
type Billed = (u64, u32, u64, Option<u64>);

/// The first row that is not the bill of its account.
fn first_unlike(state: &UdcState, rows: &[Billed]) -> Result<Option<Billed>, Fail> {
    for row in rows {
        let (number, lines, pence, last) = *row;
        let account = account_no(number)?;
        if state.bill(account) != (Bill { lines, pence }) || state.last_charge(account) != last {
            return Ok(Some(*row));
        }
    }
    Ok(None)
}

/// The first place whose line before is not at the place beside it.
fn first_astray(state: &UdcState, rows: &[(u64, Option<u64>)]) -> Option<u64> {
    for (place, before) in rows {
        if state.charge_before(*place) != *before {
            return Some(*place);
        }
    }
    None
}

#[test]
fn a_bill_has_the_lines_of_its_account(rt: HostRuntime) -> Result<(), Fail> {
    let mut state = UdcState::open(rt.alloc(), LARGE)?;
    assert_eq!(rt; first_amiss(&mut state, &CHARGES)?, None);
    let bills = [
        (FIRST, 3, 75, Some(4)),
        (SECOND, 2, 198, Some(5)),
        (0, 0, 0, None),
    ];
    assert_eq!(rt; first_unlike(&state, &bills)?, None);
    let links = [
        (5, Some(2)),
        (4, Some(3)),
        (3, Some(0)),
        (2, None),
        (1, None),
        (0, None),
        (6, None),
    ];
    assert_eq!(rt; first_astray(&state, &links), None);
    Ok(())
}
