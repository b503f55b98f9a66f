use pv_account::{Account, Groups, digest};
use pv_charge::Line;
use pv_edits::{Base, DownRecord, Record, Sight, Taken};
use pv_fields::Out;
use pv_frame::{CheckedFrame, Frame};
use pv_outside::Limits;
use pv_page::{AccountNo, FrameName, PageNo};
use pv_post::{Item, Letter, Mailboxes, TEXT_CELLS};
use std::alloc::Global;
use std::test::Fail;

/// A lease of page 12 to account 1000000001, by the operator.
const LEASE: [u8; 25] = [
    4, 0, 0, 0, 0, 0, 0, 0, 0, 0, 0, 0, 1, 0, 0, 0, 12, 0, 0, 0, 0, 0x3b, 0x9a, 0xca, 0x01,
];

/// A drop of frame 12a by the operator.
const DROP: [u8; 18] = [2, 0, 0, 0, 0, 0, 0, 0, 0, 0, 0, 0, 2, 0, 0, 0, 12, b'a'];

/// A charge line that was taken up from centre 3.
const TAKEN: [u8; 42] = [
    5, 3, 0, 0, 0, 0, 0, 0, 0, 9, 1, 0, 0, 0, 0, 0, 0, 0, 7, 0, 0, 0, 3, 0, 0, 0, 0, 0x3b, 0x9a,
    0xca, 0x01, 0, 0, 0, 40, b'a', 0, 25, 0, 0, 0, 9,
];

const LIMITS: Limits = Limits {
    frames: 1,
    records: 10,
};

fn operator() -> Option<AccountNo> {
    AccountNo::of_number(0)
}

fn caller() -> Option<AccountNo> {
    AccountNo::of_number(1_000_000_001)
}

/// The operator's letter.
fn letter() -> Option<Letter> {
    Some(Letter {
        number: 9,
        sender: operator()?,
        moment: 1,
        text: [b'A'; TEXT_CELLS],
    })
}

fn name() -> Option<FrameName> {
    FrameName::of_text(b"12a")
}

fn lease() -> Option<Record> {
    Some(Record::Lease {
        editor: operator()?,
        q: 1,
        root: PageNo::of_number(12)?,
        account: caller()?,
    })
}

fn drop() -> Option<Record> {
    Some(Record::Drop {
        editor: operator()?,
        q: 2,
        name: name()?,
    })
}

fn taken() -> Option<Record> {
    Some(Record::Taken(Taken {
        centre: 3,
        k: 9,
        item: Item::Charge(Line {
            serial: 7,
            number: 3,
            account: caller()?,
            name: FrameName::of_text(b"40a")?,
            price: 25,
            moment: 9,
        }),
    }))
}

fn put() -> Option<Record> {
    let mut frame = Frame::blank();
    frame.group = 7;
    Some(Record::Put {
        editor: operator()?,
        q: 3,
        name: name()?,
        frame: CheckedFrame::of(frame).ok()?,
    })
}

fn account() -> Option<Account> {
    Some(Account {
        number: caller()?,
        digest: digest(caller()?, b"ABCD"),
        home: 2,
        groups: Groups::of_list(&[300, 7])?,
    })
}

#[test]
fn a_lease_is_spelled_part_by_part(rt: HostRuntime) -> Result<(), Fail> {
    let mut slice = [0xee; 25];
    lease().ok_or("a lease")?.encode(&mut Out::new(&mut slice))?;
    assert_eq!(rt; slice, LEASE);
    assert_eq!(rt; Record::decode(&LEASE), lease());
    Ok(())
}

#[test]
fn a_drop_is_spelled_part_by_part(rt: HostRuntime) -> Result<(), Fail> {
    let mut slice = [0xee; 18];
    drop().ok_or("a drop")?.encode(&mut Out::new(&mut slice))?;
    assert_eq!(rt; slice, DROP);
    assert_eq!(rt; Record::decode(&DROP), drop());
    assert_eq!(rt; Record::decode(&DROP[..17]), None);
    Ok(())
}

#[test]
fn a_taken_item_is_spelled_with_its_centre(rt: HostRuntime) -> Result<(), Fail> {
    let mut slice = [0xee; 42];
    taken().ok_or("an item")?.encode(&mut Out::new(&mut slice))?;
    assert_eq!(rt; slice, TAKEN);
    assert_eq!(rt; Record::decode(&TAKEN), taken());
    let mut centre = TAKEN;
    centre[1] = 4;
    assert_eq!(rt; Record::decode(&centre), None);
    Ok(())
}

#[test]
fn a_put_takes_a_frame_and_no_byte_more(rt: HostRuntime) -> Result<(), Fail> {
    let mut slice = [0xee; 968];
    put().ok_or("a put")?.encode(&mut Out::new(&mut slice))?;
    assert_eq!(rt; Record::decode(&slice), put());
    let mut longer = [0; 969];
    put().ok_or("a put")?.encode(&mut Out::new(&mut longer))?;
    assert_eq!(rt; Record::decode(&longer), None);
    Ok(())
}

/// How many bytes the longest of these records has: one that puts a frame without fields.
const LONGEST: usize = 968;

/// A record of each kind.
fn each_kind() -> [Option<Record>; 5] {
    [put(), drop(), new_account(), lease(), taken()]
}

/// The spelling of a record.
fn spelled(alloc: Global, record: Option<Record>) -> Result<Vec<u8>, Fail> {
    let mut slice = [0xee; LONGEST];
    let mut out = Out::new(&mut slice);
    record.ok_or("a record")?.encode(&mut out)?;
    let written = out.written();
    Ok(Vec::from_slice(alloc, &slice[..written])?)
}

/// The first prefix of a record's spelling that is read as a record.
fn first_read(bytes: &[u8]) -> Option<usize> {
    for end in 0..bytes.len() {
        if Record::decode(&bytes[..end]).is_some() {
            return Some(end);
        }
    }
    None
}

#[test]
fn each_prefix_is_no_record(rt: HostRuntime) -> Result<(), Fail> {
    for record in each_kind() {
        let bytes = spelled(rt.alloc(), record)?;
        assert_eq!(rt; Record::decode(&bytes), record);
        assert_eq!(rt; first_read(&bytes), None);
    }
    Ok(())
}

/// Puts another byte at a place. A place past the end is left alone.
fn change(bytes: &mut [u8], at: usize, byte: u8) {
    if let Some(changed) = bytes.get_mut(at) {
        *changed = byte;
    }
}

/// Each bit of a byte.
const BITS: [u8; 8] = [1, 2, 4, 8, 16, 32, 64, 128];

/// The first byte of a record's spelling of which a bit can be another one without the record being another one or none.
fn first_unread(alloc: Global, bytes: &[u8]) -> Result<Option<usize>, Fail> {
    let record = Record::decode(bytes);
    let mut other = Vec::from_slice(alloc, bytes)?;
    for (at, byte) in bytes.iter().enumerate() {
        for bit in BITS {
            change(&mut other, at, *byte ^ bit);
            if Record::decode(&other) == record {
                return Ok(Some(at));
            }
        }
        change(&mut other, at, *byte);
    }
    Ok(None)
}

#[test]
fn another_byte_is_another_record_or_none(rt: HostRuntime) -> Result<(), Fail> {
    for record in each_kind() {
        let bytes = spelled(rt.alloc(), record)?;
        assert_eq!(rt; first_unread(rt.alloc(), &bytes)?, None, "{bytes:?}");
    }
    Ok(())
}

#[test]
fn what_is_left_out_is_one_byte(rt: HostRuntime) -> Result<(), Fail> {
    assert_eq!(rt; DownRecord::decode(&[6]), Some(DownRecord::Blank));
    assert_eq!(rt; DownRecord::decode(&[6, 6]), None);
    assert_eq!(rt; DownRecord::decode(&[]), None);
    assert_eq!(rt; DownRecord::decode(&DROP), drop().map(DownRecord::Whole));
    Ok(())
}

/// Whether the operator's password is the first one.
fn has_first_password(base: &Base) -> Option<bool> {
    let account = base.account(operator()?)?;
    Some(account.matches(b"0000") && !account.matches(b"0001"))
}

/// Whether there is the caller's account.
fn has_caller(base: &Base) -> Option<bool> {
    Some(base.account(caller()?).is_some())
}

/// Whether page 12 is the operator's.
fn is_operators(base: &Base) -> Option<bool> {
    Some(base.owner(PageNo::of_number(12)?) == operator()?)
}

/// Whether the name has a frame.
fn has_frame(base: &Base) -> Option<bool> {
    Some(base.get(name()?).is_some())
}

/// The operator's last number, and its place.
fn last(base: &Base) -> Option<(u32, u64)> {
    base.last(operator()?)
}

#[test]
fn a_new_base_has_the_operator_alone(rt: HostRuntime) -> Result<(), Fail> {
    let base = Base::open(rt.alloc(), LIMITS)?;
    assert_eq!(rt; has_first_password(&base), Some(true));
    assert_eq!(rt; has_caller(&base), Some(false));
    assert_eq!(rt; is_operators(&base), Some(true));
    assert_eq!(rt; has_frame(&base), Some(false));
    assert_eq!(rt; last(&base), None);
    Ok(())
}

/// Whether the base has room for a record, and then takes it.
fn takes(base: &mut Base, record: Option<Record>, place: u64) -> bool {
    let Some(record) = record else {
        return false;
    };
    let fits = base.count() < u64::from(base.limits().records) && base.has_room(&record);
    if fits {
        base.absorb(&record, place);
    }
    fits
}

/// The account, in no group.
fn stranger() -> Option<Account> {
    Some(Account {
        groups: Groups::none(),
        ..account()?
    })
}

/// Whether the name's frame is open to an account.
fn is_open(base: &Base, account: Option<Account>) -> Option<bool> {
    Some(base.open_to(&account?, name()?).is_some())
}

#[test]
fn a_frame_is_open_to_its_group(rt: HostRuntime) -> Result<(), Fail> {
    let mut base = Base::open(rt.alloc(), LIMITS)?;
    assert!(rt; takes(&mut base, put(), 40));
    assert_eq!(rt; is_open(&base, account()), Some(true));
    assert_eq!(rt; is_open(&base, stranger()), Some(false));
    assert_eq!(rt; last(&base), Some((3, 40)));
    Ok(())
}

/// The operator's record that makes the account.
fn new_account() -> Option<Record> {
    Some(Record::Account {
        editor: operator()?,
        q: 1,
        account: account()?,
    })
}

/// Whether a caller at a centre sees his account, the frame, another one of its page, and a letter.
fn sees(
    base: &Base,
    boxes: &Mailboxes,
    centre: u8,
    caller: Option<AccountNo>,
) -> Option<[bool; 4]> {
    let sight = Sight::new(base, boxes, centre, caller);
    Some([
        sight.account().is_some(),
        sight.frame(name()?).is_some(),
        sight.frame(FrameName::of_text(b"12b")?).is_some(),
        sight.letter().is_some(),
    ])
}

/// A centre, a caller there, whether he sees his account, and whether the frame and a letter.
type Row = (u8, Option<AccountNo>, bool, bool);

/// The first row that is not what its caller sees.
fn first_amiss(base: &Base, boxes: &Mailboxes, rows: &[Row]) -> Option<Row> {
    for row in rows {
        let (centre, caller, known, shown) = *row;
        if sees(base, boxes, centre, caller) != Some([known, shown, false, shown]) {
            return Some(*row);
        }
    }
    None
}

#[test]
fn a_caller_sees_the_pages_open_to_him_at_home_alone(rt: HostRuntime) -> Result<(), Fail> {
    let mut base = Base::open(rt.alloc(), LIMITS)?;
    assert!(rt; takes(&mut base, new_account(), 0));
    assert!(rt; takes(&mut base, put(), 1));
    let mut boxes = Mailboxes::open(rt.alloc(), 1)?;
    let member = caller().ok_or("an account")?;
    boxes.arrive(member, &letter().ok_or("a letter")?);
    let rows = [
        (2, Some(member), true, true),
        (1, Some(member), false, false),
        (0, operator(), true, false),
        (2, AccountNo::of_number(1_000_000_002), false, false),
        (2, None, false, false),
    ];
    assert_eq!(rt; first_amiss(&base, &boxes, &rows), None);
    Ok(())
}
