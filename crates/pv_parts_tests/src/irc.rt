use super::bytes::change;
use pv_charge::Line;
use pv_edits::{DownRecord, Record};
use pv_frame::{CheckedFrame, Frame};
use pv_irc::{CentreRecord, IrcReply, IrcRequest, IrcState};
use pv_node::Decision;
use pv_outside::Limits;
use pv_page::{AccountNo, FrameName};
use pv_post::Item;
use std::alloc::Global;
use std::test::Fail;

/// Room for one frame and one record.
const SMALL: Limits = Limits {
    frames: 1,
    records: 1,
};

/// The operator's edit of this number that puts a blank frame under a name.
fn put(q: u32, text: &[u8]) -> Result<DownRecord, Fail> {
    let Ok(frame) = CheckedFrame::of(Frame::blank()) else {
        return Err("a frame".into());
    };
    Ok(DownRecord::Whole(Record::Put {
        editor: AccountNo::of_number(0).ok_or("an account")?,
        q,
        name: FrameName::of_text(text).ok_or("a name")?,
        frame,
    }))
}

/// The reply to a record that came down, and whether it is to be stored.
fn reply_to(state: &IrcState, n: u64, rec: DownRecord) -> (IrcReply, bool) {
    match state.decide(&IrcRequest::Apply { n, rec }) {
        Decision::Answer(reply) => (reply, false),
        Decision::Store(_, reply) => (reply, true),
    }
}

/// The reply to nothing but the place of a record.
fn blank_at(state: &IrcState, n: u64) -> (IrcReply, bool) {
    reply_to(state, n, DownRecord::Blank)
}

#[test]
fn only_the_next_record_is_applied(rt: HostRuntime) -> Result<(), Fail> {
    let mut state = IrcState::open(rt.alloc(), 2, SMALL)?;
    assert_eq!(rt; blank_at(&state, 1), (IrcReply::Early(0), false));
    assert_eq!(rt; blank_at(&state, 0), (IrcReply::Applied, true));
    let rec = DownRecord::Blank;
    state.absorb(&CentreRecord::Applied { n: 0, rec });
    assert_eq!(rt; blank_at(&state, 0), (IrcReply::Old(1), false));
    assert_eq!(rt; blank_at(&state, 1), (IrcReply::Applied, true));
    Ok(())
}

#[test]
fn a_whole_record_without_room_is_not_applied(rt: HostRuntime) -> Result<(), Fail> {
    let mut state = IrcState::open(rt.alloc(), 2, SMALL)?;
    let (first, other) = (put(1, b"1a")?, put(2, b"2a")?);
    let first = CentreRecord::Applied { n: 0, rec: first };
    if !state.has_room(&first) {
        return Err("no room".into());
    }
    state.absorb(&first);
    assert_eq!(rt; reply_to(&state, 1, other), (IrcReply::NoRoom(1), false));
    let again = put(2, b"1a")?;
    assert_eq!(rt; reply_to(&state, 1, again), (IrcReply::Applied, true));
    Ok(())
}

#[test]
fn a_letter_that_does_not_wait_is_not_removed(rt: HostRuntime) -> Result<(), Fail> {
    let state = IrcState::open(rt.alloc(), 2, SMALL)?;
    let account = AccountNo::of_number(5).ok_or("an account")?;
    match state.decide(&IrcRequest::Remove { account, number: 0 }) {
        Decision::Answer(reply) => assert_eq!(rt; reply, IrcReply::Nothing),
        Decision::Store(..) => return Err("a removal".into()),
    }
    Ok(())
}

/// Record 9 of the edit list, which does not go down whole.
const BLANK: &[u8] = b"\x01\0\0\0\0\0\0\0\x09\x06";

/// Record 9: the operator's second edit drops frame 12a.
const DROP: &[u8] = b"\x01\0\0\0\0\0\0\0\x09\x02\0\0\0\0\0\0\0\0\0\0\0\x02\0\0\0\x0ca";

/// Account 5 logs on.
const LOG_ON: &[u8] = b"\x02\0\0\0\0\0\0\0\x05";

/// A charge of 25 pence to account 5 for frame 40a.
const CHARGE: &[u8] =
    b"\x03\x01\0\0\0\0\0\0\0\x07\0\0\0\x03\0\0\0\0\0\0\0\x05\0\0\0\x28a\0\x19\0\0\0\x09";

/// Letter 9 of account 5 is removed.
const REMOVAL: &[u8] = b"\x04\0\0\0\0\0\0\0\x05\0\0\0\0\0\0\0\x09";

/// A record of each kind, and one applied that is not whole.
const KINDS: [&[u8]; 5] = [BLANK, DROP, LOG_ON, CHARGE, REMOVAL];

/// The drop of [`DROP`].
fn drop() -> Option<DownRecord> {
    Some(DownRecord::Whole(Record::Drop {
        editor: AccountNo::of_number(0)?,
        q: 2,
        name: FrameName::of_text(b"12a")?,
    }))
}

/// The charge of [`CHARGE`].
fn charge() -> Option<Item> {
    Some(Item::Charge(Line {
        serial: 7,
        number: 3,
        account: AccountNo::of_number(5)?,
        name: FrameName::of_text(b"40a")?,
        price: 25,
        moment: 9,
    }))
}

#[test]
fn a_record_has_one_spelling() -> Result<(), Fail> {
    let account = AccountNo::of_number(5).ok_or("an account")?;
    let rec = drop().ok_or("a drop")?;
    let item = charge().ok_or("a charge")?;
    let blank = DownRecord::Blank;
    let spellings: [(&[u8], Option<CentreRecord>); 9] = [
        (BLANK, Some(CentreRecord::Applied { n: 9, rec: blank })),
        (DROP, Some(CentreRecord::Applied { n: 9, rec })),
        (LOG_ON, Some(CentreRecord::LogOn { account })),
        (b"\x02\0\0\0\0\0\0\0\x05\0", None),
        (b"\x02\0\0\0\0\0\0\0", None),
        (CHARGE, Some(CentreRecord::Kept { item })),
        (REMOVAL, Some(CentreRecord::Removed { account, number: 9 })),
        (b"\x04\0\0\0\0\0\0\0\x05\0\0\0\0\0\0\0", None),
        (b"\x05\0\0\0\0\0\0\0\x05", None),
    ];
    for (bytes, rec) in spellings {
        if CentreRecord::decode(bytes) != rec {
            return Err("another record".into());
        }
    }
    Ok(())
}

#[test]
fn each_prefix_is_no_record(rt: HostRuntime) {
    for bytes in KINDS {
        for end in 0..bytes.len() {
            let read = CentreRecord::decode(&bytes[..end]);
            assert_eq!(rt; read, None, "{end} of {bytes:?}");
        }
    }
}

/// The first byte of a record's spelling that can be another one without the record being another one or none.
fn first_unread(alloc: Global, bytes: &[u8]) -> Result<Option<usize>, Fail> {
    let record = CentreRecord::decode(bytes);
    let mut other = Vec::from_slice(alloc, bytes)?;
    for (at, byte) in bytes.iter().enumerate() {
        for by in 1..=u8::MAX {
            change(&mut other, at, *byte ^ by);
            if CentreRecord::decode(&other) == record {
                return Ok(Some(at));
            }
        }
        change(&mut other, at, *byte);
    }
    Ok(None)
}

#[test]
fn another_byte_is_another_record_or_none(rt: HostRuntime) -> Result<(), Fail> {
    for bytes in KINDS {
        assert_eq!(rt; first_unread(rt.alloc(), bytes)?, None, "{bytes:?}");
    }
    Ok(())
}
