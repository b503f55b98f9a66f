use super::bytes::change;
use pv_charge::Line;
use pv_edits::{DownRecord, Record};
use pv_fields::{NoRoom, Out};
use pv_packet::{HEAD_BYTES, Packet, PacketError};
use pv_page::{AccountNo, FrameName, PageNo};
use pv_post::Item;
use std::alloc::Global;
use std::test::Fail;

/// Record 258 for centre 1: a lease of page 12 to account 1000000001, by the operator.
const LEASE: [u8; 35] = [
    1, 1, 0, 0, 0, 0, 0, 0, 1, 2, 4, 0, 0, 0, 0, 0, 0, 0, 0, 0, 0, 0, 1, 0, 0, 0, 12, 0, 0, 0, 0,
    0x3b, 0x9a, 0xca, 0x01,
];

/// Item 9 of centre 3: a charge line.
const CHARGE: [u8; 42] = [
    2, 3, 0, 0, 0, 0, 0, 0, 0, 9, 1, 0, 0, 0, 0, 0, 0, 0, 7, 0, 0, 0, 3, 0, 0, 0, 0, 0x3b, 0x9a,
    0xca, 0x01, 0, 0, 0, 40, b'a', 0, 25, 0, 0, 0, 9,
];

/// All records below 2 are stored at centre 0.
const DOWN_HEARD: [u8; HEAD_BYTES] = [3, 0, 0, 0, 0, 0, 0, 0, 0, 2];

/// All items of centre 3 below the greatest number are stored.
const UP_HEARD: [u8; HEAD_BYTES] = [4, 3, 255, 255, 255, 255, 255, 255, 255, 255];

/// A packet of each kind, and one whose record does not go down whole.
const KINDS: [&[u8]; 5] = [
    &LEASE,
    &CHARGE,
    &DOWN_HEARD,
    &UP_HEARD,
    &[1, 2, 0, 0, 0, 0, 0, 0, 0, 0, 6],
];

fn caller() -> Option<AccountNo> {
    AccountNo::of_number(1_000_000_001)
}

fn lease() -> Option<Packet> {
    Some(Packet::Down {
        centre: 1,
        number: 258,
        rec: DownRecord::Whole(Record::Lease {
            editor: AccountNo::of_number(0)?,
            q: 1,
            root: PageNo::of_number(12)?,
            account: caller()?,
        }),
    })
}

fn charge() -> Option<Packet> {
    Some(Packet::Up {
        centre: 3,
        number: 9,
        item: Item::Charge(Line {
            serial: 7,
            number: 3,
            account: caller()?,
            name: FrameName::of_text(b"40a")?,
            price: 25,
            moment: 9,
        }),
    })
}

#[test]
fn each_kind_is_spelled_as_the_table_says(rt: HostRuntime) -> Result<(), Fail> {
    let mut bytes = [0xee; 64];
    let mut out = Out::new(&mut bytes);
    lease().ok_or("no lease")?.encode(&mut out)?;
    assert_eq!(rt; out.written(), 35);
    assert_eq!(rt; &bytes[..35], LEASE.as_slice());
    let mut out = Out::new(&mut bytes);
    charge().ok_or("no charge")?.encode(&mut out)?;
    assert_eq!(rt; out.written(), 42);
    assert_eq!(rt; &bytes[..42], CHARGE.as_slice());
    let mut few = [0xee; 9];
    let heard = Packet::DownHeard {
        centre: 0,
        number: 2,
    };
    assert_eq!(rt; heard.encode(&mut Out::new(&mut few)), Err(NoRoom));
    Ok(())
}

#[test]
fn each_kind_is_read_back(rt: HostRuntime) -> Result<(), Fail> {
    assert_eq!(rt; Packet::decode(&LEASE).ok(), lease());
    assert_eq!(rt; Packet::decode(&CHARGE).ok(), charge());
    let blank = Packet::Down {
        centre: 2,
        number: 0,
        rec: DownRecord::Blank,
    };
    assert_eq!(rt;
        Packet::decode(&[1, 2, 0, 0, 0, 0, 0, 0, 0, 0, 6]),
        Ok(blank)
    );
    let heard = Packet::DownHeard {
        centre: 0,
        number: 2,
    };
    assert_eq!(rt; Packet::decode(&DOWN_HEARD), Ok(heard));
    let other = Packet::UpHeard {
        centre: 3,
        number: u64::MAX,
    };
    assert_eq!(rt; Packet::decode(&UP_HEARD), Ok(other));
    Ok(())
}

#[test]
fn the_first_error_is_reported(rt: HostRuntime) -> Result<(), Fail> {
    let cases: [(&[u8], PacketError); 9] = [
        (&[], PacketError::Short),
        (&[3, 0, 0, 0, 0, 0, 0, 0, 0], PacketError::Short),
        (&[9, 0, 0, 0, 0, 0, 0, 0, 0, 2], PacketError::Kind),
        (&[0], PacketError::Kind),
        (&[3, 0, 0, 0, 0, 0, 0, 0, 0, 2, 0], PacketError::Trailing),
        (&[3, 4, 0, 0, 0, 0, 0, 0, 0, 2, 0], PacketError::Body),
        (&[1, 0, 0, 0, 0, 0, 0, 0, 0, 0, 7], PacketError::Body),
        (&[1, 0, 0, 0, 0, 0, 0, 0, 0, 0], PacketError::Body),
        (&[2, 0, 0, 0, 0, 0, 0, 0, 0, 0, 6], PacketError::Body),
    ];
    for (bytes, error) in cases.iter() {
        assert_eq!(rt; Packet::decode(bytes), Err(*error));
    }
    let mut longer = [0; 43];
    longer[..42].copy_from_slice(&CHARGE);
    assert_eq!(rt; Packet::decode(&longer), Err(PacketError::Body));
    Ok(())
}

/// The error of a proper prefix of a packet: its head is not there, or what follows that.
fn error_of_prefix(count: usize) -> PacketError {
    if count < HEAD_BYTES {
        PacketError::Short
    } else {
        PacketError::Body
    }
}

#[test]
fn each_prefix_is_too_short_or_has_no_body(rt: HostRuntime) {
    for bytes in KINDS {
        for end in 0..bytes.len() {
            assert_eq!(rt;
                Packet::decode(&bytes[..end]),
                Err(error_of_prefix(end)),
                "{end} of {bytes:?}"
            );
        }
    }
}

/// The first byte of a packet that can be another one without the packet being another one or none.
fn first_unread(alloc: Global, bytes: &[u8]) -> Result<Option<usize>, Fail> {
    let packet = Packet::decode(bytes);
    let mut other = Vec::from_slice(alloc, bytes)?;
    for (at, byte) in bytes.iter().enumerate() {
        for by in 1..=u8::MAX {
            change(&mut other, at, *byte ^ by);
            if Packet::decode(&other) == packet {
                return Ok(Some(at));
            }
        }
        change(&mut other, at, *byte);
    }
    Ok(None)
}

#[test]
fn another_byte_is_another_packet_or_none(rt: HostRuntime) -> Result<(), Fail> {
    for bytes in KINDS {
        assert_eq!(rt; first_unread(rt.alloc(), bytes)?, None, "{bytes:?}");
    }
    Ok(())
}
