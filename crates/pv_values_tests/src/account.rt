use pv_account::{Account, AccountNo, Groups, PASSWORD_BYTES, digest};
use pv_fields::{In, Out};
use std::test::Fail;

/// Accounts, passwords, and digests that another program computed.
const DIGESTS: [(u64, [u8; PASSWORD_BYTES], [u8; 32]); 3] = [
    (
        0,
        *b"0000",
        [
            0x2e, 0x6e, 0x15, 0xa3, 0x8c, 0x6f, 0xe8, 0xb6, 0x24, 0xfc, 0xa1, 0x3b, 0xe0, 0x0a,
            0x73, 0x79, 0x47, 0xa8, 0x09, 0x6f, 0xd5, 0x62, 0x07, 0x95, 0x69, 0x6b, 0x5b, 0x63,
            0xcd, 0x7f, 0xee, 0xa4,
        ],
    ),
    (
        1_000_000_001,
        *b"ABCD",
        [
            0x59, 0x6e, 0x94, 0x38, 0x96, 0x9b, 0x20, 0xe5, 0x59, 0xf7, 0x40, 0x3e, 0xcb, 0x5b,
            0x19, 0xad, 0xac, 0x55, 0x28, 0x32, 0x1c, 0x70, 0x9a, 0x0f, 0xf9, 0x08, 0xe7, 0x9e,
            0xd4, 0xeb, 0x5e, 0xb7,
        ],
    ),
    (
        9_999_999_999,
        *b"!~!~",
        [
            0x3e, 0x2f, 0x1e, 0x17, 0xf6, 0xf0, 0xf2, 0x1b, 0xec, 0xf6, 0xfb, 0xa8, 0xce, 0x60,
            0x4d, 0x8c, 0x9f, 0x9e, 0xa3, 0x39, 0xb3, 0xd5, 0xee, 0x42, 0xd8, 0x7d, 0x41, 0x25,
            0xa5, 0xa3, 0x9a, 0x23,
        ],
    ),
];

#[test]
fn digests_are_those_of_the_standard(rt: HostRuntime) -> Result<(), Fail> {
    for &(number, password, wanted) in &DIGESTS {
        let number = AccountNo::of_number(number).ok_or("an account")?;
        assert_eq!(rt; digest(number, &password), wanted);
    }
    Ok(())
}

/// Account 1000000001 with the password ABCD, at centre 2, in the groups 7 and 300.
const SPELLING: [u8; 46] = [
    0x00, 0x00, 0x00, 0x00, 0x3b, 0x9a, 0xca, 0x01, 0x59, 0x6e, 0x94, 0x38, 0x96, 0x9b, 0x20, 0xe5,
    0x59, 0xf7, 0x40, 0x3e, 0xcb, 0x5b, 0x19, 0xad, 0xac, 0x55, 0x28, 0x32, 0x1c, 0x70, 0x9a, 0x0f,
    0xf9, 0x08, 0xe7, 0x9e, 0xd4, 0xeb, 0x5e, 0xb7, 0x02, 0x02, 0x00, 0x07, 0x01, 0x2c,
];

fn account() -> Option<Account> {
    let number = AccountNo::of_number(1_000_000_001)?;
    Some(Account {
        number,
        digest: digest(number, b"ABCD"),
        home: 2,
        groups: Groups::of_list(&[300, 7])?,
    })
}

#[test]
fn an_account_is_spelled_part_by_part(rt: HostRuntime) -> Result<(), Fail> {
    let mut slice = [0xee; 46];
    account()
        .ok_or("an account")?
        .encode(&mut Out::new(&mut slice))?;
    assert_eq!(rt; slice, SPELLING);
    Ok(())
}

#[test]
fn an_account_is_read_as_it_is_spelled(rt: HostRuntime) {
    let mut bytes = In::new(&SPELLING);
    let read = Account::decode(&mut bytes);
    assert_eq!(rt; (read, bytes.left()), (account(), 0));
}

#[test]
fn each_prefix_is_no_account_and_is_left(rt: HostRuntime) {
    for end in 0..SPELLING.len() {
        let mut bytes = In::new(&SPELLING[..end]);
        let read = Account::decode(&mut bytes);
        assert_eq!(rt; (read, bytes.left()), (None, end));
    }
}

#[test]
fn another_byte_is_another_account_or_none(rt: HostRuntime) {
    let account = account();
    for at in 0..SPELLING.len() {
        for by in 1..=u8::MAX {
            let mut bytes = SPELLING;
            bytes[at] ^= by;
            assert!(rt;
                Account::decode(&mut In::new(&bytes)) != account,
                "{by} at {at}"
            );
        }
    }
}

/// A byte of the spelling, and a value that makes it no account's.
const WRONG: [(usize, u8); 6] = [(3, 3), (40, 4), (41, 3), (41, 33), (43, 0), (42, 2)];

#[test]
fn a_part_out_of_its_range_is_no_account(rt: HostRuntime) {
    for &(at, byte) in &WRONG {
        let mut bytes = SPELLING;
        bytes[at] = byte;
        assert_eq!(rt; Account::decode(&mut In::new(&bytes)), None);
    }
}

#[test]
fn a_password_matches_by_its_digest(rt: HostRuntime) -> Result<(), Fail> {
    let account = account().ok_or("an account")?;
    for (password, matches) in [(b"ABCD", true), (b"ABCE", false)] {
        assert_eq!(rt; account.matches(password), matches);
    }
    Ok(())
}

#[test]
fn groups_are_different_numbers_in_order(rt: HostRuntime) -> Result<(), Fail> {
    for wrong in [[7, 7], [7, 0]] {
        assert_eq!(rt; Groups::<32>::of_list(&wrong), None);
    }
    let groups = Groups::<32>::of_list(&[300, 7]).ok_or("groups")?;
    assert_eq!(rt;
        (groups.as_slice(), groups.has(300), groups.has(8)),
        ([7, 300].as_slice(), true, false)
    );
    Ok(())
}

/// One number more than an account may have.
const MANY: [u16; 33] = [
    33, 32, 31, 30, 29, 28, 27, 26, 25, 24, 23, 22, 21, 20, 19, 18, 17, 16, 15, 14, 13, 12, 11, 10,
    9, 8, 7, 6, 5, 4, 3, 2, 1,
];

#[test]
fn an_account_is_in_32_groups_at_most(rt: HostRuntime) -> Result<(), Fail> {
    let groups = Groups::<32>::of_list(&MANY[..32]).ok_or("groups")?;
    assert_eq!(rt; (groups.has(2), groups.has(1)), (true, false));
    assert_eq!(rt; Groups::<32>::of_list(&MANY), None);
    Ok(())
}

#[test]
fn a_caller_names_four_groups_at_most(rt: HostRuntime) {
    assert_eq!(rt; Groups::<4>::of_list(&MANY[..5]), None);
}
