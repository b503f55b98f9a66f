use pv_fields::{In, NoRoom, NoSpelling, Out, Short};
use std::test::Fail;

/// A number of each width and a run of two bytes, and one byte more.
const SPELLED: [u8; 18] = [
    1, 2, 3, 4, 5, 6, 7, 8, 9, 10, 11, 12, 13, 14, 15, b'A', b'B', 0xee,
];

/// Appends a number of each width and a run.
fn append_all(out: &mut Out<'_>) -> Result<(), NoRoom> {
    out.u8(0x01)?;
    out.u16(0x0203)?;
    out.u32(0x0405_0607)?;
    out.u64(0x0809_0a0b_0c0d_0e0f)?;
    out.run(b"AB")
}

#[test]
fn numbers_are_written_with_the_highest_byte_first(rt: HostRuntime) -> Result<(), Fail> {
    let mut slice = [0xee; 18];
    let mut out = Out::new(&mut slice);
    append_all(&mut out)?;
    assert_eq!(rt; (out.written(), out.room()), (17, 1));
    assert_eq!(rt; slice, SPELLED);
    Ok(())
}

#[test]
fn a_caller_that_compared_the_room_appends(rt: HostRuntime) {
    let mut slice = [0xee; 18];
    let mut out = Out::new(&mut slice);
    out.put_u8(0x01);
    out.put_u16(0x0203);
    out.put_u32(0x0405_0607);
    out.put_u64(0x0809_0a0b_0c0d_0e0f);
    out.put_run(b"AB");
    assert_eq!(rt; out.written(), 17);
    assert_eq!(rt; slice, SPELLED);
}

/// Whether a number of 1, 2, 4 or 8 bytes, or a run of 3, fits.
fn fits(size: u8, out: &mut Out<'_>) -> bool {
    match size {
        1 => out.u8(1).is_ok(),
        2 => out.u16(1).is_ok(),
        3 => out.run(b"ABC").is_ok(),
        4 => out.u32(1).is_ok(),
        _ => out.u64(1).is_ok(),
    }
}

/// How many bytes are there, and the size of what takes one more.
const ONE_TOO_FEW: [(usize, u8); 5] = [(0, 1), (1, 2), (2, 3), (3, 4), (7, 8)];

#[test]
fn what_does_not_fit_changes_nothing(rt: HostRuntime) {
    for (there, size) in ONE_TOO_FEW {
        let mut slice = [0xee; 18];
        let (first, _) = slice.split_at_mut(there);
        let fits = fits(size, &mut Out::new(first));
        assert_eq!(rt; (fits, slice), (false, [0xee; 18]), "{size} bytes");
    }
}

/// What is taken of a number of each width.
fn take_all(bytes: &mut In<'_>) -> Result<(u8, u16, u32, u64), Short> {
    Ok((bytes.u8()?, bytes.u16()?, bytes.u32()?, bytes.u64()?))
}

#[test]
fn numbers_are_taken_with_the_highest_byte_first(rt: HostRuntime) -> Result<(), Fail> {
    let mut bytes = In::new(&SPELLED);
    let numbers = (0x01, 0x0203, 0x0405_0607, 0x0809_0a0b_0c0d_0e0f);
    assert_eq!(rt; take_all(&mut bytes), Ok(numbers));
    let mut text = [0; 2];
    bytes.run(&mut text)?;
    assert_eq!(rt; (text, bytes.left()), (*b"AB", 1));
    Ok(())
}

/// Whether a number of 1, 2, 4 or 8 bytes, or a run of 3, is taken.
fn takes(size: u8, bytes: &mut In<'_>) -> bool {
    match size {
        1 => bytes.u8().is_ok(),
        2 => bytes.u16().is_ok(),
        3 => bytes.run(&mut [0; 3]).is_ok(),
        4 => bytes.u32().is_ok(),
        _ => bytes.u64().is_ok(),
    }
}

#[test]
fn what_is_not_there_takes_nothing(rt: HostRuntime) {
    for (there, size) in ONE_TOO_FEW {
        let (first, _) = SPELLED.split_at(there);
        let mut bytes = In::new(first);
        let is_taken = takes(size, &mut bytes);
        assert_eq!(rt; (is_taken, bytes.left()), (false, there), "{size} bytes");
    }
}

#[test]
fn a_run_that_is_not_there_is_not_begun(rt: HostRuntime) {
    let mut two = *b"AB";
    let taken = In::new(b"1").run(&mut two);
    assert_eq!(rt; (taken, two), (Err(Short), *b"AB"));
}

#[test]
fn a_fork_reads_apart(rt: HostRuntime) -> Result<(), Fail> {
    let mut bytes = In::new(&SPELLED);
    let ahead = bytes.fork();
    bytes.u32()?;
    assert_eq!(rt; (ahead.left(), bytes.left()), (18, 14));
    Ok(())
}

#[test]
fn a_byte_is_taken_within_a_range(rt: HostRuntime) {
    for (first, last, wanted) in [
        (4, 9, Err(NoSpelling)),
        (1, 2, Err(NoSpelling)),
        (3, 3, Ok(3)),
    ] {
        assert_eq!(rt; In::new(&[3]).u8_within(first, last), wanted);
    }
    assert_eq!(rt; In::new(&[]).u8_within(0, 255), Err(NoSpelling));
}

/// What a number of 2, 4 or 8 bytes is, if it is at most this one.
fn number_to(last: u8, bytes: &[u8]) -> Result<u64, NoSpelling> {
    match bytes.len() {
        2 => In::new(bytes).u16_to(last as u16).map(|n| n as u64),
        4 => In::new(bytes).u32_to(last as u32).map(|n| n as u64),
        _ => In::new(bytes).u64_to(last as u64),
    }
}

#[test]
fn numbers_are_taken_up_to_a_last_one(rt: HostRuntime) {
    let rows: [&[u8]; 3] = [&[0, 9], &[0, 0, 0, 9], &[0, 0, 0, 0, 0, 0, 0, 9]];
    for bytes in rows {
        assert_eq!(rt; number_to(8, bytes), Err(NoSpelling));
        assert_eq!(rt; number_to(9, bytes), Ok(9));
    }
}

#[test]
fn the_rest_is_seen_or_taken(rt: HostRuntime) {
    let mut bytes = In::new(&[7, 8]);
    let arrays = (bytes.fork().array::<2>(), bytes.fork().array::<3>());
    assert_eq!(rt; arrays, (Ok([7, 8]), Err(Short)));
    let seen = bytes.rest();
    assert_eq!(rt;
        (seen, bytes.take_rest(), bytes.left()),
        ([7, 8].as_slice(), [7, 8].as_slice(), 0)
    );
}
