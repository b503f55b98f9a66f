use crate::{OfficeStatus, statement_of, statement_options, tape_of};
use pv_journal::format;
use pv_memory::{MemDisk, MemSink, MemSource};
use std::alloc::{AllocError, Global};
use std::test::Fail;

/// These words as the command line gives them.
fn texts(alloc: Global, words: &str) -> Result<Vec<String>, AllocError> {
    let mut texts = Vec::new(alloc);
    for word in words.split(' ') {
        texts.push(String::from_str(alloc, word)?)?;
    }
    Ok(texts)
}

/// The account, the year and the month that these words ask for.
fn statement_asked(words: &[String]) -> Option<(u64, u16, u8)> {
    match statement_options(words) {
        Some(options) => Some((options.account.number(), options.year, options.month)),
        None => None,
    }
}

#[test]
fn words_of_a_statement(rt: HostRuntime) -> Result<(), Fail> {
    let cases: [(&str, Option<(u64, u16, u8)>); 12] = [
        (
            "statement d 1000000001 1980-01",
            Some((1_000_000_001, 1980, 1)),
        ),
        ("statement d 0000000000 1970-12", Some((0, 1970, 12))),
        (
            "statement d 9999999999 2099-10",
            Some((9_999_999_999, 2099, 10)),
        ),
        ("statement d 1000000001 1969-12", None),
        ("statement d 1000000001 2100-01", None),
        ("statement d 1000000001 1980-00", None),
        ("statement d 1000000001 1980-13", None),
        ("statement d 1000000001 1980-1", None),
        ("statement d 1000000001 1980_01", None),
        ("statement d 100000001 1980-01", None),
        ("statement d 1000000001", None),
        ("statement d 1000000001 1980-01 x", None),
    ];
    for (words, wanted) in cases {
        let texts = texts(rt.alloc(), words)?;
        let asked = statement_asked(&texts);
        assert_eq!(rt; asked, wanted, "{words}");
    }
    Ok(())
}

/// The number with which a statement of a disk ends that was formatted or not, and what it writes.
fn end_of(alloc: Global, words: &str, is_formatted: bool, wanted: &[u8]) -> Result<u8, Fail> {
    let mut disk = MemDisk::new(alloc, 64, &[])?;
    if is_formatted && format(&mut disk).is_err() {
        return Err(Fail::from("not formatted"));
    }
    let mut out = MemSink::new(alloc, 100, &[])?;
    let status = statement_of(alloc, &texts(alloc, words)?, disk, &mut out);
    if out.bytes() != wanted {
        return Err(Fail::from("written otherwise"));
    }
    Ok(status.number())
}

#[test]
fn statements_end_so(rt: HostRuntime) -> Result<(), Fail> {
    let cases: [(&str, bool, &[u8], u8); 4] = [
        (
            "statement d 0000000000 1980-01",
            true,
            b"STATEMENT 0000000000 1980-01\nSUM 0\n",
            0,
        ),
        ("statement d 1000000009 1980-01", true, b"", 15),
        ("statement d 0000000000 1980-01", false, b"", 9),
        ("statement d 0000000000 1980", true, b"", 2),
    ];
    for (words, is_formatted, written, number) in cases {
        assert_eq!(rt;
            end_of(rt.alloc(), words, is_formatted, written)?,
            number,
            "{words}"
        );
    }
    Ok(())
}

/// The number with which each of these runs of a tape ends on one disk, one after the other, and what all of them write.
fn ends_of(
    alloc: Global,
    words: &str,
    tape: &[u8],
    numbers: &[u8],
    wanted: &[u8],
) -> Result<(), Fail> {
    let mut disk = MemDisk::new(alloc, 512, &[])?;
    if format(&mut disk).is_err() {
        return Err(Fail::from("not formatted"));
    }
    let texts = texts(alloc, words)?;
    let mut out = MemSink::new(alloc, 100, &[])?;
    for number in numbers {
        let mut source = MemSource::new(alloc, tape, &[])?;
        let (status, left) = tape_of(alloc, &texts, disk, &mut source, &mut out);
        if status.number() != *number {
            return Err(Fail::from("another end"));
        }
        disk = left;
    }
    if out.bytes() != wanted {
        return Err(Fail::from("written otherwise"));
    }
    Ok(())
}

#[test]
fn tapes_end_so(rt: HostRuntime) -> Result<(), Fail> {
    let drops: &[u8] = b"TAPE 1 0000000000 0000\nDROP 1a\n";
    let cases: [(&str, &[u8], &[u8], &[u8]); 6] = [
        (
            "tape d",
            b"TAPE 7 0000000000 0000\n",
            &[0, 0],
            b"stored 0 skipped 0\nstored 0 skipped 0\n",
        ),
        ("tape d", drops, &[14], b""),
        ("tape d", b"TAPE 1 0000000000 1111\n", &[13], b""),
        ("tape d", b"", &[3, 3], b""),
        ("tape", drops, &[2], b""),
        ("tape d x", drops, &[2], b""),
    ];
    for (words, tape, numbers, written) in cases {
        ends_of(rt.alloc(), words, tape, numbers, written)?;
    }
    Ok(())
}
