use pv_page::{AccountNo, FrameName, PageError, PageNo};
use std::test::Fail;

#[test]
fn page_digits_are_read_or_refused(rt: HostRuntime) {
    let errors: [(&[u8], PageError); 12] = [
        (b"", PageError::Empty),
        (b"1234567890", PageError::TooLong),
        (b"12345678x0", PageError::TooLong),
        (b"0000000000", PageError::TooLong),
        (b"12a", PageError::NotDigit { at: 2 }),
        (b"a", PageError::NotDigit { at: 0 }),
        (b"01x", PageError::NotDigit { at: 2 }),
        (b"1/:", PageError::NotDigit { at: 1 }),
        (b"12345678:", PageError::NotDigit { at: 8 }),
        (b"01", PageError::LeadingZero),
        (b"00", PageError::LeadingZero),
        (b"000000000", PageError::LeadingZero),
    ];
    for (digits, error) in errors {
        assert_eq!(rt; PageNo::of_digits(digits), Err(error), "at {digits:?}");
    }
    let pages: [(&[u8], u32); 5] = [
        (b"0", 0),
        (b"9", 9),
        (b"10", 10),
        (b"90", 90),
        (b"999999999", 999_999_999),
    ];
    for (digits, number) in pages {
        let page = PageNo::of_digits(digits).map(|page| page.number());
        assert_eq!(rt; page, Ok(number), "at {digits:?}");
    }
}

#[test]
fn numbers_out_of_range_are_no_names(rt: HostRuntime) {
    for (number, is_page) in [(999_999_999, true), (1_000_000_000, false)] {
        assert_eq!(rt; PageNo::of_number(number).is_some(), is_page, "{number}");
    }
    for (number, is_account) in [(9_999_999_999, true), (10_000_000_000, false)] {
        assert_eq!(rt;
            AccountNo::of_number(number).is_some(),
            is_account,
            "{number}"
        );
    }
}

#[test]
fn accounts_have_ten_digits(rt: HostRuntime) -> Result<(), Fail> {
    let texts: [(&[u8], u64); 4] = [
        (b"0000000000", 0),
        (b"0000000012", 12),
        (b"1000000000", 1_000_000_000),
        (b"9999999999", 9_999_999_999),
    ];
    for (text, number) in texts {
        let account = AccountNo::of_digits(text).ok_or("an account")?;
        assert_eq!(rt; account.number(), number);
        assert_eq!(rt; account.digits().as_slice(), text);
    }
    Ok(())
}

#[test]
fn other_texts_are_no_accounts(rt: HostRuntime) {
    let others: [&[u8]; 5] = [
        b"",
        b"999999999",
        b"00000000000",
        b"+000000012",
        b"000000001x",
    ];
    for text in others {
        assert_eq!(rt; AccountNo::of_digits(text), None, "at {text:?}");
    }
}

#[test]
fn a_root_begins_the_pages_with_its_digits(rt: HostRuntime) -> Result<(), Fail> {
    let cases: [(u32, u32, bool); 9] = [
        (12, 12, true),
        (12, 123, true),
        (12, 120_000_000, true),
        (12, 1, false),
        (12, 13, false),
        (12, 312, false),
        (0, 0, true),
        (0, 5, false),
        (1, 999_999_999, false),
    ];
    for (root, page, begins) in cases {
        let root = PageNo::of_number(root).ok_or("a root")?;
        let page = PageNo::of_number(page).ok_or("a page")?;
        assert_eq!(rt; page.begins(root), begins, "{root:?} and {page:?}");
    }
    Ok(())
}

#[test]
fn frame_names_are_read_as_they_are_written(rt: HostRuntime) -> Result<(), Fail> {
    let texts: [&[u8]; 4] = [b"0a", b"12b", b"7z", b"999999999z"];
    for text in texts {
        let name = FrameName::of_text(text).ok_or("a name")?;
        let mut into = [b'.'; 10];
        let len = name.text(&mut into);
        let after = into.iter().filter(|byte| **byte == b'.').count();
        assert_eq!(rt; (into.get(..len), after), (Some(text), 10 - text.len()));
    }
    Ok(())
}

#[test]
fn other_texts_are_no_names(rt: HostRuntime) {
    let others: [&[u8]; 9] = [
        b"",
        b"a",
        b"12",
        b"12A",
        b"12{",
        b"12`",
        b"01a",
        b"12ab",
        b"1234567890a",
    ];
    for text in others {
        assert_eq!(rt; FrameName::of_text(text), None, "at {text:?}");
    }
}

#[test]
fn letters_go_up_to_z(rt: HostRuntime) -> Result<(), Fail> {
    let mut name = FrameName::of_text(b"5a").ok_or("a name")?;
    for _ in 0..25 {
        name = name.next_letter().ok_or("a letter before z")?;
    }
    assert_eq!(rt; Some(name), FrameName::of_text(b"5z"));
    assert_eq!(rt; name.next_letter(), None);
    Ok(())
}
