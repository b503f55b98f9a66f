use pv_account::{Account, Groups, digest};
use pv_editor::{EditStep, EditorSeat, UdcReplyView, closing_text, reply_text, responses_text};
use pv_edits::{Base, EditWish, Record};
use pv_frame::{CheckedFrame, Field, FieldKind, Frame, Kind};
use pv_outside::Limits;
use pv_page::{AccountNo, FrameName, PageNo};
use pv_post::{Fields, Filled, Item, Reply};
use std::test::Fail;

const LIMITS: Limits = Limits {
    frames: 4,
    records: 10,
};

const LOG_ON: &[u8] = b"LOGON 0000000000 0000";

/// A base of one record, for which there is room.
fn base_of(rt: &HostRuntime, record: &Record) -> Result<Base, Fail> {
    let mut base = Base::open(rt.alloc(), LIMITS)?;
    if base.has_room(record) {
        base.absorb(record, 0);
    }
    Ok(base)
}

/// The operator's second edit leases page 20 to an account.
fn leased(rt: &HostRuntime) -> Result<Base, Fail> {
    let lease = Record::Lease {
        editor: number(0)?,
        q: 2,
        root: page(20)?,
        account: number(2_000_000_001)?,
    };
    base_of(rt, &lease)
}

/// The operator's seventh edit puts a blank frame.
fn stored(rt: &HostRuntime) -> Result<Base, Fail> {
    let put = Record::Put {
        editor: number(0)?,
        q: 7,
        name: name(b"20a")?,
        frame: CheckedFrame::of(Frame::blank())?,
    };
    base_of(rt, &put)
}

fn number(number: u64) -> Result<AccountNo, Fail> {
    Ok(AccountNo::of_number(number).ok_or("an account")?)
}

fn page(number: u32) -> Result<PageNo, Fail> {
    Ok(PageNo::of_number(number).ok_or("a page")?)
}

fn name(text: &[u8]) -> Result<FrameName, Fail> {
    Ok(FrameName::of_text(text).ok_or("a name")?)
}

/// Account 1000000001 with the password `ABCD`, at centre 3, in two groups.
fn account() -> Option<Account> {
    let number = AccountNo::of_number(1_000_000_001)?;
    Some(Account {
        number,
        digest: digest(number, b"ABCD"),
        home: 3,
        groups: Groups::of_list(&[7, 300])?,
    })
}

/// What a step says, or the word for another step.
fn said(step: &EditStep) -> &[u8] {
    match step {
        EditStep::Say(text) => text.bytes(),
        EditStep::Ask { .. } => b"ask",
        EditStep::Responses { .. } => b"responses",
        EditStep::Close => b"close",
    }
}

/// The line after these, in a new seat.
fn after(before: &[&[u8]], line: &[u8], base: &Base) -> EditStep {
    let mut seat = EditorSeat::new();
    for earlier in before {
        seat.line(earlier, base);
    }
    seat.line(line, base)
}

#[test]
fn every_line_has_its_reply_in_each_state(rt: HostRuntime) -> Result<(), Fail> {
    let base = leased(&rt)?;
    // The line, and its reply with nobody logged on, with the operator, and with a working frame too.
    let lines: [(&[u8], &[u8], &[u8], &[u8]); 25] = [
        (LOG_ON, b"OK", b"OK", b"OK"),
        (b"NEW 12a", b"NO 1 LOG ON FIRST", b"OK", b"OK"),
        (
            b"OPEN 20a",
            b"NO 1 LOG ON FIRST",
            b"NO 2 NOT OWNER",
            b"NO 2 NOT OWNER",
        ),
        (
            b"OPEN 30a",
            b"NO 1 LOG ON FIRST",
            b"NO 4 NO FRAME",
            b"NO 4 NO FRAME",
        ),
        (
            b"TITLE NEWS",
            b"NO 1 LOG ON FIRST",
            b"NO 12 NOTHING OPEN",
            b"OK",
        ),
        (b"TITLE", b"NO 1 LOG ON FIRST", b"NO 12 NOTHING OPEN", b"OK"),
        (
            b"ROW 2 HEADLINES",
            b"NO 1 LOG ON FIRST",
            b"NO 12 NOTHING OPEN",
            b"OK",
        ),
        (
            b"ROW 23 ",
            b"NO 1 LOG ON FIRST",
            b"NO 12 NOTHING OPEN",
            b"OK",
        ),
        (
            b"KIND I",
            b"NO 1 LOG ON FIRST",
            b"NO 12 NOTHING OPEN",
            b"OK",
        ),
        (
            b"KIND R",
            b"NO 1 LOG ON FIRST",
            b"NO 12 NOTHING OPEN",
            b"OK",
        ),
        (
            b"KIND M",
            b"NO 1 LOG ON FIRST",
            b"NO 12 NOTHING OPEN",
            b"OK",
        ),
        (
            b"ROUTE 1 20",
            b"NO 1 LOG ON FIRST",
            b"NO 12 NOTHING OPEN",
            b"OK",
        ),
        (
            b"ROUTE 9 -",
            b"NO 1 LOG ON FIRST",
            b"NO 12 NOTHING OPEN",
            b"OK",
        ),
        (
            b"PRICE 65535",
            b"NO 1 LOG ON FIRST",
            b"NO 12 NOTHING OPEN",
            b"OK",
        ),
        (
            b"GROUP 0",
            b"NO 1 LOG ON FIRST",
            b"NO 12 NOTHING OPEN",
            b"OK",
        ),
        (
            b"FIELD 4 0 20 T",
            b"NO 1 LOG ON FIRST",
            b"NO 12 NOTHING OPEN",
            b"OK",
        ),
        (
            b"FIELD 255 0 0 D",
            b"NO 1 LOG ON FIRST",
            b"NO 12 NOTHING OPEN",
            b"OK",
        ),
        (
            b"FIELD -",
            b"NO 1 LOG ON FIRST",
            b"NO 12 NOTHING OPEN",
            b"OK",
        ),
        (
            b"STORE 1",
            b"NO 1 LOG ON FIRST",
            b"NO 12 NOTHING OPEN",
            b"ask",
        ),
        (b"DROP 1 12a", b"NO 1 LOG ON FIRST", b"ask", b"ask"),
        (
            b"LEASE 1 30 2000000001",
            b"NO 1 LOG ON FIRST",
            b"ask",
            b"ask",
        ),
        (
            b"ACCOUNT 1 1000000001 ABCD 3 7,300",
            b"NO 1 LOG ON FIRST",
            b"ask",
            b"ask",
        ),
        (b"LAST", b"NO 1 LOG ON FIRST", b"OK 2", b"OK 2"),
        (
            b"RESPONSES 0",
            b"NO 1 LOG ON FIRST",
            b"responses",
            b"responses",
        ),
        (b"QUIT", b"close", b"close", b"close"),
    ];
    for (line, nobody, operator, working) in lines {
        assert_eq!(rt; said(&after(&[], line, &base)), nobody, "at {line:?}");
        assert_eq!(rt;
            said(&after(&[LOG_ON], line, &base)),
            operator,
            "at {line:?}"
        );
        assert_eq!(rt;
            said(&after(&[LOG_ON, b"NEW 1a"], line, &base)),
            working,
            "at {line:?}"
        );
    }
    Ok(())
}

#[test]
fn other_lines_are_bad_before_all_else(rt: HostRuntime) -> Result<(), Fail> {
    let base = leased(&rt)?;
    let lines: [&[u8]; 48] = [
        b"",
        b" ",
        b"logon 0000000000 0000",
        b"LOGON",
        b"LOGON 000000000 0000",
        b"LOGON 0000000000 00000",
        b"LOGON 0000000000 00*0",
        b"LOGON 0000000000  000",
        b"LOGON 0000000000 0000 ",
        b"NEW",
        b"NEW 12",
        b"NEW 012a",
        b"NEW 1000000000a",
        b"NEW  12a",
        b"NEW 12a ",
        b"NEW 12a 12a",
        b"OPEN 12A",
        b"TITLE 1234567890123456789012345",
        b"TITLE \\8",
        b"ROW",
        b"ROW 1 A",
        b"ROW 24 A",
        b"ROW 02 A",
        b"ROW 2 12345678901234567890123456789012345678901",
        b"KIND",
        b"KIND P",
        b"KIND I ",
        b"ROUTE 10 20",
        b"ROUTE 1 020",
        b"ROUTE 1",
        b"ROUTE - 1",
        b"PRICE 65536",
        b"PRICE 01",
        b"PRICE -1",
        b"GROUP 65536",
        b"FIELD 256 0 1 D",
        b"FIELD 4 0 20 A",
        b"FIELD 4 0 20",
        b"STORE 4294967296",
        b"STORE -",
        b"DROP 1",
        b"LEASE 1 30",
        b"ACCOUNT 1 1000000001 ABCD 4 -",
        b"ACCOUNT 1 1000000001 ABCD 3 7,7",
        b"ACCOUNT 1 1000000001 ABCD 3 0",
        b"ACCOUNT 1 1000000001 ABCD 3 7,",
        b"LAST ",
        b"QUIT NOW",
    ];
    for line in lines {
        let nobody = after(&[], line, &base);
        let operator = after(&[LOG_ON], line, &base);
        assert_eq!(rt; said(&nobody), b"NO 11 BAD LINE".as_slice(), "at {line:?}");
        assert_eq!(rt;
            said(&operator),
            b"NO 11 BAD LINE".as_slice(),
            "at {line:?}"
        );
    }
    Ok(())
}

#[test]
fn an_account_has_at_most_32_groups(rt: HostRuntime) -> Result<(), Fail> {
    let base = leased(&rt)?;
    let fits =
        b"ACCOUNT 1 1000000001 ABCD 0 32,31,30,29,28,27,26,25,24,23,22,21,20,19,18,17,16,15,14,13,12,11,10,9,8,7,6,5,4,3,2,1";
    let long =
        b"ACCOUNT 1 1000000001 ABCD 0 1,2,3,4,5,6,7,8,9,10,11,12,13,14,15,16,17,18,19,20,21,22,23,24,25,26,27,28,29,30,31,32,33";
    assert_eq!(rt; said(&after(&[LOG_ON], fits, &base)), b"ask".as_slice());
    assert_eq!(rt;
        said(&after(&[LOG_ON], long, &base)),
        b"NO 11 BAD LINE".as_slice()
    );
    Ok(())
}

#[test]
fn a_line_has_at_most_512_bytes(rt: HostRuntime) -> Result<(), Fail> {
    let base = leased(&rt)?;
    // A row of 40 attributes is 120 bytes; spaces do not make a row longer than a line may be.
    let mut line = [b' '; 513];
    line[..5].copy_from_slice(b"TITLE");
    let rows: [(&[u8], &[u8]); 3] = [
        (&line, b"NO 11 BAD LINE"),
        (&line[..31], b"NO 11 BAD LINE"),
        (&line[..30], b"OK"),
    ];
    for (line, reply) in rows {
        assert_eq!(rt; said(&after(&[LOG_ON, b"NEW 1a"], line, &base)), reply);
    }
    Ok(())
}

#[test]
fn a_ninth_field_is_refused(rt: HostRuntime) -> Result<(), Fail> {
    let base = leased(&rt)?;
    let mut seat = EditorSeat::new();
    seat.line(LOG_ON, &base);
    seat.line(b"NEW 1a", &base);
    for _ in 0..8 {
        assert_eq!(rt;
            said(&seat.line(b"FIELD 3 0 10 D", &base)),
            b"OK".as_slice()
        );
    }
    let rows: [(&[u8], &[u8]); 3] = [
        (b"FIELD 3 0 10 D", b"NO 7 BAD FRAME 5"),
        (b"FIELD -", b"OK"),
        (b"FIELD 3 0 10 D", b"OK"),
    ];
    for (line, reply) in rows {
        assert_eq!(rt; said(&seat.line(line, &base)), reply);
    }
    Ok(())
}

#[test]
fn an_editor_logs_on_with_his_password(rt: HostRuntime) -> Result<(), Fail> {
    let base = stored(&rt)?;
    let mut seat = EditorSeat::new();
    let lines: [(&[u8], &[u8]); 11] = [
        (b"LOGON 0000000000 0001", b"NO 13 NOT KNOWN"),
        (b"LOGON 2000000002 0000", b"NO 13 NOT KNOWN"),
        (b"LAST", b"NO 1 LOG ON FIRST"),
        (LOG_ON, b"OK"),
        (b"LAST", b"OK 7"),
        (b"OPEN 20a", b"OK"),
        (b"OPEN 20b", b"NO 4 NO FRAME"),
        (b"LOGON 0000000000 0001", b"NO 13 NOT KNOWN"),
        (b"PRICE 7", b"OK"),
        (LOG_ON, b"OK"),
        (b"PRICE 7", b"NO 12 NOTHING OPEN"),
    ];
    for (line, reply) in lines {
        let step = seat.line(line, &base);
        assert_eq!(rt; said(&step), reply, "at {line:?}");
    }
    Ok(())
}

#[test]
fn a_working_frame_is_stored_as_it_was_made(rt: HostRuntime) -> Result<(), Fail> {
    let base = leased(&rt)?;
    let mut seat = EditorSeat::new();
    let lines: [&[u8]; 10] = [
        LOG_ON,
        b"NEW 12a",
        b"TITLE NEWS",
        b"ROW 3 \\13RED",
        b"KIND R",
        b"ROUTE 1 20",
        b"PRICE 2",
        b"GROUP 7",
        b"FIELD 4 0 20 T",
        b"NEW 12",
    ];
    for line in lines {
        seat.line(line, &base);
    }
    let mut frame = Frame::blank();
    frame.title = *b"NEWS                    ";
    let mut row = [b' '; 40];
    row[..4].copy_from_slice(b"\x13RED");
    frame.set_row(3, &row);
    frame.kind = Kind::Response;
    frame.routes[1] = PageNo::of_number(20);
    frame.price = 2;
    frame.group = 7;
    frame.add_field(Field {
        row: 4,
        column: 0,
        length: 20,
        kind: FieldKind::Words,
    });
    let ask = EditStep::Ask {
        editor: number(0)?,
        q: 3,
        wish: EditWish::Put {
            name: name(b"12a")?,
            frame,
        },
    };
    assert_eq!(rt; seat.line(b"STORE 3", &base), ask);
    assert_eq!(rt; seat.line(b"STORE 3", &base), ask);
    Ok(())
}

#[test]
fn requests_carry_their_parts(rt: HostRuntime) -> Result<(), Fail> {
    let base = leased(&rt)?;
    let editor = number(0)?;
    let caller = number(1_000_000_001)?;
    let wishes: [(&[u8], EditWish); 3] = [
        (
            b"DROP 9 12b",
            EditWish::Drop {
                name: name(b"12b")?,
            },
        ),
        (
            b"LEASE 9 30 1000000001",
            EditWish::Lease {
                root: page(30)?,
                account: caller,
            },
        ),
        (
            b"ACCOUNT 9 1000000001 ABCD 3 300,7",
            EditWish::Account {
                account: account().ok_or("an account")?,
            },
        ),
    ];
    for (line, wish) in wishes {
        assert_eq!(rt;
            after(&[LOG_ON], line, &base),
            EditStep::Ask { editor, q: 9, wish },
            "at {line:?}"
        );
    }
    assert_eq!(rt;
        after(&[LOG_ON], b"RESPONSES 17", &base),
        EditStep::Responses { editor, from: 17 }
    );
    Ok(())
}

#[test]
fn each_code_has_its_words(rt: HostRuntime) {
    let codes: [(u8, &[u8]); 16] = [
        (1, b"NO 1 LOG ON FIRST"),
        (2, b"NO 2 NOT OWNER"),
        (3, b"NO 3 NUMBER 8 WANTED"),
        (4, b"NO 4 NO FRAME"),
        (5, b"NO 5 FRAMES FULL 8"),
        (6, b"NO 6 ACCOUNTS FULL 8"),
        (7, b"NO 7 BAD FRAME 8"),
        (8, b"NO 8 OPERATOR ONLY"),
        (9, b"NO 9 LEASES FULL 8"),
        (10, b"NO 10 NO ACCOUNT"),
        (11, b"NO 11 BAD LINE"),
        (12, b"NO 12 NOTHING OPEN"),
        (13, b"NO 13 NOT KNOWN"),
        (14, b"NO 14 FULL 8"),
        (15, b"NO 15 DISK"),
        (16, b"NO 16 MEMORY"),
    ];
    for (code, words) in codes {
        assert_eq!(rt; reply_text(&UdcReplyView::Refused(code, 8)).bytes(), words);
    }
    assert_eq!(rt;
        reply_text(&UdcReplyView::Stored(8)).bytes(),
        b"OK 8".as_slice()
    );
    assert_eq!(rt; closing_text().bytes(), b"BYE".as_slice());
}

#[test]
fn responses_are_read_out(rt: HostRuntime) -> Result<(), Fail> {
    let filled = |text: &[u8]| Filled::of_text(text);
    let item = Item::Reply(Reply {
        account: number(1_000_000_002)?,
        name: name(b"30a")?,
        moment: 9,
        fields: Fields::of_list(&[
            filled(b"WINDOW").ok_or("a field")?,
            filled(b"").ok_or("a field")?,
            filled(b"TWO").ok_or("a field")?,
        ])
        .ok_or("fields")?,
    });
    assert_eq!(rt;
        responses_text(Some((14, &item))).bytes(),
        b"OK 14 30a 1000000002 WINDOW||TWO".as_slice()
    );
    assert_eq!(rt; responses_text(None).bytes(), b"OK -".as_slice());
    Ok(())
}
