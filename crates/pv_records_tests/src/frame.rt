use pv_cells::row_of;
use pv_fields::{NoRoom, Out};
use pv_frame::FrameCodecError::{Invalid, Short, Trailing, Version};
use pv_frame::FrameError::{Cell, Code, FieldRange, FieldsMeet, Price, Shape};
use pv_frame::{CheckedFrame, FIELDS, Field, FieldKind, Frame, FrameCodecError, FrameError, Kind};
use pv_page::PageNo;
use std::test::Fail;

/// A mail frame with its account at row 3 and texts at rows 5 and 6, spelled by hand: digit 1 leads
/// to page 12, the price is 5, and the group 300.
fn spelled() -> [u8; 962] {
    let mut bytes = [b' '; 962];
    bytes[0] = 1;
    bytes[1] = b'M';
    bytes[25] = b'A';
    bytes[905] = 2;
    for i in 906..946 {
        bytes[i] = 0xff;
    }
    bytes[910] = 0;
    bytes[911] = 0;
    bytes[912] = 0;
    bytes[913] = 12;
    bytes[946] = 5;
    bytes[947] = 1;
    bytes[948] = 44;
    bytes[949] = 3;
    let fields = [3, 0, 10, 0, 5, 0, 40, 1, 6, 2, 3, 1];
    for i in 0..12 {
        bytes[950 + i] = fields[i];
    }
    bytes
}

/// The error with which bytes are refused. `None` if they are read.
fn error_of(bytes: &[u8]) -> Option<FrameCodecError> {
    Frame::decode(bytes).err()
}

/// The error of the spelled frame with some bytes changed.
fn changed(changes: &[(usize, u8)]) -> Option<FrameCodecError> {
    let mut bytes = spelled();
    for (at, value) in changes {
        if let Some(byte) = bytes.get_mut(*at) {
            *byte = *value;
        }
    }
    error_of(&bytes)
}

/// The bytes of a blank frame, and one more.
fn blank_and_one() -> Option<[u8; 951]> {
    let mut into = [0; 951];
    Frame::blank().encode(&mut Out::new(&mut into)).ok()?;
    Some(into)
}

#[test]
fn a_blank_frame_takes_950_bytes(rt: HostRuntime) -> Result<(), Fail> {
    let bytes = blank_and_one().ok_or("room")?;
    for (end, wanted) in [(949, Some(Short)), (950, None), (951, Some(Trailing))] {
        assert_eq!(rt; error_of(&bytes[..end]), wanted, "{end} bytes");
    }
    Ok(())
}

/// The bytes of a blank frame with another one at this place.
fn blank_with(at: usize, value: u8) -> Option<[u8; 950]> {
    let mut bytes = [0; 950];
    Frame::blank().encode(&mut Out::new(&mut bytes)).ok()?;
    if let Some(byte) = bytes.get_mut(at) {
        *byte = value;
    }
    Some(bytes)
}

#[test]
fn a_blank_frame_is_refused_with_one_byte_changed(rt: HostRuntime) -> Result<(), Fail> {
    let rows = [
        (0, 2, Version),
        (905, 3, Invalid(Code { at: 905 })),
        (946, 100, Invalid(Price)),
    ];
    for (at, value, wanted) in rows {
        let bytes = blank_with(at, value).ok_or("room")?;
        assert_eq!(rt; error_of(&bytes), Some(wanted), "byte {at}");
    }
    Ok(())
}

#[test]
fn a_frame_is_written_as_it_was_read(rt: HostRuntime) -> Result<(), Fail> {
    let bytes = spelled();
    let mut into = [0; 962];
    Frame::decode(&bytes)?.encode(&mut Out::new(&mut into))?;
    assert_eq!(rt; into, bytes);
    Ok(())
}

#[test]
fn without_room_nothing_is_written(rt: HostRuntime) {
    let mut short = [0xee; 949];
    assert_eq!(rt;
        Frame::blank().encode(&mut Out::new(&mut short)),
        Err(NoRoom)
    );
    assert_eq!(rt; short, [0xee; 949]);
}

#[test]
fn a_frame_is_made_part_by_part(rt: HostRuntime) -> Result<(), Fail> {
    let mut frame = Frame::blank();
    frame.title[0] = b'M';
    frame.body[0] = b'A';
    frame.kind = Kind::Mail;
    frame.routes[1] = PageNo::of_number(12);
    frame.price = 5;
    frame.group = 300;
    for (row, column, length, kind) in [
        (3, 0, 10, FieldKind::Digits),
        (5, 0, 40, FieldKind::Words),
        (6, 2, 3, FieldKind::Words),
    ] {
        assert!(rt; frame.fields().len() < FIELDS);
        frame.add_field(Field {
            row,
            column,
            length,
            kind,
        });
    }
    assert_eq!(rt; frame.check(), Ok(()));
    assert_eq!(rt; Frame::decode(&spelled()), Ok(frame));
    Ok(())
}

#[test]
fn a_row_of_cells_makes_a_valid_frame(rt: HostRuntime) -> Result<(), Fail> {
    let row = row_of(b"HELLO")?;
    let mut wanted = Frame::blank();
    wanted.set_row(2, &row);
    assert_eq!(rt; CheckedFrame::of_row(&row), CheckedFrame::of(wanted)?);
    Ok(())
}

#[test]
fn a_row_is_replaced_alone(rt: HostRuntime) -> Result<(), Fail> {
    let mut bytes = spelled();
    for (at, byte) in b"LAST".iter().enumerate() {
        bytes[865 + at] = *byte;
    }
    let mut frame = Frame::decode(&spelled())?;
    frame.set_row(23, &row_of(b"LAST")?);
    assert_eq!(rt; Frame::decode(&bytes), Ok(frame));
    Ok(())
}

#[test]
fn without_fields_a_frame_is_of_another_kind(rt: HostRuntime) -> Result<(), Fail> {
    let mut frame = Frame::decode(&spelled())?;
    frame.clear_fields();
    let without = frame.check();
    frame.kind = Kind::Information;
    assert_eq!(rt;
        (frame.fields().len(), without, frame.check()),
        (0, Err(Shape), Ok(()))
    );
    Ok(())
}

#[test]
fn a_checked_frame_is_valid(rt: HostRuntime) -> Result<(), Fail> {
    let checked = CheckedFrame::decode(&spelled())?;
    let frame = checked.frame();
    assert_eq!(rt; Frame::decode(&spelled()), Ok(*frame));
    assert_eq!(rt; CheckedFrame::of(*frame), Ok(checked));
    Ok(())
}

#[test]
fn errors_have_their_numbers(rt: HostRuntime) {
    let errors = [
        FrameError::Cell,
        FrameError::Price,
        FrameError::FieldRange { i: 0 },
        FrameError::FieldsMeet { i: 0, j: 1 },
        FrameError::Shape,
        FrameError::Code { at: 905 },
    ];
    for (i, error) in errors.iter().enumerate() {
        assert_eq!(rt; usize::from(error.number()), i + 1);
    }
}

/// A byte of the spelled frame, another value for it, and the error that it then has.
const CHANGES: [(usize, u8, Option<FrameCodecError>); 45] = [
    // the version
    (0, 0, Some(Version)),
    (0, 2, Some(Version)),
    // the first and the last cell of the title and of the body
    (1, 127, None),
    (1, 128, Some(Invalid(Cell))),
    (24, 200, Some(Invalid(Cell))),
    (25, 128, Some(Invalid(Cell))),
    (904, 255, Some(Invalid(Cell))),
    // the kind: another one has other fields
    (905, 0, Some(Invalid(Shape))),
    (905, 1, None),
    (905, 3, Some(Invalid(Code { at: 905 }))),
    // the routes: 0xFEFFFFFF and 0xFFFFFF00 are no pages, nor is 0x3C00000C, but 0x3B00000C is
    (906, 0xfe, Some(Invalid(Code { at: 906 }))),
    (909, 0x00, Some(Invalid(Code { at: 906 }))),
    (910, 0x3c, Some(Invalid(Code { at: 910 }))),
    (910, 0x3b, None),
    (945, 0xfe, Some(Invalid(Code { at: 942 }))),
    // the price and the group
    (946, 99, None),
    (946, 100, Some(Invalid(Price))),
    (947, 255, None),
    (948, 0, None),
    // the number of fields
    (949, 0, Some(Trailing)),
    (949, 2, Some(Trailing)),
    (949, 4, Some(Short)),
    (949, 8, Some(Short)),
    (949, 9, Some(Invalid(Code { at: 949 }))),
    // the field of the account
    (950, 1, Some(Invalid(FieldRange { i: 0 }))),
    (950, 23, None),
    (950, 24, Some(Invalid(FieldRange { i: 0 }))),
    (950, 5, Some(Invalid(FieldsMeet { i: 0, j: 1 }))),
    (951, 30, None),
    (951, 31, Some(Invalid(FieldRange { i: 0 }))),
    (952, 0, Some(Invalid(FieldRange { i: 0 }))),
    (952, 11, Some(Invalid(Shape))),
    (952, 41, Some(Invalid(FieldRange { i: 0 }))),
    (953, 1, Some(Invalid(Shape))),
    (953, 2, Some(Invalid(Code { at: 953 }))),
    // the field of the first text
    (954, 3, Some(Invalid(FieldsMeet { i: 0, j: 1 }))),
    (954, 6, Some(Invalid(FieldsMeet { i: 1, j: 2 }))),
    (955, 1, Some(Invalid(FieldRange { i: 1 }))),
    (957, 0, Some(Invalid(Shape))),
    (957, 2, Some(Invalid(Code { at: 957 }))),
    // the field of the second text
    (958, 3, Some(Invalid(FieldsMeet { i: 0, j: 2 }))),
    (958, 5, Some(Invalid(FieldsMeet { i: 1, j: 2 }))),
    (960, 38, None),
    (960, 39, Some(Invalid(FieldRange { i: 2 }))),
    (961, 7, Some(Invalid(Code { at: 961 }))),
];

#[test]
fn one_changed_byte_has_the_error_of_what_it_breaks(rt: HostRuntime) {
    assert_eq!(rt; error_of(&spelled()), None);
    for (at, value, wanted) in CHANGES {
        assert_eq!(rt; changed(&[(at, value)]), wanted, "{value} at {at}");
    }
}

/// Each bit of a byte.
const BITS: [u8; 8] = [1, 2, 4, 8, 16, 32, 64, 128];

/// The first byte of the spelled frame of which a bit can be another one without the frame being another one or none.
fn first_unread() -> Option<usize> {
    let whole = spelled();
    let frame = Frame::decode(&whole);
    for at in 0..whole.len() {
        for bit in BITS {
            let mut bytes = whole;
            bytes[at] ^= bit;
            if Frame::decode(&bytes) == frame {
                return Some(at);
            }
        }
    }
    None
}

#[test]
fn another_bit_is_another_frame_or_none(rt: HostRuntime) {
    assert_eq!(rt; first_unread(), None);
}

#[test]
fn of_two_errors_the_first_is_returned(rt: HostRuntime) {
    let rows: [(&[(usize, u8)], FrameCodecError); 10] = [
        // A bad code comes before what is missing after it, and that before the errors of the frame.
        (
            &[(905, 3), (906, 0xfe), (949, 9)],
            Invalid(Code { at: 905 }),
        ),
        (&[(942, 0), (949, 9)], Invalid(Code { at: 949 })),
        (&[(949, 4), (953, 2), (946, 100)], Short),
        (&[(949, 2), (957, 2)], Invalid(Code { at: 957 })),
        (&[(949, 2), (961, 7)], Trailing),
        (&[(949, 2), (946, 100)], Trailing),
        // Of the errors of the frame the first is returned.
        (&[(946, 100), (904, 128)], Invalid(Cell)),
        (&[(950, 1), (946, 100)], Invalid(Price)),
        (&[(954, 3), (960, 39)], Invalid(FieldRange { i: 2 })),
        (
            &[(905, 0), (954, 3), (958, 3)],
            Invalid(FieldsMeet { i: 0, j: 1 }),
        ),
    ];
    for (changes, wanted) in rows {
        assert_eq!(rt; changed(changes), Some(wanted));
    }
}

#[test]
fn each_prefix_is_short(rt: HostRuntime) {
    let bytes = spelled();
    for end in 0..962 {
        assert_eq!(rt;
            error_of(&bytes[..end]),
            Some(FrameCodecError::Short),
            "{end} bytes"
        );
    }
    // Another version is an error from the first byte on.
    assert_eq!(rt; error_of(&[2]), Some(FrameCodecError::Version));
}
