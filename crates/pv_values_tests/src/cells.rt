use pv_cells::{
    BOTTOM_LEFT, BOTTOM_RIGHT, MIDDLE_LEFT, MIDDLE_RIGHT, NotationError, TOP_LEFT, TOP_RIGHT,
    cells_of, first_byte, mosaic, notation, push_notation, row_of, weights_of,
};
use pv_fields::{NoRoom, Out};
use std::test::Fail;

/// A row that begins with these cells.
fn filled(first: &[u8]) -> [u8; 40] {
    let mut row = [b' '; 40];
    for (cell, byte) in row.iter_mut().zip(first) {
        *cell = *byte;
    }
    row
}

#[test]
fn a_row_is_read_and_filled(rt: HostRuntime) {
    let rows: [(&[u8], &[u8]); 5] = [
        (b"", b""),
        (b"A\\03", b"A\x03"),
        (b"A\\7f\\5c\\1F", b"A\x7f\\\x1f"),
        (b"\\41\\7F\\5C\\1f  ", b"A\x7f\\\x1f"),
        (&[b'A'; 40], &[b'A'; 40]),
    ];
    for (text, cells) in rows {
        assert_eq!(rt; row_of(text), Ok(filled(cells)), "at {text:?}");
    }
}

#[test]
fn cells_are_filled_to_their_length(rt: HostRuntime) {
    assert_eq!(rt; cells_of::<3>(b"\\00~"), Ok([0, b'~', b' ']));
}

#[test]
fn the_first_error_is_returned_with_its_place(rt: HostRuntime) {
    let errors: [(&[u8], NotationError); 14] = [
        (b"A\\8", NotationError::BadEscape { at: 1 }),
        (b"\\", NotationError::BadEscape { at: 0 }),
        (b"AB\\g0", NotationError::BadEscape { at: 2 }),
        (b"AB\\0g", NotationError::BadEscape { at: 2 }),
        (b"\\80", NotationError::BadEscape { at: 0 }),
        (b"\\FF", NotationError::BadEscape { at: 0 }),
        (b"\\\\5c", NotationError::BadEscape { at: 0 }),
        (b"A\x7f", NotationError::BadByte { at: 1 }),
        (b"\x1fA", NotationError::BadByte { at: 0 }),
        (b"\\41\x80\\80", NotationError::BadByte { at: 3 }),
        (b"\\41\\80\x80", NotationError::BadEscape { at: 3 }),
        (
            b"0123456789012345678901234567890123456789A",
            NotationError::TooLong,
        ),
        (
            b"0123456789012345678901234567890123456789\x80",
            NotationError::TooLong,
        ),
        (
            b"012345678901234567890123456789012345678\x80A",
            NotationError::BadByte { at: 39 },
        ),
    ];
    for (text, error) in errors {
        assert_eq!(rt; row_of(text), Err(error));
    }
}

/// Whether the notation of these bytes has room in 24, and what is there then.
fn notated(bytes: &[u8]) -> (bool, [u8; 24]) {
    let mut into = [b'.'; 24];
    let has_room = notation(bytes, &mut Out::new(&mut into)).is_ok();
    (has_room, into)
}

#[test]
fn notation_is_canonical_and_whole(rt: HostRuntime) {
    let rows: [(&[u8], bool, &[u8; 24]); 4] = [
        (
            b"A\x03\\ ~\x7f\xff\x1b\x01ABC",
            true,
            b"A\\03\\5c ~\\7f\\ff\\1b\\01ABC",
        ),
        (
            b"A\x03\\ ~\x7f\xff\x1b\x01ABCD",
            false,
            b"........................",
        ),
        (
            b"ABCDEFGHIJKLMNOPQRSTUV\x01",
            false,
            b"........................",
        ),
        (b"A", true, b"A......................."),
    ];
    for (bytes, has_room, wanted) in rows {
        assert_eq!(rt; notated(bytes), (has_room, *wanted), "at {bytes:?}");
    }
}

#[test]
fn notation_is_appended_to_a_text(rt: HostRuntime) -> Result<(), Fail> {
    let rows: [(&[u8], &[u8]); 2] = [
        (b"\x0cA\\\xff~", b"screen \\0cA\\5c\\ff~"),
        (
            b"ABCDEFGHIJKLMN\\OPQRSTU\rVWXYZabcdefg",
            b"screen ABCDEFGHIJKLMN\\5cOPQRSTU\\0dVWXYZabcdefg",
        ),
    ];
    for (bytes, wanted) in rows {
        let mut text = Vec::from_slice(rt.alloc(), b"screen ")?;
        push_notation(bytes, &mut text)?;
        assert_eq!(rt; text.as_slice(), wanted);
    }
    Ok(())
}

#[test]
fn bytes_are_read_one_by_one(rt: HostRuntime) -> Result<(), Fail> {
    let mut text: &[u8] = b"A\\Ff\\00~";
    for wanted in [b'A', 0xff, 0, b'~'] {
        let (byte, rest) = first_byte(text).ok_or("a byte")?;
        assert_eq!(rt; byte, wanted);
        text = rest;
    }
    assert_eq!(rt; first_byte(text), None);
    for wrong in [b"\\f", b"\\\\", b"\x7f0", b"\x1f0"] {
        assert_eq!(rt; first_byte(wrong), None, "at {wrong:?}");
    }
    Ok(())
}

#[test]
fn mosaics_go_between_weights_and_codes(rt: HostRuntime) {
    let pairs = [
        (0, 0x20),
        (1, 0x21),
        (TOP_LEFT + MIDDLE_LEFT + MIDDLE_RIGHT + BOTTOM_LEFT, 0x3d),
        (31, 0x3f),
        (64, 0x60),
        (65, 0x61),
        (TOP_RIGHT + BOTTOM_RIGHT, 0x62),
        (80, 0x70),
        (95, 0x7f),
    ];
    for (weights, code) in pairs {
        assert_eq!(rt; mosaic(weights), Some(code), "at {weights}");
        assert_eq!(rt; weights_of(code), Some(weights), "at {code}");
    }
}

#[test]
fn other_bytes_are_no_mosaics(rt: HostRuntime) {
    for weights in [32, 33, 63, 96, 127, 128, 129, 255] {
        assert_eq!(rt; mosaic(weights), None, "at {weights}");
    }
    for code in [0, 0x1f, 0x40, 0x41, 0x5f, 0x80, 0xff] {
        assert_eq!(rt; weights_of(code), None, "at {code}");
    }
}
