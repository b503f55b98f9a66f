//! Prestel's control codes to a terminal, as the Prestel Terminal Specification of the British Post Office
//! names them; the CEPT/BPO viewdata display standard has the same codes.

/// Back: the cursor goes one column back.
pub const BACK: u8 = 0x08;

/// Forward: the cursor goes one column on.
pub const FORWARD: u8 = 0x09;

/// Down, the line feed: the cursor goes one row down.
pub const DOWN: u8 = 0x0A;

/// Up: the cursor goes one row up.
pub const UP: u8 = 0x0B;

/// Clear and home: every cell becomes a space, and the cursor goes to the first column of row 1.
pub const CLEAR: u8 = 0x0C;

/// Start of row, the carriage return: the cursor goes to the first column of its row.
pub const RETURN: u8 = 0x0D;

/// The cursor is shown.
pub const CURSOR_ON: u8 = 0x11;

/// The cursor is not shown.
pub const CURSOR_OFF: u8 = 0x14;

/// Escape: the byte after it, of 0x40 to 0x5F, is a display attribute.
pub const ESCAPE: u8 = 0x1B;

/// Home: the cursor goes to the first column of row 1.
pub const HOME: u8 = 0x1E;

/// The space, the lowest cell that is no attribute.
pub const SPACE: u8 = 0x20;

/// The byte of attribute 0 after an escape: attribute `a` is sent as an escape and `ATTRIBUTES + a`.
pub const ATTRIBUTES: u8 = 0x40;

/// The highest byte that is an attribute after an escape.
pub const LAST_ATTRIBUTE: u8 = 0x5F;

/// The highest cell.
pub const LAST_CELL: u8 = pv_cells::LAST_CELL;
