use pv_cells::ROW_LENGTH;

/// The number of cells of a title.
pub const TITLE_CELLS: usize = 24;

/// The number of rows of a body.
pub const BODY_ROWS: usize = 22;

/// The number of cells of a body.
pub const BODY_CELLS: usize = BODY_ROWS * ROW_LENGTH;

/// The number of routes of a frame, one for each digit.
pub const ROUTES: usize = 10;

/// The greatest number of fields of a frame.
pub const FIELDS: usize = 8;

/// The greatest price, in pence.
pub const LAST_PRICE: u16 = 99;

/// The first row that a field may lie in.
pub const FIRST_ROW: u8 = 2;

/// The last row that a field may lie in.
pub const LAST_ROW: u8 = 23;

/// The number of digits of the field for an account.
pub const ACCOUNT_DIGITS: u8 = 10;

/// The greatest number of texts of a mail frame.
pub const MAIL_TEXTS: usize = 6;

/// The version of a spelling, its first byte.
pub const VERSION: u8 = 1;

/// The number of bytes of a route.
pub(crate) const ROUTE_BYTES: usize = 4;

/// The number of bytes of all routes.
pub(crate) const ROUTES_SIZE: usize = ROUTE_BYTES * ROUTES;

/// The number that spells a digit without a route.
pub(crate) const NO_ROUTE: u32 = 0xffff_ffff;

/// The number of bytes of a field.
pub const FIELD_BYTES: usize = 4;

// The places of codes in the bytes of a frame: as many bytes as the parts before them take.

/// The place of the frame's kind, after the version, the title and the body.
pub(crate) const KIND_AT: usize = 1 + TITLE_CELLS + BODY_CELLS;

/// The place of the first route, after the kind.
pub(crate) const ROUTES_AT: usize = KIND_AT + 1;

/// The place of the number of fields, after the routes, the price and the group.
pub(crate) const COUNT_AT: usize = ROUTES_AT + ROUTES_SIZE + 3;

/// The place of the first field, and the number of bytes of a frame without fields.
pub const FIELDS_AT: usize = COUNT_AT + 1;
