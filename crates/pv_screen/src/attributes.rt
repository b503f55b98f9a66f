//! Prestel's display attributes, as cells: each takes one position of its row and is sent as an escape and its
//! value plus 0x40. They are those of the Prestel Terminal Specification of the British Post Office.

/// Letters in red; sent as 0x41.
pub const ALPHA_RED: u8 = 0x01;
/// Letters in green.
pub const ALPHA_GREEN: u8 = 0x02;
/// Letters in yellow.
pub const ALPHA_YELLOW: u8 = 0x03;
/// Letters in blue.
pub const ALPHA_BLUE: u8 = 0x04;
/// Letters in magenta.
pub const ALPHA_MAGENTA: u8 = 0x05;
/// Letters in cyan.
pub const ALPHA_CYAN: u8 = 0x06;
/// Letters in white; sent as 0x47.
pub const ALPHA_WHITE: u8 = 0x07;

/// What follows flashes; sent as 0x48.
pub const FLASH: u8 = 0x08;
/// What follows is steady; sent as 0x49.
pub const STEADY: u8 = 0x09;

/// What follows is one row high; sent as 0x4C.
pub const NORMAL_HEIGHT: u8 = 0x0C;
/// What follows is two rows high; sent as 0x4D.
pub const DOUBLE_HEIGHT: u8 = 0x0D;

/// Mosaics in red; sent as 0x51.
pub const MOSAIC_RED: u8 = 0x11;
/// Mosaics in green.
pub const MOSAIC_GREEN: u8 = 0x12;
/// Mosaics in yellow.
pub const MOSAIC_YELLOW: u8 = 0x13;
/// Mosaics in blue.
pub const MOSAIC_BLUE: u8 = 0x14;
/// Mosaics in magenta.
pub const MOSAIC_MAGENTA: u8 = 0x15;
/// Mosaics in cyan.
pub const MOSAIC_CYAN: u8 = 0x16;
/// Mosaics in white; sent as 0x57.
pub const MOSAIC_WHITE: u8 = 0x17;

/// What follows is hidden until the caller reveals it; sent as 0x58.
pub const CONCEAL: u8 = 0x18;
/// The blocks of mosaics touch; sent as 0x59.
pub const CONTIGUOUS: u8 = 0x19;
/// The blocks of mosaics stand apart; sent as 0x5A.
pub const SEPARATED: u8 = 0x1A;
/// The background is black; sent as 0x5C.
pub const BLACK_BACKGROUND: u8 = 0x1C;
/// The background takes the colour of the letters; sent as 0x5D.
pub const NEW_BACKGROUND: u8 = 0x1D;
/// An attribute's position repeats the mosaic before it; sent as 0x5E.
pub const HOLD: u8 = 0x1E;
/// An attribute's position is blank; sent as 0x5F.
pub const RELEASE: u8 = 0x1F;
