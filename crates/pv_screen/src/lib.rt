//! What a caller sees: a screen of 24 rows of 40 cells, the bytes that paint it, and the terminal that reads them back.
//!
//! * [`Grid`] is a whole screen. A cell is 0 to 127, and 0 to 31 are display attributes.
//! * [`compose`] makes the screen of a frame: its title, name and price in row 1, its body in rows 2 to 23, and a blank
//!   row 24 for messages.
//! * [`paint`] writes the bytes that show a grid, and [`message`] those that change row 24 alone.
//! * [`Screen`] is what is sent at once: a whole grid, or a row 24.
//! * [`Terminal`] takes bytes one at a time and knows nothing of painting: that it shows the grid that was painted, and
//!   that a message changes row 24 and nothing else, is what the clauses of [`paint`] and [`message`] say.
//! * [`codes`] and [`attributes`] name Prestel's control codes and display attributes.
//!
//! No call takes memory. A caller composes a frame, paints it and sends the bytes:
//!
//! ```text
//! let grid = compose(&frame, name);
//! let mut bytes = [0; BUFFER];
//! let count = paint(&grid, &mut bytes);
//! caller.write_all(&bytes[..count])?;
//! ```
#![tactic(auto)]

pub mod attributes;
pub mod codes;
mod composing;
mod grid;
mod laws;
mod painting;
mod screen;
mod terminal;

pub use composing::{NAME_COLUMN, PRICE_COLUMN, compose};
pub use grid::{COLUMNS, Grid, ROWS};
pub use laws::{any_bytes_leave_a_screen, screens_are_shown};
pub use painting::{BUFFER, LONGEST, message, paint};
pub use screen::Screen;
pub use terminal::Terminal;
