ghost use Rattle.std.specs.Prelude.{◌≡◌};
ghost use Rattle.pv_cells.specs.Row.{IsCell};

use crate::codes::{
    ATTRIBUTES, BACK, CLEAR, DOWN, ESCAPE, FORWARD, HOME, LAST_ATTRIBUTE, LAST_CELL, RETURN, SPACE,
    UP,
};
use crate::grid::{COLUMNS, Grid, ROWS};
use std::marker::Model;

/// A caller's terminal: its cells, the place of its cursor, and whether an escape was the last byte.
///
/// It knows the control codes and what the cursor does at the edges: after the last column comes the first of the row
/// below, the row below the last is the first, and nothing scrolls.
#[derive(Clone, Copy, Debug, PartialEq, Eq)]
pub struct Terminal {
    grid: Grid,
    row: u8,
    column: u8,
    waiting: bool,
}

impl Model for Terminal {
    ghost use Rattle.pv_screen.specs.Terminal.{Display, IsDisplay};

    ghost Value = { Display };

    ghost view = { λ t. record { cells = t.grid; row = t.row; column = t.column; waiting = t.waiting } };

    ghost invariant = { λ t. IsDisplay
        (record { cells = t.grid; row = t.row; column = t.column; waiting = t.waiting }) };

    ghost inverse = { λ d. record { grid = d.cells; row = d.row; column = d.column; waiting = d.waiting } };
}

impl Terminal {
    ghost use Rattle.pv_screen.specs.Grid.{IsGrid};
    ghost use Rattle.pv_screen.specs.Terminal.{new_display, after_byte, after_first, after_second, after_cell, home, forward, back, down, up};

    /// A terminal as it is switched on: every cell is a space, and the cursor is at the first column of row 1.
    pub fn new() -> Self
        ensures { result ≡ new_display }
    {
        Terminal {
            grid: Grid::blank(),
            row: 1,
            column: 0,
            waiting: false,
        }
    }

    /// What it shows.
    pub fn grid(&self) -> &Grid
        ensures value { result.now ≡ self.now.cells }
        ensures cells { IsGrid result.now }
    {
        &self.grid
    }

    /// Takes a byte that it was sent.
    #[tactic(auto, using(crate::proofs::Steps::taking))]
    pub fn take(&mut self, byte: u8)
        ensures step { self.new ≡ after_byte self.old byte }

        // Whatever the byte, the cells stay 24 rows of 40, each of 0 to 127.
        ensures cells { IsGrid self.new.cells }
    {
        if self.waiting {
            self.waiting = false;
            self.take_second(byte);
        } else {
            self.take_first(byte);
        }
    }

    /// Takes a byte that is not after an escape.
    fn take_first(&mut self, byte: u8)
        ensures { self.new ≡ after_first self.old byte }
    {
        match byte {
            SPACE..=LAST_CELL => self.write(byte),
            ESCAPE => self.waiting = true,
            BACK => self.back(),
            FORWARD => self.forward(),
            DOWN => self.down(),
            UP => self.up(),
            CLEAR => {
                self.grid = Grid::blank();
                self.home();
            }
            RETURN => self.column = 0,
            HOME => self.home(),
            _ => {}
        }
    }

    /// Takes a byte after an escape.
    fn take_second(&mut self, byte: u8)
        ensures { self.new ≡ after_second self.old byte }
    {
        if matches!(byte, ATTRIBUTES..=LAST_ATTRIBUTE) {
            self.write(byte - ATTRIBUTES);
        }
    }

    /// Writes a cell at the cursor, which goes forward.
    fn write(&mut self, cell: u8)
        requires { IsCell cell }
        ensures { self.new ≡ after_cell self.old cell }
    {
        self.grid.set_cell(self.row, self.column, cell);
        self.forward();
    }

    /// The cursor goes to the first column of row 1.
    fn home(&mut self)
        ensures { self.new ≡ home self.old }
    {
        self.row = 1;
        self.column = 0;
    }

    /// The cursor goes one column on.
    fn forward(&mut self)
        ensures { self.new ≡ forward self.old }
    {
        if self.column as usize == COLUMNS - 1 {
            self.down();
            self.column = 0;
        } else {
            self.column += 1;
        }
    }

    /// The cursor goes one column back.
    fn back(&mut self)
        ensures { self.new ≡ back self.old }
    {
        if self.column == 0 {
            self.up();
            self.column = COLUMNS as u8 - 1;
        } else {
            self.column -= 1;
        }
    }

    /// The cursor goes one row down.
    fn down(&mut self)
        ensures { self.new ≡ down self.old }
    {
        if self.row as usize == ROWS {
            self.row = 1;
        } else {
            self.row += 1;
        }
    }

    /// The cursor goes one row up.
    fn up(&mut self)
        ensures { self.new ≡ up self.old }
    {
        if self.row == 1 {
            self.row = ROWS as u8;
        } else {
            self.row -= 1;
        }
    }
}
