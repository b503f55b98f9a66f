ghost use Rattle.std.specs.Prelude.{◌≡◌, ◌-◌, ◌<◌, ◌≤◌, [], ◌∷◌, ◌++◌, All, Some, take, slice_get, slice_set, slice_index_or};
ghost use Rattle.pv_cells.specs.Row.{IsCell};

use crate::codes::SPACE;
use pv_frame::BODY_CELLS;
use std::marker::Model;

/// The number of rows of a screen.
pub const ROWS: usize = 24;

/// The number of positions of a row.
pub const COLUMNS: usize = 40;

/// A whole screen: 24 rows of 40 cells, each of 0 to 127. Contracts see the list of its rows.
#[derive(Clone, Copy, Debug, PartialEq, Eq)]
pub struct Grid {
    rows: [[u8; COLUMNS]; ROWS],
}

impl Model for Grid {
    ghost use Rattle.std.specs.Prelude.{List, ℕ};
    ghost use Rattle.pv_screen.specs.Grid.{IsGrid};

    ghost Value = { List (List ℕ) };

    ghost view = { λ grid. grid.rows };

    ghost invariant = { λ grid. IsGrid grid.rows };

    ghost inverse = { λ rows. record { rows = rows } };
}

impl Grid {
    ghost use Rattle.pv_screen.specs.Grid.{IsGrid, IsRow, blank_grid};
    ghost use Rattle.pv_screen.specs.Composing.{body_rows, spaces};
    ghost use Rattle.pv_screen.specs.Terminal.{with_cell};

    /// A screen with every cell a space.
    #[tactic(auto, using(crate::proofs::Steps::grids))]
    pub fn blank() -> Self
        ensures value { result ≡ blank_grid }
        ensures cells { IsGrid result }
    {
        Grid {
            rows: [[SPACE; COLUMNS]; ROWS],
        }
    }

    /// The cells of a row, which is counted from 1 at the top.
    pub fn row(&self, row: u8) -> &[u8; COLUMNS]
        requires from { 1 ≤ row }
        requires to { row ≤ ROWS }
        ensures value { slice_get self.now (row - 1) ≡ Some result.now }
        ensures cells { IsRow result.now }

        // Every row is one of 40 cells of 0 to 127, and there are 24.
        ensures all { IsGrid self.now }
    {
        &self.rows[row as usize - 1]
    }

    /// Puts cells of 0 to 127 in place of a row, which is counted from 1 at the top.
    pub fn set_row(&mut self, row: u8, cells: &[u8; COLUMNS])
        requires from { 1 ≤ row }
        requires to { row ≤ ROWS }
        requires cells { All IsCell cells.now }
        ensures { self.new ≡ slice_set self.old (row - 1) cells.now }
    {
        self.rows[row as usize - 1] = *cells;
    }

    /// A heading, the rows of a body, and a blank row.
    #[tactic(auto, using(crate::proofs::Steps::grids))]
    pub fn of_parts(heading: &[u8; COLUMNS], body: &[u8; BODY_CELLS]) -> Self
        requires heading { IsRow heading.now }
        requires body { All IsCell body.now }
        ensures { result ≡ heading.now ∷ body_rows body.now ++ spaces COLUMNS ∷ [] }
    {
        let mut rows = [[SPACE; COLUMNS]; ROWS];
        rows[0] = *heading;
        let (body, _) = body.as_chunks::<COLUMNS>();
        rows[1..ROWS - 1].copy_from_slice(body);
        Grid { rows }
    }

    /// The rows above the last one, and the last one.
    pub(crate) fn lines(&self) -> (&[[u8; COLUMNS]], &[u8; COLUMNS])
        ensures lines { result.0.now ≡ take (ROWS - 1) self.now }
        ensures last { result.1.now ≡ slice_index_or self.now (ROWS - 1) [] }
        ensures cells { IsGrid self.now }
    {
        (&self.rows[..ROWS - 1], &self.rows[ROWS - 1])
    }

    /// Puts a cell of 0 to 127 in a column, which is counted from 0 at the left, of a row, which is counted from 1.
    pub(crate) fn set_cell(&mut self, row: u8, column: u8, cell: u8)
        requires from { 1 ≤ row }
        requires to { row ≤ ROWS }
        requires column { column < COLUMNS }
        requires cell { IsCell cell }

        // That cell alone is another one afterwards.
        ensures value { self.new ≡ with_cell self.old row column cell }
        ensures cells { IsGrid self.new }
    {
        self.rows[row as usize - 1][column as usize] = cell;
    }
}
