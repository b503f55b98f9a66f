ghost use Rattle.std.specs.Prelude.{◌≡◌, slice_set};
ghost use Rattle.pv_editor.specs.Changes.{changed_frame, has_all_fields};

use crate::digit::RouteDigit;
use crate::row::BodyRow;
use pv_cells::ROW_LENGTH;
use pv_frame::{FIELDS, Field, Frame, Kind, TITLE_CELLS};
use pv_page::PageNo;

/// A change of the frame that an editor makes.
#[derive(Clone, Copy, Debug, PartialEq, Eq)]
pub enum FrameChange {
    /// It has this title.
    Title {
        /// The cells.
        cells: [u8; TITLE_CELLS],
    },
    /// A row of its body has these cells.
    Row {
        /// The row.
        row: BodyRow,
        /// The cells.
        cells: [u8; ROW_LENGTH],
    },
    /// It is of this kind.
    Kind {
        /// The kind.
        kind: Kind,
    },
    /// A digit leads to this page, or nowhere.
    Route {
        /// The digit.
        digit: RouteDigit,
        /// The page.
        page: Option<PageNo>,
    },
    /// It has this price.
    Price {
        /// The price in pence.
        price: u16,
    },
    /// It is for this closed user group, or for all if it is 0.
    Group {
        /// The group.
        group: u16,
    },
    /// It has this field after the others, or no field at all.
    Field {
        /// The field.
        field: Option<Field>,
    },
}

/// Makes a change. A ninth field is not added.
pub fn make_change(frame: &mut Frame, change: &FrameChange)
    ensures { frame.new ≡ changed_frame change.now frame.old }
{
    match change {
        FrameChange::Title { cells } => set_title(frame, *cells),
        FrameChange::Row { row, cells } => frame.set_row(row.number(), cells),
        FrameChange::Kind { kind } => frame.kind = *kind,
        FrameChange::Route { digit, page } => set_route(frame, *digit, *page),
        FrameChange::Price { price } => frame.price = *price,
        FrameChange::Group { group } => frame.group = *group,
        FrameChange::Field { field: Some(field) } => {
            if !has_all_fields(frame) {
                frame.add_field(*field);
            }
        }
        FrameChange::Field { field: None } => frame.clear_fields(),
    }
}

/// Gives the frame a title.
fn set_title(frame: &mut Frame, cells: [u8; TITLE_CELLS])
    ensures { frame.new ≡ record frame.old { title = cells } }
{
    frame.title = cells;
}

/// Lets a digit lead to a page, or nowhere.
fn set_route(frame: &mut Frame, digit: RouteDigit, page: Option<PageNo>)
    ensures { frame.new ≡ record frame.old { routes = slice_set frame.old.routes digit page } }
{
    frame.routes[digit.index()] = page;
}

/// Whether the frame has as many fields as a frame may have.
pub fn has_all_fields(frame: &Frame) -> bool
    ensures { result ≡ has_all_fields frame.now }
{
    FIELDS <= frame.fields().len()
}
