ghost use Rattle.std.specs.Prelude.{◌≡◌};
ghost use Rattle.pv_session.specs.Shown.{first_frame};

use pv_page::{FIRST_LETTER, FrameName, PageNo};

/// Frame a of a page.
pub(crate) fn first_frame(page: PageNo) -> FrameName
    ensures { result ≡ first_frame page }
{
    FrameName {
        page,
        letter: FIRST_LETTER,
    }
}

/// The frame that is shown first.
pub(crate) fn main_index() -> FrameName
    ensures { result ≡ first_frame 0 }
{
    first_frame(PageNo::of_number(0).unwrap())
}
