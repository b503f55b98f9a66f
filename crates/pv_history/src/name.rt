use std::marker::Brand;

/// Which history it is.
pub trait HistoryName {
    ghost use Rattle.logbook.specs.Pages.{Book};

    /// The book that has the history.
    ghost book: { Book };
}

/// What a caller names, who picks the book at the call.
impl HistoryName for Brand {
    ghost book = { record { number = 0; log_name = 0; cells_name = 0 } };
}
