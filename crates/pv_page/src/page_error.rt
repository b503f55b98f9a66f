use thiserror::Error;

/// Why a text is no page number. If several apply, it is the first of them in this order.
#[derive(Clone, Copy, Debug, PartialEq, Eq, Error)]
pub enum PageError {
    /// There is no digit.
    #[error("a page number has at least one digit")]
    Empty,
    /// There are more than nine bytes.
    #[error("a page number has at most nine digits")]
    TooLong,
    /// A byte is not a decimal digit.
    #[error("byte {at} of the page number is no digit")]
    NotDigit {
        /// The index of the first such byte.
        at: usize,
    },
    /// A zero comes before other digits.
    #[error("a page number of several digits does not begin with a zero")]
    LeadingZero,
}
