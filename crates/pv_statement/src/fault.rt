use thiserror::Error;

/// Why there is no whole statement.
#[derive(Clone, Copy, Debug, PartialEq, Eq, Error)]
pub enum StatementFault {
    /// There is no such account.
    #[error("no such account")]
    NoAccount,
    /// The statement could not be written. The sink has counted it.
    #[error("the statement could not be written")]
    WriteFault,
}
