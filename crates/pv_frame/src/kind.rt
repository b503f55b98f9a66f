/// What a frame is for.
#[derive(Clone, Copy, Debug, PartialEq, Eq)]
pub enum Kind {
    /// It is read. It has no fields.
    Information,
    /// It is filled in and goes to its provider.
    Response,
    /// It is filled in and goes to the mailbox of the account in its first field.
    Mail,
}
