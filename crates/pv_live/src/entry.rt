/// A record that was stored after the opening, with the number of the pass whose ask made it.
#[derive(Clone, Copy)]
pub struct Entry<T> {
    /// The record.
    pub rec: T,
    /// The number of the pass.
    pub pass: u64,
}
