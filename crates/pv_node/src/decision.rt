/// What rules decide on a request.
#[derive(Debug, Drop, PartialEq, Eq)]
pub enum Decision<T, P> {
    /// Nothing is stored, and this is the reply.
    Answer(P),
    /// This record is stored, and then this is the reply.
    Store(T, P),
}

/// What a node answers to a request.
#[derive(Debug, Drop, PartialEq, Eq)]
pub struct Told<P> {
    /// The reply.
    pub reply: P,
    /// The place of the record that this request stored, from 0.
    pub number: Option<u64>,
}
