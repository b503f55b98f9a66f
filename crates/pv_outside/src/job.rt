use std::sync::Wait;

/// A piece of work, which is done once.
pub trait Job {
    /// What it returns.
    type Done;

    /// The values that its run may return.
    ghost may_return: { Self → Self.Done → Type 0 };

    /// Does the work.
    fn run<R: Wait + Sync>(self, rt: &R) -> Self::Done
        ensures { may_return self result };
}
