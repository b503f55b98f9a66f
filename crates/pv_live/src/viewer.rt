/// What looks at a state, and changes in place by what it finds there.
pub trait Viewer<S> {
    /// What it may become by a look at a state: its value before, the state, and its value after.
    ghost may_become: { Self → S → Self → Type 0 };

    /// Looks at a state.
    fn view(&mut self, state: &S)
        ensures { may_become self.old state.now self.new };
}
