ghost use Rattle.std.specs.Prelude.{◌≡◌, ◌≤◌, ◌<◌};
ghost use Rattle.pv_outside.specs.Counts.{Rose, one_more};

/// What a door counts: the accepts that failed, the lines that came in, and those that were given back.
#[derive(Drop)]
pub(crate) struct DoorCounts {
    faults: u64,
    accepted: u64,
    finished: u64,
    ghost in_order: { finished ≤ accepted },
}

impl DoorCounts {
    /// The counts of a door at which nothing has happened.
    pub(crate) fn new() -> DoorCounts
        ensures faults { result.faults ≡ 0 }
        ensures accepted { result.accepted ≡ 0 }
        ensures finished { result.finished ≡ 0 }
    {
        DoorCounts {
            faults: 0,
            accepted: 0,
            finished: 0,
        }
    }

    /// Counts a line that came in.
    pub(crate) fn count_line(&mut self)
        ensures accepted { self.new.accepted ≡ one_more self.old.accepted }
        ensures finished { self.new.finished ≡ self.old.finished }
        ensures faults { self.new.faults ≡ self.old.faults }
    {
        self.accepted = self.accepted.saturating_add(1);
    }

    /// Counts an accept that failed.
    pub(crate) fn count_fault(&mut self)
        ensures rose { Rose self.old.faults self.new.faults }
        ensures counted { self.old.faults ≤ self.new.faults }
        ensures accepted { self.new.accepted ≡ self.old.accepted }
        ensures finished { self.new.finished ≡ self.old.finished }
    {
        self.faults = self.faults.saturating_add(1);
    }

    /// Counts a line that was given back. There is one that is still out.
    pub(crate) fn count_finish(&mut self)
        requires { self.old.finished < self.old.accepted }
        ensures finished { self.new.finished ≡ one_more self.old.finished }
        ensures accepted { self.new.accepted ≡ self.old.accepted }
        ensures faults { self.new.faults ≡ self.old.faults }
    {
        self.finished = self.finished.saturating_add(1);
    }
}
