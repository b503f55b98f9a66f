ghost use Rattle.std.specs.Prelude.{◌≡◌};
ghost use Rattle.pv_traffic.specs.Link.{back_way};

/// A way on a link.
#[derive(Clone, Copy, Debug, PartialEq, Eq)]
pub enum Way {
    /// From the Update Centre to a centre: records go there.
    Down,
    /// From a centre to the Update Centre: items go there.
    Up,
}

impl Way {
    /// The other way, on which what arrives is acknowledged.
    pub fn back(self) -> Way
        ensures { result ≡ back_way self }
    {
        match self {
            Way::Down => Way::Up,
            Way::Up => Way::Down,
        }
    }
}
