ghost use Rattle.std.specs.Prelude.{◌≡◌};
ghost use Rattle.pv_network.specs.Cutting.{node_of};

use crate::event::NodeName;
use pv_page::FrameName;
use pv_words::Part;

/// A command that a node is to store a record for. Centres, ports and packets are counted from 0. It borrows the
/// line of an editor.
#[derive(Debug, Drop)]
pub enum Storing<'a> {
    /// The operator's next number puts a frame that is blank but for row 2 under a name.
    Seed { name: FrameName, row: [u8; 40] },
    /// A line of an editor arrives at his port.
    Edit { port: u8, line: Part<'a> },
    /// A centre stores what the call at a port owes.
    Store { centre: u8, port: u8 },
    /// The packet of this index, of those that were made for a centre, arrives there.
    Deliver { centre: u8, index: u64 },
    /// The packet of this index, of those that a centre made, arrives at the Update Centre.
    Back { centre: u8, index: u64 },
}

impl Storing<'_> {
    /// The node that is to store the record.
    pub(crate) fn node(&self) -> NodeName
        ensures { result ≡ node_of self.now }
    {
        match self {
            Storing::Seed { .. } => NodeName::Udc,
            Storing::Edit { .. } => NodeName::Udc,
            Storing::Store { centre, .. } => NodeName::Centre(*centre),
            Storing::Deliver { centre, .. } => NodeName::Centre(*centre),
            Storing::Back { .. } => NodeName::Udc,
        }
    }
}
