ghost use Rattle.std.specs.Prelude.{◌≡◌};
ghost use Rattle.pv_serve.specs.Status.{serve_number};

use pv_node::NodeFault;
use pv_outside::Disk;
use std::fmt;

/// How the programs `format` and `serve` end. The Update Centre is node 0, and centre c is node c + 1.
#[derive(Drop)]
pub enum ServeStatus<D: Disk> {
    /// All was done.
    Done,
    /// The words of the command line are not the program's.
    Usage,
    /// Memory ran out.
    Memory,
    /// A call of a disk failed.
    DiskFault(D::Failure),
    /// The records of a node could not be read.
    Unopened {
        /// Which node.
        node: u8,
        /// Why not.
        fault: NodeFault<D>,
    },
    /// A door failed.
    DoorFault,
    /// A thread could not be started.
    NoStart,
    /// A node has as many records as it may have.
    Full {
        /// Which node: the first that is full.
        node: u8,
        /// How many records it has.
        count: u64,
    },
}

impl<D: Disk> ServeStatus<D> {
    /// The number that the process ends with.
    pub fn number(&self) -> u8
        ensures { result ≡ serve_number self.now }
    {
        match self {
            ServeStatus::Done => 0,
            ServeStatus::Usage => 2,
            ServeStatus::Memory => 6,
            ServeStatus::DiskFault(_) => 8,
            ServeStatus::Unopened { .. } => 9,
            ServeStatus::DoorFault => 10,
            ServeStatus::NoStart => 11,
            ServeStatus::Full { .. } => 12,
        }
    }
}

impl<D: Disk> fmt::Display for ServeStatus<D> {
    fn fmt<W: fmt::Write>(&self, f: &mut fmt::Formatter<W>) -> fmt::Result {
        match self {
            ServeStatus::Done => write!(f, "done"),
            ServeStatus::Usage => write!(f, "bad command line"),
            ServeStatus::Memory => write!(f, "out of memory"),
            ServeStatus::DiskFault(_) => write!(f, "a disk failed"),
            ServeStatus::Unopened { node, fault } => match fault {
                NodeFault::Memory => write!(f, "node {node}: out of memory"),
                NodeFault::Disk(_) => write!(f, "node {node}: its disk failed"),
                NodeFault::NotFormatted(_) => write!(f, "node {node}: its disk is not formatted"),
                NodeFault::Broken { at } => write!(
                    f,
                    "node {node}: byte {at} of its disk is damaged"
                ),
                NodeFault::TooMany { count } => write!(f, "node {node}: more than {count} records"),
                NodeFault::Unreadable { number } => write!(
                    f,
                    "node {node}: record {number} is invalid"
                ),
            },
            ServeStatus::DoorFault => write!(f, "a listener failed"),
            ServeStatus::NoStart => write!(f, "a thread could not be started"),
            ServeStatus::Full { node, count } => {
                write!(f, "node {node} is full: it has {count} records")
            }
        }
    }
}
