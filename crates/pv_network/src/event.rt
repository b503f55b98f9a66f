use crate::storing::Storing;
use pv_page::{AccountNo, FrameName};
use pv_words::Part;

/// How many editors' ports there are.
pub const EDITORS: u8 = 4;

/// How many callers' ports a centre has.
pub const PORTS: u8 = 16;

/// A node of the network.
#[derive(Clone, Copy, Debug, PartialEq, Eq)]
pub enum NodeName {
    /// The Update Centre.
    Udc,
    /// The retrieval centre of this number.
    Centre(u8),
}

/// What can happen to a network. Centres, ports and packets are counted from 0. An event borrows the line
/// of an editor and the keys of a caller.
#[derive(Debug, Drop)]
pub enum Event<'a> {
    /// The operator's next number puts a frame that is blank but for row 2 under a name.
    Seed {
        name: FrameName,
        row: [u8; 40],
    },
    /// A line of an editor arrives at his port.
    Edit {
        port: u8,
        line: Part<'a>,
    },
    /// Somebody calls a centre at a port.
    Dial {
        centre: u8,
        port: u8,
    },
    /// The caller at a port keys this byte.
    Press {
        centre: u8,
        port: u8,
        key: u8,
    },
    /// A centre stores what the call at a port owes.
    Store {
        centre: u8,
        port: u8,
    },
    /// The caller at a port is shown what his call was stored for.
    Show {
        centre: u8,
        port: u8,
    },
    /// The caller at a port keys the bytes of which this is the notation, at least one. Each is pressed, and what it
    /// owes is stored and shown at once.
    Keys {
        centre: u8,
        port: u8,
        keys: Part<'a>,
    },
    /// The caller at a port hangs up.
    Hang {
        centre: u8,
        port: u8,
    },
    /// The Update Centre packs the next record for a centre.
    Send {
        centre: u8,
    },
    /// A centre packs its next item for the Update Centre.
    Post {
        centre: u8,
    },
    /// The packet of this index, of those that were made for a centre, arrives there.
    Deliver {
        centre: u8,
        index: u64,
    },
    /// The packet of this index, of those that a centre made, arrives at the Update Centre.
    Back {
        centre: u8,
        index: u64,
    },
    /// Record after record is sent to a centre and delivered there, and its acknowledgement arrives; and so is item
    /// after item to the Update Centre, until nothing is left to send either way.
    Carry {
        centre: u8,
    },
    /// A node is lost, and opened again from its disk.
    Crash {
        node: NodeName,
    },
    /// A node is lost within a command that it is to store a record for. Its disk passes this many more calls and then
    /// none, and nothing of the answer leaves the node. It is opened again from an image of its disk: the one of this
    /// number among those that a crash may leave.
    Cut {
        calls: u8,
        image: u8,
        command: Storing<'a>,
    },
    /// The clock shows this moment, in seconds since 1970: 0 to 4,102,444,799.
    Clock {
        moment: u32,
    },
    /// Somebody reads a frame as a centre holds it.
    View {
        centre: u8,
        name: FrameName,
    },
    /// Somebody asks how many records a centre has applied.
    At {
        centre: u8,
    },
    /// Somebody asks how many records the edit list has.
    List,
    /// Somebody asks for the bill of an account: the charge lines that came up for it.
    Bill {
        account: AccountNo,
    },
    /// Somebody asks for all charge lines that a centre has stored.
    Lines {
        centre: u8,
    },
}
