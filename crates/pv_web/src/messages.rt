ghost use Rattle.std.specs.Prelude.{◌≡◌, ◌≤◌, ℕ, List, length, Option};
ghost use Rattle.pv_files.specs.Output.{WritesWhole};
ghost use Rattle.pv_web.specs.Messages.{BrowserSends};

use bytes::Bytes;
use std::io;

/// The most bytes that are sent in one message.
pub const MAX_SENT: usize = 4_096;

/// What a message of a browser is to a line.
#[derive(Debug, Drop)]
pub enum Incoming {
    /// Keys, perhaps none.
    Keys(Bytes),
    /// A ping or a pong: nothing for who reads.
    Nothing,
    /// A close: nothing more comes.
    End,
}

/// What a browser sends and is sent, message by message.
///
/// It may report what comes and what was sent, as one of a test can, or nothing, as a socket does.
pub trait Messages {
    ghost use Rattle.pv_web.specs.declared.messages.Incoming.{Incoming};

    /// The messages that come, oldest first, if it can report them. After them comes the end.
    ghost coming: { Self → Option (List Incoming) };

    /// The bytes that were sent so far, those of one message after those of another, if it can report them.
    ghost written: { Self → Option (List ℕ) };

    /// Waits for the next message. A fault takes none.
    fn receive(&mut self) -> io::Result<Incoming>
        ensures comes { BrowserSends (coming self.old) (coming self.new) result }

        // Nothing is sent by this.
        ensures written { written self.new ≡ written self.old };

    /// Sends the bytes as one message. After a fault a prefix of them was sent, perhaps none or all.
    fn send(&mut self, bytes: &[u8]) -> io::Result<()>
        requires { length bytes.now ≤ MAX_SENT }
        ensures written { WritesWhole (written self.old) (written self.new) result bytes.now }

        // Nothing is received by this.
        ensures coming { coming self.new ≡ coming self.old };
}
