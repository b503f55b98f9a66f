ghost use Rattle.pv_web.specs.Caller.{either_line};

use crate::line::BrowserLine;
use crate::socket::BrowserSocket;
use pv_files::TcpLine;
use pv_outside::{Failed, Line, Sink, Source};
use std::net::TcpStream;

/// A line of a caller, of either kind.
#[derive(Drop)]
pub enum CallerLine<P, B> {
    /// A plain line, as from a terminal.
    Plain(P),
    /// A line of a browser.
    Browser(B),
}

/// A line of a caller over a connection.
pub type SocketLine = CallerLine<TcpLine, BrowserLine<BrowserSocket<TcpStream>>>;

impl CallerLine<TcpLine, BrowserLine<BrowserSocket<TcpStream>>> {
    /// Says to the caller that nothing more comes, and closes the connection.
    pub fn close(self) {
        match self {
            CallerLine::Plain(line) => line.close(),
            CallerLine::Browser(line) => line.into_messages().close(),
        }
    }
}

impl<P: Line, B: Line> Source for CallerLine<P, B> {
    ghost read_faults = { either_line P.read_faults B.read_faults };

    ghost ended = { either_line P.ended B.ended };

    ghost taken = { either_line P.taken B.taken };

    ghost left = { either_line P.left B.left };

    fn read(&mut self, into: &mut [u8]) -> Result<usize, Failed> {
        match self {
            CallerLine::Plain(line) => line.read(into),
            CallerLine::Browser(line) => line.read(into),
        }
    }
}

impl<P: Line, B: Line> Sink for CallerLine<P, B> {
    ghost write_faults = { either_line P.write_faults B.write_faults };

    ghost written = { either_line P.written B.written };

    ghost writes = { either_line P.writes B.writes };

    fn write_all(&mut self, bytes: &[u8]) -> Result<(), Failed> {
        match self {
            CallerLine::Plain(line) => line.write_all(bytes),
            CallerLine::Browser(line) => line.write_all(bytes),
        }
    }
}

impl<P: Line, B: Line> Line for CallerLine<P, B> {
    fn hear(&mut self, into: &mut [u8]) -> Result<usize, Failed> {
        match self {
            CallerLine::Plain(line) => line.hear(into),
            CallerLine::Browser(line) => line.hear(into),
        }
    }

    fn say(&mut self, bytes: &[u8]) -> Result<(), Failed> {
        match self {
            CallerLine::Plain(line) => line.say(bytes),
            CallerLine::Browser(line) => line.say(bytes),
        }
    }
}
