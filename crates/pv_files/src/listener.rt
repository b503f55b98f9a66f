ghost use Rattle.std.specs.Prelude.{◌≡◌, List, Option, None, IfOk};
ghost use Rattle.std.specs.declared.io.ErrorKind.{ErrorKind};
ghost use Rattle.pv_outside.specs.Line.{IsUnused};
ghost use Rattle.pv_files.specs.Coming.{HasCome, end_of};

use crate::door::loopback;
use crate::line::TcpLine;
use pv_outside::Line;
use std::io;
use std::net::{Net, TcpListener, TcpStream};

/// What lets connections in, one after another, each as a line.
///
/// A listener may report how its next accepts end, as one of a test can, or nothing, as a socket does.
pub trait Listener {
    /// The lines that come in.
    type Line: Line + Drop;

    /// How the next accepts end, in order, if it can report that: each with an error of a kind, or with a
    /// connection (`None`).
    ghost coming: { Self → Option (List (Option ErrorKind)) };

    /// Waits for a connection, and returns its line. Nothing was read from it or written to it.
    fn accept(&mut self) -> io::Result<Self::Line>
        ensures comes { HasCome (coming self.old) (coming self.new) (end_of result) }
        ensures unused { IfOk result
            (λ line. IsUnused (Self.Line.taken line) (Self.Line.written line) (Self.Line.ended line)) };

    /// Says to the peer that nothing more comes, and closes the connection.
    fn close(&self, line: Self::Line);
}

/// A socket that listens. A connection whose two directions cannot be had apart, as when the process has no
/// handle left, is closed, and the accept fails with that error: no line has one direction alone.
impl Listener for TcpListener {
    type Line = TcpLine<TcpStream, TcpStream>;

    ghost coming = { λ _. None };

    fn accept(&mut self) -> io::Result<TcpLine<TcpStream, TcpStream>> {
        let (stream, _) = TcpListener::accept(self)?;
        // A screen goes out at once. If that cannot be asked for it only goes later.
        let _ = stream.set_nodelay(true);
        Ok(TcpLine::new(stream.try_clone()?, stream))
    }

    fn close(&self, line: TcpLine<TcpStream, TcpStream>) {
        line.close();
    }
}

/// A listener at which several doors can wait.
pub trait SharedListener: Listener {
    /// Another listener at the same port: each connection comes in at one of them.
    fn beside(&self) -> io::Result<Self>;
}

impl SharedListener for TcpListener {
    fn beside(&self) -> io::Result<TcpListener> {
        self.try_clone()
    }
}

/// Listens at this port of the loopback, which no other machine reaches. Port 0 is one that is free.
pub fn listen<R: Net<Listener = TcpListener, Stream = TcpStream>>(
    rt: &R,
    port: u16,
) -> io::Result<TcpListener> {
    TcpListener::bind(rt, loopback(port))
}
