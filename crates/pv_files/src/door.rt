ghost use Rattle.std.specs.Prelude.{◌≡◌, ◌∷◌, [], None, IfOk};
ghost use Rattle.std.specs.Net.Addr.{ipv4_octets};
ghost use Rattle.std.specs.Net.Socket.{v4_ip, v4_port};
ghost use Rattle.pv_outside.specs.Counts.{CountsFaults, successes_after};
ghost use Rattle.pv_outside.specs.Line.{IsUnused};
ghost use Rattle.pv_files.specs.Coming.{EndsAtNext, end_of, end_at_door, is_passed_over};
ghost use Rattle.pv_files.specs.Doors.{IsNewDoor};

use crate::counts::DoorCounts;
use crate::listener::{Listener, SharedListener, listen};
use pv_outside::{Door, Failed};
use std::io::{self, ErrorKind};
use std::net::{Ipv4Addr, Net, SocketAddrV4, TcpListener, TcpStream};

/// A port of this machine, at which connections come in. It counts its faults, keeps the last error of the
/// system, and closes the lines that are given back.
#[derive(Drop)]
pub struct TcpDoor<L: Listener + Drop = TcpListener> {
    listener: L,
    counts: DoorCounts,
    error: Option<io::Error>,
}

impl TcpDoor<TcpListener> {
    /// A door at this port of the loopback. Port 0 is one that is free.
    pub fn bind<R: Net<Listener = TcpListener, Stream = TcpStream>>(
        rt: &R,
        port: u16,
    ) -> io::Result<TcpDoor<TcpListener>>
        ensures { IfOk result IsNewDoor }
    {
        Ok(TcpDoor::of(listen(rt, port)?))
    }

    /// The port.
    pub fn port(&self) -> io::Result<u16> {
        Ok(self.listener.local_addr()?.port())
    }
}

impl<L: SharedListener + Drop> TcpDoor<L> {
    /// Another door at the same port: each connection comes in at one of them.
    pub fn beside(&self) -> io::Result<TcpDoor<L>>
        ensures { IfOk result IsNewDoor }
    {
        Ok(TcpDoor::of(self.listener.beside()?))
    }
}

impl<L: Listener + Drop> TcpDoor<L> {
    /// A door of this listener, at which no line has come in.
    pub fn of(listener: L) -> TcpDoor<L>
        ensures fresh { IsNewDoor result }
        ensures listener { result.listener ≡ listener }
    {
        TcpDoor {
            listener,
            counts: DoorCounts::new(),
            error: None,
        }
    }

    /// The last error that was counted.
    pub fn error(&self) -> Option<io::Error>
        ensures { result ≡ self.now.error }
    {
        self.error
    }

    /// The listener, to look at.
    pub fn listener(&self) -> &L
        ensures { result.now ≡ self.now.listener }
    {
        &self.listener
    }
}

impl<L: Listener + Drop> Door for TcpDoor<L> {
    type Line = L::Line;

    ghost faults = { λ d. d.counts.faults };

    ghost accepted = { λ d. d.counts.accepted };

    ghost finished = { λ d. d.counts.finished };

    ghost lines = { λ _. None };

    ghost order = { λ d. d.counts.in_order };

    ghost counted = { λ _. tt };

    fn accept(&mut self) -> Result<L::Line, Failed>
        ensures account { CountsFaults self.old.counts.faults self.new.counts.faults result }
        ensures accepted { self.new.counts.accepted ≡ successes_after result self.old.counts.accepted }
        ensures unused { IfOk result
            (λ line. IsUnused (L.Line.taken line) (L.Line.written line) (L.Line.ended line)) }

        // No line is given back by this.
        ensures finished { self.new.counts.finished ≡ self.old.counts.finished }

        // The first accept of the listener that is a connection or a fault decides, and no other does.
        ensures decides { EndsAtNext (L.coming self.old.listener) (L.coming self.new.listener)
            (end_at_door result self.new.error) }
    {
        match next_connection(&mut self.listener) {
            Ok(line) => {
                self.counts.count_line();
                Ok(line)
            }
            Err(error) => {
                self.counts.count_fault();
                self.error = Some(error);
                Err(Failed)
            }
        }
    }

    fn finish(&mut self, line: L::Line) {
        self.counts.count_finish();
        self.listener.close(line);
    }
}

/// Waits for a connection. A peer that gave up before is no fault, and neither is an interrupted call.
fn next_connection<L: Listener>(listener: &mut L) -> io::Result<L::Line>
    ensures decides { EndsAtNext (L.coming listener.old) (L.coming listener.new) (end_of result) }
    ensures unused { IfOk result
        (λ line. IsUnused (L.Line.taken line) (L.Line.written line) (L.Line.ended line)) }
{
    for _tries in 0..u64::MAX {
        let answer = listener.accept();
        if !is_made_again(&answer) {
            return answer;
        }
    }
    Err(ErrorKind::Interrupted.into())
}

/// Whether an accept that ended so is made again.
fn is_made_again<T>(answer: &io::Result<T>) -> bool
    ensures { result ≡ is_passed_over (end_of answer.now) }
{
    match answer {
        Ok(_) => false,
        Err(error) => matches!(
            error.kind(),
            ErrorKind::ConnectionAborted | ErrorKind::Interrupted
        ),
    }
}

/// A port of the loopback, which no other machine reaches.
pub(crate) fn loopback(port: u16) -> SocketAddrV4
    ensures ip { ipv4_octets (v4_ip result) ≡ 127 ∷ 0 ∷ 0 ∷ 1 ∷ [] }
    ensures port { v4_port result ≡ port }
{
    SocketAddrV4::new(Ipv4Addr::new(127, 0, 0, 1), port)
}
