//! A port of a centre and the web's port beside it, at which callers come in.
ghost use Rattle.std.specs.Prelude.{◌≡◌, false, None, IfOk, IfSome};
ghost use Rattle.pv_web.specs.Caller.{either_line};

use crate::caller::{CallerLine, SocketLine};
use crate::line::BrowserLine;
use crate::names::Names;
use crate::socket::BrowserSocket;
use crate::visitor::{Visit, Visitor};
use mio::unix::SourceFd;
use mio::{Events, Interest, Poll, Token};
use pv_files::{Listener, SharedListener, TcpLine};
use std::alloc::AllocGlobal;
use std::io::{self, ErrorKind};
use std::net::{Net, TcpListener, TcpStream};
use std::os::fd::AsRawFd;
use std::time::{Clock, Duration, Instant};

/// The most browsers that a door hears out at once. Of more the oldest is dropped. All doors of a server together then have
/// fewer handles than a process usually may.
pub const MAX_VISITORS: usize = 6;

/// The most browsers that are let in at once: more than the system keeps waiting.
const MAX_GREETED: usize = 256;

/// How often browsers are looked for that have waited too long, in seconds.
const LOOK_AFTER: u64 = 1;

/// Two ports of this machine: at one callers come in as they are, and at the other browsers, which are shown the page of
/// the terminal and may call from it.
#[derive(Drop)]
pub struct WebListener<'a, R: AllocGlobal + Net + Clock> {
    rt: &'a R,
    plain: TcpListener,
    web: TcpListener,
    web_port: u16,
    names: Names,
    poll: Poll,
    events: Events,
}

impl<'a, R: AllocGlobal + Net<Listener = TcpListener, Stream = TcpStream> + Clock> WebListener<
    'a,
    R,
> {
    /// A listener at these two sockets, the second for browsers, which reach it at that port.
    pub fn new(
        rt: &'a R,
        plain: TcpListener,
        web: TcpListener,
        web_port: u16,
    ) -> io::Result<WebListener<'a, R>> {
        let alloc = rt.alloc();
        plain.set_nonblocking(true)?;
        web.set_nonblocking(true)?;
        let poll = Poll::new(rt)?;
        watch(&poll, plain.as_raw_fd(), Interest::READABLE)?;
        watch(&poll, web.as_raw_fd(), Interest::READABLE)?;
        Ok(WebListener {
            rt,
            plain,
            web,
            web_port,
            names: Names::at(alloc, web_port)?,
            poll,
            events: Events::with_capacity(alloc, MAX_VISITORS + 2)?,
        })
    }

    /// Lets in who has come by now. `None` if that is nobody.
    fn look(&mut self, visitors: &mut Vec<Visitor>) -> io::Result<Option<SocketLine>>
        ensures { IfOk result (λ found. IfSome found
            (λ line. either_line (λ plain. plain.ended) (λ browser. browser.ended) line ≡ false)) }
    {
        let now = Instant::now(self.rt)?;
        self.greet(visitors, now);
        if let Some(visitor) = hear_out(visitors, &self.names, now) {
            // One that is gone again is no fault of the door.
            if let Ok(stream) = visitor.into_stream() {
                let socket = BrowserSocket::new(self.rt.alloc(), stream);
                return Ok(Some(CallerLine::Browser(BrowserLine::new(socket))));
            }
        }
        match self.plain.accept() {
            Ok((stream, _)) => {
                // A screen goes out at once. If that cannot be asked for it only goes later.
                let _ = stream.set_nodelay(true);
                let line = TcpLine::new(stream.try_clone()?, stream);
                Ok(Some(CallerLine::Plain(line)))
            }
            Err(error) if error.kind() == ErrorKind::WouldBlock => Ok(None),
            Err(error) => Err(error),
        }
    }

    /// Adds the browsers that have connected. One that cannot be let in is no fault of the door: it waits, or is dropped.
    fn greet(&self, visitors: &mut Vec<Visitor>, now: Instant) {
        for _ in 0..MAX_GREETED {
            let Ok((stream, _)) = self.web.accept() else {
                return;
            };
            if visitors.len() >= MAX_VISITORS {
                visitors.remove(0);
            }
            if self.hears(&stream).is_ok() {
                let _ = visitors.push(Visitor::new(self.rt.alloc(), stream, now));
            }
        }
    }

    /// Has the poll look at a browser's stream, which does not block from now on.
    fn hears(&self, stream: &TcpStream) -> io::Result<()> {
        stream.set_nonblocking(true)?;
        let both = Interest::READABLE | Interest::WRITABLE;
        watch(&self.poll, stream.as_raw_fd(), both)
    }

    /// Waits until something has come. While browsers are heard out this ends after a while in any case.
    fn wait(&mut self, are_visitors: bool) -> io::Result<()> {
        let limit = are_visitors.then(|| Duration::from_secs(LOOK_AFTER));
        self.poll.poll(&mut self.events, limit)
    }
}

impl<'a, R: AllocGlobal + Net<Listener = TcpListener, Stream = TcpStream> + Clock> Listener
    for WebListener<'a, R> {
    type Line = SocketLine;

    ghost coming = { λ _. None };

    fn accept(&mut self) -> io::Result<SocketLine> {
        let mut visitors = Vec::with_capacity(self.rt.alloc(), MAX_VISITORS)?;
        for _ in 0..u64::MAX {
            if let Some(line) = self.look(&mut visitors)? {
                return Ok(line);
            }
            self.wait(!visitors.is_empty())?;
        }
        Err(ErrorKind::Interrupted.into())
    }

    fn close(&self, line: SocketLine) {
        line.close();
    }
}

impl<'a, R: AllocGlobal + Net<Listener = TcpListener, Stream = TcpStream> + Clock> SharedListener
    for WebListener<'a, R> {
    fn beside(&self) -> io::Result<WebListener<'a, R>> {
        WebListener::new(
            self.rt,
            self.plain.try_clone()?,
            self.web.try_clone()?,
            self.web_port,
        )
    }
}

/// Has the poll look at this socket. What is ready is tried one after another, so that all have one token.
fn watch(poll: &Poll, socket: i32, interest: Interest) -> io::Result<()> {
    poll.registry()
        .register(&mut SourceFd(&socket), Token(0), interest)
}

/// Goes on with each browser. Returns the first whose call is accepted; those that are done with are dropped.
fn hear_out(visitors: &mut Vec<Visitor>, names: &Names, now: Instant) -> Option<Visitor> {
    let mut at = 0;
    while at < visitors.len() {
        match visitors[at].go_on(names, now) {
            Visit::Waits => at += 1,
            Visit::Goes => {
                visitors.remove(at);
            }
            Visit::Calls => return Some(visitors.remove(at)),
        }
    }
    None
}
