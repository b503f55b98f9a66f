//! A browser that has connected and says what it asks for.

use crate::asking::{Asked, asked_by};
use crate::names::Names;
use crate::reply::UNREADABLE;
use bytes::{Buf, BytesMut};
use http1::{BodySize, Event, Header, Limits, Progress, ReadError, Server};
use httparse::spans::EMPTY_HEADER_SPAN;
use std::alloc::Global;
use std::io::{self, ErrorKind, Write};
use std::net::{Shutdown, TcpStream};
use std::time::Instant;
use websocket::handshake::server::write_response;

/// The longest head of a request that is read, in bytes.
pub const MAX_HEAD: usize = 8192;

/// The most header lines of a request.
const MAX_HEADER_LINES: usize = 64;

/// How many bytes of a request are asked for at once.
const READ_SIZE: usize = 1024;

/// How long a browser may take until it is answered, in seconds.
pub const PATIENCE: u64 = 10;

/// What the page may do: run its own script, draw, and call this server.
const POLICY: &[u8] =
    b"default-src 'none'; script-src 'unsafe-inline'; style-src 'unsafe-inline'; img-src data:; connect-src 'self'";

/// What has become of a visitor.
#[derive(Clone, Copy, Debug, PartialEq, Eq)]
pub(crate) enum Visit {
    /// It is not done with yet.
    Waits,
    /// It is answered, or is to be dropped.
    Goes,
    /// Its call is accepted.
    Calls,
}

/// A browser that has connected, whose stream does not block.
#[derive(Drop)]
pub(crate) struct Visitor {
    stream: TcpStream,
    came: Instant,
    server: Server,
    input: BytesMut,
    output: BytesMut,
    /// What becomes of it once the output is sent.
    after: Visit,
}

impl Visitor {
    /// A browser that came at this moment.
    pub(crate) fn new(alloc: Global, stream: TcpStream, came: Instant) -> Visitor {
        let limits = Limits {
            max_head_len: MAX_HEAD,
            ..Limits::default()
        };
        Visitor {
            stream,
            came,
            server: Server::new(limits),
            input: BytesMut::new(alloc),
            output: BytesMut::new(alloc),
            after: Visit::Waits,
        }
    }

    /// Its stream, once its call is accepted. It blocks from now on. A browser that has said more than its request is refused.
    pub(crate) fn into_stream(self) -> io::Result<TcpStream> {
        let Visitor { stream, input, .. } = self;
        if !input.is_empty() {
            return Err(ErrorKind::InvalidData.into());
        }
        stream.set_nonblocking(false)?;
        let _ = stream.set_nodelay(true);
        Ok(stream)
    }

    /// Reads what has come, answers a request that is whole, and sends what can be sent without waiting.
    pub(crate) fn go_on(&mut self, names: &Names, now: Instant) -> Visit {
        if now.saturating_duration_since(self.came).as_secs() >= PATIENCE {
            return Visit::Goes;
        }
        match self.read_and_send(names) {
            Ok(visit) => visit,
            Err(error) if error.kind() == ErrorKind::WouldBlock => Visit::Waits,
            Err(_) => Visit::Goes,
        }
    }

    /// As [`Visitor::go_on`], until a call would wait.
    fn read_and_send(&mut self, names: &Names) -> io::Result<Visit> {
        // Each read takes a byte at least, and a head that is too long is answered too.
        for _ in 0..=MAX_HEAD {
            if self.after != Visit::Waits {
                break;
            }
            self.read(names)?;
        }
        self.send()?;
        if self.after == Visit::Goes {
            let _ = self.stream.shutdown(Shutdown::Write);
        }
        Ok(self.after)
    }

    /// Sends the output.
    fn send(&mut self) -> io::Result<()> {
        for _ in 0..u64::MAX {
            if self.output.is_empty() {
                return Ok(());
            }
            match self.stream.write(self.output.as_slice()) {
                Ok(0) => return Err(ErrorKind::WriteZero.into()),
                Ok(count) => self.output.advance(count),
                Err(error) if error.kind() == ErrorKind::Interrupted => {}
                Err(error) => return Err(error),
            }
        }
        Err(ErrorKind::Interrupted.into())
    }

    /// Reads once, and answers a request that is whole then.
    fn read(&mut self, names: &Names) -> io::Result<()> {
        self.input.reserve(READ_SIZE)?;
        match self.input.read_from(&mut self.stream) {
            Ok(0) => Err(ErrorKind::UnexpectedEof.into()),
            Ok(_) => self.answer(names),
            Err(error) if error.kind() == ErrorKind::Interrupted => Ok(()),
            Err(error) => Err(error),
        }
    }

    /// Answers the request, if its head is whole.
    fn answer(&mut self, names: &Names) -> io::Result<()> {
        let mut spans = [EMPTY_HEADER_SPAN; MAX_HEADER_LINES];
        match self.server.read(self.input.as_slice(), &mut spans) {
            Ok(
                Progress {
                    consumed,
                    event: Event::Head(head),
                },
            ) => {
                let asked = asked_by(names, self.input.as_slice(), &head, &spans);
                self.input.advance(consumed);
                self.answer_asked(asked)
            }
            Ok(_) => Ok(()),
            Err(error) => self.refuse(error),
        }
    }

    /// Accepts a call, and answers what else is asked for.
    fn answer_asked(&mut self, asked: Asked) -> io::Result<()> {
        match asked {
            Asked::Call(key) => {
                if write_response(&key, &[], &mut self.output).is_err() {
                    return Err(ErrorKind::OutOfMemory.into());
                }
                self.after = Visit::Calls;
                Ok(())
            }
            asked => self.write(asked.status(), asked.text(), asked == Asked::Page),
        }
    }

    /// Answers a request that cannot be read.
    fn refuse(&mut self, error: ReadError) -> io::Result<()> {
        self.write(error.status(), UNREADABLE, false)
    }

    /// Answers with this status and text, after which nothing more is read.
    fn write(&mut self, status: u16, text: &str, is_page: bool) -> io::Result<()> {
        let kind = if is_page {
            b"text/html; charset=utf-8".as_slice()
        } else {
            b"text/plain; charset=utf-8".as_slice()
        };
        let headers = [
            header(b"Content-Type", kind),
            header(b"Cache-Control", b"no-store"),
            header(b"Content-Security-Policy", POLICY),
            header(b"Connection", b"close"),
        ];
        let size = BodySize::Known(text.len() as u64);
        let output = &mut self.output;
        let server = &mut self.server;
        if server
            .write_response(output, status, reason(status), &headers, size)
            .is_err()
        {
            return Err(ErrorKind::OutOfMemory.into());
        }
        // The answer to a `HEAD` takes no body. An answer that lacks a part of its body has no end.
        let _ = server.write_data(output, text.as_bytes());
        if server.write_end(output, &[]).is_err() {
            return Err(ErrorKind::OutOfMemory.into());
        }
        self.after = Visit::Goes;
        Ok(())
    }
}

/// A header line.
fn header<'a>(name: &'a [u8], value: &'a [u8]) -> Header<'a> {
    Header { name, value }
}

/// The words of a status.
fn reason(status: u16) -> &'static [u8] {
    match status {
        200 => b"OK",
        403 => b"Forbidden",
        404 => b"Not Found",
        414 => b"URI Too Long",
        426 => b"Upgrade Required",
        431 => b"Request Header Fields Too Large",
        _ => b"Bad Request",
    }
}
