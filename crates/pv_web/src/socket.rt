ghost use Rattle.std.specs.Prelude.{◌≡◌, [], Some, None, OnOk, false};
ghost use Rattle.std.specs.IoError.{error_kind};
ghost use Rattle.std.specs.Option.{option_map};
ghost use Rattle.websocket.specs.Connection.{write_step};
ghost use Rattle.websocket.specs.Content.{binary};
ghost use Rattle.websocket.specs.declared.protocol.config.Role.TheVariants as Role;
ghost use Rattle.tungstenite.specs.Socket.{IsFresh, Writes};
ghost use Rattle.pv_web.specs.Socket.{incoming_of, fault_in, ReadsOnce, ReadsNext};

use crate::messages::{Incoming, Messages};
use std::alloc::Global;
use std::io::{self, ErrorKind, Read, Write};
use std::net::{OpenStream, Shutdown};
use tungstenite::{Error, Message, NoMask, Role, WebSocket, WebSocketConfig};
use websocket::error::ProtocolError;

/// The most bytes that a browser may send in one message.
pub const MAX_MESSAGE: usize = 512;

/// The messages of a browser over a stream. A message or a frame of more than [`MAX_MESSAGE`] bytes, a frame
/// that is not masked and a text are faults. A ping is answered.
#[derive(Drop)]
pub struct BrowserSocket<S> {
    alloc: Global,
    socket: WebSocket<S, NoMask>,
}

impl<S: Read + Write + Drop> BrowserSocket<S> {
    /// The messages over a stream whose handshake is done.
    pub fn new(alloc: Global, stream: S) -> BrowserSocket<S>
        ensures fresh { IsFresh result.socket stream Role.Server }
        ensures message { result.socket.conn.config.max_message_size ≡ Some MAX_MESSAGE }
        ensures frame { result.socket.conn.config.max_frame_size ≡ Some MAX_MESSAGE }
        ensures masked { result.socket.conn.config.accept_unmasked_frames ≡ false }
    {
        let config = WebSocketConfig {
            read_buffer_size: 2_048,
            write_buffer_size: 4_096,
            max_write_buffer_size: 16_384,
            max_message_size: Some(MAX_MESSAGE),
            max_frame_size: Some(MAX_MESSAGE),
            accept_unmasked_frames: false,
        };
        BrowserSocket {
            alloc,
            socket: WebSocket::from_raw_socket(alloc, stream, NoMask, Role::Server, Some(config)),
        }
    }

    /// Reads a message once.
    fn receive_once(&mut self) -> io::Result<Incoming>
        ensures { ReadsOnce S.remaining self.old.socket self.new.socket result }
    {
        match self.socket.read() {
            Ok(message) => match incoming_of(message) {
                Some(incoming) => Ok(incoming),
                None => Err(ErrorKind::InvalidData.into()),
            },
            Err(error) => match fault_in(error) {
                Some(fault) => Err(fault),
                None => Ok(Incoming::End),
            },
        }
    }

    /// The stream, to look at.
    pub fn stream(&self) -> &S
        ensures { result.now ≡ self.now.socket.stream }
    {
        self.socket.get_ref()
    }
}

impl<S: Read + Write + OpenStream + Drop> BrowserSocket<S> {
    /// Says to the browser that nothing more comes, and closes the connection.
    pub fn close(mut self) {
        let _ = self.socket.close(None);
        let _ = self.socket.get_ref().shutdown(Shutdown::Write);
    }
}

impl<S: Read + Write + Drop> Messages for BrowserSocket<S> {
    ghost coming = { λ _. None };

    ghost written = { λ _. None };

    fn receive(&mut self) -> io::Result<Incoming>
        ensures reads { ReadsNext S.remaining self.old.socket self.new.socket result }
    {
        for _ in 0..u64::MAX {
            match self.receive_once() {
                Err(error) if error.kind() == ErrorKind::Interrupted => {}
                answer => return answer,
            }
        }
        self.receive_once()
    }

    fn send(&mut self, bytes: &[u8]) -> io::Result<()>
        ensures sends { OnOk result (Writes S.contents self.old.socket self.new.socket
            (write_step self.old.socket.conn (binary bytes.now))) }
        ensures all { OnOk result (self.new.socket.output ≡ []) }
    {
        let Ok(message) = Message::binary(self.alloc, bytes) else {
            return Err(ErrorKind::OutOfMemory.into());
        };
        match self.socket.send(message) {
            Ok(()) => Ok(()),
            Err(error) => Err(fault_in(error).unwrap_or(ErrorKind::BrokenPipe.into())),
        }
    }
}

/// What a message is to a line. A text is nothing that a line takes.
fn incoming_of(message: Message) -> Option<Incoming>
    ensures { result ≡ incoming_of message }
{
    match message {
        Message::Text(_) => None,
        Message::Binary(bytes) => Some(Incoming::Keys(bytes)),
        Message::Ping(_) | Message::Pong(_) => Some(Incoming::Nothing),
        Message::Close(_) => Some(Incoming::End),
    }
}

/// The fault that an error of a read is, if it is not the end.
fn fault_in(error: Error) -> Option<io::Error>
    ensures { option_map error_kind result ≡ fault_in error }
{
    match error {
        Error::ConnectionClosed | Error::AlreadyClosed => None,
        Error::Protocol(ProtocolError::ResetWithoutClosingHandshake) => None,
        Error::Io(cause) => Some(cause),
        Error::OutOfMemory => Some(ErrorKind::OutOfMemory.into()),
        _ => Some(ErrorKind::InvalidData.into()),
    }
}
