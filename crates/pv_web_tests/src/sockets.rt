//! A browser's line over a web socket: one whose stream is in memory, and one of the system.
use pv_files::TcpLine;
use pv_outside::{Failed, Sink, Source};
use pv_web::{BrowserLine, BrowserSocket, CallerLine, SocketLine};
use std::alloc::Global;
use std::io::{self, ErrorKind, Read, Write};
use std::net::{Ipv4Addr, Shutdown, TcpListener, TcpStream};
use std::test::Fail;
use tungstenite::Duplex;

/// A line over the bytes that a browser sends.
type Remembered = BrowserLine<BrowserSocket<Duplex<&'static [u8], Vec<u8>>>>;

/// A line to a browser that sends these bytes.
fn sent_by_browser(alloc: Global, bytes: &'static [u8]) -> Remembered {
    let stream = Duplex {
        reader: bytes,
        writer: Vec::new(alloc),
    };
    BrowserLine::new(BrowserSocket::new(alloc, stream))
}

/// What the first read gives of the bytes that a browser sends, and the kind of the fault.
fn first_read(
    alloc: Global,
    bytes: &'static [u8],
) -> (Result<usize, Failed>, [u8; 2], Option<ErrorKind>) {
    let mut line = sent_by_browser(alloc, bytes);
    let mut keys = [0; 2];
    let count = line.read(&mut keys);
    (count, keys, line.error().map(|error| error.kind()))
}

/// The key 7 in a frame that is masked, and in one that is not.
const MASKED: &[u8] = &[0x82, 0x81, 1, 2, 3, 4, b'7' ^ 1];

const UNMASKED: &[u8] = &[0x82, 0x01, b'7'];

/// The head of a frame of 512 and of 513 bytes, a text, a ping before a key, a close, and a frame that breaks off.
const LONG: &[u8] = &[0x82, 0xFE, 0x02, 0x01, 0, 0, 0, 0];

const TEXT: &[u8] = &[0x81, 0x81, 0, 0, 0, 0, b'7'];

const PING: &[u8] = &[
    0x89, 0x81, 0, 0, 0, 0, b'?', 0x82, 0x82, 0, 0, 0, 0, b'1', b'#',
];

const CLOSE: &[u8] = &[0x88, 0x80, 0, 0, 0, 0];

const BROKEN: &[u8] = &[0x82, 0x81, 0, 0];

#[test]
fn a_frame_is_keys_or_nothing_or_the_end_or_a_fault(rt: HostRuntime) -> Result<(), Fail> {
    let fault = (Err(Failed), [0; 2], Some(ErrorKind::InvalidData));
    let end = (Ok(0), [0; 2], None);
    let table = [
        (MASKED, (Ok(1), *b"7\0", None)),
        (UNMASKED, fault),
        (LONG, fault),
        (TEXT, fault),
        (PING, (Ok(2), *b"1#", None)),
        (CLOSE, end),
        (BROKEN, end),
        (b"", end),
    ];
    for (bytes, wanted) in table {
        assert_eq!(rt; first_read(rt.alloc(), bytes), wanted);
    }
    Ok(())
}

#[test]
fn a_ping_is_answered_and_a_screen_is_one_frame(rt: HostRuntime) -> Result<(), Fail> {
    let mut line = sent_by_browser(rt.alloc(), PING);
    line.read(&mut [0; 2])?;
    line.write_all(b"HI")?;
    assert_eq!(rt;
        line.messages().stream().writer.as_slice(),
        [0x8A, 0x01, b'?', 0x82, 0x02, b'H', b'I'].as_slice()
    );
    Ok(())
}

#[test]
fn a_write_after_a_close_is_a_fault(rt: HostRuntime) -> Result<(), Fail> {
    let mut line = sent_by_browser(rt.alloc(), CLOSE);
    let read = line.read(&mut [0]);
    assert_eq!(rt; (read, line.write_all(b"HI")), (Ok(0), Err(Failed)));
    Ok(())
}

/// Two ends of a connection.
fn connected(rt: &HostRuntime) -> io::Result<(TcpStream, TcpStream)> {
    let listener = TcpListener::bind(rt, (Ipv4Addr::LOCALHOST, 0))?;
    let peer = TcpStream::connect(rt, (Ipv4Addr::LOCALHOST, listener.local_addr()?.port()))?;
    let (stream, _) = listener.accept()?;
    Ok((stream, peer))
}

/// A line that may move into a thread.
fn movable<L: Send>(line: L) -> L {
    line
}

/// Reads a key, sends a screen, and closes the line. Returns what the peer then reads.
fn talk(mut line: SocketLine, mut peer: TcpStream) -> Result<([u8; 6], usize), Fail> {
    peer.write_all(MASKED)?;
    let mut key = [0];
    if line.read(&mut key) != Ok(1) || key != *b"7" {
        return Err("the key comes".into());
    }
    line.write_all(b"HI")?;
    line.close();
    let mut read = [0; 6];
    peer.read_exact(&mut read)?;
    Ok((read, peer.read(&mut [0])?))
}

#[test]
fn a_line_over_a_connection_says_that_it_closes(rt: HostRuntime) -> Result<(), Fail> {
    let (stream, peer) = connected(&rt)?;
    let browser = CallerLine::Browser(BrowserLine::new(BrowserSocket::new(rt.alloc(), stream)));
    let heard = talk(movable(browser), peer)?;
    assert_eq!(rt; heard, ([0x82, 0x02, b'H', b'I', 0x88, 0x00], 0));
    let (stream, peer) = connected(&rt)?;
    let mut plain: SocketLine = CallerLine::Plain(TcpLine::new(stream.try_clone()?, stream));
    peer.shutdown(Shutdown::Write)?;
    let mut key = [0];
    assert_eq!(rt; plain.read(&mut key), Ok(0));
    movable(plain).close();
    Ok(())
}
