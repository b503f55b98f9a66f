//! What browsers are answered at a listener's second port, while a plain caller is let in at the first.
use pv_files::{Listener, listen};
use pv_outside::Line;
use pv_web::{CallerLine, MAX_HEAD, WebListener};
use std::io::{self, Read, Write};
use std::net::TcpStream;
use std::str;
use std::test::Fail;

/// A listener, and the numbers of its ports.
fn listener_at(rt: &HostRuntime) -> io::Result<(WebListener<'_, HostRuntime>, u16, u16)> {
    let plain = listen(rt, 0)?;
    let web = listen(rt, 0)?;
    let port = plain.local_addr()?.port();
    let web_port = web.local_addr()?.port();
    let listener = WebListener::new(rt, plain, web, web_port)?;
    Ok((listener, port, web_port))
}

/// A browser that has connected and sent a request of this first line, our own host and these fields.
fn browser_at(rt: &HostRuntime, port: u16, first: &str, fields: &str) -> io::Result<TcpStream> {
    let mut browser = TcpStream::connect(rt, ("127.0.0.1", port))?;
    let request = format!(in rt.alloc();
        "{first} HTTP/1.1\r\nHost: localhost:{port}\r\n{fields}\r\n"
    )?;
    browser.write_all(request.as_bytes())?;
    Ok(browser)
}

/// The status of the answer, in three digits.
fn status(rt: &HostRuntime, first: &str, fields: &str) -> io::Result<[u8; 3]> {
    let (mut listener, port, web_port) = listener_at(rt)?;
    let mut browser = browser_at(rt, web_port, first, fields)?;
    let _caller = TcpStream::connect(rt, ("127.0.0.1", port))?;
    let line = listener.accept()?;
    listener.close(line);
    let mut begin = [0; 12];
    browser.read_exact(&mut begin)?;
    let [.., a, b, c] = begin;
    Ok([a, b, c])
}

#[test]
fn each_request_has_its_answer(rt: HostRuntime) -> Result<(), Fail> {
    let table = [
        ("GET /", "", b"200"),
        ("GET /", "Origin: http://localhost\r\n", b"403"),
        ("GET /x", "", b"404"),
        ("POST /", "", b"404"),
        ("HEAD /", "", b"404"),
        ("GET /call", "", b"426"),
        ("GET /", "Host: x\r\n", b"400"),
        ("GET", "", b"400"),
    ];
    for (first, fields, wanted) in table {
        assert_eq!(rt; status(&rt, first, fields)?, *wanted);
    }
    Ok(())
}

#[test]
fn a_head_that_is_too_long_is_refused(rt: HostRuntime) -> Result<(), Fail> {
    let alloc = rt.alloc();
    let many = Vec::from_elem(alloc, b'x', MAX_HEAD)?;
    let long = str::from_utf8(many.as_slice()).unwrap_or("");
    let target = format!(in alloc; "GET /{long}")?;
    let field = format!(in alloc; "X: {long}\r\n")?;
    assert_eq!(rt; status(&rt, target.as_str(), "")?, *b"414");
    assert_eq!(rt; status(&rt, "GET /", field.as_str())?, *b"431");
    Ok(())
}

/// A request for a call by a websocket, with the key of the protocol's own example.
const CALL: &str =
    "Connection: Upgrade\r\nUpgrade: websocket\r\nSec-WebSocket-Version: 13\r\nSec-WebSocket-Key: dGhlIHNhbXBsZSBub25jZQ==\r\n";

/// The answer to it.
const ACCEPTED: &[u8] =
    b"HTTP/1.1 101 Switching Protocols\r\nconnection: Upgrade\r\nupgrade: websocket\r\nsec-websocket-accept: s3pPLMBiTxaQ9kYGzzhZRbK+xOo=\r\n\r\n";

#[test]
fn a_call_is_a_line(rt: HostRuntime) -> Result<(), Fail> {
    let (mut listener, _, web_port) = listener_at(&rt)?;
    let _silent = TcpStream::connect(&rt, ("127.0.0.1", web_port))?;
    let mut browser = browser_at(&rt, web_port, "GET /call", CALL)?;
    let mut line = listener.accept()?;
    let mut head = [0; ACCEPTED.len()];
    browser.read_exact(&mut head)?;
    assert_eq!(rt; head.as_slice(), ACCEPTED);
    browser.write_all(&[0x82, 0x81, 0, 0, 0, 0, b'7'])?;
    let mut keys = [0; 2];
    assert_eq!(rt; (line.hear(&mut keys), keys), (Ok(1), *b"7\0"));
    assert!(rt; line.say(b"A").is_ok() && matches!(line, CallerLine::Browser(_)));
    listener.close(line);
    let mut said = Vec::new(rt.alloc());
    browser.read_to_end(&mut said)?;
    assert_eq!(rt; said.as_slice(), [0x82, 1, b'A', 0x88, 0].as_slice());
    Ok(())
}
