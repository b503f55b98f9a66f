//! A browser's line over messages that report what comes and what was sent.
ghost use Rattle.std.specs.Prelude.{Some};
ghost use Rattle.pv_web_tests.specs.Planned.{messages_of};

use crate::planned::Planned;
use bytes::Bytes;
use pv_files::TcpLine;
use pv_outside::{Failed, Line, Sink, Source};
use pv_web::{BrowserLine, CallerLine, Incoming, Messages};
use std::alloc::Global;
use std::io::{self, ErrorKind};
use std::test::Fail;

/// Messages that come in a given order, and what was sent.
#[derive(Drop)]
struct Listed<'a> {
    comes: &'a [Planned],
    sent: Vec<u8>,
    count: u64,
}

impl<'a> Listed<'a> {
    fn new(alloc: Global, comes: &'a [Planned]) -> Listed<'a> {
        Listed {
            comes,
            sent: Vec::new(alloc),
            count: 0,
        }
    }
}

impl<'a> Messages for Listed<'a> {
    ghost coming = { λ l. Some (messages_of l.comes.now) };

    ghost written = { λ l. Some l.sent.items };

    fn receive(&mut self) -> io::Result<Incoming> {
        let Some((first, rest)) = self.comes.split_first() else {
            return Ok(Incoming::End);
        };
        self.comes = rest;
        match *first {
            Planned::Keys(bytes) => Ok(Incoming::Keys(Bytes::from_static(bytes))),
            Planned::Ping => Ok(Incoming::Nothing),
            Planned::Fault => Err(ErrorKind::ConnectionReset.into()),
        }
    }

    fn send(&mut self, bytes: &[u8]) -> io::Result<()> {
        self.count = self.count.saturating_add(1);
        match self.sent.extend_from_slice(bytes) {
            Ok(()) => Ok(()),
            Err(_) => Err(ErrorKind::OutOfMemory.into()),
        }
    }
}

/// A read with room for two keys.
fn two_keys<L: Source>(line: &mut L) -> (Result<usize, Failed>, [u8; 2]) {
    let mut keys = [0; 2];
    (line.read(&mut keys), keys)
}

#[test]
fn each_key_is_given_once_and_in_order(rt: HostRuntime) -> Result<(), Fail> {
    let comes = [
        Planned::Keys(b"*1#"),
        Planned::Ping,
        Planned::Keys(b""),
        Planned::Keys(b"72"),
        Planned::Ping,
    ];
    let mut line = BrowserLine::new(Listed::new(rt.alloc(), &comes));
    assert_eq!(rt; line.read(&mut []), Ok(0));
    assert_eq!(rt; two_keys(&mut line), (Ok(2), *b"*1"));
    assert_eq!(rt; two_keys(&mut line), (Ok(1), *b"#\0"));
    assert_eq!(rt; two_keys(&mut line), (Ok(2), *b"72"));
    assert_eq!(rt; two_keys(&mut line), (Ok(0), [0; 2]));
    assert_eq!(rt; two_keys(&mut line), (Ok(0), [0; 2]));
    Ok(())
}

#[test]
fn a_fault_loses_no_key(rt: HostRuntime) -> Result<(), Fail> {
    let comes = [
        Planned::Keys(b"1"),
        Planned::Ping,
        Planned::Fault,
        Planned::Keys(b"2"),
    ];
    let mut line = BrowserLine::new(Listed::new(rt.alloc(), &comes));
    assert_eq!(rt; two_keys(&mut line), (Ok(1), *b"1\0"));
    assert_eq!(rt; two_keys(&mut line), (Err(Failed), [0; 2]));
    let kind = line.error().map(|error| error.kind());
    assert_eq!(rt; kind, Some(ErrorKind::ConnectionReset));
    assert_eq!(rt; two_keys(&mut line), (Ok(1), *b"2\0"));
    Ok(())
}

#[test]
fn a_long_screen_is_sent_in_pieces(rt: HostRuntime) -> Result<(), Fail> {
    let screen = [b'A'; 10_000];
    let mut line = BrowserLine::new(Listed::new(rt.alloc(), &[]));
    line.write_all(&screen)?;
    line.write_all(b"")?;
    assert_eq!(rt; line.messages().count, 3);
    assert_eq!(rt; line.messages().sent.as_slice(), screen.as_slice());
    Ok(())
}

/// What a line hears and says.
fn hear_and_say<L: Line>(line: &mut L) -> (Result<usize, Failed>, [u8; 2], Result<(), Failed>) {
    let mut keys = [0; 2];
    (line.hear(&mut keys), keys, line.say(b"HI"))
}

#[test]
fn a_line_of_either_kind_hears_and_says(rt: HostRuntime) -> Result<(), Fail> {
    let keys: &[u8] = b"7";
    let mut plain: CallerLine<TcpLine<&[u8], Vec<u8>>, BrowserLine<Listed>> = CallerLine::Plain(
        TcpLine::new(keys, Vec::new(rt.alloc())),
    );
    assert_eq!(rt; hear_and_say(&mut plain), (Ok(1), *b"7\0", Ok(())));
    let comes = [Planned::Keys(b"8")];
    let mut browser: CallerLine<TcpLine<&[u8], Vec<u8>>, BrowserLine<Listed>> = CallerLine::Browser(
        BrowserLine::new(Listed::new(rt.alloc(), &comes)),
    );
    assert_eq!(rt; hear_and_say(&mut browser), (Ok(1), *b"8\0", Ok(())));
    assert_eq!(rt;
        (two_keys(&mut browser), browser.write_all(b"!")),
        ((Ok(0), [0; 2]), Ok(()))
    );
    Ok(())
}
