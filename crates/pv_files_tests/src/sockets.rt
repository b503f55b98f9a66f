//! Doors and lines over real sockets.
ghost use Rattle.std.specs.Prelude.{◌<◌, ⊤, IfOk};
ghost use Rattle.pv_files.specs.Doors.{IsNewDoor};

use pv_files::{FileDisk, TcpDoor, TcpLine, ThreadSpawner};
use pv_outside::{Disk, Door, Failed, Job, Sink, Source, Spawner};
use std::alloc::Global;
use std::fs::{self, File};
use std::io::{self, ErrorKind, Read, Write};
use std::net::{IpAddr, Ipv4Addr, Shutdown, TcpStream};
use std::sync::Wait;
use std::test::Fail;
use std::thread::Threads;

/// Connects to a port of the loopback.
fn connect(rt: &HostRuntime, port: u16) -> io::Result<TcpStream> {
    TcpStream::connect(rt, (Ipv4Addr::LOCALHOST, port))
}

/// A door, a peer that it let in, and the line to it.
#[derive(Drop)]
struct Met {
    door: TcpDoor,
    peer: TcpStream,
    line: TcpLine,
}

/// Lets a peer in at a new door.
fn meet(rt: &HostRuntime) -> Result<Met, Fail>
    ensures { IfOk result (λ m. m.door.counts.finished < m.door.counts.accepted) }
{
    let mut door = TcpDoor::bind(rt, 0)?;
    let peer = connect(rt, door.port()?)?;
    let line = door.accept()?;
    Ok(Met { door, peer, line })
}

/// Whether a line gives each byte that its peer writes, one by one.
fn comes_in(peer: &mut TcpStream, line: &mut TcpLine, bytes: &[u8]) -> io::Result<bool> {
    let mut key = [0; 4];
    for byte in bytes {
        peer.write_all(&[*byte])?;
        if line.read(&mut key) != Ok(1) || key[0] != *byte {
            return Ok(false);
        }
    }
    Ok(true)
}

/// What a peer reads of a screen of six bytes.
fn goes_out(line: &mut TcpLine, peer: &mut TcpStream, screen: &[u8; 6]) -> Result<[u8; 6], Fail> {
    line.write_all(screen)?;
    let mut read = [0; 6];
    peer.read_exact(&mut read)?;
    Ok(read)
}

/// How many bytes a line gives once its peer writes no more, twice.
fn ends(peer: &TcpStream, line: &mut TcpLine) -> Result<(usize, usize), Fail> {
    peer.shutdown(Shutdown::Write)?;
    let mut key = [0; 4];
    Ok((line.read(&mut key)?, line.read(&mut key)?))
}

#[test]
fn bytes_go_both_ways_one_by_one_and_then_the_line_ends(rt: HostRuntime) -> Result<(), Fail> {
    let Met {
        mut door,
        mut peer,
        mut line,
    } = meet(&rt)?;
    let came = comes_in(&mut peer, &mut line, b"*1#")?;
    let went = goes_out(&mut line, &mut peer, b"screen")?;
    assert_eq!(rt; (came, went), (true, *b"screen"));
    let ended = ends(&peer, &mut line)?;
    door.finish(line);
    assert_eq!(rt; (ended, peer.read(&mut [0; 4])?), ((0, 0), 0));
    Ok(())
}

/// Lets a peer in, and gives its line back.
fn let_in(door: &mut TcpDoor) -> Result<(), Failed>
    requires { IsNewDoor door.old }
{
    let line = door.accept()?;
    door.finish(line);
    Ok(())
}

#[test]
fn two_doors_share_a_port_and_no_third_is_bound_to_it(rt: HostRuntime) -> Result<(), Fail> {
    let mut first = TcpDoor::bind(&rt, 0)?;
    let mut second = first.beside()?;
    let port = first.port()?;
    let third = TcpDoor::bind(&rt, port).err();
    assert_eq!(rt; third.map(|error| error.kind()), Some(ErrorKind::AddrInUse));
    let _peers = (connect(&rt, port)?, connect(&rt, port)?);
    let_in(&mut first)?;
    let_in(&mut second)?;
    Ok(())
}

#[test]
fn a_door_listens_at_the_loopback_alone(rt: HostRuntime) -> Result<(), Fail> {
    let door = TcpDoor::bind(&rt, 0)?;
    let address = door.listener().local_addr()?;
    assert_eq!(rt;
        (address.ip(), address.port()),
        (IpAddr::V4(Ipv4Addr::LOCALHOST), door.port()?)
    );
    Ok(())
}

/// Twenty peers of a port.
fn twenty_peers(rt: &HostRuntime, port: u16) -> Result<Vec<TcpStream>, Fail> {
    let mut peers = Vec::new(rt.alloc());
    for _ in 0..20 {
        peers.push(connect(rt, port)?)?;
    }
    Ok(peers)
}

#[test]
fn twenty_connections_may_wait(rt: HostRuntime) -> Result<(), Fail> {
    let door = TcpDoor::bind(&rt, 0)?;
    let _peers = twenty_peers(&rt, door.port()?)?;
    for _ in 0..20 {
        let_in(&mut door.beside()?)?;
    }
    Ok(())
}

/// The port of a door that was closed after its line was given back, and how many bytes the peer then read.
fn closed_port(rt: &HostRuntime) -> Result<(u16, usize), Fail> {
    let Met {
        mut door,
        mut peer,
        line,
    } = meet(rt)?;
    let port = door.port()?;
    door.finish(line);
    Ok((port, peer.read(&mut [0])?))
}

#[test]
fn a_port_is_bound_again_at_once(rt: HostRuntime) -> Result<(), Fail> {
    let (port, count) = closed_port(&rt)?;
    let door = TcpDoor::bind(&rt, port)?;
    assert_eq!(rt; (count, door.port()?), (0, port));
    Ok(())
}

/// The kind of a line's last error.
fn last_kind(line: &TcpLine) -> Option<ErrorKind> {
    line.error().map(|error| error.kind())
}

#[test]
fn a_peer_that_resets_is_a_read_fault(rt: HostRuntime) -> Result<(), Fail> {
    let Met {
        mut door,
        peer,
        mut line,
    } = meet(&rt)?;
    // A socket that is closed before all was read from it is reset.
    line.write_all(b"unread")?;
    drop(peer);
    let read = (line.read(&mut [0]), last_kind(&line));
    assert_eq!(rt; read, (Err(Failed), Some(ErrorKind::ConnectionReset)));
    // A write to it is a fault too, and the process goes on.
    let written = (line.write_all(b"lost"), last_kind(&line));
    assert_eq!(rt; written, (Err(Failed), Some(ErrorKind::BrokenPipe)));
    door.finish(line);
    Ok(())
}

/// A job that writes a caller's key to a disk, and answers him.
#[derive(Drop)]
struct OneCall {
    door: TcpDoor,
    disk: FileDisk<File>,
    ghost is_new: { IsNewDoor door },
}

impl Job for OneCall {
    type Done = bool;

    ghost may_return = { λ _ _. ⊤ };

    fn run<R: Wait + Sync>(mut self, _rt: &R) -> bool {
        let Ok(mut line) = self.door.accept() else {
            return false;
        };
        let mut key = [0];
        let is_kept = line.read(&mut key) == Ok(1) && self.disk.write(0, &key).is_ok();
        let is_sent = line.write_all(b"WELCOME").is_ok();
        self.door.finish(line);
        is_kept && is_sent
    }
}

/// A call whose caller has keyed 7, and the caller.
fn dialled(rt: &HostRuntime, path: &str) -> Result<(OneCall, TcpStream), Fail> {
    let door = TcpDoor::bind(rt, 0)?;
    let mut peer = connect(rt, door.port()?)?;
    peer.write_all(b"7")?;
    let disk = FileDisk::create(rt, rt.alloc(), path)?;
    Ok((OneCall { door, disk }, peer))
}

/// Takes a call in a thread. Returns what each job returned.
fn take<R: Threads + Wait + Sync>(rt: &R, alloc: Global, call: OneCall) -> Result<Vec<bool>, Fail> {
    let jobs = vec![in alloc; call]?;
    let done = ThreadSpawner::new().run_all(rt, alloc, jobs);
    Ok(done.ok().ok_or("all run")?)
}

/// The screen of seven bytes that a peer reads.
fn screen_of(peer: &mut TcpStream) -> io::Result<[u8; 7]> {
    let mut screen = [0; 7];
    peer.read_exact(&mut screen)?;
    Ok(screen)
}

/// The first byte of a file.
fn first_byte(rt: &HostRuntime, path: &str) -> Result<u8, Fail> {
    let mut byte = [0];
    FileDisk::open(rt, rt.alloc(), path)?.read(0, &mut byte)?;
    Ok(byte[0])
}

#[test]
fn a_door_and_a_disk_move_into_a_thread(rt: HostRuntime) -> Result<(), Fail> {
    let (call, mut peer) = dialled(&rt, "call.pv")?;
    assert_eq!(rt; take(&rt, rt.alloc(), call)?.as_slice(), [true].as_slice());
    let found = (screen_of(&mut peer)?, first_byte(&rt, "call.pv")?);
    assert_eq!(rt; found, (*b"WELCOME", b'7'));
    fs::remove_file(&rt, "call.pv")?;
    Ok(())
}

/// A job that greets over its line, and waits for a greeting.
#[derive(Drop)]
struct Greeting {
    line: TcpLine,
}

impl Job for Greeting {
    type Done = bool;

    ghost may_return = { λ _ _. ⊤ };

    fn run<R: Wait + Sync>(mut self, _rt: &R) -> bool {
        let is_sent = self.line.write_all(b"!").is_ok();
        let mut byte = [0];
        is_sent && self.line.read(&mut byte) == Ok(1) && byte == *b"!"
    }
}

#[test]
fn two_jobs_wait_for_each_other(rt: HostRuntime) -> Result<(), Fail> {
    let Met {
        door: _door,
        peer,
        line,
    } = meet(&rt)?;
    let other = TcpLine::new(peer.try_clone()?, peer);
    let jobs = vec![in rt.alloc(); Greeting { line }, Greeting { line: other }]?;
    let done = ThreadSpawner::new().run_all(&rt, rt.alloc(), jobs);
    assert_eq!(rt;
        done.ok().ok_or("all run")?.as_slice(),
        [true, true].as_slice()
    );
    Ok(())
}
