ghost use Rattle.std.specs.Prelude.{◌≡◌, [], IfOk};
ghost use Rattle.pv_outside.specs.Counts.{one_more};
ghost use Rattle.pv_memory.specs.Doors.{IsNewLine, finished_of, accepted_of};

use pv_memory::{MemDisk, MemDoor, MemLine, MemSink, MemSource, Pipe, SetClock};
use pv_outside::{CLOCK_END, Clock, Disk, Door, Failed, Fused, Link, MAX_PACKET, Sink, Source};
use std::alloc::{AllocError, Global};
use std::test::Fail;

#[test]
fn a_source_gives_its_bytes_in_pieces_and_then_ends(rt: HostRuntime) -> Result<(), Fail> {
    let mut source = MemSource::new(rt.alloc(), b"abcde", &[1])?;
    let mut piece = [0; 3];
    for (count, seen) in [
        (Ok(3), *b"abc"),
        (Err(Failed), *b"abc"),
        (Ok(2), *b"dec"),
        (Ok(0), *b"dec"),
    ] {
        let read = source.read(&mut piece);
        assert_eq!(rt; (read, piece), (count, seen));
    }
    assert_eq!(rt; source.read(&mut []), Ok(0));
    Ok(())
}

#[test]
fn a_sink_keeps_what_fits(rt: HostRuntime) -> Result<(), Fail> {
    let mut sink = MemSink::new(rt.alloc(), 5, &[1])?;
    let rows: [(&[u8], Result<(), Failed>); 4] = [
        (b"abc", Ok(())),
        (b"d", Err(Failed)),
        (b"def", Err(Failed)),
        (b"de", Ok(())),
    ];
    for (bytes, written) in rows {
        assert_eq!(rt; sink.write_all(bytes), written);
    }
    assert_eq!(rt; sink.bytes(), b"abcde".as_slice());
    Ok(())
}

/// A disk whose bytes `ab` are synced, and `c` and `de` are written over and after them.
fn torn_disk(alloc: Global) -> Result<MemDisk, Fail> {
    let mut disk = MemDisk::new(alloc, 4, &[])?;
    disk.write(0, b"ab")?;
    disk.sync()?;
    disk.write(1, b"c")?;
    disk.write(2, b"de")?;
    Ok(disk)
}

#[test]
fn a_crash_leaves_the_image_of_its_number(rt: HostRuntime) -> Result<(), Fail> {
    let table: [(u8, &[u8]); 6] = [
        (0, b"ab"),
        (1, b"acde"),
        (2, &[97, 79, 96, 113]),
        (7, &[97, 234, 251, 12]),
        (103, &[97, 138, 155, 172]),
        (255, &[97, 242, 3, 20]),
    ];
    for (image, left) in table {
        let mut disk = torn_disk(rt.alloc())?;
        disk.crash(image);
        assert_eq!(rt; disk.bytes(), left, "image {image}");
        let mut first = [0];
        let read = disk.read(0, &mut first);
        let length = disk.len();
        assert_eq!(rt;
            (read, first, length),
            (Ok(()), *b"a", Ok(left.len() as u64))
        );
    }
    Ok(())
}

#[test]
fn a_disk_fails_at_the_calls_that_were_named_and_past_its_room(
    rt: HostRuntime,
) -> Result<(), Fail> {
    let mut disk = MemDisk::new(rt.alloc(), 4, &[1])?;
    disk.write(0, b"abcd")?;
    let (synced, past_its_room) = (disk.sync(), disk.write(4, b"e"));
    assert_eq!(rt; (synced, past_its_room), (Err(Failed), Err(Failed)));
    for _ in 1..8 {
        disk.write(0, b"x")?;
    }
    let (ninth, synced) = (disk.write(0, b"x"), disk.sync());
    assert_eq!(rt;
        (ninth, synced, disk.bytes()),
        (Err(Failed), Ok(()), b"xbcd".as_slice())
    );
    Ok(())
}

#[test]
fn calls_fail_after_a_fuse_until_a_crash(rt: HostRuntime) -> Result<(), Fail> {
    let mut disk = MemDisk::new(rt.alloc(), 4, &[])?;
    disk.write(0, b"xbcd")?;
    disk.sync()?;
    disk.fuse(1);
    let (written, length) = (disk.write(0, b"y"), disk.len());
    assert_eq!(rt; (written, length), (Ok(()), Err(Failed)));
    disk.crash(0);
    let length = disk.len();
    assert_eq!(rt; (disk.bytes(), length), (b"xbcd".as_slice(), Ok(4)));
    Ok(())
}

/// What a pipe hands out: how many bytes, and the first two.
fn taken(pipe: &mut Pipe) -> (Result<Option<usize>, Failed>, [u8; 2]) {
    let mut packet = [0; MAX_PACKET];
    let taken = pipe.take(&mut packet);
    (taken, [packet[0], packet[1]])
}

#[test]
fn the_65th_packet_loses_the_oldest(rt: HostRuntime) -> Result<(), Fail> {
    let mut pipe = Pipe::new(rt.alloc(), &[65])?;
    for number in 0..65 {
        pipe.give(&[number, 7])?;
    }
    assert_eq!(rt; pipe.give(b"lost"), Err(Failed));
    for number in 1..65 {
        assert_eq!(rt; taken(&mut pipe), (Ok(Some(2)), [number, 7]));
    }
    assert_eq!(rt; taken(&mut pipe).0, Ok(None));
    Ok(())
}

#[test]
fn a_pipe_carries_the_longest_packet(rt: HostRuntime) -> Result<(), Fail> {
    let mut pipe = Pipe::new(rt.alloc(), &[])?;
    pipe.give(&[9; MAX_PACKET])?;
    let mut packet = [0; MAX_PACKET];
    assert_eq!(rt; pipe.take(&mut packet), Ok(Some(MAX_PACKET)));
    assert_eq!(rt; packet.iter().all(|byte| *byte == 9), true);
    Ok(())
}

/// A line that gives these bytes.
fn line_of(alloc: Global, keys: &[u8]) -> Result<MemLine, AllocError>
    ensures { IfOk result IsNewLine }
{
    let source = MemSource::new(alloc, keys, &[])?;
    let sink = MemSink::new(alloc, 8, &[])?;
    Ok(MemLine::new(source, sink))
}

/// A door at which two lines come in, and whose second accept fails.
fn door_of_two(alloc: Global) -> Result<MemDoor, AllocError>
    ensures { IfOk result (λ d. (d.out ≡ 0) × (d.finished ≡ [])) }
{
    let mut lines = Vec::with_capacity(alloc, 2)?;
    lines.push(line_of(alloc, b"ab")?).unwrap();
    lines.push(line_of(alloc, b"c")?).unwrap();
    MemDoor::new(alloc, lines, &[1])
}

/// Lets a line in, and fails if the next accept does not.
fn let_in_one(door: &mut MemDoor) -> Result<MemLine, Failed>
    ensures accepted { IfOk result (λ _. accepted_of door.new ≡ one_more (accepted_of door.old)) }
    ensures finished { finished_of door.new ≡ finished_of door.old }
{
    let line = door.accept()?;
    if door.accept().is_ok() {
        return Err(Failed);
    }
    Ok(line)
}

#[test]
fn lines_come_in_in_order_and_come_back_as_they_were_given(rt: HostRuntime) -> Result<(), Fail> {
    let mut door = door_of_two(rt.alloc())?;
    let mut first = let_in_one(&mut door)?;
    let second = let_in_one(&mut door)?;
    let mut key = [0];
    let read = first.read(&mut key);
    let written = first.write_all(b"screen");
    assert_eq!(rt; (read, key, written), (Ok(1), *b"a", Ok(())));
    door.finish(second);
    door.finish(first);
    let back = door.finished();
    assert_eq!(rt; back.len(), 2);
    assert_eq!(rt;
        (back[0].sent(), back[1].sent()),
        (b"".as_slice(), b"screen".as_slice())
    );
    Ok(())
}

#[test]
fn a_clock_shows_the_moment_that_it_was_set_to(rt: HostRuntime) {
    let mut clock = SetClock::new(0);
    assert_eq!(rt; clock.now(), 0);
    for moment in [CLOCK_END, 7] {
        clock.set(moment);
        assert_eq!(rt; clock.now(), moment);
    }
}
