ghost use Rattle.std.specs.Prelude.{◌<◌, ◌≤◌, IfOk};
ghost use Rattle.pv_journal.specs.Log.{IsAtRest};
ghost use Rattle.pv_journal.specs.Text.{IsBody};

use pv_journal::{AppendFault, Batch, Journal, MAX_BODY, MAX_WRITE, OpenFault, format};
use pv_memory::MemDisk;
use pv_outside::{Disk, Failed, Fused, Limits};
use std::alloc::{AllocError, Global};
use std::test::Fail;

/// A fault of opening a disk in memory.
type Fault = OpenFault<MemDisk>;

const LIMITS: Limits = Limits {
    frames: 1,
    records: 3,
};

/// A journal without bodies.
const NONE: &[u8] = b"PVJOURN1\x00";

/// A journal with one body.
const ONE: &[u8] = b"PVJOURN1\x01\x00\x02AB\x00";

/// A journal with three bodies.
const THREE: &[u8] = b"PVJOURN1\x01\x00\x01A\x01\x00\x02BC\x01\x00\x03DEF\x00";

/// A disk of these bytes, all of them synced, of which the calls of these numbers fail: the first two
/// were made.
fn disk_of(alloc: Global, bytes: &[u8], fails: &[u64]) -> Result<MemDisk, Fail> {
    let mut disk = MemDisk::new(alloc, 10_000, fails)?;
    disk.write(0, bytes)?;
    disk.sync()?;
    Ok(disk)
}

/// Reads the bodies of a journal, and puts a `.` after each.
fn read_into(journal: &mut Journal<MemDisk>, bodies: &mut Vec<u8>) -> Result<Option<Fault>, Fail> {
    let mut body = [0; MAX_BODY];
    for _ in 0..4 {
        match journal.next(&mut body) {
            Ok(Some(size)) => {
                bodies.extend_from_slice(&body[..size])?;
                bodies.push(b'.')?;
            }
            Ok(None) => break,
            Err(fault) => return Ok(Some(fault)),
        }
    }
    Ok(None)
}

/// The bodies on a disk, each with a `.` after it, and the fault that the reading ends with.
fn reading_of(alloc: Global, disk: MemDisk) -> Result<(Vec<u8>, Option<Fault>), Fail> {
    let mut bodies = Vec::new(alloc);
    let mut journal = match Journal::start(disk, LIMITS) {
        Ok(journal) => journal,
        Err((fault, _)) => return Ok((bodies, Some(fault))),
    };
    let fault = read_into(&mut journal, &mut bodies)?;
    Ok((bodies, fault))
}

/// The bodies on a disk that is a journal.
fn bodies_of(alloc: Global, disk: MemDisk) -> Result<Vec<u8>, Fail> {
    let (bodies, fault) = reading_of(alloc, disk)?;
    if fault.is_some() {
        return Err("not read".into());
    }
    Ok(bodies)
}

/// The fault of reading a disk of these bytes.
fn fault_of(alloc: Global, bytes: &[u8]) -> Result<Option<Fault>, Fail> {
    let (_, fault) = reading_of(alloc, disk_of(alloc, bytes, &[])?)?;
    Ok(fault)
}

/// A journal at rest, over a disk of which four calls were made in opening it.
fn open(disk: MemDisk) -> Result<Journal<MemDisk>, Fail>
    ensures { IfOk result IsAtRest }
{
    let Ok(mut journal) = Journal::start(disk, LIMITS) else {
        return Err("not started".into());
    };
    let mut body = [0; MAX_BODY];
    let Ok(None) = journal.next(&mut body) else {
        return Err("not empty".into());
    };
    Ok(journal)
}

/// A disk that was formatted.
fn formatted(alloc: Global) -> Result<MemDisk, Fail> {
    let mut disk = MemDisk::new(alloc, 10_000, &[])?;
    format(&mut disk)?;
    Ok(disk)
}

#[test]
fn a_body_is_appended_to_a_formatted_disk(rt: HostRuntime) -> Result<(), Fail> {
    let disk = formatted(rt.alloc())?;
    assert_eq!(rt; disk.bytes(), NONE);
    let mut journal = open(disk)?;
    let place = journal.append(b"AB");
    assert_eq!(rt; (place, journal.count()), (Ok(0), 1));
    assert_eq!(rt; journal.into_disk().bytes(), ONE);
    Ok(())
}

/// What a format leaves that is done again after the first one stopped after `calls` calls and left this image.
fn formatted_again(alloc: Global, calls: u32, image: u8) -> Result<MemDisk, Fail> {
    let mut disk = disk_of(alloc, ONE, &[])?;
    disk.fuse(calls);
    if format(&mut disk).is_ok() {
        return Err("it did not stop".into());
    }
    disk.crash(image);
    format(&mut disk)?;
    Ok(disk)
}

#[test]
fn a_format_that_failed_is_done_again(rt: HostRuntime) -> Result<(), Fail> {
    for calls in 0..3 {
        for image in [0, 1, 2, 7, 103, 255] {
            let disk = formatted_again(rt.alloc(), calls, image)?;
            assert!(rt;
                disk.bytes().starts_with(NONE),
                "image {image} after {calls} calls"
            );
            assert_eq!(rt; bodies_of(rt.alloc(), disk)?.len(), 0);
        }
    }
    Ok(())
}

#[test]
fn bytes_that_are_no_journal_are_refused(rt: HostRuntime) -> Result<(), Fail> {
    let four = b"PVJOURN1\x01\x00\x01A\x01\x00\x01B\x01\x00\x01C\x01\x00\x01D\x00";
    let long = b"PVJOURN1\x01\x08\x01A";
    let table: [(&[u8], Fault); 7] = [
        (&[0; 9], Fault::NotFormatted([0; 8])),
        (b"PVJOURN", Fault::NotFormatted(*b"PVJOURN\x00")),
        (b"PVJOURN2\x00", Fault::NotFormatted(*b"PVJOURN2")),
        (b"PVJOURN1", Fault::Broken { at: 8 }),
        (b"PVJOURN1\x01\x00\x00", Fault::Broken { at: 8 }),
        (long, Fault::Broken { at: 8 }),
        (four, Fault::TooMany { count: 3 }),
    ];
    for (bytes, fault) in table {
        assert_eq!(rt; fault_of(rt.alloc(), bytes)?, Some(fault));
    }
    Ok(())
}

/// The fault of a prefix of `THREE` that has this length, and these bytes if it is shorter than the mark.
fn fault_after(length: usize, filled: [u8; 8]) -> Fault {
    match length {
        0..8 => Fault::NotFormatted(filled),
        8..12 => Fault::Broken { at: 8 },
        12..17 => Fault::Broken { at: 12 },
        17..23 => Fault::Broken { at: 17 },
        _ => Fault::Broken { at: 23 },
    }
}

#[test]
fn each_prefix_of_a_journal_is_read_as_far_as_it_goes(rt: HostRuntime) -> Result<(), Fail> {
    let mut filled = [0; 8];
    for length in 0..THREE.len() {
        let fault = fault_of(rt.alloc(), &THREE[..length])?;
        assert_eq!(rt; fault, Some(fault_after(length, filled)), "{length} bytes");
        if length < 8 {
            filled[length] = THREE[length];
        }
    }
    let bodies = bodies_of(rt.alloc(), disk_of(rt.alloc(), THREE, &[])?)?;
    assert_eq!(rt; bodies.as_slice(), b"A.BC.DEF.".as_slice());
    Ok(())
}

/// What is read of [`ONE`] with another byte at a place: the bodies, each with a `.` after it, and the fault.
fn reading_with(alloc: Global, at: usize, byte: u8) -> Result<(Vec<u8>, Option<Fault>), Fail> {
    let mut bytes = Vec::from_slice(alloc, ONE)?;
    change(&mut bytes, at, byte);
    reading_of(alloc, disk_of(alloc, &bytes, &[])?)
}

/// Puts another byte at a place. A place past the end is left alone.
fn change(bytes: &mut [u8], at: usize, byte: u8) {
    if let Some(changed) = bytes.get_mut(at) {
        *changed = byte;
    }
}

/// The mark with another byte at a place.
fn mark_with(at: usize, byte: u8) -> [u8; 8] {
    let mut mark = *b"PVJOURN1";
    change(&mut mark, at, byte);
    mark
}

/// What is to be read of [`ONE`] with another byte at a place, by the part that the byte belongs to: the mark, the gate, the
/// length, the body, and the gate after it.
fn wanted_with(alloc: Global, at: usize, byte: u8) -> Result<(Vec<u8>, Option<Fault>), AllocError> {
    let none: &[u8] = b"";
    let first = [byte, b'B', b'.'];
    let second = [b'A', byte, b'.'];
    let (bodies, fault): (&[u8], Option<Fault>) = match (at, byte) {
        (0..8, _) => (none, Some(Fault::NotFormatted(mark_with(at, byte)))),
        // A gate that is not open is closed.
        (8, _) => (none, None),
        // The body is shorter, and the gate after it is closed; or it takes that gate in, and no byte comes after it.
        (10, 1) => (b"A.", None),
        (10, 3) => (b"AB\0.", Some(Fault::Broken { at: 14 })),
        (9..11, _) => (none, Some(Fault::Broken { at: 8 })),
        (11, _) => (&first, None),
        (12, _) => (&second, None),
        // The gate after it is open, with no body.
        (_, 1) => (b"AB.", Some(Fault::Broken { at: 13 })),
        (_, _) => (b"AB.", None),
    };
    Ok((Vec::from_slice(alloc, bodies)?, fault))
}

#[test]
fn each_other_byte_is_read_by_the_part_that_it_belongs_to(rt: HostRuntime) -> Result<(), Fail> {
    for at in 0..ONE.len() {
        for by in 1..=u8::MAX {
            let byte = ONE[at] ^ by;
            let read = reading_with(rt.alloc(), at, byte)?;
            let wanted = wanted_with(rt.alloc(), at, byte)?;
            assert_eq!(rt; read, wanted, "{byte} at {at}");
        }
    }
    Ok(())
}

/// A journal that has the body `AB` in hand, since this call of the disk failed.
fn with_one_in_hand(alloc: Global, failing: u64) -> Result<Journal<MemDisk>, Fail> {
    let mut journal = open(disk_of(alloc, NONE, &[failing])?)?;
    if journal.append(b"AB") != Err(AppendFault::Disk(Failed)) {
        return Err("it was appended".into());
    }
    // Nothing is read, and the body stays in hand.
    if journal.next(&mut [0; MAX_BODY]) != Ok(None) {
        return Err("it was read".into());
    }
    Ok(journal)
}

/// Whether the body in hand was stored.
fn settled(journal: &mut Journal<MemDisk>) -> Result<bool, Fail>
    ensures { IfOk result (λ _. IsAtRest journal.new) }
{
    let Some(is_stored) = journal.settle()? else {
        return Err("nothing was in hand".into());
    };
    Ok(is_stored)
}

/// Where a journal that goes on appends the body `CD`, and whether anything is in hand then.
fn gone_on(journal: &mut Journal<MemDisk>) -> Result<(u64, bool), Fail>
    requires { IsAtRest journal.old }
{
    let Ok(place) = journal.append(b"CD") else {
        return Err("it was not appended".into());
    };
    Ok((place, journal.settle()?.is_some()))
}

#[test]
fn settling_finds_what_the_disk_has(rt: HostRuntime) -> Result<(), Fail> {
    // The calls 6 to 9 are those of the append: two writes, each with its sync.
    let table: [(u64, bool, &[u8]); 4] = [
        (6, false, b"CD."),
        (7, false, b"CD."),
        (8, false, b"CD."),
        (9, true, b"AB.CD."),
    ];
    for (failing, stored, bodies) in table {
        let mut journal = with_one_in_hand(rt.alloc(), failing)?;
        let is_stored = settled(&mut journal)?;
        let count = journal.count();
        let gone_on = gone_on(&mut journal)?;
        assert_eq!(rt;
            (is_stored, count, gone_on),
            (stored, stored as u64, (stored as u64, false)),
            "call {failing} failed"
        );
        assert_eq!(rt;
            bodies_of(rt.alloc(), journal.into_disk())?.as_slice(),
            bodies
        );
    }
    Ok(())
}

/// The images that each stop is tried with.
const IMAGES: [u8; 16] = [0, 1, 2, 3, 4, 5, 7, 8, 15, 31, 64, 97, 103, 128, 200, 255];

#[test]
fn a_stop_leaves_the_list_before_or_the_list_with_the_body(rt: HostRuntime) -> Result<(), Fail> {
    // After three calls the gate at place 8 is written and not synced: it is 1 in the images 1 and 103 alone.
    for calls in 0..5 {
        for image in IMAGES {
            let bodies = after_stop(rt.alloc(), calls, image)?;
            let stored = calls == 4 || calls == 3 && (image == 1 || image == 103);
            let want: &[u8] = if stored { b"AB." } else { b"" };
            assert_eq!(rt;
                bodies.as_slice(),
                want,
                "image {image} after {calls} calls"
            );
        }
    }
    Ok(())
}

/// The bodies on the image that a stop after `calls` calls of an append leaves.
fn after_stop(alloc: Global, calls: u32, image: u8) -> Result<Vec<u8>, Fail> {
    let mut journal = open(disk_of(alloc, NONE, &[])?)?;
    journal.fuse(calls);
    let _ = journal.append(b"AB");
    let mut disk = journal.into_disk();
    disk.crash(image);
    bodies_of(alloc, disk)
}

/// A batch of the bodies of [`THREE`].
fn batch_of_three() -> Result<Batch, Fail>
    ensures { IfOk result (λ batch. 0 < batch.count) }
{
    let mut batch = Batch::new();
    if !batch.push(b"A") || !batch.push(b"BC") || !batch.push(b"DEF") {
        return Err("there was no room".into());
    }
    Ok(batch)
}

/// Appends one body.
fn append_one(journal: &mut Journal<MemDisk>, body: &[u8]) -> Result<(), Fail>
    requires at_rest { IsAtRest journal.old }
    requires size { IsBody body.now }
    ensures { IfOk result (λ _. IsAtRest journal.new) }
{
    if journal.append(body).is_err() {
        return Err("it was not appended".into());
    }
    Ok(())
}

/// A disk to which the bodies of [`THREE`] were appended one by one.
fn with_three(alloc: Global) -> Result<MemDisk, Fail> {
    let mut journal = open(disk_of(alloc, NONE, &[])?)?;
    append_one(&mut journal, b"A")?;
    append_one(&mut journal, b"BC")?;
    append_one(&mut journal, b"DEF")?;
    Ok(journal.into_disk())
}

#[test]
fn a_batch_is_appended_by_four_calls_as_its_bodies_are(rt: HostRuntime) -> Result<(), Fail> {
    let mut journal = open(disk_of(rt.alloc(), NONE, &[])?)?;
    journal.fuse(4);
    let place = journal.append_all(&batch_of_three()?);
    assert_eq!(rt; (place, journal.count()), (Ok(0), 3));
    let disks = (journal.into_disk(), with_three(rt.alloc())?);
    assert_eq!(rt; (disks.0.bytes(), disks.1.bytes()), (THREE, THREE));
    Ok(())
}

#[test]
fn a_stop_leaves_none_of_a_batch_or_all(rt: HostRuntime) -> Result<(), Fail> {
    // As with one body, the gate at place 8 is 1 after three calls in the images 1 and 103 alone.
    for calls in 0..5 {
        for image in IMAGES {
            let bodies = after_stop_in_a_batch(rt.alloc(), calls, image)?;
            let stored = calls == 4 || calls == 3 && (image == 1 || image == 103);
            let want: &[u8] = if stored { b"A.BC.DEF." } else { b"" };
            assert_eq!(rt;
                bodies.as_slice(),
                want,
                "image {image} after {calls} calls"
            );
        }
    }
    Ok(())
}

/// The bodies on the image that a stop after `calls` calls of an append of three leaves.
fn after_stop_in_a_batch(alloc: Global, calls: u32, image: u8) -> Result<Vec<u8>, Fail> {
    let mut journal = open(disk_of(alloc, NONE, &[])?)?;
    journal.fuse(calls);
    let _ = journal.append_all(&batch_of_three()?);
    let mut disk = journal.into_disk();
    disk.crash(image);
    bodies_of(alloc, disk)
}

/// A journal that has three bodies in hand, since this call of the disk failed.
fn with_three_in_hand(alloc: Global, failing: u64) -> Result<Journal<MemDisk>, Fail> {
    let mut journal = open(disk_of(alloc, NONE, &[failing])?)?;
    if journal.append_all(&batch_of_three()?) != Err(AppendFault::Disk(Failed)) {
        return Err("they were appended".into());
    }
    Ok(journal)
}

#[test]
fn a_batch_that_was_not_stored_is_appended_again(rt: HostRuntime) -> Result<(), Fail> {
    // The calls 6 to 9 are those of the append. If it is stored, there is no room for three more.
    for (failing, stored) in [(6, false), (7, false), (8, false), (9, true)] {
        let mut journal = with_three_in_hand(rt.alloc(), failing)?;
        let is_stored = settled(&mut journal)?;
        let again = journal.append_all(&batch_of_three()?);
        let wanted = if stored {
            Err(AppendFault::Full { count: 3 })
        } else {
            Ok(0)
        };
        assert_eq!(rt;
            (is_stored, again),
            (stored, wanted),
            "call {failing} failed"
        );
        assert_eq!(rt;
            bodies_of(rt.alloc(), journal.into_disk())?.as_slice(),
            b"A.BC.DEF.".as_slice()
        );
    }
    Ok(())
}

/// A batch with the longest body, and whether a second body of this size was taken too.
fn batch_with_second(size: usize) -> Result<(Batch, bool), Fail>
    requires { (0 < size) × (size ≤ 2048) }
    ensures { IfOk result (λ batch. 0 < batch.0.count) }
{
    let body = [b'A'; MAX_BODY];
    let mut batch = Batch::new();
    if !batch.push(&body) {
        return Err("there was no room".into());
    }
    let is_taken = batch.push(&body[..size]);
    Ok((batch, is_taken))
}

#[test]
fn a_batch_is_full_at_the_longest_write(rt: HostRuntime) -> Result<(), Fail> {
    // Two blocks have six bytes more than their bodies.
    let last = MAX_WRITE - MAX_BODY - 6;
    let (batch, is_taken) = batch_with_second(last + 1)?;
    assert_eq!(rt; (is_taken, batch.count()), (false, 1));
    let (batch, is_taken) = batch_with_second(last)?;
    let mut journal = open(disk_of(rt.alloc(), NONE, &[])?)?;
    let place = journal.append_all(&batch);
    let disk = journal.into_disk();
    let size = disk.bytes().len();
    let bodies = bodies_of(rt.alloc(), disk)?;
    assert_eq!(rt;
        (is_taken, place, size, bodies.len()),
        (true, Ok(0), NONE.len() + MAX_WRITE, MAX_BODY + last + 2)
    );
    Ok(())
}
