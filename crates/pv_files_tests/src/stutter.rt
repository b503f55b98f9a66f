//! Disks over a file that counts what is asked of it, and may take few bytes at a time, be interrupted or fail.
use pv_files::{FileDisk, FileFault};
use pv_outside::Disk;
use std::cell::Cell;
use std::fs::{self, File, Metadata, OpenFile};
use std::io::{self, ErrorKind};
use std::os::unix::fs::FileExt;
use std::test::Fail;

/// What was asked of a file.
#[derive(Drop)]
struct Calls {
    all: Cell<u64>,
    reads: Cell<u64>,
    whole_syncs: Cell<u64>,
    data_syncs: Cell<u64>,
}

impl Calls {
    fn new() -> Calls {
        Calls {
            all: Cell::new(0),
            reads: Cell::new(0),
            whole_syncs: Cell::new(0),
            data_syncs: Cell::new(0),
        }
    }
}

/// Counts one more.
fn count(calls: &Cell<u64>) -> u64 {
    calls.set(calls.get().wrapping_add(1));
    calls.get()
}

/// A file of which a call takes this many bytes at most, and each other call may be interrupted.
#[derive(Drop)]
struct Stutter<'a> {
    file: File,
    calls: &'a Calls,
    most: usize,
    is_interrupted: bool,
    syncs_fail: bool,
}

impl<'a> Stutter<'a> {
    fn begin(&self) -> io::Result<()> {
        if self.is_interrupted && count(&self.calls.all) % 2 == 1 {
            return Err(ErrorKind::Interrupted.into());
        }
        Ok(())
    }

    fn sync(&self, calls: &Cell<u64>) -> io::Result<()> {
        count(calls);
        if self.syncs_fail {
            return Err(ErrorKind::Other.into());
        }
        Ok(())
    }
}

impl<'a> FileExt for Stutter<'a> {
    fn read_at(&self, into: &mut [u8], at: u64) -> io::Result<usize> {
        self.begin()?;
        count(&self.calls.reads);
        let size = into.len().min(self.most);
        self.file.read_at(&mut into[..size], at)
    }

    fn write_at(&self, bytes: &[u8], at: u64) -> io::Result<usize> {
        self.begin()?;
        self.file.write_at(&bytes[..bytes.len().min(self.most)], at)
    }
}

impl<'a> OpenFile for Stutter<'a> {
    fn metadata(&self) -> io::Result<Metadata> {
        self.file.metadata()
    }

    fn set_len(&self, size: u64) -> io::Result<()> {
        self.file.set_len(size)
    }

    fn sync_all(&self) -> io::Result<()> {
        self.sync(&self.calls.whole_syncs)
    }

    fn sync_data(&self) -> io::Result<()> {
        self.sync(&self.calls.data_syncs)
    }
}

/// A file of this name that takes all bytes at once, and is never interrupted.
fn smooth<'a>(rt: &HostRuntime, calls: &'a Calls, path: &str) -> io::Result<Stutter<'a>> {
    let mut options = File::options();
    options.read(true).write(true).create(true).truncate(true);
    Ok(Stutter {
        file: options.open(rt, path)?,
        calls,
        most: usize::MAX,
        is_interrupted: false,
        syncs_fail: false,
    })
}

#[test]
fn short_and_interrupted_calls_go_on(rt: HostRuntime) -> Result<(), Fail> {
    let calls = Calls::new();
    let mut file = smooth(&rt, &calls, "stutter.pv")?;
    file.most = 3;
    file.is_interrupted = true;
    let mut disk = FileDisk::of(rt.alloc(), file)?;
    disk.write(0, b"0123456789")?;
    let mut bytes = [0; 8];
    disk.read(1, &mut bytes)?;
    assert_eq!(rt; &bytes, b"12345678");
    fs::remove_file(&rt, "stutter.pv")?;
    Ok(())
}

/// Writes 250 pieces of 100 bytes, each of its number.
fn write_pieces(disk: &mut FileDisk<Stutter>) -> Result<(), FileFault> {
    for number in 0..250u8 {
        disk.write(u64::from(number) * 100, &[number; 100])?;
    }
    Ok(())
}

/// Whether each piece is read as it was written.
fn has_pieces(disk: &mut FileDisk<Stutter>) -> Result<bool, FileFault> {
    for number in 0..250u8 {
        let mut bytes = [0; 100];
        disk.read(u64::from(number) * 100, &mut bytes)?;
        if bytes != [number; 100] {
            return Ok(false);
        }
    }
    Ok(true)
}

#[test]
fn one_call_of_the_system_serves_many_reads(rt: HostRuntime) -> Result<(), Fail> {
    let calls = Calls::new();
    let mut disk = FileDisk::of(rt.alloc(), smooth(&rt, &calls, "pieces.pv")?)?;
    write_pieces(&mut disk)?;
    assert!(rt; has_pieces(&mut disk)?);
    assert_eq!(rt; calls.reads.get(), 1);
    fs::remove_file(&rt, "pieces.pv")?;
    Ok(())
}

/// Writes the bytes at this place, and syncs.
fn write_and_sync(disk: &mut FileDisk<Stutter>, at: u64, bytes: &[u8]) -> Result<(), FileFault> {
    disk.write(at, bytes)?;
    disk.sync()
}

#[test]
fn the_length_is_synced_when_it_has_changed(rt: HostRuntime) -> Result<(), Fail> {
    let calls = Calls::new();
    let mut disk = FileDisk::of(rt.alloc(), smooth(&rt, &calls, "length.pv")?)?;
    for (at, whole, data) in [(0, 1, 0), (0, 1, 1), (1, 2, 1), (0, 2, 2)] {
        write_and_sync(&mut disk, at, b"ab")?;
        assert_eq!(rt;
            (calls.whole_syncs.get(), calls.data_syncs.get()),
            (whole, data)
        );
    }
    fs::remove_file(&rt, "length.pv")?;
    Ok(())
}

/// Whether a sync, a write and a look at the length fail, since the disk is lost.
fn is_lost(disk: &mut FileDisk<Stutter>) -> [bool; 3] {
    [
        matches!(disk.sync(), Err(FileFault::Lost)),
        matches!(disk.write(0, b"a"), Err(FileFault::Lost)),
        matches!(disk.len(), Err(FileFault::Lost)),
    ]
}

#[test]
fn nothing_is_done_after_a_sync_that_failed(rt: HostRuntime) -> Result<(), Fail> {
    let calls = Calls::new();
    let mut file = smooth(&rt, &calls, "lost.pv")?;
    file.syncs_fail = true;
    let mut disk = FileDisk::of(rt.alloc(), file)?;
    let first = write_and_sync(&mut disk, 0, b"a");
    assert!(rt; matches!(first, Err(FileFault::Sync(_))));
    assert_eq!(rt;
        (is_lost(&mut disk), calls.whole_syncs.get()),
        ([true; 3], 1)
    );
    fs::remove_file(&rt, "lost.pv")?;
    Ok(())
}
