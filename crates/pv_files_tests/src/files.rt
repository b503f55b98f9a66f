//! Disks in real files.
use pv_files::{FileDisk, FileFault, OpenFault};
use pv_outside::Disk;
use std::fs::{self, File};
use std::io::{self, ErrorKind};
use std::test::Fail;

/// A disk in a new file, in which these bytes were written at these places and synced.
fn filled(rt: &HostRuntime, path: &str, parts: &[(u64, &[u8])]) -> Result<FileDisk<File>, Fail> {
    let mut disk = FileDisk::create(rt, rt.alloc(), path)?;
    for (at, bytes) in parts {
        disk.write(*at, bytes)?;
    }
    disk.sync()?;
    Ok(disk)
}

/// How many bytes the disk in this file has.
fn length_of(rt: &HostRuntime, path: &str) -> Result<u64, Fail> {
    let mut disk = FileDisk::open(rt, rt.alloc(), path)?;
    Ok(disk.len()?)
}

#[test]
fn a_file_has_what_was_written_when_it_is_opened_again(rt: HostRuntime) -> Result<(), Fail> {
    drop(filled(&rt, "again.pv", &[(0, b"PVJOURN1"), (7, b"2..")])?);
    assert_eq!(rt; length_of(&rt, "again.pv")?, 10);
    let mut bytes = [0; 10];
    FileDisk::open(&rt, rt.alloc(), "again.pv")?.read(0, &mut bytes)?;
    assert_eq!(rt; &bytes, b"PVJOURN2..");
    fs::remove_file(&rt, "again.pv")?;
    Ok(())
}

#[test]
fn a_file_that_is_made_new_is_empty(rt: HostRuntime) -> Result<(), Fail> {
    drop(filled(&rt, "new.pv", &[(0, b"PVJOURN1")])?);
    let mut disk = FileDisk::create(&rt, rt.alloc(), "new.pv")?;
    assert_eq!(rt; disk.len()?, 0);
    fs::remove_file(&rt, "new.pv")?;
    Ok(())
}

/// Whether a file can be neither opened nor made new, since it is in a disk.
fn is_in_use(rt: &HostRuntime, path: &str) -> (bool, bool) {
    let opened = FileDisk::open(rt, rt.alloc(), path).err();
    let made = FileDisk::create(rt, rt.alloc(), path).err();
    (
        matches!(opened, Some(OpenFault::InUse)),
        matches!(made, Some(OpenFault::InUse)),
    )
}

#[test]
fn a_file_is_in_one_disk_at_a_time(rt: HostRuntime) -> Result<(), Fail> {
    let mut disk = filled(&rt, "lock.pv", &[(0, b"PVJOURN1")])?;
    let is_in_use = is_in_use(&rt, "lock.pv");
    assert_eq!(rt; (is_in_use, disk.len()?), ((true, true), 8));
    drop(disk);
    assert_eq!(rt; length_of(&rt, "lock.pv")?, 8);
    fs::remove_file(&rt, "lock.pv")?;
    Ok(())
}

/// The words of the fault of opening a file.
fn fault_of_opening(rt: &HostRuntime, path: &str) -> Result<String, Fail> {
    let opened = FileDisk::open(rt, rt.alloc(), path);
    let fault = opened.err().ok_or("it was opened")?;
    Ok(format!(in rt.alloc(); "{fault}")?)
}

#[test]
fn what_is_no_file_is_refused_with_the_words_of_the_system(rt: HostRuntime) -> Result<(), Fail> {
    fs::create_dir(&rt, "folder")?;
    for (path, words) in [
        (
            "folder",
            "the file could not be opened: Is a directory (os error 21)",
        ),
        (
            "missing.pv",
            "the file could not be opened: No such file or directory (os error 2)",
        ),
    ] {
        assert_eq!(rt; fault_of_opening(&rt, path)?.as_str(), words);
    }
    fs::remove_dir(&rt, "folder")?;
    Ok(())
}

/// Makes a file that nobody may write.
fn make_closed(rt: &HostRuntime, path: &str) -> io::Result<()> {
    let file = File::create(rt, path)?;
    let mut rights = file.metadata()?.permissions();
    rights.set_readonly(true);
    file.set_permissions(rights)
}

#[test]
fn a_file_without_rights_is_refused_or_its_owner_may_do_all(rt: HostRuntime) -> Result<(), Fail> {
    make_closed(&rt, "closed.pv")?;
    let is_right = match FileDisk::open(&rt, rt.alloc(), "closed.pv") {
        Ok(_) => true,
        Err(OpenFault::File(error)) => error.kind() == ErrorKind::PermissionDenied,
        Err(OpenFault::Memory | OpenFault::InUse) => false,
    };
    assert!(rt; is_right);
    fs::remove_file(&rt, "closed.pv")?;
    Ok(())
}

#[test]
fn a_full_device_is_a_write_fault(rt: HostRuntime) -> Result<(), Fail> {
    let mut disk = FileDisk::open(&rt, rt.alloc(), "/dev/full")?;
    let fault = disk.write(0, b"a").err().ok_or("it is full")?;
    let words = format!(in rt.alloc(); "{fault}")?;
    assert_eq!(rt;
        words.as_str(),
        "the file could not be written: No space left on device (os error 28)"
    );
    Ok(())
}

/// Cuts a file to this length.
fn cut(rt: &HostRuntime, path: &str, length: u64) -> io::Result<()> {
    let file = File::options().write(true).open(rt, path)?;
    file.set_len(length)
}

#[test]
fn a_file_that_was_cut_short_is_a_fault(rt: HostRuntime) -> Result<(), Fail> {
    let mut disk = filled(&rt, "short.pv", &[(0, &[7; 100])])?;
    cut(&rt, "short.pv", 10)?;
    assert_eq!(rt; disk.len()?, 10);
    let read = disk.read(50, &mut [0; 20]);
    assert!(rt; matches!(read, Err(FileFault::Short)));
    fs::remove_file(&rt, "short.pv")?;
    Ok(())
}
