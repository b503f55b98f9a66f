ghost use Rattle.std.specs.Prelude.{◌≡◌, ◌≤◌, ⊤, false, [], Option, None, IsErr, IsTrue, IfOk, OnOk, OnErr, is_err};
ghost use Rattle.std.proofs.Common.{inl, arith};
ghost use Rattle.pv_outside.specs.Calls.{WritesNothing, WritesAt};
ghost use Rattle.pv_outside.specs.Counts.{Rose};
ghost use Rattle.pv_outside.specs.Disk.{budget_after_call, budget_after_sync};
ghost use Rattle.pv_outside.specs.declared.failed.TheConstants.{COUNT_END};

use crate::ahead::{AHEAD, Ahead};
use crate::fault::{FileFault, OpenFault};
use crate::folder::sync_folder_of;
use pv_outside::{Disk, Reports};
use std::alloc::Global;
use std::fs::{File, Files, OpenFile, OpenOptions, TryLockError};
use std::io::{self, ErrorKind};
use std::os::unix::fs::FileExt;

/// A disk whose bytes are in a file. It reports none of them.
///
/// It reads a large piece at a time, and writes in place. A sync puts the data alone on the disk if the
/// length of the file is the one that the last sync put there. Once a sync has failed, each further call
/// fails: the system may have dropped what was to be synced, and a later sync could hide that.
#[derive(Drop)]
pub struct FileDisk<F: FileExt + OpenFile + Drop> {
    file: F,
    ahead: Ahead,
    synced_length: Option<u64>,
    is_lost: bool,
    faults: u64,
}

impl<F: FileExt + OpenFile + Drop> FileDisk<F> {
    /// A disk in this file, of which the length is not known to be on the disk.
    pub fn of(alloc: Global, file: F) -> Result<FileDisk<F>, OpenFault>
        ensures faults { IfOk result (λ d. d.faults ≡ 0) }
        ensures lost { IfOk result (λ d. d.is_lost ≡ false) }
    {
        let Ok(ahead) = Ahead::new(alloc) else {
            return Err(OpenFault::Memory);
        };
        Ok(FileDisk {
            file,
            ahead,
            synced_length: None,
            is_lost: false,
            faults: 0,
        })
    }

    /// Counts a fault, and returns it.
    fn count(&mut self, fault: FileFault) -> FileFault
        ensures fault { result ≡ fault }
        ensures rose { Rose self.old.faults self.new.faults }
        ensures counted { self.old.faults ≤ self.new.faults }
        ensures lost { self.new.is_lost ≡ self.old.is_lost }
    {
        self.faults = self.faults.saturating_add(1);
        fault
    }

    /// Begins a call. None is made once a sync has failed.
    fn begin(&mut self) -> Result<(), FileFault>
        ensures failed { IsErr result → Rose self.old.faults self.new.faults }
        ensures counted { self.old.faults ≤ self.new.faults }
        ensures steady { OnOk result (self.new.faults ≡ self.old.faults) }

        // It fails exactly if the disk is lost, and that stays as it was.
        ensures fails { is_err result ≡ self.old.is_lost }
        ensures lost { self.new.is_lost ≡ self.old.is_lost }
    {
        if self.is_lost {
            return Err(self.count(FileFault::Lost));
        }
        Ok(())
    }

    /// Reads all of these bytes, from a piece if they fit into one.
    fn read_whole(&mut self, at: u64, into: &mut [u8]) -> io::Result<()>
        ensures faults { self.new.faults ≡ self.old.faults }
        ensures lost { self.new.is_lost ≡ self.old.is_lost }
    {
        if into.len() <= AHEAD {
            if self.ahead.copy(at, into) {
                return Ok(());
            }
            self.ahead.fill(&self.file, at)?;
            if self.ahead.copy(at, into) {
                return Ok(());
            }
        }
        self.file.read_exact_at(into, at)
    }

    /// Writes all of these bytes. The piece is from before them.
    fn write_whole(&mut self, at: u64, bytes: &[u8]) -> io::Result<()>
        ensures faults { self.new.faults ≡ self.old.faults }
        ensures lost { self.new.is_lost ≡ self.old.is_lost }
        ensures forgets { self.new.ahead.bytes ≡ [] }
    {
        self.ahead.forget();
        self.file.write_all_at(bytes, at)
    }

    /// Puts what was written on the disk. Once that has failed the disk is lost.
    fn sync_once(&mut self) -> io::Result<()>
        ensures faults { self.new.faults ≡ self.old.faults }
        ensures lost { OnErr result (IsTrue self.new.is_lost) }
        ensures kept { OnOk result (self.new.is_lost ≡ self.old.is_lost) }
    {
        let answer = self.sync_file();
        if answer.is_err() {
            self.is_lost = true;
        }
        answer
    }

    /// Puts the data on the disk, and the length too if it is not known to be there.
    fn sync_file(&mut self) -> io::Result<()>
        ensures faults { self.new.faults ≡ self.old.faults }
        ensures lost { self.new.is_lost ≡ self.old.is_lost }
    {
        let length = self.file.metadata()?.len();
        if self.synced_length == Some(length) {
            return self.file.sync_data();
        }
        self.file.sync_all()?;
        self.synced_length = Some(length);
        Ok(())
    }
}

impl FileDisk<File> {
    /// Opens the disk in this file, which must be there, and locks it: a file is in one disk at a time.
    pub fn open<R: Files<File = File>>(
        rt: &R,
        alloc: Global,
        path: &str,
    ) -> Result<FileDisk<File>, OpenFault>
        ensures faults { IfOk result (λ d. d.faults ≡ 0) }
        ensures lost { IfOk result (λ d. d.is_lost ≡ false) }
    {
        FileDisk::of(alloc, open_file(rt, path)?)
    }

    /// Makes the disk in this file new and empty, whether the file is there or not, locks it, and puts the
    /// file's name on the disk of the machine. A file that is in use is left as it is.
    pub fn create<R: Files<File = File>>(
        rt: &R,
        alloc: Global,
        path: &str,
    ) -> Result<FileDisk<File>, OpenFault>
        ensures faults { IfOk result (λ d. d.faults ≡ 0) }
        ensures lost { IfOk result (λ d. d.is_lost ≡ false) }
    {
        let file = open_locked(rt, path, true)?;
        // It is emptied under the lock only, since another disk may have been in it.
        file.set_len(0).map_err(OpenFault::File)?;
        sync_folder_of(rt, path).map_err(OpenFault::File)?;
        FileDisk::of(alloc, file)
    }
}

/// Opens a file, which must be there, to read and write, and locks it.
pub fn open_file<R: Files<File = File>>(rt: &R, path: &str) -> Result<File, OpenFault> {
    open_locked(rt, path, false)
}

/// Opens a file to read and write, and locks it. If it is not there it may be made.
fn open_locked<R: Files<File = File>>(
    rt: &R,
    path: &str,
    may_be_made: bool,
) -> Result<File, OpenFault> {
    let mut options = OpenOptions::new();
    options.read(true).write(true).create(may_be_made);
    let file = options.open(rt, path).map_err(OpenFault::File)?;
    match file.try_lock() {
        Ok(()) => Ok(file),
        Err(TryLockError::WouldBlock) => Err(OpenFault::InUse),
        Err(TryLockError::Error(error)) => Err(OpenFault::File(error)),
    }
}

/// What a read came to, with a fault of its own for a file that is too short.
fn read_fault(error: io::Error) -> FileFault {
    match error.kind() {
        ErrorKind::UnexpectedEof => FileFault::Short,
        _ => FileFault::Read(error),
    }
}

impl<F: FileExt + OpenFile + Drop> Reports for FileDisk<F> {
    ghost reads = { λ _. None };

    ghost may_leave = { λ _ _. ⊤ };

    ghost clock = { λ _. COUNT_END };

    ghost left_since = { λ _ _ _. ⊤ };

    ghost has_forgotten = { λ _ _. ⊤ };

    ghost budget = { λ _. None };

    ghost faults = { λ d. d.faults };
}

impl<F: FileExt + OpenFile + Drop> Disk for FileDisk<F> {
    type Failure = FileFault;

    ghost reads_is_left = { λ _. tt };

    ghost now_counts = { λ _ _ _ _ _. tt };

    ghost only_now = { λ _ _ _. inl tt };

    ghost now_is_known = { λ _ _. omega arith };

    ghost any_if_forgotten = { λ _ _ _ _. tt };

    fn len(&mut self) -> Result<u64, FileFault>
        ensures keeps { WritesNothing ⟦<FileDisk<F> as Reports>⟧ budget_after_call self.old self.new result }

        // A lost disk fails, and stays lost. No other is lost by this.
        ensures lost { IsTrue self.old.is_lost → IsErr result }
        ensures stays { self.new.is_lost ≡ self.old.is_lost }
    {
        self.begin()?;
        match self.file.metadata() {
            Ok(attributes) => Ok(attributes.len()),
            Err(error) => Err(self.count(FileFault::Length(error))),
        }
    }

    fn read(&mut self, at: u64, into: &mut [u8]) -> Result<(), FileFault>
        ensures keeps { WritesNothing ⟦<FileDisk<F> as Reports>⟧ budget_after_call self.old self.new result }

        // A lost disk fails, and stays lost. No other is lost by this.
        ensures lost { IsTrue self.old.is_lost → IsErr result }
        ensures stays { self.new.is_lost ≡ self.old.is_lost }
    {
        self.begin()?;
        match self.read_whole(at, into) {
            Ok(()) => Ok(()),
            Err(error) => Err(self.count(read_fault(error))),
        }
    }

    fn write(&mut self, at: u64, bytes: &[u8]) -> Result<(), FileFault>
        ensures writes { WritesAt ⟦<FileDisk<F> as Reports>⟧ at bytes.now self.old self.new result }

        // A lost disk fails, and stays lost. No other is lost by this.
        ensures lost { IsTrue self.old.is_lost → IsErr result }
        ensures stays { self.new.is_lost ≡ self.old.is_lost }
    {
        self.begin()?;
        match self.write_whole(at, bytes) {
            Ok(()) => Ok(()),
            Err(error) => Err(self.count(FileFault::Write(error))),
        }
    }

    fn sync(&mut self) -> Result<(), FileFault>
        ensures keeps { WritesNothing ⟦<FileDisk<F> as Reports>⟧ budget_after_sync self.old self.new result }

        // A lost disk fails. One is lost exactly if its sync failed.
        ensures lost { IsTrue self.old.is_lost → IsErr result }
        ensures stays { self.new.is_lost ≡ is_err result }
    {
        self.begin()?;
        match self.sync_once() {
            Ok(()) => Ok(()),
            Err(error) => Err(self.count(FileFault::Sync(error))),
        }
    }
}
