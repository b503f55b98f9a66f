//! A file and a disk in memory, of which the same calls are made.
ghost use Rattle.std.specs.Prelude.{◌≡◌, ◌+◌, ◌<◌, ◌≤◌, length, IfOk};

use pv_files::FileDisk;
use pv_memory::MemDisk;
use pv_outside::Disk;
use std::fs::{self, File};
use std::test::Fail;

/// The most bytes of a read or a write.
const MOST: usize = 200;

/// Numbers made by rule: a linear congruence.
#[derive(Drop)]
struct Numbers(u64);

impl Numbers {
    /// The next number below a bound.
    fn below(&mut self, bound: u64) -> u64
        requires { 0 < bound }
        ensures { result < bound }
    {
        self.0 = self.0.wrapping_mul(6_364_136_223_846_793_005);
        self.0 = self.0.wrapping_add(1_442_695_040_888_963_407);
        (self.0 >> 33) % bound
    }
}

/// A file and a disk in memory. Each call is made of both, and fails if they answer differently.
#[derive(Drop)]
struct Both {
    file: FileDisk<File>,
    memory: MemDisk,
}

impl Both {
    /// Their length.
    fn length(&mut self) -> Result<u64, Fail>
        ensures { IfOk result (λ n. n ≡ length self.new.memory.text) }
    {
        let length = self.memory.len()?;
        if self.file.len()? != length {
            return Err("they have other lengths".into());
        }
        Ok(length)
    }

    /// Reads this many bytes from this place on.
    fn read(&mut self, at: u64, size: usize) -> Result<(), Fail>
        requires { (size ≤ MOST) × (at + size ≤ length self.old.memory.text) }
    {
        let (mut one, mut other) = ([1; MOST], [2; MOST]);
        self.file.read(at, &mut one[..size])?;
        self.memory.read(at, &mut other[..size])?;
        if one[..size] != other[..size] {
            return Err("they read otherwise".into());
        }
        Ok(())
    }

    /// Writes the bytes from this place on, or syncs if the disk in memory takes no further write before that.
    fn write(&mut self, at: u64, bytes: &[u8]) -> Result<(), Fail>
        requires { at ≤ length self.old.memory.text }
    {
        if self.memory.write(at, bytes).is_err() {
            return self.sync();
        }
        self.file.write(at, bytes)?;
        Ok(())
    }

    /// Syncs.
    fn sync(&mut self) -> Result<(), Fail> {
        self.memory.sync()?;
        self.file.sync()?;
        Ok(())
    }
}

/// Makes a call of both disks that these numbers choose.
fn call_both(both: &mut Both, numbers: &mut Numbers) -> Result<(), Fail> {
    let length = both.length()?;
    let at = numbers.below(length.saturating_add(1));
    match numbers.below(10) {
        0..=4 => {
            let size = numbers.below(MOST as u64 + 1).min(length - at);
            both.read(at, size as usize)
        }
        5..=8 => {
            let size = numbers.below(MOST as u64 + 1) as usize;
            let bytes = [numbers.below(256) as u8; MOST];
            both.write(at, &bytes[..size])
        }
        _ => both.sync(),
    }
}

#[test]
fn a_file_and_a_disk_in_memory_answer_1000_calls_alike(rt: HostRuntime) -> Result<(), Fail> {
    let file = FileDisk::create(&rt, rt.alloc(), "alike.pv")?;
    let memory = MemDisk::new(rt.alloc(), 10_000, &[])?;
    let mut both = Both { file, memory };
    let mut numbers = Numbers(27);
    for _ in 0..1_000 {
        call_both(&mut both, &mut numbers)?;
    }
    fs::remove_file(&rt, "alike.pv")?;
    Ok(())
}
