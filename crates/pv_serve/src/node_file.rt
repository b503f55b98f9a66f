//! The file of a node, which says on a terminal how far it is read.

use std::fs::{File, Metadata, OpenFile};
use std::io::{self, Eprint};
use std::os::unix::fs::FileExt;

/// After how many bytes it is said again how far a file is read.
const STEP: u64 = 4 << 20;

/// How many bytes are a mebibyte.
const MEBIBYTE: u64 = 1 << 20;

/// The file of a node. It is read from its first byte to its last as the node is opened. Meanwhile a line on standard error
/// says after each [`STEP`] bytes how far that is, if it is seen.
#[derive(Drop)]
pub(crate) struct NodeFile<'a, R: Eprint> {
    rt: &'a R,
    file: File,
    name: &'a str,
    length: u64,
    is_seen: bool,
}

impl<'a, R: Eprint> NodeFile<'a, R> {
    /// This file, which has this name. Whether standard error is seen is for the caller to say.
    pub(crate) fn new(
        rt: &'a R,
        file: File,
        name: &'a str,
        is_seen: bool,
    ) -> io::Result<NodeFile<'a, R>> {
        let length = file.metadata()?.len();
        Ok(NodeFile {
            rt,
            file,
            name,
            length,
            is_seen,
        })
    }

    /// Says how far the file is read, if a step was passed by this read.
    fn advance(&self, from: u64, count: usize) {
        let to = from.saturating_add(count as u64);
        if self.is_seen && from / STEP < to / STEP {
            let _ = eprintln!(self.rt;
                "prestel: {}: {} of {} MiB are read",
                self.name,
                to / MEBIBYTE,
                self.length / MEBIBYTE
            );
        }
    }
}

impl<'a, R: Eprint> FileExt for NodeFile<'a, R> {
    fn read_at(&self, buf: &mut [u8], offset: u64) -> io::Result<usize> {
        let count = self.file.read_at(buf, offset)?;
        self.advance(offset, count);
        Ok(count)
    }

    fn write_at(&self, buf: &[u8], offset: u64) -> io::Result<usize> {
        self.file.write_at(buf, offset)
    }
}

impl<'a, R: Eprint> OpenFile for NodeFile<'a, R> {
    fn metadata(&self) -> io::Result<Metadata> {
        self.file.metadata()
    }

    fn set_len(&self, size: u64) -> io::Result<()> {
        self.file.set_len(size)
    }

    fn sync_all(&self) -> io::Result<()> {
        self.file.sync_all()
    }

    fn sync_data(&self) -> io::Result<()> {
        self.file.sync_data()
    }
}
