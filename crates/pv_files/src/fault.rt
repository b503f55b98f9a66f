use std::io;
use thiserror::Error;

/// What a file could not do, with the system's words.
#[derive(Clone, Copy, Debug, Error)]
pub enum FileFault {
    /// Its length could not be read.
    #[error("the length of the file could not be read: {0}")]
    Length(io::Error),
    /// Bytes could not be read.
    #[error("the file could not be read: {0}")]
    Read(io::Error),
    /// The bytes that were asked for lie past its end: another process has cut it short, for example.
    #[error("the file ends before the bytes that were asked for")]
    Short,
    /// Bytes could not be written: the device is full, for example.
    #[error("the file could not be written: {0}")]
    Write(io::Error),
    /// What was written could not be put on the disk.
    #[error("the file could not be synced: {0}")]
    Sync(io::Error),
    /// A sync failed earlier. The system may have dropped what was written before, so that no later sync
    /// can be believed.
    #[error("an earlier sync of the file failed")]
    Lost,
}

/// Why a file could not be opened.
#[derive(Clone, Copy, Debug, Error)]
pub enum OpenFault {
    /// Memory ran out.
    #[error("out of memory")]
    Memory,
    /// The system refused: a folder stands in its place, or its owner has not allowed it, for example.
    #[error("the file could not be opened: {0}")]
    File(io::Error),
    /// Another disk is in the file, of this process or of another.
    #[error("the file is in use")]
    InUse,
}
