use pv_memory::MemDoor;
use pv_ports::LogEntry;

/// A door that hears how each of its connections was served, so that it may keep a log.
pub trait Log {
    /// A call or a session has ended. Its connection is given back next.
    fn log(&self, entry: &LogEntry);
}

/// It keeps no log, since it keeps the connections.
impl Log for MemDoor {
    fn log(&self, _entry: &LogEntry) {}
}
