//! What came of stands, to be compared.
ghost use Rattle.std.specs.Prelude.{◌<◌, length};

use pv_memory::{MemDisk, MemDoor};
use pv_outside::Disk;
use pv_service::{CarrierFault, PortFault};
use std::alloc::{AllocError, Global};

/// What stands after each line that was given back: a byte that no screen has.
pub const END: u8 = 0xff;

/// Why a stand ended early.
#[derive(Clone, Copy, Debug, PartialEq, Eq)]
pub enum Ended {
    Door,
    Link,
    Disk,
}

/// Why a port's stand did.
pub fn port_ended<D: Disk>(fault: &Option<PortFault<D>>) -> Option<Ended> {
    match fault {
        Some(PortFault::Door) => Some(Ended::Door),
        Some(PortFault::Disk(_)) => Some(Ended::Disk),
        None => None,
    }
}

/// Why a carrier's stand did.
pub fn carrier_ended<D: Disk>(fault: &Option<CarrierFault<D>>) -> Option<Ended> {
    match fault {
        Some(CarrierFault::Link) => Some(Ended::Link),
        Some(CarrierFault::Disk(_)) => Some(Ended::Disk),
        None => None,
    }
}

/// What the lines were sent that were given back to a door, in order, each with an end after it.
pub fn sent_at(alloc: Global, door: &MemDoor) -> Result<Vec<u8>, AllocError> {
    let mut sent = Vec::new(alloc);
    for line in door.finished() {
        sent.extend_from_slice(line.sent())?;
        sent.push(END)?;
    }
    Ok(sent)
}

/// Whether these bytes stand somewhere in a text.
pub fn has(text: &[u8], bytes: &[u8]) -> bool
    requires { 0 < length bytes.now }
{
    text.windows(bytes.len()).any(|window| window == bytes)
}
