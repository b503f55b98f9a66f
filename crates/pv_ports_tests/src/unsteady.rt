//! A link that loses packets, hands one out twice, or in another order.
ghost use Rattle.std.specs.Prelude.{◌≡◌, ◌≤◌};
ghost use Rattle.pv_outside.specs.declared.link.TheConstants.{MAX_PACKET};

use pv_outside::{Failed, Link, MAX_PACKET};
use std::alloc::{AllocError, Global};

/// How many packets it keeps.
const ROOM: usize = 8;

/// A packet that was given.
#[derive(Clone, Copy)]
struct Given {
    bytes: [u8; MAX_PACKET],
    size: usize,
    ghost within: { size ≤ MAX_PACKET },
}

/// Each take hands out the packet of the number that the plan says, if it was given, or none. It reports nothing.
#[derive(Drop)]
pub struct Unsteady {
    packets: Vec<Given>,
    plan: &'static [Option<usize>],
    takes: usize,
    given: u64,
    taken: u64,
}

impl Unsteady {
    /// A link to which nothing was given.
    pub fn new(alloc: Global, plan: &'static [Option<usize>]) -> Result<Unsteady, AllocError> {
        Ok(Unsteady {
            packets: Vec::with_capacity(alloc, ROOM)?,
            plan,
            takes: 0,
            given: 0,
            taken: 0,
        })
    }

    /// The packet that the next take hands out. `None`: none waits.
    fn next(&mut self) -> Option<Given>
        ensures { (self.new.given ≡ self.old.given) × (self.new.taken ≡ self.old.taken) }
    {
        let number = *self.plan.get(self.takes)?;
        self.takes += 1;
        self.packets.get(number?).copied()
    }
}

impl Link for Unsteady {
    ghost use Rattle.std.specs.Prelude.{None};

    ghost faults = { λ l. 0 };

    ghost given = { λ l. l.given };

    ghost taken = { λ l. l.taken };

    ghost packets = { λ l. None };

    ghost may_hold = { λ l packet. Unit {0} };

    ghost holds_its_packets = { λ _ _. tt };

    fn give(&mut self, packet: &[u8]) -> Result<(), Failed> {
        let size = packet.len();
        let mut bytes = [0; MAX_PACKET];
        bytes[..size].copy_from_slice(packet);
        let _ = self.packets.push(Given { bytes, size });
        self.given = self.given.saturating_add(1);
        Ok(())
    }

    fn take(&mut self, into: &mut [u8; MAX_PACKET]) -> Result<Option<usize>, Failed> {
        let Some(packet) = self.next() else {
            return Ok(None);
        };
        let bytes = packet.bytes;
        *into = bytes;
        self.taken = self.taken.saturating_add(1);
        Ok(Some(packet.size))
    }
}
