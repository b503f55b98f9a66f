use pv_account::MAX_CENTRES;
use std::sync::Wait;
use std::sync::atomic::{AtomicU64, Ordering};
use std::time::Duration;

/// How long a carrier sleeps at most, in milliseconds.
pub const MAX_SLEEP: u64 = 50;

/// A bell. It counts how often it was rung, so that whoever has read the count sleeps through no later ring.
#[derive(Drop)]
struct Bell {
    rings: AtomicU64,
}

impl Bell {
    /// A bell that was never rung.
    fn new() -> Bell {
        Bell {
            rings: AtomicU64::new(0),
        }
    }

    /// Rings, and wakes who sleeps.
    fn ring(&self) {
        self.rings.fetch_add(1, Ordering::SeqCst);
        self.rings.wake_all();
    }
}

/// What the threads of a server tell each other: a bell for each centre's carrier, and how many ports are at work. No
/// contract speaks of it: what a thread finds here is when to look, and never what is there.
#[derive(Drop)]
pub struct Signals {
    bells: [Bell; 4],
    at_work: AtomicU64,
}

// There is a bell for each centre that there can be.
const _: () = prove!(MAX_CENTRES == 4);

impl Signals {
    /// Bells that were not rung, and this many ports at work.
    pub fn new(ports: u64) -> Signals {
        Signals {
            bells: [Bell::new(), Bell::new(), Bell::new(), Bell::new()],
            at_work: AtomicU64::new(ports),
        }
    }

    /// Wakes the carrier of a centre.
    pub fn ring(&self, centre: u8) {
        if let Some(bell) = self.bells.get(centre as usize) {
            bell.ring();
        }
    }

    /// Wakes all carriers.
    pub fn ring_all(&self) {
        for bell in &self.bells {
            bell.ring();
        }
    }

    /// A port has ended its work. Carriers are woken, since they may end with the last port.
    pub fn leave(&self) {
        self.at_work.fetch_sub(1, Ordering::SeqCst);
        self.ring_all();
    }

    /// Whether all ports have ended their work.
    pub fn are_done(&self) -> bool {
        self.at_work.load(Ordering::SeqCst) == 0
    }

    /// How often the carrier of a centre was rung.
    pub fn rings(&self, centre: u8) -> u64 {
        match self.bells.get(centre as usize) {
            Some(bell) => bell.rings.load(Ordering::SeqCst),
            None => 0,
        }
    }

    /// Sleeps until the carrier of a centre is rung, at most [`MAX_SLEEP`]. It does not sleep if it was rung since it
    /// had been so often.
    pub fn sleep<W: Wait>(&self, rt: &W, centre: u8, rings: u64) {
        if let Some(bell) = self.bells.get(centre as usize) {
            let low = (rings & 0xffff_ffff) as u32;
            bell.rings
                .park_timeout(rt, low, Duration::from_millis(MAX_SLEEP));
        }
    }
}
