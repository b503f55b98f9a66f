ghost use Rattle.std.specs.Prelude.{◌≡◌, ◌⊎◌, ◌↔◌, ℕ, ◌≤◌, List, length, take, Contains, Option, IfOk, IfSome};
ghost use Rattle.pv_outside.specs.Counts.{CountsFaults, successes_after};
ghost use Rattle.pv_outside.specs.Link.{GainsPacket, HandsOut, handed_after};
ghost use Rattle.pv_outside.specs.declared.link.TheConstants.{MAX_PACKET};

use crate::failed::Failed;

/// The most bytes of a packet.
pub const MAX_PACKET: usize = 2048;

/// A link that carries packets one way, in order. It may lose the oldest of those that it holds, and it
/// makes none up.
///
/// A link may report the packets that it holds, as one in memory does, or nothing. Of one that reports
/// nothing no clause says that what it hands out was given to it: a theorem about its packets has it as a
/// premise that all packets that it may hold are right.
pub trait Link {
    /// How often a call has failed.
    ghost faults: { Self → ℕ };

    /// How many packets it was given.
    ghost given: { Self → ℕ };

    /// How many packets it has handed out.
    ghost taken: { Self → ℕ };

    /// The packets that it holds, oldest first, if it can report them.
    ghost packets: { Self → Option (List (List ℕ)) };

    /// Whether this may be a packet that it holds. If it reports its packets, it holds these and no other.
    ghost may_hold: { Self → List ℕ → Type 0 };

    /// Puts a packet after those that it holds. It may lose some of these, the oldest first.
    fn give(&mut self, packet: &[u8]) -> Result<(), Failed>
        requires { length packet.now ≤ MAX_PACKET }
        ensures account { CountsFaults (faults self.old) (faults self.new) result }
        ensures given { given self.new ≡ successes_after result (given self.old) }
        ensures taken { taken self.new ≡ taken self.old }

        // It holds no packet but this one and those that it held.
        ensures packets { GainsPacket packet.now result (packets self.old) (packets self.new) }
        ensures only { (held : List ℕ) → may_hold self.new held
            → may_hold self.old held ⊎ (held ≡ packet.now) };

    /// Takes the oldest packet out into the beginning of a buffer, and returns its length, or None if it
    /// holds none.
    fn take(&mut self, into: &mut [u8; MAX_PACKET]) -> Result<Option<usize>, Failed>
        ensures account { CountsFaults (faults self.old) (faults self.new) result }
        ensures given { given self.new ≡ given self.old }
        ensures taken { taken self.new ≡ handed_after result (taken self.old) }

        // What it hands out is a packet that it held, and it holds no other than before.
        ensures within { IfOk result (λ length. IfSome length (λ n. n ≤ MAX_PACKET)) }
        ensures packets { HandsOut into.new result (packets self.old) (packets self.new) }
        ensures held { IfOk result (λ length. IfSome length (λ n. may_hold self.old (take n into.new))) }
        ensures only { (held : List ℕ) → may_hold self.new held → may_hold self.old held };

    /// If it reports its packets, what it may hold is one of them, and it may hold each of them.
    ghost holds_its_packets: { (link : Self) (held : List ℕ)
        → IfSome (packets link) (λ packets. may_hold link held ↔ Contains packets held) };
}
