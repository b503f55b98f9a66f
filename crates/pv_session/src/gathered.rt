ghost use Rattle.std.specs.Prelude.{◌≡◌, ◌<◌, [], ◌++◌, length, IsNone, IsSome};
ghost use Rattle.pv_words.specs.Parts.{Exactly};
ghost use Rattle.pv_session.specs.Entries.{key_if};

use std::marker::Model;

/// Fewer than `N` bytes. Contracts see the list of them.
#[derive(Clone, Copy, Debug, PartialEq, Eq)]
pub(crate) struct Gathered<const N: usize> {
    count: usize,
    bytes: [u8; N],
}

impl<const N: usize> Model for Gathered<N> {
    ghost use Rattle.std.specs.Prelude.{ℕ, List, length, take};
    ghost use Rattle.pv_fields.specs.Padded.{padded_list};

    ghost Value = { List ℕ };

    ghost use Rattle.pv_session.specs.Gathering.{AreGathered};

    ghost view = { λ gathered. take gathered.count gathered.bytes };

    ghost invariant = { λ gathered. AreGathered N gathered.count gathered.bytes };

    ghost inverse = { λ bytes. record { count = length bytes; bytes = padded_list 0 N bytes } };

    ghost use Rattle.pv_fields.proofs.CallerLemmas.{length-items, padded_list-take};

    ghost inverse_ok = { λ gathered inside i. record {
      count = length-items 0 N gathered.count gathered.bytes inside.padded i;
      bytes = padded_list-take 0 N gathered.count gathered.bytes inside.padded i;
    } };
}

impl<const N: usize> Gathered<N> {
    /// No bytes.
    pub(crate) fn new() -> Gathered<N>
        requires { 0 < N }
        ensures { result ≡ [] }
    {
        Gathered {
            count: 0,
            bytes: [0; N],
        }
    }

    /// Takes a byte, which is added if it counts. With the last one all `N` are returned, and none
    /// is kept.
    pub(crate) fn take(&mut self, byte: u8, counts: bool) -> Option<[u8; N]>
        ensures whole { Exactly (λ bytes. (length bytes ≡ N)
            × (self.old ++ key_if counts byte ≡ bytes)) result }
        ensures waits { IsNone result → self.new ≡ self.old ++ key_if counts byte }
        ensures new { IsSome result → self.new ≡ [] }
    {
        let mut bytes = self.bytes;
        if !counts {
            return None;
        }
        bytes[self.count] = byte;
        let count = self.count + 1;
        if count == N {
            *self = Gathered::new();
            return Some(bytes);
        }
        self.bytes = bytes;
        self.count = count;
        None
    }
}
