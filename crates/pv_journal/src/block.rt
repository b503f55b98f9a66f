ghost use Rattle.std.specs.Prelude.{◌≡◌, ℕ, ◌+◌, ◌≤◌};
ghost use Rattle.pv_journal.specs.Block.{BeginsWith};
ghost use Rattle.pv_journal.specs.Log.{longest};

/// The first eight bytes of a formatted disk.
pub const MARK: [u8; MARK_SIZE] = [b'P', b'V', b'J', b'O', b'U', b'R', b'N', b'1'];

/// The longest body, in bytes.
pub const MAX_BODY: usize = 2048;

/// How many bytes the mark has.
pub(crate) const MARK_SIZE: usize = 8;

/// How many bytes a block has before its body: its gate, and the body's length in two.
pub(crate) const HEAD_SIZE: usize = 3;

/// How many bytes a journal without bodies has: the mark and a closed gate.
pub(crate) const EMPTY_SIZE: usize = 9;

/// How many bytes the longest block has.
pub(crate) const MAX_BLOCK: usize = MAX_BODY + HEAD_SIZE;

/// How many bytes an append writes at most after the gate, for all bodies that are appended at once.
pub const MAX_WRITE: usize = 4096;

/// How many bytes a journal of this many bodies has at most.
pub fn longest(bodies: u32) -> u64
    ensures { result ≡ longest bodies }
{
    EMPTY_SIZE as u64 + MAX_BLOCK as u64 * bodies as u64
}

/// What comes after the bodies that were read.
#[derive(Clone, Copy, Debug, PartialEq, Eq)]
pub(crate) enum Block {
    /// A gate that is closed: there are no further bodies.
    Closed,
    /// An open gate and a body of this many bytes, from the third on.
    Whole { size: usize },
    /// No byte, or an open gate with no whole body.
    Broken,
}

/// What the bytes begin with. They are all that the disk has, or at least a longest block.
pub(crate) fn first_block(bytes: &[u8]) -> Block
    ensures { BeginsWith result bytes.now }
{
    match bytes {
        [1, high, low, rest @ ..] => {
            let size = u16::from_be_bytes([*high, *low]) as usize;
            if size == 0 || size > MAX_BODY || size > rest.len() {
                Block::Broken
            } else {
                Block::Whole { size }
            }
        }
        [] | [1, ..] => Block::Broken,
        _ => Block::Closed,
    }
}
