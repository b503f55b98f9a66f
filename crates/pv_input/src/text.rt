ghost use Rattle.std.specs.Prelude.{◌≡◌, ℕ, ◌+◌, ◌≤◌, IsTrue, List, ◌++◌, length, MatchResult, IfOk, IfErr};
ghost use Rattle.std.specs.Io.KnownBytes.{Keeps, IsAtEnd};
ghost use Rattle.std.specs.Vec.{vec_capacity};
ghost use Rattle.pv_outside.specs.Counts.{Rose};
ghost use Rattle.pv_input.specs.Reading.{HasRead, IsReadWhole, IsReadEnd, read_status};

use pv_outside::{Failed, Source, Status};
use std::alloc::Global;

/// How many bytes a text may have.
pub const LONGEST_TEXT: usize = 1_048_576;

/// How many bytes are asked for at once.
const PIECE: usize = 8_192;

/// Why a text was not read to its end.
#[derive(Clone, Copy, Debug, PartialEq, Eq)]
pub enum ReadEnd {
    /// It is longer than a text may be.
    TooLong,
    /// A read failed.
    Fault,
    /// Memory ran out.
    Memory,
}

impl ReadEnd {
    /// The status of a program whose text was not read to its end.
    pub fn status(self) -> Status
        ensures { result ≡ read_status self }
    {
        match self {
            ReadEnd::TooLong => Status::TooLong,
            ReadEnd::Fault => Status::ReadFault,
            ReadEnd::Memory => Status::Memory,
        }
    }
}

/// Reads a source to its end, and at most one byte more than a text may have.
pub fn read_text<S: Source>(alloc: Global, source: &mut S) -> Result<Vec<u8>, ReadEnd>
    ensures read { (text : List ℕ)
        × HasRead (S.taken source.old) (S.taken source.new) (S.left source.old) (S.left source.new) text
        × MatchResult result
        (λ read. (read.items ≡ text) × IsReadWhole text (S.left source.old) (S.ended source.new))
        (IsReadEnd text (S.read_faults source.old) (S.read_faults source.new)) }
    ensures counted { S.read_faults source.old ≤ S.read_faults source.new }
{
    // The room is taken at once, and nothing is written to it before there is a byte of the text.
    let Ok(mut text) = Vec::with_capacity(alloc, LONGEST_TEXT + 1) else {
        return Err(ReadEnd::Memory);
    };
    let mut piece = [0; PIECE];
    while text.len() <= LONGEST_TEXT {
        match read_piece(source, &mut piece, &mut text) {
            Ok(0) => return Ok(text),
            Ok(_) => {}
            Err(Failed) => return Err(ReadEnd::Fault),
        }
    }
    Err(ReadEnd::TooLong)
}

/// Reads as much as fits a piece and is not over what a text may have by more than one byte, and appends it to the text. It
/// returns how many bytes that were.
fn read_piece<S: Source>(
    source: &mut S,
    piece: &mut [u8; PIECE],
    text: &mut Vec<u8>,
) -> Result<usize, Failed>
    requires room { LONGEST_TEXT + 1 ≤ vec_capacity text.old }
    requires short { length text.old.items ≤ LONGEST_TEXT }
    ensures room { LONGEST_TEXT + 1 ≤ vec_capacity text.new }
    ensures within { length text.new.items ≤ LONGEST_TEXT + 1 }
    ensures read { IfOk result (λ count. (bytes : List ℕ)
        × HasRead (S.taken source.old) (S.taken source.new) (S.left source.old) (S.left source.new) bytes
        × (length bytes ≡ count) × (text.new.items ≡ text.old.items ++ bytes)) }

    // A count of 0 says that the source has ended, and comes only if nothing was left.
    ensures end { IfOk result (λ count. count ≡ 0 → IsTrue (S.ended source.new)) }
    ensures only_at_end { IfOk result (λ count. count ≡ 0 → IsAtEnd (S.left source.old)) }

    // After a failure nothing was read.
    ensures unread { IfErr result (λ _. Keeps (S.taken source.old) (S.taken source.new)
        × Keeps (S.left source.old) (S.left source.new) × (text.new.items ≡ text.old.items)) }
    ensures failed { IfErr result (λ _. Rose (S.read_faults source.old) (S.read_faults source.new)) }
    ensures counted { S.read_faults source.old ≤ S.read_faults source.new }
{
    let room = PIECE.min(LONGEST_TEXT + 1 - text.len());
    let count = source.read(&mut piece[..room])?;
    // There is room, so that this takes no memory and cannot fail.
    let _ = text.extend_from_slice(&piece[..count]);
    Ok(count)
}
