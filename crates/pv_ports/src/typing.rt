ghost use Rattle.std.specs.Prelude.{◌≡◌, ◌≤◌, ℕ, List, [], ◌∷◌, ◌++◌, take, vec_capacity};
ghost use Rattle.pv_ports.specs.Typing.{text_in_line};
ghost use Rattle.pv_ports.specs.declared.typing.TheConstants.{KEPT};

use pv_editor::LONGEST_LINE;

/// The end of a line.
pub(crate) const NEWLINE: u8 = b'\n';

/// What may stand before the end of a line, and is no part of what it says.
pub(crate) const RETURN: u8 = b'\r';

/// How many bytes of a line are kept: with as many it is too long, whether or not it has a return.
pub(crate) const KEPT: usize = LONGEST_LINE + 2;

/// Keeps a byte more of a line, if there is room.
pub(crate) fn keep(kept: &mut Vec<u8>, byte: u8)
    requires { KEPT ≤ vec_capacity kept.old }
    ensures kept { (line : List ℕ) → kept.old.items ≡ take KEPT line
        → kept.new.items ≡ take KEPT (line ++ byte ∷ []) }
    ensures room { KEPT ≤ vec_capacity kept.new }
{
    if kept.len() < KEPT {
        kept.push_reserved(byte);
    }
}

/// What a line says.
pub(crate) fn text_in_line(line: &[u8]) -> &[u8]
    ensures { result.now ≡ text_in_line line.now }
{
    let count = line.len();
    if count > 0 && line[count - 1] == RETURN {
        &line[..count - 1]
    } else {
        line
    }
}
