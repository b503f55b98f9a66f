ghost use Rattle.std.specs.Prelude.{◌≡◌, ℕ, ◌+◌, ◌<◌, ◌≤◌, ◌⊎◌, ◌↔◌, Some, IfSome, IsNone, IsBitSet};
ghost use Rattle.pv_cells.specs.Mosaic.{Block, weight_of, IsMosaic};

// A mosaic is a block of six squares, two in each of three lines, and each square is lit or dark. The weights
// and the codes are those of the block mosaics in the Prestel Terminal Specification of the British
// Post Office.

/// The weight of the left square of the first line.
pub const TOP_LEFT: u8 = 1;

/// The weight of the right square of the first line.
pub const TOP_RIGHT: u8 = 2;

/// The weight of the left square of the second line.
pub const MIDDLE_LEFT: u8 = 4;

/// The weight of the right square of the second line.
pub const MIDDLE_RIGHT: u8 = 8;

/// The weight of the left square of the third line.
pub const BOTTOM_LEFT: u8 = 16;

/// The weight of the right square of the third line. It is not 32: the codes 0x40 to 0x5F are capitals
/// among the mosaics too.
pub const BOTTOM_RIGHT: u8 = 64;

/// The code of the mosaic in which no square is lit.
pub const DARK: u8 = 0x20;

/// The code of the mosaic whose lit squares have this sum of weights: 0x20 to 0x3F without the bottom
/// right square, 0x60 to 0x7F with it. `None` exactly when the number has a bit that is no square's
/// weight.
#[tactic(auto, using(crate::proofs::Squares::squares))]
pub fn mosaic(weights: u8) -> Option<u8>
    ensures found { IfSome result (λ code. IsMosaic weights code) }
    ensures only { (code : ℕ) → IsMosaic weights code → result ≡ Some code }
    // The bits 5 and 7, worth 32 and 128, are no square's.
    ensures missing { IsNone result ↔ (IsBitSet weights 5 ⊎ IsBitSet weights 7) }
{
    match weights {
        0x00..=0x1f => Some(DARK + weights),
        // The bottom right square is lit.
        0x40..=0x5f => Some(DARK + weights),
        _ => None,
    }
}

/// The sum of the weights of the lit squares in the mosaic of this code. `None` exactly outside 0x20 to
/// 0x3F and 0x60 to 0x7F.
#[tactic(auto, using(crate::proofs::Squares::is_mosaic))]
pub fn weights_of(code: u8) -> Option<u8>
    ensures found { IfSome result (λ weights. IsMosaic weights code) }
    ensures only { (weights : ℕ) → IsMosaic weights code → result ≡ Some weights }
    ensures missing { IsNone result
        ↔ ((code < 0x20) ⊎ ((0x40 ≤ code) × (code < 0x60)) ⊎ (0x80 ≤ code)) }
{
    match code {
        0x20..=0x3f => Some(code - DARK),
        // The bottom right square is lit.
        0x60..=0x7f => Some(code - DARK),
        _ => None,
    }
}

/// A law: the codes of the six mosaics in which one square is lit, as the standard's table has them.
pub fn squares_have_their_codes()
    ensures top_left { DARK + TOP_LEFT ≡ 0x21 }
    ensures top_right { DARK + TOP_RIGHT ≡ 0x22 }

    // The second line.
    ensures middle_left { DARK + MIDDLE_LEFT ≡ 0x24 }
    ensures middle_right { DARK + MIDDLE_RIGHT ≡ 0x28 }

    // The third line.
    ensures bottom_left { DARK + BOTTOM_LEFT ≡ 0x30 }
    ensures bottom_right { DARK + BOTTOM_RIGHT ≡ 0x60 }
{}

/// A law: different mosaics have different weights and different codes. So [`mosaic`] and
/// [`weights_of`] are inverse.
pub fn mosaics_are_one_to_one()
    ensures squares { (one other : Block) → weight_of one ≡ weight_of other → one ≡ other }
    ensures code { (weights one other : ℕ) → IsMosaic weights one → IsMosaic weights other
        → one ≡ other }
    ensures weights { (one other code : ℕ) → IsMosaic one code → IsMosaic other code
        → one ≡ other }
{}
