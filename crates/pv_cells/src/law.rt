ghost use Rattle.std.specs.Prelude.{◌≡◌, ℕ, ◌≤◌, List, Ok, length};
ghost use Rattle.std.specs.List.{All, AllPass};
ghost use Rattle.pv_fields.specs.Padded.{padded_list};
ghost use Rattle.pv_cells.specs.Notation.{IsByte, is_printable, notation_of, ReadsAs};
ghost use Rattle.pv_cells.specs.Row.{IsCell, row_of_text};
ghost use Rattle.pv_cells.specs.declared.reading.TheConstants.{BLANK};

/// A law: what [`notation`](crate::notation) writes of any bytes is read as these bytes. So what it
/// writes of the cells of a row, [`row_of`](crate::row_of) gives back.
#[tactic(auto, using(crate::proofs::Canonical::notation_reads, crate::proofs::Canonical::row_reads))]
pub fn notation_is_read_back()
    ensures bytes { (bytes : List ℕ) → All IsByte bytes → ReadsAs (notation_of bytes) bytes }
    ensures row { (width : ℕ) (cells : List ℕ) → length cells ≤ width → All IsCell cells
        → row_of_text width (notation_of cells) ≡ Ok (padded_list BLANK width cells) }
{}

/// A law: a text is read in one way, and what is written of different bytes differs.
#[tactic(auto, using(crate::proofs::Canonical::one_reading, crate::proofs::Canonical::same_bytes))]
pub fn notation_is_unambiguous()
    ensures read { (text : List ℕ) (one other : List ℕ) → ReadsAs text one → ReadsAs text other
        → one ≡ other }
    ensures written { (one other : List ℕ) → All IsByte one → All IsByte other
        → notation_of one ≡ notation_of other → one ≡ other }
{}

/// A law: the notation of any bytes holds only bytes that can be printed, 0x20 to 0x7E. So it has no
/// line end.
#[tactic(auto, using(crate::proofs::Canonical::notation_prints))]
pub fn notation_is_printable()
    ensures { (bytes : List ℕ) → All IsByte bytes → AllPass is_printable (notation_of bytes) }
{}
