ghost use Rattle.std.specs.Prelude.{◌↔◌, IsTrue};
ghost use Rattle.pv_fields.specs.Reading.{ReadsBack};
ghost use Rattle.pv_frame.specs.declared.field.Field.{Field};
ghost use Rattle.pv_frame.specs.Content.{Content};
ghost use Rattle.pv_frame.specs.Errors.{meets, ShareCell, error_of, IsValid};
ghost use Rattle.pv_frame.specs.Meaning.{HasCause, IsWellFormed};
ghost use Rattle.pv_frame.specs.Spelling.{HasSpelling, spelling_of};

/// A law: if two spellings begin the same bytes, they are of one frame, and the same bytes follow.
/// So bytes are the spelling of at most one frame, and no spelling begins a longer one.
#[tactic(auto, using(crate::proofs::OneSpelling::frames))]
pub fn no_spelling_begins_another()
    ensures { ReadsBack HasSpelling spelling_of }
{}

/// A law: the error of a frame says what is wrong with it, the first place where it is, and that nothing
/// earlier in the order of [`FrameError`](crate::FrameError) is. A frame without error is well formed.
#[tactic(auto, using(crate::proofs::Meaning::says, crate::proofs::Meaning::valid, crate::proofs::Meaning::meets_says))]
pub fn errors_are_what_they_say()
    ensures says { (frame : Content) → HasCause frame (error_of frame) }
    ensures valid { (frame : Content) → IsValid frame ↔ IsWellFormed frame }
    ensures meeting { (a b : Field) → IsTrue (meets a b) ↔ ShareCell a b }
{}
