ghost use Rattle.std.specs.Prelude.{◌≡◌, ◌<◌, ◌≤◌, ℕ, List, [], ◌∷◌, ◌++◌, length, min, Option, IfOk, IfSome};
ghost use Rattle.std.specs.Option.{option_map};
ghost use Rattle.pv_outside.specs.Counts.{CountsFaults, successes_after, one_more};
ghost use Rattle.pv_outside.specs.Line.{IsUnused};
ghost use Rattle.pv_outside.specs.declared.failed.TheConstants.{COUNT_END};

use crate::failed::Failed;
use crate::line::Line;

/// A door, where lines come in one after another. A line that was accepted is given back when it is done
/// with.
pub trait Door {
    /// The lines that come in. A line that is dropped is never given back.
    type Line: Line + Drop;

    /// How often an accept has failed.
    ghost faults: { Self → ℕ };

    /// How many lines it has accepted.
    ghost accepted: { Self → ℕ };

    /// How many lines were given back.
    ghost finished: { Self → ℕ };

    /// The lines that were given back, as they then were, oldest first, if it can report them.
    ghost lines: { Self → Option (List Self.Line) };

    /// Waits for a line, and returns it. Nothing was read from it or written to it.
    fn accept(&mut self) -> Result<Self::Line, Failed>
        ensures account { CountsFaults (faults self.old) (faults self.new) result }
        ensures accepted { accepted self.new ≡ successes_after result (accepted self.old) }
        ensures unused { IfOk result
            (λ line. IsUnused (Self.Line.taken line) (Self.Line.written line) (Self.Line.ended line)) }

        // No line is given back by this.
        ensures finished { finished self.new ≡ finished self.old }
        ensures lines { lines self.new ≡ lines self.old };

    /// Gives a line back. There must be one that is still out.
    fn finish(&mut self, line: Self::Line)
        requires { finished self.old < accepted self.old }
        ensures finished { finished self.new ≡ one_more (finished self.old) }
        ensures lines { lines self.new ≡ option_map (λ before. before ++ line ∷ []) (lines self.old) }

        // No line is accepted by this.
        ensures accepted { accepted self.new ≡ accepted self.old }
        ensures faults { faults self.new ≡ faults self.old };

    /// No more lines were given back than it has accepted.
    ghost order: { (door : Self) → finished door ≤ accepted door };

    /// If it reports the lines that were given back, they are as many as its count says.
    ghost counted: { (door : Self)
        → IfSome (lines door) (λ back. finished door ≡ min (length back) COUNT_END) };
}
