ghost use Rattle.std.specs.Prelude.{◌≡◌, IfOk, OnErr};
ghost use Rattle.pv_ports.specs.Session.{AnswersAt, TakesLine, answered_step};

use pv_editor::{EditStep, EditorSeat};
use pv_edits::Record;
use pv_live::{NotEntered, Pass, Run, Viewer};
use pv_node::Rules;
use pv_udc::{UdcRules, UdcState};
use pv_verdicts::responses;

/// A line at a seat, and the step that came of it. It is a viewer: the seat takes the line at the state that is looked
/// at, and a search for responses is answered there.
#[derive(Drop)]
struct Answering<'a> {
    seat: EditorSeat,
    text: &'a [u8],
    step: EditStep,
}

impl<'a> Viewer<UdcState> for Answering<'a> {
    ghost may_become = { λ old state new. AnswersAt state.records old.seat old.text.now new.seat new.step
        × (new.text ≡ old.text) };

    fn view(&mut self, state: &UdcState) {
        let step = self.seat.line(self.text, state.base());
        self.step = answered(step, state);
    }
}

/// The step, or the answer to the search that it asks for.
fn answered(step: EditStep, state: &UdcState) -> EditStep
    ensures { result ≡ answered_step state.now.records step }
{
    match step {
        EditStep::Responses { editor, from } => EditStep::Say(responses(state, editor, from)),
        _ => step,
    }
}

/// Takes a line by one look: the seat's step is that at the records that the pass has seen then. A search for responses
/// is answered there, so its step is what it says.
pub fn answer_line<N: Run<Record>>(
    pass: &mut Pass<UdcRules, N>,
    seat: &mut EditorSeat,
    text: &[u8],
) -> Result<EditStep, NotEntered>
    ensures turn { IfOk result (λ step. TakesLine ⟦<UdcRules as Rules>⟧ N.limits N.opening
        pass.old seat.old text.now pass.new seat.new step) }
    ensures refused { OnErr result ((pass.new ≡ pass.old) × (seat.new ≡ seat.old)) }
{
    let mut at = Answering {
        seat: *seat,
        text,
        step: EditStep::Close,
    };
    pass.show(&mut at)?;
    *seat = at.seat;
    Ok(at.step)
}
