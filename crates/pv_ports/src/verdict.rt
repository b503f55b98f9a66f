ghost use Rattle.std.specs.Prelude.{◌≡◌, ◌+◌, ℕ, List, length, take};
ghost use Rattle.pv_ports.specs.Session.{TakesLine, AnswersEdit, Exchanges};
ghost use Rattle.pv_ports.specs.declared.typing.TheConstants.{KEPT};

use crate::answering::answer_line;
use crate::edit_end::EditEnd;
use crate::typing::text_in_line;
use pv_editor::{EditStep, EditorSeat, Text, closing_text, reply_text};
use pv_edits::{EditWish, Record};
use pv_group::{GroupRun, Live};
use pv_live::{LiveFault, Pass, Run};
use pv_node::Rules;
use pv_outside::Disk;
use pv_page::AccountNo;
use pv_udc::{UdcRequest, UdcRules};
use pv_verdicts::{disk_failed, full, out_of_memory, view_of, within};
use std::sync::Wait;

/// What comes of a line: its reply, its mark, and the end of the session, if it brings one.
#[derive(Drop)]
pub(crate) struct Reply<D: Disk> {
    pub(crate) text: Text,
    pub(crate) mark: u64,
    pub(crate) end: Option<EditEnd<D>>,
}

/// Takes a line, by looks of which one is let in.
fn look<N: Run<Record>, W: Wait>(
    rt: &W,
    pass: &mut Pass<UdcRules, N>,
    seat: &mut EditorSeat,
    text: &[u8],
) -> EditStep
    ensures { TakesLine ⟦<UdcRules as Rules>⟧ N.limits N.opening
        pass.old seat.old text.now pass.new seat.new result }
{
    for _ in rt.forever() {
        if let Ok(step) = answer_line(pass, seat, text) {
            return step;
        }
    }
    unreachable!()
}

/// Asks the Update Centre for an edit.
fn ask<N: GroupRun<Record>, D: Disk, H: Wait + Drop, W: Wait>(
    rt: &W,
    udc: &Live<UdcRules, D, N, H>,
    pass: &mut Pass<UdcRules, N>,
    editor: AccountNo,
    q: u32,
    wish: EditWish,
) -> Reply<D>
    ensures { AnswersEdit ⟦<UdcRules as Rules>⟧ N.limits N.opening editor q wish pass.old pass.new result }
{
    within(editor, q, &wish);
    match udc.ask(rt, pass, &UdcRequest::Edit { editor, q, wish }) {
        Ok(told) => Reply {
            text: reply_text(&view_of(told.reply)),
            mark: told.number.unwrap_or(pass.length()),
            end: None,
        },
        Err(LiveFault::Full { count }) => Reply {
            text: reply_text(&full(count)),
            mark: pass.length(),
            end: None,
        },
        Err(LiveFault::Disk(failure)) => Reply {
            text: reply_text(&disk_failed()),
            mark: pass.length(),
            end: Some(EditEnd::DiskFault(failure)),
        },
        Err(LiveFault::Memory { stored }) => Reply {
            text: reply_text(&out_of_memory()),
            mark: pass.length(),
            end: Some(EditEnd::Memory { stored }),
        },
    }
}

/// Takes a line, of which this is kept, and has the Update Centre judge the edit that it asks for.
pub(crate) fn exchange<N: GroupRun<Record>, D: Disk, H: Wait + Drop, W: Wait>(
    rt: &W,
    udc: &Live<UdcRules, D, N, H>,
    pass: &mut Pass<UdcRules, N>,
    seat: &mut EditorSeat,
    kept: &[u8],
) -> Reply<D>
    ensures { (line : List ℕ) → kept.now ≡ take KEPT line
        → Exchanges ⟦<UdcRules as Rules>⟧ N.limits N.opening pass.old seat.old line pass.new seat.new result }
{
    match look(rt, pass, seat, text_in_line(kept)) {
        EditStep::Say(text) => Reply {
            text,
            mark: pass.length(),
            end: None,
        },
        EditStep::Close => Reply {
            text: closing_text(),
            mark: pass.length(),
            end: Some(EditEnd::Closed),
        },
        EditStep::Ask { editor, q, wish } => ask(rt, udc, pass, editor, q, wish),
        EditStep::Responses { .. } => unreachable!(),
    }
}
