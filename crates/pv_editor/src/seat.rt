ghost use Rattle.std.specs.Prelude.{◌≡◌, ℕ, Some, option_map, option_copied};
ghost use Rattle.pv_fields.specs.Refusals.{first_of};
ghost use Rattle.pv_edits.specs.Edits.{frame_at, last_of};
ghost use Rattle.pv_frame.specs.Content.{blank_frame};
ghost use Rattle.pv_editor.specs.declared.step.EditStep.TheVariants as steps;
ghost use Rattle.pv_editor.specs.Replies.{refusal_text};
ghost use Rattle.pv_editor.specs.Say.{new_seat, Says, turn_of, refusals, open_refusals, change_refusal, log_on_refusal, needs_account, needs_frame, is_password, step_of, by_editor, store_step, last_step, number_of_last, seat_after, changed_working, frame_for, refusal_step, plain};

use crate::change::{FrameChange, has_all_fields, make_change};
use crate::line::EditLine;
use crate::reading::line_of;
use crate::replies::{
    BAD_FRAME, BAD_LINE, LOG_ON_FIRST, NO_FRAME, NOT_KNOWN, NOT_OWNER, NOTHING_OPEN, UdcReplyView,
    last_text, ok_text, reply_text,
};
use crate::step::EditStep;
use pv_account::{Account, AccountNo, PASSWORD_BYTES};
use pv_edits::{Base, EditWish};
use pv_frame::{Frame, FrameError};
use pv_page::FrameName;

/// The frame that an editor makes, and the name that it is for.
#[derive(Clone, Copy, Debug, PartialEq, Eq)]
pub struct Working {
    /// The name.
    pub name: FrameName,
    /// The frame.
    pub frame: Frame,
}

/// Where an editor's lines arrive: nobody or an account is logged on, and there is a working frame or
/// none.
#[derive(Clone, Copy, Debug, PartialEq, Eq)]
pub struct EditorSeat {
    account: Option<AccountNo>,
    working: Option<Working>,
}

impl EditorSeat {
    /// A seat with nobody logged on and no working frame.
    pub fn new() -> EditorSeat
        ensures { result ≡ new_seat }
    {
        EditorSeat {
            account: None,
            working: None,
        }
    }

    /// Who is logged on, if anybody is.
    pub fn account(&self) -> Option<AccountNo>
        ensures { result ≡ self.now.account }
    {
        self.account
    }

    /// Takes a line, and returns its step. The base is the Update Centre's.
    pub fn line(&mut self, text: &[u8], base: &Base) -> EditStep
        ensures says { Says self.old text.now base.now.records base.now.places self.new result }
        // A line that is answered by a refusal leaves the seat as it was.
        ensures refused { (code shown : ℕ) → result ≡ steps.Say (refusal_text code shown)
            → self.new ≡ self.old }
    {
        match line_of(text) {
            Some(line) => self.take(&line, base),
            None => refused(BAD_LINE),
        }
    }

    /// Takes a line that was read.
    fn take(&mut self, line: &EditLine, base: &Base) -> EditStep
        ensures seat { self.new ≡ (turn_of self.old base.now.records base.now.places (Some line.now)).0 }
        ensures step { result ≡ (turn_of self.old base.now.records base.now.places (Some line.now)).1 }
    {
        match self.refusal(line, base) {
            Some(refusal) => EditStep::Say(reply_text(&refusal)),
            None => {
                let step = self.step(line, base);
                self.change(line, base);
                step
            }
        }
    }

    /// The first reason why a line is refused.
    fn refusal(&self, line: &EditLine, base: &Base) -> Option<UdcReplyView>
        ensures { result ≡ first_of (refusals self.now base.now.records line.now) }
    {
        if needs_account(line) && self.account.is_none() {
            return Some(UdcReplyView::Refused(LOG_ON_FIRST, 0));
        }
        if needs_frame(line) && self.working.is_none() {
            return Some(UdcReplyView::Refused(NOTHING_OPEN, 0));
        }
        match line {
            EditLine::LogOn { account, password } => log_on_refusal(*account, password, base),
            EditLine::Open { name } => self.open_refusal(*name, base),
            EditLine::Change { change } => self.change_refusal(change),
            _ => None,
        }
    }

    /// Why a frame cannot be opened: its page is another's, or there is none.
    fn open_refusal(&self, name: FrameName, base: &Base) -> Option<UdcReplyView>
        ensures { result ≡ first_of (open_refusals self.now.account base.now.records name) }
    {
        if self.account != Some(base.owner(name.page)) {
            return Some(UdcReplyView::Refused(NOT_OWNER, 0));
        }
        if base.get(name).is_none() {
            return Some(UdcReplyView::Refused(NO_FRAME, 0));
        }
        None
    }

    /// Why a change is refused: it is a field, and the working frame has all fields.
    fn change_refusal(&self, change: &FrameChange) -> Option<UdcReplyView>
        ensures { result ≡ change_refusal self.now.working change.now }
    {
        match (change, &self.working) {
            (FrameChange::Field { field: Some(_) }, Some(working)) => {
                if has_all_fields(&working.frame) {
                    Some(UdcReplyView::Refused(BAD_FRAME, FrameError::Shape.number() as u64))
                } else {
                    None
                }
            }
            _ => None,
        }
    }

    /// The step of a line that is not refused.
    fn step(&self, line: &EditLine, base: &Base) -> EditStep
        ensures { result ≡ step_of self.now base.now.records base.now.places line.now }
    {
        match line {
            EditLine::Store { q } => self.store_step(*q),
            EditLine::Ask { q, wish } => self.ask_step(*q, wish),
            EditLine::Last => self.last_step(base),
            EditLine::Responses { from } => self.responses_step(*from),
            EditLine::Quit => EditStep::Close,
            _ => EditStep::Say(ok_text()),
        }
    }

    /// The request that an editor makes.
    fn ask_step(&self, q: u32, wish: &EditWish) -> EditStep
        ensures { result ≡ by_editor self.now.account (λ editor. steps.Ask editor q wish.now) }
    {
        match self.account {
            Some(editor) => EditStep::Ask {
                editor,
                q,
                wish: *wish,
            },
            None => refused(LOG_ON_FIRST),
        }
    }

    /// The request that the working frame is stored.
    fn store_step(&self, q: u32) -> EditStep
        ensures { result ≡ store_step self.now q }
    {
        match &self.working {
            Some(working) => self.ask_step(
                q,
                &EditWish::Put {
                    name: working.name,
                    frame: working.frame,
                },
            ),
            None => refused(NOTHING_OPEN),
        }
    }

    /// The answer to a question for the editor's last number.
    fn last_step(&self, base: &Base) -> EditStep
        ensures { result ≡ last_step self.now base.now.records base.now.places }
    {
        match self.account {
            Some(editor) => EditStep::Say(last_text(last_number(editor, base))),
            None => refused(LOG_ON_FIRST),
        }
    }

    /// The search for responses.
    fn responses_step(&self, from: u64) -> EditStep
        ensures { result ≡ by_editor self.now.account (λ editor. steps.Responses editor from) }
    {
        match self.account {
            Some(editor) => EditStep::Responses { editor, from },
            None => refused(LOG_ON_FIRST),
        }
    }

    /// Changes the seat as a line says that is not refused.
    fn change(&mut self, line: &EditLine, base: &Base)
        ensures { self.new ≡ seat_after self.old base.now.records line.now }
    {
        match line {
            EditLine::LogOn { account, .. } => {
                self.account = Some(*account);
                self.working = None;
            }
            EditLine::New { name } => self.working = Some(blank_working(*name)),
            EditLine::Open { name } => self.working = stored_working(*name, base),
            EditLine::Change { change } => self.change_frame(change),
            _ => {}
        }
    }

    /// Makes a change of the working frame. Without one nothing changes.
    fn change_frame(&mut self, change: &FrameChange)
        ensures account { self.new.account ≡ self.old.account }
        ensures working { self.new.working ≡ option_map (changed_working change.now) self.old.working }
    {
        if let Some(working) = &mut self.working {
            make_change(&mut working.frame, change);
        }
    }
}

/// A blank frame for a name.
fn blank_working(name: FrameName) -> Working
    ensures { result ≡ frame_for name blank_frame }
{
    Working {
        name,
        frame: Frame::blank(),
    }
}

/// The stored frame of a name.
fn stored_working(name: FrameName, base: &Base) -> Option<Working>
    ensures { result ≡ option_map (frame_for name) (frame_at base.now.records name) }
{
    match base.get(name) {
        Some(frame) => Some(Working {
            name,
            frame: *frame,
        }),
        None => None,
    }
}

/// Whether only an account may say the line.
fn needs_account(line: &EditLine) -> bool
    ensures { result ≡ needs_account line.now }
{
    !matches!(line, EditLine::LogOn { .. } | EditLine::Quit)
}

/// Whether the line is about the working frame.
fn needs_frame(line: &EditLine) -> bool
    ensures { result ≡ needs_frame line.now }
{
    matches!(line, EditLine::Change { .. } | EditLine::Store { .. })
}

/// Why an account cannot be logged on: there is none, or it has another password.
fn log_on_refusal(
    account: AccountNo,
    password: &[u8; PASSWORD_BYTES],
    base: &Base,
) -> Option<UdcReplyView>
    ensures { result ≡ log_on_refusal base.now.records account password.now }
{
    if is_password(base.account(account), password) {
        None
    } else {
        Some(UdcReplyView::Refused(NOT_KNOWN, 0))
    }
}

/// Whether there is the account, and this is its password.
fn is_password(account: Option<&Account>, password: &[u8; PASSWORD_BYTES]) -> bool
    ensures { result ≡ is_password (option_copied account.entry) password.now }
{
    match account {
        Some(account) => account.matches(password),
        None => false,
    }
}

/// An editor's last number, 0 at first.
fn last_number(editor: AccountNo, base: &Base) -> u32
    ensures { result ≡ number_of_last (last_of base.now.records base.now.places editor) }
{
    match base.last(editor) {
        Some((q, _)) => q,
        None => 0,
    }
}

/// The reply that a line is refused with this code.
fn refused(code: u8) -> EditStep
    ensures { result ≡ refusal_step (plain code) }
{
    EditStep::Say(reply_text(&UdcReplyView::Refused(code, 0)))
}
