ghost use Rattle.std.specs.Prelude.{◌≡◌, ℕ, ◌+◌, ◌<◌, ◌≤◌, ◌^◌, Option, false, length, IsTrue, IsOk, IsErr, IfOk};
ghost use Rattle.pv_words.specs.Parts.{Exactly};
ghost use Rattle.pv_editor.specs.Lines.{IsLine};
ghost use Rattle.pv_editor.specs.declared.line.EditLine.{EditLine};
ghost use Rattle.pv_editor.specs.declared.step.EditStep.TheVariants as steps;
ghost use Rattle.pv_charge.specs.declared.line.TheConstants.{LAST_MOMENT};
ghost use Rattle.pv_account.specs.declared.account.TheConstants.{MAX_CENTRES};
ghost use Rattle.pv_network.specs.Bills.{step_of_bill, step_of_lines};
ghost use Rattle.pv_network.specs.Replies.{RepliesByLine};
ghost use Rattle.pv_network.specs.World.{World, start};
ghost use Rattle.pv_network.specs.Standing.{StandsFor, Performs, TakesPlace, IsPossible, takes_memory};
ghost use Rattle.pv_network.specs.Editing.{step_of_request, seed_request, step_of_seeding, step_of_line, step_of_said, step_of_edit};
ghost use Rattle.pv_network.specs.Step.{step_of_view, step_of_at, step_of_list, step_of_clock};

mod asking;
mod calling;
mod crashing;
mod cutting;
mod keying;
mod traffic;

use crate::bills::bill;
use crate::centre::{Centre, open_centres};
use crate::event::{EDITORS, Event};
use crate::moment::Moment;
use crate::outcome::{Outcome, Turn};
use crate::verdict::store;
use pv_editor::{EditStep, EditorSeat, closing_text, reply_text};
use pv_edits::{EditWish, OPERATOR};
use pv_frame::{FIRST_ROW, Frame};
use pv_nodes::{UpdateNode, a_centre_shows_what_the_list_shows};
use pv_outside::Limits;
use pv_page::{AccountNo, FrameName};
use pv_screen::{Screen, compose};
use pv_traffic::{Links, Way};
use pv_udc::UdcRequest;
use pv_verdicts::{responses, within};
use std::alloc::{AllocError, Global};
use std::marker::Model;

/// One Update Centre and one to four retrieval centres, with the links between them.
pub struct Network {
    update: UpdateNode,
    moment: Moment,
    seats: [EditorSeat; EDITORS as usize],
    centres: Vec<Centre>,
    links: Links,
    // Whether a step was out of memory; every later step is too.
    is_out: bool,
}

impl Model for Network {
    ghost use Rattle.std.specs.Prelude.{◌≡◌, length};
    ghost use Rattle.pv_network.specs.Standing.{State, IsStanding};

    ghost Value = { State };

    ghost view = { λ n. record {
      update = n.update.state;
      disk = n.update.disk;
      moment = n.moment;
      seats = n.seats;
      centres = n.centres.items;
      links = n.links;
      is_out = n.is_out;
    } };

    // It stands for a world: so each record of a packet has room at the centre that takes it.
    ghost invariant = { λ n. (length n.links ≡ length n.centres.items) × IsStanding (record {
      update = n.update.state;
      disk = n.update.disk;
      moment = n.moment;
      seats = n.seats;
      centres = n.centres.items;
      links = n.links;
      is_out = n.is_out;
    }) };
}

impl Drop for Network {
    /// One call frees all parts, so that a proof has one step where such a value ends.
    fn drop(self) {
        let Network {
            update: _,
            moment: _,
            seats: _,
            centres: _,
            links: _,
            is_out: _,
        } = self;
    }
}

impl Network {
    /// A network of one to four centres, on which nothing has happened, with these limits for each of
    /// its nodes. It reserves the room that every event needs, except for [`Event::Keys`], [`Event::Crash`],
    /// [`Event::Cut`], [`Event::Bill`] and [`Event::Lines`]. The only error is that memory ran out.
    pub fn open(alloc: Global, centres: u8, limits: Limits) -> Result<Network, AllocError>
        requires some { 1 ≤ centres }
        requires few { centres ≤ MAX_CENTRES }
        ensures ok { IfOk result (λ network. StandsFor network (start centres limits)) }
        ensures centres { IfOk result (λ network. length network.centres ≡ centres) }
        ensures memory { IfOk result (λ network. network.is_out ≡ false) }
    {
        Ok(Network {
            update: UpdateNode::open(alloc, limits)?,
            moment: Moment::of(0),
            seats: [EditorSeat::new(); EDITORS as usize],
            centres: open_centres(alloc, centres, limits)?,
            links: Links::open(alloc, centres)?,
            is_out: false,
        })
    }

    /// Lets an event happen, and returns what came of it. The event's centre is one of the network's, and
    /// its port is below [`EDITORS`], or below [`PORTS`](crate::PORTS) at a centre. The only error is that memory
    /// ran out: after it, every later step returns it too. No events but [`Event::Keys`], [`Event::Crash`],
    /// [`Event::Cut`], [`Event::Bill`] and [`Event::Lines`] take memory.
    #[inline(always)]
    pub fn step(&mut self, event: &Event) -> Result<Outcome, AllocError>
        requires { IsPossible self.old event.now }

        // Whatever world the network stood for, it stands for the next one, and the outcome is that answer.
        ensures performs { IfOk result (TakesPlace event.now self.old self.new) }
        ensures centres { length self.new.centres ≡ length self.old.centres }

        // A reply to an editor stands on one row, and begins with a capital letter.
        ensures replies { IfOk result RepliesByLine }

        // A network that is not out of memory succeeds, unless the event takes memory.
        ensures succeeds { takes_memory event.now ≡ false → self.old.is_out ≡ false → IsOk result }

        // It runs out of memory exactly when it fails, and stays so.
        ensures stays_in { IsOk result → self.new.is_out ≡ false }
        ensures out { IsTrue self.old.is_out → IsErr result }
        ensures stays_out { IsErr result → IsTrue self.new.is_out }
    {
        if self.is_out {
            return Err(AllocError);
        }
        if takes_memory(event) {
            return self.try_step(event);
        }
        let outcome = self.happen(event);
        self.is_out = false;
        Ok(outcome)
    }

    /// The step of an event that takes memory, and notes whether it ran out. It is apart from the others since an outcome
    /// has about a thousand bytes: room for each `Result` of one would be zeroed at every step.
    #[inline(never)]
    fn try_step(&mut self, event: &Event) -> Result<Outcome, AllocError>
        requires possible { IsPossible self.old event.now }
        requires memory { IsTrue (takes_memory event.now) }

        // The network and the outcome are those of the event, and a failure is noted.
        ensures performs { IfOk result (TakesPlace event.now self.old self.new) }
        ensures centres { length self.new.centres ≡ length self.old.centres }
        ensures stays_in { IsOk result → self.new.is_out ≡ false }
        ensures stays_out { IsErr result → IsTrue self.new.is_out }
    {
        let outcome = self.try_happen(event);
        self.is_out = outcome.is_err();
        outcome
    }

    /// Lets an event happen that takes memory.
    fn try_happen(&mut self, event: &Event) -> Result<Outcome, AllocError>
        requires possible { IsPossible self.old event.now }
        requires memory { IsTrue (takes_memory event.now) }
        ensures performs { IfOk result (TakesPlace event.now self.old self.new) }
        ensures centres { length self.new.centres ≡ length self.old.centres }
    {
        match event {
            Event::Keys { centre, port, keys } => self.keys(*centre, *port as usize, keys.bytes()),
            Event::Crash { node } => self.crash(*node),
            Event::Cut {
                calls,
                image,
                command,
            } => self.cut(*calls, *image, command),
            Event::Bill { account } => self.bill(*account),
            Event::Lines { centre } => self.lines(*centre),
            // No other event takes memory.
            _ => Err(AllocError),
        }
    }

    /// Lets an event happen that takes no memory.
    #[inline(always)]
    fn happen(&mut self, event: &Event) -> Outcome
        requires possible { IsPossible self.old event.now }
        requires frugal { takes_memory event.now ≡ false }
        ensures performs { TakesPlace event.now self.old self.new result }
        ensures centres { length self.new.centres ≡ length self.old.centres }
    {
        match event {
            Event::Seed { name, row } => self.seed(*name, row),
            Event::Edit { port, line } => self.edit(*port as usize, line.bytes()),
            Event::Dial { centre, port } => self.dial(*centre as usize, *port as usize),
            Event::Press { centre, port, key } => self.press(*centre, *port as usize, *key),
            Event::Store { centre, port } => self.store(*centre as usize, *port as usize),
            Event::Show { centre, port } => self.show(*centre as usize, *port as usize),
            Event::Hang { centre, port } => self.hang(*centre as usize, *port as usize),
            Event::Send { centre } => self.send(Way::Down, *centre),
            Event::Post { centre } => self.send(Way::Up, *centre),
            Event::Deliver { centre, index } => self.arrive(Way::Down, *centre, *index),
            Event::Back { centre, index } => self.arrive(Way::Up, *centre, *index),
            Event::Carry { centre } => self.carry(*centre),
            Event::Clock { moment } => self.clock(*moment),
            Event::View { centre, name } => self.view(*centre as usize, *name),
            Event::At { centre } => self.at(*centre as usize),
            Event::List => self.list(),
            // These take memory, and so do not get here.
            Event::Keys { .. } => Outcome::Nothing,
            Event::Crash { .. } => Outcome::Nothing,
            Event::Cut { .. } => Outcome::Nothing,
            Event::Bill { .. } => Outcome::Nothing,
            Event::Lines { .. } => Outcome::Nothing,
        }
    }

    /// The operator's next number puts a frame under a name that is blank except for its row 2.
    #[inline(never)]
    fn seed(&mut self, name: FrameName, row: &[u8; 40]) -> Outcome
        ensures performs { Performs self.old self.new result (λ w. step_of_seeding w name row.now) }
        ensures centres { length self.new.centres ≡ length self.old.centres }
    {
        let (editor, q, wish) = self.seeding(name, row);
        self.ask(editor, q, wish)
    }

    /// The request that does this: its editor, its number, and what is asked for.
    fn seeding(&self, name: FrameName, row: &[u8; 40]) -> (AccountNo, u32, EditWish)
        ensures { (w : World) → StandsFor self.now w → result ≡ seed_request w name row.now }
    {
        let mut frame = Frame::blank();
        frame.set_row(FIRST_ROW, row);
        let editor = AccountNo::of_number(OPERATOR).unwrap();
        let q = self.update.state().next_number(editor) as u32;
        (editor, q, EditWish::Put { name, frame })
    }

    /// The Update Centre judges an editor's request, and stores its record unless it is refused.
    #[inline(never)]
    fn ask(&mut self, editor: AccountNo, q: u32, wish: EditWish) -> Outcome
        ensures performs { Performs self.old self.new result (λ w. step_of_request w editor q wish) }
        ensures centres { length self.new.centres ≡ length self.old.centres }
    {
        within(editor, q, &wish);
        let reply = store(&mut self.update, &UdcRequest::Edit { editor, q, wish });
        Outcome::Reply(reply_text(&reply))
    }

    /// An editor's line arrives at a port.
    #[inline(never)]
    fn edit(&mut self, port: usize, line: &[u8]) -> Outcome
        requires { port < EDITORS }
        ensures performs { (said : Option EditLine) × Exactly (IsLine line.now) said
            × Performs self.old self.new result (λ w. step_of_edit w port said) }
        ensures centres { length self.new.centres ≡ length self.old.centres }
    {
        match self.take_line(port, line) {
            EditStep::Say(text) => Outcome::Reply(text),
            EditStep::Ask { editor, q, wish } => self.ask(editor, q, wish),
            EditStep::Responses { editor, from } => self.responses(editor, from),
            EditStep::Close => self.close(port),
        }
    }

    /// Takes an editor's line at a port, and returns its step.
    fn take_line(&mut self, port: usize, line: &[u8]) -> EditStep
        requires { port < EDITORS }
        ensures performs { (said : Option EditLine) × Exactly (IsLine line.now) said
            × Performs self.old self.new result (λ w. step_of_line w port said) }
        ensures centres { length self.new.centres ≡ length self.old.centres }
    {
        self.seats[port].line(line, self.update.state().base())
    }

    /// What was keyed into an editor's frames, from a place on.
    #[inline(never)]
    fn responses(&self, editor: AccountNo, from: u64) -> Outcome
        ensures { (port : ℕ) → Performs self.now self.now result
            (λ w. step_of_said w port (steps.Responses editor from)) }
    {
        Outcome::Reply(responses(self.update.state(), editor, from))
    }

    /// Ends the session at a port.
    #[inline(never)]
    fn close(&mut self, port: usize) -> Outcome
        requires { port < EDITORS }
        ensures performs { Performs self.old self.new result (λ w. step_of_said w port steps.Close) }
        ensures centres { length self.new.centres ≡ length self.old.centres }
    {
        self.seats[port] = EditorSeat::new();
        Outcome::Reply(closing_text())
    }

    /// The clock shows a moment.
    #[inline(always)]
    fn clock(&mut self, moment: u32) -> Outcome
        requires { moment ≤ LAST_MOMENT }
        ensures performs { Performs self.old self.new result (λ w. step_of_clock w moment) }
        ensures centres { length self.new.centres ≡ length self.old.centres }
    {
        self.moment = Moment::of(moment);
        Outcome::Clock { moment }
    }

    /// A frame as a centre holds it.
    #[inline(never)]
    fn view(&self, centre: usize, name: FrameName) -> Outcome
        requires { centre < length self.now.centres }
        ensures { Performs self.now self.now result (λ w. step_of_view w centre name) }
    {
        a_centre_shows_what_the_list_shows();
        let Some(frame) = self.centres[centre].frame(name) else {
            return Outcome::NotHeld;
        };
        Outcome::Shown(Turn {
            screen: Screen::Whole(compose(frame, name)),
            ended: None,
        })
    }

    /// How many records a centre has applied.
    #[inline(always)]
    fn at(&self, centre: usize) -> Outcome
        requires { centre < length self.now.centres }
        ensures { Performs self.now self.now result (λ w. step_of_at w centre) }
    {
        let count = self.centres[centre].applied();
        Outcome::Applied { count }
    }

    /// How many records the edit list has.
    #[inline(always)]
    fn list(&self) -> Outcome
        ensures { Performs self.now self.now result step_of_list }
    {
        let count = self.update.count();
        Outcome::Records { count }
    }

    /// The bill of an account. The only error is that memory ran out for its charge lines.
    fn bill(&self, account: AccountNo) -> Result<Outcome, AllocError>
        ensures { IfOk result
            (λ outcome. Performs self.now self.now outcome (λ w. step_of_bill w account)) }
    {
        bill(*self.centres.allocator(), self.update.state(), account)
    }

    /// The charge lines that a centre has stored. The only error is that memory ran out for them.
    fn lines(&self, centre: u8) -> Result<Outcome, AllocError>
        requires { centre < length self.now.centres }
        ensures { IfOk result
            (λ outcome. Performs self.now self.now outcome (λ w. step_of_lines w centre)) }
    {
        self.centres[centre as usize].lines(*self.centres.allocator(), centre)
    }
}

/// Whether an event takes memory.
fn takes_memory(event: &Event) -> bool
    ensures { result ≡ takes_memory event.now }
{
    matches!(
        event,
        Event::Keys { .. }
            | Event::Crash { .. }
            | Event::Cut { .. }
            | Event::Bill { .. }
            | Event::Lines { .. }
    )
}
