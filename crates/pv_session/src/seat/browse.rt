ghost use Rattle.std.specs.Prelude.{◌≡◌, ◌<◌, ◌≤◌};
ghost use Rattle.pv_edits.specs.Sight.{view_of};
ghost use Rattle.pv_session.specs.Charging.{charge_of};
ghost use Rattle.pv_session.specs.Fetching.{showing_turn, charging_turn, found_turn, fetch_turn, visit_turn, route_turn};
ghost use Rattle.pv_session.specs.Fetching.{next_turn, back_turn, repeat_turn, fresh_turn, command_turn};
ghost use Rattle.pv_session.specs.Seat.{state_of};
ghost use Rattle.pv_session.specs.Shown.{route_of_digit};
ghost use Rattle.pv_session.specs.Turns.{Goes, charged_turn};

use super::Seat;
use crate::message::Message;
use crate::names::{first_frame, main_index};
use crate::present::Present;
use crate::reading::Reading;
use crate::step::{Phase, Step, Why, Wish};
use pv_charge::{LAST_MOMENT, Line};
use pv_edits::Sight;
use pv_keys::{Command, KeyReader};
use pv_page::{FrameName, PageNo};

/// What the commands of a caller do.
impl Seat {
    /// Does what a command asks for.
    pub(super) fn obey(&mut self, command: Command, sight: &Sight, moment: u32) -> Step
        requires uncharged { self.old.lines < self.old.entries }
        requires moment { moment ≤ LAST_MOMENT }
        ensures { Goes (command_turn (state_of self.old) (view_of sight.now) moment command)
            (state_of self.new) result }
    {
        match command {
            Command::Route(digit) => self.route(digit, sight, moment),
            Command::Next => self.next(sight, moment),
            Command::Go(page) => self.go(first_frame(page), sight, moment),
            Command::Back => self.back(sight, moment),
            Command::Repeat => self.repeat(),
            Command::Fresh => self.fresh(sight, moment),
            Command::Mail => self.letter(sight),
            Command::End => self.end(Why::Finished, Message::CallEnded),
            Command::Cancel => Step::Show(Message::Blank.alone()),
            Command::Slip => Step::Show(Message::KeysNotUnderstood.alone()),
        }
    }

    /// Follows the present frame's route of a digit.
    fn route(&mut self, digit: u8, sight: &Sight, moment: u32) -> Step
        requires uncharged { self.old.lines < self.old.entries }
        requires moment { moment ≤ LAST_MOMENT }
        ensures { Goes (route_turn (state_of self.old) (view_of sight.now) moment
            (route_of_digit (state_of self.old).present digit)) (state_of self.new) result }
    {
        match self.route_of(digit) {
            Some(page) => self.go(first_frame(page), sight, moment),
            None => Step::Show(Message::NoSuchRoute.alone()),
        }
    }

    /// Shows the next frame of the page, or the main index if no frame is shown.
    fn next(&mut self, sight: &Sight, moment: u32) -> Step
        requires uncharged { self.old.lines < self.old.entries }
        requires moment { moment ≤ LAST_MOMENT }
        ensures { Goes (next_turn (state_of self.old) (view_of sight.now) moment
            (state_of self.old).present) (state_of self.new) result }
    {
        let name = match &self.present {
            Some(present) => present.name().next_letter(),
            None => Some(main_index()),
        };
        match name {
            Some(name) => self.go(name, sight, moment),
            None => Step::Show(Message::PageNotAvailable.alone()),
        }
    }

    /// Shows a frame from which the caller can go back to the present one.
    fn go(&mut self, name: FrameName, sight: &Sight, moment: u32) -> Step
        requires uncharged { self.old.lines < self.old.entries }
        requires moment { moment ≤ LAST_MOMENT }
        ensures { Goes (visit_turn (state_of self.old) moment name ((view_of sight.now).pages name))
            (state_of self.new) result }
    {
        match sight.frame(name) {
            Some(frame) => {
                if let Some(present) = &self.present {
                    self.earlier.push(present.name());
                }
                self.found(Present::new(name, frame), moment)
            }
            None => Step::Show(Message::PageNotAvailable.alone()),
        }
    }

    /// Shows the last earlier frame. Its name is used up, even if the caller cannot see it.
    fn back(&mut self, sight: &Sight, moment: u32) -> Step
        requires uncharged { self.old.lines < self.old.entries }
        requires moment { moment ≤ LAST_MOMENT }
        ensures { Goes (back_turn (state_of self.old) (view_of sight.now) moment
            (state_of self.old).earlier) (state_of self.new) result }
    {
        match self.earlier.pop() {
            Some(name) => self.fetch(name, sight, moment),
            None => Step::Show(Message::NoPreviousFrame.alone()),
        }
    }

    /// Shows the present frame as it was fetched.
    fn repeat(&mut self) -> Step
        ensures { Goes (repeat_turn (state_of self.old) (state_of self.old).present)
            (state_of self.new) result }
    {
        match self.present {
            Some(present) => self.show(present),
            None => Step::Show(Message::Welcome.on_blank()),
        }
    }

    /// Shows the present frame as it is now.
    fn fresh(&mut self, sight: &Sight, moment: u32) -> Step
        requires uncharged { self.old.lines < self.old.entries }
        requires moment { moment ≤ LAST_MOMENT }
        ensures { Goes (fresh_turn (state_of self.old) (view_of sight.now) moment
            (state_of self.old).present) (state_of self.new) result }
    {
        match self.present {
            Some(present) => self.fetch(present.name(), sight, moment),
            None => Step::Show(Message::Welcome.on_blank()),
        }
    }

    /// Shows the frame of a name, if the caller may see one.
    fn fetch(&mut self, name: FrameName, sight: &Sight, moment: u32) -> Step
        requires uncharged { self.old.lines < self.old.entries }
        requires moment { moment ≤ LAST_MOMENT }
        ensures { Goes (fetch_turn (state_of self.old) moment name ((view_of sight.now).pages name))
            (state_of self.new) result }
    {
        match sight.frame(name) {
            Some(frame) => self.found(Present::new(name, frame), moment),
            None => Step::Show(Message::PageNotAvailable.alone()),
        }
    }

    /// Shows a frame that was found, if it is free. A priced one is charged first.
    fn found(&mut self, shown: Present, moment: u32) -> Step
        requires uncharged { self.old.lines < self.old.entries }
        requires moment { moment ≤ LAST_MOMENT }
        ensures { Goes (found_turn (state_of self.old) moment shown) (state_of self.new) result }
    {
        if shown.price() == 0 {
            self.show(shown)
        } else {
            self.charge(shown, moment)
        }
    }

    /// Keeps a frame aside and owes its charge.
    fn charge(&mut self, shown: Present, moment: u32) -> Step
        requires uncharged { self.old.lines < self.old.entries }
        requires moment { moment ≤ LAST_MOMENT }
        ensures { Goes (charging_turn (state_of self.old) shown
            (charge_of (state_of self.old) shown.name shown.frame.price moment))
            (state_of self.new) result }
    {
        match self.line(&shown, moment) {
            Some(line) => {
                self.aside = Some(shown);
                self.phase = Phase::Owing(Wish::Charge(line));
                Step::Owe(Wish::Charge(line))
            }
            None => Step::Show(Message::PageNotAvailable.alone()),
        }
    }

    /// The charge for a frame. `None` exactly when the caller has not logged on.
    fn line(&self, shown: &Present, moment: u32) -> Option<Line>
        requires { moment ≤ LAST_MOMENT }
        ensures { result ≡ charge_of (state_of self.now) shown.now.name shown.now.frame.price
            moment }
    {
        let number = self.lines;
        Some(Line {
            serial: self.serial?,
            number,
            account: self.account?,
            name: shown.name(),
            price: shown.price(),
            moment,
        })
    }

    /// Shows the frame that was kept aside, since its charge is stored.
    pub(super) fn charged(&mut self) -> Step
        requires { self.old.lines < self.old.entries }
        ensures { Goes (charged_turn (state_of self.old) (state_of self.old).aside)
            (state_of self.new) result }
    {
        match self.aside {
            Some(shown) => {
                self.phase = Phase::Listening;
                self.lines += 1;
                self.aside = None;
                self.show(shown)
            }
            None => Step::Quiet,
        }
    }

    /// Makes a frame the present one and shows it.
    fn show(&mut self, shown: Present) -> Step
        ensures { Goes (showing_turn (state_of self.old) shown) (state_of self.new) result }
    {
        self.present = Some(shown);
        self.filled = None;
        self.reading = match shown.field(0) {
            Some(reader) => Reading::Fill(reader),
            None => Reading::Browse(KeyReader::new()),
        };
        Step::Show(shown.screen())
    }

    /// Where the present frame's route of a digit leads.
    fn route_of(&self, digit: u8) -> Option<PageNo>
        ensures { result ≡ route_of_digit (state_of self.now).present digit }
    {
        self.present.as_ref()?.route(digit)
    }
}
