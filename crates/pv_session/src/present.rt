ghost use Rattle.std.specs.Prelude.{◌≡◌, ◌<◌, ◌≤◌, [], Some, IsSome, IfSome, option_map};
ghost use Rattle.pv_page.specs.Names.{IsName};
ghost use Rattle.pv_frame.specs.Errors.{IsValid};
ghost use Rattle.pv_session.specs.Shown.{is_letter_form};

use crate::field::FieldReader;
use crate::letters::{mail, reply};
use pv_charge::{LAST_MOMENT, MAX_PRICE};
use pv_frame::{FIELDS, Frame, Kind, errors_are_what_they_say};
use pv_page::{AccountNo, FrameName, PageNo};
use pv_post::{Fields, Item};
use pv_screen::{Screen, compose};
use std::marker::Model;

/// The frame that a caller is shown, as it was fetched. Contracts see its name and what it held.
#[derive(Clone, Copy, Debug, PartialEq, Eq)]
pub(crate) struct Present {
    name: FrameName,
    frame: Frame,
}

impl Model for Present {
    ghost use Rattle.pv_frame.specs.Errors.{IsValid};
    ghost use Rattle.pv_session.specs.Shown.{ShownFrame};

    ghost Value = { ShownFrame };

    ghost view = { λ present. record { name = present.name; frame = present.frame } };

    ghost invariant = { λ present. IsValid present.frame };

    ghost inverse = { λ shown. record { name = shown.name; frame = shown.frame } };
}

impl Present {
    ghost use Rattle.pv_session.specs.Shown.{screen_of_frame, route_of_digit, field_mode};
    ghost use Rattle.pv_session.specs.Entries.{FillMode};
    ghost use Rattle.pv_session.specs.Letters.{item_of};

    /// A frame that was fetched.
    pub(crate) fn new(name: FrameName, frame: &Frame) -> Present
        requires { IsValid frame.now }
        ensures { result ≡ record { name = name; frame = frame.now } }
    {
        Present {
            name,
            frame: *frame,
        }
    }

    /// Its name.
    pub(crate) fn name(&self) -> FrameName
        ensures value { result ≡ self.now.name }
        ensures within { IsName result }
    {
        self.name.within();
        self.name
    }

    /// Its price in pence.
    pub(crate) fn price(&self) -> u16
        ensures value { result ≡ self.now.frame.price }
        ensures within { result ≤ MAX_PRICE }
    {
        self.frame.price
    }

    /// The reader of its field of an index. `None` exactly when it has none.
    pub(crate) fn field(&self, index: usize) -> Option<FieldReader>
        ensures mode { option_map (λ reading. FillMode reading.field reading.full) result
            ≡ field_mode self.now.frame index }
        ensures new { IfSome result (λ reading. reading.keyed ≡ []) }
        ensures few { IsSome result → index < FIELDS }
    {
        errors_are_what_they_say();
        let field = *self.frame.fields().get(index)?;
        let is_full = is_letter_form(self.frame.kind) && index == 0;
        Some(FieldReader::new(field, is_full))
    }

    /// What an account sends that filled it in so at a moment, if it can be sent.
    pub(crate) fn item(&self, account: AccountNo, moment: u32, filled: &Fields) -> Option<Item>
        requires { moment ≤ LAST_MOMENT }
        ensures { result ≡ item_of self.now.frame.kind account self.now.name moment filled.now }
    {
        match self.frame.kind {
            Kind::Information => None,
            Kind::Response => Some(Item::Reply(reply(account, self.name, moment, filled))),
            Kind::Mail => mail(account, moment, filled).map(Item::Mail),
        }
    }

    /// Where its route of a digit leads.
    pub(crate) fn route(&self, digit: u8) -> Option<PageNo>
        ensures { result ≡ route_of_digit (Some self.now) digit }
    {
        *self.frame.routes.get(usize::from(digit))?
    }

    /// Its screen.
    pub(crate) fn screen(&self) -> Screen
        ensures { result ≡ screen_of_frame self.now }
    {
        Screen::Whole(compose(&self.frame, self.name))
    }
}

/// Whether a frame of a kind is a letter that is to be written.
fn is_letter_form(kind: Kind) -> bool
    ensures { result ≡ is_letter_form kind }
{
    match kind {
        Kind::Information | Kind::Response => false,
        Kind::Mail => true,
    }
}
