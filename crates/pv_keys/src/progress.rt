ghost use Rattle.std.specs.Prelude.{◌≡◌, ◌≢◌, ◌↔◌, ◌+◌, ◌++◌, [], ◌∷◌, decimal, length, IsNone, IfSome};
ghost use Rattle.pv_page.specs.Names.{IsPage, zero_digit};
ghost use Rattle.pv_page.specs.declared.page_no.TheConstants.{PAGE_DIGITS};
ghost use Rattle.pv_keys.specs.Commands.{star, hash, keys_of, number_keys, IsDigit, IsSpelling};
ghost use Rattle.pv_keys.specs.Reader.{IsProgress, keys_since, IsStep};

use crate::command::{Command, END_PAGE, MAIL_PAGE};
use pv_page::{LAST_PAGE, PageNo};

/// The keys since the last command. They begin with no whole command.
#[derive(Clone, Copy, Debug, PartialEq, Eq)]
pub enum Progress {
    /// No key.
    Idle,
    /// `*`.
    Star,
    /// `*` and the digits of this number.
    Number(PageNo),
    /// `*`, the digits of this number and `*`.
    Starred(PageNo),
}

/// What a key does after others.
#[derive(Clone, Copy, Debug, PartialEq, Eq)]
pub enum Step {
    /// The keys are no command yet.
    Wait(Progress),
    /// They are this command.
    Give(Command),
}

impl Progress {
    /// A byte after these keys. `None` exactly when it is no key.
    pub(crate) fn byte(self, byte: u8) -> Option<Step>
        requires { IsProgress self }
        ensures some { IfSome result (IsStep (keys_since self ++ keys_of (byte ∷ []))) }
        ensures none { IsNone result ↔ (keys_of (byte ∷ []) ≡ []) }
    {
        match byte {
            b'0'..=b'9' => Some(self.digit(byte - b'0')),
            b'*' => Some(self.star()),
            b'#' | b'_' => Some(self.hash()),
            _ => None,
        }
    }

    /// A digit after these keys.
    #[tactic(auto, using(crate::proofs::Keys::digit_alone))]
    fn digit(self, digit: u8) -> Step
        requires { IsDigit digit × IsProgress self }
        ensures { IsStep (keys_since self ++ (zero_digit + digit) ∷ []) result }
    {
        match self {
            Progress::Idle => Step::Give(Command::Route(digit)),
            Progress::Star => Step::Wait(Progress::Number(page_of_digit(digit))),
            Progress::Number(page) => digit_of_number(page, digit),
            Progress::Starred(_) => Step::Give(Command::Slip),
        }
    }

    /// A `*` after these keys.
    fn star(self) -> Step
        requires { IsProgress self }
        ensures { IsStep (keys_since self ++ star ∷ []) result }
    {
        match self {
            Progress::Idle => Step::Wait(Progress::Star),
            Progress::Number(page) => Step::Wait(Progress::Starred(page)),
            Progress::Star | Progress::Starred(_) => Step::Give(Command::Cancel),
        }
    }

    /// A `#` after these keys.
    fn hash(self) -> Step
        requires { IsProgress self }
        ensures { IsStep (keys_since self ++ hash ∷ []) result }
    {
        match self {
            Progress::Idle => Step::Give(Command::Next),
            Progress::Star => Step::Give(Command::Back),
            Progress::Number(page) => Step::Give(command_of_page(page)),
            Progress::Starred(_) => Step::Give(Command::Slip),
        }
    }
}

/// A digit after `*` and a number.
#[tactic(auto, using(crate::proofs::Keys::tenth_digit))]
fn digit_of_number(page: PageNo, digit: u8) -> Step
    requires { IsDigit digit × IsPage page }
    ensures { IsStep (number_keys page ++ (zero_digit + digit) ∷ []) result }
{
    if page.number() == 0 {
        return Step::Give(command_of_zero(digit));
    }
    match longer(page, digit) {
        Some(page) => Step::Wait(Progress::Number(page)),
        None => Step::Give(Command::Slip),
    }
}

/// The command of `*0` and a digit.
#[tactic(auto, using(crate::proofs::Keys::zero_and_digit))]
fn command_of_zero(digit: u8) -> Command
    requires { IsDigit digit }
    ensures { IsSpelling (number_keys 0 ++ (zero_digit + digit) ∷ []) result }
{
    match digit {
        0 => Command::Repeat,
        9 => Command::Fresh,
        _ => Command::Slip,
    }
}

/// The command of `*`, a number and `#`.
fn command_of_page(page: PageNo) -> Command
    requires { IsPage page }
    ensures { IsSpelling (number_keys page ++ hash ∷ []) result }
{
    match page.number() {
        END_PAGE => Command::End,
        MAIL_PAGE => Command::Mail,
        _ => Command::Go(page),
    }
}

/// The page of one digit.
fn page_of_digit(digit: u8) -> PageNo
    requires { IsDigit digit }
    ensures { result ≡ digit }
{
    PageNo::of_number(digit as u32).unwrap()
}

/// The page whose digits are those of this one and one more. `None` exactly when that is a tenth digit.
#[tactic(auto, using(crate::proofs::Keys::longer_number, crate::proofs::Keys::nine_digits))]
fn longer(page: PageNo, digit: u8) -> Option<PageNo>
    requires { IsDigit digit × IsPage page × (page ≢ 0) }
    ensures found { IfSome result (λ next. IsPage next ×
        (decimal next ≡ decimal page ++ (zero_digit + digit) ∷ [])) }
    ensures missing { IsNone result → length (decimal page) ≡ PAGE_DIGITS }
{
    if page.number() > LAST_PAGE / 10 {
        return None;
    }
    PageNo::of_number(page.number() * 10 + digit as u32)
}
