//! The parts of a line that are one word.

ghost use Rattle.std.specs.Prelude.{◌≡◌};
ghost use Rattle.std.specs.List.{list_all};
ghost use Rattle.pv_editor.specs.Parts.{is_password_byte, kind_of_text, field_kind_of_text, IsAccountText, IsNameText, IsPageText, IsPasswordText, IsKindText, IsFieldKindText, IsOrDash};

use pv_account::{AccountNo, PASSWORD_BYTES};
use pv_frame::{FieldKind, Kind};
use pv_page::{FrameName, PageNo};
use pv_words::Reader;

/// The part that is the number of an account, in ten digits.
#[derive(Clone, Copy, Debug)]
pub struct AccountText;

impl<'a> Reader<'a> for AccountText {
    type Value = AccountNo;

    ghost Writes = { λ _. IsAccountText };

    fn read(&self, text: &'a [u8]) -> Option<AccountNo> {
        AccountNo::of_digits(text)
    }
}

/// The part that is the name of a frame.
#[derive(Clone, Copy, Debug)]
pub struct NameText;

impl<'a> Reader<'a> for NameText {
    type Value = FrameName;

    ghost Writes = { λ _. IsNameText };

    fn read(&self, text: &'a [u8]) -> Option<FrameName> {
        FrameName::of_text(text)
    }
}

/// The part that is the number of a page.
#[derive(Clone, Copy)]
pub(crate) struct PageText;

impl<'a> Reader<'a> for PageText {
    type Value = PageNo;

    ghost Writes = { λ _. IsPageText };

    fn read(&self, text: &'a [u8]) -> Option<PageNo> {
        PageNo::of_digits(text).ok()
    }
}

/// The part that is a password.
#[derive(Clone, Copy, Debug)]
pub struct PasswordText;

impl<'a> Reader<'a> for PasswordText {
    type Value = [u8; PASSWORD_BYTES];

    ghost Writes = { λ _. IsPasswordText };

    fn read(&self, text: &'a [u8]) -> Option<[u8; PASSWORD_BYTES]> {
        let (password, rest) = text.split_first_chunk::<PASSWORD_BYTES>()?;
        if rest.is_empty() && are_password_bytes(text) {
            Some(*password)
        } else {
            None
        }
    }
}

/// The part that is the letter of a kind of frame.
#[derive(Clone, Copy)]
pub(crate) struct KindText;

impl<'a> Reader<'a> for KindText {
    type Value = Kind;

    ghost Writes = { λ _. IsKindText };

    fn read(&self, text: &'a [u8]) -> Option<Kind> {
        kind_of(text)
    }
}

/// The part that is the letter of a kind of field.
#[derive(Clone, Copy)]
pub(crate) struct FieldKindText;

impl<'a> Reader<'a> for FieldKindText {
    type Value = FieldKind;

    ghost Writes = { λ _. IsFieldKindText };

    fn read(&self, text: &'a [u8]) -> Option<FieldKind> {
        field_kind_of(text)
    }
}

/// The part that is what this reads, or a dash for none.
#[derive(Clone, Copy)]
pub(crate) struct OrDash<A> {
    /// What another text than a dash is.
    pub of: A,
}

impl<'a, A: Reader<'a>> Reader<'a> for OrDash<A> {
    type Value = Option<A::Value>;

    ghost Writes = { λ or_dash. IsOrDash (A.Writes or_dash.of) };

    fn read(&self, text: &'a [u8]) -> Option<Option<A::Value>> {
        if text == b"-".as_slice() {
            return Some(None);
        }
        let value = self.of.read(text)?;
        Some(Some(value))
    }
}

/// Whether a password may have all these bytes.
fn are_password_bytes(text: &[u8]) -> bool
    ensures { result ≡ list_all is_password_byte text.now }
{
    text.iter().all(|byte| is_password_byte(*byte))
}

/// Whether a password may have this byte: all that can be printed, but for the space and the keys `*`
/// and `#` with its other code `_`.
fn is_password_byte(byte: u8) -> bool
    ensures { result ≡ is_password_byte byte }
{
    matches!(byte, b'!'..=b'~') && !matches!(byte, b'*' | b'#' | b'_')
}

/// The kind of frame that a letter stands for.
fn kind_of(text: &[u8]) -> Option<Kind>
    ensures { result ≡ kind_of_text text.now }
{
    if text == b"I".as_slice() {
        Some(Kind::Information)
    } else if text == b"R".as_slice() {
        Some(Kind::Response)
    } else if text == b"M".as_slice() {
        Some(Kind::Mail)
    } else {
        None
    }
}

/// The kind of field that a letter stands for.
fn field_kind_of(text: &[u8]) -> Option<FieldKind>
    ensures { result ≡ field_kind_of_text text.now }
{
    if text == b"D".as_slice() {
        Some(FieldKind::Digits)
    } else if text == b"T".as_slice() {
        Some(FieldKind::Words)
    } else {
        None
    }
}
