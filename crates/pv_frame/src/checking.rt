ghost use Rattle.std.specs.Prelude.{◌≡◌, ◌+◌, ◌≤◌, length, not, position, None, Some, OnOk, IfErr};
ghost use Rattle.std.specs.List.{list_all};
ghost use Rattle.pv_fields.specs.Refusals.{first_of};
ghost use Rattle.pv_frame.specs.Errors.{is_cell, lies_in_body, meets, first_meeting, takes_text, has_shape, field_errors, parts_error};

use crate::field::Field;
use crate::frame_error::FrameError;
use crate::kind::Kind;
use crate::layout::{FIELDS, LAST_PRICE, MAIL_TEXTS};

/// Whether all bytes are cells.
#[tactic(auto, using(crate::proofs::Cells::are_cells_is))]
fn are_cells(bytes: &[u8]) -> bool
    ensures { result ≡ list_all is_cell bytes.now }
{
    bytes.is_ascii()
}

/// The index of the first field that does not lie in the body.
fn first_outside(fields: &[Field]) -> Option<usize>
    ensures { result ≡ position (λ field. not (lies_in_body field)) fields.now }
{
    fields.iter().position(|field| !field.lies_in_body())
}

/// The index of the first of the others that the field shares a cell with.
fn first_met(field: &Field, others: &[Field]) -> Option<usize>
    ensures { result ≡ position (meets field.now) others.now }
{
    others.iter().position(|other| field.meets(other))
}

/// The index, counted from `i`, of the first field that shares a cell with a later one, and that of the
/// first such.
fn first_meeting(i: usize, fields: &[Field]) -> Option<(usize, usize)>
    requires { i + length fields.now ≤ FIELDS }
    ensures { result ≡ first_meeting i fields.now }
{
    let [field, others @ ..] = fields else {
        return None;
    };
    match first_met(field, others) {
        Some(k) => Some((i, i + 1 + k)),
        None => first_meeting(i + 1, others),
    }
}

/// Whether the fields are those of a frame of this kind.
fn has_shape(kind: Kind, fields: &[Field]) -> bool
    ensures { result ≡ has_shape kind fields.now }
{
    match kind {
        Kind::Information => fields.is_empty(),
        Kind::Response => !fields.is_empty(),
        Kind::Mail => is_for_mail(fields),
    }
}

/// Whether the fields are those of mail.
fn is_for_mail(fields: &[Field]) -> bool
    ensures { result ≡ has_shape Kind.Mail fields.now }
{
    match fields {
        [] => false,
        [account, texts @ ..] => {
            account.takes_account() && (1..=MAIL_TEXTS).contains(&texts.len()) && are_texts(texts)
        }
    }
}

fn are_texts(fields: &[Field]) -> bool
    ensures { result ≡ list_all takes_text fields.now }
{
    fields.iter().all(|field| field.takes_text())
}

/// The first error of the fields of a frame of this kind.
fn check_fields(kind: Kind, fields: &[Field]) -> Result<(), FrameError>
    requires { length fields.now ≤ FIELDS }
    ensures ok { OnOk result (first_of (field_errors kind fields.now) ≡ None) }
    ensures err { IfErr result (λ error. first_of (field_errors kind fields.now) ≡ Some error) }
{
    if let Some(i) = first_outside(fields) {
        return Err(FrameError::FieldRange { i });
    }
    if let Some((i, j)) = first_meeting(0, fields) {
        return Err(FrameError::FieldsMeet { i, j });
    }
    if !has_shape(kind, fields) {
        return Err(FrameError::Shape);
    }
    Ok(())
}

/// The first error of a frame with these parts.
pub(crate) fn check_parts(
    title: &[u8],
    body: &[u8],
    price: u16,
    kind: Kind,
    fields: &[Field],
) -> Result<(), FrameError>
    requires { length fields.now ≤ FIELDS }
    ensures ok { OnOk result (parts_error title.now body.now price kind fields.now ≡ None) }
    ensures err { IfErr result (λ error.
        parts_error title.now body.now price kind fields.now ≡ Some error) }
{
    if !(are_cells(title) && are_cells(body)) {
        return Err(FrameError::Cell);
    }
    if price > LAST_PRICE {
        return Err(FrameError::Price);
    }
    check_fields(kind, fields)
}
