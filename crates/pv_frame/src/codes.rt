ghost use Rattle.std.specs.Prelude.{◌≡◌, length};
ghost use Rattle.pv_frame.specs.Codes.{kind_code, kind_of, field_code, field_kind_of, route_bytes, spells_route, route_of, field_bytes, spells_field, field_of};

use crate::field::{Field, FieldKind};
use crate::kind::Kind;
use crate::layout::{FIELD_BYTES, NO_ROUTE, ROUTE_BYTES};
use pv_page::{LAST_PAGE, PageNo};

/// The code of a kind of frame.
pub(crate) fn kind_code(kind: Kind) -> u8
    ensures { result ≡ kind_code kind }
{
    match kind {
        Kind::Information => 0,
        Kind::Response => 1,
        Kind::Mail => 2,
    }
}

/// The kind of frame that a code names.
pub(crate) fn kind_of(code: u8) -> Option<Kind>
    ensures { result ≡ kind_of code }
{
    match code {
        0 => Some(Kind::Information),
        1 => Some(Kind::Response),
        2 => Some(Kind::Mail),
        _ => None,
    }
}

/// The code of a kind of field.
fn field_code(kind: FieldKind) -> u8
    ensures { result ≡ field_code kind }
{
    match kind {
        FieldKind::Digits => 0,
        FieldKind::Words => 1,
    }
}

/// The kind of field that a code names.
fn field_kind_of(code: u8) -> Option<FieldKind>
    ensures { result ≡ field_kind_of code }
{
    match code {
        0 => Some(FieldKind::Digits),
        1 => Some(FieldKind::Words),
        _ => None,
    }
}

/// The bytes of a route.
pub(crate) fn route_bytes(route: Option<PageNo>) -> [u8; ROUTE_BYTES]
    ensures { result ≡ route_bytes route }
{
    match route {
        Some(page) => page.number().to_be_bytes(),
        None => NO_ROUTE.to_be_bytes(),
    }
}

/// Whether four bytes are a route: the number of a page or that of no route.
pub(crate) fn spells_route(bytes: &[u8; ROUTE_BYTES]) -> bool
    ensures { result ≡ spells_route bytes.now }
{
    let number = u32::from_be_bytes(*bytes);
    number <= LAST_PAGE || number == NO_ROUTE
}

/// The route that four bytes are.
pub(crate) fn route_of(bytes: &[u8; ROUTE_BYTES]) -> Option<PageNo>
    ensures { result ≡ route_of bytes.now }
{
    PageNo::of_number(u32::from_be_bytes(*bytes))
}

/// The bytes of a field.
pub(crate) fn field_bytes(field: &Field) -> [u8; FIELD_BYTES]
    ensures { result ≡ field_bytes field.now }
{
    [
        field.row,
        field.column,
        field.length,
        field_code(field.kind),
    ]
}

/// Whether four bytes are a field: whether its kind is one that there is.
pub(crate) fn spells_field(bytes: &[u8; FIELD_BYTES]) -> bool
    ensures { result ≡ spells_field bytes.now }
{
    field_kind_of(bytes[3]).is_some()
}

/// The field that four bytes are. Its kind is that of digits if the code has no meaning.
pub(crate) fn field_of(bytes: &[u8; FIELD_BYTES]) -> Field
    ensures { result ≡ field_of bytes.now }
{
    let [row, column, length, code] = *bytes;
    Field {
        row,
        column,
        length,
        kind: field_kind_of(code).unwrap_or(FieldKind::Digits),
    }
}
