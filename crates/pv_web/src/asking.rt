//! What a browser asks for.
ghost use Rattle.std.specs.Prelude.{◌≡◌, codes, length, take, map, string_bytes, option_map, All};
ghost use Rattle.httparse.specs.Spans.{IsHeaderWithin, IsRequestWithin, span_bytes};
ghost use Rattle.websocket.specs.Headers.{eq_ignore_case, fields_of, header_value};
ghost use Rattle.pv_web.specs.Asking.{HeadAsks, asked_at, is_among, is_own_host, is_own_origin};

use crate::names::Names;
use httparse::spans::{HeaderSpan, RequestSpans};
use websocket::handshake::server::check_request;

/// What a request asks for.
#[derive(Clone, Copy, Debug, PartialEq, Eq)]
pub enum Asked {
    /// The page of the terminal.
    Page,
    /// A call, by a websocket. It is accepted with this key.
    Call([u8; 28]),
    /// A call, but not by a websocket of the version that all browsers have.
    NoCall,
    /// What is not there.
    Missing,
    /// Something of another host's, or for another host's page.
    Foreign,
}

/// What the request asks for whose head these spans cover.
pub(crate) fn asked_by(
    names: &Names,
    input: &[u8],
    head: &RequestSpans,
    spans: &[HeaderSpan],
) -> Asked
    requires { IsRequestWithin input.now spans.now head.now }
    ensures { HeadAsks names.now input.now head.now spans.now result }
{
    let headers = &spans[..head.headers];
    judge(
        names,
        head.method.of(input),
        head.path.of(input),
        value_of(input, headers, b"Host"),
        value_of(input, headers, b"Origin"),
        check_request(input, head, spans).ok(),
    )
}

/// What a request asks for with this method, target, host, origin and key of a websocket.
fn judge(
    names: &Names,
    method: &[u8],
    target: &[u8],
    host: Option<&[u8]>,
    origin: Option<&[u8]>,
    key: Option<[u8; 28]>,
) -> Asked
    ensures { result ≡ asked_at names.now method.now target.now
        (option_map (λ text. text.now) host.entry) (option_map (λ text. text.now) origin.entry) key }
{
    if !is_own_host(names, host) || !is_own_origin(names, origin) {
        return Asked::Foreign;
    }
    if method != b"GET".as_slice() {
        return Asked::Missing;
    }
    if target == b"/call".as_slice() {
        return match key {
            Some(key) => Asked::Call(key),
            None => Asked::NoCall,
        };
    }
    if target == b"/".as_slice() {
        Asked::Page
    } else {
        Asked::Missing
    }
}

/// Whether the host is one of our own.
fn is_own_host(names: &Names, host: Option<&[u8]>) -> bool
    ensures { result ≡ is_own_host names.now (option_map (λ text. text.now) host.entry) }
{
    match host {
        Some(host) => is_among(&names.hosts, host),
        None => false,
    }
}

/// Whether the page that asks is one of our own, if it is named.
fn is_own_origin(names: &Names, origin: Option<&[u8]>) -> bool
    ensures { result ≡ is_own_origin names.now (option_map (λ text. text.now) origin.entry) }
{
    match origin {
        Some(origin) => is_among(&names.origins, origin),
        None => true,
    }
}

/// Whether the text is one of these names.
fn is_among(names: &[String], text: &[u8]) -> bool
    ensures { result ≡ is_among (map string_bytes names.now) text.now }
{
    for name in names {
        if name.as_bytes() == text {
            return true;
        }
    }
    false
}

/// The value of the first header with this name, in any case.
fn value_of<'a>(input: &'a [u8], headers: &[HeaderSpan], name: &[u8]) -> Option<&'a [u8]>
    requires { All (IsHeaderWithin (length input.now)) headers.now }
    ensures { option_map (λ value. value.now) result
        ≡ header_value (fields_of input.now headers.now) name.now }
{
    for header in headers {
        if is_called(header.name.of(input), name) {
            return Some(header.value.of(input));
        }
    }
    None
}

/// Whether the texts are the same but for the case of letters.
fn is_called(text: &[u8], name: &[u8]) -> bool
    ensures { result ≡ eq_ignore_case text.now name.now }
{
    text.eq_ignore_ascii_case(name)
}
