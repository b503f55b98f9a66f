ghost use Rattle.std.specs.Prelude.{◌≡◌, [], ◌+◌, ◌*◌, ◌<◌, ◌≤◌, ◌++◌, length, OnOk, IfOk, IfErr, IfSome, None, Some, Ok, Err, map, take};
ghost use Rattle.pv_frame.specs.declared.layout.TheConstants.{TITLE_CELLS, BODY_CELLS};
ghost use Rattle.pv_fields.specs.Reading.{GivesFound, same, run_at};
ghost use Rattle.pv_frame.specs.Codes.{spells_route, route_of, spells_field, field_of, fours};
ghost use Rattle.pv_fields.specs.Refusals.{first_of};
ghost use Rattle.pv_fields.specs.Padded.{IsPadded, padded_list};
ghost use Rattle.pv_frame.specs.Memory.{no_field};
ghost use Rattle.pv_frame.specs.Raw.{raw_at};
ghost use Rattle.pv_frame.specs.Reading.{bad_code, first_bad, head_errors, tail_errors, frame_error, frame_of, decode_of};

use crate::checking::check_parts;
use crate::codec_error::FrameCodecError;
use crate::codes::{field_of, kind_of, route_of, spells_field, spells_route};
use crate::field::Field;
use crate::frame::Frame;
use crate::frame_error::FrameError;
use crate::kind::Kind;
use crate::layout::{
    BODY_CELLS, COUNT_AT, FIELD_BYTES, FIELDS, FIELDS_AT, KIND_AT, ROUTE_BYTES, ROUTES, ROUTES_AT,
    ROUTES_SIZE, TITLE_CELLS, VERSION,
};
use pv_fields::{In, Short};
use pv_page::PageNo;
use std::marker::Model;

/// What is in the bytes of a frame after the version: each part in its order, without meaning.
#[derive(Drop)]
pub(crate) struct RawFrame<'a> {
    title: &'a [u8; TITLE_CELLS],
    body: &'a [u8; BODY_CELLS],
    kind: u8,
    routes: &'a [u8; ROUTES_SIZE],
    price: u8,
    group: u16,
    count: u8,
    fields: &'a [u8],
    ghost title_size: { length title.now ≡ TITLE_CELLS },
    ghost body_size: { length body.now ≡ BODY_CELLS },
}

impl<'a> Model for RawFrame<'a> {
    ghost use Rattle.pv_frame.specs.Raw.{Raw};

    ghost Value = { Raw };

    ghost view = { λ raw. record {
      title = raw.title.now;
      body = raw.body.now;
      kind = raw.kind;
      routes = raw.routes.now;
      price = raw.price;
      group = raw.group;
      count = raw.count;
      fields = raw.fields.now;
    } };
}

impl<'a> RawFrame<'a> {
    /// Takes all the bytes, which are those after the version.
    #[tactic(auto, unfolding(crate::specs::Raw::raw_at))]
    pub(crate) fn read(bytes: &mut In<'a>) -> Result<RawFrame<'a>, Short>
        ensures gives { GivesFound same result (raw_at bytes.old) bytes.new }
        ensures all { IfOk result (λ _. bytes.new ≡ []) }
    {
        let title = run::<TITLE_CELLS>(bytes)?;
        let body = run::<BODY_CELLS>(bytes)?;
        let kind = bytes.u8()?;
        let routes = run::<{ ROUTES_SIZE }>(bytes)?;
        let price = bytes.u8()?;
        let group = bytes.u16()?;
        let count = bytes.u8()?;
        Ok(RawFrame {
            title,
            body,
            kind,
            routes,
            price,
            group,
            count,
            fields: bytes.take_rest(),
        })
    }
}

/// Takes a run of bytes without a copy.
fn run<'a, const N: usize>(bytes: &mut In<'a>) -> Result<&'a [u8; N], Short>
    ensures gives { GivesFound (λ run. run.now) result (run_at N bytes.old) bytes.new }
    ensures size { IfOk result (λ run. length run.now ≡ N) }
{
    let (run, rest) = bytes.rest().split_first_chunk::<N>().ok_or(Short)?;
    *bytes = In::new(rest);
    Ok(run)
}

impl<'a> RawFrame<'a> {
    /// The first code before the fields that has no meaning.
    fn check_head(&self) -> Result<(), FrameCodecError>
        ensures ok { OnOk result (first_of (head_errors self.now) ≡ None) }
        ensures err { IfErr result (λ error. first_of (head_errors self.now) ≡ Some error) }
    {
        if kind_of(self.kind).is_none() {
            return Err(bad_code(KIND_AT));
        }
        if let Some(digit) = bad_route(self.routes) {
            return Err(bad_code(ROUTES_AT + ROUTE_BYTES * digit));
        }
        if usize::from(self.count) > FIELDS {
            return Err(bad_code(COUNT_AT));
        }
        Ok(())
    }

    /// The first error of the fields and of what is after them.
    fn check_tail(&self) -> Result<(), FrameCodecError>
        ensures ok { OnOk result (first_of (tail_errors self.now) ≡ None) }
        ensures err { IfErr result (λ error. first_of (tail_errors self.now) ≡ Some error) }
    {
        let size = FIELD_BYTES * usize::from(self.count);
        if self.fields.len() < size {
            return Err(FrameCodecError::Short);
        }
        if let Some(i) = bad_field(&self.fields[..size]) {
            return Err(bad_code(FIELDS_AT + FIELD_BYTES * i + 3));
        }
        if self.fields.len() > size {
            return Err(FrameCodecError::Trailing);
        }
        Ok(())
    }

    /// The kind of the frame.
    fn kind(&self) -> Kind
        ensures { result ≡ (frame_of self.now).kind }
    {
        kind_of(self.kind).unwrap_or(Kind::Information)
    }

    /// The fields of the frame, and after them [`Field::NONE`].
    #[tactic(auto, using(crate::proofs::RoundTrip::places))]
    fn fields(&self) -> [Field; FIELDS]
        requires head { first_of (head_errors self.now) ≡ None }
        requires tail { first_of (tail_errors self.now) ≡ None }
        ensures places { IsPadded no_field FIELDS self.now.count result }
        ensures fields { take self.now.count result ≡ (frame_of self.now).fields }
    {
        fields_of(self.fields)
    }

    /// The error of the frame whose parts these are.
    fn check_frame(&self) -> Result<(), FrameCodecError>
        requires head { first_of (head_errors self.now) ≡ None }
        requires tail { first_of (tail_errors self.now) ≡ None }
        ensures ok { OnOk result (frame_error self.now ≡ None) }
        ensures err { IfErr result (λ error. frame_error self.now ≡ Some error) }
    {
        let title = self.title;
        let body = self.body;
        let places = self.fields();
        let fields = &places[..usize::from(self.count)];
        match check_parts(title, body, u16::from(self.price), self.kind(), fields) {
            Ok(()) => Ok(()),
            Err(error) => Err(FrameCodecError::Invalid(error)),
        }
    }

    /// The frame whose parts these are.
    #[inline(always)]
    #[tactic(auto, using(crate::proofs::Padding::adding, crate::proofs::Inverses::pages_of))]
    pub(crate) fn frame(&self) -> Frame
        requires head { first_of (head_errors self.now) ≡ None }
        requires tail { first_of (tail_errors self.now) ≡ None }
        ensures { result ≡ frame_of self.now }
    {
        Frame {
            title: *self.title,
            body: *self.body,
            kind: self.kind(),
            routes: routes_of(self.routes),
            price: u16::from(self.price),
            group: self.group,
            count: self.count,
            fields: self.fields(),
        }
    }
}

fn bad_code(at: usize) -> FrameCodecError
    ensures { result ≡ bad_code at }
{
    FrameCodecError::Invalid(FrameError::Code { at })
}

/// The first digit whose route has no meaning.
fn bad_route(bytes: &[u8; ROUTES_SIZE]) -> Option<usize>
    ensures value { result ≡ first_bad spells_route bytes.now }
    ensures within { IfSome result (λ digit. digit < ROUTES) }
{
    let (routes, _) = bytes.as_chunks::<ROUTE_BYTES>();
    routes.iter().position(|bytes| !spells_route(bytes))
}

/// The first field whose kind has no meaning.
fn bad_field(bytes: &[u8]) -> Option<usize>
    ensures value { result ≡ first_bad spells_field bytes.now }
    ensures within { IfSome result (λ i. FIELD_BYTES * i < length bytes.now) }
{
    let (fields, _) = bytes.as_chunks::<FIELD_BYTES>();
    fields.iter().position(|bytes| !spells_field(bytes))
}

/// The routes that the bytes are.
fn routes_of(bytes: &[u8; ROUTES_SIZE]) -> [Option<PageNo>; ROUTES]
    ensures { result ≡ map route_of (fours bytes.now) }
{
    let (chunks, _) = bytes.as_chunks::<ROUTE_BYTES>();
    let mut routes = [None; ROUTES];
    for (digit, bytes) in chunks.iter().enumerate() {
        routes[digit] = route_of(bytes);
    }
    routes
}

/// The fields that the bytes are, and after them [`Field::NONE`].
#[tactic(auto, using(crate::proofs::Padding::adding))]
fn fields_of(bytes: &[u8]) -> [Field; FIELDS]
    requires { length (fours bytes.now) ≤ FIELDS }
    ensures { result ≡ padded_list no_field FIELDS (map field_of (fours bytes.now)) }
{
    let (chunks, _) = bytes.as_chunks::<FIELD_BYTES>();
    let mut fields = [Field::NONE; FIELDS];
    for (i, bytes) in chunks.iter().enumerate() {
        fields[i] = field_of(bytes);
    }
    fields
}

/// What is in the bytes of a frame, or their first error.
pub(crate) fn read(bytes: &[u8]) -> Result<RawFrame<'_>, FrameCodecError>
    ensures head { IfOk result (λ raw. first_of (head_errors raw) ≡ None) }
    ensures tail { IfOk result (λ raw. first_of (tail_errors raw) ≡ None) }
    ensures ok { IfOk result (λ raw. decode_of bytes.now ≡ Ok (frame_of raw)) }
    ensures err { IfErr result (λ error. decode_of bytes.now ≡ Err error) }
{
    let mut from = In::new(bytes);
    if from.u8()? != VERSION {
        return Err(FrameCodecError::Version);
    }
    let raw = RawFrame::read(&mut from)?;
    raw.check_head()?;
    raw.check_tail()?;
    raw.check_frame()?;
    Ok(raw)
}
