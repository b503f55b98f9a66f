ghost use Rattle.std.specs.Prelude.{◌≡◌, ◌+◌, ◌*◌, ◌<◌, ◌≤◌, ◌↔◌, [], ◌∷◌, ◌++◌, length, IsOk, IsErr, OnOk, OnErr, IfOk, IfErr, Ok, Some};
ghost use Rattle.pv_frame.specs.Content.{blank_frame, with_row};

use crate::checking::check_parts;
use crate::codec_error::FrameCodecError;
use crate::codes::{field_bytes, kind_code, route_bytes};
use crate::field::Field;
use crate::frame_error::FrameError;
use crate::kind::Kind;
use crate::layout::{
    BODY_CELLS, FIELD_BYTES, FIELDS, FIELDS_AT, FIRST_ROW, LAST_ROW, ROUTES, TITLE_CELLS, VERSION,
};
use crate::raw::read;
use pv_cells::{BLANK, ROW_LENGTH};
use pv_fields::{NoRoom, Out};
use pv_page::PageNo;
use std::marker::Model;

/// A frame: what is shown on one screen, and what it leads to.
#[derive(Clone, Copy, Debug, PartialEq, Eq)]
pub struct Frame {
    /// The cells of the title, in the first row.
    pub title: [u8; TITLE_CELLS],
    /// The cells of rows 2 to 23, one row after another.
    pub body: [u8; BODY_CELLS],
    /// The purpose of the frame.
    pub kind: Kind,
    /// The page that each digit leads to.
    pub routes: [Option<PageNo>; ROUTES],
    /// The price in pence.
    pub price: u16,
    /// The closed user group that may see the frame, or 0 if all may.
    pub group: u16,
    /// The number of fields.
    pub count: u8,
    /// The fields, and after them [`Field::NONE`].
    pub fields: [Field; FIELDS],
}

impl Model for Frame {
    ghost use Rattle.pv_frame.specs.Content.{Content};

    ghost Value = { Content };

    ghost use Rattle.pv_frame.specs.Memory.{content, IsInside, inside_of, inside_of-content};

    ghost view = { content };

    ghost invariant = { IsInside };

    ghost inverse = { inside_of };

    ghost inverse_ok = { inside_of-content };
}

impl Frame {
    ghost use Rattle.pv_fields.specs.Out.{Appends, room_of};
    ghost use Rattle.pv_frame.specs.Content.{Content, IsFrame};
    ghost use Rattle.pv_frame.specs.Errors.{error_of, IsValid};
    ghost use Rattle.pv_frame.specs.Spelling.{spelling_of, HasSpelling};
    ghost use Rattle.pv_frame.specs.Reading.{decode_of};

    /// A frame with nothing on it.
    pub fn blank() -> Frame
        ensures blank { result ≡ blank_frame }
        ensures valid { IsValid result }
    {
        Frame {
            title: [BLANK; TITLE_CELLS],
            body: [BLANK; BODY_CELLS],
            kind: Kind::Information,
            routes: [None; ROUTES],
            price: 0,
            group: 0,
            count: 0,
            fields: [Field::NONE; FIELDS],
        }
    }

    /// The fields, without the empty places after them.
    pub fn fields(&self) -> &[Field]
        ensures fields { result.now ≡ self.now.fields }
        ensures holds { IsFrame self.now }
    {
        &self.fields[..usize::from(self.count)]
    }

    /// Puts a field after the others. There must be fewer than [`FIELDS`].
    #[tactic(auto, using(crate::proofs::Padding::adding))]
    pub fn add_field(&mut self, field: Field)
        requires { length self.old.fields < FIELDS }
        ensures added { self.new ≡ record self.old { fields = self.old.fields ++ field ∷ [] } }
    {
        self.fields[usize::from(self.count)] = field;
        self.count += 1;
    }

    /// Removes all fields.
    pub fn clear_fields(&mut self)
        ensures cleared { self.new ≡ record self.old { fields = [] } }
    {
        self.fields = [Field::NONE; FIELDS];
        self.count = 0;
    }

    /// Writes the cells of a row of the body, which is counted from 1 at the top of the screen. A row
    /// with a cell over 127 is refused by [`Frame::check`].
    pub fn set_row(&mut self, row: u8, cells: &[u8; ROW_LENGTH])
        requires from { FIRST_ROW ≤ row }
        requires to { row ≤ LAST_ROW }
        ensures written { self.new ≡ record self.old { body = with_row row cells.now self.old.body } }
    {
        let at = usize::from(row - FIRST_ROW) * ROW_LENGTH;
        self.body[at..at + ROW_LENGTH].copy_from_slice(cells);
    }

    /// The frame's parts are within their ranges, by its type. A call states this and has no effect.
    pub fn within(&self)
        ensures { IsFrame self.now }
    {
        let _ = &self.count;
    }

    /// Whether the frame is valid. The error is the first that applies, in the order of
    /// [`FrameError`].
    pub fn check(&self) -> Result<(), FrameError>
        ensures ok { IsOk result ↔ IsValid self.now }
        ensures err { IfErr result (λ error. error_of self.now ≡ Some error) }
        ensures holds { IsFrame self.now }
    {
        check_parts(
            &self.title,
            &self.body,
            self.price,
            self.kind,
            self.fields(),
        )
    }

    /// Appends the spelling of a valid frame: [`FIELDS_AT`] bytes, and [`FIELD_BYTES`] for each
    /// field. If they do not fit, nothing is appended.
    #[tactic(auto, using(crate::proofs::Lengths::sizes))]
    pub fn encode(&self, out: &mut Out) -> Result<(), NoRoom>
        requires { IsValid self.now }
        ensures ok { OnOk result (Appends out.old out.new (spelling_of self.now)) }
        ensures refused { IsErr result ↔ (room_of out.old < length (spelling_of self.now)) }
        ensures err { OnErr result (out.new ≡ out.old) }

        // How long the spelling is, and that the frame has one.
        ensures size { length (spelling_of self.now)
            ≡ FIELDS_AT + FIELD_BYTES * length self.now.fields }
        ensures holds { IsFrame self.now }
    {
        if out.room() < FIELDS_AT + FIELD_BYTES * self.fields().len() {
            return Err(NoRoom);
        }
        self.put(out);
        Ok(())
    }

    /// The frame that the bytes spell, all of the bytes.
    ///
    /// The error is the first that applies:
    ///
    /// 1. [`FrameCodecError::Short`] for no byte;
    /// 2. [`FrameCodecError::Version`] for a first byte other than [`VERSION`];
    /// 3. `Short` for fewer bytes than [`FIELDS_AT`];
    /// 4. [`FrameError::Code`] for the first kind, route or number of fields without a meaning;
    /// 5. `Short` for fewer bytes than the fields take;
    /// 6. `Code` for the first kind of a field without a meaning;
    /// 7. [`FrameCodecError::Trailing`] for bytes after the fields;
    /// 8. what [`Frame::check`] refuses.
    #[inline(never)]
    #[tactic(auto, using(std::proofs::lemmas::Grind::common_steps, crate::proofs::RoundTrip::spelled))]
    pub fn decode(bytes: &[u8]) -> Result<Frame, FrameCodecError>
        // A frame is read exactly from its spelling.
        ensures found { IfOk result (λ frame.
            HasSpelling frame × (bytes.now ≡ spelling_of frame)) }
        ensures only { (frame : Content) → HasSpelling frame → bytes.now ≡ spelling_of frame →
            result ≡ Ok frame }

        // From any other bytes the first error is returned.
        ensures exact { result ≡ decode_of bytes.now }
    {
        let raw = read(bytes)?;
        Ok(raw.frame())
    }

    /// Appends the spelling, which fits.
    #[tactic(auto, using(crate::proofs::Lengths::sizes, crate::proofs::Padding::putting))]
    fn put(&self, out: &mut Out)
        requires valid { IsValid self.now }
        requires room { length (spelling_of self.now) ≤ room_of out.old }
        ensures { Appends out.old out.new (spelling_of self.now) }
    {
        out.put_u8(VERSION);
        out.put_run(&self.title);
        out.put_run(&self.body);
        out.put_u8(kind_code(self.kind));
        put_routes(&self.routes, out);
        out.put_u8(self.price as u8);
        out.put_u16(self.group);
        out.put_u8(self.count);
        put_fields(self.fields(), out);
    }
}

ghost use Rattle.std.specs.Prelude.{flat_map};
ghost use Rattle.pv_fields.specs.Out.{Appends, room_of};
ghost use Rattle.pv_frame.specs.Codes as codes;

/// Appends the bytes of routes, which fit.
fn put_routes(routes: &[Option<PageNo>], out: &mut Out)
    requires { 4 * length routes.now ≤ room_of out.old }
    ensures { Appends out.old out.new (flat_map codes.route_bytes routes.now) }
{
    for route in routes {
        out.put_run(&route_bytes(*route));
    }
}

/// Appends the bytes of fields, which fit.
fn put_fields(fields: &[Field], out: &mut Out)
    requires { FIELD_BYTES * length fields.now ≤ room_of out.old }
    ensures { Appends out.old out.new (flat_map codes.field_bytes fields.now) }
{
    for field in fields {
        out.put_run(&field_bytes(field));
    }
}
