ghost use Rattle.std.specs.Prelude.{◌≡◌, ◌<◌, ◌≤◌, ◌↔◌, [], ◌∷◌, length, IsErr, OnOk, OnErr};
ghost use Rattle.std.specs.Int.{w16, w32, w64, to_be_bytes};

use crate::error::NoRoom;

/// Appends into a slice of the caller's, from its beginning on.
///
/// A call named for what it appends, as [`u16`](Out::u16), either appends all of it or returns
/// [`NoRoom`] and changes nothing. Its partner, as [`put_u16`](Out::put_u16), is for a caller that has
/// compared [`room`](Out::room) with all that it is going to append, and cannot fail.
#[derive(Drop)]
pub struct Out<'a> {
    into: &'a mut [u8],
    count: usize,
    ghost within: { count ≤ length into.now },
}

impl<'a> Out<'a> {
    ghost use Rattle.pv_fields.specs.Out.{written_of, rest_of, room_of, slice_of, Appends, Puts};

    /// Begins at the beginning of the slice, with all of it as room.
    pub fn new(into: &'a mut [u8]) -> Out<'a>
        ensures empty { written_of result ≡ [] }
        ensures rest { rest_of result ≡ into.old }
        ensures slice { slice_of result ≡ into.entry.ghost_name }
    {
        Out { into, count: 0 }
    }

    /// The number of bytes appended so far.
    pub fn written(&self) -> usize
        ensures count { result ≡ length (written_of self.now) }
    {
        self.count
    }

    /// The number of bytes that still fit.
    pub fn room(&self) -> usize
        ensures room { result ≡ room_of self.now }
    {
        self.into.len() - self.count
    }

    /// Appends one byte.
    pub fn u8(&mut self, byte: u8) -> Result<(), NoRoom>
        ensures ok { OnOk result (Appends self.old self.new (byte ∷ [])) }
        ensures refused { IsErr result ↔ (room_of self.old < 1) }
        ensures puts { Puts result self.old self.new (byte ∷ []) }
        ensures err { OnErr result (self.new ≡ self.old) }
    {
        if self.room() < 1 {
            return Err(NoRoom);
        }
        self.put_u8(byte);
        Ok(())
    }

    /// Appends a number as two bytes, the higher one first.
    pub fn u16(&mut self, number: u16) -> Result<(), NoRoom>
        ensures ok { OnOk result (Appends self.old self.new (to_be_bytes w16 number)) }
        ensures refused { IsErr result ↔ (room_of self.old < 2) }
        ensures puts { Puts result self.old self.new (to_be_bytes w16 number) }
        ensures err { OnErr result (self.new ≡ self.old) }
    {
        self.run(&number.to_be_bytes())
    }

    /// Appends a number as four bytes, the highest first.
    pub fn u32(&mut self, number: u32) -> Result<(), NoRoom>
        ensures ok { OnOk result (Appends self.old self.new (to_be_bytes w32 number)) }
        ensures refused { IsErr result ↔ (room_of self.old < 4) }
        ensures puts { Puts result self.old self.new (to_be_bytes w32 number) }
        ensures err { OnErr result (self.new ≡ self.old) }
    {
        self.run(&number.to_be_bytes())
    }

    /// Appends a number as eight bytes, the highest first.
    pub fn u64(&mut self, number: u64) -> Result<(), NoRoom>
        ensures ok { OnOk result (Appends self.old self.new (to_be_bytes w64 number)) }
        ensures refused { IsErr result ↔ (room_of self.old < 8) }
        ensures puts { Puts result self.old self.new (to_be_bytes w64 number) }
        ensures err { OnErr result (self.new ≡ self.old) }
    {
        self.run(&number.to_be_bytes())
    }

    /// Appends these bytes.
    pub fn run(&mut self, bytes: &[u8]) -> Result<(), NoRoom>
        ensures ok { OnOk result (Appends self.old self.new bytes.now) }
        ensures refused { IsErr result ↔ (room_of self.old < length bytes.now) }
        ensures puts { Puts result self.old self.new bytes.now }
        ensures err { OnErr result (self.new ≡ self.old) }
    {
        if self.room() < bytes.len() {
            return Err(NoRoom);
        }
        self.put_run(bytes);
        Ok(())
    }

    /// Appends one byte, for which there is room.
    pub fn put_u8(&mut self, byte: u8)
        requires { 1 ≤ room_of self.old }
        ensures appends { Appends self.old self.new (byte ∷ []) }
    {
        self.into[self.count] = byte;
        self.count += 1;
    }

    /// Appends a number as two bytes, the higher one first. There is room for them.
    pub fn put_u16(&mut self, number: u16)
        requires { 2 ≤ room_of self.old }
        ensures appends { Appends self.old self.new (to_be_bytes w16 number) }
    {
        self.put_run(&number.to_be_bytes());
    }

    /// Appends a number as four bytes, the highest first. There is room for them.
    pub fn put_u32(&mut self, number: u32)
        requires { 4 ≤ room_of self.old }
        ensures appends { Appends self.old self.new (to_be_bytes w32 number) }
    {
        self.put_run(&number.to_be_bytes());
    }

    /// Appends a number as eight bytes, the highest first. There is room for them.
    pub fn put_u64(&mut self, number: u64)
        requires { 8 ≤ room_of self.old }
        ensures appends { Appends self.old self.new (to_be_bytes w64 number) }
    {
        self.put_run(&number.to_be_bytes());
    }

    /// Appends these bytes, for which there is room.
    pub fn put_run(&mut self, bytes: &[u8])
        requires { length bytes.now ≤ room_of self.old }
        ensures appends { Appends self.old self.new bytes.now }
    {
        let end = self.count + bytes.len();
        self.into[self.count..end].copy_from_slice(bytes);
        self.count = end;
    }
}
