//! Fields read from the front of some bytes.

ghost use Rattle.std.specs.Prelude.{◌≡◌, ◌==◌};
ghost use Rattle.std.specs.Prelude.{List, ℕ, length, slice_index, option_map};
ghost use Rattle.std.specs.Int.{w16, w32, w64, from_be_bytes};
ghost use Rattle.ipc_base.specs.Fields.{Reads, signed};

use std::marker::Model;

/// Bytes of which fields are taken from the front. A contract sees the bytes that are left. A read of
/// a field that is not whole answers `None` and takes nothing.
#[derive(Drop)]
pub struct Cursor<'a> {
    rest: &'a [u8],
}

impl<'a> Model for Cursor<'a> {
    ghost Value = { List ℕ };

    ghost view = { λ c. c.rest.now };
}

impl<'a> Cursor<'a> {
    /// All of the bytes are left.
    pub fn new(bytes: &'a [u8]) -> Cursor<'a>
        ensures { result ≡ bytes.now }
    {
        Cursor { rest: bytes }
    }

    /// The bytes that are left.
    pub fn rest(&self) -> &'a [u8]
        ensures { result.now ≡ self.now }
    {
        self.rest
    }

    /// Whether none is left.
    pub fn is_empty(&self) -> bool
        ensures { result ≡ (length self.now == 0) }
    {
        self.rest.is_empty()
    }

    /// One byte.
    pub fn u8(&mut self) -> Option<u8>
        ensures { Reads 1 (λ field. slice_index field 0) self.old self.new result }
    {
        let (field, rest) = self.rest.split_first_chunk::<1>()?;
        self.rest = rest;
        Some(field[0])
    }

    /// A number of two bytes.
    pub fn u16(&mut self) -> Option<u16>
        ensures { Reads 2 (from_be_bytes w16) self.old self.new result }
    {
        let (field, rest) = self.rest.split_first_chunk::<2>()?;
        self.rest = rest;
        Some(u16::from_be_bytes(*field))
    }

    /// A number of four bytes.
    pub fn u32(&mut self) -> Option<u32>
        ensures { Reads 4 (from_be_bytes w32) self.old self.new result }
    {
        let (field, rest) = self.rest.split_first_chunk::<4>()?;
        self.rest = rest;
        Some(u32::from_be_bytes(*field))
    }

    /// A number of eight bytes.
    pub fn u64(&mut self) -> Option<u64>
        ensures { Reads 8 (from_be_bytes w64) self.old self.new result }
    {
        let (field, rest) = self.rest.split_first_chunk::<8>()?;
        self.rest = rest;
        Some(u64::from_be_bytes(*field))
    }

    /// A signed number of two bytes.
    pub fn i16(&mut self) -> Option<i16>
        ensures { Reads 2 (signed w16) self.old self.new result }
    {
        let field = self.u16()?;
        Some(field.cast_signed())
    }

    /// A signed number of four bytes.
    pub fn i32(&mut self) -> Option<i32>
        ensures { Reads 4 (signed w32) self.old self.new result }
    {
        let field = self.u32()?;
        Some(field.cast_signed())
    }

    /// A signed number of eight bytes.
    pub fn i64(&mut self) -> Option<i64>
        ensures { Reads 8 (signed w64) self.old self.new result }
    {
        let field = self.u64()?;
        Some(field.cast_signed())
    }

    /// The next `count` bytes, as they stand.
    pub fn bytes(&mut self, count: usize) -> Option<&'a [u8]>
        ensures { Reads count (λ field. field) self.old self.new (option_map (λ field. field.now) result) }
    {
        let (field, rest) = self.rest.split_at_checked(count)?;
        self.rest = rest;
        Some(field)
    }
}
