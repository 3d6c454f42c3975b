//! Fields written side by side into a buffer.

ghost use Rattle.std.specs.Prelude.{◌≡◌, ℕ, [], ◌∷◌};
ghost use Rattle.std.specs.Int.{w16, w32, w64, to_be_bytes};
ghost use Rattle.ipc_base.specs.Fields.{Puts, signed_bytes};
ghost use Rattle.ipc_base.specs.Numbers.{field_bytes};

use crate::field::Field;
use std::marker::Model;

/// The place in a buffer where the next field goes. A contract sees it as a number. A field that
/// would pass the end of the buffer is answered `false` and changes nothing.
#[derive(Drop)]
pub struct Put {
    at: usize,
}

impl Model for Put {
    ghost Value = { ℕ };

    ghost view = { λ p. p.at };
}

impl Put {
    /// The next field goes to this place.
    pub fn new(at: usize) -> Put
        ensures { result ≡ at }
    {
        Put { at }
    }

    /// The place of the next field.
    pub fn at(&self) -> usize
        ensures { result ≡ self.now }
    {
        self.at
    }

    /// These bytes, as they stand.
    pub fn bytes(&mut self, buffer: &mut [u8], field: &[u8]) -> bool
        ensures { Puts field.now self.old self.new buffer.old buffer.new result }
    {
        if self.at > buffer.len() || buffer.len() - self.at < field.len() {
            return false;
        }
        let end = self.at + field.len();
        buffer[self.at..end].copy_from_slice(field);
        self.at = end;
        true
    }

    /// One byte.
    pub fn u8(&mut self, buffer: &mut [u8], number: u8) -> bool
        ensures { Puts (number ∷ []) self.old self.new buffer.old buffer.new result }
    {
        self.bytes(buffer, &[number])
    }

    /// A number in two bytes.
    pub fn u16(&mut self, buffer: &mut [u8], number: u16) -> bool
        ensures { Puts (to_be_bytes w16 number) self.old self.new buffer.old buffer.new result }
    {
        self.bytes(buffer, &number.to_be_bytes())
    }

    /// A number in four bytes.
    pub fn u32(&mut self, buffer: &mut [u8], number: u32) -> bool
        ensures { Puts (to_be_bytes w32 number) self.old self.new buffer.old buffer.new result }
    {
        self.bytes(buffer, &number.to_be_bytes())
    }

    /// A number in eight bytes.
    pub fn u64(&mut self, buffer: &mut [u8], number: u64) -> bool
        ensures { Puts (to_be_bytes w64 number) self.old self.new buffer.old buffer.new result }
    {
        self.bytes(buffer, &number.to_be_bytes())
    }

    /// A signed number in two bytes.
    pub fn i16(&mut self, buffer: &mut [u8], number: i16) -> bool
        ensures { Puts (signed_bytes w16 number) self.old self.new buffer.old buffer.new result }
    {
        self.u16(buffer, number.cast_unsigned())
    }

    /// A signed number in four bytes.
    pub fn i32(&mut self, buffer: &mut [u8], number: i32) -> bool
        ensures { Puts (signed_bytes w32 number) self.old self.new buffer.old buffer.new result }
    {
        self.u32(buffer, number.cast_unsigned())
    }

    /// A signed number in eight bytes.
    pub fn i64(&mut self, buffer: &mut [u8], number: i64) -> bool
        ensures { Puts (signed_bytes w64 number) self.old self.new buffer.old buffer.new result }
    {
        self.u64(buffer, number.cast_unsigned())
    }

    /// A number in its field.
    pub fn field(&mut self, buffer: &mut [u8], field: Field) -> bool
        ensures { Puts (field_bytes field) self.old self.new buffer.old buffer.new result }
    {
        match field {
            Field::U8(number) => self.bytes(buffer, &number.to_be_bytes()),
            Field::U16(number) => self.u16(buffer, number),
            Field::U32(number) => self.u32(buffer, number),
            Field::U64(number) => self.u64(buffer, number),
            Field::I16(number) => self.i16(buffer, number),
            Field::I32(number) => self.i32(buffer, number),
            Field::I64(number) => self.i64(buffer, number),
        }
    }
}
