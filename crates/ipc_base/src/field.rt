//! Numbers in fields, and numbers read by a list of their sizes.

ghost use Rattle.std.specs.Prelude.{◌≡◌, ◌≢◌, ◌<◌, ◌++◌, ℕ, List, IfSome, IfNone};
ghost use Rattle.std.specs.Int.{to_be_bytes};
ghost use Rattle.ipc_base.specs.Numbers.{field_bytes, fields_bytes, FitFields, most_of, width_of};

use crate::cursor::Cursor;
use crate::put::Put;
use std::marker::Model;

/// How many bytes a number has.
#[derive(Clone, Copy)]
pub enum Size {
    One,
    Two,
    Four,
    Eight,
}

/// A number that has a field of its size; a signed one is in two's complement.
#[derive(Clone, Copy)]
pub enum Field {
    U8(u8),
    U16(u16),
    U32(u32),
    U64(u64),
    I16(i16),
    I32(i32),
    I64(i64),
}

/// The most bytes of a field.
const FIELD: usize = 8;

/// The bytes of a field. A contract sees it as these bytes.
#[derive(Drop)]
pub struct FieldBytes {
    bytes: [u8; FIELD],
    len: usize,
}

impl Model for FieldBytes {
    ghost use Rattle.std.specs.Prelude.{◌≤◌, ℕ, List, take};

    ghost Value = { List ℕ };

    ghost view = { λ f. take f.len f.bytes };

    ghost invariant = { λ f. f.len ≤ 8 };
}

impl FieldBytes {
    /// The bytes.
    pub fn as_slice(&self) -> &[u8]
        ensures { result.now ≡ self.now }
    {
        &self.bytes[..self.len]
    }
}

impl Field {
    /// The bytes of the number in its field.
    pub fn to_bytes(self) -> FieldBytes
        ensures { result ≡ field_bytes self }
    {
        let mut bytes = [0; FIELD];
        let mut put = Put::new(0);
        put.field(&mut bytes, self);
        FieldBytes {
            bytes,
            len: put.at(),
        }
    }
}

/// The numbers of these sizes at the front of the bytes, and the bytes that are left. `None` if there are too few.
pub fn take_fields<'a, const N: usize>(
    bytes: &'a [u8],
    sizes: &[Size; N],
) -> Option<([u64; N], &'a [u8])>
    ensures some { IfSome result (λ found. FitFields sizes.now found.0
        × (bytes.now ≡ fields_bytes sizes.now found.0 ++ found.1.now)) }
    ensures none { IfNone result ((numbers rest : List ℕ) → FitFields sizes.now numbers
        → bytes.now ≢ fields_bytes sizes.now numbers ++ rest) }
{
    let mut numbers = [0; N];
    let mut left = bytes;
    for i in 0..N {
        let (number, rest) = take_number(left, sizes[i])?;
        numbers[i] = number;
        left = rest;
    }
    Some((numbers, left))
}

// The number at the front of the bytes, and the bytes that are left.
fn take_number(bytes: &[u8], size: Size) -> Option<(u64, &[u8])>
    ensures some { IfSome result (λ found. (found.0 < most_of size)
        × (bytes.now ≡ to_be_bytes (width_of size) found.0 ++ found.1.now)) }
    ensures none { IfNone result ((number : ℕ) (rest : List ℕ) → number < most_of size
        → bytes.now ≢ to_be_bytes (width_of size) number ++ rest) }
{
    let mut cursor = Cursor::new(bytes);
    let number = match size {
        Size::One => cursor.u8()? as u64,
        Size::Two => cursor.u16()? as u64,
        Size::Four => cursor.u32()? as u64,
        Size::Eight => cursor.u64()?,
    };
    Some((number, cursor.rest()))
}
