//! Numbers in their fields, a text after them, and a count: put into a window, and the count read.

ghost use Rattle.std.specs.Prelude.{◌≡◌, ◌≢◌, ◌<◌, ◌^◌, ◌++◌, ℕ, List, IfSome, IfNone};
ghost use Rattle.ipc_base.specs.Numbers.{field_bytes, record_bytes};
ghost use Rattle.ipc_image.specs.Saved.{count_bytes};
ghost use Rattle.ipc_image.specs.Window.{passed};

use crate::window::Window;
use ipc_base::{Field, Size, take_fields};

pub(crate) const TWO: Size = Size::Two;

pub(crate) const FOUR: Size = Size::Four;

pub(crate) const EIGHT: Size = Size::Eight;

/// Numbers in their fields, side by side.
pub(crate) fn put_fields(window: &mut Window, fields: &[Field])
    ensures { window.new ≡ passed (record_bytes fields.now) window.old }
{
    for field in fields {
        put_field(window, *field);
    }
}

/// Numbers in their fields, and a text after them.
pub(crate) fn put_row(window: &mut Window, fields: &[Field], text: &[u8])
    ensures { window.new ≡ passed (record_bytes fields.now ++ text.now) window.old }
{
    put_fields(window, fields);
    window.put(text);
}

fn put_field(window: &mut Window, field: Field)
    ensures { window.new ≡ passed (field_bytes field) window.old }
{
    match field {
        Field::U8(number) => window.put(&number.to_be_bytes()),
        Field::U16(number) => window.put(&number.to_be_bytes()),
        Field::U32(number) => window.put(&number.to_be_bytes()),
        Field::U64(number) => window.put(&number.to_be_bytes()),
        Field::I16(number) => window.put(&number.to_be_bytes()),
        Field::I32(number) => window.put(&number.to_be_bytes()),
        Field::I64(number) => window.put(&number.to_be_bytes()),
    }
}

/// A number of things that follow.
pub(crate) fn put_count(window: &mut Window, count: u32)
    ensures { window.new ≡ passed (count_bytes count) window.old }
{
    put_fields(window, &[Field::U32(count)]);
}

/// A count at the front, and the bytes that are left.
pub(crate) fn take_count(bytes: &[u8]) -> Option<(u32, &[u8])>
    ensures some { IfSome result (λ found. bytes.now ≡ count_bytes found.0 ++ found.1.now) }
    ensures none { IfNone result ((n : ℕ) (rest : List ℕ) → n < 2 ^ 32 → bytes.now ≢ count_bytes n ++ rest) }
{
    let (numbers, rest) = take_fields(bytes, &[FOUR])?;
    Some((numbers[0] as u32, rest))
}
