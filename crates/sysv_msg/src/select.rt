//! Which message of a queue a receive takes.

ghost use Rattle.std.specs.Prelude.{◌≡◌, ◌≤ℤ◌, pos, true, not, ◌&&◌, ◌||◌, length, int_le, if◌then◌else◌};
ghost use Rattle.std.specs.Prelude.{IfNone, IfSome, position, map, All, Contains};
ghost use Rattle.std.specs.List.{list_all};
ghost use Rattle.std.specs.Ordering.{int_eq};

use crate::message::{Message, rank_of, type_of};
use ipc_arrivals::Arrivals;

/// The position of the first message of the type, or with `except` of another one. Type 0 is any
/// type.
pub(crate) fn first_of_type(messages: &Arrivals<Message>, mtype: i64, except: bool) -> Option<usize>
    ensures { result
        ≡ position (λ m. int_eq mtype (pos 0)
        || (if except then not (int_eq m.mtype mtype) else int_eq m.mtype mtype)) messages.now.items }
{
    if mtype == 0 {
        first(messages)
    } else if except {
        messages.first_but(rank_of(mtype))
    } else {
        messages.first_of(rank_of(mtype))
    }
}

/// The position of the first message of all.
fn first(messages: &Arrivals<Message>) -> Option<usize>
    ensures { result ≡ position (λ m. true) messages.now.items }
{
    if messages.is_empty() { None } else { Some(0) }
}

/// The least type of the messages, if there is a message.
fn least_type(messages: &Arrivals<Message>) -> Option<i64>
    ensures empty { IfNone result (length messages.now.items ≡ 0) }
    ensures least { IfSome result (λ least. All (λ m. least ≤ℤ m.mtype) messages.now.items) }
    ensures found { IfSome result (λ least. Contains (map (λ m. m.mtype) messages.now.items) least) }
{
    let rank = messages.least()?;
    Some(type_of(rank))
}

/// The position of the first message of the least type, if that is at most `most`.
pub(crate) fn first_of_least_type(messages: &Arrivals<Message>, most: u64) -> Option<usize>
    ensures { result
        ≡ position (λ m. int_le m.mtype (pos most)
        && list_all (λ o. int_le m.mtype o.mtype) messages.now.items) messages.now.items }
{
    let least = least_type(messages)?;
    if is_at_most(least, most) {
        first_equal(messages, least)
    } else {
        None
    }
}

/// The position of the first message of exactly this type.
fn first_equal(messages: &Arrivals<Message>, mtype: i64) -> Option<usize>
    ensures { result ≡ position (λ m. int_eq m.mtype mtype) messages.now.items }
{
    messages.first_of(rank_of(mtype))
}

/// Whether the type is at most `most`.
fn is_at_most(mtype: i64, most: u64) -> bool
    ensures { result ≡ int_le mtype (pos most) }
{
    mtype <= 0 || mtype.unsigned_abs() <= most
}
