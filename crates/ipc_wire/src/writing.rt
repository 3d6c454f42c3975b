//! Replies written into a buffer.

ghost use Rattle.std.specs.Prelude.{◌≡◌, ◌≤◌, ◌<◌, ◌+◌, ◌^◌, ◌++◌, ◌↔◌, IsTrue, true, length, drop};
ghost use Rattle.std.specs.Bool.{OnTrue, OnFalse};
ghost use Rattle.ipc_base.specs.Fields.{Puts};
ghost use Rattle.ipc_base.specs.Numbers.{field_bytes};
ghost use Rattle.ipc_wire.specs.Reply.{plain_body, plain_reply, body_bytes, reply_bytes, error_number};

use crate::reply::{Body, Reply};
use ipc_base::{Errno, Field, Put};

/// How many bytes the reply takes.
#[tactic(auto, unfolding(crate::specs::Reply::reply_bytes))]
pub fn reply_len(reply: &Reply<'_>) -> usize
    ensures { result ≡ length (reply_bytes (plain_reply reply.now)) }
{
    10 + body_len(&reply.body)
}

fn body_len(body: &Body<&[u8]>) -> usize
    ensures exact { result ≡ length (body_bytes (plain_body body.now)) }
    ensures bound { result + 10 < 2 ^ 64 }
{
    match body {
        Body::Empty => 0,
        Body::Number(_) => 4,
        Body::Message { text, .. } => 8 + text_len(text),
        Body::MqMessage { text, .. } => 4 + text_len(text),
        Body::Notification { .. } => 8,
        Body::Record(bytes) => text_len(bytes),
    }
}

pub(crate) fn text_len(text: &[u8]) -> usize
    ensures exact { result ≡ length text.now }
    ensures bound { result < 2 ^ 63 }
{
    text.len()
}

/// Writes the reply to the front of the buffer. Answers `false`, and changes nothing, where the buffer is
/// shorter than the reply or the reply is too long for its length field of four bytes.
#[tactic(auto, unfolding(crate::specs::Reply::reply_bytes))]
pub fn write_reply(reply: &Reply<'_>, out: &mut [u8]) -> bool
    ensures fits { IsTrue result ↔ ((length (reply_bytes (plain_reply reply.now)) ≤ length out.old)
        × (6 + length (body_bytes (plain_reply reply.now).body) < 2 ^ 32)) }
    ensures written { OnTrue result (out.new
        ≡ reply_bytes (plain_reply reply.now) ++ drop (length (reply_bytes (plain_reply reply.now))) out.old) }
    ensures unchanged { OnFalse result (out.new ≡ out.old) }
{
    let whole = reply_len(reply);
    let Ok(length) = u32::try_from(whole - 4) else {
        return false;
    };
    if whole > out.len() {
        return false;
    }
    let mut put = Put::new(0);
    put.u32(out, length)
        && put.u32(out, reply.serial)
        && put.u16(out, number_of(reply.errno))
        && put_body(&mut put, out, &reply.body)
}

/// The number of an error, 0 where there is none.
fn number_of(errno: Option<Errno>) -> u16
    ensures { result ≡ error_number errno }
{
    errno.map_or(0, Errno::number)
}

/// Puts a body for which there is room.
fn put_body(put: &mut Put, out: &mut [u8], body: &Body<&[u8]>) -> bool
    requires { put.old + length (body_bytes (plain_body body.now)) ≤ length out.old }
    ensures done { IsTrue result }
    ensures bytes { Puts (body_bytes (plain_body body.now)) put.old put.new out.old out.new true }
{
    match body {
        Body::Empty => put.bytes(out, &[]),
        Body::Number(number) => put.u32(out, *number),
        Body::Message { mtype, text } => put_field(put, out, Field::I64(*mtype), text),
        Body::MqMessage { priority, text } => put_field(put, out, Field::U32(*priority), text),
        Body::Notification { fd, cookie } => {
            put_field(put, out, Field::U32(*fd), &cookie.to_be_bytes())
        }
        Body::Record(bytes) => put.bytes(out, bytes),
    }
}

/// Puts a field, and bytes after it, for which there is room.
fn put_field(put: &mut Put, out: &mut [u8], field: Field, rest: &[u8]) -> bool
    requires { put.old + length (field_bytes field ++ rest.now) ≤ length out.old }
    ensures done { IsTrue result }
    ensures bytes { Puts (field_bytes field ++ rest.now) put.old put.new out.old out.new true }
{
    put.field(out, field) && put.bytes(out, rest)
}
