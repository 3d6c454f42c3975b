//! Requests read from the front of a stream.

ghost use Rattle.std.specs.Prelude.{◌≡◌, ℕ, ◌<◌, ◌≤◌, ◌+◌, length, option_map, IfSome, Some};
ghost use Rattle.ipc_wire.specs.Request.{PlainRequest};
ghost use Rattle.ipc_wire.specs.Sizes.{least_length, greatest_length, greatest_frame};
ghost use Rattle.ipc_wire.specs.Spelling.{HasFrame, request_bytes};
ghost use Rattle.ipc_wire.specs.Stream.{plain_frame, TakesBytes, first, missing, frame_of};
ghost use Rattle.ipc_wire.specs.View.{plain_request};
ghost use Rattle.ipc_wire.specs.Stream.PlainFrame.{More, Whole};

use crate::fields::read_kind;
use crate::request::{Frame, Request};
use ipc_base::Cursor;

/// The least length of a request, in bytes after the length itself: a serial and an opcode.
pub const LEAST_LENGTH: u32 = 5;

/// The greatest length of a request, in bytes after the length itself.
pub const GREATEST_LENGTH: u32 = 65792;

/// The bytes of the longest whole frame, its length with it.
pub const GREATEST_FRAME: usize = 4 + GREATEST_LENGTH as usize;

/// What stands at the front of the bytes. It takes no memory: the text of a message stays where it is.
#[tactic(auto, unfolding(crate::specs::Stream::first, crate::specs::Stream::u32_at))]
pub fn read_frame(bytes: &[u8]) -> Frame<'_>
    ensures exact { plain_frame result ≡ first bytes.now }
    ensures used { TakesBytes (plain_frame result) (length bytes.now) }
    ensures waiting { plain_frame result ≡ More → length bytes.now < greatest_frame }
    ensures has_frame { (used : ℕ) (request : PlainRequest) → plain_frame result ≡ Whole used request
        → HasFrame request }
{
    let mut cursor = Cursor::new(bytes);
    let Some(length) = cursor.u32() else {
        return Frame::More;
    };
    if length < LEAST_LENGTH || length > GREATEST_LENGTH {
        return Frame::Fault { serial: 0 };
    }
    match cursor.bytes(length as usize) {
        Some(text) => whole_frame(text),
        None => Frame::More,
    }
}

/// How many bytes are missing, at least, of the frame that these bytes begin: no frame is whole, and no fault is
/// seen, before as many have come.
#[tactic(auto, unfolding(crate::specs::Stream::missing, crate::specs::Stream::u32_at))]
pub fn bytes_missing(bytes: &[u8]) -> usize
    requires { first bytes.now ≡ More }
    ensures exact { result ≡ missing bytes.now }
    ensures some { 0 < result }
    ensures bounded { length bytes.now + result ≤ greatest_frame }
{
    let mut cursor = Cursor::new(bytes);
    match cursor.u32() {
        Some(length) => 4 + length as usize - bytes.len(),
        None => 4 - bytes.len(),
    }
}

/// The request whose frame without its length is these bytes, or `None` if they are of no request.
pub fn read_request(text: &[u8]) -> Option<Request<'_>>
    ensures some { IfSome (option_map plain_request result)
        (λ r. HasFrame r × (text.now ≡ request_bytes r)) }
    ensures only { (r : PlainRequest) → HasFrame r → text.now ≡ request_bytes r
        → option_map plain_request result ≡ Some r }
{
    if text.len() < LEAST_LENGTH as usize || text.len() > GREATEST_LENGTH as usize {
        return None;
    }
    match whole_frame(text) {
        Frame::Whole { request, .. } => Some(request),
        Frame::More => None,
        Frame::Fault { .. } => None,
    }
}

/// The frame of which these bytes stand after the length.
#[tactic(auto, unfolding(crate::specs::Stream::frame_of, crate::specs::Stream::u32_at))]
fn whole_frame(text: &[u8]) -> Frame<'_>
    requires { (least_length ≤ length text.now) × (length text.now ≤ greatest_length) }
    ensures { plain_frame result ≡ frame_of text.now }
{
    let mut cursor = Cursor::new(text);
    let Some(serial) = cursor.u32() else {
        unreachable!()
    };
    let Some(opcode) = cursor.u8() else {
        unreachable!()
    };
    if serial == 0 {
        return Frame::Fault { serial: 0 };
    }
    match read_kind(opcode, cursor.rest()) {
        Some(kind) => Frame::Whole {
            used: 4 + text.len(),
            request: Request {
                serial,
                kind,
                bytes: text,
            },
        },
        None => Frame::Fault { serial },
    }
}
