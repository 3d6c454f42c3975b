//! The frames of a connection that the client has not consumed.

ghost use Rattle.std.specs.Prelude.{◌≡◌, ◌+◌, ◌<◌, ◌≤◌, ◌^◌, ◌↔◌, ℕ, [], length, take, drop, IfOk, IsTrue};
ghost use Rattle.std.specs.Prelude.{vec_len, vec_capacity};
ghost use Rattle.ipc_wire.specs.Reply.{plain_reply, reply_bytes, body_bytes};
ghost use Rattle.ipc_hub.specs.View.{kept};
ghost use Rattle.ipc_hub.specs.Relations.Delivery.{with_bytes, retracted};

use ipc_wire::{Reply, reply_len, write_reply};
use std::alloc::{AllocError, Global};
use std::marker::Model;

/// The bytes of frames: those that the client may see, and after them those that wait to be released. They stand at
/// the front of a buffer, which has at most `space` bytes. Its memory is taken when it is made, and none of it is
/// touched before a frame stands there: most connections never keep as many bytes as they have room for.
#[derive(Drop)]
pub(crate) struct Outbox {
    buffer: Vec<u8>,
    released: usize,
    end: usize,
    space: usize,
}

impl Model for Outbox {
    ghost use Rattle.std.specs.Prelude.{◌≤◌, ◌-◌, take, drop, vec_len, vec_capacity};
    ghost use Rattle.ipc_hub.specs.View.{Outgoing};

    ghost Value = { Outgoing };

    ghost view = { λ o. record {
      visible = take o.released o.buffer.items;
      waiting = drop o.released (take o.end o.buffer.items);
      free = o.space - o.end;
    } };

    ghost invariant = { λ o. (o.released ≤ o.end) × (o.end ≤ vec_len o.buffer)
        × (vec_len o.buffer ≤ o.space) × (o.space ≤ vec_capacity o.buffer) };
}

impl Outbox {
    /// No frame is kept, and so many bytes have room.
    pub(crate) fn new(alloc: Global, space: usize) -> Result<Outbox, AllocError>
        ensures { IfOk result (λ o. o ≡ record { visible = []; waiting = []; free = space }) }
    {
        Ok(Outbox {
            buffer: Vec::with_capacity(alloc, space)?,
            released: 0,
            end: 0,
            space,
        })
    }

    /// How many more bytes have room.
    pub(crate) fn free(&self) -> usize
        ensures { result ≡ self.now.free }
    {
        self.space - self.end
    }

    /// The bytes that the client may see.
    pub(crate) fn visible(&self) -> &[u8]
        ensures { result.now ≡ self.now.visible }
    {
        &self.buffer[..self.released]
    }

    /// Whether no frame is kept.
    pub(crate) fn is_empty(&self) -> bool
        ensures { IsTrue result ↔ (kept self.now ≡ []) }
    {
        self.end == 0
    }

    /// Puts a frame after those that wait.
    pub(crate) fn push(&mut self, reply: &Reply<'_>)
        requires space { length (reply_bytes (plain_reply reply.now)) ≤ self.old.free }
        requires length { 6 + length (body_bytes (plain_reply reply.now).body) < 2 ^ 32 }
        ensures { self.new ≡ with_bytes self.old (reply_bytes (plain_reply reply.now)) }
    {
        let end = self.end + reply_len(reply);
        lengthen(&mut self.buffer, end);
        write_reply(reply, &mut self.buffer[self.end..]);
        self.end = end;
    }

    /// What waits is dropped.
    pub(crate) fn retract(&mut self)
        ensures { self.new ≡ retracted self.old }
    {
        self.end = self.released;
    }

    /// The client may see all that is kept.
    pub(crate) fn release(&mut self)
        ensures { self.new ≡ record { visible = kept self.old; waiting = []; free = self.old.free } }
    {
        self.released = self.end;
    }

    /// The client has taken the first `count` bytes that it may see.
    pub(crate) fn consume(&mut self, count: usize)
        requires { count ≤ length self.old.visible }
        ensures { self.new ≡ record {
          visible = drop count self.old.visible;
          waiting = self.old.waiting;
          free = self.old.free + count;
        } }
    {
        self.buffer.copy_within(count..self.end, 0);
        self.released -= count;
        self.end -= count;
    }
}

/// Makes a buffer at least so many bytes long. Their memory was taken before.
fn lengthen(buffer: &mut Vec<u8>, len: usize)
    requires { len ≤ vec_capacity buffer.old }
    ensures front { take (vec_len buffer.old) buffer.new.items ≡ buffer.old.items }
    ensures long { len ≤ vec_len buffer.new }
    ensures bounded { (space : ℕ) → len ≤ space → vec_len buffer.old ≤ space → vec_len buffer.new ≤ space }
    ensures grown { vec_len buffer.old ≤ vec_len buffer.new }
    ensures capacity { vec_capacity buffer.old ≤ vec_capacity buffer.new }
{
    if buffer.len() < len {
        buffer.resize(len, 0).unwrap();
    }
}
