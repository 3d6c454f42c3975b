//! What the crates of calls share: how a call ends, why one does not go on, and the buffer of its reply.

ghost use Rattle.std.specs.Prelude.{◌≡◌, []};

use ipc_base::Errno;
use ipc_wire::Body;
use posix_mq::Registration;
use std::mem;

/// How a call ends: the body of its reply, or the error.
pub type Answer = Result<Body<Vec<u8>>, Errno>;

/// Why a call does not go on.
#[derive(Clone, Copy)]
pub enum Halt {
    Fails(Errno),
    /// It has to wait.
    Blocks,
}

/// What comes of a call that may wait.
#[derive(Drop)]
pub enum Tried<C> {
    /// It ends so, and fires this registration, if one.
    Finishes(Answer, Option<Registration>),
    /// It has to wait, and is given back.
    Waits(C),
}

/// The spare buffer, for the body of a reply; one without room is left in its place.
pub fn take_spare(spare: &mut Vec<u8>) -> Vec<u8>
    ensures taken { result ≡ spare.old }
    ensures left { spare.new.items ≡ [] }
{
    let alloc = *spare.allocator();
    mem::replace(spare, Vec::new(alloc))
}
