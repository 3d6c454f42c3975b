//! A message as a queue keeps it.

ghost use Rattle.std.specs.Prelude.{◌≡◌, ◌<◌, ◌+◌, ◌^◌, ◌≤◌, ◌++◌, length, vec_len, vec_capacity, IfOk};

use ipc_arrivals::Ranked;
use std::alloc::{AllocError, Global};

/// A message: its priority, which mq_send(3) wants below 32768, and of which the greatest is received
/// first, and the bytes of its text. The text's buffer has room for these bytes and no more.
#[derive(Debug, Drop)]
pub struct Message {
    pub priority: u32,
    pub text: Vec<u8>,
    ghost exact: { vec_capacity text ≡ length text.items },
    ghost ranged: { priority < 2 ^ 32 },
}

impl Message {
    ghost use Rattle.posix_mq.specs.Queue.{plain};

    /// A message with a copy of the text, in memory of its own. Refused for want of memory.
    pub fn new(alloc: Global, priority: u32, text: &[u8]) -> Result<Message, AllocError>
        ensures { IfOk result (λ m. plain m ≡ record { priority = priority; text = text.now }) }
    {
        let mut buffer = Vec::with_capacity(alloc, text.len())?;
        append(&mut buffer, text);
        Ok(Message {
            priority,
            text: buffer,
        })
    }
}

/// Messages are found by priority.
impl Ranked for Message {
    ghost rank = { λ m. m.priority };

    fn rank(&self) -> u64 {
        u64::from(self.priority)
    }
}

/// Appends the bytes of the text to a buffer that has room for them, and leaves its room as it is.
fn append(buffer: &mut Vec<u8>, text: &[u8])
    requires { vec_len buffer.old + length text.now ≤ vec_capacity buffer.old }
    ensures items { buffer.new.items ≡ buffer.old.items ++ text.now }
    ensures capacity { vec_capacity buffer.new ≡ vec_capacity buffer.old }
{
    for byte in text {
        buffer.push_reserved(*byte);
    }
}
