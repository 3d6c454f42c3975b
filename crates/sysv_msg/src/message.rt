//! A message as a queue keeps it.

ghost use Rattle.std.specs.Prelude.{◌≡◌, ◌+◌, ◌≤◌, ◌++◌, length, vec_len, vec_capacity};
ghost use Rattle.std.specs.Prelude.{FitsSigned, IfOk};
ghost use Rattle.std.specs.Int.{w64};
ghost use Rattle.sysv_msg.specs.Ranks.{rank_of};

use ipc_arrivals::Ranked;
use std::alloc::{AllocError, Global};

/// A message: its type, which msgsnd(2) wants above 0, and the bytes of its text. The text's buffer has
/// room for these bytes and no more.
#[derive(Debug, Drop)]
pub struct Message {
    pub mtype: i64,
    pub text: Vec<u8>,
    ghost exact: { vec_capacity text ≡ length text.items },
    ghost typed: { FitsSigned w64 mtype },
}

impl Message {
    ghost use Rattle.sysv_msg.specs.Queue.{plain};

    /// A message with a copy of the text, in memory of its own. Refused for want of memory.
    pub fn new(alloc: Global, mtype: i64, text: &[u8]) -> Result<Message, AllocError>
        ensures { IfOk result (λ m. plain m ≡ record { mtype = mtype; text = text.now }) }
    {
        let mut buffer = Vec::with_capacity(alloc, text.len())?;
        append(&mut buffer, text);
        Ok(Message {
            mtype,
            text: buffer,
        })
    }
}

/// Messages are found by type: the ranks of types rise with them.
impl Ranked for Message {
    ghost rank = { λ m. rank_of m.mtype };

    fn rank(&self) -> u64 {
        rank_of(self.mtype)
    }
}

/// The rank of a type, counted from the least one that there is.
pub(crate) fn rank_of(mtype: i64) -> u64
    ensures { result ≡ rank_of mtype }
{
    mtype.abs_diff(i64::MIN)
}

/// The type of a rank.
pub(crate) fn type_of(rank: u64) -> i64
    ensures { rank_of result ≡ rank }
{
    if rank < 1 << 63 {
        i64::MIN + rank as i64
    } else {
        (rank - (1 << 63)) as i64
    }
}

/// Appends the bytes of the text to a buffer that has room for them, and leaves its room as it is.
fn append(buffer: &mut Vec<u8>, text: &[u8])
    requires { vec_len buffer.old + length text.now ≤ vec_capacity buffer.old }
    ensures items { buffer.new.items ≡ buffer.old.items ++ text.now }
    ensures capacity { vec_capacity buffer.new ≡ vec_capacity buffer.old }
{
    for byte in text {
        buffer.push_reserved(*byte);
    }
}
