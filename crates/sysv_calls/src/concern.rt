//! What a call changes in its object, as far as calls that wait there look at it, and which of them it concerns.

ghost use Rattle.std.specs.Prelude.{◌≡◌};
ghost use Rattle.ipc_wire.specs.Request.{Sysv, plain_sysv};
ghost use Rattle.ipc_state.specs.Waiting.{parked_sysv};
ghost use Rattle.sysv_msg.specs.Queue.{is_sought};
ghost use Rattle.sysv_calls.specs.Concern as defined;

use bitflags::Flags;
use ipc_base::MsgFlags;
use ipc_state::{ParkedSysv, bits_of};
use ipc_wire::SysvCall;
use sysv_sem::bit_of;

/// What may have changed in an object on which calls wait.
#[derive(Clone, Copy, Debug, PartialEq, Eq)]
pub enum Change {
    /// Anything.
    Anything,
    /// The values of semaphores of a set, and the adjustments there: the bits of a word (`bit_of`).
    Semaphores(u64),
    /// A message was taken from a queue.
    Received,
    /// A message of this type has come to a queue.
    Sent(i64),
}

impl Change {
    /// This change, and then that one.
    pub fn and(self, more: Change) -> Change
        ensures { result ≡ defined.joined self more }
    {
        match (self, more) {
            (Change::Semaphores(word), Change::Semaphores(others)) => {
                Change::Semaphores(word | others)
            }
            (Change::Received, Change::Received) => Change::Received,
            _ => Change::Anything,
        }
    }
}

/// What a call changes in its object if it is done.
pub fn change_of(call: &SysvCall<'_>) -> Change
    ensures { result ≡ defined.change_of (Sysv (plain_sysv call.now)) }
{
    match call {
        SysvCall::Semop { operations, .. } => Change::Semaphores(bits_of(operations)),
        SysvCall::SemctlSetVal { num, .. } => Change::Semaphores(bit_of(*num)),
        SysvCall::Msgrcv { .. } => Change::Received,
        SysvCall::Msgsnd { mtype, .. } => Change::Sent(*mtype),
        _ => Change::Anything,
    }
}

/// Whether a call that waits on an object may go on by a change of it. One that may not has to wait on, and need not be
/// tried again. This takes no longer with more operations.
pub fn concerns(change: Change, call: &ParkedSysv) -> bool
    ensures { result ≡ defined.concerns change (Sysv (parked_sysv call.now)) }
{
    match (change, call) {
        (Change::Semaphores(word), ParkedSysv::Semop { operations, .. }) => {
            operations.named() & word != 0
        }
        (Change::Received, ParkedSysv::Msgrcv { .. }) => false,
        (Change::Sent(sent), ParkedSysv::Msgrcv { flags, mtype, .. }) => {
            may_take(*mtype, flags.contains(MsgFlags::MSG_EXCEPT), sent)
        }
        (Change::Sent(_), ParkedSysv::Msgsnd { .. }) => false,
        _ => true,
    }
}

/// Whether a receive of this type may take a message of that type, if it is the only one.
fn may_take(mtype: i64, except: bool, sent: i64) -> bool
    ensures { result ≡ is_sought mtype except sent }
{
    if mtype > 0 {
        (sent == mtype) != except
    } else {
        mtype == 0 || sent <= 0 || sent.unsigned_abs() <= mtype.unsigned_abs()
    }
}
