//! A request that is kept while its call waits, in memory of its own.

ghost use Rattle.std.specs.Prelude.{◌≡◌, false, Some, IfOk, IfSome, IfNone, IsOk, None};
ghost use Rattle.ipc_wire.specs.Posix.{plain_posix};
ghost use Rattle.ipc_wire.specs.Request.{Sysv, Posix, plain_sysv, plain_kind};
ghost use Rattle.ipc_wire.specs.Spelling.{HasFrame};
ghost use Rattle.ipc_wire.specs.View.{plain_request};
ghost use Rattle.ipc_state.specs.Waiting.{deadline_after, awaited_by, deadline_of, has_deadline, expiry, has_text};
ghost use Rattle.ipc_state.specs.Waiting.{parked_sysv, parked_kind, parked_posix};

use crate::operations::Operations;
use ipc_base::{Errno, Id, Moment, MsgFlags};
use ipc_keys::NameKind;
use ipc_wire::{PosixCall, Request, RequestKind, SysvCall};
use posix_mq::Message as MqMessage;
use std::alloc::{AllocError, Global};
use std::marker::Model;
use sysv_msg::Message;

/// What a call waits on, as its request names it.
#[derive(Clone, Copy, Debug, PartialEq, Eq)]
pub enum Awaited {
    /// A message queue of msgget(2).
    MsgQueue(Id),
    /// A semaphore set.
    Semset(Id),
    /// What that descriptor of the process is open on.
    Descriptor(u32),
}

/// What an object is.
#[derive(Clone, Copy, Debug, PartialEq, Eq)]
pub enum ObjectKind {
    /// A message queue of msgget(2).
    MsgQueue,
    /// A semaphore set.
    Semset,
    /// A System V segment.
    Shm,
    /// An object with a name.
    Named(NameKind),
}

/// An object that a call may change, and on which calls may wait and descriptors may be open: its kind, and its
/// identifier or number.
#[derive(Clone, Copy, Debug, PartialEq, Eq)]
pub struct Object {
    pub kind: ObjectKind,
    pub number: u32,
}

/// A System V call that waits, with its fields. See msgop(2) and semop(2).
#[derive(Drop)]
pub enum ParkedSysv {
    /// A send to a queue that is full for its text. The message is ready to be sent.
    Msgsnd {
        id: Id,
        flags: MsgFlags,
        message: Message,
    },
    /// A receive that found no message.
    Msgrcv {
        id: Id,
        flags: MsgFlags,
        size: u32,
        mtype: i64,
    },
    /// A list of operations of which one cannot proceed.
    Semop {
        id: Id,
        timeout: u64,
        operations: Operations,
    },
}

impl ParkedSysv {
    /// A call that may have to wait; none, if it never waits. Refused for want of memory, which only a text or a list
    /// of operations takes.
    fn new(alloc: Global, call: &SysvCall<'_>) -> Result<Option<ParkedSysv>, AllocError>
        ensures some { IfOk result (λ r. IfSome r (λ kept. parked_sysv kept ≡ plain_sysv call.now)) }
        ensures none { IfOk result (λ r. IfNone r (awaited_by (Sysv (plain_sysv call.now)) ≡ None)) }
        ensures never { awaited_by (Sysv (plain_sysv call.now)) ≡ None → IfOk result (λ r. r ≡ None) }
        ensures memory { has_text (Sysv (plain_sysv call.now)) ≡ false → IsOk result }
    {
        let kept = match *call {
            SysvCall::Msgsnd {
                id,
                flags,
                mtype,
                text,
            } => ParkedSysv::Msgsnd {
                id,
                flags,
                message: Message::new(alloc, mtype, text)?,
            },
            SysvCall::Msgrcv {
                id,
                flags,
                size,
                mtype,
            } => ParkedSysv::Msgrcv {
                id,
                flags,
                size,
                mtype,
            },
            SysvCall::Semop {
                id,
                timeout,
                operations,
            } => ParkedSysv::Semop {
                id,
                timeout,
                operations: Operations::new(alloc, &operations)?,
            },
            _ => return Ok(None),
        };
        Ok(Some(kept))
    }

    /// The call.
    pub fn lend(&self) -> SysvCall<'_>
        ensures { plain_sysv result ≡ parked_sysv self.now }
    {
        match self {
            ParkedSysv::Msgsnd { id, flags, message } => SysvCall::Msgsnd {
                id: *id,
                flags: *flags,
                mtype: message.mtype,
                text: &message.text,
            },
            ParkedSysv::Msgrcv {
                id,
                flags,
                size,
                mtype,
            } => SysvCall::Msgrcv {
                id: *id,
                flags: *flags,
                size: *size,
                mtype: *mtype,
            },
            ParkedSysv::Semop {
                id,
                timeout,
                operations,
            } => SysvCall::Semop {
                id: *id,
                timeout: *timeout,
                operations: operations.lend(),
            },
        }
    }
}

/// A POSIX call that waits, with its fields. See mq_send(3), mq_receive(3) and sem_wait(3).
#[derive(Drop)]
pub enum ParkedPosix {
    /// A send to a full queue. The message is ready to be sent.
    MqSend {
        fd: u32,
        deadline: u64,
        message: MqMessage,
    },
    /// A receive from an empty queue.
    MqReceive {
        fd: u32,
        deadline: u64,
        size: u32,
    },
    /// A wait for a semaphore whose value is 0.
    SemWait {
        fd: u32,
        deadline: u64,
    },
}

impl ParkedPosix {
    /// A call that may have to wait; none, if it never waits. Refused for want of memory, which only a text takes.
    fn new(alloc: Global, call: &PosixCall<'_>) -> Result<Option<ParkedPosix>, AllocError>
        ensures some { IfOk result (λ r. IfSome r (λ kept. parked_posix kept ≡ plain_posix call.now)) }
        ensures none { IfOk result (λ r. IfNone r (awaited_by (Posix (plain_posix call.now)) ≡ None)) }
        ensures never { awaited_by (Posix (plain_posix call.now)) ≡ None → IfOk result (λ r. r ≡ None) }
        ensures memory { has_text (Posix (plain_posix call.now)) ≡ false → IsOk result }
    {
        let kept = match *call {
            PosixCall::MqSend {
                fd,
                deadline,
                priority,
                text,
            } => ParkedPosix::MqSend {
                fd,
                deadline,
                message: MqMessage::new(alloc, priority, text)?,
            },
            PosixCall::MqReceive { fd, deadline, size } => {
                ParkedPosix::MqReceive { fd, deadline, size }
            }
            PosixCall::SemWait { fd, deadline } => ParkedPosix::SemWait { fd, deadline },
            _ => return Ok(None),
        };
        Ok(Some(kept))
    }

    /// The call.
    pub fn lend(&self) -> PosixCall<'_>
        ensures { plain_posix result ≡ parked_posix self.now }
    {
        match self {
            ParkedPosix::MqSend {
                fd,
                deadline,
                message,
            } => PosixCall::MqSend {
                fd: *fd,
                deadline: *deadline,
                priority: message.priority,
                text: &message.text,
            },
            ParkedPosix::MqReceive { fd, deadline, size } => PosixCall::MqReceive {
                fd: *fd,
                deadline: *deadline,
                size: *size,
            },
            ParkedPosix::SemWait { fd, deadline } => PosixCall::SemWait {
                fd: *fd,
                deadline: *deadline,
            },
        }
    }
}

/// A call that waits.
#[derive(Drop)]
pub enum ParkedKind {
    /// A System V call.
    Sysv(ParkedSysv),
    /// A POSIX call.
    Posix(ParkedPosix),
}

/// The request of a call that waits, which has a frame. A contract sees the request.
#[derive(Drop)]
pub struct Parked {
    serial: u32,
    kind: ParkedKind,
}

impl Model for Parked {
    ghost use Rattle.ipc_wire.specs.Request.{PlainRequest};
    ghost use Rattle.ipc_wire.specs.Spelling.{HasFrame};
    ghost use Rattle.ipc_state.specs.Waiting.{parked_kind};

    ghost Value = { PlainRequest };

    ghost view = { λ p. record { serial = p.serial; kind = parked_kind p.kind } };

    ghost invariant = { λ p. HasFrame (record { serial = p.serial; kind = parked_kind p.kind }) };
}

impl Parked {
    /// A request that may have to wait; none, if its call never waits. Refused for want of memory, which only a text
    /// or a list of operations takes.
    pub fn new(alloc: Global, request: &Request<'_>) -> Result<Option<Parked>, AllocError>
        ensures some { IfOk result (λ r. IfSome r (λ p. p ≡ plain_request request.now)) }
        ensures none { IfOk result (λ r. IfNone r (awaited_by (plain_kind request.now.kind) ≡ None)) }
        ensures never { awaited_by (plain_kind request.now.kind) ≡ None → IfOk result (λ r. r ≡ None) }
        ensures memory { has_text (plain_kind request.now.kind) ≡ false → IsOk result }
    {
        let kept = match &request.kind {
            RequestKind::Sysv(call) => ParkedSysv::new(alloc, call)?.map(ParkedKind::Sysv),
            RequestKind::Posix(call) => ParkedPosix::new(alloc, call)?.map(ParkedKind::Posix),
            RequestKind::Hello(_) | RequestKind::Interrupt => None,
        };
        let Some(kind) = kept else {
            return Ok(None);
        };
        Ok(Some(Parked {
            serial: request.serial,
            kind,
        }))
    }

    /// The request of this call and serial, which has a frame.
    pub fn of_kind(serial: u32, kind: ParkedKind) -> Parked
        requires { HasFrame (record { serial = serial; kind = parked_kind kind }) }
        ensures { result ≡ record { serial = serial; kind = parked_kind kind } }
    {
        Parked { serial, kind }
    }

    /// What it asks; its request has a frame.
    pub fn lend(&self) -> RequestKind<'_>
        ensures kind { plain_kind result ≡ self.now.kind }
        ensures frame { HasFrame self.now }
    {
        match &self.kind {
            ParkedKind::Sysv(call) => RequestKind::Sysv(call.lend()),
            ParkedKind::Posix(call) => RequestKind::Posix(call.lend()),
        }
    }

    /// The serial of the request.
    pub fn serial(&self) -> u32
        ensures { result ≡ self.now.serial }
    {
        self.serial
    }

    /// Until when it waits, if it comes at this moment: the System V calls of message queues wait without end, and
    /// those of POSIX name a moment.
    #[tactic(auto, unfolding(crate::specs::Waiting::deadline_of))]
    pub fn deadline(&self, now: Moment) -> Option<Moment>
        ensures { result ≡ deadline_of now.0 self.now.kind }
    {
        match &self.kind {
            ParkedKind::Sysv(ParkedSysv::Msgsnd { .. } | ParkedSysv::Msgrcv { .. }) => None,
            ParkedKind::Sysv(ParkedSysv::Semop { timeout, .. }) => deadline_after(now, *timeout),
            ParkedKind::Posix(
                ParkedPosix::MqSend { deadline, .. }
                | ParkedPosix::MqReceive { deadline, .. }
                | ParkedPosix::SemWait { deadline, .. },
            ) => deadline_after(Moment(0), *deadline),
        }
    }

    /// Whether it may have a deadline.
    pub fn has_deadline(&self) -> bool
        ensures { result ≡ has_deadline self.now.kind }
    {
        match &self.kind {
            ParkedKind::Sysv(ParkedSysv::Msgsnd { .. } | ParkedSysv::Msgrcv { .. }) => false,
            ParkedKind::Sysv(ParkedSysv::Semop { .. }) | ParkedKind::Posix(_) => true,
        }
    }

    /// What it is told when its deadline has come.
    #[tactic(auto, unfolding(crate::specs::Waiting::expiry))]
    pub fn expiry(&self) -> Errno
        ensures { result ≡ expiry self.now.kind }
    {
        match &self.kind {
            ParkedKind::Sysv(_) => Errno::EAGAIN,
            ParkedKind::Posix(_) => Errno::ETIMEDOUT,
        }
    }

    /// The call.
    pub fn kind(&self) -> &ParkedKind
        ensures { parked_kind result.now ≡ self.now.kind }
    {
        &self.kind
    }

    /// The call, with all that is its own. Its request has a frame, so that `of_kind` puts it together again.
    pub fn into_kind(self) -> ParkedKind
        ensures kind { parked_kind result ≡ self.kind }
        ensures frame { HasFrame self }
    {
        self.kind
    }

    /// What it waits on; its request has a frame.
    pub fn awaited(&self) -> Awaited
        ensures on { awaited_by self.now.kind ≡ Some result }
        ensures frame { HasFrame self.now }
    {
        match &self.kind {
            ParkedKind::Sysv(ParkedSysv::Msgsnd { id, .. } | ParkedSysv::Msgrcv { id, .. }) => {
                Awaited::MsgQueue(*id)
            }
            ParkedKind::Sysv(ParkedSysv::Semop { id, .. }) => Awaited::Semset(*id),
            ParkedKind::Posix(
                ParkedPosix::MqSend { fd, .. }
                | ParkedPosix::MqReceive { fd, .. }
                | ParkedPosix::SemWait { fd, .. },
            ) => Awaited::Descriptor(*fd),
        }
    }
}

/// So much later; none if that is the greatest number of eight bytes, or above.
fn deadline_after(now: Moment, timeout: u64) -> Option<Moment>
    ensures { result ≡ deadline_after now.0 timeout }
{
    let sum = now.0.checked_add(timeout)?;
    if sum == u64::MAX {
        return None;
    }
    Some(Moment(sum))
}
