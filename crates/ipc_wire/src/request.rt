//! Requests, and what stands at the front of a stream of them.

ghost use Rattle.std.specs.Prelude.{◌≡◌};
ghost use Rattle.ipc_wire.specs.OneProof.{HasFrame-prop};
ghost use Rattle.ipc_wire.specs.Request.{plain_kind};
ghost use Rattle.ipc_wire.specs.Spelling.{HasFrame, request_bytes};

use crate::posix::PosixCall;
use crate::sem_bufs::SemBufs;
use crate::values::Values;
use ipc_base::{Cred, GetFlags, Id, MsgFlags, ShmFlags};

/// What a client asks, under a serial by which it knows the reply, and the bytes in which it came: those of its frame
/// after the length, of which there is one spelling.
#[derive(Clone, Copy)]
pub struct Request<'a> {
    /// Not 0. The server does not require serials to differ.
    pub serial: u32,
    pub kind: RequestKind<'a>,
    pub(crate) bytes: &'a [u8],
    pub ghost frame: { HasFrame (record { serial = serial; kind = plain_kind kind }) } by { HasFrame-prop },
    pub ghost spelled: { bytes.now ≡ request_bytes (record { serial = serial; kind = plain_kind kind }) },
}

impl<'a> Request<'a> {
    ghost use Rattle.ipc_wire.specs.Spelling.{opcode_of};
    ghost use Rattle.ipc_wire.specs.View.{plain_request};

    /// The bytes of its frame after the length, from 5 to 65792.
    pub fn bytes(&self) -> &'a [u8]
        ensures { result.now ≡ request_bytes (plain_request self.now) }
    {
        self.bytes
    }

    /// Its opcode: the byte of its frame that says what it asks.
    pub fn opcode(&self) -> u8
        ensures { result ≡ opcode_of (plain_request self.now).kind }
    {
        self.bytes[4]
    }
}

/// Who is to answer: the connection itself, or the machine.
#[derive(Clone, Copy)]
pub enum RequestKind<'a> {
    /// HELLO: the connection becomes a process of this user and group.
    Hello(Cred),
    /// INTERRUPT: the process waits no longer.
    Interrupt,
    /// A System V call of the process.
    Sysv(SysvCall<'a>),
    /// A POSIX call of the process.
    Posix(PosixCall<'a>),
}

/// A System V call with its fields, as they stand in the frame: no value is tested.
#[derive(Clone, Copy)]
pub enum SysvCall<'a> {
    /// msgget(2).
    Msgget {
        key: i32,
        flags: GetFlags,
    },
    /// msgsnd(2), as msgop(2) has it; the text is the rest of the frame and may be empty.
    Msgsnd {
        id: Id,
        flags: MsgFlags,
        mtype: i64,
        text: &'a [u8],
    },
    /// msgrcv(2), as msgop(2) has it; the size is in bytes.
    Msgrcv {
        id: Id,
        flags: MsgFlags,
        size: u32,
        mtype: i64,
    },
    /// IPC_STAT of msgctl(2).
    MsgctlStat {
        id: Id,
    },
    /// IPC_SET of msgctl(2): the owner, the mode and the most bytes of the queue.
    MsgctlSet {
        id: Id,
        uid: u32,
        gid: u32,
        mode: u32,
        qbytes: u32,
    },
    /// IPC_RMID of msgctl(2).
    MsgctlRmid {
        id: Id,
    },
    /// semget(2).
    Semget {
        key: i32,
        nsems: i32,
        flags: GetFlags,
    },
    /// semop(2), with the timeout of semtimedop(2) in milliseconds, of which the greatest is none; the operations are
    /// the rest of the frame, and there may be none.
    Semop {
        id: Id,
        timeout: u64,
        operations: SemBufs<'a>,
    },
    /// GETVAL of semctl(2).
    SemctlGetVal {
        id: Id,
        num: u32,
    },
    /// GETPID of semctl(2).
    SemctlGetPid {
        id: Id,
        num: u32,
    },
    /// GETNCNT of semctl(2).
    SemctlGetNcnt {
        id: Id,
        num: u32,
    },
    /// GETZCNT of semctl(2).
    SemctlGetZcnt {
        id: Id,
        num: u32,
    },
    /// SETVAL of semctl(2).
    SemctlSetVal {
        id: Id,
        num: u32,
        value: i32,
    },
    /// GETALL of semctl(2).
    SemctlGetAll {
        id: Id,
    },
    /// SETALL of semctl(2); the values are the rest of the frame, and there may be none.
    SemctlSetAll {
        id: Id,
        values: Values<'a>,
    },
    /// IPC_STAT of semctl(2).
    SemctlStat {
        id: Id,
    },
    /// IPC_SET of semctl(2): the owner and the mode.
    SemctlSet {
        id: Id,
        uid: u32,
        gid: u32,
        mode: u32,
    },
    /// IPC_RMID of semctl(2).
    SemctlRmid {
        id: Id,
    },
    /// shmget(2); the size is in bytes.
    Shmget {
        key: i32,
        size: u64,
        flags: GetFlags,
    },
    /// shmat(2), as shmop(2) has it: the segment is attached under a descriptor of the process.
    Shmat {
        id: Id,
        flags: ShmFlags,
    },
    /// shmdt(2), as shmop(2) has it.
    Shmdt {
        attachment: u32,
    },
    /// IPC_STAT of shmctl(2).
    ShmctlStat {
        id: Id,
    },
    /// IPC_SET of shmctl(2): the owner and the mode.
    ShmctlSet {
        id: Id,
        uid: u32,
        gid: u32,
        mode: u32,
    },
    /// IPC_RMID of shmctl(2).
    ShmctlRmid {
        id: Id,
    },
    /// A read of an attached segment (shmop(2)): so many bytes from the offset on.
    AttachedRead {
        attachment: u32,
        offset: u64,
        length: u32,
    },
    /// A write to an attached segment (shmop(2)): the rest of the frame, from the offset on.
    AttachedWrite {
        attachment: u32,
        offset: u64,
        bytes: &'a [u8],
    },
}

/// What stands at the front of a stream.
#[derive(Clone, Copy)]
pub enum Frame<'a> {
    /// No whole frame yet.
    More,
    /// A request, and how many bytes its frame takes, from 9 to 65796.
    Whole { used: usize, request: Request<'a> },
    /// No request, and none whatever bytes follow: the serial of the frame, or 0 if the serial is not there.
    Fault { serial: u32 },
}
