//! Requests in their parts, and their opcodes: the byte of a frame that says what it asks.

ghost use Rattle.std.specs.Prelude.{◌≡◌, ◌≤◌, ◌++◌, ℕ, length};
ghost use Rattle.ipc_base.specs.Numbers.{AreInRange, record_bytes};
ghost use Rattle.ipc_wire.specs.Fields.{MayHave};
ghost use Rattle.ipc_wire.specs.Posix.{plain_posix};
ghost use Rattle.ipc_wire.specs.Request.{Sysv, Posix, plain_sysv, plain_kind};
ghost use Rattle.ipc_wire.specs.Spelling.{opcode_of, fields_of, request_bytes};
ghost use Rattle.ipc_wire.specs.Table.{parts_of};

use crate::posix::PosixCall;
use crate::record::Record;
use crate::request::{RequestKind, SysvCall};
use crate::writing::text_len;
use ipc_base::Field;
use ipc_base::Field::{I32, I64, U8, U32, U64};

/// The opcode of HELLO.
pub(crate) const HELLO: u8 = 0x01;

/// The opcode of INTERRUPT.
pub(crate) const INTERRUPT: u8 = 0x02;

/// The opcode of close(2).
pub(crate) const CLOSE: u8 = 0x03;

/// The opcode of msgget(2).
pub(crate) const MSGGET: u8 = 0x0a;

/// The opcode of msgsnd(2).
pub(crate) const MSGSND: u8 = 0x0b;

/// The opcode of msgrcv(2).
pub(crate) const MSGRCV: u8 = 0x0c;

/// The opcode of IPC_STAT of msgctl(2).
pub(crate) const MSGCTL_STAT: u8 = 0x0d;

/// The opcode of IPC_SET of msgctl(2).
pub(crate) const MSGCTL_SET: u8 = 0x0e;

/// The opcode of IPC_RMID of msgctl(2).
pub(crate) const MSGCTL_RMID: u8 = 0x0f;

/// The opcode of semget(2).
pub(crate) const SEMGET: u8 = 0x14;

/// The opcode of semop(2).
pub(crate) const SEMOP: u8 = 0x15;

/// The opcode of GETVAL of semctl(2).
pub(crate) const SEMCTL_GET_VAL: u8 = 0x16;

/// The opcode of GETPID of semctl(2).
pub(crate) const SEMCTL_GET_PID: u8 = 0x17;

/// The opcode of GETNCNT of semctl(2).
pub(crate) const SEMCTL_GET_NCNT: u8 = 0x18;

/// The opcode of GETZCNT of semctl(2).
pub(crate) const SEMCTL_GET_ZCNT: u8 = 0x19;

/// The opcode of SETVAL of semctl(2).
pub(crate) const SEMCTL_SET_VAL: u8 = 0x1a;

/// The opcode of GETALL of semctl(2).
pub(crate) const SEMCTL_GET_ALL: u8 = 0x1b;

/// The opcode of SETALL of semctl(2).
pub(crate) const SEMCTL_SET_ALL: u8 = 0x1c;

/// The opcode of IPC_STAT of semctl(2).
pub(crate) const SEMCTL_STAT: u8 = 0x1d;

/// The opcode of IPC_SET of semctl(2).
pub(crate) const SEMCTL_SET: u8 = 0x1e;

/// The opcode of IPC_RMID of semctl(2).
pub(crate) const SEMCTL_RMID: u8 = 0x1f;

/// The opcode of mq_open(3).
pub(crate) const MQ_OPEN: u8 = 0x28;

/// The opcode of mq_unlink(3).
pub(crate) const MQ_UNLINK: u8 = 0x29;

/// The opcode of mq_send(3).
pub(crate) const MQ_SEND: u8 = 0x2a;

/// The opcode of mq_receive(3).
pub(crate) const MQ_RECEIVE: u8 = 0x2b;

/// The opcode of mq_notify(3).
pub(crate) const MQ_NOTIFY: u8 = 0x2c;

/// The opcode of mq_getattr(3).
pub(crate) const MQ_GETATTR: u8 = 0x2d;

/// The opcode of mq_setattr(3), as mq_getattr(3) has it.
pub(crate) const MQ_SETATTR: u8 = 0x2e;

/// The opcode of sem_open(3).
pub(crate) const SEM_OPEN: u8 = 0x32;

/// The opcode of sem_unlink(3).
pub(crate) const SEM_UNLINK: u8 = 0x33;

/// The opcode of sem_post(3).
pub(crate) const SEM_POST: u8 = 0x34;

/// The opcode of sem_wait(3).
pub(crate) const SEM_WAIT: u8 = 0x35;

/// The opcode of sem_trywait(3), as sem_wait(3) has it.
pub(crate) const SEM_TRYWAIT: u8 = 0x36;

/// The opcode of sem_getvalue(3).
pub(crate) const SEM_GETVALUE: u8 = 0x37;

/// The opcode of shm_open(3).
pub(crate) const SHM_OPEN: u8 = 0x3c;

/// The opcode of shm_unlink(3), as shm_open(3) has it.
pub(crate) const SHM_UNLINK: u8 = 0x3d;

/// The opcode of ftruncate(2) of a segment.
pub(crate) const FTRUNCATE: u8 = 0x3e;

/// The opcode of a read from a segment.
pub(crate) const SHM_READ: u8 = 0x3f;

/// The opcode of a write to a segment.
pub(crate) const SHM_WRITE: u8 = 0x40;

/// The opcode of fstat(2) of a segment.
pub(crate) const SHM_STAT: u8 = 0x41;

/// The opcode of shmget(2).
pub(crate) const SHMGET: u8 = 0x46;

/// The opcode of shmat(2), as shmop(2) has it.
pub(crate) const SHMAT: u8 = 0x47;

/// The opcode of shmdt(2), as shmop(2) has it.
pub(crate) const SHMDT: u8 = 0x48;

/// The opcode of IPC_STAT of shmctl(2).
pub(crate) const SHMCTL_STAT: u8 = 0x49;

/// The opcode of IPC_SET of shmctl(2).
pub(crate) const SHMCTL_SET: u8 = 0x4a;

/// The opcode of IPC_RMID of shmctl(2).
pub(crate) const SHMCTL_RMID: u8 = 0x4b;

/// The opcode of a read from an attached segment.
pub(crate) const ATTACHED_READ: u8 = 0x4c;

/// The opcode of a write to an attached segment.
pub(crate) const ATTACHED_WRITE: u8 = 0x4d;

/// A request taken apart, as it stands in its frame after its serial.
#[derive(Drop)]
pub struct RequestParts<'a> {
    pub opcode: u8,
    pub fields: Record,
    /// What follows the fields, to the end of the frame.
    pub rest: &'a [u8],
}

/// How many bytes a request takes in its frame, after the length.
pub fn request_len(kind: RequestKind<'_>) -> usize
    ensures { (serial : ℕ) → result
        ≡ length (request_bytes (record { serial = serial; kind = plain_kind kind.entry })) }
{
    let parts = request_parts(kind);
    5 + parts.fields.as_slice().len() + text_len(parts.rest)
}

/// A request in its parts, for a caller who has no buffer for all of it.
pub fn request_parts(kind: RequestKind<'_>) -> RequestParts<'_>
    ensures opcode { result.opcode ≡ opcode_of (plain_kind kind.entry) }
    ensures fields { result.fields ++ result.rest.now ≡ fields_of (plain_kind kind.entry) }
    ensures numbers { AreInRange (parts_of (plain_kind kind.entry)).row.fields
        (parts_of (plain_kind kind.entry)).values }
    ensures rest { MayHave (parts_of (plain_kind kind.entry)).row.rest
        (length (parts_of (plain_kind kind.entry)).rest) }
{
    match kind {
        RequestKind::Hello(cred) => spelled(HELLO, &[U32(cred.uid), U32(cred.gid)], &[]),
        RequestKind::Interrupt => spelled(INTERRUPT, &[], &[]),
        RequestKind::Sysv(call) => call_parts(call),
        RequestKind::Posix(call) => posix_parts(call),
    }
}

fn call_parts(call: SysvCall<'_>) -> RequestParts<'_>
    ensures opcode { result.opcode ≡ opcode_of (Sysv (plain_sysv call.entry)) }
    ensures fields { result.fields ++ result.rest.now ≡ fields_of (Sysv (plain_sysv call.entry)) }
    ensures numbers { AreInRange (parts_of (Sysv (plain_sysv call.entry))).row.fields
        (parts_of (Sysv (plain_sysv call.entry))).values }
    ensures rest { MayHave (parts_of (Sysv (plain_sysv call.entry))).row.rest
        (length (parts_of (Sysv (plain_sysv call.entry))).rest) }
{
    match call {
        SysvCall::Msgget { key, flags } => spelled(MSGGET, &[I32(key), U32(flags.0)], &[]),
        SysvCall::Msgsnd {
            id,
            flags,
            mtype,
            text,
        } => spelled(MSGSND, &[U32(id.0), U32(flags.0), I64(mtype)], text),
        SysvCall::Msgrcv {
            id,
            flags,
            size,
            mtype,
        } => spelled(
            MSGRCV,
            &[U32(id.0), U32(flags.0), U32(size), I64(mtype)],
            &[],
        ),
        SysvCall::MsgctlStat { id } => spelled(MSGCTL_STAT, &[U32(id.0)], &[]),
        SysvCall::MsgctlSet {
            id,
            uid,
            gid,
            mode,
            qbytes,
        } => spelled(
            MSGCTL_SET,
            &[U32(id.0), U32(uid), U32(gid), U32(mode), U32(qbytes)],
            &[],
        ),
        SysvCall::MsgctlRmid { id } => spelled(MSGCTL_RMID, &[U32(id.0)], &[]),
        SysvCall::Semget { key, nsems, flags } => spelled(
            SEMGET,
            &[I32(key), I32(nsems), U32(flags.0)],
            &[],
        ),
        SysvCall::Semop {
            id,
            timeout,
            operations,
        } => spelled(SEMOP, &[U32(id.0), U64(timeout)], operations.bytes()),
        SysvCall::SemctlGetVal { id, num } => spelled(SEMCTL_GET_VAL, &[U32(id.0), U32(num)], &[]),
        SysvCall::SemctlGetPid { id, num } => spelled(SEMCTL_GET_PID, &[U32(id.0), U32(num)], &[]),
        SysvCall::SemctlGetNcnt { id, num } => spelled(
            SEMCTL_GET_NCNT,
            &[U32(id.0), U32(num)],
            &[],
        ),
        SysvCall::SemctlGetZcnt { id, num } => spelled(
            SEMCTL_GET_ZCNT,
            &[U32(id.0), U32(num)],
            &[],
        ),
        SysvCall::SemctlSetVal { id, num, value } => spelled(
            SEMCTL_SET_VAL,
            &[U32(id.0), U32(num), I32(value)],
            &[],
        ),
        SysvCall::SemctlGetAll { id } => spelled(SEMCTL_GET_ALL, &[U32(id.0)], &[]),
        SysvCall::SemctlSetAll { id, values } => spelled(
            SEMCTL_SET_ALL,
            &[U32(id.0)],
            values.bytes(),
        ),
        SysvCall::SemctlStat { id } => spelled(SEMCTL_STAT, &[U32(id.0)], &[]),
        SysvCall::SemctlSet { id, uid, gid, mode } => spelled(
            SEMCTL_SET,
            &[U32(id.0), U32(uid), U32(gid), U32(mode)],
            &[],
        ),
        SysvCall::SemctlRmid { id } => spelled(SEMCTL_RMID, &[U32(id.0)], &[]),
        SysvCall::Shmget { key, size, flags } => spelled(
            SHMGET,
            &[I32(key), U64(size), U32(flags.0)],
            &[],
        ),
        SysvCall::Shmat { id, flags } => spelled(SHMAT, &[U32(id.0), U32(flags.0)], &[]),
        SysvCall::Shmdt { attachment } => spelled(SHMDT, &[U32(attachment)], &[]),
        SysvCall::ShmctlStat { id } => spelled(SHMCTL_STAT, &[U32(id.0)], &[]),
        SysvCall::ShmctlSet { id, uid, gid, mode } => spelled(
            SHMCTL_SET,
            &[U32(id.0), U32(uid), U32(gid), U32(mode)],
            &[],
        ),
        SysvCall::ShmctlRmid { id } => spelled(SHMCTL_RMID, &[U32(id.0)], &[]),
        SysvCall::AttachedRead {
            attachment,
            offset,
            length,
        } => spelled(
            ATTACHED_READ,
            &[U32(attachment), U64(offset), U32(length)],
            &[],
        ),
        SysvCall::AttachedWrite {
            attachment,
            offset,
            bytes,
        } => spelled(ATTACHED_WRITE, &[U32(attachment), U64(offset)], bytes),
    }
}

fn posix_parts(call: PosixCall<'_>) -> RequestParts<'_>
    ensures opcode { result.opcode ≡ opcode_of (Posix (plain_posix call.entry)) }
    ensures fields { result.fields ++ result.rest.now ≡ fields_of (Posix (plain_posix call.entry)) }
    ensures numbers { AreInRange (parts_of (Posix (plain_posix call.entry))).row.fields
        (parts_of (Posix (plain_posix call.entry))).values }
    ensures rest { MayHave (parts_of (Posix (plain_posix call.entry))).row.rest
        (length (parts_of (Posix (plain_posix call.entry))).rest) }
{
    match call {
        PosixCall::Close { fd } => spelled(CLOSE, &[U32(fd)], &[]),
        PosixCall::MqOpen {
            flags,
            mode,
            attr,
            maxmsg,
            msgsize,
            name,
        } => spelled(
            MQ_OPEN,
            &[U32(flags.0), U32(mode), U8(attr), I32(maxmsg), I32(msgsize)],
            name,
        ),
        PosixCall::MqUnlink { name } => spelled(MQ_UNLINK, &[], name),
        PosixCall::MqSend {
            fd,
            deadline,
            priority,
            text,
        } => spelled(MQ_SEND, &[U32(fd), U64(deadline), U32(priority)], text),
        PosixCall::MqReceive { fd, deadline, size } => spelled(
            MQ_RECEIVE,
            &[U32(fd), U64(deadline), U32(size)],
            &[],
        ),
        PosixCall::MqNotify { fd, kind, cookie } => spelled(
            MQ_NOTIFY,
            &[U32(fd), U32(kind), U32(cookie)],
            &[],
        ),
        PosixCall::MqGetattr { fd } => spelled(MQ_GETATTR, &[U32(fd)], &[]),
        PosixCall::MqSetattr { fd, flags } => spelled(MQ_SETATTR, &[U32(fd), U32(flags.0)], &[]),
        PosixCall::SemOpen {
            flags,
            mode,
            value,
            name,
        } => spelled(SEM_OPEN, &[U32(flags.0), U32(mode), U32(value)], name),
        PosixCall::SemUnlink { name } => spelled(SEM_UNLINK, &[], name),
        PosixCall::SemPost { fd } => spelled(SEM_POST, &[U32(fd)], &[]),
        PosixCall::SemWait { fd, deadline } => spelled(SEM_WAIT, &[U32(fd), U64(deadline)], &[]),
        PosixCall::SemTrywait { fd } => spelled(SEM_TRYWAIT, &[U32(fd)], &[]),
        PosixCall::SemGetvalue { fd } => spelled(SEM_GETVALUE, &[U32(fd)], &[]),
        PosixCall::ShmOpen { flags, mode, name } => spelled(
            SHM_OPEN,
            &[U32(flags.0), U32(mode)],
            name,
        ),
        PosixCall::ShmUnlink { name } => spelled(SHM_UNLINK, &[], name),
        PosixCall::Ftruncate { fd, length } => spelled(FTRUNCATE, &[U32(fd), U64(length)], &[]),
        PosixCall::ShmRead { fd, offset, length } => spelled(
            SHM_READ,
            &[U32(fd), U64(offset), U32(length)],
            &[],
        ),
        PosixCall::ShmWrite { fd, offset, bytes } => spelled(
            SHM_WRITE,
            &[U32(fd), U64(offset)],
            bytes,
        ),
        PosixCall::ShmStat { fd } => spelled(SHM_STAT, &[U32(fd)], &[]),
    }
}

/// These parts.
fn spelled<'a>(opcode: u8, fields: &[Field], rest: &'a [u8]) -> RequestParts<'a>
    requires { length (record_bytes fields.now) ≤ 68 }
    ensures opcode { result.opcode ≡ opcode }
    ensures fields { result.fields ++ result.rest.now ≡ record_bytes fields.now ++ rest.now }
{
    RequestParts {
        opcode,
        fields: Record::new(fields),
        rest,
    }
}
