//! What each request asks, read from its fields.

ghost use Rattle.std.specs.Prelude.{◌≡◌, ◌==◌, if◌then◌else◌, length, drop, option_map, Some, None};
ghost use Rattle.ipc_base.specs.Numbers.{U32, number_in};
ghost use Rattle.ipc_wire.specs.Request.{plain_kind};
ghost use Rattle.ipc_wire.specs.Stream.{kind_of, made_by};
ghost use Rattle.ipc_wire.specs.Table as table;

use crate::posix::PosixCall;
use crate::request::{RequestKind, SysvCall};
use crate::sem_bufs::SemBufs;
use crate::shm_fields::{
    read_attached_read, read_attached_write, read_shmat, read_shmctl_rmid, read_shmctl_set,
    read_shmctl_stat, read_shmdt, read_shmget,
};
use crate::spelling::{
    ATTACHED_READ, ATTACHED_WRITE, CLOSE, FTRUNCATE, HELLO, INTERRUPT, MQ_GETATTR, MQ_NOTIFY,
    MQ_OPEN, MQ_RECEIVE, MQ_SEND, MQ_SETATTR, MQ_UNLINK, MSGCTL_RMID, MSGCTL_SET, MSGCTL_STAT,
    MSGGET, MSGRCV, MSGSND, SEM_GETVALUE, SEM_OPEN, SEM_POST, SEM_TRYWAIT, SEM_UNLINK, SEM_WAIT,
    SEMCTL_GET_ALL, SEMCTL_GET_NCNT, SEMCTL_GET_PID, SEMCTL_GET_VAL, SEMCTL_GET_ZCNT, SEMCTL_RMID,
    SEMCTL_SET, SEMCTL_SET_ALL, SEMCTL_SET_VAL, SEMCTL_STAT, SEMGET, SEMOP, SHM_OPEN, SHM_READ,
    SHM_STAT, SHM_UNLINK, SHM_WRITE, SHMAT, SHMCTL_RMID, SHMCTL_SET, SHMCTL_STAT, SHMDT, SHMGET,
};
use crate::values::Values;
use ipc_base::{Cred, Cursor, GetFlags, Id, MsgFlags, OpenFlags};

/// What a request with this opcode asks, or `None` where none has it or its fields have another size.
#[tactic(auto, unfolding(crate::specs::Stream::kind_of))]
pub(crate) fn read_kind(opcode: u8, fields: &[u8]) -> Option<RequestKind<'_>>
    ensures { option_map plain_kind result ≡ kind_of opcode fields.now }
{
    match opcode {
        HELLO => read_hello(fields),
        INTERRUPT => read_interrupt(fields),
        CLOSE => read_close(fields),
        MSGGET => read_msgget(fields),
        MSGSND => read_msgsnd(fields),
        MSGRCV => read_msgrcv(fields),
        MSGCTL_STAT => read_msgctl_stat(fields),
        MSGCTL_SET => read_msgctl_set(fields),
        MSGCTL_RMID => read_msgctl_rmid(fields),
        SEMGET => read_semget(fields),
        SEMOP => read_semop(fields),
        SEMCTL_GET_VAL => read_semctl_get_val(fields),
        SEMCTL_GET_PID => read_semctl_get_pid(fields),
        SEMCTL_GET_NCNT => read_semctl_get_ncnt(fields),
        SEMCTL_GET_ZCNT => read_semctl_get_zcnt(fields),
        SEMCTL_SET_VAL => read_semctl_set_val(fields),
        SEMCTL_GET_ALL => read_semctl_get_all(fields),
        SEMCTL_SET_ALL => read_semctl_set_all(fields),
        SEMCTL_STAT => read_semctl_stat(fields),
        SEMCTL_SET => read_semctl_set(fields),
        SEMCTL_RMID => read_semctl_rmid(fields),
        MQ_OPEN => read_mq_open(fields),
        MQ_UNLINK => read_mq_unlink(fields),
        MQ_SEND => read_mq_send(fields),
        MQ_RECEIVE => read_mq_receive(fields),
        MQ_NOTIFY => read_mq_notify(fields),
        MQ_GETATTR => read_mq_getattr(fields),
        MQ_SETATTR => read_mq_setattr(fields),
        SEM_OPEN => read_sem_open(fields),
        SEM_UNLINK => read_sem_unlink(fields),
        SEM_POST => read_sem_post(fields),
        SEM_WAIT => read_sem_wait(fields),
        SEM_TRYWAIT => read_sem_trywait(fields),
        SEM_GETVALUE => read_sem_getvalue(fields),
        SHM_OPEN => read_shm_open(fields),
        SHM_UNLINK => read_shm_unlink(fields),
        FTRUNCATE => read_ftruncate(fields),
        SHM_READ => read_shm_read(fields),
        SHM_WRITE => read_shm_write(fields),
        SHM_STAT => read_shm_stat(fields),
        SHMGET => read_shmget(fields),
        SHMAT => read_shmat(fields),
        SHMDT => read_shmdt(fields),
        SHMCTL_STAT => read_shmctl_stat(fields),
        SHMCTL_SET => read_shmctl_set(fields),
        SHMCTL_RMID => read_shmctl_rmid(fields),
        ATTACHED_READ => read_attached_read(fields),
        ATTACHED_WRITE => read_attached_write(fields),
        _ => None,
    }
}

#[tactic(auto, unfolding(ipc_base::specs::Numbers::number_in))]
fn read_hello(fields: &[u8]) -> Option<RequestKind<'_>>
    ensures { option_map plain_kind result ≡ made_by table.hello fields.now }
{
    let mut cursor = Cursor::new(fields);
    let uid = cursor.u32()?;
    let gid = cursor.u32()?;
    if !cursor.is_empty() {
        return None;
    }
    Some(RequestKind::Hello(Cred { uid, gid }))
}

fn read_interrupt(fields: &[u8]) -> Option<RequestKind<'_>>
    ensures { option_map plain_kind result ≡ made_by table.interrupt fields.now }
{
    if !fields.is_empty() {
        return None;
    }
    Some(RequestKind::Interrupt)
}

fn read_close(fields: &[u8]) -> Option<RequestKind<'_>>
    ensures { option_map plain_kind result ≡ made_by table.close fields.now }
{
    let fd = read_number(fields)?;
    Some(RequestKind::Posix(PosixCall::Close { fd }))
}

#[tactic(auto, unfolding(ipc_base::specs::Numbers::number_in))]
fn read_msgget(fields: &[u8]) -> Option<RequestKind<'_>>
    ensures { option_map plain_kind result ≡ made_by table.msgget fields.now }
{
    let mut cursor = Cursor::new(fields);
    let key = cursor.i32()?;
    let flags = GetFlags(cursor.u32()?);
    if !cursor.is_empty() {
        return None;
    }
    Some(RequestKind::Sysv(SysvCall::Msgget { key, flags }))
}

#[tactic(auto, unfolding(ipc_base::specs::Numbers::number_in))]
fn read_msgsnd(fields: &[u8]) -> Option<RequestKind<'_>>
    ensures { option_map plain_kind result ≡ made_by table.msgsnd fields.now }
{
    let mut cursor = Cursor::new(fields);
    let id = Id(cursor.u32()?);
    let flags = MsgFlags(cursor.u32()?);
    let mtype = cursor.i64()?;
    let text = cursor.rest();
    Some(RequestKind::Sysv(SysvCall::Msgsnd {
        id,
        flags,
        mtype,
        text,
    }))
}

#[tactic(auto, unfolding(ipc_base::specs::Numbers::number_in))]
fn read_msgrcv(fields: &[u8]) -> Option<RequestKind<'_>>
    ensures { option_map plain_kind result ≡ made_by table.msgrcv fields.now }
{
    let mut cursor = Cursor::new(fields);
    let id = Id(cursor.u32()?);
    let flags = MsgFlags(cursor.u32()?);
    let size = cursor.u32()?;
    let mtype = cursor.i64()?;
    if !cursor.is_empty() {
        return None;
    }
    Some(RequestKind::Sysv(SysvCall::Msgrcv {
        id,
        flags,
        size,
        mtype,
    }))
}

fn read_msgctl_stat(fields: &[u8]) -> Option<RequestKind<'_>>
    ensures { option_map plain_kind result ≡ made_by table.msgctl_stat fields.now }
{
    let id = Id(read_number(fields)?);
    Some(RequestKind::Sysv(SysvCall::MsgctlStat { id }))
}

#[tactic(auto, unfolding(ipc_base::specs::Numbers::number_in))]
fn read_msgctl_set(fields: &[u8]) -> Option<RequestKind<'_>>
    ensures { option_map plain_kind result ≡ made_by table.msgctl_set fields.now }
{
    let mut cursor = Cursor::new(fields);
    let id = Id(cursor.u32()?);
    let uid = cursor.u32()?;
    let gid = cursor.u32()?;
    let mode = cursor.u32()?;
    let qbytes = cursor.u32()?;
    if !cursor.is_empty() {
        return None;
    }
    Some(RequestKind::Sysv(SysvCall::MsgctlSet {
        id,
        uid,
        gid,
        mode,
        qbytes,
    }))
}

fn read_msgctl_rmid(fields: &[u8]) -> Option<RequestKind<'_>>
    ensures { option_map plain_kind result ≡ made_by table.msgctl_rmid fields.now }
{
    let id = Id(read_number(fields)?);
    Some(RequestKind::Sysv(SysvCall::MsgctlRmid { id }))
}

#[tactic(auto, unfolding(ipc_base::specs::Numbers::number_in))]
fn read_semget(fields: &[u8]) -> Option<RequestKind<'_>>
    ensures { option_map plain_kind result ≡ made_by table.semget fields.now }
{
    let mut cursor = Cursor::new(fields);
    let key = cursor.i32()?;
    let nsems = cursor.i32()?;
    let flags = GetFlags(cursor.u32()?);
    if !cursor.is_empty() {
        return None;
    }
    Some(RequestKind::Sysv(SysvCall::Semget { key, nsems, flags }))
}

#[tactic(auto, unfolding(ipc_base::specs::Numbers::number_in))]
fn read_semop(fields: &[u8]) -> Option<RequestKind<'_>>
    ensures { option_map plain_kind result ≡ made_by table.semop fields.now }
{
    let mut cursor = Cursor::new(fields);
    let id = Id(cursor.u32()?);
    let timeout = cursor.u64()?;
    let operations = SemBufs::new(cursor.rest())?;
    Some(RequestKind::Sysv(SysvCall::Semop {
        id,
        timeout,
        operations,
    }))
}

fn read_semctl_get_val(fields: &[u8]) -> Option<RequestKind<'_>>
    ensures { option_map plain_kind result ≡ made_by table.semctl_get_val fields.now }
{
    let (id, num) = read_two_numbers(fields)?;
    let id = Id(id);
    Some(RequestKind::Sysv(SysvCall::SemctlGetVal { id, num }))
}

fn read_semctl_get_pid(fields: &[u8]) -> Option<RequestKind<'_>>
    ensures { option_map plain_kind result ≡ made_by table.semctl_get_pid fields.now }
{
    let (id, num) = read_two_numbers(fields)?;
    let id = Id(id);
    Some(RequestKind::Sysv(SysvCall::SemctlGetPid { id, num }))
}

fn read_semctl_get_ncnt(fields: &[u8]) -> Option<RequestKind<'_>>
    ensures { option_map plain_kind result ≡ made_by table.semctl_get_ncnt fields.now }
{
    let (id, num) = read_two_numbers(fields)?;
    let id = Id(id);
    Some(RequestKind::Sysv(SysvCall::SemctlGetNcnt { id, num }))
}

fn read_semctl_get_zcnt(fields: &[u8]) -> Option<RequestKind<'_>>
    ensures { option_map plain_kind result ≡ made_by table.semctl_get_zcnt fields.now }
{
    let (id, num) = read_two_numbers(fields)?;
    let id = Id(id);
    Some(RequestKind::Sysv(SysvCall::SemctlGetZcnt { id, num }))
}

#[tactic(auto, unfolding(ipc_base::specs::Numbers::number_in))]
fn read_semctl_set_val(fields: &[u8]) -> Option<RequestKind<'_>>
    ensures { option_map plain_kind result ≡ made_by table.semctl_set_val fields.now }
{
    let mut cursor = Cursor::new(fields);
    let id = Id(cursor.u32()?);
    let num = cursor.u32()?;
    let value = cursor.i32()?;
    if !cursor.is_empty() {
        return None;
    }
    Some(RequestKind::Sysv(SysvCall::SemctlSetVal { id, num, value }))
}

fn read_semctl_get_all(fields: &[u8]) -> Option<RequestKind<'_>>
    ensures { option_map plain_kind result ≡ made_by table.semctl_get_all fields.now }
{
    let id = Id(read_number(fields)?);
    Some(RequestKind::Sysv(SysvCall::SemctlGetAll { id }))
}

#[tactic(auto, unfolding(ipc_base::specs::Numbers::number_in))]
fn read_semctl_set_all(fields: &[u8]) -> Option<RequestKind<'_>>
    ensures { option_map plain_kind result ≡ made_by table.semctl_set_all fields.now }
{
    let mut cursor = Cursor::new(fields);
    let id = Id(cursor.u32()?);
    let values = Values::new(cursor.rest())?;
    Some(RequestKind::Sysv(SysvCall::SemctlSetAll { id, values }))
}

fn read_semctl_stat(fields: &[u8]) -> Option<RequestKind<'_>>
    ensures { option_map plain_kind result ≡ made_by table.semctl_stat fields.now }
{
    let id = Id(read_number(fields)?);
    Some(RequestKind::Sysv(SysvCall::SemctlStat { id }))
}

#[tactic(auto, unfolding(ipc_base::specs::Numbers::number_in))]
fn read_semctl_set(fields: &[u8]) -> Option<RequestKind<'_>>
    ensures { option_map plain_kind result ≡ made_by table.semctl_set fields.now }
{
    let mut cursor = Cursor::new(fields);
    let id = Id(cursor.u32()?);
    let uid = cursor.u32()?;
    let gid = cursor.u32()?;
    let mode = cursor.u32()?;
    if !cursor.is_empty() {
        return None;
    }
    Some(RequestKind::Sysv(SysvCall::SemctlSet { id, uid, gid, mode }))
}

fn read_semctl_rmid(fields: &[u8]) -> Option<RequestKind<'_>>
    ensures { option_map plain_kind result ≡ made_by table.semctl_rmid fields.now }
{
    let id = Id(read_number(fields)?);
    Some(RequestKind::Sysv(SysvCall::SemctlRmid { id }))
}

#[tactic(auto, unfolding(ipc_base::specs::Numbers::number_in))]
fn read_mq_open(fields: &[u8]) -> Option<RequestKind<'_>>
    ensures { option_map plain_kind result ≡ made_by table.mq_open fields.now }
{
    let mut cursor = Cursor::new(fields);
    let flags = OpenFlags(cursor.u32()?);
    let mode = cursor.u32()?;
    let attr = cursor.u8()?;
    let maxmsg = cursor.i32()?;
    let msgsize = cursor.i32()?;
    let name = cursor.rest();
    Some(RequestKind::Posix(PosixCall::MqOpen {
        flags,
        mode,
        attr,
        maxmsg,
        msgsize,
        name,
    }))
}

fn read_mq_unlink(fields: &[u8]) -> Option<RequestKind<'_>>
    ensures { option_map plain_kind result ≡ made_by table.mq_unlink fields.now }
{
    Some(RequestKind::Posix(PosixCall::MqUnlink { name: fields }))
}

#[tactic(auto, unfolding(ipc_base::specs::Numbers::number_in))]
fn read_mq_send(fields: &[u8]) -> Option<RequestKind<'_>>
    ensures { option_map plain_kind result ≡ made_by table.mq_send fields.now }
{
    let mut cursor = Cursor::new(fields);
    let fd = cursor.u32()?;
    let deadline = cursor.u64()?;
    let priority = cursor.u32()?;
    let text = cursor.rest();
    Some(RequestKind::Posix(PosixCall::MqSend {
        fd,
        deadline,
        priority,
        text,
    }))
}

#[tactic(auto, unfolding(ipc_base::specs::Numbers::number_in))]
fn read_mq_receive(fields: &[u8]) -> Option<RequestKind<'_>>
    ensures { option_map plain_kind result ≡ made_by table.mq_receive fields.now }
{
    let mut cursor = Cursor::new(fields);
    let fd = cursor.u32()?;
    let deadline = cursor.u64()?;
    let size = cursor.u32()?;
    if !cursor.is_empty() {
        return None;
    }
    Some(RequestKind::Posix(PosixCall::MqReceive { fd, deadline, size }))
}

#[tactic(auto, unfolding(ipc_base::specs::Numbers::number_in))]
fn read_mq_notify(fields: &[u8]) -> Option<RequestKind<'_>>
    ensures { option_map plain_kind result ≡ made_by table.mq_notify fields.now }
{
    let mut cursor = Cursor::new(fields);
    let fd = cursor.u32()?;
    let kind = cursor.u32()?;
    let cookie = cursor.u32()?;
    if !cursor.is_empty() {
        return None;
    }
    Some(RequestKind::Posix(PosixCall::MqNotify { fd, kind, cookie }))
}

fn read_mq_getattr(fields: &[u8]) -> Option<RequestKind<'_>>
    ensures { option_map plain_kind result ≡ made_by table.mq_getattr fields.now }
{
    let fd = read_number(fields)?;
    Some(RequestKind::Posix(PosixCall::MqGetattr { fd }))
}

fn read_mq_setattr(fields: &[u8]) -> Option<RequestKind<'_>>
    ensures { option_map plain_kind result ≡ made_by table.mq_setattr fields.now }
{
    let (fd, flags) = read_two_numbers(fields)?;
    let flags = OpenFlags(flags);
    Some(RequestKind::Posix(PosixCall::MqSetattr { fd, flags }))
}

#[tactic(auto, unfolding(ipc_base::specs::Numbers::number_in))]
fn read_sem_open(fields: &[u8]) -> Option<RequestKind<'_>>
    ensures { option_map plain_kind result ≡ made_by table.sem_open fields.now }
{
    let mut cursor = Cursor::new(fields);
    let flags = OpenFlags(cursor.u32()?);
    let mode = cursor.u32()?;
    let value = cursor.u32()?;
    let name = cursor.rest();
    Some(RequestKind::Posix(PosixCall::SemOpen {
        flags,
        mode,
        value,
        name,
    }))
}

fn read_sem_unlink(fields: &[u8]) -> Option<RequestKind<'_>>
    ensures { option_map plain_kind result ≡ made_by table.sem_unlink fields.now }
{
    Some(RequestKind::Posix(PosixCall::SemUnlink { name: fields }))
}

fn read_sem_post(fields: &[u8]) -> Option<RequestKind<'_>>
    ensures { option_map plain_kind result ≡ made_by table.sem_post fields.now }
{
    let fd = read_number(fields)?;
    Some(RequestKind::Posix(PosixCall::SemPost { fd }))
}

#[tactic(auto, unfolding(ipc_base::specs::Numbers::number_in))]
fn read_sem_wait(fields: &[u8]) -> Option<RequestKind<'_>>
    ensures { option_map plain_kind result ≡ made_by table.sem_wait fields.now }
{
    let mut cursor = Cursor::new(fields);
    let fd = cursor.u32()?;
    let deadline = cursor.u64()?;
    if !cursor.is_empty() {
        return None;
    }
    Some(RequestKind::Posix(PosixCall::SemWait { fd, deadline }))
}

fn read_sem_trywait(fields: &[u8]) -> Option<RequestKind<'_>>
    ensures { option_map plain_kind result ≡ made_by table.sem_trywait fields.now }
{
    let fd = read_number(fields)?;
    Some(RequestKind::Posix(PosixCall::SemTrywait { fd }))
}

fn read_sem_getvalue(fields: &[u8]) -> Option<RequestKind<'_>>
    ensures { option_map plain_kind result ≡ made_by table.sem_getvalue fields.now }
{
    let fd = read_number(fields)?;
    Some(RequestKind::Posix(PosixCall::SemGetvalue { fd }))
}

#[tactic(auto, unfolding(ipc_base::specs::Numbers::number_in))]
fn read_shm_open(fields: &[u8]) -> Option<RequestKind<'_>>
    ensures { option_map plain_kind result ≡ made_by table.shm_open fields.now }
{
    let mut cursor = Cursor::new(fields);
    let flags = OpenFlags(cursor.u32()?);
    let mode = cursor.u32()?;
    let name = cursor.rest();
    Some(RequestKind::Posix(PosixCall::ShmOpen { flags, mode, name }))
}

fn read_shm_unlink(fields: &[u8]) -> Option<RequestKind<'_>>
    ensures { option_map plain_kind result ≡ made_by table.shm_unlink fields.now }
{
    Some(RequestKind::Posix(PosixCall::ShmUnlink { name: fields }))
}

#[tactic(auto, unfolding(ipc_base::specs::Numbers::number_in))]
fn read_ftruncate(fields: &[u8]) -> Option<RequestKind<'_>>
    ensures { option_map plain_kind result ≡ made_by table.ftruncate fields.now }
{
    let mut cursor = Cursor::new(fields);
    let fd = cursor.u32()?;
    let length = cursor.u64()?;
    if !cursor.is_empty() {
        return None;
    }
    Some(RequestKind::Posix(PosixCall::Ftruncate { fd, length }))
}

#[tactic(auto, unfolding(ipc_base::specs::Numbers::number_in))]
fn read_shm_read(fields: &[u8]) -> Option<RequestKind<'_>>
    ensures { option_map plain_kind result ≡ made_by table.shm_read fields.now }
{
    let mut cursor = Cursor::new(fields);
    let fd = cursor.u32()?;
    let offset = cursor.u64()?;
    let length = cursor.u32()?;
    if !cursor.is_empty() {
        return None;
    }
    Some(RequestKind::Posix(PosixCall::ShmRead { fd, offset, length }))
}

#[tactic(auto, unfolding(ipc_base::specs::Numbers::number_in))]
fn read_shm_write(fields: &[u8]) -> Option<RequestKind<'_>>
    ensures { option_map plain_kind result ≡ made_by table.shm_write fields.now }
{
    let mut cursor = Cursor::new(fields);
    let fd = cursor.u32()?;
    let offset = cursor.u64()?;
    let bytes = cursor.rest();
    Some(RequestKind::Posix(PosixCall::ShmWrite { fd, offset, bytes }))
}

fn read_shm_stat(fields: &[u8]) -> Option<RequestKind<'_>>
    ensures { option_map plain_kind result ≡ made_by table.shm_stat fields.now }
{
    let fd = read_number(fields)?;
    Some(RequestKind::Posix(PosixCall::ShmStat { fd }))
}

/// The number of four bytes that is all of these fields, or `None` if they have another size.
#[tactic(auto, unfolding(ipc_base::specs::Numbers::number_in))]
pub(crate) fn read_number(fields: &[u8]) -> Option<u32>
    ensures { result ≡ if length fields.now == 4 then Some (number_in U32 fields.now) else None }
{
    let mut cursor = Cursor::new(fields);
    let number = cursor.u32()?;
    if !cursor.is_empty() {
        return None;
    }
    Some(number)
}

/// The two numbers of four bytes that are all of these fields, or `None` if they have another size.
#[tactic(auto, unfolding(ipc_base::specs::Numbers::number_in))]
pub(crate) fn read_two_numbers(fields: &[u8]) -> Option<(u32, u32)>
    ensures { result ≡ if length fields.now == 8
        then Some (number_in U32 fields.now, number_in U32 (drop 4 fields.now)) else None }
{
    let mut cursor = Cursor::new(fields);
    let first = cursor.u32()?;
    let second = cursor.u32()?;
    if !cursor.is_empty() {
        return None;
    }
    Some((first, second))
}
