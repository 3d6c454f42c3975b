//! The memory of each request, the attempt of a call that never waits, which takes none, and which object a call may
//! change.

ghost use Rattle.std.specs.Prelude.{◌≡◌, true, false, IfOk, IsOk, OnErr};
ghost use Rattle.ipc_wire.specs.Request.{Sysv, plain_sysv, plain_kind};
ghost use Rattle.ipc_wire.specs.View.{plain_request};
ghost use Rattle.ipc_state.specs.Directory.{ArePositive};
ghost use Rattle.ipc_state.specs.Finish.{Finishes, finish_of};
ghost use Rattle.ipc_state.specs.Held.{left};
ghost use Rattle.ipc_state.specs.Opening.{object_as};
ghost use Rattle.ipc_state.specs.Sound.{HasSoundParts};
ghost use Rattle.ipc_state.specs.State.{is_process};
ghost use Rattle.sysv_calls.specs.Calls as defined;
ghost use Rattle.ipc_state.specs.Waiting.{may_wait};
ghost use Rattle.sysv_calls.specs.Needs.{IsReserved, needs, takes_memory};
ghost use Rattle.ipc_state.specs.Spare.{IsSpare, KeepsBuffer};

use crate::msg::{msgctl_rmid, msgctl_set, msgctl_stat, msgget};
use crate::sem::{
    reserve_set, semctl_getall, semctl_getpid, semctl_getval, semctl_rmid, semctl_set,
    semctl_setall, semctl_setval, semctl_stat, semget,
};
use crate::semop::semctl_getcnt;
use crate::shm::{
    attached_read, attached_write, reserve_segment, shmat, shmctl_rmid, shmctl_set, shmctl_stat,
    shmdt, shmget,
};
use ipc_base::{Errno, Pid};
use ipc_state::{Answer, Awaited, Keyed, Object, ObjectKind, Parked, State};
use ipc_wire::{Body, Request, RequestKind, SysvCall};
use std::alloc::{AllocError, Global};

/// Reserves what a System V request may need, in place of what was reserved; one that grows nothing takes no memory. A
/// call that may wait is kept, its text in memory of its own. Any other request needs nothing here, and nothing is kept
/// of it. Refused for want of memory, nothing is reserved, and the state is as before.
pub fn reserve(
    state: &mut State,
    alloc: Global,
    request: &Request<'_>,
) -> Result<Option<Parked>, AllocError>
    ensures ok { IfOk result (λ kept. IsReserved state.old state.new (plain_request request.now) kept) }
    ensures err { OnErr result (state.new ≡ left state.old state.old.state) }
    ensures memory { takes_memory (plain_kind request.now.kind) ≡ false → IsOk result }
{
    match &request.kind {
        RequestKind::Sysv(SysvCall::Msgget { key, .. }) => {
            state.reserve_msg_queue(*key)?;
            Ok(None)
        }
        RequestKind::Sysv(SysvCall::Semget { key, nsems, .. }) => {
            reserve_set(state, *key, *nsems)?;
            Ok(None)
        }
        RequestKind::Sysv(SysvCall::Shmget { key, size, .. }) => {
            reserve_segment(state, *key, *size)?;
            Ok(None)
        }
        RequestKind::Sysv(_) => {
            state.release();
            Parked::new(alloc, request)
        }
        RequestKind::Hello(_) | RequestKind::Interrupt | RequestKind::Posix(_) => {
            state.release();
            Ok(None)
        }
    }
}

/// The attempt of a call by a process, whose memory is reserved and that never waits. It takes none: a body that is no
/// number and no message is made in the spare buffer, and has it.
pub fn attempt(state: &mut State, pid: Pid, call: &SysvCall<'_>, spare: &mut Vec<u8>) -> Answer
    requires sound { HasSoundParts state.old.limits state.old.state }
    requires never { may_wait (Sysv (plain_sysv call.now)) ≡ false }
    requires ready { state.old.ready ≡ needs (Sysv (plain_sysv call.now)) }
    requires process { is_process state.old.state pid.0 ≡ true }
    requires spare { IsSpare state.old.limits spare.old }
    ensures finish { Finishes (finish_of state.new.state result)
        ≡ defined.attempt state.old.limits state.old.state pid.0 false (plain_sysv call.now) }
    ensures held { state.new ≡ left state.old state.new.state }
    ensures spare { KeepsBuffer state.old.limits spare.new result }
{
    let cred = state.cred(pid);
    match call {
        SysvCall::Msgget { key, flags } => msgget(state, cred, *key, *flags),
        SysvCall::MsgctlStat { id } => msgctl_stat(state, cred, *id, spare),
        SysvCall::MsgctlSet {
            id,
            uid,
            gid,
            mode,
            qbytes,
        } => msgctl_set(state, cred, *id, *uid, *gid, *mode, *qbytes),
        SysvCall::MsgctlRmid { id } => msgctl_rmid(state, cred, *id),
        SysvCall::Semget { key, nsems, flags } => semget(state, cred, *key, *nsems, *flags),
        SysvCall::SemctlGetVal { id, num } => semctl_getval(state, cred, *id, *num),
        SysvCall::SemctlGetPid { id, num } => semctl_getpid(state, cred, *id, *num),
        SysvCall::SemctlGetNcnt { id, num } => semctl_getcnt(state, cred, false, *id, *num),
        SysvCall::SemctlGetZcnt { id, num } => semctl_getcnt(state, cred, true, *id, *num),
        SysvCall::SemctlSetVal { id, num, value } => {
            semctl_setval(state, cred, pid, *id, *num, *value)
        }
        SysvCall::SemctlGetAll { id } => semctl_getall(state, cred, *id, spare),
        SysvCall::SemctlSetAll { id, values } => semctl_setall(state, cred, pid, *id, values),
        SysvCall::SemctlStat { id } => semctl_stat(state, cred, *id, spare),
        SysvCall::SemctlSet { id, uid, gid, mode } => {
            semctl_set(state, cred, *id, *uid, *gid, *mode)
        }
        SysvCall::SemctlRmid { id } => semctl_rmid(state, cred, *id),
        SysvCall::Shmget { key, size, flags } => shmget(state, cred, pid, *key, *size, *flags),
        SysvCall::Shmat { id, flags } => shmat(state, cred, pid, *id, *flags),
        SysvCall::Shmdt { attachment } => shmdt(state, pid, *attachment),
        SysvCall::ShmctlStat { id } => shmctl_stat(state, cred, *id, spare),
        SysvCall::ShmctlSet { id, uid, gid, mode } => {
            shmctl_set(state, cred, *id, *uid, *gid, *mode)
        }
        SysvCall::ShmctlRmid { id } => shmctl_rmid(state, cred, *id),
        SysvCall::AttachedRead {
            attachment,
            offset,
            length,
        } => attached_read(state, pid, *attachment, *offset, *length, spare),
        SysvCall::AttachedWrite {
            attachment,
            offset,
            bytes,
        } => attached_write(state, pid, *attachment, *offset, bytes),
        SysvCall::Msgsnd { .. } | SysvCall::Msgrcv { .. } | SysvCall::Semop { .. } =>
            unreachable!(),
    }
}

/// The object that a call may leave otherwise, so that those that wait on it may go on: no other, and none if it is
/// refused. A get that finds its object changes none; else it makes the one of the next number.
pub fn touched(state: &State, pid: Pid, call: &SysvCall<'_>) -> Option<Object>
    requires sound { HasSoundParts state.now.limits state.now.state }
    ensures { result ≡ defined.touched state.now.state pid.0 (plain_sysv call.now) }
{
    match call {
        SysvCall::Msgget { key, .. } => made_by(ObjectKind::MsgQueue, state.msg(), *key),
        SysvCall::Semget { key, .. } => made_by(ObjectKind::Semset, state.semset(), *key),
        SysvCall::Msgsnd { id, .. }
        | SysvCall::Msgrcv { id, .. }
        | SysvCall::MsgctlSet { id, .. }
        | SysvCall::MsgctlRmid { id } => Some(Object {
            kind: ObjectKind::MsgQueue,
            number: id.0,
        }),
        SysvCall::Semop { id, .. }
        | SysvCall::SemctlSetVal { id, .. }
        | SysvCall::SemctlSetAll { id, .. }
        | SysvCall::SemctlSet { id, .. }
        | SysvCall::SemctlRmid { id } => Some(Object {
            kind: ObjectKind::Semset,
            number: id.0,
        }),
        SysvCall::Shmget { key, .. } => made_by(ObjectKind::Shm, state.shm(), *key),
        SysvCall::Shmat { id, .. } | SysvCall::ShmctlSet { id, .. } | SysvCall::ShmctlRmid { id } =>
            Some(Object {
                kind: ObjectKind::Shm,
                number: id.0,
            }),
        SysvCall::Shmdt { attachment } => state.closed_on(pid, *attachment),
        SysvCall::AttachedWrite { attachment, .. } => state.object_of(
            pid,
            Awaited::Descriptor(*attachment),
        ),
        SysvCall::MsgctlStat { .. }
        | SysvCall::SemctlGetVal { .. }
        | SysvCall::SemctlGetPid { .. }
        | SysvCall::SemctlGetNcnt { .. }
        | SysvCall::SemctlGetZcnt { .. }
        | SysvCall::SemctlGetAll { .. }
        | SysvCall::SemctlStat { .. }
        | SysvCall::ShmctlStat { .. }
        | SysvCall::AttachedRead { .. } => None,
    }
}

/// The object that a get of this key makes; none, if the key names one.
fn made_by<T>(kind: ObjectKind, objects: &Keyed<T>, key: i32) -> Option<Object>
    requires { ArePositive objects.now.objects.entries }
    ensures { result ≡ defined.made_by (object_as kind) objects.now.objects key }
{
    if objects.of_key(key).is_some() {
        return None;
    }
    Some(Object {
        kind,
        number: objects.next(),
    })
}
