//! The attempt of a call that never waits, which takes no memory; and which object a call may change.

ghost use Rattle.std.specs.Prelude.{◌≡◌, true, false, Some, option_map};
ghost use Rattle.ipc_wire.specs.Posix.{plain_posix};
ghost use Rattle.ipc_wire.specs.Request.{Posix};
ghost use Rattle.ipc_state.specs.Directory.{ArePositive};
ghost use Rattle.ipc_state.specs.Finish.{Finishes, finish_of};
ghost use Rattle.ipc_state.specs.Held.{left};
ghost use Rattle.ipc_state.specs.Named.{named as named_in};
ghost use Rattle.ipc_state.specs.Opening.{opened_as};
ghost use Rattle.ipc_state.specs.Sound.{HasSoundParts};
ghost use Rattle.ipc_state.specs.State.{is_process};
ghost use Rattle.ipc_state.specs.Waiting.{may_wait};
ghost use Rattle.posix_calls.specs.Calls as defined;
ghost use Rattle.posix_calls.specs.Needs.{needs};
ghost use Rattle.ipc_state.specs.Spare.{IsSpare, KeepsBuffer};

use crate::mq::{close, mq_getattr, mq_notify, mq_setattr, mq_unlink};
use crate::opening::{Wanted, mq_open};
use crate::psem::{sem_getvalue, sem_open, sem_post, sem_trywait, sem_unlink};
use crate::pshm::{ftruncate, shm_open, shm_read, shm_stat, shm_unlink, shm_write};
use bitflags::Flags;
use ipc_base::{OpenFlags, Pid};
use ipc_keys::NameKind;
use ipc_state::{Answer, Awaited, Named, Object, ObjectKind, State};
use ipc_wire::PosixCall;
use shm_segment::Segment;

/// The attempt of a call by a process, whose memory is reserved and that never waits. It takes none: a record is made
/// in the spare buffer, and has it. Nothing is reserved then.
pub fn attempt(state: &mut State, pid: Pid, call: &PosixCall<'_>, spare: &mut Vec<u8>) -> Answer
    requires sound { HasSoundParts state.old.limits state.old.state }
    requires never { may_wait (Posix (plain_posix call.now)) ≡ false }
    requires ready { state.old.ready ≡ needs (Posix (plain_posix call.now)) }
    requires process { is_process state.old.state pid.0 ≡ true }
    requires spare { IsSpare state.old.limits spare.old }
    ensures finish { Finishes (finish_of state.new.state result)
        ≡ defined.attempt state.old.limits state.old.state pid.0 (plain_posix call.now) }
    ensures held { state.new ≡ left state.old state.new.state }
    ensures spare { KeepsBuffer state.old.limits spare.new result }
{
    let cred = state.cred(pid);
    match call {
        PosixCall::Close { fd } => close(state, pid, *fd),
        PosixCall::MqOpen {
            flags,
            mode,
            attr,
            maxmsg,
            msgsize,
            name,
        } => {
            let wanted = Wanted {
                mode: *mode,
                attr: *attr,
                maxmsg: *maxmsg,
                msgsize: *msgsize,
            };
            mq_open(state, cred, pid, *flags, wanted, name)
        }
        PosixCall::MqUnlink { name } => mq_unlink(state, cred, name),
        PosixCall::MqNotify { fd, kind, cookie } => mq_notify(state, pid, *fd, *kind, *cookie),
        PosixCall::MqGetattr { fd } => mq_getattr(state, pid, *fd, spare),
        PosixCall::MqSetattr { fd, flags } => mq_setattr(state, pid, *fd, *flags, spare),
        PosixCall::SemOpen {
            flags,
            mode,
            value,
            name,
        } => sem_open(state, cred, pid, *flags, *mode, *value, name),
        PosixCall::SemUnlink { name } => sem_unlink(state, cred, name),
        PosixCall::SemPost { fd } => sem_post(state, pid, *fd),
        PosixCall::SemTrywait { fd } => sem_trywait(state, pid, *fd),
        PosixCall::SemGetvalue { fd } => sem_getvalue(state, pid, *fd),
        PosixCall::ShmOpen { flags, mode, name } => shm_open(state, cred, pid, *flags, *mode, name),
        PosixCall::ShmUnlink { name } => shm_unlink(state, cred, name),
        PosixCall::Ftruncate { fd, length } => ftruncate(state, pid, *fd, *length),
        PosixCall::ShmRead { fd, offset, length } => {
            shm_read(state, pid, *fd, *offset, *length, spare)
        }
        PosixCall::ShmWrite { fd, offset, bytes } => shm_write(state, pid, *fd, *offset, bytes),
        PosixCall::ShmStat { fd } => shm_stat(state, pid, *fd, spare),
        PosixCall::MqSend { .. } | PosixCall::MqReceive { .. } | PosixCall::SemWait { .. } => {
            unreachable!()
        }
    }
}

/// The object that a call may leave otherwise, so that those that wait on it may go on: no other, and none if it is
/// refused. An open that finds its object changes none, unless it cuts a segment; else it makes the one of the next
/// number.
pub fn touched(state: &State, pid: Pid, call: &PosixCall<'_>) -> Option<Object>
    requires sound { HasSoundParts state.now.limits state.now.state }
    ensures { result ≡ defined.touched state.now.state pid.0 (plain_posix call.now) }
{
    match call {
        PosixCall::Close { fd } => state.closed_on(pid, *fd),
        PosixCall::MqOpen { name, .. } => made(NameKind::Mq, state.named_mqs(), name),
        PosixCall::SemOpen { name, .. } => made(NameKind::Psem, state.psems(), name),
        PosixCall::ShmOpen { flags, name, .. } => made_or_cut(state.pshms(), *flags, name),
        PosixCall::MqUnlink { name } => named(NameKind::Mq, state.named_mqs(), name),
        PosixCall::SemUnlink { name } => named(NameKind::Psem, state.psems(), name),
        PosixCall::ShmUnlink { name } => named(NameKind::Pshm, state.pshms(), name),
        PosixCall::MqSend { fd, .. }
        | PosixCall::MqReceive { fd, .. }
        | PosixCall::MqNotify { fd, .. }
        | PosixCall::SemPost { fd }
        | PosixCall::SemWait { fd, .. }
        | PosixCall::SemTrywait { fd }
        | PosixCall::Ftruncate { fd, .. }
        | PosixCall::ShmWrite { fd, .. } => state.object_of(pid, Awaited::Descriptor(*fd)),
        PosixCall::MqGetattr { .. }
        | PosixCall::MqSetattr { .. }
        | PosixCall::SemGetvalue { .. }
        | PosixCall::ShmRead { .. }
        | PosixCall::ShmStat { .. } => None,
    }
}

/// The object that an open of this name makes; none, if the name names one.
fn made<T>(kind: NameKind, objects: &Named<T>, name: &[u8]) -> Option<Object>
    requires { ArePositive objects.now.objects.entries }
    ensures { result ≡ defined.option_made kind objects.now.objects.next (named_in objects.now.objects name.now) }
{
    match objects.of_name(name) {
        Some(_number) => None,
        None => Some(named_object(kind, objects.next())),
    }
}

/// The segment that shm_open makes, or cuts to no bytes, if it does either.
fn made_or_cut(segments: &Named<Segment>, flags: OpenFlags, name: &[u8]) -> Option<Object>
    requires { ArePositive segments.now.objects.entries }
    ensures { result ≡ defined.made_or_cut flags.0 segments.now.objects.next
        (named_in segments.now.objects name.now) }
{
    let Some(number) = segments.of_name(name) else {
        return Some(named_object(NameKind::Pshm, segments.next()));
    };
    if flags.contains(OpenFlags::O_TRUNC) {
        Some(named_object(NameKind::Pshm, number))
    } else {
        None
    }
}

/// The object that a name names.
fn named<T>(kind: NameKind, objects: &Named<T>, name: &[u8]) -> Option<Object>
    requires { ArePositive objects.now.objects.entries }
    ensures { result ≡ option_map (opened_as kind) (named_in objects.now.objects name.now) }
{
    match objects.of_name(name) {
        Some(number) => Some(named_object(kind, number)),
        None => None,
    }
}

fn named_object(kind: NameKind, number: u32) -> Object
    ensures { result ≡ opened_as kind number }
{
    Object {
        kind: ObjectKind::Named(kind),
        number,
    }
}
