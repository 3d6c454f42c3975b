//! The calls on System V segments: shmget(2), shmop(2), shmctl(2), reads and writes. None takes memory in its attempt.

ghost use Rattle.std.specs.Prelude.{◌≡◌, ◌+◌, ◌^◌, ◌<◌, ◌≤◌, ◌++◌, true, false, is_some, length, None, Some};
ghost use Rattle.std.specs.Prelude.{IfOk, IsOk, OnOk, OnErr, vec_len, vec_capacity};
ghost use Rattle.ipc_limits.specs.Limits.{ArePassed};
ghost use Rattle.ipc_base.specs.Numbers.{record_bytes};
ghost use Rattle.shm_segment.specs.Segment.{is_within};
ghost use Rattle.shm_segment.specs.SysSegment.{SysSegment, written};
ghost use Rattle.ipc_state.specs.Bound.{holding};
ghost use Rattle.ipc_state.specs.Finish.{Finishes, ended, finish_of};
ghost use Rattle.ipc_state.specs.Held.{Ready, left};
ghost use Rattle.ipc_state.specs.Keyed.{KeyedEntry, keyed};
ghost use Rattle.ipc_state.specs.Numbered.{entry_of};
ghost use Rattle.ipc_state.specs.Sound.{HasSoundParts};
ghost use Rattle.ipc_state.specs.Spare.{IsSpare, KeepsBuffer};
ghost use Rattle.ipc_state.specs.State.{is_process, shm_of, with_shm};
ghost use Rattle.ipc_state.specs.Steps.{result_of};
ghost use Rattle.sysv_calls.specs.Needs.{is_something, segment_place};
ghost use Rattle.sysv_calls.specs.Records.{segment_fields};
ghost use Rattle.sysv_calls.specs.Seen.{segment_of};
ghost use Rattle.sysv_calls.specs.Shm as defined;

use crate::access::{accessible, lookup, owned, push_perm};
use bitflags::Flags;
use ipc_base::{Cred, Errno, Field, GetFlags, Id, Pid, ShmFlags};
use ipc_perm::{Access, Perm};
use ipc_state::{
    Answer, Descriptor, Keyed, KeyedEntry, Object, ObjectKind, State, is_segment, shown_mode,
    take_spare,
};
use ipc_wire::{Body, push_fields};
use shm_segment::SysSegment;
use std::alloc::AllocError;

/// The most bytes of a segment, under any limits.
const MOST_BYTES: u64 = 1 << 20;

/// Takes the memory of a new segment of so many bytes, if there can be one.
pub(crate) fn reserve_segment(state: &mut State, key: i32, size: u64) -> Result<(), AllocError>
    ensures ok { OnOk result (state.new ≡ record state.old { ready = segment_place key size }) }
    ensures err { OnErr result (state.new ≡ left state.old state.old.state) }
    ensures memory { is_something (segment_place key size) ≡ false → IsOk result }
{
    if size < 1 || size > MOST_BYTES {
        state.release();
        return Ok(());
    }
    state.reserve_shm(key, size as usize)
}

/// shmget(2). What is reserved for a segment that is not made is given back.
pub(crate) fn shmget(
    state: &mut State,
    cred: Cred,
    pid: Pid,
    key: i32,
    size: u64,
    flags: GetFlags,
) -> Answer
    requires sound { HasSoundParts state.old.limits state.old.state }
    requires ready { state.old.ready ≡ segment_place key size }
    ensures finish { Finishes (finish_of state.new.state result) ≡ ended state.old.state
        (defined.shmget state.old.limits state.old.state cred pid.0 key size flags.0) }
    ensures held { state.new ≡ left state.old state.new.state }
{
    let answer = get_segment(state, cred, pid, key, size, flags);
    state.release();
    answer
}

/// The segment that a key names, or a new one.
fn get_segment(
    state: &mut State,
    cred: Cred,
    pid: Pid,
    key: i32,
    size: u64,
    flags: GetFlags,
) -> Answer
    requires sound { HasSoundParts state.old.limits state.old.state }
    requires ready { state.old.ready ≡ segment_place key size }
    ensures finish { Finishes (finish_of state.new.state result) ≡ ended state.old.state
        (defined.shmget state.old.limits state.old.state cred pid.0 key size flags.0) }
    ensures held { state.new ≡ record state.old { state = state.new.state; ready = state.new.ready } }
{
    let Some(id) = lookup(state.shm(), key, flags)? else {
        return make_segment(state, cred, pid, key, size, flags);
    };
    if is_shorter(state.shm(), id, size) {
        return Err(Errno::EINVAL);
    }
    accessible(state.shm(), cred, false, id, Access::asked_by(flags.0))?;
    Ok(Body::Number(id.0))
}

/// Whether the segment of an identifier has fewer bytes.
fn is_shorter(segments: &Keyed<SysSegment>, id: Id, size: u64) -> bool
    ensures { result ≡ defined.is_shorter (entry_of segments.now.objects id.0) size }
{
    match segments.get(id.0) {
        Some(entry) => (entry.object.bytes().len() as u64) < size,
        None => false,
    }
}

/// A new segment of so many bytes.
fn make_segment(
    state: &mut State,
    cred: Cred,
    pid: Pid,
    key: i32,
    size: u64,
    flags: GetFlags,
) -> Answer
    requires sound { HasSoundParts state.old.limits state.old.state }
    requires unused { keyed state.old.state.shm key ≡ None }
    requires ready { state.old.ready ≡ segment_place key size }
    ensures finish { Finishes (finish_of state.new.state result) ≡ ended state.old.state
        (defined.made_shm state.old.limits state.old.state cred pid.0 key flags.0 size) }
    ensures held { state.new ≡ record state.old { state = state.new.state; ready = state.new.ready } }
{
    if size == 0 || size > u64::from(state.limits().shmmax) {
        return Err(Errno::EINVAL);
    }
    if state.shm().is_full(state.limits().shmmni) {
        return Err(Errno::ENOSPC);
    }
    if !state.may_have_more_bytes(size as usize) {
        return Err(Errno::ENOSPC);
    }
    Ok(Body::Number(state.add_shm(Perm::new(cred, flags.0), pid).0))
}

/// What an attach asks of a segment: with SHM_RDONLY to read it alone.
fn asked_by_attach(flags: ShmFlags) -> Access
    ensures { result.0 ≡ defined.asked_by_attach flags.0 }
{
    if flags.contains(ShmFlags::SHM_RDONLY) {
        Access::READ
    } else {
        Access(Access::READ.0 + Access::WRITE.0)
    }
}

/// shmat(2): the attachment is a descriptor.
pub(crate) fn shmat(state: &mut State, cred: Cred, pid: Pid, id: Id, flags: ShmFlags) -> Answer
    requires sound { HasSoundParts state.old.limits state.old.state }
    requires process { is_process state.old.state pid.0 ≡ true }
    ensures finish { Finishes (finish_of state.new.state result) ≡ ended state.old.state
        (defined.shmat state.old.limits state.old.state cred pid.0 id.0 flags.0) }
    ensures held { state.new ≡ record state.old { state = state.new.state } }
{
    accessible(state.shm(), cred, false, id, asked_by_attach(flags))?;
    if state.has_all_descriptors(pid) {
        return Err(Errno::EMFILE);
    }
    let on = Object {
        kind: ObjectKind::Shm,
        number: id.0,
    };
    let flags = flags.0 & ShmFlags::SHM_RDONLY.0;
    let now = state.clock();
    let attachment = state.open_descriptor(pid, Descriptor { on, flags });
    state.shm_mut(id).unwrap().attach(pid, now);
    Ok(Body::Number(attachment))
}

/// A descriptor of the process that is open on a segment, or the refusal.
fn attachment_or(refusal: Errno, state: &State, pid: Pid, fd: u32) -> Result<Descriptor, Errno>
    ensures { result_of result ≡ defined.attachment_or refusal state.now.state pid.0 fd }
{
    match state.descriptor(pid, fd) {
        Some(descriptor) => {
            if !is_segment(descriptor.on.kind) {
                return Err(refusal);
            }
            Ok(descriptor)
        }
        None => Err(refusal),
    }
}

/// shmdt(2).
pub(crate) fn shmdt(state: &mut State, pid: Pid, attachment: u32) -> Answer
    ensures finish { Finishes (finish_of state.new.state result)
        ≡ ended state.old.state (defined.shmdt state.old.state pid.0 attachment) }
    ensures held { state.old.ready ≡ Ready.Nothing → state.new ≡ left state.old state.new.state }
{
    attachment_or(Errno::EINVAL, state, pid, attachment)?;
    state.close_descriptor(pid, attachment);
    Ok(Body::Empty)
}

/// IPC_STAT of shmctl(2); the record is made in the spare buffer.
pub(crate) fn shmctl_stat(state: &State, cred: Cred, id: Id, spare: &mut Vec<u8>) -> Answer
    requires sound { HasSoundParts state.now.limits state.now.state }
    requires spare { IsSpare state.now.limits spare.old }
    ensures finish { Finishes (finish_of state.now.state result)
        ≡ ended state.now.state (defined.shmctl_stat state.now.state cred id.0) }
    ensures spare { KeepsBuffer state.now.limits spare.new result }
{
    let entry = accessible(state.shm(), cred, false, id, Access::READ)?;
    let attachments = state.attachments(id);
    let mut body = take_spare(spare);
    let mode = shown_mode(entry.perm.mode, entry.object.is_marked());
    push_perm(&mut body, entry, mode);
    push_segment(&mut body, attachments as u32, &entry.object);
    Ok(Body::Record(body))
}

/// Adds the numbers of a segment to a body that has room for them.
fn push_segment(body: &mut Vec<u8>, attachments: u32, segment: &SysSegment)
    requires { vec_len body.old + 44 ≤ vec_capacity body.old }
    ensures bytes { body.new.items
        ≡ body.old.items ++ record_bytes (segment_fields attachments segment.now) }
    ensures room { vec_capacity body.old ≤ vec_capacity body.new }
{
    let stat = segment.stat();
    push_fields(
        body,
        &[
            Field::U64(stat.atime.0),
            Field::U64(stat.dtime.0),
            Field::U64(stat.ctime.0),
            Field::U32(stat.cpid.0),
            Field::U32(stat.lpid.0),
            Field::U32(attachments),
            Field::U64(stat.size as u64),
        ],
    );
}

/// IPC_SET of shmctl(2).
pub(crate) fn shmctl_set(
    state: &mut State,
    cred: Cred,
    id: Id,
    uid: u32,
    gid: u32,
    mode: u32,
) -> Answer
    ensures finish { Finishes (finish_of state.new.state result) ≡ ended state.old.state
        (defined.shmctl_set state.old.state cred id.0 uid gid mode) }
    ensures held { state.new ≡ record state.old { state = state.new.state } }
{
    let perm = owned(state.shm(), cred, id)?.perm;
    let now = state.clock();
    state.set_shm_perm(id, perm.owned_by(uid, gid, mode));
    state.shm_mut(id).unwrap().set(now);
    Ok(Body::Empty)
}

/// IPC_RMID of shmctl(2): the segment goes once nobody has it attached.
pub(crate) fn shmctl_rmid(state: &mut State, cred: Cred, id: Id) -> Answer
    requires { HasSoundParts state.old.limits state.old.state }
    ensures finish { Finishes (finish_of state.new.state result)
        ≡ ended state.old.state (defined.shmctl_rmid state.old.state cred id.0) }
    ensures ok { OnOk result (state.new ≡ left state.old state.new.state) }
    ensures err { OnErr result (state.new ≡ state.old) }
{
    owned(state.shm(), cred, id)?;
    state.mark_shm(id);
    Ok(Body::Empty)
}

/// What an attachment finds: its segment's identifier, the segment with whose it is, and the attachment's flags.
#[derive(Clone, Copy)]
pub(crate) struct FoundShm<'a> {
    pub(crate) id: Id,
    pub(crate) entry: &'a KeyedEntry<SysSegment>,
    pub(crate) flags: ShmFlags,
}

/// The segment that is attached by a descriptor of the process.
fn attached_by(state: &State, pid: Pid, attachment: u32) -> Result<FoundShm<'_>, Errno>
    ensures found { segment_of result ≡ defined.attached_by state.now.state pid.0 attachment }
    ensures there { IfOk result (λ found. shm_of state.now.state found.id.0 ≡ Some found.entry.now) }
    ensures passed { IfOk result (λ found. ArePassed state.now.limits) }
{
    let descriptor = attachment_or(Errno::EBADF, state, pid, attachment)?;
    let id = Id(descriptor.on.number);
    let Some(entry) = state.shm().get(id.0) else {
        return Err(Errno::EBADF);
    };
    Ok(FoundShm {
        id,
        entry,
        flags: ShmFlags(descriptor.flags),
    })
}

/// The segment that is attached by a descriptor of the process, if it is attached to write.
fn writable(state: &State, pid: Pid, attachment: u32) -> Result<FoundShm<'_>, Errno>
    ensures found { segment_of result ≡ defined.writable state.now.state pid.0 attachment }
    ensures there { IfOk result (λ found. shm_of state.now.state found.id.0 ≡ Some found.entry.now) }
    ensures passed { IfOk result (λ found. ArePassed state.now.limits) }
{
    let found = attached_by(state, pid, attachment)?;
    if found.flags.contains(ShmFlags::SHM_RDONLY) {
        return Err(Errno::EBADF);
    }
    Ok(found)
}

/// A read of an attached segment, made in the spare buffer.
pub(crate) fn attached_read(
    state: &State,
    pid: Pid,
    attachment: u32,
    offset: u64,
    length: u32,
    spare: &mut Vec<u8>,
) -> Answer
    requires spare { IsSpare state.now.limits spare.old }
    ensures finish { Finishes (finish_of state.now.state result) ≡ ended state.now.state
        (defined.attached_read state.now.limits state.now.state pid.0 attachment offset length) }
    ensures spare { KeepsBuffer state.now.limits spare.new result }
{
    let found = attached_by(state, pid, attachment)?;
    if length > state.limits().call_bytes {
        return Err(Errno::EINVAL);
    }
    let segment = &found.entry.object;
    if !segment.is_within(offset, u64::from(length)) {
        return Err(Errno::EINVAL);
    }
    let mut body = take_spare(spare);
    body.extend_from_slice(segment.read(offset as usize, length as usize))
        .unwrap();
    Ok(Body::Record(body))
}

/// A write to an attached segment.
pub(crate) fn attached_write(
    state: &mut State,
    pid: Pid,
    attachment: u32,
    offset: u64,
    bytes: &[u8],
) -> Answer
    ensures finish { Finishes (finish_of state.new.state result) ≡ ended state.old.state
        (defined.attached_write state.old.limits state.old.state pid.0 attachment offset bytes.now) }
    ensures held { state.new ≡ record state.old { state = state.new.state } }
{
    let found = writable(state, pid, attachment)?;
    if bytes.len() > state.limits().call_bytes as usize {
        return Err(Errno::EINVAL);
    }
    if !found.entry.object.is_within(offset, bytes.len() as u64) {
        return Err(Errno::EINVAL);
    }
    let id = found.id;
    write(state, id, offset as usize, bytes);
    Ok(Body::Empty)
}

/// Writes bytes to a segment that is there, within it.
fn write(state: &mut State, id: Id, offset: usize, bytes: &[u8])
    requires there { is_some (shm_of state.old.state id.0) ≡ true }
    requires within { (e : KeyedEntry SysSegment) → shm_of state.old.state id.0 ≡ Some e
        → is_within offset (length bytes.now) e.object.memory ≡ true }
    ensures held { (e : KeyedEntry SysSegment) → shm_of state.old.state id.0 ≡ Some e
        → state.new ≡ record state.old {
          state = with_shm state.old.state id.0 (holding e (written offset bytes.now e.object));
        } }
{
    state.shm_mut(id).unwrap().write(offset, bytes);
}
