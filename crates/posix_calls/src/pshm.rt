//! The calls on shared memory segments: shm_open(3), shm_unlink(3), ftruncate(2), reads and writes, fstat(2). None
//! takes memory in its attempt.

ghost use Rattle.std.specs.Prelude.{◌≡◌, ◌<◌, ◌^◌, ◌+◌, ◌≤◌, ◌++◌, List, ℕ, Some, None, true, false};
ghost use Rattle.std.specs.Prelude.{is_some, length, IfOk};
ghost use Rattle.std.specs.Prelude.{vec_len, vec_capacity};
ghost use Rattle.std.specs.Result.{is_ok};
ghost use Rattle.ipc_limits.specs.Limits.{ArePassed};
ghost use Rattle.ipc_base.specs.Numbers.{record_bytes};
ghost use Rattle.ipc_keys.specs.Names.{check_name as checked};
ghost use Rattle.ipc_keys.specs.declared.check.NameKind.TheVariants as names;
ghost use Rattle.shm_segment.specs.Segment.{Segment, empty_segment, truncated, written, is_within};
ghost use Rattle.ipc_state.specs.Finish.{Finishes, ended, finish_of};
ghost use Rattle.ipc_state.specs.Held.{Ready, left};
ghost use Rattle.ipc_state.specs.Named.{NamedEntry, named};
ghost use Rattle.ipc_state.specs.Numbered.{entry_of};
ghost use Rattle.ipc_state.specs.Sound.{HasSoundParts};
ghost use Rattle.ipc_state.specs.Spare.{IsSpare, KeepsBuffer};
ghost use Rattle.ipc_state.specs.State.{has_all_descriptors, is_process, with_pshm};
ghost use Rattle.posix_calls.specs.Needs.{most_segment_bytes, zeros_of};
ghost use Rattle.posix_calls.specs.Seen.{segment_of};
ghost use Rattle.posix_calls.specs.Open as opening;
ghost use Rattle.posix_calls.specs.Pshm as defined;

use crate::access::{asked_by, described, lookup, open_on, unlinkable, usable, writes};
use bitflags::Flags;
use ipc_base::{Cred, Errno, Field, OpenFlags, Pid};
use ipc_keys::{NameKind, check_name};
use ipc_perm::Access;
use ipc_state::{Answer, NamedEntry, Object, ObjectKind, State, take_spare};
use ipc_wire::{Body, push_fields};
use shm_segment::Segment;

/// What a descriptor finds: the number of its segment, the segment with whose it is, and its flags.
#[derive(Clone, Copy)]
pub(crate) struct FoundPshm<'a> {
    pub(crate) number: u32,
    pub(crate) entry: &'a NamedEntry<Segment>,
    pub(crate) flags: OpenFlags,
}

/// The segment on which a descriptor of the process is open.
fn open_pshm(state: &State, pid: Pid, fd: u32) -> Result<FoundPshm<'_>, Errno>
    ensures found { segment_of result ≡ defined.open_pshm state.now.state pid.0 fd }
    ensures there { IfOk result (λ found. entry_of state.now.state.pshm found.number ≡ Some found.entry.now) }
    ensures passed { IfOk result (λ found. ArePassed state.now.limits) }
{
    let descriptor = described(state, pid, fd)?;
    let Object {
        kind: ObjectKind::Named(NameKind::Pshm),
        number,
    } = descriptor.on
    else {
        return Err(Errno::EBADF);
    };
    let Some(entry) = state.pshms().get(number) else {
        return Err(Errno::EBADF);
    };
    Ok(FoundPshm {
        number,
        entry,
        flags: OpenFlags(descriptor.flags),
    })
}

/// The segment on which a descriptor of the process is open, if it is open to write.
fn writable(state: &State, pid: Pid, fd: u32) -> Result<FoundPshm<'_>, Errno>
    ensures found { segment_of result ≡ defined.writable state.now.state pid.0 fd }
    ensures there { IfOk result (λ found. entry_of state.now.state.pshm found.number ≡ Some found.entry.now) }
    ensures passed { IfOk result (λ found. ArePassed state.now.limits) }
{
    let found = open_pshm(state, pid, fd)?;
    if !writes(found.flags) {
        return Err(Errno::EBADF);
    }
    Ok(found)
}

/// shm_open(3). What is reserved and is not used is given back.
pub(crate) fn shm_open(
    state: &mut State,
    cred: Cred,
    pid: Pid,
    flags: OpenFlags,
    mode: u32,
    name: &[u8],
) -> Answer
    requires sound { HasSoundParts state.old.limits state.old.state }
    requires process { is_process state.old.state pid.0 ≡ true }
    requires ready { state.old.ready ≡ Ready.Pshm name.now }
    ensures finish { Finishes (finish_of state.new.state result) ≡ ended state.old.state
        (defined.shm_open state.old.limits state.old.state cred pid.0 flags.0 mode name.now) }
    ensures held { state.new ≡ left state.old state.new.state }
{
    let answer = open(state, cred, pid, flags, mode, name);
    state.release();
    answer
}

/// Opens the segment that a name names, or a new one.
fn open(state: &mut State, cred: Cred, pid: Pid, flags: OpenFlags, mode: u32, name: &[u8]) -> Answer
    requires sound { HasSoundParts state.old.limits state.old.state }
    requires process { is_process state.old.state pid.0 ≡ true }
    requires ready { state.old.ready ≡ Ready.Pshm name.now }
    ensures finish { Finishes (finish_of state.new.state result) ≡ ended state.old.state
        (defined.shm_open state.old.limits state.old.state cred pid.0 flags.0 mode name.now) }
    ensures held { state.new ≡ record state.old { state = state.new.state; ready = state.new.ready } }
{
    check_name(NameKind::Pshm, name)?;
    if flags.0 & 1 == 1 {
        return Err(Errno::EINVAL);
    }
    if state.has_all_descriptors(pid) {
        return Err(Errno::EMFILE);
    }
    let Some(number) = lookup(state.pshms(), name, flags)? else {
        return make_pshm(state, cred, pid, flags, mode);
    };
    open_at(state, cred, pid, flags, number)
}

/// What an open asks of a segment that is there: O_TRUNC asks to write too.
fn asked_of_pshm(flags: OpenFlags) -> Access
    ensures { result.0 ≡ defined.asked_of_pshm flags.0 }
{
    if flags.contains(OpenFlags::O_TRUNC) {
        Access(Access::READ.0 + Access::WRITE.0)
    } else {
        asked_by(flags)
    }
}

/// Opens the segment of a number, if the caller may use it so, and cuts it to no bytes, if that is asked.
fn open_at(state: &mut State, cred: Cred, pid: Pid, flags: OpenFlags, number: u32) -> Answer
    requires sound { HasSoundParts state.old.limits state.old.state }
    requires process { is_process state.old.state pid.0 ≡ true }
    requires few { has_all_descriptors state.old.limits state.old.state pid.0 ≡ false }
    ensures finish { Finishes (finish_of state.new.state result)
        ≡ ended state.old.state (defined.opened_pshm state.old.state cred pid.0 flags.0 number) }
    ensures held { state.new ≡ record state.old { state = state.new.state } }
{
    usable(state.pshms(), cred, number, asked_of_pshm(flags))?;
    cut(state, number, flags);
    let on = Object {
        kind: ObjectKind::Named(NameKind::Pshm),
        number,
    };
    Ok(Body::Number(open_on(state, pid, on, flags.access_mode())))
}

/// Leaves no bytes of a segment that is there, if the flags ask for that.
fn cut(state: &mut State, number: u32, flags: OpenFlags)
    requires { is_some (entry_of state.old.state.pshm number) ≡ true }
    ensures held { (e : NamedEntry Segment) → entry_of state.old.state.pshm number ≡ Some e
        → state.new ≡ record state.old { state = defined.cut_as flags.0 state.old.state number e } }
{
    if flags.contains(OpenFlags::O_TRUNC) {
        let zeros = Segment::new(state.allocator());
        truncate(state, number, zeros);
    }
}

/// Opens a new segment of the name that is ready.
fn make_pshm(state: &mut State, cred: Cred, pid: Pid, flags: OpenFlags, mode: u32) -> Answer
    ghost name: { List ℕ }
    requires sound { HasSoundParts state.old.limits state.old.state }
    requires process { is_process state.old.state pid.0 ≡ true }
    requires few { has_all_descriptors state.old.limits state.old.state pid.0 ≡ false }
    requires proper { is_ok (checked names.Pshm name) ≡ true }
    requires unused { named state.old.state.pshm name ≡ None }
    requires ready { state.old.ready ≡ Ready.Pshm name }
    ensures finish { Finishes (finish_of state.new.state result) ≡ ended state.old.state
        (defined.made_pshm state.old.limits state.old.state cred pid.0 flags.0 mode name) }
    ensures held { state.new ≡ record state.old { state = state.new.state; ready = state.new.ready } }
{
    if state.pshms().is_full(state.limits().segments) {
        return Err(Errno::ENOSPC);
    }
    let number = state.add_pshm(cred, mode);
    let on = Object {
        kind: ObjectKind::Named(NameKind::Pshm),
        number,
    };
    Ok(Body::Number(open_on(state, pid, on, flags.access_mode())))
}

/// shm_unlink(3).
pub(crate) fn shm_unlink(state: &mut State, cred: Cred, name: &[u8]) -> Answer
    requires sound { HasSoundParts state.old.limits state.old.state }
    ensures finish { Finishes (finish_of state.new.state result)
        ≡ ended state.old.state (opening.unlink names.Pshm state.old.state cred name.now) }
    ensures held { state.old.ready ≡ Ready.Nothing → state.new ≡ left state.old state.new.state }
{
    check_name(NameKind::Pshm, name)?;
    let number = unlinkable(state.pshms(), cred, name)?;
    state.unlink_pshm(number);
    Ok(Body::Empty)
}

/// Whether with a segment of this length in the place of one all have more bytes than they may.
fn is_past_all(state: &State, segment: &Segment, wanted: u64) -> bool
    requires { length segment.now.bytes < 2 ^ 32 }
    ensures { result ≡ defined.is_past_all state.now.limits state.now.state segment.now wanted }
{
    let most = u64::from(state.limits().segment_bytes);
    if wanted > most {
        return true;
    }
    !state.have_at_most_bytes(segment.len() + (most - wanted) as usize)
}

/// ftruncate(2) of a segment. The zeros that are reserved become the segment, or are given back.
pub(crate) fn ftruncate(state: &mut State, pid: Pid, fd: u32, length: u64) -> Answer
    requires sound { HasSoundParts state.old.limits state.old.state }
    requires ready { state.old.ready ≡ zeros_of length }
    ensures finish { Finishes (finish_of state.new.state result) ≡ ended state.old.state
        (defined.ftruncate state.old.limits state.old.state pid.0 fd length) }
    ensures held { state.new ≡ left state.old state.new.state }
{
    let zeros = state.take_zeros();
    resize(state, pid, fd, length, zeros)
}

/// Makes a segment as long as it is asked for, of zeros of that length.
fn resize(state: &mut State, pid: Pid, fd: u32, length: u64, zeros: Option<Segment>) -> Answer
    requires sound { HasSoundParts state.old.limits state.old.state }
    requires zeros { length ≤ most_segment_bytes → zeros ≡ Some (truncated length empty_segment) }
    ensures finish { Finishes (finish_of state.new.state result) ≡ ended state.old.state
        (defined.ftruncate state.old.limits state.old.state pid.0 fd length) }
    ensures held { state.new ≡ record state.old { state = state.new.state } }
{
    let found = writable(state, pid, fd)?;
    if is_past_all(state, &found.entry.object, length) {
        return Err(Errno::ENOSPC);
    }
    let number = found.number;
    truncate(state, number, zeros.unwrap());
    Ok(Body::Empty)
}

/// Makes a segment that is there as long as these zeros.
fn truncate(state: &mut State, number: u32, zeros: Segment)
    requires there { is_some (entry_of state.old.state.pshm number) ≡ true }
    requires zeros { zeros ≡ truncated (length zeros.bytes) empty_segment }
    ensures held { (e : NamedEntry Segment) → entry_of state.old.state.pshm number ≡ Some e
        → state.new ≡ record state.old {
          state = with_pshm state.old.state number (truncated (length zeros.bytes) e.object);
        } }
{
    state.pshm_mut(number).unwrap().truncate(zeros);
}

/// A read of a segment, made in the spare buffer.
pub(crate) fn shm_read(
    state: &State,
    pid: Pid,
    fd: u32,
    offset: u64,
    length: u32,
    spare: &mut Vec<u8>,
) -> Answer
    requires spare { IsSpare state.now.limits spare.old }
    ensures finish { Finishes (finish_of state.now.state result) ≡ ended state.now.state
        (defined.shm_read state.now.limits state.now.state pid.0 fd offset length) }
    ensures spare { KeepsBuffer state.now.limits spare.new result }
{
    let found = open_pshm(state, pid, fd)?;
    if length > state.limits().call_bytes {
        return Err(Errno::EINVAL);
    }
    let segment = &found.entry.object;
    if !segment.is_within(offset, u64::from(length)) {
        return Err(Errno::EINVAL);
    }
    let mut body = take_spare(spare);
    body.extend_from_slice(segment.read(offset as usize, length as usize))
        .unwrap();
    Ok(Body::Record(body))
}

/// A write to a segment.
pub(crate) fn shm_write(state: &mut State, pid: Pid, fd: u32, offset: u64, bytes: &[u8]) -> Answer
    ensures finish { Finishes (finish_of state.new.state result) ≡ ended state.old.state
        (defined.shm_write state.old.limits state.old.state pid.0 fd offset bytes.now) }
    ensures held { state.new ≡ record state.old { state = state.new.state } }
{
    let found = writable(state, pid, fd)?;
    if bytes.len() > state.limits().call_bytes as usize {
        return Err(Errno::EINVAL);
    }
    if !found.entry.object.is_within(offset, bytes.len() as u64) {
        return Err(Errno::EINVAL);
    }
    let number = found.number;
    write(state, number, offset as usize, bytes);
    Ok(Body::Empty)
}

/// Writes bytes to a segment that is there, within it.
fn write(state: &mut State, number: u32, offset: usize, bytes: &[u8])
    requires there { is_some (entry_of state.old.state.pshm number) ≡ true }
    requires within { (e : NamedEntry Segment) → entry_of state.old.state.pshm number ≡ Some e
        → is_within offset (length bytes.now) e.object ≡ true }
    ensures held { (e : NamedEntry Segment) → entry_of state.old.state.pshm number ≡ Some e
        → state.new ≡ record state.old {
          state = with_pshm state.old.state number (written offset bytes.now e.object);
        } }
{
    state.pshm_mut(number).unwrap().write(offset, bytes);
}

/// fstat(2) of a segment; the record is made in the spare buffer.
pub(crate) fn shm_stat(state: &State, pid: Pid, fd: u32, spare: &mut Vec<u8>) -> Answer
    requires spare { IsSpare state.now.limits spare.old }
    ensures finish { Finishes (finish_of state.now.state result)
        ≡ ended state.now.state (defined.shm_stat state.now.state pid.0 fd) }
    ensures spare { KeepsBuffer state.now.limits spare.new result }
{
    let found = open_pshm(state, pid, fd)?;
    let mut body = take_spare(spare);
    push_stat(&mut body, found.entry);
    Ok(Body::Record(body))
}

/// Adds what fstat(2) tells to a body that has room for it.
fn push_stat(body: &mut Vec<u8>, entry: &NamedEntry<Segment>)
    requires room { vec_len body.old + 20 ≤ vec_capacity body.old }
    ensures bytes { body.new.items ≡ body.old.items ++ record_bytes (defined.segment_fields entry.now) }
    ensures room { vec_capacity body.old ≤ vec_capacity body.new }
{
    push_fields(
        body,
        &[
            Field::U64(entry.object.len() as u64),
            Field::U32(entry.perm.uid),
            Field::U32(entry.perm.gid),
            Field::U32(entry.perm.mode),
        ],
    );
}
