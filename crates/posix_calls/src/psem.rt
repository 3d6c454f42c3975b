//! The calls on named semaphores: sem_open(3), sem_unlink(3), sem_post(3), sem_wait(3), sem_trywait(3) and
//! sem_getvalue(3). None takes memory in its attempt.

ghost use Rattle.std.specs.Prelude.{◌≡◌, ◌≢◌, List, ℕ, Some, None, true, false, is_some, IfOk, OnOk};
ghost use Rattle.std.specs.Result.{is_ok};
ghost use Rattle.ipc_limits.specs.Limits.{ArePassed};
ghost use Rattle.ipc_keys.specs.Names.{check_name as checked};
ghost use Rattle.ipc_keys.specs.declared.check.NameKind.TheVariants as names;
ghost use Rattle.posix_sem.specs.Semaphore.{posted, sem_value_max, waited};
ghost use Rattle.ipc_state.specs.Finish.{Finishes, ended, finish_of};
ghost use Rattle.ipc_state.specs.Held.{Ready, left};
ghost use Rattle.ipc_state.specs.Named.{named};
ghost use Rattle.ipc_state.specs.Numbered.{entry_of};
ghost use Rattle.ipc_state.specs.Sound.{HasSoundParts};
ghost use Rattle.ipc_state.specs.State.{has_all_descriptors, is_process, with_psem};
ghost use Rattle.ipc_state.specs.Steps.{result_of};
ghost use Rattle.ipc_state.specs.Touching.{psem_value};
ghost use Rattle.posix_calls.specs.Open as opening;
ghost use Rattle.posix_calls.specs.Psem as defined;

use crate::access::{described_or, lookup, open_on, unlinkable, usable};
use ipc_base::{Cred, Errno, OpenFlags, Pid};
use ipc_keys::{NameKind, check_name};
use ipc_perm::Access;
use ipc_state::{Answer, Object, ObjectKind, State};
use ipc_wire::Body;
use posix_sem::SEM_VALUE_MAX;

/// What a descriptor finds: the number of its semaphore, and the value.
#[derive(Clone, Copy)]
pub(crate) struct FoundPsem {
    pub(crate) number: u32,
    pub(crate) value: u32,
}

/// The semaphore on which a descriptor of the process is open.
pub(crate) fn open_semaphore(state: &State, pid: Pid, fd: u32) -> Result<FoundPsem, Errno>
    ensures found { result_of result ≡ defined.open_semaphore state.now.state pid.0 fd }
    ensures value { IfOk result (λ found. psem_value state.now.state found.number ≡ Some found.value) }
    ensures passed { OnOk result (ArePassed state.now.limits) }
    ensures there { IfOk result (λ found. is_some (entry_of state.now.state.psem found.number) ≡ true) }
{
    let descriptor = described_or(Errno::EINVAL, state, pid, fd)?;
    let Object {
        kind: ObjectKind::Named(NameKind::Psem),
        number,
    } = descriptor.on
    else {
        return Err(Errno::EINVAL);
    };
    let Some(entry) = state.psems().get(number) else {
        return Err(Errno::EINVAL);
    };
    Ok(FoundPsem {
        number,
        value: entry.object.value(),
    })
}

/// sem_open(3). What is reserved and is not used is given back.
pub(crate) fn sem_open(
    state: &mut State,
    cred: Cred,
    pid: Pid,
    flags: OpenFlags,
    mode: u32,
    value: u32,
    name: &[u8],
) -> Answer
    requires sound { HasSoundParts state.old.limits state.old.state }
    requires process { is_process state.old.state pid.0 ≡ true }
    requires ready { state.old.ready ≡ Ready.Psem name.now }
    ensures finish { Finishes (finish_of state.new.state result) ≡ ended state.old.state
        (defined.sem_open state.old.limits state.old.state cred pid.0 flags.0 mode value name.now) }
    ensures held { state.new ≡ left state.old state.new.state }
{
    let answer = open(state, cred, pid, flags, mode, value, name);
    state.release();
    answer
}

/// Opens the semaphore that a name names, or a new one.
fn open(
    state: &mut State,
    cred: Cred,
    pid: Pid,
    flags: OpenFlags,
    mode: u32,
    value: u32,
    name: &[u8],
) -> Answer
    requires sound { HasSoundParts state.old.limits state.old.state }
    requires process { is_process state.old.state pid.0 ≡ true }
    requires ready { state.old.ready ≡ Ready.Psem name.now }
    ensures finish { Finishes (finish_of state.new.state result) ≡ ended state.old.state
        (defined.sem_open state.old.limits state.old.state cred pid.0 flags.0 mode value name.now) }
    ensures held { state.new ≡ record state.old { state = state.new.state; ready = state.new.ready } }
{
    check_name(NameKind::Psem, name)?;
    if state.has_all_descriptors(pid) {
        return Err(Errno::EMFILE);
    }
    let Some(number) = lookup(state.psems(), name, flags)? else {
        return make_semaphore(state, cred, pid, mode, value);
    };
    open_at(state, cred, pid, number)
}

/// Opens the semaphore of a number, if the caller may read and write it.
fn open_at(state: &mut State, cred: Cred, pid: Pid, number: u32) -> Answer
    requires sound { HasSoundParts state.old.limits state.old.state }
    requires process { is_process state.old.state pid.0 ≡ true }
    requires few { has_all_descriptors state.old.limits state.old.state pid.0 ≡ false }
    ensures finish { Finishes (finish_of state.new.state result)
        ≡ ended state.old.state (defined.opened_semaphore state.old.state cred pid.0 number) }
    ensures held { state.new ≡ record state.old { state = state.new.state } }
{
    usable(
        state.psems(),
        cred,
        number,
        Access(Access::READ.0 + Access::WRITE.0),
    )?;
    let on = Object {
        kind: ObjectKind::Named(NameKind::Psem),
        number,
    };
    Ok(Body::Number(open_on(state, pid, on, 0)))
}

/// Opens a new semaphore of the name that is ready.
fn make_semaphore(state: &mut State, cred: Cred, pid: Pid, mode: u32, value: u32) -> Answer
    ghost name: { List ℕ }
    requires sound { HasSoundParts state.old.limits state.old.state }
    requires process { is_process state.old.state pid.0 ≡ true }
    requires few { has_all_descriptors state.old.limits state.old.state pid.0 ≡ false }
    requires proper { is_ok (checked names.Psem name) ≡ true }
    requires unused { named state.old.state.psem name ≡ None }
    requires ready { state.old.ready ≡ Ready.Psem name }
    ensures finish { Finishes (finish_of state.new.state result) ≡ ended state.old.state
        (defined.made_semaphore state.old.limits state.old.state cred pid.0 mode value name) }
    ensures held { state.new ≡ record state.old { state = state.new.state; ready = state.new.ready } }
{
    if value > SEM_VALUE_MAX {
        return Err(Errno::EINVAL);
    }
    if state.psems().is_full(state.limits().named_semaphores) {
        return Err(Errno::ENOSPC);
    }
    let number = state.add_psem(cred, mode, value);
    let on = Object {
        kind: ObjectKind::Named(NameKind::Psem),
        number,
    };
    Ok(Body::Number(open_on(state, pid, on, 0)))
}

/// sem_unlink(3).
pub(crate) fn sem_unlink(state: &mut State, cred: Cred, name: &[u8]) -> Answer
    requires sound { HasSoundParts state.old.limits state.old.state }
    ensures finish { Finishes (finish_of state.new.state result)
        ≡ ended state.old.state (opening.unlink names.Psem state.old.state cred name.now) }
    ensures held { state.old.ready ≡ Ready.Nothing → state.new ≡ left state.old state.new.state }
{
    check_name(NameKind::Psem, name)?;
    let number = unlinkable(state.psems(), cred, name)?;
    state.unlink_psem(number);
    Ok(Body::Empty)
}

/// Raises a semaphore that is there, and is below the greatest value.
fn raise(state: &mut State, number: u32)
    requires there { is_some (entry_of state.old.state.psem number) ≡ true }
    requires low { (value : ℕ) → psem_value state.old.state number ≡ Some value → value ≢ sem_value_max }
    ensures held { (value : ℕ) → psem_value state.old.state number ≡ Some value
        → state.new ≡ record state.old { state = with_psem state.old.state number (posted value) } }
{
    state.psem_mut(number).unwrap().post().unwrap();
}

/// Lowers a semaphore that is there, and is above 0.
pub(crate) fn lower(state: &mut State, number: u32)
    requires there { is_some (entry_of state.old.state.psem number) ≡ true }
    requires some { (value : ℕ) → psem_value state.old.state number ≡ Some value → value ≢ 0 }
    ensures held { (value : ℕ) → psem_value state.old.state number ≡ Some value
        → state.new ≡ record state.old { state = with_psem state.old.state number (waited value) } }
{
    state.psem_mut(number).unwrap().try_wait().unwrap();
}

/// sem_post(3).
pub(crate) fn sem_post(state: &mut State, pid: Pid, fd: u32) -> Answer
    ensures finish { Finishes (finish_of state.new.state result)
        ≡ ended state.old.state (defined.sem_post state.old.state pid.0 fd) }
    ensures held { state.new ≡ record state.old { state = state.new.state } }
{
    let found = open_semaphore(state, pid, fd)?;
    if found.value == SEM_VALUE_MAX {
        return Err(Errno::EOVERFLOW);
    }
    raise(state, found.number);
    Ok(Body::Empty)
}

/// sem_trywait(3), as sem_wait(3) has it.
pub(crate) fn sem_trywait(state: &mut State, pid: Pid, fd: u32) -> Answer
    ensures finish { Finishes (finish_of state.new.state result)
        ≡ ended state.old.state (defined.sem_trywait state.old.state pid.0 fd) }
    ensures held { state.new ≡ record state.old { state = state.new.state } }
{
    let found = open_semaphore(state, pid, fd)?;
    if found.value == 0 {
        return Err(Errno::EAGAIN);
    }
    lower(state, found.number);
    Ok(Body::Empty)
}

/// sem_getvalue(3).
pub(crate) fn sem_getvalue(state: &State, pid: Pid, fd: u32) -> Answer
    ensures { Finishes (finish_of state.now.state result)
        ≡ ended state.now.state (defined.sem_getvalue state.now.state pid.0 fd) }
{
    let found = open_semaphore(state, pid, fd)?;
    Ok(Body::Number(found.value))
}
