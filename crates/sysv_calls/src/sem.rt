//! The calls on semaphore sets: semget(2), semctl(2). None takes memory in its attempt.

ghost use Rattle.std.specs.Prelude.{◌≡◌, ◌+◌, ◌*◌, ◌^◌, ◌<◌, ◌≤◌, ◌++◌, false, None, IsOk, OnOk, OnErr};
ghost use Rattle.std.specs.Prelude.{length, map, take, vec_len, vec_capacity};
ghost use Rattle.ipc_limits.specs.Limits.{ArePassed};
ghost use Rattle.ipc_base.specs.Numbers.{record_bytes};
ghost use Rattle.ipc_base.specs.declared.field.Field.TheVariants.{U16};
ghost use Rattle.ipc_wire.specs.Values.{bytes_of, numbers_in};
ghost use Rattle.ipc_state.specs.Finish.{Finishes, ended, finish_of};
ghost use Rattle.ipc_state.specs.Held.{Ready, left};
ghost use Rattle.ipc_state.specs.Keyed.{keyed};
ghost use Rattle.ipc_state.specs.Numbered.{entry_of};
ghost use Rattle.ipc_state.specs.Sound.{HasSoundParts};
ghost use Rattle.sysv_calls.specs.Needs.{is_something, semset_place};
ghost use Rattle.sysv_calls.specs.Records.{set_fields};
ghost use Rattle.ipc_state.specs.Steps.{result_of, seen};
ghost use Rattle.sysv_calls.specs.Sem as defined;
ghost use Rattle.ipc_state.specs.Spare.{IsSpare, KeepsBuffer};

use crate::access::{accessible, lookup, owned, push_perm};
use ipc_base::{Cred, Errno, Field, GetFlags, Id, Pid};
use ipc_limits::Limits;
use ipc_perm::{Access, Perm, may};
use ipc_state::{Answer, Keyed, State, take_spare};
use ipc_wire::{Body, Values, push_fields};
use std::alloc::AllocError;
use sysv_sem::{MOST_VALUE, SemSet, Semaphore};

/// The most semaphores of a set, under any limits.
const MOST_SEMAPHORES: usize = 64;

/// Takes the memory of a new set of so many semaphores, if there can be one.
pub(crate) fn reserve_set(state: &mut State, key: i32, nsems: i32) -> Result<(), AllocError>
    ensures ok { OnOk result (state.new ≡ record state.old { ready = semset_place key nsems }) }
    ensures err { OnErr result (state.new ≡ left state.old state.old.state) }
    ensures memory { is_something (semset_place key nsems) ≡ false → IsOk result }
{
    if nsems < 1 || nsems as usize > MOST_SEMAPHORES {
        state.release();
        return Ok(());
    }
    state.reserve_semset(key, nsems as usize)
}

/// semget(2). What is reserved for a set that is not made is given back.
pub(crate) fn semget(state: &mut State, cred: Cred, key: i32, nsems: i32, flags: GetFlags) -> Answer
    requires sound { HasSoundParts state.old.limits state.old.state }
    requires ready { state.old.ready ≡ semset_place key nsems }
    ensures finish { Finishes (finish_of state.new.state result) ≡ ended state.old.state
        (defined.semget state.old.limits state.old.state cred key nsems flags.0) }
    ensures held { state.new ≡ left state.old state.new.state }
{
    let answer = get_set(state, cred, key, nsems, flags);
    state.release();
    answer
}

/// The set that a key names, or a new one.
fn get_set(state: &mut State, cred: Cred, key: i32, nsems: i32, flags: GetFlags) -> Answer
    requires sound { HasSoundParts state.old.limits state.old.state }
    requires ready { state.old.ready ≡ semset_place key nsems }
    ensures finish { Finishes (finish_of state.new.state result) ≡ ended state.old.state
        (defined.semget state.old.limits state.old.state cred key nsems flags.0) }
    ensures held { state.new ≡ record state.old { state = state.new.state; ready = state.new.ready } }
{
    let Some(count) = count_of(state.limits(), nsems) else {
        return Err(Errno::EINVAL);
    };
    let Some(id) = lookup(state.semset(), key, flags)? else {
        return make_set(state, cred, key, count, flags);
    };
    if has_fewer(state.semset(), id, count) {
        return Err(Errno::EINVAL);
    }
    accessible(state.semset(), cred, false, id, Access::asked_by(flags.0))?;
    Ok(Body::Number(id.0))
}

/// How many semaphores a set has of which so many are wanted, if it may have as many.
fn count_of(limits: &Limits, nsems: i32) -> Option<usize>
    ensures { result ≡ defined.count_of limits.now nsems }
{
    if nsems < 0 || nsems as u32 > limits.semmsl {
        return None;
    }
    Some(nsems as usize)
}

/// Whether the set of an identifier has fewer semaphores.
fn has_fewer(sets: &Keyed<SemSet>, id: Id, count: usize) -> bool
    ensures { result ≡ defined.has_fewer (entry_of sets.now.objects id.0) count }
{
    match sets.get(id.0) {
        Some(entry) => entry.object.semaphores().len() < count,
        None => false,
    }
}

/// A new set of so many semaphores.
fn make_set(state: &mut State, cred: Cred, key: i32, count: usize, flags: GetFlags) -> Answer
    requires sound { HasSoundParts state.old.limits state.old.state }
    requires unused { keyed state.old.state.semset key ≡ None }
    requires ready { 0 < count → state.old.ready ≡ Ready.Semset key count }
    ensures finish { Finishes (finish_of state.new.state result) ≡ ended state.old.state
        (defined.made_set state.old.limits state.old.state cred key flags.0 count) }
    ensures held { state.new ≡ record state.old { state = state.new.state; ready = state.new.ready } }
{
    if count == 0 {
        return Err(Errno::EINVAL);
    }
    if state.semset().is_full(state.limits().semmni) {
        return Err(Errno::ENOSPC);
    }
    if !state.may_have_more(count) {
        return Err(Errno::ENOSPC);
    }
    Ok(Body::Number(state.add_semset(Perm::new(cred, flags.0)).0))
}

/// A semaphore of a set, for a caller that may use it so.
pub(crate) fn semaphore(
    state: &State,
    cred: Cred,
    id: Id,
    num: u32,
    access: Access,
) -> Result<Semaphore, Errno>
    ensures found { result_of result
        ≡ seen (λ found. found.1) (defined.semaphore state.now.state cred id.0 num access.0) }
    ensures passed { OnOk result (ArePassed state.now.limits) }
{
    let Some(entry) = state.semset().get(id.0) else {
        return Err(Errno::EINVAL);
    };
    let Some(semaphore) = entry.object.semaphores().get(num as usize) else {
        return Err(Errno::EINVAL);
    };
    if !may(&cred, &entry.perm, access) {
        return Err(Errno::EACCES);
    }
    Ok(*semaphore)
}

/// GETVAL of semctl(2).
pub(crate) fn semctl_getval(state: &State, cred: Cred, id: Id, num: u32) -> Answer
    ensures { Finishes (finish_of state.now.state result)
        ≡ ended state.now.state (defined.semctl_getval state.now.state cred id.0 num) }
{
    let semaphore = semaphore(state, cred, id, num, Access::READ)?;
    Ok(Body::Number(u32::from(semaphore.value)))
}

/// GETPID of semctl(2).
pub(crate) fn semctl_getpid(state: &State, cred: Cred, id: Id, num: u32) -> Answer
    ensures { Finishes (finish_of state.now.state result)
        ≡ ended state.now.state (defined.semctl_getpid state.now.state cred id.0 num) }
{
    let semaphore = semaphore(state, cred, id, num, Access::READ)?;
    Ok(Body::Number(semaphore.pid.0))
}

/// SETVAL of semctl(2). No process has an adjustment there any more.
pub(crate) fn semctl_setval(
    state: &mut State,
    cred: Cred,
    pid: Pid,
    id: Id,
    num: u32,
    value: i32,
) -> Answer
    requires sound { HasSoundParts state.old.limits state.old.state }
    ensures finish { Finishes (finish_of state.new.state result) ≡ ended state.old.state
        (defined.semctl_setval state.old.state cred pid.0 id.0 num value) }
    ensures held { state.new ≡ record state.old { state = state.new.state } }
{
    semaphore(state, cred, id, num, Access::WRITE)?;
    let Some(value) = value_of(value) else {
        return Err(Errno::ERANGE);
    };
    let now = state.clock();
    let set = state.semset_mut(id).unwrap();
    let num = num as u16;
    set.set_value(num, value, pid, now);
    state.clear_adjustments(id, Some(num));
    Ok(Body::Empty)
}

/// A value that a semaphore may have.
fn value_of(value: i32) -> Option<u16>
    ensures { result ≡ defined.value_of value }
{
    if value < 0 || value > i32::from(MOST_VALUE) {
        return None;
    }
    Some(value as u16)
}

/// GETALL of semctl(2); the values are put into the spare buffer.
pub(crate) fn semctl_getall(state: &State, cred: Cred, id: Id, spare: &mut Vec<u8>) -> Answer
    requires sound { HasSoundParts state.now.limits state.now.state }
    requires spare { IsSpare state.now.limits spare.old }
    ensures finish { Finishes (finish_of state.now.state result)
        ≡ ended state.now.state (defined.semctl_getall state.now.state cred id.0) }
    ensures spare { KeepsBuffer state.now.limits spare.new result }
{
    let entry = accessible(state.semset(), cred, false, id, Access::READ)?;
    let mut body = take_spare(spare);
    push_values(&mut body, entry.object.semaphores());
    Ok(Body::Record(body))
}

/// Adds the values of semaphores to a body that has room for them.
fn push_values(body: &mut Vec<u8>, semaphores: &[Semaphore])
    requires { vec_len body.old + 2 * length semaphores.now ≤ vec_capacity body.old }
    ensures bytes { body.new.items ≡ body.old.items ++ record_bytes (map (λ x. U16 x.value) semaphores.now) }
    ensures room { vec_capacity body.old ≤ vec_capacity body.new }
{
    for semaphore in semaphores {
        push_fields(body, &[Field::U16(semaphore.value)]);
    }
}

/// SETALL of semctl(2). No process has an adjustment at the set any more.
pub(crate) fn semctl_setall(
    state: &mut State,
    cred: Cred,
    pid: Pid,
    id: Id,
    values: &Values<'_>,
) -> Answer
    requires sound { HasSoundParts state.old.limits state.old.state }
    ensures finish { Finishes (finish_of state.new.state result) ≡ ended state.old.state
        (defined.semctl_setall state.old.state cred pid.0 id.0 (bytes_of values.now)) }
    ensures held { state.new ≡ record state.old { state = state.new.state } }
{
    ready_to_set(state, cred, id, values)?;
    let mut all = [0; MOST_SEMAPHORES];
    put_values(values, &mut all);
    let now = state.clock();
    let set = state.semset_mut(id).unwrap();
    set.set_all(&all[..values.len()], pid, now);
    state.clear_adjustments(id, None);
    Ok(Body::Empty)
}

/// Whether all values of a set may be set to these: the tests of SETALL, as semctl(2) has it.
fn ready_to_set(state: &State, cred: Cred, id: Id, values: &Values<'_>) -> Result<(), Errno>
    ensures tests { result_of result
        ≡ seen (λ e. tt) (defined.settable state.now.state cred id.0 (numbers_in (bytes_of values.now))) }
    ensures passed { OnOk result (ArePassed state.now.limits) }
{
    let Some(entry) = state.semset().get(id.0) else {
        return Err(Errno::EINVAL);
    };
    if values.len() != entry.object.semaphores().len() {
        return Err(Errno::EINVAL);
    }
    if !may(&cred, &entry.perm, Access::WRITE) {
        return Err(Errno::EACCES);
    }
    if !are_values(values) {
        return Err(Errno::ERANGE);
    }
    Ok(())
}

/// Whether each is a value that a semaphore may have.
fn are_values(values: &Values<'_>) -> bool
    ensures { result ≡ defined.are_values (numbers_in (bytes_of values.now)) }
{
    for place in 0..values.len() {
        if values.at(place) > MOST_VALUE {
            return false;
        }
    }
    true
}

/// Puts the values to the front of a buffer that has room for them.
fn put_values(values: &Values<'_>, all: &mut [u16])
    requires { length (numbers_in (bytes_of values.now)) ≤ length all.old }
    ensures { take (length (numbers_in (bytes_of values.now))) all.new ≡ numbers_in (bytes_of values.now) }
{
    for place in 0..values.len() {
        all[place] = values.at(place);
    }
}

/// IPC_STAT of semctl(2); the record is made in the spare buffer.
pub(crate) fn semctl_stat(state: &State, cred: Cred, id: Id, spare: &mut Vec<u8>) -> Answer
    requires sound { HasSoundParts state.now.limits state.now.state }
    requires spare { IsSpare state.now.limits spare.old }
    ensures finish { Finishes (finish_of state.now.state result)
        ≡ ended state.now.state (defined.semctl_stat state.now.state cred id.0) }
    ensures spare { KeepsBuffer state.now.limits spare.new result }
{
    let entry = accessible(state.semset(), cred, false, id, Access::READ)?;
    let mut body = take_spare(spare);
    push_perm(&mut body, entry, entry.perm.mode);
    push_set(&mut body, &entry.object);
    Ok(Body::Record(body))
}

/// Adds the numbers of a set to a body that has room for them.
fn push_set(body: &mut Vec<u8>, set: &SemSet)
    requires room { vec_len body.old + 20 ≤ vec_capacity body.old }
    requires few { length set.now.semaphores < 2 ^ 32 }
    ensures bytes { body.new.items ≡ body.old.items ++ record_bytes (set_fields set.now) }
    ensures room { vec_capacity body.old ≤ vec_capacity body.new }
{
    let stat = set.stat();
    push_fields(
        body,
        &[
            Field::U64(stat.otime.0),
            Field::U64(stat.ctime.0),
            Field::U32(stat.nsems as u32),
        ],
    );
}

/// IPC_SET of semctl(2).
pub(crate) fn semctl_set(
    state: &mut State,
    cred: Cred,
    id: Id,
    uid: u32,
    gid: u32,
    mode: u32,
) -> Answer
    ensures finish { Finishes (finish_of state.new.state result) ≡ ended state.old.state
        (defined.semctl_set state.old.state cred id.0 uid gid mode) }
    ensures held { state.new ≡ record state.old { state = state.new.state } }
{
    let perm = owned(state.semset(), cred, id)?.perm;
    let now = state.clock();
    state.set_semset_perm(id, perm.owned_by(uid, gid, mode));
    state.semset_mut(id).unwrap().set(now);
    Ok(Body::Empty)
}

/// IPC_RMID of semctl(2). The adjustments at the set go with it.
pub(crate) fn semctl_rmid(state: &mut State, cred: Cred, id: Id) -> Answer
    requires { HasSoundParts state.old.limits state.old.state }
    ensures finish { Finishes (finish_of state.new.state result)
        ≡ ended state.old.state (defined.semctl_rmid state.old.state cred id.0) }
    ensures ok { OnOk result (state.new ≡ left state.old state.new.state) }
    ensures err { OnErr result (state.new ≡ state.old) }
{
    owned(state.semset(), cred, id)?;
    state.remove_semset(id);
    state.clear_adjustments(id, None);
    Ok(Body::Empty)
}
