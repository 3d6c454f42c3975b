//! semop(2), and how many lists of operations wait for a semaphore. None takes memory.

ghost use Rattle.std.specs.Prelude.{◌≡◌, ◌^◌, ◌<◌, ◌≤◌, ℕ, ℤ, All, List, Some, Err, IfOk, IsTrue, OnOk, length, nat_eq};
ghost use Rattle.std.specs.Prelude.{slice_get, take, true, pos, ◌+◌, ◌≢◌, FitsSigned};
ghost use Rattle.std.specs.List.{fold, list_all};
ghost use Rattle.ipc_limits.specs.Limits.{ArePassed};
ghost use Rattle.ipc_base.specs.Table.{value_at};
ghost use Rattle.ipc_perm.specs.Perm.{may as may_use};
ghost use Rattle.ipc_wire.specs.SemBufs.{bytes_of};
ghost use Rattle.sysv_sem.specs.Operation.{has_undo, outcome, trial_of};
ghost use Rattle.sysv_sem.specs.Set.{Set, values_of};
ghost use Rattle.ipc_state.specs.Keyed.{KeyedEntry};
ghost use Rattle.ipc_state.specs.Finish.{Blocks, Finishes, ended, finish_of};
ghost use Rattle.ipc_state.specs.Sound.{HasSoundParts};
ghost use Rattle.ipc_state.specs.State.{cred_of, undo_of, with_undo};
ghost use Rattle.ipc_state.specs.Waiting.{parked_kind};
ghost use Rattle.ipc_state.specs.Steps.{attempted, plain_halt, seen};
ghost use Rattle.sysv_calls.specs.Semop as defined;
ghost use Rattle.sysv_calls.specs.Semop.{operation_of, operations_of, held_by, noted};
ghost use Rattle.sysv_calls.specs.Seen.{shown};
ghost use Rattle.sysv_calls.specs.Relations.{CanBeNoted, CanNote, CanPass, IsReady, Passes, noted_by, one_if_kept};
ghost use Rattle.std.specs.FinMap as fin;
ghost use Rattle.std.specs.Int.{w16};
ghost use Rattle.sem_undo.specs.Undo.{adjustment, IsSoundUndo};
ghost use Rattle.sysv_sem.specs.Trial.{adjustment_of};

use crate::access::gone;
use crate::sem::semaphore;
use bitflags::Flags;
use ipc_base::{Cred, Errno, Id, Pid, SemFlags};
use ipc_perm::{Access, Perm, may};
use ipc_state::{Answer, Halt, Operations, ParkedKind, ParkedSysv, State, operation_of};
use ipc_wire::{Body, SemBufs};
use sysv_sem::{Operation, OperationList, SemSet, Trial};

/// The most operations of a list, under any limits.
const MOST_OPERATIONS: usize = 32;

/// Room for the operations of a list.
const NO_OPERATIONS: [Operation; MOST_OPERATIONS] = [Operation {
    num: 0,
    sem_op: 0,
    flags: SemFlags(0),
}; MOST_OPERATIONS];

/// Credentials that no process has.
const NOBODY: Cred = Cred {
    uid: 65534,
    gid: 65534,
};

/// The operation at this place of a request; the first is at 0.
fn operation_at(operations: &SemBufs<'_>, place: usize) -> Operation
    requires { place < length (operations_of (bytes_of operations.now)) }
    ensures { slice_get (operations_of (bytes_of operations.now)) place ≡ Some result }
{
    operation_of(operations.at(place))
}

/// The operations of a request as they lie in it, for the process that asks.
#[derive(Clone, Copy)]
struct ListFor<'a> {
    state: &'a State,
    pid: Pid,
    id: Id,
    operations: SemBufs<'a>,
}

impl OperationList for ListFor<'_> {
    ghost operations = { λ a. operations_of (bytes_of a.operations) };

    ghost adjustments = { λ a. held_by a.state.now.state a.pid.0 a.id.0 };

    fn len(&self) -> usize {
        self.operations.len()
    }

    fn at(&self, place: usize) -> Operation {
        operation_at(&self.operations, place)
    }

    // Out of the walk, which is shorter without it.
    #[inline(never)]
    fn adjustment(&self, num: u16) -> i16 {
        self.state.adjustment(self.pid, self.id, num)
    }
}

/// Whether the semaphore of each is there.
fn are_within(nsems: usize, operations: &Operations) -> bool
    ensures { result ≡ defined.are_within nsems (operations_of operations.now.bytes.items) }
{
    operations.are_within(nsems)
}

/// Whether a caller may perform each of these: a zero operation reads its semaphore, and any other writes it.
fn are_allowed(cred: Cred, perm: &Perm, operations: &Operations) -> bool
    ensures { result ≡ list_all (λ o. may_use cred perm.now (defined.asked o))
        (operations_of operations.now.bytes.items) }
{
    let may_read = may(&cred, perm, Access::READ);
    let may_write = may(&cred, perm, Access::WRITE);
    (may_read | !operations.reads()) & (may_write | !operations.alters())
}

/// The set on which the operations of a request may be tried, by the tests of semop that need no look at each, as
/// semop(2) has them.
fn operable<'a>(
    state: &'a State,
    cred: Cred,
    again: bool,
    id: Id,
    operations: &Operations,
) -> Result<&'a SemSet, Halt>
    ensures tests { shown result ≡ seen (λ e. e.object) (defined.operable state.now.limits state.now.state cred again
        id.0 (operations_of operations.now.bytes.items)) }
    ensures within { IfOk result (λ set. All (λ o. o.num < length set.now.semaphores)
        (operations_of operations.now.bytes.items)) }
    ensures passed { OnOk result (ArePassed state.now.limits) }
{
    let count = operations.lend().len();
    if count == 0 {
        return Err(Halt::Fails(Errno::EINVAL));
    }
    let Some(entry) = state.semset().get(id.0) else {
        return Err(Halt::Fails(gone(again)));
    };
    if count > state.limits().semopm as usize {
        return Err(Halt::Fails(Errno::E2BIG));
    }
    if !are_within(entry.object.semaphores().len(), operations) {
        return Err(Halt::Fails(Errno::EFBIG));
    }
    if !are_allowed(cred, &entry.perm, operations) {
        return Err(Halt::Fails(Errno::EACCES));
    }
    Ok(&entry.object)
}

/// What the operations of a request of a process meet at their set. Each is looked at only if those before it pass.
fn try_on(set: &SemSet, state: &State, pid: Pid, id: Id, operations: &Operations) -> Trial
    requires { All (λ o. o.num < length set.now.semaphores) (operations_of operations.now.bytes.items) }
    ensures { result ≡ trial_of (outcome (values_of set.now) (held_by state.now.state pid.0 id.0)
        (operations_of operations.now.bytes.items)) }
{
    set.try_list(&ListFor {
        state,
        pid,
        id,
        operations: operations.lend(),
    })
}

/// What the operations of a request meet, if they may be tried.
fn try_operations(
    state: &State,
    cred: Cred,
    pid: Pid,
    again: bool,
    id: Id,
    operations: &Operations,
) -> Result<Trial, Halt>
    ensures tests { attempted result ≡ seen (λ found. trial_of found.1) (defined.tried_list state.now.limits
        state.now.state cred pid.0 again id.0 (operations_of operations.now.bytes.items)) }
{
    let set = operable(state, cred, again, id, operations)?;
    Ok(try_on(set, state, pid, id, operations))
}

/// Whether the last operation shows that the list has to wait: each is patient, and this one takes more than there is.
/// So a list that lacks its last semaphore alone is not walked through each time that another one changes.
fn lacks_its_last(set: &SemSet, operations: &Operations) -> bool
    requires { All (λ o. o.num < length set.now.semaphores) (operations_of operations.now.bytes.items) }
    ensures { IsTrue result → (held : ℕ → ℤ) → defined.decided (operations_of operations.now.bytes.items)
        (outcome (values_of set.now) held (operations_of operations.now.bytes.items)) ≡ Err Blocks }
{
    if !operations.are_patient() {
        return false;
    }
    let list = operations.lend();
    let count = list.len();
    count > 0 && set.lacks(operation_at(&list, count - 1))
}

/// What becomes of a list that this operation stops.
fn stopped_by(operation: &Operation) -> Halt
    ensures { plain_halt result ≡ defined.stopped_by (Some operation.now) }
{
    if operation.flags.contains(SemFlags::IPC_NOWAIT) {
        Halt::Fails(Errno::EAGAIN)
    } else {
        Halt::Blocks
    }
}

/// The adjustment at the semaphore of this number after an operation.
fn adjusted(operation: Operation, num: u16, adjustment: i16) -> i16
    requires { FitsSigned w16 (adjustment_of num adjustment operation) }
    ensures { result ≡ adjustment_of num adjustment operation }
{
    if operation.flags.contains(SemFlags::SEM_UNDO) && num == operation.num {
        adjustment - operation.sem_op
    } else {
        adjustment
    }
}

/// The adjustment of the process at the semaphore of this number after so many operations of its list.
fn adjustment_after(list: &ListFor<'_>, count: usize, num: u16) -> i16
    requires count { count ≤ length (operations_of (bytes_of list.now.operations)) }
    requires passes { CanPass list.now.state.now.state list.now.pid.0 list.now.id.0
        (operations_of (bytes_of list.now.operations)) }
    requires kept { IsSoundUndo (undo_of list.now.state.now.state list.now.pid.0) }
    ensures { result ≡ adjustment (noted_by list.now.state.now.state list.now.pid.0 list.now.id.0
        (operations_of (bytes_of list.now.operations)) count) (list.now.id.0, num) }
{
    let mut adjustment = list.adjustment(num);
    for place in 0..count {
        adjustment = adjusted(list.at(place), num, adjustment);
    }
    adjustment
}

/// How many adjustments there are when one has become another; 0 is none.
fn counted(count: u128, before: i16, after: i16) -> u128
    requires some { before ≢ pos 0 → 0 < count }
    requires room { count < 2 ^ 127 }
    ensures count { result + one_if_kept before ≡ count + one_if_kept after }
    ensures more { result ≤ count + 1 }
{
    match (before == 0, after == 0) {
        (false, true) => count - 1,
        (true, false) => count + 1,
        (true, true) => count,
        (false, false) => count,
    }
}

/// How many adjustments the process has after one operation more of its list, if it had so many before it.
fn count_after(list: &ListFor<'_>, place: usize, count: u128) -> u128
    requires place { place < length (operations_of (bytes_of list.now.operations)) }
    requires passes { CanPass list.now.state.now.state list.now.pid.0 list.now.id.0
        (operations_of (bytes_of list.now.operations)) }
    requires kept { IsSoundUndo (undo_of list.now.state.now.state list.now.pid.0) }
    requires count { count ≡ fin.len (noted_by list.now.state.now.state list.now.pid.0 list.now.id.0
        (operations_of (bytes_of list.now.operations)) place) }
    requires room { (count < 2 ^ 127) × (place + 1 < 2 ^ 64) }
    ensures count { result ≡ fin.len (noted_by list.now.state.now.state list.now.pid.0 list.now.id.0
        (operations_of (bytes_of list.now.operations)) (place + 1)) }
    ensures more { result ≤ count + 1 }
{
    let operation = list.at(place);
    if !operation.flags.contains(SemFlags::SEM_UNDO) {
        return count;
    }
    let before = adjustment_after(list, place, operation.num);
    let after = adjustment_after(list, place + 1, operation.num);
    counted(count, before, after)
}

/// How many adjustments that are not 0 the process has after its list.
fn count_noted(list: &ListFor<'_>) -> u128
    requires { CanPass list.now.state.now.state list.now.pid.0 list.now.id.0
        (operations_of (bytes_of list.now.operations)) }
    ensures { result ≡ fin.len (fold (noted list.now.id.0) (undo_of list.now.state.now.state list.now.pid.0)
        (operations_of (bytes_of list.now.operations))) }
{
    let mut count = u128::from(list.state.adjustment_count(list.pid));
    for place in 0..list.len() {
        count = count_after(list, place, count);
    }
    count
}

/// Whether the operations of a request, each of which passes, would leave their process with more adjustments that are
/// not 0 than their limit.
fn notes_too_many(state: &State, pid: Pid, id: Id, operations: &Operations) -> bool
    requires { CanPass state.now.state pid.0 id.0 (operations_of operations.now.bytes.items) }
    ensures { result ≡ defined.notes_too_many state.now.limits state.now.state pid.0 id.0
        (operations_of operations.now.bytes.items) }
{
    let list = ListFor {
        state,
        pid,
        id,
        operations: operations.lend(),
    };
    match state.limits().adjustment_limit() {
        None => false,
        Some(most) => u128::from(most) < count_noted(&list),
    }
}

/// Whether the operations of a request may be performed now, as semop(2) has it.
pub(crate) fn ready_to_operate(
    state: &State,
    cred: Cred,
    pid: Pid,
    again: bool,
    id: Id,
    operations: &Operations,
) -> Result<(), Halt>
    ensures tests { attempted result ≡ seen (λ found. tt) (defined.performable state.now.limits state.now.state cred
        pid.0 again id.0 (operations_of operations.now.bytes.items)) }
    ensures passed { OnOk result (ArePassed state.now.limits) }
{
    let set = operable(state, cred, again, id, operations)?;
    if lacks_its_last(set, operations) {
        return Err(Halt::Blocks);
    }
    match try_on(set, state, pid, id, operations) {
        Trial::Done => {
            if notes_too_many(state, pid, id, operations) {
                Err(Halt::Fails(Errno::ENOSPC))
            } else {
                Ok(())
            }
        }
        Trial::Blocks(at) => Err(stopped_by(&operation_at(&operations.lend(), at))),
        Trial::Fails(errno) => Err(Halt::Fails(errno)),
    }
}

/// Puts the operations of a request to the front of a buffer that has room for them.
fn put_operations(operations: &SemBufs<'_>, all: &mut [Operation])
    requires { length (operations_of (bytes_of operations.now)) ≤ length all.old }
    ensures operations { take (length (operations_of (bytes_of operations.now))) all.new
        ≡ operations_of (bytes_of operations.now) }
    ensures count { length all.new ≡ length all.old }
{
    for place in 0..operations.len() {
        all[place] = operation_at(operations, place);
    }
}

/// Performs the operations of a request, which may be performed.
pub(crate) fn operate(state: &mut State, pid: Pid, id: Id, operations: &SemBufs<'_>)
    requires sound { HasSoundParts state.old.limits state.old.state }
    requires ready { IsReady state.old.limits state.old.state pid.0 id.0 (operations_of (bytes_of operations.now)) }
    ensures { (found : KeyedEntry Set × List ℕ)
        → Passes state.old.limits state.old.state pid.0 id.0 (operations_of (bytes_of operations.now)) found
        → state.new ≡ record state.old {
          state = defined.operated state.old.state pid.0 id.0 (operations_of (bytes_of operations.now)) found;
        } }
{
    let mut all = NO_OPERATIONS;
    put_operations(operations, &mut all);
    let all = &all[..operations.len()];
    let now = state.clock();
    let set = state.semset_mut(id).unwrap();
    set.carry(all, pid, now);
    note_undo(state, pid, id, all);
}

/// Notes what is undone of these operations when their process exits.
fn note_undo(state: &mut State, pid: Pid, id: Id, operations: &[Operation])
    requires { CanBeNoted state.old.state pid.0 id.0 operations.now }
    ensures { state.new ≡ record state.old {
      state = with_undo state.old.state pid.0
          (fold (noted id.0) (undo_of state.old.state pid.0) operations.now);
    } }
{
    for operation in operations {
        note_operation(state, pid, id, operation);
    }
}

/// Notes what is undone of an operation when its process, which has adjustments, exits.
fn note_operation(state: &mut State, pid: Pid, id: Id, operation: &Operation)
    requires there { value_at nat_eq state.old.state.undo pid.0 ≡ Some (undo_of state.old.state pid.0) }
    requires can { has_undo operation.now ≡ true → CanNote id.0 (undo_of state.old.state pid.0) operation.now }
    ensures { state.new ≡ record state.old {
      state = with_undo state.old.state pid.0
          (noted id.0 (undo_of state.old.state pid.0) operation.now);
    } }
{
    if operation.flags.contains(SemFlags::SEM_UNDO) {
        state.subtract(pid, id, operation.num, operation.sem_op);
    }
}

/// How many lists wait now for a semaphore of a set to become 0, or to have more.
fn count_stopped(state: &State, zero: bool, id: Id, num: u16) -> u32
    requires { length state.now.state.wait < 2 ^ 32 }
    ensures { result ≡ defined.count_stopped state.now.limits state.now.state zero id.0 num }
{
    let mut count = 0;
    for waiting in state.waits() {
        let is_one = is_stopped(state, zero, id, num, waiting.pid, waiting.call.kind());
        count += u32::from(is_one);
    }
    count
}

/// Whether a call that waits is a list on this set that such an operation stops now.
fn is_stopped(state: &State, zero: bool, id: Id, num: u16, pid: Pid, call: &ParkedKind) -> bool
    ensures { result ≡ defined.is_stopped state.now.limits state.now.state zero id.0 num pid.0
        (parked_kind call.now) }
{
    let ParkedKind::Sysv(
        ParkedSysv::Semop {
            id: other,
            operations,
            ..
        },
    ) = call
    else {
        return false;
    };
    *other == id && is_stopping(state, zero, id, num, pid, operations)
}

/// The user and the group of a process; those of nobody if none has the number.
fn cred_of(state: &State, pid: Pid) -> Cred
    ensures { result ≡ cred_of state.now.state pid.0 }
{
    if !state.has_process(pid) {
        return NOBODY;
    }
    state.cred(pid)
}

/// Whether such an operation stops this list now.
fn is_stopping(
    state: &State,
    zero: bool,
    id: Id,
    num: u16,
    pid: Pid,
    operations: &Operations,
) -> bool
    ensures { result ≡ defined.is_of zero num (defined.stopping (operations_of operations.now.bytes.items)
        (defined.tried_list state.now.limits state.now.state (cred_of state.now.state pid.0) pid.0 true id.0
        (operations_of operations.now.bytes.items))) }
{
    let cred = cred_of(state, pid);
    match try_operations(state, cred, pid, true, id, operations) {
        Ok(Trial::Blocks(at)) => is_of(zero, num, &operation_at(&operations.lend(), at)),
        Ok(Trial::Done) => false,
        Ok(Trial::Fails(_)) => false,
        Err(_) => false,
    }
}

/// Whether it is a zero operation, or one that takes away, on the semaphore of this number.
fn is_of(zero: bool, num: u16, operation: &Operation) -> bool
    ensures { result ≡ defined.is_of zero num (Some operation.now) }
{
    let is_wanted = if zero {
        operation.sem_op == 0
    } else {
        operation.sem_op < 0
    };
    operation.num == num && is_wanted
}

/// GETNCNT and GETZCNT of semctl(2).
pub(crate) fn semctl_getcnt(state: &State, cred: Cred, zero: bool, id: Id, num: u32) -> Answer
    requires sound { HasSoundParts state.now.limits state.now.state }
    ensures { Finishes (finish_of state.now.state result)
        ≡ ended state.now.state (defined.semctl_getcnt state.now.limits state.now.state cred zero id.0 num) }
{
    semaphore(state, cred, id, num, Access::READ)?;
    Ok(Body::Number(count_stopped(state, zero, id, num as u16)))
}
