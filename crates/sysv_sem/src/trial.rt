//! Whether a list of operations can be performed, and its performance.

ghost use Rattle.std.specs.Prelude.{◌≡◌, ◌<◌, ◌≤◌, ℕ, true, length, take, map};
ghost use Rattle.std.specs.Prelude.{All, slice_index, FitsSigned};
ghost use Rattle.std.specs.Int.{w16};
ghost use Rattle.std.specs.List.{fold};
ghost use Rattle.sysv_sem.specs.Bits.{AreNamed};
ghost use Rattle.sysv_sem.specs.Operation.{most_value, performed, adjusted, has_undo, outcome, trial_of};
ghost use Rattle.sysv_sem.specs.Trial.{value_of, adjustment_of, changed_by};

use crate::bits::bit_of;
use crate::list::OperationList;
use crate::operation::{Operation, Trial, Verdict, value_after};
use crate::set::Semaphore;
use ipc_base::{Errno, Pid};

/// What the operations of a list meet at these values. Each is judged at what those before it leave of its semaphore,
/// so no other semaphore is looked at. If no two name the same one, this takes a time that rises with their count.
// A function of its own, so that its loop has the registers to itself.
#[inline(never)]
pub(crate) fn try_list<L: OperationList>(semaphores: &[Semaphore], list: &L) -> Trial
    requires values { All (λ x. x.value ≤ most_value) semaphores.now }
    requires nums { All (λ o. o.num < length semaphores.now) (L.operations list.now) }
    ensures { result ≡ trial_of (outcome (map (λ x. x.value) semaphores.now) (L.adjustments list.now)
        (L.operations list.now)) }
{
    let mut named = 0;
    for place in 0..list.len() {
        let operation = list.at(place);
        let value = value_before(semaphores, operation.num, list, place, named);
        let adjustment = adjustment_before(operation, list, place, named);
        named |= bit_of(u32::from(operation.num));
        match operation.judge(value, adjustment) {
            Verdict::Passes => {}
            Verdict::Waits => return Trial::Blocks(place),
            Verdict::OutOfRange => return Trial::Fails(Errno::ERANGE),
        }
    }
    Trial::Done
}

/// The value of a semaphore after so many operations of a list, whose semaphores are named. They are looked at only if
/// one of them may name this one.
fn value_before<L: OperationList>(
    semaphores: &[Semaphore],
    num: u16,
    list: &L,
    count: usize,
    named: u64,
) -> u16
    requires num { num < length semaphores.now }
    requires count { count ≤ length (L.operations list.now) }
    requires named { AreNamed named (take count (L.operations list.now)) }
    requires range { (k : ℕ) → k ≤ count → slice_index (fold performed (map (λ x. x.value) semaphores.now)
        (take k (L.operations list.now))) num ≤ most_value }
    ensures { result ≡ slice_index (fold performed (map (λ x. x.value) semaphores.now)
        (take count (L.operations list.now))) num }
{
    let value = semaphores[num as usize].value;
    if named & bit_of(u32::from(num)) == 0 {
        value
    } else {
        value_of(value, num, list, count)
    }
}

/// The adjustment at the semaphore of an operation after so many operations of its list, whose semaphores are named. It
/// matters only to an operation that is undone: for any other it is not looked for, and 0 stands for it.
fn adjustment_before<L: OperationList>(
    operation: Operation,
    list: &L,
    count: usize,
    named: u64,
) -> i16
    requires count { count ≤ length (L.operations list.now) }
    requires named { AreNamed named (take count (L.operations list.now)) }
    requires range { (k : ℕ) → k ≤ count → FitsSigned w16 (L.adjustments list.now operation.num)
        → FitsSigned w16 (fold adjusted (L.adjustments list.now) (take k (L.operations list.now)) operation.num) }
    ensures { has_undo operation ≡ true
        → result ≡ fold adjusted (L.adjustments list.now) (take count (L.operations list.now)) operation.num }
{
    if !operation.has_undo() {
        return 0;
    }
    let num = operation.num;
    let adjustment = list.adjustment(num);
    if named & bit_of(u32::from(num)) == 0 {
        adjustment
    } else {
        adjustment_of(adjustment, num, list, count)
    }
}

/// The value of a semaphore after so many operations of a list.
// Few lists name a semaphore twice, and the walk over the others is shorter without this.
#[cold]
#[inline(never)]
fn value_of<L: OperationList>(mut value: u16, num: u16, list: &L, count: usize) -> u16
    requires count { count ≤ length (L.operations list.now) }
    requires range { (k : ℕ) → k ≤ count
        → fold (value_of num) value (take k (L.operations list.now)) ≤ most_value }
    ensures { result ≡ fold (value_of num) value (take count (L.operations list.now)) }
{
    for place in 0..count {
        value = list.at(place).change(num, value);
    }
    value
}

/// The adjustment of a semaphore after so many operations of a list.
// As rare.
#[cold]
#[inline(never)]
fn adjustment_of<L: OperationList>(mut adjustment: i16, num: u16, list: &L, count: usize) -> i16
    requires count { count ≤ length (L.operations list.now) }
    requires range { (k : ℕ) → k ≤ count
        → FitsSigned w16 (fold (adjustment_of num) adjustment (take k (L.operations list.now))) }
    ensures { result ≡ fold (adjustment_of num) adjustment (take count (L.operations list.now)) }
{
    for place in 0..count {
        adjustment = list.at(place).adjust(num, adjustment);
    }
    adjustment
}

/// Performs the operations, each of which passes, and notes who did.
pub(crate) fn perform(semaphores: &mut [Semaphore], operations: &[Operation], pid: Pid)
    requires nums { All (λ o. o.num < length semaphores.old) operations.now }
    requires range { (k n : ℕ) → k ≤ length operations.now
        → slice_index (fold performed (map (λ x. x.value) semaphores.old) (take k operations.now)) n ≤ most_value }
    ensures { semaphores.new ≡ fold (changed_by pid) semaphores.old operations.now }
{
    for operation in operations {
        let num = operation.num as usize;
        let value = value_after(semaphores[num].value, operation.sem_op);
        semaphores[num] = Semaphore { value, pid };
    }
}
