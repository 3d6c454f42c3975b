//! A semaphore set.

ghost use Rattle.std.specs.Prelude.{◌≡◌, ◌<◌, ◌≤◌, ℕ, ℤ, List, Some, length, map, replicate};
ghost use Rattle.std.specs.Prelude.{IfOk, IsTrue, OnOk, OnErr, All, slice_index, slice_get, true};
ghost use Rattle.sysv_sem.specs.Operation.{most_value, gives_nothing, outcome, takes_more, trial_of, Blocks, Done};
ghost use Rattle.sysv_sem.specs.Trial.{CanBeDone};

use crate::list::OperationList;
use crate::operation::{MOST_VALUE, Operation, Trial, value_after};
use crate::trial;
use ipc_base::{Moment, Pid};
use std::alloc::{AllocError, Global};
use std::marker::Model;

/// The numbers of a set, as semctl(2) tells them.
#[derive(Clone, Copy, Debug, PartialEq, Eq)]
pub struct SemStat {
    /// How many semaphores there are.
    pub nsems: usize,
    /// When the last list of operations was performed, and the last change by semctl(2); 0 for never.
    pub otime: Moment,
    pub ctime: Moment,
}

/// A semaphore of a set: its value, of at most 32767, and who changed it last, 0 for nobody.
#[derive(Clone, Copy, Debug, PartialEq, Eq)]
pub struct Semaphore {
    pub value: u16,
    pub pid: Pid,
}

/// A semaphore that nobody changed.
const UNCHANGED: Semaphore = Semaphore {
    value: 0,
    pid: Pid(0),
};

/// A semaphore set: of each semaphore its value, of at most 32767, and who changed it last. But for `new`
/// and `restore`, no call takes memory.
#[derive(Drop)]
pub struct SemSet {
    semaphores: Vec<Semaphore>,
    otime: Moment,
    ctime: Moment,
}

impl Model for SemSet {
    ghost use Rattle.std.specs.Prelude.{◌≤◌, All};
    ghost use Rattle.sysv_sem.specs.Operation.{most_value};
    ghost use Rattle.sysv_sem.specs.Set.{Set};

    ghost Value = { Set };

    ghost view = { λ s. record {
      semaphores = s.semaphores.items;
      otime = s.otime.0;
      ctime = s.ctime.0;
    } };

    ghost invariant = { λ s. All (λ x. x.value ≤ most_value) s.semaphores.items };
}

impl SemSet {
    ghost use Rattle.sysv_sem.specs.Set.{new_set, carried, with_value, with_values, changed, after_exit, stat_of};
    ghost use Rattle.sysv_sem.specs.Set.{values_of, pids_of, empty_set, with_semaphore};

    /// A set of so many semaphores, each of value 0. Refused for want of memory.
    pub fn new(alloc: Global, nsems: usize, ctime: Moment) -> Result<SemSet, AllocError>
        ensures { IfOk result (λ set. set ≡ new_set nsems ctime.0) }
    {
        Ok(SemSet {
            semaphores: vec![in alloc; UNCHANGED; nsems]?,
            otime: Moment(0),
            ctime,
        })
    }

    /// Makes it a set as new, of as many semaphores. It takes no memory.
    pub fn renew(&mut self, ctime: Moment)
        ensures { self.new ≡ new_set (length self.old.semaphores) ctime.0 }
    {
        reset(&mut self.semaphores);
        self.otime = Moment(0);
        self.ctime = ctime;
    }

    /// A set without semaphores whose times are known. It takes no memory.
    pub fn restored(alloc: Global, otime: Moment, ctime: Moment) -> SemSet
        ensures { result ≡ empty_set otime.0 ctime.0 }
    {
        SemSet {
            semaphores: Vec::new(alloc),
            otime,
            ctime,
        }
    }

    /// Adds a semaphore that was read, at the end. Refused for want of memory, the set is as before.
    pub fn restore(&mut self, semaphore: Semaphore) -> Result<(), AllocError>
        requires { semaphore.value ≤ most_value }
        ensures ok { OnOk result (self.new ≡ with_semaphore self.old semaphore) }
        ensures err { OnErr result (self.new ≡ self.old) }
    {
        self.semaphores.reserve(1)?;
        self.semaphores.push_reserved(semaphore);
        Ok(())
    }

    /// What a list of operations meets; nothing is changed. Up to the operation that stops it, it looks at the
    /// semaphores that the list names and at no other, and at the adjustments of operations that are undone.
    pub fn try_list<L: OperationList>(&self, list: &L) -> Trial
        requires { All (λ o. o.num < length self.now.semaphores) (L.operations list.now) }
        ensures { result ≡ trial_of (outcome (values_of self.now) (L.adjustments list.now) (L.operations list.now)) }
    {
        trial::try_list(&self.semaphores, list)
    }

    /// Whether an operation takes more than its semaphore has. A list whose operations give nothing, of which one takes
    /// more than there is, has to wait, whatever its other operations are.
    pub fn lacks(&self, operation: Operation) -> bool
        requires { operation.num < length self.now.semaphores }
        ensures exact { result ≡ takes_more (slice_index (values_of self.now) operation.num) operation.sem_op }
        ensures waits { IsTrue result → (held : ℕ → ℤ) (operations : List Operation) (at : ℕ)
            → slice_get operations at ≡ Some operation → All (λ o. gives_nothing o ≡ true) operations
            → (stop : ℕ) × (outcome (values_of self.now) held operations ≡ Blocks stop) }
    {
        operation.takes_more_than(self.semaphores[operation.num as usize].value)
    }

    /// Performs a list of operations, each of which passes, and notes who did and when.
    pub fn carry(&mut self, operations: &[Operation], pid: Pid, now: Moment)
        requires nums { All (λ o. o.num < length self.old.semaphores) operations.now }
        requires passes { CanBeDone (values_of self.old) operations.now }
        ensures { (held after : ℕ → ℤ) (values : List ℕ)
            → outcome (values_of self.old) held operations.now ≡ Done values after
            → self.new ≡ carried self.old values operations.now pid now.0 }
    {
        trial::perform(&mut self.semaphores, operations, pid);
        self.otime = now;
    }

    /// Sets the value of one semaphore, and notes who did and when. See SETVAL of semctl(2).
    pub fn set_value(&mut self, num: u16, value: u16, pid: Pid, now: Moment)
        requires num { num < length self.old.semaphores }
        requires value { value ≤ most_value }
        ensures { self.new ≡ with_value self.old num value pid now.0 }
    {
        self.semaphores[num as usize] = Semaphore { value, pid };
        self.ctime = now;
    }

    /// Sets the values of all semaphores, and notes who did and when. See SETALL of semctl(2).
    pub fn set_all(&mut self, values: &[u16], pid: Pid, now: Moment)
        requires count { length values.now ≡ length self.old.semaphores }
        requires values { All (λ v. v ≤ most_value) values.now }
        ensures { self.new ≡ with_values self.old values.now pid now.0 }
    {
        write_all(&mut self.semaphores, values, pid);
        self.ctime = now;
    }

    /// Notes when the set was changed. See IPC_SET of semctl(2).
    pub fn set(&mut self, now: Moment)
        ensures { self.new ≡ changed self.old now.0 }
    {
        self.ctime = now;
    }

    /// Adds the adjustment of a process that exits, up to the ends of a value's range, and notes who did;
    /// no time is noted. See semop(2).
    pub fn adjust(&mut self, num: u16, adjustment: i16, pid: Pid)
        requires { num < length self.old.semaphores }
        ensures { self.new ≡ after_exit self.old num adjustment pid }
    {
        let value = value_after(self.semaphores[num as usize].value, adjustment).min(MOST_VALUE);
        self.semaphores[num as usize] = Semaphore { value, pid };
    }

    /// The value of a semaphore.
    pub fn value(&self, num: u16) -> u16
        requires { num < length self.now.semaphores }
        ensures value { result ≡ slice_index (values_of self.now) num }
        ensures range { result ≤ most_value }
    {
        self.semaphores[num as usize].value
    }

    /// Who changed a semaphore last, 0 for nobody.
    pub fn pid(&self, num: u16) -> Pid
        requires { num < length self.now.semaphores }
        ensures { slice_get (pids_of self.now) num ≡ Some result }
    {
        self.semaphores[num as usize].pid
    }

    /// The semaphores, by their number.
    pub fn semaphores(&self) -> &[Semaphore]
        ensures semaphores { result.now ≡ self.now.semaphores }
        ensures range { All (λ x. x.value ≤ most_value) result.now }
    {
        &self.semaphores
    }

    /// Its numbers.
    pub fn stat(&self) -> SemStat
        ensures { result ≡ stat_of self.now }
    {
        SemStat {
            nsems: self.semaphores.len(),
            otime: self.otime,
            ctime: self.ctime,
        }
    }
}

// Each semaphore is one that nobody changed.
fn reset(semaphores: &mut [Semaphore])
    ensures { semaphores.new ≡ replicate (length semaphores.old) (record { value = 0; pid = record { 0 = 0 } }) }
{
    for at in 0..semaphores.len() {
        semaphores[at] = UNCHANGED;
    }
}

// Each semaphore has the value at its place, and this process changed it.
fn write_all(semaphores: &mut [Semaphore], values: &[u16], pid: Pid)
    requires { length values.now ≡ length semaphores.old }
    ensures { semaphores.new ≡ map (λ v. record { value = v; pid = pid }) values.now }
{
    for at in 0..values.len() {
        semaphores[at] = Semaphore {
            value: values[at],
            pid,
        };
    }
}
