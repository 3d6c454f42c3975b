//! One operation of semop(2): what it does to the value of its semaphore.

ghost use Rattle.std.specs.Prelude.{◌≡◌, ◌≤◌, FitsSigned};
ghost use Rattle.std.specs.Int.{w16};
ghost use Rattle.sysv_sem.specs.Operation.{must_wait, value_after, has_undo, is_adjustment, judged, most_value};
ghost use Rattle.sysv_sem.specs.Operation.{is_patient, takes_more};
ghost use Rattle.sysv_sem.specs.Trial.{adjustment_of, value_of};

use bitflags::Flags;
use ipc_base::{Errno, SemFlags};

/// The most that a semaphore's value may be, SEMVMX of semctl(2), and the most that an adjustment may be
/// above or below 0.
pub const MOST_VALUE: u16 = 32767;

/// An operation on a semaphore, of this number in its set. See semop(2).
#[derive(Clone, Copy, Debug, PartialEq, Eq)]
pub struct Operation {
    pub num: u16,
    pub sem_op: i16,
    pub flags: SemFlags,
}

/// What one operation meets.
#[derive(Clone, Copy, Debug, PartialEq, Eq)]
pub enum Verdict {
    /// It can be performed.
    Passes,
    /// It has to wait until the value is another.
    Waits,
    /// The value or the adjustment would be out of range.
    OutOfRange,
}

/// What a list of operations meets. See semop(2).
#[derive(Clone, Copy, Debug, PartialEq, Eq)]
pub enum Trial {
    /// Each operation can be performed.
    Done,
    /// The operation at this position of the list has to wait, and so the list.
    Blocks(usize),
    /// The list is refused.
    Fails(Errno),
}

impl Operation {
    /// What the operation meets at this value of its semaphore, and at this adjustment, of its process.
    pub(crate) fn judge(self, value: u16, adjustment: i16) -> Verdict
        requires { value ≤ most_value }
        ensures { result ≡ judged value adjustment self }
    {
        if must_wait(value, self.sem_op) {
            Verdict::Waits
        } else if value_after(value, self.sem_op) > MOST_VALUE {
            Verdict::OutOfRange
        } else if self.has_undo()
            && !is_adjustment(i32::from(adjustment) - i32::from(self.sem_op))
        {
            Verdict::OutOfRange
        } else {
            Verdict::Passes
        }
    }

    /// The value of the semaphore of this number after the operation.
    pub(crate) fn change(self, num: u16, value: u16) -> u16
        requires { value ≤ most_value }
        ensures { result ≡ value_of num value self }
    {
        if num == self.num {
            value_after(value, self.sem_op)
        } else {
            value
        }
    }

    /// The adjustment of the semaphore of this number after the operation.
    pub(crate) fn adjust(self, num: u16, adjustment: i16) -> i16
        requires { FitsSigned w16 (adjustment_of num adjustment self) }
        ensures { result ≡ adjustment_of num adjustment self }
    {
        if self.has_undo() && num == self.num {
            adjustment - self.sem_op
        } else {
            adjustment
        }
    }

    /// Whether it takes more than this value.
    pub(crate) fn takes_more_than(self, value: u16) -> bool
        ensures { result ≡ takes_more value self.sem_op }
    {
        takes_more(value, self.sem_op)
    }

    /// Whether it gives nothing, is not undone when its process exits, and waits if it cannot proceed.
    pub fn is_patient(self) -> bool
        ensures { result ≡ is_patient self }
    {
        self.sem_op <= 0 && !self.has_undo() && !self.flags.contains(SemFlags::IPC_NOWAIT)
    }

    /// Whether it is undone when its process exits.
    pub(crate) fn has_undo(self) -> bool
        ensures { result ≡ has_undo self }
    {
        self.flags.contains(SemFlags::SEM_UNDO)
    }
}

/// Whether an operation has to wait at this value.
fn must_wait(value: u16, sem_op: i16) -> bool
    ensures { result ≡ must_wait value sem_op }
{
    if sem_op == 0 {
        value != 0
    } else {
        takes_more(value, sem_op)
    }
}

/// Whether an operation takes more than this value.
fn takes_more(value: u16, sem_op: i16) -> bool
    ensures { result ≡ takes_more value sem_op }
{
    sem_op < 0 && value < sem_op.unsigned_abs()
}

/// The value with a number added to it, or 0 if that is below 0.
pub(crate) fn value_after(value: u16, sem_op: i16) -> u16
    requires { value ≤ most_value }
    ensures { result ≡ value_after value sem_op }
{
    if sem_op < 0 {
        value.saturating_sub(sem_op.unsigned_abs())
    } else {
        value + sem_op as u16
    }
}

/// Whether an adjustment may be so much.
fn is_adjustment(adjustment: i32) -> bool
    ensures { result ≡ is_adjustment adjustment }
{
    -32767 <= adjustment && adjustment <= 32767
}
