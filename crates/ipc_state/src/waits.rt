//! The calls that wait.

ghost use Rattle.std.specs.Prelude.{◌≡◌, ◌<◌, ◌≤◌, ◌-◌, ◌^◌, ◌↔◌, ◌∷◌, [], Some, true, false, All, IsTrue, OnOk};
ghost use Rattle.std.specs.Prelude.{IfSome, IfNone, length};
ghost use Rattle.ipc_state.specs.Restored.{with_waits};
ghost use Rattle.ipc_state.specs.State.{at_moment, due_calls, is_waiting, with_waiting, without_due, without_waiting};
ghost use Rattle.ipc_state.specs.Touching.{object_of};
ghost use Rattle.ipc_state.specs.Waiting.{AreSoundWaits, IsSoundWaiting, has_deadline};
ghost use Rattle.ipc_wait.specs.Waits.{waiting_call_of, next_deadline};

use crate::parked::{Awaited, Object, ObjectKind, Parked};
use crate::state::State;
use ipc_base::{Moment, Pid};
use ipc_wait::{WaitList, Waiting};
use std::alloc::AllocError;

impl State {
    /// The calls that wait, in the order in which they came.
    pub fn waits(&self) -> &[Waiting<Awaited, Parked>]
        ensures { result.now ≡ self.now.state.wait }
    {
        self.wait.calls()
    }

    /// Whether a call of the process waits.
    pub fn is_waiting(&self, pid: Pid) -> bool
        ensures { result ≡ is_waiting self.now.state pid.0 }
    {
        self.wait.is_waiting(pid)
    }

    /// The earliest deadline of the calls that wait. This takes no longer with more calls.
    pub fn next_deadline(&self) -> Option<Moment>
        ensures { result ≡ next_deadline self.now.state.wait }
    {
        self.wait.next_deadline()
    }

    /// The object that a request of the process names, if it names one: what its descriptor is open on, if the number
    /// is in use. An identifier names an object, whether there is one or not.
    pub fn object_of(&self, pid: Pid, awaited: Awaited) -> Option<Object>
        ensures { result ≡ object_of self.now.state pid.0 awaited }
    {
        match awaited {
            Awaited::MsgQueue(id) => Some(Object {
                kind: ObjectKind::MsgQueue,
                number: id.0,
            }),
            Awaited::Semset(id) => Some(Object {
                kind: ObjectKind::Semset,
                number: id.0,
            }),
            Awaited::Descriptor(fd) => match self.descriptor(pid, fd) {
                Some(descriptor) => Some(descriptor.on),
                None => None,
            },
        }
    }

    /// Takes the memory for a call of each process that there may be.
    pub fn reserve_waits(&mut self) -> Result<(), AllocError>
        ensures held { self.new ≡ record self.old { waits = self.new.waits } }
        ensures ok { OnOk result (self.old.limits.processes ≤ self.new.waits) }
    {
        self.wait.reserve(self.limits.processes as usize)
    }

    /// Whether a call of the process still waits when this moment comes: it does now, and its deadline has not come
    /// then.
    pub fn still_waits(&self, pid: Pid, moment: Moment) -> bool
        ensures { result ≡ is_waiting (without_due (at_moment self.now.state moment.0)) pid.0 }
    {
        self.wait
            .waits_past(pid, Moment(self.clock.0.max(moment.0)))
    }

    /// Puts a call at the end of those that wait; its process has none there. It takes no memory.
    pub fn enter_wait(&mut self, waiting: Waiting<Awaited, Parked>)
        requires place { length self.old.state.wait < self.old.waits }
        requires free { is_waiting self.old.state waiting.pid.0 ≡ false }
        ensures { self.new ≡ record self.old { state = with_waiting self.old.state waiting } }
    {
        self.wait.enter(waiting);
    }

    /// Takes out the call of a process that waits, and gives it. The others stay in order.
    pub fn leave_wait(&mut self, pid: Pid) -> Option<Waiting<Awaited, Parked>>
        ensures call { result ≡ waiting_call_of pid self.old.state.wait }
        ensures held { self.new ≡ record self.old { state = without_waiting self.old.state pid.0 } }
    {
        self.wait.leave(pid)
    }

    /// Takes out the first call whose deadline has come, and gives it. If none has, this takes no longer with more
    /// calls.
    pub fn leave_due(&mut self) -> Option<Waiting<Awaited, Parked>>
        ensures none { IfNone result ((due_calls self.old.state ≡ []) × (self.new ≡ self.old)) }
        ensures first { IfSome result (λ w. due_calls self.old.state ≡ w ∷ due_calls self.new.state) }
        ensures call { IfSome result (λ w. waiting_call_of w.pid self.old.state.wait ≡ Some w) }
        ensures held { IfSome result (λ w. self.new
            ≡ record self.old { state = without_waiting self.old.state w.pid.0 }) }
    {
        let Some(due) = self.wait.first_due(self.clock) else {
            return None;
        };
        let pid = due.pid;
        self.wait.leave(pid)
    }

    /// The calls that wait are these, which were read. It takes no memory.
    pub fn restore_waits(&mut self, waits: WaitList<Awaited, Parked>)
        ensures state { self.new.state ≡ with_waits self.old.state waits.calls }
        ensures limits { self.new.limits ≡ self.old.limits }
    {
        self.wait = waits;
    }

    /// Whether the calls that wait are sound.
    pub(crate) fn are_waits_sound(&self) -> bool
        ensures { IsTrue result ↔ AreSoundWaits self.now.limits self.now.state.wait }
    {
        self.wait.len() <= self.limits.processes as usize && are_sound(self.wait.calls())
    }
}

/// Whether each of these calls is sound.
fn are_sound(calls: &[Waiting<Awaited, Parked>]) -> bool
    ensures { IsTrue result ↔ All IsSoundWaiting calls.now }
{
    for waiting in calls {
        if !is_sound(waiting) {
            return false;
        }
    }
    true
}

/// Whether a call may have this deadline.
fn may_have(call: &Parked, deadline: Option<Moment>) -> bool
    ensures { IsTrue result
        ↔ IfSome deadline (λ d. (has_deadline call.now.kind ≡ true) × (d.0 < 2 ^ 64 - 1)) }
{
    match deadline {
        Some(deadline) => call.has_deadline() && deadline.0 < u64::MAX,
        None => true,
    }
}

fn is_sound(waiting: &Waiting<Awaited, Parked>) -> bool
    ensures { IsTrue result ↔ IsSoundWaiting waiting.now }
{
    waiting.call.awaited() == waiting.on && may_have(&waiting.call, waiting.deadline)
}
