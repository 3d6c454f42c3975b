//! The list of the calls that wait.

ghost use Rattle.std.specs.Prelude.{◌≡◌, ◌<◌, ◌≤◌, ◌↔◌, ◌++◌, ◌∷◌, [], Some, None, is_some, IsTrue};
ghost use Rattle.std.specs.Prelude.{IsOk, OnOk, IfOk, IfSome, IfNone, length, slice_get, find, position};
ghost use Rattle.std.specs.Option.{option_copied};
ghost use Rattle.ipc_wait.specs.Waits.{HaveDistinctPids, is_of, waiting_call_of, without, calls_on, is_due};
ghost use Rattle.ipc_wait.specs.Waits.{calls_due, calls_left, has_come, earlier, next_deadline};

use crate::of::Of;
use crate::pids::{place_in, put_in, sorted_pids};
use ipc_base::{Moment, Pid};
use std::alloc::{AllocError, Global};
use std::marker::Model;

/// A call that waits: of which process, on which object, until when (`None`: without end), and the
/// call itself.
#[derive(Drop)]
pub struct Waiting<O, C> {
    pub pid: Pid,
    pub on: O,
    pub deadline: Option<Moment>,
    pub call: C,
}

impl<O, C> Waiting<O, C> {
    /// Whether its deadline is at or before the moment.
    pub fn is_due(&self, now: Moment) -> bool
        ensures { result ≡ is_due now self.now }
    {
        has_come(now, self.deadline)
    }
}

/// The calls that wait, in the order in which they came, of each process one at most. A contract sees
/// the calls, and for how many there is room. Whether a process has a call, a binary search finds,
/// however many wait: `is_waiting` does no more, nor do `get` and `leave` if the process has none. If
/// it has one, these two look through the calls.
#[derive(Drop)]
pub struct WaitList<O, C> {
    calls: Vec<Waiting<O, C>>,
    pids: Vec<Pid>,
    earliest: Option<Moment>,
}

impl<O, C> Model for WaitList<O, C> {
    ghost use Rattle.std.specs.Prelude.{◌≡◌, min, vec_capacity};
    ghost use Rattle.ipc_wait.specs.Waits.{Waits, next_deadline, HaveDistinctPids};
    ghost use Rattle.ipc_wait.specs.Relations.{IsIndexOf};

    ghost Value = { Waits O C };

    ghost view = { λ w. record {
      calls = w.calls.items;
      room = min (vec_capacity w.calls) (vec_capacity w.pids);
    } };

    ghost invariant = { λ w. (w.earliest ≡ next_deadline w.calls.items)
        × HaveDistinctPids w.calls.items × IsIndexOf w.calls.items w.pids.items };
}

impl<O: Copy + Eq, C: Drop> WaitList<O, C> {
    /// No calls. It takes no memory.
    pub fn new(alloc: Global) -> WaitList<O, C>
        ensures { result.calls ≡ [] }
    {
        WaitList {
            calls: Vec::new(alloc),
            pids: Vec::new(alloc),
            earliest: None,
        }
    }

    /// These calls; none, only if two are of one process. Refused only for want of memory.
    pub fn from_calls(
        alloc: Global,
        calls: Vec<Waiting<O, C>>,
    ) -> Result<Option<WaitList<O, C>>, AllocError>
        ensures some { IfOk result (λ r. IfSome r (λ list. list.calls ≡ calls.items)) }
        ensures none { IfOk result (λ r. IfNone r (¬ HaveDistinctPids calls.items)) }
    {
        let Some(pids) = sorted_pids(alloc, &calls)? else {
            return Ok(None);
        };
        let earliest = earliest_of(&calls);
        Ok(Some(WaitList {
            calls,
            pids,
            earliest,
        }))
    }

    /// The calls, in order.
    pub fn calls(&self) -> &[Waiting<O, C>]
        ensures calls { result.now ≡ self.now.calls }
        ensures pids { HaveDistinctPids self.now.calls }
    {
        &self.calls
    }

    /// How many calls wait.
    pub fn len(&self) -> usize
        ensures len { result ≡ length self.now.calls }
        ensures pids { HaveDistinctPids self.now.calls }
    {
        self.calls.len()
    }

    /// Whether none waits.
    pub fn is_empty(&self) -> bool
        ensures { IsTrue result ↔ (self.now.calls ≡ []) }
    {
        self.calls.is_empty()
    }

    /// Makes room for so many calls in all. Refused for want of memory, and then the calls are as before
    /// and no room is lost; never refused if the room is there.
    pub fn reserve(&mut self, most: usize) -> Result<(), AllocError>
        ensures calls { self.new.calls ≡ self.old.calls }
        ensures ok { OnOk result (most ≤ self.new.room) }
        ensures room { self.old.room ≤ self.new.room }
        ensures succeeds { most ≤ self.old.room → IsOk result }
    {
        let more = most.saturating_sub(self.calls.len());
        self.calls.reserve(more)?;
        self.pids.reserve(more)
    }

    /// Puts a call at the end; its process has none. It takes no memory: there is room.
    pub fn enter(&mut self, waiting: Waiting<O, C>)
        requires room { length self.old.calls < self.old.room }
        requires free { waiting_call_of waiting.pid self.old.calls ≡ None }
        ensures calls { self.new.calls ≡ self.old.calls ++ waiting ∷ [] }
        ensures room { self.new.room ≡ self.old.room }
    {
        self.earliest = earlier(self.earliest, waiting.deadline);
        put_in(&mut self.pids, waiting.pid);
        self.calls.push_reserved(waiting);
    }

    /// The earliest deadline of the calls that wait.
    pub fn next_deadline(&self) -> Option<Moment>
        ensures { result ≡ next_deadline self.now.calls }
    {
        self.earliest
    }

    /// The call at a place, the first at 0.
    pub fn at(&self, place: usize) -> &Waiting<O, C>
        requires { place < length self.now.calls }
        ensures at { slice_get self.now.calls place ≡ Some result.now }
        ensures found { waiting_call_of result.now.pid self.now.calls ≡ Some result.now }
    {
        &self.calls[place]
    }

    /// The call of a process.
    pub fn get(&self, pid: Pid) -> Option<&Waiting<O, C>>
        ensures { option_copied result ≡ waiting_call_of pid self.now.calls }
    {
        if !self.is_waiting(pid) {
            return None;
        }
        call_among(&self.calls, pid)
    }

    /// Whether a call of the process waits.
    pub fn is_waiting(&self, pid: Pid) -> bool
        ensures { result ≡ is_some (waiting_call_of pid self.now.calls) }
    {
        place_in(&self.pids, pid).is_some()
    }

    /// Whether a call of the process waits on when this moment comes: its deadline is later, or none.
    pub fn waits_past(&self, pid: Pid, now: Moment) -> bool
        ensures { result ≡ is_some (waiting_call_of pid (calls_left now self.now.calls)) }
    {
        let Some(_) = place_in(&self.pids, pid) else {
            return false;
        };
        match call_among(&self.calls, pid) {
            Some(waiting) => !waiting.is_due(now),
            None => false,
        }
    }

    /// The calls on the object, in order.
    pub fn of(&self, on: O) -> Of<'_, O, C>
        ensures calls { result ≡ calls_on O.eq on self.now.calls }
        ensures pids { HaveDistinctPids self.now.calls }
    {
        Of::new(&self.calls, on)
    }

    /// The first call whose deadline is at or before the moment. If it leaves, those that are due after it
    /// are left. If none is due, this takes no longer with more calls: it looks at the earliest deadline
    /// alone.
    pub fn first_due(&self, now: Moment) -> Option<&Waiting<O, C>>
        ensures none { IfNone result (calls_due now self.now.calls ≡ []) }
        ensures first { IfSome result (λ w. calls_due now self.now.calls
            ≡ w.now ∷ calls_due now (without w.now.pid self.now.calls)) }
        ensures found { IfSome result (λ w. waiting_call_of w.now.pid self.now.calls ≡ Some w.now) }
    {
        if !has_come(now, self.earliest) {
            return None;
        }
        first_of(&self.calls, now)
    }

    /// Removes the call of a process, and gives it. The others stay in order.
    pub fn leave(&mut self, pid: Pid) -> Option<Waiting<O, C>>
        ensures call { result ≡ waiting_call_of pid self.old.calls }
        ensures others { self.new.calls ≡ without pid self.old.calls }
        ensures room { self.new.room ≡ self.old.room }
    {
        let index = place_in(&self.pids, pid)?;
        let place = place_of(&self.calls, pid)?;
        self.pids.remove(index);
        let left = self.calls.remove(place);
        self.earliest = earliest_of(&self.calls);
        Some(left)
    }

    /// Removes all calls. The room stays.
    pub fn clear(&mut self)
        ensures calls { self.new.calls ≡ [] }
        ensures room { self.new.room ≡ self.old.room }
    {
        self.calls.clear();
        self.pids.clear();
        self.earliest = None;
    }
}

/// The earlier of two deadlines.
fn earlier(a: Option<Moment>, b: Option<Moment>) -> Option<Moment>
    ensures { result ≡ earlier a b }
{
    match (a, b) {
        (Some(first), Some(second)) if second.0 < first.0 => b,
        (Some(_), _) => a,
        (None, _) => b,
    }
}

/// Whether a deadline is at or before the moment.
fn has_come(now: Moment, deadline: Option<Moment>) -> bool
    ensures { result ≡ has_come now deadline }
{
    match deadline {
        Some(deadline) => deadline.0 <= now.0,
        None => false,
    }
}

/// The call of a process among these.
fn call_among<O, C>(calls: &[Waiting<O, C>], pid: Pid) -> Option<&Waiting<O, C>>
    ensures { option_copied result ≡ waiting_call_of pid calls.now }
{
    calls.iter().find(|w| w.pid == pid)
}

/// The place of the call of a process.
fn place_of<O, C>(calls: &[Waiting<O, C>], pid: Pid) -> Option<usize>
    ensures { result ≡ position (is_of pid) calls.now }
{
    calls.iter().position(|w| w.pid == pid)
}

/// The first of these calls that is due.
fn first_of<O, C>(calls: &[Waiting<O, C>], now: Moment) -> Option<&Waiting<O, C>>
    ensures { option_copied result ≡ find (is_due now) calls.now }
{
    calls.iter().find(|w| has_come(now, w.deadline))
}

/// The earliest deadline of these calls.
fn earliest_of<O, C>(calls: &[Waiting<O, C>]) -> Option<Moment>
    ensures { result ≡ next_deadline calls.now }
{
    let mut soonest = None;
    for waiting in calls {
        soonest = earlier(soonest, waiting.deadline);
    }
    soonest
}
