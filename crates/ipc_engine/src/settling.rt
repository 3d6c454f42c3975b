//! Calls that waited go on when what they wait for has changed.

ghost use Rattle.std.specs.Prelude.{◌≡◌, ◌+◌, ◌*◌, ◌≤◌, ◌↔◌, true, false, Some, None, All, IsTrue};
ghost use Rattle.std.specs.Prelude.{find, length, vec_capacity};
ghost use Rattle.ipc_state.specs.Sound.{HasSoundParts};
ghost use Rattle.ipc_state.specs.State.{is_process};
ghost use Rattle.ipc_state.specs.Touching.{object_of};
ghost use Rattle.ipc_state.specs.Waiting.{IsSoundWaiting, PlainWaiting};
ghost use Rattle.ipc_engine.specs.Buffer.{room_in};
ghost use Rattle.ipc_engine.specs.Does.{Does};
ghost use Rattle.sysv_calls.specs.Concern.{change_of, concerns, joined};
ghost use Rattle.ipc_engine.specs.Settling.{AreLinked, IsFirst, MayBe, OthersWait, RestWaits, SparedWait};
ghost use Rattle.ipc_engine.specs.Sound.{HasToWait};
ghost use Rattle.ipc_engine.specs.Step.{can_resume, resumed, settle as settled};

use crate::event::Outcome;
use crate::replies::push_reply;
use crate::trying::{change_of, concerns, has_to_wait, try_kept};
use ipc_base::Pid;
use ipc_state::{Awaited, Object, Parked, State, Tried};
use ipc_wait::Waiting;
use sysv_calls::Change;

/// Calls that wait on the object that has changed go on: the first that can, and after it all are looked at again. If
/// nothing has changed, none can. Those that the change does not concern are not tried. It takes no memory.
pub(crate) fn settle(
    state: &mut State,
    outcomes: &mut Vec<Outcome>,
    touched: Option<Object>,
    change: Change,
)
    requires parts { HasSoundParts state.old.limits state.old.state }
    requires linked { AreLinked state.old.state }
    requires others { OthersWait state.old.limits state.old.state touched }
    requires spared { SparedWait state.old.limits state.old.state change }
    requires room { length outcomes.old.items + 2 * length state.old.state.wait ≤ vec_capacity outcomes.old }
    ensures does { Does (settled state.old.limits state.old.state) state.old
        state.new outcomes.old outcomes.new }
    ensures buffer { room_in outcomes.old.items ≤ room_in outcomes.new.items }
{
    let Some(on) = touched else {
        return;
    };
    settle_among(state, outcomes, Some(on), change);
}

/// Any object may have changed: calls that wait go on, the first that can, and after it all are looked at again. If
/// none has changed, none can. It takes no memory.
pub(crate) fn settle_all(state: &mut State, outcomes: &mut Vec<Outcome>, may_have_changed: bool)
    requires parts { HasSoundParts state.old.limits state.old.state }
    requires linked { AreLinked state.old.state }
    requires others { may_have_changed ≡ false → OthersWait state.old.limits state.old.state None }
    requires room { length outcomes.old.items + 2 * length state.old.state.wait ≤ vec_capacity outcomes.old }
    ensures does { Does (settled state.old.limits state.old.state) state.old
        state.new outcomes.old outcomes.new }
    ensures buffer { room_in outcomes.old.items ≤ room_in outcomes.new.items }
{
    if !may_have_changed {
        return;
    }
    settle_among(state, outcomes, None, Change::Anything);
}

/// Calls go on that wait on this object, or on any, if the change concerns them, or what a call changes that goes on
/// before them.
fn settle_among(
    state: &mut State,
    outcomes: &mut Vec<Outcome>,
    among: Option<Object>,
    mut change: Change,
)
    requires parts { HasSoundParts state.old.limits state.old.state }
    requires linked { AreLinked state.old.state }
    requires rest { RestWaits state.old.limits state.old.state among }
    requires spared { SparedWait state.old.limits state.old.state change }
    requires room { length outcomes.old.items + 2 * length state.old.state.wait ≤ vec_capacity outcomes.old }
    ensures does { Does (settled state.old.limits state.old.state) state.old
        state.new outcomes.old outcomes.new }
    ensures buffer { room_in outcomes.old.items ≤ room_in outcomes.new.items }
{
    for gone in 0..state.waits().len() {
        let Some(pid) = first_to_go(state, among, change) else {
            return;
        };
        change = change.and(resume(state, outcomes, pid));
    }
}

/// The process of the first call that can go on, which waits on this object, or on any.
fn first_to_go(state: &State, among: Option<Object>, change: Change) -> Option<Pid>
    requires parts { HasSoundParts state.now.limits state.now.state }
    requires linked { AreLinked state.now.state }
    requires rest { RestWaits state.now.limits state.now.state among }
    requires spared { SparedWait state.now.limits state.now.state change }
    ensures { IsFirst (can_resume state.now.limits state.now.state) state.now.state.wait result }
{
    first_among(state, among, change, state.waits())
}

/// The first of these waiting calls that can go on and waits on this object, or on any: its process.
fn first_among(
    state: &State,
    among: Option<Object>,
    change: Change,
    calls: &[Waiting<Awaited, Parked>],
) -> Option<Pid>
    requires sound { All IsSoundWaiting calls.now }
    requires linked { All (λ w. is_process state.now.state w.pid.0 ≡ true) calls.now }
    requires rest { All (λ w. ¬ MayBe among (object_of state.now.state w.pid.0 w.on)
        → can_resume state.now.limits state.now.state w ≡ false) calls.now }
    requires spared { All (λ w. concerns change w.call.kind ≡ false
        → can_resume state.now.limits state.now.state w ≡ false) calls.now }
    ensures { IsFirst (can_resume state.now.limits state.now.state) calls.now result }
{
    for waiting in calls {
        if can_go(state, among, change, waiting) {
            return Some(waiting.pid);
        }
    }
    None
}

/// Whether a call can go on, which has to wait if it waits on an object that has not changed, or if the change does not
/// concern it.
fn can_go(
    state: &State,
    among: Option<Object>,
    change: Change,
    waiting: &Waiting<Awaited, Parked>,
) -> bool
    requires sound { IsSoundWaiting waiting.now }
    requires process { is_process state.now.state waiting.now.pid.0 ≡ true }
    requires other { ¬ MayBe among (object_of state.now.state waiting.now.pid.0 waiting.now.on)
        → can_resume state.now.limits state.now.state waiting.now ≡ false }
    requires spared { concerns change waiting.now.call.kind ≡ false
        → can_resume state.now.limits state.now.state waiting.now ≡ false }
    ensures { result ≡ can_resume state.now.limits state.now.state waiting.now }
{
    concerns(change, &waiting.call)
        && may_be(state, waiting, among)
        && !has_to_wait(state, waiting.pid, &waiting.call)
}

/// Whether a call waits on this object, or on any.
fn may_be(state: &State, waiting: &Waiting<Awaited, Parked>, among: Option<Object>) -> bool
    ensures { IsTrue result ↔ MayBe among (object_of state.now.state waiting.now.pid.0 waiting.now.on) }
{
    match among {
        Some(_) => among == state.object_of(waiting.pid, waiting.on),
        None => true,
    }
}

/// The call of a process, which is the first that can go on, leaves the list and is answered. Gives what it changes.
fn resume(state: &mut State, outcomes: &mut Vec<Outcome>, pid: Pid) -> Change
    requires parts { HasSoundParts state.old.limits state.old.state }
    requires linked { AreLinked state.old.state }
    requires first { IsFirst (can_resume state.old.limits state.old.state) state.old.state.wait (Some pid) }
    requires room { length outcomes.old.items + 2 ≤ vec_capacity outcomes.old }
    ensures does { (w : PlainWaiting)
        → find (can_resume state.old.limits state.old.state) state.old.state.wait ≡ Some w
        → Does (resumed state.old.limits state.old.state w) state.old state.new outcomes.old outcomes.new }
    ensures change { (w : PlainWaiting)
        → find (can_resume state.old.limits state.old.state) state.old.state.wait ≡ Some w
        → result ≡ change_of w.call.kind }
    ensures buffer { room_in outcomes.old.items ≤ room_in outcomes.new.items }
{
    let Some(waiting) = state.leave_wait(pid) else {
        return Change::Anything;
    };
    let change = change_of(&waiting.call.lend());
    let serial = waiting.call.serial();
    match try_kept(state, pid, true, waiting.call) {
        Tried::Finishes(answer, fired) => push_reply(outcomes, pid, serial, answer, fired),
        Tried::Waits(_parked) => {}
    }
    change
}

/// Whether each call that waits is one of a connected process, and has to.
pub(crate) fn all_have_to_wait(state: &State) -> bool
    requires { HasSoundParts state.now.limits state.now.state }
    ensures { IsTrue result ↔ All (HasToWait state.now.limits state.now.state) state.now.state.wait }
{
    all_have_place(state, state.waits())
}

/// Whether each of these waiting calls is one of a connected process, and has to wait.
fn all_have_place(state: &State, calls: &[Waiting<Awaited, Parked>]) -> bool
    requires { All IsSoundWaiting calls.now }
    ensures { IsTrue result ↔ All (HasToWait state.now.limits state.now.state) calls.now }
{
    for waiting in calls {
        if !has_place(state, waiting) {
            return false;
        }
    }
    true
}

/// Whether a call is one of a connected process, its deadline has not come, and it has to wait.
fn has_place(state: &State, waiting: &Waiting<Awaited, Parked>) -> bool
    requires { IsSoundWaiting waiting.now }
    ensures { IsTrue result ↔ HasToWait state.now.limits state.now.state waiting.now }
{
    state.has_process(waiting.pid)
        && !waiting.is_due(state.clock())
        && has_to_wait(state, waiting.pid, &waiting.call)
}
