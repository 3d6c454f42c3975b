//! What a process asks: its calls, one at a time, and INTERRUPT; and that it leaves.

ghost use Rattle.std.specs.Prelude.{◌≡◌, ◌+◌, ◌*◌, ◌<◌, ◌≤◌, ◌++◌, ◌&&◌, ◌||◌, true, false, if◌then◌else◌};
ghost use Rattle.std.specs.Prelude.{Some, None};
ghost use Rattle.std.specs.Prelude.{length, map, not, vec_capacity};
ghost use Rattle.std.specs.Result.{is_ok};
ghost use Rattle.ipc_wait.specs.Waits.{waiting_call_of};
ghost use Rattle.ipc_wire.specs.Request.{plain_kind};
ghost use Rattle.ipc_wire.specs.View.{plain_request};
ghost use Rattle.ipc_state.proofs.CallerLemmas.{IsGood};
ghost use Rattle.ipc_state.specs.declared.parked.Object.{Object as PlainObject};
ghost use Rattle.ipc_state.specs.Finish.{finish_firing, refused};
ghost use Rattle.ipc_state.specs.State.{State as PlainState, exit, is_process, is_waiting};
ghost use Rattle.ipc_state.specs.Touching.{changes_by_exit};
ghost use Rattle.ipc_state.specs.Waiting.{awaited_by, may_wait};
ghost use Rattle.ipc_state.specs.Spare.{IsSpare, room_in as room_in_answer};
ghost use Rattle.ipc_engine.specs.Buffer.{HasBuffer, room_in};
ghost use Rattle.ipc_engine.specs.Changes.{HasMarked, changes_by_call, changes_if_done};
ghost use Rattle.ipc_engine.specs.Changes.{is_marked, is_one, most_objects};
ghost use Rattle.ipc_engine.specs.Does.{Does, emptied};
ghost use Rattle.ipc_engine.specs.Idle.{asks_idle, ends_idle, is_late};
ghost use Rattle.ipc_engine.specs.Reserved.{IsReserved, needs};
ghost use Rattle.ipc_engine.specs.Settling.{HaveSameObjects, OthersWait, SparedWait, touched_by};
ghost use Rattle.ipc_engine.specs.Sound.{IsSound};
ghost use Rattle.ipc_engine.specs.Step.{after, asked, called, interrupt as interrupt_step, interrupted, joins};
ghost use Rattle.ipc_engine.specs.Step.{replied, settle as settled, replied_or_joined, tried};
ghost use Rattle.ipc_engine.specs.View.{plain_outcome};

use crate::changed::{Changed, may_leave_changes};
use crate::event::Outcome;
use crate::replies::{push, push_reply, reply_to};
use crate::settling::{settle, settle_all};
use crate::trying::{change_of, only_asks, touched_by, try_at_once, try_kept};
use ipc_base::{Errno, Pid};
use ipc_state::{Answer, Object, Parked, State, Tried};
use ipc_wait::Waiting;
use ipc_wire::{Body, Request, RequestKind};
use posix_mq::Registration;
use sysv_calls::Change;

/// What a process is told at a request whose memory is reserved. It takes none. Answers whether the request is idle: it
/// changes nothing.
pub(crate) fn ask(
    state: &mut State,
    outcomes: &mut Vec<Outcome>,
    spare: &mut Vec<u8>,
    changed: &mut Changed,
    pid: Pid,
    request: &Request<'_>,
    kept: Option<Parked>,
) -> bool
    requires sound { IsSound state.old.limits state.old.state }
    requires process { is_process state.old.state pid.0 ≡ true }
    requires reserved { IsReserved (is_waiting state.old.state pid.0) state.old.ready
        (plain_request request.now) kept }
    requires waits { state.old.limits.processes ≤ state.old.waits }
    requires places { length outcomes.old.items + 2 * (length state.old.state.wait + 1) ≤ vec_capacity outcomes.old }
    requires spare { IsSpare state.old.limits spare.old }
    requires marks { 2 * most_objects state.old.limits < vec_capacity changed.old.marks }
    ensures does { Does (asked state.old.limits pid.0 (plain_request request.now)
        (plain_request request.now).kind state.old.state) (emptied state.old)
        state.new outcomes.old outcomes.new }
    ensures buffer { HasBuffer state.old.limits spare.new outcomes.new.items }
    ensures marked { HasMarked state.old.state
        (changes_by_call state.old.limits state.old.state pid.0 (plain_kind request.now.kind))
        changed.old.marks.items changed.new.marks.items }
    ensures room { vec_capacity changed.old.marks ≤ vec_capacity changed.new.marks }
    ensures idle { result ≡ asks_idle state.old.limits state.old.state pid.0 (plain_request request.now)
        (plain_request request.now).kind }
{
    match &request.kind {
        RequestKind::Hello(_) => {
            refuse(outcomes, pid, request.serial, Errno::EPROTO);
            true
        }
        RequestKind::Interrupt => interrupt(state, outcomes, pid, request.serial),
        RequestKind::Sysv(_) | RequestKind::Posix(_) => {
            make(state, outcomes, spare, changed, pid, request, kept)
        }
    }
}

/// A call of a process, which has one at a time. Answers whether it is idle.
fn make(
    state: &mut State,
    outcomes: &mut Vec<Outcome>,
    spare: &mut Vec<u8>,
    changed: &mut Changed,
    pid: Pid,
    request: &Request<'_>,
    kept: Option<Parked>,
) -> bool
    requires sound { IsSound state.old.limits state.old.state }
    requires process { is_process state.old.state pid.0 ≡ true }
    requires reserved { IsReserved (is_waiting state.old.state pid.0) state.old.ready
        (plain_request request.now) kept }
    requires waits { state.old.limits.processes ≤ state.old.waits }
    requires places { length outcomes.old.items + 2 * (length state.old.state.wait + 1) ≤ vec_capacity outcomes.old }
    requires spare { IsSpare state.old.limits spare.old }
    requires marks { 2 * most_objects state.old.limits < vec_capacity changed.old.marks }
    ensures does { Does (called state.old.limits pid.0 (plain_request request.now) state.old.state) (emptied state.old)
        state.new outcomes.old outcomes.new }
    ensures buffer { HasBuffer state.old.limits spare.new outcomes.new.items }
    ensures marked { HasMarked state.old.state
        (changes_by_call state.old.limits state.old.state pid.0 (plain_kind request.now.kind))
        changed.old.marks.items changed.new.marks.items }
    ensures room { vec_capacity changed.old.marks ≤ vec_capacity changed.new.marks }
    ensures idle { result ≡ (is_waiting state.old.state pid.0
        || ends_idle state.old.state pid.0 (plain_request request.now)
        (tried state.old.limits state.old.state pid.0 false (plain_kind request.now.kind))) }
{
    if state.is_waiting(pid) {
        refuse(outcomes, pid, request.serial, Errno::EALREADY);
        return true;
    }
    changed.make_room(state);
    if let Some(parked) = kept {
        return try_once(state, outcomes, changed, pid, parked);
    }
    at_once(state, outcomes, spare, changed, pid, request)
}

/// A call that never waits. Answers whether it is idle.
fn at_once(
    state: &mut State,
    outcomes: &mut Vec<Outcome>,
    spare: &mut Vec<u8>,
    changed: &mut Changed,
    pid: Pid,
    request: &Request<'_>,
) -> bool
    requires sound { IsSound state.old.limits state.old.state }
    requires process { is_process state.old.state pid.0 ≡ true }
    requires free { is_waiting state.old.state pid.0 ≡ false }
    requires never { may_wait (plain_kind request.now.kind) ≡ false }
    requires ready { state.old.ready ≡ needs (plain_kind request.now.kind) }
    requires places { length outcomes.old.items + 2 * (length state.old.state.wait + 1) ≤ vec_capacity outcomes.old }
    requires spare { IsSpare state.old.limits spare.old }
    requires mark { length changed.old.marks.items < vec_capacity changed.old.marks }
    ensures does { Does (replied_or_joined state.old.limits pid.0 (plain_request request.now) state.old.state
        (tried state.old.limits state.old.state pid.0 false (plain_kind request.now.kind))) (emptied state.old)
        state.new outcomes.old outcomes.new }
    ensures buffer { HasBuffer state.old.limits spare.new outcomes.new.items }
    ensures marked { (o : PlainObject) → is_marked changed.new.marks.items o ≡ (is_marked changed.old.marks.items o
        || changes_if_done (touched_by state.old.state pid.0 (plain_kind request.now.kind))
        (tried state.old.limits state.old.state pid.0 false (plain_kind request.now.kind)) o) }
    ensures room { vec_capacity changed.new.marks ≡ vec_capacity changed.old.marks }
    ensures idle { result ≡ ends_idle state.old.state pid.0 (plain_request request.now)
        (tried state.old.limits state.old.state pid.0 false (plain_kind request.now.kind)) }
{
    let (answer, touched) = try_at_once(state, pid, &request.kind, spare);
    let is_refused = answer.is_err();
    let looks = only_asks(&request.kind, touched);
    finish(
        state,
        outcomes,
        changed,
        pid,
        request.serial,
        answer,
        None,
        touched,
        change_of(&request.kind),
    );
    is_refused | looks
}

/// A call that may wait is tried: it ends, and others go on, or it joins those that wait. Answers whether it is idle.
fn try_once(
    state: &mut State,
    outcomes: &mut Vec<Outcome>,
    changed: &mut Changed,
    pid: Pid,
    parked: Parked,
) -> bool
    requires sound { IsSound state.old.limits state.old.state }
    requires process { is_process state.old.state pid.0 ≡ true }
    requires free { is_waiting state.old.state pid.0 ≡ false }
    requires waits { state.old.limits.processes ≤ state.old.waits }
    requires places { length outcomes.old.items + 2 * (length state.old.state.wait + 1) ≤ vec_capacity outcomes.old }
    requires mark { length changed.old.marks.items < vec_capacity changed.old.marks }
    requires may { may_wait parked.kind ≡ true }
    ensures does { Does (replied_or_joined state.old.limits pid.0 parked state.old.state
        (tried state.old.limits state.old.state pid.0 false parked.kind)) state.old
        state.new outcomes.old outcomes.new }
    ensures marked { (o : PlainObject) → is_marked changed.new.marks.items o ≡ (is_marked changed.old.marks.items o
        || changes_if_done (touched_by state.old.state pid.0 parked.kind)
        (tried state.old.limits state.old.state pid.0 false parked.kind) o) }
    ensures room { vec_capacity changed.new.marks ≡ vec_capacity changed.old.marks }
    ensures idle { result ≡ ends_idle state.old.state pid.0 parked
        (tried state.old.limits state.old.state pid.0 false parked.kind) }
{
    let serial = parked.serial();
    let touched = touched_by(state, pid, &parked);
    let change = change_of(&parked.lend());
    match try_kept(state, pid, false, parked) {
        Tried::Finishes(answer, fired) => {
            let is_refused = answer.is_err();
            finish(
                state, outcomes, changed, pid, serial, answer, fired, touched, change,
            );
            is_refused
        }
        Tried::Waits(parked) => join(state, outcomes, pid, parked),
    }
}

/// A call that cannot go on joins the end of those that wait, unless its deadline is at or before the clock. Answers
/// whether it is so, and the call is idle.
fn join(state: &mut State, outcomes: &mut Vec<Outcome>, pid: Pid, parked: Parked) -> bool
    requires room { length state.old.state.wait < state.old.waits }
    requires free { is_waiting state.old.state pid.0 ≡ false }
    requires place { length outcomes.old.items < vec_capacity outcomes.old }
    ensures does { Does (joins state.old.state pid.0 parked (awaited_by parked.kind)) state.old
        state.new outcomes.old outcomes.new }
    ensures idle { result ≡ is_late state.old.state pid.0 parked (awaited_by parked.kind) }
{
    let now = state.clock();
    let serial = parked.serial();
    let errno = parked.expiry();
    let waiting = Waiting {
        pid,
        on: parked.awaited(),
        deadline: parked.deadline(now),
        call: parked,
    };
    if waiting.is_due(now) {
        refuse(outcomes, pid, serial, errno);
        true
    } else {
        state.enter_wait(waiting);
        false
    }
}

/// A call has ended so, and may have changed this object, which counts as changed unless the call was refused: it is
/// answered, then the process is told of the registration that it fired, if one, and then those go on that wait on the
/// object and can, of those that the change concerns; none, if it was refused.
fn finish(
    state: &mut State,
    outcomes: &mut Vec<Outcome>,
    changed: &mut Changed,
    pid: Pid,
    serial: u32,
    answer: Answer,
    fired: Option<Registration>,
    touched: Option<Object>,
    change: Change,
)
    requires good { (s : PlainState) × IsSound state.old.limits s
        × IsGood state.old.limits s touched (finish_firing state.old.state answer fired)
        × HaveSameObjects s state.old.state }
    requires spared { SparedWait state.old.limits state.old.state change }
    requires refused { is_ok answer ≡ false → OthersWait state.old.limits state.old.state None }
    requires places { length outcomes.old.items + 2 * (length state.old.state.wait + 1) ≤ vec_capacity outcomes.old }
    requires mark { length changed.old.marks.items < vec_capacity changed.old.marks }
    ensures does { Does (after (replied pid.0 serial (finish_firing state.old.state answer fired))
        (settled state.old.limits)) state.old state.new outcomes.old outcomes.new }
    ensures room { room_in_answer answer ≤ room_in outcomes.new.items }
    ensures marked { (o : PlainObject) → is_marked changed.new.marks.items o
        ≡ (is_marked changed.old.marks.items o || is_ok answer && is_one touched o) }
    ensures capacity { vec_capacity changed.new.marks ≡ vec_capacity changed.old.marks }
{
    let is_done = answer.is_ok();
    changed.mark_if(is_done, touched);
    let touched = if_done(is_done, touched);
    push_reply(outcomes, pid, serial, answer, fired);
    settle(state, outcomes, touched, change);
}

/// The object that a call may have changed: none, if it was refused.
fn if_done(is_done: bool, touched: Option<Object>) -> Option<Object>
    ensures { result ≡ if is_done then touched else None }
{
    if is_done { touched } else { None }
}

/// A request is refused.
fn refuse(outcomes: &mut Vec<Outcome>, pid: Pid, serial: u32, errno: Errno)
    requires place { length outcomes.old.items < vec_capacity outcomes.old }
    ensures outcomes { (s : PlainState) → map plain_outcome outcomes.new.items
        ≡ map plain_outcome outcomes.old.items ++ (replied pid.0 serial (refused s errno)).outcomes }
    ensures capacity { vec_capacity outcomes.old ≤ vec_capacity outcomes.new }
{
    push(outcomes, reply_to(pid, serial, Err(errno)));
}

/// INTERRUPT: the call of the process that waits, if there is one, ends with EINTR; then its own reply. It takes no
/// memory. Answers whether no call waited.
pub(crate) fn interrupt(
    state: &mut State,
    outcomes: &mut Vec<Outcome>,
    pid: Pid,
    serial: u32,
) -> bool
    requires sound { IsSound state.old.limits state.old.state }
    requires places { length outcomes.old.items + length state.old.state.wait < vec_capacity outcomes.old }
    ensures does { Does (interrupt_step pid.0 serial state.old.state) state.old
        state.new outcomes.old outcomes.new }
    ensures idle { result ≡ not (is_waiting state.old.state pid.0) }
{
    let idle = !state.is_waiting(pid);
    end_waiting(state, outcomes, pid);
    push(outcomes, reply_to(pid, serial, Ok(Body::Empty)));
    idle
}

/// The process leaves, and then calls go on that wait for what its adjustments have changed; if it leaves nothing
/// changed, none is looked at. It takes no memory.
pub(crate) fn leave(state: &mut State, outcomes: &mut Vec<Outcome>, changed: &mut Changed, pid: Pid)
    requires sound { IsSound state.old.limits state.old.state }
    requires places { length outcomes.old.items + 2 * length state.old.state.wait ≤ vec_capacity outcomes.old }
    requires marks { 2 * most_objects state.old.limits < vec_capacity changed.old.marks }
    ensures does { Does (settled state.old.limits (exit state.old.state pid.0)) (emptied state.old)
        state.new outcomes.old outcomes.new }
    ensures marked { HasMarked state.old.state (changes_by_exit (Some pid.0) state.old.state)
        changed.old.marks.items changed.new.marks.items }
    ensures room { vec_capacity changed.old.marks ≤ vec_capacity changed.new.marks }
{
    let may_have_changed = may_leave_changes(state, pid);
    changed.mark_leaving(state, Some(pid.0));
    state.remove_process(pid);
    settle_all(state, outcomes, may_have_changed);
}

/// The call of a process that waits, if there is one, ends with EINTR.
fn end_waiting(state: &mut State, outcomes: &mut Vec<Outcome>, pid: Pid)
    requires place { length outcomes.old.items < vec_capacity outcomes.old }
    ensures does { Does (interrupted state.old.state pid.0 (waiting_call_of pid state.old.state.wait)) state.old
        state.new outcomes.old outcomes.new }
    ensures few { length outcomes.new.items ≤ length outcomes.old.items + length state.old.state.wait }
{
    let Some(waiting) = state.leave_wait(pid) else {
        return;
    };
    push(
        outcomes,
        reply_to(pid, waiting.call.serial(), Err(Errno::EINTR)),
    );
}
