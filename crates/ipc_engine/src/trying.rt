//! What differs by the kind of a call: what it needs of memory, how it is tried, which object it may change, whom that
//! concerns, and whether it only asks.

ghost use Rattle.std.specs.Prelude.{◌≡◌, ℕ, true, false, is_some, IfOk, IsOk, OnOk, OnErr};
ghost use Rattle.ipc_wire.specs.Posix.{plain_posix};
ghost use Rattle.ipc_wire.specs.Request.{Posix, Sysv, plain_kind, plain_sysv};
ghost use Rattle.ipc_wire.specs.View.{plain_request};
ghost use Rattle.ipc_state.specs.Finish as finish;
ghost use Rattle.ipc_state.specs.Held.{left};
ghost use Rattle.ipc_state.specs.Sound.{HasSoundParts};
ghost use Rattle.ipc_state.specs.Spare.{KeepsBuffer, IsSpare};
ghost use Rattle.ipc_state.specs.State.{State as PlainState, is_process};
ghost use Rattle.ipc_state.specs.Tries.{WaitsUnchanged, tried_of};
ghost use Rattle.ipc_state.specs.Waiting.{may_wait};
ghost use Rattle.sysv_calls.specs.Concern as sysv;
ghost use Rattle.ipc_engine.specs.Idle.{only_asks as asks_alone};
ghost use Rattle.ipc_engine.specs.Reserved.{kept_of, needs, takes_memory};
ghost use Rattle.ipc_engine.specs.Settling.{touched_by};
ghost use Rattle.ipc_engine.specs.Step.{tried};

use ipc_base::{Errno, Pid};
use ipc_state::{Answer, Object, Parked, ParkedKind, State, Tried};
use ipc_wire::{PosixCall, Request, RequestKind, SysvCall};
use std::alloc::{AllocError, Global};
use sysv_calls::Change;

/// Takes the memory that a request may need, and gives what is kept of one that may wait. Refused, the state is as
/// before.
pub(crate) fn reserve(
    state: &mut State,
    alloc: Global,
    request: &Request<'_>,
) -> Result<Option<Parked>, AllocError>
    ensures ready { OnOk result (state.new ≡ record state.old { ready = needs (plain_kind request.now.kind) }) }
    ensures kept { IfOk result (λ kept. kept ≡ kept_of (plain_request request.now)) }
    ensures err { OnErr result (state.new ≡ left state.old state.old.state) }
    ensures memory { takes_memory (plain_kind request.now.kind) ≡ false → IsOk result }
{
    match &request.kind {
        RequestKind::Posix(_) => posix_calls::reserve(state, alloc, request),
        RequestKind::Sysv(_) | RequestKind::Hello(_) | RequestKind::Interrupt => {
            sysv_calls::reserve(state, alloc, request)
        }
    }
}

/// Tries a request that never waits. It takes no memory. Gives how it ends, and the object that it may leave otherwise.
pub(crate) fn try_at_once(
    state: &mut State,
    pid: Pid,
    kind: &RequestKind<'_>,
    spare: &mut Vec<u8>,
) -> (Answer, Option<Object>)
    requires sound { HasSoundParts state.old.limits state.old.state }
    requires process { is_process state.old.state pid.0 ≡ true }
    requires never { may_wait (plain_kind kind.now) ≡ false }
    requires ready { state.old.ready ≡ needs (plain_kind kind.now) }
    requires spare { IsSpare state.old.limits spare.old }
    ensures finish { finish.Finishes (finish.finish_of state.new.state result.0)
        ≡ tried state.old.limits state.old.state pid.0 false (plain_kind kind.now) }
    ensures touched { result.1 ≡ touched_by state.old.state pid.0 (plain_kind kind.now) }
    ensures held { state.new ≡ left state.old state.new.state }
    ensures spare { KeepsBuffer state.old.limits spare.new result.0 }
{
    match kind {
        RequestKind::Sysv(call) => {
            let touched = sysv_calls::touched(state, pid, call);
            (sysv_calls::attempt(state, pid, call, spare), touched)
        }
        RequestKind::Posix(call) => {
            let touched = posix_calls::touched(state, pid, call);
            (posix_calls::attempt(state, pid, call, spare), touched)
        }
        RequestKind::Hello(_) | RequestKind::Interrupt => (Err(Errno::EPROTO), None),
    }
}

/// Tries a call by a process; `again`, if it has waited. It takes no memory.
pub(crate) fn try_kept(state: &mut State, pid: Pid, again: bool, parked: Parked) -> Tried<Parked>
    requires sound { HasSoundParts state.old.limits state.old.state }
    requires process { is_process state.old.state pid.0 ≡ true }
    ensures finish { tried_of state.new.state result
        ≡ tried state.old.limits state.old.state pid.0 again parked.kind }
    ensures kept { WaitsUnchanged (λ p. p) state.old parked state.new result }
    ensures held { state.new ≡ record state.old { state = state.new.state } }
{
    let serial = parked.serial();
    match parked.into_kind() {
        ParkedKind::Sysv(call) => match sysv_calls::try_parked(state, pid, again, call) {
            Tried::Finishes(answer, fired) => Tried::Finishes(answer, fired),
            Tried::Waits(call) => Tried::Waits(Parked::of_kind(serial, ParkedKind::Sysv(call))),
        },
        ParkedKind::Posix(call) => match posix_calls::try_parked(state, pid, call) {
            Tried::Finishes(answer, fired) => Tried::Finishes(answer, fired),
            Tried::Waits(call) => Tried::Waits(Parked::of_kind(serial, ParkedKind::Posix(call))),
        },
    }
}

/// Whether a call of a process that has waited has to wait on.
pub(crate) fn has_to_wait(state: &State, pid: Pid, parked: &Parked) -> bool
    requires process { is_process state.now.state pid.0 ≡ true }
    ensures { result ≡ finish.has_to_wait (tried state.now.limits state.now.state pid.0 true parked.now.kind) }
{
    match parked.kind() {
        ParkedKind::Sysv(call) => sysv_calls::has_to_wait(state, pid, call),
        ParkedKind::Posix(call) => posix_calls::has_to_wait(state, pid, call),
    }
}

/// What a request changes in its object if it is done.
pub(crate) fn change_of(kind: &RequestKind<'_>) -> Change
    ensures { result ≡ sysv.change_of (plain_kind kind.now) }
{
    match kind {
        RequestKind::Sysv(call) => sysv_calls::change_of(call),
        RequestKind::Posix(_) | RequestKind::Hello(_) | RequestKind::Interrupt => Change::Anything,
    }
}

/// Whether a call that waits on an object may go on by a change of it.
pub(crate) fn concerns(change: Change, parked: &Parked) -> bool
    ensures { result ≡ sysv.concerns change parked.now.kind }
{
    match parked.kind() {
        ParkedKind::Sysv(call) => sysv_calls::concerns(change, call),
        ParkedKind::Posix(_) => true,
    }
}

/// The object that a call of a process may leave otherwise, so that those that wait on it may go on.
pub(crate) fn touched_by(state: &State, pid: Pid, parked: &Parked) -> Option<Object>
    requires { HasSoundParts state.now.limits state.now.state }
    ensures { result ≡ touched_by state.now.state pid.0 parked.now.kind }
{
    match parked.kind() {
        ParkedKind::Sysv(call) => sysv_calls::touched(state, pid, &call.lend()),
        ParkedKind::Posix(call) => posix_calls::touched(state, pid, &call.lend()),
    }
}

/// Whether a call that is done leaves everything as it was, where it may leave this object otherwise: it reads, or gets
/// the identifier of a key that is in use.
pub(crate) fn only_asks(kind: &RequestKind<'_>, touched: Option<Object>) -> bool
    ensures { (s : PlainState) (pid : ℕ) → touched ≡ touched_by s pid (plain_kind kind.now)
        → result ≡ asks_alone s (plain_kind kind.now) }
{
    match kind {
        RequestKind::Sysv(call) => sysv_only_asks(call, touched.is_some()),
        RequestKind::Posix(call) => posix_only_asks(call),
        RequestKind::Hello(_) | RequestKind::Interrupt => false,
    }
}

/// Whether a System V call does so, which may leave an object otherwise or none: one that reads, and a get that makes
/// none.
fn sysv_only_asks(call: &SysvCall<'_>, may_change: bool) -> bool
    ensures { (s : PlainState) (pid : ℕ) → may_change ≡ is_some (touched_by s pid (Sysv (plain_sysv call.now)))
        → result ≡ asks_alone s (Sysv (plain_sysv call.now)) }
{
    match call {
        SysvCall::Msgget { .. } | SysvCall::Semget { .. } | SysvCall::Shmget { .. } => !may_change,
        SysvCall::MsgctlStat { .. }
        | SysvCall::SemctlGetVal { .. }
        | SysvCall::SemctlGetPid { .. }
        | SysvCall::SemctlGetNcnt { .. }
        | SysvCall::SemctlGetZcnt { .. }
        | SysvCall::SemctlGetAll { .. }
        | SysvCall::SemctlStat { .. }
        | SysvCall::ShmctlStat { .. }
        | SysvCall::AttachedRead { .. } => true,
        SysvCall::Msgsnd { .. }
        | SysvCall::Msgrcv { .. }
        | SysvCall::MsgctlSet { .. }
        | SysvCall::MsgctlRmid { .. }
        | SysvCall::Semop { .. }
        | SysvCall::SemctlSetVal { .. }
        | SysvCall::SemctlSetAll { .. }
        | SysvCall::SemctlSet { .. }
        | SysvCall::SemctlRmid { .. }
        | SysvCall::Shmat { .. }
        | SysvCall::Shmdt { .. }
        | SysvCall::ShmctlSet { .. }
        | SysvCall::ShmctlRmid { .. }
        | SysvCall::AttachedWrite { .. } => false,
    }
}

/// Whether a POSIX call does so: one that reads.
fn posix_only_asks(call: &PosixCall<'_>) -> bool
    ensures { (s : PlainState) → result ≡ asks_alone s (Posix (plain_posix call.now)) }
{
    match call {
        PosixCall::MqGetattr { .. }
        | PosixCall::SemGetvalue { .. }
        | PosixCall::ShmRead { .. }
        | PosixCall::ShmStat { .. } => true,
        PosixCall::Close { .. }
        | PosixCall::MqOpen { .. }
        | PosixCall::MqUnlink { .. }
        | PosixCall::MqSend { .. }
        | PosixCall::MqReceive { .. }
        | PosixCall::MqNotify { .. }
        | PosixCall::MqSetattr { .. }
        | PosixCall::SemOpen { .. }
        | PosixCall::SemUnlink { .. }
        | PosixCall::SemPost { .. }
        | PosixCall::SemWait { .. }
        | PosixCall::SemTrywait { .. }
        | PosixCall::ShmOpen { .. }
        | PosixCall::ShmUnlink { .. }
        | PosixCall::Ftruncate { .. }
        | PosixCall::ShmWrite { .. } => false,
    }
}
