//! Calls that may wait: each is tried when it comes, and again when what it waits for has changed.

ghost use Rattle.std.specs.Prelude.{◌≡◌, true, OnOk};
ghost use Rattle.ipc_limits.specs.Limits.{ArePassed};
ghost use Rattle.ipc_state.specs.Finish as finish;
ghost use Rattle.ipc_state.specs.Sound.{HasSoundParts};
ghost use Rattle.ipc_state.specs.State.{is_process};
ghost use Rattle.ipc_state.specs.Tries.{WaitsUnchanged, tried_of};
ghost use Rattle.ipc_state.specs.Waiting.{parked_sysv};
ghost use Rattle.sysv_calls.specs.Calls as defined;
ghost use Rattle.ipc_state.specs.Steps.{attempted};
ghost use Rattle.sysv_calls.specs.Seen.{place_in};

use crate::msg::{ready_to_receive, ready_to_send, receive, send};
use crate::semop::{operate, ready_to_operate};
use ipc_base::{Cred, Pid};
use ipc_state::{Halt, ParkedSysv, State, Tried};
use ipc_wire::Body;

/// Tries a call by a process; `again`, if it has waited. It takes no memory.
pub fn try_parked(state: &mut State, pid: Pid, again: bool, call: ParkedSysv) -> Tried<ParkedSysv>
    requires sound { HasSoundParts state.old.limits state.old.state }
    requires process { is_process state.old.state pid.0 ≡ true }
    ensures finish { tried_of state.new.state result
        ≡ defined.attempt state.old.limits state.old.state pid.0 again (parked_sysv call) }
    ensures kept { WaitsUnchanged parked_sysv state.old call state.new result }
    ensures held { state.new ≡ record state.old { state = state.new.state } }
{
    let cred = state.cred(pid);
    let at = match ready(state, cred, pid, again, &call) {
        Ok(at) => at,
        Err(Halt::Fails(e)) => return Tried::Finishes(Err(e), None),
        Err(Halt::Blocks) => return Tried::Waits(call),
    };
    match call {
        ParkedSysv::Msgsnd { id, message, .. } => {
            send(state, pid, id, message);
            Tried::Finishes(Ok(Body::Empty), None)
        }
        ParkedSysv::Msgrcv { id, size, .. } => Tried::Finishes(
            Ok(receive(state, pid, id, at, size)),
            None,
        ),
        ParkedSysv::Semop { id, operations, .. } => {
            operate(state, pid, id, &operations.lend());
            Tried::Finishes(Ok(Body::Empty), None)
        }
    }
}

/// Whether a call of a process that has waited has to wait on.
pub fn has_to_wait(state: &State, pid: Pid, call: &ParkedSysv) -> bool
    requires process { is_process state.now.state pid.0 ≡ true }
    ensures { result ≡ finish.has_to_wait
        (defined.attempt state.now.limits state.now.state pid.0 true (parked_sysv call.now)) }
{
    match ready(state, state.cred(pid), pid, true, call) {
        Ok(_) => false,
        Err(Halt::Fails(_)) => false,
        Err(Halt::Blocks) => true,
    }
}

/// Whether a call may go on now, and then the place of the message that a receive takes; for a send that is 0.
fn ready(state: &State, cred: Cred, pid: Pid, again: bool, call: &ParkedSysv) -> Result<usize, Halt>
    ensures tests { attempted result
        ≡ place_in state.now.limits state.now.state cred pid.0 again call.now }
    ensures passed { OnOk result (ArePassed state.now.limits) }
{
    match call {
        ParkedSysv::Msgsnd { id, flags, message } => {
            ready_to_send(state, cred, again, *id, *flags, message)?;
            Ok(0)
        }
        ParkedSysv::Msgrcv {
            id,
            flags,
            size,
            mtype,
        } => ready_to_receive(state, cred, again, *id, *flags, *size, *mtype),
        ParkedSysv::Semop { id, operations, .. } => {
            ready_to_operate(state, cred, pid, again, *id, operations)?;
            Ok(0)
        }
    }
}
