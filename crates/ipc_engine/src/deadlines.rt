//! A moment comes: the calls that waited until then leave.

ghost use Rattle.std.specs.Prelude.{◌≡◌, ◌+◌, ◌<◌, ◌≤◌, ◌++◌, [], ◌∷◌, length, map, max, vec_capacity};
ghost use Rattle.ipc_state.specs.State.{due_calls, without_due};
ghost use Rattle.ipc_wait.specs.Waits.{HaveDistinctPids};
ghost use Rattle.ipc_engine.specs.Buffer.{room_in};
ghost use Rattle.ipc_engine.specs.Sound.{IsSound};
ghost use Rattle.ipc_engine.specs.Step.{due, expired, most_replies};
ghost use Rattle.ipc_engine.specs.View.{plain_outcome};

use crate::event::Outcome;
use crate::replies::{push, reply_to, take_back};
use ipc_base::Moment;
use ipc_state::{Awaited, Parked, State};
use ipc_wait::Waiting;

/// The replies of the last event go, and a moment comes: the clock is the greatest so far, and each call whose deadline
/// has come leaves and is answered, in order. It takes no memory; if no deadline has come, it takes no longer with more
/// calls.
pub(crate) fn advance(
    state: &mut State,
    outcomes: &mut Vec<Outcome>,
    spare: &mut Vec<u8>,
    moment: Moment,
)
    requires sound { IsSound state.old.limits state.old.state }
    requires places { most_replies state.old.limits ≤ vec_capacity outcomes.old }
    ensures state { state.new ≡ record state.old { state = (due moment.0 state.old.state).state } }
    ensures outcomes { map plain_outcome outcomes.new.items ≡ (due moment.0 state.old.state).outcomes }
    ensures sound { IsSound state.new.limits state.new.state }
    ensures few { length outcomes.new.items + length state.new.state.wait ≤ state.new.limits.processes }
    ensures capacity { vec_capacity outcomes.old ≤ vec_capacity outcomes.new }
    ensures empty { spare.new.items ≡ [] }
    ensures buffer { max (vec_capacity spare.old) (room_in outcomes.old.items) ≤ vec_capacity spare.new }
{
    take_back(outcomes, spare);
    state.set_moment(moment);
    expire(state, outcomes);
}

/// Each call whose deadline has come leaves and is answered, in order.
fn expire(state: &mut State, outcomes: &mut Vec<Outcome>)
    requires pids { HaveDistinctPids state.old.state.wait }
    requires places { length outcomes.old.items + length state.old.state.wait ≤ vec_capacity outcomes.old }
    ensures state { state.new ≡ record state.old { state = without_due state.old.state } }
    ensures outcomes { map plain_outcome outcomes.new.items
        ≡ map plain_outcome outcomes.old.items ++ map expired (due_calls state.old.state) }
    ensures capacity { vec_capacity outcomes.old ≤ vec_capacity outcomes.new }
{
    while let Some(waiting) = state.leave_due() {
        end_late(outcomes, waiting);
    }
}

/// A call that has left since its deadline has come is answered.
fn end_late(outcomes: &mut Vec<Outcome>, waiting: Waiting<Awaited, Parked>)
    requires place { length outcomes.old.items < vec_capacity outcomes.old }
    ensures outcomes { map plain_outcome outcomes.new.items
        ≡ map plain_outcome outcomes.old.items ++ expired waiting ∷ [] }
    ensures capacity { vec_capacity outcomes.old ≤ vec_capacity outcomes.new }
{
    let errno = waiting.call.expiry();
    push(
        outcomes,
        reply_to(waiting.pid, waiting.call.serial(), Err(errno)),
    );
}
