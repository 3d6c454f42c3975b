//! Replies, and the buffer in which the body of one is made.

ghost use Rattle.std.specs.Prelude.{◌≡◌, ◌+◌, ◌<◌, ◌≤◌, ◌++◌, ◌∷◌, [], length, map, max, vec_capacity};
ghost use Rattle.ipc_state.specs.Finish.{finish_firing, finish_of};
ghost use Rattle.ipc_state.specs.State.{State as PlainState};
ghost use Rattle.ipc_state.specs.Spare.{room_of, room_in as room_in_answer};
ghost use Rattle.ipc_engine.specs.Buffer.{room_in};
ghost use Rattle.ipc_engine.specs.Step.{notices, replied};
ghost use Rattle.ipc_engine.specs.View.{plain_outcome, step_of};

use crate::event::Outcome;
use ipc_base::Pid;
use ipc_state::Answer;
use ipc_wire::Body;
use posix_mq::Registration;

/// The reply that tells a process how its request ended.
pub(crate) fn reply_to(pid: Pid, serial: u32, ended: Answer) -> Outcome
    ensures reply { (s : PlainState) → step_of s result ≡ replied pid.0 serial (finish_of s ended) }
    ensures room { room_of result.body ≡ room_in_answer ended }
{
    let (errno, body) = match ended {
        Ok(body) => (None, body),
        Err(errno) => (Some(errno), Body::Empty),
    };
    Outcome {
        pid,
        serial,
        errno,
        body,
    }
}

/// Adds a reply, which has its place.
pub(crate) fn push(outcomes: &mut Vec<Outcome>, outcome: Outcome)
    requires { length outcomes.old.items < vec_capacity outcomes.old }
    ensures items { outcomes.new.items ≡ outcomes.old.items ++ outcome ∷ [] }
    ensures capacity { vec_capacity outcomes.old ≤ vec_capacity outcomes.new }
    ensures room { max (room_in outcomes.old.items) (room_of outcome.body) ≤ room_in outcomes.new.items }
{
    outcomes.push_reserved(outcome);
}

/// Tells a process how its call ended, and then the process of the registration that it fired, if one. A call that is
/// refused fires none. Both have their places.
pub(crate) fn push_reply(
    outcomes: &mut Vec<Outcome>,
    pid: Pid,
    serial: u32,
    ended: Answer,
    fired: Option<Registration>,
)
    requires places { length outcomes.old.items + 2 ≤ vec_capacity outcomes.old }
    ensures outcomes { (s : PlainState) → map plain_outcome outcomes.new.items ≡ map plain_outcome outcomes.old.items
        ++ (replied pid.0 serial (finish_firing s ended fired)).outcomes }
    ensures few { length outcomes.new.items ≤ length outcomes.old.items + 2 }
    ensures capacity { vec_capacity outcomes.old ≤ vec_capacity outcomes.new }
    ensures room { max (room_in outcomes.old.items) (room_in_answer ended) ≤ room_in outcomes.new.items }
{
    match ended {
        Ok(body) => {
            push(outcomes, reply_to(pid, serial, Ok(body)));
            notify(outcomes, fired);
        }
        Err(errno) => push(outcomes, reply_to(pid, serial, Err(errno))),
    }
}

/// The notification of a registration, if one was fired: no request has its serial. See mq_notify(3).
fn notify(outcomes: &mut Vec<Outcome>, fired: Option<Registration>)
    requires place { length outcomes.old.items < vec_capacity outcomes.old }
    ensures outcomes { map plain_outcome outcomes.new.items ≡ map plain_outcome outcomes.old.items ++ notices fired }
    ensures few { length outcomes.new.items ≤ length outcomes.old.items + 1 }
    ensures capacity { vec_capacity outcomes.old ≤ vec_capacity outcomes.new }
    ensures room { room_in outcomes.old.items ≤ room_in outcomes.new.items }
{
    let Some(registration) = fired else {
        return;
    };
    push(
        outcomes,
        Outcome {
            pid: registration.pid,
            serial: 0,
            errno: None,
            body: Body::Notification {
                fd: registration.descriptor,
                cookie: registration.cookie,
            },
        },
    );
}

/// The replies of the last event go, and the buffer that one of them has is spare again.
pub(crate) fn take_back(outcomes: &mut Vec<Outcome>, spare: &mut Vec<u8>)
    ensures gone { outcomes.new.items ≡ [] }
    ensures capacity { vec_capacity outcomes.old ≤ vec_capacity outcomes.new }
    ensures empty { spare.new.items ≡ [] }
    ensures room { max (vec_capacity spare.old) (room_in outcomes.old.items) ≤ vec_capacity spare.new }
{
    while let Some(outcome) = outcomes.pop() {
        give_back(outcome.body, spare);
    }
    spare.clear();
}

/// The buffer that a body has is spare again, if it has more room than the one that is.
fn give_back(body: Body<Vec<u8>>, spare: &mut Vec<u8>)
    ensures { max (vec_capacity spare.old) (room_of body) ≤ vec_capacity spare.new }
{
    match body {
        Body::Record(bytes) => keep_larger(spare, bytes),
        Body::Message { text: _text, .. } | Body::MqMessage { text: _text, .. } => {}
        Body::Empty | Body::Number(_) | Body::Notification { .. } => {}
    }
}

/// Of two buffers the one with more room.
fn keep_larger(spare: &mut Vec<u8>, other: Vec<u8>)
    ensures { max (vec_capacity spare.old) (vec_capacity other) ≤ vec_capacity spare.new }
{
    if other.capacity() > spare.capacity() {
        *spare = other;
    }
}
