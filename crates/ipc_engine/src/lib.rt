//! The server as one pure machine: an event goes in, the state changes by a step, and replies come out.
//!
//! Where a rule stands (definition, code, proof):
//!
//! - Who goes on, and in what order: `specs/Step.antt`, `src/settling.rt`
//! - When a deadline ends a call: `specs/Step.antt`, `src/deadlines.rt`
//! - The frame of a notification: `notices` in `specs/Step.antt`, `src/replies.rt`
//! - The spare buffer for bodies: `src/engine.rt`, `src/replies.rt`, and `specs/Spare.antt` of `ipc_state`
//! - Which events are idle, and change nothing: `specs/Idle.antt`, `src/engine.rt`, `src/asking.rt`, `src/trying.rt`,
//!   `proofs/Looks.antt`, `proofs/Idle.antt`
//! - Which objects an event changes: `specs/Changes.antt`, `src/changed.rt`, `proofs/Marks.antt`,
//!   `proofs/Tracking.antt`
//! - What holds between parts of a state: `specs/Sound.antt`, `src/engine.rt`
//! - A row of a listing: `specs/Listing.antt`, `src/listing.rt`, `proofs/Sorting.antt`
//!
//! What the clauses say:
//!
//! - `Engine::new` wants limits that pass by the greatest values of any device (`ArePassed`); `Limits::check` by values
//!   within these tests it, and the two sets of limits have it. The new engine has the state `start`, no replies, no
//!   object that has changed and these limits (`state`, `outcomes`, `changed`, `limits`).
//! - `Engine::step` on a HELLO, a call, an INTERRUPT, a tick, an exit or a restart is the step of the definitions: its
//!   state (`state`) and its replies in order (`outcomes`). It wants the process of a call, an INTERRUPT or an exit to
//!   be connected, and nothing else.
//! - `Engine::answer` is what the server does with an event. It is answered as by `step` (`outcomes`), and is accepted
//!   unless it is idle and the device is of version 3 (`accepted`): then the state is as it was, its clock too
//!   (`state`). The other clauses are those of `step`.
//! - What an engine counts as changed is some objects (`specs/Changes.antt`). If each object that differs from a state
//!   that was saved counted before a step, each does after it (`tracked`), and what newly counts is what the event
//!   changes by `changes` (`only`). `Engine::changed` says whether an object counts by its kind and number, and
//!   `mark_saved` makes that none does, and nothing else.
//! - If a step is refused for memory, the engine is as it was, its clock and its replies too (`err`). Only a HELLO that
//!   gets a process, msgget, msgsnd, semget, semop, shmget, mq_open, mq_send, sem_open, shm_open and ftruncate can be
//!   refused, and none of a process of which a call waits when the event's moment has come (`memory`); what is answered
//!   to a call that has waited takes no memory, and neither does its place. The room that is reserved in an engine is
//!   not seen in its contract.
//! - The state is sound before and after each step (`was_sound`, `sound`): numbers rise, no limit is passed, each key
//!   names its object, each adjustment is at a semaphore that is there, in its range and not 0, each call that waits is
//!   one of a connected process, its deadline has not come, and none of them could go on. No reply is longer than the
//!   longest one (`fits`).
//! - `connected(pid)` says whether the state's table of processes has the pid, and `is_for_process` whether an event
//!   meets the condition of `step`. `owed` is how many bytes of frames a process is still owed for what it asked
//!   before: the longest reply while a call of it waits, and 18 for each POSIX queue with which it is registered.
//!   `most_owed` is the most that it ever is, by its clause `bound`. `limits` answers the limits, which passed their
//!   check (`limits`, `passed`).
//! - `state` shows the state, so that its readers speak of the machine's; nothing is reserved in it (`ready`), so no
//!   key or name is vacant. `from_state` gives the machine that has a state (`state`, `limits`, `outcomes`) and no
//!   object that has changed (`changed`); it is sound (`sound`); `Unsound` says that the state is not (`unsound`), as
//!   one in which a call waits that could go on. `list` has a row for each object, message queues and sets by rising
//!   identifier, then POSIX queues, named semaphores and segments, each kind by name, and last System V segments by
//!   rising identifier (`specs/Listing.antt`).
//! - Laws of waiting:
//!   - after an event no call waits that could go on, and none whose deadline has come, the latter whatever the state
//!     was before (`nobody_waits_who_could_go_on` `waits`, `early`).
//!   - There are no more replies than requests (`a_request_is_answered_once`): the replies that an event sends a
//!     process, and one if a call of it waits then, are no more than one if a call of it waited before, and one if it
//!     makes a request by the event. So no call is answered both by what it waits for and by its deadline, or twice.
//!     The law counts replies, and a notification, which has serial 0, is none; that a reply has the serial of its
//!     request is said by `the_earliest_goes_on_first` `answered` and `deadlines_end_calls`.
//!   - The first in the list that can go on does so first (`the_earliest_goes_on_first` `first`); its process is sent
//!     one reply, with its serial, and after it goes the notification that it fires, if one (`answered`), and it has
//!     left the list (`left`).
//!   - A call that waits has to wait on when another process's call has come to its end, if what that changes does not
//!     concern it (`calls_of_no_concern_wait_on`): so it is not tried, and `step` is that of the definitions all the
//!     same.
//!   - A call that cannot go on joins the end of the list (`call_that_cannot_go_on_waits` `joins`), or, if its deadline
//!     is at or before the clock, is answered as if that had come (`ends`).
//!   - A moment ends the calls whose deadline is at or before it, in the order in which they came, and no other
//!     (`deadlines_end_calls`). One of a process of which a call waits is EALREADY and changes nothing
//!     (`refused_call_changes_nothing` `waiting`).
//!   - msgsnd and msgrcv have no deadline; that of semop comes after its timeout, and mq_send, mq_receive and sem_wait
//!     name a moment (`deadline_of`).
//!   - A restart leaves no call (`restart_leaves_no_call`).
//! - Laws:
//!   - `step_keeps_soundness`.
//!   - `replies_fit`.
//!   - an event causes no more frames than two for each process that there may be, and two (`replies_are_few`).
//!   - what it sends a process, and what the process is owed then, are no more bytes than what it was owed before, and
//!     the longest reply if it asked by the event (`replies_are_asked_for`).
//!   - no process is owed more than `most_owed`, and what is no process nothing (`debts_are_bounded`).
//!   - of a process that asks and is sent nothing no call waited, and one waits then (`unanswered_request_waits`); the
//!     notifications for which a process is registered are among what it is owed, so each has its room from the reply
//!     to its mq_notify on.
//!   - the last reply of a HELLO is its own (`hello_is_answered_last`).
//!   - if no call waits whose deadline has come, as after every event and in every sound state, a tick at or before the
//!     clock does nothing (`late_tick_does_nothing`).
//!   - a run is a run of its parts (`run_of_parts`).
//!   - every event sets the clock (`event_sets_clock`).
//!   - a call that is refused leaves what its moment leaves (`refused_call_changes_nothing`).
//!   - a call whose request is INTERRUPT is the event of that name (`interrupt_call_is_an_interrupt`).
//!   - which events change the processes (`connect_adds_one_process`, `exit_removes_one_process`,
//!     `restart_leaves_no_process`, `call_interrupt_and_tick_keep_processes`, `pid_is_below_next`).
//!   - A restart keeps the queues of System V, the identifiers of the sets, and the next numbers of a process, of a set
//!     and of a POSIX queue (`restart_keeps_objects`); POSIX queues with a name as they are, but for a registration
//!     (`named`), and no other (`no_other`); named semaphores and segments with a name as they are, and no other, with
//!     their next numbers (`psems`, `segments`); of the System V segments, each detached by every process that had it
//!     attached, those that are not marked, if the state was sound (`shared`); it adds the adjustments of all
//!     processes, of which none is left (`restart_adds_adjustments`); a process that has left has none
//!     (`exit_leaves_no_adjustment`).
//!   - A restart twice is once (`restart_twice_is_once`).
//!   - An idle event leaves the state as it was but for the clock (`idle_events_set_the_clock_alone` `state`), and is
//!     answered to who asks alone (`alone`); an exit and a restart are accepted always (`exit`, `restart`).
//!   - The state that `Engine::answer` leaves is that after the events that are recorded
//!     (`recorded_events_give_the_state` `run`), and has another clock at most than that of `Engine::step` (`clock`).
//!   - If no moment is below one before it, events without a restart have the same replies whether idle events are
//!     accepted or not, and leave the same state but for the clock (`idle_events_show_in_no_reply`).
//!   - After an event that is no restart a tick at its moment does nothing (`second_tick_does_nothing`).
//!   - Objects with a name are listed by the bytes of their names, those of the same name as they stood, each once
//!     (`objects_are_listed_by_name`).
#![tactic(auto)]

mod asking;
mod changed;
mod deadlines;
mod engine;
mod event;
mod fault;
mod laws;
mod listing;
mod replies;
mod settling;
mod trying;

pub use engine::Engine;
pub use event::{Event, Outcome};
pub use fault::StateFault;
pub use laws::{
    a_request_is_answered_once, call_interrupt_and_tick_keep_processes,
    call_that_cannot_go_on_waits, calls_of_no_concern_wait_on, connect_adds_one_process,
    deadlines_end_calls, debts_are_bounded, event_sets_clock, exit_leaves_no_adjustment,
    exit_removes_one_process, hello_is_answered_last, idle_events_set_the_clock_alone,
    idle_events_show_in_no_reply, interrupt_call_is_an_interrupt, late_tick_does_nothing,
    nobody_waits_who_could_go_on, objects_are_listed_by_name, pid_is_below_next,
    recorded_events_give_the_state, refused_call_changes_nothing, replies_are_asked_for,
    replies_are_few, replies_fit, restart_adds_adjustments, restart_keeps_objects,
    restart_leaves_no_call, restart_leaves_no_process, restart_twice_is_once, run_of_parts,
    second_tick_does_nothing, step_keeps_soundness, the_earliest_goes_on_first,
    unanswered_request_waits,
};
pub use listing::Row;
