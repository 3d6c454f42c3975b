//! The calls that wait, in the order in which they came.
//!
//! Where a rule stands (definition, code, proof):
//!
//! - The list of calls that wait, and its deadlines: `specs/Waits.antt`, `src/list.rt`
//!
//! What the clauses say:
//!
//! - `WaitList` is the list of the calls that wait, in the order in which they came, and the number of calls for which
//!   it has room (`specs/Waits.antt`). No process has two calls in it (`len` and `of` `pids`). `enter` puts a call at
//!   the end, and `leave` takes out the call of a process and leaves the others in order (`call`, `others`); `clear`
//!   takes out all. None of them takes memory, or changes the room (`room`). `from_calls` is the list of calls that
//!   were read (`some`), and is none only if two of them are of one process (`none`); it may be refused for memory.
//!   `reserve` makes room for so many calls in all and leaves the calls (`ok`, `calls`); no room is lost (`room`), and
//!   it is never refused if there is that much room (`succeeds`). The list has an index of its processes, by which one
//!   that has no call is found to have none in a few steps; no clause says what that costs, and `make bench` shows it.
//! - `get` gives the call of a process, and `at` the one at a place. `waits_past` says whether a call of a process
//!   waits on when a moment comes. `of` is the calls on an object, in order: each `next` gives the first of those that
//!   are left. `first_due` is the first of the calls that are due at a moment, whose deadline is at or before it
//!   (`first`), and is none only if no call is due (`none`); the call is found by its process (`found`), and if it
//!   leaves, the others that are due are left. `next_deadline` is the earliest deadline, which the list keeps. So
//!   `first_due` looks at no call if none is due; no clause can say so, and no test does.
//! - Laws:
//!   - A call that enters is the last on its object, and the last that is due if it is; those on other objects stay
//!     (`entered_is_last`).
//!   - If a call leaves, each other process has what it had, and the others stay in order on each object and among
//!     those that are due (`others_stay`).
//!   - A call on an object is that of its process, and if it leaves, those before it and after it are left
//!     (`others_on_its_object_stay`).
//!   - What is due stays due, and one is due if and only if the earliest deadline has come (`deadlines_come`).
#![tactic(auto)]

mod laws;
mod list;
mod of;
mod pids;

pub use laws::{deadlines_come, entered_is_last, others_on_its_object_stay, others_stay};
pub use list::{WaitList, Waiting};
pub use of::Of;
