//! System V semaphore sets: what a list of operations does to a set. See semop(2) and semctl(2).
//!
//! Where a rule stands (definition, code, proof):
//!
//! - Values, sempid, times of a set: `specs/Set.antt`, `src/set.rt`
//! - What a list of operations does to a set, also whether SEM_UNDO counts: `specs/Operation.antt`, `src/trial.rt`
//!
//! What the clauses say:
//!
//! - `SemSet::try_list` answers what the definition `outcome` says of a list of operations (`specs/Operation.antt`),
//!   and changes nothing; `carry` makes its Done the values. `lacks` says whether an operation takes more than its
//!   semaphore has (`exact`), and that a list with it has to wait, if none of its operations gives anything or is
//!   undone (`waits`). `adjust` is what an exit adds. `set_value`, `set_all` and `set` are a set after SETVAL, SETALL
//!   and IPC_SET (`with_value`, `with_values`, `changed`). `value`, `pid` and `stat` are the parts of a set.
//!   `semaphores` are all of it, and each value is in its range (`range`). `restored` is a set without semaphores that
//!   has these times, and `restore` adds one (`ok`). Laws: what is done is done one operation after another
//!   (`done_performs_each`), and stays in its range (`done_stays_in_range`).
#![tactic(auto)]

mod bits;
mod laws;
mod list;
mod operation;
mod set;
mod trial;

pub use bits::bit_of;
pub use laws::{done_performs_each, done_stays_in_range};
pub use list::OperationList;
pub use operation::{MOST_VALUE, Operation, Trial, Verdict};
pub use set::{SemSet, SemStat, Semaphore};
