//! Named semaphores: a counter that a post raises and a wait lowers. See sem_overview(7).
//!
//! Where a rule stands (definition, code, proof):
//!
//! - What a post and a wait make of a value: `specs/Semaphore.antt`, `src/semaphore.rt`
//!
//! What the clauses say:
//!
//! - `NamedSem` is a counter: `new` has the value that it is given, at most `SEM_VALUE_MAX`; `post` and `try_wait`
//!   answer and leave what the definitions say (`specs/Semaphore.antt`, clauses `answer` and `value`), and `value` is
//!   the value.
#![tactic(auto)]

mod semaphore;

pub use semaphore::{NamedSem, SEM_VALUE_MAX};
