//! What is undone of one process's semaphore operations when it exits. See SEM_UNDO of semop(2).
//!
//! Where a rule stands (definition, code, proof):
//!
//! - What is noted with SEM_UNDO: `specs/Undo.antt`, `src/undo.rt`
//!
//! What the clauses say:
//!
//! - `SemUndo` has the adjustments of one process: a finite map from set and number to what is not 0
//!   (`specs/Undo.antt`). `new`, which may be refused, takes the memory for as many as there may be semaphores, 512; it
//!   is no part of the map, so two processes with the same adjustments have equal ones. `subtract` is `subtracted`; it
//!   takes no memory, and wants that there are fewer than 512 or one at the semaphore (`few`). `clear`, `drop_set`,
//!   `clear_at` and `clear_all` are `without_semaphore`, `without_set`, `cleared` and the empty map. `rows` are all of
//!   them by rising set and number; none is 0, and each is in its range (`sound`). `restore` puts in one that was read
//!   (`added`), or drops what is none (`dropped`), or leaves all (`err`). Laws: two subtractions come to that of the
//!   sum (`subtracted_adds_up`); without a set nothing is at its semaphores, and all else is as it was
//!   (`without_set_is_of_others`).
#![tactic(auto)]

mod laws;
mod rows;
mod undo;

pub use laws::{subtracted_adds_up, without_set_is_of_others};
pub use undo::{SemUndo, UndoRow};
