//! Checkpoints: objects and an epoch on a disk, which a save replaces whole or not at all. Only what has changed is
//! written.
//!
//! Where a rule stands (definition, code, proof):
//!
//! - When there is space, and what a save writes: `specs/Checkpoint.antt`, `specs/Matches.antt`
//! - How objects are read, put and taken out: `src/loading.rt`, `src/saving.rt`, `specs/Saving.antt`
//!
//! What the clauses say:
//!
//! Objects and an epoch, over a heap with room for two of them. All of it holds over every disk that meets the trait
//! and is honest. What an image has is `Holds` of `specs/Checkpoint.antt`, which is the heap's.
//!
//! - `create` leaves these objects at epoch 1 (`holds`), and a crash leaves that (`durable`). It writes the sectors of
//!   the objects, of their table and the root, with one sync (`counts`). `load` gives the objects and the epoch that
//!   are there (`holds`, `matches`), and all other sectors are free (`free`). It is `Damaged` only if there are none
//!   (`damaged`), with the root's sector or one of the range (`named`), that in which it is seen first (`first`). It
//!   only reads (`reads`).
//! - `save`: at every moment of the call, also of one that fails, each image that a crash may leave has the old objects
//!   at the old epoch or the new ones at the new (`any_moment`). Once it is Ok each image has the new ones (`matches`,
//!   `durable`, `epoch`), and all sectors that they do not have are free (`free`). It has written the sectors of the
//!   objects that may have changed, those of the table, and the root, with two syncs (`writes`). It takes no memory.
//!   Who reads the disk meanwhile finds the old objects and their table to the byte in the sectors in which they stood,
//!   or a root of a later epoch (`meanwhile`, `KeepsUsedOrTurns` of `specs/Meanwhile.antt`).
//! - `set_next_root` makes the next save write another root. Then the old objects stay under the old root too (`kept`),
//!   in whatever part of the range they stand, and the new ones are there once the save is Ok (`moved`).
//! - No call writes outside the range and the root (`others`), the disk is the same after `create` and `save` (`same`),
//!   and a failure is answered only if the disk counted one (`counts`; of `load` `reads`). `create` and `save` want
//!   room: the objects fit into an area with a table of them (`fits`), all but an area is free (`old_fits`), and the
//!   range, which has two areas, and the root lie apart from each other on the disk (`laid_out`). A save may leave
//!   alone what is as it was saved (`unchanged`).
//! - Law: an image has one checkpoint, and no two (`an_image_is_one_checkpoint`).
#![tactic(auto)]

mod checkpoint;
mod error;
mod laws;
mod layout;
mod loading;
mod saving;

pub use checkpoint::Checkpoint;
pub use error::LoadError;
pub use laws::an_image_is_one_checkpoint;
pub use layout::Layout;
