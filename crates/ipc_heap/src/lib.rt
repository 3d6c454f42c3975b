//! An object heap: a map from numbers to bytes on a disk of sectors, of which a change writes what has changed alone,
//! and which is turned over to a new state by the write of one sector.
//!
//! Where a rule stands (definition, code, proof):
//!
//! - Root, table and sectors: `specs/Heap.antt`, `src/root.rt`, `src/table.rt`; docs/DEVICE.md
//! - Where damage is seen first: `specs/Damage.antt`, `src/opening.rt`
//! - The table in memory, and who uses a sector: `src/words.rt`, `src/uses.rt`
//! - What a put, a removal and a flip do: `src/heap.rt`, `src/objects.rt`, `src/turning.rt`, `proofs/Saved.antt`
//!
//! What the clauses say:
//!
//! A map from numbers to bytes on a disk, of which what has changed is written alone. All of it holds over every disk
//! that meets the trait and is honest. What an image has is `Holds` of `specs/Heap.antt`: objects, each in sectors of
//! its own, a table that says where they are, and a root that says where the table is. `HeapMatches` of
//! `specs/Matches.antt`: what was saved is there, and what the readers give is that map with the puts and removals
//! since.
//!
//! - `create` leaves these objects at epoch 1 (`holds`), and a crash leaves that (`durable`). `open` gives the map and
//!   the epoch that are there (`holds`, `matches`), and every other sector is free (`free`). It is `Damaged` only if
//!   there is no heap (`damaged`), with the sector in which that is seen first: the root is looked at before the chain
//!   of the table, the objects in their order after it, and at last whether bytes are left over or an object is empty
//!   (`own`, `named`, `specs/Damage.antt`). It only reads (`reads`).
//! - `epoch`, `count`, `object_at` and `read` (`bytes`) are the readers.
//! - `put` makes the i-th of some objects the one of its number (`map`), and `remove` takes one out (`removes`). Until
//!   the heap is turned over each image has what was saved, at every moment of a put, also of one that fails
//!   (`any_moment`, `matches`), in whatever part of the range it stands (`StaysSaved`): a put writes sectors that were
//!   free, and no others (`others`). It takes no more than its object has (`spends`), and is `Full` only if fewer are
//!   free (`full`). After `remove` no fewer are free (`free`).
//! - `flip`: at every moment of the call, also of one that fails, each image that a crash may leave has what was saved
//!   at the old epoch, or all of the map at the new one, under the root that `set_next_root` has named (`any_moment`).
//!   `set_next_root` makes the next flip write another root. Then what was saved stays under the old one at every
//!   moment of the flip and after it (`kept`), until a put or a flip that follows. Once it is Ok, the map is what is
//!   saved (`matches`, `map`, `durable`, `epoch`), and each sector that neither it nor its table uses is free
//!   (`free`). It is `Full` only if fewer sectors are free than its table takes (`full`). If no other root was named,
//!   each image has to the byte what one of then has in all sectors but those of the range that nothing used there, or
//!   its root is of a later epoch (`meanwhile`, `KeepsUsedOrTurns` of `specs/Meanwhile.antt`).
//! - No call writes outside the range and the root (`others`), the disk is the same after each (`same`), a failure is
//!   answered only if the disk counted one (`fault`, `counts`; of `open` and `read` `reads`), and what is written is
//!   counted: the sectors of an object by a put, those of the table and the root by a flip, with two syncs (`counts`).
//!   `create` and `flip` ask that four bytes can count those of the table (`counted`), as they can in a range of at
//!   most 2^27 sectors.
//! - Laws:
//!   - an image is one heap, and no two (`an_image_is_one_heap`).
//!   - where damage is seen, no heap stands (`a_damaged_image_is_no_heap`).
//!   - a heap is there on a disk that has grown (`a_disk_that_has_grown_has_the_same_heap`), seen from a wider range
//!     (`a_wider_range_has_the_same_heap`), and in an image that keeps what is used
//!     (`a_later_image_has_the_same_heap`).
#![tactic(auto)]

mod error;
mod heap;
mod laws;
mod objects;
mod opening;
mod reading;
mod root;
mod table;
mod turning;
mod uses;
mod words;

pub use error::{HeapError, OpenError};
pub use heap::Heap;
pub use laws::{
    a_damaged_image_is_no_heap, a_disk_that_has_grown_has_the_same_heap,
    a_later_image_has_the_same_heap, a_wider_range_has_the_same_heap, an_image_is_one_heap,
};
