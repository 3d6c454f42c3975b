//! What every crate of the server speaks of: error numbers, identities, flags and fields of bytes.
//!
//! Where a rule stands (definition, code, proof):
//!
//! - An error number: `specs/Errno.antt`, `src/errno.rt`
//! - A field of another size or kind: `specs/Numbers.antt`, `src/field.rt`, `src/put.rt`, `src/cursor.rt`
//! - How far an adjustment may go: `specs/Adjustment.antt`
//! - Laws of tables: `specs/Table.antt`, `proofs/CallerLemmas.antt`
//!
//! What the clauses say:
//!
//! - `Errno::number` is the number of Linux. `from_number` answers the error that has a number (`each`), and answers no
//!   error with another number (`known`).
//! - `Cursor` reads exactly the field at the front of its bytes and leaves the rest. If fewer bytes are there than the
//!   field has, it answers `None` and takes nothing (`Reads`). `Put` puts exactly the field's bytes at its place. If
//!   the buffer is too short, it answers `false` and changes nothing (`Puts`); `Put::field` puts a number in the field
//!   that it knows, and `Field::to_bytes` is the bytes of it. `take_fields` takes the numbers of some sizes from the
//!   front: these and what is left are all the bytes (`some`), and it answers `None` only if no such numbers stand
//!   there (`none`).
//!
//! - `ObjectMap` is a list of numbered objects: `push` adds one after the others (`ok`) or leaves them (`err`),
//!   `is_next` says whether a number may come, `object` gives the bytes. It meets the trait `Objects`: how many there
//!   are and that their numbers rise (`count`, `objects`), and of each its number, its length and 512 bytes from a
//!   place on, whatever mark of it was brought along (`bytes`, `mark`). `window_of` is these 512 bytes of some bytes.
#![tactic(auto)]

mod cursor;
mod errno;
mod field;
mod flags;
mod identity;
mod objects;
mod put;

pub use cursor::Cursor;
pub use errno::Errno;
pub use field::{Field, FieldBytes, Size, take_fields};
pub use flags::{GetFlags, MsgFlags, OpenFlags, SemFlags, ShmFlags};
pub use identity::{Cred, Id, Moment, Pid};
pub use objects::{Mark, ObjectMap, Objects, window_of};
pub use put::Put;
