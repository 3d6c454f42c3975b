//! Shared memory segments: a list of bytes, truncated, read and written (shm_overview(7)), and those of System V
//! (shmop(2)), which also know who attached and detached them.
//!
//! Where a rule stands (definition, code, proof):
//!
//! - What is within a segment, its bytes after a truncation or a write: `specs/Segment.antt`, `src/segment.rt`,
//!   `src/laws.rt`
//! - What a System V segment notes of who attached it: `specs/SysSegment.antt`, `src/sys_segment.rt`
//!
//! What the clauses say:
//!
//! - `Segment` is a list of bytes (`specs/Segment.antt`). `new` has none and takes no memory; `zeroed` has so many
//!   zeros and `of_bytes` these bytes, and each of the two may be refused. `truncate` makes it as long as a segment of
//!   zeros that it is given: it cuts it, or fills it up with zeros (`truncated`), and takes no memory of its own.
//!   `is_within` says of any two numbers of eight bytes whether a range is within it. `read` gives the bytes of such a
//!   range, and `write` puts as many in its place. Laws: what was written is read (`written_is_read`), and no other
//!   byte has changed (`written_leaves_the_rest`); after a truncation it has this length (`truncated_has_the_length`),
//!   and one to the length that it has does nothing (`truncated_to_its_length_stays`); bytes that come back after it
//!   shrank are 0 (`regrown_bytes_are_zero`). `SysSegment` is a System V segment (`specs/SysSegment.antt`): `new` and
//!   `restored`, which alone may be refused, have these bytes and numbers; `attach`, `detach`, `mark`, `set` and
//!   `write` change what their definitions say, `renew` makes it a new one of the bytes that it has, `is_marked` says
//!   whether it is marked, and `stat` and `bytes` are its numbers and its bytes.
#![tactic(auto)]

mod laws;
mod segment;
mod sys_segment;

pub use laws::{
    regrown_bytes_are_zero, truncated_has_the_length, truncated_to_its_length_stays,
    written_is_read, written_leaves_the_rest,
};
pub use segment::Segment;
pub use sys_segment::{ShmStat, SysSegment};
