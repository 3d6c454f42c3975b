//! Values in the order in which they came, each of which is found by its rank as fast as by its place.
//!
//! Where a rule stands (definition, code, proof):
//!
//! - How a message is found by its rank: `specs/Arrivals.antt`, `specs/Index.antt`, `src/arrivals.rt`, `src/index.rt`
//!
//! What the clauses say:
//!
//! `Arrivals` is a list of values in the order in which they came, and for how many there are places
//! (`specs/Arrivals.antt`). Each value has a rank, which never changes (`Ranked`).
//!
//! - `Arrivals::with_places`, `reserve`: places for so many, for so many more (`items`, `places`, `ok`, `few`)
//! - `push`, `clear`: one value more at the end; none
//! - `remove`: the value at a position, and the others (`value`, `rest`)
//! - `get`, `len`, `is_empty`: the value at a position; how many there are
//! - `first_of`, `first_but`: the position of the first of a rank, of the first of another
//! - `least`, `greatest`: none of no value, else a rank that none is below, or above, and that one has (`empty`,
//!   `least`, `greatest`, `found`)
//! - `rank_at`: what stands at a place of any list of their ranks that does not fall (`rank`, `found`)
//!
//! - Only `with_places` and `reserve` take memory, and may be refused; past 2^32 places they are. `push` wants a place.
//!   `allocator` has no clause.
//! - Values stand in slots and never move. Two lists of slots lead to them (`specs/Index.antt`): by arrival, with
//!   stamps that rise, and by rank, with keys that rise; a key is a rank and a stamp, and both stand by the slot. Each
//!   search goes by halving. What has another rank than the oldest values is found so too: as far as all are of one
//!   rank, they stand by rank as they came. After 2^64 - 1 values all are stamped anew. No clause says what a search
//!   costs (bench/LOG.md).
#![tactic(auto)]

mod arrivals;
mod index;
mod order;
mod ranked;

pub use arrivals::Arrivals;
pub use ranked::Ranked;
