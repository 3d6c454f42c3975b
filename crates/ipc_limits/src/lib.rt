//! The limits of a server, and the version of the device whose rules hold, with the sectors of its journal.
//!
//! Where a rule stands (definition, code, proof):
//!
//! - A limit: 'A limit' in docs/CHANGING.md has its files
//! - Which rules hold on version 3 alone: `has_rules_of_three`, `message_limit`, `adjustment_limit`,
//!   `queue_bytes_limit`, `exceeds` in `specs/Limits.antt`
//! - The longest reply: `longest_body` in `specs/Limits.antt`, `longest_reply` in `src/limits.rt`
//!
//! What the clauses say:
//!
//! - If `Limits::check` is Ok, each field passes by the greatest values that it was given (`ok`), and by those of any
//!   device, if the given ones do (`passed`); if it is not, its error names the first field that fails (`first`). The
//!   version and the journal are no fields of it.
//!   `standard` and `small` are the limits of the definitions for version 2, `standard_of_three` and `small_of_three`
//!   those for version 3 (`limits`), and all pass by the greatest values of any device (`passed`).
//!   `longest_reply` is the length of the longest reply under limits that passed (`longest`), and is at most 65554
//!   (`bounded`).
//! - `message_limit`, `adjustment_limit` and `queue_bytes_limit` are limits of version 3 alone; on other versions they
//!   are none, and `exceeds` says of no count that it is more than none.
#![tactic(auto)]

mod limits;

pub use limits::{BadLimits, Limits, STANDARD, STANDARD_OF_THREE, exceeds};
