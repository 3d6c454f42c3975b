//! Who may do what to an object. See sysvipc(7).
//!
//! Where a rule stands (definition, code, proof):
//!
//! - Owners, modes, classes: `specs/Perm.antt`, `src/access.rt`, `src/perm.rt`
//!
//! What the clauses say:
//!
//! - `may` says whether a caller may use an object so, and `owns` whether it may change and remove it: the definitions
//!   of these names (`specs/Perm.antt`). `Access::asked_by` is what a get asks by its flags. `Perm::new` is `perm_of`,
//!   and `Perm::owned_by` replaces owner and mode; a mode has nine bits (`mode`).
#![tactic(auto)]

mod access;
mod perm;

pub use access::{Access, Class, may, owns};
pub use perm::Perm;
