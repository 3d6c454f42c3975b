//! Directories: the number of the object that has a key or a name, and which names there may be.
//!
//! Where a rule stands (definition, code, proof):
//!
//! - Directories of keys and names: `specs/Directory.antt`, `src/directory.rt`
//! - Which names there may be: `specs/Names.antt`, `src/check.rt`
//!
//! What the clauses say:
//!
//! - `KeyDir` is a finite map from keys to numbers, some of which may be vacant: such a key has room, and no number yet
//!   (`specs/Directory.antt`). `reserve` makes a key vacant (`vacant`) or, refused for memory, leaves all as it was
//!   (`err`); it is never refused if the key is vacant (`succeeds`), and what is found stays (`found`). `find` answers
//!   what is found, so a vacant key is not. `bind` gives a vacant key its number, and `unbind` takes a key out; neither
//!   takes memory, and each leaves all other keys (`others`).
//! - `NameDir` is the same by names, of the same body. `check_name` is the definition of that name
//!   (`specs/Names.antt`). `Name` is the bytes of a name, or no name.
//! - The seed of the table's hash is fixed, so a client may choose keys of one hash. A look-up then compares with each,
//!   of which there are some dozens at most; a get costs a fifth more then (bench/LOG.md).
#![tactic(auto)]

mod check;
mod directory;
mod keys;
mod name;
mod names;

pub use check::{NameKind, check_name};
pub use keys::KeyDir;
pub use name::Name;
pub use names::NameDir;
