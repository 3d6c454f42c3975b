//! Which object has a key.

ghost use Rattle.std.specs.Prelude.{◌≡◌, ◌<◌, ◌≢◌, ℤ, true, false, Some, None, IsOk, OnOk, OnErr};
ghost use Rattle.std.specs.Ordering.{int_eq};
ghost use Rattle.std.specs.Cmp.{int_eq_equiv};
ghost use Rattle.ipc_keys.specs.Directory.{found, is_vacant, SameAt};

use crate::directory::{Directory, Query};
use indexmap::IndexMap;
use std::alloc::{AllocError, Global};
use std::marker::Model;

impl Query<i32> for i32 {
    ghost names = { int_eq };

    ghost respects_eq = { int_eq_equiv.congr };

    fn place(self, numbers: &IndexMap<i32, u32>) -> Option<usize> {
        numbers.get_index_of(&self)
    }

    fn kept(self, alloc: Global) -> Result<i32, AllocError> {
        Ok(self)
    }
}

/// Which object has a key. A contract sees the number that is found at each key, and which keys are
/// vacant. A call takes no longer with more keys, unless a `reserve` makes the table larger, or a client
/// chose keys of one hash: then a look-up compares with each, and there are some dozens at most.
#[derive(Drop)]
pub struct KeyDir {
    directory: Directory<i32>,
}

impl Model for KeyDir {
    ghost use Rattle.std.specs.Prelude.{ℕ};
    ghost use Rattle.std.specs.Coded.{coded_ℕ, coded_ℤ};
    ghost use Rattle.std.specs.FinMap as fin;
    ghost use Rattle.std.specs.Ordering.{int_cmp};
    ghost use Rattle.ipc_keys.specs.Directory.{seen};

    ghost Value = { fin.FinMap int_cmp ℕ };

    ghost coded = { fin.code coded_ℤ coded_ℕ };

    ghost view = { λ d. seen int_cmp (λ key. key) d.directory.numbers.entries };
}

impl KeyDir {
    /// A directory without keys. It takes no memory.
    pub fn new(alloc: Global) -> KeyDir
        ensures found { (key : ℤ) → found result key ≡ None }
        ensures vacant { (key : ℤ) → is_vacant result key ≡ false }
    {
        KeyDir {
            directory: Directory::new(alloc),
        }
    }

    /// The number of the object that has the key.
    pub fn find(&self, key: i32) -> Option<u32>
        ensures { result ≡ found self.now key }
    {
        self.directory.find(key)
    }

    /// Makes the key vacant, so that `bind` takes no memory. Refused for want of memory, and then the
    /// directory is as before; never refused if the key is vacant.
    pub fn reserve(&mut self, key: i32) -> Result<(), AllocError>
        requires { found self.old key ≡ None }
        ensures found { (other : ℤ) → found self.new other ≡ found self.old other }
        ensures vacant { OnOk result (is_vacant self.new key ≡ true) }
        ensures others { (other : ℤ) → other ≢ key
            → is_vacant self.new other ≡ is_vacant self.old other }
        ensures succeeds { is_vacant self.old key ≡ true → IsOk result }
        ensures err { OnErr result (self.new ≡ self.old) }
    {
        self.directory.reserve(key)
    }

    /// Gives the key to the object of this number. It takes no memory: the key is vacant.
    pub fn bind(&mut self, key: i32, number: u32)
        requires vacant { is_vacant self.old key ≡ true }
        requires number { 0 < number }
        ensures found { found self.new key ≡ Some number }
        ensures vacant { is_vacant self.new key ≡ false }
        ensures others { (other : ℤ) → other ≢ key → SameAt self.old self.new other }
    {
        self.directory.bind(key, number)
    }

    /// Takes the key from its object, or what was reserved for it. It takes no memory, and does nothing
    /// if the key is not there.
    pub fn unbind(&mut self, key: i32)
        ensures found { found self.new key ≡ None }
        ensures vacant { is_vacant self.new key ≡ false }
        ensures others { (other : ℤ) → other ≢ key → SameAt self.old self.new other }
    {
        self.directory.unbind(key)
    }
}
