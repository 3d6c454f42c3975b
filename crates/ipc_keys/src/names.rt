//! Which object has a name.

ghost use Rattle.std.specs.Prelude.{◌≡◌, ◌<◌, ◌≢◌, ℕ, List, nat_eq, true, false, Some, None, IsOk, OnOk, OnErr};
ghost use Rattle.std.specs.Cmp.Lexicographic.{pointwise, nat_list_eq_equiv};
ghost use Rattle.ipc_keys.specs.Directory.{found, is_vacant, SameAt};

use crate::directory::{Directory, Query};
use indexmap::IndexMap;
use std::alloc::{AllocError, Global};
use std::marker::Model;

impl Query<Vec<u8>> for &[u8] {
    ghost names = { λ name kept. pointwise nat_eq name.now kept.items };

    ghost respects_eq = { λ name x y. nat_list_eq_equiv.congr name.now x.items y.items };

    fn place(self, numbers: &IndexMap<Vec<u8>, u32>) -> Option<usize> {
        numbers.get_index_of(self)
    }

    fn kept(self, alloc: Global) -> Result<Vec<u8>, AllocError> {
        Vec::from_slice(alloc, self)
    }
}

/// Which object has a name. A contract sees the number that is found at each name, and which names are
/// vacant. A call takes no longer with more names, unless a `reserve` makes the table larger, or a client
/// chose names of one hash: then a look-up compares with each, and there are some dozens at most.
#[derive(Drop)]
pub struct NameDir {
    directory: Directory<Vec<u8>>,
}

impl Model for NameDir {
    ghost use Rattle.std.specs.Prelude.{ℕ};
    ghost use Rattle.std.specs.Coded.{coded_ℕ, coded_list};
    ghost use Rattle.std.specs.FinMap as fin;
    ghost use Rattle.std.specs.Ordering.{nat_cmp};
    ghost use Rattle.std.specs.Cmp.Lexicographic.{slice_cmp};
    ghost use Rattle.ipc_keys.specs.Directory.{seen};

    ghost Value = { fin.FinMap (slice_cmp nat_cmp) ℕ };

    ghost coded = { fin.code (coded_list coded_ℕ) coded_ℕ };

    ghost view = { λ d. seen (slice_cmp nat_cmp) (λ name. name.items) d.directory.numbers.entries };
}

impl NameDir {
    /// A directory without names. It takes no memory.
    pub fn new(alloc: Global) -> NameDir
        ensures found { (name : List ℕ) → found result name ≡ None }
        ensures vacant { (name : List ℕ) → is_vacant result name ≡ false }
    {
        NameDir {
            directory: Directory::new(alloc),
        }
    }

    /// The number of the object that has the name.
    pub fn find(&self, name: &[u8]) -> Option<u32>
        ensures { result ≡ found self.now name.now }
    {
        self.directory.find(name)
    }

    /// Makes the name vacant, of which it keeps a copy, so that `bind` takes no memory. Refused for want
    /// of memory, and then the directory is as before; never refused if the name is vacant.
    pub fn reserve(&mut self, name: &[u8]) -> Result<(), AllocError>
        requires { found self.old name.now ≡ None }
        ensures found { (other : List ℕ) → found self.new other ≡ found self.old other }
        ensures vacant { OnOk result (is_vacant self.new name.now ≡ true) }
        ensures others { (other : List ℕ) → other ≢ name.now
            → is_vacant self.new other ≡ is_vacant self.old other }
        ensures succeeds { is_vacant self.old name.now ≡ true → IsOk result }
        ensures err { OnErr result (self.new ≡ self.old) }
    {
        self.directory.reserve(name)
    }

    /// Gives the name to the object of this number. It takes no memory: the name is vacant.
    pub fn bind(&mut self, name: &[u8], number: u32)
        requires vacant { is_vacant self.old name.now ≡ true }
        requires number { 0 < number }
        ensures found { found self.new name.now ≡ Some number }
        ensures vacant { is_vacant self.new name.now ≡ false }
        ensures others { (other : List ℕ) → other ≢ name.now → SameAt self.old self.new other }
    {
        self.directory.bind(name, number)
    }

    /// Takes the name from its object, or what was reserved for it. It takes no memory, and does nothing
    /// if the name is not there.
    pub fn unbind(&mut self, name: &[u8])
        ensures found { found self.new name.now ≡ None }
        ensures vacant { is_vacant self.new name.now ≡ false }
        ensures others { (other : List ℕ) → other ≢ name.now → SameAt self.old self.new other }
    {
        self.directory.unbind(name)
    }
}
