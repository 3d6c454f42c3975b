//! A directory for keys of any kind: what `KeyDir` and `NameDir` share.
//!
//! The seed of the index map's hasher is fixed, so a client that chooses its keys can give them all one
//! hash. A look-up then compares the key with each entry, and there are no more entries than there may be
//! objects of the kind and vacant keys, some dozens.

ghost use Rattle.std.specs.Prelude.{◌≡◌, ◌<◌, Bool, Some, None, true, is_some, IsOk, IfOk, OnOk, OnErr};
ghost use Rattle.std.specs.Prelude.{IfSome, slice_get};
ghost use Rattle.indexmap.specs.IndexMap.{IsEmpty, IsUnchanged, IsUnique, get_by, index_of_by, values, index_map_len};
ghost use Rattle.ipc_keys.specs.Directory.{shown, Puts};

use indexmap::IndexMap;
use std::alloc::{AllocError, Global};
use std::hash::Hash;

/// A key as a caller gives it, of a directory that keeps a `K`.
pub(crate) trait Query<K: Eq + Hash>: Copy {
    // Whether it stands for this key.
    ghost names: { Self → K → Bool };

    /// Where the key is among the entries.
    fn place(self, numbers: &IndexMap<K, u32>) -> Option<usize>
        ensures index { result ≡ index_of_by (names self) numbers.now }
        ensures found { is_some result ≡ is_some (get_by (names self) numbers.now) }
        ensures within { IfSome result (λ i. i < index_map_len numbers.now) }
        ensures value { IfSome result (λ i. slice_get (values numbers.now) i ≡ get_by (names self) numbers.now) }
        ensures unique { IsUnique K.eq numbers.now };

    /// The key that is kept. Refused for want of memory.
    fn kept(self, alloc: Global) -> Result<K, AllocError>
        ensures { IfOk result (λ k. names self k ≡ true) };

    // It stands for the keys that are equal to one for which it stands, and for no other.
    ghost respects_eq: { (q : Self) (x y : K) → names q x ≡ true → names q y ≡ K.eq x y };
}

/// Keys with their numbers. A key with the number 0 has a place, which the directory does not show.
#[derive(Drop)]
pub(crate) struct Directory<K: Eq + Hash + Drop> {
    numbers: IndexMap<K, u32>,
    alloc: Global,
}

impl<K: Eq + Hash + Drop> Directory<K> {
    pub(crate) fn new(alloc: Global) -> Directory<K>
        ensures { IsEmpty result.numbers }
    {
        Directory {
            numbers: IndexMap::new(alloc),
            alloc,
        }
    }

    /// The number of the key, if it is above 0.
    pub(crate) fn find<Q: Query<K>>(&self, key: Q) -> Option<u32>
        ensures { result ≡ shown (get_by (Q.names key) self.now.numbers) }
    {
        let place = key.place(&self.numbers)?;
        match self.numbers[place] {
            0 => None,
            number => Some(number),
        }
    }

    /// Gives the key a place, with the number 0. Refused for want of memory; never if it has one.
    pub(crate) fn reserve<Q: Query<K>>(&mut self, key: Q) -> Result<(), AllocError>
        requires { shown (get_by (Q.names key) self.old.numbers) ≡ None }
        ensures ok { OnOk result (Puts K.eq (Q.names key) self.old.numbers.entries self.new.numbers.entries (Some 0)) }
        ensures err { OnErr result (IsUnchanged self.old.numbers self.new.numbers) }
        ensures succeeds { get_by (Q.names key) self.old.numbers ≡ Some 0 → IsOk result }
    {
        if key.place(&self.numbers).is_none() {
            let kept = key.kept(self.alloc)?;
            self.numbers.insert(kept, 0)?;
        }
        Ok(())
    }

    /// Gives the key, which has a place, this number.
    pub(crate) fn bind<Q: Query<K>>(&mut self, key: Q, number: u32)
        requires { get_by (Q.names key) self.old.numbers ≡ Some 0 }
        ensures { Puts K.eq (Q.names key) self.old.numbers.entries self.new.numbers.entries (Some number) }
    {
        let place = key.place(&self.numbers).unwrap();
        self.numbers[place] = number;
    }

    /// Removes the key, if it is there.
    pub(crate) fn unbind<Q: Query<K>>(&mut self, key: Q)
        ensures { Puts K.eq (Q.names key) self.old.numbers.entries self.new.numbers.entries None }
    {
        if let Some(place) = key.place(&self.numbers) {
            self.numbers.swap_remove_index(place).unwrap();
        }
    }
}
