//! Values in the order in which they came, found by rank.

ghost use Rattle.std.specs.Prelude.{◌≡◌, ◌==◌, ◌+◌, ◌^◌, ◌<◌, ◌≤◌, ◌++◌, ◌∷◌, [], ℕ, List, Some, not, length, map};
ghost use Rattle.std.specs.Prelude.{All, Contains, IfNone, IfOk, IfSome, OnOk, position, remove, slice_get};
ghost use Rattle.std.specs.List.Sorted.{IsNonDecreasing, IsPermutation};

use crate::index::Index;
use crate::ranked::Ranked;
use slab::Slab;
use std::alloc::{AllocError, Global};
use std::marker::Model;

/// Values, the oldest first, in slots that are reserved. The oldest of a rank is found by halving, as is what has
/// another rank, the least or the greatest. To take one out moves the shorter side of it in two lists of slots, of four
/// bytes each, and never a value. A contract sees the values and for how many there are places.
#[derive(Drop)]
pub struct Arrivals<T: Ranked> {
    slots: Slab<T>,
    index: Index,
}

impl<T: Ranked> Model for Arrivals<T> {
    ghost use Rattle.std.specs.Prelude.{◌≡◌};
    ghost use Rattle.ipc_arrivals.specs.Arrivals.{AreKept, Arrived, values_at};

    ghost Value = { Arrived T };

    ghost view = { λ a. record { items = values_at a.slots a.index.rows; places = a.index.places } };

    ghost invariant = { λ a. AreKept T.rank a.slots a.index.rows × (a.index.places ≡ a.slots.capacity) };
}

impl<T: Ranked> Arrivals<T> {
    /// None yet, with places for so many, and the memory of all. Refused for want of it, and past 2^32 places.
    pub fn with_places(alloc: Global, places: usize) -> Result<Arrivals<T>, AllocError>
    where
        T: Drop,
        ensures items { IfOk result (λ a. a.items ≡ []) }
        ensures places { IfOk result (λ a. places ≤ a.places) }
    {
        let slots = Slab::with_capacity(alloc, places)?;
        let index = Index::with_places(alloc, slots.capacity())?;
        Ok(Arrivals { slots, index })
    }

    /// Takes the memory for so many more. If the places do not do, all values move to new ones, at least twice as many
    /// as there are values. Refused for want of memory, and past 2^32 places; then nothing has changed.
    pub fn reserve(&mut self, more: usize) -> Result<(), AllocError>
    where
        T: Drop,
        ensures items { self.new.items ≡ self.old.items }
        ensures ok { OnOk result (length self.new.items + more ≤ self.new.places) }
        ensures few { OnOk result (length self.new.items + more < 2 ^ 64) }
        ensures places { self.old.places ≤ self.new.places }
    {
        let len = self.len();
        let wanted = len.checked_add(more).ok_or(AllocError)?;
        if wanted <= self.index.places() {
            return Ok(());
        }
        let mut grown = Arrivals::with_places(self.allocator(), wanted.max(len.saturating_mul(2)))?;
        grown.take_over(self);
        *self = grown;
        Ok(())
    }

    /// Moves all values of another to the end, the oldest first. It takes no memory.
    fn take_over(&mut self, other: &mut Arrivals<T>)
        requires { length self.old.items + length other.old.items ≤ self.old.places }
        ensures { self.new ≡ record self.old { items = self.old.items ++ other.old.items } }
    {
        while !other.is_empty() {
            self.push(other.remove(0));
        }
    }

    /// Where its memory is from.
    pub fn allocator(&self) -> Global {
        self.index.allocator()
    }

    /// How many there are.
    pub fn len(&self) -> usize
        ensures { result ≡ length self.now.items }
    {
        self.index.len()
    }

    /// Whether there is none.
    pub fn is_empty(&self) -> bool
        ensures { result ≡ (length self.now.items == 0) }
    {
        self.len() == 0
    }

    /// Adds one, the newest. It takes no memory.
    pub fn push(&mut self, value: T)
        requires { length self.old.items < self.old.places }
        ensures { self.new ≡ record self.old { items = self.old.items ++ value ∷ [] } }
    {
        let rank = value.rank();
        let slot = self.slots.insert_reserved(value);
        self.index.push(rank, slot);
    }

    /// Takes out the one at a position, counted from the oldest. It takes no memory.
    pub fn remove(&mut self, at: usize) -> T
        requires { at < length self.old.items }
        ensures value { slice_get self.old.items at ≡ Some result }
        ensures rest { self.new ≡ record self.old { items = remove self.old.items at } }
    {
        let slot = self.index.remove(at);
        self.slots.remove(slot)
    }

    /// The one at a position, counted from the oldest.
    pub fn get(&self, at: usize) -> &T
        requires { at < length self.now.items }
        ensures { slice_get self.now.items at ≡ Some result.now }
    {
        &self.slots[self.index.slot(at)]
    }

    /// All go; the places stay.
    pub fn clear(&mut self)
    where
        T: Drop,
        ensures { self.new ≡ record self.old { items = [] } }
    {
        self.slots.clear();
        self.index.clear();
    }

    /// The position of the oldest of a rank.
    pub fn first_of(&self, rank: u64) -> Option<usize>
        ensures { result ≡ position (λ value. T.rank value == rank) self.now.items }
    {
        self.index.first_of(rank)
    }

    /// The position of the oldest of another rank.
    pub fn first_but(&self, rank: u64) -> Option<usize>
        ensures { result ≡ position (λ value. not (T.rank value == rank)) self.now.items }
    {
        self.index.first_but(rank)
    }

    /// The least rank, if there is a value.
    pub fn least(&self) -> Option<u64>
        ensures empty { IfNone result (length self.now.items ≡ 0) }
        ensures least { IfSome result (λ least. All (λ value. least ≤ T.rank value) self.now.items) }
        ensures found { IfSome result (λ least. Contains (map T.rank self.now.items) least) }
    {
        self.index.least()
    }

    /// The greatest rank, if there is a value.
    pub fn greatest(&self) -> Option<u64>
        ensures empty { IfNone result (length self.now.items ≡ 0) }
        ensures greatest { IfSome result (λ greatest. All (λ value. T.rank value ≤ greatest) self.now.items) }
        ensures found { IfSome result (λ greatest. Contains (map T.rank self.now.items) greatest) }
    {
        self.index.greatest()
    }

    /// The rank at a place in the order of ranks, in which equal ones are counted each; none past the last.
    pub fn rank_at(&self, at: usize) -> Option<u64>
        ensures rank { (ranks : List ℕ) → IsNonDecreasing ranks → IsPermutation (map T.rank self.now.items) ranks
            → result ≡ slice_get ranks at }
        ensures found { IfSome result (λ rank. Contains (map T.rank self.now.items) rank) }
    {
        self.index.rank_at(at)
    }
}
