//! What has numbers of its own, and the number of the next one.

ghost use Rattle.std.specs.Prelude.{
  ◌≡◌,
  ◌<◌,
  ◌≤◌,
  ◌^◌,
  ◌↔◌,
  true,
  [],
  option_map,
  option_copied,
  ℕ,
  map,
  IsTrue,
  IsOk,
  OnOk,
  OnErr,
};
ghost use Rattle.std.specs.Borrow.{sem};
ghost use Rattle.std.specs.Option.{option_copied_mut};
ghost use Rattle.ipc_base.specs.Table.{keys_of, IsRising};
ghost use Rattle.ipc_state.specs.Lends.{lends_numbered};
ghost use Rattle.ipc_state.specs.Numbered.{
  none_yet,
  entry_of,
  with_new,
  with_last,
  without_entry,
  is_full as is_full_of,
  AreNumbered,
};
ghost use Rattle.ipc_state.specs.Tables.{numbered_of, has_place};

use crate::rows::Rows;
use std::alloc::{AllocError, Global};

/// One of those that have numbers, with its number.
#[derive(Drop)]
pub struct Item<T> {
    pub number: u32,
    pub value: T,
}

/// What has a number.
pub(crate) trait HasNumber {
    ghost number_of: { Self → ℕ };

    fn number(&self) -> u32
        ensures { result ≡ number_of self.now };
}

impl<T> HasNumber for Item<T> {
    ghost number_of = { λ e. e.number };

    fn number(&self) -> u32 {
        self.number
    }
}

/// Whether the numbers of these rise, from `low` on and below `high`.
pub(crate) fn rise<T: HasNumber>(items: &[T], low: u32, high: u32) -> bool
    ensures { IsTrue result ↔ IsRising low (map T.number_of items.now) high }
{
    let mut least = u64::from(low);
    for item in items {
        if u64::from(item.number()) < least {
            return false;
        }
        least = u64::from(item.number()) + 1;
    }
    least <= u64::from(high)
}

/// What has numbers, and the next number.
pub(crate) struct Numbered<T> {
    next: u32,
    pub(crate) items: Rows<T>,
}

impl<T: Drop> Drop for Numbered<T> {
    fn drop(self) {
        let Numbered { next: _, items: _ } = self;
    }
}

/// Identifiers and pids end here.
pub const LAST_NUMBER: u32 = 2147483647;

impl<T> Numbered<T> {
    /// None yet. It takes no memory.
    pub(crate) fn new(alloc: Global) -> Self
        ensures { numbered_of result ≡ none_yet }
    {
        Numbered {
            next: 1,
            items: Rows::new(alloc),
        }
    }

    /// Takes the memory for one more; never refused if it is there already.
    pub(crate) fn reserve(&mut self) -> Result<(), AllocError>
        ensures items { numbered_of self.new ≡ numbered_of self.old }
        ensures ok { OnOk result (has_place self.new ≡ true) }
        ensures succeeds { has_place self.old ≡ true → IsOk result }
        ensures err { OnErr result (has_place self.new ≡ has_place self.old) }
    {
        self.items.reserve()
    }

    /// Whether none can be added: there are `most`, or no number is left.
    pub(crate) fn is_full(&self, most: u32) -> bool
        ensures { result ≡ is_full_of most (numbered_of self.now) }
    {
        most as usize <= self.items.len() || LAST_NUMBER < self.next
    }

    /// All of them, by number.
    pub(crate) fn items(&self) -> &[Item<T>]
        ensures { result.now ≡ self.now.items.items }
    {
        self.items.all()
    }

    /// The number of the next one.
    pub(crate) fn next(&self) -> u32
        ensures { result ≡ self.now.next }
    {
        self.next
    }

    /// The one that has a number.
    pub(crate) fn get(&self, number: u32) -> Option<&Item<T>>
        ensures { option_map (λ e. e.value) (option_copied result) ≡ entry_of (numbered_of self.now) number }
    {
        self.items.get(number)
    }

    /// The one that has a number, to be changed.
    pub(crate) fn get_mut(&mut self, number: u32) -> Option<&mut T>
        ensures* writes_back { sem 𝓛 (lends_numbered T.row self.entry number result) }
        ensures value { option_copied_mut result ≡ entry_of (numbered_of self.old) number }
    {
        self.items.get_mut(number)
    }

    /// Adds one under the next number, which it gives. It takes no memory.
    pub(crate) fn add(&mut self, value: T) -> u32
        requires place { has_place self.old ≡ true }
        requires number { self.old.next < 2 ^ 31 }
        ensures items { numbered_of self.new ≡ with_new (numbered_of self.old) value }
        ensures number { result ≡ self.old.next }
    {
        let number = self.next;
        self.next += 1;
        self.items.push(number, value);
        number
    }

    /// Adds one at the end, under a number that was read. It takes no memory.
    pub(crate) fn push(&mut self, number: u32, value: T)
        requires { has_place self.old ≡ true }
        ensures { numbered_of self.new ≡ with_last (numbered_of self.old) number value }
    {
        self.items.push(number, value);
    }

    /// Replaces the number of the next one.
    pub(crate) fn set_next(&mut self, next: u32)
        ensures items { numbered_of self.new ≡ record { next = next; entries = (numbered_of self.old).entries } }
        ensures place { has_place self.new ≡ has_place self.old }
    {
        self.next = next;
    }

    /// Whether the numbers rise, from 1 to below the next.
    fn rise(&self) -> bool
        ensures { IsTrue result ↔ IsRising 1 (keys_of (numbered_of self.now).entries) self.now.next }
    {
        rise(self.items.all(), 1, self.next)
    }

    /// Whether the numbers are in order, and there are no more than `most`.
    pub(crate) fn are_numbered(&self, most: u32) -> bool
        ensures { IsTrue result ↔ AreNumbered most (numbered_of self.now) }
    {
        self.rise() && self.next <= LAST_NUMBER + 1 && self.items.len() <= most as usize
    }
}

impl<T: Drop> Numbered<T> {
    /// Takes one out, if it is there.
    pub(crate) fn remove(&mut self, number: u32)
        ensures { numbered_of self.new ≡ without_entry (numbered_of self.old) number }
    {
        self.items.remove(number);
    }

    /// Takes all out.
    pub(crate) fn clear(&mut self)
        ensures { numbered_of self.new ≡ record { next = (numbered_of self.old).next; entries = [] } }
    {
        self.items.clear();
    }
}
