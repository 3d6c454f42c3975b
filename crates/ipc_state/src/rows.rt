//! What has a number, in a list in which it is found by halving.

ghost use Rattle.std.specs.Prelude.{◌≡◌, ◌==◌, ◌<◌, ◌≤◌, ◌^◌, ◌↔◌, ◌++◌, ◌∷◌, [], ℕ, true};
ghost use Rattle.std.specs.Prelude.{length, get_or, map, nat_eq, position, option_map, option_copied};
ghost use Rattle.std.specs.Prelude.{IsTrue, IsOk, OnOk, OnErr};
ghost use Rattle.std.specs.Borrow.{sem};
ghost use Rattle.std.specs.Option.{option_copied_mut};
ghost use Rattle.ipc_base.specs.Table.{keys_of, value_at, without, IsRising};
ghost use Rattle.ipc_state.specs.declared.numbered.Item.{Item};
ghost use Rattle.ipc_state.specs.LendsRow.{lends_row};
ghost use Rattle.ipc_state.specs.Rows.{has_room, item_row};

use crate::numbered::Item;
use std::alloc::{AllocError, Global};
use std::cell::Cell;
use std::marker::Model;

/// Items in the order in which they came; a contract sees the list. As long as their numbers rise, one is found by
/// halving: numbers that are given do rise. What is read from a device may stand in any order until it is tested, and
/// is then looked at from the front.
#[derive(Drop)]
pub(crate) struct Rows<T> {
    pub(crate) items: Vec<Item<T>>,
    /// Not set unless the numbers rise.
    rise: bool,
    /// Where one was found last. There one is looked for first, so that a call which comes back to its object finds it
    /// at once.
    hint: Cell<usize>,
}

impl<T> Model for Rows<T> {
    ghost use Rattle.std.specs.Prelude.{◌≡◌, ◌^◌, true, map};
    ghost use Rattle.std.specs.Global.{Vec};
    ghost use Rattle.ipc_base.specs.Table.{keys_of, IsRising};
    ghost use Rattle.ipc_state.specs.declared.numbered.Item.{Item};
    ghost use Rattle.ipc_state.specs.Rows.{item_row};

    ghost Value = { Vec (Item T) };

    ghost view = { λ r. r.items };

    ghost invariant = { λ r. r.rise ≡ true → IsRising 0 (keys_of (map item_row r.items.items)) (2 ^ 32) };
}

impl<T> Rows<T> {
    /// None yet. It takes no memory.
    pub(crate) fn new(alloc: Global) -> Self
        ensures { result.items ≡ [] }
    {
        Rows {
            items: Vec::new(alloc),
            rise: true,
            hint: Cell::new(0),
        }
    }

    /// Takes the memory for one more; never refused if it is there already.
    pub(crate) fn reserve(&mut self) -> Result<(), AllocError>
        ensures items { self.new.items ≡ self.old.items }
        ensures ok { OnOk result (has_room self.new ≡ true) }
        ensures succeeds { has_room self.old ≡ true → IsOk result }
        ensures err { OnErr result (has_room self.new ≡ has_room self.old) }
    {
        self.items.reserve(1)
    }

    /// How many there are.
    pub(crate) fn len(&self) -> usize
        ensures { result ≡ length self.now.items }
    {
        self.items.len()
    }

    /// All of them.
    pub(crate) fn all(&self) -> &[Item<T>]
        ensures { result.now ≡ self.now.items }
    {
        &self.items
    }

    /// The place of the first that has a number.
    fn place(&self, number: u32) -> Option<usize>
        ensures { result ≡ position (λ e. e.number == number) self.now.items }
    {
        if !self.rise {
            return self.items.iter().position(|item| item.number == number);
        }
        let found = place_of(&self.items, number, self.hint.get());
        if let Some(place) = found {
            self.hint.set(place);
        }
        found
    }

    /// The one that has a number.
    pub(crate) fn get(&self, number: u32) -> Option<&Item<T>>
        ensures { option_map (λ e. e.value) (option_copied result)
            ≡ value_at nat_eq (map item_row self.now.items) number }
    {
        let place = self.place(number)?;
        Some(&self.items[place])
    }

    /// The one that has a number, to be changed.
    pub(crate) fn get_mut(&mut self, number: u32) -> Option<&mut T>
        ensures* writes_back { sem 𝓛 (lends_row T.row self.entry number result) }
        ensures value { option_copied_mut result ≡ value_at nat_eq (map item_row self.old.items) number }
    {
        let place = self.place(number)?;
        let item = &mut self.items[place];
        Some(&mut item.value)
    }

    /// Adds one at the end. It takes no memory.
    pub(crate) fn push(&mut self, number: u32, value: T)
        requires { has_room self.old ≡ true }
        ensures { self.new.items ≡ self.old.items ++ record { number = number; value = value } ∷ [] }
    {
        self.rise = self.rise && ends_below(&self.items, number);
        self.items.push_reserved(Item { number, value });
    }
}

impl<T: Drop> Rows<T> {
    /// Takes one out, if it is there.
    pub(crate) fn remove(&mut self, number: u32)
        ensures { map item_row self.new.items ≡ without nat_eq (map item_row self.old.items) number }
    {
        if let Some(place) = self.place(number) {
            self.items.remove(place);
        }
    }

    /// Takes all out.
    pub(crate) fn clear(&mut self)
        ensures { self.new.items ≡ [] }
    {
        self.items.clear();
        self.rise = true;
    }
}

/// Whether the last of these has a smaller number, if there is one.
fn ends_below<T>(items: &[Item<T>], number: u32) -> bool
    ensures { IsRising 0 (keys_of (map item_row items.now)) (2 ^ 32)
        → (IsTrue result ↔ IsRising 0 (keys_of (map item_row items.now)) number) }
{
    match items.last() {
        Some(last) => last.number < number,
        None => true,
    }
}

/// How many of these have a smaller number.
fn place_for<T>(items: &[Item<T>], number: u32) -> usize
    requires { IsRising 0 (keys_of (map item_row items.now)) (2 ^ 32) }
    ensures within { result ≤ length items.now }
    ensures below { (k : ℕ) (d : Item T) → k < result → (get_or items.now k d).number < number }
    ensures rest { (k : ℕ) (d : Item T) → result ≤ k → k < length items.now
        → number ≤ (get_or items.now k d).number }
{
    items.partition_point(|item| item.number < number)
}

/// The place of the one that has a number, where the numbers rise. It is looked for first where one was found last, and
/// then where it stands as long as none was removed: as many places from the front as its number says, and the newest
/// last.
fn place_of<T>(items: &[Item<T>], number: u32, hint: usize) -> Option<usize>
    requires { IsRising 0 (keys_of (map item_row items.now)) (2 ^ 32) }
    ensures { result ≡ position (λ e. e.number == number) items.now }
{
    if hint < items.len() && items[hint].number == number {
        return Some(hint);
    }
    let near = items.len().min(number as usize);
    if 0 < near && items[near - 1].number == number {
        return Some(near - 1);
    }
    let place = place_for(items, number);
    if place == items.len() {
        return None;
    }
    let item = &items[place];
    if item.number != number {
        return None;
    }
    Some(place)
}
