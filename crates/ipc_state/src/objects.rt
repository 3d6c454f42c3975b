//! The objects of one kind: each with its number, and with the key or the name that it is bound to.

ghost use Rattle.std.specs.Prelude.{◌≡◌, ◌<◌, ◌^◌, ◌↔◌, ◌&&◌, ⊤, true, is_some, None, Some, IsTrue, IfSome};
ghost use Rattle.std.specs.Prelude.{◌≤◌, ℕ, Bool, OnOk, OnErr, map, option_map, option_copied, nat_lt, sum_by};
ghost use Rattle.std.specs.Borrow.{sem};
ghost use Rattle.std.specs.List.{list_all};
ghost use Rattle.std.specs.Option.{option_copied_mut};
ghost use Rattle.ipc_state.specs.Lends.{lends_object};
ghost use Rattle.ipc_state.specs.declared.objects.Entry.{Entry};
ghost use Rattle.ipc_state.specs.Bound.{AreBound, AreFound, number_of, permitting, unbound};
ghost use Rattle.ipc_state.specs.Keyed.{keyed};
ghost use Rattle.ipc_state.specs.Named.{named};
ghost use Rattle.ipc_state.specs.Tests.{is_named};
ghost use Rattle.ipc_state.specs.Numbered.{
  none_yet,
  entry_of,
  is_full as is_full_of,
  with_entry,
  with_new,
  with_last,
  without_entry,
};
ghost use Rattle.ipc_state.specs.Directory.{ArePositive};
ghost use Rattle.ipc_state.specs.Tables.{item_row, numbered_of};

use crate::bound::Bound;
use crate::names;
use crate::numbered::{Item, Numbered};
use ipc_base::Id;
use ipc_keys::Name;
use ipc_perm::Perm;
use std::alloc::{AllocError, Global};
use std::marker::Model;

/// An object that is made ready before it is known what is asked of it.
pub(crate) trait Renew: Drop {
    /// What is asked.
    type Spec;

    ghost MayBe: { Self.Spec → Type 0 };

    ghost renewed: { Self → Self.Spec → Self };

    /// Makes it what is asked. It takes no memory.
    fn make(&mut self, asked: Self::Spec)
        requires { MayBe asked }
        ensures { self.new ≡ renewed self.old asked };
}

/// An object that may go if it is bound to none and no descriptor is open on it.
pub(crate) trait Leaves: Drop {
    ghost leaves: { Self → Bool };

    ghost parted: { Self → Self };

    /// Whether it does.
    fn leaves(&self) -> bool
        ensures { result ≡ leaves self.now };

    /// It is bound to none any more.
    fn part(&mut self)
        ensures { self.new ≡ parted self.old };
}

/// An object of which all of a kind together are limited, by the semaphores or the bytes that it has.
pub(crate) trait Counted {
    ghost count: { Self → ℕ };

    /// How many it has.
    fn count(&self) -> u128
        ensures { result ≡ count self.now };
}

/// An object, what it is bound to, and who may use it.
#[derive(Drop)]
pub struct Entry<B, T> {
    /// `IPC_PRIVATE` for no key; no bytes for no name, as after an unlink.
    pub bound: B,
    /// Of an object with a name, the owner is who made it.
    pub perm: Perm,
    pub object: T,
}

/// An object with a key, and one with a name.
pub type KeyedEntry<T> = Entry<i32, T>;

pub type NamedEntry<T> = Entry<Name, T>;

/// The objects of one kind. A contract sees them by number, and what is ready to be added.
pub struct ObjectTable<B: Bound, T> {
    pub(crate) objects: Numbered<Entry<B, T>>,
    /// The number of each key or name.
    directory: B::Directory,
    /// The next one, for which there is a place, with what it is to be bound to.
    ready: Option<(B, T)>,
}

/// Objects with keys, and objects with names.
pub type Keyed<T> = ObjectTable<i32, T>;

pub type Named<T> = ObjectTable<Name, T>;

impl<B: Bound, T: Drop> Drop for ObjectTable<B, T> {
    fn drop(self) {
        let ObjectTable {
            objects: _,
            directory: _,
            ready: _,
        } = self;
    }
}

impl<B: Bound, T> Model for ObjectTable<B, T> {
    ghost use Rattle.std.specs.Prelude.{option_map};
    ghost use Rattle.ipc_state.specs.Bound.{number_of};
    ghost use Rattle.ipc_state.specs.Directory.{Agrees, IsReady};
    ghost use Rattle.ipc_state.specs.Tables.{HeldObjects, numbered_of, has_place};

    ghost Value = { HeldObjects B T };

    ghost view = { λ o. record { objects = numbered_of o.objects; ready = o.ready } };

    ghost invariant = { λ o. Agrees (B.number_in o.directory) (number_of B.same B.none (numbered_of o.objects))
        × IsReady B.none (B.is_vacant o.directory) (B.number_in o.directory) (has_place o.objects)
        (option_map (λ r. r.0) o.ready) };
}

impl<B: Bound, T> ObjectTable<B, T> {
    /// None yet. It takes no memory.
    pub(crate) fn new(alloc: Global) -> Self
        ensures objects { result.objects ≡ none_yet }
        ensures ready { result.ready ≡ None }
    {
        ObjectTable {
            objects: Numbered::new(alloc),
            directory: B::new_directory(alloc),
            ready: None,
        }
    }

    /// All of them, by number.
    pub fn items(&self) -> &[Item<Entry<B, T>>]
        ensures { map item_row result.now ≡ self.now.objects.entries }
    {
        self.objects.items()
    }

    /// The number of the next one.
    pub fn next(&self) -> u32
        ensures { result ≡ self.now.objects.next }
    {
        self.objects.next()
    }

    /// What a number has.
    pub fn get(&self, number: u32) -> Option<&Entry<B, T>>
        ensures { option_copied result ≡ entry_of self.now.objects number }
    {
        match self.objects.get(number) {
            Some(item) => Some(&item.value),
            None => None,
        }
    }

    /// The object that a number has, to be changed.
    pub fn get_mut(&mut self, number: u32) -> Option<&mut T>
        ensures* writes_back { sem 𝓛
            (lends_object B.row T.row B.Directory.row B.Bound self.entry number result) }
        ensures object { option_copied_mut result ≡ option_map (λ e. e.object) (entry_of self.old.objects number) }
    {
        let entry = self.objects.get_mut(number)?;
        Some(&mut entry.object)
    }

    /// Whether none can be added: there are `most`, or no number is left.
    pub fn is_full(&self, most: u32) -> bool
        ensures { result ≡ is_full_of most self.now.objects }
    {
        self.objects.is_full(most)
    }

    /// Whether one is ready to be added.
    pub(crate) fn is_ready(&self) -> bool
        ensures { result ≡ is_some self.now.ready }
    {
        self.ready.is_some()
    }

    /// Gives back what is ready, if anything is. It takes no memory.
    pub(crate) fn release(&mut self) -> Option<T>
        ensures { self.new ≡ record self.old { ready = None } }
    {
        // Before most calls nothing is ready, and then nothing is moved.
        if !self.is_ready() {
            return None;
        }
        let (bound, object) = self.ready.take()?;
        bound.release(&mut self.directory);
        Some(object)
    }

    /// Replaces who may use the object of a number.
    pub(crate) fn set_perm(&mut self, number: u32, perm: Perm)
        requires { is_some (entry_of self.old.objects number) ≡ true }
        ensures { (e : Entry B T) → entry_of self.old.objects number ≡ Some e
            → self.new ≡ record self.old { objects = with_entry self.old.objects number (permitting e perm) } }
    {
        self.objects.get_mut(number).unwrap().perm = perm;
    }

    /// Replaces the number of the next one.
    pub(crate) fn set_next(&mut self, next: u32)
        ensures { self.new
            ≡ record self.old { objects = record { next = next; entries = self.old.objects.entries } } }
    {
        self.objects.set_next(next);
    }

    /// Whether numbers, keys or names, and modes are sound, and there are no more objects than `most`.
    pub(crate) fn are_bound(&self, most: u32) -> bool
        ensures { IsTrue result ↔ AreBound B.same B.none most (λ x. ⊤) self.now.objects }
    {
        self.objects.are_numbered(most)
            && are_named_with_modes(&self.directory, self.objects.items())
    }
}

impl<B: Bound, T: Drop> ObjectTable<B, T> {
    /// Makes this object ready to be added, bound to this, in place of what was. Refused for want of memory, nothing is
    /// ready.
    pub(crate) fn reserve(&mut self, bound: B, object: T) -> Result<(), AllocError>
        ensures ok { OnOk result (self.new ≡ record self.old { ready = Some (bound, object) }) }
        ensures err { OnErr result (self.new ≡ record self.old { ready = None }) }
    {
        let _before = self.release();
        self.objects.reserve()?;
        bound.reserve(&mut self.directory)?;
        self.ready = Some((bound, object));
        Ok(())
    }

    /// Adds one that was read, at the end. Nothing is ready then. Refused for want of memory, all else is as before.
    pub(crate) fn restore(&mut self, number: u32, entry: Entry<B, T>) -> Result<(), AllocError>
        ensures ok { OnOk result (self.new
            ≡ record { objects = with_last self.old.objects number entry; ready = None }) }
        ensures err { OnErr result (self.new ≡ record self.old { ready = None }) }
    {
        let _before = self.release();
        self.objects.reserve()?;
        entry.bound.restore(&mut self.directory, number)?;
        self.objects.push(number, entry);
        Ok(())
    }

    /// Takes one out; its key or name names none then, and nothing is ready. It takes no memory.
    pub(crate) fn remove(&mut self, number: u32)
        requires found { AreFound B.same B.none self.old.objects }
        requires there { is_some (entry_of self.old.objects number) ≡ true }
        ensures { self.new ≡ record { objects = without_entry self.old.objects number; ready = None } }
    {
        let _before = self.release();
        let item = self.objects.get(number).unwrap();
        item.value.bound.unbind(&mut self.directory);
        self.objects.remove(number);
    }
}

impl<B: Bound, T: Renew> ObjectTable<B, T> {
    /// Adds the one that is ready, made what is asked, under the next number, which it gives. It takes no memory.
    pub(crate) fn add(&mut self, perm: Perm, asked: T::Spec) -> u32
        requires ready { is_some self.old.ready ≡ true }
        requires unused { IfSome self.old.ready (λ r. number_of B.same B.none self.old.objects r.0 ≡ None) }
        requires positive { ArePositive self.old.objects.entries }
        requires number { (0 < self.old.objects.next) × (self.old.objects.next < 2 ^ 31) }
        requires may { T.MayBe asked }
        ensures added { IfSome self.old.ready (λ r. self.new ≡ record {
          objects = with_new self.old.objects (record { bound = r.0; perm = perm; object = T.renewed r.1 asked });
          ready = None;
        }) }
        ensures number { result ≡ self.old.objects.next }
    {
        let (bound, mut object) = self.ready.take().unwrap();
        object.make(asked);
        bound.bind(&mut self.directory, self.objects.next());
        self.objects.add(Entry {
            bound,
            perm,
            object,
        })
    }
}

impl<B: Bound, T: Counted> ObjectTable<B, T> {
    /// Whether all of them together count no more than `most`.
    pub(crate) fn count_at_most(&self, most: usize) -> bool
        ensures { IsTrue result ↔ (sum_by (λ e. T.count e.1.object) self.now.objects.entries ≤ most) }
    {
        are_few(self.objects.items(), most)
    }
}

impl<T> ObjectTable<i32, T> {
    /// The identifier that a key names; IPC_PRIVATE names none.
    pub fn of_key(&self, key: i32) -> Option<Id>
        ensures { ArePositive self.now.objects.entries → option_map (λ id. id.0) result ≡ keyed self.now.objects key }
    {
        match key.find(&self.directory) {
            Some(id) => Some(Id(id)),
            None => None,
        }
    }
}

impl<T> ObjectTable<Name, T> {
    /// The number that a name names; no bytes name none.
    pub fn of_name(&self, name: &[u8]) -> Option<u32>
        ensures { ArePositive self.now.objects.entries → result ≡ named self.now.objects name.now }
    {
        names::number_at(&self.directory, name)
    }
}

impl<B: Bound, T: Leaves> ObjectTable<B, T> {
    /// An object is bound to none any more; nothing is ready. It takes no memory. See unlink(2).
    pub(crate) fn unbind(&mut self, number: u32)
        requires found { AreFound B.same B.none self.old.objects }
        requires there { is_some (entry_of self.old.objects number) ≡ true }
        ensures { self.new ≡ record { objects = unbound T.parted B.none self.old.objects number; ready = None } }
    {
        let _before = self.release();
        let item = self.objects.get(number).unwrap();
        item.value.bound.unbind(&mut self.directory);
        clear_bound(&mut self.objects, number);
    }
}

/// Leaves what an object is bound to, if it is there.
fn clear_bound<B: Bound, T: Leaves>(objects: &mut Numbered<Entry<B, T>>, number: u32)
    ensures { numbered_of objects.new ≡ unbound T.parted B.none (numbered_of objects.old) number }
{
    if let Some(entry) = objects.get_mut(number) {
        entry.bound.lose();
        entry.object.part();
    }
}

/// Whether what an object is bound to names it, or names none.
fn names_it<B: Bound, T>(directory: &B::Directory, item: &Item<Entry<B, T>>) -> bool
    ensures { result ≡ is_named (B.number_in directory.now item.now.value.bound)
        (B.same item.now.value.bound B.none) item.now.number }
{
    match item.value.bound.find(directory) {
        Some(number) => number == item.number,
        None => item.value.bound.names_none(),
    }
}

/// Whether each object is named so.
fn are_named<B: Bound, T>(directory: &B::Directory, items: &[Item<Entry<B, T>>]) -> bool
    ensures { result ≡ list_all
        (λ e. is_named (B.number_in directory.now e.value.bound) (B.same e.value.bound B.none) e.number) items.now }
{
    items.iter().all(|item| names_it(directory, item))
}

/// Whether the keys or names and the modes of these are sound.
fn are_named_with_modes<B: Bound, T>(directory: &B::Directory, items: &[Item<Entry<B, T>>]) -> bool
    ensures { result ≡ (list_all
        (λ e. is_named (B.number_in directory.now e.value.bound) (B.same e.value.bound B.none) e.number) items.now
        && list_all (λ e. nat_lt e.value.perm.mode 512) items.now) }
{
    are_named(directory, items) && have_modes(items)
}

/// Whether these together count no more than `most`.
fn are_few<B, T: Counted>(items: &[Item<Entry<B, T>>], most: usize) -> bool
    ensures { IsTrue result ↔ (sum_by (λ e. T.count e.value.object) items.now ≤ most) }
{
    let mut left = most as u128;
    for item in items {
        let count = item.value.object.count();
        if left < count {
            return false;
        }
        left -= count;
    }
    true
}

/// Whether each mode has nine bits.
fn have_modes<B, T>(items: &[Item<Entry<B, T>>]) -> bool
    ensures { result ≡ list_all (λ e. nat_lt e.value.perm.mode 512) items.now }
{
    items.iter().all(|item| item.value.perm.mode < 0o1000)
}
