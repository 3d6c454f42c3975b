//! The keys of the objects of one kind in their directory; IPC_PRIVATE names none, and has no place there.

ghost use Rattle.std.specs.Prelude.{◌≡◌, ◌≢◌, ◌<◌, ℤ, pos, true, false, None, if◌then◌else◌, OnOk, OnErr};
ghost use Rattle.std.specs.Ordering.{int_eq};
ghost use Rattle.ipc_keys.specs.Directory.{is_vacant};
ghost use Rattle.ipc_state.specs.Directory.{added, named_by, or_else};

use crate::bound::Bound;
use ipc_keys::KeyDir;
use std::alloc::{AllocError, Global};

/// The key of a get that always makes a new object. See msgget(2).
pub const IPC_PRIVATE: i32 = 0;

/// The identifier of a key.
fn named(keys: &KeyDir, key: i32) -> Option<u32>
    ensures { result ≡ named_by keys.now key }
{
    if key == IPC_PRIVATE {
        return None;
    }
    keys.find(key)
}

/// Makes room for a key that has no identifier, so that `bind` takes no memory.
fn reserve(keys: &mut KeyDir, key: i32) -> Result<(), AllocError>
    ensures names { (other : ℤ) → named_by keys.new other ≡ named_by keys.old other }
    ensures ok { OnOk result (key ≢ pos 0 → named_by keys.old key ≡ None → is_vacant keys.new key ≡ true) }
    ensures others { (other : ℤ) → other ≢ key → is_vacant keys.new other ≡ is_vacant keys.old other }
    ensures none { is_vacant keys.new (pos 0) ≡ is_vacant keys.old (pos 0) }
    ensures err { OnErr result (keys.new ≡ keys.old) }
{
    if key == IPC_PRIVATE {
        return Ok(());
    }
    if keys.find(key).is_some() {
        return Ok(());
    }
    keys.reserve(key)
}

/// Gives back the room of a key that has no identifier.
fn release(keys: &mut KeyDir, key: i32)
    ensures names { (other : ℤ) → named_by keys.new other ≡ named_by keys.old other }
    ensures key { is_vacant keys.new key ≡ false }
    ensures others { (other : ℤ) → other ≢ key → is_vacant keys.new other ≡ is_vacant keys.old other }
{
    if keys.find(key).is_none() {
        keys.unbind(key);
    }
}

/// Gives a key, whose room is reserved, its identifier.
fn bind(keys: &mut KeyDir, key: i32, id: u32)
    requires vacant { key ≢ pos 0 → is_vacant keys.old key ≡ true }
    requires number { 0 < id }
    ensures names { (other : ℤ) → named_by keys.new other ≡ or_else (named_by keys.old other) (added key id other) }
    ensures key { key ≢ pos 0 → is_vacant keys.new key ≡ false }
    ensures others { (other : ℤ) → other ≢ key → is_vacant keys.new other ≡ is_vacant keys.old other }
    ensures none { is_vacant keys.new (pos 0) ≡ is_vacant keys.old (pos 0) }
{
    if key == IPC_PRIVATE {
        return;
    }
    keys.bind(key, id);
}

/// Gives a key that was read its identifier, unless it has one. Refused for want of memory.
fn restore(keys: &mut KeyDir, key: i32, id: u32) -> Result<(), AllocError>
    ensures names { OnOk result (0 < id → (other : ℤ)
        → named_by keys.new other ≡ or_else (named_by keys.old other) (added key id other)) }
    ensures zero { OnOk result (id ≡ 0 → (other : ℤ) → named_by keys.new other ≡ named_by keys.old other) }
    ensures vacant { OnOk result ((other : ℤ) → is_vacant keys.old other ≡ false → is_vacant keys.new other ≡ false) }
    ensures err { OnErr result (keys.new ≡ keys.old) }
{
    if key == IPC_PRIVATE || id == 0 {
        return Ok(());
    }
    if keys.find(key).is_some() {
        return Ok(());
    }
    keys.reserve(key)?;
    keys.bind(key, id);
    Ok(())
}

/// Takes a key out.
fn unbind(keys: &mut KeyDir, key: i32)
    ensures names { (other : ℤ) → named_by keys.new other
        ≡ if int_eq key other then None else named_by keys.old other }
    ensures vacant { (other : ℤ) → is_vacant keys.old other ≡ false → is_vacant keys.new other ≡ false }
{
    keys.unbind(key);
}

impl Bound for i32 {
    ghost use Rattle.std.proofs.lemmas.Bool.Decides.{Decides-int_eq};

    type Directory = KeyDir;

    ghost same = { int_eq };

    ghost none = { pos 0 };

    ghost number_in = { named_by };

    ghost is_vacant = { is_vacant };

    fn new_directory(alloc: Global) -> KeyDir {
        KeyDir::new(alloc)
    }

    fn names_none(&self) -> bool {
        *self == IPC_PRIVATE
    }

    fn find(&self, directory: &KeyDir) -> Option<u32> {
        named(directory, *self)
    }

    fn reserve(&self, directory: &mut KeyDir) -> Result<(), AllocError> {
        reserve(directory, *self)
    }

    fn release(&self, directory: &mut KeyDir) {
        release(directory, *self);
    }

    fn bind(&self, directory: &mut KeyDir, number: u32) {
        bind(directory, *self, number);
    }

    fn restore(&self, directory: &mut KeyDir, number: u32) -> Result<(), AllocError> {
        restore(directory, *self, number)
    }

    fn lose(&mut self) {
        *self = IPC_PRIVATE;
    }

    fn unbind(&self, directory: &mut KeyDir) {
        unbind(directory, *self);
    }

    ghost decides = { Decides-int_eq };
}
