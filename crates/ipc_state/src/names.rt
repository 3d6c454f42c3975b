//! The names of the objects of one kind in their directory; no bytes are no name, and have no place there.

ghost use Rattle.std.specs.Prelude.{◌≡◌, ◌≢◌, ◌<◌, ℕ, List, [], true, false, None, if◌then◌else◌, OnOk, OnErr};
ghost use Rattle.std.specs.Str.{bytes_eq};
ghost use Rattle.ipc_keys.specs.Directory.{is_vacant};
ghost use Rattle.ipc_state.specs.Directory.{name_added, number_at, or_else};

use crate::bound::Bound;
use ipc_keys::{Name, NameDir};
use std::alloc::{AllocError, Global};

/// The number of a name.
pub(crate) fn number_at(names: &NameDir, name: &[u8]) -> Option<u32>
    ensures { result ≡ number_at names.now name.now }
{
    if name.is_empty() {
        return None;
    }
    names.find(name)
}

/// Makes room for a name that has no number, so that `bind` takes no memory.
fn reserve(names: &mut NameDir, name: &[u8]) -> Result<(), AllocError>
    ensures names { (other : List ℕ) → number_at names.new other ≡ number_at names.old other }
    ensures ok { OnOk result (name.now ≢ [] → number_at names.old name.now ≡ None
        → is_vacant names.new name.now ≡ true) }
    ensures others { (other : List ℕ) → other ≢ name.now
        → is_vacant names.new other ≡ is_vacant names.old other }
    ensures none { is_vacant names.new [] ≡ is_vacant names.old [] }
    ensures err { OnErr result (names.new ≡ names.old) }
{
    if name.is_empty() {
        return Ok(());
    }
    if names.find(name).is_some() {
        return Ok(());
    }
    names.reserve(name)
}

/// Gives back the room of a name that has no number.
fn release(names: &mut NameDir, name: &[u8])
    ensures names { (other : List ℕ) → number_at names.new other ≡ number_at names.old other }
    ensures name { is_vacant names.new name.now ≡ false }
    ensures others { (other : List ℕ) → other ≢ name.now
        → is_vacant names.new other ≡ is_vacant names.old other }
{
    if names.find(name).is_none() {
        names.unbind(name);
    }
}

/// Gives a name, whose room is reserved, its number.
fn bind(names: &mut NameDir, name: &[u8], number: u32)
    requires vacant { name.now ≢ [] → is_vacant names.old name.now ≡ true }
    requires number { 0 < number }
    ensures names { (other : List ℕ) → number_at names.new other
        ≡ or_else (number_at names.old other) (name_added name.now number other) }
    ensures name { name.now ≢ [] → is_vacant names.new name.now ≡ false }
    ensures others { (other : List ℕ) → other ≢ name.now
        → is_vacant names.new other ≡ is_vacant names.old other }
    ensures none { is_vacant names.new [] ≡ is_vacant names.old [] }
{
    if name.is_empty() {
        return;
    }
    names.bind(name, number);
}

/// Gives a name that was read its number, unless it has one; 0 is not given. Refused for want of memory.
fn restore(names: &mut NameDir, name: &[u8], number: u32) -> Result<(), AllocError>
    ensures names { OnOk result (0 < number → (other : List ℕ) → number_at names.new other
        ≡ or_else (number_at names.old other) (name_added name.now number other)) }
    ensures zero { OnOk result (number ≡ 0 → (other : List ℕ)
        → number_at names.new other ≡ number_at names.old other) }
    ensures vacant { OnOk result ((other : List ℕ)
        → is_vacant names.old other ≡ false → is_vacant names.new other ≡ false) }
    ensures err { OnErr result (names.new ≡ names.old) }
{
    if name.is_empty() || number == 0 {
        return Ok(());
    }
    if names.find(name).is_some() {
        return Ok(());
    }
    names.reserve(name)?;
    names.bind(name, number);
    Ok(())
}

/// Takes a name out.
fn unbind(names: &mut NameDir, name: &[u8])
    ensures names { (other : List ℕ) → number_at names.new other
        ≡ if bytes_eq name.now other then None else number_at names.old other }
    ensures vacant { (other : List ℕ) → is_vacant names.old other ≡ false → is_vacant names.new other ≡ false }
{
    names.unbind(name);
}

impl Bound for Name {
    ghost use Rattle.std.proofs.lemmas.Slice.Eq.{bytes_eq-Decides};

    type Directory = NameDir;

    ghost same = { bytes_eq };

    ghost none = { [] };

    ghost number_in = { number_at };

    ghost is_vacant = { is_vacant };

    fn new_directory(alloc: Global) -> NameDir {
        NameDir::new(alloc)
    }

    fn names_none(&self) -> bool {
        self.is_none()
    }

    fn find(&self, directory: &NameDir) -> Option<u32> {
        number_at(directory, self.bytes())
    }

    fn reserve(&self, directory: &mut NameDir) -> Result<(), AllocError> {
        reserve(directory, self.bytes())
    }

    fn release(&self, directory: &mut NameDir) {
        release(directory, self.bytes());
    }

    fn bind(&self, directory: &mut NameDir, number: u32) {
        bind(directory, self.bytes(), number);
    }

    fn restore(&self, directory: &mut NameDir, number: u32) -> Result<(), AllocError> {
        restore(directory, self.bytes(), number)
    }

    fn lose(&mut self) {
        self.clear();
    }

    fn unbind(&self, directory: &mut NameDir) {
        unbind(directory, self.bytes());
    }

    ghost decides = { bytes_eq-Decides };
}
