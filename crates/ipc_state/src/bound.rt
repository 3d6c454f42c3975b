//! What an object is bound to, by which a get finds it: a key, or a name.

ghost use Rattle.std.specs.Bool.{Decides};
ghost use Rattle.std.specs.Prelude.{◌≡◌, ◌≢◌, ◌<◌, ℕ, Bool, Option, true, false, None, if◌then◌else◌, OnOk, OnErr};
ghost use Rattle.ipc_state.specs.Directory.{adds, or_else};

use std::alloc::{AllocError, Global};

/// A key or a name. One of them names none, and has no place in a directory: IPC_PRIVATE, or no bytes.
pub trait Bound: Drop {
    /// Which number each of them names, of the objects of one kind.
    type Directory: Drop;

    /// Whether two are one.
    ghost same: { Self → Self → Bool };

    /// The one that names none.
    ghost none: { Self };

    /// What one names.
    ghost number_in: { Self.Directory → Self → Option ℕ };

    /// Whether one that names none has a place.
    ghost is_vacant: { Self.Directory → Self → Bool };

    /// A directory without any. It takes no memory.
    fn new_directory(alloc: Global) -> Self::Directory
        ensures number { (other : Self) → number_in result other ≡ None }
        ensures vacant { (other : Self) → is_vacant result other ≡ false };

    /// Whether it is the one that names none.
    fn names_none(&self) -> bool
        ensures { result ≡ same self.now none };

    /// The number that it names.
    fn find(&self, directory: &Self::Directory) -> Option<u32>
        ensures { result ≡ number_in directory.now self.now };

    /// Makes room for it, if it has no number, so that `bind` takes no memory.
    fn reserve(&self, directory: &mut Self::Directory) -> Result<(), AllocError>
        ensures names { (other : Self) → number_in directory.new other ≡ number_in directory.old other }
        ensures ok { OnOk result (self.now ≢ none → number_in directory.old self.now ≡ None
            → is_vacant directory.new self.now ≡ true) }
        ensures others { (other : Self) → other ≢ self.now
            → is_vacant directory.new other ≡ is_vacant directory.old other }
        ensures free { is_vacant directory.new none ≡ is_vacant directory.old none }
        ensures err { OnErr result (directory.new ≡ directory.old) };

    /// Gives back its room, if it has no number.
    fn release(&self, directory: &mut Self::Directory)
        ensures names { (other : Self) → number_in directory.new other ≡ number_in directory.old other }
        ensures own { is_vacant directory.new self.now ≡ false }
        ensures others { (other : Self) → other ≢ self.now
            → is_vacant directory.new other ≡ is_vacant directory.old other };

    /// Gives it, whose room is reserved, its number.
    fn bind(&self, directory: &mut Self::Directory, number: u32)
        requires vacant { self.now ≢ none → is_vacant directory.old self.now ≡ true }
        requires number { 0 < number }
        ensures names { (other : Self) → number_in directory.new other
            ≡ or_else (number_in directory.old other) (adds same none self.now number other) }
        ensures own { self.now ≢ none → is_vacant directory.new self.now ≡ false }
        ensures others { (other : Self) → other ≢ self.now
            → is_vacant directory.new other ≡ is_vacant directory.old other }
        ensures free { is_vacant directory.new none ≡ is_vacant directory.old none };

    /// Gives one that was read its number, unless it has one; 0 is not given. Refused for want of memory.
    fn restore(&self, directory: &mut Self::Directory, number: u32) -> Result<(), AllocError>
        ensures names { OnOk result (0 < number → (other : Self) → number_in directory.new other
            ≡ or_else (number_in directory.old other) (adds same none self.now number other)) }
        ensures zero { OnOk result (number ≡ 0 → (other : Self)
            → number_in directory.new other ≡ number_in directory.old other) }
        ensures vacant { OnOk result ((other : Self)
            → is_vacant directory.old other ≡ false → is_vacant directory.new other ≡ false) }
        ensures err { OnErr result (directory.new ≡ directory.old) };

    /// Makes it the one that names none.
    fn lose(&mut self)
        ensures { self.new ≡ none };

    /// Takes it out.
    fn unbind(&self, directory: &mut Self::Directory)
        ensures names { (other : Self) → number_in directory.new other
            ≡ if same self.now other then None else number_in directory.old other }
        ensures vacant { (other : Self)
            → is_vacant directory.old other ≡ false → is_vacant directory.new other ≡ false };

    ghost decides: { (one other : Self) → Decides (same one other) (one ≡ other) };
}
