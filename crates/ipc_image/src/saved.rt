//! What every list of things in a saved object has, whatever they are: it passes a window, and is read back.

ghost use Rattle.std.specs.Prelude.{◌≡◌, ◌≢◌, ◌<◌, ◌^◌, ◌++◌, ◌∷◌, [], ℕ, List, All};
ghost use Rattle.std.specs.Prelude.{length, map, option_map, slice_get, Err, IfOk, OnOk, Some};
ghost use Rattle.std.specs.List.{flat_map};
ghost use Rattle.ipc_engine.specs.declared.fault.StateFault.{StateFault};
ghost use Rattle.ipc_image.specs.Shape.{Shape, Tree, tree_bytes, bytes_in, IsTree};
ghost use Rattle.ipc_image.specs.Saved.{counted_bytes};
ghost use Rattle.ipc_image.specs.SavedParts.{first_bytes, with_more, IsMarkIn, IsPlace};
ghost use Rattle.ipc_image.specs.Window.{Shown, passed};

use crate::fields::{put_count, take_count};
use crate::window::Window;
use ipc_base::Mark;
use ipc_engine::StateFault;

/// The mark of nothing.
pub(crate) const START: Mark = Mark { parts: 0, bytes: 0 };

/// A thing of the state that stands in a saved object among others of its kind.
pub(crate) trait Saved {
    /// To what it is added when it is read.
    type Into;

    /// What it is for the definitions.
    ghost Plain: { Type 0 };

    ghost plain: { Self → Plain };

    /// Its bytes.
    ghost shape: { Shape };

    ghost tree: { Plain → Tree shape };

    /// Each of its numbers has its place.
    ghost Fits: { Plain → Type 0 };

    /// What a contract sees of that, and which of these are there.
    ghost Seen: { Type 0 };

    ghost seen: { Self.Into → Seen };

    ghost items: { Seen → List Plain };

    ghost put: { Seen → List Plain → Seen };

    /// How many bytes it has.
    fn len(&self) -> u64
        requires { Fits (plain self.now) }
        ensures { result ≡ length (tree_bytes shape (tree (plain self.now))) };

    /// It passes the window.
    fn put(&self, window: &mut Window)
        requires { Fits (plain self.now) }
        ensures { window.new ≡ passed (tree_bytes shape (tree (plain self.now))) window.old };

    /// Reads one at the front of the bytes, and adds it. The bytes after it are left.
    fn take<'b>(into: &mut Self::Into, bytes: &'b [u8]) -> Result<&'b [u8], StateFault>
        ensures ok { IfOk result (λ rest. (x : Plain) × Fits x
            × (bytes.now ≡ tree_bytes shape (tree x) ++ rest.now)
            × (seen into.new ≡ with_more items put (seen into.old) (x ∷ []))) }
        ensures damaged { result ≡ Err StateFault.Unsound → (x : Plain) (rest : List ℕ) → Fits x
            → bytes.now ≢ tree_bytes shape (tree x) ++ rest };

    /// What fits has a tree of that shape.
    ghost known: { (x : Plain) → Fits x → IsTree shape (tree x) };

    /// Two of one tree are one.
    ghost one: { (x y : Plain) → Fits x → Fits y → tree x ≡ tree y → x ≡ y };

    /// What was added is what is found there.
    ghost place: { IsPlace items put };
}

/// Things of one kind in their order, each of which is told by its place.
pub(crate) trait Listed {
    /// What one is for the definitions, its bytes, and that each of its numbers has its place.
    ghost Plain: { Type 0 };

    ghost bytes: { Plain → List ℕ };

    ghost Fits: { Plain → Type 0 };

    /// All of them.
    ghost items: { Self → List Plain };

    /// How many there are.
    fn count(&self) -> usize
        ensures { result ≡ length (items self.now) };

    /// How many bytes the one at this place has.
    fn len_at(&self, at: usize) -> u64
        requires there { at < length (items self.now) }
        requires fit { All Fits (items self.now) }
        ensures { option_map (λ x. length (bytes x)) (slice_get (items self.now) at) ≡ Some result };

    /// The one at this place passes the window.
    fn put_at(&self, at: usize, window: &mut Window)
        requires there { at < length (items self.now) }
        requires fit { All Fits (items self.now) }
        ensures { option_map (λ x. passed (bytes x) window.old) (slice_get (items self.now) at) ≡ Some window.new };
}

/// The things of a slice.
#[derive(Drop)]
pub(crate) struct InSlice<'a, T>(pub(crate) &'a [T]);

impl<'a, T: Saved> Listed for InSlice<'a, T> {
    ghost Plain = { T.Plain };

    ghost bytes = { bytes_in T.shape T.tree };

    ghost Fits = { T.Fits };

    ghost items = { λ s. map T.plain s.0.now };

    fn count(&self) -> usize {
        self.0.len()
    }

    fn len_at(&self, at: usize) -> u64 {
        self.0[at].len()
    }

    fn put_at(&self, at: usize, window: &mut Window) {
        self.0[at].put(window);
    }
}

/// How many bytes all of them have.
pub(crate) fn list_len<L: Listed>(items: &L) -> u64
    requires fit { All L.Fits (L.items items.now) }
    requires short { length (flat_map L.bytes (L.items items.now)) < 2 ^ 64 }
    ensures { result ≡ length (flat_map L.bytes (L.items items.now)) }
{
    let mut len = 0;
    for at in 0..items.count() {
        len += items.len_at(at);
    }
    len
}

/// All of them pass the window. The mark is of them.
pub(crate) fn put_list<L: Listed>(window: &mut Window, items: &L, mark: &mut Mark)
    requires fit { All L.Fits (L.items items.now) }
    requires short { length (flat_map L.bytes (L.items items.now)) < 2 ^ 64 }
    requires mark { IsMarkIn L.bytes (L.items items.now) mark.old }
    ensures passed { window.new ≡ passed (flat_map L.bytes (L.items items.now)) window.old }
    ensures mark { IsMarkIn L.bytes (L.items items.now) mark.new }
{
    if !window.passes_over(mark.bytes) {
        *mark = START;
    }
    pass_over(window, items, mark);
    put_from(window, items, mark.parts);
}

// The mark goes on over those that end before the window begins; they have passed then.
fn pass_over<L: Listed>(window: &mut Window, items: &L, mark: &mut Mark)
    requires fit { All L.Fits (L.items items.now) }
    requires short { length (flat_map L.bytes (L.items items.now)) < 2 ^ 64 }
    requires mark { IsMarkIn L.bytes (L.items items.now) mark.old }
    ensures passed { (begun : Shown)
        → window.old ≡ passed (first_bytes L.bytes mark.old.parts (L.items items.now)) begun
        → window.new ≡ passed (first_bytes L.bytes mark.new.parts (L.items items.now)) begun }
    ensures mark { IsMarkIn L.bytes (L.items items.now) mark.new }
{
    while mark.parts < items.count() {
        let len = items.len_at(mark.parts);
        if !window.passes_over(len) {
            return;
        }
        mark.parts += 1;
        mark.bytes += len;
    }
}

/// Those after the first ones pass the window, as many as are seen.
pub(crate) fn put_from<L: Listed>(window: &mut Window, items: &L, first: usize)
    requires { All L.Fits (L.items items.now) }
    ensures { (begun : Shown)
        → window.old ≡ passed (first_bytes L.bytes first (L.items items.now)) begun
        → window.new ≡ passed (flat_map L.bytes (L.items items.now)) begun }
{
    for at in first..items.count() {
        if window.is_full() {
            return;
        }
        items.put_at(at, window);
    }
}

/// Reads so many, and adds them. The bytes after them are left.
pub(crate) fn take_list<'b, T: Saved>(
    into: &mut T::Into,
    count: u32,
    bytes: &'b [u8],
) -> Result<&'b [u8], StateFault>
    ensures ok { IfOk result (λ rest. (xs : List T.Plain) × All T.Fits xs × (length xs ≡ count)
        × (bytes.now ≡ flat_map (bytes_in T.shape T.tree) xs ++ rest.now)
        × (T.seen into.new ≡ with_more T.items T.put (T.seen into.old) xs)) }
    ensures damaged { result ≡ Err StateFault.Unsound → (xs : List T.Plain) (rest : List ℕ)
        → length xs ≡ count → All T.Fits xs → bytes.now ≢ flat_map (bytes_in T.shape T.tree) xs ++ rest }
{
    let mut left = bytes;
    for _ in 0..count {
        left = T::take(into, left)?;
    }
    Ok(left)
}

/// Reads so many, and nothing after them, and adds them.
pub(crate) fn read_list<T: Saved>(
    into: &mut T::Into,
    count: u32,
    bytes: &[u8],
) -> Result<(), StateFault>
    ensures ok { OnOk result ((xs : List T.Plain) × All T.Fits xs × (length xs ≡ count)
        × (bytes.now ≡ flat_map (bytes_in T.shape T.tree) xs)
        × (T.seen into.new ≡ with_more T.items T.put (T.seen into.old) xs)) }
    ensures damaged { result ≡ Err StateFault.Unsound → (xs : List T.Plain)
        → length xs ≡ count → All T.Fits xs → bytes.now ≢ flat_map (bytes_in T.shape T.tree) xs }
{
    let rest = take_list::<T>(into, count, bytes)?;
    if !rest.is_empty() {
        return Err(StateFault::Unsound);
    }
    Ok(())
}

/// Reads how many there are, and them, and nothing after them, and adds them.
pub(crate) fn read_counted<T: Saved>(into: &mut T::Into, bytes: &[u8]) -> Result<(), StateFault>
    ensures ok { OnOk result ((xs : List T.Plain) × (length xs < 2 ^ 32) × All T.Fits xs
        × (bytes.now ≡ counted_bytes (bytes_in T.shape T.tree) xs)
        × (T.seen into.new ≡ with_more T.items T.put (T.seen into.old) xs)) }
    ensures damaged { result ≡ Err StateFault.Unsound → (xs : List T.Plain)
        → length xs < 2 ^ 32 → All T.Fits xs → bytes.now ≢ counted_bytes (bytes_in T.shape T.tree) xs }
{
    let Some((count, rest)) = take_count(bytes) else {
        return Err(StateFault::Unsound);
    };
    read_list::<T>(into, count, rest)
}

/// How many there are, and all of them, pass the window. The mark is of them.
pub(crate) fn put_counted<L: Listed>(window: &mut Window, items: &L, mark: &mut Mark)
    requires few { length (L.items items.now) < 2 ^ 32 }
    requires fit { All L.Fits (L.items items.now) }
    requires short { length (flat_map L.bytes (L.items items.now)) < 2 ^ 64 }
    requires mark { IsMarkIn L.bytes (L.items items.now) mark.old }
    ensures passed { window.new ≡ passed (counted_bytes L.bytes (L.items items.now)) window.old }
    ensures mark { IsMarkIn L.bytes (L.items items.now) mark.new }
{
    put_count(window, items.count() as u32);
    put_list(window, items, mark);
}
