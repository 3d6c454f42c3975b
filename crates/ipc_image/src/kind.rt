//! What a thing with a key has beside the key and who may use it, whatever it is.

ghost use Rattle.std.specs.Prelude.{◌≡◌, ◌≢◌, ◌<◌, ◌^◌, ◌++◌, ◌∷◌, [], ℕ, List, All, length, Err, IfOk, OnOk};
ghost use Rattle.std.specs.List.{flat_map};
ghost use Rattle.ipc_base.specs.declared.field.Size.{Size};
ghost use Rattle.ipc_limits.specs.declared.limits.Limits.{Limits};
ghost use Rattle.ipc_base.specs.Numbers.{fields_bytes, FitFields};
ghost use Rattle.ipc_engine.specs.declared.fault.StateFault.{StateFault};
ghost use Rattle.ipc_state.specs.Keyed.{KeyedEntry as PlainEntry};
ghost use Rattle.ipc_state.specs.State.{State as PlainState};
ghost use Rattle.ipc_image.specs.Saved.{counted_bytes};
ghost use Rattle.ipc_image.specs.SavedParts.{with_more, IsMarkIn, IsPlace};
ghost use Rattle.ipc_image.specs.Window.{passed};

use crate::window::Window;
use ipc_base::{Id, Mark};
use ipc_engine::StateFault;
use ipc_state::{KeyedEntry, State};
use std::alloc::{AllocError, Global};

/// A thing with a key, which has an object of its own: beside the key and who may use it, its own numbers and its
/// parts.
pub(crate) trait Kind: Drop {
    /// Its numbers.
    ghost sizes: { List Size };

    ghost numbers: { Self → List ℕ };

    /// Its parts, and the bytes of each.
    ghost Part: { Type 0 };

    ghost part_bytes: { Part → List ℕ };

    ghost FitsPart: { Part → Type 0 };

    ghost parts: { Self → List Part };

    /// What has these numbers and these parts.
    ghost from: { List ℕ → List Part → Self };

    /// What is known of a sound one.
    ghost IsSmall: { Self → Type 0 };

    /// The number of an object is this one and the identifier.
    ghost FIRST: { ℕ };

    const FIRST: u64;

    /// Those of a state, by identifier.
    ghost items: { PlainState × Limits → List (ℕ × PlainEntry Self) };

    ghost put: { PlainState × Limits → List (ℕ × PlainEntry Self) → PlainState × Limits };

    /// Reads each number of it and of its parts, so that each has its place.
    fn read_numbers(&self)
        requires { IsSmall self.now }
        ensures numbers { FitFields sizes (numbers self.now) }
        ensures count { length (parts self.now) < 2 ^ 32 }
        ensures parts { All FitsPart (parts self.now) };

    /// How many bytes its numbers and its parts have.
    fn len(&self) -> u64
        requires { length (fields_bytes sizes (numbers self.now)
            ++ counted_bytes part_bytes (parts self.now)) < 2 ^ 64 }
        ensures { result ≡ length (fields_bytes sizes (numbers self.now)
            ++ counted_bytes part_bytes (parts self.now)) };

    /// Its numbers pass the window.
    fn put_numbers(&self, window: &mut Window)
        ensures { window.new ≡ passed (fields_bytes sizes (numbers self.now)) window.old };

    /// How many parts there are, and each of them, pass the window. The mark is of them.
    fn put_parts(&self, window: &mut Window, mark: &mut Mark)
        requires count { length (parts self.now) < 2 ^ 32 }
        requires fit { All FitsPart (parts self.now) }
        requires short { length (flat_map part_bytes (parts self.now)) < 2 ^ 64 }
        requires mark { IsMarkIn part_bytes (parts self.now) mark.old }
        ensures passed { window.new ≡ passed (counted_bytes part_bytes (parts self.now)) window.old }
        ensures mark { IsMarkIn part_bytes (parts self.now) mark.new };

    /// Reads its numbers: it has no parts yet, and the bytes after them are left.
    fn read_head(alloc: Global, bytes: &[u8]) -> Result<(Self, &[u8]), StateFault>
        ensures ok { IfOk result (λ found. (ns : List ℕ) × FitFields sizes ns
            × (bytes.now ≡ fields_bytes sizes ns ++ found.1.now) × (found.0 ≡ from ns [])) }
        ensures damaged { result ≡ Err StateFault.Unsound → (ns rest : List ℕ) → FitFields sizes ns
            → bytes.now ≢ fields_bytes sizes ns ++ rest };

    /// Reads how many parts there are, and them, and nothing after them.
    fn read_parts(&mut self, bytes: &[u8]) -> Result<(), StateFault>
        ensures ok { OnOk result ((ps : List Part) × (length ps < 2 ^ 32) × All FitsPart ps
            × (bytes.now ≡ counted_bytes part_bytes ps)
            × ((ns : List ℕ) → self.old ≡ from ns [] → self.new ≡ from ns ps)) }
        ensures damaged { result ≡ Err StateFault.Unsound → (ps : List Part) → length ps < 2 ^ 32
            → All FitsPart ps → bytes.now ≢ counted_bytes part_bytes ps };

    /// Adds what was read to a state, at the end.
    fn add(state: &mut State, id: Id, entry: KeyedEntry<Self>) -> Result<(), AllocError>
        ensures { OnOk result ((state.new.state, state.new.limits)
            ≡ with_more items put (state.old.state, state.old.limits) ((id.0, entry) ∷ [])) };

    /// It has those numbers and those parts.
    ghost known: { (ns : List ℕ) (ps : List Part) → FitFields sizes ns
        → (numbers (from ns ps) ≡ ns) × (parts (from ns ps) ≡ ps) };

    /// It has no more than them.
    ghost whole: { (x : Self) → from (numbers x) (parts x) ≡ x };

    /// A part is told by its bytes, whatever follows them.
    ghost part_one: { (p q : Part) (more others : List ℕ) → FitsPart p → FitsPart q
        → part_bytes p ++ more ≡ part_bytes q ++ others → (p ≡ q) × (more ≡ others) };

    /// What was added is what is found there.
    ghost place: { IsPlace items put };
}
