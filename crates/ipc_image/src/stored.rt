//! What has an object of its own, whatever it is: read one after another, those of one kind numbered in a row.

ghost use Rattle.std.specs.Prelude.{◌≡◌, ◌≢◌, ◌<◌, ◌+◌, ◌^◌, ◌++◌, ◌∷◌, [], ℕ, List, All};
ghost use Rattle.std.specs.Prelude.{length, map, drop, Err, IfOk, OnOk, IfSome, IfNone};
ghost use Rattle.ipc_limits.specs.declared.limits.Limits.{Limits};
ghost use Rattle.ipc_base.specs.declared.objects.Mark.{Mark as PlainMark};
ghost use Rattle.ipc_base.specs.Objects.{PlainObjects};
ghost use Rattle.ipc_engine.specs.declared.fault.StateFault.{StateFault};
ghost use Rattle.ipc_state.specs.State.{State as PlainState};
ghost use Rattle.ipc_image.specs.Kind.{object_in, FitsIn, IsOther};
ghost use Rattle.ipc_image.specs.SavedParts.{with_more, IsPlace};
ghost use Rattle.ipc_image.specs.Window.{passed};

use crate::window::Window;
use ipc_base::{Mark, ObjectMap, Objects};
use ipc_engine::StateFault;
use ipc_state::State;
use std::alloc::{AllocError, Global};

/// What has an object of its own: it passes a window whole, and is read back whole.
pub(crate) trait Stored: Drop {
    /// The bytes of its object.
    ghost bytes_of: { Self → List ℕ };

    /// Each of its numbers has its place.
    ghost Fits: { Self → Type 0 };

    /// What is known of a sound one.
    ghost IsSmall: { Self → Type 0 };

    /// The mark is of its parts.
    ghost IsMark: { Self → PlainMark → Type 0 };

    /// The number of an object is this one and the number of the thing.
    ghost FIRST: { ℕ };

    const FIRST: u64;

    /// Those of a state, by number.
    ghost items: { PlainState × Limits → List (ℕ × Self) };

    ghost put: { PlainState × Limits → List (ℕ × Self) → PlainState × Limits };

    /// Reads each of its numbers, so that each has its place.
    fn read_numbers(&self)
        requires { IsSmall self.now }
        ensures { Fits self.now };

    /// How many bytes its object has.
    fn len(&self) -> u64
        requires fits { Fits self.now }
        requires short { length (bytes_of self.now) < 2 ^ 64 }
        ensures { result ≡ length (bytes_of self.now) };

    /// Its object passes the window. The mark is of its parts.
    fn put(&self, window: &mut Window, mark: &mut Mark)
        requires fits { Fits self.now }
        requires short { length (bytes_of self.now) < 2 ^ 64 }
        requires mark { IsMark self.now mark.old }
        ensures passed { window.new ≡ passed (bytes_of self.now) window.old }
        ensures mark { IsMark self.now mark.new };

    /// Reads all of an object.
    fn read(alloc: Global, bytes: &[u8]) -> Result<Self, StateFault>
        ensures ok { IfOk result (λ x. Fits x × (bytes.now ≡ bytes_of x)) }
        ensures damaged { result ≡ Err StateFault.Unsound → (x : Self) → Fits x → bytes.now ≢ bytes_of x };

    /// Adds what was read to a state, at the end.
    fn add(state: &mut State, number: u32, thing: Self) -> Result<(), AllocError>
        ensures { OnOk result ((state.new.state, state.new.limits)
            ≡ with_more items put (state.old.state, state.old.limits) ((number, thing) ∷ [])) };

    /// Two with the same bytes are one.
    ghost one: { (x y : Self) → Fits x → Fits y → bytes_of x ≡ bytes_of y → x ≡ y };

    /// What was added is what is found there.
    ghost place: { IsPlace items put };
}

/// Reads the objects of a kind, from this one on, and adds what they are. Gives the place of the first object that is
/// of another kind.
pub(crate) fn restore_kind<T: Stored>(
    state: &mut State,
    alloc: Global,
    objects: &ObjectMap,
    from: u32,
) -> Result<u32, StateFault>
    ensures ok { IfOk result (λ next. (xs : List (ℕ × T)) × All (FitsIn T.Fits) xs
        × (drop from objects.now ≡ map (object_in T.FIRST T.bytes_of) xs ++ drop next objects.now)
        × ((state.new.state, state.new.limits) ≡ with_more T.items T.put (state.old.state, state.old.limits) xs)) }
    ensures whole { IfOk result (λ next. (xs : List (ℕ × T)) (rest : PlainObjects) → IsOther T.FIRST rest
        → drop from objects.now ≡ map (object_in T.FIRST T.bytes_of) xs ++ rest
        → All (FitsIn T.Fits) xs → drop next objects.now ≡ rest) }
    ensures damaged { result ≡ Err StateFault.Unsound → (xs : List (ℕ × T)) (rest : PlainObjects)
        → IsOther T.FIRST rest → All (FitsIn T.Fits) xs
        → drop from objects.now ≢ map (object_in T.FIRST T.bytes_of) xs ++ rest }
{
    for i in from..objects.count() {
        let Some(own) = own_number(objects.number(i), T::FIRST) else {
            return Ok(i);
        };
        let thing = T::read(alloc, objects.object(i))?;
        T::add(state, own, thing)?;
    }
    Ok(objects.count())
}

// The number of the thing whose object has this number, if it is of the kind with this first number.
fn own_number(number: u64, first: u64) -> Option<u32>
    ensures some { IfSome result (λ own. number ≡ first + own) }
    ensures none { IfNone result ((own : ℕ) → own < 2 ^ 32 → number ≢ first + own) }
{
    let own = number.checked_sub(first)?;
    u32::try_from(own).ok()
}
