//! Whether the objects of one kind are sound: by their numbers, keys or names, and modes, and each by itself.

ghost use Rattle.std.specs.Prelude.{◌↔◌, All, IsTrue};
ghost use Rattle.ipc_limits.specs.declared.limits.Limits.{Limits};
ghost use Rattle.ipc_state.specs.Bound.{AreBound};

use crate::bound::Bound;
use crate::numbered::Item;
use crate::objects::{Entry, ObjectTable};
use ipc_limits::Limits;

/// An object of which it is told whether it is sound by itself.
pub(crate) trait SoundAlone {
    ghost IsSound: { Limits → Self → Type 0 };

    /// Whether it is.
    fn is_sound(&self, limits: &Limits) -> bool
        ensures { IsTrue result ↔ IsSound limits.now self.now };
}

impl<B, T: SoundAlone> SoundAlone for Entry<B, T> {
    ghost IsSound = { λ limits e. T.IsSound limits e.object };

    fn is_sound(&self, limits: &Limits) -> bool {
        self.object.is_sound(limits)
    }
}

impl<B: Bound, T: SoundAlone> ObjectTable<B, T> {
    /// Whether they are sound, and no more than `most`.
    pub(crate) fn are_sound(&self, most: u32, limits: &Limits) -> bool
        ensures { IsTrue result ↔ AreBound B.same B.none most (T.IsSound limits.now) self.now.objects }
    {
        self.are_bound(most) && each_is_sound(self.items(), limits)
    }
}

/// Whether each is sound by itself.
fn each_is_sound<T: SoundAlone>(items: &[Item<T>], limits: &Limits) -> bool
    ensures { IsTrue result ↔ All (λ e. T.IsSound limits.now e.value) items.now }
{
    for item in items {
        if !item.value.is_sound(limits) {
            return false;
        }
    }
    true
}
