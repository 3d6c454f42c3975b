//! What follows from the definitions alone.

ghost use Rattle.std.specs.Prelude.{◌≡◌, ◌≤◌, ◌<◌, ◌*◌, ◌^◌, ◌++◌, ℕ, List};
ghost use Rattle.ipc_base.specs.Objects.{Fit, PlainObjects};
ghost use Rattle.ipc_limits.specs.declared.limits.Limits.{Limits};
ghost use Rattle.ipc_engine.specs.Event.{PlainEvent};
ghost use Rattle.ipc_engine.specs.Sound.{IsSound};
ghost use Rattle.ipc_state.specs.State.{State};
ghost use Rattle.ipc_image.specs.Records.{record_bytes, HasRecord, BeginsWith};
ghost use Rattle.ipc_image.specs.declared.format.Format.{Format};
ghost use Rattle.ipc_image.specs.Format.{IsFormat, IsOpened};
ghost use Rattle.ipc_image.specs.Saved.{saved_in, StandForStateIn};
ghost use Rattle.ipc_image.specs.Sizes.{area_in, need_in};
ghost use Rattle.ipc_image.specs.Superblock.{AreOf, IsSuperblockIn, named_form, superblock_bytes};

/// What was written is the superblock of that device with those limits, if its form may have them and the device has
/// room for them.
pub fn superblock_is_read()
    ensures { (form : Format) → IsFormat form → (sectors : ℕ) (limits : Limits) → AreOf form limits
        → need_in form limits ≤ sectors → IsSuperblockIn form sectors limits (superblock_bytes form sectors limits) }
{}

/// A sector is, in a form, the superblock of one device with one set of limits, and no two.
pub fn a_sector_is_one_superblock()
    ensures { (form : Format) → IsFormat form → (sectors others : ℕ) (limits more : Limits) (sector : List ℕ)
        → sectors < 2 ^ 32 → others < 2 ^ 32 → IsSuperblockIn form sectors limits sector
        → IsSuperblockIn form others more sector → (sectors ≡ others) × (limits ≡ more) }
{}

/// The version and the journal that a sector names fix its form, and that of a device that is opened is the one by
/// which it is.
pub fn a_sector_is_of_one_form()
    ensures one { (form other : Format) → IsFormat form → IsFormat other → (sectors others : ℕ)
        (limits more : Limits) (sector : List ℕ) → IsSuperblockIn form sectors limits sector
        → IsSuperblockIn other others more sector → form ≡ other }
    ensures named { (form : Format) → IsOpened form → (sectors : ℕ) (limits : Limits) (sector : List ℕ)
        → IsSuperblockIn form sectors limits sector → named_form sector ≡ form }
{}

/// Bytes begin with the record that was written to their front, whatever follows it.
pub fn record_is_read()
    ensures { (e : PlainEvent) (rest : List ℕ) → HasRecord e → BeginsWith (record_bytes e ++ rest) e }
{}

/// Bytes begin with the record of one event at most; so no record is the beginning of another.
pub fn a_record_is_of_one_event()
    ensures { (bytes : List ℕ) (e f : PlainEvent) → BeginsWith bytes e → BeginsWith bytes f → e ≡ f }
{}

/// A sound state fits, as objects, where it is kept under its limits, with the table of an image.
pub fn a_saved_state_fits()
    ensures { (form : Format) → IsOpened form → (limits : Limits) (s : State) → AreOf form limits → IsSound limits s
        → Fit (area_in form limits) (saved_in form s) }
{}

/// Objects of a device of a form stand for one state, and no two.
pub fn objects_stand_for_one_state()
    ensures { (form : Format) → IsFormat form → (limits others : Limits) (s t : State) (objects : PlainObjects)
        → StandForStateIn form limits s objects → StandForStateIn form others t objects → s ≡ t }
{}

/// An area takes at most 8000000 sectors under limits that a device may have, so its bytes can be counted in four.
pub fn an_area_can_be_counted()
    ensures { (form : Format) → IsFormat form → (limits : Limits) → AreOf form limits
        → 512 * area_in form limits < 2 ^ 32 }
{}
