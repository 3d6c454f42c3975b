//! What follows from the definitions alone, and from what the calls on a store promise.

ghost use Rattle.std.specs.Prelude.{◌≡◌, ◌<◌, ◌^◌, ◌++◌, List, [], length, All};
ghost use Rattle.ipc_limits.specs.declared.limits.Limits.{Limits};
ghost use Rattle.ipc_checkpoint.specs.Meanwhile.{EachLater};
ghost use Rattle.ipc_disk.specs.Medium.{Image, IsDurable};
ghost use Rattle.ipc_state.specs.State.{State, restart};
ghost use Rattle.ipc_engine.specs.Event.{PlainEvent};
ghost use Rattle.ipc_engine.specs.Step.{run};
ghost use Rattle.ipc_store.specs.Batch.{batch_bytes, AreBatch, AreBatchOf};
ghost use Rattle.ipc_store.specs.Histories.{History, Past, past_of, reopened, Keeps, Takes, OpensOn};
ghost use Rattle.ipc_image.specs.Format.{device_form};
ghost use Rattle.ipc_journal.specs.declared.form.Form.TheVariants.{Headed, Tagged};
ghost use Rattle.ipc_store.specs.Image.{events_of, journal_form, AreFor, HasBatches, StandsFor};
ghost use Rattle.ipc_store.specs.Enlargements.{RestsOnTheWay, StoppedEnlargements};
ghost use Rattle.ipc_store.specs.Larger.{IsEnlarged};
ghost use Rattle.ipc_store.specs.Lives.{IsLeft, StoppedOpens, StandsAfter, Rests, Found};
ghost use Rattle.ipc_store.specs.Meanwhile.{GoesOn, IsRead, IsReadInParts, StaysReadable};
ghost use Rattle.ipc_store.specs.Relations.Matches.{StoreMatches};
ghost use Rattle.ipc_store.specs.Upgrade.{IsUpgraded, RestsOldOrNew, StoppedUpgrades};
ghost use Rattle.ipc_store.specs.View.{StoreView};

use ipc_disk::SectorDisk;
use ipc_engine::restart_twice_is_once;
use ipc_journal::tagged_batches_are_read_from_the_first_on;

/// A batch says which events it holds: two lists of events with the same bytes are the same list.
pub fn a_batch_is_of_one_list()
    ensures { (events others : List PlainEvent) → AreBatch events → AreBatch others
        → batch_bytes events ≡ batch_bytes others → events ≡ others }
{}

/// An image stands for one state under one set of limits, and no two.
pub fn an_image_stands_for_one_state()
    ensures { (limits others : Limits) (s t : State) (image : Image) → length image < 2 ^ 32
        → StandsFor limits s image → StandsFor others t image → (limits ≡ others) × (s ≡ t) }
{}

/// A call that is stopped at any moment of it leaves what was acknowledged before, and some of the
/// other events, from the first on.
pub fn a_stop_leaves_what_was_acknowledged<D: SectorDisk>()
    ensures { (last next : StoreView D) (before : History) (events : List PlainEvent) (left : D)
        → Keeps (D.medium last.disk) last before → Takes D.medium last events next
        → IsLeft (D.medium last.disk) (D.medium next.disk) (D.medium left)
        → Rests (past_of last.machine.limits before) (before.waiting ++ events) (D.medium left) }
{}

/// On a disk that such a stop has left, after any number of opens that were stopped too, an open
/// finds what was acknowledged, and some of the other events, from the first on. Opens that are
/// stopped leave that.
pub fn an_open_finds_what_was_acknowledged<D: SectorDisk>()
    ensures rests { (past : Past) (others : List PlainEvent) (left disk : D) → Rests past others (D.medium left)
        → StoppedOpens D.medium left disk → Rests past others (D.medium disk) }
    ensures found { (past : Past) (others : List PlainEvent) (left disk : D) (opened : StoreView D)
        → Rests past others (D.medium left) → StoppedOpens D.medium left disk
        → OpensOn (D.medium disk).contents (D.medium opened.disk) opened
        → Found past others (D.medium opened.disk) opened }
{}

/// A disk that stands for the state after some events is such a disk: an open finds these events,
/// and they are the history of its store.
pub fn an_open_finds_what_stands_there<D: SectorDisk>()
    ensures rests { (past : Past) (disk : D) → StandsAfter past (D.medium disk) → Rests past [] (D.medium disk) }
    ensures keeps { (past : Past) (disk : D) (opened : StoreView D) → StandsAfter past (D.medium disk)
        → OpensOn (D.medium disk).contents (D.medium opened.disk) opened
        → Keeps (D.medium opened.disk) opened (reopened past) }
{}

/// What is read of a device while its server goes on, objects first, then the journal. With a header, which is read
/// before the body, it stands for the state for which the device stood when that header was read. With tagged sectors
/// it stands for the state after some of the batches that come meanwhile, from the first on.
pub fn a_look_is_of_one_image()
    ensures headed { (limits : Limits) (was s : State) (first seen read : Image)
        → journal_form (device_form limits) ≡ Headed → StandsFor limits was first
        → StandsFor limits s seen → IsRead first seen read → StandsFor limits s read }
    ensures tagged { (limits : Limits) (was : State) (first whole read : Image) (more : List (List PlainEvent))
        → journal_form (device_form limits) ≡ Tagged → (began : StandsFor limits was first)
        → HasBatches (device_form limits) began.epoch (began.batches ++ more) whole
        → All (AreBatchOf (device_form limits).batch) more → AreFor limits was (events_of more)
        → IsReadInParts first whole read
        → (kept : List (List PlainEvent)) × (rest : List (List PlainEvent)) × (more ≡ kept ++ rest)
        × StandsFor limits (run limits was (events_of kept)).state read }
{
    tagged_batches_are_read_from_the_first_on();
}

/// Each image of a call on a store goes on from what was read before, if all of that was synced, and so does each image
/// of any calls that the history of the store has. What goes on over some calls, and then over others, has gone on over
/// all of them: also over a life that ends, and the opens after it.
pub fn a_store_goes_on<D: SectorDisk>()
    ensures call { (store : StoreView D) (new : D) (base : State) (pending : List PlainEvent)
        → StoreMatches (D.medium store.disk) store base pending → IsDurable (D.medium store.disk)
        → StaysReadable D.medium store new → (image : Image)
        → (D.medium new).images_since (D.medium store.disk).moment image → GoesOn (D.medium store.disk).contents image }
    ensures life { (store next : StoreView D) (before : History) (events : List PlainEvent)
        → Keeps (D.medium store.disk) store before → IsDurable (D.medium store.disk)
        → Takes D.medium store events next → (image : Image)
        → (D.medium next.disk).images_since (D.medium store.disk).moment image
        → GoesOn (D.medium store.disk).contents image }
    ensures next { (disk new : D) (first : Image)
        → ((image : Image) → (D.medium disk).images_now image → GoesOn first image)
        → EachLater GoesOn (D.medium disk) (D.medium new) → (image : Image)
        → (D.medium new).images_since (D.medium disk).moment image → GoesOn first image }
    ensures calls { (first mid later : Image) → GoesOn first mid → GoesOn mid later → GoesOn first later }
{}

/// A device of the version before stays one that stands for its state, or becomes one of the version of today that
/// stands for it after a restart, whatever number of upgrades are stopped; after one that is not, the law over lives
/// begins with that state.
pub fn an_upgrade_keeps_the_state<D: SectorDisk>()
    ensures rests { (own limits : Limits) (s : State) (left disk : D) → RestsOldOrNew own limits s (D.medium left)
        → StoppedUpgrades D.medium limits left disk → RestsOldOrNew own limits s (D.medium disk) }
    ensures stands { (own limits : Limits) (s : State) (disk new : D) → RestsOldOrNew own limits s (D.medium disk)
        → IsUpgraded limits (D.medium disk) (D.medium new)
        → StandsAfter (record { limits = limits; base = restart limits s; events = [] }) (D.medium new) }
{}

/// A device of version 2 stays one that stands for its state, or for that state after a restart, or becomes one of
/// version 3 that stands for it after a restart, whatever number of upgrades to version 3 are stopped; after one that
/// is not, the law over lives begins with that state.
pub fn an_upgrade_to_version_three_keeps_the_state<D: SectorDisk>()
    ensures rests { (own limits : Limits) (s : State) (left disk : D) → limits.version ≡ 3
        → RestsOnTheWay own limits s (D.medium left) → StoppedEnlargements D.medium limits left disk
        → RestsOnTheWay own limits s (D.medium disk) }
    ensures stands { (own limits : Limits) (s : State) (disk new : D) → limits.version ≡ 3
        → RestsOnTheWay own limits s (D.medium disk) → IsEnlarged limits (D.medium disk) (D.medium new)
        → StandsAfter (record { limits = limits; base = restart limits s; events = [] }) (D.medium new) }
{
    restart_twice_is_once();
}
