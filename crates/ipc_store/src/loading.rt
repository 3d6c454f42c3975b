//! The loading of a device: its superblock, its objects, its journal, and the machine that they lead to.

ghost use Rattle.std.specs.Prelude.{◌≡◌, ◌<◌, ◌≤◌, ◌+◌, ◌-◌, [], length, List, IfOk, IfErr, IsErrOf};
ghost use Rattle.ipc_limits.specs.Limits.{ArePassed};
ghost use Rattle.ipc_base.specs.Objects.{PlainObjects};
ghost use Rattle.ipc_checkpoint.specs.Checkpoint.{IsLaidOut, Holds as HoldsObjects};
ghost use Rattle.ipc_checkpoint.specs.Matches.{CheckpointMatches, sectors_of};
ghost use Rattle.ipc_checkpoint.specs.View.{epoch_of as saved_epoch, layout_of as saved_layout};
ghost use Rattle.ipc_checkpoint.specs.View.{free_of, saved_root, HasSpare};
ghost use Rattle.ipc_disk.specs.Calls.{OnlyReads};
ghost use Rattle.ipc_disk.specs.Medium.{IsHonest, IsDurable};
ghost use Rattle.ipc_disk.specs.Range.{IsWithin};
ghost use Rattle.ipc_disk.specs.Standing.{sector_at};
ghost use Rattle.ipc_journal.specs.View.{form_of, range_of, epoch_of};
ghost use Rattle.ipc_state.specs.State.{State};
ghost use Rattle.ipc_image.specs.Format.{device_form, format, format_one, objects_first, IsFormat};
ghost use Rattle.ipc_image.specs.Saved.{StandForStateIn};
ghost use Rattle.ipc_image.specs.Sizes.{need_in};
ghost use Rattle.ipc_image.specs.Superblock.{AreOf};
ghost use Rattle.ipc_engine.specs.Changes.{IsTracked};
ghost use Rattle.ipc_engine.specs.Event.{PlainEvent};
ghost use Rattle.ipc_store.specs.Batch.{most_bytes};
ghost use Rattle.ipc_store.specs.Image.{journal_form, journal_range, layout_in, named_sectors};
ghost use Rattle.ipc_store.specs.Image.{IsDeviceIn, HasBaseIn, LeadToBy};
ghost use Rattle.ipc_store.specs.Image.{form_at, HasBatches, StandsFor};
ghost use Rattle.ipc_store.specs.Refusals.{IsRefusal};
ghost use Rattle.ipc_store.specs.Relations.Loading.{HasNoBase, IsDamage, IsFoundDamaged, IsObjectDamage};
ghost use Rattle.ipc_store.specs.Relations.Loading.{form_for, IsAfter, IsLoaded, IsNamedIn, IsSuperblockRefusal};
ghost use Rattle.ipc_store.specs.Relations.Loading.{OnlySyncs};
ghost use Rattle.ipc_store.specs.Relations.Matches.{AreOnDisk};
ghost use Rattle.ipc_store.specs.declared.places.Versions.TheVariants as Versions;

use crate::fault::OpenError;
use crate::places::{Versions, journal_form, journal_range, layout_in};
use crate::replay::replay;
use ipc_checkpoint::{Checkpoint, Layout};
use ipc_disk::SectorDisk;
use ipc_engine::{Engine, StateFault};
use ipc_image::{Format, SUPERBLOCK, Superblock, SuperblockFault, engine_of, read_superblock};
use ipc_journal::{Journal, Reader};
use ipc_limits::Limits;
use std::alloc::Global;

/// The fewest sectors that a superblock can be read of.
const LEAST_SECTORS: u32 = 3;

/// The form of a device, how many sectors it has, and its limits.
pub(crate) fn load_superblock<D: SectorDisk>(
    versions: Versions,
    disk: &mut D,
) -> Result<(Format, Superblock), OpenError>
    ensures known { IfOk result (λ found. IsFormat found.0) }
    ensures form { IfOk result (λ found. IsHonest (D.medium disk.old)
        → found.0 ≡ form_for versions (sector_at (D.medium disk.old).contents 0)) }
    ensures device { IfOk result (λ found. IsHonest (D.medium disk.old)
        → IsNamedIn found.0 found.1 (D.medium disk.old).contents) }
    ensures limits { IfOk result (λ found. AreOf found.0 found.1.limits) }
    ensures old { IfOk result (λ found. versions ≡ Versions.One → found.0 ≡ format_one) }
    ensures two { IfOk result (λ found. versions ≡ Versions.Two → found.0 ≡ format) }
    ensures opened { IfOk result (λ found. versions ≡ Versions.Opened → found.0 ≡ device_form found.1.limits) }
    ensures room { IfOk result (λ found. need_in found.0 found.1.limits ≤ found.1.sectors) }
    ensures there { IfOk result (λ found. found.1.sectors ≤ D.size disk.old) }
    // Refusals.
    ensures refused { IfErr result (λ error. IsHonest (D.medium disk.old)
        → IsSuperblockRefusal (form_for versions (sector_at (D.medium disk.old).contents 0))
        (D.medium disk.old).contents error) }
    ensures faults { IsErrOf result OpenError.NoMemory → ⊥ }
    // It only reads.
    ensures reads { OnlyReads D.size D.medium D.counts (IsErrOf result OpenError.Device) disk.old disk.new }
{
    let sectors = disk.sectors();
    if sectors < LEAST_SECTORS {
        return Err(OpenError::NotFormatted);
    }
    let mut sector = [0; 512];
    disk.read(SUPERBLOCK, &mut sector)?;
    let form = versions.form(&sector);
    match read_superblock(form, &sector, sectors) {
        Ok(superblock) => Ok((form, superblock)),
        Err(SuperblockFault::NotFormatted) => Err(OpenError::NotFormatted),
        Err(SuperblockFault::Version { found }) => Err(OpenError::Version { found }),
        Err(SuperblockFault::Damaged) => Err(OpenError::Damaged { sector: SUPERBLOCK }),
    }
}

/// The objects that lie there, of a device of this form: where each of them is, and the machine that they stand for.
pub(crate) fn load_objects<D: SectorDisk>(
    alloc: Global,
    disk: &mut D,
    form: Format,
    limits: Limits,
    layout: Layout,
) -> Result<(Checkpoint, Engine), OpenError>
    requires known { IsFormat form }
    requires passed { ArePassed limits }
    requires laid_out { IsLaidOut layout (D.size disk.old) }
    ensures layout { IfOk result (λ found. saved_layout found.0 ≡ layout) }
    ensures root { IfOk result (λ found. saved_root found.0 ≡ layout.root) }
    ensures limits { IfOk result (λ found. found.1.limits ≡ limits) }
    ensures changed { IfOk result (λ found. found.1.changed ≡ []) }
    ensures base { IfOk result (λ found. (objects : PlainObjects)
        × StandForStateIn form limits found.1.state objects
        × (free_of found.0 + sectors_of objects ≡ layout.range.count)
        × (IsHonest (D.medium disk.old) → IsDurable (D.medium disk.old)
        → CheckpointMatches found.0 objects (D.medium disk.new))) }
    ensures there { IfOk result (λ found. (objects : PlainObjects)
        × StandForStateIn form limits found.1.state objects
        × (IsHonest (D.medium disk.old)
        → HoldsObjects layout (saved_epoch found.0) objects (D.medium disk.old).contents)) }
    // Refusals: there are none, or they stand for no state.
    ensures refused { IfErr result (IsDamage (λ sector. IsHonest (D.medium disk.old)
        → IsObjectDamage form limits layout (D.medium disk.old).contents sector)) }
    // It only reads.
    ensures reads { OnlyReads D.size D.medium D.counts (IsErrOf result OpenError.Device) disk.old disk.new }
{
    let (checkpoint, objects) = Checkpoint::load(alloc, disk, layout)?;
    match engine_of(alloc, &objects, limits, form) {
        Ok(engine) => Ok((checkpoint, engine)),
        Err(StateFault::NoMemory) => Err(OpenError::NoMemory),
        Err(StateFault::Unsound) => Err(OpenError::Damaged { sector: form.root }),
    }
}

/// The objects of a device of this form with this superblock.
pub(crate) fn load_base<D: SectorDisk>(
    alloc: Global,
    disk: &mut D,
    form: Format,
    superblock: Superblock,
) -> Result<(Checkpoint, Engine), OpenError>
    requires known { IsFormat form }
    requires of { AreOf form superblock.limits }
    requires room { need_in form superblock.limits ≤ superblock.sectors }
    requires there { superblock.sectors ≤ D.size disk.old }
    ensures layout { IfOk result (λ found. saved_layout found.0
        ≡ layout_in form superblock.limits superblock.sectors) }
    ensures limits { IfOk result (λ found. found.1.limits ≡ superblock.limits) }
    ensures changed { IfOk result (λ found. found.1.changed ≡ []) }
    ensures base { IfOk result (λ found. (objects : PlainObjects)
        × StandForStateIn form superblock.limits found.1.state objects
        × (free_of found.0 + sectors_of objects ≡ superblock.sectors - objects_first form)
        × (IsHonest (D.medium disk.old) → IsDurable (D.medium disk.old)
        → CheckpointMatches found.0 objects (D.medium disk.new))) }
    ensures there { IfOk result (λ found. IsHonest (D.medium disk.old)
        → IsDeviceIn form superblock.limits (D.medium disk.old).contents
        → superblock.sectors ≡ named_sectors (D.medium disk.old).contents
        → HasBaseIn form superblock.limits (saved_epoch found.0) found.1.state (D.medium disk.old).contents) }
    // Refusals.
    ensures refused { IfErr result (IsDamage (λ sector. IsHonest (D.medium disk.old)
        → IsDeviceIn form superblock.limits (D.medium disk.old).contents
        → superblock.sectors ≡ named_sectors (D.medium disk.old).contents
        → HasNoBase form superblock.limits (D.medium disk.old).contents sector)) }
    // It only reads.
    ensures reads { OnlyReads D.size D.medium D.counts (IsErrOf result OpenError.Device) disk.old disk.new }
{
    let layout = layout_in(form, &superblock.limits, superblock.sectors);
    load_objects(alloc, disk, form, superblock.limits, layout)
}

/// The journal of a device at the epoch of its objects. The machine that these stand for goes through its events. Each
/// batch is read into `room`, and has at most so many bytes.
pub(crate) fn load_journal<D: SectorDisk>(
    disk: &mut D,
    form: Format,
    checkpoint: &Checkpoint,
    engine: &mut Engine,
    room: &mut [u8],
) -> Result<Journal, OpenError>
    requires known { IsFormat form }
    requires within { IsWithin (journal_range form) (D.size disk.old) }
    requires room { length room.old ≤ most_bytes }
    ensures form { IfOk result (λ journal. form_of journal ≡ journal_form form) }
    ensures range { IfOk result (λ journal. range_of journal ≡ journal_range form) }
    ensures epoch { IfOk result (λ journal. epoch_of journal ≡ saved_epoch checkpoint.now) }
    ensures limits { engine.new.limits ≡ engine.old.limits }
    ensures tracked { (base : State) → IsTracked engine.old.changed base engine.old.state
        → IsTracked engine.new.changed base engine.new.state }
    ensures stands { IfOk result (λ journal. IsHonest (D.medium disk.old) → (batches : List (List PlainEvent))
        × HasBatches form (saved_epoch checkpoint.now) batches (D.medium disk.old).contents
        × LeadToBy (length room.old) engine.old.limits engine.old.state batches engine.new.state
        × IsAfter journal batches) }
    ensures room { length room.new ≡ length room.old }
    // Refusals.
    ensures refused { IfErr result (IsDamage (λ sector. form.batch ≡ length room.old → IsHonest (D.medium disk.old)
        → HasBaseIn form engine.old.limits (saved_epoch checkpoint.now) engine.old.state (D.medium disk.old).contents
        → IsFoundDamaged form (D.medium disk.old).contents sector)) }
    // It only reads.
    ensures reads { OnlyReads D.size D.medium D.counts (IsErrOf result OpenError.Device) disk.old disk.new }
{
    let mut reader = Reader::open(
        disk,
        journal_form(form),
        journal_range(form),
        checkpoint.epoch(),
    )?;
    replay(disk, &mut reader, engine, room)?;
    Ok(reader.into_journal())
}

/// Reads what stands on a device: its objects, its journal, and the machine after the events of the journal. Each batch
/// is read into `room`.
pub(crate) fn read_all<D: SectorDisk>(
    alloc: Global,
    disk: &mut D,
    room: &mut [u8],
) -> Result<(Checkpoint, Journal, Engine), OpenError>
    requires { length room.old ≡ most_bytes }
    ensures on_disk { IfOk result (λ found. AreOnDisk (D.size disk.new) found.2.limits found.0 found.1) }
    ensures spare { IfOk result (λ found. HasSpare found.0) }
    ensures stands { IfOk result (λ found. IsHonest (D.medium disk.old)
        → StandsFor found.2.limits found.2.state (D.medium disk.old).contents) }
    ensures loaded { IfOk result (λ found. IsHonest (D.medium disk.old) → IsDurable (D.medium disk.old)
        → IsLoaded (D.medium disk.new) found.2 found.0 found.1) }
    ensures room { length room.new ≡ most_bytes }
    // Refusals.
    ensures refused { IfErr result (λ error. IsHonest (D.medium disk.old)
        → IsRefusal (form_at (D.medium disk.old).contents) (D.medium disk.old).contents error) }
    // It only reads.
    ensures reads { OnlyReads D.size D.medium D.counts (IsErrOf result OpenError.Device) disk.old disk.new }
{
    let (form, superblock) = load_superblock(Versions::Opened, disk)?;
    read_named(alloc, disk, form, superblock, room)
}

/// Reads what stands on a device of this form with this superblock, after the superblock.
pub(crate) fn read_named<D: SectorDisk>(
    alloc: Global,
    disk: &mut D,
    form: Format,
    superblock: Superblock,
    room: &mut [u8],
) -> Result<(Checkpoint, Journal, Engine), OpenError>
    requires form { form ≡ device_form superblock.limits }
    requires of { AreOf form superblock.limits }
    requires own_room { need_in form superblock.limits ≤ superblock.sectors }
    requires there { superblock.sectors ≤ D.size disk.old }
    requires room { length room.old ≡ most_bytes }
    ensures on_disk { IfOk result (λ found. AreOnDisk (D.size disk.new) found.2.limits found.0 found.1) }
    ensures limits { IfOk result (λ found. found.2.limits ≡ superblock.limits) }
    ensures spare { IfOk result (λ found. HasSpare found.0) }
    ensures stands { IfOk result (λ found. IsHonest (D.medium disk.old)
        → IsNamedIn form superblock (D.medium disk.old).contents
        → StandsFor found.2.limits found.2.state (D.medium disk.old).contents) }
    ensures loaded { IfOk result (λ found. IsHonest (D.medium disk.old) → IsDurable (D.medium disk.old)
        → IsNamedIn form superblock (D.medium disk.old).contents
        → IsLoaded (D.medium disk.new) found.2 found.0 found.1) }
    ensures room { length room.new ≡ most_bytes }
    // Refusals.
    ensures refused { IfErr result (IsDamage (λ sector. IsHonest (D.medium disk.old)
        → IsNamedIn form superblock (D.medium disk.old).contents
        → IsFoundDamaged form (D.medium disk.old).contents sector)) }
    // It only reads.
    ensures reads { OnlyReads D.size D.medium D.counts (IsErrOf result OpenError.Device) disk.old disk.new }
{
    let (checkpoint, mut engine) = load_base(alloc, disk, form, superblock)?;
    let journal = load_journal(disk, form, &checkpoint, &mut engine, room)?;
    Ok((checkpoint, journal, engine))
}

/// Makes what stands on a device last, and reads it, as `read_all` does.
pub(crate) fn load<D: SectorDisk>(
    alloc: Global,
    disk: &mut D,
    room: &mut [u8],
) -> Result<(Checkpoint, Journal, Engine), OpenError>
    requires { length room.old ≡ most_bytes }
    ensures on_disk { IfOk result (λ found. AreOnDisk (D.size disk.new) found.2.limits found.0 found.1) }
    ensures spare { IfOk result (λ found. HasSpare found.0) }
    ensures loaded { IfOk result (λ found. IsHonest (D.medium disk.old)
        → IsLoaded (D.medium disk.new) found.2 found.0 found.1) }
    ensures room { length room.new ≡ most_bytes }
    // Refusals.
    ensures refused { IfErr result (λ error. IsHonest (D.medium disk.old)
        → IsRefusal (form_at (D.medium disk.old).contents) (D.medium disk.old).contents error) }
    // It only reads.
    ensures reads { OnlySyncs D.size D.medium D.counts (IsErrOf result OpenError.Device) disk.old disk.new }
{
    disk.sync()?;
    read_all(alloc, disk, room)
}
