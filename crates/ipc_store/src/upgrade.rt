//! The upgrade of a device of the version before.

ghost use Rattle.std.specs.Prelude.{◌≡◌, ◌⊎◌, ◌<◌, ◌≤◌, ◌+◌, ℕ, List, [], Some, position, not};
ghost use Rattle.std.specs.Prelude.{Ok, Err, IfOk, IfErr, OnOk, IsErrOf};
ghost use Rattle.std.specs.Result.{IsErrAnd};
ghost use Rattle.ipc_limits.specs.Limits.{ArePassed, tests};
ghost use Rattle.ipc_base.specs.Objects.{Fit, PlainObjects};
ghost use Rattle.ipc_limits.specs.declared.limits.Limits.{Limits as AnyLimits};
ghost use Rattle.ipc_checkpoint.specs.Checkpoint.{IsLaidOut, Holds as HoldsObjects};
ghost use Rattle.ipc_checkpoint.specs.Matches.{CheckpointMatches, sectors_of};
ghost use Rattle.ipc_checkpoint.specs.View.{epoch_of, free_of, layout_of as saved_layout, layout_under, saved_root};
ghost use Rattle.ipc_checkpoint.specs.View.{HasSpare};
ghost use Rattle.ipc_disk.specs.Calls.{IsSameDisk, CountsFault, CountsFaultIf, OnlyReads};
ghost use Rattle.ipc_disk.specs.Medium.{Image, IsHonest, IsDurable};
ghost use Rattle.ipc_disk.specs.Range.{IsWithin};
ghost use Rattle.ipc_disk.specs.Since.{EachImageSince};
ghost use Rattle.ipc_state.specs.State.{State, restart};
ghost use Rattle.ipc_engine.specs.Changes.{IsTracked};
ghost use Rattle.ipc_engine.specs.Event.{PlainEvent};
ghost use Rattle.ipc_engine.specs.Sound.{IsSound};
ghost use Rattle.ipc_image.specs.Format.{format, format_one};
ghost use Rattle.ipc_image.specs.Greater.{AreAtLeast};
ghost use Rattle.ipc_image.specs.Saved.{saved, StandForState, StandForStateIn};
ghost use Rattle.ipc_image.specs.Sizes.{need_in, need_of};
ghost use Rattle.ipc_image.specs.Superblock.{AreOf};
ghost use Rattle.ipc_store.specs.Image.{as_of, journal_range, last_epoch, objects_range};
ghost use Rattle.ipc_store.specs.Image.{HasBaseIn, HasBatches, LeadToBy};
ghost use Rattle.ipc_store.specs.Refusals.{IsOldDamage, IsUpgradeRefusal};
ghost use Rattle.ipc_store.specs.Image.{NamesAll, StandsFor, StandsForIn};
ghost use Rattle.ipc_store.specs.Relations.Format.{EachNow};
ghost use Rattle.ipc_store.specs.Relations.Loading.{IsDamage, OnlySyncs};
ghost use Rattle.ipc_store.specs.Results.{upgraded_disk};
ghost use Rattle.ipc_store.specs.Relations.Upgrade.{whole_layout, HasOld, IsNamed, IsReadOld, IsRoomRefusal};
ghost use Rattle.ipc_store.specs.Upgrade.{HasNoNextEpoch, IsUpgraded, UpgradesTo};
ghost use Rattle.ipc_store.specs.declared.fault.UpgradeError.TheVariants as errors;

use crate::fault::{OpenError, UpgradeError};
use crate::format::put_superblock;
use crate::loading::{load_base, load_journal, load_objects, load_superblock};
use crate::opening::room_for;
use crate::places::{Versions, as_of, layout_in};
use crate::store::Store;
use ipc_checkpoint::{Checkpoint, Layout};
use ipc_disk::{DiskFault, SectorDisk};
use ipc_engine::{Engine, Event};
use ipc_image::{FORMAT, FORMAT_ONE, Superblock, first_below, need, objects_of};
use ipc_limits::{BadLimits, Limits};
use std::alloc::Global;

/// A device that was not upgraded: why, and its disk.
#[derive(Drop)]
pub struct Unupgraded<D> {
    pub error: UpgradeError,
    pub disk: D,
}

impl<D: SectorDisk> Store<D> {
    /// Makes a device of version 1 one of version 2, where it lies, under these limits: it stands for what a restart
    /// makes of the state for which it stood. It has all sectors of the disk then.
    ///
    /// Refused, in this order, for limits that `check` by `FORMAT.most` refuses, for a disk that is not formatted or of
    /// another version, for a superblock that is damaged, for limits below the device's, for a disk with fewer sectors
    /// than `need`, for a device that is damaged; and where the disk fails or memory is refused. A crash leaves the
    /// device as it was, or upgraded.
    pub fn upgrade(alloc: Global, disk: D, limits: &Limits) -> Result<D, Unupgraded<D>>
        // Each image that a crash may leave from then on stands for that.
        ensures ok { IfOk result (λ new. IsHonest (D.medium disk)
            → IsUpgraded (as_of format limits.now) (D.medium disk) (D.medium new)) }
        ensures accepted { IfOk result (λ new. AreOf format (as_of format limits.now)
            × (need_of limits.now ≤ D.size disk)) }
        ensures durable { IfOk result (λ new. IsDurable (D.medium new)) }
        // A crash at any moment of the call, also of one that fails.
        ensures any_moment { IsHonest (D.medium disk)
            → EachImageSince (D.medium disk) (D.medium (upgraded_disk result))
            (UpgradesTo (as_of format limits.now) (D.medium disk)) }
        // Refusals. Where limits and room are right, a disk that stands for a state is refused by the disk, for want of
        // memory, or because there is no next epoch.
        ensures refusals { IfErr result (λ fault. (own : AnyLimits) (s : State) → IsHonest (D.medium disk)
            → StandsForIn format_one own s (D.medium disk).contents → AreOf format (as_of format limits.now)
            → AreAtLeast limits.now own → need_of limits.now ≤ D.size disk
            → (fault.error ≡ errors.Device) ⊎ (fault.error ≡ errors.NoMemory)
            ⊎ HasNoNextEpoch (D.medium disk).contents) }
        ensures checked { (field : ℕ) → position not (tests format.most limits.now) ≡ Some field
            → IfErr result (λ fault. (fault.error ≡ errors.BadLimits (record { field = field }))
            × (fault.disk ≡ disk)) }
        ensures refused { IfErr result (λ fault. IsHonest (D.medium disk)
            → IsUpgradeRefusal (as_of format limits.now) (D.size disk) (D.medium disk).contents fault.error) }
        ensures small { IfErr result (λ fault. (need : ℕ) → fault.error ≡ errors.TooSmall need
            → (need ≡ need_of limits.now) × (D.size disk < need)) }
        ensures unwritten { IfErr result (λ fault. (fault.error ≡ errors.Device)
            ⊎ ((D.counts fault.disk).writes ≡ (D.counts disk).writes)) }
        // Failures and counts.
        ensures size { D.size (upgraded_disk result) ≡ D.size disk }
        ensures counts { CountsFaultIf D.counts (IsErrAnd result (λ fault. fault.error ≡ errors.Device))
            disk (upgraded_disk result) }
    {
        upgrade_as(alloc, disk, &as_of(FORMAT, limits))
    }
}

// The upgrade to version 2, under limits that are of it.
fn upgrade_as<D: SectorDisk>(alloc: Global, disk: D, limits: &Limits) -> Result<D, Unupgraded<D>>
    requires { limits.now ≡ as_of format limits.now }
    ensures ok { IfOk result (λ new. IsHonest (D.medium disk)
        → IsUpgraded limits.now (D.medium disk) (D.medium new)) }
    ensures accepted { IfOk result (λ new. AreOf format limits.now × (need_of limits.now ≤ D.size disk)) }
    ensures durable { IfOk result (λ new. IsDurable (D.medium new)) }
    ensures any_moment { IsHonest (D.medium disk)
        → EachImageSince (D.medium disk) (D.medium (upgraded_disk result))
        (UpgradesTo limits.now (D.medium disk)) }
    ensures refusals { IfErr result (λ fault. (own : AnyLimits) (s : State) → IsHonest (D.medium disk)
        → StandsForIn format_one own s (D.medium disk).contents → AreOf format limits.now
        → AreAtLeast limits.now own → need_of limits.now ≤ D.size disk
        → (fault.error ≡ errors.Device) ⊎ (fault.error ≡ errors.NoMemory)
        ⊎ HasNoNextEpoch (D.medium disk).contents) }
    ensures checked { (field : ℕ) → position not (tests format.most limits.now) ≡ Some field
        → IfErr result (λ fault. (fault.error ≡ errors.BadLimits (record { field = field }))
        × (fault.disk ≡ disk)) }
    ensures refused { IfErr result (λ fault. IsHonest (D.medium disk)
        → IsUpgradeRefusal limits.now (D.size disk) (D.medium disk).contents fault.error) }
    ensures small { IfErr result (λ fault. (need : ℕ) → fault.error ≡ errors.TooSmall need
        → (need ≡ need_of limits.now) × (D.size disk < need)) }
    ensures unwritten { IfErr result (λ fault. (fault.error ≡ errors.Device)
        ⊎ ((D.counts fault.disk).writes ≡ (D.counts disk).writes)) }
    ensures size { D.size (upgraded_disk result) ≡ D.size disk }
    ensures counts { CountsFaultIf D.counts (IsErrAnd result (λ fault. fault.error ≡ errors.Device))
        disk (upgraded_disk result) }
{
    let mut disk = disk;
    let (checkpoint, engine) = match read_old(alloc, &mut disk, limits) {
        Ok(found) => found,
        Err(error) => return Err(Unupgraded { error, disk }),
    };
    match write_new(&mut disk, checkpoint, &engine, limits) {
        Ok(()) => Ok(disk),
        Err(DiskFault) => Err(Unupgraded {
            error: UpgradeError::Device,
            disk,
        }),
    }
}

// Makes what stands on the device last, and reads it: where its objects lie, seen from the whole disk, and the machine
// in the state after a restart.
fn read_old<D: SectorDisk>(
    alloc: Global,
    disk: &mut D,
    limits: &Limits,
) -> Result<(Checkpoint, Engine), UpgradeError>
    requires { limits.now ≡ as_of format limits.now }
    // The objects lie where the new ones will, with room for these beside them.
    ensures of { IfOk result (λ found. AreOf format limits.now) }
    ensures room { IfOk result (λ found. need_of limits.now ≤ D.size disk.old) }
    ensures layout { IfOk result (λ found. saved_layout found.0 ≡ whole_layout limits.now (D.size disk.old)) }
    ensures root { IfOk result (λ found. saved_root found.0 ≡ format_one.root) }
    ensures spare { IfOk result (λ found. HasSpare found.0) }
    ensures later { IfOk result (λ found. epoch_of found.0 < last_epoch) }
    ensures greater { IfOk result (λ found. AreAtLeast limits.now found.1.limits) }
    ensures sound { IfOk result (λ found. IsSound limits.now found.1.state) }
    ensures read { IfOk result (λ found. IsHonest (D.medium disk.old)
        → IsReadOld (D.medium disk.new) found.0 found.1) }
    // Refusals, in their order.
    ensures checked { (field : ℕ) → position not (tests format.most limits.now) ≡ Some field
        → IsErrOf result (UpgradeError.BadLimits (record { field = field })) × (disk.new ≡ disk.old) }
    ensures refused { IfErr result (λ error. IsHonest (D.medium disk.old)
        → IsUpgradeRefusal limits.now (D.size disk.old) (D.medium disk.old).contents error) }
    ensures small { (need : ℕ) → IsErrOf result (UpgradeError.TooSmall need)
        → (need ≡ need_of limits.now) × (D.size disk.old < need) }
    // It only reads.
    ensures reads { OnlySyncs D.size D.medium D.counts (IsErrOf result UpgradeError.Device) disk.old disk.new }
{
    limits.check(&FORMAT.most)?;
    let superblock = read_limits(disk, limits)?;
    let found = read_state(alloc, disk, limits, superblock)?;
    Ok(found)
}

// Makes what stands on the device last, and reads its superblock. The limits are none below its own, and the disk has
// room for them.
fn read_limits<D: SectorDisk>(disk: &mut D, limits: &Limits) -> Result<Superblock, UpgradeError>
    requires { AreOf format limits.now }
    ensures device { IfOk result (λ found. IsHonest (D.medium disk.old)
        → IsNamed found (D.medium disk.old).contents) }
    ensures limits { IfOk result (λ found. AreOf format_one found.limits) }
    ensures own_room { IfOk result (λ found. need_in format_one found.limits ≤ found.sectors) }
    ensures there { IfOk result (λ found. found.sectors ≤ D.size disk.old) }
    ensures greater { IfOk result (λ found. AreAtLeast limits.now found.limits) }
    ensures room { IfOk result (λ found. need_of limits.now ≤ D.size disk.old) }
    ensures durable { IfOk result (λ found. IsHonest (D.medium disk.old) → IsDurable (D.medium disk.new)) }
    // Refusals.
    ensures refused { IfErr result (λ error. IsHonest (D.medium disk.old)
        → IsUpgradeRefusal limits.now (D.size disk.old) (D.medium disk.old).contents error) }
    ensures small { (need : ℕ) → IsErrOf result (UpgradeError.TooSmall need)
        → (need ≡ need_of limits.now) × (D.size disk.old < need) }
    // It only reads.
    ensures reads { OnlySyncs D.size D.medium D.counts (IsErrOf result UpgradeError.Device) disk.old disk.new }
{
    disk.sync()?;
    let (_, superblock) = load_superblock(Versions::One, disk)?;
    let need = need(FORMAT, limits);
    test_room(limits, &superblock.limits, need, disk.sectors())?;
    Ok(superblock)
}

// The state that stands there, after a restart. The objects are read as an open of the old version reads them, so that
// a damage is seen, and then from the whole disk.
fn read_state<D: SectorDisk>(
    alloc: Global,
    disk: &mut D,
    limits: &Limits,
    superblock: Superblock,
) -> Result<(Checkpoint, Engine), OpenError>
    requires of { AreOf format limits.now }
    requires own { AreOf format_one superblock.limits }
    requires own_room { need_in format_one superblock.limits ≤ superblock.sectors }
    requires there { superblock.sectors ≤ D.size disk.old }
    requires greater { AreAtLeast limits.now superblock.limits }
    requires room { need_of limits.now ≤ D.size disk.old }
    ensures layout { IfOk result (λ found. saved_layout found.0 ≡ whole_layout limits.now (D.size disk.old)) }
    ensures root { IfOk result (λ found. saved_root found.0 ≡ format_one.root) }
    ensures spare { IfOk result (λ found. HasSpare found.0) }
    ensures later { IfOk result (λ found. epoch_of found.0 < last_epoch) }
    ensures limits { IfOk result (λ found. found.1.limits ≡ superblock.limits) }
    ensures sound { IfOk result (λ found. IsSound limits.now found.1.state) }
    ensures read { IfOk result (λ found. IsHonest (D.medium disk.old) → IsDurable (D.medium disk.old)
        → IsNamed superblock (D.medium disk.old).contents → IsReadOld (D.medium disk.new) found.0 found.1) }
    // Refusals.
    ensures refused { IfErr result (IsDamage (λ sector. IsHonest (D.medium disk.old)
        → IsDurable (D.medium disk.old) → IsNamed superblock (D.medium disk.old).contents
        → IsOldDamage (D.medium disk.old).contents sector)) }
    // It only reads.
    ensures reads { OnlyReads D.size D.medium D.counts (IsErrOf result OpenError.Device) disk.old disk.new }
{
    load_base(alloc, disk, FORMAT_ONE, superblock)?;
    let (checkpoint, mut engine) = load_whole(alloc, disk, limits, superblock.limits)?;
    go_through_journal(alloc, disk, &checkpoint, &mut engine)?;
    Ok((checkpoint, engine))
}

/// Whether these limits are none below the device's own, and the disk has the sectors that they need.
pub(crate) fn test_room(
    limits: &Limits,
    own: &Limits,
    need: u32,
    sectors: u32,
) -> Result<(), UpgradeError>
    ensures ok { OnOk result (AreAtLeast limits.now own.now × (need ≤ sectors)) }
    ensures refused { IfErr result (IsRoomRefusal limits.now own.now need sectors) }
{
    if let Some(field) = first_below(limits, own) {
        return Err(UpgradeError::BadLimits(BadLimits { field }));
    }
    if sectors < need {
        return Err(UpgradeError::TooSmall { need });
    }
    Ok(())
}

// The old objects, as they lie on the whole disk, on which there is room for those of the new limits beside them.
fn load_whole<D: SectorDisk>(
    alloc: Global,
    disk: &mut D,
    limits: &Limits,
    own: Limits,
) -> Result<(Checkpoint, Engine), OpenError>
    requires of { AreOf format limits.now }
    requires own { ArePassed own }
    requires room { need_of limits.now ≤ D.size disk.old }
    ensures layout { IfOk result (λ found. saved_layout found.0 ≡ whole_layout limits.now (D.size disk.old)) }
    ensures root { IfOk result (λ found. saved_root found.0 ≡ format_one.root) }
    ensures limits { IfOk result (λ found. found.1.limits ≡ own) }
    ensures changed { IfOk result (λ found. found.1.changed ≡ []) }
    ensures base { IfOk result (λ found. (objects : PlainObjects)
        × StandForStateIn format_one own found.1.state objects
        × (free_of found.0 + sectors_of objects ≡ (saved_layout found.0).range.count)
        × (IsHonest (D.medium disk.old) → IsDurable (D.medium disk.old)
        → CheckpointMatches found.0 objects (D.medium disk.new))) }
    ensures refused { IfErr result (IsDamage (λ sector. IsHonest (D.medium disk.old)
        → (epoch : ℕ) (objects : PlainObjects) (s : State)
        → HoldsObjects (whole_layout limits.now (D.size disk.old)) epoch objects (D.medium disk.old).contents
        → StandForStateIn format_one own s objects → ⊥)) }
    ensures reads { OnlyReads D.size D.medium D.counts (IsErrOf result OpenError.Device) disk.old disk.new }
{
    let layout = Layout {
        root: FORMAT_ONE.root,
        ..layout_in(FORMAT, limits, disk.sectors())
    };
    load_objects(alloc, disk, FORMAT_ONE, own, layout)
}

// The machine goes through the journal, and through a restart.
fn go_through_journal<D: SectorDisk>(
    alloc: Global,
    disk: &mut D,
    checkpoint: &Checkpoint,
    engine: &mut Engine,
) -> Result<(), OpenError>
    requires within { IsWithin (journal_range format_one) (D.size disk.old) }
    ensures limits { engine.new.limits ≡ engine.old.limits }
    ensures tracked { OnOk result ((base : State) → IsTracked engine.old.changed base engine.old.state
        → IsTracked engine.new.changed base engine.new.state) }
    ensures sound { OnOk result (IsSound engine.new.limits engine.new.state) }
    ensures later { OnOk result (epoch_of checkpoint.now < last_epoch) }
    ensures restarted { OnOk result ((s : State) × (engine.new.state ≡ restart engine.old.limits s)
        × (IsHonest (D.medium disk.old) → IsDurable (D.medium disk.old) → (batches : List (List PlainEvent))
        × HasBatches format_one (epoch_of checkpoint.now) batches (D.medium disk.old).contents
        × LeadToBy format_one.batch engine.old.limits engine.old.state batches s)) }
    ensures refused { IfErr result (IsDamage (λ sector. IsHonest (D.medium disk.old)
        → IsDurable (D.medium disk.old)
        → HasBaseIn format_one engine.old.limits (epoch_of checkpoint.now) engine.old.state (D.medium disk.old).contents
        → IsOldDamage (D.medium disk.old).contents sector)) }
    ensures reads { OnlyReads D.size D.medium D.counts (IsErrOf result OpenError.Device) disk.old disk.new }
{
    let mut room = room_for(alloc, FORMAT_ONE.batch as usize)?;
    load_journal(disk, FORMAT_ONE, checkpoint, engine, &mut room)?;
    // There has to be an epoch for the new objects.
    if checkpoint.epoch() == u64::MAX {
        return Err(OpenError::Damaged {
            sector: FORMAT_ONE.root,
        });
    }
    engine.step(Event::Restart)?;
    Ok(())
}

// Writes the new objects beside the old ones, under the new root, and then the superblock that tells of them.
fn write_new<D: SectorDisk>(
    disk: &mut D,
    checkpoint: Checkpoint,
    engine: &Engine,
    limits: &Limits,
) -> Result<(), DiskFault>
    requires of { AreOf format limits.now }
    requires room { need_of limits.now ≤ D.size disk.old }
    requires layout { saved_layout checkpoint ≡ whole_layout limits.now (D.size disk.old) }
    requires root { saved_root checkpoint ≡ format_one.root }
    requires spare { HasSpare checkpoint }
    requires later { epoch_of checkpoint < last_epoch }
    requires sound { IsSound limits.now engine.now.state }
    ensures ok { OnOk result (IsReadOld (D.medium disk.old) checkpoint engine.now
        → EachNow (D.medium disk.new) (StandsFor limits.now engine.now.state)) }
    ensures whole { OnOk result (IsHonest (D.medium disk.old) → EachNow (D.medium disk.new) NamesAll) }
    ensures durable { OnOk result (IsDurable (D.medium disk.new)) }
    ensures any_moment { (old : IsReadOld (D.medium disk.old) checkpoint engine.now)
        → EachImageSince (D.medium disk.old) (D.medium disk.new)
        (λ image. StandsForIn format_one engine.now.limits old.state image
        ⊎ StandsFor limits.now engine.now.state image) }
    ensures same { IsSameDisk D.size D.medium disk.old disk.new }
    ensures counts { CountsFault D.counts result disk.old disk.new }
{
    save_beside(disk, checkpoint, engine)?;
    put_superblock(disk, limits)
}

// Saves the state of the machine under the new root. What has changed is written into sectors that the old objects and
// their table do not use, so these stay under theirs.
fn save_beside<D: SectorDisk>(
    disk: &mut D,
    checkpoint: Checkpoint,
    engine: &Engine,
) -> Result<(), DiskFault>
    requires range { (saved_layout checkpoint).range ≡ objects_range format (D.size disk.old) }
    requires laid_out { IsLaidOut (layout_under format.root checkpoint) (D.size disk.old) }
    requires root { saved_root checkpoint ≡ format_one.root }
    requires fits { Fit (saved_layout checkpoint).area (saved engine.now.state) }
    requires spare { HasSpare checkpoint }
    requires later { epoch_of checkpoint < last_epoch }
    ensures ok { OnOk result (IsReadOld (D.medium disk.old) checkpoint engine.now
        → EachNow (D.medium disk.new) (HoldsObjects (layout_under format.root checkpoint) (epoch_of checkpoint + 1)
        (saved engine.now.state))) }
    // The old ones stay, at every moment.
    ensures any_moment { (old : IsReadOld (D.medium disk.old) checkpoint engine.now)
        → EachImageSince (D.medium disk.old) (D.medium disk.new)
        (HasOld engine.now.limits (epoch_of checkpoint) old.objects old.batches) }
    ensures stand { StandForState engine.now.limits engine.now.state (saved engine.now.state) }
    ensures same { IsSameDisk D.size D.medium disk.old disk.new }
    ensures counts { CountsFault D.counts result disk.old disk.new }
{
    let mut checkpoint = checkpoint;
    checkpoint.set_next_root(FORMAT.root);
    let epoch = checkpoint.epoch() + 1;
    checkpoint.save(disk, &objects_of(engine, FORMAT), epoch)?;
    Ok(())
}
