//! The upgrade of a device of version 2 to version 3.

ghost use Rattle.std.specs.Prelude.{◌≡◌, ◌⊎◌, ◌<◌, ◌≤◌, ◌+◌, ℕ, [], ◌∷◌, None, Some, false};
ghost use Rattle.std.specs.Prelude.{IfOk, IfErr, OnOk, IsErrOf};
ghost use Rattle.std.specs.Result.{IsErrAnd};
ghost use Rattle.ipc_base.specs.Objects.{Fit};
ghost use Rattle.ipc_checkpoint.specs.Checkpoint.{IsLaidOut, Holds as HoldsObjects};
ghost use Rattle.ipc_checkpoint.specs.View.{epoch_of, layout_of as saved_layout, layout_under, saved_root, HasSpare};
ghost use Rattle.ipc_disk.specs.Calls.{IsSameDisk, CountsFault, CountsFaultIf, OnlyReads};
ghost use Rattle.ipc_disk.specs.Medium.{IsHonest, IsDurable};
ghost use Rattle.ipc_disk.specs.Range.{IsOutside, IsWithin};
ghost use Rattle.ipc_disk.specs.Since.{EachImageSince, LeavesAlone};
ghost use Rattle.ipc_engine.specs.Event.{Restart};
ghost use Rattle.ipc_engine.specs.Sound.{IsSound};
ghost use Rattle.ipc_image.specs.Format.{format};
ghost use Rattle.ipc_image.specs.Greater.{AreAtLeast};
ghost use Rattle.ipc_image.specs.Saved.{saved_in, StandForStateIn};
ghost use Rattle.ipc_image.specs.Sizes.{first_fault, need_in};
ghost use Rattle.ipc_image.specs.Superblock.{AreOf};
ghost use Rattle.ipc_journal.specs.Journal.{Holds};
ghost use Rattle.ipc_journal.specs.declared.form.Form.TheVariants.{Headed, Tagged};
ghost use Rattle.ipc_limits.specs.declared.limits.Limits.{Limits as AnyLimits};
ghost use Rattle.ipc_state.specs.State.{State, restart};
ghost use Rattle.ipc_store.specs.Image.{as_of, journal_range, last_epoch, objects_range};
ghost use Rattle.ipc_store.specs.Image.{NamesAll, StandsFor, StandsForIn};
ghost use Rattle.ipc_store.specs.Larger.{exceeded_field, larger, EnlargesTo, HasNoTwoEpochs, IsEnlarged};
ghost use Rattle.ipc_store.specs.Larger.{StandsBeside, StandsInPlace};
ghost use Rattle.ipc_store.specs.Refusals.{IsLargerRefusal};
ghost use Rattle.ipc_store.specs.Relations.Format.{EachNow};
ghost use Rattle.ipc_store.specs.Relations.Larger.{beside, IsInPlace, IsReadBeside, IsRestarted, IsStateRefusal};
ghost use Rattle.ipc_store.specs.Relations.Larger.{IsTestRefusal};
ghost use Rattle.ipc_store.specs.Relations.Loading.{IsDamage, IsFoundDamaged, IsLoaded, IsNamedIn, OnlySyncs};
ghost use Rattle.ipc_store.specs.Relations.Matches.{AreOnDisk, StoreMatches};
ghost use Rattle.ipc_store.specs.Relations.Upgrade.{HasOldIn};
ghost use Rattle.ipc_store.specs.Results.{opened_disk, upgraded_disk};
ghost use Rattle.ipc_store.specs.declared.fault.OpenError.TheVariants as opening;
ghost use Rattle.ipc_store.specs.declared.fault.UpgradeError.TheVariants as errors;

use crate::anew::Anew;
use crate::batch::{Batch, MOST_BYTES};
use crate::exceeding::exceeded_field;
use crate::fault::{OpenError, UpgradeError};
use crate::format::put_superblock;
use crate::loading::{load_objects, load_superblock, read_named};
use crate::opening::{Unopened, room_for};
use crate::places::{Versions, as_of, journal_form, journal_range, layout_in};
use crate::store::Store;
use crate::upgrade::{Unupgraded, test_room};
use ipc_checkpoint::{Checkpoint, Layout};
use ipc_disk::{DiskFault, SectorDisk};
use ipc_engine::{Engine, Event, restart_twice_is_once};
use ipc_image::{FORMAT, Format, Superblock, checked_need, objects_of};
use ipc_journal::Journal;
use ipc_limits::{BadLimits, Limits};
use std::alloc::Global;

/// The sectors of the journal of a device of version 2, which it keeps.
const JOURNAL_SECTORS: u32 = 257;

impl<D: SectorDisk> Store<D> {
    /// Makes a device of version 2 one of version 3, where it lies, under these limits and with a journal of 257
    /// sectors: it stands for what a restart makes of the state for which it stood. It has all sectors of the disk
    /// then.
    ///
    /// Refused, in this order, for limits that the greatest values of version 3 refuse, for those whose area is above
    /// 8000000 sectors (field 22), for a disk that is not formatted or of another version, for a superblock that is
    /// damaged, for limits below the device's, for a disk with fewer sectors than `need`, for a device that is damaged
    /// or has not two epochs more, and for limits that the state after a restart exceeds (fields 19 to 21); and where
    /// the disk fails or memory is refused. A crash leaves the device as it was, or in version 2 after a restart, or
    /// upgraded.
    pub fn upgrade_large(alloc: Global, disk: D, limits: &Limits) -> Result<D, Unupgraded<D>>
        // Each image that a crash may leave from then on stands for that.
        ensures ok { IfOk result (λ new. IsHonest (D.medium disk)
            → IsEnlarged (as_of larger limits.now) (D.medium disk) (D.medium new)) }
        ensures accepted { IfOk result (λ new. AreOf larger (as_of larger limits.now)
            × (need_in larger limits.now ≤ D.size disk)) }
        ensures durable { IfOk result (λ new. IsDurable (D.medium new)) }
        // A crash at any moment of the call, also of one that fails.
        ensures any_moment { IsHonest (D.medium disk)
            → EachImageSince (D.medium disk) (D.medium (upgraded_disk result))
            (EnlargesTo (as_of larger limits.now) (D.medium disk)) }
        // Refusals. Where limits and room are right and the state does not exceed the limits, a disk that stands for it
        // is refused by the disk, for want of memory, or because there are not two epochs more.
        ensures refusals { IfErr result (λ fault. (own : AnyLimits) (s : State) → IsHonest (D.medium disk)
            → StandsForIn format own s (D.medium disk).contents → first_fault larger limits.now ≡ None
            → AreAtLeast limits.now own → need_in larger limits.now ≤ D.size disk
            → exceeded_field (as_of larger limits.now) (restart own s) ≡ None
            → (fault.error ≡ errors.Device) ⊎ (fault.error ≡ errors.NoMemory)
            ⊎ HasNoTwoEpochs (D.medium disk).contents) }
        ensures checked { (field : ℕ) → first_fault larger limits.now ≡ Some field
            → IfErr result (λ fault. (fault.error ≡ errors.BadLimits (record { field = field }))
            × (fault.disk ≡ disk)) }
        ensures refused { IfErr result (λ fault. IsHonest (D.medium disk)
            → IsLargerRefusal (as_of larger limits.now) (D.size disk) (D.medium disk).contents fault.error) }
        ensures unwritten { IfErr result (λ fault. IsHonest (D.medium disk) → (fault.error ≡ errors.Device)
            ⊎ (fault.error ≡ errors.NoMemory) ⊎ ((D.counts fault.disk).writes ≡ (D.counts disk).writes)) }
        // Failures and counts.
        ensures size { D.size (upgraded_disk result) ≡ D.size disk }
        ensures counts { CountsFaultIf D.counts (IsErrAnd result (λ fault. fault.error ≡ errors.Device))
            disk (upgraded_disk result) }
    {
        enlarge(alloc, disk, &as_of(Format::three(JOURNAL_SECTORS), limits))
    }
}

// The upgrade to version 3, under limits that are of it.
fn enlarge<D: SectorDisk>(alloc: Global, disk: D, limits: &Limits) -> Result<D, Unupgraded<D>>
    requires { limits.now ≡ as_of larger limits.now }
    ensures ok { IfOk result (λ new. IsHonest (D.medium disk)
        → IsEnlarged limits.now (D.medium disk) (D.medium new)) }
    ensures accepted { IfOk result (λ new. AreOf larger limits.now × (need_in larger limits.now ≤ D.size disk)) }
    ensures durable { IfOk result (λ new. IsDurable (D.medium new)) }
    ensures any_moment { IsHonest (D.medium disk)
        → EachImageSince (D.medium disk) (D.medium (upgraded_disk result)) (EnlargesTo limits.now (D.medium disk)) }
    ensures checked { (field : ℕ) → first_fault larger limits.now ≡ Some field
        → IfErr result (λ fault. (fault.error ≡ errors.BadLimits (record { field = field }))
        × (fault.disk ≡ disk)) }
    ensures refused { IfErr result (λ fault. IsHonest (D.medium disk)
        → IsLargerRefusal limits.now (D.size disk) (D.medium disk).contents fault.error) }
    ensures unwritten { IfErr result (λ fault. IsHonest (D.medium disk) → (fault.error ≡ errors.Device)
        ⊎ (fault.error ≡ errors.NoMemory) ⊎ ((D.counts fault.disk).writes ≡ (D.counts disk).writes)) }
    ensures size { D.size (upgraded_disk result) ≡ D.size disk }
    ensures counts { CountsFaultIf D.counts (IsErrAnd result (λ fault. fault.error ≡ errors.Device))
        disk (upgraded_disk result) }
{
    let mut disk = disk;
    let superblock = match read_small(&mut disk, limits) {
        Ok(found) => found,
        Err(error) => return Err(Unupgraded { error, disk }),
    };
    let mut disk = save_in_place(alloc, disk, limits, superblock)?;
    match write_beside(alloc, &mut disk, limits) {
        Ok(()) => Ok(disk),
        Err(error) => Err(Unupgraded { error, disk }),
    }
}

// Makes what stands on the device durable, and reads its superblock. The limits are none below its own, and the disk
// has room for them.
fn read_small<D: SectorDisk>(disk: &mut D, limits: &Limits) -> Result<Superblock, UpgradeError>
    requires { limits.now ≡ as_of larger limits.now }
    ensures of { OnOk result (AreOf larger limits.now) }
    ensures room { OnOk result (need_in larger limits.now ≤ D.size disk.old) }
    ensures device { IfOk result (λ found. IsHonest (D.medium disk.old)
        → IsNamedIn format found (D.medium disk.old).contents) }
    ensures limits { IfOk result (λ found. AreOf format found.limits) }
    ensures own_room { IfOk result (λ found. need_in format found.limits ≤ found.sectors) }
    ensures there { IfOk result (λ found. found.sectors ≤ D.size disk.old) }
    ensures greater { IfOk result (λ found. AreAtLeast limits.now found.limits) }
    ensures durable { OnOk result (IsHonest (D.medium disk.old) → IsDurable (D.medium disk.new)) }
    // Refusals.
    ensures checked { (field : ℕ) → first_fault larger limits.now ≡ Some field
        → IsErrOf result (UpgradeError.BadLimits (record { field = field })) × (disk.new ≡ disk.old) }
    ensures refused { IfErr result (λ error. IsHonest (D.medium disk.old)
        → IsLargerRefusal limits.now (D.size disk.old) (D.medium disk.old).contents error) }
    // It only reads.
    ensures reads { OnlySyncs D.size D.medium D.counts (IsErrOf result UpgradeError.Device) disk.old disk.new }
{
    let need = checked_need(Format::three(JOURNAL_SECTORS), limits)?;
    disk.sync()?;
    let (_, superblock) = load_superblock(Versions::Two, disk)?;
    test_room(limits, &superblock.limits, need, disk.sectors())?;
    Ok(superblock)
}

// Saves what stands there after a restart, in version 2, if the limits allow it and there are two epochs more.
fn save_in_place<D: SectorDisk>(
    alloc: Global,
    disk: D,
    limits: &Limits,
    superblock: Superblock,
) -> Result<D, Unupgraded<D>>
    requires of { AreOf format superblock.limits }
    requires own_room { need_in format superblock.limits ≤ superblock.sectors }
    requires there { superblock.sectors ≤ D.size disk }
    requires named { IsHonest (D.medium disk) → IsNamedIn format superblock (D.medium disk).contents }
    requires durable { IsHonest (D.medium disk) → IsDurable (D.medium disk) }
    ensures ok { IfOk result (λ new. IsHonest (D.medium disk)
        → (s : State) × StandsForIn format superblock.limits s (D.medium disk).contents
        × (exceeded_field limits.now (restart superblock.limits s) ≡ None)
        × IsInPlace superblock.limits s (D.medium new)) }
    ensures any_moment { IsHonest (D.medium disk)
        → EachImageSince (D.medium disk) (D.medium (upgraded_disk result))
        (λ image. (D.medium disk).images_now image
        ⊎ ((s : State) × StandsForIn format superblock.limits s (D.medium disk).contents
        × StandsInPlace superblock.limits s image)) }
    ensures refused { IfErr result (λ fault. IsHonest (D.medium disk)
        → IsStateRefusal superblock.limits limits.now (D.medium disk).contents fault.error) }
    ensures unwritten { IfErr result (λ fault. (fault.error ≡ errors.Device)
        ⊎ ((D.counts fault.disk).writes ≡ (D.counts disk).writes)) }
    ensures size { D.size (upgraded_disk result) ≡ D.size disk }
    ensures counts { CountsFaultIf D.counts (IsErrAnd result (λ fault. fault.error ≡ errors.Device))
        disk (upgraded_disk result) }
{
    let mut store = match restarted(alloc, disk, superblock) {
        Ok(store) => store,
        Err(Unopened { error, disk }) => {
            return Err(Unupgraded {
                error: UpgradeError::from(error),
                disk,
            });
        }
    };
    if let Err(error) = test_state(&store, limits) {
        return Err(Unupgraded {
            error,
            disk: store.close(),
        });
    }
    match store.save() {
        Ok(()) => Ok(store.close()),
        Err(_) => Err(Unupgraded {
            error: UpgradeError::Device,
            disk: store.close(),
        }),
    }
}

// The store of the device, with a restart that waits for a commit.
fn restarted<D: SectorDisk>(
    alloc: Global,
    disk: D,
    superblock: Superblock,
) -> Result<Store<D>, Unopened<D>>
    requires of { AreOf format superblock.limits }
    requires own_room { need_in format superblock.limits ≤ superblock.sectors }
    requires there { superblock.sectors ≤ D.size disk }
    requires named { IsHonest (D.medium disk) → IsNamedIn format superblock (D.medium disk).contents }
    requires durable { IsHonest (D.medium disk) → IsDurable (D.medium disk) }
    ensures limits { IfOk result (λ store. store.machine.limits ≡ superblock.limits) }
    ensures ok { IfOk result (λ store. IsHonest (D.medium disk)
        → IsRestarted superblock.limits (D.medium disk).contents (D.medium store.disk) store) }
    ensures none { IfOk result (λ store. store.machine.state.undo ≡ []) }
    ensures running { IfOk result (λ store. store.stopped ≡ false) }
    ensures refused { IfErr result (λ fault. IsHonest (D.medium disk)
        → IsDamage (IsFoundDamaged format (D.medium disk).contents) fault.error) }
    ensures reads { OnlyReads D.size D.medium D.counts (IsErrAnd result (λ fault. fault.error ≡ opening.Device))
        disk (opened_disk result) }
{
    let mut disk = disk;
    let (checkpoint, journal, engine, batch) = match read_whole(alloc, &mut disk, superblock) {
        Ok(found) => found,
        Err(error) => return Err(Unopened { error, disk }),
    };
    let mut store = Store::new(disk, checkpoint, journal, engine, batch);
    take_restart(&mut store);
    Ok(store)
}

// Takes a restart as its first event, which waits then.
fn take_restart<D: SectorDisk>(store: &mut Store<D>)
    requires running { store.old.stopped ≡ false }
    requires first { store.old.confirmed ≡ 0 }
    requires none { store.old.waiting ≡ 0 }
    requires empty { store.old.records ≡ [] }
    ensures matches { (base : State) → StoreMatches (D.medium store.old.disk) store.old base []
        → StoreMatches (D.medium store.new.disk) store.new base (Restart ∷ []) }
    ensures state { store.new.machine.state ≡ restart store.old.machine.limits store.old.machine.state }
    ensures limits { store.new.machine.limits ≡ store.old.machine.limits }
    ensures disk { store.new.disk ≡ store.old.disk }
    ensures checkpoint { store.new.checkpoint ≡ store.old.checkpoint }
    ensures running { store.new.stopped ≡ false }
{
    if let Err(_) = store.step(Event::Restart) {
        unreachable!()
    }
}

// Reads what stands on a device with this superblock into what a store is made of.
fn read_whole<D: SectorDisk>(
    alloc: Global,
    disk: &mut D,
    superblock: Superblock,
) -> Result<(Checkpoint, Journal, Engine, Batch), OpenError>
    requires of { AreOf format superblock.limits }
    requires own_room { need_in format superblock.limits ≤ superblock.sectors }
    requires there { superblock.sectors ≤ D.size disk.old }
    ensures on_disk { IfOk result (λ found. AreOnDisk (D.size disk.new) found.2.limits found.0 found.1) }
    ensures limits { IfOk result (λ found. found.2.limits ≡ superblock.limits) }
    ensures spare { IfOk result (λ found. HasSpare found.0) }
    ensures loaded { IfOk result (λ found. IsHonest (D.medium disk.old) → IsDurable (D.medium disk.old)
        → IsNamedIn format superblock (D.medium disk.old).contents
        → IsLoaded (D.medium disk.new) found.2 found.0 found.1) }
    ensures batch { IfOk result (λ found. found.3 ≡ record { records = []; count = 0 }) }
    ensures refused { IfErr result (IsDamage (λ sector. IsHonest (D.medium disk.old)
        → IsNamedIn format superblock (D.medium disk.old).contents
        → IsFoundDamaged format (D.medium disk.old).contents sector)) }
    ensures reads { OnlyReads D.size D.medium D.counts (IsErrOf result OpenError.Device) disk.old disk.new }
{
    let mut room = room_for(alloc, MOST_BYTES)?;
    let (checkpoint, journal, engine) = read_named(alloc, disk, FORMAT, superblock, &mut room)?;
    Ok((checkpoint, journal, engine, Batch::new(room)))
}

// Whether the device has two epochs more, and the state of its store is within the limits of version 3.
fn test_state<D: SectorDisk>(store: &Store<D>, limits: &Limits) -> Result<(), UpgradeError>
    requires none { store.now.machine.state.undo ≡ [] }
    ensures later { OnOk result (epoch_of store.now.checkpoint + 2 ≤ last_epoch) }
    ensures fits { OnOk result (exceeded_field limits.now store.now.machine.state ≡ None) }
    ensures refused { IfErr result (IsTestRefusal limits.now (epoch_of store.now.checkpoint) store.now.machine.state) }
{
    if store.epoch() >= u64::MAX - 1 {
        return Err(UpgradeError::Damaged {
            sector: FORMAT.root,
        });
    }
    match exceeded_field(store.engine().state(), limits) {
        None => Ok(()),
        Some(field) => Err(UpgradeError::BadLimits(BadLimits { field })),
    }
}

// Writes the state in the objects of version 3 beside those of version 2, clears the journal, and then writes the
// superblock of version 3.
fn write_beside<D: SectorDisk>(
    alloc: Global,
    disk: &mut D,
    limits: &Limits,
) -> Result<(), UpgradeError>
    requires of { AreOf larger limits.now }
    requires room { need_in larger limits.now ≤ D.size disk.old }
    ensures ok { OnOk result ((own : AnyLimits) (s : State) → IsInPlace own s (D.medium disk.old)
        → EachNow (D.medium disk.new) (StandsFor limits.now (restart limits.now s))) }
    ensures whole { OnOk result (IsHonest (D.medium disk.old) → EachNow (D.medium disk.new) NamesAll) }
    ensures durable { OnOk result (IsDurable (D.medium disk.new)) }
    ensures any_moment { (own : AnyLimits) (s : State) → IsInPlace own s (D.medium disk.old)
        → EachImageSince (D.medium disk.old) (D.medium disk.new) (StandsBeside own limits.now s) }
    ensures refused { IfErr result (λ error. (own : AnyLimits) (s : State) → IsInPlace own s (D.medium disk.old)
        → AreAtLeast limits.now own → exceeded_field limits.now (restart own s) ≡ None
        → (error ≡ errors.Device) ⊎ (error ≡ errors.NoMemory)) }
    ensures same { IsSameDisk D.size D.medium disk.old disk.new }
    ensures counts { CountsFaultIf D.counts (IsErrOf result UpgradeError.Device) disk.old disk.new }
{
    let (checkpoint, engine) = load_beside(alloc, disk, limits)?;
    write_three(disk, checkpoint, &engine, limits)?;
    Ok(())
}

// The objects of version 2, as they lie on the whole disk, on which there is room for those of version 3 beside them,
// and the machine after one restart more, under the new limits.
fn load_beside<D: SectorDisk>(
    alloc: Global,
    disk: &mut D,
    limits: &Limits,
) -> Result<(Checkpoint, Engine), OpenError>
    requires of { AreOf larger limits.now }
    requires room { need_in larger limits.now ≤ D.size disk.old }
    ensures layout { IfOk result (λ found. saved_layout found.0 ≡ beside limits.now (D.size disk.old)) }
    ensures root { IfOk result (λ found. saved_root found.0 ≡ format.root) }
    ensures spare { IfOk result (λ found. HasSpare found.0) }
    ensures later { IfOk result (λ found. epoch_of found.0 < last_epoch) }
    ensures limits { IfOk result (λ found. found.1.limits ≡ limits.now) }
    ensures sound { IfOk result (λ found. IsSound limits.now found.1.state) }
    ensures read { IfOk result (λ found. (own : AnyLimits) (s : State) → IsInPlace own s (D.medium disk.old)
        → IsReadBeside own limits.now s (D.medium disk.new) found.0 found.1) }
    ensures refused { IfErr result (λ error. (own : AnyLimits) (s : State) → IsInPlace own s (D.medium disk.old)
        → AreAtLeast limits.now own → exceeded_field limits.now (restart own s) ≡ None
        → (error ≡ opening.Device) ⊎ (error ≡ opening.NoMemory)) }
    ensures reads { OnlyReads D.size D.medium D.counts (IsErrOf result OpenError.Device) disk.old disk.new }
{
    restart_twice_is_once();
    let layout = Layout {
        root: FORMAT.root,
        ..layout_in(Format::three(JOURNAL_SECTORS), limits, disk.sectors())
    };
    let (checkpoint, mut engine) = load_objects(alloc, disk, FORMAT, *limits, layout)?;
    if checkpoint.epoch() == u64::MAX {
        return Err(OpenError::Damaged {
            sector: FORMAT.root,
        });
    }
    engine.step(Event::Restart)?;
    Ok((checkpoint, engine))
}

// Writes the objects, clears the journal, and writes the superblock.
fn write_three<D: SectorDisk>(
    disk: &mut D,
    checkpoint: Checkpoint,
    engine: &Engine,
    limits: &Limits,
) -> Result<(), DiskFault>
    requires of { AreOf larger limits.now }
    requires room { need_in larger limits.now ≤ D.size disk.old }
    requires layout { saved_layout checkpoint ≡ beside limits.now (D.size disk.old) }
    requires root { saved_root checkpoint ≡ format.root }
    requires spare { HasSpare checkpoint }
    requires later { epoch_of checkpoint < last_epoch }
    requires limits { engine.now.limits ≡ limits.now }
    requires sound { IsSound limits.now engine.now.state }
    ensures ok { OnOk result ((own : AnyLimits) (s : State)
        → IsReadBeside own limits.now s (D.medium disk.old) checkpoint engine.now
        → EachNow (D.medium disk.new) (StandsFor limits.now (restart limits.now s))) }
    ensures whole { OnOk result (IsHonest (D.medium disk.old) → EachNow (D.medium disk.new) NamesAll) }
    ensures durable { OnOk result (IsDurable (D.medium disk.new)) }
    ensures any_moment { (own : AnyLimits) (s : State)
        → IsReadBeside own limits.now s (D.medium disk.old) checkpoint engine.now
        → EachImageSince (D.medium disk.old) (D.medium disk.new) (StandsBeside own limits.now s) }
    ensures same { IsSameDisk D.size D.medium disk.old disk.new }
    ensures counts { CountsFault D.counts result disk.old disk.new }
{
    let epoch = checkpoint.epoch() + 1;
    save_three(disk, checkpoint, engine)?;
    clear_journal(disk, epoch)?;
    put_superblock(disk, limits)
}

// Saves the state of the machine in the objects of version 3, under their root and with the next epoch. All of them are
// written, into sectors that the objects of version 2 and their table do not use, so these stay under theirs.
fn save_three<D: SectorDisk>(
    disk: &mut D,
    checkpoint: Checkpoint,
    engine: &Engine,
) -> Result<(), DiskFault>
    requires range { (saved_layout checkpoint).range ≡ objects_range larger (D.size disk.old) }
    requires laid_out { IsLaidOut (layout_under larger.root checkpoint) (D.size disk.old) }
    requires root { saved_root checkpoint ≡ format.root }
    requires fits { Fit (saved_layout checkpoint).area (saved_in larger engine.now.state) }
    requires spare { HasSpare checkpoint }
    requires later { epoch_of checkpoint < last_epoch }
    ensures ok { OnOk result ((own limits : AnyLimits) (s : State)
        → IsReadBeside own limits s (D.medium disk.old) checkpoint engine.now
        → EachNow (D.medium disk.new) (HoldsObjects (layout_under larger.root checkpoint) (epoch_of checkpoint + 1)
        (saved_in larger engine.now.state))) }
    // Those of version 2 stay, at every moment.
    ensures any_moment { (own limits : AnyLimits) (s : State)
        (read : IsReadBeside own limits s (D.medium disk.old) checkpoint engine.now)
        → EachImageSince (D.medium disk.old) (D.medium disk.new)
        (HasOldIn format own (epoch_of checkpoint) read.objects []) }
    ensures stand { StandForStateIn larger engine.now.limits engine.now.state (saved_in larger engine.now.state) }
    ensures durable { OnOk result (IsDurable (D.medium disk.new)) }
    ensures same { IsSameDisk D.size D.medium disk.old disk.new }
    ensures counts { CountsFault D.counts result disk.old disk.new }
{
    let form = Format::three(JOURNAL_SECTORS);
    let mut checkpoint = checkpoint;
    checkpoint.set_next_root(form.root);
    let epoch = checkpoint.epoch() + 1;
    checkpoint.save(disk, &Anew(objects_of(engine, form)), epoch)?;
    Ok(())
}

// Makes of the journal of version 2 one of version 3 without a batch.
fn clear_journal<D: SectorDisk>(disk: &mut D, epoch: u64) -> Result<(), DiskFault>
    requires later { 0 < epoch }
    requires within { IsWithin (journal_range larger) (D.size disk.old) }
    ensures empty { OnOk result (IsHonest (D.medium disk.old)
        → EachNow (D.medium disk.new) (Holds Tagged (journal_range larger) epoch [])) }
    ensures durable { OnOk result (IsDurable (D.medium disk.new)) }
    ensures others { IsHonest (D.medium disk.old)
        → LeavesAlone (IsOutside (journal_range larger)) (D.medium disk.old) (D.medium disk.new) }
    // If that of version 2 has no batch, it has none at every moment.
    ensures any_moment { (other : ℕ) → 0 < other → IsHonest (D.medium disk.old)
        → EachNow (D.medium disk.old) (Holds Headed (journal_range larger) other [])
        → EachImageSince (D.medium disk.old) (D.medium disk.new) (Holds Headed (journal_range larger) other []) }
    ensures same { IsSameDisk D.size D.medium disk.old disk.new }
    ensures counts { CountsFault D.counts result disk.old disk.new }
{
    let form = Format::three(JOURNAL_SECTORS);
    Journal::create(disk, journal_form(form), journal_range(form), epoch)?;
    disk.sync()
}
