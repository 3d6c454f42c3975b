//! The opening of a device.

ghost use Rattle.std.specs.Prelude.{◌≡◌, ◌⊎◌, ◌<◌, ◌≤◌, ◌+◌, false, [], length};
ghost use Rattle.std.specs.Prelude.{Err, IfOk, IfErr, IsErrOf, OnOk, OnErr};
ghost use Rattle.std.specs.Result.{IsErrAnd};
ghost use Rattle.ipc_limits.specs.declared.limits.Limits.{Limits};
ghost use Rattle.ipc_checkpoint.specs.Meanwhile.{EachLater};
ghost use Rattle.ipc_checkpoint.specs.View.{HasSpare};
ghost use Rattle.ipc_disk.specs.Calls.{CountsFaultIf};
ghost use Rattle.ipc_disk.specs.Medium.{IsHonest};
ghost use Rattle.ipc_disk.specs.Since.{EachImageSince};
ghost use Rattle.ipc_journal.specs.Journal.{head};
ghost use Rattle.ipc_journal.specs.View.{form_of, range_of, used_of};
ghost use Rattle.ipc_state.specs.State.{State, restart};
ghost use Rattle.ipc_image.specs.Format.{device_form};
ghost use Rattle.ipc_store.specs.Image.{
  StandsFor,
  HasNoState,
  IsAtEnd,
  epoch_at,
  form_at,
};
ghost use Rattle.ipc_store.specs.Refusals.{IsRefusal};
ghost use Rattle.ipc_store.specs.Relations.Loading.{IsLoaded, OnlySyncs};
ghost use Rattle.ipc_store.specs.Results.{opened_disk};
ghost use Rattle.ipc_store.specs.View.{IsAtLastEpoch, numbers_used};
ghost use Rattle.ipc_store.specs.Histories.{OpensOn};
ghost use Rattle.ipc_store.specs.Meanwhile.{GoesOn};
ghost use Rattle.ipc_store.specs.Relations.Matches.{AreOnDisk, StoreMatches};
ghost use Rattle.ipc_store.specs.Relations.Matches.{StandsForEither, OpensTo};
ghost use Rattle.ipc_store.specs.declared.fault.OpenError.TheVariants as errors;

use crate::batch::{Batch, MOST_BYTES};
use crate::fault::{CommitError, OpenError};
use crate::loading::load;
use crate::places::form_of;
use crate::store::Store;
use ipc_checkpoint::Checkpoint;
use ipc_disk::{DiskFault, SectorDisk};
use ipc_engine::{Engine, Event};
use ipc_journal::Journal;
use std::alloc::{AllocError, Global};

/// A device that was not opened: why, and its disk.
#[derive(Drop)]
pub struct Unopened<D> {
    pub error: OpenError,
    pub disk: D,
}

impl<D: SectorDisk> Store<D> {
    /// Opens a device: what stands there is made last and read, the machine that was saved goes through the events of
    /// the journal and through a restart, and the restart is made last. All the memory of the store but the machine's
    /// is taken here.
    pub fn open(alloc: Global, disk: D) -> Result<Store<D>, Unopened<D>>
        // The base is the state for which the disk stood, after a restart; no event waits.
        ensures ok { IfOk result (λ store. IsHonest (D.medium disk)
            → OpensOn (D.medium disk).contents (D.medium store.disk) store) }
        ensures confirmed { IfOk result (λ store. store.confirmed ≡ 1) }
        // The epoch of the disk, or the next, and one event.
        ensures numbers { IfOk result (λ store. IsHonest (D.medium disk)
            → numbers_used store ≤ epoch_at (D.medium disk).contents + 2) }
        // A crash at any moment of the call, also of one that fails.
        ensures any_moment { IsHonest (D.medium disk)
            → EachImageSince (D.medium disk) (D.medium (opened_disk result)) (OpensTo (D.medium disk)) }
        // Who reads the device meanwhile finds what was saved where it stood, and no batch less, or a later root.
        ensures meanwhile { IsHonest (D.medium disk)
            → EachLater GoesOn (D.medium disk) (D.medium (opened_disk result)) }
        // Refusals. A disk that stands for a state is refused by the disk, for want of memory, or because it would have
        // to save and has no next epoch.
        ensures refusals { IfErr result (λ fault. (limits : Limits) (s : State) → IsHonest (D.medium disk)
            → StandsFor limits s (D.medium disk).contents
            → (fault.error ≡ errors.Device) ⊎ (fault.error ≡ errors.NoMemory)
            ⊎ IsAtEnd (D.medium disk).contents) }
        ensures refused { IfErr result (λ fault. IsHonest (D.medium disk)
            → IsRefusal (form_at (D.medium disk).contents) (D.medium disk).contents fault.error
            ⊎ (IsAtEnd (D.medium disk).contents
            × (fault.error ≡ errors.Damaged (form_at (D.medium disk).contents).root))) }
        // Nothing is written before a refusal but the disk's, and nothing at all on a disk that has no state.
        ensures unwritten { IfErr result (λ fault. (fault.error ≡ errors.Device)
            ⊎ ((D.counts fault.disk).writes ≡ (D.counts disk).writes)) }
        ensures untouched { IfErr result (λ fault. IsHonest (D.medium disk) → HasNoState (D.medium disk).contents
            → (D.counts fault.disk).writes ≡ (D.counts disk).writes) }
        // Failures and counts.
        ensures size { D.size (opened_disk result) ≡ D.size disk }
        ensures counts { CountsFaultIf D.counts (IsErrAnd result (λ fault. fault.error ≡ errors.Device))
            disk (opened_disk result) }
    {
        let mut disk = disk;
        let (checkpoint, journal, engine, batch) = match read_device(alloc, &mut disk) {
            Ok(found) => found,
            Err(error) => return Err(Unopened { error, disk }),
        };
        if let Err(DiskFault) = journal.clear_tail(&mut disk) {
            return Err(Unopened {
                error: OpenError::Device,
                disk,
            });
        }
        let mut store = Store::new(disk, checkpoint, journal, engine, batch);
        match store.restart() {
            Ok(()) => Ok(store),
            Err(error) => Err(Unopened {
                error,
                disk: store.close(),
            }),
        }
    }

    // Takes a restart as its first event, and makes it last.
    fn restart(&mut self) -> Result<(), OpenError>
        requires running { self.old.stopped ≡ false }
        requires first { self.old.confirmed ≡ 0 }
        requires none { self.old.waiting ≡ 0 }
        requires empty { self.old.records ≡ [] }
        ensures matches { OnOk result ((base : State) → StoreMatches (D.medium self.old.disk) self.old base []
            → StoreMatches (D.medium self.new.disk) self.new (restart self.old.machine.limits base) []) }
        ensures confirmed { OnOk result (self.new.confirmed ≡ 1) }
        ensures numbers { OnOk result (numbers_used self.new ≤ numbers_used self.old + 2) }
        ensures limits { self.new.machine.limits ≡ self.old.machine.limits }
        ensures any_moment { (base : State) → StoreMatches (D.medium self.old.disk) self.old base []
            → EachImageSince (D.medium self.old.disk) (D.medium self.new.disk)
            (StandsForEither self.old.machine.limits base (restart self.old.machine.limits base)) }
        ensures meanwhile { (base : State) → StoreMatches (D.medium self.old.disk) self.old base []
            → EachLater GoesOn (D.medium self.old.disk) (D.medium self.new.disk) }
        ensures faults { OnErr result ((result ≡ Err OpenError.Device)
            ⊎ (result ≡ Err (OpenError.Damaged (device_form self.old.machine.limits).root))) }
        ensures at_end { result ≡ Err (OpenError.Damaged (device_form self.old.machine.limits).root)
            → IsAtLastEpoch self.old
            × (head (form_of self.old.journal) + used_of self.old.journal ≡ (range_of self.old.journal).count) }
        ensures unwritten { (result ≡ Err OpenError.Device) ⊎ OnErr result (self.new.disk ≡ self.old.disk) }
        ensures size { D.size self.new.disk ≡ D.size self.old.disk }
        ensures counts { CountsFaultIf D.counts (result ≡ Err OpenError.Device) self.old.disk self.new.disk }
    {
        if let Err(_) = self.step(Event::Restart) {
            unreachable!()
        }
        match self.commit() {
            Ok(()) => Ok(()),
            Err(CommitError::Device) => Err(OpenError::Device),
            Err(CommitError::Stopped) => Err(OpenError::Damaged {
                sector: form_of(self.engine()).root,
            }),
        }
    }
}

// Makes what stands on a device last, and reads it into what a store is made of.
fn read_device<D: SectorDisk>(
    alloc: Global,
    disk: &mut D,
) -> Result<(Checkpoint, Journal, Engine, Batch), OpenError>
    ensures on_disk { IfOk result (λ found. AreOnDisk (D.size disk.new) found.2.limits found.0 found.1) }
    ensures spare { IfOk result (λ found. HasSpare found.0) }
    ensures loaded { IfOk result (λ found. IsHonest (D.medium disk.old)
        → IsLoaded (D.medium disk.new) found.2 found.0 found.1) }
    ensures batch { IfOk result (λ found. found.3 ≡ record { records = []; count = 0 }) }
    ensures refused { IfErr result (λ error. IsHonest (D.medium disk.old)
        → IsRefusal (form_at (D.medium disk.old).contents) (D.medium disk.old).contents error) }
    ensures reads { OnlySyncs D.size D.medium D.counts (IsErrOf result OpenError.Device) disk.old disk.new }
{
    let mut room = match room_for(alloc, MOST_BYTES) {
        Ok(room) => room,
        Err(AllocError) => return Err(OpenError::NoMemory),
    };
    match load(alloc, disk, &mut room) {
        Ok((checkpoint, journal, engine)) => Ok((checkpoint, journal, engine, Batch::new(room))),
        Err(error) => Err(error),
    }
}

/// The memory of a batch of at most so many bytes.
pub(crate) fn room_for(alloc: Global, bytes: usize) -> Result<Vec<u8>, AllocError>
    ensures { IfOk result (λ room. length room.items ≡ bytes) }
{
    let mut room = Vec::new(alloc);
    room.resize(bytes, 0)?;
    Ok(room)
}
