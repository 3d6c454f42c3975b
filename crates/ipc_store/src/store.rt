//! The store: its value, and the calls on it while it is open.

ghost use Rattle.std.specs.Prelude.{◌≡◌, ◌⊎◌, ◌<◌, ◌+◌, ◌-◌, ◌^◌, ◌↔◌, ◌++◌, ◌∷◌, ◌≢◌, ◌||◌, [], List};
ghost use Rattle.std.specs.Prelude.{length, true, false, IsOk, IsTrue, Ok, Err, OnOk, OnErr};
ghost use Rattle.ipc_checkpoint.specs.View.{epoch_of, HasSpare};
ghost use Rattle.ipc_disk.specs.Calls.{IsSameDisk, CountsFaultIf};
ghost use Rattle.ipc_disk.specs.Counts.{counted, with_calls};
ghost use Rattle.ipc_disk.specs.Medium.{Image, IsDurable, IsHonest};
ghost use Rattle.ipc_disk.specs.Since.{EachImageSince};
ghost use Rattle.ipc_limits.specs.Limits.{ArePassed};
ghost use Rattle.ipc_engine.specs.Changes.{changes, is_marked};
ghost use Rattle.ipc_engine.specs.Sound.{IsSound};
ghost use Rattle.ipc_state.specs.State.{State};
ghost use Rattle.ipc_state.specs.declared.parked.Object.{Object as AnyObject};
ghost use Rattle.ipc_engine.specs.Engine.{IsForProcess, event_takes_memory};
ghost use Rattle.ipc_engine.specs.Event.{PlainEvent};
ghost use Rattle.ipc_engine.specs.Step.{step as step_on, run};
ghost use Rattle.ipc_engine.specs.View.{plain_event};
ghost use Rattle.ipc_image.specs.Records.{record_bytes};
ghost use Rattle.ipc_journal.specs.View.{range_of, used_of};
ghost use Rattle.ipc_store.specs.Histories.{Takes};
ghost use Rattle.ipc_store.specs.Meanwhile.{StaysReadable};
ghost use Rattle.ipc_store.specs.View.{HasRoom, HasRoomFor, HasPlace, HasTurned, IsStopped, IsAtLastEpoch};
ghost use Rattle.ipc_store.specs.View.{append_calls, events_left, save_sectors, store_view, IsCommitted, Spends};
ghost use Rattle.ipc_store.specs.Relations.Matches.{AreOnDisk, MachineMatches, StoreMatches, StandsForEither};

use crate::batch::Batch;
use crate::fault::{CommitError, StepError};
use crate::places::form_of;
use crate::tally::Tally;
use ipc_base::Errno;
use ipc_checkpoint::Checkpoint;
use ipc_disk::{DiskFault, SectorDisk};
use ipc_engine::{Engine, Event};
use ipc_image::{LONGEST_RECORD, objects_of};
use ipc_journal::Journal;
use std::alloc::AllocError;
use std::marker::Model;

/// A machine whose events last. It owns its disk until it is closed. A contract sees the disk, the machine, the
/// checkpoint and the journal, the records that wait, how many events it has made last since it was opened, and whether
/// it has stopped. A store that has not stopped, on an honest disk, matches what stands there.
#[derive(Drop)]
pub struct Store<D: SectorDisk> {
    disk: D,
    engine: Engine,
    checkpoint: Checkpoint,
    journal: Journal,
    batch: Batch,
    confirmed: u64,
    stopped: bool,
    tally: Tally,
}

impl<D: SectorDisk> Model for Store<D> {
    ghost use Rattle.std.specs.Coded.{codes};
    ghost use Rattle.sem_undo.specs.Undo.{undo_code};
    ghost use Rattle.std.specs.Prelude.{◌≡◌, ◌+◌, ◌<◌, ◌^◌, false};
    ghost use Rattle.ipc_checkpoint.specs.View.{HasSpare};
    ghost use Rattle.ipc_store.specs.View.{StoreView, store_view};
    ghost use Rattle.ipc_store.specs.Relations.Matches.{AreOnDisk, MatchesIfHonest};

    ghost Value = { StoreView D };

    ghost coded = { Prim.hlevel (codes, undo_code) };

    ghost view = { λ s. store_view s.disk s.engine s.checkpoint s.journal s.batch s.confirmed s.stopped };

    ghost invariant = { λ s. AreOnDisk (D.size s.disk) s.engine.limits s.checkpoint s.journal
        × (s.confirmed + s.batch.count < 2 ^ 64)
        × MatchesIfHonest (D.medium s.disk)
        (store_view s.disk s.engine s.checkpoint s.journal s.batch s.confirmed s.stopped)
        × (s.stopped ≡ false → HasSpare s.checkpoint) };
}

impl<D: SectorDisk> Store<D> {
    /// A store over what was loaded, to which nothing has happened since it was opened.
    pub(crate) fn new(
        disk: D,
        checkpoint: Checkpoint,
        journal: Journal,
        engine: Engine,
        batch: Batch,
    ) -> Store<D>
        requires on_disk { AreOnDisk (D.size disk) engine.limits checkpoint journal }
        requires matches { IsHonest (D.medium disk) → MachineMatches (D.medium disk) engine checkpoint journal }
        requires spare { HasSpare checkpoint }
        requires empty { batch ≡ record { records = []; count = 0 } }
        ensures { result ≡ store_view disk engine checkpoint journal (record { records = []; count = 0 }) 0 false }
    {
        Store {
            disk,
            engine,
            checkpoint,
            journal,
            batch,
            confirmed: 0,
            stopped: false,
            tally: Tally::new(),
        }
    }

    /// The machine, in the state after every accepted event.
    pub fn engine(&self) -> &Engine
        ensures { result.now ≡ self.now.machine }
    {
        &self.engine
    }

    /// How many events it has made last since it was opened, the restart first.
    pub fn confirmed(&self) -> u64
        ensures { result ≡ self.now.confirmed }
    {
        self.confirmed
    }

    /// What it has done since it was opened.
    pub fn tally(&self) -> &Tally {
        &self.tally
    }

    /// One more refusal: a reply with this error, which its owner gave in its place.
    pub fn count_refusal(&mut self, errno: Errno)
        ensures { self.new ≡ self.old }
    {
        self.tally.count_refusal(errno);
    }

    /// Its disk.
    pub fn disk(&self) -> &D
        ensures { result.now ≡ self.now.disk }
    {
        &self.disk
    }

    /// The epoch of the objects that are saved.
    pub(crate) fn epoch(&self) -> u64
        ensures { result ≡ epoch_of self.now.checkpoint }
    {
        self.checkpoint.epoch()
    }

    /// How many sectors the batches of its journal take.
    pub fn journal_used(&self) -> u32
        ensures { result ≡ used_of self.now.journal }
    {
        self.journal.used()
    }

    /// How many sectors its journal has, the header among them.
    pub fn journal_sectors(&self) -> u32
        ensures { result ≡ (range_of self.now.journal).count }
    {
        self.journal.range().count
    }

    /// Whether the longest record still fits into what waits, and so that of any event.
    pub fn has_room(&self) -> bool
        ensures { IsTrue result ↔ HasRoom self.now }
    {
        self.has_room_for(LONGEST_RECORD as usize)
    }

    /// Whether records of so many bytes still fit into what waits.
    pub fn has_room_for(&self, bytes: usize) -> bool
        ensures { IsTrue result ↔ HasRoomFor self.now bytes }
    {
        self.batch.has_room_for(bytes)
    }

    /// How many more events it takes until it is opened again; none after it has stopped.
    pub fn events_left(&self) -> u64
        ensures { result ≡ events_left self.now }
    {
        if self.stopped {
            return 0;
        }
        u64::MAX - (self.confirmed + self.batch.count())
    }

    /// One step on an event, which then waits for a commit. It makes no call on the disk. After a refusal nothing has
    /// changed. It is `Stopped` after a failed commit, and once 18446744073709551615 events have come.
    pub fn step(&mut self, event: Event<'_>) -> Result<(), StepError>
        // Its record has room among those that wait.
        requires room { HasRoomFor self.old (length (record_bytes (plain_event event))) }
        requires process { IsForProcess self.old.machine.state (plain_event event) }
        // The machine takes the step, and the event waits.
        ensures state { OnOk result (self.new.machine.state
            ≡ (step_on self.old.machine.limits self.old.machine.state (plain_event event.entry)).state) }
        ensures outcomes { OnOk result (self.new.machine.outcomes
            ≡ (step_on self.old.machine.limits self.old.machine.state (plain_event event.entry)).outcomes) }
        ensures limits { self.new.machine.limits ≡ self.old.machine.limits }
        ensures passed { OnOk result (ArePassed self.old.machine.limits) }
        ensures was_sound { OnOk result (IsSound self.old.machine.limits self.old.machine.state) }
        ensures waiting { OnOk result (self.new.waiting ≡ self.old.waiting + 1) }
        ensures records { OnOk result (self.new.records
            ≡ self.old.records ++ record_bytes (plain_event event.entry)) }
        ensures matches { OnOk result ((base : State) (pending : List PlainEvent)
            → StoreMatches (D.medium self.old.disk) self.old base pending
            → StoreMatches (D.medium self.new.disk) self.new base (pending ++ plain_event event.entry ∷ [])) }
        ensures takes { (OnOk result (Takes D.medium self.old (plain_event event.entry ∷ []) self.new))
            × (OnErr result (Takes D.medium self.old [] self.new)) }
        // What a save has to write: what it had to before, and what the event changes.
        ensures only { OnOk result ((o : AnyObject) → is_marked self.new.machine.changed o ≡ true
            → (is_marked self.old.machine.changed o
            || changes self.old.machine.limits self.old.machine.state (plain_event event.entry) o) ≡ true) }
        ensures disk { self.new.disk ≡ self.old.disk }
        ensures checkpoint { self.new.checkpoint ≡ self.old.checkpoint }
        ensures journal { self.new.journal ≡ self.old.journal }
        ensures confirmed { self.new.confirmed ≡ self.old.confirmed }
        ensures running { self.new.stopped ≡ self.old.stopped }
        // Refusals.
        ensures err { OnErr result (self.new ≡ self.old) }
        ensures stopped { (result ≡ Err StepError.Stopped)
            ↔ (IsStopped self.old ⊎ (self.old.confirmed + self.old.waiting ≡ 2 ^ 64 - 1)) }
        ensures memory { event_takes_memory self.old.machine.limits self.old.machine.state (plain_event event.entry)
            ≡ false → (IsOk result) ⊎ (result ≡ Err StepError.Stopped) }
    {
        if self.stopped || self.confirmed + self.batch.count() == u64::MAX {
            return Err(StepError::Stopped);
        }
        if let Err(AllocError) = self.engine.step(event) {
            return Err(StepError::NoMemory);
        }
        self.batch.push(&event);
        self.tally.count(&event, self.engine.outcomes());
        Ok(())
    }

    /// Makes all events that wait last: a batch of them joins the journal, or, if it does not fit there, the state is
    /// saved. If none waits, nothing changes, and it makes no call on the disk. A crash at any moment leaves what was
    /// there before, with all of these events or with none. After an `Err` the store is stopped. It is `Stopped` too
    /// if it would have to save at epoch 18446744073709551615, the last; then the disk is as it was.
    pub fn commit(&mut self) -> Result<(), CommitError>
        // The base is the state of now, and no event waits.
        ensures matches { OnOk result ((base : State) (pending : List PlainEvent)
            → StoreMatches (D.medium self.old.disk) self.old base pending
            → StoreMatches (D.medium self.new.disk) self.new
            (run self.old.machine.limits base pending).state []) }
        ensures commits { IsCommitted result self.old self.new }
        ensures takes { Takes D.medium self.old [] self.new }
        // A crash at any moment of the call, also of one that fails.
        ensures any_moment { (base : State) (pending : List PlainEvent)
            → StoreMatches (D.medium self.old.disk) self.old base pending
            → EachImageSince (D.medium self.old.disk) (D.medium self.new.disk)
            (StandsForEither self.old.machine.limits base (run self.old.machine.limits base pending).state) }
        ensures left { (base : State) (pending : List PlainEvent) (image : Image)
            → StoreMatches (D.medium self.old.disk) self.old base pending
            → (D.medium self.new.disk).images_now image
            → StandsForEither self.old.machine.limits base (run self.old.machine.limits base pending).state image }
        // Who reads the device meanwhile finds what was saved where it stood, and no batch less, or a later root.
        ensures meanwhile { StaysReadable D.medium self.old self.new.disk }
        // If a crash would have left what was read, it leaves what is read now.
        ensures durable { OnOk result (IsDurable (D.medium self.old.disk) → IsDurable (D.medium self.new.disk)) }
        // Refusals, and counts.
        ensures stopped { (result ≡ Err CommitError.Stopped) ↔ (IsStopped self.old
            ⊎ (IsAtLastEpoch self.old × (0 < self.old.waiting) × ¬ HasPlace self.old)) }
        ensures kept { IsStopped self.old → self.new ≡ self.old }
        ensures unwritten { result ≡ Err CommitError.Stopped → self.new.disk ≡ self.old.disk }
        ensures nothing { self.old.waiting ≡ 0 → self.new ≡ self.old }
        ensures nothing_ok { self.old.waiting ≡ 0 → self.old.stopped ≡ false → IsOk result }
        ensures faults { CountsFaultIf D.counts (result ≡ Err CommitError.Device) self.old.disk self.new.disk }
        ensures counts { OnOk result (0 < self.old.waiting → HasPlace self.old → D.counts self.new.disk
            ≡ append_calls self.old (D.counts self.old.disk)) }
        ensures keeps { OnOk result (HasPlace self.old → self.new.machine ≡ self.old.machine) }
        ensures writes { OnOk result (IsHonest (D.medium self.old.disk) → 0 < self.old.waiting → ¬ HasPlace self.old
            → D.counts self.new.disk ≡ with_calls (save_sectors self.old.machine) 2 (D.counts self.old.disk)) }
        ensures turned { OnOk result (0 < self.old.waiting → ¬ HasPlace self.old → HasTurned self.old self.new) }
        ensures spends { OnOk result (Spends D.counts 1 self.old self.new) }
        ensures same { IsSameDisk D.size D.medium self.old.disk self.new.disk }
    {
        if self.stopped {
            return Err(CommitError::Stopped);
        }
        if self.batch.count() == 0 {
            return Ok(());
        }
        let len = self.batch.bytes().len();
        if self.journal.fits(len) {
            self.append()
        } else {
            self.save_state()
        }
    }

    /// Makes all events that wait last: the objects of the state are saved, with the next epoch, at which the journal
    /// is empty. It saves also if no event waits. A crash at any moment leaves what was there before, with all of these
    /// events or with none. After an `Err` the store is stopped. It is `Stopped` too at epoch 18446744073709551615, the
    /// last; then the disk is as it was. It takes no memory.
    pub fn save(&mut self) -> Result<(), CommitError>
        // The base is the state of now, and no event waits.
        ensures matches { OnOk result ((base : State) (pending : List PlainEvent)
            → StoreMatches (D.medium self.old.disk) self.old base pending
            → StoreMatches (D.medium self.new.disk) self.new
            (run self.old.machine.limits base pending).state []) }
        ensures commits { IsCommitted result self.old self.new }
        ensures takes { Takes D.medium self.old [] self.new }
        // A crash at any moment of the call, also of one that fails.
        ensures any_moment { (base : State) (pending : List PlainEvent)
            → StoreMatches (D.medium self.old.disk) self.old base pending
            → EachImageSince (D.medium self.old.disk) (D.medium self.new.disk)
            (StandsForEither self.old.machine.limits base (run self.old.machine.limits base pending).state) }
        ensures left { (base : State) (pending : List PlainEvent) (image : Image)
            → StoreMatches (D.medium self.old.disk) self.old base pending
            → (D.medium self.new.disk).images_now image
            → StandsForEither self.old.machine.limits base (run self.old.machine.limits base pending).state image }
        // Who reads the device meanwhile finds what was saved where it stood, and no batch less, or a later root.
        ensures meanwhile { StaysReadable D.medium self.old self.new.disk }
        ensures durable { OnOk result (IsDurable (D.medium self.new.disk)) }
        // Refusals, and counts.
        ensures stopped { (result ≡ Err CommitError.Stopped) ↔ (IsStopped self.old ⊎ IsAtLastEpoch self.old) }
        ensures kept { IsStopped self.old → self.new ≡ self.old }
        ensures unwritten { result ≡ Err CommitError.Stopped → self.new.disk ≡ self.old.disk }
        ensures faults { CountsFaultIf D.counts (result ≡ Err CommitError.Device) self.old.disk self.new.disk }
        ensures writes { OnOk result (IsHonest (D.medium self.old.disk) → D.counts self.new.disk
            ≡ with_calls (save_sectors self.old.machine) 2 (D.counts self.old.disk)) }
        ensures turned { OnOk result (HasTurned self.old self.new) }
        ensures spends { OnOk result (Spends D.counts 1 self.old self.new) }
        ensures same { IsSameDisk D.size D.medium self.old.disk self.new.disk }
    {
        if self.stopped {
            return Err(CommitError::Stopped);
        }
        self.save_state()
    }

    // Appends what waits to the journal.
    fn append(&mut self) -> Result<(), CommitError>
        requires running { self.old.stopped ≡ false }
        requires place { HasPlace self.old }
        ensures matches { OnOk result ((base : State) (pending : List PlainEvent)
            → StoreMatches (D.medium self.old.disk) self.old base pending
            → StoreMatches (D.medium self.new.disk) self.new
            (run self.old.machine.limits base pending).state []) }
        ensures commits { IsCommitted result self.old self.new }
        ensures any_moment { (base : State) (pending : List PlainEvent)
            → StoreMatches (D.medium self.old.disk) self.old base pending
            → EachImageSince (D.medium self.old.disk) (D.medium self.new.disk)
            (StandsForEither self.old.machine.limits base (run self.old.machine.limits base pending).state) }
        ensures meanwhile { StaysReadable D.medium self.old self.new.disk }
        ensures durable { OnOk result (IsDurable (D.medium self.new.disk)) }
        ensures epoch { self.new.checkpoint ≡ self.old.checkpoint }
        ensures machine { self.new.machine ≡ self.old.machine }
        ensures stopped { result ≢ Err CommitError.Stopped }
        ensures failure { result ≡ Err CommitError.Device → (D.counts self.new.disk).failures
            ≡ counted (D.counts self.old.disk).failures 1 }
        ensures counts { OnOk result (D.counts self.new.disk
            ≡ append_calls self.old (D.counts self.old.disk)) }
        ensures same { IsSameDisk D.size D.medium self.old.disk self.new.disk }
    {
        if let Err(DiskFault) = self.journal.append(&mut self.disk, self.batch.bytes()) {
            self.stopped = true;
            return Err(CommitError::Device);
        }
        self.confirmed += self.batch.count();
        self.batch.clear();
        self.tally.count_commit(false);
        Ok(())
    }

    // Saves the state, and empties the journal: at the next epoch what stands there counts no more.
    fn save_state(&mut self) -> Result<(), CommitError>
        requires running { self.old.stopped ≡ false }
        ensures matches { OnOk result ((base : State) (pending : List PlainEvent)
            → StoreMatches (D.medium self.old.disk) self.old base pending
            → StoreMatches (D.medium self.new.disk) self.new
            (run self.old.machine.limits base pending).state []) }
        ensures commits { IsCommitted result self.old self.new }
        ensures any_moment { (base : State) (pending : List PlainEvent)
            → StoreMatches (D.medium self.old.disk) self.old base pending
            → EachImageSince (D.medium self.old.disk) (D.medium self.new.disk)
            (StandsForEither self.old.machine.limits base (run self.old.machine.limits base pending).state) }
        ensures meanwhile { StaysReadable D.medium self.old self.new.disk }
        ensures durable { OnOk result (IsDurable (D.medium self.new.disk)) }
        ensures stopped { (result ≡ Err CommitError.Stopped) ↔ IsAtLastEpoch self.old }
        ensures unwritten { result ≡ Err CommitError.Stopped → self.new.disk ≡ self.old.disk }
        ensures faults { CountsFaultIf D.counts (result ≡ Err CommitError.Device) self.old.disk self.new.disk }
        ensures writes { OnOk result (IsHonest (D.medium self.old.disk) → D.counts self.new.disk
            ≡ with_calls (save_sectors self.old.machine) 2 (D.counts self.old.disk)) }
        ensures turned { OnOk result (HasTurned self.old self.new) }
        ensures same { IsSameDisk D.size D.medium self.old.disk self.new.disk }
    {
        let Some(epoch) = self.checkpoint.epoch().checked_add(1) else {
            self.stopped = true;
            return Err(CommitError::Stopped);
        };
        let objects = objects_of(&self.engine, form_of(&self.engine));
        if let Err(DiskFault) = self.checkpoint.save(&mut self.disk, &objects, epoch) {
            self.stopped = true;
            return Err(CommitError::Device);
        }
        self.journal.turn(epoch);
        self.engine.mark_saved();
        self.confirmed += self.batch.count();
        self.batch.clear();
        self.tally.count_commit(true);
        Ok(())
    }

    /// The disk as it is; events that wait are gone.
    pub fn close(self) -> D
        ensures disk { result ≡ self.disk }
        // What stands there, if the store has not stopped.
        ensures matches { self.stopped ≡ false → IsHonest (D.medium self.disk) → (base : State)
            × ((pending : List PlainEvent) × StoreMatches (D.medium self.disk) self base pending) }
    {
        self.disk
    }
}
