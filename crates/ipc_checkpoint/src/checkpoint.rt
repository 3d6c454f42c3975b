//! The checkpoint: its value, and the calls on it.

ghost use Rattle.std.specs.Prelude.{◌≡◌, ◌≢◌, ◌<◌, ◌+◌, ℕ, IfOk, OnOk, OnErr, IsErrOf};
ghost use Rattle.ipc_base.specs.Objects.{PlainObjects};
ghost use Rattle.ipc_disk.specs.Calls.{IsSameDisk, CountsCalls, CountsFault, OnlyReads};
ghost use Rattle.ipc_disk.specs.Counts.{with_calls};
ghost use Rattle.ipc_disk.specs.Medium.{IsHonest, IsDurable};
ghost use Rattle.ipc_disk.specs.Range.{IsOutside};
ghost use Rattle.ipc_disk.specs.Since.{EachImageSince, LeavesAlone};

use crate::loading::read_objects;
use crate::saving::{keep_those_of, put_changed};
use crate::{Layout, LoadError};
use ipc_base::{ObjectMap, Objects};
use ipc_disk::{DiskFault, SectorDisk};
use ipc_heap::Heap;
use std::alloc::Global;
use std::marker::Model;

/// What is known of a checkpoint on a disk: where it lies, its epoch, and where its objects are. A contract sees it as
/// `CheckpointView`.
#[derive(Drop)]
pub struct Checkpoint {
    area: u32,
    heap: Heap,
}

impl Model for Checkpoint {
    ghost use Rattle.ipc_checkpoint.specs.View.{CheckpointView};

    ghost Value = { CheckpointView };

    ghost view = { λ c. record { area = c.area; heap = c.heap } };
}

impl Checkpoint {
    ghost use Rattle.ipc_checkpoint.specs.Checkpoint.{Holds, IsLaidOut, IsElsewhere, IsOwn, IsFirstDamage};
    ghost use Rattle.ipc_checkpoint.specs.Matches.{CheckpointMatches, HoldsEither, IsSavedUnder};
    ghost use Rattle.ipc_checkpoint.specs.Matches.{sectors_of, table_sectors, changed_sectors};
    ghost use Rattle.ipc_checkpoint.specs.Meanwhile.{EachLater, KeepsUsedOrTurns};
    ghost use Rattle.ipc_base.specs.Objects.{Fit, OthersAreThere};
    ghost use Rattle.ipc_heap.specs.Matches.{StaysSaved};
    ghost use Rattle.ipc_checkpoint.specs.View.{layout_of, saved_root, with_next_root, epoch_of, free_of, HasSpare};

    /// Makes the first checkpoint, at epoch 1, with one sync. Until then, and after an `Err`, its sectors may be
    /// anything.
    pub fn create<D: SectorDisk, O: Objects>(
        disk: &mut D,
        layout: Layout,
        objects: &O,
    ) -> Result<(), DiskFault>
        requires laid_out { IsLaidOut layout (D.size disk.old) }
        requires fits { Fit layout.area (O.objects objects.now) }
        // What is there then.
        ensures holds { OnOk result (IsHonest (D.medium disk.old)
            → Holds layout 1 (O.objects objects.now) (D.medium disk.new).contents) }
        ensures durable { OnOk result (IsDurable (D.medium disk.new)) }
        // A crash at any moment: no other sector is touched.
        ensures others { IsHonest (D.medium disk.old)
            → LeavesAlone (IsElsewhere layout) (D.medium disk.old) (D.medium disk.new) }
        // Failures and counts.
        ensures same { IsSameDisk D.size D.medium disk.old disk.new }
        ensures counts { CountsCalls D.counts result (with_calls (sectors_of (O.objects objects.now) + 1) 1)
            disk.old disk.new }
    {
        Heap::create(disk, layout.range, layout.root, objects)
    }

    /// The checkpoint that stands there, and its objects. It only reads, each sector once.
    pub fn load<D: SectorDisk>(
        alloc: Global,
        disk: &mut D,
        layout: Layout,
    ) -> Result<(Checkpoint, ObjectMap), LoadError>
        requires laid_out { IsLaidOut layout (D.size disk.old) }
        // What is loaded, and when it is damaged.
        ensures layout { IfOk result (λ found. layout_of found.0 ≡ layout) }
        ensures root { IfOk result (λ found. saved_root found.0 ≡ layout.root) }
        ensures holds { IfOk result (λ found. IsHonest (D.medium disk.old)
            → Holds layout (epoch_of found.0) found.1 (D.medium disk.old).contents) }
        ensures matches { IfOk result (λ found. IsHonest (D.medium disk.old) → IsDurable (D.medium disk.old)
            → CheckpointMatches found.0 found.1 (D.medium disk.new)) }
        ensures damaged { (sector : ℕ) → IsErrOf result (LoadError.Damaged sector)
            → IsHonest (D.medium disk.old) → (epoch : ℕ) (objects : PlainObjects)
            → ¬ Holds layout epoch objects (D.medium disk.old).contents }
        ensures named { (sector : ℕ) → IsErrOf result (LoadError.Damaged sector) → IsOwn layout sector }
        ensures first { (sector : ℕ) → IsErrOf result (LoadError.Damaged sector) → IsHonest (D.medium disk.old)
            → IsFirstDamage layout (D.medium disk.old).contents sector }
        // How many sectors are free.
        ensures free { IfOk result (λ found. free_of found.0 + sectors_of found.1 ≡ layout.range.count) }
        // Failures.
        ensures reads { OnlyReads D.size D.medium D.counts (IsErrOf result LoadError.Device) disk.old disk.new }
    {
        let heap = Heap::open(alloc, disk, layout.range, layout.root)?;
        let objects = read_objects(alloc, disk, &heap)?;
        let checkpoint = Checkpoint {
            area: layout.area,
            heap,
        };
        Ok((checkpoint, objects))
    }

    /// Its epoch.
    pub fn epoch(&self) -> u64
        ensures { result ≡ epoch_of self.now }
    {
        self.heap.epoch()
    }

    /// Aims it at another root: the next save writes that sector, and leaves the root that tells of what is saved.
    pub fn set_next_root(&mut self, root: u32)
        requires apart { IsOutside (layout_of self.old).range root }
        requires other { root ≢ saved_root self.old }
        ensures { self.new ≡ with_next_root root self.old }
    {
        self.heap.set_next_root(root);
    }

    /// Replaces the objects, at a later epoch. Those that have changed are written, and the table. A crash at any
    /// moment leaves all of the old ones at the old epoch, or all of the new ones at the new. If it was given
    /// another root, the old ones stay under the old one as well, until the save that follows. It takes no memory.
    /// After an `Err` the checkpoint has to be loaded again.
    pub fn save<D: SectorDisk, O: Objects>(
        &mut self,
        disk: &mut D,
        objects: &O,
        epoch: u64,
    ) -> Result<(), DiskFault>
        requires laid_out { IsLaidOut (layout_of self.old) (D.size disk.old) }
        requires later { epoch_of self.old < epoch }
        requires fits { Fit (layout_of self.old).area (O.objects objects.now) }
        requires old_fits { HasSpare self.old }
        requires unchanged { (saved : PlainObjects) → CheckpointMatches self.old saved (D.medium disk.old)
            → OthersAreThere (O.differs objects.now) (O.objects objects.now) saved }
        // What is there then.
        ensures matches { OnOk result ((saved : PlainObjects)
            → CheckpointMatches self.old saved (D.medium disk.old)
            → CheckpointMatches self.new (O.objects objects.now) (D.medium disk.new)) }
        ensures durable { OnOk result (IsDurable (D.medium disk.new)) }
        ensures epoch { OnOk result (epoch_of self.new ≡ epoch) }
        ensures err_epoch { OnErr result (epoch_of self.new ≡ epoch_of self.old) }
        ensures layout { layout_of self.new ≡ layout_of self.old }
        ensures free { OnOk result (free_of self.new + sectors_of (O.objects objects.now)
            ≡ (layout_of self.old).range.count) }
        // A crash at any moment of the call, also of one that fails.
        ensures any_moment { (saved : PlainObjects) → CheckpointMatches self.old saved (D.medium disk.old)
            → EachImageSince (D.medium disk.old) (D.medium disk.new)
            (HoldsEither (layout_of self.old) (epoch_of self.old) saved epoch (O.objects objects.now)) }
        // Who reads it meanwhile finds the old objects where they stood, or a root of a later epoch.
        ensures meanwhile { (saved : PlainObjects) → CheckpointMatches self.old saved (D.medium disk.old)
            → EachLater (KeepsUsedOrTurns (layout_of self.old)) (D.medium disk.old) (D.medium disk.new) }
        // After `set_next_root` the old objects stay under the old root, also once the new ones are there.
        ensures moved { OnOk result ((root : ℕ) (saved : PlainObjects)
            → IsSavedUnder root self.old saved (D.medium disk.old)
            → OthersAreThere (O.differs objects.now) (O.objects objects.now) saved
            → CheckpointMatches self.new (O.objects objects.now) (D.medium disk.new)) }
        ensures kept { (root : ℕ) (saved : PlainObjects) → IsSavedUnder root self.old saved (D.medium disk.old)
            → root ≢ (layout_of self.old).root → StaysSaved (layout_of self.old).range root (epoch_of self.old) saved
            (D.medium disk.old) (D.medium disk.new) }
        // No other sector is touched.
        ensures others { IsHonest (D.medium disk.old)
            → LeavesAlone (IsElsewhere (layout_of self.old)) (D.medium disk.old) (D.medium disk.new) }
        // Failures and counts: what is written is what has changed, the table and the root.
        ensures same { IsSameDisk D.size D.medium disk.old disk.new }
        ensures counts { CountsFault D.counts result disk.old disk.new }
        ensures writes { OnOk result ((saved : PlainObjects) → CheckpointMatches self.old saved (D.medium disk.old)
            → D.counts disk.new ≡ with_calls (changed_sectors (O.differs objects.now) (O.objects objects.now)
            + table_sectors (O.objects objects.now) + 1) 2 (D.counts disk.old)) }
    {
        // None of the objects is empty, as their count tells.
        let _count = objects.count();
        keep_those_of(&mut self.heap, objects);
        put_changed(&mut self.heap, disk, objects)?;
        match self.heap.flip(disk, epoch) {
            Ok(()) => Ok(()),
            // It cannot be full: all but an area was free, and there was room for another.
            Err(_) => Err(DiskFault),
        }
    }
}
