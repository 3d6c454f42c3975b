//! A disk that joins neighbouring writes, over any disk that takes runs of sectors.

ghost use Rattle.std.specs.Prelude.{◌≡◌, ◌<◌, ◌≤◌, ◌^◌, ◌+◌, ◌-◌, ◌↔◌, ◌++◌, [], ◌∷◌, Some};
ghost use Rattle.std.specs.Prelude.{IsOk, IsErr, IsTrue, IfOk, OnOk, OnErr, slice_get, slice_set};
ghost use Rattle.ipc_disk.specs.Calls.{IsOneCall};
ghost use Rattle.ipc_disk.specs.Counts.{counted, with_write, with_sync};
ghost use Rattle.ipc_disk.specs.Medium.{IsHonest, IsDurable, Stays, Writes};
ghost use Rattle.ipc_disk.specs.Range.{IsInside, IsWithin};

use crate::run::Run;
use crate::{DiskFault, RunDisk, SectorDisk};
use std::alloc::{AllocError, Global};

/// A disk over one that takes runs. Up to 64 neighbouring sectors that were written wait in the
/// value. One write puts them into the disk under it: at a sync, or before a sector is written that
/// does not join them. It is honest if that disk is. What was written since the last sync may be
/// lost if the value is dropped. After a sync that failed each sync fails.
#[derive(Drop)]
pub struct JoinedDisk<D: RunDisk> {
    disk: D,
    run: Box<Run>,
    // A sync has failed: the system may have forgotten writes, and a later sync would not tell.
    failed_sync: bool,
    failures: u64,
    writes: u64,
    ghost inside: { IsWithin run.value.range (D.size disk) },
    ghost failures_fit: { failures < 2 ^ 64 },
    ghost writes_fit: { writes < 2 ^ 64 },
}

// Counts a call if it failed.
fn count_fault(done: Result<(), DiskFault>, failures: &mut u64) -> Result<(), DiskFault>
    ensures same { result ≡ done }
    ensures ok { OnOk result (failures.new ≡ failures.old) }
    ensures err { OnErr result (failures.new ≡ counted failures.old 1) }
{
    if done.is_err() {
        *failures = failures.saturating_add(1);
    }
    done
}

impl<D: RunDisk + Drop> JoinedDisk<D> {
    ghost use Rattle.ipc_disk.specs.Joined.{disk_under, IsUnused};

    /// A disk over this one. Nothing waits, and no sync has failed.
    pub fn new(alloc: Global, disk: D) -> Result<JoinedDisk<D>, AllocError>
        ensures under { IfOk result (λ joined. disk_under joined ≡ disk) }
        ensures unused { IfOk result (λ joined. IsUnused (D.syncs disk) joined) }
    {
        let run = Box::new(alloc, Run::new(0))?;
        Ok(JoinedDisk {
            disk,
            run,
            failed_sync: false,
            failures: 0,
            writes: 0,
        })
    }
}

impl<D: RunDisk> JoinedDisk<D> {
    ghost use Rattle.ipc_disk.specs.Joined.{disk_under, waiting_range, waiting_values};
    ghost use Rattle.ipc_disk.specs.Joined.{has_failed_sync, joined_counts, joined_medium};
    ghost use Rattle.ipc_disk.specs.Joined.{joined_size};
    ghost use Rattle.ipc_disk.specs.Run.{IsNext, Joins};

    /// Its failures so far, at most 18446744073709551615.
    pub fn failures(&self) -> u64
        ensures { result ≡ (joined_counts self.now).failures }
    {
        self.failures
    }

    /// The disk under it. What waits is not there yet.
    pub fn disk(&self) -> &D
        ensures { result.now ≡ disk_under self.now }
    {
        &self.disk
    }

    /// The disk under it. What waits is let go.
    pub fn into_disk(self) -> D
        ensures { result ≡ disk_under self }
    {
        let JoinedDisk { disk, .. } = self;
        disk
    }

    // Puts what waits into the disk under it, and begins a new run before the sector `first`. If
    // that fails, all of it waits on.
    fn put(&mut self, first: u32) -> Result<(), DiskFault>
        requires { first ≤ joined_size self.old }
        ensures medium { Stays (joined_medium self.old) (joined_medium self.new) }
        ensures call { IsOneCall joined_size joined_counts result (λ n. n) self.old self.new }
        ensures range { OnOk result (waiting_range self.new ≡ record { first = first; count = 0 }) }
        ensures values { OnOk result (waiting_values self.new ≡ []) }
        ensures kept { OnErr result (self.new.run ≡ self.old.run) }
        ensures sure { has_failed_sync self.new ≡ has_failed_sync self.old }
    {
        let done = self.disk.write(self.run.range.first, self.run.sectors());
        count_fault(done, &mut self.failures)?;
        self.run.start_at(first);
        Ok(())
    }

    // Writes a sector that joins what waits.
    fn join(&mut self, at: u32, from: &[u8; 512])
        requires size { at < joined_size self.old }
        requires joins { Joins (waiting_range self.old) at }
        ensures medium { Writes at from.now (joined_medium self.old) (joined_medium self.new) }
        ensures written { IsHonest (D.medium (disk_under self.old))
            → (joined_medium self.new).contents
            ≡ slice_set (joined_medium self.old).contents at from.now }
        ensures under { disk_under self.new ≡ disk_under self.old }
        ensures counts { joined_counts self.new ≡ with_write (joined_counts self.old) }
        ensures first { (waiting_range self.new).first ≡ (waiting_range self.old).first }
        ensures inside { IsInside (waiting_range self.old) at
            → waiting_range self.new ≡ waiting_range self.old }
        ensures replaces { IsInside (waiting_range self.old) at → waiting_values self.new
            ≡ slice_set (waiting_values self.old) (at - (waiting_range self.old).first) from.now }
        ensures next { IsNext (waiting_range self.old) at
            → (waiting_range self.new).count ≡ (waiting_range self.old).count + 1 }
        ensures appends { IsNext (waiting_range self.old) at → waiting_values self.new
            ≡ waiting_values self.old ++ from.now ∷ [] }
        ensures sure { has_failed_sync self.new ≡ has_failed_sync self.old }
    {
        self.run.set(at, from);
        self.writes = self.writes.saturating_add(1);
    }

    // Puts out what waits, and then syncs the disk under it.
    fn flush(&mut self) -> Result<(), DiskFault>
        ensures medium { Stays (joined_medium self.old) (joined_medium self.new) }
        ensures durable { OnOk result (IsDurable (joined_medium self.new)) }
        ensures call { IsOneCall joined_size joined_counts result with_sync self.old self.new }
        ensures nothing_waits { OnOk result (waiting_values self.new ≡ []) }
        ensures sure { has_failed_sync self.new ≡ has_failed_sync self.old }
    {
        self.put(0)?;
        count_fault(self.disk.sync(), &mut self.failures)
    }
}

impl<D: RunDisk> SectorDisk for JoinedDisk<D> {
    ghost use Rattle.ipc_disk.specs.Joined.{disk_under, waiting_range, waiting_values};
    ghost use Rattle.ipc_disk.specs.Joined.{has_failed_sync, joined_counts, joined_medium};
    ghost use Rattle.ipc_disk.specs.Joined.{joined_size};
    ghost use Rattle.ipc_disk.specs.Run.{IsNext, Joins, whole_values};
    ghost use Rattle.ipc_disk.specs.Relations.Runs.{IsShaped-joined, only_now-joined};

    ghost size = { λ disk. joined_size disk };

    ghost medium = { λ disk. joined_medium disk };

    ghost counts = { λ disk. joined_counts disk };

    ghost fits = { λ disk. D.fits (disk_under disk) };

    ghost in_range = { λ disk. record {
      failures_fit = disk.failures_fit;
      writes_fit = disk.writes_fit;
      syncs_fit = D.syncs_fit (disk_under disk);
    } };

    ghost shaped = { λ disk image left. IsShaped-joined (D.size (disk_under disk))
        (waiting_range disk).first (waiting_values disk) (D.medium (disk_under disk))
        (whole_values disk.run.value) (D.shaped (disk_under disk)) image left };

    ghost only_now = { λ disk image left. only_now-joined (waiting_range disk).first
        (waiting_values disk) (D.medium (disk_under disk)) (D.only_now (disk_under disk))
        image left };

    fn sectors(&self) -> u32 {
        self.disk.sectors()
    }

    fn read(&mut self, at: u32, into: &mut [u8; 512]) -> Result<(), DiskFault>
        requires { at < joined_size self.old }
        // What the trait says.
        ensures bytes { OnOk result (IsHonest (joined_medium self.old)
            → slice_get (joined_medium self.old).contents at ≡ Some into.new) }
        ensures medium { Stays (joined_medium self.old) (joined_medium self.new) }
        ensures call { IsOneCall joined_size joined_counts result (λ n. n) self.old self.new }
        // A sector that waits is read as it was written, and the disk under it is left alone.
        ensures waits { IsInside (waiting_range self.old) at → IsOk result }
        ensures written { IsInside (waiting_range self.old) at
            → slice_get (waiting_values self.old) (at - (waiting_range self.old).first)
            ≡ Some into.new }
        ensures alone { IsInside (waiting_range self.old) at
            → disk_under self.new ≡ disk_under self.old }
        ensures same_range { waiting_range self.new ≡ waiting_range self.old }
        ensures same_values { waiting_values self.new ≡ waiting_values self.old }
        ensures sure { has_failed_sync self.new ≡ has_failed_sync self.old }
    {
        if let Some(sector) = self.run.get(at) {
            *into = *sector;
            return Ok(());
        }
        count_fault(self.disk.read(at, into), &mut self.failures)
    }

    fn write(&mut self, at: u32, from: &[u8; 512]) -> Result<(), DiskFault>
        requires { at < joined_size self.old }
        // What the trait says.
        ensures written { OnOk result (IsHonest (joined_medium self.old)
            → (joined_medium self.new).contents
            ≡ slice_set (joined_medium self.old).contents at from.now) }
        ensures medium { Writes at from.now (joined_medium self.old) (joined_medium self.new) }
        ensures call { IsOneCall joined_size joined_counts result with_write self.old self.new }
        // What waits then. A write that joins it cannot fail, and leaves the disk under it alone.
        ensures joins { Joins (waiting_range self.old) at → IsOk result }
        ensures alone { Joins (waiting_range self.old) at
            → disk_under self.new ≡ disk_under self.old }
        ensures replaces { IsInside (waiting_range self.old) at → waiting_values self.new
            ≡ slice_set (waiting_values self.old) (at - (waiting_range self.old).first) from.now }
        ensures appends { IsNext (waiting_range self.old) at → waiting_values self.new
            ≡ waiting_values self.old ++ from.now ∷ [] }
        ensures first { Joins (waiting_range self.old) at
            → (waiting_range self.new).first ≡ (waiting_range self.old).first }
        ensures begins { ¬ Joins (waiting_range self.old) at
            → OnOk result (waiting_values self.new ≡ from.now ∷ []) }
        ensures begins_at { ¬ Joins (waiting_range self.old) at
            → OnOk result (waiting_range self.new ≡ record { first = at; count = 1 }) }
        ensures kept_range { OnErr result (waiting_range self.new ≡ waiting_range self.old) }
        ensures kept_values { OnErr result (waiting_values self.new ≡ waiting_values self.old) }
        ensures sure { has_failed_sync self.new ≡ has_failed_sync self.old }
    {
        if !self.run.joins(at) {
            self.put(at)?;
        }
        self.join(at, from);
        Ok(())
    }

    fn sync(&mut self) -> Result<(), DiskFault>
        // What the trait says. The syncs are counted by the disk under it, which is synced once.
        ensures durable { OnOk result (IsDurable (joined_medium self.new)) }
        ensures medium { Stays (joined_medium self.old) (joined_medium self.new) }
        ensures call { IsOneCall joined_size joined_counts result with_sync self.old self.new }
        // Nothing waits then. After a sync that failed none is Ok, nor tried.
        ensures nothing_waits { OnOk result (waiting_values self.new ≡ []) }
        ensures sure { IsTrue (has_failed_sync self.old) → IsErr result }
        ensures alone { IsTrue (has_failed_sync self.old)
            → disk_under self.new ≡ disk_under self.old }
        ensures unsure { IsTrue (has_failed_sync self.new) ↔ IsErr result }
    {
        if self.failed_sync {
            return count_fault(Err(DiskFault), &mut self.failures);
        }
        let done = self.flush();
        self.failed_sync = done.is_err();
        done
    }
}
