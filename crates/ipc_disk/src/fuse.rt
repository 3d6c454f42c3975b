//! A disk in memory that fails from some call on, and then crashes.

ghost use Rattle.std.specs.Prelude.{◌≡◌, ◌<◌, ◌-◌, ◌^◌, ◌↔◌, Some, IsOk};
ghost use Rattle.std.specs.Prelude.{OnOk, OnErr, slice_get, slice_set};
ghost use Rattle.ipc_disk.specs.Calls.{IsOneCall};
ghost use Rattle.ipc_disk.specs.Counts.{counted, with_write, with_sync};
ghost use Rattle.ipc_disk.specs.Medium.{IsHonest, IsDurable, Stays, Writes};
ghost use Rattle.ipc_disk.specs.Memory.{memory_size, memory_medium, memory_counts};
ghost use Rattle.ipc_disk.specs.Memory.{synced_image, unsynced_count, chosen_image};

use crate::{DiskFault, MemoryDisk, SectorDisk};

/// A disk in memory that passes so many reads, writes and syncs, and then fails each. A call that fails changes
/// nothing but the count of failures.
#[derive(Drop)]
pub struct FuseDisk {
    disk: MemoryDisk,
    calls: u64,
    keep: u64,
    failures: u64,
    ghost failures_fit: { failures < 2 ^ 64 },
}

impl FuseDisk {
    ghost use Rattle.ipc_disk.specs.Fuse.{disk_of, calls_left, keep_of, fuse_medium, fuse_counts};

    /// A disk that passes `calls` calls on to `disk`. The bits of `keep` say what a crash leaves.
    pub fn new(disk: MemoryDisk, calls: u64, keep: u64) -> FuseDisk
        ensures disk { disk_of result ≡ disk }
        ensures calls { calls_left result ≡ calls }
        ensures keep { keep_of result ≡ keep }
        ensures honest { IsHonest (fuse_medium result) }
        ensures counts { fuse_counts result ≡ memory_counts disk }
    {
        FuseDisk {
            disk,
            calls,
            keep,
            failures: 0,
        }
    }

    /// How many sectors have a last value that is not the one at the last sync.
    pub fn unsynced(&self) -> u32
        ensures { result ≡ unsynced_count (disk_of self.now) }
    {
        self.disk.unsynced()
    }

    /// Its failures so far, at most 18446744073709551615.
    pub fn failures(&self) -> u64
        ensures { result ≡ (fuse_counts self.now).failures }
    {
        self.failures
    }

    /// The disk after a crash: the i-th unsynced sector, from 0 and in rising order, has its last value where bit
    /// i mod 64 of `keep` is set, and else the one at the last sync.
    pub fn crash(self) -> MemoryDisk
        ensures image { (fuse_medium self).images_now (memory_medium result).contents }
        ensures contents { (memory_medium result).contents
            ≡ chosen_image (keep_of self) (disk_of self) }
        ensures synced { synced_image result ≡ (memory_medium result).contents }
        ensures durable { IsDurable (memory_medium result) }
        ensures honest { IsHonest (memory_medium result) }
        ensures size { memory_size result ≡ memory_size (disk_of self) }
        ensures counts { memory_counts result ≡ memory_counts (disk_of self) }
    {
        self.disk.crash(self.keep)
    }
}

// Spends one call, or counts a failure where none is left.
fn spend(calls: &mut u64, failures: &mut u64) -> Result<(), DiskFault>
    ensures passes { IsOk result ↔ (0 < calls.old) }
    ensures spent { calls.new ≡ calls.old - 1 }
    ensures ok { OnOk result (failures.new ≡ failures.old) }
    ensures err { OnErr result (failures.new ≡ counted failures.old 1) }
{
    if *calls == 0 {
        *failures = failures.saturating_add(1);
        return Err(DiskFault);
    }
    *calls -= 1;
    Ok(())
}

impl SectorDisk for FuseDisk {
    ghost use Rattle.ipc_disk.specs.Fuse.{disk_of, calls_left, keep_of, fuse_size, fuse_medium, fuse_counts};
    ghost use Rattle.ipc_disk.specs.Relations.Slots.{IsShaped-MayLeave};

    ghost size = { fuse_size };

    ghost medium = { fuse_medium };

    ghost counts = { fuse_counts };

    ghost fits = { λ fuse. fuse.disk.few };

    ghost in_range = { λ fuse. record {
      failures_fit = fuse.failures_fit;
      writes_fit = fuse.disk.writes_fit;
      syncs_fit = fuse.disk.syncs_fit;
    } };

    ghost shaped = { λ fuse image left. IsShaped-MayLeave fuse.disk.slots.items image fuse.disk.whole left };

    ghost only_now = { λ fuse image left. left };

    fn sectors(&self) -> u32 {
        self.disk.sectors()
    }

    fn read(&mut self, at: u32, into: &mut [u8; 512]) -> Result<(), DiskFault>
        requires { at < fuse_size self.old }
        // What the trait says.
        ensures bytes { OnOk result (IsHonest (fuse_medium self.old)
            → slice_get (fuse_medium self.old).contents at ≡ Some into.new) }
        ensures medium { Stays (fuse_medium self.old) (fuse_medium self.new) }
        ensures call { IsOneCall fuse_size fuse_counts result (λ n. n) self.old self.new }
        // The fuse, and what is synced.
        ensures passes { IsOk result ↔ (0 < calls_left self.old) }
        ensures spent { calls_left self.new ≡ calls_left self.old - 1 }
        ensures keep { keep_of self.new ≡ keep_of self.old }
        ensures unchanged { disk_of self.new ≡ disk_of self.old }
    {
        spend(&mut self.calls, &mut self.failures)?;
        self.disk.read(at, into)
    }

    fn write(&mut self, at: u32, from: &[u8; 512]) -> Result<(), DiskFault>
        requires { at < fuse_size self.old }
        // What the trait says.
        ensures written { OnOk result (IsHonest (fuse_medium self.old)
            → (fuse_medium self.new).contents ≡ slice_set (fuse_medium self.old).contents at from.now) }
        ensures medium { Writes at from.now (fuse_medium self.old) (fuse_medium self.new) }
        ensures call { IsOneCall fuse_size fuse_counts result with_write self.old self.new }
        // The fuse, and what is synced.
        ensures passes { IsOk result ↔ (0 < calls_left self.old) }
        ensures spent { calls_left self.new ≡ calls_left self.old - 1 }
        ensures keep { keep_of self.new ≡ keep_of self.old }
        ensures unchanged { OnErr result (disk_of self.new ≡ disk_of self.old) }
        ensures synced { synced_image (disk_of self.new) ≡ synced_image (disk_of self.old) }
    {
        spend(&mut self.calls, &mut self.failures)?;
        self.disk.write(at, from)
    }

    fn sync(&mut self) -> Result<(), DiskFault>
        // What the trait says.
        ensures durable { OnOk result (IsDurable (fuse_medium self.new)) }
        ensures medium { Stays (fuse_medium self.old) (fuse_medium self.new) }
        ensures call { IsOneCall fuse_size fuse_counts result with_sync self.old self.new }
        // The fuse, and what is synced.
        ensures passes { IsOk result ↔ (0 < calls_left self.old) }
        ensures spent { calls_left self.new ≡ calls_left self.old - 1 }
        ensures keep { keep_of self.new ≡ keep_of self.old }
        ensures unchanged { OnErr result (disk_of self.new ≡ disk_of self.old) }
        ensures synced { OnOk result (synced_image (disk_of self.new)
            ≡ (fuse_medium self.old).contents) }
    {
        spend(&mut self.calls, &mut self.failures)?;
        self.disk.sync()
    }
}
