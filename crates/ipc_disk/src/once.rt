//! A disk in memory of which one call fails.

ghost use Rattle.std.specs.Prelude.{◌≡◌, ◌<◌, ◌^◌, ◌↔◌, true, false, None, Some, IsErr};
ghost use Rattle.std.specs.Prelude.{OnOk, OnErr, slice_get, slice_set};
ghost use Rattle.ipc_disk.specs.Calls.{IsOneCall};
ghost use Rattle.ipc_disk.specs.Counts.{counted, next_of, with_write, with_sync};
ghost use Rattle.ipc_disk.specs.Medium.{IsHonest, IsDurable, Stays, Writes};
ghost use Rattle.ipc_disk.specs.Memory.{memory_size, memory_medium, memory_counts};

use crate::{DiskFault, MemoryDisk, SectorDisk};

/// A disk in memory that passes each read, write and sync on, but for one of them, which fails. A write that fails may
/// be done all the same; a sync that fails is not done.
#[derive(Drop)]
pub struct OnceDisk {
    disk: MemoryDisk,
    // How many calls come before the one that fails; none, once it has failed.
    before: Option<u64>,
    done: bool,
    failures: u64,
    writes: u64,
    ghost failures_fit: { failures < 2 ^ 64 },
    ghost writes_fit: { writes < 2 ^ 64 },
}

impl OnceDisk {
    ghost use Rattle.ipc_disk.specs.Once.{under, before_fault, is_done, once_medium, once_counts};

    /// A disk that passes calls on to `disk`, but for the one that comes after `at` others. If that is a write, it is
    /// done if `done` says so.
    pub fn new(disk: MemoryDisk, at: u64, done: bool) -> OnceDisk
        ensures disk { under result ≡ disk }
        ensures before { before_fault result ≡ Some at }
        ensures done { is_done result ≡ done }
        ensures honest { IsHonest (once_medium result) }
        ensures counts { once_counts result ≡ memory_counts disk }
    {
        let writes = disk.writes();
        OnceDisk {
            disk,
            before: Some(at),
            done,
            failures: 0,
            writes,
        }
    }

    /// Whether the call that fails has come.
    pub fn has_failed(&self) -> bool
        ensures { result ≡ true ↔ before_fault self.now ≡ None }
    {
        self.before.is_none()
    }

    /// The disk under it.
    pub fn into_disk(self) -> MemoryDisk
        ensures { result ≡ under self }
    {
        self.disk
    }
}

// Whether this call is the one that fails, which is then counted.
fn fails(before: &mut Option<u64>, failures: &mut u64) -> bool
    ensures due { result ≡ true ↔ before.old ≡ Some 0 }
    ensures next { before.new ≡ next_of before.old }
    ensures fault { result ≡ true → failures.new ≡ counted failures.old 1 }
    ensures passes { result ≡ false → failures.new ≡ failures.old }
{
    match *before {
        None => false,
        Some(0) => {
            *before = None;
            *failures = failures.saturating_add(1);
            true
        }
        Some(calls) => {
            *before = Some(calls - 1);
            false
        }
    }
}

impl SectorDisk for OnceDisk {
    ghost use Rattle.ipc_disk.specs.Once.{under, before_fault, is_done, once_size, once_medium, once_counts};
    ghost use Rattle.ipc_disk.specs.Relations.Slots.{IsShaped-MayLeave};

    ghost size = { once_size };

    ghost medium = { once_medium };

    ghost counts = { once_counts };

    ghost fits = { λ once. once.disk.few };

    ghost in_range = { λ once. record {
      failures_fit = once.failures_fit;
      writes_fit = once.writes_fit;
      syncs_fit = once.disk.syncs_fit;
    } };

    ghost shaped = { λ once image left. IsShaped-MayLeave once.disk.slots.items image once.disk.whole left };

    ghost only_now = { λ once image left. left };

    fn sectors(&self) -> u32 {
        self.disk.sectors()
    }

    fn read(&mut self, at: u32, into: &mut [u8; 512]) -> Result<(), DiskFault>
        requires { at < once_size self.old }
        // What the trait says.
        ensures bytes { OnOk result (IsHonest (once_medium self.old)
            → slice_get (once_medium self.old).contents at ≡ Some into.new) }
        ensures medium { Stays (once_medium self.old) (once_medium self.new) }
        ensures call { IsOneCall once_size once_counts result (λ n. n) self.old self.new }
        // The call that fails.
        ensures fails { IsErr result ↔ before_fault self.old ≡ Some 0 }
        ensures next { before_fault self.new ≡ next_of (before_fault self.old) }
        ensures unchanged { under self.new ≡ under self.old }
    {
        if fails(&mut self.before, &mut self.failures) {
            return Err(DiskFault);
        }
        self.disk.read(at, into)
    }

    fn write(&mut self, at: u32, from: &[u8; 512]) -> Result<(), DiskFault>
        requires { at < once_size self.old }
        // What the trait says.
        ensures written { OnOk result (IsHonest (once_medium self.old)
            → (once_medium self.new).contents ≡ slice_set (once_medium self.old).contents at from.now) }
        ensures medium { Writes at from.now (once_medium self.old) (once_medium self.new) }
        ensures call { IsOneCall once_size once_counts result with_write self.old self.new }
        // The call that fails.
        ensures fails { IsErr result ↔ before_fault self.old ≡ Some 0 }
        ensures next { before_fault self.new ≡ next_of (before_fault self.old) }
        ensures kept { is_done self.old ≡ false → OnErr result (under self.new ≡ under self.old) }
        ensures done { is_done self.old ≡ true → OnErr result (IsHonest (once_medium self.old)
            → (once_medium self.new).contents ≡ slice_set (once_medium self.old).contents at from.now) }
    {
        if fails(&mut self.before, &mut self.failures) {
            if self.done {
                self.disk.write(at, from)?;
            }
            return Err(DiskFault);
        }
        self.disk.write(at, from)?;
        self.writes = self.writes.saturating_add(1);
        Ok(())
    }

    fn sync(&mut self) -> Result<(), DiskFault>
        // What the trait says.
        ensures durable { OnOk result (IsDurable (once_medium self.new)) }
        ensures medium { Stays (once_medium self.old) (once_medium self.new) }
        ensures call { IsOneCall once_size once_counts result with_sync self.old self.new }
        // The call that fails.
        ensures fails { IsErr result ↔ before_fault self.old ≡ Some 0 }
        ensures next { before_fault self.new ≡ next_of (before_fault self.old) }
        ensures unchanged { OnErr result (under self.new ≡ under self.old) }
    {
        if fails(&mut self.before, &mut self.failures) {
            return Err(DiskFault);
        }
        self.disk.sync()
    }
}
