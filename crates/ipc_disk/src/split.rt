//! A disk that takes runs, over one that takes a sector at a call.

ghost use Rattle.std.specs.Prelude.{◌≡◌, ◌≤◌, ◌<◌, ◌+◌, Some, OnOk, OnErr, length, slice_get};
ghost use Rattle.ipc_disk.specs.Counts.{counted, with_failure};
ghost use Rattle.ipc_disk.specs.Medium.{IsHonest, IsDurable, Stays};
ghost use Rattle.ipc_disk.specs.Runs.{WritesRun, set_run};

use crate::{DiskFault, RunDisk, SectorDisk};

/// Writes each run sector by sector. A write that fails, or that a crash stops, may have written
/// some of them.
#[derive(Drop)]
pub struct SectorRuns<D: SectorDisk> {
    /// The disk that it passes each sector on to.
    pub disk: D,
}

impl<D: SectorDisk> RunDisk for SectorRuns<D> {
    ghost size = { λ runs. D.size runs.disk };

    ghost medium = { λ runs. D.medium runs.disk };

    ghost syncs = { λ runs. (D.counts runs.disk).syncs };

    ghost fits = { λ runs. D.fits runs.disk };

    ghost syncs_fit = { λ runs. (D.in_range runs.disk).syncs_fit };

    ghost shaped = { λ runs. D.shaped runs.disk };

    ghost only_now = { λ runs. D.only_now runs.disk };

    fn sectors(&self) -> u32 {
        self.disk.sectors()
    }

    fn read(&mut self, at: u32, into: &mut [u8; 512]) -> Result<(), DiskFault>
        requires { at < D.size self.old.disk }
        // What the trait says.
        ensures bytes { OnOk result (IsHonest (D.medium self.old.disk)
            → slice_get (D.medium self.old.disk).contents at ≡ Some into.new) }
        ensures medium { Stays (D.medium self.old.disk) (D.medium self.new.disk) }
        ensures size { D.size self.new.disk ≡ D.size self.old.disk }
        ensures syncs { (D.counts self.new.disk).syncs ≡ (D.counts self.old.disk).syncs }
        // It fails only if the disk has counted a failure.
        ensures failure { OnErr result (D.counts self.new.disk
            ≡ with_failure (D.counts self.old.disk)) }
    {
        self.disk.read(at, into)
    }

    fn write(&mut self, first: u32, from: &[[u8; 512]]) -> Result<(), DiskFault>
        requires { first + length from.now ≤ D.size self.old.disk }
        // What the trait says.
        ensures written { OnOk result (IsHonest (D.medium self.old.disk)
            → (D.medium self.new.disk).contents
            ≡ set_run first from.now (D.medium self.old.disk).contents) }
        ensures medium { WritesRun first from.now
            (D.medium self.old.disk) (D.medium self.new.disk) }
        ensures size { D.size self.new.disk ≡ D.size self.old.disk }
        ensures syncs { (D.counts self.new.disk).syncs ≡ (D.counts self.old.disk).syncs }
        // It fails only if the disk has counted a failure.
        ensures failure { OnErr result ((D.counts self.new.disk).failures
            ≡ counted (D.counts self.old.disk).failures 1) }
    {
        for (i, sector) in from.iter().enumerate() {
            self.disk.write(first + i as u32, sector)?;
        }
        Ok(())
    }

    fn sync(&mut self) -> Result<(), DiskFault>
        // What the trait says.
        ensures durable { OnOk result (IsDurable (D.medium self.new.disk)) }
        ensures medium { Stays (D.medium self.old.disk) (D.medium self.new.disk) }
        ensures size { D.size self.new.disk ≡ D.size self.old.disk }
        ensures ok { OnOk result ((D.counts self.new.disk).syncs
            ≡ counted (D.counts self.old.disk).syncs 1) }
        ensures err { OnErr result ((D.counts self.new.disk).syncs
            ≡ (D.counts self.old.disk).syncs) }
        // It fails only if the disk has counted a failure.
        ensures failure { OnErr result (D.counts self.new.disk
            ≡ with_failure (D.counts self.old.disk)) }
    {
        self.disk.sync()
    }
}
