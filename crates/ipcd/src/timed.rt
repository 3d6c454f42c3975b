//! A disk of which is known how long its syncs take.

ghost use Rattle.std.specs.Prelude.{◌≡◌};

use ipc_disk::{DiskFault, JoinedDisk, RunDisk};
use std::time::Clock;

/// How many syncs there were, how many nanoseconds all of them took, and the longest of them. Each number ends at
/// 18446744073709551615.
#[derive(Clone, Copy)]
pub struct SyncTimes {
    pub count: u64,
    pub sum: u64,
    pub longest: u64,
}

impl SyncTimes {
    // One more sync, which took so many nanoseconds.
    fn add(&mut self, nanos: u64) {
        self.count = self.count.saturating_add(1);
        self.sum = self.sum.saturating_add(nanos);
        self.longest = self.longest.max(nanos);
    }
}

/// A disk that tells of its syncs.
pub trait Timed {
    fn sync_times(&self) -> SyncTimes;
}

/// The disk `runs`, whose syncs are timed by a clock.
#[derive(Drop)]
pub struct TimedRuns<'a, C, R: RunDisk> {
    runs: R,
    clock: &'a C,
    times: SyncTimes,
}

impl<'a, C, R: RunDisk> TimedRuns<'a, C, R> {
    /// No sync was timed yet.
    pub fn new(runs: R, clock: &'a C) -> Self {
        let times = SyncTimes {
            count: 0,
            sum: 0,
            longest: 0,
        };
        TimedRuns { runs, clock, times }
    }
}

impl<C: Clock, R: RunDisk> RunDisk for TimedRuns<'_, C, R> {
    ghost size = { λ timed. R.size timed.runs };

    ghost medium = { λ timed. R.medium timed.runs };

    ghost syncs = { λ timed. R.syncs timed.runs };

    ghost fits = { λ timed. R.fits timed.runs };

    ghost syncs_fit = { λ timed. R.syncs_fit timed.runs };

    ghost shaped = { λ timed. R.shaped timed.runs };

    ghost only_now = { λ timed. R.only_now timed.runs };

    fn sectors(&self) -> u32 {
        self.runs.sectors()
    }

    fn read(&mut self, at: u32, into: &mut [u8; 512]) -> Result<(), DiskFault> {
        self.runs.read(at, into)
    }

    fn write(&mut self, first: u32, from: &[[u8; 512]]) -> Result<(), DiskFault> {
        self.runs.write(first, from)
    }

    fn sync(&mut self) -> Result<(), DiskFault> {
        let begun = nanos(self.clock);
        let done = self.runs.sync();
        self.times.add(nanos(self.clock).saturating_sub(begun));
        done
    }
}

impl<C: Clock, R: RunDisk> Timed for JoinedDisk<TimedRuns<'_, C, R>> {
    fn sync_times(&self) -> SyncTimes {
        self.disk().times
    }
}

// The nanoseconds that a clock which is never stepped has run, or 0 where it cannot be read.
fn nanos(clock: &impl Clock) -> u64 {
    match clock.monotonic() {
        Ok(time) => u64::try_from(time.as_nanos()).unwrap_or(0),
        Err(_) => 0,
    }
}
