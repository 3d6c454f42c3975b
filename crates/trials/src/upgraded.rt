//! The upgrade of a device, from version 1 to 2 or from 2 to 3, and the opening after it: stopped at each call on the
//! disk, with each choice of the unsynced sectors that a crash keeps, and with one call that fails. What that leaves is
//! upgraded, if it is of the old version still, and opened; then its clients find what they have to find.

ghost use Rattle.std.specs.Prelude.{◌<◌};

use crate::fault::Fault;
use crate::runs::{Ran, run};
use crate::stages::parts_of;
use crate::stops::{Fails, Stops, fail_each, stop_each};
use crate::told::Told;
use ipc_disk::{FuseDisk, MemoryDisk, OnceDisk, SectorDisk, sectors_for_len, write_bytes};
use ipc_image::{FORMAT, checked_need};
use ipc_limits::Limits;
use ipc_store::Store;
use std::alloc::Global;

/// The bytes of a device of version 1, the version of which it becomes one, a probe, and what that has to answer then.
#[derive(Clone, Copy)]
struct Old<'a> {
    alloc: Global,
    version: u32,
    image: &'a [u8],
    probe: &'a [u8],
    wanted: &'a [u8],
}

/// Upgrades that end early, or in the opening after them: how many devices of the old version and of the new one they
/// left. What comes after each N-th of these stops is stopped too: how often.
#[derive(Clone, Copy)]
struct Upgrades<'a> {
    old: Old<'a>,
    every: u64,
    olds: u64,
    news: u64,
    again: u64,
    ghost some: { 0 < every },
}

/// What comes after an upgrade that was stopped after so many calls, by this choice of a crash.
#[derive(Clone, Copy)]
struct Again<'a> {
    old: Old<'a>,
    stop: (u64, u64),
}

/// Upgrades the device of a text to this version, 2 or 3. In the text a probe comes first, a line `-`, what the probe
/// has to answer, and another line `-`.
pub(crate) fn upgraded(alloc: Global, version: u32, text: &[u8], every: u64) -> Result<Told, Fault>
    requires { 0 < every }
{
    let (probe, rest) = parts_of(alloc, text)?;
    let (wanted, image) = parts_of(alloc, rest)?;
    let old = Old {
        alloc,
        version,
        image,
        probe,
        wanted,
    };
    let mut stopped = Upgrades::new(old, every);
    let stops = stop_each(&mut stopped)?;
    let mut failed = Upgrades::new(old, every);
    let faults = fail_each(&mut failed, 0, false)?;
    let faults = faults.saturating_add(fail_each(&mut failed, 0, true)?);
    let words =
        "# stops of an upgrade to version # and the opening after it left # devices of the old version and # of the \
        new one\n\
        # stops of what comes after these left the same\n\
        # faults of an upgrade and the opening left # devices of the old version and # of the new one";
    let Upgrades {
        olds,
        news,
        again,
        ..
    } = stopped;
    let version = u64::from(version);
    let numbers = [
        stops,
        version,
        olds,
        news,
        again,
        faults,
        failed.olds,
        failed.news,
    ];
    Ok(Told::new(words, &numbers))
}

/// A device of the version before this one in memory, made of one of version 1, on a disk with room for the upgrade.
fn old_disk(alloc: Global, version: u32, image: &[u8]) -> Result<MemoryDisk, Fault> {
    let Ok(sectors) = u32::try_from(sectors_for_len(image.len())) else {
        return Err(Fault::Input);
    };
    let mut disk = MemoryDisk::new(alloc, sectors)?;
    write_bytes(&mut disk, 0, image)?;
    disk.sync()?;
    let Ok(need) = checked_need(FORMAT, &Limits::small()) else {
        return Err(Fault::Unready);
    };
    disk.grow(need)?;
    if version == 2 {
        return Ok(disk);
    }
    let (outcome, disk) = upgrade(alloc, 2, disk);
    outcome?;
    Ok(disk)
}

/// Upgrades the device of a disk, which comes back, to this version, under small limits.
fn upgrade<D: SectorDisk>(alloc: Global, version: u32, disk: D) -> (Result<(), Fault>, D) {
    let upgraded = if version == 2 {
        Store::upgrade(alloc, disk, &Limits::small())
    } else {
        Store::upgrade_large(alloc, disk, &Limits::small_of_three())
    };
    match upgraded {
        Ok(disk) => (Ok(()), disk),
        Err(unupgraded) => (Err(Fault::from(unupgraded.error)), unupgraded.disk),
    }
}

/// Upgrades a device, unless it is of this version already, and runs a script on it. Whether it was of this version.
fn go_on<D: SectorDisk>(alloc: Global, version: u32, disk: D, script: &[u8]) -> (bool, Ran<D>) {
    let (outcome, disk) = upgrade(alloc, version, disk);
    match outcome {
        Ok(()) => (false, run(alloc, disk, script)),
        Err(Fault::Version(found)) if found == version => (true, run(alloc, disk, script)),
        Err(fault) => {
            let output = Vec::new(alloc);
            let outcome = Err(fault);
            (
                false,
                Ran {
                    output,
                    outcome,
                    disk,
                },
            )
        }
    }
}

impl Old<'_> {
    /// The device on a disk that is stopped after so many calls.
    fn fuse(&self, calls: u64, keep: u64) -> Result<FuseDisk, Fault> {
        let disk = old_disk(self.alloc, self.version, self.image)?;
        Ok(FuseDisk::new(disk, calls, keep))
    }

    /// Goes on with a device until it is stopped. How many sectors are not synced then, and whether what a crash leaves
    /// is of the new version; None if it is not stopped.
    fn stop(&self, fuse: FuseDisk) -> Result<Option<(u32, bool)>, Fault> {
        let (_, ran) = go_on(self.alloc, self.version, fuse, &[]);
        let unsynced = ran.disk.unsynced();
        let is_new = self.is_new(ran.disk.crash())?;
        match ran.outcome {
            Ok(()) if is_new => Ok(None),
            Err(Fault::Device) => Ok(Some((unsynced, is_new))),
            _ => Err(Fault::Unopened),
        }
    }

    /// Whether a device that is left is of the new version. It answers as it has to, once it is upgraded.
    fn is_new(&self, disk: MemoryDisk) -> Result<bool, Fault> {
        let (is_new, ran) = go_on(self.alloc, self.version, disk, self.probe);
        ran.outcome?;
        if ran.output.as_slice() == self.wanted {
            Ok(is_new)
        } else {
            Err(Fault::Unopened)
        }
    }
}

impl Upgrades<'_> {
    fn new(old: Old<'_>, every: u64) -> Upgrades<'_>
        requires { 0 < every }
    {
        Upgrades {
            old,
            every,
            olds: 0,
            news: 0,
            again: 0,
        }
    }

    /// Counts a device that is left.
    fn count(&mut self, is_new: bool) {
        if is_new {
            self.news = self.news.saturating_add(1);
        } else {
            self.olds = self.olds.saturating_add(1);
        }
    }
}

impl Stops for Upgrades<'_> {
    fn stop(&mut self, calls: u64, keep: u64) -> Result<Option<u32>, Fault> {
        let old = self.old;
        let Ok(stop) = old.stop(old.fuse(calls, keep)?) else {
            let words =
                "an upgrade and the opening after it, stopped after # calls, choice #: what is left is not opened, \
                or answers otherwise";
            return Err(Fault::case(words, &[calls, keep]));
        };
        let Some((unsynced, is_new)) = stop else {
            return Ok(None);
        };
        self.count(is_new);
        if self.olds.saturating_add(self.news) % self.every == 0 {
            let stop = (calls, keep);
            self.again = self
                .again
                .saturating_add(stop_each(&mut Again { old, stop })?);
        }
        Ok(Some(unsynced))
    }
}

impl Stops for Again<'_> {
    fn stop(&mut self, more: u64, other: u64) -> Result<Option<u32>, Fault> {
        let Again { old, stop } = *self;
        let (_, left) = go_on(old.alloc, old.version, old.fuse(stop.0, stop.1)?, &[]);
        match old.stop(FuseDisk::new(left.disk.crash(), more, other)) {
            Ok(stop) => Ok(stop.map(|(unsynced, _)| unsynced)),
            Err(_) => {
                let words =
                    "an upgrade stopped after # calls, choice #, and what comes after it until call #, choice #: \
                    not opened, or it answers otherwise";
                Err(Fault::case(words, &[stop.0, stop.1, more, other]))
            }
        }
    }
}

impl Fails for Upgrades<'_> {
    fn fail(&mut self, at: u64, done: bool) -> Result<bool, Fault> {
        let Old {
            alloc,
            version,
            image,
            ..
        } = self.old;
        let disk = OnceDisk::new(old_disk(alloc, version, image)?, at, done);
        let (_, ran) = go_on(alloc, version, disk, &[]);
        let has_failed = ran.disk.has_failed();
        match (
            ran.outcome,
            has_failed,
            self.old.is_new(ran.disk.into_disk()),
        ) {
            (Ok(()), false, Ok(true)) => Ok(false),
            (Err(Fault::Device), true, Ok(is_new)) => {
                self.count(is_new);
                Ok(true)
            }
            _ => {
                let words =
                    "call # of an upgrade and the opening after it fails, and is done: # (1 if it is). It is not \
                    told, or what is left answers otherwise";
                Err(Fault::case(words, &[at, u64::from(done)]))
            }
        }
    }
}
