//! A format of a device that is used, stopped at each of its calls: it leaves the old device, or none, or the new one.

use crate::fault::Fault;
use crate::runs::{found_on, run};
use crate::stages::Trial;
use crate::stops::{Stops, stop_each};
use ipc_disk::{FuseDisk, MemoryDisk};
use ipc_store::Store;

/// Formats of what a script leaves, and how many stops left the old device, none, and the new one.
#[derive(Clone, Copy)]
struct Formats<'a> {
    trial: &'a Trial<'a>,
    old: u64,
    none: u64,
    new: u64,
}

/// Stops a format at each of its calls: how many there are, and how many left the old device, none, and the new one.
pub(crate) fn stop_formats(trial: &Trial<'_>) -> Result<[u64; 4], Fault> {
    let mut formats = Formats {
        trial,
        old: 0,
        none: 0,
        new: 0,
    };
    let calls = stop_each(&mut formats)?;
    Ok([calls, formats.old, formats.none, formats.new])
}

impl Stops for Formats<'_> {
    fn stop(&mut self, calls: u64, keep: u64) -> Result<Option<u32>, Fault> {
        let mut fuse = FuseDisk::new(used(self.trial)?, calls, keep);
        if Store::format(&mut fuse, &self.trial.limits).is_ok() {
            return Ok(None);
        }
        let unsynced = fuse.unsynced();
        let (new, old) = self.trial.ends();
        match found_on(self.trial.alloc, fuse.crash(), self.trial.probe) {
            Err(Fault::NotFormatted) => self.none = self.none.saturating_add(1),
            Ok(found) if found.as_slice() == old => self.old = self.old.saturating_add(1),
            Ok(found) if found.as_slice() == new => self.new = self.new.saturating_add(1),
            _ => {
                let words =
                    "a format stopped after # calls, choice #: neither the old device, nor none, nor the new one";
                return Err(Fault::case(words, &[calls, keep]));
            }
        }
        Ok(Some(unsynced))
    }
}

/// The disk after the whole script.
fn used(trial: &Trial<'_>) -> Result<MemoryDisk, Fault> {
    Ok(run(trial.alloc, trial.device()?, trial.script).disk)
}
