//! The opening of a device that a stop left, stopped at each of its calls.

use crate::fault::Fault;
use crate::runs::{found_on, run};
use crate::stages::Trial;
use crate::stopped::left;
use crate::stops::{Stops, stop_each};
use ipc_disk::FuseDisk;

/// Openings of what a stop left, and what is found on it.
#[derive(Drop)]
struct Openings<'a> {
    trial: &'a Trial<'a>,
    stop: (u64, u64),
    found: Vec<u8>,
}

/// Stops the opening of what a stop left at each of its calls, with each choice of a crash: what opens then is the
/// same. How many calls it makes.
pub(crate) fn stop_openings(trial: &Trial<'_>, stop: (u64, u64)) -> Result<u64, Fault> {
    let found = found_on(trial.alloc, left(trial, stop)?, trial.probe)?;
    stop_each(&mut Openings { trial, stop, found })
}

impl Stops for Openings<'_> {
    fn stop(&mut self, more: u64, other: u64) -> Result<Option<u32>, Fault> {
        let trial = self.trial;
        let fuse = FuseDisk::new(left(trial, self.stop)?, more, other);
        let ran = run(trial.alloc, fuse, &[]);
        match ran.outcome {
            Ok(()) => return Ok(None),
            Err(Fault::Device) => {}
            Err(fault) => return Err(fault),
        }
        let unsynced = ran.disk.unsynced();
        let again = found_on(trial.alloc, ran.disk.crash(), trial.probe)?;
        if again.as_slice() != self.found.as_slice() {
            let (calls, keep) = self.stop;
            let words =
                "stopped after # calls, choice #, and opened until call #, choice #: another state";
            return Err(Fault::case(words, &[calls, keep, more, other]));
        }
        Ok(Some(unsynced))
    }
}
