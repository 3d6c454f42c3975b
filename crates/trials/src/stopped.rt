//! A script that is stopped at each call on its disk, with each choice of the unsynced sectors that a crash keeps.

ghost use Rattle.std.specs.Prelude.{◌<◌};

use crate::fault::Fault;
use crate::formats::stop_formats;
use crate::openings::stop_openings;
use crate::runs::{found_on, run};
use crate::stages::{Place, Trial, trial_of};
use crate::stops::{Stops, stop_each};
use crate::told::Told;
use ipc_disk::{FuseDisk, MemoryDisk};
use ipc_limits::Limits;
use std::alloc::Global;

/// Stops of a script: of which of them the openings are stopped too, each N-th; how many devices they left, those that
/// were ahead of what was answered, and the stops of openings.
#[derive(Clone, Copy)]
struct Runs<'a> {
    trial: &'a Trial<'a>,
    every: u64,
    devices: u64,
    ahead: u64,
    openings: u64,
    ghost some: { 0 < every },
}

/// Stops the script of a text, its formats, and the opening of each device that the N-th stops left.
pub(crate) fn stopped(alloc: Global, limits: Limits, text: &[u8], every: u64) -> Result<Told, Fault>
    requires { 0 < every }
{
    let trial = trial_of(alloc, limits, text)?;
    let [formats, old, none, new] = stop_formats(&trial)?;
    let mut runs = Runs {
        trial: &trial,
        every,
        devices: 0,
        ahead: 0,
        openings: 0,
    };
    let calls = stop_each(&mut runs)?;
    let words = "# stops left # devices, # of them ahead of what was answered\n\
        # stops of openings left the same\n\
        # stops of a format: # left the old device, # none, and # the new one";
    let Runs {
        devices,
        ahead,
        openings,
        ..
    } = runs;
    let numbers = [calls, devices, ahead, openings, formats, old, none, new];
    Ok(Told::new(words, &numbers))
}

impl Stops for Runs<'_> {
    fn stop(&mut self, calls: u64, keep: u64) -> Result<Option<u32>, Fault> {
        let Some((unsynced, is_ahead)) = stop(self.trial, calls, keep)? else {
            return Ok(None);
        };
        self.devices = self.devices.saturating_add(1);
        self.ahead = self.ahead.saturating_add(u64::from(is_ahead));
        if calls % self.every == 0 {
            let more = stop_openings(self.trial, (calls, keep))?;
            self.openings = self.openings.saturating_add(more);
        }
        Ok(Some(unsynced))
    }
}

/// How many sectors are not synced at such a stop, and whether what is found after the crash is ahead of what was
/// answered. None if the script is not stopped.
fn stop(trial: &Trial<'_>, calls: u64, keep: u64) -> Result<Option<(u32, bool)>, Fault> {
    let fuse = FuseDisk::new(trial.device()?, calls, keep);
    let ran = run(trial.alloc, fuse, trial.script);
    match ran.outcome {
        Ok(()) => return Ok(None),
        Err(Fault::Device) => {}
        Err(fault) => return Err(fault),
    }
    let unsynced = ran.disk.unsynced();
    let Ok(found) = found_on(trial.alloc, ran.disk.crash(), trial.probe) else {
        return Err(lost(calls, keep));
    };
    match trial.place(&ran.output, &found) {
        Some(place) => Ok(Some((unsynced, place == Place::Ahead))),
        None => Err(lost(calls, keep)),
    }
}

/// What is found is no state that a stop may leave.
fn lost(calls: u64, keep: u64) -> Fault {
    Fault::case(
        "stopped after # calls, choice #: not opened, an answer lost, or what was not asked is there",
        &[calls, keep],
    )
}

/// The disk that a crash leaves of a run which was stopped after so many calls.
pub(crate) fn left(trial: &Trial<'_>, (calls, keep): (u64, u64)) -> Result<MemoryDisk, Fault> {
    let fuse = FuseDisk::new(trial.device()?, calls, keep);
    Ok(run(trial.alloc, fuse, trial.script).disk.crash())
}
