//! A script on a disk of which one call fails: its clients are told, nothing that was answered is lost, and what is
//! left opens. A write that fails may be done all the same.

use crate::fault::Fault;
use crate::halted::halt_hubs;
use crate::last_words::last_words_of;
use crate::runs::{found_on, run};
use crate::stages::{Trial, trial_of};
use crate::stops::{Fails, fail_each};
use crate::told::Told;
use ipc_disk::OnceDisk;
use ipc_limits::Limits;
use std::alloc::Global;

/// Runs of a script, its last words, and how many of them left the line done that failed.
#[derive(Clone, Copy)]
struct Runs<'a> {
    trial: &'a Trial<'a>,
    words: &'a [String],
    ahead: u64,
}

/// Openings of a new device.
#[derive(Clone, Copy)]
struct FirstOpenings<'a> {
    trial: &'a Trial<'a>,
}

/// Openings of what so many lines leave.
#[derive(Clone, Copy)]
struct Openings<'a> {
    trial: &'a Trial<'a>,
    lines: usize,
}

/// Lets each call of the script of a text fail, each of the openings after each N-th line, and each of hubs.
pub(crate) fn faulted(
    alloc: Global,
    limits: Limits,
    text: &[u8],
    every: usize,
) -> Result<Told, Fault> {
    let trial = &trial_of(alloc, limits, text)?;
    let words = &last_words_of(alloc, trial.script)?;
    let opening = fail_each(&mut FirstOpenings { trial }, 0, false)?;
    let [feeds, ticks, hangups, releases, saves] = halt_hubs(trial, opening)?;
    let mut runs = Runs {
        trial,
        words,
        ahead: 0,
    };
    let (mut faults, mut openings): (u64, u64) = (0, 0);
    for done in [false, true] {
        faults = faults.saturating_add(fail_each(&mut runs, opening, done)?);
        for lines in (0..trial.stages.len()).step_by(every.max(1)) {
            let more = fail_each(&mut Openings { trial, lines }, 0, done)?;
            openings = openings.saturating_add(more);
        }
    }
    Ok(Told::new(
        "# faults were told, # left the line done that failed\n\
        # faults of openings left the same\n\
        hubs stopped in # feeds, # ticks, # hangups, # releases, # saves",
        &[
            faults, runs.ahead, openings, feeds, ticks, hangups, releases, saves,
        ],
    ))
}

impl Fails for Runs<'_> {
    fn fail(&mut self, at: u64, done: bool) -> Result<bool, Fault> {
        let Runs { trial, words, .. } = *self;
        let disk = OnceDisk::new(trial.device()?, at, done);
        let ran = run(trial.alloc, disk, trial.script);
        match (ran.outcome, ran.disk.has_failed()) {
            (Ok(()), false) => return Ok(false),
            (Err(Fault::Device), true) => {}
            _ => return Err(untold(at, done)),
        }
        let Ok(found) = found_on(trial.alloc, ran.disk.into_disk(), trial.probe) else {
            return Err(untold(at, done));
        };
        let Some(is_ahead) = line_of(trial, words, &ran.output, &found) else {
            return Err(untold(at, done));
        };
        self.ahead = self.ahead.saturating_add(u64::from(is_ahead));
        Ok(true)
    }
}

/// The run ends as if nothing had failed, or fails without it, or its disk is none that it may be.
fn untold(at: u64, done: bool) -> Fault {
    Fault::case(
        "call # fails, and is done: # (1 if it is). No fault is told, or the last words or the state are of no line",
        &[at, u64::from(done)],
    )
}

/// Whether a line is done in which the disk has failed, if there is such a line: the output is that of the lines before
/// it and then the last words, and the state is that of before it, or of after it.
fn line_of(trial: &Trial<'_>, words: &[String], output: &[u8], found: &[u8]) -> Option<bool> {
    let before = trial.stages.iter();
    let after = trial.stages.iter().skip(1);
    let mut place = None;
    for ((before, after), words) in before.zip(after).zip(words) {
        if output.strip_prefix(before.output.as_slice()) != Some(words.as_bytes()) {
            continue;
        }
        if before.found.as_slice() == found {
            return Some(false);
        }
        if after.found.as_slice() == found {
            place = Some(true);
        }
    }
    place
}

impl Fails for FirstOpenings<'_> {
    fn fail(&mut self, at: u64, done: bool) -> Result<bool, Fault> {
        let Some(first) = self.trial.stages.first() else {
            return Ok(false);
        };
        let disk = OnceDisk::new(self.trial.device()?, at, done);
        match open_to(self.trial, disk, &first.found) {
            Some(is_failed) => Ok(is_failed),
            None => Err(untold_of_opening(0, at, done)),
        }
    }
}

impl Fails for Openings<'_> {
    fn fail(&mut self, at: u64, done: bool) -> Result<bool, Fault> {
        let Openings { trial, lines } = *self;
        let Some(stage) = trial.stages.get(lines) else {
            return Ok(false);
        };
        let script = trial.script.get(..stage.end).unwrap_or(trial.script);
        let used = run(trial.alloc, trial.device()?, script).disk;
        match open_to(trial, OnceDisk::new(used, at, done), &stage.found) {
            Some(is_failed) => Ok(is_failed),
            None => Err(untold_of_opening(lines, at, done)),
        }
    }
}

/// Whether a call fails as a disk is opened, if it is told then, and the next opening finds this.
fn open_to(trial: &Trial<'_>, disk: OnceDisk, wanted: &[u8]) -> Option<bool> {
    let ran = run(trial.alloc, disk, &[]);
    match (ran.outcome, ran.disk.has_failed()) {
        (Ok(()), false) => return Some(false),
        (Err(Fault::Device), true) => {}
        _ => return None,
    }
    match found_on(trial.alloc, ran.disk.into_disk(), trial.probe) {
        Ok(found) if found.as_slice() == wanted => Some(true),
        _ => None,
    }
}

/// It is not told, or the disk opens to another state.
fn untold_of_opening(lines: usize, at: u64, done: bool) -> Fault {
    Fault::case(
        "after # lines call # of an opening fails, and is done: # (1 if it is). It is not told, or another state",
        &[lines as u64, at, u64::from(done)],
    )
}
