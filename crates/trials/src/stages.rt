//! What a script comes to after each of its lines, found by runs that nothing stops.

use crate::fault::Fault;
use crate::runs::{found_on, new_device, run};
use ipc_disk::MemoryDisk;
use ipc_limits::Limits;
use std::alloc::Global;

/// A run of the first lines of a script: where these end, what it writes, and what is found on its device then.
#[derive(Drop)]
pub(crate) struct Stage {
    pub(crate) end: usize,
    pub(crate) output: Vec<u8>,
    pub(crate) found: Vec<u8>,
}

/// A script, its probe, and its stages, from that of no line on.
#[derive(Drop)]
pub(crate) struct Trial<'a> {
    pub(crate) alloc: Global,
    pub(crate) limits: Limits,
    pub(crate) script: &'a [u8],
    pub(crate) probe: &'a [u8],
    pub(crate) stages: Vec<Stage>,
}

/// The trial of a text: a script, a line `-`, and a probe.
pub(crate) fn trial_of(alloc: Global, limits: Limits, text: &[u8]) -> Result<Trial<'_>, Fault> {
    let (script, probe) = parts_of(alloc, text)?;
    let stages = stages_of(alloc, &limits, script, probe)?;
    saves_keep_all(script, &stages)?;
    Ok(Trial {
        alloc,
        limits,
        script,
        probe,
        stages,
    })
}

/// What stands before the first line `-` of a text, and after it.
pub(crate) fn parts_of(alloc: Global, text: &[u8]) -> Result<(&[u8], &[u8]), Fault> {
    for end in &ends_of(alloc, text)? {
        let (first, rest) = text.split_at((*end).min(text.len()));
        if let Some(second) = rest.strip_prefix(b"-\n") {
            return Ok((first, second));
        }
    }
    Err(Fault::Input)
}

/// Where lines end, and where the first begins.
fn ends_of(alloc: Global, text: &[u8]) -> Result<Vec<usize>, Fault> {
    let mut ends = Vec::new(alloc);
    ends.push(0)?;
    for (place, byte) in (1..).zip(text) {
        if *byte == b'\n' {
            ends.push(place)?;
        }
    }
    Ok(ends)
}

/// The stage before the first line of a script, and after each.
fn stages_of(
    alloc: Global,
    limits: &Limits,
    script: &[u8],
    probe: &[u8],
) -> Result<Vec<Stage>, Fault> {
    let mut stages = Vec::new(alloc);
    for end in &ends_of(alloc, script)? {
        let lines = script.get(..*end).unwrap_or(script);
        let ran = run(alloc, new_device(alloc, limits)?, lines);
        ran.outcome?;
        stages.push(Stage {
            end: *end,
            output: ran.output,
            found: found_on(alloc, ran.disk, probe)?,
        })?;
    }
    Ok(stages)
}

/// After a line `save` all is found as it was before it.
fn saves_keep_all(script: &[u8], stages: &[Stage]) -> Result<(), Fault> {
    let after = stages.iter().skip(1);
    for (place, (before, after)) in stages.iter().zip(after).enumerate() {
        let line = script.get(before.end..after.end).unwrap_or(&[]);
        if line == b"save\n".as_slice() && before.found.as_slice() != after.found.as_slice() {
            let words = "a save after # lines: then another state is found";
            return Err(Fault::case(words, &[place as u64]));
        }
    }
    Ok(())
}

/// Where what was found stands beside what was answered.
#[derive(Clone, Copy, PartialEq, Eq)]
pub(crate) enum Place {
    /// As after the lines that were answered.
    Answered,
    /// As after one line more, which was stopped.
    Ahead,
}

impl Trial<'_> {
    /// A new device, of the version that is tried.
    pub(crate) fn device(&self) -> Result<MemoryDisk, Fault> {
        new_device(self.alloc, &self.limits)
    }

    /// Where the state that is found stands, if it is one that a stop may leave: the output of the run that was stopped
    /// begins with that of some first lines; all that were answered are done, and at most one more.
    pub(crate) fn place(&self, output: &[u8], found: &[u8]) -> Option<Place> {
        let mut answered = 0;
        for stage in &self.stages {
            if output.starts_with(&stage.output) {
                answered = answered.max(stage.output.len());
            }
        }
        let mut place = None;
        let mut last = false;
        for stage in &self.stages {
            let is_answered = stage.output.len() == answered;
            if is_answered && stage.found.as_slice() == found {
                return Some(Place::Answered);
            }
            if last && !is_answered && stage.found.as_slice() == found {
                place = Some(Place::Ahead);
            }
            last = is_answered;
        }
        place
    }

    /// What is found on a new device, and after the whole script.
    pub(crate) fn ends(&self) -> (&[u8], &[u8]) {
        let first = self.stages.first().map_or(&[][..], |stage| &stage.found);
        let last = self.stages.last().map_or(&[][..], |stage| &stage.found);
        (first, last)
    }
}
