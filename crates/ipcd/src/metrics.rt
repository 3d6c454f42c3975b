//! A file of figures, for a collector that reads text files in the format of Prometheus.

use crate::figures::{Figures, write_figures};
use crate::timed::Timed;
use ipc_base::Moment;
use ipc_disk::SectorDisk;
use ipc_hub::Hub;
use ipc_server::{Observer, now};
use std::alloc::{AllocError, Global};
use std::fs::{File, OpenOptions, Permissions, rename};
use std::io;
use std::io::{BufWriter, Write};
use std::os::unix::fs::{OpenOptionsExt, PermissionsExt};
use std::rt::Files;
use std::time::Clock;

/// The file is written anew once in so many milliseconds at most.
const PERIOD: u64 = 1_000;

/// A file that can always be opened, and is nothing.
const NOTHING: &str = "/dev/null";

/// Everyone may read the file: the collector is another user.
const MODE: u32 = 0o644;

/// Writes the figures of a server into a file as it serves. A file that cannot be written changes nothing else: that
/// is counted, and tried again.
#[derive(Drop)]
pub struct Metrics<'a, R> {
    rt: &'a R,
    path: &'a str,
    // The figures are written here, and then this file gets the name of the other. So a reader finds all of them.
    beside: String,
    began: Moment,
    turns: u64,
    failures: u64,
    // When they were written last, on a clock that is never stepped.
    written: Option<u64>,
    // They may have changed since.
    stale: bool,
    // A file that is open only so that a descriptor is left for the figures when clients have taken all others.
    spare: Option<File>,
}

impl<'a, R: AllocGlobal + Clock + Files<File = File>> Metrics<'a, R> {
    /// Nothing is written yet.
    pub fn new(rt: &'a R, path: &'a str) -> Result<Self, AllocError> {
        Ok(Metrics {
            rt,
            path,
            beside: format!(in rt.alloc(); "{path}.new")?,
            began: now(rt),
            turns: 0,
            failures: 0,
            written: None,
            stale: true,
            spare: File::open(rt, NOTHING).ok(),
        })
    }

    // For how many milliseconds they are not to be written.
    fn pause(&self) -> u64 {
        match self.written {
            None => 0,
            Some(written) => PERIOD.saturating_sub(running(self.rt).saturating_sub(written)),
        }
    }
}

impl<R: AllocGlobal + Clock + Files<File = File>> Metrics<'_, R> {
    // Writes them, if they have changed and were not written a moment ago.
    fn refresh<D: SectorDisk + Timed>(&mut self, hub: &Hub<D>) {
        if !self.stale || self.pause() > 0 {
            return;
        }
        self.written = Some(running(self.rt));
        self.spare = None;
        match self.write(hub) {
            Ok(()) => self.stale = false,
            Err(_) => self.failures = self.failures.saturating_add(1),
        }
        self.spare = File::open(self.rt, NOTHING).ok();
    }

    // Writes them beside the file, and puts them in its place.
    fn write<D: SectorDisk + Timed>(&self, hub: &Hub<D>) -> io::Result<()> {
        let file = OpenOptions::new()
            .write(true)
            .create(true)
            .truncate(true)
            .mode(MODE)
            .open(self.rt, self.beside.as_str())?;
        // A umask may have taken bits of it.
        file.set_permissions(Permissions::from_mode(MODE))?;
        let mut writer = BufWriter::new(self.rt.alloc(), file)?;
        let figures = Figures {
            began: self.began,
            turns: self.turns,
            failures: self.failures,
            syncs: hub.store().disk().sync_times(),
        };
        write_figures(self.rt.alloc(), &mut writer, hub, &figures)?;
        writer.flush()?;
        rename(self.rt, self.beside.as_str(), self.path)
    }
}

impl<D: SectorDisk + Timed, R: AllocGlobal + Clock + Files<File = File>> Observer<D>
    for Metrics<'_, R> {
    fn turned(&mut self, hub: &Hub<D>, turn: u64) {
        self.turns = turn;
        self.stale = true;
        self.refresh(hub);
    }

    fn patience(&self) -> u64 {
        if self.stale { self.pause() } else { u64::MAX }
    }

    fn waited(&mut self, hub: &Hub<D>) {
        self.refresh(hub);
    }
}

// The milliseconds that a clock which is never stepped has run, or 0 where it cannot be read.
fn running(clock: &impl Clock) -> u64 {
    match clock.monotonic() {
        Ok(time) => u64::try_from(time.as_millis()).unwrap_or(0),
        Err(_) => 0,
    }
}
