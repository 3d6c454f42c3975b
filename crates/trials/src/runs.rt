//! Runs of a script on a disk, which each give the disk back.

use crate::fault::Fault;
use ipc_disk::{MemoryDisk, SectorDisk};
use ipc_image::{Format, checked_need};
use ipc_limits::Limits;
use ipc_script::run_script;
use ipc_store::Store;
use std::alloc::Global;

/// A run of a script: what it wrote, whether it came to its end, and the disk.
#[derive(Drop)]
pub(crate) struct Ran<D> {
    pub(crate) output: Vec<u8>,
    pub(crate) outcome: Result<(), Fault>,
    pub(crate) disk: D,
}

/// Runs a script on the device of a disk.
pub(crate) fn run<D: SectorDisk>(alloc: Global, disk: D, script: &[u8]) -> Ran<D> {
    let mut output = Vec::new(alloc);
    match Store::open(alloc, disk) {
        Ok(store) => {
            let mut reader = script;
            let (outcome, disk) = run_script(alloc, store, &mut reader, &mut output);
            Ran {
                output,
                outcome: outcome.map_err(Fault::from),
                disk,
            }
        }
        Err(unopened) => Ran {
            output,
            outcome: Err(Fault::from(unopened.error)),
            disk: unopened.disk,
        },
    }
}

/// A new device on a disk of just as many sectors as it needs.
pub(crate) fn new_device(alloc: Global, limits: &Limits) -> Result<MemoryDisk, Fault> {
    let Ok(need) = checked_need(Format::of(limits), limits) else {
        return Err(Fault::Unready);
    };
    let mut disk = MemoryDisk::new(alloc, need)?;
    Store::format(&mut disk, limits)?;
    Ok(disk)
}

/// What a sector of a disk holds.
pub(crate) fn sector(disk: &mut MemoryDisk, at: u32) -> Result<[u8; 512], Fault> {
    let mut bytes = [0; 512];
    if at >= disk.sectors() {
        return Err(Fault::Unopened);
    }
    disk.read(at, &mut bytes)?;
    Ok(bytes)
}

/// What the answers to a probe tell of a device.
pub(crate) fn found_on(alloc: Global, disk: MemoryDisk, probe: &[u8]) -> Result<Vec<u8>, Fault> {
    let ran = run(alloc, disk, probe);
    ran.outcome?;
    Ok(ran.output)
}

/// More calls than a run makes.
pub(crate) const MOST_CALLS: u64 = 10000;
