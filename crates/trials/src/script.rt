//! A run of a script in memory, as `ipcd replay` runs one, under limits of its own.

use crate::fault::Fault;
use crate::runs::new_device;
use ipc_disk::MemoryDisk;
use ipc_limits::Limits;
use ipc_script::run_script;
use ipc_store::Store;
use std::alloc::Global;
use std::io;

/// How many processes there may be. The other limits are small.
const PROCESSES: u32 = 16;

/// Runs the script that the input gives on a new device in memory, and prints what comes of it.
pub(crate) fn script(rt: &(impl Input + Print + AllocGlobal)) -> Result<(), Fault> {
    let alloc = rt.alloc();
    let store = new_store(alloc)?;
    let (outcome, _disk) = run_script(alloc, store, &mut rt.reader(), &mut io::writer(rt));
    outcome.map_err(Fault::from)
}

/// A store on a new device of as many sectors as it needs.
fn new_store(alloc: Global) -> Result<Store<MemoryDisk>, Fault> {
    let limits = Limits {
        processes: PROCESSES,
        ..Limits::small()
    };
    match Store::open(alloc, new_device(alloc, &limits)?) {
        Ok(store) => Ok(store),
        Err(unopened) => Err(Fault::from(unopened.error)),
    }
}
