//! The server on a socket, over the device in a file.

ghost use Rattle.std.specs.Prelude.{◌≡◌, [], IfOk};
ghost use Rattle.ipcd.specs.Clock.{ahead_by};

use crate::checking::are_small;
use crate::device::open_store;
use crate::ending::Fault;
use crate::metrics::Metrics;
use crate::timed::{Timed, TimedRuns};
use ipc_base::Moment;
use ipc_disk::{FileDisk, FileRuns, JoinedDisk, SectorDisk};
use ipc_hub::Hub;
use ipc_limits::Limits;
use ipc_script::ScriptFault;
use ipc_server::{Observer, ServeFault, Server, Unobserved, now};
use ipc_store::Store;
use mio::net::UnixListener;
use std::alloc::{AllocError, Global};
use std::fs::File;
use std::net::Net;
use std::rt::Files;
use std::time::Clock;

/// How many turns a server makes if none are given.
const MOST_TURNS: u32 = u32::MAX;

/// How far the clock of a device may be ahead of the system's before that is said, in milliseconds.
const MOST_AHEAD: u64 = 1_000;

/// Opens the device in a file, then binds the socket, says so, and serves for so many turns, or on
/// demand if none are given. On `errors` it says if the device's clock is ahead of the system's. If a
/// file for figures is named, they are written there.
pub fn serve<R: Print + AllocGlobal + Files<File = File> + Net + Clock>(
    rt: &R,
    errors: &impl Eprint,
    device: &str,
    socket: &str,
    turns: Option<u32>,
    metrics: Option<&str>,
) -> Result<(), Fault> {
    let disk = timed(rt, FileDisk::open(rt, device)?)?;
    let sectors = disk.sectors();
    let store = open_store(rt.alloc(), disk)?;
    say_ahead(errors, store.engine().state().clock(), now(rt));
    serve_store(rt, store, device, sectors, socket, turns, metrics)
}

// The disk in a file, whose syncs are timed.
fn timed<R: AllocGlobal + Clock>(
    rt: &R,
    disk: FileDisk,
) -> Result<JoinedDisk<TimedRuns<'_, R, FileRuns>>, Fault> {
    match JoinedDisk::new(rt.alloc(), TimedRuns::new(disk.into_disk(), rt)) {
        Ok(disk) => Ok(disk),
        Err(AllocError) => Err(Fault::Run(ScriptFault::NoMemory)),
    }
}

// Says so if the clock of a device is ahead of the system's. It never falls: until the system's has
// come up to it, no time passes on the device.
fn say_ahead(errors: &impl Eprint, device: Moment, system: Moment) {
    if let Some(ahead) = ahead_by(device, system) {
        // It is served also if standard error is closed.
        let _said = eprintln!(errors;
            "ipcd: the device's clock is {ahead} ms ahead of the system's"
        );
    }
}

// By how many milliseconds the clock of a device is ahead of the system's, if that is to be said.
fn ahead_by(device: Moment, system: Moment) -> Option<u64>
    ensures { result ≡ ahead_by device.0 system.0 }
{
    let ahead = device.0.saturating_sub(system.0);
    if ahead > MOST_AHEAD {
        Some(ahead)
    } else {
        None
    }
}

// Serves the store of a device of so many sectors. It is over any disk, so that its proof does not
// meet the parts of one in a file.
fn serve_store<D: SectorDisk + Timed + Drop>(
    rt: &(impl Print + AllocGlobal + Files<File = File> + Net + Clock),
    store: Store<D>,
    device: &str,
    sectors: u32,
    socket: &str,
    turns: Option<u32>,
    metrics: Option<&str>,
) -> Result<(), Fault> {
    let limits = store.engine().limits();
    let (version, name) = (limits.version, limits_name(limits));
    let server = start(rt, store, socket)?;
    say_serving(rt, device, sectors, socket, version, name)?;
    let Some(path) = metrics else {
        return serve_turns(rt, server, turns, &mut Unobserved);
    };
    match Metrics::new(rt, path) {
        Ok(mut metrics) => serve_turns(rt, server, turns, &mut metrics),
        Err(AllocError) => Err(Fault::Run(ScriptFault::NoMemory)),
    }
}

// A server of a store, on a socket that is bound now.
fn start<D: SectorDisk + Drop>(
    rt: &(impl AllocGlobal + Files<File = File> + Net + Clock),
    store: Store<D>,
    socket: &str,
) -> Result<Server<D>, Fault> {
    let listener = bind(rt, socket)?;
    server_of(rt, store, listener)
}

// A server of a store, on a socket. Its clock is the system's from the start: the first turn may be a minute away.
fn server_of<D: SectorDisk + Drop>(
    rt: &(impl AllocGlobal + Net + Clock),
    store: Store<D>,
    listener: UnixListener,
) -> Result<Server<D>, Fault> {
    let hub = hub_at(rt.alloc(), store, now(rt))?;
    match Server::new(rt, hub, listener) {
        Ok(server) => Ok(server),
        Err(unserved) => Err(Fault::from(unserved.error)),
    }
}

// A hub of a store without connections, whose clock is at least this moment. That lasts with the first turn.
fn hub_at<D: SectorDisk + Drop>(
    alloc: Global,
    store: Store<D>,
    moment: Moment,
) -> Result<Hub<D>, Fault>
    ensures { IfOk result (λ hub. hub.hub.connections ≡ []) }
{
    let mut hub = Hub::new(alloc, store);
    match hub.tick(moment) {
        Ok(()) => Ok(hub),
        Err(error) => Err(Fault::from(ServeFault::from(error))),
    }
}

// Serves for so many turns, or on demand if none are given.
fn serve_turns<D: SectorDisk + Drop, O: Observer<D>>(
    clock: &impl Clock,
    server: Server<D>,
    turns: Option<u32>,
    observer: &mut O,
) -> Result<(), Fault> {
    let mut server = server;
    match turns {
        Some(turns) => server.serve(clock, turns, observer)?,
        None => server.serve_on_demand(clock, MOST_TURNS, observer)?,
    }
    Ok(())
}

// Says what is served. It names the version of a device from version 3 on: before there was no other.
fn say_serving(
    rt: &impl Print,
    device: &str,
    sectors: u32,
    socket: &str,
    version: u32,
    limits: &str,
) -> Result<(), Fault> {
    let said = if version < 3 {
        println!(rt; "serving {device}, {sectors} sectors, on {socket}, {limits} limits")
    } else {
        println!(rt;
            "serving {device}, {sectors} sectors, on {socket}, version {version}, {limits} limits"
        )
    };
    if said.is_err() {
        return Err(Fault::Run(ScriptFault::Output));
    }
    Ok(())
}

// Binds a socket at a path. The system would take no path as leave to choose a name itself.
fn bind(rt: &(impl Files<File = File> + Net), socket: &str) -> Result<UnixListener, Fault> {
    if socket.is_empty() {
        return Err(Fault::Socket);
    }
    match UnixListener::bind(rt, socket) {
        Ok(listener) => Ok(listener),
        Err(_) => Err(Fault::Socket),
    }
}

// What the limits of a device are called.
fn limits_name(limits: &Limits) -> &'static str {
    if are_small(limits) {
        "small"
    } else {
        "standard"
    }
}
