//! `ipcd`, the program: it runs scripts of connections on a server whose device is in memory or in a
//! file, it makes, upgrades, lists, copies and checks such files, and it serves them to the clients of a socket.
//!
//! Where a rule stands (definition, code, proof):
//!
//! - What a command does: `src/main.rt`, `src/device.rt`, `src/serve.rt`
//! - What `check` says: `specs/Check.antt`, `src/checking.rt`, `src/holder.rt`
//! - The figures of a server: `src/figures.rt`; when they are written: `src/metrics.rt`; how long syncs take:
//!   `src/timed.rt`
//! - What it prints, and its exit status: `specs/Ending.antt`, `src/ending.rt`; on a terminal: `src/meter.rt`
//!
//! What the clauses say:
//!
//! - `new_store` is a store over a new device in memory of as many sectors as its limits need: it has these limits
//!   (`limits`), the first state (`state`), and one confirmed event, the restart (`confirmed`). A fault is one of an
//!   open (`named`).
//! - `exit_of` is the exit status of a run: 0, 1 if the world or the device failed, 2 if the script is wrong
//!   (`specs/Ending.antt`). A `Fault` prints as the program's name and the fault's text.
//! - `open_store` is a store over the device of a disk, as `Store::open` has it (`ok`, `confirmed`), and the fault that
//!   is said of a disk which is none (`refused`); it is one that an open can have (`named`). `open_file` is such a
//!   store over a file: one event is confirmed (`ok`), and its faults are those of an open (`named`), as those of
//!   `look_at_file` are, which gives the machine of a `look`. `copy_file` puts that machine onto a new file; once there
//!   is room for it, a fault of that is one of the device (`put_in_file` `err`). `format_file` is Ok only with as many
//!   sectors as were asked for, or as the limits need (`ok`); it is a device fault, or the refusal of so few sectors
//!   (`err`).
//! - What `check` finds on a disk is there (`find` `found`, `specs/Check.antt`): it is fit if the disk stands for the
//!   state of a machine, of which it tells how many objects are listed, and otherwise it has the fault that is named;
//!   and it is only read (`alone`). Its text is exact, with what stands in a damaged sector (`place_name`, the
//!   `Display` of `Finding`), and so is the verdict (`verdict_of`). What the system says of a file, and who has its
//!   lock (`src/holder.rt`), no clause can say: that is tested (`check.py` of `tests/`).
//! - `upgrade_disk` is `Store::upgrade` of a disk: what it leaves (`ok`, `size`), and the fault that is said of a disk
//!   which is not upgraded (`refused`, `small`). `upgrade_file` is that of a file, which then has as many sectors as
//!   were asked for, or more (`ok`). Their faults are those of an upgrade (`named`).
//!   No clause tells what a file holds, so a `format_file` or an `upgrade_file` that writes nothing and answers Ok
//!   meets all of them: that they do what they say is tested (`device.py` of `tests/`, `upgrade.py` of `tests/`).
//! - `serve` joins `open_store`, the socket and `Server::serve`, and a `Meter` shows how far a format or the growth of
//!   a file is. They have no clause, since none can speak of what the system's sockets and terminals are told; runs of
//!   the program test them (`make serves`, `terminal.py` of `tests/`).
//! - The disk of a server is a `RunDisk` whose syncs are timed (`TimedRuns`): it meets all that the trait says, by the
//!   disk under it. What `Metrics` writes into its file no clause tells: runs test it (`metrics.py` of `tests/`).
#![tactic(auto)]

ghost use Rattle.ipc_image.specs.Format.{device_form};
ghost use Rattle.ipc_image.specs.Superblock.{AreOf};

mod checking;
mod device;
mod ending;
mod figures;
mod holder;
mod meter;
mod metrics;
mod serve;
mod timed;

use checking::check;
use device::{
    copy_file, format_file, limits_for, look_at_file, new_limits, new_store, open_file,
    upgrade_file,
};
use ending::{Fault, exit_of};
use ipc_command::{Refusal, Request, request_of};
use ipc_disk::SectorDisk;
use ipc_limits::Limits;
use ipc_script::{ScriptFault, dump, list_objects, run_script};
use ipc_store::Store;
use serve::serve;
use std::fs::File;
use std::io;
use std::io::IsTerminal;
use std::net::Net;
use std::process::ExitCode;
use std::rt::Files;
use std::time::Clock;

fn main(rt: HostRuntime) -> io::Result<ExitCode> {
    // A file that is opened gets the lowest descriptor that is free. Where a standard stream is
    // closed a device would get its place, and lines would be written over it: these files take it.
    let _streams = [null(&rt), null(&rt), null(&rt)];
    let status = match request_of(&rt) {
        Ok(request) => say(&rt, &answer(&rt, &rt.stderr(), &request)),
        Err(refusal) => refuse(&rt, &refusal),
    };
    Ok(ExitCode::from(status))
}

/// Says what went wrong, if anything did that is not said yet, and gives the exit status.
fn say(rt: &impl Eprint, outcome: &Result<(), Fault>) -> u8 {
    match outcome {
        Ok(()) | Err(Fault::Unfit) => {}
        Err(fault) => {
            // The status stands also if standard error is closed.
            let _said = eprintln!(rt; "{fault}");
        }
    }
    exit_of(outcome)
}

/// Says why the command line asks for nothing, and gives the exit status. Only help and the
/// version, whose status is 0, go to standard output.
fn refuse(rt: &(impl Print + Eprint), refusal: &Refusal) -> u8 {
    let status = refusal.status();
    if refusal.print(rt).is_err() && status == 0 {
        return say(rt, &Err(Fault::Run(ScriptFault::Output)));
    }
    status
}

// A file that holds nothing and takes nothing.
fn null<R: Files<File = File>>(rt: &R) -> io::Result<File> {
    File::open(rt, "/dev/null")
}

/// Does what the command line asks for. What takes long is said on `errors`, if that is a terminal.
fn answer(
    rt: &(impl Input + Print + AllocGlobal + Files<File = File> + Net + Clock),
    errors: &(impl Eprint + IsTerminal),
    request: &Request,
) -> Result<(), Fault> {
    match request {
        Request::Replay { small } => replay(rt, *small),
        Request::Run { device } => run(rt, device),
        Request::Dump { device } => dump_file(rt, device),
        Request::ListObjects { device } => list(rt, device),
        Request::Format {
            device,
            small,
            sectors,
            journal,
        } => format(rt, errors, device, &new_limits(*small, *journal), *sectors),
        Request::Upgrade {
            device,
            small,
            sectors,
        } => upgrade(rt, errors, device, *small, *sectors),
        Request::Backup { device, copy } => backup(rt, errors, device, copy),
        Request::Check { device } => check(rt, device),
        Request::Serve {
            device,
            socket,
            turns,
            metrics,
        } => serve(rt, errors, device, socket, *turns, metrics.as_deref()),
    }
}

/// Runs the script on standard input, on a new device in memory.
fn replay(rt: &(impl Input + Print + AllocGlobal), small: bool) -> Result<(), Fault> {
    run_on(rt, new_store(rt.alloc(), &limits_for(small))?)
}

/// Runs it on the device in a file.
fn run(
    rt: &(impl Input + Print + AllocGlobal + Files<File = File>),
    device: &str,
) -> Result<(), Fault> {
    run_on(rt, open_file(rt, device)?)
}

/// Runs it on the device of a store.
fn run_on<D: SectorDisk + Drop>(
    rt: &(impl Input + Print + AllocGlobal),
    store: Store<D>,
) -> Result<(), Fault> {
    run_script(rt.alloc(), store, &mut rt.reader(), &mut io::writer(rt)).0?;
    Ok(())
}

/// Writes what is on the device in a file, after a restart.
fn dump_file(
    rt: &(impl Print + AllocGlobal + Files<File = File>),
    device: &str,
) -> Result<(), Fault> {
    dump_of(rt, open_file(rt, device)?)
}

/// Writes what is on the device in a file now, which may be in use.
fn list(rt: &(impl Print + AllocGlobal + Files<File = File>), device: &str) -> Result<(), Fault> {
    let (engine, _) = look_at_file(rt, device)?;
    list_objects(rt.alloc(), &engine, &mut io::writer(rt))?;
    Ok(())
}

/// Writes what is on the device of a store.
fn dump_of<D: SectorDisk + Drop>(
    rt: &(impl Print + AllocGlobal),
    store: Store<D>,
) -> Result<(), Fault> {
    dump(rt.alloc(), &store, &mut io::writer(rt))?;
    Ok(())
}

/// Makes a device in a file, and says of how many sectors it is.
fn format(
    rt: &(impl Print + AllocGlobal + Files<File = File>),
    errors: &(impl Eprint + IsTerminal),
    device: &str,
    limits: &Limits,
    sectors: Option<u32>,
) -> Result<(), Fault>
    requires { AreOf (device_form limits.now) limits.now }
{
    let made = format_file(rt, errors, device, limits, sectors)?;
    say_made(rt, "formatted", made)
}

/// Brings a device in a file to the version of today, and says of how many sectors it is.
fn upgrade(
    rt: &(impl Print + AllocGlobal + Files<File = File>),
    errors: &(impl Eprint + IsTerminal),
    device: &str,
    small: bool,
    sectors: Option<u32>,
) -> Result<(), Fault> {
    let made = upgrade_file(rt, errors, device, &limits_for(small), sectors)?;
    say_made(rt, "upgraded", made)
}

/// Copies a device, which may be in use, to a new file, and says of how many sectors it is.
fn backup(
    rt: &(impl Print + AllocGlobal + Files<File = File>),
    errors: &(impl Eprint + IsTerminal),
    device: &str,
    copy: &str,
) -> Result<(), Fault> {
    let made = copy_file(rt, errors, device, copy)?;
    say_made(rt, "copied", made)
}

/// Says what was done with a device of so many sectors.
fn say_made(rt: &impl Print, what: &str, sectors: u32) -> Result<(), Fault> {
    if println!(rt; "{what} {sectors} sectors").is_err() {
        return Err(Fault::Run(ScriptFault::Output));
    }
    Ok(())
}
