//! Public calls that may be refused memory, each on what is made ready for it, and others that take none. Memory is
//! refused from outside: a malloc that is loaded before the program's own answers one call with none.
//!
//!     refusals         prints the names of all calls
//!     refusals NAME    makes one call, and again if it is refused for memory
//!
//! `refusals Store::upgrade` reads the bytes of a device of version 1. It ends with 1 where a call that was refused has
//! changed its object, or is refused again.
#![tactic(auto)]

mod devices;
mod engines;
mod fault;
mod hubs;
mod made;
mod objects;
mod states;
mod subject;

use fault::Fault;
use std::alloc::Global;
use std::fs::File;
use std::io;
use std::io::{ErrorKind, Read};
use std::net::Net;
use std::process::ExitCode;
use std::rt::{Env, Files};
use subject::is_refused;

fn main(rt: HostRuntime) -> io::Result<ExitCode> {
    match answer(&rt) {
        Ok(()) => Ok(ExitCode::from(0)),
        Err(fault) => {
            eprintln!(rt; "refusals: {fault}")?;
            Ok(ExitCode::from(1))
        }
    }
}

/// Does what the words ask for.
fn answer(
    rt: &(impl Env + Input + Print + AllocGlobal + Files<File = File> + Net),
) -> Result<(), Fault> {
    let words = words_of(rt)?;
    match words.as_slice() {
        [_] => print_names(rt),
        [_, name] => refused(rt, name.as_str()),
        _ => Err(Fault::Usage),
    }
}

/// The words of the command line; the first is the program's name.
fn words_of(rt: &(impl Env + AllocGlobal)) -> Result<Vec<String>, Fault> {
    let mut words = Vec::new(rt.alloc());
    match std::env::args(rt) {
        Ok(given) => {
            for word in given {
                words.push(word)?;
            }
        }
        Err(error) if error.kind() == ErrorKind::OutOfMemory => return Err(Fault::NoMemory),
        Err(_) => return Err(Fault::Usage),
    }
    Ok(words)
}

/// All that a reader gives.
fn input<R: Read>(alloc: Global, reader: &mut R) -> Result<Vec<u8>, Fault> {
    let mut text = Vec::new(alloc);
    match reader.read_to_end(&mut text) {
        Ok(_) => Ok(text),
        Err(error) if error.kind() == ErrorKind::OutOfMemory => Err(Fault::NoMemory),
        Err(_) => Err(Fault::Input),
    }
}

/// Prints the names of all calls, and which take no memory: those that are done whatever is refused.
fn print_names(rt: &impl Print) -> Result<(), Fault> {
    for names in [
        made::NAMES.as_slice(),
        &objects::NAMES,
        &states::NAMES,
        &engines::NAMES,
        &devices::NAMES,
        &hubs::NAMES,
    ] {
        print_each(rt, names, "")?;
    }
    print_each(rt, &engines::PROMISED, ": takes no memory")?;
    print_each(rt, &hubs::PROMISED, ": takes no memory")
}

fn print_each(rt: &impl Print, names: &[&str], what: &str) -> Result<(), Fault> {
    for name in names {
        println!(rt; "{name}{what}").map_err(|_| Fault::Output)?;
    }
    Ok(())
}

/// Makes the call of this name, and prints what became of it.
fn refused(
    rt: &(impl Input + Print + AllocGlobal + Files<File = File> + Net),
    name: &str,
) -> Result<(), Fault> {
    let refused = if name == hubs::SERVER {
        hubs::server_refused(rt)?
    } else if name == devices::UPGRADE {
        let image = input(rt.alloc(), &mut rt.reader())?;
        is_refused(devices::old_device(rt.alloc(), &image), name)?
    } else {
        call(rt.alloc(), name)?
    };
    let then = if refused {
        "refused, then done"
    } else {
        "done"
    };
    println!(rt; "{name}: {then}").map_err(|_| Fault::Output)
}

/// Makes the call of this name. Whether it was refused.
fn call(alloc: Global, name: &str) -> Result<bool, Fault> {
    if is_one(name, &made::NAMES) {
        is_refused(Ok(made::Nothing { alloc }), name)
    } else if is_one(name, &objects::NAMES) {
        objects::refused(alloc, name)
    } else if is_one(name, &states::NAMES) {
        is_refused(states::state_for(alloc, name), name)
    } else if is_one(name, &engines::NAMES) || is_one(name, &engines::PROMISED) {
        is_refused(engines::engine_for(alloc), name)
    } else if is_one(name, &devices::NAMES) {
        is_refused(devices::device_for(alloc, name), name)
    } else if is_one(name, &hubs::NAMES) || is_one(name, &hubs::PROMISED) {
        is_refused(hubs::hub_for(alloc), name)
    } else {
        Err(Fault::Usage)
    }
}

fn is_one(name: &str, names: &[&str]) -> bool {
    names.iter().any(|other| *other == name)
}
