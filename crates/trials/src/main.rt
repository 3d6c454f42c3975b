//! Runs that look for an answer which no clause allows. Each is a word; it prints what it counted, and ends with 1 and
//! the smallest case at a failure.
//!
//!     trials stopped N < SCRIPT    stops the script at each call on its disk, its formats, and each N-th opening
//!     trials faulted N < SCRIPT    lets each call on its disk fail once, and each of the openings after each N-th line
//!     trials stopped-3 N, faulted-3 N, batch-3   the same on a device of version 3, with a journal of 8 sectors
//!     trials upgraded N < TEXT     upgrades a device of version 1 to 2, and opens it, stopped at each call on its
//!                                  disk, as is what comes after each N-th stop, and with each call failing once
//!     trials upgraded-3 N < TEXT   the same of the device of version 2 that this becomes, and the upgrade to 3
//!     trials batch                 feeds a hub requests of one moment, and counts what one release writes of them
//!     trials script < SCRIPT       runs the script in memory, under small limits but 16 processes
//!
//! In the first two a script is followed by a line `-` and by a probe: lines whose answers tell what a device holds. In
//! `upgraded` and `upgraded-3` a probe comes first, a line `-`, what it has to answer, another line `-`, and the bytes
//! of the device of version 1.
#![tactic(auto)]

ghost use Rattle.std.specs.Prelude.{◌<◌, IfOk};

mod batch;
mod fault;
mod faulted;
mod formats;
mod halted;
mod last_words;
mod openings;
mod request;
mod runs;
mod script;
mod stages;
mod stopped;
mod stops;
mod told;
mod upgraded;

use batch::batch_of_three;
use fault::Fault;
use faulted::faulted;
use ipc_limits::Limits;
use script::script;
use std::alloc::Global;
use std::io;
use std::io::{ErrorKind, Read};
use std::process::ExitCode;
use std::rt::Env;
use stopped::stopped;
use told::Told;
use upgraded::upgraded;

fn main(rt: HostRuntime) -> io::Result<ExitCode> {
    match answer(&rt) {
        Ok(()) => Ok(ExitCode::from(0)),
        Err(fault) => {
            eprintln!(rt; "trials: {fault}")?;
            Ok(ExitCode::from(1))
        }
    }
}

/// Does what the words ask for.
fn answer(rt: &(impl Env + Input + Print + AllocGlobal)) -> Result<(), Fault> {
    let words = words_of(rt)?;
    match words.as_slice() {
        [_, word] => act(rt, word.as_str(), ""),
        [_, word, more] => act(rt, word.as_str(), more.as_str()),
        _ => Err(Fault::Usage),
    }
}

/// Does what a word asks for, with one more or alone.
fn act(rt: &(impl Input + Print + AllocGlobal), word: &str, more: &str) -> Result<(), Fault> {
    match (word, more) {
        ("batch", "") => print(rt, batch_of_three(rt.alloc(), &Limits::small())),
        ("batch-3", "") => print(rt, batch_of_three(rt.alloc(), &limits_of_three())),
        ("script", "") => script(rt),
        _ => with_number(rt, word, number_of(more)?),
    }
}

/// Does what a word asks for with a number.
fn with_number(rt: &(impl Input + Print + AllocGlobal), word: &str, every: u64) -> Result<(), Fault>
    requires { 0 < every }
{
    let alloc = rt.alloc();
    let text = input(alloc, &mut rt.reader())?;
    match word {
        "stopped" => print(rt, stopped(alloc, Limits::small(), text.as_slice(), every)),
        "faulted" => print(
            rt,
            faulted(alloc, Limits::small(), text.as_slice(), every as usize),
        ),
        "stopped-3" => print(
            rt,
            stopped(alloc, limits_of_three(), text.as_slice(), every),
        ),
        "faulted-3" => print(
            rt,
            faulted(alloc, limits_of_three(), text.as_slice(), every as usize),
        ),
        "upgraded" => print(rt, upgraded(alloc, 2, text.as_slice(), every)),
        "upgraded-3" => print(rt, upgraded(alloc, 3, text.as_slice(), every)),
        _ => Err(Fault::Usage),
    }
}

/// Small limits of version 3, with the shortest journal, which is full after a few commits.
fn limits_of_three() -> Limits {
    Limits {
        journal: 8,
        ..Limits::small_of_three()
    }
}

/// Prints what a run has counted, unless it has ended early.
fn print(rt: &impl Print, outcome: Result<Told, Fault>) -> Result<(), Fault> {
    let told = outcome?;
    println!(rt; "{told}").map_err(|_| Fault::Output)
}

/// The number that a word is, from 1 on.
fn number_of(word: &str) -> Result<u64, Fault>
    ensures { IfOk result (λ every. 0 < every) }
{
    let every = word.parse::<u64>().map_err(|_| Fault::Usage)?;
    if every == 0 {
        return Err(Fault::Usage);
    }
    Ok(every)
}

/// The words of the command line; the first is the program's name.
fn words_of(rt: &(impl Env + AllocGlobal)) -> Result<Vec<String>, Fault> {
    let mut words = Vec::new(rt.alloc());
    match std::env::args(rt) {
        Ok(given) => {
            for word in given {
                words.push(word)?;
            }
        }
        Err(error) if error.kind() == ErrorKind::OutOfMemory => return Err(Fault::NoMemory),
        Err(_) => return Err(Fault::Usage),
    }
    Ok(words)
}

/// All that a reader gives.
fn input<R: Read>(alloc: Global, reader: &mut R) -> Result<Vec<u8>, Fault> {
    let mut text = Vec::new(alloc);
    match reader.read_to_end(&mut text) {
        Ok(_) => Ok(text),
        Err(error) if error.kind() == ErrorKind::OutOfMemory => Err(Fault::NoMemory),
        Err(_) => Err(Fault::Input),
    }
}
