//! The command line.

ghost use Rattle.std.specs.Prelude.{◌≡◌, ℕ, Bool, true, false, List, [], ◌∷◌, ◌++◌, map, codes};
ghost use Rattle.std.specs.Prelude.{IfOk, IfSome, IsSome, None, Option, option_and_then, option_map, string_bytes};
ghost use Rattle.ipc_limits.specs.Limits.{ArePassed, AreWithin, standard_limits};
ghost use Rattle.clap.specs.Words.{app_of, rule_of, fault_of, subcommand_of, subcommand_rows_of};
ghost use Rattle.clap.specs.Words.{FailsBy, first_of, found_of, rows_of};
ghost use Rattle.clap.specs.declared.builder.command.Command.TheViews.{out-Command};
ghost use Rattle.ipc_command.specs.Command.{limits_asked, refusal_status, IsTakenAs, AsksFor, declared};
ghost use Rattle.ipc_command.specs.Command.PlainRequest.{Format, Upgrade, Run, Dump, ListObjects, Backup, Check};
ghost use Rattle.ipc_command.specs.Command.PlainRequest.{Serve};
ghost use Rattle.ipc_command.specs.Command.{plain_request, asked, asked_serve, asked_small, asked_text};
ghost use Rattle.ipc_command.specs.Command.{asked_number, parsed_number};
ghost use Rattle.ipc_command.specs.Command.{is_journal, is_no_flag, small_words, sectors_words};
ghost use Rattle.ipc_command.specs.Command.{turns_words, metrics_words};
ghost use Rattle.ipc_command.specs.Command.{small_rule, sectors_rule, journal_rule, device_rule, copy_rule};
ghost use Rattle.ipc_command.specs.Command.{socket_rule, turns_rule, metrics_rule};
ghost use Rattle.ipc_command.specs.Command.{replay_command, sized_command, format_command};
ghost use Rattle.ipc_command.specs.Command.{device_command, backup_command, serve_command};

use clap::error::ErrorKind;
use clap::{Arg, ArgAction, ArgMatches, Command, Error, value_parser};
use ipc_limits::Limits;
use std::alloc::{AllocError, Global};
use std::convert::AsStr;
use std::io;
use std::rt::Env;

/// What the command line asks for.
#[derive(Drop)]
pub enum Request {
    /// Run the script on standard input on a new device in memory, with small limits or standard
    /// ones.
    Replay {
        small: bool,
    },
    /// Make a device in a file, of so many sectors or of as many as it needs: of version 3 with a journal of so many
    /// sectors if that is given, else of version 2.
    Format {
        device: String,
        small: bool,
        sectors: Option<u32>,
        journal: Option<u32>,
    },
    /// Bring the device in a file to the version of today, with small limits or standard ones. A file
    /// of fewer sectors grows to so many first, if any are given.
    Upgrade {
        device: String,
        small: bool,
        sectors: Option<u32>,
    },
    /// Run the script on standard input on the device in a file.
    Run {
        device: String,
    },
    /// List the objects of the device in a file.
    Dump {
        device: String,
    },
    /// List the objects of the device in a file, which may be in use, and leave it as it is.
    ListObjects {
        device: String,
    },
    /// Copy the device in a file, which may be in use, to a new file, and leave it as it is.
    Backup {
        device: String,
        copy: String,
    },
    /// Say whether the device in a file would be served, and why not.
    Check {
        device: String,
    },
    /// Serve the device in a file to the clients of a socket, for so many turns if any are given, and
    /// write figures to a file if one is given.
    Serve {
        device: String,
        socket: String,
        turns: Option<u32>,
        metrics: Option<String>,
    },
}

/// Why the command line asks for nothing.
#[derive(Drop)]
pub enum Refusal {
    /// Memory was refused.
    NoMemory,
    /// An argument is not valid UTF-8.
    NotText,
    /// What the parser has to say: help, the version, or a mistake in the words.
    Parser(Error),
}

impl Refusal {
    /// The exit status: 0 for help and the version, 1 for want of memory, 2 for a mistake.
    pub fn status(&self) -> u8
        ensures { result ≡ refusal_status self.now }
    {
        match self {
            Refusal::NoMemory => 1,
            Refusal::NotText => 2,
            Refusal::Parser(error) => match error.kind() {
                ErrorKind::DisplayHelp | ErrorKind::DisplayVersion => 0,
                ErrorKind::OutOfMemory => 1,
                _ => 2,
            },
        }
    }

    /// Says why. Help and the version go to standard output, all else to standard error.
    pub fn print(&self, rt: &(impl Print + Eprint)) -> io::Result<()> {
        match self {
            Refusal::NoMemory => eprintln!(rt; "ipcd: no memory"),
            Refusal::NotText => eprintln!(rt; "ipcd: an argument is not valid UTF-8"),
            Refusal::Parser(error) => match error.kind() {
                ErrorKind::OutOfMemory => eprintln!(rt; "ipcd: no memory"),
                _ => error.print(rt),
            },
        }
    }
}

/// Reads the command line.
pub fn request_of(rt: &(impl Env + AllocGlobal)) -> Result<Request, Refusal> {
    let alloc = rt.alloc();
    let words: Vec<String> = match std::env::args(rt) {
        Ok(words) => words.collect(alloc).map_err(|_| Refusal::NoMemory)?,
        Err(fault) if fault.kind() == io::ErrorKind::InvalidData => return Err(Refusal::NotText),
        Err(_) => return Err(Refusal::NoMemory),
    };
    parse(alloc, words.as_slice()).map_err(Refusal::Parser)
}

/// What the words ask for; the first is the program's name.
pub fn parse<S: AsStr>(alloc: Global, words: &[S]) -> Result<Request, Error>
    // Which words are refused, and with which kinds of error.
    ensures refused { FailsBy (fault_of declared (map S.text words.now)) result }
    // The words that are taken, whatever the program is called.
    ensures standard { (name : List ℕ) → map S.text words.now ≡ name ∷ codes "replay" ∷ []
        → IsTakenAs (Request.Replay false) result }
    ensures small { (name : List ℕ)
        → map S.text words.now ≡ name ∷ codes "replay" ∷ codes "--small" ∷ []
        → IsTakenAs (Request.Replay true) result }
    ensures format { (name device : List ℕ) (small : Bool) (number : Option (List ℕ))
        → is_no_flag device ≡ true → IfSome number (λ text. IsSome (parsed_number text))
        → map S.text words.now
        ≡ name ∷ codes "format" ∷ device ∷ small_words small ++ sectors_words number
        → AsksFor (Format device small (option_and_then parsed_number number) None) result }
    ensures journal { (name device journal : List ℕ) (small : Bool)
        → is_no_flag device ≡ true → is_journal journal ≡ true
        → map S.text words.now
        ≡ name ∷ codes "format" ∷ device ∷ small_words small ++ codes "--journal" ∷ journal ∷ []
        → AsksFor (Format device small None (parsed_number journal)) result }
    ensures upgrade { (name device : List ℕ) (small : Bool) (number : Option (List ℕ))
        → is_no_flag device ≡ true → IfSome number (λ text. IsSome (parsed_number text))
        → map S.text words.now
        ≡ name ∷ codes "upgrade" ∷ device ∷ small_words small ++ sectors_words number
        → AsksFor (Upgrade device small (option_and_then parsed_number number)) result }
    ensures run { (name device : List ℕ) → is_no_flag device ≡ true
        → map S.text words.now ≡ name ∷ codes "run" ∷ device ∷ []
        → AsksFor (Run device) result }
    ensures dump { (name device : List ℕ) → is_no_flag device ≡ true
        → map S.text words.now ≡ name ∷ codes "dump" ∷ device ∷ []
        → AsksFor (Dump device) result }
    ensures list { (name device : List ℕ) → is_no_flag device ≡ true
        → map S.text words.now ≡ name ∷ codes "list" ∷ device ∷ []
        → AsksFor (ListObjects device) result }
    ensures backup { (name device copy : List ℕ) → is_no_flag device ≡ true → is_no_flag copy ≡ true
        → map S.text words.now ≡ name ∷ codes "backup" ∷ device ∷ copy ∷ []
        → AsksFor (Backup device copy) result }
    ensures check { (name device : List ℕ) → is_no_flag device ≡ true
        → map S.text words.now ≡ name ∷ codes "check" ∷ device ∷ []
        → AsksFor (Check device) result }
    ensures serve { (name device socket : List ℕ) (number metrics : Option (List ℕ))
        → is_no_flag device ≡ true → is_no_flag socket ≡ true
        → IfSome number (λ text. IsSome (parsed_number text))
        → IfSome metrics (λ text. is_no_flag text ≡ true)
        → map S.text words.now
        ≡ name ∷ codes "serve" ∷ device ∷ socket ∷ turns_words number ++ metrics_words metrics
        → AsksFor (Serve device socket (option_and_then parsed_number number) metrics) result }
    // What any words ask for, if they are taken, by what the parser finds in them.
    ensures asked { IfOk result (λ request.
        plain_request request ≡ asked (subcommand_of declared (map S.text words.now))) }
{
    let matches = command_line(alloc)?.try_get_matches_from(words)?;
    Ok(request_in(alloc, &matches)?)
}

// The command line, as the parser is told of it.
fn command_line<'a>(alloc: Global) -> Result<Command<'a>, AllocError>
    ensures { IfOk result (λ command. app_of command ≡ declared) }
{
    Command::new(alloc, "ipcd")
        .about("System V and POSIX IPC objects that survive crashes and reboots")
        .version("0.1.0, devices of versions 2 and 3")
        .subcommand_required(true)
        .subcommand(replay(alloc)?)?
        .subcommand(format(alloc)?)?
        .subcommand(upgrade(alloc)?)?
        .subcommand(run(alloc)?)?
        .subcommand(dump(alloc)?)?
        .subcommand(list(alloc)?)?
        .subcommand(backup(alloc)?)?
        .subcommand(check(alloc)?)?
        .subcommand(serve(alloc)?)
}

// The command `replay`. None of the nine has an argument for the commands below it.
fn replay<'a>(alloc: Global) -> Result<Command<'a>, AllocError>
    ensures app { IfOk result (λ command. app_of command ≡ replay_command) }
    ensures local { IfOk result (λ command. (out-Command command).has_globals ≡ false) }
{
    Command::new(alloc, "replay")
        .about("Runs the script on standard input on a fresh device in memory")
        .arg(small_flag(alloc))
}

// The command `format`.
fn format<'a>(alloc: Global) -> Result<Command<'a>, AllocError>
    ensures app { IfOk result (λ command. app_of command ≡ format_command) }
    ensures local { IfOk result (λ command. (out-Command command).has_globals ≡ false) }
{
    sized_command(
        alloc,
        "format",
        "Makes a device in a file and destroys what it held. A terminal shows progress",
        "Number of sectors of 512 bytes, instead of what the limits need",
    )?
    .arg(journal_option(alloc))
}

// The command `upgrade`.
fn upgrade<'a>(alloc: Global) -> Result<Command<'a>, AllocError>
    ensures app { IfOk result (λ command. app_of command ≡ sized_command (codes "upgrade")) }
    ensures local { IfOk result (λ command. (out-Command command).has_globals ≡ false) }
{
    sized_command(
        alloc,
        "upgrade",
        "Turns a device of version 1 into one of version 2, with all that it keeps",
        "The file first grows to this number of sectors of 512 bytes",
    )
}

// A command of this name on a device, with limits and a number of sectors, of which `sectors` tells.
fn sized_command<'a>(
    alloc: Global,
    name: &'a str,
    about: &'a str,
    sectors: &'a str,
) -> Result<Command<'a>, AllocError>
    ensures app { IfOk result (λ command. app_of command ≡ sized_command name.entry.now) }
    ensures local { IfOk result (λ command. (out-Command command).has_globals ≡ false) }
{
    Command::new(alloc, name)
        .about(about)
        .arg(device_word(alloc))?
        .arg(small_flag(alloc))?
        .arg(sectors_option(alloc, sectors))
}

// The command `run`.
fn run<'a>(alloc: Global) -> Result<Command<'a>, AllocError>
    ensures app { IfOk result (λ command. app_of command ≡ device_command (codes "run")) }
    ensures local { IfOk result (λ command. (out-Command command).has_globals ≡ false) }
{
    device_command(
        alloc,
        "run",
        "Runs the script on standard input on a device",
    )
}

// The command `dump`.
fn dump<'a>(alloc: Global) -> Result<Command<'a>, AllocError>
    ensures app { IfOk result (λ command. app_of command ≡ device_command (codes "dump")) }
    ensures local { IfOk result (λ command. (out-Command command).has_globals ≡ false) }
{
    device_command(
        alloc,
        "dump",
        "Restarts the server on a device that is not in use, and lists its objects",
    )
}

// The command `list`.
fn list<'a>(alloc: Global) -> Result<Command<'a>, AllocError>
    ensures app { IfOk result (λ command. app_of command ≡ device_command (codes "list")) }
    ensures local { IfOk result (λ command. (out-Command command).has_globals ≡ false) }
{
    device_command(
        alloc,
        "list",
        "Lists the objects on a device, in use or not, and only reads it",
    )
}

// The command `check`.
fn check<'a>(alloc: Global) -> Result<Command<'a>, AllocError>
    ensures app { IfOk result (λ command. app_of command ≡ device_command (codes "check")) }
    ensures local { IfOk result (λ command. (out-Command command).has_globals ≡ false) }
{
    device_command(
        alloc,
        "check",
        "Prints whether serve would serve a device, and why not, and only reads it",
    )
}

// A command of this name on a device, of which `about` tells.
fn device_command<'a>(
    alloc: Global,
    name: &'a str,
    about: &'a str,
) -> Result<Command<'a>, AllocError>
    ensures app { IfOk result (λ command. app_of command ≡ device_command name.entry.now) }
    ensures local { IfOk result (λ command. (out-Command command).has_globals ≡ false) }
{
    Command::new(alloc, name)
        .about(about)
        .arg(device_word(alloc))
}

// The command `backup`.
fn backup<'a>(alloc: Global) -> Result<Command<'a>, AllocError>
    ensures app { IfOk result (λ command. app_of command ≡ backup_command) }
    ensures local { IfOk result (λ command. (out-Command command).has_globals ≡ false) }
{
    Command::new(alloc, "backup")
        .about("Copies a device, in use or not, to a new file, and only reads it")
        .arg(device_word(alloc))?
        .arg(copy_word(alloc))
}

// The command `serve`.
fn serve<'a>(alloc: Global) -> Result<Command<'a>, AllocError>
    ensures app { IfOk result (λ command. app_of command ≡ serve_command) }
    ensures local { IfOk result (λ command. (out-Command command).has_globals ≡ false) }
{
    Command::new(alloc, "serve")
        .about("Serves a device to the clients of a Unix socket")
        .arg(device_word(alloc))?
        .arg(socket_word(alloc))?
        .arg(turns_option(alloc))?
        .arg(metrics_option(alloc))
}

// The flag `--small`.
fn small_flag<'a>(alloc: Global) -> Arg<'a>
    ensures rule { rule_of result ≡ small_rule }
    ensures local { result.global ≡ false }
{
    Arg::new(alloc, "small")
        .long("small")
        .action(ArgAction::SetTrue)
        .help("Small limits, for trials")
}

// The option `--sectors N`.
fn sectors_option<'a>(alloc: Global, help: &'a str) -> Arg<'a>
    ensures rule { rule_of result ≡ sectors_rule }
    ensures local { result.global ≡ false }
{
    Arg::new(alloc, "sectors")
        .long("sectors")
        .value_name("N")
        .value_parser(value_parser!(u32))
        .help(help)
}

// The option `--journal N`.
fn journal_option<'a>(alloc: Global) -> Arg<'a>
    ensures rule { rule_of result ≡ journal_rule }
    ensures local { result.global ≡ false }
{
    Arg::new(alloc, "journal")
        .long("journal")
        .value_name("N")
        .value_parser(value_parser!(u32).range(8..=65535))
        .help("Version 3, whose commits cost one sync, with a journal of N sectors, 8 to 65535")
}

// The word that names the file of a device.
fn device_word<'a>(alloc: Global) -> Arg<'a>
    ensures rule { rule_of result ≡ device_rule }
    ensures local { result.global ≡ false }
{
    Arg::new(alloc, "device")
        .value_name("DEVICE")
        .required(true)
        .help("The file of the device")
}

// The word that names the file of a copy.
fn copy_word<'a>(alloc: Global) -> Arg<'a>
    ensures rule { rule_of result ≡ copy_rule }
    ensures local { result.global ≡ false }
{
    Arg::new(alloc, "copy")
        .value_name("COPY")
        .required(true)
        .help("The file of the copy. Nothing may exist there")
}

// The word that names a socket.
fn socket_word<'a>(alloc: Global) -> Arg<'a>
    ensures rule { rule_of result ≡ socket_rule }
    ensures local { result.global ≡ false }
{
    Arg::new(alloc, "socket")
        .value_name("SOCKET")
        .required(true)
        .help("The path of the socket. Nothing may exist there")
}

// The option `--turns N`.
fn turns_option<'a>(alloc: Global) -> Arg<'a>
    ensures rule { rule_of result ≡ turns_rule }
    ensures local { result.global ≡ false }
{
    Arg::new(alloc, "turns")
        .long("turns")
        .value_name("N")
        .value_parser(value_parser!(u32))
        .help("End after N turns of the server's loop (default 4294967295)")
}

// The option `--metrics FILE`.
fn metrics_option<'a>(alloc: Global) -> Arg<'a>
    ensures rule { rule_of result ≡ metrics_rule }
    ensures local { result.global ≡ false }
{
    Arg::new(alloc, "metrics")
        .long("metrics")
        .value_name("FILE")
        .help("A text file of figures for Prometheus, replaced at most once a second")
}

// What the matches ask for.
fn request_in(alloc: Global, matches: &ArgMatches<'_>) -> Result<Request, AllocError>
    ensures { IfOk result (λ request.
        plain_request request ≡ asked (subcommand_rows_of matches.now)) }
{
    if let Some(replay) = matches.subcommand_matches("replay") {
        return Ok(Request::Replay {
            small: small_in(replay),
        });
    }
    if let Some(format) = matches.subcommand_matches("format") {
        return Ok(Request::Format {
            device: text_in(alloc, format, "device")?,
            small: small_in(format),
            sectors: number_in(format, "sectors"),
            journal: number_in(format, "journal"),
        });
    }
    if let Some(upgrade) = matches.subcommand_matches("upgrade") {
        return Ok(Request::Upgrade {
            device: text_in(alloc, upgrade, "device")?,
            small: small_in(upgrade),
            sectors: number_in(upgrade, "sectors"),
        });
    }
    if let Some(run) = matches.subcommand_matches("run") {
        return Ok(Request::Run {
            device: text_in(alloc, run, "device")?,
        });
    }
    if let Some(list) = matches.subcommand_matches("list") {
        return Ok(Request::ListObjects {
            device: text_in(alloc, list, "device")?,
        });
    }
    if let Some(backup) = matches.subcommand_matches("backup") {
        return Ok(Request::Backup {
            device: text_in(alloc, backup, "device")?,
            copy: text_in(alloc, backup, "copy")?,
        });
    }
    if let Some(check) = matches.subcommand_matches("check") {
        return Ok(Request::Check {
            device: text_in(alloc, check, "device")?,
        });
    }
    if let Some(serve) = matches.subcommand_matches("serve") {
        return serve_in(alloc, serve);
    }
    let device = match matches.subcommand_matches("dump") {
        Some(dump) => text_in(alloc, dump, "device")?,
        None => String::new(alloc),
    };
    Ok(Request::Dump { device })
}

// What the command `serve` asks for.
fn serve_in(alloc: Global, serve: &ArgMatches<'_>) -> Result<Request, AllocError>
    ensures { IfOk result (λ request. plain_request request ≡ asked_serve (rows_of (found_of serve.now))) }
{
    Ok(Request::Serve {
        device: text_in(alloc, serve, "device")?,
        socket: text_in(alloc, serve, "socket")?,
        turns: number_in(serve, "turns"),
        metrics: optional_in(alloc, serve, "metrics")?,
    })
}

// Whether a command has the flag `--small`.
fn small_in(command: &ArgMatches<'_>) -> bool
    ensures { result ≡ asked_small (rows_of (found_of command.now)) }
{
    command.get_one("small").unwrap_or(false)
}

// The text that a command has by this name. The parser has refused a command without one that it
// needs.
fn text_in(alloc: Global, command: &ArgMatches<'_>, name: &str) -> Result<String, AllocError>
    ensures { IfOk result (λ text.
        string_bytes text ≡ asked_text name.now (rows_of (found_of command.now))) }
{
    command.get_str(name).unwrap_or("").to_string(alloc)
}

// The text that a command has by this name, if it has one.
fn optional_in(
    alloc: Global,
    command: &ArgMatches<'_>,
    name: &str,
) -> Result<Option<String>, AllocError>
    ensures { IfOk result (λ text.
        option_map string_bytes text ≡ first_of name.now (rows_of (found_of command.now))) }
{
    match command.get_str(name) {
        Some(text) => Ok(Some(text.to_string(alloc)?)),
        None => Ok(None),
    }
}

// The number that a command has by this name.
fn number_in(command: &ArgMatches<'_>, name: &str) -> Option<u32>
    ensures { result ≡ asked_number name.now (rows_of (found_of command.now)) }
{
    command.get_one(name)
}

/// The limits of a server on version 2: small ones where they are asked for, else the standard ones.
pub fn limits_of(small: bool) -> Limits
    ensures limits { result ≡ limits_asked small }
    ensures passed { ArePassed result }
    ensures within { AreWithin standard_limits result }
    ensures version { result.version ≡ 2 }
    ensures journal { result.journal ≡ 257 }
{
    if small {
        Limits::small()
    } else {
        Limits::standard()
    }
}
