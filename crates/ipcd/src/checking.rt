//! What `serve` would say of the device in a file, and why. The file is only read.

ghost use Rattle.std.specs.Prelude.{◌≡◌, ◌<◌, IfOk, Some, true};
ghost use Rattle.ipc_disk.specs.Medium.{IsHonest};
ghost use Rattle.ipc_store.specs.Look.{LeavesAlone};
ghost use Rattle.ipc_image.specs.Format.{IsFormat};
ghost use Rattle.ipc_store.specs.Image.{form_at};
ghost use Rattle.ipcd.specs.Check.{finding_text, limits_text, form_text, place_of, place_text};
ghost use Rattle.ipcd.specs.Check.{refusal_of, verdict_of};
ghost use Rattle.ipcd.specs.Check.{AreSmall, IsFoundIn, IsOfMachine};

use crate::ending::Fault;
use crate::holder::{Holder, holder_of};
use ipc_disk::{DiskFault, FileDisk, SectorDisk};
use ipc_engine::Engine;
use ipc_image::{FORMAT, Format, JOURNAL, SUPERBLOCK};
use ipc_limits::Limits;
use ipc_script::ScriptFault;
use ipc_store::{OpenError, look};
use std::alloc::{AllocError, Global};
use std::fs::{File, OpenOptions, metadata};
use std::rt::Files;
use std::{fmt, io};

/// What a look at a device finds. Its `Display` is what `serve` would say, and why.
#[derive(Clone, Copy)]
pub enum Finding {
    /// It is fit to be served. It is of this version, and has so many sectors and objects.
    Fit {
        version: u32,
        sectors: u32,
        small: bool,
        objects: usize,
    },
    /// It is no device. The file has so many sectors.
    NotFormatted {
        sectors: u32,
    },
    /// It is of another version.
    Version {
        found: u32,
    },
    /// It stands for no state, as this sector shows first, which has this place.
    Damaged {
        sector: u32,
        place: Place,
    },
    /// It cannot be read, or it is saved again and again.
    Unread,
    /// Memory was refused.
    NoMemory,
}

/// What stands in a sector of a device.
#[derive(Clone, Copy)]
pub enum Place {
    Superblock,
    Root,
    JournalHeader,
    Batch,
    Table,
}

impl fmt::Display for Finding {
    ghost output = { λ finding. Some (finding_text finding) };

    fn fmt<W: fmt::Write>(&self, f: &mut fmt::Formatter<W>) -> fmt::Result {
        match self {
            Finding::Fit {
                version,
                sectors,
                small,
                objects,
            } => write!(
                f,
                "fit to be served: version {version}, {sectors} sectors, {} limits, {objects} objects",
                size_name(*small)
            ),
            Finding::NotFormatted { sectors } => write!(
                f,
                "not formatted: the file has {sectors} sectors, {}",
                form_name(*sectors)
            ),
            Finding::Version { found } => {
                write!(f, "version {found}: this program serves versions 2 and 3")
            }
            Finding::Damaged { sector, place } => {
                write!(f, "damaged sector {sector}: {}", place_name(*place))
            }
            Finding::Unread => {
                write!(
                    f,
                    "device fault: it cannot be read, or is saved all the while"
                )
            }
            Finding::NoMemory => write!(f, "no memory: there is too little for its objects"),
        }
    }
}

// What the limits of a device are called.
fn size_name(small: bool) -> &'static str
    ensures { result.now ≡ limits_text small }
{
    if small { "small" } else { "standard" }
}

// What keeps a file of so many sectors from being a device.
fn form_name(sectors: u32) -> &'static str
    ensures { result.now ≡ form_text sectors }
{
    if sectors <= FORMAT.root {
        "fewer than a device has"
    } else {
        "and the first is no superblock"
    }
}

// What is wrong if an open names a sector of this place: it names the root if the objects stand for no state.
fn place_name(place: Place) -> &'static str
    ensures { result.now ≡ place_text place }
{
    match place {
        Place::Superblock => "the superblock, or the file was cut",
        Place::Root => "the root, or the bytes of an object",
        Place::JournalHeader => "the header of the journal",
        Place::Batch => "a batch of the journal",
        Place::Table => "the table of objects",
    }
}

// What stands in this sector of a device of this form.
fn place_of(form: Format, sector: u32) -> Place
    requires { IsFormat form }
    ensures { result ≡ place_of form sector }
{
    if sector == SUPERBLOCK {
        Place::Superblock
    } else if sector == form.root {
        Place::Root
    } else if sector == JOURNAL && !form.tags {
        Place::JournalHeader
    } else if sector < form.objects() {
        Place::Batch
    } else {
        Place::Table
    }
}

/// Why `serve` would not come to look at a device: what the system says of its file. Its `Display` is said after
/// `device fault`.
#[derive(Clone, Copy)]
enum Obstacle {
    System(io::Error),
    NotPlain,
    InUse(Holder),
}

impl fmt::Display for Obstacle {
    fn fmt<W: fmt::Write>(&self, f: &mut fmt::Formatter<W>) -> fmt::Result {
        match self {
            Obstacle::System(error) => write!(f, "{error}"),
            Obstacle::NotPlain => write!(f, "it is no plain file"),
            Obstacle::InUse(Holder::Process(number)) => {
                write!(f, "it is in use by process {number}")
            }
            Obstacle::InUse(_) => write!(f, "it is in use"),
        }
    }
}

/// Says what `serve` would say of the device in a file, and why. If something keeps `serve` from it, but it may be
/// read, what is found there is said in a second line. `Unfit` if `serve` would not serve it.
pub fn check<R: Print + AllocGlobal + Files<File = File>>(rt: &R, path: &str) -> Result<(), Fault> {
    match obstacle_to(rt, path) {
        Some(obstacle) => say_obstacle(rt, path, &obstacle),
        None => say_finding(rt, find_in_file(rt, path).unwrap_or(Finding::Unread)),
    }
}

// What keeps `serve` from looking at a device, in the order in which it would come to it.
fn obstacle_to<R: AllocGlobal + Files<File = File>>(rt: &R, path: &str) -> Option<Obstacle> {
    let metadata = match metadata(rt, path) {
        Ok(metadata) => metadata,
        Err(error) => return Some(Obstacle::System(error)),
    };
    if !metadata.is_file() {
        return Some(Obstacle::NotPlain);
    }
    if let Err(error) = OpenOptions::new().read(true).write(true).open(rt, path) {
        return Some(Obstacle::System(error));
    }
    match holder_of(rt, path, &metadata) {
        Holder::Nobody => None,
        holder => Some(Obstacle::InUse(holder)),
    }
}

// What is found in a file, if it may be read.
fn find_in_file<R: AllocGlobal + Files<File = File>>(rt: &R, path: &str) -> Option<Finding> {
    match FileDisk::open_to_read(rt, path) {
        Ok(mut disk) => Some(find(rt.alloc(), &mut disk)),
        Err(_) => None,
    }
}

// What is found on a disk. It is only read.
fn find<D: SectorDisk>(alloc: Global, disk: &mut D) -> Finding
    ensures found { IsHonest (D.medium disk.old) → IsFoundIn result (D.medium disk.old).contents }
    ensures alone { LeavesAlone D.size D.medium D.counts disk.old disk.new }
{
    let sectors = disk.sectors();
    let Ok(form) = read_form(disk) else {
        return Finding::Unread;
    };
    match look(alloc, disk) {
        Ok(engine) => fitness(alloc, &engine, sectors),
        Err(error) => refusal_of(error, form, sectors),
    }
}

// The form that the first sector of a disk names, if there is one.
fn read_form<D: SectorDisk>(disk: &mut D) -> Result<Format, DiskFault>
    ensures known { IfOk result (λ form. IsFormat form) }
    ensures form { IfOk result (λ form. IsHonest (D.medium disk.old) → 0 < D.size disk.old
        → form ≡ form_at (D.medium disk.old).contents) }
    ensures alone { LeavesAlone D.size D.medium D.counts disk.old disk.new }
{
    let mut first = [0; 512];
    if SUPERBLOCK < disk.sectors() {
        disk.read(SUPERBLOCK, &mut first)?;
    }
    Ok(Format::named(&first))
}

// A disk of so many sectors, of this form, of which a look is refused.
fn refusal_of(error: OpenError, form: Format, sectors: u32) -> Finding
    requires { IsFormat form }
    ensures { result ≡ refusal_of sectors form error }
{
    match error {
        OpenError::NotFormatted => Finding::NotFormatted { sectors },
        OpenError::Version { found } => Finding::Version { found },
        OpenError::Damaged { sector } => Finding::Damaged {
            sector,
            place: place_of(form, sector),
        },
        OpenError::Device => Finding::Unread,
        OpenError::NoMemory => Finding::NoMemory,
    }
}

// A device of so many sectors that stands for the state of a machine.
fn fitness(alloc: Global, engine: &Engine, sectors: u32) -> Finding
    ensures { IsOfMachine result engine.now }
{
    match engine.list(alloc) {
        Ok(rows) => Finding::Fit {
            version: engine.limits().version,
            sectors,
            small: are_small(engine.limits()),
            objects: rows.len(),
        },
        Err(AllocError) => Finding::NoMemory,
    }
}

/// Whether they are the small limits of their version, with any journal.
pub fn are_small(limits: &Limits) -> bool
    ensures { result ≡ true → AreSmall limits.now }
{
    if *limits == Limits::small() {
        return true;
    }
    let large = Limits {
        journal: limits.journal,
        ..Limits::small_of_three()
    };
    *limits == large
}

// Says what was found on a device that nothing keeps `serve` from.
fn say_finding(rt: &impl Print, finding: Finding) -> Result<(), Fault> {
    if println!(rt; "{finding}").is_err() {
        return Err(Fault::Run(ScriptFault::Output));
    }
    verdict_of(finding)
}

// Whether that would be served.
fn verdict_of(finding: Finding) -> Result<(), Fault>
    ensures { result ≡ verdict_of finding }
{
    match finding {
        Finding::Fit { .. } => Ok(()),
        _ => Err(Fault::Unfit),
    }
}

// Says what keeps `serve` from a device, and what is found there, if it may be read.
fn say_obstacle<R: Print + AllocGlobal + Files<File = File>>(
    rt: &R,
    path: &str,
    obstacle: &Obstacle,
) -> Result<(), Fault> {
    if println!(rt; "device fault: {obstacle}").is_err() {
        return Err(Fault::Run(ScriptFault::Output));
    }
    if let Some(finding) = find_in_file(rt, path) {
        if println!(rt; "otherwise {finding}").is_err() {
            return Err(Fault::Run(ScriptFault::Output));
        }
    }
    Err(Fault::Unfit)
}
