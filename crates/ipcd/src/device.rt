//! The device of a run, in memory or in a file.

ghost use Rattle.std.specs.Prelude.{◌≡◌, ◌⊎◌, ◌<◌, ◌≤◌, ℕ, Ok, Err, IfOk, IfErr, IfSome};
ghost use Rattle.ipc_limits.specs.declared.limits.Limits.{Limits};
ghost use Rattle.ipc_limits.specs.Limits.{small_of_three, standard_of_three};
ghost use Rattle.ipc_disk.specs.File.{file_size};
ghost use Rattle.ipc_disk.specs.Joined.{disk_under};
ghost use Rattle.ipc_disk.specs.Medium.{IsHonest};
ghost use Rattle.ipc_disk.specs.Memory.{memory_medium};
ghost use Rattle.ipc_image.specs.Format.{device_form, format};
ghost use Rattle.ipc_image.specs.Sizes.{need_in, need_of};
ghost use Rattle.ipc_image.specs.Superblock.{AreOf};
ghost use Rattle.ipc_state.specs.State.{start};
ghost use Rattle.ipc_store.specs.Histories.{Keeps, OpensOn, Past, new_past, reopened};
ghost use Rattle.ipc_store.specs.Image.{form_at, IsAtEnd};
ghost use Rattle.ipc_store.specs.Lives.{StandsAfter};
ghost use Rattle.ipc_store.specs.Refusals.{IsRefusal, IsUpgradeRefusal};
ghost use Rattle.ipc_store.specs.Upgrade.{IsUpgraded};
ghost use Rattle.ipc_store.specs.declared.fault.FormatError.{FormatError};
ghost use Rattle.ipc_store.specs.declared.fault.OpenError.{OpenError};
ghost use Rattle.ipc_store.specs.declared.fault.OpenError.TheVariants as errors;
ghost use Rattle.ipc_store.specs.declared.fault.UpgradeError.{UpgradeError};
ghost use Rattle.ipcd.specs.Ending.{device_fault, of_format_error, of_open_error, of_upgrade_error};
ghost use Rattle.ipcd.specs.declared.ending.Fault.TheVariants.{TooSmall};
ghost use Rattle.ipcd.specs.Device.{sectors_given};

use crate::ending::Fault;
use crate::meter::Meter;
use ipc_command::limits_of;
use ipc_disk::{DiskFault, FileDisk, MemoryDisk, SectorDisk};
use ipc_engine::Engine;
use ipc_image::{Format, need};
use ipc_limits::Limits;
use ipc_script::ScriptFault;
use ipc_store::{Store, an_open_finds_what_stands_there, look};
use std::alloc::Global;
use std::fs::{File, symlink_metadata};
use std::io::IsTerminal;
use std::rt::Files;

/// The limits that a command line asks for: a device of version 2 may have them.
pub fn limits_for(small: bool) -> Limits
    ensures old { AreOf format result }
    ensures own { AreOf (device_form result) result }
{
    limits_of(small)
}

/// The limits that a command line asks for a new device: of version 3 with a journal of so many sectors if that is
/// given, and of version 2 if not.
pub fn new_limits(small: bool, journal: Option<u32>) -> Limits
    ensures { AreOf (device_form result) result }
{
    match journal {
        None => limits_for(small),
        Some(journal) if small => with_journal(Limits::small_of_three(), journal),
        Some(journal) => with_journal(Limits::standard_of_three(), journal),
    }
}

/// These limits, with a journal of so many sectors, or the nearest that a device may have.
fn with_journal(limits: Limits, journal: u32) -> Limits
    requires { (limits ≡ small_of_three) ⊎ (limits ≡ standard_of_three) }
    ensures { AreOf (device_form result) result }
{
    let form = Format::of(&Limits { journal, ..limits });
    Limits {
        journal: form.journal,
        ..limits
    }
}

/// A store over a new device in memory, which has as many sectors as these limits need. Its machine
/// is in the first state.
pub fn new_store(alloc: Global, limits: &Limits) -> Result<Store<MemoryDisk>, Fault>
    requires { AreOf (device_form limits.now) limits.now }
    ensures limits { IfOk result (λ store. store.machine.limits ≡ limits.now) }
    ensures state { IfOk result (λ store. store.machine.state ≡ start) }
    ensures confirmed { IfOk result (λ store. store.confirmed ≡ 1) }
    // No event was there before: its history begins with the restart.
    ensures history { IfOk result (λ store. Keeps (memory_medium store.disk) store
        (reopened (new_past limits.now))) }
    ensures named { IfErr result (λ fault. (error : OpenError) × (fault ≡ of_open_error error)) }
{
    let Ok(mut memory) = MemoryDisk::new(alloc, need(Format::of(limits), limits)) else {
        return Err(Fault::Run(ScriptFault::NoMemory));
    };
    Store::format(&mut memory, limits)?;
    open_store(alloc, memory)
}

/// The store of a device. It goes through a restart as it is opened.
pub fn open_store<D: SectorDisk + Drop>(alloc: Global, disk: D) -> Result<Store<D>, Fault>
    ensures ok { IfOk result (λ store. IsHonest (D.medium disk)
        → OpensOn (D.medium disk).contents (D.medium store.disk) store) }
    ensures confirmed { IfOk result (λ store. store.confirmed ≡ 1) }
    // If the disk stands for the state after some events, they are the history, and then the restart.
    ensures history { IfOk result (λ store. (past : Past) → StandsAfter past (D.medium disk)
        → Keeps (D.medium store.disk) store (reopened past)) }
    ensures refused { IfErr result (λ fault. (error : OpenError) × (fault ≡ of_open_error error)
        × (IsHonest (D.medium disk)
        → IsRefusal (form_at (D.medium disk).contents) (D.medium disk).contents error
        ⊎ (IsAtEnd (D.medium disk).contents
        × (error ≡ errors.Damaged (form_at (D.medium disk).contents).root)))) }
{
    an_open_finds_what_stands_there::<D>();
    match Store::open(alloc, disk) {
        Ok(store) => Ok(store),
        Err(unopened) => Err(Fault::from(unopened.error)),
    }
}

/// Makes a device in a file, of as many sectors as are asked for or as it needs, and answers how
/// many. Too few are refused before the file is touched. How far it is, is said on `errors` if that is
/// a terminal.
pub fn format_file<R: Files<File = File> + AllocGlobal, E: Eprint + IsTerminal>(
    rt: &R,
    errors: &E,
    path: &str,
    limits: &Limits,
    asked: Option<u32>,
) -> Result<u32, Fault>
    requires { AreOf (device_form limits.now) limits.now }
    ensures ok { IfOk result (λ sectors.
        sectors_given (need_in (device_form limits.now) limits.now) asked ≡ Ok sectors) }
    ensures err { IfErr result (λ fault. (fault ≡ device_fault)
        ⊎ (sectors_given (need_in (device_form limits.now) limits.now) asked ≡ Err fault)) }
{
    let sectors = sectors_for(limits, asked)?;
    let mut meter = Meter::new(errors, sectors);
    let made = FileDisk::create_with(rt, path, sectors, &mut meter);
    meter.end();
    let mut disk = made?;
    Store::format(&mut disk, limits)?;
    Ok(sectors)
}

/// How many sectors a new device gets.
fn sectors_for(limits: &Limits, asked: Option<u32>) -> Result<u32, Fault>
    requires { AreOf (device_form limits.now) limits.now }
    ensures { result ≡ sectors_given (need_in (device_form limits.now) limits.now) asked }
{
    let need = need(Format::of(limits), limits);
    match asked {
        None => Ok(need),
        Some(sectors) if sectors < need => Err(Fault::TooSmall { need }),
        Some(sectors) => Ok(sectors),
    }
}

/// Brings the device in a file from version 1 to the version of today, under these limits, and answers how
/// many sectors the file has. If it has fewer than are asked for it grows first, whatever stands there; how
/// far it is then, is said on `errors` if that is a terminal.
pub fn upgrade_file<R: Files<File = File> + AllocGlobal, E: Eprint + IsTerminal>(
    rt: &R,
    errors: &E,
    path: &str,
    limits: &Limits,
    asked: Option<u32>,
) -> Result<u32, Fault>
    requires { AreOf format limits.now }
    ensures ok { IfOk result (λ sectors. IfSome asked (λ least. least ≤ sectors)) }
    ensures named { IfErr result (λ fault. (error : UpgradeError) × (fault ≡ of_upgrade_error error)) }
{
    let opened = match asked {
        Some(sectors) => grow_file(rt, errors, path, sectors),
        None => FileDisk::open(rt, path),
    };
    let disk = opened?;
    let sectors = disk.sectors();
    upgrade_disk(rt.alloc(), disk, limits)?;
    Ok(sectors)
}

/// Brings the device of a disk from version 1 to the version of today, under these limits.
fn upgrade_disk<D: SectorDisk + Drop>(alloc: Global, disk: D, limits: &Limits) -> Result<D, Fault>
    requires { AreOf format limits.now }
    // It stands for the state for which the disk stood, after a restart.
    ensures ok { IfOk result (λ made. IsHonest (D.medium disk)
        → IsUpgraded limits.now (D.medium disk) (D.medium made)) }
    ensures size { IfOk result (λ made. D.size made ≡ D.size disk) }
    ensures refused { IfErr result (λ fault. (error : UpgradeError) × (fault ≡ of_upgrade_error error)
        × (IsHonest (D.medium disk)
        → IsUpgradeRefusal limits.now (D.size disk) (D.medium disk).contents error)) }
    ensures small { IfErr result (λ fault. (need : ℕ) → fault ≡ TooSmall need
        → (need ≡ need_of limits.now) × (D.size disk < need)) }
{
    match Store::upgrade(alloc, disk, limits) {
        Ok(made) => Ok(made),
        Err(unupgraded) => Err(Fault::from(unupgraded.error)),
    }
}

/// The disk in a file, which grows if it has fewer sectors.
fn grow_file<R: Files<File = File> + AllocGlobal, E: Eprint + IsTerminal>(
    rt: &R,
    errors: &E,
    path: &str,
    sectors: u32,
) -> Result<FileDisk, DiskFault>
    ensures { IfOk result (λ disk. sectors ≤ file_size (disk_under disk)) }
{
    let mut meter = Meter::new(errors, sectors);
    let grown = FileDisk::grow_with(rt, path, sectors, &mut meter);
    meter.end();
    grown
}

/// The machine that the device in a file stands for now, and how many sectors the file has. The file is read alone,
/// and may be in use.
pub fn look_at_file<R: Files<File = File> + AllocGlobal>(
    rt: &R,
    path: &str,
) -> Result<(Engine, u32), Fault>
    ensures named { IfErr result (λ fault. (error : OpenError) × (fault ≡ of_open_error error)) }
{
    let mut disk = FileDisk::open_to_read(rt, path)?;
    let engine = look(rt.alloc(), &mut disk)?;
    Ok((engine, disk.sectors()))
}

/// Makes a device, in a new file of as many sectors, that stands for the state for which the device in a file stands
/// now, and answers how many that are. The device is read alone, and may be in use. If anything stands where the copy
/// is to be, nothing is read and nothing written. How far it is, is said on `errors` if that is a terminal.
pub fn copy_file<R: Files<File = File> + AllocGlobal, E: Eprint + IsTerminal>(
    rt: &R,
    errors: &E,
    path: &str,
    copy: &str,
) -> Result<u32, Fault>
    ensures named { IfErr result (λ fault. ((error : OpenError) × (fault ≡ of_open_error error))
        ⊎ ((error : FormatError) × (fault ≡ of_format_error error))) }
{
    if symlink_metadata(rt, copy).is_ok() {
        return Err(Fault::from(DiskFault));
    }
    let (engine, sectors) = look_at_file(rt, path)?;
    put_in_file(rt, errors, copy, &engine, sectors)?;
    Ok(sectors)
}

/// Makes a device of so many sectors in a new file, which stands for the state of a machine.
fn put_in_file<R: Files<File = File> + AllocGlobal, E: Eprint + IsTerminal>(
    rt: &R,
    errors: &E,
    path: &str,
    engine: &Engine,
    sectors: u32,
) -> Result<(), Fault>
    ensures named { IfErr result (λ fault. (error : FormatError) × (fault ≡ of_format_error error)) }
    // If there is room for the machine's device, it is the disk that refuses.
    ensures err { IfErr result (λ fault. need_in (device_form engine.now.limits) engine.now.limits ≤ sectors
        → fault ≡ device_fault) }
{
    let mut meter = Meter::new(errors, sectors);
    let made = FileDisk::create_new_with(rt, path, sectors, &mut meter);
    meter.end();
    let mut disk = made?;
    Store::copy_onto(&mut disk, engine)?;
    Ok(())
}

/// The store of the device in a file.
pub fn open_file<R: Files<File = File> + AllocGlobal>(
    rt: &R,
    path: &str,
) -> Result<Store<FileDisk>, Fault>
    ensures ok { IfOk result (λ store. store.confirmed ≡ 1) }
    ensures named { IfErr result (λ fault. (error : OpenError) × (fault ≡ of_open_error error)) }
{
    open_store(rt.alloc(), FileDisk::open(rt, path)?)
}
