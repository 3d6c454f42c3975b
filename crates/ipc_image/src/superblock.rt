//! The superblock: written, and read.

ghost use Rattle.std.specs.Prelude.{◌≡◌, ◌≤◌, ◌<◌, ◌+◌, ◌↔◌, ℕ, List, Some, take};
ghost use Rattle.std.specs.Prelude.{Ok, IfOk, IfSome, IsErrOf, true, false};
ghost use Rattle.std.specs.Int.{w32, to_be_bytes};
ghost use Rattle.std.specs.List.{flat_map};
ghost use Rattle.ipc_limits.specs.Limits.{ArePassed};
ghost use Rattle.ipc_limits.specs.declared.limits.Limits.{Limits as AnyLimits};
ghost use Rattle.ipc_image.specs.Superblock.{
  superblock_fields,
  superblock_bytes,
  IsFormatted,
  version_in,
  number_in,
  limit_in,
  is_of,
  named_form,
  AreOf,
  IsSuperblockIn,
  named_length,
};
ghost use Rattle.ipc_image.specs.Format.{IsFormat, IsOpened};
ghost use Rattle.ipc_image.specs.Relations.Superblocks.{limits_in};
ghost use Rattle.ipc_base.specs.Numbers.{record_bytes};

use crate::fault::SuperblockFault;
use crate::fields::put_fields;
use crate::format::Format;
use crate::places::JOURNAL;
use crate::sizes::checked_need;
use crate::window::Window;
use ipc_base::Field;
use ipc_limits::Limits;

/// How a superblock begins.
const MAGIC: &[u8; 8] = b"IPCSTORE";

/// How many numbers follow before the limits: the version, and six of the device.
const NUMBERS: usize = 7;

/// How many follow at most, with the limits.
const FIELDS: usize = 29;

/// What a superblock says beside the form of the device: how many sectors the device has, and its limits.
#[derive(Clone, Copy, Debug, PartialEq, Eq)]
pub struct Superblock {
    /// The sectors of the device. The disk may have more.
    pub sectors: u32,
    /// The limits of the server whose state it keeps.
    pub limits: Limits,
}

/// Makes the sector the superblock of a device of that form, of so many sectors, with these limits. It tests neither:
/// if the greatest values of the version or 8000000 sectors of an area refuse the limits, or the sectors are fewer
/// than `need`, the sector is read as `Damaged`.
pub fn write_superblock(into: &mut [u8; 512], form: Format, sectors: u32, limits: &Limits)
    requires { IsFormat form }
    ensures { into.new ≡ superblock_bytes form sectors limits.now }
{
    *into = superblock_of(form, sectors, limits);
}

/// The superblock of such a device.
fn superblock_of(form: Format, sectors: u32, limits: &Limits) -> [u8; 512]
    requires { IsFormat form }
    ensures { result ≡ superblock_bytes form sectors limits.now }
{
    let mut window = Window::new(0);
    window.put(MAGIC);
    put_fields(
        &mut window,
        &fields_of(form, sectors, limits)[..NUMBERS + form.limits as usize],
    );
    window.finish()
}

impl Format {
    /// The form of the device that a sector is of, if it is opened: that of version 3, with the journal that it names,
    /// if the sector names this version, else that of version 2. A device of another version is refused by
    /// `read_superblock` of either, and so is one that names a journal of fewer than 8 or more than 65535 sectors:
    /// its form has the nearest of these.
    #[tactic(auto, unfolding(crate::specs::Superblock::named_form))]
    pub fn named(sector: &[u8; 512]) -> Format
        ensures is { result ≡ named_form sector.now }
        ensures opened { IsOpened result }
        ensures known { IsFormat result }
    {
        Format::opened(number_at(sector, 0), number_at(sector, 3))
    }
}

/// The superblock of a device of that form on a disk of so many sectors, from sector 0. The device may have fewer.
/// Bytes without a meaning are not looked at. Limits that the version lacks are 1. A device with features that are not
/// known is `Version`, too. A disk of fewer than three sectors is `NotFormatted` too: a caller tests that before it
/// reads.
pub fn read_superblock(
    form: Format,
    sector: &[u8; 512],
    sectors: u32,
) -> Result<Superblock, SuperblockFault>
    requires { IsFormat form }
    ensures ok { IfOk result (λ found. IsSuperblockIn form found.sectors found.limits sector.now) }
    ensures room { IfOk result (λ found. found.sectors ≤ sectors) }
    ensures only { (named : ℕ) (limits : AnyLimits) → named ≤ sectors → IsSuperblockIn form named limits sector.now
        → result ≡ Ok (record { sectors = named; limits = limits }) }
    ensures passed { IfOk result (λ found. ArePassed found.limits) }
    ensures of { IfOk result (λ found. AreOf form found.limits) }
    // Which fault it is: the first of these.
    ensures not_formatted { IsErrOf result SuperblockFault.NotFormatted
        ↔ (¬ IsFormatted sector.now) }
    ensures version { (found : ℕ) → IsErrOf result (SuperblockFault.Version found)
        ↔ (IsFormatted sector.now × (version_in sector.now ≡ found) × (is_of form sector.now ≡ false)) }
    ensures damaged { IsErrOf result SuperblockFault.Damaged
        ↔ (IsFormatted sector.now × (is_of form sector.now ≡ true)
        × ((named : ℕ) (limits : AnyLimits) → named ≤ sectors → ¬ IsSuperblockIn form named limits sector.now)) }
{
    if !sector.starts_with(MAGIC) {
        return Err(SuperblockFault::NotFormatted);
    }
    if !is_of(form, sector) {
        let found = number_at(sector, 0);
        return Err(SuperblockFault::Version { found });
    }
    superblock_in(form, sector, sectors).ok_or(SuperblockFault::Damaged)
}

/// Whether the sector is of a device of that version, without features that are not known.
fn is_of(form: Format, sector: &[u8; 512]) -> bool
    requires { IsFormat form }
    ensures { result ≡ is_of form sector.now }
{
    let features = if form.version >= 3 {
        number_at(sector, NUMBERS + form.limits as usize)
    } else {
        0
    };
    number_at(sector, 0) == form.version && features == 0
}

/// The superblock that the sector is, of a device of no more than so many sectors.
fn superblock_in(form: Format, sector: &[u8; 512], sectors: u32) -> Option<Superblock>
    requires known { IsFormat form }
    requires of { is_of form sector.now ≡ true }
    ensures some { IfSome result (λ found. IsSuperblockIn form found.sectors found.limits sector.now) }
    ensures room { IfSome result (λ found. found.sectors ≤ sectors) }
    ensures only { (named : ℕ) (limits : AnyLimits) → named ≤ sectors → IsSuperblockIn form named limits sector.now
        → result ≡ Some (record { sectors = named; limits = limits }) }
{
    let found = Superblock {
        sectors: number_at(sector, 1),
        limits: limits_in(form, sector),
    };
    if found.sectors > sectors || !is_superblock(form, sector, &found) {
        return None;
    }
    Some(found)
}

/// Whether the sector is the superblock that its numbers make of it.
fn is_superblock(form: Format, sector: &[u8; 512], found: &Superblock) -> bool
    requires known { IsFormat form }
    requires of { is_of form sector.now ≡ true }
    requires version { found.now.limits.version ≡ form.version }
    requires journal { found.now.limits.journal ≡ form.journal }
    ensures { result ≡ true ↔ IsSuperblockIn form found.now.sectors found.now.limits sector.now }
{
    let again = superblock_of(form, found.sectors, &found.limits);
    if named_bytes(form, &again) != named_bytes(form, sector) {
        return false;
    }
    match checked_need(form, &found.limits) {
        Ok(need) => need <= found.sectors,
        Err(_) => false,
    }
}

/// The bytes of a superblock that are compared.
fn named_bytes(form: Format, sector: &[u8; 512]) -> &[u8]
    requires { IsFormat form }
    ensures { result.now ≡ take (named_length form) sector.now }
{
    &sector[..36 + 4 * form.limits as usize]
}

/// One of the numbers of a superblock.
fn number_at(sector: &[u8; 512], place: usize) -> u32
    requires { place < 126 }
    ensures { result ≡ number_in place sector.now }
{
    let at = 8 + 4 * place;
    let mut number = [0; 4];
    number.copy_from_slice(&sector[at..at + 4]);
    u32::from_be_bytes(number)
}

/// One of its limits; 1 if the version has it not.
fn limit_at(form: Format, sector: &[u8; 512], place: u32) -> u32
    requires { place < 22 }
    ensures { result ≡ limit_in form place sector.now }
{
    if place < form.limits {
        number_at(sector, NUMBERS + place as usize)
    } else {
        1
    }
}

/// The numbers of a superblock. A version with fewer limits has the first of these.
fn fields_of(form: Format, sectors: u32, limits: &Limits) -> [Field; FIELDS]
    requires { IsFormat form }
    ensures { record_bytes (take (7 + form.limits) result)
        ≡ flat_map (to_be_bytes w32) (superblock_fields form sectors limits.now) }
{
    let objects = form.objects();
    [
        Field::U32(form.version),
        Field::U32(sectors),
        Field::U32(JOURNAL),
        Field::U32(form.journal),
        Field::U32(objects),
        Field::U32(sectors.saturating_sub(objects)),
        Field::U32(form.root),
        Field::U32(limits.processes),
        Field::U32(limits.msgmni),
        Field::U32(limits.msgmax),
        Field::U32(limits.msgmnb),
        Field::U32(limits.semmni),
        Field::U32(limits.semmsl),
        Field::U32(limits.semmns),
        Field::U32(limits.semopm),
        Field::U32(limits.queues),
        Field::U32(limits.maxmsg),
        Field::U32(limits.msgsize),
        Field::U32(limits.named_semaphores),
        Field::U32(limits.segments),
        Field::U32(limits.segment_bytes),
        Field::U32(limits.call_bytes),
        Field::U32(limits.descriptors),
        Field::U32(limits.shmmni),
        Field::U32(limits.shmmax),
        Field::U32(limits.shmall),
        Field::U32(limits.msgqlen),
        Field::U32(limits.semume),
        Field::U32(limits.queue_bytes),
    ]
}

/// The limits that a sector names. Those that the version lacks are 1.
fn limits_in(form: Format, sector: &[u8; 512]) -> Limits
    requires { IsFormat form }
    ensures { result ≡ limits_in form sector.now }
{
    Limits {
        version: form.version,
        journal: form.journal,
        processes: limit_at(form, sector, 0),
        msgmni: limit_at(form, sector, 1),
        msgmax: limit_at(form, sector, 2),
        msgmnb: limit_at(form, sector, 3),
        semmni: limit_at(form, sector, 4),
        semmsl: limit_at(form, sector, 5),
        semmns: limit_at(form, sector, 6),
        semopm: limit_at(form, sector, 7),
        queues: limit_at(form, sector, 8),
        maxmsg: limit_at(form, sector, 9),
        msgsize: limit_at(form, sector, 10),
        named_semaphores: limit_at(form, sector, 11),
        segments: limit_at(form, sector, 12),
        segment_bytes: limit_at(form, sector, 13),
        call_bytes: limit_at(form, sector, 14),
        descriptors: limit_at(form, sector, 15),
        shmmni: limit_at(form, sector, 16),
        shmmax: limit_at(form, sector, 17),
        shmall: limit_at(form, sector, 18),
        msgqlen: limit_at(form, sector, 19),
        semume: limit_at(form, sector, 20),
        queue_bytes: limit_at(form, sector, 21),
    }
}
