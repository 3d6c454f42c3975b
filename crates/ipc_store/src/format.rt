//! The making of a device.

ghost use Rattle.std.specs.Prelude.{◌≡◌, ◌⊎◌, ◌<◌, ◌≤◌, ◌↔◌, ℕ, None, Some};
ghost use Rattle.std.specs.Prelude.{slice_set, OnOk, IsErrOf};
ghost use Rattle.ipc_base.specs.Objects.{Fit};
ghost use Rattle.ipc_limits.specs.declared.limits.BadLimits.{BadLimits as BadLimit};
ghost use Rattle.ipc_disk.specs.Calls.{IsSameDisk, CountsFault, CountsFaultIf};
ghost use Rattle.ipc_disk.specs.Medium.{Image, IsHonest, IsDurable, SetOrNot};
ghost use Rattle.ipc_disk.specs.Since.{EachImageSince};
ghost use Rattle.ipc_state.specs.State.{State, start};
ghost use Rattle.ipc_image.specs.Format.{device_form, format_three, IsJournal, IsOpened};
ghost use Rattle.ipc_image.specs.Saved.{StandForStateIn};
ghost use Rattle.ipc_image.specs.Sizes.{area_in, first_fault, need_in};
ghost use Rattle.ipc_image.specs.Superblock.{AreOf, IsSuperblockIn};
ghost use Rattle.ipc_store.specs.Image.{as_of, own_limits, StandsFor, IsNotFormatted, NamesAll};
ghost use Rattle.ipc_store.specs.Relations.Format.{EachNow, IsErased, IsPrepared};

use crate::fault::FormatError;
use crate::places::{FIRST_EPOCH, as_of, journal_form, journal_range, layout_in};
use crate::store::Store;
use ipc_base::Objects;
use ipc_checkpoint::Checkpoint;
use ipc_disk::{DiskFault, SectorDisk, write_durably};
use ipc_image::{
    Format, SUPERBLOCK, checked_need, start_objects, superblock_is_read, write_superblock,
};
use ipc_journal::Journal;
use ipc_limits::Limits;

impl<D: SectorDisk> Store<D> {
    /// Makes a device of the disk, of the version and with the journal that the limits name: it stands for the first
    /// state under them. All that stood there is lost. A version that is not 3 counts as 2, and a journal that the
    /// version may not have as the nearest that it may. Refused, in this order, for limits that the greatest values of
    /// the version refuse, for those whose area is above 8000000 sectors (field 22), for a disk with fewer sectors than
    /// `need`, and by the disk. A crash leaves the disk as it was, or not formatted, or formatted.
    pub fn format(disk: &mut D, limits: &Limits) -> Result<(), FormatError>
        // Each image that a crash may leave from then on stands for the first state.
        ensures ok { OnOk result (IsHonest (D.medium disk.old) → (image : Image)
            → (D.medium disk.new).images_now image → StandsFor (own_limits limits.now) start image) }
        ensures whole { OnOk result (IsHonest (D.medium disk.old) → EachNow (D.medium disk.new) NamesAll) }
        ensures durable { OnOk result (IsDurable (D.medium disk.new)) }
        // A crash at any moment of the call, also of one that fails.
        ensures any_moment { IsHonest (D.medium disk.old)
            → EachImageSince (D.medium disk.old) (D.medium disk.new)
            (λ image. (D.medium disk.old).images_now image ⊎ IsNotFormatted image
            ⊎ StandsFor (own_limits limits.now) start image) }
        // Refusals, in their order.
        ensures limits { (field : ℕ) → IsErrOf result (FormatError.BadLimits (record { field = field }))
            ↔ (first_fault (device_form limits.now) limits.now ≡ Some field) }
        ensures small { (need : ℕ) → IsErrOf result (FormatError.TooSmall need)
            ↔ ((first_fault (device_form limits.now) limits.now ≡ None)
            × (need ≡ need_in (device_form limits.now) limits.now) × (D.size disk.old < need)) }
        ensures untouched { ((field : ℕ) → IsErrOf result (FormatError.BadLimits (record { field = field }))
            → disk.new ≡ disk.old)
            × ((need : ℕ) → IsErrOf result (FormatError.TooSmall need) → disk.new ≡ disk.old) }
        // Failures and counts.
        ensures same { IsSameDisk D.size D.medium disk.old disk.new }
        ensures counts { CountsFaultIf D.counts (IsErrOf result FormatError.Device) disk.old disk.new }
    {
        let form = Format::of(limits);
        format_as(form, disk, &as_of(form, limits))
    }

    /// Makes a device of version 3 of the disk, with a journal of so many sectors, whatever version and journal the
    /// limits name. It is `format` else.
    pub fn format_large(disk: &mut D, limits: &Limits, journal: u32) -> Result<(), FormatError>
        requires { IsJournal journal }
        // Each image that a crash may leave from then on stands for the first state.
        ensures ok { OnOk result (IsHonest (D.medium disk.old) → (image : Image)
            → (D.medium disk.new).images_now image
            → StandsFor (as_of (format_three journal) limits.now) start image) }
        ensures whole { OnOk result (IsHonest (D.medium disk.old) → EachNow (D.medium disk.new) NamesAll) }
        ensures durable { OnOk result (IsDurable (D.medium disk.new)) }
        // A crash at any moment of the call, also of one that fails.
        ensures any_moment { IsHonest (D.medium disk.old)
            → EachImageSince (D.medium disk.old) (D.medium disk.new)
            (λ image. (D.medium disk.old).images_now image ⊎ IsNotFormatted image
            ⊎ StandsFor (as_of (format_three journal) limits.now) start image) }
        // Refusals, in their order.
        ensures limits { (field : ℕ) → IsErrOf result (FormatError.BadLimits (record { field = field }))
            ↔ (first_fault (format_three journal) limits.now ≡ Some field) }
        ensures small { (need : ℕ) → IsErrOf result (FormatError.TooSmall need)
            ↔ ((first_fault (format_three journal) limits.now ≡ None)
            × (need ≡ need_in (format_three journal) limits.now) × (D.size disk.old < need)) }
        ensures untouched { ((field : ℕ) → IsErrOf result (FormatError.BadLimits (record { field = field }))
            → disk.new ≡ disk.old)
            × ((need : ℕ) → IsErrOf result (FormatError.TooSmall need) → disk.new ≡ disk.old) }
        // Failures and counts.
        ensures same { IsSameDisk D.size D.medium disk.old disk.new }
        ensures counts { CountsFaultIf D.counts (IsErrOf result FormatError.Device) disk.old disk.new }
    {
        let form = Format::three(journal);
        format_as(form, disk, &as_of(form, limits))
    }
}

// Makes a device of this form of the disk, under limits that are of it. Its first state is the one that a machine is
// made with.
fn format_as<D: SectorDisk>(form: Format, disk: &mut D, limits: &Limits) -> Result<(), FormatError>
    requires opened { IsOpened form }
    requires own { limits.now ≡ as_of form limits.now }
    ensures ok { OnOk result (IsHonest (D.medium disk.old) → (image : Image)
        → (D.medium disk.new).images_now image → StandsFor limits.now start image) }
    ensures whole { OnOk result (IsHonest (D.medium disk.old) → EachNow (D.medium disk.new) NamesAll) }
    ensures durable { OnOk result (IsDurable (D.medium disk.new)) }
    ensures any_moment { IsHonest (D.medium disk.old)
        → EachImageSince (D.medium disk.old) (D.medium disk.new)
        (λ image. (D.medium disk.old).images_now image ⊎ IsNotFormatted image
        ⊎ StandsFor limits.now start image) }
    ensures limits { (field : ℕ) → IsErrOf result (FormatError.BadLimits (record { field = field }))
        ↔ (first_fault form limits.now ≡ Some field) }
    ensures small { (need : ℕ) → IsErrOf result (FormatError.TooSmall need)
        ↔ ((first_fault form limits.now ≡ None) × (need ≡ need_in form limits.now) × (D.size disk.old < need)) }
    ensures untouched { ((field : ℕ) → IsErrOf result (FormatError.BadLimits (record { field = field }))
        → disk.new ≡ disk.old)
        × ((need : ℕ) → IsErrOf result (FormatError.TooSmall need) → disk.new ≡ disk.old) }
    ensures same { IsSameDisk D.size D.medium disk.old disk.new }
    ensures counts { CountsFaultIf D.counts (IsErrOf result FormatError.Device) disk.old disk.new }
{
    let need = checked_need(form, limits)?;
    if disk.sectors() < need {
        return Err(FormatError::TooSmall { need });
    }
    make(disk, limits, &start_objects(form))?;
    Ok(())
}

// Makes a device of a disk that is large enough: it stands for the state for which the objects do. The old superblock
// is gone before anything else is written, and the new one comes once the journal and the objects last: no crash leaves
// a superblock with what is not its own.
pub(crate) fn make<D: SectorDisk, O: Objects>(
    disk: &mut D,
    limits: &Limits,
    objects: &O,
) -> Result<(), DiskFault>
    requires of { AreOf (device_form limits.now) limits.now }
    requires room { need_in (device_form limits.now) limits.now ≤ D.size disk.old }
    requires fits { Fit (area_in (device_form limits.now) limits.now) (O.objects objects.now) }
    ensures ok { OnOk result ((s : State)
        → StandForStateIn (device_form limits.now) limits.now s (O.objects objects.now)
        → IsHonest (D.medium disk.old) → EachNow (D.medium disk.new) (StandsFor limits.now s)) }
    ensures whole { OnOk result (IsHonest (D.medium disk.old) → EachNow (D.medium disk.new) NamesAll) }
    ensures durable { OnOk result (IsDurable (D.medium disk.new)) }
    ensures any_moment { (s : State) → StandForStateIn (device_form limits.now) limits.now s (O.objects objects.now)
        → IsHonest (D.medium disk.old)
        → EachImageSince (D.medium disk.old) (D.medium disk.new)
        (λ image. (D.medium disk.old).images_now image ⊎ IsNotFormatted image
        ⊎ StandsFor limits.now s image) }
    ensures same { IsSameDisk D.size D.medium disk.old disk.new }
    ensures counts { CountsFault D.counts result disk.old disk.new }
{
    erase(disk)?;
    prepare(disk, limits, objects)?;
    put_superblock(disk, limits)
}

// The disk is no device any more.
fn erase<D: SectorDisk>(disk: &mut D) -> Result<(), DiskFault>
    requires room { 0 < D.size disk.old }
    ensures erased { OnOk result (IsHonest (D.medium disk.old) → EachNow (D.medium disk.new) IsErased) }
    ensures any_moment { IsHonest (D.medium disk.old)
        → EachImageSince (D.medium disk.old) (D.medium disk.new)
        (λ image. (D.medium disk.old).images_now image ⊎ IsErased image) }
    ensures same { IsSameDisk D.size D.medium disk.old disk.new }
    ensures counts { CountsFault D.counts result disk.old disk.new }
{
    put_durably(disk, SUPERBLOCK, &[0; 512])
}

// Puts an empty journal and the objects where a device has them. The disk stays no device.
fn prepare<D: SectorDisk, O: Objects>(
    disk: &mut D,
    limits: &Limits,
    objects: &O,
) -> Result<(), DiskFault>
    requires of { AreOf (device_form limits.now) limits.now }
    requires room { need_in (device_form limits.now) limits.now ≤ D.size disk.old }
    requires fits { Fit (area_in (device_form limits.now) limits.now) (O.objects objects.now) }
    ensures prepared { OnOk result ((s : State)
        → StandForStateIn (device_form limits.now) limits.now s (O.objects objects.now)
        → IsHonest (D.medium disk.old) → EachNow (D.medium disk.old) IsErased
        → EachNow (D.medium disk.new) (λ image. IsErased image × IsPrepared limits.now s image)) }
    ensures any_moment { IsHonest (D.medium disk.old) → EachNow (D.medium disk.old) IsErased
        → EachImageSince (D.medium disk.old) (D.medium disk.new) IsErased }
    ensures same { IsSameDisk D.size D.medium disk.old disk.new }
    ensures counts { CountsFault D.counts result disk.old disk.new }
{
    let form = Format::of(limits);
    let layout = layout_in(form, limits, disk.sectors());
    Journal::create(disk, journal_form(form), journal_range(form), FIRST_EPOCH)?;
    Checkpoint::create(disk, layout, objects)?;
    Ok(())
}

// The disk becomes a device: its superblock is the last that is written.
pub(crate) fn put_superblock<D: SectorDisk>(disk: &mut D, limits: &Limits) -> Result<(), DiskFault>
    requires of { AreOf (device_form limits.now) limits.now }
    requires room { need_in (device_form limits.now) limits.now ≤ D.size disk.old }
    ensures ok { OnOk result ((s : State) → IsHonest (D.medium disk.old)
        → EachNow (D.medium disk.old) (IsPrepared limits.now s)
        → EachNow (D.medium disk.new) (StandsFor limits.now s)) }
    ensures whole { OnOk result (IsHonest (D.medium disk.old) → EachNow (D.medium disk.new) NamesAll) }
    ensures durable { OnOk result (IsDurable (D.medium disk.new)) }
    ensures any_moment { (s : State) → IsHonest (D.medium disk.old)
        → EachNow (D.medium disk.old) (IsPrepared limits.now s)
        → EachImageSince (D.medium disk.old) (D.medium disk.new)
        (λ image. (D.medium disk.old).images_now image ⊎ StandsFor limits.now s image) }
    ensures same { IsSameDisk D.size D.medium disk.old disk.new }
    ensures counts { CountsFault D.counts result disk.old disk.new }
{
    let sector = superblock_of(disk.sectors(), limits);
    put_durably(disk, SUPERBLOCK, &sector)
}

// The superblock of a device of so many sectors.
fn superblock_of(sectors: u32, limits: &Limits) -> [u8; 512]
    requires of { AreOf (device_form limits.now) limits.now }
    requires room { need_in (device_form limits.now) limits.now ≤ sectors }
    ensures { IsSuperblockIn (device_form limits.now) sectors limits.now result }
{
    superblock_is_read();
    let mut sector = [0; 512];
    write_superblock(&mut sector, Format::of(limits), sectors, limits);
    sector
}

// Writes one sector and makes it last.
fn put_durably<D: SectorDisk>(disk: &mut D, at: u32, sector: &[u8; 512]) -> Result<(), DiskFault>
    requires { at < D.size disk.old }
    ensures written { OnOk result (IsHonest (D.medium disk.old) → EachNow (D.medium disk.new)
        (λ image. image ≡ slice_set (D.medium disk.old).contents at sector.now)) }
    ensures durable { OnOk result (IsDurable (D.medium disk.new)) }
    ensures any_moment { IsHonest (D.medium disk.old)
        → EachImageSince (D.medium disk.old) (D.medium disk.new)
        (SetOrNot at sector.now (D.medium disk.old)) }
    ensures same { IsSameDisk D.size D.medium disk.old disk.new }
    ensures counts { CountsFault D.counts result disk.old disk.new }
{
    write_durably(disk, at, sector)
}
