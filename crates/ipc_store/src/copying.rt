//! A device that stands for the state of a machine: a copy.

ghost use Rattle.std.specs.Prelude.{◌≡◌, ◌⊎◌, ◌<◌, ◌↔◌, ℕ, None, Some, OnOk, IfOk, IfErr, IsErrOf};
ghost use Rattle.ipc_disk.specs.Calls.{IsSameDisk, CountsFaultIf};
ghost use Rattle.ipc_disk.specs.Medium.{Image, IsHonest, IsDurable};
ghost use Rattle.ipc_disk.specs.Since.{EachImageSince};
ghost use Rattle.ipc_image.specs.Format.{device_form, IsFormat};
ghost use Rattle.ipc_image.specs.Sizes.{need_in};
ghost use Rattle.ipc_image.specs.Superblock.{AreOf};
ghost use Rattle.ipc_store.specs.Image.{names_form, own_fault, StandsFor, IsNotFormatted, NamesAll};
ghost use Rattle.ipc_store.specs.Relations.Format.{EachNow};

use crate::fault::FormatError;
use crate::format::make;
use crate::places::form_of;
use crate::store::Store;
use ipc_disk::SectorDisk;
use ipc_engine::Engine;
use ipc_image::{Format, checked_need, objects_of};
use ipc_limits::{BadLimits, Limits};

/// The field of a fault that tells of the version and the journal: after those of the limits and that of the area.
const VERSION_FIELD: u32 = 23;

impl<D: SectorDisk> Store<D> {
    /// Makes a device of the disk, of the machine's version, limits and journal. It stands for the state of the
    /// machine, and all that stood there is lost. Refused, in this order, for limits that the greatest values of the
    /// version refuse, for those whose area is above 8000000 sectors (field 22), for a version or a journal that no
    /// device that is opened has (field 23), for a disk with fewer sectors than `need`, and by the disk. A crash leaves
    /// the disk as it was, or not formatted, or a device that stands for that state.
    pub fn copy_onto(disk: &mut D, engine: &Engine) -> Result<(), FormatError>
        // Each image that a crash may leave from then on stands for that state.
        ensures ok { OnOk result (IsHonest (D.medium disk.old) → (image : Image)
            → (D.medium disk.new).images_now image → StandsFor engine.now.limits engine.now.state image) }
        ensures whole { OnOk result (IsHonest (D.medium disk.old) → EachNow (D.medium disk.new) NamesAll) }
        ensures durable { OnOk result (IsDurable (D.medium disk.new)) }
        // A crash at any moment of the call, also of one that fails.
        ensures any_moment { IsHonest (D.medium disk.old)
            → EachImageSince (D.medium disk.old) (D.medium disk.new)
            (λ image. (D.medium disk.old).images_now image ⊎ IsNotFormatted image
            ⊎ StandsFor engine.now.limits engine.now.state image) }
        // Refusals, in their order. The machine of a device has none of the first.
        ensures limits { (field : ℕ) → IsErrOf result (FormatError.BadLimits (record { field = field }))
            ↔ (own_fault engine.now.limits ≡ Some field) }
        ensures small { (need : ℕ) → IsErrOf result (FormatError.TooSmall need)
            ↔ ((own_fault engine.now.limits ≡ None)
            × (need ≡ need_in (device_form engine.now.limits) engine.now.limits) × (D.size disk.old < need)) }
        ensures untouched { ((field : ℕ) → IsErrOf result (FormatError.BadLimits (record { field = field }))
            → disk.new ≡ disk.old)
            × ((need : ℕ) → IsErrOf result (FormatError.TooSmall need) → disk.new ≡ disk.old) }
        // Failures and counts.
        ensures same { IsSameDisk D.size D.medium disk.old disk.new }
        ensures counts { CountsFaultIf D.counts (IsErrOf result FormatError.Device) disk.old disk.new }
    {
        let limits = engine.limits();
        let form = form_of(engine);
        let need = own_need(form, limits)?;
        if disk.sectors() < need {
            return Err(FormatError::TooSmall { need });
        }
        make(disk, limits, &objects_of(engine, form))?;
        Ok(())
    }
}

// Whether limits name this form.
fn names_form(form: Format, limits: &Limits) -> bool
    ensures { result ≡ names_form form limits.now }
{
    limits.version == form.version && limits.journal == form.journal
}

// The sectors that a device of a machine has at least, if its limits are those of a device of that form.
fn own_need(form: Format, limits: &Limits) -> Result<u32, BadLimits>
    requires own { form ≡ device_form limits.now }
    requires known { IsFormat form }
    ensures of { OnOk result (AreOf form limits.now) }
    ensures exact { IfOk result (λ need. need ≡ need_in form limits.now) }
    ensures fault { IfErr result (λ fault. own_fault limits.now ≡ Some fault.field) }
    ensures none { OnOk result (own_fault limits.now ≡ None) }
{
    let need = checked_need(form, limits)?;
    if !names_form(form, limits) {
        return Err(BadLimits {
            field: VERSION_FIELD,
        });
    }
    Ok(need)
}
