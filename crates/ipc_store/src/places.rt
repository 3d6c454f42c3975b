//! Where the journal and the objects of a device stand, and how they begin.

ghost use Rattle.std.specs.Prelude.{◌≡◌, ◌≤◌};
ghost use Rattle.ipc_image.specs.Format.{device_form, objects_first, IsFormat, IsOpened};
ghost use Rattle.ipc_image.specs.Superblock.{AreOf};
ghost use Rattle.ipc_store.specs.Image.{as_of, journal_form, journal_range, layout_in};
ghost use Rattle.ipc_store.specs.Relations.Loading.{form_for};

use ipc_checkpoint::Layout;
use ipc_disk::Range;
use ipc_engine::Engine;
use ipc_image::{FORMAT, FORMAT_ONE, Format, JOURNAL, area};
use ipc_journal::Form;
use ipc_limits::Limits;

/// The epoch with which a device is made.
pub(crate) const FIRST_EPOCH: u64 = 1;

/// Which devices are read.
#[derive(Clone, Copy)]
pub(crate) enum Versions {
    /// Those of version 1, which become ones of version 2.
    One,
    /// Those of version 2, which become ones of version 3.
    Two,
    /// Those that are opened.
    Opened,
}

impl Versions {
    /// The form of a device with this superblock, if it is one of these.
    pub(crate) fn form(self, sector: &[u8; 512]) -> Format
        ensures is { result ≡ form_for self sector.now }
        ensures known { IsFormat result }
    {
        match self {
            Versions::One => FORMAT_ONE,
            Versions::Two => FORMAT,
            Versions::Opened => Format::named(sector),
        }
    }
}

/// Limits as those of a device of this form.
pub(crate) fn as_of(form: Format, limits: &Limits) -> Limits
    ensures { result ≡ as_of form limits.now }
{
    Limits {
        version: form.version,
        journal: form.journal,
        ..*limits
    }
}

/// The form of the device of a machine.
pub(crate) fn form_of(engine: &Engine) -> Format
    ensures is { result ≡ device_form engine.now.limits }
    ensures opened { IsOpened result }
    ensures known { IsFormat result }
{
    Format::of(engine.limits())
}

/// The form of the journal.
pub(crate) fn journal_form(form: Format) -> Form
    ensures { result ≡ journal_form form }
{
    if form.tags {
        Form::Tagged
    } else {
        Form::Headed
    }
}

/// The sectors of the journal.
pub(crate) fn journal_range(form: Format) -> Range
    ensures { result ≡ journal_range form }
{
    Range {
        first: JOURNAL,
        count: form.journal,
    }
}

/// Where the objects of a device of so many sectors lie.
pub(crate) fn layout_in(form: Format, limits: &Limits, sectors: u32) -> Layout
    requires known { IsFormat form }
    requires of { AreOf form limits.now }
    requires least { objects_first form ≤ sectors }
    ensures exact { result ≡ layout_in form limits.now sectors }
    ensures bounded { result.area ≤ 8000000 }
{
    Layout {
        range: Range {
            first: form.objects(),
            count: sectors - form.objects(),
        },
        root: form.root,
        area: area(form, limits),
    }
}
