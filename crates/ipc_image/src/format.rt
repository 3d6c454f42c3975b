//! The form of a device.

ghost use Rattle.std.specs.Prelude.{◌≡◌};
ghost use Rattle.ipc_image.specs.Format.{
  device_form,
  format_three,
  has_bounds,
  has_shms,
  objects_first,
  opened_form,
  IsFormat,
  IsJournal,
  IsOpened,
};

use crate::places::JOURNAL;
use ipc_limits::{Limits, STANDARD, STANDARD_OF_THREE};
use ipc_wire::GREATEST_LENGTH;

/// What a version of the device fixes, and the length of the journal.
#[derive(Clone, Copy)]
pub struct Format {
    /// The version, as the superblock names it.
    pub version: u32,
    /// The sector of the root.
    pub root: u32,
    /// Sectors of the journal.
    pub journal: u32,
    /// How many limits the superblock has.
    pub limits: u32,
    /// How many kinds of objects have a next number.
    pub numbers: u32,
    /// The most bytes of a request, without its length.
    pub request: u32,
    /// The most bytes of a batch of events, with its length.
    pub batch: u32,
    /// The greatest values of its limits, by which they are tested; 1 for those that it lacks.
    pub most: Limits,
    /// Whether a message queue has a next token, and each message how often it was taken, and by which token, by whom
    /// and when if it is.
    pub marks: bool,
    /// Whether each sector of the journal says where it belongs. If so the journal has no header.
    pub tags: bool,
}

/// The one of the devices that are made if no other is asked for.
pub const FORMAT: Format = Format {
    version: 2,
    root: 2,
    journal: 257,
    limits: 19,
    numbers: 6,
    request: GREATEST_LENGTH,
    batch: 131072,
    most: STANDARD,
    marks: false,
    tags: false,
};

/// The one before it, of the devices that can be upgraded.
pub const FORMAT_ONE: Format = Format {
    version: 1,
    root: 1,
    journal: 257,
    limits: 16,
    numbers: 5,
    request: 8448,
    batch: 32768,
    most: Limits {
        version: 1,
        msgmni: 32,
        msgmax: 8192,
        msgmnb: 16384,
        shmmni: 1,
        shmmax: 1,
        shmall: 1,
        ..STANDARD
    },
    marks: false,
    tags: false,
};

impl Format {
    /// The last one, whose journal takes one sync a commit: that of a device whose journal has so many sectors, 8 to
    /// 65535.
    pub fn three(journal: u32) -> Format
        requires { IsJournal journal }
        ensures is { result ≡ format_three journal }
        ensures known { IsFormat result }
    {
        Format {
            version: 3,
            root: 1,
            journal,
            limits: 22,
            numbers: 6,
            request: GREATEST_LENGTH,
            batch: 131072,
            most: STANDARD_OF_THREE,
            marks: true,
            tags: true,
        }
    }

    /// The one of a device that is opened, by the version and the journal that it names. The journal of version 3 has
    /// 8 to 65535 sectors: another number counts as the nearest of these.
    pub(crate) fn opened(version: u32, journal: u32) -> Format
        ensures is { result ≡ opened_form version journal }
        ensures opened { IsOpened result }
        ensures known { IsFormat result }
    {
        if version == 3 {
            Format::three(journal.clamp(8, 65535))
        } else {
            FORMAT
        }
    }

    /// The one of a device whose server has these limits. Another version than 3 counts as 2, and another number of
    /// sectors than a journal of version 3 may have as the nearest of 8 to 65535.
    #[tactic(auto, unfolding(crate::specs::Format::device_form))]
    pub fn of(limits: &Limits) -> Format
        ensures is { result ≡ device_form limits.now }
        ensures opened { IsOpened result }
        ensures known { IsFormat result }
    {
        Format::opened(limits.version, limits.journal)
    }

    /// The first sector of the object area. It goes on to the end of the device.
    pub fn objects(self) -> u32
        requires { IsFormat self }
        ensures { result ≡ objects_first self }
    {
        JOURNAL + self.journal
    }

    /// Whether the version has System V segments, the sixth kind of objects.
    pub(crate) fn has_shms(self) -> bool
        ensures { result ≡ has_shms self }
    {
        self.numbers == 6
    }

    /// Whether it has limits on the messages of a queue, the adjustments of a process, and the bytes of all POSIX
    /// queues.
    pub(crate) fn has_bounds(self) -> bool
        ensures { result ≡ has_bounds self }
    {
        self.limits == 22
    }
}

/// The most bytes of the record of an event: one of a call has 17 beside its request.
pub const LONGEST_RECORD: u32 = 17 + FORMAT.request;
