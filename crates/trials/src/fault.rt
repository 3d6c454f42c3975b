//! Why a trial ends early.

use crate::told::{filled, write_told};
use ipc_disk::DiskFault;
use ipc_hub::{ConnectError, ServeError};
use ipc_script::ScriptFault;
use ipc_store::{CommitError, FormatError, OpenError, UpgradeError};
use std::alloc::{AllocError, AllocFailed};
use std::fmt;

/// Why a trial ends early: what it was asked, what the system refused, or a case that must not be.
#[derive(Clone, Copy)]
pub(crate) enum Fault {
    Usage,
    /// The input cannot be read, or has no line `-`.
    Input,
    Output,
    NoMemory,
    /// The disk has failed.
    Device,
    NotFormatted,
    /// A device of another version than one that is opened, or upgraded.
    Version(u32),
    /// A run that nothing stops fails.
    Script(ScriptFault),
    /// A device that is no longer one, or has another state than it must have.
    Unopened,
    /// A call of a hub that nothing stops.
    Unserved,
    /// The limits of a device are none.
    Unready,
    /// There are more stops than a run can have.
    NoEnd,
    /// A case that must not be: what is wrong, in words of which each `#` stands for one of the numbers.
    Case(&'static str, [u64; 4]),
}

impl Fault {
    /// A case that must not be, in words in which up to four numbers stand.
    pub(crate) fn case(words: &'static str, numbers: &[u64]) -> Fault {
        Fault::Case(words, filled(numbers))
    }

    /// What it is called, if it is no case.
    fn name(&self) -> &'static str {
        match self {
            Fault::Usage =>
                "usage: trials WORD, one of stopped N, faulted N, upgraded N, batch and script",
            Fault::Input => "the input cannot be read, or has no line `-`",
            Fault::Output => "output fault",
            Fault::NoMemory => "no memory",
            Fault::Device => "device fault",
            Fault::NotFormatted => "not formatted",
            Fault::Version(_) => "a device of another version",
            Fault::Script(_) => "a run that nothing stops fails",
            Fault::Unopened => "a device that cannot be opened",
            Fault::Unserved => "a hub serves its clients no more",
            Fault::Unready => "limits that no device has",
            Fault::NoEnd => "no end of the stops",
            Fault::Case(words, _) => words,
        }
    }
}

impl fmt::Display for Fault {
    fn fmt<W: fmt::Write>(&self, f: &mut fmt::Formatter<W>) -> fmt::Result {
        match self {
            Fault::Script(fault) => write!(f, "{}: {fault}", self.name()),
            Fault::Case(words, numbers) => write_told(f, words, numbers),
            _ => f.write_str(self.name()),
        }
    }
}

impl From<AllocError> for Fault {
    fn from(_: AllocError) -> Self {
        Fault::NoMemory
    }
}

impl<T: Drop> From<AllocFailed<T>> for Fault {
    fn from(_: AllocFailed<T>) -> Self {
        Fault::NoMemory
    }
}

impl From<DiskFault> for Fault {
    fn from(_: DiskFault) -> Self {
        Fault::Device
    }
}

impl From<ConnectError> for Fault {
    fn from(error: ConnectError) -> Self {
        match error {
            ConnectError::NoMemory => Fault::NoMemory,
            ConnectError::Stopped | ConnectError::InUse => Fault::Unserved,
        }
    }
}

impl From<ServeError> for Fault {
    fn from(error: ServeError) -> Self {
        match error {
            ServeError::Device => Fault::Device,
            ServeError::Stopped | ServeError::Unknown => Fault::Unserved,
        }
    }
}

impl From<CommitError> for Fault {
    fn from(error: CommitError) -> Self {
        Fault::from(ServeError::from(error))
    }
}

impl From<ScriptFault> for Fault {
    fn from(fault: ScriptFault) -> Self {
        match fault {
            ScriptFault::NoMemory => Fault::NoMemory,
            ScriptFault::Device => Fault::Device,
            ScriptFault::NotFormatted => Fault::NotFormatted,
            _ => Fault::Script(fault),
        }
    }
}

impl From<OpenError> for Fault {
    fn from(error: OpenError) -> Self {
        match error {
            OpenError::NoMemory => Fault::NoMemory,
            OpenError::Device => Fault::Device,
            OpenError::NotFormatted => Fault::NotFormatted,
            OpenError::Version { found } => Fault::Version(found),
            _ => Fault::Unopened,
        }
    }
}

impl From<FormatError> for Fault {
    fn from(error: FormatError) -> Self {
        match error {
            FormatError::Device => Fault::Device,
            _ => Fault::Unopened,
        }
    }
}

impl From<UpgradeError> for Fault {
    fn from(error: UpgradeError) -> Self {
        match error {
            UpgradeError::NoMemory => Fault::NoMemory,
            UpgradeError::Device => Fault::Device,
            UpgradeError::NotFormatted => Fault::NotFormatted,
            UpgradeError::Version { found } => Fault::Version(found),
            _ => Fault::Unopened,
        }
    }
}
