//! Why a call was not tried, or what it did that it must not.

use ipc_disk::DiskFault;
use ipc_hub::{ConnectError, ServeError};
use ipc_store::{CommitError, FormatError, OpenError, UpgradeError};
use std::alloc::{AllocError, AllocFailed};
use std::fmt;

/// Why a call was not tried, or what it did that it must not.
#[derive(Clone, Copy)]
pub(crate) enum Fault {
    Usage,
    Input,
    Output,
    NoMemory,
    /// What the call is made on cannot be made, or is not as it was made.
    Unready,
    /// A call that was refused has changed its object.
    NotAsBefore,
    /// It is refused again, though memory is there.
    RefusedAgain,
}

impl Fault {
    fn name(&self) -> &'static str {
        match self {
            Fault::Usage => "usage: refusals [NAME], a name that `refusals` prints",
            Fault::Input => "the input cannot be read",
            Fault::Output => "output fault",
            Fault::NoMemory => "no memory",
            Fault::Unready => "what the call is made on is not ready for it",
            Fault::NotAsBefore => "a call that was refused has changed its object",
            Fault::RefusedAgain =>
                "a call that was refused is refused again, though memory is there",
        }
    }
}

impl fmt::Display for Fault {
    fn fmt<W: fmt::Write>(&self, f: &mut fmt::Formatter<W>) -> fmt::Result {
        f.write_str(self.name())
    }
}

impl From<AllocError> for Fault {
    fn from(_: AllocError) -> Self {
        Fault::NoMemory
    }
}

impl<T: Drop> From<AllocFailed<T>> for Fault {
    fn from(_: AllocFailed<T>) -> Self {
        Fault::NoMemory
    }
}

impl From<DiskFault> for Fault {
    fn from(_: DiskFault) -> Self {
        Fault::Unready
    }
}

impl From<ConnectError> for Fault {
    fn from(error: ConnectError) -> Self {
        match error {
            ConnectError::NoMemory => Fault::NoMemory,
            ConnectError::Stopped | ConnectError::InUse => Fault::Unready,
        }
    }
}

impl From<ServeError> for Fault {
    fn from(_: ServeError) -> Self {
        Fault::Unready
    }
}

impl From<CommitError> for Fault {
    fn from(_: CommitError) -> Self {
        Fault::Unready
    }
}

impl From<FormatError> for Fault {
    fn from(_: FormatError) -> Self {
        Fault::Unready
    }
}

impl From<OpenError> for Fault {
    fn from(error: OpenError) -> Self {
        match error {
            OpenError::NoMemory => Fault::NoMemory,
            _ => Fault::Unready,
        }
    }
}

impl From<UpgradeError> for Fault {
    fn from(error: UpgradeError) -> Self {
        match error {
            UpgradeError::NoMemory => Fault::NoMemory,
            _ => Fault::Unready,
        }
    }
}
