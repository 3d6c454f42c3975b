//! Why a script stopped.

use std::alloc::{AllocError, AllocFailed};
use std::error::Error;
use std::fmt;

/// Why a script stopped. What the lines before it did stands. Its `Display` is the text for the
/// user.
#[derive(Clone, Copy, Debug, PartialEq, Eq)]
pub enum ScriptFault {
    /// Memory was refused.
    NoMemory,
    /// A read failed.
    Input,
    /// A write failed, or took nothing.
    Output,
    /// The disk has failed, or its epochs are at their end. What the connections had to say then is
    /// written.
    Device,
    /// The disk does not begin as a device.
    NotFormatted,
    /// The device is of another version, which it names.
    Version(u32),
    /// The device stands for no state. The fault is first seen in this sector.
    Damaged(u32),
    /// The script has more than 16777216 bytes. Nothing of it was done.
    TooLong,
    /// The line has none of the forms. Lines count from 1.
    BadLine(u64),
    /// The line opens a connection that is open.
    InUse(u64),
    /// The line names a connection that is not open.
    Unknown(u64),
}

impl fmt::Display for ScriptFault {
    ghost use Rattle.std.specs.Prelude.{Some};
    ghost use Rattle.ipc_script.specs.Fault.{fault_text};

    ghost output = { λ fault. Some (fault_text fault) };

    fn fmt<W: fmt::Write>(&self, f: &mut fmt::Formatter<W>) -> fmt::Result {
        match self {
            ScriptFault::NoMemory => write!(f, "no memory"),
            ScriptFault::Input => write!(f, "input fault"),
            ScriptFault::Output => write!(f, "output fault"),
            ScriptFault::Device => write!(f, "device fault"),
            ScriptFault::NotFormatted => write!(f, "not formatted"),
            ScriptFault::Version(found) => write!(f, "version {found}"),
            ScriptFault::Damaged(sector) => write!(f, "damaged sector {sector}"),
            ScriptFault::TooLong => write!(f, "script too long"),
            ScriptFault::BadLine(number) => write!(f, "line {number}: bad line"),
            ScriptFault::InUse(number) => write!(f, "line {number}: connection in use"),
            ScriptFault::Unknown(number) => write!(f, "line {number}: no such connection"),
        }
    }
}

impl Error for ScriptFault {}

impl From<AllocError> for ScriptFault {
    ghost use Rattle.std.specs.Prelude.{◌≡◌};
    ghost use Rattle.ipc_script.specs.declared.fault.ScriptFault.TheVariants.{NoMemory};

    ghost from_gives = { λ _ e. e ≡ NoMemory };

    fn from(_: AllocError) -> Self {
        ScriptFault::NoMemory
    }
}

impl<T: Drop> From<AllocFailed<T>> for ScriptFault {
    ghost use Rattle.std.specs.Prelude.{◌≡◌};
    ghost use Rattle.ipc_script.specs.declared.fault.ScriptFault.TheVariants.{NoMemory};

    ghost from_gives = { λ _ e. e ≡ NoMemory };

    fn from(_: AllocFailed<T>) -> Self {
        ScriptFault::NoMemory
    }
}
