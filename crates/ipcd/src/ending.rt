//! How a run ends: the exit status, and what is said of a fault.

ghost use Rattle.std.specs.Prelude.{◌≡◌, Some};
ghost use Rattle.ipcd.specs.Ending.{exit_status, complaint_text, of_open_error, of_format_error};
ghost use Rattle.ipcd.specs.Ending.{of_upgrade_error};
ghost use Rattle.ipcd.specs.Ending.{of_dump_error, of_server_error, of_serve_fault, device_fault};
ghost use Rattle.ipcd.specs.declared.ending.Fault.TheVariants.{Run};

use ipc_disk::DiskFault;
use ipc_limits::BadLimits;
use ipc_script::{DumpError, ScriptFault};
use ipc_server::{ServeFault, ServerError};
use ipc_store::{FormatError, OpenError, UpgradeError};
use std::fmt;

/// Why a command did not do all that it was asked for. Its `Display` is what standard error says: the
/// program's name, and the fault's text.
#[derive(Clone, Copy)]
pub enum Fault {
    /// What may end a script: a fault of memory, of a stream or of a device, or a line that is wrong.
    Run(ScriptFault),
    /// A device is to have at least so many sectors.
    TooSmall { need: u32 },
    /// The limits fail at a field, counted from 0, or a device has more there already.
    BadLimits { field: u32 },
    /// The socket cannot be made, or cannot be waited for.
    Socket,
    /// The device that is checked would not be served. Why, is said already.
    Unfit,
}

/// The exit status: 0 without a fault, 1 if the world failed or the device is not fit for the command, 2
/// if the script is wrong.
pub fn exit_of(outcome: &Result<(), Fault>) -> u8
    ensures { result ≡ exit_status outcome.now }
{
    match outcome {
        Ok(()) => 0,
        Err(
            Fault::TooSmall { .. }
            | Fault::BadLimits { .. }
            | Fault::Socket
            | Fault::Unfit
            | Fault::Run(
                ScriptFault::NoMemory
                | ScriptFault::Input
                | ScriptFault::Output
                | ScriptFault::Device
                | ScriptFault::NotFormatted
                | ScriptFault::Version(_)
                | ScriptFault::Damaged(_),
            ),
        ) => 1,
        Err(
            Fault::Run(
                ScriptFault::TooLong
                | ScriptFault::BadLine(_)
                | ScriptFault::InUse(_)
                | ScriptFault::Unknown(_),
            ),
        ) => 2,
    }
}

impl fmt::Display for Fault {
    ghost output = { λ fault. Some (complaint_text fault) };

    fn fmt<W: fmt::Write>(&self, f: &mut fmt::Formatter<W>) -> fmt::Result {
        match self {
            Fault::Run(fault) => write!(f, "ipcd: {fault}"),
            Fault::TooSmall { need } => write!(f, "ipcd: too small, {need} sectors needed"),
            Fault::BadLimits { field } => write!(f, "ipcd: bad limits {field}"),
            Fault::Socket => write!(f, "ipcd: socket fault"),
            Fault::Unfit => write!(f, "ipcd: not to be served"),
        }
    }
}

impl From<ScriptFault> for Fault {
    ghost from_gives = { λ fault e. e ≡ Run fault };

    fn from(fault: ScriptFault) -> Self {
        Fault::Run(fault)
    }
}

impl From<ServerError> for Fault {
    ghost from_gives = { λ error e. e ≡ of_server_error error };

    fn from(error: ServerError) -> Self {
        match error {
            ServerError::NoMemory => Fault::Run(ScriptFault::NoMemory),
            ServerError::Socket => Fault::Socket,
        }
    }
}

impl From<ServeFault> for Fault {
    ghost from_gives = { λ fault e. e ≡ of_serve_fault fault };

    fn from(fault: ServeFault) -> Self {
        match fault {
            ServeFault::Device | ServeFault::Stopped => Fault::Run(ScriptFault::Device),
            ServeFault::Socket => Fault::Socket,
        }
    }
}

impl From<DiskFault> for Fault {
    ghost from_gives = { λ _ e. e ≡ device_fault };

    fn from(_: DiskFault) -> Self {
        Fault::Run(ScriptFault::Device)
    }
}

impl From<OpenError> for Fault {
    ghost from_gives = { λ error e. e ≡ of_open_error error };

    fn from(error: OpenError) -> Self {
        match error {
            OpenError::NoMemory => Fault::Run(ScriptFault::NoMemory),
            OpenError::NotFormatted => Fault::Run(ScriptFault::NotFormatted),
            OpenError::Version { found } => Fault::Run(ScriptFault::Version(found)),
            OpenError::Damaged { sector } => Fault::Run(ScriptFault::Damaged(sector)),
            OpenError::Device => Fault::Run(ScriptFault::Device),
        }
    }
}

impl From<FormatError> for Fault {
    ghost from_gives = { λ error e. e ≡ of_format_error error };

    fn from(error: FormatError) -> Self {
        match error {
            FormatError::TooSmall { need } => Fault::TooSmall { need },
            FormatError::Device | FormatError::BadLimits(_) => Fault::Run(ScriptFault::Device),
        }
    }
}

impl From<UpgradeError> for Fault {
    ghost from_gives = { λ error e. e ≡ of_upgrade_error error };

    fn from(error: UpgradeError) -> Self {
        match error {
            UpgradeError::BadLimits(BadLimits { field }) => Fault::BadLimits { field },
            UpgradeError::NotFormatted => Fault::Run(ScriptFault::NotFormatted),
            UpgradeError::Version { found } => Fault::Run(ScriptFault::Version(found)),
            UpgradeError::Damaged { sector } => Fault::Run(ScriptFault::Damaged(sector)),
            UpgradeError::TooSmall { need } => Fault::TooSmall { need },
            UpgradeError::Device => Fault::Run(ScriptFault::Device),
            UpgradeError::NoMemory => Fault::Run(ScriptFault::NoMemory),
        }
    }
}

impl From<DumpError> for Fault {
    ghost from_gives = { λ error e. e ≡ of_dump_error error };

    fn from(error: DumpError) -> Self {
        match error {
            DumpError::NoMemory => Fault::Run(ScriptFault::NoMemory),
            DumpError::Output => Fault::Run(ScriptFault::Output),
        }
    }
}
