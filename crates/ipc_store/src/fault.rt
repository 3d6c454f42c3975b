//! What can go wrong with a store.

ghost use Rattle.std.specs.Prelude.{◌≡◌};
ghost use Rattle.ipc_store.specs.declared.fault.FormatError.TheVariants as format_errors;
ghost use Rattle.ipc_store.specs.declared.fault.OpenError.TheVariants as open_errors;
ghost use Rattle.ipc_store.specs.declared.fault.UpgradeError.TheVariants as upgrade_errors;
ghost use Rattle.ipc_store.specs.View.{of_journal_error, of_load_error, of_open_error};

use ipc_checkpoint::LoadError;
use ipc_disk::DiskFault;
use ipc_journal::JournalError;
use ipc_limits::BadLimits;
use std::alloc::AllocError;
use thiserror::Error;

/// Why an event was not accepted.
#[derive(Clone, Copy, Debug, PartialEq, Eq, Error)]
pub enum StepError {
    /// The machine wants memory for it.
    #[error("no memory")]
    NoMemory,
    /// The store goes on no more. It has to be opened again.
    #[error("the store has stopped")]
    Stopped,
}

/// Why the events that wait were not made to last.
#[derive(Clone, Copy, Debug, PartialEq, Eq, Error)]
pub enum CommitError {
    /// A call on the disk has failed. The store goes on no more.
    #[error("the disk has failed")]
    Device,
    /// The store goes on no more. It has to be opened again.
    #[error("the store has stopped")]
    Stopped,
}

/// Why a disk was not made a device.
#[derive(Clone, Copy, Debug, PartialEq, Eq, Error)]
pub enum FormatError {
    /// The limits do not pass their check.
    #[error("{0}")]
    BadLimits(BadLimits),
    /// The disk has fewer sectors than a device needs under these limits.
    #[error("the device needs {need} sectors")]
    TooSmall {
        /// How many it needs.
        need: u32,
    },
    /// A call on the disk has failed.
    #[error("the disk has failed")]
    Device,
}

/// Why a device was not opened.
#[derive(Clone, Copy, Debug, PartialEq, Eq, Error)]
pub enum OpenError {
    /// A call on the disk has failed.
    #[error("the disk has failed")]
    Device,
    /// It does not begin as a device of a store.
    #[error("the device is not formatted")]
    NotFormatted,
    /// It is of another version.
    #[error("the device is of version {found}")]
    Version {
        /// The version that it names.
        found: u32,
    },
    /// It stands for no state, or its epochs are at their end.
    #[error("the device is damaged at sector {sector}")]
    Damaged {
        /// The first sector in which the fault is seen.
        sector: u32,
    },
    /// The machine on it wants memory.
    #[error("no memory")]
    NoMemory,
}

/// Why a device was not upgraded.
#[derive(Clone, Copy, Debug, PartialEq, Eq, Error)]
pub enum UpgradeError {
    /// The limits do not pass their check, or one of them is below the device's.
    #[error("{0}")]
    BadLimits(BadLimits),
    /// It does not begin as a device of a store.
    #[error("the device is not formatted")]
    NotFormatted,
    /// It is of another version than the one that is upgraded.
    #[error("the device is of version {found}")]
    Version {
        /// The version that it names.
        found: u32,
    },
    /// It stands for no state, or its epochs are at their end.
    #[error("the device is damaged at sector {sector}")]
    Damaged {
        /// The first sector in which the fault is seen.
        sector: u32,
    },
    /// The disk has fewer sectors than a device needs under these limits.
    #[error("the device needs {need} sectors")]
    TooSmall {
        /// How many it needs.
        need: u32,
    },
    /// A call on the disk has failed.
    #[error("the disk has failed")]
    Device,
    /// The machine on it wants memory.
    #[error("no memory")]
    NoMemory,
}

impl From<BadLimits> for UpgradeError {
    ghost from_gives = { λ fault e. e ≡ upgrade_errors.BadLimits fault };

    fn from(fault: BadLimits) -> Self {
        UpgradeError::BadLimits(fault)
    }
}

impl From<DiskFault> for UpgradeError {
    ghost from_gives = { λ _ e. e ≡ upgrade_errors.Device };

    fn from(_: DiskFault) -> Self {
        UpgradeError::Device
    }
}

impl From<OpenError> for UpgradeError {
    ghost from_gives = { λ error e. e ≡ of_open_error error };

    fn from(error: OpenError) -> Self {
        match error {
            OpenError::Device => UpgradeError::Device,
            OpenError::NotFormatted => UpgradeError::NotFormatted,
            OpenError::Version { found } => UpgradeError::Version { found },
            OpenError::Damaged { sector } => UpgradeError::Damaged { sector },
            OpenError::NoMemory => UpgradeError::NoMemory,
        }
    }
}

impl From<BadLimits> for FormatError {
    ghost from_gives = { λ fault e. e ≡ format_errors.BadLimits fault };

    fn from(fault: BadLimits) -> Self {
        FormatError::BadLimits(fault)
    }
}

impl From<DiskFault> for FormatError {
    ghost from_gives = { λ _ e. e ≡ format_errors.Device };

    fn from(_: DiskFault) -> Self {
        FormatError::Device
    }
}

impl From<AllocError> for OpenError {
    ghost from_gives = { λ _ e. e ≡ open_errors.NoMemory };

    fn from(_: AllocError) -> Self {
        OpenError::NoMemory
    }
}

impl From<DiskFault> for OpenError {
    ghost from_gives = { λ _ e. e ≡ open_errors.Device };

    fn from(_: DiskFault) -> Self {
        OpenError::Device
    }
}

impl From<LoadError> for OpenError {
    ghost from_gives = { λ error e. e ≡ of_load_error error };

    fn from(error: LoadError) -> Self {
        match error {
            LoadError::Device => OpenError::Device,
            LoadError::Damaged { sector } => OpenError::Damaged { sector },
            LoadError::NoMemory => OpenError::NoMemory,
        }
    }
}

impl From<JournalError> for OpenError {
    ghost from_gives = { λ error e. e ≡ of_journal_error error };

    fn from(error: JournalError) -> Self {
        match error {
            JournalError::Device => OpenError::Device,
            JournalError::Damaged { sector } => OpenError::Damaged { sector },
        }
    }
}
