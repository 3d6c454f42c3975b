//! What can go wrong where a checkpoint is read.

ghost use Rattle.std.specs.Prelude.{◌≡◌};
ghost use Rattle.ipc_checkpoint.specs.View.{of_open_error};
ghost use Rattle.ipc_checkpoint.specs.declared.error.LoadError.TheVariants.{Device, NoMemory};

use ipc_disk::DiskFault;
use ipc_heap::OpenError;
use std::alloc::AllocError;
use thiserror::Error;

/// Why a checkpoint could not be loaded.
#[derive(Debug, Clone, Copy, PartialEq, Eq, Error)]
pub enum LoadError {
    /// The disk answered that a call failed.
    #[error("the disk has failed")]
    Device,
    /// What stands on the disk is no checkpoint.
    #[error("the checkpoint is damaged at sector {sector}")]
    Damaged {
        /// The sector in which the fault is seen first.
        sector: u32,
    },
    /// Memory was refused.
    #[error("no memory")]
    NoMemory,
}

impl From<DiskFault> for LoadError {
    ghost from_gives = { λ _ e. e ≡ Device };

    fn from(_: DiskFault) -> Self {
        LoadError::Device
    }
}

impl From<AllocError> for LoadError {
    ghost from_gives = { λ _ e. e ≡ NoMemory };

    fn from(_: AllocError) -> Self {
        LoadError::NoMemory
    }
}

impl From<OpenError> for LoadError {
    ghost from_gives = { λ error e. e ≡ of_open_error error };

    fn from(error: OpenError) -> Self {
        match error {
            OpenError::Device => LoadError::Device,
            OpenError::Damaged { sector } => LoadError::Damaged { sector },
            OpenError::NoMemory => LoadError::NoMemory,
        }
    }
}
