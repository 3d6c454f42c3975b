//! What can go wrong with a heap.

ghost use Rattle.std.specs.Prelude.{◌≡◌};
ghost use Rattle.ipc_heap.specs.declared.error.HeapError.TheVariants as heap_error;
ghost use Rattle.ipc_heap.specs.declared.error.OpenError.TheVariants as open_error;

use ipc_disk::DiskFault;
use std::alloc::AllocError;
use thiserror::Error;

/// Why a heap could not be opened.
#[derive(Debug, Clone, Copy, PartialEq, Eq, Error)]
pub enum OpenError {
    /// The disk answered that a call failed.
    #[error("the disk has failed")]
    Device,
    /// What stands on the disk is no heap.
    #[error("the heap is damaged at sector {sector}")]
    Damaged {
        /// The sector in which the fault is seen first.
        sector: u32,
    },
    /// Memory was refused.
    #[error("no memory")]
    NoMemory,
}

/// Why an object could not be put, or the heap not be turned over. The heap has to be opened again then.
#[derive(Debug, Clone, Copy, PartialEq, Eq, Error)]
pub enum HeapError {
    /// The disk answered that a call failed.
    #[error("the disk has failed")]
    Device,
    /// Fewer sectors are free than are needed.
    #[error("the heap is full")]
    Full,
}

impl From<DiskFault> for OpenError {
    ghost from_gives = { λ _ e. e ≡ open_error.Device };

    fn from(_: DiskFault) -> Self {
        OpenError::Device
    }
}

impl From<AllocError> for OpenError {
    ghost from_gives = { λ _ e. e ≡ open_error.NoMemory };

    fn from(_: AllocError) -> Self {
        OpenError::NoMemory
    }
}

impl From<DiskFault> for HeapError {
    ghost from_gives = { λ _ e. e ≡ heap_error.Device };

    fn from(_: DiskFault) -> Self {
        HeapError::Device
    }
}
