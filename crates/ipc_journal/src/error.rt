//! What can go wrong where a journal is read.

ghost use Rattle.std.specs.Prelude.{◌≡◌};
ghost use Rattle.ipc_journal.specs.declared.error.JournalError.TheVariants.{Device};

use ipc_disk::DiskFault;
use thiserror::Error;

/// Why a journal could not be opened, or its next batch not read.
#[derive(Debug, Clone, Copy, PartialEq, Eq, Error)]
pub enum JournalError {
    /// The disk answered that a call failed.
    #[error("the disk has failed")]
    Device,
    /// What stands on the disk is no journal that this value can stand for.
    #[error("the journal is damaged at sector {sector}")]
    Damaged {
        /// The sector in which the fault is seen: the header's, the first of a batch, or the one after the batches.
        sector: u32,
    },
}

impl From<DiskFault> for JournalError {
    ghost from_gives = { λ _ e. e ≡ Device };

    fn from(_: DiskFault) -> Self {
        JournalError::Device
    }
}
