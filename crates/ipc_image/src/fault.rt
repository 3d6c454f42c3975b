//! Why a sector is no superblock.

use thiserror::Error;

/// Why a device could not be opened by its superblock.
#[derive(Clone, Copy, Debug, PartialEq, Eq, Error)]
pub enum SuperblockFault {
    /// The sector does not begin as a superblock.
    #[error("the device is not formatted")]
    NotFormatted,
    /// The superblock is of another version.
    #[error("the device is of version {found}")]
    Version {
        /// The version that it names.
        found: u32,
    },
    /// The superblock does not fit the device, or its limits do not pass their check.
    #[error("the superblock is damaged")]
    Damaged,
}
