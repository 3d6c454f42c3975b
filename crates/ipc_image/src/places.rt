//! The places on a device that are the same on each of a version.

/// The sector of the superblock.
pub const SUPERBLOCK: u32 = 0;

/// The first sector of the journal.
pub const JOURNAL: u32 = 3;
