//! A run of sectors.

/// The sectors from `first` on, `count` of them, that belong to one user of a disk.
#[derive(Clone, Copy, Debug, PartialEq, Eq)]
pub struct Range {
    /// The first of its sectors.
    pub first: u32,
    /// How many there are.
    pub count: u32,
}
