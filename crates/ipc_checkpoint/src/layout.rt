//! Where a checkpoint lies on its disk.

use ipc_disk::Range;

/// The sectors of a checkpoint: a range of them, the root apart from it, and how many sectors of the range its objects
/// and their table may take. The range has twice as many, so that a save need not touch what is there.
#[derive(Clone, Copy, Debug, PartialEq, Eq)]
pub struct Layout {
    /// Where the objects and their table stand.
    pub range: Range,
    /// The one sector that tells where the table begins.
    pub root: u32,
    /// The most sectors that one checkpoint takes.
    pub area: u32,
}
