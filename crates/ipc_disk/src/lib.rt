//! Disks of 512-byte sectors: what a crash may leave of one, three in memory, one that joins
//! writes, and one in a file.
//!
//! Where a rule stands (definition, code, proof):
//!
//! - What a crash may leave: `specs/Medium.antt`, `specs/Since.antt`
//! - How bytes stand from a sector on: `specs/Standing.antt`, `src/standing.rt`
//! - Which writes are joined, and when they are synced: `specs/Runs.antt`, `specs/Run.antt`, `src/joined.rt`,
//!   `src/run.rt`
//! - A file: `src/file.rt`, `specs/Growth.antt`; the three calls of the system, all that is not proved of it:
//!   `src/system.rt`
//! - Who hears how far the making of a file is: `src/progress.rt`
//!
//! What the clauses say:
//!
//! - The trait `SectorDisk` says what a read gives (`bytes`), what is read after a write (`written`), that after a sync
//!   a crash leaves what is read (`durable`), what a crash may leave now and since a moment (`medium`), and counts: one
//!   failure more at each `Err`, one write or sync more at each Ok (`call`, by `IsOneCall`). What a call leaves of a
//!   disk and what it has counted is said by the relations of `specs/Calls.antt` in this crate and those above it: the
//!   same disk (`IsSameDisk`: as many sectors, and honest if, and only if, it was), a failure that is counted
//!   (`CountsFault`, `CountsFaultIf`), calls that are (`CountsCalls`), and reads alone (`OnlyReads`).
//! - `MemoryDisk`, `FuseDisk` and `OnceDisk` meet the trait and are honest (`disks_in_memory_are_honest`,
//!   `OnceDisk::new` `honest`): what is read is one of the images that a crash may leave.
//! - `MemoryDisk::grow` puts sectors of zeros after those that there are (`contents`, `synced`, `size`). A crash at any
//!   moment leaves an image of before with some of them (`any_moment`, `specs/Growth.antt`), and if memory is refused
//!   all is as it was (`err`).
//! - `FuseDisk::crash` gives a disk that reads as one of the images that a crash may leave (`image`), and says which
//!   one (`contents`).
//! - Of an `OnceDisk` exactly the call fails that comes after `at` others (`before`, and `fails`, `next` of each call);
//!   those before it and after it are done. A write that fails is done if it was made so, and else nothing changes
//!   (`done`, `unchanged`); a sync that fails is not done.
//! - `write_bytes` writes bytes from a sector on, filled up with zeros (`written`), `read_bytes` reads what stands
//!   there (`stands`), `write_durably` writes one sector and makes it last (`written`, `durable`, `any_moment`). The
//!   two that write leave all other sectors alone (`others`), and the disk is the same (`same`).
//! - The trait `RunDisk` says the same of a disk on which one call writes neighbouring sectors, a run
//!   (`specs/Runs.antt`). A run that a crash stops, or that fails, may leave any of its sectors written and the others
//!   as they were (`WritesRun`).
//! - `JoinedDisk` joins neighbouring writes over any `RunDisk`, and meets the whole of `SectorDisk`: it is honest just
//!   if the disk under it is (`a_joined_disk_is_as_honest`). A sector that waits is read as it was written last, and
//!   leaves the disk under it alone (`written`, `waits`, `alone`); so does a write that joins what waits, and it cannot
//!   fail (`joins`, `alone`). A write that does not join puts out what waits first (`begins`, `begins_at`). After an
//!   error what waits is as it was (`kept_range`, `kept_values`). A sync puts out all that waits (`nothing_waits`), and
//!   then syncs the disk under it: only so a crash then leaves what is read (`durable`). It does that once: its syncs
//!   are counted by the disk under it (`call`), which `disk` shows. After a sync that failed none is Ok, and the disk
//!   under it is not asked again (`sure`, `alone`, `unsure`).
//! - `SectorRuns` is a `RunDisk` over any `SectorDisk`: it writes each run sector by sector, and fails only if that
//!   disk has counted a failure (`failure`).
//! - `FileDisk` is a `JoinedDisk` over `FileRuns`, three calls of the system on a file (`src/system.rt`). Of `FileRuns`
//!   nothing is claimed: it has no image (`specs/File.antt`), so what is proved of honest disks says nothing of a file
//!   by itself. What stays a premise is said in one place (docs/PROMISES.md). The size of a `FileDisk` after `create`,
//!   `create_with`, `create_new_with`, `grow` and `grow_with`, and that it is unused then, is proved (`size`,
//!   `unused`). `open_to_read` opens a file without its lock, and each sector is read until two reads agree: that no
//!   test tells (docs/PROMISES.md).
#![tactic(auto)]

mod disk;
mod file;
mod fuse;
mod joined;
mod laws;
mod memory;
mod once;
mod progress;
mod range;
mod run;
mod runs;
mod split;
mod standing;
mod system;

pub use disk::{DiskFault, SectorDisk};
pub use file::FileDisk;
pub use fuse::FuseDisk;
pub use joined::JoinedDisk;
pub use laws::{a_joined_disk_is_as_honest, disks_in_memory_are_honest};
pub use memory::MemoryDisk;
pub use once::OnceDisk;
pub use progress::Progress;
pub use range::Range;
pub use runs::RunDisk;
pub use split::SectorRuns;
pub use standing::{read_bytes, sectors_for_len, write_bytes, write_durably};
pub use system::FileRuns;
