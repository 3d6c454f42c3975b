//! What holds of disks in memory, and of disks that join writes, whatever calls led to them.

ghost use Rattle.std.specs.Prelude.{◌↔◌};
ghost use Rattle.ipc_disk.specs.Medium.{IsHonest};
ghost use Rattle.ipc_disk.specs.Joined.{disk_under, joined_medium};
ghost use Rattle.ipc_disk.specs.Memory.{memory_medium};
ghost use Rattle.ipc_disk.specs.Fuse.{fuse_medium};
ghost use Rattle.ipc_disk.specs.declared.memory.MemoryDisk.{MemoryDisk};
ghost use Rattle.ipc_disk.specs.declared.fuse.FuseDisk.{FuseDisk};

use crate::{JoinedDisk, RunDisk};

/// What a disk in memory reads is one of the images that a crash may leave, and these are among those since each
/// moment; so it is for one that fails after some calls.
pub fn disks_in_memory_are_honest()
    ensures memory { (disk : MemoryDisk) → IsHonest (memory_medium disk) }
    ensures fuse { (disk : FuseDisk) → IsHonest (fuse_medium disk) }
{}

/// A disk that joins writes is honest just if the disk under it is.
pub fn a_joined_disk_is_as_honest<D: RunDisk>(disk: &JoinedDisk<D>)
    ensures { IsHonest (joined_medium disk.now) ↔ IsHonest (D.medium (disk_under disk.now)) }
{
    let _disk = disk;
}
