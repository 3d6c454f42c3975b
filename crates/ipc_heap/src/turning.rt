//! A heap is turned over: the next table is written, and the root that tells of it.

ghost use Rattle.std.specs.Prelude.{◌≡◌, ◌≢◌, ◌<◌, ◌≤◌, ◌+◌, ◌*◌, ◌^◌, OnOk, IsTrue, IsFalse, length, All};
ghost use Rattle.std.specs.Prelude.{Contains, count_by, nat_eq};
ghost use Rattle.std.specs.Prelude.{vec_capacity};
ghost use Rattle.std.specs.List.{IsDistinct};
ghost use Rattle.ipc_disk.specs.Calls.{IsSameDisk, CountsCalls};
ghost use Rattle.ipc_disk.specs.Counts.{with_calls};
ghost use Rattle.ipc_disk.specs.Medium.{IsHonest, IsDurable};
ghost use Rattle.ipc_disk.specs.Since.{EachImageSince, LeavesAlone};
ghost use Rattle.ipc_heap.specs.Heap.{table_sectors_for};
ghost use Rattle.ipc_heap.specs.View.{is_free};
ghost use Rattle.ipc_heap.specs.Relations.Flip.{IsEither, IsTurned};
ghost use Rattle.ipc_heap.specs.Relations.Uses.{AreTaken};

use crate::root::{Root, root_sector};
use crate::table::{Kept, write_table};
use crate::uses::Uses;
use ipc_disk::{DiskFault, SectorDisk, write_durably};

/// Takes so many free sectors of a range for a table, or all if there are fewer. Whether there were enough.
pub(crate) fn take_table(uses: &mut Uses, first: u32, count: usize, table: &mut Vec<u32>) -> bool
    requires fits { first + length uses.old < 2 ^ 32 }
    requires room { count ≤ vec_capacity table.old }
    ensures taken { AreTaken first uses.old table.new.items uses.new }
    ensures all { IsTrue result → length table.new.items ≡ count }
    ensures full { IsFalse result → count_by is_free uses.old < count }
    ensures capacity { vec_capacity table.new ≡ vec_capacity table.old }
{
    table.clear();
    for _ in 0..count {
        let Some(i) = uses.take() else {
            return false;
        };
        table.push_reserved(first + i as u32);
    }
    true
}

/// Writes a table of these words into these sectors, and a root that tells of it, with two syncs. A crash at any moment
/// leaves the root as it was, or the new one with all of its table.
pub(crate) fn save_table<D: SectorDisk>(
    disk: &mut D,
    words: &[u32],
    table: &[u32],
    root: u32,
    epoch: u64,
) -> Result<(), DiskFault>
    requires within { All (λ s. s < D.size disk.old) table.now }
    requires once { IsDistinct nat_eq table.now }
    requires all { length table.now ≡ table_sectors_for (length words.now) }
    requires some { 0 < length words.now }
    requires counted { 4 * length words.now < 2 ^ 32 }
    requires root_there { root < D.size disk.old }
    requires root_apart { ¬ Contains table.now root }
    ensures turned { OnOk result (IsHonest (D.medium disk.old)
        → IsTurned words.now table.now root epoch (D.medium disk.old).contents (D.medium disk.new).contents) }
    ensures durable { OnOk result (IsDurable (D.medium disk.new)) }
    ensures any_moment { IsHonest (D.medium disk.old) → EachImageSince (D.medium disk.old) (D.medium disk.new)
        (IsEither words.now table.now root epoch (D.medium disk.old)) }
    ensures others { IsHonest (D.medium disk.old)
        → LeavesAlone (λ i. (¬ Contains table.now i) × (i ≢ root)) (D.medium disk.old) (D.medium disk.new) }
    ensures same { IsSameDisk D.size D.medium disk.old disk.new }
    ensures counts { CountsCalls D.counts result (with_calls (length table.now + 1) 2) disk.old disk.new }
{
    let kept = Kept {
        words,
        sectors: table,
    };
    write_table(disk, &kept)?;
    // What the root tells of has to be on the disk before the root may be.
    disk.sync()?;
    let next = Root {
        epoch,
        first: table[0],
        len: 4 * words.len() as u32,
    };
    write_durably(disk, root, &root_sector(next))?;
    Ok(())
}
