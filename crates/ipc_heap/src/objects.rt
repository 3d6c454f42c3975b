//! Objects on their way to a disk.

ghost use Rattle.std.specs.Prelude.{◌≡◌, ◌<◌, ◌≤◌, ◌+◌, ◌*◌, ◌^◌, ◌++◌, length, map, take, drop, flat_map, count_by};
ghost use Rattle.std.specs.Prelude.{OnOk, IfOk, IsErrOf, All, slice_index, vec_capacity};
ghost use Rattle.std.specs.List.{range_with_len};
ghost use Rattle.ipc_base.specs.Objects.{AreObjects, object_sectors as sectors_of};
ghost use Rattle.ipc_disk.specs.Calls.{IsSameDisk, CountsFaultIf, CountsCalls};
ghost use Rattle.ipc_disk.specs.Counts.{with_calls};
ghost use Rattle.ipc_disk.specs.Medium.{IsHonest};
ghost use Rattle.ipc_disk.specs.Range.{IsWithin, IsOutside};
ghost use Rattle.ipc_disk.specs.Since.{LeavesAlone};
ghost use Rattle.ipc_disk.specs.Standing.{sectors_for, sector_at};
ghost use Rattle.ipc_heap.specs.View.{is_free};
ghost use Rattle.ipc_heap.specs.Relations.Uses.{AreGiven, AreTaken, IsNotFree};
ghost use Rattle.ipc_heap.specs.Relations.Words.{AreWords, IsPutIn, placed_in};
ghost use Rattle.ipc_heap.specs.Heap.{object_on, object_sectors, object_words, table_sectors_for, table_words};
ghost use Rattle.ipc_heap.specs.Relations.Table.{placed_after, placed_at, object_at, IsLaid};

use crate::HeapError;
use crate::table::Table;
use crate::uses::Uses;
use crate::words::{bring_in, place_of, sectors_in};
use ipc_base::Objects;
use ipc_disk::{DiskFault, Range, SectorDisk};

/// Writes the i-th object into free sectors, and adds these to the words. No sync.
pub(crate) fn write_object<D: SectorDisk, O: Objects>(
    disk: &mut D,
    range: Range,
    objects: &O,
    i: u32,
    uses: &mut Uses,
    words: &mut Vec<u32>,
) -> Result<(), HeapError>
    requires within { IsWithin range (D.size disk.old) }
    requires object { i < length (O.objects objects.now) }
    requires uses { length uses.old ≡ range.count }
    requires room { length words.old.items + count_by is_free uses.old ≤ vec_capacity words.old }
    // The sectors are those that were added to the words, as far as it came.
    ensures added { words.new.items ≡ words.old.items ++ drop (length words.old.items) words.new.items }
    ensures taken { AreTaken range.first uses.old (drop (length words.old.items) words.new.items) uses.new }
    ensures capacity { vec_capacity words.new ≡ vec_capacity words.old }
    ensures all { OnOk result (length (drop (length words.old.items) words.new.items)
        ≡ sectors_for (length (object_at (O.objects objects.now) i).1)) }
    ensures written { OnOk result (IsHonest (D.medium disk.old)
        → take (length (object_at (O.objects objects.now) i).1) (flat_map (sector_at (D.medium disk.new).contents)
        (drop (length words.old.items) words.new.items)) ≡ (object_at (O.objects objects.now) i).1) }
    ensures others { IsHonest (D.medium disk.old)
        → LeavesAlone (IsNotFree range uses.old) (D.medium disk.old) (D.medium disk.new) }
    ensures full { IsErrOf result HeapError.Full
        → count_by is_free uses.old < sectors_for (length (object_at (O.objects objects.now) i).1) }
    ensures same { IsSameDisk D.size D.medium disk.old disk.new }
    ensures fault { CountsFaultIf D.counts (IsErrOf result HeapError.Device) disk.old disk.new }
    ensures counts { OnOk result (D.counts disk.new
        ≡ with_calls (sectors_for (length (object_at (O.objects objects.now) i).1)) 0 (D.counts disk.old)) }
{
    let mut mark = objects.start(i);
    for k in 0..objects.len(i).div_ceil(512) {
        let Some(free) = uses.take() else {
            return Err(HeapError::Full);
        };
        let at = range.first + free as u32;
        words.push_reserved(at);
        let mut sector = [0; 512];
        objects.bytes(i, 512 * k, &mut mark, &mut sector);
        disk.write(at, &sector)?;
    }
    Ok(())
}

/// The object whose words stand at the end, after those of a table, takes the place of the one of its number.
pub(crate) fn put_in(words: &mut Vec<u32>, uses: &mut Uses, first: u32, end: usize, number: u64)
    requires some { 0 < end }
    requires end { end ≤ length words.old.items }
    requires table { AreWords (take end words.old.items) (placed_in (take end words.old.items)) }
    requires inside { All (λ s. (first ≤ s) × (s < first + length uses.old))
        (object_sectors (placed_in (take end words.old.items))) }
    requires counted { slice_index words.old.items 0 + 1 < 2 ^ 32 }
    ensures put { IsPutIn (take end words.old.items) number (drop end words.old.items) first uses.old uses.new
        words.new.items }
    ensures capacity { vec_capacity words.new ≡ vec_capacity words.old }
{
    let place = place_of(&words[..end], number);
    uses.give_back(first, sectors_in(&words[..end], place));
    bring_in(words, end, place);
}

/// The words that stand at the end, after those of a table, are away. They are four, and sectors.
pub(crate) fn take_back(words: &mut Vec<u32>, uses: &mut Uses, first: u32, end: usize)
    requires end { end + 4 ≤ length words.old.items }
    requires inside { All (λ s. (first ≤ s) × (s < first + length uses.old)) (drop (end + 4) words.old.items) }
    ensures words { words.new.items ≡ take end words.old.items }
    ensures given { AreGiven first uses.old (drop (end + 4) words.old.items) uses.new }
    ensures capacity { vec_capacity words.new ≡ vec_capacity words.old }
{
    uses.give_back(first, &words[end + 4..]);
    words.truncate(end);
}

/// Writes all objects, one after another from a sector on. No sync. The sector after them.
pub(crate) fn write_objects<D: SectorDisk, O: Objects>(
    disk: &mut D,
    first: u32,
    objects: &O,
) -> Result<u32, DiskFault>
    requires { first + sectors_of (O.objects objects.now) ≤ D.size disk.old }
    ensures are { OnOk result (AreObjects (O.objects objects.now)) }
    ensures beyond { IfOk result (λ beyond. beyond ≡ first + sectors_of (O.objects objects.now)) }
    ensures written { OnOk result (IsHonest (D.medium disk.old)
        → map (object_on (D.medium disk.new).contents) (placed_after first (O.objects objects.now))
        ≡ O.objects objects.now) }
    ensures others { IsHonest (D.medium disk.old)
        → LeavesAlone (IsOutside (record { first = first; count = sectors_of (O.objects objects.now) }))
        (D.medium disk.old) (D.medium disk.new) }
    ensures same { IsSameDisk D.size D.medium disk.old disk.new }
    ensures counts { CountsCalls D.counts result (with_calls (sectors_of (O.objects objects.now)) 0) disk.old disk.new }
{
    let mut at = first;
    for i in 0..objects.count() {
        at = write_from(disk, at, objects, i)?;
    }
    Ok(at)
}

// Writes the i-th object from a sector on. The sector after it.
fn write_from<D: SectorDisk, O: Objects>(
    disk: &mut D,
    first: u32,
    objects: &O,
    i: u32,
) -> Result<u32, DiskFault>
    requires object { i < length (O.objects objects.now) }
    requires within { first + sectors_for (length (object_at (O.objects objects.now) i).1) ≤ D.size disk.old }
    ensures beyond { IfOk result (λ beyond. beyond
        ≡ first + sectors_for (length (object_at (O.objects objects.now) i).1)) }
    ensures written { OnOk result (IsHonest (D.medium disk.old)
        → take (length (object_at (O.objects objects.now) i).1) (flat_map (sector_at (D.medium disk.new).contents)
        (range_with_len first (sectors_for (length (object_at (O.objects objects.now) i).1))))
        ≡ (object_at (O.objects objects.now) i).1) }
    ensures others { IsHonest (D.medium disk.old)
        → LeavesAlone (IsOutside (record {
          first = first;
          count = sectors_for (length (object_at (O.objects objects.now) i).1);
        }))
        (D.medium disk.old) (D.medium disk.new) }
    ensures same { IsSameDisk D.size D.medium disk.old disk.new }
    ensures counts { CountsCalls D.counts result
        (with_calls (sectors_for (length (object_at (O.objects objects.now) i).1)) 0) disk.old disk.new }
{
    let mut mark = objects.start(i);
    let count = objects.len(i).div_ceil(512);
    for k in 0..count {
        let mut sector = [0; 512];
        objects.bytes(i, 512 * k, &mut mark, &mut sector);
        disk.write(first + k as u32, &sector)?;
    }
    Ok(first + count as u32)
}

/// The table of objects that stand one after another from a sector on, with the table after them.
#[derive(Drop)]
pub(crate) struct Laid<'a, O: Objects> {
    pub objects: &'a O,
    pub first: u32,
    pub beyond: u32,
}

impl<O: Objects> Table for Laid<'_, O> {
    ghost words = { λ laid. table_words (placed_after laid.first (O.objects laid.objects.now)) };

    ghost sectors = { λ laid. range_with_len laid.beyond
        (table_sectors_for (length (table_words (placed_after laid.first (O.objects laid.objects.now))))) };

    ghost sound = { λ laid. IsLaid laid.first laid.beyond (O.objects laid.objects.now) };

    fn len(&self) -> usize {
        1 + 4 * self.objects.count() as usize + (self.beyond - self.first) as usize
    }

    fn word(&self, i: usize) -> u32 {
        if i == 0 {
            return self.objects.count();
        }
        let mut at = 1;
        let mut sector = self.first;
        for k in 0..self.objects.count() {
            let count = self.objects.len(k).div_ceil(512) as usize;
            if i < at + 4 + count {
                return word_of(self.objects, k, sector, i - at);
            }
            at += 4 + count;
            sector += count as u32;
        }
        0
    }

    fn sector(&self, j: usize) -> u32 {
        self.beyond + j as u32
    }
}

// A word of the k-th object, which stands from a sector on: its number, its length, and its sectors.
fn word_of<O: Objects>(objects: &O, k: u32, first: u32, i: usize) -> u32
    requires object { k < length (O.objects objects.now) }
    requires there { i < 4 + sectors_for (length (object_at (O.objects objects.now) k).1) }
    requires fits { first + sectors_for (length (object_at (O.objects objects.now) k).1) ≤ 2 ^ 32 }
    ensures { result ≡ slice_index (object_words (placed_at first (object_at (O.objects objects.now) k))) i }
{
    match i {
        0 => (objects.number(k) >> 32) as u32,
        1 => (objects.number(k) % (1 << 32)) as u32,
        2 => (objects.len(k) >> 32) as u32,
        3 => (objects.len(k) % (1 << 32)) as u32,
        _ => first + (i - 4) as u32,
    }
}
