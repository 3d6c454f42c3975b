//! The table on its way to a disk.

ghost use Rattle.std.specs.Prelude.{◌≡◌, ◌<◌, ◌≤◌, ◌+◌, ◌*◌, ℕ, List, OnOk, length, slice_index, slice_set, ⊤, All};
ghost use Rattle.std.specs.Prelude.{Contains, nat_eq};
ghost use Rattle.std.specs.List.{IsDistinct};
ghost use Rattle.ipc_disk.specs.Calls.{IsSameDisk, CountsCalls};
ghost use Rattle.ipc_disk.specs.Counts.{with_calls};
ghost use Rattle.ipc_disk.specs.Medium.{IsHonest};
ghost use Rattle.ipc_disk.specs.Since.{LeavesAlone};
ghost use Rattle.ipc_heap.specs.Heap.{table_sectors_for, words_in};
ghost use Rattle.ipc_heap.specs.Relations.Table.{IsTableSector, IsTableOn};

use byteorder::{BigEndian, ByteOrder};
use ipc_disk::{DiskFault, SectorDisk};

/// How many words of the table a sector has.
pub(crate) const WORDS: usize = 127;

/// A table as it is to be written: its words, and the sectors in which they are to stand.
pub(crate) trait Table {
    /// Its words.
    ghost words: { Self → List ℕ };

    /// Its sectors.
    ghost sectors: { Self → List ℕ };

    /// What has to hold of it.
    ghost sound: { Self → Type 0 };

    /// How many words it has.
    fn len(&self) -> usize
        requires { sound self.now }
        ensures { result ≡ length (words self.now) };

    /// One of its words.
    fn word(&self, i: usize) -> u32
        requires sound { sound self.now }
        requires there { i < length (words self.now) }
        ensures { result ≡ slice_index (words self.now) i };

    /// One of its sectors.
    fn sector(&self, j: usize) -> u32
        requires sound { sound self.now }
        requires there { j < length (sectors self.now) }
        ensures { result ≡ slice_index (sectors self.now) j };
}

/// The words of a heap, and the sectors that were taken for them.
#[derive(Drop)]
pub(crate) struct Kept<'a> {
    pub words: &'a [u32],
    pub sectors: &'a [u32],
}

impl Table for Kept<'_> {
    ghost words = { λ kept. kept.words.now };

    ghost sectors = { λ kept. kept.sectors.now };

    ghost sound = { λ kept. ⊤ };

    fn len(&self) -> usize {
        self.words.len()
    }

    fn word(&self, i: usize) -> u32 {
        self.words[i]
    }

    fn sector(&self, j: usize) -> u32 {
        self.sectors[j]
    }
}

/// Writes the sectors of a table. No sync.
pub(crate) fn write_table<D: SectorDisk, T: Table>(disk: &mut D, table: &T) -> Result<(), DiskFault>
    requires sound { T.sound table.now }
    requires within { All (λ s. s < D.size disk.old) (T.sectors table.now) }
    requires once { IsDistinct nat_eq (T.sectors table.now) }
    requires all { length (T.sectors table.now) ≡ table_sectors_for (length (T.words table.now)) }
    ensures written { OnOk result (IsHonest (D.medium disk.old)
        → IsTableOn (T.words table.now) (T.sectors table.now) (D.medium disk.new).contents) }
    ensures others { IsHonest (D.medium disk.old)
        → LeavesAlone (λ i. ¬ Contains (T.sectors table.now) i) (D.medium disk.old) (D.medium disk.new) }
    ensures same { IsSameDisk D.size D.medium disk.old disk.new }
    ensures counts { CountsCalls D.counts result (with_calls (length (T.sectors table.now)) 0) disk.old disk.new }
{
    let count = table.len().div_ceil(WORDS);
    for j in 0..count {
        let next = if j + 1 < count {
            table.sector(j + 1)
        } else {
            0
        };
        let sector = table_sector(table, j, next);
        disk.write(table.sector(j), &sector)?;
    }
    Ok(())
}

// The j-th sector of a table: the next one, and 127 words, or those that are left and zeros.
fn table_sector<T: Table>(table: &T, j: usize, next: u32) -> [u8; 512]
    requires sound { T.sound table.now }
    requires some { 127 * j ≤ length (T.words table.now) }
    ensures { IsTableSector (T.words table.now) j next result }
{
    let mut sector = [0; 512];
    put_word(&mut sector, 0, next);
    for k in 0..WORDS.min(table.len() - WORDS * j) {
        put_word(&mut sector, 1 + k, table.word(WORDS * j + k));
    }
    sector
}

// Writes a word.
fn put_word(sector: &mut [u8; 512], i: usize, word: u32)
    requires { i < 128 }
    ensures { words_in sector.new ≡ slice_set (words_in sector.old) i word }
{
    BigEndian::write_u32(&mut sector[4 * i..], word);
}
