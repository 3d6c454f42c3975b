//! A journal with a header: its header, its next batch, and an append.

ghost use Rattle.std.specs.Prelude.{◌≡◌, ◌+◌, ◌<◌, ◌≤◌, ◌++◌, ◌∷◌, [], List, ℕ, length, take, drop};
ghost use Rattle.std.specs.Prelude.{Ok, None, Some, OnOk, IfOk, IsErrOf};
ghost use Rattle.ipc_disk.specs.Calls.{CountsCalls, IsSameDisk, OnlyReads};
ghost use Rattle.ipc_disk.specs.Counts.{with_calls};
ghost use Rattle.ipc_disk.specs.Medium.{IsDurable, IsHonest};
ghost use Rattle.ipc_disk.specs.Range.{IsOutside, IsWithin};
ghost use Rattle.ipc_disk.specs.Since.{LeavesAlone};
ghost use Rattle.ipc_disk.specs.Standing.{sectors_for, StandsAt};
ghost use Rattle.ipc_journal.specs.Batch.{epoch_in, IsBatch};
ghost use Rattle.ipc_journal.specs.Headed.{header_bytes, used_in, Counts, IsBadHeader};
ghost use Rattle.ipc_journal.specs.Journal.{sectors_of, Holds, IsWritten};
ghost use Rattle.ipc_journal.specs.Matches.{IsKept};
ghost use Rattle.ipc_journal.specs.Meanwhile.{Comes};
ghost use Rattle.ipc_journal.specs.declared.form.Form.TheVariants.{Headed};

use crate::JournalError;
use byteorder::{BigEndian, ByteOrder};
use ipc_disk::{
    DiskFault, Range, SectorDisk, read_bytes, sectors_for_len, write_bytes, write_durably,
};

/// The bytes of a header: epoch, used sectors, and zeros.
fn header_sector(epoch: u64, used: u32) -> [u8; 512]
    ensures epoch { epoch_in result ≡ epoch }
    ensures used { used_in result ≡ used }
    ensures bytes { result ≡ header_bytes epoch used }
{
    let mut sector = [0; 512];
    BigEndian::write_u64(&mut sector, epoch);
    BigEndian::write_u32(&mut sector[8..], used);
    sector
}

/// Writes the header of an empty journal of this epoch. It does not sync.
pub(crate) fn put_header<D: SectorDisk>(
    disk: &mut D,
    range: Range,
    epoch: u64,
) -> Result<(), DiskFault>
    requires some { 0 < range.count }
    requires within { IsWithin range (D.size disk.old) }
    ensures empty { OnOk result (IsHonest (D.medium disk.old)
        → Holds Headed range epoch [] (D.medium disk.new).contents) }
    ensures others { IsHonest (D.medium disk.old)
        → LeavesAlone (IsOutside range) (D.medium disk.old) (D.medium disk.new) }
    ensures same { IsSameDisk D.size D.medium disk.old disk.new }
    ensures counts { CountsCalls D.counts result (with_calls 1 0) disk.old disk.new }
{
    disk.write(range.first, &header_sector(epoch, 0))
}

/// How many sectors the header counts. One of an earlier epoch counts none, whatever else it says.
pub(crate) fn read_header<D: SectorDisk>(
    disk: &mut D,
    range: Range,
    epoch: u64,
) -> Result<u32, JournalError>
    requires some { 0 < range.count }
    requires within { IsWithin range (D.size disk.old) }
    ensures counts { IfOk result (λ used. IsHonest (D.medium disk.old)
        → Counts range epoch used (D.medium disk.old).contents) }
    ensures room { IfOk result (λ used. used < range.count) }
    ensures damaged { (sector : ℕ) → IsErrOf result (JournalError.Damaged sector)
        → IsHonest (D.medium disk.old) → IsBadHeader range epoch (D.medium disk.old).contents }
    ensures named { (sector : ℕ) → IsErrOf result (JournalError.Damaged sector)
        → sector ≡ range.first }
    ensures reads { OnlyReads D.size D.medium D.counts (IsErrOf result JournalError.Device) disk.old disk.new }
{
    let mut sector = [0; 512];
    disk.read(range.first, &mut sector)?;
    let found = BigEndian::read_u64(&sector);
    let used = BigEndian::read_u32(&sector[8..]);
    if found < epoch {
        return Ok(0);
    }
    if found > epoch || used >= range.count {
        return Err(JournalError::Damaged {
            sector: range.first,
        });
    }
    Ok(used)
}

/// The batch that stands at the place `used`, into the front of `into`, and its length. `None` if the batches end
/// there. `Damaged` if its length passes their end, or `into`.
pub(crate) fn read_next<D: SectorDisk>(
    disk: &mut D,
    range: Range,
    used: u32,
    end: u32,
    into: &mut [u8],
) -> Result<Option<usize>, JournalError>
    requires room { end < range.count }
    requires within { IsWithin range (D.size disk.old) }
    ensures none { result ≡ Ok None → end ≤ used }
    ensures is { IfOk result (λ found. (len : ℕ) → found ≡ Some len → IsHonest (D.medium disk.old)
        → IsBatch (take len into.new)
        × StandsAt (range.first + 1 + used) (take len into.new) (D.medium disk.old).contents) }
    ensures least { IfOk result (λ found. (len : ℕ) → found ≡ Some len → 4 ≤ len) }
    ensures fits { IfOk result (λ found. (len : ℕ) → found ≡ Some len → len ≤ length into.old) }
    ensures beyond { IfOk result (λ found. (len : ℕ) → found ≡ Some len → drop len into.new ≡ drop len into.old) }
    ensures unread { result ≡ Ok None → into.new ≡ into.old }
    ensures untouched { (sector : ℕ) → IsErrOf result (JournalError.Damaged sector) → into.new ≡ into.old }
    ensures inside { IfOk result (λ found. (len : ℕ) → found ≡ Some len → used + sectors_for len ≤ end) }
    ensures more { (sector : ℕ) → IsErrOf result (JournalError.Damaged sector) → used < end }
    ensures damaged { (sector : ℕ) → IsErrOf result (JournalError.Damaged sector)
        → IsHonest (D.medium disk.old) → (batch : List ℕ) → IsBatch batch → length batch ≤ length into.old
        → StandsAt (range.first + 1 + used) batch (D.medium disk.old).contents
        → used + sectors_for (length batch) ≤ end → ⊥ }
    ensures named { (sector : ℕ) → IsErrOf result (JournalError.Damaged sector)
        → sector ≡ range.first + 1 + used }
    ensures reads { OnlyReads D.size D.medium D.counts (IsErrOf result JournalError.Device) disk.old disk.new }
{
    if used >= end {
        return Ok(None);
    }
    let at = range.first + 1 + used;
    let mut sector = [0; 512];
    disk.read(at, &mut sector)?;
    let len = BigEndian::read_u32(&sector) as usize + 4;
    if sectors_for_len(len) > (end - used) as usize || len > into.len() {
        return Err(JournalError::Damaged { sector: at });
    }
    read_bytes(disk, at, &sector, &mut into[..len])?;
    Ok(Some(len))
}

/// Appends a batch: its sectors and a sync, then the header that counts it and a sync.
pub(crate) fn append<D: SectorDisk>(
    disk: &mut D,
    range: Range,
    epoch: u64,
    used: u32,
    batch: &[u8],
) -> Result<(), DiskFault>
    requires within { IsWithin range (D.size disk.old) }
    requires fits { 1 + used + sectors_for (length batch.now) ≤ range.count }
    requires batch { IsBatch batch.now }
    ensures acknowledged { OnOk result ((batches : List (List ℕ)) → used ≡ sectors_of Headed batches
        → IsKept Headed range epoch batches (D.medium disk.old)
        → IsKept Headed range epoch (batches ++ batch.now ∷ []) (D.medium disk.new)) }
    ensures written { OnOk result (IsHonest (D.medium disk.old)
        → IsWritten Headed range epoch used 0 batch.now (D.medium disk.new).contents) }
    ensures durable { OnOk result (IsDurable (D.medium disk.new)) }
    ensures any_moment { (batches : List (List ℕ)) → used ≡ sectors_of Headed batches
        → IsKept Headed range epoch batches (D.medium disk.old)
        → Comes D.medium Headed range epoch batches batch.now disk.old disk.new }
    ensures others { IsHonest (D.medium disk.old)
        → LeavesAlone (IsOutside range) (D.medium disk.old) (D.medium disk.new) }
    ensures same { IsSameDisk D.size D.medium disk.old disk.new }
    ensures counts { CountsCalls D.counts result (with_calls (sectors_for (length batch.now) + 1) 2)
        disk.old disk.new }
{
    let counted = used + sectors_for_len(batch.len()) as u32;
    write_bytes(disk, range.first + 1 + used, batch)?;
    // The batch has to be on the disk before a header that counts it may be.
    disk.sync()?;
    write_durably(disk, range.first, &header_sector(epoch, counted))?;
    Ok(())
}
