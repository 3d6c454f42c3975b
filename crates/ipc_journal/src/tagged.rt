//! A journal of tagged sectors: its next batch, an append, and the clearing of what stands after its batches.

ghost use Rattle.std.specs.Prelude.{◌≡◌, ◌⊎◌, ◌↔◌, ◌+◌, ◌-◌, ◌*◌, ◌<◌, ◌≤◌, ◌++◌, ◌∷◌, [], List, ℕ, length, take, drop};
ghost use Rattle.std.specs.Prelude.{true, false, replicate, Ok, None, Some, OnOk, IfOk, IsErr, IsErrOf, slice_get};
ghost use Rattle.ipc_disk.specs.Calls.{CountsCalls, CountsFault, IsSameDisk, OnlyReads};
ghost use Rattle.ipc_disk.specs.Counts.{counted, with_calls};
ghost use Rattle.ipc_disk.specs.Medium.{Image, IsDurable, IsHonest, Stays, Writes};
ghost use Rattle.ipc_disk.specs.Range.{IsOutside, IsWithin};
ghost use Rattle.ipc_disk.specs.Since.{EachImageSince, LeavesAlone};
ghost use Rattle.ipc_disk.specs.Standing.{sector_at};
ghost use Rattle.ipc_journal.specs.Batch.{epoch_in, length_in, IsBatch};
ghost use Rattle.ipc_journal.specs.Journal.{sectors_of, Holds, IsAt, IsClear, HasLater, HasMore, HasNone, IsWritten};
ghost use Rattle.ipc_journal.specs.Matches.{IsKept};
ghost use Rattle.ipc_journal.specs.Meanwhile.{Comes};
ghost use Rattle.ipc_journal.specs.Tagged.{pieces_for, number_in, index_in, count_in, tagged_piece, tagged_bytes};
ghost use Rattle.ipc_journal.specs.Tagged.{IsEnd, IsMixed, IsTagged, IsTaggedAt, StandsTagged};
ghost use Rattle.ipc_journal.specs.declared.form.Form.TheVariants.{Headed, Tagged};

use crate::JournalError;
use crate::form::pieces_for_len;
use byteorder::{BigEndian, ByteOrder};
use ipc_disk::{DiskFault, Range, SectorDisk};

/// The bytes of a sector before those of its batch.
const TAG: usize = 16;

/// The bytes of a batch in one sector.
const PIECE: usize = 496;

// What a tag says: the epoch, the number of the batch, the place of the sector in it, and how many sectors it has.
#[derive(Clone, Copy, PartialEq, Eq)]
struct Tag {
    epoch: u64,
    number: u32,
    index: u32,
    count: u32,
}

// The tag of a sector.
fn tag_of(sector: &[u8; 512]) -> Tag
    ensures epoch { result.epoch ≡ epoch_in sector.now }
    ensures number { result.number ≡ number_in sector.now }
    ensures index { result.index ≡ index_in sector.now }
    ensures count { result.count ≡ count_in sector.now }
    ensures short { result.count < 65536 }
{
    Tag {
        epoch: BigEndian::read_u64(sector),
        number: BigEndian::read_u32(&sector[8..]),
        index: BigEndian::read_u16(&sector[12..]) as u32,
        count: BigEndian::read_u16(&sector[14..]) as u32,
    }
}

// The i-th 496 of these bytes, or what is left of them there.
fn piece_of(bytes: &[u8], i: usize) -> &[u8]
    requires { 496 * i < length bytes.now }
    ensures { result.now ≡ tagged_piece i bytes.now }
{
    let rest = &bytes[PIECE * i..];
    if rest.len() < PIECE {
        rest
    } else {
        &rest[..PIECE]
    }
}

// A sector of a batch.
fn tagged_sector(epoch: u64, number: u32, index: u16, count: u16, piece: &[u8]) -> [u8; 512]
    requires { length piece.now ≤ 496 }
    ensures { result ≡ tagged_bytes epoch number index count piece.now }
{
    let mut sector = [0; 512];
    BigEndian::write_u64(&mut sector, epoch);
    BigEndian::write_u32(&mut sector[8..], number);
    BigEndian::write_u16(&mut sector[12..], index);
    BigEndian::write_u16(&mut sector[14..], count);
    sector[TAG..TAG + piece.len()].copy_from_slice(piece);
    sector
}

// Puts the bytes of a sector after its tag in the place of the i-th 496, as far as there is room.
fn put_piece(into: &mut [u8], i: usize, sector: &[u8; 512])
    requires { 496 * i < length into.old }
    ensures before { take (496 * i) into.new ≡ take (496 * i) into.old }
    ensures piece { take (length (tagged_piece i into.new)) (drop 16 sector.now) ≡ tagged_piece i into.new }
{
    let start = PIECE * i;
    let end = if into.len() - start < PIECE {
        into.len()
    } else {
        start + PIECE
    };
    into[start..end].copy_from_slice(&sector[TAG..TAG + end - start]);
}

// Whether a tag is that of the first sector of a batch with this number, which has at most so many sectors.
fn is_first(tag: Tag, epoch: u64, number: u32, most: u32) -> bool
    ensures { result ≡ true ↔ (tag ≡ record { epoch = epoch; number = number; index = 0; count = tag.count })
        × (0 < tag.count) × (tag.count ≤ most) }
{
    let first = Tag {
        epoch,
        number,
        index: 0,
        count: tag.count,
    };
    tag == first && 0 < tag.count && tag.count <= most
}

// Whether a sector has this place in the batch of this tag.
fn is_part(sector: &[u8; 512], tag: Tag, index: u32) -> bool
    ensures { result ≡ true ↔ IsTagged tag.epoch tag.number index tag.count sector.now }
{
    tag_of(sector) == Tag { index, ..tag }
}

// Reads a batch from the sector `at` on, as far as `into` has room, and whether all of its sectors are there. The first
// of them has been read.
fn read_whole<D: SectorDisk>(
    disk: &mut D,
    at: u32,
    tag: Tag,
    first: &[u8; 512],
    into: &mut [u8],
) -> Result<bool, DiskFault>
    requires within { at + tag.count ≤ D.size disk.old }
    requires room { pieces_for (length into.old) ≤ tag.count }
    ensures whole { IfOk result (λ whole. IsHonest (D.medium disk.old)
        → slice_get (D.medium disk.old).contents at ≡ Some first.now
        → whole ≡ true ↔ ((i : ℕ) → 0 < i → i < tag.count
        → IsTagged tag.epoch tag.number i tag.count (sector_at (D.medium disk.old).contents (at + i)))) }
    ensures stands { IfOk result (λ whole. IsHonest (D.medium disk.old) → whole ≡ true
        → slice_get (D.medium disk.old).contents at ≡ Some first.now
        → StandsTagged at into.new (D.medium disk.old).contents) }
    ensures reads { OnlyReads D.size D.medium D.counts (IsErr result) disk.old disk.new }
{
    if !into.is_empty() {
        put_piece(into, 0, first);
    }
    for index in 1..tag.count {
        let mut sector = [0; 512];
        disk.read(at + index, &mut sector)?;
        if !is_part(&sector, tag, index) {
            return Ok(false);
        }
        if PIECE * (index as usize) < into.len() {
            put_piece(into, index as usize, &sector);
        }
    }
    Ok(true)
}

// The bytes that are read of a batch: all of them if they fit its sectors, and the buffer, and else none.
fn bytes_to_read(len: usize, count: u32, most: usize) -> usize
    requires { 0 < len }
    ensures all { result ≡ len ↔ (pieces_for len ≡ count) × (len ≤ most) }
    ensures none { (result ≡ len) ⊎ (result ≡ 0) }
{
    if pieces_for_len(len) == count as usize && len <= most {
        len
    } else {
        0
    }
}

/// The batch that begins at the place `used`, after `before` others, into the front of `into`, and its length. `None`
/// if not all sectors of one stand there. `Damaged` if its length does not fit its sectors, or `into`, or if the
/// sector there is of a later epoch.
pub(crate) fn read_next<D: SectorDisk>(
    disk: &mut D,
    range: Range,
    epoch: u64,
    used: u32,
    before: u32,
    into: &mut [u8],
) -> Result<Option<usize>, JournalError>
    requires room { used ≤ range.count }
    requires few { before ≤ used }
    requires within { IsWithin range (D.size disk.old) }
    ensures ended { result ≡ Ok None → IsHonest (D.medium disk.old)
        → IsEnd range epoch used before (D.medium disk.old).contents }
    ensures is { IfOk result (λ found. (len : ℕ) → found ≡ Some len → IsHonest (D.medium disk.old)
        → IsBatch (take len into.new)
        × IsAt Tagged range epoch used before (take len into.new) (D.medium disk.old).contents) }
    ensures least { IfOk result (λ found. (len : ℕ) → found ≡ Some len → 4 ≤ len) }
    ensures fits { IfOk result (λ found. (len : ℕ) → found ≡ Some len → len ≤ length into.old) }
    ensures beyond { IfOk result (λ found. (len : ℕ) → found ≡ Some len → drop len into.new ≡ drop len into.old) }
    ensures inside { IfOk result (λ found. (len : ℕ) → found ≡ Some len → used + pieces_for len ≤ range.count) }
    ensures damaged { (sector : ℕ) → IsErrOf result (JournalError.Damaged sector)
        → IsHonest (D.medium disk.old)
        → HasLater Tagged range epoch used (D.medium disk.old).contents
        ⊎ (HasMore Tagged range epoch used before (D.medium disk.old).contents
        × HasNone Tagged range epoch used before (length into.old) (D.medium disk.old).contents) }
    ensures named { (sector : ℕ) → IsErrOf result (JournalError.Damaged sector)
        → sector ≡ range.first + 0 + used }
    ensures reads { OnlyReads D.size D.medium D.counts (IsErrOf result JournalError.Device) disk.old disk.new }
{
    if used >= range.count {
        return Ok(None);
    }
    let at = range.first + used;
    let mut first = [0; 512];
    disk.read(at, &mut first)?;
    let tag = tag_of(&first);
    if tag.epoch > epoch {
        return Err(JournalError::Damaged { sector: at });
    }
    if !is_first(tag, epoch, before + 1, range.count - used) {
        return Ok(None);
    }
    let len = BigEndian::read_u32(&first[TAG..]) as usize + 4;
    let room = bytes_to_read(len, tag.count, into.len());
    if !read_whole(disk, at, tag, &first, &mut into[..room])? {
        return Ok(None);
    }
    if room < len {
        return Err(JournalError::Damaged { sector: at });
    }
    Ok(Some(len))
}

// Writes a batch of this number from the sector `at` on. No sync.
fn write_tagged<D: SectorDisk>(
    disk: &mut D,
    at: u32,
    epoch: u64,
    number: u32,
    batch: &[u8],
) -> Result<(), DiskFault>
    requires within { at + pieces_for (length batch.now) ≤ D.size disk.old }
    requires few { pieces_for (length batch.now) < 65536 }
    ensures written { OnOk result (IsHonest (D.medium disk.old)
        → IsTaggedAt at epoch number batch.now (D.medium disk.new).contents) }
    // A crash at any moment leaves each of these sectors as it was, or written.
    ensures any_moment { IsHonest (D.medium disk.old)
        → EachImageSince (D.medium disk.old) (D.medium disk.new)
        (λ image. (old : Image) × (D.medium disk.old).images_now old
        × IsMixed at epoch number batch.now old image) }
    ensures others { IsHonest (D.medium disk.old)
        → LeavesAlone (IsOutside (record { first = at; count = pieces_for (length batch.now) }))
        (D.medium disk.old) (D.medium disk.new) }
    ensures same { IsSameDisk D.size D.medium disk.old disk.new }
    ensures counts { CountsCalls D.counts result (with_calls (pieces_for (length batch.now)) 0) disk.old disk.new }
{
    let count = pieces_for_len(batch.len());
    for i in 0..count {
        let sector = tagged_sector(epoch, number, i as u16, count as u16, piece_of(batch, i));
        disk.write(at + i as u32, &sector)?;
    }
    Ok(())
}

/// Appends a batch, after `before` others: its sectors and a sync.
pub(crate) fn append<D: SectorDisk>(
    disk: &mut D,
    range: Range,
    epoch: u64,
    used: u32,
    before: u32,
    batch: &[u8],
) -> Result<(), DiskFault>
    requires within { IsWithin range (D.size disk.old) }
    requires counted { range.count < 65536 }
    requires few { before ≤ used }
    requires fits { used + pieces_for (length batch.now) ≤ range.count }
    requires batch { IsBatch batch.now }
    ensures acknowledged { OnOk result ((batches : List (List ℕ)) → used ≡ sectors_of Tagged batches
        → before ≡ length batches → IsKept Tagged range epoch batches (D.medium disk.old)
        → IsKept Tagged range epoch (batches ++ batch.now ∷ []) (D.medium disk.new)) }
    ensures written { OnOk result (IsHonest (D.medium disk.old)
        → IsWritten Tagged range epoch used before batch.now (D.medium disk.new).contents) }
    ensures durable { OnOk result (IsDurable (D.medium disk.new)) }
    ensures any_moment { (batches : List (List ℕ)) → used ≡ sectors_of Tagged batches
        → before ≡ length batches → IsKept Tagged range epoch batches (D.medium disk.old)
        → Comes D.medium Tagged range epoch batches batch.now disk.old disk.new }
    ensures others { IsHonest (D.medium disk.old)
        → LeavesAlone (IsOutside range) (D.medium disk.old) (D.medium disk.new) }
    ensures same { IsSameDisk D.size D.medium disk.old disk.new }
    ensures counts { CountsCalls D.counts result (with_calls (pieces_for (length batch.now)) 1) disk.old disk.new }
{
    write_tagged(disk, range.first + used, epoch, before + 1, batch)?;
    disk.sync()?;
    Ok(())
}

/// Writes zeros to each sector of the range. It does not sync.
pub(crate) fn erase<D: SectorDisk>(disk: &mut D, range: Range) -> Result<(), DiskFault>
    requires within { IsWithin range (D.size disk.old) }
    ensures erased { OnOk result (IsHonest (D.medium disk.old) → (i : ℕ) → i < range.count
        → sector_at (D.medium disk.new).contents (range.first + i) ≡ replicate 512 0) }
    ensures headed { (epoch : ℕ) → 0 < epoch → IsHonest (D.medium disk.old)
        → ((image : Image) → (D.medium disk.old).images_now image → Holds Headed range epoch [] image)
        → EachImageSince (D.medium disk.old) (D.medium disk.new) (Holds Headed range epoch []) }
    ensures others { IsHonest (D.medium disk.old)
        → LeavesAlone (IsOutside range) (D.medium disk.old) (D.medium disk.new) }
    ensures same { IsSameDisk D.size D.medium disk.old disk.new }
    ensures counts { CountsCalls D.counts result (with_calls range.count 0) disk.old disk.new }
{
    for i in 0..range.count {
        disk.write(range.first + i, &[0; 512])?;
    }
    Ok(())
}

// Writes zeros to a sector if it is of this epoch or a later one, and whether it was. No sync.
fn clear_sector<D: SectorDisk>(disk: &mut D, at: u32, epoch: u64) -> Result<bool, DiskFault>
    requires within { at < D.size disk.old }
    ensures older { OnOk result (0 < epoch → IsHonest (D.medium disk.old)
        → epoch_in (sector_at (D.medium disk.new).contents at) < epoch) }
    ensures medium { IsHonest (D.medium disk.old)
        → Writes at (replicate 512 0) (D.medium disk.old) (D.medium disk.new) }
    ensures kept { result ≡ Ok false → IsHonest (D.medium disk.old)
        → Stays (D.medium disk.old) (D.medium disk.new) }
    ensures exact { IfOk result (λ found. IsHonest (D.medium disk.old)
        → epoch_in (sector_at (D.medium disk.old).contents at) < epoch → found ≡ false) }
    ensures same { IsSameDisk D.size D.medium disk.old disk.new }
    ensures counts { CountsFault D.counts result disk.old disk.new }
    ensures quiet { result ≡ Ok false → D.counts disk.new ≡ D.counts disk.old }
    ensures writes { OnOk result ((D.counts disk.new).writes ≤ counted (D.counts disk.old).writes 1) }
    ensures syncs { OnOk result ((D.counts disk.new).syncs ≡ (D.counts disk.old).syncs) }
{
    let mut sector = [0; 512];
    disk.read(at, &mut sector)?;
    if BigEndian::read_u64(&sector) < epoch {
        return Ok(false);
    }
    disk.write(at, &[0; 512])?;
    Ok(true)
}

/// Writes zeros to each sector from the place `used` on that is of this epoch or a later one, and syncs if there was
/// one.
pub(crate) fn clear<D: SectorDisk>(
    disk: &mut D,
    range: Range,
    epoch: u64,
    used: u32,
    before: u32,
) -> Result<(), DiskFault>
    requires within { IsWithin range (D.size disk.old) }
    requires room { used ≤ range.count }
    ensures cleared { OnOk result ((batches : List (List ℕ)) → 0 < epoch → IsHonest (D.medium disk.old)
        → IsDurable (D.medium disk.old) → used ≡ sectors_of Tagged batches → before ≡ length batches
        → Holds Tagged range epoch batches (D.medium disk.old).contents
        → IsKept Tagged range epoch batches (D.medium disk.new)) }
    ensures durable { OnOk result (IsHonest (D.medium disk.old)
        → IsDurable (D.medium disk.old) → IsDurable (D.medium disk.new)) }
    ensures any_moment { (batches : List (List ℕ)) → 0 < epoch → IsHonest (D.medium disk.old)
        → used ≡ sectors_of Tagged batches → before ≡ length batches
        → ((image : Image) → (D.medium disk.old).images_now image → Holds Tagged range epoch batches image)
        → EachImageSince (D.medium disk.old) (D.medium disk.new) (Holds Tagged range epoch batches) }
    ensures others { IsHonest (D.medium disk.old)
        → LeavesAlone (IsOutside range) (D.medium disk.old) (D.medium disk.new) }
    ensures nothing { used ≡ range.count → disk.new ≡ disk.old }
    ensures same { IsSameDisk D.size D.medium disk.old disk.new }
    ensures counts { CountsFault D.counts result disk.old disk.new }
    ensures writes { OnOk result ((D.counts disk.new).writes
        ≤ counted (D.counts disk.old).writes (range.count - used)) }
    ensures syncs { OnOk result ((D.counts disk.new).syncs ≤ counted (D.counts disk.old).syncs 1) }
    ensures quiet { OnOk result (IsHonest (D.medium disk.old)
        → IsClear Tagged range epoch used (D.medium disk.old).contents
        → D.counts disk.new ≡ D.counts disk.old) }
{
    let mut found = false;
    for i in used..range.count {
        found |= clear_sector(disk, range.first + i, epoch)?;
    }
    if !found {
        return Ok(());
    }
    disk.sync()?;
    Ok(())
}
