//! Bytes as they stand on a disk: written and read sector by sector, and a sector that is to last.

ghost use Rattle.std.specs.Prelude.{◌≡◌, ◌+◌, ◌*◌, ◌<◌, ◌≤◌, length, take, Some};
ghost use Rattle.std.specs.Prelude.{OnOk, IsErr, slice_get, slice_set};
ghost use Rattle.ipc_disk.specs.Calls.{IsOneCall, IsSameDisk, CountsCalls, OnlyReads};
ghost use Rattle.ipc_disk.specs.Counts.{with_calls, with_write};
ghost use Rattle.ipc_disk.specs.Medium.{IsHonest, IsDurable, SetOrNot, Writes};
ghost use Rattle.ipc_disk.specs.Range.{IsOutside};
ghost use Rattle.ipc_disk.specs.Since.{EachImageSince, LeavesAlone};
ghost use Rattle.ipc_disk.specs.Standing.{sectors_for, piece, filled, IsWrittenAt, StandsAt};

use crate::{DiskFault, SectorDisk};

/// The sectors that so many bytes take.
pub fn sectors_for_len(len: usize) -> usize
    ensures { result ≡ sectors_for len }
{
    len.div_ceil(512)
}

// The i-th 512 of these bytes, or what is left of them there.
fn piece_of(bytes: &[u8], i: usize) -> &[u8]
    requires { 512 * i < length bytes.now }
    ensures { result.now ≡ piece i bytes.now }
{
    let rest = &bytes[512 * i..];
    if rest.len() < 512 { rest } else { &rest[..512] }
}

// These bytes, filled up with zeros.
fn padded(bytes: &[u8]) -> [u8; 512]
    requires { length bytes.now ≤ 512 }
    ensures { result ≡ filled bytes.now }
{
    let mut sector = [0; 512];
    sector[..bytes.len()].copy_from_slice(bytes);
    sector
}

// Writes the sector `at`: these bytes, filled up with zeros. A whole sector is not copied for it.
fn write_filled<D: SectorDisk>(disk: &mut D, at: u32, bytes: &[u8]) -> Result<(), DiskFault>
    requires within { at < D.size disk.old }
    requires short { length bytes.now ≤ 512 }
    ensures written { OnOk result (IsHonest (D.medium disk.old)
        → (D.medium disk.new).contents ≡ slice_set (D.medium disk.old).contents at (filled bytes.now)) }
    ensures medium { Writes at (filled bytes.now) (D.medium disk.old) (D.medium disk.new) }
    ensures call { IsOneCall D.size D.counts result with_write disk.old disk.new }
{
    match bytes.first_chunk::<512>() {
        Some(sector) => disk.write(at, sector),
        None => disk.write(at, &padded(bytes)),
    }
}

/// Writes bytes from the sector `first` on, with zeros after them to the end of their last sector. No sync.
pub fn write_bytes<D: SectorDisk>(disk: &mut D, first: u32, bytes: &[u8]) -> Result<(), DiskFault>
    requires { first + sectors_for (length bytes.now) ≤ D.size disk.old }
    ensures written { OnOk result (IsHonest (D.medium disk.old)
        → IsWrittenAt first bytes.now (D.medium disk.new).contents) }
    ensures others { IsHonest (D.medium disk.old)
        → LeavesAlone (IsOutside (record { first = first; count = sectors_for (length bytes.now) }))
        (D.medium disk.old) (D.medium disk.new) }
    ensures same { IsSameDisk D.size D.medium disk.old disk.new }
    ensures counts { CountsCalls D.counts result (with_calls (sectors_for (length bytes.now)) 0) disk.old disk.new }
{
    let count = sectors_for_len(bytes.len());
    for i in 0..count {
        write_filled(disk, first + i as u32, piece_of(bytes, i))?;
    }
    Ok(())
}

/// Writes one sector and makes it last.
pub fn write_durably<D: SectorDisk>(
    disk: &mut D,
    at: u32,
    sector: &[u8; 512],
) -> Result<(), DiskFault>
    requires { at < D.size disk.old }
    ensures written { OnOk result (IsHonest (D.medium disk.old)
        → (D.medium disk.new).contents ≡ slice_set (D.medium disk.old).contents at sector.now) }
    ensures durable { OnOk result (IsDurable (D.medium disk.new)) }
    ensures any_moment { IsHonest (D.medium disk.old)
        → EachImageSince (D.medium disk.old) (D.medium disk.new)
        (SetOrNot at sector.now (D.medium disk.old)) }
    ensures others { IsHonest (D.medium disk.old)
        → LeavesAlone (IsOutside (record { first = at; count = 1 }))
        (D.medium disk.old) (D.medium disk.new) }
    ensures same { IsSameDisk D.size D.medium disk.old disk.new }
    ensures counts { CountsCalls D.counts result (with_calls 1 1) disk.old disk.new }
{
    disk.write(at, sector)?;
    disk.sync()
}

// Puts the bytes of a sector in the place of the i-th 512, as far as there is room.
fn put_piece(into: &mut [u8], i: usize, sector: &[u8; 512])
    requires { 512 * i < length into.old }
    ensures before { take (512 * i) into.new ≡ take (512 * i) into.old }
    ensures piece { take (length (piece i into.new)) sector.now ≡ piece i into.new }
{
    let start = 512 * i;
    let end = if into.len() - start < 512 {
        into.len()
    } else {
        start + 512
    };
    into[start..end].copy_from_slice(&sector[..end - start]);
}

/// Reads the bytes that stand from the sector `at` on, as many as `into` has. The first of their sectors has been
/// read. After an `Err` the bytes in `into` are any.
pub fn read_bytes<D: SectorDisk>(
    disk: &mut D,
    at: u32,
    first: &[u8; 512],
    into: &mut [u8],
) -> Result<(), DiskFault>
    requires some { 0 < length into.old }
    requires within { at + sectors_for (length into.old) ≤ D.size disk.old }
    ensures stands { OnOk result (IsHonest (D.medium disk.old)
        → slice_get (D.medium disk.old).contents at ≡ Some first.now
        → StandsAt at into.new (D.medium disk.old).contents) }
    ensures reads { OnlyReads D.size D.medium D.counts (IsErr result) disk.old disk.new }
{
    put_piece(into, 0, first);
    for i in 1..sectors_for_len(into.len()) {
        let mut sector = [0; 512];
        disk.read(at + i as u32, &mut sector)?;
        put_piece(into, i, &sector);
    }
    Ok(())
}
