//! An object of a heap, and its bytes on a disk.

ghost use Rattle.std.specs.Prelude.{◌≡◌, ◌<◌, ◌*◌, ◌-◌, ◌++◌, length, take};
ghost use Rattle.std.specs.Prelude.{min, replicate, flat_map, All, OnOk, IfOk, IsErr};
ghost use Rattle.std.specs.Prelude.{true, is_some};
ghost use Rattle.ipc_base.specs.Objects.{window};
ghost use Rattle.ipc_disk.specs.Calls.{OnlyReads};
ghost use Rattle.ipc_disk.specs.Medium.{IsHonest};
ghost use Rattle.ipc_disk.specs.Standing.{sector_at, sectors_for};
ghost use Rattle.ipc_heap.specs.Relations.Words.{placed_in, AreWords};
ghost use Rattle.ipc_heap.specs.Relations.Found.{seen_at, IsFound};

use crate::words::place_of;
use ipc_disk::{DiskFault, SectorDisk};

/// The words of an object that is there.
pub(crate) fn words_of(words: &[u32], number: u64) -> &[u32]
    requires words { AreWords words.now (placed_in words.now) }
    requires there { is_some (seen_at (λ p. p.sectors) (placed_in words.now) number) ≡ true }
    ensures { IsFound (placed_in words.now) number result.now }
{
    let place = place_of(words, number);
    &words[place.at..place.at + place.len]
}

/// 512 bytes from a place on of an object of so many bytes, which stands in these sectors, with zeros past its end.
pub(crate) fn read_window<D: SectorDisk>(
    disk: &mut D,
    sectors: &[u32],
    len: u64,
    place: u64,
    into: &mut [u8; 512],
) -> Result<(), DiskFault>
    requires all { length sectors.now ≡ sectors_for len }
    requires within { All (λ i. i < D.size disk.old) sectors.now }
    ensures bytes { OnOk result (IsHonest (D.medium disk.old)
        → into.new ≡ window place (take len (flat_map (sector_at (D.medium disk.old).contents) sectors.now))) }
    ensures reads { OnlyReads D.size D.medium D.counts (IsErr result) disk.old disk.new }
{
    let skip = (place % 512) as usize;
    let first = read_piece(disk, sectors, len, place / 512)?;
    if skip == 0 {
        *into = first;
        return Ok(());
    }
    let second = read_piece(disk, sectors, len, place / 512 + 1)?;
    into[..512 - skip].copy_from_slice(&first[skip..]);
    into[512 - skip..].copy_from_slice(&second[..skip]);
    Ok(())
}

// The k-th 512 bytes of the object.
fn read_piece<D: SectorDisk>(
    disk: &mut D,
    sectors: &[u32],
    len: u64,
    k: u64,
) -> Result<[u8; 512], DiskFault>
    requires all { length sectors.now ≡ sectors_for len }
    requires within { All (λ i. i < D.size disk.old) sectors.now }
    ensures bytes { IfOk result (λ piece. IsHonest (D.medium disk.old)
        → piece ≡ window (512 * k) (take len (flat_map (sector_at (D.medium disk.old).contents) sectors.now))) }
    ensures reads { OnlyReads D.size D.medium D.counts (IsErr result) disk.old disk.new }
{
    if k >= sectors.len() as u64 {
        return Ok([0; 512]);
    }
    let mut sector = [0; 512];
    disk.read(sectors[k as usize], &mut sector)?;
    Ok(front(sector, len - 512 * k))
}

// So many bytes of a sector, and zeros after them.
fn front(mut sector: [u8; 512], len: u64) -> [u8; 512]
    ensures { result ≡ take (min 512 len) sector ++ replicate (512 - min 512 len) 0 }
{
    if len < 512 {
        sector[len as usize..].fill(0);
    }
    sector
}
