//! A look at a device that somebody else may have, and may write meanwhile.

ghost use Rattle.std.specs.Prelude.{◌≡◌, ◌⊎◌, IfOk, IfErr, IfSome, length};
ghost use Rattle.ipc_limits.specs.declared.limits.Limits.{Limits};
ghost use Rattle.ipc_disk.specs.Medium.{IsHonest};
ghost use Rattle.ipc_state.specs.State.{State};
ghost use Rattle.ipc_store.specs.Batch.{most_bytes};
ghost use Rattle.ipc_store.specs.Image.{form_at, StandsFor};
ghost use Rattle.ipc_store.specs.Look.{LeavesAlone};
ghost use Rattle.ipc_store.specs.Refusals.{IsRefusal};
ghost use Rattle.ipc_store.specs.Relations.Look.{Tells};
ghost use Rattle.ipc_store.specs.declared.fault.OpenError.TheVariants as errors;

use crate::batch::MOST_BYTES;
use crate::fault::OpenError;
use crate::loading::read_all;
use crate::opening::room_for;
use ipc_disk::{DiskFault, SectorDisk};
use ipc_engine::Engine;
use ipc_image::{JOURNAL, SUPERBLOCK};
use std::alloc::{AllocError, Global};

/// How often a device is read that is written meanwhile.
const MOST_LOOKS: u32 = 100;

/// The machine that a device stands for as it is now, without a restart. Nothing but reads reaches the disk, so another
/// may have the device, and may write it meanwhile. What is read counts if the superblock and the root are the same
/// before and after: a save writes objects into free sectors, and then a new root tells of them. Otherwise, or if a
/// read fails, the device is read again, a hundred times at most. `Device` if none of the reads counts.
pub fn look<D: SectorDisk>(alloc: Global, disk: &mut D) -> Result<Engine, OpenError>
    // The state for which the disk stands, if nobody writes it meanwhile.
    ensures ok { IfOk result (λ engine. IsHonest (D.medium disk.old)
        → StandsFor engine.limits engine.state (D.medium disk.old).contents) }
    // Refusals.
    ensures refusals { IfErr result (λ error. (limits : Limits) (s : State) → IsHonest (D.medium disk.old)
        → StandsFor limits s (D.medium disk.old).contents → (error ≡ errors.Device) ⊎ (error ≡ errors.NoMemory)) }
    ensures refused { IfErr result (λ error. IsHonest (D.medium disk.old)
        → IsRefusal (form_at (D.medium disk.old).contents) (D.medium disk.old).contents error) }
    // It makes no write and no sync.
    ensures alone { LeavesAlone D.size D.medium D.counts disk.old disk.new }
{
    let mut room = match room_for(alloc, MOST_BYTES) {
        Ok(room) => room,
        Err(AllocError) => return Err(OpenError::NoMemory),
    };
    for _ in 0..MOST_LOOKS {
        if let Some(found) = look_once(alloc, disk, &mut room) {
            return found;
        }
    }
    Err(OpenError::Device)
}

// What a look finds, if it counts.
fn look_once<D: SectorDisk>(
    alloc: Global,
    disk: &mut D,
    room: &mut [u8],
) -> Option<Result<Engine, OpenError>>
    requires { length room.old ≡ most_bytes }
    ensures tells { IfSome result (λ found. IsHonest (D.medium disk.old) → Tells found (D.medium disk.old).contents) }
    ensures room { length room.new ≡ most_bytes }
    ensures alone { LeavesAlone D.size D.medium D.counts disk.old disk.new }
{
    let before = read_heads(disk);
    let found = read_all(alloc, disk, room);
    let after = read_heads(disk);
    let (Ok(before), Ok(after)) = (before, after) else {
        return None;
    };
    if before != after {
        return None;
    }
    match found {
        Ok((_, _, engine)) => Some(Ok(engine)),
        Err(OpenError::Device) => None,
        Err(error) => Some(Err(error)),
    }
}

/// What tells where all else lies: the superblock, and the sectors one of which is the root.
#[derive(Clone, Copy, PartialEq, Eq)]
struct Heads {
    superblock: [u8; 512],
    first: [u8; 512],
    second: [u8; 512],
}

// These sectors; zeros, if the disk has not all of them.
fn read_heads<D: SectorDisk>(disk: &mut D) -> Result<Heads, DiskFault>
    ensures alone { LeavesAlone D.size D.medium D.counts disk.old disk.new }
{
    let mut heads = Heads {
        superblock: [0; 512],
        first: [0; 512],
        second: [0; 512],
    };
    if JOURNAL <= disk.sectors() {
        disk.read(SUPERBLOCK, &mut heads.superblock)?;
        disk.read(1, &mut heads.first)?;
        disk.read(2, &mut heads.second)?;
    }
    Ok(heads)
}
