//! A disk of sectors: its four calls, and what they mean.

ghost use Rattle.std.specs.Prelude.{◌≡◌, ◌<◌, ◌^◌, ℕ, Some, OnOk, slice_get, slice_set};
ghost use Rattle.ipc_disk.specs.Calls.{IsOneCall};
ghost use Rattle.ipc_disk.specs.Counts.{Counts, InRange, with_write, with_sync};
ghost use Rattle.ipc_disk.specs.Medium.{Image, Medium, IsShaped, IsHonest, IsDurable, Stays, Writes};

use thiserror::Error;

/// The disk answered that a call failed. A write that failed counts as possibly done.
#[derive(Debug, Clone, Copy, PartialEq, Eq, Error)]
#[error("the disk has failed")]
pub struct DiskFault;

/// A disk of sectors of 512 bytes each, numbered from 0. What reads give is promised of a disk that is honest
/// (`IsHonest`), the counts of every disk. An `Err` says that the disk failed at that call.
pub trait SectorDisk {
    /// How many sectors it has.
    ghost size: { Self → ℕ };

    /// What reads give, and what a crash may leave.
    ghost medium: { Self → Medium };

    /// Its failures so far, and its writes and syncs that were Ok.
    ghost counts: { Self → Counts };

    /// How many sectors it has.
    fn sectors(&self) -> u32
        ensures { result ≡ size self.now };

    /// Reads the sector `at`. After an `Err` the bytes in `into` are any.
    fn read(&mut self, at: u32, into: &mut [u8; 512]) -> Result<(), DiskFault>
        requires { at < size self.old }
        // What is read.
        ensures bytes { OnOk result (IsHonest (medium self.old)
            → slice_get (medium self.old).contents at ≡ Some into.new) }
        // A crash at any moment: the call makes no new image.
        ensures medium { Stays (medium self.old) (medium self.new) }
        // Failures and counts.
        ensures call { IsOneCall size counts result (λ n. n) self.old self.new };

    /// Writes the sector `at`. Until a sync is Ok, a crash may leave the sector as it was.
    fn write(&mut self, at: u32, from: &[u8; 512]) -> Result<(), DiskFault>
        requires { at < size self.old }
        // What is read from then on.
        ensures written { OnOk result (IsHonest (medium self.old)
            → (medium self.new).contents ≡ slice_set (medium self.old).contents at from.now) }
        // A crash at any moment, also of a write that fails: the sector is as it was, or written.
        ensures medium { Writes at from.now (medium self.old) (medium self.new) }
        // Failures and counts.
        ensures call { IsOneCall size counts result with_write self.old self.new };

    /// Once it is Ok, a crash leaves what is read. After an `Err` a crash leaves what it could before.
    fn sync(&mut self) -> Result<(), DiskFault>
        // What a crash leaves from then on.
        ensures durable { OnOk result (IsDurable (medium self.new)) }
        // A crash at any moment: the call makes no new image.
        ensures medium { Stays (medium self.old) (medium self.new) }
        // Failures and counts.
        ensures call { IsOneCall size counts result with_sync self.old self.new };

    /// The number of a sector fits its type.
    ghost fits: { (disk : Self) → size disk < 2 ^ 32 };

    /// No count is past its end.
    ghost in_range: { (disk : Self) → InRange (counts disk) };

    /// Each image has all the sectors; what an honest disk reads is one of them.
    ghost shaped: { (disk : Self) (image : Image) → (medium disk).images_now image
        → IsShaped (size disk) image };

    /// Since this moment there is no image but those of now.
    ghost only_now: { (disk : Self) (image : Image) → (medium disk).images_since (medium disk).moment image
        → (medium disk).images_now image };
}
