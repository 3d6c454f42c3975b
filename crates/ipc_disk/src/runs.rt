//! A disk that takes runs of sectors: its four calls, and what they mean.

ghost use Rattle.std.specs.Prelude.{◌≡◌, ◌≤◌, ◌<◌, ◌^◌, ◌+◌, ℕ, Some, OnOk, OnErr, length};
ghost use Rattle.std.specs.Prelude.{slice_get};
ghost use Rattle.ipc_disk.specs.Counts.{counted};
ghost use Rattle.ipc_disk.specs.Medium.{Image, Medium, IsShaped, IsHonest, IsDurable, Stays};
ghost use Rattle.ipc_disk.specs.Runs.{WritesRun, set_run};

use crate::DiskFault;

/// A disk of sectors of 512 bytes each, numbered from 0, on which one call writes neighbouring
/// sectors. What reads give is promised of a disk that is honest (`IsHonest`). An `Err` says that
/// the disk failed at that call.
pub trait RunDisk {
    /// How many sectors it has.
    ghost size: { Self → ℕ };

    /// What reads give, and what a crash may leave.
    ghost medium: { Self → Medium };

    /// Its syncs that were Ok.
    ghost syncs: { Self → ℕ };

    /// How many sectors it has.
    fn sectors(&self) -> u32
        ensures { result ≡ size self.now };

    /// Reads the sector `at`. After an `Err` the bytes in `into` are any.
    fn read(&mut self, at: u32, into: &mut [u8; 512]) -> Result<(), DiskFault>
        requires { at < size self.old }
        // What is read.
        ensures bytes { OnOk result (IsHonest (medium self.old)
            → slice_get (medium self.old).contents at ≡ Some into.new) }
        // A crash at any moment: the call makes no new image.
        ensures medium { Stays (medium self.old) (medium self.new) }
        ensures size { size self.new ≡ size self.old }
        ensures syncs { syncs self.new ≡ syncs self.old };

    /// Writes the sectors from `first` on. Until a sync is Ok, a crash may leave each as it was.
    fn write(&mut self, first: u32, from: &[[u8; 512]]) -> Result<(), DiskFault>
        requires { first + length from.now ≤ size self.old }
        // What is read from then on.
        ensures written { OnOk result (IsHonest (medium self.old)
            → (medium self.new).contents ≡ set_run first from.now (medium self.old).contents) }
        // A crash at any moment, also of a write that fails: some of the sectors are written.
        ensures medium { WritesRun first from.now (medium self.old) (medium self.new) }
        ensures size { size self.new ≡ size self.old }
        ensures syncs { syncs self.new ≡ syncs self.old };

    /// Once it is Ok, a crash leaves what is read. After an `Err` it leaves what it could before.
    fn sync(&mut self) -> Result<(), DiskFault>
        // What a crash leaves from then on.
        ensures durable { OnOk result (IsDurable (medium self.new)) }
        // A crash at any moment: the call makes no new image.
        ensures medium { Stays (medium self.old) (medium self.new) }
        ensures size { size self.new ≡ size self.old }
        ensures ok { OnOk result (syncs self.new ≡ counted (syncs self.old) 1) }
        ensures err { OnErr result (syncs self.new ≡ syncs self.old) };

    /// The number of a sector fits its type.
    ghost fits: { (disk : Self) → size disk < 2 ^ 32 };

    /// The count is not past its end.
    ghost syncs_fit: { (disk : Self) → syncs disk < 2 ^ 64 };

    /// Each image has all the sectors; what an honest disk reads is one of them.
    ghost shaped: { (disk : Self) (image : Image) → (medium disk).images_now image
        → IsShaped (size disk) image };

    /// Since this moment there is no image but those of now.
    ghost only_now: { (disk : Self) (image : Image)
        → (medium disk).images_since (medium disk).moment image
        → (medium disk).images_now image };
}
