//! Three calls of the system on a file: all that a disk in a file rests on without a proof.

ghost use Rattle.std.specs.Prelude.{◌≡◌, ◌<◌, ◌^◌, ◌*◌, ◌↔◌, IsOk};

use crate::{DiskFault, RunDisk};
use std::fs::File;
use std::io;
use std::os::unix::fs::FileExt;

/// The sectors of an open file. Of what the file keeps nothing is claimed: that it keeps what an
/// honest disk keeps is the premise of a disk in a file.
#[derive(Drop)]
pub struct FileRuns {
    file: File,
    sectors: u32,
    syncs: u64,
    // Another may write them meanwhile.
    shared: bool,
    ghost few: { sectors < 2 ^ 32 },
    ghost counted: { syncs < 2 ^ 64 },
}

// How often a sector is read that another writes, until two reads agree.
const MOST_READS: u32 = 100;

// The place of a sector in the file.
pub(crate) fn offset(at: u32) -> u64
    ensures { result ≡ at * 512 }
{
    u64::from(at) * 512
}

// What the system answered.
fn fault_of(done: io::Result<()>) -> Result<(), DiskFault>
    ensures { IsOk result ↔ IsOk done }
{
    if done.is_err() {
        return Err(DiskFault);
    }
    Ok(())
}

impl FileRuns {
    ghost use Rattle.ipc_disk.specs.File.{file_size, file_syncs};

    // So many sectors of a file, which another may write meanwhile if it is shared.
    pub(crate) fn new(file: File, sectors: u32, shared: bool) -> FileRuns
        ensures size { file_size result ≡ sectors }
        ensures unused { file_syncs result ≡ 0 }
    {
        FileRuns {
            file,
            sectors,
            syncs: 0,
            shared,
        }
    }
}

// Reads a sector until it reads the same twice: beside a write a read may give some bytes of before and some of after.
fn read_steady(file: &File, at: u32, into: &mut [u8; 512]) -> io::Result<()> {
    let mut last = [0; 512];
    file.read_exact_at(&mut last, offset(at))?;
    for _ in 0..MOST_READS {
        file.read_exact_at(into, offset(at))?;
        if *into == last {
            return Ok(());
        }
        last = *into;
    }
    Err(io::ErrorKind::WouldBlock.into())
}

impl RunDisk for FileRuns {
    ghost use Rattle.ipc_disk.specs.File.{file_size, file_medium, file_syncs};

    ghost size = { file_size };

    ghost medium = { file_medium };

    ghost syncs = { file_syncs };

    ghost fits = { λ file. file.few };

    ghost syncs_fit = { λ file. file.counted };

    ghost shaped = { λ file image left. absurd left };

    ghost only_now = { λ file image left. left };

    fn sectors(&self) -> u32 {
        self.sectors
    }

    fn read(&mut self, at: u32, into: &mut [u8; 512]) -> Result<(), DiskFault> {
        if self.shared {
            return fault_of(read_steady(&self.file, at, into));
        }
        fault_of(self.file.read_exact_at(into, offset(at)))
    }

    fn write(&mut self, first: u32, from: &[[u8; 512]]) -> Result<(), DiskFault> {
        fault_of(self.file.write_all_at(from.as_flattened(), offset(first)))
    }

    fn sync(&mut self) -> Result<(), DiskFault> {
        fault_of(self.file.sync_data())?;
        self.syncs = self.syncs.saturating_add(1);
        Ok(())
    }
}
