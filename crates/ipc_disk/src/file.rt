//! A disk in a file of the system: how the file is made, opened and locked.

ghost use Rattle.std.specs.Prelude.{◌≡◌, ◌≤◌, ◌^◌, ◌/◌, ◌+◌, ◌-◌, ◌%◌, min, IfOk};

use crate::progress::Silent;
use crate::system::{FileRuns, offset};
use crate::{DiskFault, JoinedDisk, Progress};
use std::alloc::Global;
use std::fs::{File, OpenOptions, Permissions, metadata};
use std::io;
use std::os::unix::fs::{FileExt, OpenOptionsExt, PermissionsExt};
use std::path::AsPath;
use std::rt::Files;

// A progress hears of each whole multiple of so many bytes of a file: a MiB.
const STEP: u64 = 1 << 20;

/// A disk in a file, on which it has an exclusive lock: until it is dropped, nobody else can open
/// the file as a disk. It joins neighbouring writes. That the file keeps what it is given is a
/// premise: no clause can say it, and it is tested.
pub type FileDisk = JoinedDisk<FileRuns>;

// How many whole sectors a file of this length has, but no more than a disk can have.
fn whole_sectors(len: u64) -> u32
    ensures { result ≡ min (len / 512) (2 ^ 32 - 1) }
{
    (len / 512).min(u64::from(u32::MAX)) as u32
}

// The next multiple of 4096, or the end if that comes first.
fn next_stop(at: u64, end: u64) -> u64
    ensures { result ≡ min (at - at % 4096 + 4096) end }
{
    (at - at % 4096).saturating_add(4096).min(end)
}

// The mode of a new file: its messages are its owner's alone, and so is its lock, for which reading
// would suffice.
const OWNERS: u32 = 0o600;

// Opens a plain file that is there, and locks it.
fn open_locked<R: Files<File = File>, P: AsPath>(rt: &R, path: P) -> io::Result<File> {
    let file = OpenOptions::new().read(true).write(true).open(rt, path)?;
    lock(&file)?;
    Ok(file)
}

// As `open_locked`, or makes the file if it is not there.
fn create_locked<R: Files<File = File>, P: AsPath>(rt: &R, path: P) -> io::Result<File> {
    let path = path.path_text();
    match open_locked(rt, path) {
        Err(error) if error.kind() == io::ErrorKind::NotFound => {}
        opened => return opened,
    }
    make_locked(rt, path, false)
}

// Makes a file, and locks it. If it has to be new, nothing may stand at its path, not even a link.
fn make_locked<R: Files<File = File>, P: AsPath>(rt: &R, path: P, new: bool) -> io::Result<File> {
    let file = OpenOptions::new()
        .read(true)
        .write(true)
        .create(true)
        .create_new(new)
        .mode(OWNERS)
        .open(rt, path)?;
    lock(&file)?;
    // A umask may have taken bits of the owner's. A file system without modes refuses this call.
    let _set = file.set_permissions(Permissions::from_mode(OWNERS));
    Ok(file)
}

// Opens a plain file that is there, to read it. A pipe is not opened: that would wait for one who writes it.
fn open_plain<R: Files<File = File>, P: AsPath>(rt: &R, path: P) -> io::Result<File> {
    let path = path.path_text();
    if !metadata(rt, path)?.is_file() {
        return Err(io::ErrorKind::InvalidInput.into());
    }
    File::open(rt, path)
}

// Locks a file, if it is a plain one.
fn lock(file: &File) -> io::Result<()> {
    if !file.metadata()?.is_file() {
        return Err(io::ErrorKind::InvalidInput.into());
    }
    file.try_lock()?;
    Ok(())
}

// Writes zeros from one place of a file to another, up to a multiple of 4096 each time. A hole
// would cost the file system a write to its own journal at a later sync. Tells at each whole MiB of
// the file, and at the end, how many sectors the file has by then.
fn fill<P: Progress>(file: &File, from: u64, end: u64, progress: &mut P) -> io::Result<()> {
    let zeros = [0; 4096];
    let mut at = from;
    while at < end {
        let stop = next_stop(at, end);
        file.write_all_at(&zeros[..(stop - at) as usize], at)?;
        at = stop;
        if at % STEP == 0 || at == end {
            progress.reached(whole_sectors(at));
        }
    }
    Ok(())
}

// Gives a file its length, and syncs it.
fn resize<P: Progress>(file: &File, len: u64, progress: &mut P) -> io::Result<()> {
    let old = file.metadata()?.len();
    if len < old {
        file.set_len(len)?;
    } else {
        fill(file, old, len, progress)?;
    }
    file.sync_all()
}

// Gives a file zeros from one place to another, and syncs it. What stands there is cut off.
fn extend<P: Progress>(file: &File, from: u64, end: u64, progress: &mut P) -> io::Result<()> {
    file.set_len(from)?;
    fill(file, from, end, progress)?;
    file.sync_all()
}

impl FileDisk {
    ghost use Rattle.ipc_disk.specs.Joined.{disk_under, IsUnused};
    ghost use Rattle.ipc_disk.specs.File.{file_size, file_syncs};

    /// A disk of so many sectors, in a new file or in one that is there. A new file has mode 0600.
    /// One that is there keeps its mode; a longer one is cut, a shorter one keeps its bytes and gets
    /// zeros after them. Then the file is synced. `DiskFault` if the system refuses a call or memory,
    /// if it is no plain file, or if another has locked it; a file that is locked stays as it is.
    pub fn create<R: Files<File = File> + AllocGlobal, P: AsPath>(
        rt: &R,
        path: P,
        sectors: u32,
    ) -> Result<FileDisk, DiskFault>
        ensures size { IfOk result (λ disk. file_size (disk_under disk) ≡ sectors) }
        ensures unused { IfOk result (λ disk. IsUnused 0 disk) }
    {
        FileDisk::create_with(rt, path, sectors, &mut Silent)
    }

    /// As `create`. While zeros are written, `progress` hears how many sectors the file has by
    /// then: at each whole MiB of the file, and at its end, so `sectors` is the last number. Of a
    /// file that gets no zeros, since it is cut or has its length, it hears nothing.
    pub fn create_with<R: Files<File = File> + AllocGlobal, P: AsPath, T: Progress>(
        rt: &R,
        path: P,
        sectors: u32,
        progress: &mut T,
    ) -> Result<FileDisk, DiskFault>
        ensures size { IfOk result (λ disk. file_size (disk_under disk) ≡ sectors) }
        ensures unused { IfOk result (λ disk. IsUnused 0 disk) }
    {
        let Ok(file) = create_locked(rt, path) else {
            return Err(DiskFault);
        };
        FileDisk::resized(rt.alloc(), file, sectors, progress)
    }

    /// As `create_with`, but the file has to be new: `DiskFault` if anything stands at the path, and then
    /// that stays as it is. If the system refuses a later call, the file stays as far as it was made.
    pub fn create_new_with<R: Files<File = File> + AllocGlobal, P: AsPath, T: Progress>(
        rt: &R,
        path: P,
        sectors: u32,
        progress: &mut T,
    ) -> Result<FileDisk, DiskFault>
        ensures size { IfOk result (λ disk. file_size (disk_under disk) ≡ sectors) }
        ensures unused { IfOk result (λ disk. IsUnused 0 disk) }
    {
        let Ok(file) = make_locked(rt, path, true) else {
            return Err(DiskFault);
        };
        FileDisk::resized(rt.alloc(), file, sectors, progress)
    }

    // The disk of so many sectors in a file that is locked.
    fn resized<T: Progress>(
        alloc: Global,
        file: File,
        sectors: u32,
        progress: &mut T,
    ) -> Result<FileDisk, DiskFault>
        ensures size { IfOk result (λ disk. file_size (disk_under disk) ≡ sectors) }
        ensures unused { IfOk result (λ disk. IsUnused 0 disk) }
    {
        if resize(&file, offset(sectors), progress).is_err() {
            return Err(DiskFault);
        }
        FileDisk::over(alloc, FileRuns::new(file, sectors, false))
    }

    /// The disk in a file that is there, with its whole sectors, at most 4294967295. `DiskFault` if
    /// the system refuses a call or memory, if it is no plain file, or if another has locked it.
    pub fn open<R: Files<File = File> + AllocGlobal, P: AsPath>(
        rt: &R,
        path: P,
    ) -> Result<FileDisk, DiskFault>
        ensures unused { IfOk result (λ disk. IsUnused 0 disk) }
    {
        let Ok(file) = open_locked(rt, path) else {
            return Err(DiskFault);
        };
        let Ok(metadata) = file.metadata() else {
            return Err(DiskFault);
        };
        let sectors = whole_sectors(metadata.len());
        FileDisk::over(rt.alloc(), FileRuns::new(file, sectors, false))
    }

    /// The disk in a file that is there, to be read, with its whole sectors, at most 4294967295. It is not
    /// locked: another may have it as a disk, and write it meanwhile. So each sector is read until two reads
    /// agree, and a write fails. `DiskFault` if the system refuses a call or memory, or if it is no plain file.
    pub fn open_to_read<R: Files<File = File> + AllocGlobal, P: AsPath>(
        rt: &R,
        path: P,
    ) -> Result<FileDisk, DiskFault>
        ensures unused { IfOk result (λ disk. IsUnused 0 disk) }
    {
        let Ok(file) = open_plain(rt, path) else {
            return Err(DiskFault);
        };
        let Ok(metadata) = file.metadata() else {
            return Err(DiskFault);
        };
        let sectors = whole_sectors(metadata.len());
        FileDisk::over(rt.alloc(), FileRuns::new(file, sectors, true))
    }

    /// As `open`, but a file with fewer whole sectors gets so many: those that it has stay, and zeros
    /// come after them; what makes no whole sector is cut off first. Then it is synced. A crash
    /// meanwhile leaves some of the new sectors, or all, or none. `DiskFault` as of `open`, and if the
    /// system refuses to write; then the file is cut to the sectors that it had.
    pub fn grow<R: Files<File = File> + AllocGlobal, P: AsPath>(
        rt: &R,
        path: P,
        sectors: u32,
    ) -> Result<FileDisk, DiskFault>
        ensures size { IfOk result (λ disk. sectors ≤ file_size (disk_under disk)) }
        ensures unused { IfOk result (λ disk. IsUnused 0 disk) }
    {
        FileDisk::grow_with(rt, path, sectors, &mut Silent)
    }

    /// As `grow`. While zeros are written, `progress` hears how many sectors the file has by then, as
    /// of `create_with`.
    pub fn grow_with<R: Files<File = File> + AllocGlobal, P: AsPath, T: Progress>(
        rt: &R,
        path: P,
        sectors: u32,
        progress: &mut T,
    ) -> Result<FileDisk, DiskFault>
        ensures size { IfOk result (λ disk. sectors ≤ file_size (disk_under disk)) }
        ensures unused { IfOk result (λ disk. IsUnused 0 disk) }
    {
        let Ok(file) = open_locked(rt, path) else {
            return Err(DiskFault);
        };
        let Ok(metadata) = file.metadata() else {
            return Err(DiskFault);
        };
        let had = whole_sectors(metadata.len());
        if sectors <= had {
            return FileDisk::over(rt.alloc(), FileRuns::new(file, had, false));
        }
        if extend(&file, offset(had), offset(sectors), progress).is_err() {
            let _cut = file.set_len(offset(had));
            return Err(DiskFault);
        }
        FileDisk::over(rt.alloc(), FileRuns::new(file, sectors, false))
    }

    // The disk over the sectors of a file. `DiskFault` if there is no memory for what waits.
    pub(crate) fn over(alloc: Global, runs: FileRuns) -> Result<FileDisk, DiskFault>
        ensures under { IfOk result (λ disk. disk_under disk ≡ runs) }
        ensures unused { IfOk result (λ disk. IsUnused (file_syncs runs) disk) }
    {
        let Ok(disk) = JoinedDisk::new(alloc, runs) else {
            return Err(DiskFault);
        };
        Ok(disk)
    }
}
