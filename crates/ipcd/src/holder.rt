//! Who has the lock of a file that is to be a device.

use std::fs::{File, Metadata, TryLockError, read_to_string};
use std::os::unix::fs::MetadataExt;
use std::rt::Files;

/// Where the system lists the locks of all files, a line each, as
/// `1: FLOCK  ADVISORY  WRITE 4711 fe:00:11075585 0 EOF`.
const LOCKS: &str = "/proc/locks";

/// Who has the lock of a file, as far as the system tells.
#[derive(Clone, Copy)]
pub enum Holder {
    Nobody,
    /// The process of this number.
    Process(u32),
    /// Somebody whom the system does not name.
    Somebody,
}

/// A file, as a line of the list names it: the two numbers of its file system, and its inode's.
#[derive(Clone, Copy, PartialEq, Eq)]
struct Place {
    major: u64,
    minor: u64,
    inode: u64,
}

impl Place {
    fn of(metadata: &Metadata) -> Place {
        let device = metadata.dev();
        Place {
            major: (device >> 8 & 0xfff) | (device >> 32 & 0xffff_f000),
            minor: (device & 0xff) | (device >> 12 & 0xffff_ff00),
            inode: metadata.ino(),
        }
    }

    // As it stands in a line: `fe:00:11075585`.
    fn named(word: &str) -> Option<Place> {
        let (device, inode) = word.rsplit_once(':')?;
        let (major, minor) = device.split_once(':')?;
        Some(Place {
            major: u64::from_str_radix(major, 16).ok()?,
            minor: u64::from_str_radix(minor, 16).ok()?,
            inode: inode.parse().ok()?,
        })
    }
}

/// Who has the lock of a plain file. Where the list of locks tells it, the file is not locked for that. It does not if
/// it cannot be read, and may not if it has a file with the same inode on another file system: some file systems have
/// other numbers there. Then the file is locked as who only reads it may, for a moment.
pub fn holder_of<R: Files<File = File> + AllocGlobal>(
    rt: &R,
    path: &str,
    metadata: &Metadata,
) -> Holder {
    let wanted = Place::of(metadata);
    let Ok(locks) = read_to_string(rt, LOCKS) else {
        return holder_tried(rt, path);
    };
    let mut is_told = true;
    for line in locks.lines() {
        let Some((process, place)) = lock_in(line) else {
            continue;
        };
        if place == wanted {
            return process;
        }
        is_told &= place.inode != wanted.inode;
    }
    if is_told {
        Holder::Nobody
    } else {
        holder_tried(rt, path)
    }
}

// The lock of a whole file in a line of the list: who has it, and of which file. Of one that is waited for the second
// word is an arrow.
fn lock_in(line: &str) -> Option<(Holder, Place)> {
    let mut words = line.split_whitespace();
    if words.nth(1)? != "FLOCK" {
        return None;
    }
    let process = words.nth(2)?;
    let place = Place::named(words.next()?)?;
    Some((holder_named(process), place))
}

// A process that this one may not see has no number above 0.
fn holder_named(process: &str) -> Holder {
    match process.parse() {
        Ok(number) if number > 0 => Holder::Process(number),
        _ => Holder::Somebody,
    }
}

// Whether anybody has the lock: it is asked for as who only reads may have it, and let go at once.
fn holder_tried<R: Files<File = File>>(rt: &R, path: &str) -> Holder {
    let Ok(file) = File::open(rt, path) else {
        return Holder::Nobody;
    };
    match file.try_lock_shared() {
        Err(TryLockError::WouldBlock) => Holder::Somebody,
        _ => Holder::Nobody,
    }
}
