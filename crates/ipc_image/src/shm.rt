//! A System V segment's object: its key and who may use it, its numbers and its bytes.

ghost use Rattle.std.specs.Prelude.{◌≡◌, ◌<◌, ◌*◌, ◌^◌, ⊤, refl};
ghost use Rattle.ipc_base.specs.Numbers.{FitFields};
ghost use Rattle.ipc_image.specs.Saved.{mode_with, shm_bytes, shm_sizes, FitsShm};
ghost use Rattle.ipc_image.specs.SavedParts.{put_shms, shm_perm, shm_stat};
ghost use Rattle.ipc_image.specs.Relations.Shms.{shm_one};

use crate::fields::{EIGHT, FOUR, put_row};
use crate::stored::Stored;
use crate::window::Window;
use ipc_base::{Field, Id, Mark, Moment, Pid, take_fields};
use ipc_engine::StateFault;
use ipc_perm::Perm;
use ipc_state::{Entry, KeyedEntry, State};
use shm_segment::{ShmStat, SysSegment};
use std::alloc::{AllocError, Global};

/// The bytes of a segment before its own.
const NUMBERS: u64 = 64;

/// The bit of a mode that tells that the segment is marked: it is destroyed when nobody has it attached.
const MARKED: u32 = 0o1000;

impl Stored for KeyedEntry<SysSegment> {
    ghost bytes_of = { shm_bytes };

    ghost Fits = { FitsShm };

    ghost IsSmall = { λ e. e.perm.mode < 512 };

    ghost IsMark = { λ e m. ⊤ };

    ghost FIRST = { 6 * 2 ^ 32 };

    const FIRST: u64 = 6 << 32;

    ghost items = { λ s. s.0.shm.entries };

    ghost put = { put_shms };

    ghost one = { shm_one };

    ghost place = { record { same = λ s. refl; found = λ s xs. refl; again = λ s xs ys. refl } };

    fn read_numbers(&self) {
        let _key = self.bound;
        let _uid = self.perm.uid;
        let _gid = self.perm.gid;
        let _cuid = self.perm.cuid;
        let _cgid = self.perm.cgid;
        read_stat(self.object.stat());
    }

    fn len(&self) -> u64 {
        NUMBERS + self.object.bytes().len() as u64
    }

    fn put(&self, window: &mut Window, mark: &mut Mark) {
        let stat = self.object.stat();
        let perm = self.perm;
        put_row(
            window,
            &[
                Field::U32(self.bound.cast_unsigned()),
                Field::U32(perm.uid),
                Field::U32(perm.gid),
                Field::U32(perm.cuid),
                Field::U32(perm.cgid),
                Field::U32(mode_of(perm, stat.is_marked)),
                Field::U64(stat.atime.0),
                Field::U64(stat.dtime.0),
                Field::U64(stat.ctime.0),
                Field::U32(stat.cpid.0),
                Field::U32(stat.lpid.0),
                Field::U64(stat.size as u64),
            ],
            self.object.bytes(),
        );
    }

    fn read(alloc: Global, bytes: &[u8]) -> Result<KeyedEntry<SysSegment>, StateFault> {
        let sizes = [
            FOUR, FOUR, FOUR, FOUR, FOUR, FOUR, EIGHT, EIGHT, EIGHT, FOUR, FOUR, EIGHT,
        ];
        let (numbers, text) = take_fields(bytes, &sizes).ok_or(StateFault::Unsound)?;
        if text.len() as u64 != numbers[11] || numbers[5] >= u64::from(2 * MARKED) {
            return Err(StateFault::Unsound);
        }
        Ok(Entry {
            bound: (numbers[0] as u32).cast_signed(),
            perm: perm_in(&numbers),
            object: SysSegment::restored(alloc, stat_in(&numbers), text)?,
        })
    }

    fn add(
        state: &mut State,
        number: u32,
        entry: KeyedEntry<SysSegment>,
    ) -> Result<(), AllocError> {
        state.restore_shm(Id(number), entry)
    }
}

// The mode, with the mark.
fn mode_of(perm: Perm, is_marked: bool) -> u32
    requires { perm.mode < 512 }
    ensures { result ≡ mode_with perm.mode is_marked }
{
    if is_marked {
        perm.mode + MARKED
    } else {
        perm.mode
    }
}

// Who may use it, by the numbers of its object.
fn perm_in(numbers: &[u64; 12]) -> Perm
    requires { FitFields shm_sizes numbers.now }
    ensures { result ≡ shm_perm numbers.now }
{
    Perm {
        uid: numbers[1] as u32,
        gid: numbers[2] as u32,
        cuid: numbers[3] as u32,
        cgid: numbers[4] as u32,
        mode: numbers[5] as u32 % MARKED,
    }
}

// Its moments, who attached it, and the mark.
fn stat_in(numbers: &[u64; 12]) -> ShmStat
    requires { FitFields shm_sizes numbers.now }
    ensures { result ≡ shm_stat numbers.now }
{
    ShmStat {
        size: 0,
        atime: Moment(numbers[6]),
        dtime: Moment(numbers[7]),
        ctime: Moment(numbers[8]),
        cpid: Pid(numbers[9] as u32),
        lpid: Pid(numbers[10] as u32),
        is_marked: numbers[5] >= u64::from(MARKED),
    }
}

fn read_stat(stat: ShmStat)
    ensures moments { (stat.atime.0 < 2 ^ 64) × (stat.dtime.0 < 2 ^ 64) × (stat.ctime.0 < 2 ^ 64) }
    ensures pids { (stat.cpid.0 < 2 ^ 32) × (stat.lpid.0 < 2 ^ 32) }
    ensures size { stat.size < 2 ^ 64 }
{}
