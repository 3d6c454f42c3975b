//! A segment's object: its numbers, its name and its bytes.

ghost use Rattle.std.specs.Prelude.{◌*◌, ◌^◌, ⊤, refl};
ghost use Rattle.ipc_image.specs.Saved.{segment_bytes, FitsSegment};
ghost use Rattle.ipc_image.specs.SavedParts.{put_segments, IsSmallNamed};
ghost use Rattle.ipc_image.specs.Relations.Named.{segment_one};

use crate::fields::{EIGHT, FOUR, put_row};
use crate::perm::own_perm;
use crate::stored::Stored;
use crate::window::Window;
use ipc_base::{Field, Mark, take_fields};
use ipc_engine::StateFault;
use ipc_keys::Name;
use ipc_state::{Entry, NamedEntry, State};
use shm_segment::Segment;
use std::alloc::{AllocError, Global};

/// The bytes of a segment before its name.
const NUMBERS: u64 = 24;

impl Stored for NamedEntry<Segment> {
    ghost bytes_of = { segment_bytes };

    ghost Fits = { FitsSegment };

    ghost IsSmall = { IsSmallNamed (λ x. ⊤) };

    ghost IsMark = { λ e m. ⊤ };

    ghost FIRST = { 5 * 2 ^ 32 };

    const FIRST: u64 = 5 << 32;

    ghost items = { λ s. s.0.pshm.entries };

    ghost put = { put_segments };

    ghost one = { segment_one };

    ghost place = { record { same = λ s. refl; found = λ s xs. refl; again = λ s xs ys. refl } };

    fn read_numbers(&self) {
        let _uid = self.perm.uid;
        let _gid = self.perm.gid;
        let _mode = self.perm.mode;
        let _length = self.object.len();
    }

    fn len(&self) -> u64 {
        NUMBERS + self.bound.bytes().len() as u64 + self.object.len() as u64
    }

    fn put(&self, window: &mut Window, mark: &mut Mark) {
        let name = self.bound.bytes();
        put_row(
            window,
            &[
                Field::U32(self.perm.uid),
                Field::U32(self.perm.gid),
                Field::U32(self.perm.mode),
                Field::U32(name.len() as u32),
                Field::U64(self.object.len() as u64),
            ],
            name,
        );
        window.put(self.object.bytes());
    }

    fn read(alloc: Global, bytes: &[u8]) -> Result<NamedEntry<Segment>, StateFault> {
        let (numbers, after) = take_fields(bytes, &[FOUR, FOUR, FOUR, FOUR, EIGHT]).ok_or(
            StateFault::Unsound,
        )?;
        let (name, rest) = after
            .split_at_checked(numbers[3] as usize)
            .ok_or(StateFault::Unsound)?;
        if rest.len() as u64 != numbers[4] {
            return Err(StateFault::Unsound);
        }
        Ok(Entry {
            bound: Name::new(alloc, name)?,
            perm: own_perm(numbers[0] as u32, numbers[1] as u32, numbers[2] as u32),
            object: Segment::of_bytes(alloc, rest)?,
        })
    }

    fn add(state: &mut State, number: u32, entry: NamedEntry<Segment>) -> Result<(), AllocError> {
        state.restore_pshm(number, entry)
    }
}
