//! A named semaphore's object: its numbers and its name.

ghost use Rattle.std.specs.Prelude.{◌*◌, ◌^◌, ⊤, refl};
ghost use Rattle.ipc_image.specs.Saved.{psem_bytes, FitsPsem};
ghost use Rattle.ipc_image.specs.SavedParts.{put_psems, IsSmallNamed};
ghost use Rattle.ipc_image.specs.Relations.Named.{psem_one};

use crate::fields::{FOUR, put_row};
use crate::perm::own_perm;
use crate::stored::Stored;
use crate::window::Window;
use ipc_base::{Field, Mark, take_fields};
use ipc_engine::StateFault;
use ipc_keys::Name;
use ipc_state::{Entry, NamedEntry, State};
use posix_sem::{NamedSem, SEM_VALUE_MAX};
use std::alloc::{AllocError, Global};

/// The bytes of a semaphore before its name.
const NUMBERS: u64 = 20;

impl Stored for NamedEntry<NamedSem> {
    ghost bytes_of = { psem_bytes };

    ghost Fits = { FitsPsem };

    ghost IsSmall = { IsSmallNamed (λ value. ⊤) };

    ghost IsMark = { λ e m. ⊤ };

    ghost FIRST = { 4 * 2 ^ 32 };

    const FIRST: u64 = 4 << 32;

    ghost items = { λ s. s.0.psem.entries };

    ghost put = { put_psems };

    ghost one = { psem_one };

    ghost place = { record { same = λ s. refl; found = λ s xs. refl; again = λ s xs ys. refl } };

    fn read_numbers(&self) {
        let _uid = self.perm.uid;
        let _gid = self.perm.gid;
        let _mode = self.perm.mode;
        let _value = self.object.value();
    }

    fn len(&self) -> u64 {
        NUMBERS + self.bound.bytes().len() as u64
    }

    fn put(&self, window: &mut Window, mark: &mut Mark) {
        let name = self.bound.bytes();
        put_row(
            window,
            &[
                Field::U32(self.perm.uid),
                Field::U32(self.perm.gid),
                Field::U32(self.perm.mode),
                Field::U32(self.object.value()),
                Field::U32(name.len() as u32),
            ],
            name,
        );
    }

    fn read(alloc: Global, bytes: &[u8]) -> Result<NamedEntry<NamedSem>, StateFault> {
        let (numbers, name) = take_fields(bytes, &[FOUR, FOUR, FOUR, FOUR, FOUR]).ok_or(
            StateFault::Unsound,
        )?;
        let value = numbers[3] as u32;
        if name.len() as u64 != numbers[4] || value > SEM_VALUE_MAX {
            return Err(StateFault::Unsound);
        }
        Ok(Entry {
            bound: Name::new(alloc, name)?,
            perm: own_perm(numbers[0] as u32, numbers[1] as u32, numbers[2] as u32),
            object: NamedSem::new(value),
        })
    }

    fn add(state: &mut State, number: u32, entry: NamedEntry<NamedSem>) -> Result<(), AllocError> {
        state.restore_psem(number, entry)
    }
}
