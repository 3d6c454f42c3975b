//! The object of a thing with a key: its key and who may use it, and then what its kind has.

ghost use Rattle.std.specs.Prelude.{◌≡◌, ◌≢◌, ◌++◌, ℕ, List, IfSome, IfNone, FitsSigned};
ghost use Rattle.std.specs.Int.{w32};
ghost use Rattle.ipc_base.specs.Numbers.{fields_bytes, FitFields};
ghost use Rattle.ipc_image.specs.Saved.{head_sizes, head_numbers, entry_bytes, FitsEntry};
ghost use Rattle.ipc_image.specs.SavedParts.{IsMarkIn};
ghost use Rattle.ipc_image.specs.Window.{passed};
ghost use Rattle.ipc_image.specs.Relations.Entries.{entry_one};

use crate::fields::{FOUR, put_fields};
use crate::kind::Kind;
use crate::perm::{perm_in, read_perm};
use crate::stored::Stored;
use crate::window::Window;
use ipc_base::{Field, Id, Mark, take_fields};
use ipc_engine::StateFault;
use ipc_state::{Entry, KeyedEntry, State};
use std::alloc::{AllocError, Global};

impl<T: Kind> Stored for KeyedEntry<T> {
    ghost bytes_of = { entry_bytes T.sizes T.numbers T.part_bytes T.parts };

    ghost Fits = { FitsEntry T.sizes T.numbers T.FitsPart T.parts };

    ghost IsSmall = { λ e. T.IsSmall e.object };

    ghost IsMark = { λ e m. IsMarkIn T.part_bytes (T.parts e.object) m };

    ghost FIRST = { T.FIRST };

    const FIRST: u64 = T::FIRST;

    ghost items = { T.items };

    ghost put = { T.put };

    ghost one = { entry_one T.sizes T.numbers T.part_bytes T.FitsPart T.parts T.part_one T.from T.whole };

    ghost place = { T.place };

    fn read_numbers(&self) {
        read_head(self);
        self.object.read_numbers();
    }

    fn len(&self) -> u64 {
        24 + self.object.len()
    }

    fn put(&self, window: &mut Window, mark: &mut Mark) {
        put_head(window, self);
        self.object.put_numbers(window);
        self.object.put_parts(window, mark);
    }

    fn read(alloc: Global, bytes: &[u8]) -> Result<KeyedEntry<T>, StateFault> {
        let (head, rest) = take_head(bytes).ok_or(StateFault::Unsound)?;
        let (mut object, rest) = T::read_head(alloc, rest)?;
        object.read_parts(rest)?;
        Ok(Entry {
            bound: head.bound,
            perm: head.perm,
            object,
        })
    }

    fn add(state: &mut State, number: u32, entry: KeyedEntry<T>) -> Result<(), AllocError> {
        T::add(state, Id(number), entry)
    }
}

/// Its key and who may use it pass the window.
pub(crate) fn put_head<T>(window: &mut Window, entry: &KeyedEntry<T>)
    ensures { window.new ≡ passed (fields_bytes head_sizes (head_numbers entry.now.bound entry.now.perm)) window.old }
{
    let perm = entry.perm;
    put_fields(
        window,
        &[
            Field::U32(entry.bound.cast_unsigned()),
            Field::U32(perm.uid),
            Field::U32(perm.gid),
            Field::U32(perm.cuid),
            Field::U32(perm.cgid),
            Field::U32(perm.mode),
        ],
    );
}

/// An entry with its key and who may use it, and no object yet; and the bytes after them.
pub(crate) fn take_head(bytes: &[u8]) -> Option<(KeyedEntry<()>, &[u8])>
    ensures some { IfSome result (λ found. FitsSigned w32 found.0.bound
        × FitFields head_sizes (head_numbers found.0.bound found.0.perm)
        × (bytes.now ≡ fields_bytes head_sizes (head_numbers found.0.bound found.0.perm) ++ found.1.now)) }
    ensures none { IfNone result ((ns rest : List ℕ) → FitFields head_sizes ns
        → bytes.now ≢ fields_bytes head_sizes ns ++ rest) }
{
    let (numbers, rest) = take_fields(bytes, &[FOUR, FOUR, FOUR, FOUR, FOUR, FOUR])?;
    let head = Entry {
        bound: (numbers[0] as u32).cast_signed(),
        perm: perm_in(&numbers),
        object: (),
    };
    Some((head, rest))
}

// Reads the key of an entry and who may use it, so that each number has its place.
fn read_head<T>(entry: &KeyedEntry<T>)
    ensures key { FitsSigned w32 entry.now.bound }
    ensures head { FitFields head_sizes (head_numbers entry.now.bound entry.now.perm) }
{
    let _key = entry.bound;
    read_perm(entry.perm);
}
