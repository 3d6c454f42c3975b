//! The adjustments of one process.

ghost use Rattle.std.specs.Prelude.{◌≡◌, ◌<◌, ◌-ℤ◌};
ghost use Rattle.std.specs.Prelude.{None, true, map, OnOk, OnErr, IfOk};
ghost use Rattle.std.specs.FinMap as fin;
ghost use Rattle.sem_undo.specs.Undo.{key_of, entry_of, adjustment, subtracted, is_adjustment, most_rows};
ghost use Rattle.sem_undo.specs.Undo.{without_semaphore, without_set, cleared, IsSoundUndo, IsKept};

use crate::rows::{find_row, is_kept, put_row, remove_row};
use ipc_base::Id;
use std::alloc::{AllocError, Global};
use std::marker::Model;

/// An adjustment: what is added to the value of a semaphore, of this number in its set, when the process
/// exits.
#[derive(Clone, Copy, Debug, PartialEq, Eq)]
pub struct UndoRow {
    pub set: Id,
    pub num: u16,
    pub adjustment: i16,
}

/// For so many adjustments a process has room: under any limits there are no more semaphores.
const MOST_ROWS: usize = 512;

/// The adjustments of a process that are not 0, from -32767 to 32767. There is room for one at each semaphore that
/// there may be, from `new` on, which alone may be refused but for `restore`.
#[derive(Drop)]
pub struct SemUndo {
    rows: Vec<UndoRow>,
}

impl Model for SemUndo {
    ghost use Rattle.std.specs.Prelude.{◌≤◌, vec_capacity};
    ghost use Rattle.std.specs.FinMap.{from_sorted};
    ghost use Rattle.sem_undo.specs.Undo.{Undo, undo_code, key_cmp, most_rows};
    ghost use Rattle.sem_undo.specs.Rows.{entries_of, AreRows};

    ghost Value = { Undo };

    ghost coded = { undo_code };

    ghost view = { λ u. from_sorted {R = key_cmp} (entries_of u.rows.items) };

    ghost invariant = { λ u. AreRows (entries_of u.rows.items) × (most_rows ≤ vec_capacity u.rows) };
}

impl SemUndo {
    /// No adjustments. Refused for want of memory.
    pub fn new(alloc: Global) -> Result<SemUndo, AllocError>
        ensures { IfOk result (λ undo. undo ≡ fin.empty) }
    {
        Ok(SemUndo {
            rows: Vec::with_capacity(alloc, MOST_ROWS)?,
        })
    }

    /// The adjustment at a semaphore, 0 if there is none.
    pub fn get(&self, set: Id, num: u16) -> i16
        ensures adjustment { result ≡ adjustment self.now (set.0, num) }
        ensures sound { IsSoundUndo self.now }
    {
        match find_row(&self.rows, (set.0, num)) {
            Ok(place) => self.rows[place].adjustment,
            Err(_) => 0,
        }
    }

    /// Subtracts what an operation with SEM_UNDO has added to the value. It takes no memory: there are
    /// not as many adjustments yet as there may be, or there is one at the semaphore.
    pub fn subtract(&mut self, set: Id, num: u16, sem_op: i16)
        requires few { fin.get self.old (set.0, num) ≡ None → fin.len self.old < most_rows }
        requires range { is_adjustment (adjustment self.old (set.0, num) -ℤ sem_op) ≡ true }
        ensures { self.new ≡ subtracted self.old (set.0, num) sem_op }
    {
        let adjustment = self.get(set, num) - sem_op;
        if adjustment == 0 {
            remove_row(&mut self.rows, (set.0, num));
            return;
        }
        put_row(
            &mut self.rows,
            UndoRow {
                set,
                num,
                adjustment,
            },
        );
    }

    /// Makes the adjustment at a semaphore 0, as SETVAL of semctl(2) does.
    pub fn clear(&mut self, set: Id, num: u16)
        ensures { self.new ≡ without_semaphore set.0 num self.old }
    {
        remove_row(&mut self.rows, (set.0, num));
    }

    /// Removes the adjustments at the semaphores of a set.
    pub fn drop_set(&mut self, set: Id)
        ensures { self.new ≡ without_set set.0 self.old }
    {
        self.rows.retain(|row| row.set != set);
    }

    /// Removes the adjustment at the semaphore of this number of a set, or those at all of the set.
    pub fn clear_at(&mut self, set: Id, num: Option<u16>)
        ensures { self.new ≡ cleared set.0 num self.old }
    {
        match num {
            Some(num) => self.clear(set, num),
            None => self.drop_set(set),
        }
    }

    /// The adjustments, by rising set and number: the exit adds them to the values.
    pub fn rows(&self) -> &[UndoRow]
        ensures rows { map entry_of result.now ≡ fin.entries self.now }
        ensures sound { IsSoundUndo self.now }
    {
        &self.rows
    }

    /// Removes all adjustments.
    pub fn clear_all(&mut self)
        ensures { self.new ≡ fin.empty }
    {
        self.rows.clear();
    }

    /// Adds an adjustment that was read, in the place of the one that is there; what is none is dropped. Refused for
    /// want of memory, all is as before.
    pub fn restore(&mut self, row: UndoRow) -> Result<(), AllocError>
        ensures added { OnOk result (IsKept row.adjustment
            → self.new ≡ fin.insert self.old (key_of row) row.adjustment) }
        ensures dropped { OnOk result (¬ IsKept row.adjustment → self.new ≡ self.old) }
        ensures err { OnErr result (self.new ≡ self.old) }
    {
        if !is_kept(row) {
            return Ok(());
        }
        self.rows.reserve(1)?;
        put_row(&mut self.rows, row);
        Ok(())
    }
}
