//! The adjustments of the processes: what an exit adds, and what is cleared. See semop(2).

ghost use Rattle.std.specs.Prelude.{◌≡◌, ◌<◌, ◌-ℤ◌, ◌↔◌, true, not, None, map, All, IfOk, IsTrue, OnOk, OnErr};
ghost use Rattle.ipc_limits.specs.Limits.{exceeds as passes};
ghost use Rattle.std.specs.FinMap as fin;
ghost use Rattle.std.specs.List.{fold, list_all};
ghost use Rattle.ipc_base.specs.Table.{keys_of, seen_as, EachValue};
ghost use Rattle.sem_undo.specs.Undo.{key_of, entry_of, cleared, IsKept, IsSoundUndo};
ghost use Rattle.sem_undo.specs.Undo.{adjustment, subtracted, is_adjustment, most_rows};
ghost use Rattle.ipc_state.specs.Restored.{with_adjustment, with_no_adjustments};
ghost use Rattle.ipc_state.specs.Sound.{has_semaphore, AreAt, AreAdjustments, AreFew};
ghost use Rattle.ipc_state.specs.State.{adjusted, undone, undo_of, with_undo, without_adjustments};
ghost use Rattle.ipc_state.specs.Rows.{has_room, item_row};
ghost use Rattle.ipc_state.specs.Tables.{numbered_of};

use crate::numbered::{Item, Numbered};
use crate::objects::Keyed;
use crate::processes::Process;
use crate::rows::Rows;
use crate::state::State;
use ipc_base::{Id, Pid};
use ipc_limits::exceeds;
use sem_undo::{SemUndo, UndoRow};
use std::alloc::{AllocError, Global};
use sysv_sem::SemSet;

impl State {
    /// The adjustments of each process, by pid.
    pub fn adjustments(&self) -> &[Item<SemUndo>]
        ensures { map item_row result.now ≡ self.now.state.undo }
    {
        self.undo.items()
    }

    /// The adjustment of a process at a semaphore; 0 if no process has the number.
    pub fn adjustment(&self, pid: Pid, set: Id, num: u16) -> i16
        ensures { result ≡ adjustment (undo_of self.now.state pid.0) (set.0, num) }
    {
        match self.undo.get(pid.0) {
            Some(item) => item.value.get(set, num),
            None => 0,
        }
    }

    /// How many adjustments a process has, none of them 0; none if no process has the number.
    pub fn adjustment_count(&self, pid: Pid) -> u64
        ensures count { result ≡ fin.len (undo_of self.now.state pid.0) }
        ensures sound { IsSoundUndo (undo_of self.now.state pid.0) }
    {
        match self.undo.get(pid.0) {
            Some(item) => count_of(&item.value),
            None => 0,
        }
    }

    /// Subtracts what an operation of a process with SEM_UNDO has added. It takes no memory. Nothing is done if no
    /// process has the number.
    pub fn subtract(&mut self, pid: Pid, set: Id, num: u16, sem_op: i16)
        requires few { fin.get (undo_of self.old.state pid.0) (set.0, num) ≡ None
            → fin.len (undo_of self.old.state pid.0) < most_rows }
        requires range { is_adjustment (adjustment (undo_of self.old.state pid.0) (set.0, num) -ℤ sem_op) ≡ true }
        ensures { self.new ≡ record self.old {
          state = with_undo self.old.state pid.0
              (subtracted (undo_of self.old.state pid.0) (set.0, num) sem_op);
        } }
    {
        let Some(undo) = self.undo.get_mut(pid.0) else {
            return;
        };
        undo.subtract(set, num, sem_op);
    }

    /// Drops the adjustments of all processes at the semaphore of this number of a set, or at all of the set.
    pub fn clear_adjustments(&mut self, set: Id, num: Option<u16>)
        ensures { self.new ≡ record self.old { state = without_adjustments set.0 num self.old.state } }
    {
        self.undo.items.clear_at(set, num);
    }

    /// Each process that was read has adjustments, which are none. Refused for want of memory, all is as before.
    pub fn restore_no_adjustments(&mut self) -> Result<(), AllocError>
        ensures state { OnOk result (self.new.state ≡ with_no_adjustments self.old.state) }
        ensures limits { self.new.limits ≡ self.old.limits }
        ensures err { OnErr result (self.new ≡ self.old) }
    {
        let undo = no_adjustments(self.alloc, self.processes.items())?;
        self.undo = undo;
        Ok(())
    }

    /// Adds an adjustment that was read to those of its process, if it is there. What is none, 0 or -32768, is dropped,
    /// whoever has the number. Refused for want of memory, all is as before.
    pub fn restore_adjustment(&mut self, pid: Pid, row: UndoRow) -> Result<(), AllocError>
        ensures state { OnOk result (IsKept row.adjustment
            → self.new.state ≡ with_adjustment self.old.state pid.0 row) }
        ensures dropped { OnOk result (¬ IsKept row.adjustment → self.new ≡ self.old) }
        ensures limits { self.new.limits ≡ self.old.limits }
        ensures err { OnErr result (self.new ≡ self.old) }
    {
        let Some(undo) = self.undo.get_mut(pid.0) else {
            return Ok(());
        };
        undo.restore(row)
    }

    /// The sets after the exit of a process.
    pub(crate) fn add_adjustments_of(&mut self, pid: Pid)
        ensures { self.new ≡ record self.old {
          state = record self.old.state { semset = undone self.old.state.semset (pid.0, undo_of self.old.state pid.0) };
        } }
    {
        if let Some(item) = self.undo.get(pid.0) {
            add_adjustments(&mut self.semset, pid, item.value.rows());
        }
    }

    /// The sets after the exit of all.
    pub(crate) fn add_all_adjustments(&mut self)
        ensures { self.new ≡ record self.old {
          state = record self.old.state { semset = fold undone self.old.state.semset self.old.state.undo };
        } }
    {
        add_each(&mut self.semset, self.undo.items());
    }

    /// Whether the adjustments are sound.
    pub(crate) fn are_adjustments_sound(&self) -> bool
        ensures { IsTrue result ↔ AreAdjustments self.now.limits (keys_of self.now.state.processes.entries)
            self.now.state.semset self.now.state.undo }
    {
        have_same_numbers(self.undo.items(), self.processes.items()) && self.are_adjustments_kept()
    }

    /// Whether each adjustment is at a semaphore that is there, in its range and not 0, and no process has too many.
    fn are_adjustments_kept(&self) -> bool
        ensures { IsTrue result ↔ (EachValue (AreAt self.now.state.semset) self.now.state.undo
            × EachValue IsSoundUndo self.now.state.undo
            × EachValue (AreFew self.now.limits) self.now.state.undo) }
    {
        are_at_semaphores(&self.semset, self.undo.items())
            && are_few(self.undo.items(), self.limits.adjustment_limit())
    }
}

/// Adjustments of each of these processes, which are none. Refused for want of memory.
fn no_adjustments(
    alloc: Global,
    processes: &[Item<Process>],
) -> Result<Numbered<SemUndo>, AllocError>
    ensures { IfOk result (λ undo. (numbered_of undo).entries
        ≡ seen_as (λ p. fin.empty) (map item_row processes.now)) }
{
    let mut undo = Numbered::new(alloc);
    for process in processes {
        undo.reserve()?;
        undo.push(process.number, SemUndo::new(alloc)?);
    }
    Ok(undo)
}

/// Adds the adjustments of these processes to the sets.
fn add_each(sets: &mut Keyed<SemSet>, items: &[Item<SemUndo>])
    ensures { sets.new ≡ record sets.old { objects = fold undone sets.old.objects (map item_row items.now) } }
{
    for item in items {
        add_adjustments(sets, Pid(item.number), item.value.rows());
    }
}

/// Adds these adjustments of a process to the sets.
fn add_adjustments(sets: &mut Keyed<SemSet>, pid: Pid, rows: &[UndoRow])
    ensures { sets.new ≡ record sets.old { objects = fold (adjusted pid.0) sets.old.objects (map entry_of rows.now) } }
{
    for row in rows {
        add_adjustment(sets, pid, row);
    }
}

/// Adds an adjustment of a process to the sets; one of a set that is not there is dropped.
fn add_adjustment(sets: &mut Keyed<SemSet>, pid: Pid, row: &UndoRow)
    ensures { sets.new ≡ record sets.old { objects = adjusted pid.0 sets.old.objects (entry_of row.now) } }
{
    if let Some(set) = sets.get_mut(row.set.0) {
        if (row.num as usize) < set.semaphores().len() {
            set.adjust(row.num, row.adjustment, pid);
        }
    }
}

impl Rows<SemUndo> {
    /// Drops the adjustments of each process at the semaphore of this number of a set, or at all of the set.
    fn clear_at(&mut self, set: Id, num: Option<u16>)
        ensures rows { map item_row self.new.items ≡ seen_as (cleared set.0 num) (map item_row self.old.items) }
        ensures room { has_room self.new ≡ has_room self.old }
    {
        clear_each(&mut self.items, set, num);
    }
}

/// Clears them of each process.
fn clear_each(items: &mut [Item<SemUndo>], set: Id, num: Option<u16>)
    ensures { map item_row items.new ≡ seen_as (cleared set.0 num) (map item_row items.old) }
{
    for item in items.iter_mut() {
        item.value.clear_at(set, num);
    }
}

/// Whether two tables have the same numbers.
fn have_same_numbers<T, U>(items: &[Item<T>], others: &[Item<U>]) -> bool
    ensures { IsTrue result ↔ (keys_of (map item_row items.now) ≡ keys_of (map item_row others.now)) }
{
    if items.len() != others.len() {
        return false;
    }
    for place in 0..items.len() {
        if items[place].number != others[place].number {
            return false;
        }
    }
    true
}

/// Whether each adjustment of these processes is at a semaphore that is there. Each is in its range and not 0, as a
/// `SemUndo` has no other.
fn are_at_semaphores(sets: &Keyed<SemSet>, items: &[Item<SemUndo>]) -> bool
    ensures { IsTrue result ↔ All (λ e. AreAt sets.now.objects e.value × IsSoundUndo e.value) items.now }
{
    for item in items {
        if !is_at_semaphores(sets, item) {
            return false;
        }
    }
    true
}

/// Whether none of these processes has more adjustments than a limit allows.
fn are_few(items: &[Item<SemUndo>], limit: Option<u32>) -> bool
    ensures { result ≡ list_all (λ e. not (passes (fin.len e.value) limit)) items.now }
{
    items
        .iter()
        .all(|item| !exceeds(count_of(&item.value), limit))
}

/// How many adjustments these are, none of them 0.
fn count_of(undo: &SemUndo) -> u64
    ensures count { result ≡ fin.len undo.now }
    ensures sound { IsSoundUndo undo.now }
{
    undo.rows().len() as u64
}

/// Whether each adjustment of a process is.
fn is_at_semaphores(sets: &Keyed<SemSet>, item: &Item<SemUndo>) -> bool
    ensures { IsTrue result ↔ (AreAt sets.now.objects item.now.value × IsSoundUndo item.now.value) }
{
    have_semaphores(sets, item.value.rows())
}

/// Whether there is the semaphore of each adjustment.
fn have_semaphores(sets: &Keyed<SemSet>, rows: &[UndoRow]) -> bool
    ensures { result ≡ list_all (λ r. has_semaphore sets.now.objects (key_of r)) rows.now }
{
    rows.iter().all(|row| has_semaphore_at(sets, row))
}

/// Whether there is the semaphore of an adjustment.
fn has_semaphore_at(sets: &Keyed<SemSet>, row: &UndoRow) -> bool
    ensures { result ≡ has_semaphore sets.now.objects (key_of row.now) }
{
    match sets.get(row.set.0) {
        Some(entry) => (row.num as usize) < entry.object.semaphores().len(),
        None => false,
    }
}
