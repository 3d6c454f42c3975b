//! An adjustment in the object of the adjustments, and those that are read of it.

ghost use Rattle.std.specs.Prelude.{◌≡◌, ◌≢◌, ◌<◌, ◌^◌, length, map, All};
ghost use Rattle.std.specs.Prelude.{Err, OnOk, ℕ, List, refl, nat_eq, IsTrue, ◌↔◌};
ghost use Rattle.std.specs.List.{IsDistinct};
ghost use Rattle.ipc_base.specs.Table.{keys_of};
ghost use Rattle.ipc_engine.specs.declared.fault.StateFault.{StateFault};
ghost use Rattle.sem_undo.specs.Undo.{Undo};
ghost use Rattle.ipc_state.specs.Tables.{item_row};
ghost use Rattle.ipc_image.specs.Saved.{Adjustment as PlainAdjustment, adjustment_shape, adjustment_numbers};
ghost use Rattle.ipc_image.specs.Saved.{adjustments_in, adjustments_bytes, FitsAdjustment};
ghost use Rattle.ipc_image.specs.SavedParts.{all_attached, of_process};
ghost use Rattle.ipc_image.specs.Relations.Adjustments.{plain_of};
ghost use Rattle.ipc_image.specs.Relations.Trees.{adjustment_one};

use crate::adjustment_list::put_adjustment;
use crate::fields::{FOUR, TWO};
use crate::saved::{Saved, read_counted};
use crate::window::Window;
use ipc_base::{Id, Pid, take_fields};
use ipc_engine::StateFault;
use ipc_state::{Item, State};
use sem_undo::{SemUndo, UndoRow};
use std::alloc::{AllocError, Global};

/// An adjustment of a process.
#[derive(Clone, Copy)]
pub(crate) struct Adjustment {
    pid: Pid,
    row: UndoRow,
}

impl Saved for Adjustment {
    type Into = Vec<Adjustment>;

    ghost Plain = { PlainAdjustment };

    ghost plain = { plain_of };

    ghost shape = { adjustment_shape };

    ghost tree = { adjustment_numbers };

    ghost Fits = { FitsAdjustment };

    ghost Seen = { List PlainAdjustment };

    ghost seen = { λ xs. map plain_of xs.items };

    ghost items = { λ xs. xs };

    ghost put = { λ before xs. xs };

    ghost place = { record { same = λ s. refl; found = λ s xs. refl; again = λ s xs ys. refl } };

    ghost known = { λ x fit. fit.1 };

    ghost one = { adjustment_one };

    fn len(&self) -> u64 {
        12
    }

    fn put(&self, window: &mut Window) {
        put_adjustment(window, self.pid.0, self.row);
    }

    fn take<'b>(into: &mut Vec<Adjustment>, bytes: &'b [u8]) -> Result<&'b [u8], StateFault> {
        let (numbers, rest) = take_fields(bytes, &[FOUR, FOUR, TWO, TWO]).ok_or(
            StateFault::Unsound,
        )?;
        let adjustment = (numbers[3] as u16).cast_signed();
        if adjustment == 0 || adjustment == i16::MIN {
            return Err(StateFault::Unsound);
        }
        let row = UndoRow {
            set: Id(numbers[1] as u32),
            num: numbers[2] as u16,
            adjustment,
        };
        into.reserve(1)?;
        into.push_reserved(Adjustment {
            pid: Pid(numbers[0] as u32),
            row,
        });
        Ok(rest)
    }
}

/// Reads the adjustments, and makes them those of the state, whose processes were read.
pub(crate) fn restore_adjustments(
    state: &mut State,
    alloc: Global,
    bytes: &[u8],
) -> Result<(), StateFault>
    ensures ok { OnOk result ((length (adjustments_in state.new.state.undo) < 2 ^ 32)
        × All FitsAdjustment (adjustments_in state.new.state.undo)
        × (bytes.now ≡ adjustments_bytes state.new.state.undo)
        × (keys_of state.new.state.undo ≡ keys_of state.old.state.processes.entries)) }
    ensures others { OnOk result (state.new.state ≡ record state.old.state { undo = state.new.state.undo }) }
    ensures damaged { result ≡ Err StateFault.Unsound → (undo : List (ℕ × Undo))
        → length (adjustments_in undo) < 2 ^ 32 → All FitsAdjustment (adjustments_in undo)
        → keys_of undo ≡ keys_of state.old.state.processes.entries → IsDistinct nat_eq (keys_of undo)
        → bytes.now ≢ adjustments_bytes undo }
    ensures limits { state.new.limits ≡ state.old.limits }
{
    let mut rows = Vec::new(alloc);
    read_counted::<Adjustment>(&mut rows, bytes)?;
    state.restore_no_adjustments()?;
    attach_all(state, &rows)?;
    if !are_adjustments(state.adjustments(), &rows) {
        return Err(StateFault::Unsound);
    }
    Ok(())
}

/// Adds each of these to its process, if that is there.
fn attach_all(state: &mut State, rows: &[Adjustment]) -> Result<(), AllocError>
    requires { All FitsAdjustment (map plain_of rows.now) }
    ensures state { OnOk result (state.new.state
        ≡ record state.old.state { undo = all_attached state.old.state.undo (map plain_of rows.now) }) }
    ensures limits { state.new.limits ≡ state.old.limits }
{
    for row in rows {
        state.restore_adjustment(row.pid, row.row)?;
    }
    Ok(())
}

/// Whether these are all adjustments of the processes, in their order.
fn are_adjustments(items: &[Item<SemUndo>], rows: &[Adjustment]) -> bool
    ensures { IsTrue result ↔ (adjustments_in (map item_row items.now) ≡ map plain_of rows.now) }
{
    let mut left = rows;
    for item in items {
        let own = item.value.rows();
        let Some((front, after)) = left.split_at_checked(own.len()) else {
            return false;
        };
        if !are_own(item.number, own, front) {
            return false;
        }
        left = after;
    }
    left.is_empty()
}

/// Whether these are the adjustments of a process, as many as it has.
fn are_own(pid: u32, own: &[UndoRow], rows: &[Adjustment]) -> bool
    requires { length own.now ≡ length rows.now }
    ensures { IsTrue result ↔ (map (of_process pid) own.now ≡ map plain_of rows.now) }
{
    for place in 0..own.len() {
        if rows[place].pid.0 != pid || rows[place].row != own[place] {
            return false;
        }
    }
    true
}
