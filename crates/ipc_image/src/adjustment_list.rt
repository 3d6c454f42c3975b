//! The adjustments of all processes in their object: how long it is, and that it passes a window.

ghost use Rattle.std.specs.Prelude.{◌≡◌, ◌<◌, ◌^◌, length, map};
ghost use Rattle.std.specs.List.{flat_map};
ghost use Rattle.sem_undo.specs.Undo.{entry_of};
ghost use Rattle.ipc_state.specs.Tables.{item_row};
ghost use Rattle.ipc_image.specs.Saved.{adjustment_bytes, adjustments_of, adjustments_in, adjustments_bytes};
ghost use Rattle.ipc_image.specs.Window.{passed};

use crate::fields::{put_count, put_fields};
use crate::window::Window;
use ipc_base::Field;
use ipc_state::Item;
use sem_undo::{SemUndo, UndoRow};

/// The bytes of an adjustment.
const ADJUSTMENT_LEN: u64 = 12;

/// How many adjustments these processes have.
fn adjustment_count(items: &[Item<SemUndo>]) -> u32
    requires { length (adjustments_in (map item_row items.now)) < 2 ^ 32 }
    ensures { result ≡ length (adjustments_in (map item_row items.now)) }
{
    let mut count = 0;
    for item in items {
        count += item.value.rows().len() as u32;
    }
    count
}

/// How many bytes their object has.
pub(crate) fn adjustments_len(items: &[Item<SemUndo>]) -> u64
    requires { length (adjustments_in (map item_row items.now)) < 2 ^ 32 }
    ensures { result ≡ length (adjustments_bytes (map item_row items.now)) }
{
    4 + ADJUSTMENT_LEN * u64::from(adjustment_count(items))
}

/// Their object passes the window.
pub(crate) fn put_adjustments(window: &mut Window, items: &[Item<SemUndo>])
    requires { length (adjustments_in (map item_row items.now)) < 2 ^ 32 }
    ensures { window.new ≡ passed (adjustments_bytes (map item_row items.now)) window.old }
{
    put_count(window, adjustment_count(items));
    for item in items {
        put_own(window, item);
    }
}

/// The adjustments of one process pass the window, from the first that does not end before it to the last that is seen.
fn put_own(window: &mut Window, item: &Item<SemUndo>)
    ensures { window.new ≡ passed (flat_map adjustment_bytes (adjustments_of (item_row item.now))) window.old }
{
    let rows = item.value.rows();
    let first = window.passes_over_first(rows.len(), ADJUSTMENT_LEN);
    for at in first..rows.len() {
        if window.is_full() {
            return;
        }
        put_adjustment(window, item.number, rows[at]);
    }
}

/// An adjustment of a process passes the window.
pub(crate) fn put_adjustment(window: &mut Window, pid: u32, row: UndoRow)
    ensures { window.new ≡ passed (adjustment_bytes (pid, entry_of row)) window.old }
{
    put_fields(
        window,
        &[
            Field::U32(pid),
            Field::U32(row.set.0),
            Field::U16(row.num),
            Field::I16(row.adjustment),
        ],
    );
}
