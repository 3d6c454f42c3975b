//! Rows in rising order: how one is found, put in and taken out.

ghost use Rattle.std.specs.Prelude.{◌≡◌, ◌≤◌, ◌<◌, ◌+◌, ◌↔◌, true, false, not, IfOk, IfErr, T, IsTrue};
ghost use Rattle.std.specs.Prelude.{None, length, vec_len, vec_capacity};
ghost use Rattle.std.specs.List.Sorted.{IsPartitionPoint};
ghost use Rattle.std.specs.Ordering.{is_lt, eq_by_cmp};
ghost use Rattle.std.specs.FinMap.{find, put, is_sorted};
ghost use Rattle.std.specs.FinMap.Entries.{where_key};
ghost use Rattle.sem_undo.specs.Undo.{key_cmp, key_of, entry_of, IsKept};
ghost use Rattle.sem_undo.specs.Rows.{entries_of, IsAt, IsGap};

use crate::undo::UndoRow;

/// Where the row of a key stands, or where it would.
pub(crate) fn find_row(rows: &[UndoRow], key: (u32, u16)) -> Result<usize, usize>
    requires { T (is_sorted key_cmp (entries_of rows.now)) }
    ensures at { IfOk result (λ i. IsAt key_cmp entry_of key rows.now i) }
    ensures gap { IfErr result (λ i. IsGap key_cmp entry_of key rows.now i) }
{
    let place = place_for(rows, key);
    if place == rows.len() {
        return Err(place);
    }
    if !has_key(&rows[place], key) {
        return Err(place);
    }
    Ok(place)
}

/// Puts a row in at its place, over the one that had its key. It takes no memory: the key has a row, or there is room.
pub(crate) fn put_row(rows: &mut Vec<UndoRow>, row: UndoRow)
    requires rising { T (is_sorted key_cmp (entries_of rows.old.items)) }
    requires room { find key_cmp (key_of row) (entries_of rows.old.items) ≡ None
        → vec_len rows.old < vec_capacity rows.old }
    ensures rows { entries_of rows.new.items ≡ put key_cmp (key_of row) row.adjustment (entries_of rows.old.items) }
    ensures len { vec_len rows.new ≤ vec_len rows.old + 1 }
    ensures capacity { vec_capacity rows.new ≡ vec_capacity rows.old }
{
    match find_row(rows, (row.set.0, row.num)) {
        Ok(place) => rows[place] = row,
        Err(place) => rows.insert(place, row).unwrap(),
    }
}

/// Takes the row of a key out, if it has one.
pub(crate) fn remove_row(rows: &mut Vec<UndoRow>, key: (u32, u16))
    requires rising { T (is_sorted key_cmp (entries_of rows.old.items)) }
    ensures rows { entries_of rows.new.items
        ≡ where_key key_cmp (λ k. not (eq_by_cmp key_cmp key k)) (entries_of rows.old.items) }
    ensures len { vec_len rows.new ≤ vec_len rows.old }
    ensures capacity { vec_capacity rows.new ≡ vec_capacity rows.old }
{
    match find_row(rows, key) {
        Ok(place) => {
            rows.remove(place);
        }
        Err(_) => {}
    }
}

/// Whether the adjustment of a row is one, and not 0.
pub(crate) fn is_kept(row: UndoRow) -> bool
    ensures { IsTrue result ↔ IsKept row.adjustment }
{
    row.adjustment != 0 && row.adjustment != i16::MIN
}

// How many of the rows have a smaller key.
fn place_for(rows: &[UndoRow], key: (u32, u16)) -> usize
    requires { T (is_sorted key_cmp (entries_of rows.now)) }
    ensures within { result ≤ length rows.now }
    ensures point { IsPartitionPoint (λ r. is_lt (key_cmp (key_of r) key) ≡ true)
        (λ r. is_lt (key_cmp (key_of r) key) ≡ false) rows.now result }
{
    rows.partition_point(|row| is_before(row, key))
}

// Whether the key of a row is smaller.
fn is_before(row: &UndoRow, key: (u32, u16)) -> bool
    ensures { result ≡ is_lt (key_cmp (key_of row.now) key) }
{
    (row.set.0, row.num) < key
}

// Whether the row is that of the key.
fn has_key(row: &UndoRow, key: (u32, u16)) -> bool
    ensures { IsTrue result ↔ (key_of row.now ≡ key) }
{
    row.set.0 == key.0 && row.num == key.1
}
