//! What stands on a disk is read, and if it is no heap, where that is seen first.

ghost use Rattle.std.specs.Prelude.{◌≡◌, ◌⊎◌, ◌+◌, ◌-◌, ◌*◌, ◌/◌, ◌<◌, ◌≤◌, ◌++◌};
ghost use Rattle.std.specs.Prelude.{[], ℕ, List, true, false, length, take, drop, min};
ghost use Rattle.std.specs.Prelude.{flat_map, vec_capacity, Contains, MatchBool, MatchOption};
ghost use Rattle.std.specs.Prelude.{IfOk, OnOk, IsErrOf};
ghost use Rattle.ipc_disk.specs.Calls.{OnlyReads};
ghost use Rattle.ipc_disk.specs.Medium.{Image, IsHonest};
ghost use Rattle.ipc_disk.specs.Range.{IsInside, IsWithin};
ghost use Rattle.ipc_disk.specs.Standing.{sector_at};
ghost use Rattle.ipc_heap.specs.Damage.{IsFirstDamage, IsTable, chain_for, words_of_table, sector_of_word};
ghost use Rattle.ipc_heap.specs.Heap.{IsOwn, words_at, words_in};
ghost use Rattle.ipc_heap.specs.Relations.Opening.{IsSound, AreNoted, HasObject, LacksObject, StopsAt, AreAllNoted};
ghost use Rattle.ipc_heap.specs.Relations.Parts.{HaveRoom, AreThere};
ghost use Rattle.ipc_heap.specs.Relations.Root.{IsRead};

use crate::OpenError;
use crate::root::{Root, is_inside, root_in};
use crate::table::WORDS;
use crate::uses::{Use, Uses};
use crate::words::u64_at;
use byteorder::{BigEndian, ByteOrder};
use ipc_disk::{Range, SectorDisk};
use std::alloc::{AllocError, Global};

/// The root that stands there.
pub(crate) fn read_root<D: SectorDisk>(
    disk: &mut D,
    range: Range,
    root: u32,
) -> Result<Root, OpenError>
    requires { root < D.size disk.old }
    ensures read { IfOk result (λ found. IsHonest (D.medium disk.old)
        → IsRead (sector_at (D.medium disk.old).contents root) found) }
    ensures sound { IfOk result (λ found. IsSound range found) }
    ensures named { (sector : ℕ) → IsErrOf result (OpenError.Damaged sector)
        → IsHonest (D.medium disk.old) → IsFirstDamage range root (D.medium disk.old).contents sector }
    ensures own { (sector : ℕ) → IsErrOf result (OpenError.Damaged sector) → sector ≡ root }
    ensures reads { OnlyReads D.size D.medium D.counts (IsErrOf result OpenError.Device) disk.old disk.new }
{
    let mut sector = [0; 512];
    disk.read(root, &mut sector)?;
    match root_in(&sector, range) {
        Some(found) => Ok(found),
        None => Err(OpenError::Damaged { sector: root }),
    }
}

// A table that is saved uses it. The next one will stand in other sectors.
const TABLE: Use = Use {
    saved: true,
    next: false,
};

// An object uses it that is saved, and will be saved next.
const OBJECT: Use = Use {
    saved: true,
    next: true,
};

/// What a heap keeps in memory: the words of the table, its sectors, and who uses each sector of the range.
#[derive(Drop)]
pub(crate) struct Parts {
    pub words: Vec<u32>,
    pub table: Vec<u32>,
    pub uses: Uses,
}

/// Memory for all objects and sectors that a range can hold, and for a table of so many bytes that stands there.
pub(crate) fn room_for(alloc: Global, range: Range, len: u32) -> Result<Parts, AllocError>
    ensures { IfOk result (λ parts. HaveRoom range len parts) }
{
    let most = 5 * range.count as usize + 5;
    let len = len as usize;
    // The uses are written at once, so the rest is taken before them.
    let words = Vec::with_capacity(alloc, most.max(len / 4))?;
    let table = Vec::with_capacity(alloc, most.div_ceil(WORDS).max(len.div_ceil(508)))?;
    let uses = Uses::new(alloc, range.count as usize)?;
    Ok(Parts { words, table, uses })
}

/// Reads the table of the root that stands in a sector, and goes through its objects.
pub(crate) fn read_parts<D: SectorDisk>(
    disk: &mut D,
    range: Range,
    at: u32,
    root: Root,
    parts: &mut Parts,
) -> Result<(), OpenError>
    requires sound { IsSound range root }
    requires within { IsWithin range (D.size disk.old) }
    requires room { HaveRoom range root.len parts.old }
    // What they are, and where they are damaged.
    ensures noted { OnOk result
        (AreAllNoted range parts.new.table.items parts.new.words.items parts.new.uses true) }
    ensures all { OnOk result (4 * length parts.new.words.items ≡ root.len) }
    ensures table { OnOk result (length parts.new.table.items ≡ chain_for root.len) }
    ensures stand { OnOk result (IsHonest (D.medium disk.old)
        → IsRead (sector_at (D.medium disk.old).contents at) root
        → AreThere range at (D.medium disk.old).contents parts.new) }
    ensures named { (sector : ℕ) → IsErrOf result (OpenError.Damaged sector) → IsHonest (D.medium disk.old)
        → IsRead (sector_at (D.medium disk.old).contents at) root
        → IsFirstDamage range at (D.medium disk.old).contents sector }
    ensures own { (sector : ℕ) → IsErrOf result (OpenError.Damaged sector) → IsOwn range at sector }
    // Memory and failures.
    ensures capacity { vec_capacity parts.new.words ≡ vec_capacity parts.old.words }
    ensures table_capacity { vec_capacity parts.new.table ≡ vec_capacity parts.old.table }
    ensures reads { OnlyReads D.size D.medium D.counts (IsErrOf result OpenError.Device) disk.old disk.new }
{
    read_table(
        disk,
        range,
        root,
        &mut parts.table,
        &mut parts.words,
        &mut parts.uses,
    )?;
    let is_map = note_objects(&parts.words, &parts.table, range, &mut parts.uses)?;
    if !is_map || root.len % 4 != 0 {
        return Err(OpenError::Damaged { sector: at });
    }
    Ok(())
}

// Reads the sectors of the table, one after another, and notes that they are used. There is room for them, and for
// their words.
fn read_table<D: SectorDisk>(
    disk: &mut D,
    range: Range,
    root: Root,
    table: &mut Vec<u32>,
    words: &mut Vec<u32>,
    uses: &mut Uses,
) -> Result<(), OpenError>
    requires sound { IsSound range root }
    requires within { IsWithin range (D.size disk.old) }
    requires no_table { table.old.items ≡ [] }
    requires no_words { words.old.items ≡ [] }
    requires none_noted { AreNoted range [] [] uses.old }
    requires room { chain_for root.len ≤ vec_capacity table.old }
    requires words_room { root.len / 4 ≤ vec_capacity words.old }
    // What the table is, and where it is damaged.
    ensures noted { OnOk result (AreNoted range [] table.new.items uses.new) }
    ensures all { OnOk result (length table.new.items ≡ chain_for root.len) }
    ensures all_words { OnOk result (length words.new.items ≡ root.len / 4) }
    ensures table { OnOk result (IsHonest (D.medium disk.old) → (at : ℕ)
        → IsRead (sector_at (D.medium disk.old).contents at) root
        → IsTable range at (D.medium disk.old).contents table.new.items) }
    ensures words { OnOk result (IsHonest (D.medium disk.old) → words.new.items
        ≡ take (root.len / 4) (flat_map (words_at (D.medium disk.old).contents) table.new.items)) }
    ensures named { (sector : ℕ) → IsErrOf result (OpenError.Damaged sector) → IsHonest (D.medium disk.old)
        → (at : ℕ) → IsRead (sector_at (D.medium disk.old).contents at) root
        → IsFirstDamage range at (D.medium disk.old).contents sector }
    ensures own { (sector : ℕ) → IsErrOf result (OpenError.Damaged sector) → IsInside range sector }
    // Memory and failures.
    ensures capacity { vec_capacity table.new ≡ vec_capacity table.old }
    ensures words_capacity { vec_capacity words.new ≡ vec_capacity words.old }
    ensures reads { OnlyReads D.size D.medium D.counts (IsErrOf result OpenError.Device) disk.old disk.new }
{
    let count = root.len.div_ceil(508);
    let mut at = root.first;
    for j in 0..count {
        let mut sector = [0; 512];
        disk.read(at, &mut sector)?;
        table.push_reserved(at);
        uses.note((at - range.first) as usize, TABLE);
        push_words(words, &sector, root.len as usize / 4);
        let next = BigEndian::read_u32(&sector);
        if !can_follow(next, j + 1 == count, range, uses) {
            return Err(OpenError::Damaged { sector: at });
        }
        at = next;
    }
    Ok(())
}

// Adds the words of a sector of the table, up to so many in all.
fn push_words(words: &mut Vec<u32>, sector: &[u8; 512], most: usize)
    requires few { length words.old.items ≤ most }
    requires room { most ≤ vec_capacity words.old }
    ensures items { words.new.items
        ≡ words.old.items ++ take (most - length words.old.items) (words_in (drop 4 sector.now)) }
    ensures capacity { vec_capacity words.new ≡ vec_capacity words.old }
{
    for k in 0..WORDS.min(most - words.len()) {
        words.push_reserved(BigEndian::read_u32(&sector[4 + 4 * k..]));
    }
}

// Whether a sector can come next: none after the last one, and else one of the range that is not used yet.
fn can_follow(next: u32, is_last: bool, range: Range, uses: &Uses) -> bool
    requires { length uses.now ≡ range.count }
    ensures last { is_last ≡ true → MatchBool result (next ≡ 0) (next ≡ 0 → ⊥) }
    ensures more { is_last ≡ false → (table : List ℕ) → AreNoted range [] table uses.now
        → MatchBool result (IsInside range next × (Contains table next → ⊥))
        ((IsInside range next → ⊥) ⊎ Contains table next) }
{
    if is_last {
        return next == 0;
    }
    is_inside(range, next) && !uses.of((next - range.first) as usize).saved
}

// Goes through the objects of a table, and notes which sectors they use. Whether they are a map.
fn note_objects(
    words: &[u32],
    table: &[u32],
    range: Range,
    uses: &mut Uses,
) -> Result<bool, OpenError>
    requires some { 0 < length words.now }
    requires fits { length words.now ≤ 127 * length table.now }
    requires noted { AreNoted range [] table.now uses.old }
    ensures noted { IfOk result (λ whole. AreAllNoted range table.now words.now uses.new whole) }
    ensures named { (sector : ℕ) → IsErrOf result (OpenError.Damaged sector) → (root : ℕ) (image : Image)
        → IsTable range root image table.now → words.now ≡ words_of_table root image table.now
        → IsFirstDamage range root image sector }
    ensures own { (sector : ℕ) → IsErrOf result (OpenError.Damaged sector) → IsInside range sector }
    ensures no_device { IsErrOf result OpenError.Device → ⊥ }
{
    let mut at = 1;
    let mut last = None;
    let mut some_empty = false;
    for _ in 0..words[0] {
        let begin = sector_of_word(words, table, at);
        let Some(sectors) = sectors_of(words, at, last) else {
            return Err(OpenError::Damaged { sector: begin });
        };
        note_sectors(words, table, at, sectors, range, uses)?;
        last = Some(u64_at(words, at));
        some_empty = some_empty || sectors == 0;
        at += 4 + sectors;
    }
    Ok(at == words.len() && !some_empty)
}

// How many sectors the object that begins at a place has, if there are as many words, and its number is above the last.
fn sectors_of(words: &[u32], at: usize, last: Option<u64>) -> Option<usize>
    requires { at ≤ length words.now }
    ensures { MatchOption result (LacksObject last (drop at words.now)) (λ n. HasObject last (drop at words.now) n) }
{
    let left = words.len() - at;
    if left < 4 {
        return None;
    }
    let number = u64_at(words, at);
    let sectors = u64_at(words, at + 2).div_ceil(512);
    if sectors > (left - 4) as u64 || last.is_some_and(|last| number <= last) {
        return None;
    }
    Some(sectors as usize)
}

// Notes that the sectors of an object are used.
fn note_sectors(
    words: &[u32],
    table: &[u32],
    at: usize,
    sectors: usize,
    range: Range,
    uses: &mut Uses,
) -> Result<(), OpenError>
    requires whole { at + 4 + sectors ≤ length words.now }
    requires fits { length words.now ≤ 127 * length table.now }
    requires all { length uses.old ≡ range.count }
    ensures noted { OnOk result ((used : List ℕ) → AreNoted range used table.now uses.old
        → AreNoted range (used ++ take sectors (drop (at + 4) words.now)) table.now uses.new) }
    ensures damaged { (sector : ℕ) → IsErrOf result (OpenError.Damaged sector)
        → (used : List ℕ) → AreNoted range used table.now uses.old
        → StopsAt range used table.now (take sectors (drop (at + 4) words.now)) (length words.now) at sector }
    ensures no_device { IsErrOf result OpenError.Device → ⊥ }
{
    for k in 0..sectors {
        let sector = words[at + 4 + k];
        if !is_inside(range, sector) {
            return Err(OpenError::Damaged {
                sector: sector_of_word(words, table, at + 4 + k),
            });
        }
        let place = (sector - range.first) as usize;
        if uses.of(place).saved {
            return Err(OpenError::Damaged {
                sector: sector_of_word(words, table, at),
            });
        }
        uses.note(place, OBJECT);
    }
    Ok(())
}

// In which sector of the table a word stands; past the end, the last one.
fn sector_of_word(words: &[u32], table: &[u32], at: usize) -> u32
    requires some { 0 < length words.now }
    requires fits { length words.now ≤ 127 * length table.now }
    ensures { result ≡ sector_of_word (length words.now) table.now at }
{
    table[at.min(words.len() - 1) / WORDS]
}
