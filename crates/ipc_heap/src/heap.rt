//! The heap: its value, and the calls on it.

ghost use Rattle.std.specs.Prelude.{◌≡◌, ◌≢◌, ◌<◌, ◌≤◌, ◌+◌, ◌*◌, ◌/◌, ◌^◌};
ghost use Rattle.std.specs.Prelude.{ℕ, IfOk, IfSome, OnOk, OnErr, IsErr, IsErrOf, length, map};
ghost use Rattle.std.specs.Prelude.{Some, None, true, nat_eq, is_some, option_map, slice_get};
ghost use Rattle.ipc_base.specs.Objects.{PlainObjects, Fit, object_sectors, table_bytes, window};
ghost use Rattle.ipc_base.specs.Table.{seen_as, value_at};
ghost use Rattle.ipc_disk.specs.Calls.{IsSameDisk, CountsCalls, CountsFaultIf, OnlyReads};
ghost use Rattle.ipc_disk.specs.Counts.{with_calls};
ghost use Rattle.ipc_disk.specs.Medium.{IsHonest, IsDurable};
ghost use Rattle.ipc_disk.specs.Range.{IsOutside};
ghost use Rattle.ipc_disk.specs.Since.{EachImageSince, LeavesAlone};
ghost use Rattle.ipc_disk.specs.Standing.{sectors_for};

use crate::objects::{Laid, put_in, take_back, write_object, write_objects};
use crate::opening::{read_parts, read_root, room_for};
use crate::reading::{read_window, words_of};
use crate::root::{Root, root_sector};
use crate::table::{Table, WORDS, write_table};
use crate::turning::{save_table, take_table};
use crate::uses::Uses;
use crate::words::{object_len, place_of, push_u64, sectors_in, take_out, u64_at};
use crate::{HeapError, OpenError};
use ipc_base::Objects;
use ipc_disk::{DiskFault, Range, SectorDisk, write_durably};
use std::alloc::Global;
use std::marker::Model;

/// A map from numbers to bytes on a disk. It keeps the table of the objects as it stands there, with the puts and
/// removals so far, and who uses which sector. All memory that it will ever need is taken where it is opened.
#[derive(Drop)]
pub struct Heap {
    range: Range,
    /// The root that tells of what is saved.
    root: u32,
    /// The root that the next flip writes.
    next_root: u32,
    epoch: u64,
    /// The table, word by word.
    words: Vec<u32>,
    /// The sectors in which the saved table stands.
    table: Vec<u32>,
    /// Who uses each sector of the range.
    uses: Uses,
}

impl Model for Heap {
    ghost use Rattle.ipc_heap.specs.View.{HeapView};

    ghost Value = { HeapView };

    ghost use Rattle.ipc_heap.specs.Relations.Words.{placed_in, IsHeap};

    ghost view = { λ h. record {
      range = h.range;
      root = h.root;
      next_root = h.next_root;
      epoch = h.epoch;
      placed = placed_in h.words.items;
      table = h.table.items;
      uses = h.uses;
    } };

    ghost invariant = { λ h. IsHeap h.range h.words h.table h.uses };
}

impl Heap {
    ghost use Rattle.ipc_heap.specs.Heap.{IsLaidOut, IsElsewhere, IsOwn, Holds};
    ghost use Rattle.ipc_heap.specs.Heap.{HoldsEither, table_words, table_sectors_for};
    ghost use Rattle.ipc_heap.specs.View.{free, map_of, with_object, used_by, sizes_of, ArePlaced, StaysInPlace};
    ghost use Rattle.ipc_heap.specs.Matches.{HeapMatches, IsKept, Removes, StaysSaved};
    ghost use Rattle.ipc_heap.specs.Meanwhile.{EachLater, KeepsUsedOrTurns};
    ghost use Rattle.ipc_heap.specs.Damage.{IsFirstDamage};

    /// Makes the first heap, at epoch 1, with one sync. Until then, and after an `Err`, its sectors may be anything.
    pub fn create<D: SectorDisk, O: Objects>(
        disk: &mut D,
        range: Range,
        root: u32,
        objects: &O,
    ) -> Result<(), DiskFault>
        requires laid_out { IsLaidOut range root (D.size disk.old) }
        requires fits { Fit range.count (O.objects objects.now) }
        requires counted { table_bytes (O.objects objects.now) < 2 ^ 32 }
        // What is there then.
        ensures holds { OnOk result (IsHonest (D.medium disk.old)
            → Holds range root 1 (O.objects objects.now) (D.medium disk.new).contents) }
        ensures durable { OnOk result (IsDurable (D.medium disk.new)) }
        // A crash at any moment: no other sector is touched.
        ensures others { IsHonest (D.medium disk.old)
            → LeavesAlone (IsElsewhere range root) (D.medium disk.old) (D.medium disk.new) }
        // Failures and counts.
        ensures same { IsSameDisk D.size D.medium disk.old disk.new }
        ensures counts { CountsCalls D.counts result (with_calls (object_sectors (O.objects objects.now)
            + (table_bytes (O.objects objects.now) + 507) / 508 + 1) 1) disk.old disk.new }
    {
        let beyond = write_objects(disk, range.first, objects)?;
        let table = Laid {
            objects,
            first: range.first,
            beyond,
        };
        write_table(disk, &table)?;
        let numbers = Root {
            epoch: 1,
            first: beyond,
            len: 4 * table.len() as u32,
        };
        write_durably(disk, root, &root_sector(numbers))?;
        Ok(())
    }

    /// The heap that stands there. It only reads, each sector of the root and the table once, and takes the memory for
    /// all objects and sectors that the range can hold.
    pub fn open<D: SectorDisk>(
        alloc: Global,
        disk: &mut D,
        range: Range,
        root: u32,
    ) -> Result<Heap, OpenError>
        requires laid_out { IsLaidOut range root (D.size disk.old) }
        // What is opened, and when it is damaged.
        ensures range { IfOk result (λ heap. heap.range ≡ range) }
        ensures root { IfOk result (λ heap. heap.root ≡ root) }
        ensures next_root { IfOk result (λ heap. heap.next_root ≡ root) }
        ensures holds { IfOk result (λ heap. IsHonest (D.medium disk.old)
            → Holds range root heap.epoch (map_of heap (D.medium disk.old)) (D.medium disk.old).contents) }
        ensures matches { IfOk result (λ heap. IsHonest (D.medium disk.old) → IsDurable (D.medium disk.old)
            → HeapMatches heap (map_of heap (D.medium disk.new)) (D.medium disk.new)) }
        ensures damaged { (sector : ℕ) → IsErrOf result (OpenError.Damaged sector)
            → IsHonest (D.medium disk.old) → (epoch : ℕ) (objects : PlainObjects)
            → ¬ Holds range root epoch objects (D.medium disk.old).contents }
        ensures named { (sector : ℕ) → IsErrOf result (OpenError.Damaged sector)
            → IsHonest (D.medium disk.old) → IsFirstDamage range root (D.medium disk.old).contents sector }
        ensures own { (sector : ℕ) → IsErrOf result (OpenError.Damaged sector) → IsOwn range root sector }
        // How many sectors are free.
        ensures free { IfOk result (λ heap. free heap + length (used_by heap) ≡ range.count) }
        ensures table { IfOk result (λ heap. length heap.table
            ≡ table_sectors_for (length (table_words heap.placed))) }
        // Failures.
        ensures reads { OnlyReads D.size D.medium D.counts (IsErrOf result OpenError.Device) disk.old disk.new }
    {
        let found = read_root(disk, range, root)?;
        let mut parts = room_for(alloc, range, found.len)?;
        read_parts(disk, range, root, found, &mut parts)?;
        Ok(Heap {
            range,
            root,
            next_root: root,
            epoch: found.epoch,
            words: parts.words,
            table: parts.table,
            uses: parts.uses,
        })
    }

    /// Its epoch.
    pub fn epoch(&self) -> u64
        ensures { result ≡ self.now.epoch }
    {
        self.epoch
    }

    /// How many objects there are, with the puts and removals so far.
    pub fn count(&self) -> u32
        ensures { result ≡ length self.now.placed }
    {
        self.words[0]
    }

    /// The number of the i-th object and how many bytes it has. The numbers rise.
    pub fn object_at(&self, i: u32) -> Option<(u64, u64)>
        ensures { result ≡ option_map (λ p. (p.number, p.len)) (slice_get self.now.placed i) }
    {
        if i >= self.words[0] {
            return None;
        }
        let mut at = 1;
        for _ in 0..i {
            at += object_len(&self.words, at);
        }
        Some((u64_at(&self.words, at), u64_at(&self.words, at + 2)))
    }

    /// How many bytes an object has, if it is there.
    pub fn len_of(&self, object: u64) -> Option<u64>
        ensures { result ≡ value_at nat_eq (sizes_of self.now) object }
    {
        let place = place_of(&self.words, object);
        if place.len == 0 {
            return None;
        }
        Some(u64_at(&self.words, place.at + 2))
    }

    /// Each object has the sectors that its bytes take, and an honest disk has as many bytes of it.
    pub fn objects_have_their_bytes<D: SectorDisk>(&self, disk: &D)
        requires { IsLaidOut self.now.range self.now.next_root (D.size disk.now) }
        ensures placed { ArePlaced self.now.range self.now.placed }
        ensures bytes { IsHonest (D.medium disk.now)
            → sizes_of self.now ≡ seen_as (λ bytes. length bytes) (map_of self.now (D.medium disk.now)) }
    {
        let _ = &self.words;
    }

    /// 512 bytes of an object from a place on, with zeros past its end.
    pub fn read<D: SectorDisk>(
        &self,
        disk: &mut D,
        object: u64,
        place: u64,
        into: &mut [u8; 512],
    ) -> Result<(), DiskFault>
        requires laid_out { IsLaidOut self.now.range self.now.next_root (D.size disk.old) }
        requires object { is_some (value_at nat_eq (map_of self.now (D.medium disk.old)) object) ≡ true }
        ensures bytes { OnOk result (IsHonest (D.medium disk.old)
            → option_map (window place) (value_at nat_eq (map_of self.now (D.medium disk.old)) object)
            ≡ Some into.new) }
        ensures reads { OnlyReads D.size D.medium D.counts (IsErr result) disk.old disk.new }
    {
        let words = words_of(&self.words, object);
        read_window(disk, &words[4..], u64_at(words, 2), place, into)
    }

    /// Puts the i-th of some objects into the map, in the place of the one of its number, if there is one. What is
    /// saved stays as it is until the heap is turned over. It takes no memory. After an `Err` the heap has to be opened
    /// again.
    pub fn put<D: SectorDisk, O: Objects>(
        &mut self,
        disk: &mut D,
        objects: &O,
        i: u32,
    ) -> Result<(), HeapError>
        requires laid_out { IsLaidOut self.old.range self.old.next_root (D.size disk.old) }
        requires object { i < length (O.objects objects.now) }
        // What the map is then.
        ensures map { OnOk result ((saved : PlainObjects) → HeapMatches self.old saved (D.medium disk.old)
            → IfSome (slice_get (O.objects objects.now) i) (λ o. map_of self.new (D.medium disk.new)
            ≡ with_object (map_of self.old (D.medium disk.old)) o.0 o.1)) }
        ensures matches { OnOk result ((saved : PlainObjects) → HeapMatches self.old saved (D.medium disk.old)
            → HeapMatches self.new saved (D.medium disk.new)) }
        // A crash at any moment of the call, also of one that fails: what is saved is there, and no sector is touched
        // but those that were free.
        ensures any_moment { (saved : PlainObjects) → HeapMatches self.old saved (D.medium disk.old)
            → StaysSaved self.old.range self.old.root self.old.epoch saved (D.medium disk.old) (D.medium disk.new) }
        ensures others { IsHonest (D.medium disk.old)
            → LeavesAlone (IsKept self.old) (D.medium disk.old) (D.medium disk.new) }
        // Where it lies and is saved next, and its epoch, stay.
        ensures stays { StaysInPlace self.old self.new }
        ensures sizes { OnOk result (IfSome (slice_get (O.objects objects.now) i) (λ o. sizes_of self.new
            ≡ with_object (sizes_of self.old) o.0 (length o.1))) }
        // How many sectors are free, and when it is full.
        ensures spends { OnOk result (IfSome (slice_get (O.objects objects.now) i) (λ o.
            free self.old ≤ free self.new + sectors_for (length o.1))) }
        ensures full { IsErrOf result HeapError.Full → IfSome (slice_get (O.objects objects.now) i) (λ o.
            free self.old < sectors_for (length o.1)) }
        // Failures and counts.
        ensures same { IsSameDisk D.size D.medium disk.old disk.new }
        ensures fault { CountsFaultIf D.counts (IsErrOf result HeapError.Device) disk.old disk.new }
        ensures counts { OnOk result (IfSome (slice_get (O.objects objects.now) i) (λ o.
            D.counts disk.new ≡ with_calls (sectors_for (length o.1)) 0 (D.counts disk.old))) }
    {
        // None of the objects is empty, as their count tells.
        let _count = objects.count();
        let number = objects.number(i);
        let end = self.words.len();
        push_u64(&mut self.words, number);
        push_u64(&mut self.words, objects.len(i));
        match write_object(
            disk,
            self.range,
            objects,
            i,
            &mut self.uses,
            &mut self.words,
        ) {
            Ok(()) => {
                put_in(
                    &mut self.words,
                    &mut self.uses,
                    self.range.first,
                    end,
                    number,
                );
                Ok(())
            }
            Err(error) => {
                take_back(&mut self.words, &mut self.uses, self.range.first, end);
                Err(error)
            }
        }
    }

    /// Takes an object out of the map, if it is there. What is saved stays as it is until the heap is turned over.
    pub fn remove(&mut self, object: u64)
        ensures removes { Removes object self.old self.new }
        ensures free { free self.old ≤ free self.new }
    {
        let place = place_of(&self.words, object);
        // What is saved uses these sectors as long as it did.
        self.uses
            .give_back(self.range.first, sectors_in(&self.words, place));
        take_out(&mut self.words, place);
    }

    /// Aims the heap at another root: the next flip writes that sector, and leaves the root that tells of what is
    /// saved.
    pub fn set_next_root(&mut self, root: u32)
        requires apart { IsOutside self.old.range root }
        requires other { root ≢ self.old.root }
        ensures { self.new ≡ record self.old { next_root = root } }
    {
        self.next_root = root;
    }

    /// Turns the heap over: the map is what is saved, at a later epoch. A crash at any moment leaves all of what was
    /// saved at the old epoch, or all of the map at the new one. The sectors that nothing uses any more are free then,
    /// and not before. If another root was named, what was saved stays under the old one as well, until a
    /// put or a flip that follows. It takes no memory. After an `Err` the heap has to be opened again.
    pub fn flip<D: SectorDisk>(&mut self, disk: &mut D, epoch: u64) -> Result<(), HeapError>
        requires laid_out { IsLaidOut self.old.range self.old.next_root (D.size disk.old) }
        requires later { self.old.epoch < epoch }
        requires counted { 4 * length (table_words self.old.placed) < 2 ^ 32 }
        // What is there then.
        ensures matches { OnOk result ((saved : PlainObjects) → HeapMatches self.old saved (D.medium disk.old)
            → HeapMatches self.new (map_of self.old (D.medium disk.old)) (D.medium disk.new)) }
        ensures map { OnOk result ((saved : PlainObjects) → HeapMatches self.old saved (D.medium disk.old)
            → map_of self.new (D.medium disk.new) ≡ map_of self.old (D.medium disk.old)) }
        ensures durable { OnOk result (IsDurable (D.medium disk.new)) }
        ensures epoch { OnOk result (self.new.epoch ≡ epoch) }
        ensures err_epoch { OnErr result (self.new.epoch ≡ self.old.epoch) }
        // A crash at any moment of the call, also of one that fails.
        ensures any_moment { (saved : PlainObjects) → HeapMatches self.old saved (D.medium disk.old)
            → EachImageSince (D.medium disk.old) (D.medium disk.new)
            (HoldsEither self.old.range self.old.root self.old.epoch saved self.old.next_root epoch
            (map_of self.old (D.medium disk.old))) }
        ensures kept { self.old.next_root ≢ self.old.root
            → (saved : PlainObjects) → HeapMatches self.old saved (D.medium disk.old)
            → StaysSaved self.old.range self.old.root self.old.epoch saved (D.medium disk.old) (D.medium disk.new) }
        ensures meanwhile { self.old.next_root ≡ self.old.root
            → (saved : PlainObjects) → HeapMatches self.old saved (D.medium disk.old)
            → EachLater (KeepsUsedOrTurns self.old.range self.old.root) (D.medium disk.old) (D.medium disk.new) }
        ensures others { IsHonest (D.medium disk.old)
            → LeavesAlone (λ i. IsKept self.old i × (i ≢ self.old.next_root)) (D.medium disk.old) (D.medium disk.new) }
        ensures range { self.new.range ≡ self.old.range }
        ensures root { OnOk result (self.new.root ≡ self.old.next_root) }
        ensures err_root { OnErr result (self.new.root ≡ self.old.root) }
        ensures next_root { self.new.next_root ≡ self.old.next_root }
        ensures placed { self.new.placed ≡ self.old.placed }
        ensures table { OnOk result (length self.new.table
            ≡ table_sectors_for (length (table_words self.old.placed))) }
        // How many sectors are free, and when it is full.
        ensures free { OnOk result (free self.new + length (used_by self.new) ≡ self.new.range.count) }
        ensures full { IsErrOf result HeapError.Full
            → free self.old < table_sectors_for (length (table_words self.old.placed)) }
        // Failures and counts.
        ensures same { IsSameDisk D.size D.medium disk.old disk.new }
        ensures fault { CountsFaultIf D.counts (IsErrOf result HeapError.Device) disk.old disk.new }
        ensures counts { OnOk result (D.counts disk.new
            ≡ with_calls (table_sectors_for (length (table_words self.old.placed)) + 1) 2 (D.counts disk.old)) }
    {
        let count = self.words.len().div_ceil(WORDS);
        if !take_table(&mut self.uses, self.range.first, count, &mut self.table) {
            self.uses.give_back(self.range.first, &self.table);
            return Err(HeapError::Full);
        }
        match save_table(disk, &self.words, &self.table, self.next_root, epoch) {
            Ok(()) => {
                // What was to be saved next is saved, and the table's sectors are none of the map's.
                self.uses.turn_over();
                self.uses.give_back(self.range.first, &self.table);
                self.root = self.next_root;
                self.epoch = epoch;
                Ok(())
            }
            Err(DiskFault) => {
                self.uses.give_back(self.range.first, &self.table);
                Err(HeapError::Device)
            }
        }
    }
}
