//! Objects on their way into the heap of a checkpoint.

ghost use Rattle.std.specs.Prelude.{◌≡◌, ◌≢◌, ◌≤◌, ◌<◌, ◌+◌, length, nat_eq, is_some, slice_get, true, false, Some};
ghost use Rattle.std.specs.Prelude.{IfSome, OnOk};
ghost use Rattle.ipc_base.specs.Objects.{PlainObjects, object_sectors};
ghost use Rattle.ipc_base.specs.Table.{seen_as, value_at};
ghost use Rattle.ipc_disk.specs.Calls.{IsSameDisk, CountsFault};
ghost use Rattle.ipc_disk.specs.Counts.{with_calls};
ghost use Rattle.ipc_disk.specs.Medium.{IsHonest};
ghost use Rattle.ipc_disk.specs.Range.{IsOutside};
ghost use Rattle.ipc_disk.specs.Since.{LeavesAlone};
ghost use Rattle.ipc_heap.specs.Heap.{IsLaidOut};
ghost use Rattle.ipc_heap.specs.Matches.{HeapMatches, Keeps, StaysSaved};
ghost use Rattle.ipc_heap.specs.Meanwhile.{EachLater, KeepsUsed};
ghost use Rattle.ipc_heap.specs.View.{free, map_of, sizes_of, ArePlaced, StaysInPlace};
ghost use Rattle.ipc_checkpoint.specs.Matches.{changed_sectors};
ghost use Rattle.ipc_checkpoint.specs.Saving.{AreThere, HasNoOthers};

use ipc_base::Objects;
use ipc_disk::{DiskFault, SectorDisk};
use ipc_heap::Heap;

/// Takes out of a heap what some objects lack.
pub(crate) fn keep_those_of<O: Objects>(heap: &mut Heap, objects: &O)
    ensures keeps { Keeps (λ number. is_some (value_at nat_eq (O.objects objects.now) number)) heap.old heap.new }
    ensures free { free heap.old ≤ free heap.new }
{
    // Four bytes can count them.
    let _count = heap.count();
    let mut i = 0;
    while let Some((number, _)) = heap.object_at(i) {
        if has(objects, number) {
            i += 1;
        } else {
            heap.remove(number);
        }
    }
}

// Whether there is an object of a number.
fn has<O: Objects>(objects: &O, number: u64) -> bool
    ensures { result ≡ is_some (value_at nat_eq (O.objects objects.now) number) }
{
    for i in 0..objects.count() {
        if objects.number(i) == number {
            return true;
        }
    }
    false
}

/// Puts all objects into a heap that have changed, or that it has not in this length.
pub(crate) fn put_changed<D: SectorDisk, O: Objects>(
    heap: &mut Heap,
    disk: &mut D,
    objects: &O,
) -> Result<(), DiskFault>
    requires laid_out { IsLaidOut heap.old.range heap.old.next_root (D.size disk.old) }
    requires no_others { HasNoOthers (sizes_of heap.old) (O.objects objects.now) }
    requires room { object_sectors (O.objects objects.now) ≤ free heap.old }
    // What the map is then.
    ensures sizes { OnOk result (sizes_of heap.new ≡ seen_as (λ bytes. length bytes) (O.objects objects.now)) }
    ensures map { OnOk result ((saved : PlainObjects) → HeapMatches heap.old saved (D.medium disk.old)
        → AreThere (O.differs objects.now) (O.objects objects.now) (map_of heap.old (D.medium disk.old))
        → map_of heap.new (D.medium disk.new) ≡ O.objects objects.now) }
    ensures matches { OnOk result ((saved : PlainObjects) → HeapMatches heap.old saved (D.medium disk.old)
        → HeapMatches heap.new saved (D.medium disk.new)) }
    // A crash at any moment of the call, also of one that fails.
    ensures any_moment { (saved : PlainObjects) → HeapMatches heap.old saved (D.medium disk.old)
        → StaysSaved heap.old.range heap.old.root heap.old.epoch saved (D.medium disk.old) (D.medium disk.new) }
    ensures meanwhile { (saved : PlainObjects) → HeapMatches heap.old saved (D.medium disk.old)
        → EachLater (KeepsUsed heap.old.range heap.old.root) (D.medium disk.old) (D.medium disk.new) }
    ensures others { IsHonest (D.medium disk.old)
        → LeavesAlone (IsOutside heap.old.range) (D.medium disk.old) (D.medium disk.new) }
    ensures stays { StaysInPlace heap.old heap.new }
    ensures placed { OnOk result (ArePlaced heap.new.range heap.new.placed) }
    ensures spends { OnOk result (free heap.old ≤ free heap.new + object_sectors (O.objects objects.now)) }
    // Failures and counts.
    ensures same { IsSameDisk D.size D.medium disk.old disk.new }
    ensures counts { CountsFault D.counts result disk.old disk.new }
    ensures writes { OnOk result ((saved : PlainObjects) → HeapMatches heap.old saved (D.medium disk.old)
        → AreThere (O.differs objects.now) (O.objects objects.now) (map_of heap.old (D.medium disk.old))
        → D.counts disk.new
        ≡ with_calls (changed_sectors (O.differs objects.now) (O.objects objects.now)) 0 (D.counts disk.old)) }
{
    // A law, here and after each put.
    heap.objects_have_their_bytes(disk);
    for i in 0..objects.count() {
        if !is_kept(heap, objects, i) {
            if let Err(_) = heap.put(disk, objects, i) {
                return Err(DiskFault);
            }
            heap.objects_have_their_bytes(disk);
        }
    }
    Ok(())
}

// Whether a heap keeps the i-th object as it is: it has not changed, and has this length there.
fn is_kept<O: Objects>(heap: &Heap, objects: &O, i: u32) -> bool
    requires { i < length (O.objects objects.now) }
    ensures kept { result ≡ true → (O.differs objects.now i ≡ false)
        × IfSome (slice_get (O.objects objects.now) i) (λ o.
        value_at nat_eq (sizes_of heap.now) o.0 ≡ Some (length o.1)) }
    ensures other { result ≡ false → O.differs objects.now i ≡ false
        → IfSome (slice_get (O.objects objects.now) i) (λ o.
        value_at nat_eq (sizes_of heap.now) o.0 ≢ Some (length o.1)) }
{
    if objects.changed(i) {
        return false;
    }
    match heap.len_of(objects.number(i)) {
        Some(len) => len == objects.len(i),
        None => false,
    }
}
