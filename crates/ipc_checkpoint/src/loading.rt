//! The objects of a checkpoint, read from its heap.

ghost use Rattle.std.specs.Prelude.{◌≡◌, ◌<◌, ℕ, length, nat_eq, IfOk, IsErrOf, Some};
ghost use Rattle.ipc_base.specs.Table.{seen_as, value_at};
ghost use Rattle.ipc_disk.specs.Calls.{OnlyReads};
ghost use Rattle.ipc_disk.specs.Medium.{IsHonest};
ghost use Rattle.ipc_heap.specs.Heap.{IsLaidOut};
ghost use Rattle.ipc_heap.specs.View.{map_of, sizes_of, ArePlaced};

use crate::LoadError;
use ipc_base::ObjectMap;
use ipc_disk::SectorDisk;
use ipc_heap::Heap;
use std::alloc::Global;

/// All objects of a heap. Each of their sectors is read once.
pub(crate) fn read_objects<D: SectorDisk>(
    alloc: Global,
    disk: &mut D,
    heap: &Heap,
) -> Result<ObjectMap, LoadError>
    requires laid_out { IsLaidOut heap.now.range heap.now.next_root (D.size disk.old) }
    ensures placed { IfOk result (λ _. ArePlaced heap.now.range heap.now.placed) }
    ensures sizes { IfOk result (λ found. seen_as (λ bytes. length bytes) found ≡ sizes_of heap.now) }
    ensures objects { IfOk result (λ found. IsHonest (D.medium disk.old)
        → found ≡ map_of heap.now (D.medium disk.old)) }
    ensures not_damaged { (sector : ℕ) → IsErrOf result (LoadError.Damaged sector) → ⊥ }
    ensures reads { OnlyReads D.size D.medium D.counts (IsErrOf result LoadError.Device) disk.old disk.new }
{
    // A law, and that four bytes can count them.
    heap.objects_have_their_bytes(disk);
    let _count = heap.count();
    let mut objects = ObjectMap::new(alloc);
    let mut i = 0;
    while let Some((number, len)) = heap.object_at(i) {
        let bytes = read_object(alloc, disk, heap, number, len)?;
        objects.push(number, &bytes)?;
        i += 1;
    }
    Ok(objects)
}

// The object of a number, which has so many bytes.
fn read_object<D: SectorDisk>(
    alloc: Global,
    disk: &mut D,
    heap: &Heap,
    number: u64,
    len: u64,
) -> Result<Vec<u8>, LoadError>
    requires laid_out { IsLaidOut heap.now.range heap.now.next_root (D.size disk.old) }
    requires object { value_at nat_eq (sizes_of heap.now) number ≡ Some len }
    ensures long { IfOk result (λ bytes. length bytes.items ≡ len) }
    ensures bytes { IfOk result (λ bytes. IsHonest (D.medium disk.old)
        → value_at nat_eq (map_of heap.now (D.medium disk.old)) number ≡ Some bytes.items) }
    ensures not_damaged { (sector : ℕ) → IsErrOf result (LoadError.Damaged sector) → ⊥ }
    ensures reads { OnlyReads D.size D.medium D.counts (IsErrOf result LoadError.Device) disk.old disk.new }
{
    // A law.
    heap.objects_have_their_bytes(disk);
    let mut bytes = Vec::with_capacity(alloc, len as usize)?;
    for k in 0..len.div_ceil(512) {
        let mut window = [0; 512];
        heap.read(disk, number, 512 * k, &mut window)?;
        let count = (len - 512 * k).min(512) as usize;
        bytes.extend_from_slice(&window[..count])?;
    }
    Ok(bytes)
}
