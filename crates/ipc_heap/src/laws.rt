//! What follows from the definitions alone.

ghost use Rattle.std.specs.Prelude.{◌≡◌, ◌<◌, ℕ, length};
ghost use Rattle.ipc_base.specs.Objects.{PlainObjects};
ghost use Rattle.ipc_disk.specs.Growth.{with_zeros};
ghost use Rattle.ipc_disk.specs.Medium.{Image};
ghost use Rattle.ipc_disk.specs.Range.{IsInside, IsOutside, IsWithin};
ghost use Rattle.ipc_disk.specs.declared.range.Range.{Range};
ghost use Rattle.ipc_heap.specs.Damage.{IsFirstDamage};
ghost use Rattle.ipc_heap.specs.Heap.{Holds};
ghost use Rattle.ipc_heap.specs.Meanwhile.{KeepsUsed};

/// An image of a disk is one heap, and no two.
pub fn an_image_is_one_heap()
    ensures { (range : Range) (root epoch other : ℕ) (objects others : PlainObjects) (image : Image)
        → Holds range root epoch objects image → Holds range root other others image
        → (epoch ≡ other) × (objects ≡ others) }
{}

/// A heap stands on a disk that has grown as it stood there before.
pub fn a_disk_that_has_grown_has_the_same_heap()
    ensures { (range : Range) (root epoch more : ℕ) (objects : PlainObjects) (image : Image)
        → IsWithin range (length image) → root < length image
        → Holds range root epoch objects image → Holds range root epoch objects (with_zeros more image) }
{}

/// A range with more sectors has the same heap.
pub fn a_wider_range_has_the_same_heap()
    ensures { (range wide : Range) (root epoch : ℕ) (objects : PlainObjects) (image : Image)
        → ((i : ℕ) → IsInside range i → IsInside wide i)
        → Holds range root epoch objects image → Holds wide root epoch objects image }
{}

/// A later image that keeps what is used has the same heap.
pub fn a_later_image_has_the_same_heap()
    ensures { (range : Range) (root epoch : ℕ) (objects : PlainObjects) (earlier later : Image)
        → IsOutside range root → KeepsUsed range root earlier later
        → Holds range root epoch objects earlier → Holds range root epoch objects later }
{}

/// Where damage is seen, no heap stands.
pub fn a_damaged_image_is_no_heap()
    ensures { (range : Range) (root : ℕ) (image : Image) (sector : ℕ) → IsFirstDamage range root image sector
        → (epoch : ℕ) (objects : PlainObjects) → ¬ Holds range root epoch objects image }
{}
