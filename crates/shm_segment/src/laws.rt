//! Laws of the definitions alone. A call of one does nothing; its contract is the law.

ghost use Rattle.std.specs.Prelude.{◌≡◌, ◌+◌, ◌<◌, ◌≤◌, ℕ, true, Some, List, length, slice_get};
ghost use Rattle.shm_segment.specs.Segment.{Segment, truncated, is_within, part, written};

/// What was written is what a read of the same range gives.
pub fn written_is_read()
    ensures { (s : Segment) (offset : ℕ) (bytes : List ℕ) → is_within offset (length bytes) s ≡ true
        → part offset (length bytes) (written offset bytes s) ≡ bytes }
{}

/// A write changes no byte before its range and none after it, nor the length.
pub fn written_leaves_the_rest()
    ensures before { (s : Segment) (offset k : ℕ) (bytes : List ℕ)
        → is_within offset (length bytes) s ≡ true → k < offset
        → slice_get (written offset bytes s).bytes k ≡ slice_get s.bytes k }
    ensures after { (s : Segment) (offset k : ℕ) (bytes : List ℕ)
        → is_within offset (length bytes) s ≡ true → offset + length bytes ≤ k
        → slice_get (written offset bytes s).bytes k ≡ slice_get s.bytes k }
    ensures len { (s : Segment) (offset : ℕ) (bytes : List ℕ)
        → is_within offset (length bytes) s ≡ true
        → length (written offset bytes s).bytes ≡ length s.bytes }
{}

/// After a truncation to a length it has this length.
pub fn truncated_has_the_length()
    ensures { (s : Segment) (n : ℕ) → length (truncated n s).bytes ≡ n }
{}

/// A truncation to the length that it has changes nothing.
pub fn truncated_to_its_length_stays()
    ensures { (s : Segment) → truncated (length s.bytes) s ≡ s }
{}

/// If it shrinks and grows again, the bytes that it has gained are 0, whatever was there before.
pub fn regrown_bytes_are_zero()
    ensures { (s : Segment) (low high k : ℕ) → low ≤ k → k < high
        → slice_get (truncated high (truncated low s)).bytes k ≡ Some 0 }
{}
