//! A list of operations, wherever it lies.

ghost use Rattle.std.specs.Prelude.{◌≡◌, ◌<◌, ℕ, ℤ, List, Some, length, slice_get};
ghost use Rattle.sysv_sem.specs.declared.operation.Operation.{Operation};

use crate::operation::Operation;

/// A list of operations of a process, and its adjustments before the list, wherever they lie. Whoever tries the list
/// looks only at what it needs of them. See semop(2).
pub trait OperationList {
    /// The operations.
    ghost operations: { Self → List Operation };

    /// The adjustment of the process at each semaphore, by its number.
    ghost adjustments: { Self → ℕ → ℤ };

    /// How many operations there are.
    fn len(&self) -> usize
        ensures { result ≡ length (operations self.now) };

    /// The operation at this place; the first is at 0.
    fn at(&self, place: usize) -> Operation
        requires { place < length (operations self.now) }
        ensures { slice_get (operations self.now) place ≡ Some result };

    /// The adjustment of the process at the semaphore of this number.
    fn adjustment(&self, num: u16) -> i16
        ensures { result ≡ adjustments self.now num };
}
