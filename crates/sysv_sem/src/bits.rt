//! Semaphores as bits of a word.

ghost use Rattle.std.specs.Prelude.{◌≡◌};
ghost use Rattle.sysv_sem.specs.Bits as defined;

/// The bit of a word that stands for a semaphore: that of its number, or of what 64 leaves of it.
pub fn bit_of(num: u32) -> u64
    ensures { result ≡ defined.bit_of num }
{
    1 << (num % 64)
}
