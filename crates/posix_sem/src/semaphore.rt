//! A named semaphore.

ghost use Rattle.std.specs.Prelude.{◌≡◌, ◌≤◌};
ghost use Rattle.posix_sem.specs.Semaphore.{sem_value_max, post_answer, posted, wait_answer, waited};

use ipc_base::Errno;
use std::marker::Model;

/// The greatest value of a semaphore, as limits.h has it.
pub const SEM_VALUE_MAX: u32 = 2147483647;

/// A named semaphore (sem_overview(7)): its value, from 0 to `SEM_VALUE_MAX`. No call takes memory.
#[derive(Drop)]
pub struct NamedSem {
    value: u32,
}

impl Model for NamedSem {
    ghost use Rattle.std.specs.Prelude.{ℕ, ◌≤◌};
    ghost use Rattle.posix_sem.specs.Semaphore.{sem_value_max};

    ghost Value = { ℕ };

    ghost view = { λ s. s.value };

    ghost invariant = { λ s. s.value ≤ sem_value_max };
}

impl NamedSem {
    /// A semaphore of this value, at most `SEM_VALUE_MAX`.
    pub fn new(value: u32) -> NamedSem
        requires { value ≤ sem_value_max }
        ensures { result ≡ value }
    {
        NamedSem { value }
    }

    /// Its value, at most `SEM_VALUE_MAX`. See sem_getvalue(3).
    pub fn value(&self) -> u32
        ensures value { result ≡ self.now }
        ensures most { self.now ≤ sem_value_max }
    {
        self.value
    }

    /// Raises the value by one, as sem_post(3) does. At `SEM_VALUE_MAX` it is EOVERFLOW, and the value stays.
    pub fn post(&mut self) -> Result<(), Errno>
        ensures answer { result ≡ post_answer self.old }
        ensures value { self.new ≡ posted self.old }
    {
        if self.value == SEM_VALUE_MAX {
            return Err(Errno::EOVERFLOW);
        }
        self.value += 1;
        Ok(())
    }

    /// Lowers the value by one, as sem_trywait(3) does. At 0 it is EAGAIN, and the value stays.
    pub fn try_wait(&mut self) -> Result<(), Errno>
        ensures answer { result ≡ wait_answer self.old }
        ensures value { self.new ≡ waited self.old }
    {
        if self.value == 0 {
            return Err(Errno::EAGAIN);
        }
        self.value -= 1;
        Ok(())
    }
}
