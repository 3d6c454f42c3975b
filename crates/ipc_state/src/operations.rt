//! The operations of a semop that waits: the semaphores that they name, as bits of a word, what they demand of their
//! set, and whether they are patient.

ghost use Rattle.std.specs.Prelude.{◌≡◌, ◌%◌, length};
ghost use Rattle.ipc_wire.specs.SemBufs.{bytes_of, operations_in};
ghost use Rattle.ipc_state.specs.Bits as defined;
ghost use Rattle.ipc_state.specs.Demands as demanded;

use ipc_base::SemFlags;
use ipc_wire::{SemBuf, SemBufs};
use std::alloc::{AllocError, Global};
use sysv_sem::{Operation, bit_of};

/// An operation as it stands in a request.
pub fn operation_of(operation: SemBuf) -> Operation
    ensures { result ≡ demanded.operation_of operation }
{
    Operation {
        num: operation.num,
        sem_op: operation.op,
        flags: SemFlags(operation.flags),
    }
}

/// The semaphores that operations name, as bits of a word.
pub fn bits_of(operations: &SemBufs<'_>) -> u64
    ensures { result ≡ defined.bits_of (operations_in (bytes_of operations.now)) }
{
    let mut word = 0;
    for place in 0..operations.len() {
        word |= bit_of(u32::from(operations.at(place).num));
    }
    word
}

/// What a list of operations demands of its set: how many semaphores, whether an operation reads its semaphore, and
/// whether one alters it; also whether each is patient.
#[derive(Clone, Copy)]
struct Demands {
    semaphores: u32,
    reads: bool,
    alters: bool,
    patient: bool,
}

impl Demands {
    /// What the operations so far demand, with one operation more.
    fn with(self, operation: SemBuf) -> Demands
        ensures { result ≡ demanded.demanding self operation }
    {
        let is_read = operation.op == 0;
        Demands {
            semaphores: self.semaphores.max(u32::from(operation.num) + 1),
            reads: self.reads || is_read,
            alters: self.alters || !is_read,
            patient: self.patient && operation_of(operation).is_patient(),
        }
    }
}

/// What operations demand of their set.
fn demands_of(operations: &SemBufs<'_>) -> Demands
    ensures { result ≡ demanded.demands_of (operations_in (bytes_of operations.now)) }
{
    let mut demands = Demands {
        semaphores: 0,
        reads: false,
        alters: false,
        patient: true,
    };
    for place in 0..operations.len() {
        demands = demands.with(operations.at(place));
    }
    demands
}

/// The operations of a semop, in memory of their own, the semaphores that they name, and what they demand of their set.
/// So whether they may be tried is told without a look at each.
#[derive(Drop)]
pub struct Operations {
    bytes: Vec<u8>,
    named: u64,
    demands: Demands,
    ghost whole: { length bytes.items % 6 ≡ 0 },
    ghost bits: { named ≡ defined.bits_of (operations_in bytes.items) },
    ghost demanded: { demands ≡ demanded.demands_of (operations_in bytes.items) },
}

impl Operations {
    ghost use Rattle.std.specs.Prelude.{IfOk, not, pos, nat_lt};
    ghost use Rattle.std.specs.List.{list_all, list_any};
    ghost use Rattle.std.specs.Ordering.{int_eq};
    ghost use Rattle.ipc_wire.specs.SemBufs.{bytes_of, operations_in};
    ghost use Rattle.ipc_state.specs.Bits as defined;
    ghost use Rattle.ipc_state.specs.Demands.{operation_of};
    ghost use Rattle.sysv_sem.specs.Operation.{is_patient};

    /// A copy of these operations. Refused for want of memory.
    pub fn new(alloc: Global, operations: &SemBufs<'_>) -> Result<Operations, AllocError>
        ensures { IfOk result (λ kept. kept.bytes.items ≡ bytes_of operations.now) }
    {
        Ok(Operations {
            bytes: operations.bytes().to_vec(alloc)?,
            named: bits_of(operations),
            demands: demands_of(operations),
        })
    }

    /// The operations.
    pub fn lend(&self) -> SemBufs<'_>
        ensures { bytes_of result ≡ self.now.bytes.items }
    {
        SemBufs::new(&self.bytes).unwrap()
    }

    /// The semaphores that they name, as bits of a word. This takes no longer with more operations.
    pub fn named(&self) -> u64
        ensures { result ≡ defined.bits_of (operations_in self.now.bytes.items) }
    {
        self.named
    }

    /// Whether a set of so many semaphores has all that they name. This takes no longer with more operations.
    pub fn are_within(&self, nsems: usize) -> bool
        ensures { result ≡ list_all (λ o. nat_lt o.num nsems) (operations_in self.now.bytes.items) }
    {
        self.demands.semaphores as usize <= nsems
    }

    /// Whether one of them reads its semaphore: it waits for 0. This takes no longer with more operations.
    pub fn reads(&self) -> bool
        ensures { result ≡ list_any (λ o. int_eq o.op (pos 0)) (operations_in self.now.bytes.items) }
    {
        self.demands.reads
    }

    /// Whether each of them gives nothing, is not undone when its process exits, and waits if it cannot proceed. This
    /// takes no longer with more operations.
    pub fn are_patient(&self) -> bool
        ensures { result ≡ list_all (λ o. is_patient (operation_of o)) (operations_in self.now.bytes.items) }
    {
        self.demands.patient
    }

    /// Whether one of them alters its semaphore. This takes no longer with more operations.
    pub fn alters(&self) -> bool
        ensures { result ≡ list_any (λ o. not (int_eq o.op (pos 0))) (operations_in self.now.bytes.items) }
    {
        self.demands.alters
    }
}
