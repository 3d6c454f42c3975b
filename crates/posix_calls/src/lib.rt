//! The attempts of the POSIX calls: each changes the state and answers, or refuses and changes nothing, or has to wait.
//!
//! Where a rule stands (definition, code, proof):
//!
//! - mq_open, mq_send and the other calls of queues, close: `specs/Mq.antt`, `src/mq.rt`, `src/opening.rt`,
//!   `src/waiting.rt`
//! - Who is told of a message: `is_to_notify` in `specs/Mq.antt`, `src/waiting.rt`; its frame: `ipc_engine`
//! - sem_open, sem_post, sem_wait and the like: `specs/Psem.antt`, `src/psem.rt`, `src/waiting.rt`
//! - shm_open, ftruncate, reads, writes, fstat: `specs/Pshm.antt`, `src/pshm.rt`, `src/memory.rt`
//! - Flags, who may use an object, what an open or an unlink finds: `specs/Open.antt`, `src/access.rt`
//! - The attributes of a queue, the record of fstat: `specs/Mq.antt`, `src/mq.rt`, `specs/Pshm.antt`, `src/pshm.rt`;
//!   then docs/PROTOCOL.md and `clients/python/ipcd/wire.py`
//! - Proofs of every call: `proofs/Ending.antt` (it ends well), `proofs/Reaching.antt` (what its tests have found),
//!   `proofs/Debts.antt` (registrations left), `proofs/Alike.antt` and `proofs/Trying.antt` (when it waits)
//!
//! What the clauses say:
//!
//! - `attempt`, `try_parked`, `has_to_wait`, `touched` and `reserve` are to close(2) and the calls of POSIX queues,
//!   named semaphores and segments what those of `sysv_calls` are to its calls (`specs/Mq.antt`, `specs/Psem.antt`,
//!   `specs/Pshm.antt`, `specs/Open.antt`, `specs/Calls.antt`). A call of theirs that has waited is tried by all rules
//!   of a new one. `try_parked` also gives the registration that a send fires, if a frame is sent to it. An open takes
//!   the room of an object and of its name, and of a process's descriptor none. ftruncate takes the zeros of its
//!   length, if that is no more than all segments may have under any limits; a read and a stat of a segment make their
//!   body in the spare buffer.
//! - Lemmas for callers: what a call leaves is sound (`attempt-good`); whether it has to wait depends on its descriptor
//!   and the queue or the semaphore on which it is open alone (`waits-alike`, `waits-there`); it changes the
//!   descriptors of no other process, and what it fires and the registrations that it leaves are no more than those
//!   before it, and one that it makes (`call-leaves`).
//! - `registrations` is with how many queues a process is registered (`specs/Registrations.antt`). In a sound state it
//!   is no more than there may be queues, and none of what is no process (`registrations-few`, `registrations-none`).
#![tactic(auto)]

mod access;
mod calls;
mod memory;
mod mq;
mod opening;
mod psem;
mod pshm;
mod waiting;

pub use calls::{attempt, touched};
pub use memory::reserve;
pub use mq::registrations;
pub use waiting::{has_to_wait, try_parked};
