//! The attempts of the System V calls: each changes the state and answers, or refuses and changes nothing, or has to
//! wait.
//!
//! Where a rule stands (definition, code, proof):
//!
//! - msgget, msgsnd, msgrcv, msgctl: `specs/Msg.antt`, `src/msg.rt`, `proofs/MsgCalls.antt`
//! - semget, semctl: `specs/Sem.antt`, `src/sem.rt`, `proofs/SemCalls.antt`
//! - semop, GETNCNT, GETZCNT: `specs/Semop.antt`, `src/semop.rt`, `proofs/SemopCalls.antt`, `proofs/Stopping.antt`,
//!   `proofs/Noting.antt`
//! - shmget, shmat, shmdt, shmctl, reads and writes: `specs/Shm.antt`, `src/shm.rt`, `proofs/ShmCalls.antt`
//! - What a get finds, who may use an object, IPC_STAT, IPC_RMID, and where EIDRM is decided: `specs/Access.antt`
//!   (`gone`), `src/access.rt`, `proofs/Reaching.antt`
//! - The record of IPC_STAT: `specs/Records.antt`, `src/access.rt`, and `src/msg.rt`, `src/sem.rt` or `src/shm.rt`;
//!   then docs/PROTOCOL.md and `clients/python/ipcd/wire.py`
//! - Which call that waits a change concerns: `specs/Concern.antt`, `src/concern.rt`, `proofs/Sparing.antt`
//! - What a call needs of memory: `specs/Needs.antt`, `src/calls.rt`
//!
//! What the clauses say:
//!
//! - `attempt` of a call that never waits is the call of the definitions (`specs/Msg.antt`, `specs/Sem.antt`,
//!   `specs/Semop.antt`, `specs/Shm.antt`, `specs/Calls.antt`): the state after it, the error or none, the body
//!   (`finish`). `try_parked` is that of one that may wait, the first time and again: it ends, or has to wait, is given
//!   back and has changed nothing (`finish`, `kept`). Both want a state of sound parts and the process to be connected,
//!   and `attempt` that what the call needs is ready (`specs/Needs.antt`); they take no memory. After `attempt` nothing
//!   is ready, and the limits and the places of calls that wait are as they were (`held`); `try_parked` leaves what is
//!   ready too (`held`). What they leave is sound, if no call of the process waits (`attempt-good`, a lemma for callers
//!   on the definitions); a call leaves the objects of each other process, and fires and makes no registration
//!   (`attempt-apart`). `has_to_wait` tells of a call whether it would have to, `touched` which object a call may
//!   change, `change_of` what it changes there, and `concerns` whether a call that waits looks at that
//!   (`specs/Concern.antt`).
//! - Lemmas for callers: whether a call has to wait depends on its caller, the limits, its own object and, for semop,
//!   its own adjustments there alone (`waits-alike`); one that has to wait finds its object there (`waits-there`); and
//!   when another process's call has ended, one that has to wait has to wait on if what that changes does not concern
//!   it (`call-spares`).
//! - A call that has neither a number nor a message as its body makes it in the spare buffer that it is given; the
//!   buffer is then in the answer, or still where it was (`spare`).
//! - `reserve` makes that ready, and nothing else differs (`ok`); refused, nothing is ready (`err`). A call that needs
//!   nothing is never refused (`memory`). A send needs its text, and a semop its operations, in memory of its own each
//!   time, also if it does not come to wait; a receive needs nothing, and so does the trial of a list: it goes through
//!   the set itself, and the room of adjustments is there. semget needs the room of its key, and a set of as many
//!   semaphores, each time, if a set may have as many under any limits; no other call of sets needs any. shmget needs
//!   the room of its key, and the zeros of its segment, if one may have as many under any limits; shmat needs none,
//!   since a process has room for its descriptors, and a read makes its body in the spare buffer. What may wait is
//!   kept, and nothing else is (`IsReserved` `call`).
#![tactic(auto)]

mod access;
mod calls;
mod concern;
mod msg;
mod sem;
mod semop;
mod shm;
mod waiting;

pub use calls::{attempt, reserve, touched};
pub use concern::{Change, change_of, concerns};
pub use waiting::{has_to_wait, try_parked};
