//! The state between two events: processes, calls that wait, and the objects of each kind with their keys or names.
//! See sysvipc(7), mq_overview(7), sem_overview(7) and shm_overview(7).
//!
//! Where a rule stands (definition, code, proof):
//!
//! - Identifiers and pids: `specs/Numbered.antt`, `src/numbered.rt`; how one is found: `src/rows.rt`
//! - What an object is bound to, all objects of a kind: `specs/Bound.antt`, `src/bound.rt`, `src/objects.rt`
//! - Keys: `specs/Keyed.antt`, `src/keys.rt`; names: `specs/Named.antt`, `src/names.rt`
//! - What differs by kind (when an object goes, what it is bound to): `specs/Kinds.antt`, `src/holding.rt`
//! - Descriptors: `specs/Descriptors.antt`, `src/descriptors.rt`; what keeps an object: `specs/Opening.antt`,
//!   `src/holding.rt`
//! - What goes with a descriptor: `closed` and `swept` in `specs/State.antt`, `src/holding.rt`, `src/tables.rt`,
//!   `src/mqs.rt`
//! - What an exit, a restart, SETVAL, SETALL, IPC_RMID do to adjustments: `specs/State.antt`, `src/adjustments.rt`
//! - How a segment is detached: `specs/Attached.antt`, `src/attached.rt`, `proofs/Detaching.antt`
//! - Bounds of all objects together: `specs/Sound.antt`, and `src/semsets.rt`, `src/shms.rt` or `src/pshms.rt`
//! - What a process has: `src/processes.rt`, `src/descriptors.rt`, `src/adjustments.rt`, `specs/State.antt`
//! - What a state may be, part by part: `specs/Sound.antt`, `specs/Tests.antt`, and the part's file in `src/`
//! - On what a request waits, until when, what it is told then: `specs/Waiting.antt`, `src/parked.rt`, `src/waits.rt`
//!
//! What the clauses say:
//!
//! - `State` is the state of the definitions (`specs/State.antt`) with its limits, which passed their check, and the
//!   room that is reserved in it (`specs/Held.antt`). It lends its objects, so it need not be sound; whoever keeps one
//!   says so. That each change leads from a sound state to a sound one is a lemma for callers on the definitions.
//! - Each change is the change of the definition of that name: `set_moment` is `at_moment`, `add_process`
//!   `with_process`, `remove_process` `exit`, `restart` `restart`, `add_msg_queue` `with_new_msg_queue`, `add_semset`
//!   `with_new_semset`, `enter_wait` `with_waiting`, `leave_wait` `without_waiting`, `clear_adjustments`
//!   `without_adjustments` (`state`); `subtract` is `subtracted` of the adjustments of a process, on the condition that
//!   there is room and that the result is an adjustment. It wants its room reserved and takes no memory. `leave_due`
//!   takes out the first call whose deadline has come (`first`, `state`), or says that none has (`none`).
//! - `Rows`, below all tables of the state, is a list of what has numbers, and knows whether they rise, which is its
//!   invariant. While they do, one is looked for where one was found last, at the place that its number says, where
//!   it is as long as none was removed, and then by halving (`place_of`); else from the front. Each way finds the first
//!   that has the number (`place`). No clause says what that costs (bench/LOG.md).
//! - `ObjectTable` is the objects of one kind: by number, and by what they are bound to in a directory that agrees with
//!   them, which is its invariant. What that is, a key or a name, is a type with `Bound`: which of its values are the
//!   same, which one names nothing (IPC_PRIVATE, no bytes), and how a directory finds one. A contract sees the objects,
//!   and the one that is ready to be added, with what it is to be bound to (`HeldObjects`). Nothing else has room in
//!   the directory, and there is a place for what is ready: that too is an invariant (`IsReady`), of which nobody else
//!   needs to know. `reserve` makes an object ready (`ok`); refused, none is ready (`err`); `release` gives it back.
//!   `add` is `with_new` of what is ready, `remove` `without_entry`, and after both nothing is ready; `set_perm`
//!   replaces who may use an object. None of these three takes memory. Of keys (`Keyed`), `of_key` is `keyed` if all
//!   identifiers are above 0, as they are in a sound state.
//! - Of names (`Named`), any number of objects may have none; `of_name` is `named` on the same condition. `unbind`, for
//!   objects of any kind, is `unbound`: the object is found by its key or name no more, and is what its kind says of
//!   one that has parted (`parted`). `sweep` drops those that are bound to none, go then (`leaves`), and that nobody
//!   has open. `are_kept` says whether each of a kind stays by itself or is open, `count_at_most` whether what is
//!   counted of all of them (semaphores, bytes) is no more than so many.
//! - `Descriptors` are those of one process, by rising number (`specs/Descriptors.antt`). `open` is `opened`, and gives
//!   the lowest number that is not in use (`fd`): that number is not in use and each below it is
//!   (`lowest_unused_is_so`), and the descriptor is found there then, and all others as before (`opened_is_there`).
//!   `close` and `set_flags` change the one of that number alone. `new` takes memory, for 32, which a process has ready
//!   before it comes, and so does `restore`, which adds one that was read, where there are more.
//! - `remove_process` and `restart` also close descriptors, detach segments, take registrations away and drop objects
//!   without a name, and segments that are marked, that nobody has open (`exit`, `restart` of the definitions;
//!   `specs/Opening.antt`). `descriptor` is what a descriptor of a process is. `open_descriptor` is `with_descriptor`
//!   and gives the number, `close_descriptor` is `closed`, which detaches the segment of an attachment
//!   (`specs/Attached.antt`), and `closed_on` says which object it changes; `set_descriptor_flags`
//!   `with_descriptor_flags`, `unlink_mq`, `unlink_psem` and `unlink_pshm` `unlinked` of their kind. `add_mq`,
//!   `add_psem` and `add_pshm` are `with_new_mq`, `with_new_psem` and `with_new_pshm` of the name that is ready, and
//!   `take_zeros` gives the zeros that are (`zeros`, `left`). `have_at_most_bytes` says whether all segments with a
//!   name together have no more bytes than so many. `sweep` is `swept`. None but the four that reserve takes memory.
//!   `has_all_mq_bytes` says whether a queue of so many bytes (`bytes_of_mq`) would be too much for all, on a version
//!   that limits them; `adjustment_count` is how many adjustments a process has.
//!   `mq_object_mut` lends a queue to be changed (`specs/LendsMq.antt`); `named_mqs`, `mq`, `has_all_mqs`,
//!   `has_all_descriptors` and `has_object` show what there is. `mq_receiver_waits` says whether a call waits to
//!   receive from a queue (`receiver_waits`).
//! - `msg` shows the queues, and `msg_queue_mut` lends the one of an identifier: what is written to it is then that
//!   queue of the state, and all else is as it was (`writes_back`, `specs/LendsMsgQueue.antt`). `set_msg_perm` replaces
//!   who may use a queue, and `remove_msg_queue` takes one out. `ObjectTable::get_mut` lends the object of a number in
//!   the same way (`specs/Lends.antt`).
//! - What is reserved for the call that comes is one value (`Ready` in `specs/Held.antt`): nothing, a process, an
//!   object of a key or a name, of a System V segment its bytes too, or zeros. `reserve_process` and a `reserve_..` for
//!   each kind make it that (`ok`), with all that its addition takes: a process's adjustments have room for one at each
//!   semaphore that there may be. Refused, nothing is ready, and all else is as it was (`err`). What was ready before
//!   is given back first, as `release` does; a queue that was not used is kept, so that the next one takes no memory.
//!   Whatever adds or removes an object leaves nothing ready (`left`). `reserve_waits` takes the places of a call of
//!   each process that there may be (`ok`), once for all. `may_have_more` says whether so many semaphores more may
//!   come.
//! - The adjustments of each process stand in a table by pid. An exit and a restart add them (`remove_process`,
//!   `restart`), in the order of the definitions. `few-adjustments`, a lemma for callers: in a sound state no process
//!   has more than there may be semaphores, since each is at one that is there (`few-at`: it is so of any adjustments
//!   that are). In a sound state each is in its range and not 0 (`AreAdjustments` `kept`), and a step keeps that.
//! - `cred`, `has_process` and `has_all_processes` answer what the definitions say. `cred` wants the process to be
//!   connected.
//! - `clock`, `next_pid`, `next_msg_queue`, `next_semset`, `next_mq`, `processes`, `adjustments`, `msg_queues`,
//!   `semsets` and `mqs` are the parts of the state; `psems` and `pshms` are the named semaphores and the segments,
//!   those too that were unlinked and are open, with the next number, and `psem_mut` and `pshm_mut` lend one of them to
//!   be changed (`writes_back`, `specs/LendsNamed.antt`). `allocator` has no clause, as that of a queue. `semset`,
//!   `semset_mut`, `set_semset_perm` and `remove_semset` are to the semaphore sets what those functions are to the
//!   queues (`specs/LendsSemset.antt`), and `shm`, `shm_mut` and `set_shm_perm` to the System V segments
//!   (`specs/LendsShm.antt`). `add_shm` is `with_new_shm` of the key and the zeros that are ready, and `mark_shm`
//!   `unlinked` of that kind. `attachments` counts the descriptors that are open on a segment (`count`),
//!   `may_have_more_bytes` says whether so many bytes more may come, and `shown_mode` is the mode that shows the mark.
//! - `waits` shows the calls that wait, in the order in which they came, `is_waiting` says whether one is of a process,
//!   and `still_waits` whether it is when a moment has come. A `Parked` is the request of such a call, its text in
//!   memory of its own: `new` makes it of a request whose call may wait (`some`), which is one of msgsnd, msgrcv,
//!   semop, mq_send, mq_receive or sem_wait, and is none for any other, and for no other (`none`, `never`); only a text
//!   or a list of operations may be refused for memory (`memory`). It has a frame by its type (`awaited` `frame`).
//!   `lend` lends it, `kind` is the call itself, which `into_kind` gives away, `awaited` is what it waits on as its
//!   request names it, of which `object_of` finds the object, `deadline` until when, and `expiry` what it is told then
//!   (`specs/Waiting.antt`). An exit takes the call of its process out, and a restart all. `restore_waits` puts the
//!   calls there that were read (`state`).
//! - `restore_numbers`, `restore_process`, `restore_adjustment`, `restore_msg_queue`, `restore_semset`, `restore_shm`,
//!   `restore_mq`, `restore_psem` and `restore_pshm` add a part that was read, whatever it is (`restore_no_adjustments`
//!   comes after the processes) (`specs/Restored.antt`): after Ok the state has it (`state`); after a refusal for
//!   memory the state is as before (`err`), also of `restore_no_adjustments`; an adjustment that is none, 0 or -32768,
//!   is dropped, and all is as before (`restore_adjustment` `dropped`). `is_sound` says whether each part is sound, of
//!   any state.
#![tactic(auto)]

mod adjustments;
mod answers;
mod attached;
mod bound;
mod descriptors;
mod holding;
mod keys;
mod mqs;
mod msg_queues;
mod names;
mod numbered;
mod objects;
mod operations;
mod parked;
mod processes;
mod psems;
mod pshms;
mod rows;
mod semsets;
mod shms;
mod sound;
mod state;
mod tables;
mod waits;

pub use answers::{Answer, Halt, Tried, take_spare};
pub use attached::shown_mode;
pub use bound::Bound;
pub use descriptors::{
    Descriptor, DescriptorRow, Descriptors, lowest_unused_is_so, opened_is_there,
};
pub use holding::is_on;
pub use keys::IPC_PRIVATE;
pub use mqs::bytes_of_mq;
pub use numbered::{Item, LAST_NUMBER};
pub use objects::{Entry, Keyed, KeyedEntry, Named, NamedEntry, ObjectTable};
pub use operations::{Operations, bits_of, operation_of};
pub use parked::{Awaited, Object, ObjectKind, Parked, ParkedKind, ParkedPosix, ParkedSysv};
pub use processes::Process;
pub use state::{Numbers, State};
pub use tables::is_segment;
