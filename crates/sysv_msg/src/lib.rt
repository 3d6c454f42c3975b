//! System V message queues: what a send appends and what a receive takes. See msgop(2).
//!
//! Where a rule stands (definition, code, proof):
//!
//! - Selection, fullness, times of a queue of System V: `specs/Queue.antt`, `src/queue.rt`, `src/select.rt`
//!
//! What the clauses say:
//!
//! - `MsgQueue::new`, `renew`: `new_queue`
//! - `MsgQueue::select`: `pick` (`picked`)
//! - `MsgQueue::fits`: not `full`, with the most messages that a queue may have, if there is such a limit
//! - `MsgQueue::send`: `sent`, with `lspid` and `stime`
//! - `MsgQueue::take`: `taken`, with `lrpid` and `rtime` (`message`, `queue`)
//! - `MsgQueue::message`: the message at a position
//! - `MsgQueue::by_type`: what stands at a place of any list of the types that does not fall
//! - `MsgQueue::stat`: `stat_of` (`stat`)
//! - `MsgQueue::set`: `changed`, with `qbytes` and `ctime`
//! - `MsgQueue::restored`: `empty_queue`, a queue without messages that has these numbers
//! - `MsgQueue::restore`: `with_message`, one message more and all else as it was (`queue`, `err`)
//!
//! - A queue has a place for each message that it may ever hold, 65536, from `new` or `restored` on, which alone may be
//!   refused. A `Message` has a text in memory of its own, made before its send is tried (`Message::new`). So `send`
//!   and `take` take no memory: they have no error. `renew` makes any queue a new one, in the same memory. `allocator`
//!   has no clause, since none can speak of where memory is from.
//! - The buffer of a kept text has room for its bytes and no more (`take` `exact`, and a fact of every `Message`).
//! - Laws:
//!   - a receive takes the first message that its type allows (`picked_is_first_allowed`).
//!   - after a send neither bytes nor messages pass `qbytes`, nor the messages their limit (`sent_is_within_bounds`).
//!   - a text that fits still fits after a receive (`taken_still_fits`).
//!   - where nothing can be picked, a receive leaves nothing that can (`receive_leaves_nothing_to_pick`).
#![tactic(auto)]

mod laws;
mod message;
mod queue;
mod select;

pub use laws::{
    picked_is_first_allowed, receive_leaves_nothing_to_pick, sent_is_within_bounds,
    taken_still_fits,
};
pub use message::Message;
pub use queue::{MsgQueue, QueueNumbers, QueueStat};
