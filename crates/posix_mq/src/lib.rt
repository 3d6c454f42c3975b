//! POSIX message queues: what a send appends and what a receive takes. See mq_overview(7).
//!
//! Where a rule stands (definition, code, proof):
//!
//! - Which message is received first, and registrations: `specs/Queue.antt`, `src/queue.rt`
//!
//! What the clauses say:
//!
//! - `Mq` is a list of messages in the order in which they came, two limits, and a registration if there is one
//!   (`specs/Queue.antt`). `new` is `empty_queue` with no registration, and `restored` with this one. They take the
//!   places of 10 messages, the most that a queue may have, whatever its `maxmsg`; they may be refused. `renew` makes
//!   any queue a new one, in the same memory. A `Message` has a text in memory of its own, made before its send is
//!   tried (`Message::new`), whose buffer has room for its bytes and no more (`receive` `exact`, and a fact of every
//!   `Message`). `send` appends a message (`with_message`), on the condition that there are fewer than 10. `receive`
//!   removes the oldest message of the greatest priority and gives it (`message`, `queue`), on the condition that there
//!   is a message. Neither takes memory: they have no error. `message` is the message at a position, and `by_priority`
//!   what stands at a place of any list of the priorities that does not fall. `register`, which wants that there is no
//!   registration, and `deregister` change the registration alone. `attr` is `attr_of`, and each priority is a number
//!   of four bytes (`priorities`). `restore` adds one message, also to a full queue (`ok`), or leaves all (`err`).
//!   `allocator` has no clause, since none can speak of where memory is from. Laws: what is received has the greatest
//!   priority, and each message that came before it has a lower one; if there is a message, one is received
//!   (`received_is_oldest_of_greatest`). A queue that is not full and whose `maxmsg` is at most 10 has a place for a
//!   message (`not_full_has_a_place`). After a send to a queue that was not full there are at most `maxmsg` messages
//!   (`sent_is_within_maxmsg`); after a receive from a queue of at most `maxmsg` it is not full
//!   (`received_leaves_a_place`).
#![tactic(auto)]

mod greatest;
mod laws;
mod message;
mod queue;

pub use laws::{
    not_full_has_a_place, received_is_oldest_of_greatest, received_leaves_a_place,
    sent_is_within_maxmsg,
};
pub use message::Message;
pub use queue::{Mq, MqAttr, Registration};
