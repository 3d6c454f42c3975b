//! What a state has more of than the limits of version 3 allow.

ghost use Rattle.std.specs.Prelude.{◌≡◌, ◌↔◌, ◌≤◌, [], IsTrue, length, not, sum_by};
ghost use Rattle.std.specs.List.{list_all};
ghost use Rattle.ipc_limits.specs.Limits.{exceeds, message_limit, queue_bytes_limit};
ghost use Rattle.ipc_store.specs.Larger.{exceeded_field, room};

use ipc_limits::{Limits, exceeds};
use ipc_state::{Item, KeyedEntry, NamedEntry, State, bytes_of_mq};
use posix_mq::Mq;
use sysv_msg::MsgQueue;

/// The field of the most messages of a queue, and that of the most bytes of all POSIX queues.
const MESSAGES_FIELD: u32 = 19;

const QUEUE_BYTES_FIELD: u32 = 21;

/// The first of the fields 19 to 21 of limits that a state without adjustments exceeds.
pub(crate) fn exceeded_field(state: &State, limits: &Limits) -> Option<u32>
    requires none { state.now.state.undo ≡ [] }
    ensures { result ≡ exceeded_field limits.now state.now.state }
{
    if !has_few_messages(state.msg_queues(), limits) {
        return Some(MESSAGES_FIELD);
    }
    if !has_few_bytes(state.mqs(), limits) {
        return Some(QUEUE_BYTES_FIELD);
    }
    None
}

// Whether none of these queues has more messages than the limits allow.
fn has_few_messages(queues: &[Item<KeyedEntry<MsgQueue>>], limits: &Limits) -> bool
    ensures { result ≡ list_all (λ e. not (exceeds (length e.value.object.messages) (message_limit limits.now)))
        queues.now }
{
    queues
        .iter()
        .all(|queue| is_short(&queue.value.object, limits))
}

fn is_short(queue: &MsgQueue, limits: &Limits) -> bool
    ensures { result ≡ not (exceeds (length queue.now.messages) (message_limit limits.now)) }
{
    !exceeds(queue.len() as u64, limits.message_limit())
}

// Whether these POSIX queues count no more bytes together than the limits allow.
fn has_few_bytes(queues: &[Item<NamedEntry<Mq>>], limits: &Limits) -> bool
    ensures { result ≡ not (exceeds (sum_by (λ e. room e.value.object) queues.now) (queue_bytes_limit limits.now)) }
{
    match limits.queue_bytes_limit() {
        Some(most) => are_few(queues, most),
        None => true,
    }
}

// Whether they count no more than `most`.
fn are_few(queues: &[Item<NamedEntry<Mq>>], most: u32) -> bool
    ensures { IsTrue result ↔ (sum_by (λ e. room e.value.object) queues.now ≤ most) }
{
    let mut left = u128::from(most);
    for queue in queues {
        let attr = queue.value.object.attr();
        let bytes = bytes_of_mq(attr.maxmsg, attr.msgsize);
        if left < bytes {
            return false;
        }
        left -= bytes;
    }
    true
}
