//! Laws of the definitions alone. A call of one does nothing; its contract is the law.

ghost use Rattle.std.specs.Prelude.{◌≡◌, ◌<◌, ◌≤◌, ℕ, false, List, length, slice_index_or, IsSome};
ghost use Rattle.posix_mq.specs.Queue.{PlainMessage, Queue, next_to_receive, most_messages, is_full, with_message};
ghost use Rattle.posix_mq.specs.Queue.{received};

/// What a receive takes is one of the messages; none has a greater priority, and each that came before
/// it has a lower one. If there is a message, one is taken.
pub fn received_is_oldest_of_greatest()
    ensures within { (messages : List PlainMessage) (at : ℕ)
        → next_to_receive messages ≡ Some at → at < length messages }
    ensures greatest { (messages : List PlainMessage) (at k : ℕ) (d : PlainMessage)
        → next_to_receive messages ≡ Some at → k < length messages
        → (slice_index_or messages k d).priority ≤ (slice_index_or messages at d).priority }
    ensures oldest { (messages : List PlainMessage) (at k : ℕ) (d : PlainMessage)
        → next_to_receive messages ≡ Some at → k < at
        → (slice_index_or messages k d).priority < (slice_index_or messages at d).priority }
    ensures one { (messages : List PlainMessage) → 0 < length messages → IsSome (next_to_receive messages) }
{}

/// A queue that is not full has a place for a message, if its maxmsg is not above the most places.
pub fn not_full_has_a_place()
    ensures { (q : Queue) → is_full q ≡ false → q.maxmsg ≤ most_messages
        → length q.messages < most_messages }
{}

/// After a send to a queue that was not full there are at most maxmsg messages.
pub fn sent_is_within_maxmsg()
    ensures { (q : Queue) (m : PlainMessage) → is_full q ≡ false
        → length (with_message q m).messages ≤ q.maxmsg }
{}

/// After a receive from a queue of at most maxmsg messages, and of one at least, it is not full.
pub fn received_leaves_a_place()
    ensures { (q : Queue) → 0 < length q.messages → length q.messages ≤ q.maxmsg
        → is_full (received q) ≡ false }
{}
