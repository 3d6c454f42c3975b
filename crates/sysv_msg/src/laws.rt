//! Laws of the definitions alone. A call of one does nothing; its contract is the law.

ghost use Rattle.std.specs.Prelude.{◌≡◌, ◌<◌, ◌≤◌, ℕ, ℤ, Bool, true, false, List, length, remove, slice_index_or};
ghost use Rattle.std.specs.Prelude.{Option};
ghost use Rattle.ipc_limits.specs.Limits.{exceeds};
ghost use Rattle.sysv_msg.specs.Queue.{PlainMessage, Queue, pick, is_allowed, full, byte_count, sent, taken};

/// The picked message is one of the list, it is allowed, and none before it is; if none is picked, none
/// is allowed.
pub fn picked_is_first_allowed()
    ensures within { (messages : List PlainMessage) (type : ℤ) (except : Bool) (at : ℕ)
        → pick messages type except ≡ Some at → at < length messages }
    ensures allowed { (messages : List PlainMessage) (type : ℤ) (except : Bool) (at : ℕ) (d : PlainMessage)
        → pick messages type except ≡ Some at
        → is_allowed messages type except (slice_index_or messages at d) ≡ true }
    ensures first { (messages : List PlainMessage) (type : ℤ) (except : Bool) (at k : ℕ) (d : PlainMessage)
        → pick messages type except ≡ Some at → k < at
        → is_allowed messages type except (slice_index_or messages k d) ≡ false }
    ensures none { (messages : List PlainMessage) (type : ℤ) (except : Bool) (k : ℕ) (d : PlainMessage)
        → pick messages type except ≡ None → k < length messages
        → is_allowed messages type except (slice_index_or messages k d) ≡ false }
{}

/// After a send for which the queue was not full, neither its bytes nor its messages are more than qbytes, and its
/// messages are within their limit.
pub fn sent_is_within_bounds()
    ensures bytes { (most : Option ℕ) (q : Queue) (m : PlainMessage) (pid moment : ℕ)
        → full most q (length m.text) ≡ false
        → byte_count (sent q m pid moment).messages ≤ q.qbytes }
    ensures messages { (most : Option ℕ) (q : Queue) (m : PlainMessage) (pid moment : ℕ)
        → full most q (length m.text) ≡ false
        → length (sent q m pid moment).messages ≤ q.qbytes }
    ensures limit { (most : Option ℕ) (q : Queue) (m : PlainMessage) (pid moment : ℕ)
        → full most q (length m.text) ≡ false
        → exceeds (length (sent q m pid moment).messages) most ≡ false }
{}

/// A text that fits still fits after a receive.
pub fn taken_still_fits()
    ensures { (most : Option ℕ) (q : Queue) (at pid moment bytes : ℕ) → at < length q.messages
        → full most q bytes ≡ false
        → full most (taken q at pid moment) bytes ≡ false }
{}

/// If a receive picks nothing, it picks nothing after another receive either.
pub fn receive_leaves_nothing_to_pick()
    ensures { (messages : List PlainMessage) (type : ℤ) (except : Bool) (at : ℕ)
        → pick messages type except ≡ None
        → pick (remove messages at) type except ≡ None }
{}
