//! A message queue's object by the form of its device. With marks it has a next token, and each message how often it
//! was taken, and by which token, by whom and when if it is. Nobody takes a message yet: the next token is the first
//! one, and each mark is 0.

ghost use Rattle.std.specs.Prelude.{◌≡◌, ◌≢◌, ◌<◌, ◌^◌, ◌++◌, ◌∷◌, [], ℕ, List, All, length, true};
ghost use Rattle.std.specs.Prelude.{Err, IfOk, OnOk, IfSome, IfNone};
ghost use Rattle.std.proofs.Common.{refl};
ghost use Rattle.std.specs.List.{flat_map};
ghost use Rattle.ipc_engine.specs.declared.fault.StateFault.{StateFault};
ghost use Rattle.sysv_msg.specs.Queue.{plain, Queue, PlainMessage};
ghost use Rattle.ipc_state.specs.Sound.{HasNumbers};
ghost use Rattle.ipc_image.specs.Saved.{message_shape, message_sizes, message_tree, message_bytes, messages_bytes};
ghost use Rattle.ipc_image.specs.Saved.{messages_of, queue_bytes, token_bytes, FitsMessage, FitsQueue};
ghost use Rattle.ipc_image.specs.SavedParts.{with_messages, put_queues, with_more, IsMarkIn};
ghost use Rattle.ipc_image.specs.Relations.Marked.{marked_known, marked_one, queue_one, untaken};
ghost use Rattle.ipc_base.specs.Numbers.{fields_bytes, FitFields};
ghost use Rattle.ipc_image.specs.Window.{passed};

use crate::entry::{put_head, take_head};
use crate::fields::{EIGHT, FOUR, put_count, put_fields, put_row, take_count};
use crate::kind::Kind;
use crate::saved::{Listed, Saved, put_list, read_list};
use crate::stored::Stored;
use crate::window::Window;
use ipc_base::{Field, Id, Mark, take_fields};
use ipc_engine::StateFault;
use ipc_state::{Entry, KeyedEntry, State};
use std::alloc::{AllocError, Global};
use std::marker::Model;
use sysv_msg::{Message, MsgQueue};

/// The bytes of a message before its text.
const MESSAGE_NUMBERS: u64 = 36;

/// The next token of a queue that has given none.
const FIRST_TOKEN: u64 = 1;

/// A message with marks, as it is read.
#[derive(Drop)]
pub(crate) struct MarkedMessage(Message);

impl Saved for MarkedMessage {
    type Into = MsgQueue;

    ghost Plain = { PlainMessage };

    ghost plain = { λ m. plain m.0 };

    ghost shape = { message_shape true };

    ghost tree = { message_tree true };

    ghost Fits = { FitsMessage };

    ghost Seen = { Queue };

    ghost seen = { λ q. q };

    ghost items = { messages_of };

    ghost put = { with_messages };

    ghost place = { record { same = λ q. refl; found = λ q ms. refl; again = λ q ms ns. refl } };

    ghost known = { marked_known };

    ghost one = { marked_one };

    fn len(&self) -> u64 {
        marked_len(&self.0)
    }

    fn put(&self, window: &mut Window) {
        put_marked(window, &self.0);
    }

    fn take<'b>(into: &mut MsgQueue, bytes: &'b [u8]) -> Result<&'b [u8], StateFault> {
        let (mtype, len, after) = take_untaken(bytes).ok_or(StateFault::Unsound)?;
        let (text, rest) = after
            .split_at_checked(len as usize)
            .ok_or(StateFault::Unsound)?;
        let message = Message::new(into.allocator(), mtype.cast_signed(), text)?;
        into.restore(message)?;
        Ok(rest)
    }
}

/// The type of a message with marks at the front of some bytes, how long its text is, and the bytes after these, if
/// each mark is 0.
fn take_untaken(bytes: &[u8]) -> Option<(u64, u32, &[u8])>
    ensures some { IfSome result (λ found. FitFields (message_sizes true) (untaken found.0 found.1)
        × (bytes.now ≡ fields_bytes (message_sizes true) (untaken found.0 found.1) ++ found.2.now)) }
    ensures none { IfNone result ((mtype len : ℕ) (rest : List ℕ) → mtype < 2 ^ 64 → len < 2 ^ 32
        → bytes.now ≢ fields_bytes (message_sizes true) (untaken mtype len) ++ rest) }
{
    let (numbers, rest) = take_fields(bytes, &[EIGHT, FOUR, EIGHT, FOUR, EIGHT, FOUR])?;
    if numbers[1..5] != [0; 4] {
        return None;
    }
    Some((numbers[0], numbers[5] as u32, rest))
}

/// How many bytes a message with marks has.
fn marked_len(message: &Message) -> u64
    requires { FitsMessage (plain message.now) }
    ensures { result ≡ length (message_bytes true (plain message.now)) }
{
    MESSAGE_NUMBERS + message.text.len() as u64
}

/// A message with marks passes the window.
fn put_marked(window: &mut Window, message: &Message)
    requires { FitsMessage (plain message.now) }
    ensures { window.new ≡ passed (message_bytes true (plain message.now)) window.old }
{
    put_row(
        window,
        &[
            Field::U64(message.mtype.cast_unsigned()),
            Field::U32(0), // takes
            Field::U64(0), // token
            Field::U32(0), // holder
            Field::U64(0), // moment
            Field::U32(message.text.len() as u32),
        ],
        &message.text,
    );
}

/// The messages of a queue, with marks.
#[derive(Drop)]
struct Marked<'a>(&'a MsgQueue);

impl<'a> Listed for Marked<'a> {
    ghost Plain = { PlainMessage };

    ghost bytes = { message_bytes true };

    ghost Fits = { FitsMessage };

    ghost items = { λ q. q.0.now.messages };

    fn count(&self) -> usize {
        self.0.len()
    }

    fn len_at(&self, at: usize) -> u64 {
        marked_len(self.0.message(at))
    }

    fn put_at(&self, at: usize, window: &mut Window) {
        put_marked(window, self.0.message(at));
    }
}

/// How many bytes a queue's object has.
#[tactic(auto, using(crate::proofs::SavedObjects::marked_counts))]
pub(crate) fn queue_len(queue: &KeyedEntry<MsgQueue>, marks: bool) -> u64
    requires fits { FitsQueue queue.now }
    requires short { length (queue_bytes marks queue.now) < 2 ^ 64 }
    ensures { result ≡ length (queue_bytes marks queue.now) }
{
    if !marks {
        return queue.len();
    }
    let stat = queue.object.stat();
    72 + MESSAGE_NUMBERS * stat.qnum as u64 + stat.bytes as u64
}

/// A queue's object passes the window. The mark is of its messages.
pub(crate) fn put_queue(
    window: &mut Window,
    queue: &KeyedEntry<MsgQueue>,
    marks: bool,
    mark: &mut Mark,
)
    requires fits { FitsQueue queue.now }
    requires short { length (queue_bytes marks queue.now) < 2 ^ 64 }
    requires mark { IsMarkIn (message_bytes marks) queue.now.object.messages mark.old }
    ensures passed { window.new ≡ passed (queue_bytes marks queue.now) window.old }
    ensures mark { IsMarkIn (message_bytes marks) queue.now.object.messages mark.new }
{
    if marks {
        put_head(window, queue);
        queue.object.put_numbers(window);
        put_messages(window, &queue.object, mark);
    } else {
        queue.put(window, mark);
    }
}

/// How many messages with marks a queue has, its next token, and each of them, pass the window. The mark is of them.
fn put_messages(window: &mut Window, queue: &MsgQueue, mark: &mut Mark)
    requires few { length queue.now.messages < 2 ^ 32 }
    requires fit { All FitsMessage queue.now.messages }
    requires short { length (flat_map (message_bytes true) queue.now.messages) < 2 ^ 64 }
    requires mark { IsMarkIn (message_bytes true) queue.now.messages mark.old }
    ensures passed { window.new ≡ passed (messages_bytes true queue.now.messages) window.old }
    ensures mark { IsMarkIn (message_bytes true) queue.now.messages mark.new }
{
    put_count(window, queue.len() as u32);
    put_fields(window, &[Field::U64(FIRST_TOKEN)]);
    put_list(window, &Marked(queue), mark);
}

/// A message queue of a device with marks, as it is read.
#[derive(Drop)]
pub(crate) struct MarkedQueue(KeyedEntry<MsgQueue>);

impl Model for MarkedQueue {
    ghost use Rattle.std.specs.Coded.{codes};
    ghost use Rattle.sysv_msg.specs.Queue.{Queue as PlainQueue};
    ghost use Rattle.ipc_state.specs.Keyed.{KeyedEntry as PlainEntry};

    ghost Value = { PlainEntry PlainQueue };

    ghost coded = { Prim.hlevel codes };

    ghost view = { λ q. q.0 };
}

impl Stored for MarkedQueue {
    ghost bytes_of = { queue_bytes true };

    ghost Fits = { FitsQueue };

    ghost IsSmall = { λ e. HasNumbers e.object };

    ghost IsMark = { λ e m. IsMarkIn (message_bytes true) e.object.messages m };

    ghost FIRST = { 2 ^ 32 };

    const FIRST: u64 = 1 << 32;

    ghost items = { λ s. s.0.msg.entries };

    ghost put = { put_queues };

    ghost one = { queue_one };

    ghost place = { record { same = λ s. refl; found = λ s xs. refl; again = λ s xs ys. refl } };

    fn read_numbers(&self) {
        self.0.read_numbers();
    }

    fn len(&self) -> u64 {
        queue_len(&self.0, true)
    }

    fn put(&self, window: &mut Window, mark: &mut Mark) {
        put_queue(window, &self.0, true, mark);
    }

    fn read(alloc: Global, bytes: &[u8]) -> Result<MarkedQueue, StateFault> {
        let (head, rest) = take_head(bytes).ok_or(StateFault::Unsound)?;
        let (mut object, rest) = MsgQueue::read_head(alloc, rest)?;
        read_messages(&mut object, rest)?;
        Ok(MarkedQueue(Entry {
            bound: head.bound,
            perm: head.perm,
            object,
        }))
    }

    fn add(state: &mut State, number: u32, queue: MarkedQueue) -> Result<(), AllocError> {
        state.restore_msg_queue(Id(number), queue.0)
    }
}

/// Reads how many messages with marks there are, the next token, and them, and nothing after them, into a queue
/// without messages. `Unsound` too if a token was given.
fn read_messages(queue: &mut MsgQueue, bytes: &[u8]) -> Result<(), StateFault>
    ensures ok { OnOk result ((ms : List PlainMessage) × (length ms < 2 ^ 32) × All FitsMessage ms
        × (bytes.now ≡ messages_bytes true ms) × (queue.new ≡ with_more messages_of with_messages queue.old ms)) }
    ensures damaged { result ≡ Err StateFault.Unsound → (ms : List PlainMessage) → length ms < 2 ^ 32
        → All FitsMessage ms → bytes.now ≢ messages_bytes true ms }
{
    let (count, rest) = take_count(bytes).ok_or(StateFault::Unsound)?;
    let rest = take_token(rest).ok_or(StateFault::Unsound)?;
    read_list::<MarkedMessage>(queue, count, rest)
}

/// What follows the next token of a queue that has given none.
fn take_token(bytes: &[u8]) -> Option<&[u8]>
    ensures some { IfSome result (λ rest. bytes.now ≡ token_bytes true ++ rest.now) }
    ensures none { IfNone result ((rest : List ℕ) → bytes.now ≢ token_bytes true ++ rest) }
{
    let (numbers, rest) = take_fields(bytes, &[EIGHT])?;
    if numbers[0] != FIRST_TOKEN {
        return None;
    }
    Some(rest)
}
