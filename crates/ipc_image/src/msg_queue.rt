//! A message queue's object on a device without marks: its numbers, and its messages.

ghost use Rattle.std.specs.Prelude.{◌≡◌, ◌≢◌, ◌++◌, Err, IfOk, OnOk, ◌∷◌, ◌<◌, ◌*◌, ◌^◌, [], ℕ, List, All, false};
ghost use Rattle.std.proofs.Common.{sym, refl};
ghost use Rattle.ipc_base.proofs.CallerLemmas.{numbers_are};
ghost use Rattle.ipc_base.specs.Numbers.{fields_bytes, FitFields};
ghost use Rattle.sysv_msg.specs.Queue.{plain, Queue, PlainMessage, empty_queue};
ghost use Rattle.ipc_engine.specs.declared.fault.StateFault.{StateFault};
ghost use Rattle.ipc_state.specs.Sound.{HasNumbers};
ghost use Rattle.ipc_image.specs.Saved.{message_shape, message_tree, message_bytes, FitsMessage, messages_of};
ghost use Rattle.ipc_image.specs.Saved.{queue_sizes, queue_numbers};
ghost use Rattle.ipc_image.specs.SavedParts.{with_messages, queue_from, put_queues, with_more};
ghost use Rattle.ipc_image.specs.Relations.Trees.{message_one};
ghost use Rattle.ipc_image.specs.Relations.Shapes.{plain_one};

use crate::fields::{EIGHT, FOUR, put_fields, put_row};
use crate::kind::Kind;
use crate::saved::{Listed, Saved, put_counted, read_counted};
use crate::window::Window;
use ipc_base::{Field, Id, Mark, Moment, Pid, take_fields};
use ipc_engine::StateFault;
use ipc_state::{KeyedEntry, State};
use std::alloc::{AllocError, Global};
use sysv_msg::{Message, MsgQueue, QueueNumbers, QueueStat};

/// The bytes of a message before its text.
const MESSAGE_NUMBERS: u64 = 12;

impl Saved for Message {
    type Into = MsgQueue;

    ghost Plain = { PlainMessage };

    ghost plain = { plain };

    ghost shape = { message_shape false };

    ghost tree = { message_tree false };

    ghost Fits = { FitsMessage };

    ghost Seen = { Queue };

    ghost seen = { λ q. q };

    ghost items = { messages_of };

    ghost put = { with_messages };

    ghost place = { record { same = λ q. refl; found = λ q ms. refl; again = λ q ms ns. refl } };

    ghost known = { λ m fit. fit.1 };

    ghost one = { message_one };

    fn len(&self) -> u64 {
        MESSAGE_NUMBERS + self.text.len() as u64
    }

    fn put(&self, window: &mut Window) {
        put_row(
            window,
            &[
                Field::U64(self.mtype.cast_unsigned()),
                Field::U32(self.text.len() as u32),
            ],
            &self.text,
        );
    }

    fn take<'b>(into: &mut MsgQueue, bytes: &'b [u8]) -> Result<&'b [u8], StateFault> {
        let (numbers, after) = take_fields(bytes, &[EIGHT, FOUR]).ok_or(StateFault::Unsound)?;
        let (text, rest) = after
            .split_at_checked(numbers[1] as usize)
            .ok_or(StateFault::Unsound)?;
        let message = Message::new(into.allocator(), numbers[0].cast_signed(), text)?;
        into.restore(message)?;
        Ok(rest)
    }
}

impl Listed for MsgQueue {
    ghost Plain = { PlainMessage };

    ghost bytes = { message_bytes false };

    ghost Fits = { FitsMessage };

    ghost items = { λ q. q.messages };

    fn count(&self) -> usize {
        self.len()
    }

    fn len_at(&self, at: usize) -> u64 {
        self.message(at).len()
    }

    fn put_at(&self, at: usize, window: &mut Window) {
        self.message(at).put(window);
    }
}

impl Kind for MsgQueue {
    ghost sizes = { queue_sizes };

    ghost numbers = { queue_numbers };

    ghost Part = { PlainMessage };

    ghost part_bytes = { message_bytes false };

    ghost FitsPart = { FitsMessage };

    ghost parts = { messages_of };

    ghost from = { queue_from };

    ghost known = { λ ns ms fit. (sym (numbers_are queue_sizes ns fit), refl) };

    ghost whole = { λ q. refl };

    ghost part_one = { plain_one (message_shape false) (message_tree false) FitsMessage (λ m fit. fit.1) message_one };

    ghost IsSmall = { HasNumbers };

    ghost FIRST = { 2 ^ 32 };

    const FIRST: u64 = 1 << 32;

    ghost items = { λ s. s.0.msg.entries };

    ghost put = { put_queues };

    ghost place = { record { same = λ s. refl; found = λ s xs. refl; again = λ s xs ys. refl } };

    fn read_numbers(&self) {
        read_stat(self.stat());
    }

    #[tactic(auto, using(crate::proofs::SavedObjects::queue_counts))]
    fn len(&self) -> u64 {
        let stat = self.stat();
        40 + MESSAGE_NUMBERS * stat.qnum as u64 + stat.bytes as u64
    }

    fn put_numbers(&self, window: &mut Window) {
        let stat = self.stat();
        put_fields(
            window,
            &[
                Field::U64(stat.stime.0),
                Field::U64(stat.rtime.0),
                Field::U64(stat.ctime.0),
                Field::U32(stat.lspid.0),
                Field::U32(stat.lrpid.0),
                Field::U32(stat.qbytes),
            ],
        );
    }

    fn put_parts(&self, window: &mut Window, mark: &mut Mark) {
        put_counted(window, self, mark);
    }

    fn read_head(alloc: Global, bytes: &[u8]) -> Result<(MsgQueue, &[u8]), StateFault>
        ensures ok { IfOk result (λ found. (ns : List ℕ) × FitFields queue_sizes ns
            × (bytes.now ≡ fields_bytes queue_sizes ns ++ found.1.now) × (found.0 ≡ queue_from ns [])) }
        ensures damaged { result ≡ Err StateFault.Unsound → (ns rest : List ℕ) → FitFields queue_sizes ns
            → bytes.now ≢ fields_bytes queue_sizes ns ++ rest }
    {
        let (numbers, rest) = take_fields(bytes, &[EIGHT, EIGHT, EIGHT, FOUR, FOUR, FOUR]).ok_or(
            StateFault::Unsound,
        )?;
        let queue = MsgQueue::restored(alloc, own_numbers(&numbers))?;
        Ok((queue, rest))
    }

    fn read_parts(&mut self, bytes: &[u8]) -> Result<(), StateFault> {
        read_counted::<Message>(self, bytes)
    }

    fn add(state: &mut State, id: Id, entry: KeyedEntry<MsgQueue>) -> Result<(), AllocError>
        ensures { OnOk result ((state.new.state, state.new.limits) ≡ with_more (λ s. s.0.msg.entries) put_queues
            (state.old.state, state.old.limits) ((id.0, entry) ∷ [])) }
    {
        state.restore_msg_queue(id, entry)
    }
}

fn read_stat(stat: QueueStat)
    ensures { (stat.stime.0 < 2 ^ 64) × (stat.rtime.0 < 2 ^ 64) × (stat.ctime.0 < 2 ^ 64)
        × (stat.lspid.0 < 2 ^ 32) × (stat.lrpid.0 < 2 ^ 32) }
{}

fn own_numbers(numbers: &[u64; 6]) -> QueueNumbers
    requires { FitFields queue_sizes numbers.now }
    ensures { empty_queue result ≡ queue_from numbers.now [] }
{
    QueueNumbers {
        stime: Moment(numbers[0]),
        rtime: Moment(numbers[1]),
        ctime: Moment(numbers[2]),
        lspid: Pid(numbers[3] as u32),
        lrpid: Pid(numbers[4] as u32),
        qbytes: numbers[5] as u32,
    }
}
