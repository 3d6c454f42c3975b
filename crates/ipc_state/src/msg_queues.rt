//! The message queues.

ghost use Rattle.std.specs.Prelude.{◌≡◌, ◌↔◌, ⊤, ℤ, true, false, map, is_some, None, Some, option_map};
ghost use Rattle.std.specs.Prelude.{IsTrue, OnOk, OnErr};
ghost use Rattle.std.specs.Borrow.{sem};
ghost use Rattle.std.specs.List.{list_all};
ghost use Rattle.std.specs.Option.{option_copied_mut};
ghost use Rattle.ipc_limits.specs.Limits.{ArePassed};
ghost use Rattle.ipc_base.specs.Table.{IsRising, keys_of};
ghost use Rattle.ipc_state.specs.declared.parked.ObjectKind.TheVariants as kinds;
ghost use Rattle.ipc_state.specs.Held.{Ready, left};
ghost use Rattle.ipc_state.specs.Bound.{permitting};
ghost use Rattle.ipc_state.specs.Keyed.{HaveKeys, KeyedEntry, keyed};
ghost use Rattle.ipc_state.specs.LendsMsgQueue.{lends_msg_queue};
ghost use Rattle.ipc_state.specs.Numbered.{entry_of, is_full, with_entry};
ghost use Rattle.ipc_state.specs.Restored.{with_last_msg_queue};
ghost use Rattle.ipc_state.specs.Sound.{AreSound, IsSoundMsgQueue};
ghost use Rattle.ipc_state.specs.State.{removed, with_new_msg_queue};
ghost use Rattle.ipc_state.specs.Tables.{item_row};
ghost use Rattle.ipc_state.specs.Tests.{is_sound_message, is_sound_msg_queue};
ghost use Rattle.sysv_msg.specs.Queue.{Queue, new_queue, plain};

use crate::numbered::Item;
use crate::objects::{Keyed, KeyedEntry, Renew};
use crate::sound::SoundAlone;
use crate::state::State;
use ipc_base::{Id, Moment};
use ipc_limits::{Limits, exceeds};
use ipc_perm::Perm;
use std::alloc::AllocError;
use sysv_msg::{Message, MsgQueue};

impl State {
    /// The identifier of the next queue.
    pub fn next_msg_queue(&self) -> u32
        ensures { result ≡ self.now.state.msg.next }
    {
        self.msg.next()
    }

    /// The queues, by identifier.
    pub fn msg_queues(&self) -> &[Item<KeyedEntry<MsgQueue>>]
        ensures { map item_row result.now ≡ self.now.state.msg.entries }
    {
        self.msg.items()
    }

    /// The message queues, under limits that passed their check.
    pub fn msg(&self) -> &Keyed<MsgQueue>
        ensures queues { result.now.objects ≡ self.now.state.msg }
        ensures passed { ArePassed self.now.limits }
    {
        &self.msg
    }

    /// The queue that an identifier has, to be changed.
    pub fn msg_queue_mut(&mut self, id: Id) -> Option<&mut MsgQueue>
        ensures* writes_back { sem 𝓛 (lends_msg_queue self.entry id.0 result) }
        ensures object { option_copied_mut result ≡ option_map (λ e. e.object) (entry_of self.old.state.msg id.0) }
    {
        self.msg.get_mut(id.0)
    }

    /// Replaces who may use the queue of an identifier.
    pub fn set_msg_perm(&mut self, id: Id, perm: Perm)
        requires { is_some (entry_of self.old.state.msg id.0) ≡ true }
        ensures { (e : KeyedEntry Queue) → entry_of self.old.state.msg id.0 ≡ Some e
            → self.new ≡ record self.old {
              state = record self.old.state {
                msg = with_entry self.old.state.msg id.0 (permitting e perm);
              };
            } }
    {
        self.msg.set_perm(id.0, perm);
    }

    /// Takes the memory for one queue more of this key.
    pub fn reserve_msg_queue(&mut self, key: i32) -> Result<(), AllocError>
        ensures ok { OnOk result (self.new ≡ record self.old { ready = Ready.MsgQueue key }) }
        ensures err { OnErr result (self.new ≡ record self.old { ready = Ready.Nothing }) }
    {
        self.release();
        let queue = match self.spare_msg_queue.take() {
            Some(queue) => queue,
            None => MsgQueue::new(self.alloc, self.limits.msgmnb, self.clock)?,
        };
        self.msg.reserve(key, queue)
    }

    /// Adds a queue without messages, of the key for which there is memory, under the next identifier, which it gives.
    pub fn add_msg_queue(&mut self, perm: Perm) -> Id
        ghost key: { ℤ }
        requires ready { self.old.ready ≡ Ready.MsgQueue key }
        requires unused { keyed self.old.state.msg key ≡ None }
        requires numbers { IsRising 1 (keys_of self.old.state.msg.entries) self.old.state.msg.next }
        requires more { is_full self.old.limits.msgmni self.old.state.msg ≡ false }
        ensures added { self.new ≡ left self.old (with_new_msg_queue self.old.limits self.old.state key perm) }
        ensures id { result.0 ≡ self.old.state.msg.next }
    {
        let number = self.msg.add(perm, (self.limits.msgmnb, self.clock));
        self.release();
        Id(number)
    }

    /// Takes a queue out. It takes no memory.
    pub fn remove_msg_queue(&mut self, id: Id)
        requires named { HaveKeys self.old.state.msg }
        requires there { is_some (entry_of self.old.state.msg id.0) ≡ true }
        ensures { self.new ≡ left self.old (removed self.old.state kinds.MsgQueue id.0) }
    {
        self.msg.remove(id.0);
        self.release();
    }

    /// Adds a queue that was read, at the end. Refused for want of memory, the state is as before.
    pub fn restore_msg_queue(
        &mut self,
        id: Id,
        entry: KeyedEntry<MsgQueue>,
    ) -> Result<(), AllocError>
        ensures state { OnOk result (self.new.state ≡ with_last_msg_queue self.old.state id.0 entry) }
        ensures limits { self.new.limits ≡ self.old.limits }
        ensures err { OnErr result (self.new.state ≡ self.old.state) }
    {
        self.msg.restore(id.0, entry)
    }

    /// Whether the queues are sound.
    pub(crate) fn are_msg_queues_sound(&self) -> bool
        ensures { IsTrue result
            ↔ AreSound self.now.limits self.now.state.processes.entries kinds.MsgQueue self.now.state.msg }
    {
        self.msg.are_sound(self.limits.msgmni, &self.limits)
    }
}

impl Renew for MsgQueue {
    type Spec = (u32, Moment);

    ghost MayBe = { λ asked. ⊤ };

    ghost renewed = { λ queue asked. new_queue asked.0 asked.1.0 };

    fn make(&mut self, asked: (u32, Moment)) {
        self.renew(asked.0, asked.1);
    }
}

impl SoundAlone for MsgQueue {
    ghost IsSound = { IsSoundMsgQueue };

    fn is_sound(&self, limits: &Limits) -> bool {
        is_sound_msg_queue(self, limits)
    }
}

/// Whether a queue is sound.
fn is_sound_msg_queue(queue: &MsgQueue, limits: &Limits) -> bool
    ensures { result ≡ is_sound_msg_queue limits.now queue.now }
{
    let stat = queue.stat();
    stat.bytes <= u128::from(limits.msgmnb)
        && stat.qnum <= limits.msgmnb as usize
        && !exceeds(stat.qnum as u64, limits.message_limit())
        && stat.qbytes <= limits.msgmnb
        && has_sound_messages(queue, limits)
}

/// Whether each message of a queue has a type above 0 and a text of at most msgmax bytes.
fn has_sound_messages(queue: &MsgQueue, limits: &Limits) -> bool
    ensures { result ≡ list_all (is_sound_message limits.now) queue.now.messages }
{
    for at in 0..queue.len() {
        if !is_sound_message(queue.message(at), limits) {
            return false;
        }
    }
    true
}

fn is_sound_message(message: &Message, limits: &Limits) -> bool
    ensures { result ≡ is_sound_message limits.now (plain message.now) }
{
    0 < message.mtype && message.text.len() <= limits.msgmax as usize
}
