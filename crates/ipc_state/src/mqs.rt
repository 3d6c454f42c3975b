//! The POSIX message queues, and who is registered with them. See mq_overview(7).

ghost use Rattle.std.specs.Prelude.{◌≡◌, ◌↔◌, ◌&&◌, ⊤, ℕ, List, true, false, map, is_some};
ghost use Rattle.std.specs.Prelude.{IsTrue, OnOk, OnErr, Some, None, option_map};
ghost use Rattle.std.specs.Borrow.{sem};
ghost use Rattle.std.specs.List.{list_all};
ghost use Rattle.std.specs.Option.{option_copied, option_copied_mut};
ghost use Rattle.ipc_limits.specs.Limits.{ArePassed};
ghost use Rattle.ipc_base.specs.Table.{IsRising, keys_of, seen_as};
ghost use Rattle.ipc_keys.specs.declared.check.NameKind.TheVariants as names;
ghost use Rattle.ipc_state.specs.declared.parked.ObjectKind.TheVariants as kinds;
ghost use Rattle.posix_mq.specs.Queue.{empty_queue, plain};
ghost use Rattle.ipc_state.specs.Opening.{deregistered, is_by, is_or_any, unless_so, without_registrations};
ghost use Rattle.ipc_state.specs.Opening.{is_registered};
ghost use Rattle.ipc_state.specs.Held.{Ready, left};
ghost use Rattle.ipc_state.specs.LendsMq.{lends_mq};
ghost use Rattle.ipc_state.specs.Named.{HaveNames, named};
ghost use Rattle.ipc_state.specs.Numbered.{entry_of};
ghost use Rattle.ipc_state.specs.Restored.{with_last_mq};
ghost use Rattle.ipc_state.specs.Sound.{AreSound, AreSoundMqs, IsSoundMq};
ghost use Rattle.ipc_state.specs.State.{bytes_of_mq as mq_room, deregistered_by, has_all_mqs, has_all_mq_bytes};
ghost use Rattle.ipc_state.specs.State.{receives_from, receiver_waits};
ghost use Rattle.ipc_state.specs.State.{unlinked, with_new_mq};
ghost use Rattle.ipc_state.specs.Rows.{has_room, item_row};
ghost use Rattle.ipc_state.specs.Tests.{is_sound_mq, is_sound_mq_message};
ghost use Rattle.ipc_state.specs.Waiting.{parked_kind};

use crate::holding::is_on;
use crate::numbered::Item;
use crate::objects::{Counted, Entry, Leaves, Named, NamedEntry, ObjectTable, Renew};
use crate::parked::{Object, ObjectKind, ParkedKind, ParkedPosix};
use crate::rows::Rows;
use crate::sound::SoundAlone;
use crate::state::State;
use ipc_base::{Cred, Pid};
use ipc_keys::{Name, NameKind};
use ipc_limits::Limits;
use ipc_perm::Perm;
use posix_mq::{Message, Mq, Registration};
use std::alloc::AllocError;

impl State {
    /// The number of the next queue.
    pub fn next_mq(&self) -> u32
        ensures { result ≡ self.now.state.mq.next }
    {
        self.mq.next()
    }

    /// The queues, by number.
    pub fn mqs(&self) -> &[Item<NamedEntry<Mq>>]
        ensures { map item_row result.now ≡ self.now.state.mq.entries }
    {
        self.mq.items()
    }

    /// The queues with their names.
    pub fn named_mqs(&self) -> &Named<Mq>
        ensures { result.now.objects ≡ self.now.state.mq }
    {
        &self.mq
    }

    /// What a number has.
    pub fn mq(&self, number: u32) -> Option<&NamedEntry<Mq>>
        ensures entry { option_copied result ≡ entry_of self.now.state.mq number }
        ensures passed { ArePassed self.now.limits }
    {
        self.mq.get(number)
    }

    /// Whether no queue can be added: there are as many as the limit says, or no number is left.
    pub fn has_all_mqs(&self) -> bool
        ensures { result ≡ has_all_mqs self.now.limits self.now.state }
    {
        self.mq.is_full(self.limits.queues)
    }

    /// Whether no queue can be added that counts so many bytes: with it all would count more than their limit.
    pub fn has_all_mq_bytes(&self, bytes: u128) -> bool
        ensures { result ≡ has_all_mq_bytes self.now.limits self.now.state bytes }
    {
        let Some(most) = self.limits.queue_bytes_limit() else {
            return false;
        };
        let most = u128::from(most);
        most < bytes || !self.mq.count_at_most((most - bytes) as usize)
    }

    /// The queue that a number has, to be changed.
    pub fn mq_object_mut(&mut self, number: u32) -> Option<&mut Mq>
        ensures* writes_back { sem 𝓛 (lends_mq self.entry number result) }
        ensures object { option_copied_mut result ≡ option_map (λ e. e.object) (entry_of self.old.state.mq number) }
    {
        self.mq.get_mut(number)
    }

    /// Takes the memory for one queue more of this name.
    pub fn reserve_mq(&mut self, name: &[u8]) -> Result<(), AllocError>
        ensures ok { OnOk result (self.new ≡ record self.old { ready = Ready.Mq name.now }) }
        ensures err { OnErr result (self.new ≡ record self.old { ready = Ready.Nothing }) }
    {
        self.release();
        let name = Name::new(self.alloc, name)?;
        let queue = match self.spare_mq.take() {
            Some(queue) => queue,
            None => Mq::new(self.alloc, self.limits.maxmsg, self.limits.msgsize)?,
        };
        self.mq.reserve(name, queue)
    }

    /// Adds a queue without messages, of the name for which there is memory, for at most `maxmsg` messages of at most
    /// `msgsize` bytes each, under the next number, which it gives.
    pub fn add_mq(&mut self, cred: Cred, mode: u32, maxmsg: u32, msgsize: u32) -> u32
        ghost name: { List ℕ }
        requires ready { self.old.ready ≡ Ready.Mq name }
        requires unused { named self.old.state.mq name ≡ None }
        requires numbers { IsRising 1 (keys_of self.old.state.mq.entries) self.old.state.mq.next }
        requires more { has_all_mqs self.old.limits self.old.state ≡ false }
        ensures added { self.new
            ≡ left self.old (with_new_mq self.old.state name cred mode (empty_queue maxmsg msgsize None)) }
        ensures number { result ≡ self.old.state.mq.next }
    {
        let perm = Perm::new(cred, mode);
        let number = self.mq.add(perm, (maxmsg, msgsize));
        self.release();
        number
    }

    /// Takes the name of a queue, and the queue, if it is not open. It takes no memory. See mq_unlink(3).
    pub fn unlink_mq(&mut self, number: u32)
        requires named { HaveNames self.old.state.mq }
        requires there { is_some (entry_of self.old.state.mq number) ≡ true }
        ensures { self.new ≡ left self.old (unlinked self.old.state (kinds.Named names.Mq) number) }
    {
        self.mq.unbind(number);
        self.sweep();
    }

    /// Whether a receive from the queue of this number waits.
    pub fn mq_receiver_waits(&self, number: u32) -> bool
        ensures { result ≡ receiver_waits self.now.state number }
    {
        self.waits().iter().any(|waiting| self.receives_from(
            number,
            waiting.pid,
            waiting.call.kind(),
        ))
    }

    /// Whether what a process asks for is a receive from the queue of this number.
    fn receives_from(&self, number: u32, pid: Pid, kind: &ParkedKind) -> bool
        ensures { result ≡ receives_from self.now.state number pid.0 (parked_kind kind.now) }
    {
        let ParkedKind::Posix(ParkedPosix::MqReceive { fd, .. }) = kind else {
            return false;
        };
        let kind = ObjectKind::Named(NameKind::Mq);
        match self.descriptor(pid, *fd) {
            Some(descriptor) => is_on(Object { kind, number }, descriptor.on),
            None => false,
        }
    }

    /// Adds a queue that was read, at the end. Refused for want of memory, all is as before.
    pub fn restore_mq(&mut self, number: u32, entry: NamedEntry<Mq>) -> Result<(), AllocError>
        ensures state { OnOk result (self.new.state ≡ with_last_mq self.old.state number entry) }
        ensures limits { self.new.limits ≡ self.old.limits }
        ensures err { OnErr result (self.new.state ≡ self.old.state) }
    {
        self.mq.restore(number, entry)
    }

    /// Takes the registrations away that this process made, or any, by this descriptor, or any. It takes no memory.
    pub(crate) fn deregister(&mut self, pid: Option<u32>, fd: Option<u32>)
        ensures { self.new ≡ record self.old { state = deregistered_by pid fd self.old.state } }
    {
        self.mq.deregister(pid, fd);
    }

    /// Whether the queues are sound.
    pub(crate) fn are_mqs_sound(&self) -> bool
        ensures { IsTrue result
            ↔ AreSound self.now.limits self.now.state.processes.entries (kinds.Named names.Mq) self.now.state.mq }
    {
        let most = self.limits.queues;
        self.mq
            .are_held(most, &self.limits, &self.processes, NameKind::Mq)
            && self.are_mqs_sound_together()
    }

    /// Whether whoever is registered with a queue has it open, and all queues count no more bytes than their limit.
    fn are_mqs_sound_together(&self) -> bool
        ensures { IsTrue result
            ↔ AreSoundMqs self.now.limits self.now.state.processes.entries self.now.state.mq }
    {
        self.are_registered(self.mq.items()) && !self.has_all_mq_bytes(0)
    }

    /// Whether whoever is registered with a queue has it open.
    fn are_registered(&self, items: &[Item<NamedEntry<Mq>>]) -> bool
        ensures { result ≡ list_all (λ e. is_registered self.now.state.processes.entries (item_row e)) items.now }
    {
        items.iter().all(|item| self.is_registered(item))
    }

    fn is_registered(&self, item: &Item<NamedEntry<Mq>>) -> bool
        ensures { result ≡ is_registered self.now.state.processes.entries (item_row item.now) }
    {
        let Some(registration) = item.value.object.registration() else {
            return true;
        };
        let queue = Object {
            kind: ObjectKind::Named(NameKind::Mq),
            number: item.number,
        };
        match self.descriptor(registration.pid, registration.descriptor) {
            Some(descriptor) => is_on(queue, descriptor.on),
            None => false,
        }
    }
}

impl ObjectTable<Name, Mq> {
    /// Takes the registrations away that this process made, or any, by this descriptor, or any.
    fn deregister(&mut self, pid: Option<u32>, fd: Option<u32>)
        ensures { self.new ≡ record self.old { objects = without_registrations (is_by pid fd) self.old.objects } }
    {
        self.objects.items.deregister(pid, fd);
    }
}

impl Rows<Entry<Name, Mq>> {
    /// Takes the registrations away that this process made, or any, by this descriptor, or any.
    fn deregister(&mut self, pid: Option<u32>, fd: Option<u32>)
        ensures rows { map item_row self.new.items
            ≡ seen_as (deregistered (is_by pid fd)) (map item_row self.old.items) }
        ensures room { has_room self.new ≡ has_room self.old }
    {
        deregister_each(&mut self.items, pid, fd);
    }
}

impl Renew for Mq {
    type Spec = (u32, u32);

    ghost MayBe = { λ asked. ⊤ };

    ghost renewed = { λ queue asked. empty_queue asked.0 asked.1 None };

    fn make(&mut self, asked: (u32, u32)) {
        self.renew(asked.0, asked.1);
    }
}

impl Counted for Mq {
    ghost count = { λ queue. mq_room queue.maxmsg queue.msgsize };

    fn count(&self) -> u128 {
        let attr = self.attr();
        bytes_of_mq(attr.maxmsg, attr.msgsize)
    }
}

/// How many bytes a queue counts that may hold so many messages, each of at most so many bytes: 8 more for each.
pub fn bytes_of_mq(maxmsg: u32, msgsize: u32) -> u128
    ensures { result ≡ mq_room maxmsg msgsize }
{
    u128::from(maxmsg) * (8 + u128::from(msgsize))
}

impl Leaves for Mq {
    ghost leaves = { λ x. true };

    ghost parted = { λ x. x };

    fn leaves(&self) -> bool {
        true
    }

    fn part(&mut self) {}
}

impl SoundAlone for Mq {
    ghost IsSound = { IsSoundMq };

    fn is_sound(&self, limits: &Limits) -> bool {
        is_sound_mq(self, limits)
    }
}

/// Whether a queue is sound.
fn is_sound_mq(queue: &Mq, limits: &Limits) -> bool
    ensures { result ≡ is_sound_mq limits.now queue.now }
{
    let attr = queue.attr();
    0 < attr.maxmsg
        && attr.maxmsg <= limits.maxmsg
        && 0 < attr.msgsize
        && attr.msgsize <= limits.msgsize
        && attr.curmsgs <= attr.maxmsg as usize
        && has_sound_messages(queue, attr.msgsize)
}

/// Whether each message of a queue has a priority below 32768 and no longer text than it may have.
fn has_sound_messages(queue: &Mq, msgsize: u32) -> bool
    ensures { result ≡ list_all (is_sound_mq_message msgsize) queue.now.messages }
{
    for at in 0..queue.len() {
        if !is_sound_message(queue.message(at), msgsize) {
            return false;
        }
    }
    true
}

fn is_sound_message(message: &Message, msgsize: u32) -> bool
    ensures { result ≡ is_sound_mq_message msgsize (plain message.now) }
{
    message.priority < 32768 && message.text.len() <= msgsize as usize
}

/// Registrations with these queues go that this process made, or any, by this descriptor, or any.
fn deregister_each(items: &mut [Item<NamedEntry<Mq>>], pid: Option<u32>, fd: Option<u32>)
    ensures { map item_row items.new ≡ seen_as (deregistered (is_by pid fd)) (map item_row items.old) }
{
    for item in items.iter_mut() {
        deregister(&mut item.value.object, pid, fd);
    }
}

fn deregister(queue: &mut Mq, pid: Option<u32>, fd: Option<u32>)
    ensures { queue.new ≡ record queue.old { registration = unless_so (is_by pid fd) queue.old.registration } }
{
    if let Some(registration) = queue.registration() {
        if is_by(&registration, pid, fd) {
            queue.deregister();
        }
    }
}

/// Whether this process made it, or any, by this descriptor, or any.
fn is_by(registration: &Registration, pid: Option<u32>, fd: Option<u32>) -> bool
    ensures { result ≡ is_by pid fd registration.now }
{
    is_or_any(pid, registration.pid.0) && is_or_any(fd, registration.descriptor)
}

fn is_or_any(wanted: Option<u32>, number: u32) -> bool
    ensures { result ≡ is_or_any wanted number }
{
    match wanted {
        Some(wanted) => wanted == number,
        None => true,
    }
}
