//! A message queue.

ghost use Rattle.std.specs.Prelude.{◌≡◌, ◌<◌, ◌^◌, ◌↔◌, None, length, map, All};
ghost use Rattle.std.specs.Prelude.{IsTrue, OnOk, OnErr, IfOk, ℕ, List, Some, slice_get, vec_capacity};
ghost use Rattle.std.specs.List.Sorted.{IsNonDecreasing, IsPermutation};

use crate::greatest::first_of_greatest;
use crate::message::Message;
use ipc_arrivals::Arrivals;
use ipc_base::Pid;
use std::alloc::{AllocError, Global};
use std::marker::Model;

/// Who is told when a message comes to the empty queue, as mq_notify(3) registers it.
#[derive(Clone, Copy, Debug, PartialEq, Eq)]
pub struct Registration {
    pub pid: Pid,
    /// The descriptor by which the process registered.
    pub descriptor: u32,
    /// Whether a frame is sent then; none is to a null registration.
    pub sends: bool,
    /// What the frame has, for the process to know it by.
    pub cookie: u32,
}

/// What mq_getattr(3) tells of a queue.
#[derive(Clone, Copy, Debug, PartialEq, Eq)]
pub struct MqAttr {
    /// The most messages.
    pub maxmsg: u32,
    /// The most bytes of a text.
    pub msgsize: u32,
    /// How many messages there are.
    pub curmsgs: usize,
}

/// For so many messages a queue has places from the start, whatever its `maxmsg`; it never holds more.
const MOST_MESSAGES: usize = 10;

/// A POSIX message queue (mq_overview(7)): its messages, the oldest first, its two limits, and who is
/// registered. A contract sees it as a queue of plain messages. It has the places of all messages from the
/// start, so that a send takes no memory; the memory of its texts is their bytes.
#[derive(Drop)]
pub struct Mq {
    messages: Arrivals<Message>,
    maxmsg: u32,
    msgsize: u32,
    registration: Option<Registration>,
}

impl Model for Mq {
    ghost use Rattle.std.specs.Prelude.{◌≤◌, map};
    ghost use Rattle.posix_mq.specs.Queue.{Queue, plain, most_messages};

    ghost Value = { Queue };

    ghost view = { λ q. record {
      messages = map plain q.messages.items;
      maxmsg = q.maxmsg;
      msgsize = q.msgsize;
      registration = q.registration;
    } };

    ghost invariant = { λ q. most_messages ≤ q.messages.places };
}

impl Mq {
    ghost use Rattle.posix_mq.specs.Queue.{
      plain,
      most_messages,
      is_full,
      empty_queue,
      with_message,
      received_message,
      received,
      registered,
      deregistered,
      attr_of,
    };

    /// A queue without messages for at most `maxmsg` messages, of at most `msgsize` bytes each, and with
    /// no registration; mq_open(3) wants both limits above 0. It takes the memory of all its places,
    /// which is the same for any limits. Refused for want of it.
    pub fn new(alloc: Global, maxmsg: u32, msgsize: u32) -> Result<Mq, AllocError>
        ensures { IfOk result (λ q. q ≡ empty_queue maxmsg msgsize None) }
    {
        Mq::restored(alloc, maxmsg, msgsize, None)
    }

    /// A queue without messages that has these limits, and this registration if any. It takes the memory
    /// of all its places. Refused for want of it.
    pub fn restored(
        alloc: Global,
        maxmsg: u32,
        msgsize: u32,
        registration: Option<Registration>,
    ) -> Result<Mq, AllocError>
        ensures { IfOk result (λ q. q ≡ empty_queue maxmsg msgsize registration) }
    {
        let messages = Arrivals::with_places(alloc, MOST_MESSAGES)?;
        Ok(Mq {
            messages,
            maxmsg,
            msgsize,
            registration,
        })
    }

    /// Makes it a queue as new, in the memory that it has.
    pub fn renew(&mut self, maxmsg: u32, msgsize: u32)
        ensures { self.new ≡ empty_queue maxmsg msgsize None }
    {
        self.messages.clear();
        self.maxmsg = maxmsg;
        self.msgsize = msgsize;
        self.deregister();
    }

    /// Whether there are `maxmsg` messages or more, so that none may be sent.
    pub fn is_full(&self) -> bool
        ensures { result ≡ is_full self.now }
    {
        self.maxmsg as usize <= self.messages.len()
    }

    /// Appends a message, whose priority and length the caller has tested. It takes no memory. See
    /// mq_send(3).
    pub fn send(&mut self, message: Message)
        requires { length self.old.messages < most_messages }
        ensures { self.new ≡ with_message self.old (plain message) }
    {
        self.messages.push(message);
    }

    /// Appends a message that was read, also to a full queue. Where there are more than the queue has
    /// places for, it grows. Refused for want of memory, and then the queue is as before.
    pub fn restore(&mut self, message: Message) -> Result<(), AllocError>
        ensures ok { OnOk result (self.new ≡ with_message self.old (plain message)) }
        ensures err { OnErr result (self.new ≡ self.old) }
    {
        self.messages.reserve(1)?;
        self.messages.push(message);
        Ok(())
    }

    /// Removes and gives the oldest message of the greatest priority. It takes no memory. The text's
    /// buffer has room for its bytes and no more. See mq_receive(3).
    pub fn receive(&mut self) -> Message
        requires { 0 < length self.old.messages }
        ensures message { received_message self.old ≡ Some (plain result) }
        ensures exact { vec_capacity result.text ≡ length result.text.items }
        ensures queue { self.new ≡ received self.old }
    {
        let at = first_of_greatest(&self.messages).unwrap();
        self.messages.remove(at)
    }

    /// Who is registered, if anyone is.
    pub fn registration(&self) -> Option<Registration>
        ensures { result ≡ self.now.registration }
    {
        self.registration
    }

    /// Registers; nobody is registered. All else stays. See mq_notify(3).
    pub fn register(&mut self, registration: Registration)
        requires { self.old.registration ≡ None }
        ensures { self.new ≡ registered self.old registration }
    {
        self.registration = Some(registration);
    }

    /// Takes the registration away, if there is one. All else stays.
    pub fn deregister(&mut self)
        ensures { self.new ≡ deregistered self.old }
    {
        self.registration = None;
    }

    /// Its limits, and how many messages there are. The priorities of its messages are unsigned numbers
    /// of four bytes. See mq_getattr(3).
    pub fn attr(&self) -> MqAttr
        ensures attr { result ≡ attr_of self.now }
        ensures priorities { All (λ m. m.priority < 2 ^ 32) self.now.messages }
    {
        MqAttr {
            maxmsg: self.maxmsg,
            msgsize: self.msgsize,
            curmsgs: self.messages.len(),
        }
    }

    /// The message at this position, counted from the oldest.
    pub fn message(&self, at: usize) -> &Message
        requires { at < length self.now.messages }
        ensures { slice_get self.now.messages at ≡ Some (plain result.now) }
    {
        self.messages.get(at)
    }

    /// The priority at this place if those of the messages are put in rising order, equal ones each; none past the
    /// last.
    pub fn by_priority(&self, place: usize) -> Option<u32>
        ensures { (priorities : List ℕ) → IsNonDecreasing priorities
            → IsPermutation (map (λ m. m.priority) self.now.messages) priorities
            → result ≡ slice_get priorities place }
    {
        let rank = self.messages.rank_at(place)?;
        Some(rank as u32)
    }

    /// Where its memory is from.
    pub fn allocator(&self) -> Global {
        self.messages.allocator()
    }

    /// How many messages there are.
    pub fn len(&self) -> usize
        ensures { result ≡ length self.now.messages }
    {
        self.messages.len()
    }

    /// Whether there is no message.
    pub fn is_empty(&self) -> bool
        ensures { IsTrue result ↔ (length self.now.messages ≡ 0) }
    {
        self.messages.is_empty()
    }
}
