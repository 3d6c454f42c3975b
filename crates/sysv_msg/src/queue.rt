//! A message queue.

ghost use Rattle.std.specs.Prelude.{◌≡◌, ◌<◌, ◌↔◌, not, length, slice_get, map, All, FitsSigned};
ghost use Rattle.std.specs.Prelude.{IsTrue, OnOk, OnErr, IfOk, IfSome, vec_capacity};
ghost use Rattle.std.specs.Prelude.{List, ℤ};
ghost use Rattle.std.specs.Int.{w64};
ghost use Rattle.std.specs.List.Sorted.{IsPermutation};
ghost use Rattle.sysv_msg.specs.Ranks.{DoNotFall};
ghost use Rattle.sysv_msg.specs.Queue.{empty_queue, new_queue};

use crate::message::{Message, type_of};
use crate::select::{first_of_least_type, first_of_type};
use ipc_arrivals::Arrivals;
use ipc_base::{Moment, Pid};
use ipc_limits::exceeds;
use std::alloc::{AllocError, Global};
use std::marker::Model;

/// The numbers of a queue, as msgctl(2) tells them.
#[derive(Clone, Copy, Debug, PartialEq, Eq)]
pub struct QueueStat {
    /// How many messages there are.
    pub qnum: usize,
    /// The bytes of all texts.
    pub bytes: u128,
    /// The most bytes, and also the most messages.
    pub qbytes: u32,
    /// When the last send was, the last receive, and the last change; 0 for never.
    pub stime: Moment,
    pub rtime: Moment,
    pub ctime: Moment,
    /// Who sent last, and who received last; 0 for nobody.
    pub lspid: Pid,
    pub lrpid: Pid,
}

/// What msgctl(2) tells of a queue that its messages do not tell.
#[derive(Clone, Copy, Debug, PartialEq, Eq)]
pub struct QueueNumbers {
    /// The most bytes, and also the most messages.
    pub qbytes: u32,
    /// When the last send was, the last receive, and the last change; 0 for never.
    pub stime: Moment,
    pub rtime: Moment,
    pub ctime: Moment,
    /// Who sent last, and who received last; 0 for nobody.
    pub lspid: Pid,
    pub lrpid: Pid,
}

/// For so many messages a queue has places from the start; it never holds more.
const MOST_MESSAGES: usize = 65536;

/// A message queue: its messages, the oldest first, and what msgctl(2) tells of it. A contract sees it
/// as a queue of plain messages. It has the places of all messages from the start, so that a send takes
/// no memory; the memory of its texts is their bytes.
#[derive(Drop)]
pub struct MsgQueue {
    messages: Arrivals<Message>,
    /// The bytes of all texts. No memory holds so many that they are too many for it.
    bytes: u128,
    qbytes: u32,
    stime: Moment,
    rtime: Moment,
    ctime: Moment,
    lspid: Pid,
    lrpid: Pid,
}

impl Model for MsgQueue {
    ghost use Rattle.std.specs.Prelude.{◌≡◌, ◌≤◌, map, length, sum_by};
    ghost use Rattle.sysv_msg.specs.Queue.{Queue, plain, most_messages};

    ghost Value = { Queue };

    ghost view = { λ q. record {
      messages = map plain q.messages.items;
      qbytes = q.qbytes;
      stime = q.stime.0;
      rtime = q.rtime.0;
      ctime = q.ctime.0;
      lspid = q.lspid.0;
      lrpid = q.lrpid.0;
    } };

    ghost invariant = { λ q. (q.bytes ≡ sum_by (λ m. length m.text.items) q.messages.items)
        × (most_messages ≤ q.messages.places) };
}

impl MsgQueue {
    ghost use Rattle.sysv_msg.specs.Queue.{
      plain,
      most_messages,
      new_queue,
      empty_queue,
      with_message,
      full,
      sent,
      taken,
      stat_of,
      changed,
      pick,
    };

    /// A queue without messages that may hold `qbytes` bytes and as many messages. It takes the memory
    /// of all its places. Refused for want of it.
    pub fn new(alloc: Global, qbytes: u32, ctime: Moment) -> Result<MsgQueue, AllocError>
        ensures { IfOk result (λ q. q ≡ new_queue qbytes ctime.0) }
    {
        MsgQueue::restored(alloc, new_numbers(qbytes, ctime))
    }

    /// A queue without messages whose numbers are known. It takes the memory of all its places. Refused
    /// for want of it.
    pub fn restored(alloc: Global, numbers: QueueNumbers) -> Result<MsgQueue, AllocError>
        ensures { IfOk result (λ q. q ≡ empty_queue numbers) }
    {
        let messages = Arrivals::with_places(alloc, MOST_MESSAGES)?;
        Ok(MsgQueue {
            messages,
            bytes: 0,
            qbytes: numbers.qbytes,
            stime: numbers.stime,
            rtime: numbers.rtime,
            ctime: numbers.ctime,
            lspid: numbers.lspid,
            lrpid: numbers.lrpid,
        })
    }

    /// Makes it a queue as new, in the memory that it has.
    pub fn renew(&mut self, qbytes: u32, ctime: Moment)
        ensures { self.new ≡ new_queue qbytes ctime.0 }
    {
        self.messages.clear();
        self.bytes = 0;
        self.qbytes = qbytes;
        self.stime = Moment(0);
        self.rtime = Moment(0);
        self.ctime = ctime;
        self.lspid = Pid(0);
        self.lrpid = Pid(0);
    }

    /// Whether a text of `len` bytes may be sent: with it neither the bytes nor the messages are more
    /// than `qbytes`, and the messages no more than `most`, if there is such a limit.
    pub fn fits(&self, len: usize, most: Option<u32>) -> bool
        ensures { result ≡ not (full most self.now len) }
    {
        let count = self.messages.len() as u64;
        self.bytes + len as u128 <= u128::from(self.qbytes)
            && count < u64::from(self.qbytes)
            && !exceeds(count + 1, most)
    }

    /// Appends a message, and notes who sent it and when. It takes no memory.
    pub fn send(&mut self, message: Message, pid: Pid, now: Moment)
        requires { length self.old.messages < most_messages }
        ensures { self.new ≡ sent self.old (plain message) pid.0 now.0 }
    {
        self.bytes += message.text.len() as u128;
        self.messages.push(message);
        self.lspid = pid;
        self.stime = now;
    }

    /// Appends a message that was read; nobody has sent it, and no time is noted. Where there are more
    /// than the queue has places for, it grows. Refused for want of memory, and then the queue is as
    /// before.
    pub fn restore(&mut self, message: Message) -> Result<(), AllocError>
        ensures queue { OnOk result (self.new ≡ with_message self.old (plain message)) }
        ensures err { OnErr result (self.new ≡ self.old) }
    {
        self.messages.reserve(1)?;
        self.bytes += message.text.len() as u128;
        self.messages.push(message);
        Ok(())
    }

    /// The position of the message that a receive of this type takes, counted from the oldest: with
    /// type 0 the oldest, with a type above 0 the oldest of the type (with `except`, of another type),
    /// with a type below 0 the oldest of the least type, if that is at most the absolute value. See
    /// msgop(2).
    pub fn select(&self, mtype: i64, except: bool) -> Option<usize>
        ensures picked { result ≡ pick self.now.messages mtype except }
        ensures within { IfSome result (λ at. at < length self.now.messages) }
    {
        if mtype < 0 {
            first_of_least_type(&self.messages, mtype.unsigned_abs())
        } else {
            first_of_type(&self.messages, mtype, except)
        }
    }

    /// The message at this position, counted from the oldest.
    pub fn message(&self, at: usize) -> &Message
        requires { at < length self.now.messages }
        ensures { slice_get self.now.messages at ≡ Some (plain result.now) }
    {
        self.messages.get(at)
    }

    /// The type at this place if the types of the messages are put in order, equal ones each; none past the last.
    pub fn by_type(&self, place: usize) -> Option<i64>
        ensures { (types : List ℤ) → DoNotFall types → IsPermutation (map (λ m. m.mtype) self.now.messages) types
            → result ≡ slice_get types place }
    {
        let rank = self.messages.rank_at(place)?;
        Some(type_of(rank))
    }

    /// Removes and gives the message at this position, and notes who received it and when. It takes no
    /// memory. The text's buffer has room for its bytes and no more.
    pub fn take(&mut self, at: usize, pid: Pid, now: Moment) -> Message
        requires { at < length self.old.messages }
        ensures message { slice_get self.old.messages at ≡ Some (plain result) }
        ensures exact { vec_capacity result.text ≡ length result.text.items }
        ensures queue { self.new ≡ taken self.old at pid.0 now.0 }
    {
        let message = self.messages.remove(at);
        self.bytes -= message.text.len() as u128;
        self.lrpid = pid;
        self.rtime = now;
        message
    }

    /// Replaces how many bytes, and messages, there may be at most, and notes when. What is there stays. It
    /// takes no memory.
    pub fn set(&mut self, qbytes: u32, now: Moment)
        ensures { self.new ≡ changed self.old qbytes now.0 }
    {
        self.qbytes = qbytes;
        self.ctime = now;
    }

    /// All its numbers. The types of its messages are signed numbers of eight bytes.
    pub fn stat(&self) -> QueueStat
        ensures stat { result ≡ stat_of self.now }
        ensures types { All (λ m. FitsSigned w64 m.mtype) self.now.messages }
    {
        QueueStat {
            qnum: self.messages.len(),
            bytes: self.bytes,
            qbytes: self.qbytes,
            stime: self.stime,
            rtime: self.rtime,
            ctime: self.ctime,
            lspid: self.lspid,
            lrpid: self.lrpid,
        }
    }

    /// Where its memory is from.
    pub fn allocator(&self) -> Global {
        self.messages.allocator()
    }

    /// How many messages there are.
    pub fn len(&self) -> usize
        ensures { result ≡ length self.now.messages }
    {
        self.messages.len()
    }

    /// Whether there is no message.
    pub fn is_empty(&self) -> bool
        ensures { IsTrue result ↔ (length self.now.messages ≡ 0) }
    {
        self.messages.is_empty()
    }
}

/// The numbers of a queue that nobody has used.
fn new_numbers(qbytes: u32, ctime: Moment) -> QueueNumbers
    ensures { empty_queue result ≡ new_queue qbytes ctime.0 }
{
    QueueNumbers {
        qbytes,
        stime: Moment(0),
        rtime: Moment(0),
        ctime,
        lspid: Pid(0),
        lrpid: Pid(0),
    }
}
