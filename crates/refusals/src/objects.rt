//! Calls that give an object, a list or a directory room for more.

use crate::fault::Fault;
use crate::subject::{Seen, Subject, done, is_refused, seen};
use ipc_arrivals::Arrivals;
use ipc_base::{Id, Moment, ObjectMap, Objects, Pid};
use ipc_keys::{KeyDir, NameDir, NameKind};
use ipc_state::{Descriptor, Descriptors, Object, ObjectKind};
use ipc_wait::WaitList;
use posix_mq::Mq;
use sem_undo::{SemUndo, UndoRow};
use std::alloc::Global;
use sysv_msg::{Message, MsgQueue};
use sysv_sem::{SemSet, Semaphore};

/// Their names.
pub(crate) const NAMES: [&str; 10] = [
    "MsgQueue::restore",
    "SemSet::restore",
    "SemUndo::restore",
    "Mq::restore",
    "Descriptors::restore",
    "KeyDir::reserve",
    "NameDir::reserve",
    "WaitList::reserve",
    "Arrivals::reserve",
    "ObjectMap::push",
];

/// As many messages as any queue has places for, adjustments and descriptors as any process has, and messages as any
/// POSIX queue has places for. The next one needs memory.
const MESSAGES: u32 = 65536;

const ADJUSTMENTS: u16 = 512;

const DESCRIPTORS: u32 = 32;

const POSIX_MESSAGES: u32 = 10;

/// Makes the call of a name on what is made for it.
pub(crate) fn refused(alloc: Global, name: &str) -> Result<bool, Fault> {
    match name {
        "MsgQueue::restore" => is_refused(full_queue(alloc), name),
        "SemSet::restore" => is_refused(Ok(SemSet::restored(alloc, Moment(0), Moment(1))), name),
        "SemUndo::restore" => is_refused(full_undo(alloc), name),
        "Mq::restore" => is_refused(full_mq(alloc), name),
        "Descriptors::restore" => is_refused(full_descriptors(alloc), name),
        "KeyDir::reserve" => is_refused(Ok(KeyDir::new(alloc)), name),
        "NameDir::reserve" => is_refused(Ok(NameDir::new(alloc)), name),
        "WaitList::reserve" => is_refused(Ok(WaitList::<u32, u32>::new(alloc)), name),
        "Arrivals::reserve" => is_refused(arrivals(alloc), name),
        "ObjectMap::push" => is_refused(Ok(ObjectMap::new(alloc)), name),
        _ => Err(Fault::Usage),
    }
}

fn arrivals(alloc: Global) -> Result<Arrivals<Message>, Fault> {
    Ok(Arrivals::with_places(alloc, 4)?)
}

fn full_queue(alloc: Global) -> Result<MsgQueue, Fault> {
    let mut queue = MsgQueue::new(alloc, MESSAGES, Moment(1))?;
    for _ in 0..MESSAGES {
        queue.restore(Message::new(alloc, 1, b"")?)?;
    }
    Ok(queue)
}

impl Subject for MsgQueue {
    fn call(&mut self, _name: &str) -> Result<(), Fault> {
        let message = Message::new(self.allocator(), 1, b"")?;
        done(self.restore(message))
    }

    fn tells(&self) -> Seen {
        let stat = self.stat();
        seen(&[stat.qnum as u64, stat.ctime.0])
    }
}

impl Subject for SemSet {
    fn call(&mut self, _name: &str) -> Result<(), Fault> {
        let semaphore = Semaphore {
            value: 3,
            pid: Pid(1),
        };
        done(self.restore(semaphore))
    }

    fn tells(&self) -> Seen {
        seen(&[self.stat().nsems as u64, self.stat().ctime.0])
    }
}

fn full_undo(alloc: Global) -> Result<SemUndo, Fault> {
    let mut undo = SemUndo::new(alloc)?;
    for num in 0..ADJUSTMENTS {
        undo.restore(adjustment(num))?;
    }
    Ok(undo)
}

fn adjustment(num: u16) -> UndoRow {
    UndoRow {
        set: Id(1),
        num,
        adjustment: 5,
    }
}

impl Subject for SemUndo {
    fn call(&mut self, _name: &str) -> Result<(), Fault> {
        done(self.restore(adjustment(ADJUSTMENTS)))
    }

    fn tells(&self) -> Seen {
        let last = u64::from(self.get(Id(1), ADJUSTMENTS).unsigned_abs());
        seen(&[self.rows().len() as u64, last])
    }
}

fn full_mq(alloc: Global) -> Result<Mq, Fault> {
    let mut queue = Mq::new(alloc, 10, 64)?;
    for priority in 0..POSIX_MESSAGES {
        queue.restore(posix_mq::Message::new(alloc, priority, b"")?)?;
    }
    Ok(queue)
}

impl Subject for Mq {
    fn call(&mut self, _name: &str) -> Result<(), Fault> {
        let message = posix_mq::Message::new(self.allocator(), 1, b"")?;
        done(self.restore(message))
    }

    fn tells(&self) -> Seen {
        seen(&[self.len() as u64, u64::from(self.attr().maxmsg)])
    }
}

fn full_descriptors(alloc: Global) -> Result<Descriptors, Fault> {
    let mut descriptors = Descriptors::new(alloc)?;
    for fd in 0..DESCRIPTORS {
        descriptors.restore(fd, descriptor())?;
    }
    Ok(descriptors)
}

fn descriptor() -> Descriptor {
    let on = Object {
        kind: ObjectKind::Named(NameKind::Mq),
        number: 1,
    };
    Descriptor { on, flags: 0 }
}

impl Subject for Descriptors {
    fn call(&mut self, _name: &str) -> Result<(), Fault> {
        done(self.restore(DESCRIPTORS, descriptor()))
    }

    fn tells(&self) -> Seen {
        seen(&[self.rows().len() as u64])
    }
}

impl Subject for KeyDir {
    fn call(&mut self, _name: &str) -> Result<(), Fault> {
        if self.find(7).is_some() {
            return Err(Fault::Unready);
        }
        done(self.reserve(7))
    }

    fn tells(&self) -> Seen {
        seen(&[u64::from(self.find(7).is_some())])
    }
}

impl Subject for NameDir {
    fn call(&mut self, _name: &str) -> Result<(), Fault> {
        if self.find(b"/q").is_some() {
            return Err(Fault::Unready);
        }
        done(self.reserve(b"/q"))
    }

    fn tells(&self) -> Seen {
        seen(&[u64::from(self.find(b"/q").is_some())])
    }
}

impl Subject for WaitList<u32, u32> {
    fn call(&mut self, _name: &str) -> Result<(), Fault> {
        done(self.reserve(4))
    }

    fn tells(&self) -> Seen {
        seen(&[self.len() as u64])
    }
}

impl Subject for Arrivals<Message> {
    fn call(&mut self, _name: &str) -> Result<(), Fault> {
        done(self.reserve(8))
    }

    fn tells(&self) -> Seen {
        seen(&[self.len() as u64])
    }
}

impl Subject for ObjectMap {
    fn call(&mut self, _name: &str) -> Result<(), Fault> {
        if !self.is_next(7) || self.count() > 8 {
            return Err(Fault::Unready);
        }
        done(self.push(7, b"bytes"))
    }

    fn tells(&self) -> Seen {
        seen(&[u64::from(self.count())])
    }
}
