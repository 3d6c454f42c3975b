//! Steps of a machine, of which some need memory, and its listing.

use crate::fault::Fault;
use crate::subject::{Seen, Subject, done, seen};
use ipc_base::{Cred, Moment, Objects, Pid};
use ipc_engine::{Engine, Event};
use ipc_image::{FORMAT, objects_of};
use ipc_limits::Limits;
use ipc_wire::{RequestKind, read_request};
use std::alloc::Global;

/// The names of those that may be refused.
pub(crate) const NAMES: [&str; 12] = [
    "Engine::list",
    "Engine::step HELLO",
    "Engine::step msgget",
    "Engine::step msgsnd",
    "Engine::step semget",
    "Engine::step semop",
    "Engine::step mq_open",
    "Engine::step mq_send",
    "Engine::step sem_open",
    "Engine::step shm_open",
    "Engine::step ftruncate",
    "Engine::step shmget",
];

/// The names of those that take no memory.
pub(crate) const PROMISED: [&str; 19] = [
    "Engine::step msgrcv",
    "Engine::step msgctl IPC_SET",
    "Engine::step msgctl IPC_RMID",
    "Engine::step SETVAL",
    "Engine::step SETALL",
    "Engine::step semctl IPC_RMID",
    "Engine::step mq_receive",
    "Engine::step mq_unlink",
    "Engine::step sem_post",
    "Engine::step shm write",
    "Engine::step shmat",
    "Engine::step shmdt",
    "Engine::step shmctl IPC_SET",
    "Engine::step shmctl IPC_RMID",
    "Engine::step attached write",
    "Engine::step INTERRUPT",
    "Engine::step tick",
    "Engine::step exit",
    "Engine::step restart",
];

/// When a machine is made ready, and when the call comes.
const BEFORE: Moment = Moment(3);

const NOW: Moment = Moment(9);

const CRED: Cred = Cred {
    uid: 1000,
    gid: 100,
};

fn hello(moment: Moment) -> Event<'static> {
    Event::Connect {
        cred: CRED,
        serial: 1,
        moment,
    }
}

/// What a machine has: a queue of one message, a set of two semaphores of which one is adjusted, a POSIX queue of one
/// message, a named semaphore and a segment, whose descriptors are 0 to 2, and a System V segment that is attachment 3.
const READY: [&[u8]; 10] = [
    b"\0\0\0\x01\x0a\0\0\0\x07\0\0\x03\x80",
    b"\0\0\0\x02\x0b\0\0\0\x01\0\0\0\0\0\0\0\0\0\0\0\x05hi",
    b"\0\0\0\x03\x14\0\0\0\x07\0\0\0\x02\0\0\x03\x80",
    b"\0\0\0\x04\x15\0\0\0\x01\xff\xff\xff\xff\xff\xff\xff\xff\0\0\0\x05\x10\0",
    b"\0\0\0\x05\x28\0\0\0\x42\0\0\x01\x80\x01\0\0\0\x02\0\0\0\x40/q",
    b"\0\0\0\x06\x2a\0\0\0\0\xff\xff\xff\xff\xff\xff\xff\xff\0\0\0\x01hi",
    b"\0\0\0\x07\x32\0\0\0\x42\0\0\x01\x80\0\0\0\x01/s",
    b"\0\0\0\x08\x3c\0\0\0\x42\0\0\x01\x80/m",
    b"\0\0\0\x09\x46\0\0\0\x07\0\0\0\0\0\0\0\x0a\0\0\x03\x80",
    b"\0\0\0\x0a\x47\0\0\0\x01\0\0\0\0",
];

/// The request of a call, without its length.
fn request_of(name: &str) -> Option<&'static [u8]> {
    Some(match name {
        "Engine::step msgget" => b"\0\0\0\x09\x0a\0\0\0\x08\0\0\x03\x80",
        "Engine::step msgsnd" => b"\0\0\0\x09\x0b\0\0\0\x01\0\0\0\0\0\0\0\0\0\0\0\x05more",
        "Engine::step semget" => b"\0\0\0\x09\x14\0\0\0\x08\0\0\0\x02\0\0\x03\x80",
        "Engine::step semop" => {
            b"\0\0\0\x09\x15\0\0\0\x01\xff\xff\xff\xff\xff\xff\xff\xff\0\0\xff\xfd\x10\0\0\x01\0\x01\0\0"
        }
        "Engine::step mq_open" => {
            b"\0\0\0\x09\x28\0\0\0\x42\0\0\x01\x80\x01\0\0\0\x02\0\0\0\x40/r"
        }
        "Engine::step mq_send" => {
            b"\0\0\0\x09\x2a\0\0\0\0\xff\xff\xff\xff\xff\xff\xff\xff\0\0\0\x02more"
        }
        "Engine::step sem_open" => b"\0\0\0\x09\x32\0\0\0\x40\0\0\x01\x80\0\0\0\x01/t",
        "Engine::step shm_open" => b"\0\0\0\x09\x3c\0\0\0\x42\0\0\x01\x80/n",
        "Engine::step ftruncate" => b"\0\0\0\x09\x3e\0\0\0\x02\0\0\0\0\0\0\0\x40",
        "Engine::step shmget" => b"\0\0\0\x09\x46\0\0\0\x08\0\0\0\0\0\0\0\x40\0\0\x03\x80",
        _ => return promised_request_of(name),
    })
}

/// The frame of a call that takes no memory.
fn promised_request_of(name: &str) -> Option<&'static [u8]> {
    Some(match name {
        "Engine::step msgrcv" => b"\0\0\0\x09\x0c\0\0\0\x01\0\0\0\0\0\0\0\x40\0\0\0\0\0\0\0\0",
        "Engine::step msgctl IPC_SET" => {
            b"\0\0\0\x09\x0e\0\0\0\x01\0\0\x03\xe8\0\0\0\x64\0\0\x01\x80\0\0\0\x40"
        }
        "Engine::step msgctl IPC_RMID" => b"\0\0\0\x09\x0f\0\0\0\x01",
        "Engine::step SETVAL" => b"\0\0\0\x09\x1a\0\0\0\x01\0\0\0\x01\0\0\0\x07",
        "Engine::step SETALL" => b"\0\0\0\x09\x1c\0\0\0\x01\0\x07\0\x08",
        "Engine::step semctl IPC_RMID" => b"\0\0\0\x09\x1f\0\0\0\x01",
        "Engine::step mq_receive" =>
            b"\0\0\0\x09\x2b\0\0\0\0\xff\xff\xff\xff\xff\xff\xff\xff\0\0\0\x40",
        "Engine::step mq_unlink" => b"\0\0\0\x09\x29/q",
        "Engine::step sem_post" => b"\0\0\0\x09\x34\0\0\0\x01",
        "Engine::step shm write" => b"\0\0\0\x09\x40\0\0\0\x02\0\0\0\0\0\0\0\0",
        "Engine::step shmat" => b"\0\0\0\x09\x47\0\0\0\x01\0\0\x10\0",
        "Engine::step shmdt" => b"\0\0\0\x09\x48\0\0\0\x03",
        "Engine::step shmctl IPC_SET" => {
            b"\0\0\0\x09\x4a\0\0\0\x01\0\0\x03\xe8\0\0\0\x64\0\0\x01\x80"
        }
        "Engine::step shmctl IPC_RMID" => b"\0\0\0\x09\x4b\0\0\0\x01",
        "Engine::step attached write" => b"\0\0\0\x09\x4d\0\0\0\x03\0\0\0\0\0\0\0\x02hi",
        "Engine::step INTERRUPT" => b"\0\0\0\x09\x02",
        _ => return None,
    })
}

/// A machine that has an object of each kind.
pub(crate) fn engine_for(alloc: Global) -> Result<Engine, Fault> {
    // A process that has one of each kind can open another.
    let limits = Limits {
        descriptors: 5,
        ..Limits::small()
    };
    if limits.check(&Limits::standard()).is_err() {
        return Err(Fault::Unready);
    }
    let mut engine = Engine::new(alloc, limits)?;
    take(&mut engine, hello(BEFORE))?;
    for text in READY {
        ask(&mut engine, text, BEFORE)?;
    }
    Ok(engine)
}

/// A request of the first process, which is done.
fn ask(engine: &mut Engine, text: &[u8], moment: Moment) -> Result<(), Fault> {
    let request = read_request(text).ok_or(Fault::Unready)?;
    let pid = Pid(1);
    let event = match request.kind {
        RequestKind::Interrupt => Event::Interrupt {
            pid,
            serial: request.serial,
            moment,
        },
        _ => Event::Call {
            pid,
            request,
            moment,
        },
    };
    take(engine, event)?;
    match engine.outcomes() {
        [outcome] if outcome.errno.is_none() => Ok(()),
        _ => Err(Fault::Unready),
    }
}

/// An event, which may happen.
fn take(engine: &mut Engine, event: Event<'_>) -> Result<(), Fault> {
    if !engine.is_for_process(&event) {
        return Err(Fault::Unready);
    }
    engine.step(event)?;
    Ok(())
}

impl Subject for Engine {
    fn call(&mut self, name: &str) -> Result<(), Fault> {
        if let Some(text) = request_of(name) {
            return ask(self, text, NOW);
        }
        let pid = Pid(1);
        match name {
            "Engine::list" => done(self.list(self.state().allocator())),
            "Engine::step HELLO" => take(self, hello(NOW)),
            "Engine::step tick" => take(self, Event::Tick { moment: NOW }),
            "Engine::step exit" => take(self, Event::Exit { pid, moment: NOW }),
            "Engine::step restart" => take(self, Event::Restart),
            _ => Err(Fault::Usage),
        }
    }

    fn tells(&self) -> Seen {
        let objects = objects_of(self, FORMAT);
        seen(&[
            sum_of(&objects),
            u64::from(objects.count()),
            self.outcomes().len() as u64,
        ])
    }
}

/// What the numbers and the bytes of objects come to, each with its place.
fn sum_of<O: Objects>(objects: &O) -> u64 {
    let mut sum: u64 = 0;
    for i in 0..objects.count() {
        sum = with(sum, objects.number(i));
        for window in 0..objects.len(i).div_ceil(512) {
            let mut sector = [0; 512];
            let mut mark = objects.start(i);
            objects.bytes(i, window.saturating_mul(512), &mut mark, &mut sector);
            for byte in &sector {
                sum = with(sum, u64::from(*byte));
            }
        }
    }
    sum
}

/// A sum to which one number more is added: the hash of Fowler, Noll and Vo.
fn with(sum: u64, number: u64) -> u64 {
    (sum ^ number).wrapping_mul(0x0000_0100_0000_01b3)
}
