//! Calls that make something, where nothing was before.

use crate::fault::Fault;
use crate::subject::{Seen, Subject, done};
use ipc_arrivals::Arrivals;
use ipc_base::{Moment, Pid};
use ipc_disk::{JoinedDisk, MemoryDisk, SectorRuns};
use ipc_engine::{Engine, StateFault};
use ipc_keys::Name;
use ipc_limits::Limits;
use ipc_state::{Descriptors, Operations, Parked, State};
use ipc_wait::{WaitList, Waiting};
use ipc_wire::{SemBufs, read_request};
use posix_mq::Mq;
use sem_undo::SemUndo;
use shm_segment::{Segment, ShmStat, SysSegment};
use std::alloc::Global;
use sysv_msg::{MsgQueue, QueueNumbers};
use sysv_sem::SemSet;

/// Their names.
pub(crate) const NAMES: [&str; 22] = [
    "sysv_msg::Message::new",
    "MsgQueue::new",
    "MsgQueue::restored",
    "SemSet::new",
    "SemUndo::new",
    "posix_mq::Message::new",
    "Mq::new",
    "Mq::restored",
    "Segment::zeroed",
    "Segment::of_bytes",
    "SysSegment::new",
    "SysSegment::restored",
    "Arrivals::with_places",
    "Name::new",
    "WaitList::from_calls",
    "Descriptors::new",
    "Operations::new",
    "Parked::new",
    "Engine::new",
    "Engine::from_state",
    "MemoryDisk::new",
    "JoinedDisk::new",
];

/// Sectors of a disk.
const SECTORS: u32 = 448;

/// One operation of a list: the semaphore 0 is raised by 1.
const RAISE: [u8; 6] = [0, 0, 0, 1, 0, 0];

/// A request of msgsnd(2), of type 1 and the text `hi`, without its length.
const MSGSND: [u8; 23] = [
    0, 0, 0, 3, 0x0b, 0, 0, 0, 1, 0, 0, 0, 0, 0, 0, 0, 0, 0, 0, 0, 1, b'h', b'i',
];

/// A queue that nobody used.
const UNUSED: QueueNumbers = QueueNumbers {
    qbytes: 128,
    stime: Moment(0),
    rtime: Moment(0),
    ctime: Moment(1),
    lspid: Pid(0),
    lrpid: Pid(0),
};

/// A segment that nobody has attached.
const UNATTACHED: ShmStat = ShmStat {
    size: 2,
    atime: Moment(0),
    dtime: Moment(0),
    ctime: Moment(1),
    cpid: Pid(1),
    lpid: Pid(0),
    is_marked: false,
};

/// What is there before: nothing.
#[derive(Drop)]
pub(crate) struct Nothing {
    pub(crate) alloc: Global,
}

impl Subject for Nothing {
    fn call(&mut self, name: &str) -> Result<(), Fault> {
        let alloc = self.alloc;
        match name {
            "Arrivals::with_places" => done(Arrivals::<sysv_msg::Message>::with_places(alloc, 8)),
            "Name::new" => done(Name::new(alloc, b"/q")),
            "WaitList::from_calls" => make_list(alloc),
            "Engine::new" => done(Engine::new(alloc, Limits::small())),
            "Engine::from_state" => make_engine(alloc),
            "MemoryDisk::new" => done(MemoryDisk::new(alloc, SECTORS)),
            "JoinedDisk::new" => {
                let disk = MemoryDisk::new(alloc, SECTORS)?;
                done(JoinedDisk::new(alloc, SectorRuns { disk }))
            }
            _ => make_object(alloc, name),
        }
    }

    fn tells(&self) -> Seen {
        [0; 17]
    }
}

/// Makes an object of a kind, or a part of one.
fn make_object(alloc: Global, name: &str) -> Result<(), Fault> {
    match name {
        "sysv_msg::Message::new" => done(sysv_msg::Message::new(alloc, 1, b"hi")),
        "MsgQueue::new" => done(MsgQueue::new(alloc, 128, Moment(1))),
        "MsgQueue::restored" => done(MsgQueue::restored(alloc, UNUSED)),
        "SemSet::new" => done(SemSet::new(alloc, 4, Moment(1))),
        "SemUndo::new" => done(SemUndo::new(alloc)),
        "posix_mq::Message::new" => done(posix_mq::Message::new(alloc, 1, b"hi")),
        "Mq::new" => done(Mq::new(alloc, 2, 64)),
        "Mq::restored" => done(Mq::restored(alloc, 2, 64, None)),
        "Segment::zeroed" => done(Segment::zeroed(alloc, 10)),
        "Segment::of_bytes" => done(Segment::of_bytes(alloc, b"hi")),
        "SysSegment::new" => done(SysSegment::new(alloc, 10, Pid(1), Moment(1))),
        "SysSegment::restored" => done(SysSegment::restored(alloc, UNATTACHED, b"hi")),
        _ => make_call(alloc, name),
    }
}

/// Makes what a process has, or a call that waits.
fn make_call(alloc: Global, name: &str) -> Result<(), Fault> {
    match name {
        "Descriptors::new" => done(Descriptors::new(alloc)),
        "Operations::new" => {
            let operations = SemBufs::new(&RAISE).ok_or(Fault::Unready)?;
            done(Operations::new(alloc, &operations))
        }
        "Parked::new" => {
            let request = read_request(&MSGSND).ok_or(Fault::Unready)?;
            done(Parked::new(alloc, &request))
        }
        _ => Err(Fault::Usage),
    }
}

/// A list of one call that waits.
fn make_list(alloc: Global) -> Result<(), Fault> {
    let mut calls = Vec::new(alloc);
    calls.push(Waiting {
        pid: Pid(1),
        on: 1_u32,
        deadline: None,
        call: 1_u32,
    })?;
    match WaitList::from_calls(alloc, calls)? {
        Some(_) => Ok(()),
        None => Err(Fault::Unready),
    }
}

/// A machine of a state that is sound.
fn make_engine(alloc: Global) -> Result<(), Fault> {
    match Engine::from_state(alloc, State::new(alloc, Limits::small())) {
        Ok(_) => Ok(()),
        Err(StateFault::NoMemory) => Err(Fault::NoMemory),
        Err(StateFault::Unsound) => Err(Fault::Unready),
    }
}
