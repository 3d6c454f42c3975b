//! Calls of a state that make room in it: for what a call needs, or for what is read from a device.

use crate::fault::Fault;
use crate::subject::{Seen, Subject, done};
use ipc_base::{Cred, Id, Moment, Pid};
use ipc_keys::Name;
use ipc_limits::Limits;
use ipc_perm::Perm;
use ipc_state::{Descriptors, KeyedEntry, NamedEntry, Process, State};
use ipc_wire::read_request;
use posix_mq::Mq;
use posix_sem::NamedSem;
use sem_undo::UndoRow;
use shm_segment::{Segment, SysSegment};
use std::alloc::Global;
use sysv_msg::MsgQueue;
use sysv_sem::SemSet;

/// Their names.
pub(crate) const NAMES: [&str; 20] = [
    "State::reserve_process",
    "State::reserve_msg_queue",
    "State::reserve_semset",
    "State::reserve_shm",
    "State::reserve_mq",
    "State::reserve_psem",
    "State::reserve_pshm",
    "State::reserve_zeros",
    "State::reserve_waits",
    "State::restore_process",
    "State::restore_no_adjustments",
    "State::restore_adjustment",
    "State::restore_msg_queue",
    "State::restore_semset",
    "State::restore_shm",
    "State::restore_mq",
    "State::restore_psem",
    "State::restore_pshm",
    "sysv_calls::reserve",
    "posix_calls::reserve",
];

/// As many adjustments as any process has room for: the next one needs memory.
const ADJUSTMENTS: u16 = 512;

const CRED: Cred = Cred {
    uid: 1000,
    gid: 100,
};

/// msgget(2) of the key 7, and mq_open(3) of `/q`, without the length.
const MSGGET: &[u8] = b"\0\0\0\x09\x0a\0\0\0\x07\0\0\x03\x80";

const MQ_OPEN: &[u8] = b"\0\0\0\x09\x28\0\0\0\x42\0\0\x01\x80\x01\0\0\0\x02\0\0\0\x40/q";

/// A state of one process, for the call of this name.
pub(crate) fn state_for(alloc: Global, name: &str) -> Result<State, Fault> {
    let mut state = State::new(alloc, Limits::small());
    restore_process(&mut state, 1)?;
    state.restore_no_adjustments()?;
    if name == "State::restore_adjustment" {
        for num in 0..ADJUSTMENTS {
            state.restore_adjustment(Pid(1), adjustment(num))?;
        }
    }
    Ok(state)
}

fn restore_process(state: &mut State, pid: u32) -> Result<(), Fault> {
    let process = Process {
        cred: CRED,
        descriptors: Descriptors::new(state.allocator())?,
    };
    done(state.restore_process(Pid(pid), process))
}

fn adjustment(num: u16) -> UndoRow {
    UndoRow {
        set: Id(1),
        num,
        adjustment: 5,
    }
}

impl Subject for State {
    fn call(&mut self, name: &str) -> Result<(), Fault> {
        match name {
            "State::reserve_process" => done(self.reserve_process()),
            "State::reserve_msg_queue" => done(self.reserve_msg_queue(7)),
            "State::reserve_semset" => done(self.reserve_semset(7, 4)),
            "State::reserve_shm" => done(self.reserve_shm(7, 10)),
            "State::reserve_mq" => done(self.reserve_mq(b"/q")),
            "State::reserve_psem" => done(self.reserve_psem(b"/s")),
            "State::reserve_pshm" => done(self.reserve_pshm(b"/m")),
            "State::reserve_zeros" => done(self.reserve_zeros(64)),
            "State::reserve_waits" => done(self.reserve_waits()),
            "sysv_calls::reserve" => reserve(self, MSGGET),
            "posix_calls::reserve" => reserve(self, MQ_OPEN),
            _ => restore(self, name),
        }
    }

    /// How many there are of each part; the clock, and the next number of each that has numbers.
    fn tells(&self) -> Seen {
        [
            self.processes().len() as u64,
            self.waits().len() as u64,
            adjustments(self),
            self.msg_queues().len() as u64,
            self.semsets().len() as u64,
            self.mqs().len() as u64,
            self.psems().items().len() as u64,
            self.pshms().items().len() as u64,
            self.shms().len() as u64,
            self.clock().0,
            u64::from(self.next_pid()),
            u64::from(self.next_msg_queue()),
            u64::from(self.next_semset()),
            u64::from(self.next_mq()),
            u64::from(self.psems().next()),
            u64::from(self.pshms().next()),
            u64::from(self.next_shm()),
        ]
    }
}

/// Makes room for what a request needs.
fn reserve(state: &mut State, text: &[u8]) -> Result<(), Fault> {
    let alloc = state.allocator();
    let request = read_request(text).ok_or(Fault::Unready)?;
    if text == MSGGET {
        done(sysv_calls::reserve(state, alloc, &request))
    } else {
        done(posix_calls::reserve(state, alloc, &request))
    }
}

/// Adds what is read from a device.
fn restore(state: &mut State, name: &str) -> Result<(), Fault> {
    let alloc = state.allocator();
    match name {
        "State::restore_process" => restore_process(state, 2),
        "State::restore_no_adjustments" => done(state.restore_no_adjustments()),
        "State::restore_adjustment" => {
            done(state.restore_adjustment(Pid(1), adjustment(ADJUSTMENTS)))
        }
        "State::restore_msg_queue" => {
            let queue = MsgQueue::new(alloc, 128, Moment(1))?;
            done(state.restore_msg_queue(Id(1), keyed(queue)))
        }
        "State::restore_semset" => {
            let set = SemSet::new(alloc, 4, Moment(1))?;
            done(state.restore_semset(Id(1), keyed(set)))
        }
        "State::restore_shm" => {
            let segment = SysSegment::new(alloc, 10, Pid(1), Moment(1))?;
            done(state.restore_shm(Id(1), keyed(segment)))
        }
        _ => restore_named(state, name),
    }
}

/// Adds an object with a name.
fn restore_named(state: &mut State, name: &str) -> Result<(), Fault> {
    let alloc = state.allocator();
    match name {
        "State::restore_mq" => {
            let queue = Mq::new(alloc, 2, 64)?;
            done(state.restore_mq(1, named(Name::new(alloc, b"/q")?, queue)))
        }
        "State::restore_psem" => {
            let semaphore = NamedSem::new(1);
            done(state.restore_psem(1, named(Name::new(alloc, b"/s")?, semaphore)))
        }
        "State::restore_pshm" => {
            let segment = Segment::zeroed(alloc, 10)?;
            done(state.restore_pshm(1, named(Name::new(alloc, b"/m")?, segment)))
        }
        _ => Err(Fault::Usage),
    }
}

fn keyed<T>(object: T) -> KeyedEntry<T> {
    KeyedEntry {
        bound: 7,
        perm: Perm::new(CRED, 0o600),
        object,
    }
}

fn named<T>(name: Name, object: T) -> NamedEntry<T> {
    NamedEntry {
        bound: name,
        perm: Perm::new(CRED, 0o600),
        object,
    }
}

/// How many adjustments all processes have.
fn adjustments(state: &State) -> u64 {
    let mut count: u64 = 0;
    for item in state.adjustments() {
        count = count.saturating_add(item.value.rows().len() as u64);
    }
    count
}
