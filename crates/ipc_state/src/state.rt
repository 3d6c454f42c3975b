//! The state between two events: its clock, and its parts, each in a file of its own.

ghost use Rattle.std.specs.Prelude.{◌≡◌, ◌↔◌, IsTrue};
ghost use Rattle.ipc_limits.specs.Limits.{ArePassed};
ghost use Rattle.ipc_state.specs.Held.Ready.{Nothing};
ghost use Rattle.ipc_state.specs.Restored.{with_numbers};
ghost use Rattle.ipc_state.specs.Sound.{AreSound, HasSoundParts};
ghost use Rattle.ipc_state.specs.State.{start, at_moment, named_of};
ghost use Rattle.ipc_keys.specs.declared.check.NameKind.{NameKind};
ghost use Rattle.ipc_state.specs.declared.parked.ObjectKind.TheVariants as kinds;

use crate::descriptors::Descriptors;
use crate::numbered::Numbered;
use crate::objects::{Keyed, Named, ObjectTable};
use crate::parked::{Awaited, Parked};
use crate::processes::Process;
use ipc_base::Moment;
use ipc_limits::Limits;
use ipc_wait::WaitList;
use posix_mq::Mq;
use posix_sem::NamedSem;
use sem_undo::SemUndo;
use shm_segment::{Segment, SysSegment};
use std::alloc::Global;
use std::marker::Model;
use sysv_msg::MsgQueue;
use sysv_sem::SemSet;

/// The state between two events. A contract sees its limits, the state of the definitions, and what memory is reserved.
/// It lends its objects, and so it need not be sound: whoever keeps it says so.
pub struct State {
    pub(crate) alloc: Global,
    pub(crate) limits: Limits,
    pub(crate) clock: Moment,
    pub(crate) processes: Numbered<Process>,
    pub(crate) wait: WaitList<Awaited, Parked>,
    /// The adjustments of each process.
    pub(crate) undo: Numbered<SemUndo>,
    /// The adjustments and the descriptors of a process that comes, which are none.
    pub(crate) fresh: Option<(SemUndo, Descriptors)>,
    pub(crate) msg: Keyed<MsgQueue>,
    /// A queue that was ready and was not used: the next one to be ready takes no memory.
    pub(crate) spare_msg_queue: Option<MsgQueue>,
    pub(crate) semset: Keyed<SemSet>,
    pub(crate) shm: Keyed<SysSegment>,
    pub(crate) mq: Named<Mq>,
    /// A POSIX queue that was ready and was not used.
    pub(crate) spare_mq: Option<Mq>,
    pub(crate) psem: Named<NamedSem>,
    pub(crate) pshm: Named<Segment>,
    /// Zeros that are ready to be a longer segment with a name.
    pub(crate) zeros: Option<Segment>,
}

impl Drop for State {
    fn drop(self) {
        let State {
            alloc: _,
            limits: _,
            clock: _,
            processes: _,
            wait: _,
            undo: _,
            fresh: _,
            msg: _,
            spare_msg_queue: _,
            semset: _,
            shm: _,
            mq: _,
            spare_mq: _,
            psem: _,
            pshm: _,
            zeros: _,
        } = self;
    }
}

impl Model for State {
    ghost use Rattle.ipc_limits.specs.Limits.{ArePassed};
    ghost use Rattle.std.specs.Coded.{codes};
    ghost use Rattle.std.specs.Prelude.{◌&&◌, is_some, length, option_map};
    ghost use Rattle.sem_undo.specs.Undo.{undo_code};
    ghost use Rattle.ipc_state.specs.Held.{Held, ready_of};
    ghost use Rattle.ipc_state.specs.Tables.{numbered_of, has_place};

    ghost Value = { Held };

    ghost coded = { Prim.hlevel (codes, undo_code) };

    ghost view = { λ s. record {
      limits = s.limits;
      state = record {
        clock = s.clock.0;
        processes = numbered_of s.processes;
        wait = s.wait.calls;
        undo = (numbered_of s.undo).entries;
        msg = s.msg.objects;
        semset = s.semset.objects;
        shm = s.shm.objects;
        mq = s.mq.objects;
        psem = s.psem.objects;
        pshm = s.pshm.objects;
      };
      ready = ready_of
          (is_some s.fresh && (has_place s.processes && has_place s.undo))
          (option_map (λ r. r.0) s.msg.ready)
          (option_map (λ r. (r.0, length r.1.semaphores)) s.semset.ready)
          (option_map (λ r. (r.0, r.1.memory)) s.shm.ready)
          (option_map (λ r. r.0) s.mq.ready)
          (option_map (λ r. r.0) s.psem.ready)
          (option_map (λ r. r.0) s.pshm.ready)
          s.zeros;
      waits = s.wait.room;
    } };

    ghost invariant = { λ s. ArePassed s.limits };
}

/// The clock, and the next number of each that has numbers.
#[derive(Clone, Copy, Debug, PartialEq, Eq)]
pub struct Numbers {
    pub clock: Moment,
    pub next_pid: u32,
    pub next_msg_queue: u32,
    pub next_semset: u32,
    pub next_shm: u32,
    pub next_mq: u32,
    pub next_psem: u32,
    pub next_pshm: u32,
}

impl State {
    /// Nothing has happened yet. It takes no memory.
    pub fn new(alloc: Global, limits: Limits) -> State
        requires { ArePassed limits }
        ensures state { result.state ≡ start }
        ensures limits { result.limits ≡ limits }
        ensures ready { result.ready ≡ Nothing }
    {
        State {
            alloc,
            limits,
            clock: Moment(0),
            processes: Numbered::new(alloc),
            wait: WaitList::new(alloc),
            undo: Numbered::new(alloc),
            fresh: None,
            msg: ObjectTable::new(alloc),
            spare_msg_queue: None,
            semset: ObjectTable::new(alloc),
            shm: ObjectTable::new(alloc),
            mq: ObjectTable::new(alloc),
            spare_mq: None,
            psem: ObjectTable::new(alloc),
            pshm: ObjectTable::new(alloc),
            zeros: None,
        }
    }

    /// Whether nothing is reserved.
    fn has_nothing_ready(&self) -> bool
        ensures { IsTrue result → self.now.ready ≡ Nothing }
    {
        let has_keyed = self.msg.is_ready() || self.semset.is_ready() || self.shm.is_ready();
        let has_named = self.mq.is_ready() || self.psem.is_ready() || self.pshm.is_ready();
        !has_keyed && !has_named && self.fresh.is_none() && self.zeros.is_none()
    }

    /// Gives back what is reserved. It takes no memory.
    pub fn release(&mut self)
        ensures { self.new ≡ record self.old { ready = Nothing } }
    {
        // Before most calls nothing is, and then nothing is written.
        if self.has_nothing_ready() {
            return;
        }
        self.fresh = None;
        if let Some(queue) = self.msg.release() {
            self.spare_msg_queue = Some(queue);
        }
        let _set = self.semset.release();
        let _shared = self.shm.release();
        if let Some(queue) = self.mq.release() {
            self.spare_mq = Some(queue);
        }
        let _semaphore = self.psem.release();
        let _segment = self.pshm.release();
        self.zeros = None;
    }

    /// The limits, which the state keeps.
    pub fn limits(&self) -> &Limits
        ensures limits { result.now ≡ self.now.limits }
        ensures passed { ArePassed result.now }
    {
        &self.limits
    }

    /// Where its memory is from.
    pub fn allocator(&self) -> Global {
        self.alloc
    }

    /// A moment comes: the clock is the greatest so far.
    pub fn set_moment(&mut self, moment: Moment)
        ensures { self.new ≡ record self.old { state = at_moment self.old.state moment.0 } }
    {
        self.clock = Moment(self.clock.0.max(moment.0));
    }

    /// The greatest moment so far.
    pub fn clock(&self) -> Moment
        ensures { result.0 ≡ self.now.state.clock }
    {
        self.clock
    }

    /// The clock goes back to where it was: the moment that came has changed nothing else.
    pub fn turn_back(&mut self, clock: Moment)
        ensures { self.new ≡ record self.old { state = record self.old.state { clock = clock.0 } } }
    {
        self.clock = clock;
    }

    /// Replaces the clock and the next numbers by those that were read. It takes no memory.
    pub fn restore_numbers(&mut self, numbers: Numbers)
        ensures state { self.new.state ≡ with_numbers self.old.state numbers }
        ensures limits { self.new.limits ≡ self.old.limits }
    {
        self.clock = numbers.clock;
        self.processes.set_next(numbers.next_pid);
        self.msg.set_next(numbers.next_msg_queue);
        self.semset.set_next(numbers.next_semset);
        self.shm.set_next(numbers.next_shm);
        self.mq.set_next(numbers.next_mq);
        self.psem.set_next(numbers.next_psem);
        self.pshm.set_next(numbers.next_pshm);
    }

    /// Whether each part is sound.
    pub fn is_sound(&self) -> bool
        ensures { IsTrue result ↔ HasSoundParts self.now.limits self.now.state }
    {
        self.are_processes_sound()
            && self.are_waits_sound()
            && self.are_adjustments_sound()
            && self.are_msg_queues_sound()
            && self.are_semsets_sound()
            && self.are_shms_sound()
            && self.are_named_sound()
    }

    /// Whether the objects with a name are sound.
    fn are_named_sound(&self) -> bool
        ensures { IsTrue result
            ↔ ((kind : NameKind) → AreSound self.now.limits self.now.state.processes.entries (kinds.Named kind)
            (named_of self.now.state kind)) }
    {
        self.are_mqs_sound() && self.are_psems_sound() && self.are_pshms_sound()
    }
}
