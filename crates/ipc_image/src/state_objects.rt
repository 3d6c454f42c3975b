//! The state as objects, without any memory.

ghost use Rattle.std.specs.Prelude.{◌≡◌, ◌≤◌, ◌<◌, ◌-◌, ◌^◌, length, true, Some, slice_get, option_map};
ghost use Rattle.ipc_limits.specs.declared.limits.Limits.{Limits};
ghost use Rattle.ipc_base.specs.Objects.{Fit};
ghost use Rattle.ipc_state.specs.State.{start};
ghost use Rattle.ipc_image.specs.Format.{IsOpened};
ghost use Rattle.ipc_image.specs.Saved.{later_in, later_objects, saved_in, StandForStateIn};
ghost use Rattle.ipc_image.specs.Superblock.{AreOf};
ghost use Rattle.ipc_image.specs.SavedParts.{IsFound, IsMarkOf, IsMarkOfLater, IsMarkOfOwnObject, FitsOwnObject};
ghost use Rattle.ipc_image.specs.SavedParts.{Stands, object_of};
ghost use Rattle.ipc_image.specs.Sizes.{area_in};
ghost use Rattle.ipc_image.specs.Window.{passed};

use crate::adjustment_list::{adjustments_len, put_adjustments};
use crate::clock::put_clock;
use crate::format::Format;
use crate::marked_queue::{put_queue, queue_len};
use crate::restoring::ALWAYS;
use crate::saved::{InSlice, START, list_len, put_counted};
use crate::stored::Stored;
use crate::widths::read_state;
use crate::window::Window;
use ipc_base::{Mark, Moment, Objects};
use ipc_engine::Engine;
use ipc_state::{Awaited, Item, KeyedEntry, NamedEntry, Numbers, Parked, Process};
use ipc_wait::Waiting;
use posix_mq::Mq;
use posix_sem::NamedSem;
use sem_undo::SemUndo;
use shm_segment::{Segment, SysSegment};
use std::marker::Model;
use sysv_msg::MsgQueue;
use sysv_sem::SemSet;

/// The objects of a state: four that every state has, and one for each message queue, semaphore set, POSIX queue,
/// named semaphore, segment and System V segment. A contract sees the form of the device and the state. Each object
/// counts as changed.
#[derive(Drop)]
pub struct StateObjects<'a> {
    form: Format,
    numbers: Numbers,
    processes: &'a [Item<Process>],
    waits: &'a [Waiting<Awaited, Parked>],
    undo: &'a [Item<SemUndo>],
    queues: &'a [Item<KeyedEntry<MsgQueue>>],
    sets: &'a [Item<KeyedEntry<SemSet>>],
    mqs: &'a [Item<NamedEntry<Mq>>],
    sems: &'a [Item<NamedEntry<NamedSem>>],
    segments: &'a [Item<NamedEntry<Segment>>],
    shms: &'a [Item<KeyedEntry<SysSegment>>],
}

/// What has an object of its own.
#[derive(Clone, Copy)]
pub(crate) enum OwnObject<'a> {
    MsgQueue(&'a Item<KeyedEntry<MsgQueue>>),
    Semset(&'a Item<KeyedEntry<SemSet>>),
    Mq(&'a Item<NamedEntry<Mq>>),
    Psem(&'a Item<NamedEntry<NamedSem>>),
    Pshm(&'a Item<NamedEntry<Segment>>),
    Shm(&'a Item<KeyedEntry<SysSegment>>),
}

impl<'a> Model for StateObjects<'a> {
    ghost use Rattle.std.specs.Coded.{codes};
    ghost use Rattle.ipc_base.specs.Objects.{AreObjects};
    ghost use Rattle.sem_undo.specs.Undo.{undo_code};
    ghost use Rattle.ipc_state.specs.State.{State as PlainState};
    ghost use Rattle.ipc_image.specs.declared.format.Format.{Format as PlainFormat};
    ghost use Rattle.ipc_image.specs.Format.{IsOpened};
    ghost use Rattle.ipc_image.specs.Saved.{saved_in, HasAllPlaces};
    ghost use Rattle.ipc_image.specs.SavedParts.{seen_later, seen_state};

    ghost Value = { PlainFormat × PlainState };

    ghost coded = { Prim.hlevel (codes, undo_code) };

    ghost view = { λ o. (
      o.form,
      seen_state o.numbers o.processes.now o.waits.now o.undo.now o.queues.now o.sets.now
          (seen_later o.numbers o.mqs.now o.sems.now o.segments.now o.shms.now),
    ) };

    ghost invariant = { λ o.
        IsOpened o.form
        × HasAllPlaces (seen_state o.numbers o.processes.now o.waits.now o.undo.now o.queues.now o.sets.now
        (seen_later o.numbers o.mqs.now o.sems.now o.segments.now o.shms.now))
        × AreObjects (saved_in o.form
        (seen_state o.numbers o.processes.now o.waits.now o.undo.now o.queues.now o.sets.now
        (seen_later o.numbers o.mqs.now o.sems.now o.segments.now o.shms.now))) };
}

/// The state of the machine as objects of a device of that version. It takes no memory. They stand for that state, and
/// fit where objects are kept under the machine's limits, if the version may have these.
pub(crate) fn all_of<'a>(engine: &'a Engine, form: Format) -> StateObjects<'a>
    requires { IsOpened form }
    ensures objects { ⟦<StateObjects<'a> as Objects>⟧.objects result ≡ saved_in form engine.now.state }
    ensures stand { StandForStateIn form engine.now.limits engine.now.state (saved_in form engine.now.state) }
    ensures fit { AreOf form engine.now.limits
        → Fit (area_in form engine.now.limits) (saved_in form engine.now.state) }
{
    let state = engine.state();
    read_state(state);
    StateObjects {
        form,
        numbers: Numbers {
            clock: state.clock(),
            next_pid: state.next_pid(),
            next_msg_queue: state.next_msg_queue(),
            next_semset: state.next_semset(),
            next_mq: state.next_mq(),
            next_psem: state.psems().next(),
            next_pshm: state.pshms().next(),
            next_shm: state.next_shm(),
        },
        processes: state.processes(),
        waits: state.waits(),
        undo: state.adjustments(),
        queues: state.msg_queues(),
        sets: state.semsets(),
        mqs: state.mqs(),
        sems: state.psems().items(),
        segments: state.pshms().items(),
        shms: state.shms(),
    }
}

/// The state to which nothing has happened, as objects of a device of that version. They fit under all limits that it
/// may have. It needs no machine.
pub fn start_objects(form: Format) -> StateObjects<'static>
    requires { IsOpened form }
    ensures objects { ⟦<StateObjects<'static> as Objects>⟧.objects result ≡ saved_in form start }
    ensures fit { (limits : Limits) → AreOf form limits → Fit (area_in form limits) (saved_in form start) }
{
    StateObjects {
        form,
        numbers: Numbers {
            clock: Moment(0),
            next_pid: 1,
            next_msg_queue: 1,
            next_semset: 1,
            next_mq: 1,
            next_psem: 1,
            next_pshm: 1,
            next_shm: 1,
        },
        processes: &[],
        waits: &[],
        undo: &[],
        queues: &[],
        sets: &[],
        mqs: &[],
        sems: &[],
        segments: &[],
        shms: &[],
    }
}

impl<'a> Objects for StateObjects<'a> {
    ghost objects = { λ o. saved_in o.0 o.1 };

    ghost differs = { λ o i. true };

    ghost marks = { λ o i m. IsMarkOf o.0 o.1 i m };

    #[tactic(auto, using(crate::proofs::SavedObjects::tables_count))]
    fn count(&self) -> u32 {
        ALWAYS
            + self.queues.len() as u32
            + self.sets.len() as u32
            + self.mqs.len() as u32
            + self.sems.len() as u32
            + self.segments.len() as u32
            + self.shms.len() as u32
    }

    fn number(&self, i: u32) -> u64 {
        if i < ALWAYS {
            return u64::from(i);
        }
        match own_object_at(self, i) {
            OwnObject::MsgQueue(queue) => KeyedEntry::<MsgQueue>::FIRST + u64::from(queue.number),
            OwnObject::Semset(set) => KeyedEntry::<SemSet>::FIRST + u64::from(set.number),
            OwnObject::Mq(mq) => NamedEntry::<Mq>::FIRST + u64::from(mq.number),
            OwnObject::Psem(sem) => NamedEntry::<NamedSem>::FIRST + u64::from(sem.number),
            OwnObject::Pshm(segment) => NamedEntry::<Segment>::FIRST + u64::from(segment.number),
            OwnObject::Shm(shm) => KeyedEntry::<SysSegment>::FIRST + u64::from(shm.number),
        }
    }

    fn changed(&self, i: u32) -> bool {
        true
    }

    fn len(&self, i: u32) -> u64 {
        match i {
            0 => 36,
            1 => 4 + list_len(&InSlice(self.processes)),
            2 => 4 + list_len(&InSlice(self.waits)),
            3 => adjustments_len(self.undo),
            _ => own_object_len(&own_object_at(self, i), self.form.marks),
        }
    }

    fn start(&self, i: u32) -> Mark {
        START
    }

    fn bytes(&self, i: u32, place: u64, mark: &mut Mark, into: &mut [u8; 512]) {
        let mut window = Window::new(place);
        put_object(&mut window, self, i, mark);
        *into = window.finish();
    }
}

// What has the i-th object.
fn own_object_at<'a, 'b>(objects: &'b StateObjects<'a>, i: u32) -> OwnObject<'a>
    requires thing { 4 ≤ i }
    requires object { i < length (saved_in objects.now.0 objects.now.1) }
    ensures { IsFound objects.now.0 objects.now.1 i (object_of objects.now.0.marks result)
        (IsMarkOfOwnObject objects.now.0.marks result) (FitsOwnObject result) }
{
    let at = (i - ALWAYS) as usize;
    if at < objects.queues.len() {
        return OwnObject::MsgQueue(&objects.queues[at]);
    }
    let at = at - objects.queues.len();
    if at < objects.sets.len() {
        return OwnObject::Semset(&objects.sets[at]);
    }
    later_at(objects, at - objects.sets.len())
}

// What has an object among those of later kinds, by its place among them.
fn later_at<'a, 'b>(objects: &'b StateObjects<'a>, at: usize) -> OwnObject<'a>
    requires { at < length (later_objects (later_in objects.now.1)) }
    ensures stands { Stands (later_objects (later_in objects.now.1)) (IsMarkOfLater (later_in objects.now.1)) at
        (object_of objects.now.0.marks result) (IsMarkOfOwnObject objects.now.0.marks result) }
    ensures fits { FitsOwnObject result }
{
    if at < objects.mqs.len() {
        return OwnObject::Mq(&objects.mqs[at]);
    }
    let at = at - objects.mqs.len();
    if at < objects.sems.len() {
        return OwnObject::Psem(&objects.sems[at]);
    }
    let at = at - objects.sems.len();
    if at < objects.segments.len() {
        return OwnObject::Pshm(&objects.segments[at]);
    }
    OwnObject::Shm(&objects.shms[at - objects.segments.len()])
}

// How many bytes its object has.
fn own_object_len(thing: &OwnObject<'_>, marks: bool) -> u64
    requires fits { FitsOwnObject thing.now }
    requires short { length (object_of marks thing.now).1 < 2 ^ 64 }
    ensures { result ≡ length (object_of marks thing.now).1 }
{
    match thing {
        OwnObject::MsgQueue(queue) => queue_len(&queue.value, marks),
        OwnObject::Semset(set) => set.value.len(),
        OwnObject::Mq(mq) => mq.value.len(),
        OwnObject::Psem(sem) => sem.value.len(),
        OwnObject::Pshm(segment) => segment.value.len(),
        OwnObject::Shm(shm) => shm.value.len(),
    }
}

// Its object passes the window. The mark is of its parts.
fn put_own_object(window: &mut Window, thing: &OwnObject<'_>, marks: bool, mark: &mut Mark)
    requires fits { FitsOwnObject thing.now }
    requires short { length (object_of marks thing.now).1 < 2 ^ 64 }
    requires mark { IsMarkOfOwnObject marks thing.now mark.old }
    ensures passed { window.new ≡ passed (object_of marks thing.now).1 window.old }
    ensures mark { IsMarkOfOwnObject marks thing.now mark.new }
{
    match thing {
        OwnObject::MsgQueue(queue) => put_queue(window, &queue.value, marks, mark),
        OwnObject::Semset(set) => set.value.put(window, mark),
        OwnObject::Mq(mq) => mq.value.put(window, mark),
        OwnObject::Psem(sem) => sem.value.put(window, mark),
        OwnObject::Pshm(segment) => segment.value.put(window, mark),
        OwnObject::Shm(shm) => shm.value.put(window, mark),
    }
}

// The i-th object passes the window.
fn put_object(window: &mut Window, objects: &StateObjects<'_>, i: u32, mark: &mut Mark)
    requires object { i < length (saved_in objects.now.0 objects.now.1) }
    requires mark { IsMarkOf objects.now.0 objects.now.1 i mark.old }
    ensures passed { option_map (λ o. passed o.1 window.old) (slice_get (saved_in objects.now.0 objects.now.1) i)
        ≡ Some window.new }
    ensures mark { IsMarkOf objects.now.0 objects.now.1 i mark.new }
{
    match i {
        0 => put_clock(window, objects.numbers),
        1 => put_counted(window, &InSlice(objects.processes), mark),
        2 => put_counted(window, &InSlice(objects.waits), mark),
        3 => put_adjustments(window, objects.undo),
        _ => put_own_object(window, &own_object_at(objects, i), objects.form.marks, mark),
    }
}
