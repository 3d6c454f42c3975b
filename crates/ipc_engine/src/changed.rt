//! Which objects have changed since the state was saved. None of this takes memory but the room, once.

ghost use Rattle.std.specs.Prelude.{◌≡◌, ◌+◌, ◌*◌, ◌^◌, ◌<◌, ◌≤◌, ◌&&◌, ◌||◌, ◌==◌, true, not, [], Some, None, IfOk};
ghost use Rattle.std.specs.Prelude.{ℕ, false, filter, get_or, length, map, nat_eq, vec_capacity, IfSome, IsTrue};
ghost use Rattle.std.specs.FinMap as fin;
ghost use Rattle.std.specs.List.{IsDistinct, list_any};
ghost use Rattle.std.proofs.Props.{props};
ghost use Rattle.sem_undo.specs.Undo.{entry_of};
ghost use Rattle.ipc_keys.specs.declared.check.NameKind.TheVariants as names;
ghost use Rattle.ipc_state.specs.declared.parked.Object.{Object as PlainObject};
ghost use Rattle.ipc_state.specs.declared.parked.ObjectKind.TheVariants as kinds;
ghost use Rattle.ipc_state.specs.Opening.{is_on, is_or_any, is_there_for, object_as, opened_as};
ghost use Rattle.ipc_state.specs.Sound.{HasSoundParts};
ghost use Rattle.ipc_state.specs.State.{objects_in};
ghost use Rattle.ipc_state.specs.Tables.{item_row};
ghost use Rattle.ipc_state.specs.Touching.{changes_by_exit, is_adjusted, is_adjusted_in, is_made_by, is_opened_by};
ghost use Rattle.ipc_state.specs.Touching.{is_segment};
ghost use Rattle.ipc_engine.specs.Changes.{HasMarked, is_marked, is_object, is_one, may_leave_changes, most_objects};

use ipc_base::Pid;
use ipc_keys::NameKind;
use ipc_limits::Limits;
use ipc_state::{
    DescriptorRow, Item, NamedEntry, Object, ObjectKind, Process, State, is_on, is_segment,
};
use posix_mq::{Mq, Registration};
use sem_undo::{SemUndo, UndoRow};
use std::alloc::{AllocError, Global};

/// The objects that may be otherwise than when the state was saved, each once; some may be gone.
#[derive(Drop)]
pub(crate) struct Changed {
    pub(crate) marks: Vec<Object>,
    /// Where a mark is looked for first: the place of the one that was made or found last.
    hint: usize,
    ghost once: { IsDistinct is_on marks.items } by { Prim.hlevel props },
}

impl Changed {
    /// None, with room for twice as many as there may be objects under these limits, and one. Refused for want of
    /// memory.
    pub(crate) fn new(alloc: Global, limits: &Limits) -> Result<Changed, AllocError>
        ensures none { IfOk result (λ changed. changed.marks.items ≡ []) }
        ensures room { IfOk result (λ changed. 2 * most_objects limits.now < vec_capacity changed.marks) }
    {
        let marks = Vec::with_capacity(alloc, 2 * most_objects(limits) + 1)?;
        Ok(Changed { marks, hint: 0 })
    }

    /// None any more.
    pub(crate) fn clear(&mut self)
        ensures none { self.new.marks.items ≡ [] }
        ensures capacity { vec_capacity self.new.marks ≡ vec_capacity self.old.marks }
    {
        self.marks.clear();
    }

    /// Whether an object is among them.
    pub(crate) fn has(&self, object: Object) -> bool
        ensures { result ≡ is_marked self.now.marks.items object }
    {
        has_mark(&self.marks, object)
    }

    /// There is room for as many more as there may be objects, and one: if there is not, those go that are not there
    /// any more.
    pub(crate) fn make_room(&mut self, state: &State)
        requires parts { HasSoundParts state.now.limits state.now.state }
        requires capacity { 2 * most_objects state.now.limits < vec_capacity self.old.marks }
        ensures only { (o : PlainObject) → is_marked self.new.marks.items o ≡ true
            → is_marked self.old.marks.items o ≡ true }
        ensures kept { (o : PlainObject) → is_there_for (objects_in state.now.state) o ≡ true
            → is_marked self.old.marks.items o ≡ true → is_marked self.new.marks.items o ≡ true }
        ensures room { length self.new.marks.items + most_objects state.now.limits < vec_capacity self.new.marks }
        ensures capacity { vec_capacity self.new.marks ≡ vec_capacity self.old.marks }
    {
        if self.marks.len() + most_objects(state.limits()) < self.marks.capacity() {
            return;
        }
        keep_there(&mut self.marks, state);
    }

    /// Marks an object, for which there is room.
    pub(crate) fn mark(&mut self, object: Object)
        requires { length self.old.marks.items < vec_capacity self.old.marks }
        ensures marked { (o : PlainObject) → is_marked self.new.marks.items o
            ≡ (is_marked self.old.marks.items o || is_on object o) }
        ensures few { length self.new.marks.items ≤ length self.old.marks.items + 1 }
        ensures capacity { vec_capacity self.new.marks ≡ vec_capacity self.old.marks }
    {
        if self.is_hinted(object) {
            return;
        }
        match place_of(&self.marks, object) {
            Some(place) => self.hint = place,
            None => {
                self.hint = self.marks.len();
                self.marks.push_reserved(object);
            }
        }
    }

    /// Whether the mark that was made or found last is of this object.
    fn is_hinted(&self, object: Object) -> bool
        ensures { IsTrue result → is_marked self.now.marks.items object ≡ true }
    {
        match self.marks.get(self.hint) {
            Some(mark) => is_on(object, *mark),
            None => false,
        }
    }

    /// Marks an object, if it is one and this is so. There is room.
    pub(crate) fn mark_if(&mut self, changes: bool, object: Option<Object>)
        requires { length self.old.marks.items < vec_capacity self.old.marks }
        ensures marked { (o : PlainObject) → is_marked self.new.marks.items o
            ≡ (is_marked self.old.marks.items o || changes && is_one object o) }
        ensures few { length self.new.marks.items ≤ length self.old.marks.items + 1 }
        ensures capacity { vec_capacity self.new.marks ≡ vec_capacity self.old.marks }
    {
        let Some(object) = object else {
            return;
        };
        if changes {
            self.mark(object);
        }
    }

    /// Marks what the exit of a process changes, or of each: the sets at which it has an adjustment, the segments that
    /// it has attached, and the queues with which it is registered.
    pub(crate) fn mark_leaving(&mut self, state: &State, pid: Option<u32>)
        requires parts { HasSoundParts state.now.limits state.now.state }
        requires capacity { 2 * most_objects state.now.limits < vec_capacity self.old.marks }
        ensures marked { HasMarked state.now.state (changes_by_exit pid state.now.state)
            self.old.marks.items self.new.marks.items }
        ensures capacity { vec_capacity self.new.marks ≡ vec_capacity self.old.marks }
    {
        self.make_room(state);
        self.mark_exit(state, pid);
    }

    /// Marks what an exit changes, for which there is room.
    fn mark_exit(&mut self, state: &State, pid: Option<u32>)
        requires { length self.old.marks.items + length state.now.state.semset.entries
            + length state.now.state.shm.entries + length state.now.state.mq.entries
            ≤ vec_capacity self.old.marks }
        ensures marked { (o : PlainObject) → is_marked self.new.marks.items o
            ≡ (is_marked self.old.marks.items o || changes_by_exit pid state.now.state o) }
        ensures capacity { vec_capacity self.new.marks ≡ vec_capacity self.old.marks }
    {
        self.mark_sets(state, pid);
        self.mark_segments(state, pid);
        self.mark_queues(state, pid);
    }

    fn mark_sets(&mut self, state: &State, pid: Option<u32>)
        requires { length self.old.marks.items + length state.now.state.semset.entries ≤ vec_capacity self.old.marks }
        ensures marked { (o : PlainObject) → is_marked self.new.marks.items o ≡ (is_marked self.old.marks.items o
            || list_any (λ e. is_on (object_as kinds.Semset e.0) o && is_adjusted pid state.now.state.undo e.0)
            state.now.state.semset.entries) }
        ensures few { length self.new.marks.items
            ≤ length self.old.marks.items + length state.now.state.semset.entries }
        ensures capacity { vec_capacity self.new.marks ≡ vec_capacity self.old.marks }
    {
        for item in state.semsets() {
            let set = Object {
                kind: ObjectKind::Semset,
                number: item.number,
            };
            self.mark_if(is_adjusted(state, pid, item.number), Some(set));
        }
    }

    fn mark_segments(&mut self, state: &State, pid: Option<u32>)
        requires { length self.old.marks.items + length state.now.state.shm.entries ≤ vec_capacity self.old.marks }
        ensures marked { (o : PlainObject) → is_marked self.new.marks.items o ≡ (is_marked self.old.marks.items o
            || list_any (λ e. is_on (object_as kinds.Shm e.0) o
            && is_opened_by pid state.now.state.processes.entries (object_as kinds.Shm e.0))
            state.now.state.shm.entries) }
        ensures few { length self.new.marks.items
            ≤ length self.old.marks.items + length state.now.state.shm.entries }
        ensures capacity { vec_capacity self.new.marks ≡ vec_capacity self.old.marks }
    {
        for item in state.shms() {
            let segment = Object {
                kind: ObjectKind::Shm,
                number: item.number,
            };
            self.mark_if(is_opened_by(state, pid, segment), Some(segment));
        }
    }

    fn mark_queues(&mut self, state: &State, pid: Option<u32>)
        requires { length self.old.marks.items + length state.now.state.mq.entries ≤ vec_capacity self.old.marks }
        ensures marked { (o : PlainObject) → is_marked self.new.marks.items o ≡ (is_marked self.old.marks.items o
            || list_any (λ e. is_on (opened_as names.Mq e.0) o && is_made_by pid None e.1.object.registration)
            state.now.state.mq.entries) }
        ensures capacity { vec_capacity self.new.marks ≡ vec_capacity self.old.marks }
    {
        for item in state.mqs() {
            let queue = Object {
                kind: ObjectKind::Named(NameKind::Mq),
                number: item.number,
            };
            self.mark_if(
                is_made_by(pid, item.value.object.registration()),
                Some(queue),
            );
        }
    }
}

/// How many objects there may be.
fn most_objects(limits: &Limits) -> usize
    ensures exact { result ≡ most_objects limits.now }
    ensures few { result < 2 ^ 35 }
{
    limits.msgmni as usize
        + limits.semmni as usize
        + limits.queues as usize
        + limits.named_semaphores as usize
        + limits.segments as usize
        + limits.shmmni as usize
}

fn has_mark(marks: &[Object], object: Object) -> bool
    ensures { result ≡ is_marked marks.now object }
{
    marks.iter().any(|mark| is_on(object, *mark))
}

/// The place of the mark of an object, if it has one.
fn place_of(marks: &[Object], object: Object) -> Option<usize>
    ensures within { IfSome result (λ place. place < length marks.now) }
    ensures found { (d : Object) → IfSome result (λ place. is_on object (get_or marks.now place d) ≡ true) }
    ensures none { result ≡ None → (k : ℕ) (d : Object) → k < length marks.now
        → is_on object (get_or marks.now k d) ≡ false }
{
    marks.iter().position(|mark| is_on(object, *mark))
}

/// Those that are not there go.
fn keep_there(marks: &mut Vec<Object>, state: &State)
    ensures items { marks.new.items ≡ filter (λ m. is_there_for (objects_in state.now.state) m) marks.old.items }
    ensures capacity { vec_capacity marks.new ≡ vec_capacity marks.old }
{
    marks.retain(|mark| is_there(state, *mark));
}

#[tactic(auto, unfolding(crate::specs::Changes::is_object))]
fn is_there(state: &State, object: Object) -> bool
    ensures { result ≡ is_object state.now.state object }
{
    state.has_object(object)
}

/// Whether the process, or any, has an adjustment at a set.
fn is_adjusted(state: &State, pid: Option<u32>, set: u32) -> bool
    ensures { result ≡ is_adjusted pid state.now.state.undo set }
{
    some_adjust(state.adjustments(), pid, set)
}

fn some_adjust(items: &[Item<SemUndo>], pid: Option<u32>, set: u32) -> bool
    ensures { result ≡ list_any (λ i. is_or_any pid i.number && is_adjusted_in set i.value) items.now }
{
    items.iter().any(|item| adjusts(item, pid, set))
}

fn adjusts(item: &Item<SemUndo>, pid: Option<u32>, set: u32) -> bool
    ensures { result ≡ (is_or_any pid item.now.number && is_adjusted_in set item.now.value) }
{
    is_or_any(pid, item.number) && adjusts_at(&item.value, set)
}

fn adjusts_at(undo: &SemUndo, set: u32) -> bool
    ensures { result ≡ is_adjusted_in set undo.now }
{
    some_is_at(undo.rows(), set)
}

fn some_is_at(rows: &[UndoRow], set: u32) -> bool
    ensures { result ≡ list_any (λ r. nat_eq r.set.0 set) rows.now }
{
    rows.iter().any(|row| row.set.0 == set)
}

/// Whether the process, or any, has an object open.
fn is_opened_by(state: &State, pid: Option<u32>, this: Object) -> bool
    ensures { result ≡ is_opened_by pid state.now.state.processes.entries this }
{
    some_opens(state.processes(), pid, this)
}

fn some_opens(items: &[Item<Process>], pid: Option<u32>, this: Object) -> bool
    ensures { result ≡ list_any
        (λ i. is_or_any pid i.number && list_any (λ d. is_on this d.1.on) i.value.descriptors) items.now }
{
    items.iter().any(|item| opens(item, pid, this))
}

fn opens(item: &Item<Process>, pid: Option<u32>, this: Object) -> bool
    ensures { result ≡ (is_or_any pid item.now.number
        && list_any (λ d. is_on this d.1.on) item.now.value.descriptors) }
{
    is_or_any(pid, item.number) && has_open(item, this)
}

fn has_open(item: &Item<Process>, this: Object) -> bool
    ensures { result ≡ list_any (λ d. is_on this d.1.on) item.now.value.descriptors }
{
    some_is_on(item.value.descriptors.rows(), this)
}

fn some_is_on(rows: &[DescriptorRow], this: Object) -> bool
    ensures { result ≡ list_any (λ r. is_on this r.descriptor.on) rows.now }
{
    rows.iter().any(|row| is_on(this, row.descriptor.on))
}

/// Whether the exit of a process may change an object: it has adjustments, or has attached a segment, or is registered
/// with a queue.
pub(crate) fn may_leave_changes(state: &State, pid: Pid) -> bool
    ensures { result ≡ may_leave_changes pid.0 state.now.state }
{
    has_adjustments(state.adjustments(), pid.0)
        || has_attachments(state.processes(), pid.0)
        || is_registered_with(state.mqs(), pid.0)
}

fn has_attachments(items: &[Item<Process>], pid: u32) -> bool
    ensures { result ≡ list_any
        (λ i. nat_eq pid i.number && list_any (λ d. is_segment d.1.on.kind) i.value.descriptors) items.now }
{
    items.iter().any(|item| attaches(item, pid))
}

fn attaches(item: &Item<Process>, pid: u32) -> bool
    ensures { result ≡ (nat_eq pid item.now.number
        && list_any (λ d. is_segment d.1.on.kind) item.now.value.descriptors) }
{
    pid == item.number && has_attachment(item)
}

fn has_attachment(item: &Item<Process>) -> bool
    ensures { result ≡ list_any (λ d. is_segment d.1.on.kind) item.now.value.descriptors }
{
    some_is_attachment(item.value.descriptors.rows())
}

fn some_is_attachment(rows: &[DescriptorRow]) -> bool
    ensures { result ≡ list_any (λ r. is_segment r.descriptor.on.kind) rows.now }
{
    rows.iter().any(|row| is_segment(row.descriptor.on.kind))
}

fn has_adjustments(items: &[Item<SemUndo>], pid: u32) -> bool
    ensures { result ≡ list_any (λ i. nat_eq pid i.number && not (length (fin.entries i.value) == 0)) items.now }
{
    items.iter().any(|item| adjusts_some(item, pid))
}

fn adjusts_some(item: &Item<SemUndo>, pid: u32) -> bool
    ensures { result ≡ (nat_eq pid item.now.number && not (length (fin.entries item.now.value) == 0)) }
{
    pid == item.number && !item.value.rows().is_empty()
}

fn is_registered_with(items: &[Item<NamedEntry<Mq>>], pid: u32) -> bool
    ensures { result ≡ list_any (λ i. is_made_by (Some pid) None i.value.object.registration) items.now }
{
    items.iter().any(|item| is_made_by(Some(pid), item.value.object.registration()))
}

/// Whether a registration, if there is one, is by this process, or any.
fn is_made_by(pid: Option<u32>, registration: Option<Registration>) -> bool
    ensures { result ≡ is_made_by pid None registration }
{
    match registration {
        Some(registration) => is_or_any(pid, registration.pid.0),
        None => false,
    }
}

fn is_or_any(wanted: Option<u32>, number: u32) -> bool
    ensures { result ≡ is_or_any wanted number }
{
    match wanted {
        Some(wanted) => wanted == number,
        None => true,
    }
}
