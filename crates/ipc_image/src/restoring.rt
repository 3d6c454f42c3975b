//! The machine whose state some objects are.

ghost use Rattle.std.specs.Prelude.{◌≡◌, ◌≢◌, ◌++◌, ◌^◌, [], ℕ, List, Err, IfOk, OnOk, Some, IfSome};
ghost use Rattle.std.specs.Prelude.{IfNone, All, drop, false, map, slice_get, nat_eq};
ghost use Rattle.std.specs.List.{IsDistinct};
ghost use Rattle.ipc_limits.specs.Limits.{ArePassed};
ghost use Rattle.ipc_base.specs.Table.{keys_of};
ghost use Rattle.ipc_state.specs.State.{State as PlainState, start};
ghost use Rattle.ipc_state.specs.Keyed.{KeyedEntry as AnyEntry};
ghost use Rattle.shm_segment.specs.SysSegment.{SysSegment as AnySegment};
ghost use Rattle.ipc_image.specs.Format.{IsFormat, has_shms};
ghost use Rattle.ipc_image.specs.Kind.{FitsIn, IsOther};
ghost use Rattle.ipc_base.specs.Objects.{PlainObjects};
ghost use Rattle.sysv_msg.specs.Queue.{Queue as AnyQueue};
ghost use Rattle.ipc_image.specs.Saved.{LaterObjects, later_objects, queue_object, saved_in, shm_object};
ghost use Rattle.ipc_image.specs.Saved.{FitLater, FitsQueue, FitsShm, HasAllPlaces, HasKindsOf, StandForStateIn};
ghost use Rattle.ipc_image.specs.SavedParts.{with_more, with_more_later, put_queues, put_shms};

use crate::adjustments::restore_adjustments;
use crate::clock::read_clock;
use crate::format::Format;
use crate::marked_queue::MarkedQueue;
use crate::saved::read_counted;
use crate::stored::restore_kind;
use crate::waiting::restore_waits;
use ipc_base::{ObjectMap, Objects};
use ipc_engine::{Engine, StateFault};
use ipc_limits::Limits;
use ipc_state::{Item, KeyedEntry, NamedEntry, Process, State};
use posix_mq::Mq;
use posix_sem::NamedSem;
use shm_segment::{Segment, SysSegment};
use std::alloc::Global;
use sysv_msg::MsgQueue;
use sysv_sem::SemSet;

/// How many objects every state has: the clock, the processes, the waiting calls, the adjustments.
pub(crate) const ALWAYS: u32 = 4;

// The bytes of an object that every state has: the first four have these numbers, from 0 on.
fn object_numbered(objects: &ObjectMap, i: u32) -> Option<&[u8]>
    ensures some { IfSome result (λ bytes. slice_get objects.now i ≡ Some (i, bytes.now)) }
    ensures none { IfNone result ((bytes : List ℕ) → slice_get objects.now i ≢ Some (i, bytes)) }
{
    if i >= objects.count() || objects.number(i) != i as u64 {
        return None;
    }
    Some(objects.object(i))
}

// All parts, in their order. Two processes that were read may have the same pid: the state is not sound then.
fn restore(
    state: &mut State,
    alloc: Global,
    objects: &ObjectMap,
    form: Format,
) -> Result<(), StateFault>
    requires start { state.old.state ≡ start }
    requires known { IsFormat form }
    ensures ok { OnOk result ((IsDistinct nat_eq (keys_of state.new.state.undo) → HasAllPlaces state.new.state)
        × (objects.now ≡ saved_in form state.new.state)) }
    ensures kinds { OnOk result (HasKindsOf form state.new.state) }
    ensures once { OnOk result ((s : PlainState) → HasAllPlaces s → HasKindsOf form s
        → objects.now ≡ saved_in form s → s ≡ state.new.state) }
    ensures damaged { result ≡ Err StateFault.Unsound → (s : PlainState)
        → HasAllPlaces s → HasKindsOf form s → objects.now ≢ saved_in form s }
    ensures limits { OnOk result (state.new.limits ≡ state.old.limits) }
{
    let Some(clock) = object_numbered(objects, 0) else {
        return Err(StateFault::Unsound);
    };
    let Some(processes) = object_numbered(objects, 1) else {
        return Err(StateFault::Unsound);
    };
    let Some(calls) = object_numbered(objects, 2) else {
        return Err(StateFault::Unsound);
    };
    let Some(adjustments) = object_numbered(objects, 3) else {
        return Err(StateFault::Unsound);
    };
    let Some(numbers) = read_clock(form, clock) else {
        return Err(StateFault::Unsound);
    };
    state.restore_numbers(numbers);
    read_counted::<Item<Process>>(state, processes)?;
    restore_waits(state, alloc, calls)?;
    restore_adjustments(state, alloc, adjustments)?;
    let next = restore_queues(state, alloc, objects, form, ALWAYS)?;
    let next = restore_kind::<KeyedEntry<SemSet>>(state, alloc, objects, next)?;
    restore_later(state, alloc, objects, form, next)?;
    Ok(())
}

// The message queues, by the form of the device. Gives the place of the first object that is of another kind.
fn restore_queues(
    state: &mut State,
    alloc: Global,
    objects: &ObjectMap,
    form: Format,
    from: u32,
) -> Result<u32, StateFault>
    ensures ok { IfOk result (λ next. (xs : List (ℕ × AnyEntry AnyQueue)) × All (FitsIn FitsQueue) xs
        × (drop from objects.now ≡ map (queue_object form.marks) xs ++ drop next objects.now)
        × ((state.new.state, state.new.limits)
        ≡ with_more (λ s. s.0.msg.entries) put_queues (state.old.state, state.old.limits) xs)) }
    ensures whole { IfOk result (λ next. (xs : List (ℕ × AnyEntry AnyQueue)) (rest : PlainObjects)
        → IsOther (2 ^ 32) rest → drop from objects.now ≡ map (queue_object form.marks) xs ++ rest
        → All (FitsIn FitsQueue) xs → drop next objects.now ≡ rest) }
    ensures damaged { result ≡ Err StateFault.Unsound → (xs : List (ℕ × AnyEntry AnyQueue)) (rest : PlainObjects)
        → IsOther (2 ^ 32) rest → All (FitsIn FitsQueue) xs
        → drop from objects.now ≢ map (queue_object form.marks) xs ++ rest }
{
    if form.marks {
        restore_kind::<MarkedQueue>(state, alloc, objects, from)
    } else {
        restore_kind::<KeyedEntry<MsgQueue>>(state, alloc, objects, from)
    }
}

// The objects of those of later kinds, kind by kind, from this place to the last.
fn restore_later(
    state: &mut State,
    alloc: Global,
    objects: &ObjectMap,
    form: Format,
    from: u32,
) -> Result<(), StateFault>
    ensures ok { OnOk result ((o : LaterObjects) × FitLater o × (has_shms form ≡ false → o.shm.entries ≡ [])
        × (drop from objects.now ≡ later_objects o)
        × ((state.new.state, state.new.limits) ≡ with_more_later (state.old.state, state.old.limits) o)) }
    ensures damaged { result ≡ Err StateFault.Unsound → (o : LaterObjects) → FitLater o
        → (has_shms form ≡ false → o.shm.entries ≡ []) → drop from objects.now ≢ later_objects o }
{
    let next = restore_kind::<NamedEntry<Mq>>(state, alloc, objects, from)?;
    let next = restore_kind::<NamedEntry<NamedSem>>(state, alloc, objects, next)?;
    let next = restore_kind::<NamedEntry<Segment>>(state, alloc, objects, next)?;
    restore_shms(state, alloc, objects, form, next)?;
    Ok(())
}

// The System V segments, from this place to the last. If the version has none, no object is left.
fn restore_shms(
    state: &mut State,
    alloc: Global,
    objects: &ObjectMap,
    form: Format,
    from: u32,
) -> Result<(), StateFault>
    ensures ok { OnOk result ((xs : List (ℕ × AnyEntry AnySegment)) × All (FitsIn FitsShm) xs
        × (has_shms form ≡ false → xs ≡ []) × (drop from objects.now ≡ map shm_object xs)
        × ((state.new.state, state.new.limits)
        ≡ with_more (λ s. s.0.shm.entries) put_shms (state.old.state, state.old.limits) xs)) }
    ensures damaged { result ≡ Err StateFault.Unsound → (xs : List (ℕ × AnyEntry AnySegment))
        → All (FitsIn FitsShm) xs → (has_shms form ≡ false → xs ≡ []) → drop from objects.now ≢ map shm_object xs }
{
    if !form.has_shms() {
        return none_left(objects, from);
    }
    let next = restore_kind::<KeyedEntry<SysSegment>>(state, alloc, objects, from)?;
    none_left(objects, next)
}

// `Unsound` if objects are left from this place on.
fn none_left(objects: &ObjectMap, next: u32) -> Result<(), StateFault>
    ensures ok { OnOk result (drop next objects.now ≡ []) }
    ensures damaged { result ≡ Err StateFault.Unsound → drop next objects.now ≢ [] }
{
    if next < objects.count() {
        return Err(StateFault::Unsound);
    }
    Ok(())
}

/// The machine whose state these objects of a device of that version are, under limits that have passed their check.
/// It has no replies, and no object has changed. `Unsound` if they stand for no sound state, or for one with objects
/// of a kind that the version lacks.
pub fn engine_of(
    alloc: Global,
    objects: &ObjectMap,
    limits: Limits,
    form: Format,
) -> Result<Engine, StateFault>
    requires passed { ArePassed limits }
    requires known { IsFormat form }
    ensures stands { IfOk result (λ engine. StandForStateIn form limits engine.state objects.now) }
    ensures limits { IfOk result (λ engine. engine.limits ≡ limits) }
    ensures outcomes { IfOk result (λ engine. engine.outcomes ≡ []) }
    ensures changed { IfOk result (λ engine. engine.changed ≡ []) }
    ensures damaged { result ≡ Err StateFault.Unsound → (s : PlainState)
        → ¬ StandForStateIn form limits s objects.now }
{
    let mut state = State::new(alloc, limits);
    restore(&mut state, alloc, objects, form)?;
    Engine::from_state(alloc, state)
}
