//! The machine: one step for each event.

ghost use Rattle.std.specs.Prelude.{
  ◌≡◌,
  ◌+◌,
  ◌≤◌,
  ◌↔◌,
  ℕ,
  true,
  false,
  [],
  ◌∷◌,
  ◌++◌,
  map,
  length,
  not,
  ◌&&◌,
  ◌||◌,
  IsOk,
  IsTrue,
  OnOk,
  OnErr,
  IfOk,
  All,
  vec_capacity,
  max,
  if◌then◌else◌,
};
ghost use Rattle.ipc_limits.specs.Limits.{ArePassed, longest_body, longest_reply};
ghost use Rattle.ipc_wire.specs.Request.{plain_kind};
ghost use Rattle.ipc_wire.specs.View.{plain_request};
ghost use Rattle.ipc_state.specs.Held.{left};
ghost use Rattle.ipc_state.specs.Held.Ready.{Nothing};
ghost use Rattle.ipc_state.specs.Sound.{FitsBody};
ghost use Rattle.ipc_state.specs.Spare.{IsSpare, room_of};
ghost use Rattle.ipc_wire.specs.Reply.{body_of};
ghost use Rattle.ipc_state.specs.declared.parked.Object.{Object as PlainObject};
ghost use Rattle.ipc_state.specs.State.{State as PlainState, has_all_processes, is_process, is_waiting, start};
ghost use Rattle.ipc_wait.specs.Waits.{next_deadline};
ghost use Rattle.ipc_engine.specs.Buffer.{HasBuffer};
ghost use Rattle.ipc_engine.specs.Bytes.{most_owed, owed};
ghost use Rattle.ipc_engine.specs.Changes.{IsTracked, changes, is_changed, is_marked};
ghost use Rattle.ipc_engine.specs.Engine.{hello_needs};
ghost use Rattle.ipc_engine.specs.Idle.{answer as answer_on, is_accepted, is_idle};
ghost use Rattle.ipc_engine.specs.Reserved.{IsReserved, takes_memory};
ghost use Rattle.ipc_engine.specs.Step.{step as step_on, connect as connect_step, due, greeting, most_replies};
ghost use Rattle.ipc_engine.specs.Listing.{plain_row, rows_of};
ghost use Rattle.ipc_engine.specs.Sound.{IsSound};
ghost use Rattle.ipc_engine.specs.View.{plain_event, plain_outcome, step_of};

use crate::asking::{ask, interrupt, leave};
use crate::changed::Changed;
use crate::deadlines::advance;
use crate::event::{Event, Outcome};
use crate::fault::StateFault;
use crate::listing::{Row, list_objects};
use crate::replies::{push, take_back};
use crate::settling::all_have_to_wait;
use crate::trying::reserve;
use ipc_base::{Cred, Errno, Field, Moment, Pid};
use ipc_keys::NameKind;
use ipc_limits::Limits;
use ipc_state::{Object, ObjectKind, Parked, State, take_spare};
use ipc_wire::{Body, Request, push_fields};
use posix_calls::registrations;
use std::alloc::{AllocError, Global};
use std::marker::Model;

/// The machine. A contract sees its limits, its state, the replies of the last event, and which objects have changed,
/// or may have, since the state was saved.
#[derive(Drop)]
pub struct Engine {
    state: State,
    outcomes: Vec<Outcome>,
    /// The buffer in which a call makes the body of its reply, unless a reply has it.
    spare: Vec<u8>,
    changed: Changed,
}

impl Model for Engine {
    ghost use Rattle.std.specs.Prelude.{◌≡◌, ◌<◌, ◌≤◌, ◌*◌, map, vec_capacity};
    ghost use Rattle.std.specs.Coded.{codes};
    ghost use Rattle.ipc_limits.specs.Limits.{ArePassed};
    ghost use Rattle.sem_undo.specs.Undo.{undo_code};
    ghost use Rattle.ipc_state.specs.Held.Ready.{Nothing};
    ghost use Rattle.ipc_engine.specs.Buffer.{HasBuffer};
    ghost use Rattle.ipc_engine.specs.Changes.{most_objects};
    ghost use Rattle.ipc_engine.specs.Engine.{Machine};
    ghost use Rattle.ipc_engine.specs.Sound.{IsSound};
    ghost use Rattle.ipc_engine.specs.Step.{most_replies};
    ghost use Rattle.ipc_engine.specs.View.{plain_outcome};

    ghost Value = { Machine };

    ghost coded = { Prim.hlevel (codes, undo_code) };

    ghost view = { λ e. record {
      limits = e.state.limits;
      state = e.state.state;
      outcomes = map plain_outcome e.outcomes.items;
      changed = e.changed.marks.items;
    } };

    ghost invariant = { λ e. (most_replies e.state.limits ≤ vec_capacity e.outcomes)
        × IsSound e.state.limits e.state.state
        × ArePassed e.state.limits × HasBuffer e.state.limits e.spare e.outcomes.items
        × (e.state.limits.processes ≤ e.state.waits) × (e.state.ready ≡ Nothing)
        × (2 * most_objects e.state.limits < vec_capacity e.changed.marks) };
}

impl Engine {
    ghost use Rattle.ipc_engine.specs.Engine.{IsForProcess, event_takes_memory};

    /// A machine to which nothing has happened, and of which no object has changed. Refused for want of memory.
    pub fn new(alloc: Global, limits: Limits) -> Result<Engine, AllocError>
        requires { ArePassed limits }
        ensures state { IfOk result (λ engine. engine.state ≡ start) }
        ensures outcomes { IfOk result (λ engine. engine.outcomes ≡ []) }
        ensures changed { IfOk result (λ engine. engine.changed ≡ []) }
        ensures limits { IfOk result (λ engine. engine.limits ≡ limits) }
        ensures sound { IfOk result (λ engine. IsSound engine.limits engine.state) }
    {
        Engine::of(alloc, State::new(alloc, limits))
    }

    /// A machine that has this state, and no replies; no object has changed. Refused if the state is not sound, or for
    /// want of memory.
    pub fn from_state(alloc: Global, state: State) -> Result<Engine, StateFault>
        ensures state { IfOk result (λ engine. engine.state ≡ state.state) }
        ensures limits { IfOk result (λ engine. engine.limits ≡ state.limits) }
        ensures outcomes { IfOk result (λ engine. engine.outcomes ≡ []) }
        ensures changed { IfOk result (λ engine. engine.changed ≡ []) }
        ensures sound { IfOk result (λ engine. IsSound engine.limits engine.state) }
        ensures unsound { result ≡ Err StateFault.Unsound → ¬ IsSound state.limits state.state }
    {
        if !state.is_sound() || !all_have_to_wait(&state) {
            return Err(StateFault::Unsound);
        }
        let engine = Engine::of(alloc, state)?;
        Ok(engine)
    }

    /// A machine that has this sound state, and no replies. It takes the memory that replies and calls that wait may
    /// need.
    fn of(alloc: Global, mut state: State) -> Result<Engine, AllocError>
        requires { IsSound state.limits state.state }
        ensures state { IfOk result (λ engine. engine.state ≡ state.state) }
        ensures limits { IfOk result (λ engine. engine.limits ≡ state.limits) }
        ensures outcomes { IfOk result (λ engine. engine.outcomes ≡ []) }
        ensures changed { IfOk result (λ engine. engine.changed ≡ []) }
        ensures sound { IfOk result (λ engine. IsSound engine.limits engine.state) }
    {
        let outcomes = Vec::with_capacity(alloc, most_replies(state.limits()))?;
        let spare = buffer(alloc, state.limits())?;
        let changed = Changed::new(alloc, state.limits())?;
        state.release();
        state.reserve_waits()?;
        Ok(Engine {
            state,
            outcomes,
            spare,
            changed,
        })
    }

    /// The state, which is sound. What its readers tell is of the machine's state. Nothing is reserved in it, so no key
    /// or name is vacant in a directory.
    pub fn state(&self) -> &State
        ensures limits { result.now.limits ≡ self.now.limits }
        ensures state { result.now.state ≡ self.now.state }
        ensures ready { result.now.ready ≡ Nothing }
        ensures sound { IsSound self.now.limits self.now.state }
        ensures passed { ArePassed self.now.limits }
    {
        &self.state
    }

    /// A row for each object, kind by kind: message queues and semaphore sets by rising identifier, then POSIX queues,
    /// named semaphores and segments by the bytes of their names, those without a name first, and last the System V
    /// segments by rising identifier. Refused for want of memory.
    pub fn list(&self, alloc: Global) -> Result<Vec<Row<&[u8]>>, AllocError>
        ensures { IfOk result (λ rows. map plain_row rows.items ≡ rows_of self.now.state) }
    {
        list_objects(alloc, &self.state)
    }

    /// The limits that it keeps, which have passed their check; by them the state is sound.
    pub fn limits(&self) -> &Limits
        ensures limits { result.now ≡ self.now.limits }
        ensures passed { ArePassed result.now }
        ensures sound { IsSound self.now.limits self.now.state }
    {
        self.state.limits()
    }

    /// Whether the object of this kind and number may be otherwise than when the state was saved (`mark_saved`), or was
    /// taken over: a call has ended with it, other than by a refusal, an exit has adjusted or detached it, or it has
    /// lost a registration. Kinds are numbered as on a device: 1 message queues, 2 semaphore sets, 3 POSIX queues, 4
    /// named semaphores, 5 segments with a name, 6 those of System V; what is of kind 0 counts as changed always.
    pub fn changed(&self, kind: u32, number: u32) -> bool
        ensures { result ≡ is_changed self.now.changed kind number }
    {
        let kind = match kind {
            0 => return true,
            1 => ObjectKind::MsgQueue,
            2 => ObjectKind::Semset,
            3 => ObjectKind::Named(NameKind::Mq),
            4 => ObjectKind::Named(NameKind::Psem),
            5 => ObjectKind::Named(NameKind::Pshm),
            6 => ObjectKind::Shm,
            _ => return false,
        };
        self.changed.has(Object { kind, number })
    }

    /// The state has been saved: no object of a kind from 1 on has changed since. It takes no memory.
    pub fn mark_saved(&mut self)
        ensures { self.new ≡ record self.old { changed = [] } }
    {
        self.changed.clear();
    }

    /// Whether a process has this number.
    pub fn connected(&self, pid: Pid) -> bool
        ensures { result ≡ is_process self.now.state pid.0 }
    {
        self.state.has_process(pid)
    }

    /// The earliest deadline of the calls that wait: until that moment no call ends for want of time. This takes no
    /// longer with more calls.
    pub fn next_deadline(&self) -> Option<Moment>
        ensures { result ≡ next_deadline self.now.state.wait }
    {
        self.state.next_deadline()
    }

    /// How many bytes of frames a process is still owed for what it asked before: the longest reply if a call of it
    /// waits, and a notification for each POSIX queue with which it is registered.
    pub fn owed(&self, pid: Pid) -> usize
        ensures { result ≡ owed self.now.limits self.now.state pid.0 }
    {
        self.reply_owed(pid) + NOTICE_BYTES * registrations(&self.state, pid)
    }

    /// The bytes of the longest reply, if a call of the process waits.
    fn reply_owed(&self, pid: Pid) -> usize
        ensures { result ≡ (if is_waiting self.now.state pid.0 then longest_reply self.now.limits else 0) }
    {
        if self.state.is_waiting(pid) {
            self.limits().longest_reply() as usize
        } else {
            0
        }
    }

    /// The most that a process is ever owed. It tells more cheaply than `owed`, which counts, that there is room.
    pub fn most_owed(&self) -> usize
        ensures most { result ≡ most_owed self.now.limits }
        ensures bound { (pid : ℕ) → owed self.now.limits self.now.state pid ≤ result }
    {
        let limits = self.limits();
        limits.longest_reply() as usize + NOTICE_BYTES * limits.queues as usize
    }

    /// Whether the process that an event names is connected: the condition of `step`.
    pub fn is_for_process(&self, event: &Event<'_>) -> bool
        ensures { IsTrue result ↔ IsForProcess self.now.state (plain_event event.now) }
    {
        match event {
            Event::Call { pid, .. } | Event::Interrupt { pid, .. } | Event::Exit { pid, .. } =>
                self.connected(*pid),
            Event::Connect { .. } | Event::Tick { .. } | Event::Restart => true,
        }
    }

    /// The replies of the last event, in order.
    pub fn outcomes(&self) -> &[Outcome]
        ensures { map plain_outcome result.now ≡ self.now.outcomes }
    {
        &self.outcomes
    }

    /// One step on an event: `outcomes` are its replies and notifications. Memory is taken only by a HELLO that gets a
    /// process, and by a call that may make an object or change a segment's length, or that has a text or a list. If it
    /// is refused, nothing has changed, the clock included. A call that waits already, and what is answered to one that
    /// waited, takes none. The state is sound before and after, and no body of a reply is longer than
    /// `Limits::longest_reply` says. What differs from a state that was saved counts as changed (`tracked`), and what
    /// newly does so is what the event changes (`only`): nothing by a call that is refused, waits, or only reads, by a
    /// HELLO, a tick or an INTERRUPT.
    pub fn step(&mut self, event: Event<'_>) -> Result<(), AllocError>
        requires { IsForProcess self.old.state (plain_event event) }
        ensures state { OnOk result (self.new.state
            ≡ (step_on self.old.limits self.old.state (plain_event event.entry)).state) }
        ensures outcomes { OnOk result (self.new.outcomes
            ≡ (step_on self.old.limits self.old.state (plain_event event.entry)).outcomes) }
        ensures limits { self.new.limits ≡ self.old.limits }
        ensures err { OnErr result (self.new ≡ self.old) }
        ensures memory { event_takes_memory self.old.limits self.old.state (plain_event event.entry) ≡ false
            → IsOk result }
        ensures passed { ArePassed self.old.limits }
        ensures was_sound { IsSound self.old.limits self.old.state }
        ensures sound { IsSound self.new.limits self.new.state }
        ensures fits { OnOk result (All (λ o. FitsBody self.new.limits o.body) self.new.outcomes) }
        ensures tracked { (base : PlainState) → IsTracked self.old.changed base self.old.state
            → IsTracked self.new.changed base self.new.state }
        ensures only { OnOk result ((o : PlainObject) → is_marked self.new.changed o ≡ true
            → (is_marked self.old.changed o || changes self.old.limits self.old.state (plain_event event.entry) o)
            ≡ true) }
    {
        let _idle = self.happen(event)?;
        Ok(())
    }

    /// What the server does with an event: it is answered as by `step`, and accepted, unless it is idle and the device
    /// of version 3: then everything is left as it was, the clock included. Answers whether it is accepted.
    pub fn answer(&mut self, event: Event<'_>) -> Result<bool, AllocError>
        requires { IsForProcess self.old.state (plain_event event) }
        ensures accepted { IfOk result (λ accepted. accepted
            ≡ is_accepted self.old.limits self.old.state (plain_event event.entry)) }
        ensures state { OnOk result (self.new.state
            ≡ (answer_on self.old.limits self.old.state (plain_event event.entry)).state) }
        ensures outcomes { OnOk result (self.new.outcomes
            ≡ (answer_on self.old.limits self.old.state (plain_event event.entry)).outcomes) }
        ensures limits { self.new.limits ≡ self.old.limits }
        ensures err { OnErr result (self.new ≡ self.old) }
        ensures memory { event_takes_memory self.old.limits self.old.state (plain_event event.entry) ≡ false
            → IsOk result }
        ensures passed { ArePassed self.old.limits }
        ensures was_sound { IsSound self.old.limits self.old.state }
        ensures sound { IsSound self.new.limits self.new.state }
        ensures fits { OnOk result (All (λ o. FitsBody self.new.limits o.body) self.new.outcomes) }
        ensures tracked { (base : PlainState) → IsTracked self.old.changed base self.old.state
            → IsTracked self.new.changed base self.new.state }
        ensures only { OnOk result ((o : PlainObject) → is_marked self.new.changed o ≡ true
            → (is_marked self.old.changed o || changes self.old.limits self.old.state (plain_event event.entry) o)
            ≡ true) }
    {
        let clock = self.state.clock();
        let idle = self.happen(event)?;
        let may_be_idle = self.state.limits().has_rules_of_three();
        if may_be_idle & idle {
            self.state.turn_back(clock);
            return Ok(false);
        }
        Ok(true)
    }

    /// One step on an event. Answers whether it is idle: it has changed nothing but the clock.
    fn happen(&mut self, event: Event<'_>) -> Result<bool, AllocError>
        requires { IsForProcess self.old.state (plain_event event) }
        ensures state { OnOk result (self.new.state
            ≡ (step_on self.old.limits self.old.state (plain_event event.entry)).state) }
        ensures outcomes { OnOk result (self.new.outcomes
            ≡ (step_on self.old.limits self.old.state (plain_event event.entry)).outcomes) }
        ensures limits { self.new.limits ≡ self.old.limits }
        ensures err { OnErr result (self.new ≡ self.old) }
        ensures memory { event_takes_memory self.old.limits self.old.state (plain_event event.entry) ≡ false
            → IsOk result }
        ensures passed { ArePassed self.old.limits }
        ensures was_sound { IsSound self.old.limits self.old.state }
        ensures sound { IsSound self.new.limits self.new.state }
        ensures fits { OnOk result (All (λ o. FitsBody self.new.limits o.body) self.new.outcomes) }
        ensures tracked { (base : PlainState) → IsTracked self.old.changed base self.old.state
            → IsTracked self.new.changed base self.new.state }
        ensures only { OnOk result ((o : PlainObject) → is_marked self.new.changed o ≡ true
            → (is_marked self.old.changed o || changes self.old.limits self.old.state (plain_event event.entry) o)
            ≡ true) }
        ensures idle { IfOk result (λ idle. idle ≡ is_idle self.old.limits self.old.state (plain_event event.entry)) }
    {
        match event {
            Event::Connect {
                cred,
                serial,
                moment,
            } => {
                reserve_hello(&mut self.state)?;
                advance(&mut self.state, &mut self.outcomes, &mut self.spare, moment);
                let nobody = self.outcomes.is_empty();
                let outcome = connect(&mut self.state, &mut self.spare, cred, serial);
                let refused = outcome.errno.is_some();
                push(&mut self.outcomes, outcome);
                Ok(nobody & refused)
            }
            Event::Call {
                pid,
                request,
                moment,
            } => {
                let alloc = *self.outcomes.allocator();
                let kept = prepare(&mut self.state, alloc, pid, &request, moment)?;
                advance(&mut self.state, &mut self.outcomes, &mut self.spare, moment);
                let nobody = self.outcomes.is_empty();
                let idle = ask(
                    &mut self.state,
                    &mut self.outcomes,
                    &mut self.spare,
                    &mut self.changed,
                    pid,
                    &request,
                    kept,
                );
                Ok(nobody & idle)
            }
            Event::Interrupt {
                pid,
                serial,
                moment,
            } => {
                advance(&mut self.state, &mut self.outcomes, &mut self.spare, moment);
                let nobody = self.outcomes.is_empty();
                let idle = interrupt(&mut self.state, &mut self.outcomes, pid, serial);
                Ok(nobody & idle)
            }
            Event::Tick { moment } => {
                advance(&mut self.state, &mut self.outcomes, &mut self.spare, moment);
                Ok(self.outcomes.is_empty())
            }
            Event::Exit { pid, moment } => {
                advance(&mut self.state, &mut self.outcomes, &mut self.spare, moment);
                leave(&mut self.state, &mut self.outcomes, &mut self.changed, pid);
                Ok(false)
            }
            Event::Restart => {
                take_back(&mut self.outcomes, &mut self.spare);
                self.changed.mark_leaving(&self.state, None);
                self.state.restart();
                Ok(false)
            }
        }
    }
}

/// The bytes of the frame of a notification.
const NOTICE_BYTES: usize = 18;

/// The most frames that one event causes: its own reply, and one to each process; and with each a notification.
fn most_replies(limits: &Limits) -> usize
    requires { ArePassed limits.now }
    ensures { result ≡ most_replies limits.now }
{
    2 * (limits.processes as usize + 1)
}

/// An empty buffer that has room for any body of a reply.
fn buffer(alloc: Global, limits: &Limits) -> Result<Vec<u8>, AllocError>
    requires { ArePassed limits.now }
    ensures { IfOk result (λ spare. longest_body limits.now ≤ vec_capacity spare) }
{
    Vec::with_capacity(alloc, limits.longest_reply() as usize)
}

/// Takes the memory that a request of a process may need at this moment; none while a call of the process waits, since
/// it has one at a time. Gives what is kept of a request that may wait.
fn prepare(
    state: &mut State,
    alloc: Global,
    pid: Pid,
    request: &Request<'_>,
    moment: Moment,
) -> Result<Option<Parked>, AllocError>
    requires { state.old.ready ≡ Nothing }
    ensures held { state.new ≡ record state.old { ready = state.new.ready } }
    ensures ok { IfOk result (λ kept. IsReserved (is_waiting (due moment.0 state.old.state).state pid.0)
        state.new.ready (plain_request request.now) kept) }
    ensures err { OnErr result (state.new ≡ state.old) }
    ensures memory { takes_memory (plain_kind request.now.kind)
        && not (is_waiting (due moment.0 state.old.state).state pid.0) ≡ false → IsOk result }
{
    if state.still_waits(pid, moment) {
        return Ok(None);
    }
    reserve(state, alloc, request)
}

/// Takes the memory that a HELLO needs. If no process can be added, it needs none.
fn reserve_hello(state: &mut State) -> Result<(), AllocError>
    requires { state.old.ready ≡ Nothing }
    ensures ok { OnOk result (state.new ≡ record state.old {
      ready = hello_needs state.old.limits state.old.state;
    }) }
    ensures memory { not (has_all_processes state.old.limits state.old.state) ≡ false → IsOk result }
    ensures err { OnErr result (state.new ≡ state.old) }
{
    if state.has_all_processes() {
        return Ok(());
    }
    state.reserve_process()
}

/// The reply to a HELLO: a new process, or ENFILE where none can be added. It takes no memory.
fn connect(state: &mut State, spare: &mut Vec<u8>, cred: Cred, serial: u32) -> Outcome
    requires ready { state.old.ready ≡ hello_needs state.old.limits state.old.state }
    requires spare { IsSpare state.old.limits spare.old }
    ensures step { step_of state.new.state result ≡ connect_step state.old.limits cred serial state.old.state }
    ensures held { state.new ≡ left state.old state.new.state }
    ensures buffer { longest_body state.old.limits ≤ max (vec_capacity spare.new) (room_of result.body) }
{
    if state.has_all_processes() {
        return Outcome {
            pid: Pid(0),
            serial,
            errno: Some(Errno::ENFILE),
            body: Body::Empty,
        };
    }
    let pid = state.add_process(cred);
    Outcome {
        pid,
        serial,
        errno: None,
        body: greet(state.limits(), spare, pid),
    }
}

/// What a new process is told: its pid, and on version 3 the version after it. The latter stands in the spare buffer.
fn greet(limits: &Limits, spare: &mut Vec<u8>, pid: Pid) -> Body<Vec<u8>>
    requires { IsSpare limits.now spare.old }
    ensures body { body_of (λ bytes. bytes.items) result ≡ greeting limits.now pid.0 }
    ensures buffer { longest_body limits.now ≤ max (vec_capacity spare.new) (room_of result) }
{
    if !limits.has_rules_of_three() {
        return Body::Number(pid.0);
    }
    let mut body = take_spare(spare);
    push_fields(&mut body, &[Field::U32(pid.0), Field::U32(limits.version)]);
    Body::Record(body)
}
