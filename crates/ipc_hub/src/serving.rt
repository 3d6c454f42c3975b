//! Requests become events of the machine, and the replies of every event go to the connections of their processes.

ghost use Rattle.std.specs.Prelude.{◌≡◌, ◌⊎◌, ◌+◌, ◌<◌, ◌≤◌, ℕ, true, false, [], ◌∷◌, length, map, take};
ghost use Rattle.std.specs.Prelude.{◌↔◌, Some, nat_eq, option_map, IfSome, IsTrue};
ghost use Rattle.ipc_limits.specs.Limits.{longest_reply, ArePassed};
ghost use Rattle.ipc_base.specs.Table.{value_at};
ghost use Rattle.ipc_wire.specs.View.{plain_request};
ghost use Rattle.ipc_wire.specs.Stream.{first};
ghost use Rattle.ipc_wire.specs.Stream.PlainFrame.{Whole};
ghost use Rattle.ipc_engine.specs.Event.{Tick};
ghost use Rattle.ipc_engine.specs.Sound.{IsSound};
ghost use Rattle.ipc_engine.specs.View.{plain_event, plain_outcome, reply_of};
ghost use Rattle.ipc_hub.specs.Hub.{break_off as breaks_off, event_of as event_made};
ghost use Rattle.ipc_hub.specs.Clients.{refusal as refusal_of, tick as ticks};
ghost use Rattle.ipc_hub.specs.View.{ConnectionView, HasNoFrame};
ghost use Rattle.ipc_hub.specs.Relations.Rows.{pid_of, hub_view, stored_view};
ghost use Rattle.ipc_hub.specs.Relations.Rows.{Becomes, changed, hub_of, process_in, is_open_in};
ghost use Rattle.ipc_hub.specs.Relations.Delivery.{last_frame, closed, pushed, put_all, view_endpoint, with_answer};
ghost use Rattle.ipc_hub.specs.Relations.Delivery.{HasSpaceToAnswer, HasSpaceFor};
ghost use Rattle.ipc_hub.specs.Relations.Invariant.{Continues, HasPassed, IsConnected, IsNobodys};
ghost use Rattle.ipc_hub.specs.Relations.Invariant.{AreApart, LeavesOthers};
ghost use Rattle.ipc_hub.specs.Relations.Matches.{Adds, Simulates, TakesIn};
ghost use Rattle.ipc_hub.specs.Relations.Requests.{ComesTo, IsQuiet, Left, Steps, exit_of, taken_off};
ghost use Rattle.ipc_hub.specs.Relations.Requests.{CanTake, HasAccepted, HasRoom, IsReady, Received, RunsOut, Took};
ghost use Rattle.ipc_image.specs.Format.{longest_record};
ghost use Rattle.ipc_image.specs.Records.{record_bytes, HasRecord};
ghost use Rattle.ipc_store.specs.Batch.{exit_record, tick_record};
ghost use Rattle.ipc_store.specs.View.{HasRoomFor, IsReadyFor, events_left};

use crate::connection::{Session, refusal};
use crate::connections::Connections;
use ipc_base::{Errno, Moment, Pid};
use ipc_disk::SectorDisk;
use ipc_engine::{Event, Outcome, event_sets_clock, late_tick_does_nothing};
use ipc_store::{StepError, Store};
use ipc_wire::{Frame, Request, RequestKind, read_frame};

/// What came of what stands at the front of a connection.
#[derive(Clone, Copy)]
pub(crate) enum FrameOutcome {
    /// No frame is whole yet.
    More,
    /// The machine took a step.
    Served,
    /// Memory was refused to the request.
    NoMemory { serial: u32 },
    /// A fault of the frames.
    Broken { serial: u32 },
}

/// The event that a request of a process, or of none, makes; none, if the request has no place.
fn event_of<'a>(process: Option<Pid>, request: &Request<'a>, moment: Moment) -> Option<Event<'a>>
    ensures event { option_map plain_event result ≡ event_made (pid_of process) (plain_request request.now) moment.0 }
    ensures record { IfSome result (λ event. HasRecord (plain_event event)) }
{
    match (process, request.kind) {
        (None, RequestKind::Hello(cred)) => Some(Event::Connect {
            cred,
            serial: request.serial,
            moment,
        }),
        (Some(pid), RequestKind::Interrupt) => Some(Event::Interrupt {
            pid,
            serial: request.serial,
            moment,
        }),
        (Some(pid), RequestKind::Sysv(_) | RequestKind::Posix(_)) => Some(Event::Call {
            pid,
            request: *request,
            moment,
        }),
        (None, RequestKind::Interrupt | RequestKind::Sysv(_) | RequestKind::Posix(_))
        | (Some(_), RequestKind::Hello(_)) => None,
    }
}

/// The machine takes a step by which no process asks, and the replies go where they go.
fn accept<D: SectorDisk>(store: &mut Store<D>, connections: &mut Connections, event: Event<'_>)
    requires quiet { IsQuiet store.old.machine.limits store.old.machine.state (plain_event event) }
    requires ready { IsReady (stored_view store.old connections.old)
        (length (record_bytes (plain_event event))) 1 }
    ensures steps { Steps D.medium store.old store.new (plain_event event.entry) }
    ensures replies { connections.new ≡ put_all store.new.machine.outcomes connections.old }
{
    store.step(event).unwrap();
    connections.deliver(store.engine().outcomes());
}

/// Time passes.
pub(crate) fn tick<D: SectorDisk>(
    store: &mut Store<D>,
    connections: &mut Connections,
    moment: Moment,
)
    requires { IsReady (stored_view store.old connections.old) tick_record 1 }
    ensures room { (bytes : ℕ) → HasRoomFor store.old (tick_record + bytes) → HasRoomFor store.new bytes }
    ensures left { (n : ℕ) → n + 1 ≤ events_left store.old → n ≤ events_left store.new }
    ensures accepts { HasAccepted D.medium (stored_view store.old connections.old)
        (stored_view store.new connections.new) (Tick moment.0 ∷ []) }
    ensures ticks { Simulates (hub_view store.old.machine connections.old)
        (hub_view store.new.machine connections.new) (λ limits h. ticks limits h moment.0) }
    ensures passed { HasPassed (hub_view store.old.machine connections.old)
        (hub_view store.new.machine connections.new) }
{
    accept(store, connections, Event::Tick { moment });
}

/// The process of a connection that is over leaves, if it had one.
pub(crate) fn leave<D: SectorDisk>(
    store: &mut Store<D>,
    connections: &mut Connections,
    process: Option<Pid>,
    moment: Moment,
)
    requires connected { IsConnected store.old.machine.state (pid_of process) }
    requires nobodys { IsNobodys connections.old (pid_of process) }
    requires ready { IsReady (stored_view store.old connections.old) exit_record 1 }
    ensures accepts { HasAccepted D.medium (stored_view store.old connections.old)
        (stored_view store.new connections.new) (exit_of (pid_of process) moment.0) }
    ensures leaves { Left (hub_view store.old.machine connections.old)
        (hub_view store.new.machine connections.new) (pid_of process) moment.0 }
    ensures others { LeavesOthers connections.old connections.new }
{
    if let Some(pid) = process {
        accept(store, connections, Event::Exit { pid, moment });
    }
}

/// Takes the frame at the front of a connection off it, if it is whole, and asks the machine.
fn ask<D: SectorDisk>(store: &mut Store<D>, session: &mut Session, moment: Moment) -> FrameOutcome
    requires ready { IsReadyFor store.old longest_record 1 }
    requires connected { IsConnected store.old.machine.state session.old.process }
    ensures comes { ComesTo D.medium store.old store.new session.old.process (first session.old.input) moment.0 result }
    ensures view { session.new ≡ taken_off result session.old }
{
    let asked = come_to(store, session, moment);
    match asked {
        FrameOutcome::More => {}
        FrameOutcome::Served | FrameOutcome::NoMemory { .. } | FrameOutcome::Broken { .. } =>
            session.drop_input(),
    }
    asked
}

/// Reads what stands at the front of a connection. If that is a request which makes an event, the machine takes a step.
fn come_to<D: SectorDisk>(store: &mut Store<D>, session: &Session, moment: Moment) -> FrameOutcome
    requires ready { IsReadyFor store.old longest_record 1 }
    requires connected { IsConnected store.old.machine.state session.now.process }
    ensures { ComesTo D.medium store.old store.new session.now.process (first session.now.input) moment.0 result }
{
    match read_frame(session.input()) {
        Frame::More => FrameOutcome::More,
        Frame::Fault { serial } => FrameOutcome::Broken { serial },
        Frame::Whole { request, .. } => submit(store, session.process(), &request, moment),
    }
}

/// A request of a process, or of none: if it makes an event, the machine takes a step.
fn submit<D: SectorDisk>(
    store: &mut Store<D>,
    process: Option<Pid>,
    request: &Request<'_>,
    moment: Moment,
) -> FrameOutcome
    requires ready { IsReadyFor store.old longest_record 1 }
    requires connected { IsConnected store.old.machine.state (pid_of process) }
    ensures { (used : ℕ) → ComesTo D.medium store.old store.new (pid_of process)
        (Whole used (plain_request request.now)) moment.0 result }
{
    let serial = request.serial;
    let Some(event) = event_of(process, request, moment) else {
        return FrameOutcome::Broken { serial };
    };
    match store.step(event) {
        Ok(()) => FrameOutcome::Served,
        Err(StepError::NoMemory) => FrameOutcome::NoMemory { serial },
        Err(StepError::Stopped) => unreachable!(),
    }
}

/// Puts the replies to the request of a connection, and the others of its event, where they go.
fn answer(connections: &mut Connections, conn: u32, outcomes: &[Outcome])
    requires apart { AreApart (with_answer (map plain_outcome outcomes.now) conn connections.old) }
    requires space { HasSpaceToAnswer (map plain_outcome outcomes.now) conn connections.old }
    ensures { connections.new ≡ put_all (map plain_outcome outcomes.now)
        (with_answer (map plain_outcome outcomes.now) conn connections.old) }
{
    if let Some(session) = connections.get_mut(conn) {
        session.take_reply(outcomes.last());
    }
    connections.deliver(outcomes);
}

/// Puts a reply without a body into a connection: memory was refused to its request, or the server ends it.
fn refuse(connections: &mut Connections, conn: u32, serial: u32, errno: Errno)
    requires { IfSome (value_at nat_eq connections.old conn) (λ c. last_frame ≤ c.outbox.free) }
    ensures { connections.new
        ≡ changed (pushed (reply_of (refusal_of serial errno))) conn connections.old }
{
    if let Some(session) = connections.get_mut(conn) {
        session.push(&refusal(serial, errno));
    }
}

/// A connection is over: it keeps no bytes of a request, and has no process. Answers the one that it had.
fn close(connections: &mut Connections, conn: u32) -> Option<Pid>
    ensures process { pid_of result ≡ process_in connections.old conn }
    ensures table { connections.new ≡ changed closed conn connections.old }
{
    let session = connections.get_mut(conn)?;
    session.close()
}

/// The server ends a connection: its process leaves, and an EPROTO frame is the last.
fn break_off<D: SectorDisk>(
    store: &mut Store<D>,
    connections: &mut Connections,
    conn: u32,
    serial: u32,
    moment: Moment,
)
    requires live { is_open_in connections.old conn ≡ true }
    requires ready { IsReady (stored_view store.old connections.old) exit_record 1 }
    ensures accepts { HasAccepted D.medium (stored_view store.old connections.old)
        (stored_view store.new connections.new) (exit_of (process_in connections.old conn) moment.0) }
    ensures ends { (c : ConnectionView) → value_at nat_eq connections.old conn ≡ Some c
        → Becomes (hub_view store.old.machine connections.old)
        (hub_view store.new.machine connections.new)
        (breaks_off view_endpoint store.old.machine.limits
        (hub_of (hub_view store.old.machine connections.old)) conn c serial moment.0) }
    ensures answers { ¬ HasNoFrame (hub_view store.new.machine connections.new) conn }
{
    let process = close(connections, conn);
    leave(store, connections, process, moment);
    refuse(connections, conn, serial, Errno::EPROTO);
    store.count_refusal(Errno::EPROTO);
}

/// Gives a connection bytes of a piece, up to the end of a frame at most, and asks the machine if it is whole. Answers
/// how many bytes it took, and what came of them.
fn receive<D: SectorDisk>(
    store: &mut Store<D>,
    connections: &mut Connections,
    conn: u32,
    piece: &[u8],
    moment: Moment,
) -> (usize, FrameOutcome)
    requires room { HasRoom (stored_view store.old connections.old) conn }
    requires live { is_open_in connections.old conn ≡ true }
    ensures received { Received D.medium store.old store.new connections.old connections.new
        conn (take result.0 piece.now) moment.0 result.1 }
    ensures within { result.0 ≤ length piece.now }
    ensures some { 0 < length piece.now → 0 < result.0 }
{
    let session = connections.get(conn).unwrap();
    if session.input().is_empty() {
        // A frame that is whole in the piece is served from there.
        if let Frame::Whole { used, request } = read_frame(piece) {
            return (used, submit(store, session.process(), &request, moment));
        }
    }
    let session = connections.get_mut(conn).unwrap();
    let count = session.fill(piece);
    let asked = ask(store, session, moment);
    (count, asked)
}

/// Takes bytes of a piece, up to the end of a frame at most, and serves the request if it is whole; of a connection
/// that does not go on it takes and drops all. Answers how many bytes it took.
fn take<D: SectorDisk>(
    store: &mut Store<D>,
    connections: &mut Connections,
    conn: u32,
    piece: &[u8],
    moment: Moment,
) -> usize
    requires { HasRoom (stored_view store.old connections.old) conn }
    ensures took { Took D.medium store.old store.new connections.old connections.new
        conn (take result piece.now) moment.0 }
    ensures within { result ≤ length piece.now }
    ensures some { 0 < length piece.now → 0 < result }
{
    if !connections.is_open(conn) {
        return piece.len();
    }
    // A call that waits, at a moment that has been, waits on: its process is refused nothing for memory.
    event_sets_clock();
    late_tick_does_nothing();
    let (count, asked) = receive(store, connections, conn, piece, moment);
    match asked {
        FrameOutcome::More => {}
        FrameOutcome::Served => answer(connections, conn, store.engine().outcomes()),
        FrameOutcome::NoMemory { serial } => {
            refuse(connections, conn, serial, Errno::ENOMEM);
            store.count_refusal(Errno::ENOMEM);
        }
        FrameOutcome::Broken { serial } => break_off(store, connections, conn, serial, moment),
    }
    count
}

/// Whether a request of a connection has room: its event in the store, and its reply after what its process is owed.
fn has_room<D: SectorDisk>(store: &Store<D>, connections: &Connections, conn: u32) -> bool
    ensures room { IsTrue result ↔ (IsReadyFor store.now longest_record 1
        × HasSpaceFor (hub_view store.now.machine connections.now) (longest_reply store.now.machine.limits) conn) }
    ensures passed { ArePassed store.now.machine.limits }
    ensures sound { IsSound store.now.machine.limits store.now.machine.state }
{
    let reply = store.engine().limits().longest_reply();
    store.has_room()
        && store.events_left() > 0
        && connections.has_space(conn, store.engine(), reply)
}

/// Takes bytes of a piece while a request has room for its event and, after what its process is owed, for its reply,
/// and serves each request that they complete; of a connection that has ended it takes and drops all. Answers how many
/// bytes it took: all of them if the connection keeps no frame then, unless the store has run out of room. A request of
/// a process of which no call waits may leave no frame, and the next one leaves one.
pub(crate) fn take_in<D: SectorDisk>(
    store: &mut Store<D>,
    connections: &mut Connections,
    conn: u32,
    piece: &[u8],
    moment: Moment,
) -> usize
    requires { CanTake (stored_view store.old connections.old) conn moment.0 }
    ensures continues { Continues (hub_view store.old.machine connections.old)
        (hub_view store.new.machine connections.new) }
    ensures bytes { TakesIn D.medium (stored_view store.old connections.old)
        (stored_view store.new connections.new) conn (take result piece.now) moment.0 }
    ensures within { result ≤ length piece.now }
    ensures whole { HasNoFrame (hub_view store.new.machine connections.new) conn
        → (result ≡ length piece.now) ⊎ RunsOut (stored_view store.old connections.old)
        (stored_view store.new connections.new) conn moment.0 result }
    ensures starts { HasSpaceFor (hub_view store.old.machine connections.old)
        (longest_reply store.old.machine.limits) conn → 0 < length piece.now → 0 < result }
    ensures dropped { is_open_in connections.old conn ≡ false → result ≡ length piece.now }
    ensures adds { Adds result store.old store.new }
{
    if !connections.is_open(conn) {
        return piece.len();
    }
    let mut taken = 0;
    while taken < piece.len() {
        if !has_room(store, connections, conn) {
            return taken;
        }
        taken += take(store, connections, conn, &piece[taken..], moment);
    }
    taken
}
