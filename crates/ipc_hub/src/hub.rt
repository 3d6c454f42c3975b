//! The hub: connections by number, over one store.

ghost use Rattle.std.specs.Prelude.{◌≡◌, ◌≢◌, ◌<◌, ◌≤◌, ◌↔◌, ℕ, List, [], true, false, length};
ghost use Rattle.std.specs.Prelude.{◌==◌, ◌&&◌, ◌||◌, not};
ghost use Rattle.std.specs.Prelude.{drop, take, slice_get, IfOk, IfErr, IsTrue, OnErr, OnOk, Some, Err};
ghost use Rattle.ipc_limits.specs.declared.limits.Limits.{Limits};
ghost use Rattle.ipc_disk.specs.Medium.{IsHonest};
ghost use Rattle.ipc_engine.specs.Event.{PlainEvent};
ghost use Rattle.ipc_store.specs.Histories.{Takes};
ghost use Rattle.ipc_image.specs.Format.{longest_record};
ghost use Rattle.ipc_store.specs.Batch.{most_records};
ghost use Rattle.ipc_store.specs.View.{HasRoomFor, HasTurned, IsReadyFor, Spends, events_left};
ghost use Rattle.ipc_wait.specs.Waits.{next_deadline};
ghost use Rattle.ipc_hub.specs.Clients.{Clients, no_clients, connect, hangup, tick, consume, shown_at, ended_at};
ghost use Rattle.ipc_hub.specs.View.{HasFewFrames, HasNoFrame, HasStopped, ended_of, is_connected, numbers_of};
ghost use Rattle.ipc_hub.specs.View.{output_of};
ghost use Rattle.ipc_hub.specs.View.{most_events};
ghost use Rattle.ipc_hub.specs.Relations.Matches.{HubMatches, StoredMatches, Simulates, Serves, ServesFeed};
ghost use Rattle.ipc_hub.specs.Relations.Faults.{Advances, Halts, Joins, Lasts, Refuses, RefusesFeed, Settles};
ghost use Rattle.ipc_hub.specs.Relations.Faults.{TakesPiece};
ghost use Rattle.ipc_hub.specs.Relations.Invariant.{SameButSeen};
ghost use Rattle.ipc_hub.specs.Relations.Requests.{CanTake};

use crate::connection::{Connection, Session};
use crate::connections::Connections;
use crate::fault::{ConnectError, ServeError};
use crate::serving;
use ipc_base::Moment;
use ipc_disk::SectorDisk;
use ipc_image::LONGEST_RECORD;
use ipc_store::{CommitError, EXIT_RECORD, Store, TICK_RECORD};
use std::alloc::{AllocError, Global};
use std::marker::Model;

/// How many events a call may come to while a connection keeps no frame, and one more: a tick, a request whose reply
/// comes later, and the next one, which has its reply at once. So many have to be left to count.
const MOST_EVENTS: usize = 3;

/// The server as its clients see it: bytes in, bytes out. A frame is seen once its event was made to last. A contract
/// sees its limits, the state of its machine, its connections by number, and its store.
#[derive(Drop)]
pub struct Hub<D: SectorDisk> {
    alloc: Global,
    store: Store<D>,
    connections: Connections,
    /// The bytes that it took from clients so far, and those that they took, at most 18446744073709551615 each.
    received: u64,
    sent: u64,
}

impl<D: SectorDisk> Model for Hub<D> {
    ghost use Rattle.std.specs.Coded.{codes};
    ghost use Rattle.sem_undo.specs.Undo.{undo_code};
    ghost use Rattle.ipc_hub.specs.View.{StoredHub};

    ghost Value = { StoredHub D };

    ghost coded = { Prim.hlevel (codes, undo_code) };

    ghost use Rattle.ipc_hub.specs.Relations.Rows.{stored_view};
    ghost use Rattle.ipc_hub.specs.Relations.Invariant.{StoredInvariant};

    ghost view = { λ h. stored_view h.store h.connections };

    ghost invariant = { λ h. StoredInvariant (stored_view h.store h.connections) };
}

impl<D: SectorDisk> Hub<D> {
    ghost use Rattle.std.specs.Prelude.{◌^◌, ◌+◌};
    ghost use Rattle.ipc_base.specs.Table.{keys_of, seen_as, IsRising};
    ghost use Rattle.ipc_hub.specs.Relations.Delivery.{released};
    ghost use Rattle.ipc_hub.specs.Relations.Rows.{rows};

    /// A hub without connections. It takes no memory.
    pub fn new(alloc: Global, store: Store<D>) -> Hub<D>
        ensures matches { (events : List PlainEvent) → length events ≡ store.confirmed + store.waiting
            → StoredMatches store.machine.limits result (no_clients store.machine.state events) }
        ensures empty { result.hub.connections ≡ [] }
        ensures store { result.store ≡ store }
    {
        Hub {
            alloc,
            store,
            connections: Connections::new(alloc),
            received: 0,
            sent: 0,
        }
    }

    /// Adds a connection under a number that is not in use. All that it will ever need is taken now.
    /// After a refusal nothing has changed.
    pub fn connect(&mut self, conn: u32) -> Result<(), ConnectError>
        ensures ok { OnOk result (Simulates self.old.hub self.new.hub (λ _ h. connect h conn)) }
        ensures joins { OnOk result ((other : ℕ) → is_connected self.new.hub other
            ≡ (other == conn || is_connected self.old.hub other)) }
        ensures store { self.new.store ≡ self.old.store }
        ensures stopped { (result ≡ Err ConnectError.Stopped) ↔ HasStopped self.old }
        ensures in_use { (result ≡ Err ConnectError.InUse)
            ↔ ((¬ HasStopped self.old) × (is_connected self.old.hub conn ≡ true)) }
        ensures err { OnErr result (self.new ≡ self.old) }
    {
        if self.has_stopped() {
            return Err(ConnectError::Stopped);
        }
        if self.connections.contains(conn) {
            return Err(ConnectError::InUse);
        }
        match self.add(conn) {
            Ok(()) => Ok(()),
            Err(AllocError) => Err(ConnectError::NoMemory),
        }
    }

    fn add(&mut self, conn: u32) -> Result<(), AllocError>
        requires free { is_connected self.old.hub conn ≡ false }
        requires running { ¬ HasStopped self.old }
        ensures { Joins self.old self.new conn result }
    {
        let engine = self.store.engine();
        let replies = engine.most_owed() + engine.limits().longest_reply() as usize;
        let session = Session::new(self.alloc, replies)?;
        self.connections.insert(conn, session)?;
        Ok(())
    }

    /// Gives a connection the next bytes of its stream, at a moment. Answers how many it took: all of them if
    /// no frame of the connection is kept when it returns, or if the server has ended it. Requests are taken
    /// while the longest reply has room after the frames that are kept and those that are owed, and the longest record
    /// among those that wait; of a connection that keeps at most 4096 bytes of frames at least one byte is taken. If
    /// the records of a tick and of a longest request may have no room, the call begins with a release; if later a
    /// longest record has none and no frame of the connection is kept, it releases then, and goes on. Either release
    /// may fail, and be `Stopped` once if the epochs are at their end.
    pub fn feed(&mut self, conn: u32, piece: &[u8], moment: Moment) -> Result<usize, ServeError>
        ensures ok { IfOk result (λ taken.
            ServesFeed D.medium self.old self.new conn (take taken piece.now) moment.0) }
        ensures within { IfOk result (λ taken. taken ≤ length piece.now) }
        ensures whole { IfOk result (λ taken. HasNoFrame self.new.hub conn → taken ≡ length piece.now) }
        ensures starts { HasFewFrames self.old.hub conn → 0 < length piece.now → IfOk result (λ taken. 0 < taken) }
        ensures dropped { ended_of self.old.hub conn ≡ true → IfOk result (λ taken. taken ≡ length piece.now) }
        ensures numbers { numbers_of self.new.hub ≡ numbers_of self.old.hub }
        ensures refused { IfErr result (λ e.
            RefusesFeed D.medium D.counts self.old self.new conn piece.now moment.0 e) }
        ensures stopped { HasStopped self.old → result ≡ Err ServeError.Stopped }
        ensures unknown { ¬ HasStopped self.old → is_connected self.old.hub conn ≡ false
            → result ≡ Err ServeError.Unknown }
        ensures spends { IfOk result (λ taken. Spends D.counts (3 + taken) self.old.store self.new.store) }
        ensures honest { IsHonest (D.medium self.old.store.disk) → IsHonest (D.medium self.new.store.disk) }
    {
        if self.has_stopped() {
            return Err(ServeError::Stopped);
        }
        if !self.focus(conn) {
            return Err(ServeError::Unknown);
        }
        if let Err(error) = self.advance(moment, LONGEST_RECORD as usize) {
            return Err(ServeError::from(error));
        }
        match self.serve(conn, piece, moment) {
            Ok(taken) => {
                self.received = self.received.saturating_add(taken as u64);
                Ok(taken)
            }
            Err(error) => Err(ServeError::from(error)),
        }
    }

    // Whether a connection has the number. If so, it is looked for no more in what follows: it is looked at first.
    fn focus(&mut self, conn: u32) -> bool
        ensures found { result ≡ is_connected self.old.hub conn }
        ensures same { self.new ≡ self.old }
    {
        self.connections.focus(conn)
    }

    // Takes in bytes of a piece, once time has passed. If the connection keeps no frame, all are to be taken. So if the
    // store then has no room for its next request, what waits is made to last, and the rest is taken in. That is so
    // once at most: one of these requests waits to be answered, and the next one leaves a frame.
    fn serve(&mut self, conn: u32, piece: &[u8], moment: Moment) -> Result<usize, CommitError>
        requires later { 0 < self.old.store.waiting }
        requires can { CanTake self.old conn moment.0 }
        ensures { TakesPiece D.medium D.counts self.old self.new conn piece.now moment.0 result }
    {
        let taken = serving::take_in(&mut self.store, &mut self.connections, conn, piece, moment);
        if taken == piece.len() {
            return Ok(taken);
        }
        if !self.connections.has_no_frame(conn) {
            return Ok(taken);
        }
        if let Err(error) = self.make_last(false) {
            return Err(error);
        }
        let rest = &piece[taken..];
        let more = serving::take_in(&mut self.store, &mut self.connections, conn, rest, moment);
        Ok(taken + more)
    }

    /// The client is gone, at a moment: its process leaves, its frames are dropped, its number is free.
    pub fn hangup(&mut self, conn: u32, moment: Moment) -> Result<(), ServeError>
        ensures ok { OnOk result (Serves D.medium self.old self.new (λ limits h. hangup limits h conn moment.0)) }
        ensures leaves { OnOk result ((other : ℕ) → is_connected self.new.hub other
            ≡ (not (other == conn) && is_connected self.old.hub other)) }
        ensures stays { OnErr result (numbers_of self.new.hub ≡ numbers_of self.old.hub) }
        ensures refused { IfErr result (λ e. Refuses D.medium D.counts self.old self.new conn e) }
        ensures stopped { HasStopped self.old → result ≡ Err ServeError.Stopped }
        ensures unknown { ¬ HasStopped self.old → is_connected self.old.hub conn ≡ false
            → result ≡ Err ServeError.Unknown }
        ensures spends { OnOk result (Spends D.counts 3 self.old.store self.new.store) }
        ensures honest { IsHonest (D.medium self.old.store.disk) → IsHonest (D.medium self.new.store.disk) }
    {
        if self.has_stopped() {
            return Err(ServeError::Stopped);
        }
        if !self.connections.contains(conn) {
            return Err(ServeError::Unknown);
        }
        if let Err(error) = self.advance(moment, EXIT_RECORD) {
            return Err(ServeError::from(error));
        }
        let process = self.connections.remove(conn);
        serving::leave(&mut self.store, &mut self.connections, process, moment);
        Ok(())
    }

    /// Time passes: the clock is the greatest moment so far.
    pub fn tick(&mut self, moment: Moment) -> Result<(), CommitError>
        ensures ok { OnOk result (Serves D.medium self.old self.new (λ limits h. tick limits h moment.0)) }
        ensures numbers { numbers_of self.new.hub ≡ numbers_of self.old.hub }
        ensures refused { IfErr result (λ e. Halts D.medium D.counts self.old self.new e) }
        ensures stopped { HasStopped self.old → result ≡ Err CommitError.Stopped }
        ensures spends { OnOk result (Spends D.counts 2 self.old.store self.new.store) }
        ensures honest { IsHonest (D.medium self.old.store.disk) → IsHonest (D.medium self.new.store.disk) }
    {
        if self.has_stopped() {
            return Err(CommitError::Stopped);
        }
        self.advance(moment, 0)
    }

    // Time passes, and records of `more` bytes have room then. The call begins with a release if these and the tick's
    // have no room.
    fn advance(&mut self, moment: Moment, more: usize) -> Result<(), CommitError>
        requires running { ¬ HasStopped self.old }
        requires fits { more ≤ longest_record }
        ensures { Advances D.medium D.counts self.old self.new moment.0 more result }
    {
        if let Err(error) = self.make_space(TICK_RECORD + more) {
            return Err(error);
        }
        serving::tick(&mut self.store, &mut self.connections, moment);
        Ok(())
    }

    /// Makes all events that wait last, and lets their frames be seen. If the disk fails, the frames that could be seen
    /// stay, the others are dropped, an EIO frame is the last of each connection, which has ended, and the hub goes on
    /// no more. If the epochs are at their end the hub stops in this way too, and answers `Stopped`.
    pub fn release(&mut self) -> Result<(), CommitError>
        ensures ok { OnOk result ((limits : Limits) (h : Clients) → StoredMatches limits self.old h
            → StoredMatches limits self.new h) }
        ensures takes { Takes D.medium self.old.store [] self.new.store }
        ensures all { OnOk result (self.new.hub.connections ≡ seen_as released self.old.hub.connections) }
        ensures numbers { numbers_of self.new.hub ≡ numbers_of self.old.hub }
        ensures confirmed { OnOk result (self.new.store.confirmed
            ≡ self.old.store.confirmed + self.old.store.waiting) }
        ensures waiting { OnOk result (self.new.store.waiting ≡ 0) }
        ensures ready { OnOk result (IsReadyFor self.new.store most_records most_events) }
        ensures nothing { self.old.store.waiting ≡ 0 → self.new.store ≡ self.old.store }
        ensures refused { IfErr result (λ e. Halts D.medium D.counts self.old self.new e) }
        ensures stopped { HasStopped self.old → result ≡ Err CommitError.Stopped }
        ensures spends { OnOk result (Spends D.counts 1 self.old.store self.new.store) }
        ensures honest { IsHonest (D.medium self.old.store.disk) → IsHonest (D.medium self.new.store.disk) }
    {
        if self.has_stopped() {
            return Err(CommitError::Stopped);
        }
        self.make_last(false)
    }

    /// Does what `release` does, by a checkpoint of the whole state. It writes also if no event waits.
    pub fn save(&mut self) -> Result<(), CommitError>
        ensures ok { OnOk result ((limits : Limits) (h : Clients) → StoredMatches limits self.old h
            → StoredMatches limits self.new h) }
        ensures takes { Takes D.medium self.old.store [] self.new.store }
        ensures all { OnOk result (self.new.hub.connections ≡ seen_as released self.old.hub.connections) }
        ensures numbers { numbers_of self.new.hub ≡ numbers_of self.old.hub }
        ensures confirmed { OnOk result (self.new.store.confirmed
            ≡ self.old.store.confirmed + self.old.store.waiting) }
        ensures waiting { OnOk result (self.new.store.waiting ≡ 0) }
        ensures ready { OnOk result (IsReadyFor self.new.store most_records most_events) }
        // What stands on the disk is the whole state.
        ensures turned { OnOk result (HasTurned self.old.store self.new.store) }
        ensures refused { IfErr result (λ e. Halts D.medium D.counts self.old self.new e) }
        ensures stopped { HasStopped self.old → result ≡ Err CommitError.Stopped }
        ensures spends { OnOk result (Spends D.counts 1 self.old.store self.new.store) }
        ensures honest { IsHonest (D.medium self.old.store.disk) → IsHonest (D.medium self.new.store.disk) }
    {
        if self.has_stopped() {
            return Err(CommitError::Stopped);
        }
        self.make_last(true)
    }

    // Makes all events that wait last, by a commit, or by a checkpoint of the whole state, and tells the connections.
    fn make_last(&mut self, whole: bool) -> Result<(), CommitError>
        requires { 1 ≤ events_left self.old.store }
        ensures settles { Settles D.medium D.counts self.old self.new result }
        ensures lasts { OnOk result (Lasts self.old self.new) }
        ensures nothing { whole ≡ false → self.old.store.waiting ≡ 0 → self.new.store ≡ self.old.store }
        ensures turned { whole ≡ true → OnOk result (HasTurned self.old.store self.new.store) }
    {
        let done = if whole {
            self.store.save()
        } else {
            self.store.commit()
        };
        self.connections.after_commit(done);
        done
    }

    /// Whether the hub goes on no more: the disk has failed, or the events or the epochs are at their end.
    pub fn has_stopped(&self) -> bool
        ensures { IsTrue result ↔ HasStopped self.now }
    {
        self.store.events_left() < MOST_EVENTS as u64
    }

    /// The earliest deadline of the calls that wait, in milliseconds since 1970. The first call at that moment or later
    /// ends what waited until then.
    pub fn next_deadline(&self) -> Option<Moment>
        ensures { result ≡ next_deadline self.now.hub.state.wait }
    {
        self.store.engine().next_deadline()
    }

    // Releases if records of so many bytes have no room among those that wait.
    fn make_space(&mut self, bytes: usize) -> Result<(), CommitError>
        requires left { 1 ≤ events_left self.old.store }
        requires fits { bytes ≤ most_records }
        ensures settles { Settles D.medium D.counts self.old self.new result }
        ensures same { OnOk result (SameButSeen self.old.hub self.new.hub) }
        ensures room { OnOk result (HasRoomFor self.new.store bytes) }
        ensures left { OnOk result (events_left self.new.store ≡ events_left self.old.store) }
    {
        if self.store.has_room_for(bytes) {
            return Ok(());
        }
        self.make_last(false)
    }

    /// The connections, in rising number.
    pub fn connections(&self) -> &[Connection]
        ensures rows { rows result.now ≡ self.now.hub.connections }
        ensures rising { IsRising 0 (keys_of self.now.hub.connections) (2 ^ 32) }
    {
        self.connections.all()
    }

    /// Whether the connection at this place among them all has this number, and nothing to say: no byte that its client
    /// may see, and no end. Who walks all connections asks this first, since it takes no search.
    pub fn is_silent(&self, place: usize, conn: u32) -> bool
        ensures { IsTrue result ↔ ((slice_get (keys_of self.now.hub.connections) place ≡ Some conn)
            × (output_of self.now.hub conn ≡ []) × (ended_of self.now.hub conn ≡ false)) }
    {
        self.connections.is_silent(place, conn)
    }

    /// The bytes that the client of a connection may see. If no connection has the number, there are none.
    pub fn output(&self, conn: u32) -> &[u8]
        ensures shown { (limits : Limits) (confirmed : ℕ) (h : Clients) → HubMatches limits confirmed self.now.hub h
            → result.now ≡ shown_at confirmed h conn }
        ensures bytes { result.now ≡ output_of self.now.hub conn }
    {
        self.connections.output(conn)
    }

    /// The client has taken the first `count` bytes of its output.
    pub fn consume(&mut self, conn: u32, count: usize)
        requires { count ≤ length (output_of self.old.hub conn) }
        ensures ok { Simulates self.old.hub self.new.hub (λ _ h. consume h conn count) }
        ensures output { output_of self.new.hub conn ≡ drop count (output_of self.old.hub conn) }
        // The other clients may see what they could.
        ensures others { (other : ℕ) → other ≢ conn
            → output_of self.new.hub other ≡ output_of self.old.hub other }
        ensures numbers { numbers_of self.new.hub ≡ numbers_of self.old.hub }
        ensures store { self.new.store ≡ self.old.store }
    {
        self.connections.consume(conn, count);
        self.sent = self.sent.saturating_add(count as u64);
    }

    /// Whether the server has ended a connection; not so where none has the number.
    pub fn ended(&self, conn: u32) -> bool
        ensures server { (limits : Limits) (confirmed : ℕ) (h : Clients)
            → HubMatches limits confirmed self.now.hub h → result ≡ ended_at h conn }
        ensures ended { result ≡ ended_of self.now.hub conn }
    {
        self.connections.ended(conn)
    }

    /// Its store.
    pub fn store(&self) -> &Store<D>
        ensures { result.now ≡ self.now.store }
    {
        &self.store
    }

    /// How many bytes it took from clients so far.
    pub fn received(&self) -> u64 {
        self.received
    }

    /// How many bytes clients have taken so far.
    pub fn sent(&self) -> u64 {
        self.sent
    }

    /// The store as it is; the connections, and frames that wait, are gone.
    pub fn close(self) -> Store<D>
        ensures store { result ≡ self.store }
        // Its machine is the one that the connections had.
        ensures limits { result.machine.limits ≡ self.hub.limits }
        ensures state { result.machine.state ≡ self.hub.state }
    {
        self.store
    }
}
