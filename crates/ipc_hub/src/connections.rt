//! The connections of a hub, by number: found, put in and taken out, and what is done to each.

ghost use Rattle.std.specs.Prelude.{◌≡◌, ◌==◌, ◌<◌, ◌≤◌, ◌^◌, ◌↔◌, ℕ, Some, None, true, false, []};
ghost use Rattle.std.specs.Prelude.{length, map, get_or, slice_get, position, is_some, nat_eq};
ghost use Rattle.std.specs.Prelude.{IfSome, IsTrue, OnOk, OnErr};
ghost use Rattle.std.specs.Option.{option_copied, option_copied_mut};
ghost use Rattle.std.specs.Borrow.{sem};
ghost use Rattle.ipc_base.specs.Table.{keys_of, value_at, with_entry, without, seen_as, EachValue, IsRising};
ghost use Rattle.ipc_engine.specs.View.{plain_outcome};
ghost use Rattle.ipc_hub.specs.declared.connection.Connection.{Connection};
ghost use Rattle.ipc_hub.specs.Hub.{is_for};
ghost use Rattle.ipc_hub.specs.View.{IsBare};
ghost use Rattle.ipc_hub.specs.Relations.Delivery.{released, failed, consumed, put_for, put_all};
ghost use Rattle.ipc_hub.specs.Relations.Delivery.{HasSpare, IsShort, HasSpaceIn, HaveSpace, HasSpaceFor};
ghost use Rattle.ipc_hub.specs.Relations.Invariant.{AreApart};
ghost use Rattle.ipc_hub.specs.Relations.Rows.{pid_of, rows, hub_view, changed};
ghost use Rattle.ipc_hub.specs.Relations.Rows.{process_in, is_open_in, ended_in, output_in};
ghost use Rattle.ipc_hub.specs.Relations.Lends.{lends_session};

use crate::connection::{Connection, Session};
use ipc_base::Pid;
use ipc_engine::{Engine, Outcome};
use ipc_store::CommitError;
use std::alloc::{AllocError, Global};
use std::marker::Model;

/// Connections, in rising number. A contract sees the table of their sessions.
#[derive(Drop)]
pub(crate) struct Connections {
    items: Vec<Connection>,
    /// The place that is looked at before all others: where the connection was that was sought last.
    hint: usize,
}

impl Model for Connections {
    ghost use Rattle.std.specs.Prelude.{◌^◌};
    ghost use Rattle.ipc_base.specs.Table.{keys_of, IsRising};
    ghost use Rattle.ipc_hub.specs.Relations.Rows.{Table, rows};

    ghost Value = { Table };

    ghost view = { λ c. rows c.items.items };

    ghost invariant = { λ c. IsRising 0 (keys_of (rows c.items.items)) (2 ^ 32) };
}

impl Connections {
    pub(crate) fn new(alloc: Global) -> Connections
        ensures { result ≡ [] }
    {
        Connections {
            items: Vec::new(alloc),
            hint: 0,
        }
    }

    /// All of them, in rising number.
    pub(crate) fn all(&self) -> &[Connection]
        ensures rows { rows result.now ≡ self.now }
        ensures rising { IsRising 0 (keys_of self.now) (2 ^ 32) }
    {
        &self.items
    }

    /// Whether a connection has the number, which is looked at before all others from now on.
    pub(crate) fn focus(&mut self, conn: u32) -> bool
        ensures found { result ≡ is_some (value_at nat_eq self.old conn) }
        ensures same { self.new ≡ self.old }
    {
        self.hint = place_for(&self.items, conn);
        self.contains(conn)
    }

    /// The connection that has the number.
    pub(crate) fn get(&self, conn: u32) -> Option<&Session>
        ensures { option_copied result ≡ value_at nat_eq self.now conn }
    {
        let place = place_from(&self.items, self.hint, conn)?;
        Some(&self.items[place].session)
    }

    /// The connection that has the number, to be changed.
    pub(crate) fn get_mut(&mut self, conn: u32) -> Option<&mut Session>
        ensures* writes_back { sem 𝓛 (lends_session self.entry conn result) }
        ensures found { option_copied_mut result ≡ value_at nat_eq self.old conn }
    {
        let place = place_from(&self.items, self.hint, conn)?;
        let connection = &mut self.items[place];
        Some(&mut connection.session)
    }

    /// Whether a connection has the number.
    pub(crate) fn contains(&self, conn: u32) -> bool
        ensures { result ≡ is_some (value_at nat_eq self.now conn) }
    {
        self.get(conn).is_some()
    }

    /// Whether a connection has the number, and the server has not ended it.
    pub(crate) fn is_open(&self, conn: u32) -> bool
        ensures { result ≡ is_open_in self.now conn }
    {
        match self.get(conn) {
            Some(session) => !session.ended(),
            None => false,
        }
    }

    /// Whether the server has ended the connection that has the number; not so where there is none.
    pub(crate) fn ended(&self, conn: u32) -> bool
        ensures { result ≡ ended_in self.now conn }
    {
        match self.get(conn) {
            Some(session) => session.ended(),
            None => false,
        }
    }

    /// Whether no frame is kept of the connection that has the number, if there is one.
    pub(crate) fn has_no_frame(&self, conn: u32) -> bool
        ensures { IsTrue result ↔ IsBare (value_at nat_eq self.now conn) }
    {
        match self.get(conn) {
            Some(session) => session.has_no_frame(),
            None => true,
        }
    }

    /// The bytes that the client of a connection may see. If no connection has the number, there are none.
    pub(crate) fn output(&self, conn: u32) -> &[u8]
        ensures { result.now ≡ output_in self.now conn }
    {
        match self.get(conn) {
            Some(session) => session.output(),
            None => &[],
        }
    }

    /// Whether the connection at this place among them all has this number, and nothing to say: no byte that its client
    /// may see, and no end.
    pub(crate) fn is_silent(&self, place: usize, conn: u32) -> bool
        ensures { IsTrue result ↔ ((slice_get (keys_of self.now) place ≡ Some conn)
            × (output_in self.now conn ≡ []) × (ended_in self.now conn ≡ false)) }
    {
        let Some(connection) = self.items.get(place) else {
            return false;
        };
        if connection.number != conn {
            return false;
        }
        connection.session.is_silent()
    }

    /// The client of a connection has taken the first `count` bytes of its output.
    pub(crate) fn consume(&mut self, conn: u32, count: usize)
        requires { count ≤ length (output_in self.old conn) }
        ensures { self.new ≡ changed (consumed count) conn self.old }
    {
        if let Some(session) = self.get_mut(conn) {
            session.consume(count);
        }
    }

    /// Whether in a connection, if it goes on, what its process is owed has room, and after it a reply of so many
    /// bytes and the last frames.
    pub(crate) fn has_space(&self, conn: u32, engine: &Engine, reply: u32) -> bool
        ensures { IsTrue result ↔ HasSpaceFor (hub_view engine.now self.now) reply conn }
    {
        match self.get(conn) {
            Some(session) => session.ended() || session.has_space(engine, reply),
            None => true,
        }
    }

    /// Puts in a connection at its place, under a number that is not in use.
    pub(crate) fn insert(&mut self, conn: u32, session: Session) -> Result<(), AllocError>
        requires { value_at nat_eq self.old conn ≡ None }
        ensures ok { OnOk result (self.new ≡ with_entry self.old conn session) }
        ensures err { OnErr result (self.new ≡ self.old) }
    {
        let place = place_for(&self.items, conn);
        let connection = Connection {
            number: conn,
            session,
        };
        self.items.insert(place, connection)?;
        Ok(())
    }

    /// Takes out the connection that has the number. Answers its process, if it had one.
    pub(crate) fn remove(&mut self, conn: u32) -> Option<Pid>
        ensures process { pid_of result ≡ process_in self.old conn }
        ensures left { self.new ≡ without nat_eq self.old conn }
    {
        let place = place_of(&self.items, conn)?;
        let connection = self.items.remove(place);
        connection.session.process()
    }

    /// They learn what a commit or a save has come to. If it is done, the frames that wait are seen; if it has failed,
    /// they are dropped, and an EIO frame is the last of each.
    pub(crate) fn after_commit(&mut self, done: Result<(), CommitError>)
        requires { EachValue HasSpare self.old }
        ensures ok { OnOk done (self.new ≡ seen_as released self.old) }
        ensures err { OnErr done (self.new ≡ seen_as failed self.old) }
    {
        match done {
            Ok(()) => release_all(&mut self.items),
            Err(_) => fail_all(&mut self.items),
        }
    }

    /// Puts each reply into the outbox of its process. If no connection has the process, the reply is dropped.
    pub(crate) fn deliver(&mut self, outcomes: &[Outcome])
        requires apart { AreApart self.old }
        requires space { HaveSpace (map plain_outcome outcomes.now) self.old }
        ensures { self.new ≡ put_all (map plain_outcome outcomes.now) self.old }
    {
        for outcome in outcomes {
            self.put(outcome);
        }
    }

    /// Puts a reply into the outbox of its process, which no two connections have. The connection that was sought last
    /// is looked at before all others, since most replies are for who asked.
    fn put(&mut self, outcome: &Outcome)
        requires apart { AreApart self.old }
        requires short { IsShort (plain_outcome outcome.now) }
        requires space { EachValue (HasSpaceIn (plain_outcome outcome.now)) self.old }
        ensures { self.new ≡ seen_as (put_for (plain_outcome outcome.now)) self.old }
    {
        if let Some(place) = place_of_process(&self.items, self.hint, outcome.pid) {
            let connection = &mut self.items[place];
            connection.session.push(&outcome.reply());
        }
    }
}

/// How many connections have a smaller number.
fn place_for(connections: &[Connection], conn: u32) -> usize
    requires { IsRising 0 (keys_of (rows connections.now)) (2 ^ 32) }
    ensures within { result ≤ length connections.now }
    ensures below { (k : ℕ) (d : Connection) → k < result → (get_or connections.now k d).number < conn }
    ensures rest { (k : ℕ) (d : Connection) → result ≤ k → k < length connections.now
        → conn ≤ (get_or connections.now k d).number }
{
    connections.partition_point(|connection| connection.number < conn)
}

/// The place of the connection that has the number.
fn place_of(connections: &[Connection], conn: u32) -> Option<usize>
    requires { IsRising 0 (keys_of (rows connections.now)) (2 ^ 32) }
    ensures { result ≡ position (λ c. c.number == conn) connections.now }
{
    let place = place_for(connections, conn);
    if place == connections.len() {
        return None;
    }
    let connection = &connections[place];
    if connection.number != conn {
        return None;
    }
    Some(place)
}

/// The place of the connection that has the number. The one at the place `first`, if there is one, is looked at before
/// all others.
fn place_from(connections: &[Connection], first: usize, conn: u32) -> Option<usize>
    requires { IsRising 0 (keys_of (rows connections.now)) (2 ^ 32) }
    ensures { result ≡ position (λ c. c.number == conn) connections.now }
{
    if let Some(connection) = connections.get(first) {
        if connection.number == conn {
            return Some(first);
        }
    }
    place_of(connections, conn)
}

/// Lets the frames that wait on each connection be seen.
fn release_all(connections: &mut [Connection])
    ensures { rows connections.new ≡ seen_as released (rows connections.old) }
{
    for connection in connections.iter_mut() {
        connection.session.release();
    }
}

/// The disk has failed: the frames that wait on each connection are dropped, and an EIO frame is its last.
fn fail_all(connections: &mut [Connection])
    requires { EachValue HasSpare (rows connections.old) }
    ensures { rows connections.new ≡ seen_as failed (rows connections.old) }
{
    for connection in connections.iter_mut() {
        connection.session.fail();
    }
}

/// The place of a connection that has the process. The one at the place `first`, if there is one, is looked at before
/// all others.
fn place_of_process(connections: &[Connection], first: usize, pid: Pid) -> Option<usize>
    ensures within { IfSome result (λ place. place < length connections.now) }
    ensures found { (d : Connection) → IfSome result (λ place.
        is_for pid.0 (get_or connections.now place d).session.process ≡ true) }
    ensures none { result ≡ None → (k : ℕ) (d : Connection) → k < length connections.now
        → is_for pid.0 (get_or connections.now k d).session.process ≡ false }
{
    if let Some(connection) = connections.get(first) {
        if connection.session.has(pid) {
            return Some(first);
        }
    }
    connections
        .iter()
        .position(|connection| connection.session.has(pid))
}
