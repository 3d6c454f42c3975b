//! The server: a hub, the sockets of its connections, and the socket on which new ones come.

ghost use Rattle.std.specs.Prelude.{◌≡◌, ◌≤◌, ◌↔◌, ℕ, Bool, [], true, None, Err};
ghost use Rattle.std.specs.Prelude.{IfErr, IfOk, IsTrue, OnOk};
ghost use Rattle.ipc_wait.specs.Waits.{next_deadline};
ghost use Rattle.ipc_hub.specs.View.{HasStopped};
ghost use Rattle.ipc_server.specs.Runs.{RunsRound, RunsSuch, StopsAt, BreaksOff};
ghost use Rattle.ipc_server.specs.Rounds.{HasParted};
ghost use Rattle.ipc_server.specs.Rest.{IsBusy, longest_wait, until_due};
ghost use Rattle.ipc_server.specs.Rows.{KeepsClients, KeepsFailed};
ghost use Rattle.ipc_server.specs.Streams.{OnlyJoins, SparesBoth};
ghost use Rattle.ipc_server.specs.View.{EachClient, HaveConnections, WasRead, WasWritten};
ghost use Rattle.ipc_server.specs.View.{client_of, has_failed};

use crate::client::Client;
use crate::fault::{ServeFault, ServerError};
use crate::rest::longest_wait;
use crate::rounds::{any_has_work, ask_for_space, put_out_all, serve_all, wake};
use ipc_base::Moment;
use ipc_disk::SectorDisk;
use ipc_hub::Hub;
use ipc_store::CommitError;
use mio::net::{UnixListener, UnixStream};
use mio::{Events, Interest, Poll, Token};
use slab::Slab;
use std::alloc::Global;
use std::io::ErrorKind;
use std::marker::Model;
use std::net::Net;
use std::time::Duration;

/// The most new connections in one turn.
const MOST_ACCEPTS: usize = 64;

/// The most events that one wait gives. Others come with the next.
const MOST_EVENTS: usize = 1024;

/// What events of the listening socket are told by: no client has it.
const LISTENER: Token = Token(usize::MAX);

/// How many milliseconds a wait may take, if there is nothing to do already.
const LONGEST_WAIT: u64 = 100;

/// A server on a Unix socket. A contract sees its hub, and its clients by the number of their connection.
#[derive(Drop)]
pub struct Server<D: SectorDisk> {
    hub: Hub<D>,
    alloc: Global,
    clients: Slab<Client<UnixStream>>,
    listener: UnixListener,
    poll: Poll,
    events: Events,
    /// Connections may wait: the listening socket has told so, and no accept has said since that it
    /// would block.
    may_accept: bool,
    /// More connections may have come than one turn takes, or a turn after which connections may wait
    /// has closed others, so that there is room for one again.
    crowded: bool,
    /// It has waited for something to do already: the next turn waits no more.
    rested: bool,
}

impl<D: SectorDisk> Model for Server<D> {
    ghost use Rattle.std.specs.Coded.{codes};
    ghost use Rattle.sem_undo.specs.Undo.{undo_code};
    ghost use Rattle.ipc_server.specs.View.{ServerView};

    ghost Value = { ServerView D };

    ghost coded = { Prim.hlevel (codes, undo_code) };

    ghost use Rattle.ipc_server.specs.Rows.{clients_of, IsServing};

    ghost view = { λ s. record {
      hub = s.hub;
      clients = clients_of s.clients;
      may_accept = s.may_accept;
      crowded = s.crowded;
    } };

    ghost invariant = { λ s. IsServing s.hub.hub s.clients };
}

/// What was to be served, and why it is not.
#[derive(Drop)]
pub struct Unserved<D: SectorDisk> {
    // First, as the largest: clang takes many minutes over a value of this size that may stand at
    // one offset or, in another variant of a result, some bytes after it.
    pub hub: Hub<D>,
    pub error: ServerError,
    pub listener: UnixListener,
}

// What waits for the sockets, with the listening one among them, and room for what it tells.
fn watch<R: Net + AllocGlobal>(
    rt: &R,
    listener: &mut UnixListener,
) -> Result<(Poll, Events), ServerError>
    ensures { listener.new ≡ listener.old }
{
    let Ok(events) = Events::with_capacity(rt.alloc(), MOST_EVENTS) else {
        return Err(ServerError::NoMemory);
    };
    let Ok(poll) = Poll::new(rt) else {
        return Err(ServerError::Socket);
    };
    match poll
        .registry()
        .register(listener, LISTENER, Interest::READABLE)
    {
        Ok(()) => Ok((poll, events)),
        Err(_) => Err(ServerError::Socket),
    }
}

// Notes what the system has told: that a read of a client may give something, or that connections may
// wait.
fn note_events<S>(events: &Events, clients: &mut Slab<Client<S>>, may_accept: &mut bool)
    ensures { KeepsClients clients.old clients.new }
{
    for event in events {
        let Token(key) = event.token();
        if event.is_readable() || event.is_read_closed() || event.is_error() {
            if event.token() == LISTENER {
                *may_accept = true;
            } else {
                wake(clients, key);
            }
        }
    }
}

impl<D: SectorDisk> Server<D> {
    /// A server of a hub without connections, which are those that come on the socket.
    pub fn new<R: Net + AllocGlobal>(
        rt: &R,
        hub: Hub<D>,
        listener: UnixListener,
    ) -> Result<Server<D>, Unserved<D>>
        requires { hub.hub.connections ≡ [] }
        ensures ok { IfOk result (λ server. server.hub ≡ hub) }
        ensures err { IfErr result (λ unserved. unserved.hub ≡ hub) }
        // It is handed back as it came.
        ensures listener { IfErr result (λ unserved. unserved.listener ≡ listener) }
    {
        let mut listener = listener;
        match watch(rt, &mut listener) {
            Ok((poll, events)) => Ok(Server {
                hub,
                alloc: rt.alloc(),
                clients: Slab::new(rt.alloc()),
                listener,
                poll,
                events,
                may_accept: false,
                crowded: false,
                rested: false,
            }),
            Err(error) => Err(Unserved {
                hub,
                error,
                listener,
            }),
        }
    }

    /// Its hub.
    pub fn hub(&self) -> &Hub<D>
        ensures { result.now ≡ self.now.hub }
    {
        &self.hub
    }

    /// One turn: waits for the sockets, lets time pass, takes new connections, feeds the hub what
    /// the clients have written, makes all of it last at once, writes what the clients may see, and
    /// parts with those that are gone.
    pub fn turn(&mut self, moment: Moment) -> Result<(), ServeFault>
        ensures ok { OnOk result (RunsRound D.medium moment.0 self.old.hub self.new.hub) }
        // The connection of a client that was there before and is there after is neither made nor hung up.
        ensures spares { OnOk result (RunsSuch D.medium moment.0 self.old.hub self.new.hub
            (SparesBoth self.old.clients self.new.clients)) }
        // All of it lasts.
        ensures committed { OnOk result (self.new.hub.store.waiting ≡ 0) }
        // Each client has its connection, and no other connection is there.
        ensures connected { HaveConnections self.new.hub.hub self.new.clients }
        // Of each client nothing may be read, or a piece of it is kept, or its reads are used.
        ensures read { OnOk result (EachClient WasRead self.new.clients) }
        // Each client was sent what it may see, or its socket is full or has failed, or its writes
        // are used.
        ensures written { OnOk result (EachClient (WasWritten self.new.hub.hub) self.new.clients) }
        // If the disk has failed, each client was sent what tells of it, or its socket is full or has failed.
        ensures told { IfErr result (λ fault. fault ≡ ServeFault.Device
            → EachClient (WasWritten self.new.hub.hub) self.new.clients) }
        // A client whose socket has failed before is let go.
        ensures failed { OnOk result ((number : ℕ) → has_failed self.old.clients number ≡ true
            → client_of self.new.clients number ≡ None) }
        // None of the clients that are left is gone.
        ensures parted { OnOk result
            (HasParted D.medium moment.0 self.old.hub self.new.hub self.new.clients) }
        ensures err { IfErr result (λ fault.
            BreaksOff D.medium D.counts moment.0 self.old.hub self.new.hub fault) }
        ensures stopped { HasStopped self.old.hub → result ≡ Err ServeFault.Stopped }
    {
        if self.hub.has_stopped() {
            return Err(ServeFault::Stopped);
        }
        self.wait()?;
        if let Err(error) = self.go_round(moment) {
            put_out_all(&mut self.hub, &mut self.clients);
            return Err(ServeFault::from(error));
        }
        Ok(())
    }

    // What a turn does after the wait.
    fn go_round(&mut self, moment: Moment) -> Result<(), CommitError>
        ensures goes { OnOk result (RunsRound D.medium moment.0 self.old.hub self.new.hub) }
        ensures spares { OnOk result (RunsSuch D.medium moment.0 self.old.hub self.new.hub
            (SparesBoth self.old.clients self.new.clients)) }
        ensures committed { OnOk result (self.new.hub.store.waiting ≡ 0) }
        ensures connected { HaveConnections self.new.hub.hub self.new.clients }
        ensures read { OnOk result (EachClient WasRead self.new.clients) }
        ensures written { OnOk result (EachClient (WasWritten self.new.hub.hub) self.new.clients) }
        ensures failed { OnOk result ((number : ℕ) → has_failed self.old.clients number ≡ true
            → client_of self.new.clients number ≡ None) }
        ensures parted { OnOk result
            (HasParted D.medium moment.0 self.old.hub self.new.hub self.new.clients) }
        ensures breaks { IfErr result (λ e.
            StopsAt D.medium D.counts moment.0 self.old.hub self.new.hub e) }
    {
        self.hub.tick(moment)?;
        self.crowded = self.admit();
        let before = self.clients.len();
        let done = serve_all(&mut self.hub, &mut self.clients, moment);
        // An accept that has failed for want of a descriptor may find one now.
        self.crowded = self.crowded || self.may_accept && self.clients.len() < before;
        done
    }

    // Waits until a socket is ready, or not at all if there is something to do already.
    fn wait(&mut self) -> Result<(), ServeFault>
        ensures same { self.new.hub ≡ self.old.hub }
        ensures failed { KeepsFailed self.old.clients self.new.clients }
        ensures connected { HaveConnections self.new.hub.hub self.new.clients }
        ensures err { IfErr result (λ fault. fault ≡ ServeFault.Socket) }
    {
        if self.rested {
            self.rested = false;
            return self.listen(0);
        }
        self.ask_for_space();
        let longest = if self.is_busy() { 0 } else { LONGEST_WAIT };
        self.listen(longest)
    }

    /// Before it waits for something to do: the system is to tell when the sockets that are full have room
    /// again, and the next turn waits no more.
    pub(crate) fn begin_rest(&mut self)
        ensures { self.new.hub ≡ self.old.hub }
    {
        self.ask_for_space();
        self.rested = true;
    }

    /// How many milliseconds it may wait at a moment for something to do: none if there is something
    /// already, and not past the earliest deadline of the calls that wait.
    pub(crate) fn longest_wait(&self, now: Moment) -> u64
        ensures { (busy : Bool) × (IsTrue busy ↔ IsBusy self.now) × (result ≡ longest_wait now.0
            (next_deadline self.now.hub.hub.state.wait) self.now.may_accept busy) }
    {
        longest_wait(
            now,
            self.hub.next_deadline(),
            self.may_accept,
            self.is_busy(),
        )
    }

    /// Waits for something to do, from a moment on and for so many milliseconds at most. Answers whether
    /// there is something: a socket has told, or connections may wait.
    pub(crate) fn rest_for(&mut self, now: Moment, longest: u64) -> Result<bool, ServeFault>
        requires due { longest ≤ until_due now.0 (next_deadline self.old.hub.hub.state.wait) }
        requires idle { ¬ IsBusy self.old }
        ensures same { self.new.hub ≡ self.old.hub }
        ensures err { IfErr result (λ fault. fault ≡ ServeFault.Socket) }
    {
        self.listen(longest)?;
        Ok(self.may_accept || !self.events.is_empty())
    }

    // Has the system tell when the sockets that are full have room again.
    fn ask_for_space(&mut self)
        ensures same { self.new.hub ≡ self.old.hub }
        ensures failed { KeepsFailed self.old.clients self.new.clients }
        ensures connected { HaveConnections self.new.hub.hub self.new.clients }
    {
        ask_for_space(&mut self.clients, self.poll.registry());
    }

    // Waits for the sockets, so many milliseconds at most, and notes what they tell.
    fn listen(&mut self, longest: u64) -> Result<(), ServeFault>
        ensures same { self.new.hub ≡ self.old.hub }
        ensures failed { KeepsFailed self.old.clients self.new.clients }
        ensures connected { HaveConnections self.new.hub.hub self.new.clients }
        ensures err { IfErr result (λ fault. fault ≡ ServeFault.Socket) }
    {
        let longest = Duration::from_millis(longest);
        if self.poll.poll(&mut self.events, Some(longest)).is_err() {
            return Err(ServeFault::Socket);
        }
        note_events(&self.events, &mut self.clients, &mut self.may_accept);
        Ok(())
    }

    // Whether there is something to do already: with a client, or a new one has come. The system tells of
    // a new one once, and not again in the next turn. A server that goes on no more says so at once.
    fn is_busy(&self) -> bool
        ensures { IsTrue result ↔ IsBusy self.now }
    {
        if self.crowded {
            return true;
        }
        self.hub.has_stopped() || any_has_work(&self.hub, &self.clients)
    }

    // Takes the connections that have come. Answers whether these were as many as a turn takes, so that
    // there may be more. If an accept fails otherwise than that it would block, as without a
    // descriptor, connections may wait still, and the system does not tell of them again.
    fn admit(&mut self) -> bool
        ensures goes { (moment : ℕ) → RunsSuch D.medium moment self.old.hub self.new.hub
            (OnlyJoins self.old.hub.hub self.new.hub.hub) }
        ensures failed { KeepsFailed self.old.clients self.new.clients }
    {
        if !self.may_accept {
            return false;
        }
        for _ in 0..MOST_ACCEPTS {
            match self.listener.accept() {
                Ok((socket, _)) => self.take_client(socket),
                Err(error) => {
                    self.may_accept = error.kind() != ErrorKind::WouldBlock;
                    return false;
                }
            }
        }
        true
    }

    // Takes a new connection, or closes it if something that it needs is refused.
    fn take_client(&mut self, socket: UnixStream)
        ensures goes { (moment : ℕ) → RunsSuch D.medium moment self.old.hub self.new.hub
            (OnlyJoins self.old.hub.hub self.new.hub.hub) }
        ensures failed { KeepsFailed self.old.clients self.new.clients }
    {
        let mut socket = socket;
        let key = self.clients.vacant_key();
        let Ok(conn) = u32::try_from(key) else {
            return;
        };
        if self.clients.reserve(1).is_err() {
            return;
        }
        if self
            .poll
            .registry()
            .register(&mut socket, Token(key), Interest::READABLE)
            .is_err()
        {
            return;
        }
        let Ok(client) = Client::new(self.alloc, conn, socket) else {
            return;
        };
        let Ok(()) = self.hub.connect(conn) else {
            return;
        };
        self.clients.insert_reserved(client);
    }
}
