//! The client of a connection: its socket, and what was read of it.

ghost use Rattle.std.specs.Prelude.{◌≡◌, ◌≢◌, ◌<◌, ◌+◌, ◌==◌, ◌&&◌, ◌||◌, ℕ, not, true, false};
ghost use Rattle.std.specs.Prelude.{[]};
ghost use Rattle.std.specs.Prelude.{IfErr, IfOk, OnOk};
ghost use Rattle.std.specs.Io.KnownBytes.{Keeps, prepend_known};
ghost use Rattle.ipc_hub.specs.View.{numbers_of, output_of};
ghost use Rattle.ipc_server.specs.Runs.{FeedsInput, WritesOutput, StopsAt};
ghost use Rattle.ipc_server.specs.Rest.{has_work};
ghost use Rattle.ipc_server.specs.Rows.{view_of};
ghost use Rattle.ipc_server.specs.View.{WasRead, WasWritten, is_gone, most_reads};

use bytes::BytesMut;
use ipc_base::Moment;
use ipc_disk::SectorDisk;
use ipc_hub::{Hub, ServeError};
use ipc_store::CommitError;
use mio::event::Source;
use mio::{Interest, Registry, Token};
use std::alloc::{AllocError, Global};
use std::io::{ErrorKind, Read, Write};

/// The most bytes that one read may give.
const PIECE: usize = 4096;

/// The most reads of a client in one turn.
const MOST_READS: usize = 16;

/// The most writes to a client, each time that it is written to.
const MOST_WRITES: usize = 16;

/// The socket of a connection, and what is known of it. Its reads and writes do not block.
#[derive(Drop)]
pub(crate) struct Client<S> {
    conn: u32,
    socket: S,
    /// What was read, and the hub has not taken.
    piece: BytesMut,
    /// A read may give something: none has said since that it would block.
    readable: bool,
    /// How many reads of it were made in the last turn that has read it.
    reads: usize,
    /// The socket took no more bytes when it was last written to.
    full: bool,
    /// The system was asked to tell when the socket has room again.
    asked: bool,
    /// A write to its socket has failed. It is over once a turn parts with those that are gone.
    failed: bool,
    /// How many writes were made when it was last written to.
    writes: usize,
    /// Its connection is to be hung up: the end of its input was read, its socket has failed, or the
    /// server has ended it and all that it may see was written.
    over: bool,
}

impl<S> Client<S> {
    /// The client of a new connection. All that it will ever need is taken now.
    pub fn new(alloc: Global, conn: u32, socket: S) -> Result<Client<S>, AllocError>
    where
        S: Drop,
        ensures conn { IfOk result (λ client. client.conn ≡ conn) }
        ensures socket { IfOk result (λ client. client.socket ≡ socket) }
        ensures nothing { IfOk result (λ client. client.piece.items ≡ []) }
        ensures ready { IfOk result (λ client. (client.readable ≡ true) × (client.over ≡ false)) }
        ensures empty { IfOk result (λ client. (client.full ≡ false) × (client.asked ≡ false)) }
    {
        Ok(Client {
            conn,
            socket,
            piece: BytesMut::with_capacity(alloc, PIECE)?,
            readable: true,
            reads: 0,
            full: false,
            asked: false,
            failed: false,
            writes: 0,
            over: false,
        })
    }

    /// The number of its connection.
    pub fn conn(&self) -> u32
        ensures { result ≡ self.now.conn }
    {
        self.conn
    }

    /// The system says that a read may give something.
    pub fn wake(&mut self)
        ensures { self.new ≡ record self.old { readable = true } }
    {
        self.readable = true;
    }

    /// Whether a turn has something to do with it: to part with it, to read it, to feed what was read,
    /// or to write more to it. One that does not read what it is sent has to wait.
    pub fn has_work<D: SectorDisk>(&self, hub: &Hub<D>) -> bool
        ensures { result ≡ has_work hub.now.hub (view_of self.now) }
    {
        self.is_gone(hub)
            || self.failed
            || !self.full && (self.readable || !self.piece.is_empty() || self.writes == MOST_WRITES)
    }

    // Whether it is over, or the server has ended its connection and all that it may see was written.
    fn is_gone<D: SectorDisk>(&self, hub: &Hub<D>) -> bool
        ensures { result ≡ is_gone hub.now.hub (view_of self.now) }
    {
        self.over || hub.ended(self.conn) && hub.output(self.conn).is_empty()
    }

    /// Whether its connection is to be hung up.
    pub fn is_over(&self) -> bool
        ensures { result ≡ self.now.over }
    {
        self.over
    }

    /// Its connection is to be hung up if its socket has failed, or if the server has ended it and all
    /// that it may see was written.
    pub fn note_end<D: SectorDisk>(&mut self, hub: &Hub<D>)
        ensures { self.new ≡ record self.old {
          over = is_gone hub.now.hub (view_of self.old) || self.old.failed;
        } }
    {
        self.over = self.is_gone(hub) || self.failed;
    }
}

impl<S: Source> Client<S> {
    /// Has the system tell when its socket, which is full, has room again. Only then: else each read
    /// of the client would be told.
    pub fn ask_for_space(&mut self, registry: &Registry, token: Token)
        ensures conn { self.new.conn ≡ self.old.conn }
        ensures piece { self.new.piece ≡ self.old.piece }
        ensures full { self.new.full ≡ self.old.full }
        ensures failed { self.new.failed ≡ self.old.failed }
        ensures readable { self.new.readable ≡ self.old.readable }
    {
        if self.asked == self.full {
            return;
        }
        let interests = if self.full {
            Interest::READABLE | Interest::WRITABLE
        } else {
            Interest::READABLE
        };
        match registry.reregister(&mut self.socket, token, interests) {
            Ok(()) => self.asked = self.full,
            Err(_) => self.over = true,
        }
    }
}

impl<S: Read> Client<S> {
    /// Feeds the hub what was read and not taken; then, if all of that was taken, what some reads
    /// give.
    pub fn take_in<D: SectorDisk>(
        &mut self,
        hub: &mut Hub<D>,
        moment: Moment,
    ) -> Result<(), CommitError>
        ensures hears { OnOk result (FeedsInput D.medium self.old.conn moment.0 hub.old hub.new
            (prepend_known self.old.piece.items (S.remaining self.old.socket))
            (prepend_known self.new.piece.items (S.remaining self.new.socket))) }
        ensures breaks { IfErr result (λ e. StopsAt D.medium D.counts moment.0 hub.old hub.new e) }
        ensures conn { self.new.conn ≡ self.old.conn }
        ensures failed { self.new.failed ≡ self.old.failed }
        ensures numbers { numbers_of hub.new.hub ≡ numbers_of hub.old.hub }
        ensures read { OnOk result (self.new.over ≡ false → WasRead (view_of self.new)) }
        // It is noted that a read would block only after one was made.
        ensures tried { OnOk result (self.old.readable ≡ true → self.new.readable ≡ false → 0 < self.new.reads) }
    {
        self.reads = 0;
        self.feed(hub, moment)?;
        while self.reads < MOST_READS {
            if !self.readable || self.over || !self.piece.is_empty() {
                return Ok(());
            }
            self.read();
            self.feed(hub, moment)?;
        }
        Ok(())
    }

    // Reads once. Nothing waits to be taken.
    fn read(&mut self)
        requires nothing { self.old.piece.items ≡ [] }
        requires few { self.old.reads < most_reads }
        ensures same { Keeps (S.remaining self.old.socket)
            (prepend_known self.new.piece.items (S.remaining self.new.socket)) }
        ensures conn { self.new.conn ≡ self.old.conn }
        ensures failed { self.new.failed ≡ self.old.failed }
        ensures reads { self.new.reads ≡ self.old.reads + 1 }
    {
        self.reads += 1;
        self.piece.clear();
        match self.piece.read_from(&mut self.socket) {
            Ok(0) => self.over = true,
            Ok(_) => {}
            Err(error) => match error.kind() {
                ErrorKind::Interrupted => {}
                ErrorKind::WouldBlock => self.readable = false,
                _ => self.over = true,
            },
        }
    }

    // Feeds the hub what was read, if there is any.
    fn feed<D: SectorDisk>(&mut self, hub: &mut Hub<D>, moment: Moment) -> Result<(), CommitError>
        ensures hears { OnOk result (FeedsInput D.medium self.old.conn moment.0 hub.old hub.new
            (prepend_known self.old.piece.items (S.remaining self.old.socket))
            (prepend_known self.new.piece.items (S.remaining self.new.socket))) }
        ensures breaks { IfErr result (λ e. StopsAt D.medium D.counts moment.0 hub.old hub.new e) }
        ensures conn { self.new.conn ≡ self.old.conn }
        ensures failed { self.new.failed ≡ self.old.failed }
        ensures reads { self.new.reads ≡ self.old.reads }
        ensures readable { self.new.readable ≡ self.old.readable }
        ensures numbers { numbers_of hub.new.hub ≡ numbers_of hub.old.hub }
    {
        if self.piece.is_empty() {
            return Ok(());
        }
        match hub.feed(self.conn, self.piece.as_slice(), moment) {
            Ok(taken) => self.piece.advance(taken),
            Err(ServeError::Unknown) => self.over = true,
            Err(ServeError::Device) => return Err(CommitError::Device),
            Err(ServeError::Stopped) => return Err(CommitError::Stopped),
        }
        Ok(())
    }
}

impl<S: Write> Client<S> {
    /// Writes what the client may see, until nothing is left or a write would block.
    pub fn put_out<D: SectorDisk>(&mut self, hub: &mut Hub<D>)
        // The socket is written what the client could see, in order, each byte once.
        ensures tells { WritesOutput self.old.conn hub.old hub.new (S.contents self.old.socket)
            (S.contents self.new.socket) }
        ensures written { WasWritten hub.new.hub (view_of self.new) }
        ensures same { view_of self.new
            ≡ record (view_of self.old) { writing = (view_of self.new).writing } }
        ensures failed { self.old.failed ≡ true → self.new.failed ≡ true }
        ensures numbers { numbers_of hub.new.hub ≡ numbers_of hub.old.hub }
        // The others may see what they could.
        ensures others { (other : ℕ) → other ≢ self.old.conn
            → output_of hub.new.hub other ≡ output_of hub.old.hub other }
    {
        self.full = false;
        self.writes = 0;
        while self.writes < MOST_WRITES {
            let output = hub.output(self.conn);
            if output.is_empty() {
                return;
            }
            self.writes += 1;
            match self.socket.write(output) {
                Ok(count) => hub.consume(self.conn, count),
                Err(error) => match error.kind() {
                    ErrorKind::Interrupted => {}
                    ErrorKind::WouldBlock => {
                        self.full = true;
                        return;
                    }
                    _ => {
                        self.failed = true;
                        return;
                    }
                },
            }
        }
    }
}
