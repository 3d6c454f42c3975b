//! One connection: its number, and its session, in which bytes come in until they are a frame, and frames go out.

ghost use Rattle.std.specs.Prelude.{◌≡◌, ◌+◌, ◌<◌, ◌≤◌, ◌^◌, ◌↔◌, ◌++◌, [], None, true, false, IfOk, IsTrue};
ghost use Rattle.std.specs.Prelude.{length, take, option_map};
ghost use Rattle.std.specs.Option.{option_copied};
ghost use Rattle.ipc_wire.specs.Reply.{plain_reply, reply_bytes, body_bytes};
ghost use Rattle.ipc_wire.specs.Stream.{first, missing};
ghost use Rattle.ipc_wire.specs.Stream.PlainFrame.{More};
ghost use Rattle.ipc_engine.specs.View.{reply_of};
ghost use Rattle.ipc_hub.specs.Hub.{is_for};
ghost use Rattle.ipc_hub.specs.View.{kept};
ghost use Rattle.ipc_hub.specs.Clients.{refusal as refusal_of};

use crate::outbox::Outbox;
use ipc_base::{Errno, Pid};
use ipc_engine::{Engine, Outcome};
use ipc_wire::{Body, GREATEST_FRAME, Reply, bytes_missing};
use std::alloc::{AllocError, Global};
use std::marker::Model;

/// At least so many bytes of frames may wait before a request is left untaken: some 400 short replies, so that a client
/// that sends ahead is served many requests at a time.
const AHEAD: usize = 4096;

/// The bytes of the two frames that may be the last of a connection: EPROTO when the server ends it, and EIO when the
/// disk fails.
const LAST_FRAMES: usize = 20;

/// A connection. All its buffers are made with it.
#[derive(Drop)]
pub struct Connection {
    pub(crate) number: u32,
    pub(crate) session: Session,
}

impl Connection {
    /// The number under which it was made.
    pub fn number(&self) -> u32
        ensures { result ≡ self.now.number }
    {
        self.number
    }

    /// The bytes that its client may see.
    pub fn output(&self) -> &[u8]
        ensures { result.now ≡ self.now.session.outbox.visible }
    {
        self.session.output()
    }

    /// Whether the server has ended it.
    pub fn ended(&self) -> bool
        ensures { result ≡ self.now.session.ended }
    {
        self.session.ended()
    }
}

/// All of a connection but its number, which stays: what its client has sent, and what it is sent.
#[derive(Drop)]
pub(crate) struct Session {
    /// Its process, once it has said HELLO and until it ends.
    process: Option<Pid>,
    /// The bytes that are no whole frame yet.
    input: Vec<u8>,
    outbox: Outbox,
    /// The server has ended it: what comes is dropped.
    ended: bool,
}

impl Model for Session {
    ghost use Rattle.std.specs.Prelude.{◌≤◌, option_map, vec_capacity};
    ghost use Rattle.ipc_wire.specs.Sizes.{greatest_frame};
    ghost use Rattle.ipc_hub.specs.View.{ConnectionView};

    ghost Value = { ConnectionView };

    ghost view = { λ s. record {
      process = option_map (λ p. p.0) s.process;
      input = s.input.items;
      outbox = s.outbox;
      ended = s.ended;
    } };

    ghost invariant = { λ s. greatest_frame ≤ vec_capacity s.input };
}

impl Session {
    ghost use Rattle.ipc_engine.specs.View.{plain_outcome};
    ghost use Rattle.ipc_hub.specs.Relations.Invariant.{IsNew};
    ghost use Rattle.ipc_hub.specs.Relations.Rows.{pid_of};
    ghost use Rattle.ipc_hub.specs.Relations.Delivery.{
      last_frame,
      last_frames,
      owed_to,
      closed,
      HasSpaceToGreet,
      released,
      consumed,
      pushed,
      answered,
      failed,
    };

    /// A session without a process. Replies of so many bytes have room in it, some others before them, and the last
    /// frames after them.
    pub(crate) fn new(alloc: Global, replies: usize) -> Result<Session, AllocError>
        requires { replies < 2 ^ 32 }
        ensures { IfOk result (IsNew replies) }
    {
        Ok(Session {
            process: None,
            input: Vec::with_capacity(alloc, GREATEST_FRAME)?,
            outbox: Outbox::new(alloc, AHEAD + replies + LAST_FRAMES)?,
            ended: false,
        })
    }

    /// Its process, if it has one.
    pub(crate) fn process(&self) -> Option<Pid>
        ensures { pid_of result ≡ self.now.process }
    {
        self.process
    }

    /// Its bytes that are no whole frame yet.
    pub(crate) fn input(&self) -> &[u8]
        ensures { result.now ≡ self.now.input }
    {
        &self.input
    }

    /// The bytes that its client may see.
    pub(crate) fn output(&self) -> &[u8]
        ensures { result.now ≡ self.now.outbox.visible }
    {
        self.outbox.visible()
    }

    /// Whether the server has ended it.
    pub(crate) fn ended(&self) -> bool
        ensures { result ≡ self.now.ended }
    {
        self.ended
    }

    /// Whether it has nothing to say: no byte that its client may see, and no end.
    pub(crate) fn is_silent(&self) -> bool
        ensures { IsTrue result ↔ ((self.now.outbox.visible ≡ []) × (self.now.ended ≡ false)) }
    {
        !self.ended && self.outbox.visible().is_empty()
    }

    /// Whether it keeps no frame.
    pub(crate) fn has_no_frame(&self) -> bool
        ensures { IsTrue result ↔ (kept self.now.outbox ≡ []) }
    {
        self.outbox.is_empty()
    }

    /// Whether what its process is owed has room, and after it a reply of so many bytes and the last frames. What it
    /// is owed is counted only where the most that any is owed has no room.
    pub(crate) fn has_space(&self, engine: &Engine, reply: u32) -> bool
        ensures { IsTrue result ↔ (owed_to engine.now.limits engine.now.state self.now.process + reply
            + last_frames ≤ self.now.outbox.free) }
    {
        let wanted = reply as usize + LAST_FRAMES;
        self.has_beside(engine.most_owed(), wanted) || self.has_beside(self.owed(engine), wanted)
    }

    /// Whether so many bytes have room beside those that are owed.
    fn has_beside(&self, owed: usize, wanted: usize) -> bool
        ensures { IsTrue result ↔ (owed + wanted ≤ self.now.outbox.free) }
    {
        let free = self.outbox.free();
        owed <= free && wanted <= free - owed
    }

    /// How many bytes of replies its process is owed, if it has one.
    fn owed(&self, engine: &Engine) -> usize
        ensures { result ≡ owed_to engine.now.limits engine.now.state self.now.process }
    {
        match self.process {
            Some(pid) => engine.owed(pid),
            None => 0,
        }
    }

    /// Whether this is its process.
    pub(crate) fn has(&self, pid: Pid) -> bool
        ensures { result ≡ is_for pid.0 self.now.process }
    {
        self.process == Some(pid)
    }

    /// Takes bytes of a piece, up to the end of a frame at most. Answers how many.
    pub(crate) fn fill(&mut self, piece: &[u8]) -> usize
        requires { first self.old.input ≡ More }
        ensures view { self.new ≡ record self.old { input = self.old.input ++ take result piece.now } }
        ensures within { result ≤ length piece.now }
        ensures few { length (take result piece.now) ≤ missing self.old.input }
        ensures some { 0 < length piece.now → 0 < result }
    {
        let count = piece.len().min(bytes_missing(&self.input));
        self.input.extend_from_slice(&piece[..count]).unwrap();
        count
    }

    /// The bytes that are no whole frame yet are gone.
    pub(crate) fn drop_input(&mut self)
        ensures { self.new ≡ record self.old { input = [] } }
    {
        self.input.clear();
    }

    /// Takes a reply.
    pub(crate) fn push(&mut self, reply: &Reply<'_>)
        requires space { length (reply_bytes (plain_reply reply.now)) ≤ self.old.outbox.free }
        requires length { 6 + length (body_bytes (plain_reply reply.now).body) < 2 ^ 32 }
        ensures { self.new ≡ pushed (plain_reply reply.now) self.old }
    {
        self.outbox.push(reply);
    }

    /// Is told the reply to its request. If it had no process, the request was a HELLO: it has the process that the
    /// reply names, or takes the reply if that names none.
    pub(crate) fn take_reply(&mut self, reply: Option<&Outcome>)
        requires { self.old.process ≡ None
            → HasSpaceToGreet (option_map plain_outcome (option_copied reply)) self.old }
        ensures { self.new ≡ answered (option_map plain_outcome (option_copied reply.entry)) self.old }
    {
        if let (None, Some(outcome)) = (self.process, reply) {
            if outcome.pid.0 == 0 {
                self.push(&outcome.reply());
            } else {
                self.process = Some(outcome.pid);
            }
        }
    }

    /// Lets the frames that wait be seen.
    pub(crate) fn release(&mut self)
        ensures { self.new ≡ released self.old }
    {
        self.outbox.release();
    }

    /// Its client has taken the first `count` bytes of its output.
    pub(crate) fn consume(&mut self, count: usize)
        requires { count ≤ length self.old.outbox.visible }
        ensures { self.new ≡ consumed count self.old }
    {
        self.outbox.consume(count);
    }

    /// The server ends it: what comes is dropped. Answers its process, if it had one.
    pub(crate) fn close(&mut self) -> Option<Pid>
        ensures process { pid_of result ≡ self.old.process }
        ensures view { self.new ≡ closed self.old }
    {
        self.input.clear();
        self.ended = true;
        self.process.take()
    }

    /// The disk has failed: the frames that wait are dropped, and an EIO frame is the last, which is seen. What comes
    /// is dropped.
    pub(crate) fn fail(&mut self)
        requires { last_frame ≤ self.old.outbox.free }
        ensures { self.new ≡ failed self.old }
    {
        self.process = None;
        self.input.clear();
        self.ended = true;
        self.outbox.retract();
        self.outbox.push(&refusal(0, Errno::EIO));
        self.outbox.release();
    }
}

/// A reply without a body.
pub(crate) fn refusal(serial: u32, errno: Errno) -> Reply<'static>
    ensures { plain_reply result ≡ reply_of (refusal_of serial errno) }
{
    Reply {
        serial,
        errno: Some(errno),
        body: Body::Empty,
    }
}
