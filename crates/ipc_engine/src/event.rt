//! What happens to the server, and what it answers.

ghost use Rattle.std.specs.Prelude.{◌≡◌};

use ipc_base::{Cred, Errno, Moment, Pid};
use ipc_wire::{Body, Reply, Request};

/// What happens, each at a moment, but a restart, which has none.
#[derive(Clone, Copy)]
pub enum Event<'a> {
    /// A HELLO, which asks for a process.
    Connect {
        cred: Cred,
        serial: u32,
        moment: Moment,
    },
    /// A request of a process.
    Call {
        pid: Pid,
        request: Request<'a>,
        moment: Moment,
    },
    /// A process waits no longer: an INTERRUPT.
    Interrupt {
        pid: Pid,
        serial: u32,
        moment: Moment,
    },
    /// Time passes.
    Tick {
        moment: Moment,
    },
    /// The process is gone.
    Exit {
        pid: Pid,
        moment: Moment,
    },
    /// The server has stopped and begun anew: no process is left.
    Restart,
}

impl Event<'_> {
    ghost use Rattle.ipc_engine.specs.Event.{moment_of};
    ghost use Rattle.ipc_engine.specs.View.{plain_event};

    /// When it happens; a restart has the moment 0.
    pub fn moment(&self) -> Moment
        ensures { result.0 ≡ moment_of (plain_event self.now) }
    {
        match self {
            Event::Connect { moment, .. }
            | Event::Call { moment, .. }
            | Event::Interrupt { moment, .. }
            | Event::Tick { moment }
            | Event::Exit { moment, .. } => *moment,
            Event::Restart => Moment(0),
        }
    }
}

/// A reply: `pid` is the process that gets it, or 0 for the HELLO that got none; `errno` is `None`
/// for success. Or the notification of mq_notify(3), which has serial 0 and no error.
#[derive(Drop)]
pub struct Outcome {
    pub pid: Pid,
    pub serial: u32,
    pub errno: Option<Errno>,
    pub body: Body<Vec<u8>>,
}

impl Outcome {
    ghost use Rattle.ipc_wire.specs.Reply.{plain_reply};
    ghost use Rattle.ipc_engine.specs.View.{plain_outcome, reply_of};

    /// The reply as it goes over the wire.
    pub fn reply(&self) -> Reply<'_>
        ensures { plain_reply result ≡ reply_of (plain_outcome self.now) }
    {
        Reply {
            serial: self.serial,
            errno: self.errno,
            body: self.body.borrowed(),
        }
    }
}
