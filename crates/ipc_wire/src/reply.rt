//! Replies.

ghost use Rattle.std.specs.Prelude.{◌≡◌};
ghost use Rattle.ipc_wire.specs.Reply.{plain_body, body_of};

use ipc_base::Errno;

/// What the server answers to the request with this serial; 0 where no request has one, as in a notification.
#[derive(Drop)]
pub struct Reply<'a> {
    pub serial: u32,
    /// `None` for success.
    pub errno: Option<Errno>,
    pub body: Body<&'a [u8]>,
}

/// What a reply brings besides its error number; a refusal brings nothing. Bytes are a `T`: they lie elsewhere,
/// or in a buffer of the body's own.
#[derive(Drop)]
pub enum Body<T> {
    Empty,
    /// A pid, an identifier, a descriptor or a value.
    Number(u32),
    /// A message of msgrcv(2): its type and its text.
    Message { mtype: i64, text: T },
    /// A message of mq_receive(3): its priority and its text.
    MqMessage { priority: u32, text: T },
    /// The notification of mq_notify(3), which has serial 0 and no error: the descriptor by which the process
    /// registered, and its cookie.
    Notification { fd: u32, cookie: u32 },
    /// Numbers of fixed sizes, or other bytes.
    Record(T),
}

impl Body<Vec<u8>> {
    /// This body, with its bytes borrowed.
    pub fn borrowed(&self) -> Body<&[u8]>
        ensures { plain_body result ≡ body_of (λ bytes. bytes.items) self.now }
    {
        match self {
            Body::Empty => Body::Empty,
            Body::Number(number) => Body::Number(*number),
            Body::Message { mtype, text } => Body::Message {
                mtype: *mtype,
                text: text.as_slice(),
            },
            Body::MqMessage { priority, text } => Body::MqMessage {
                priority: *priority,
                text: text.as_slice(),
            },
            Body::Notification { fd, cookie } => Body::Notification {
                fd: *fd,
                cookie: *cookie,
            },
            Body::Record(bytes) => Body::Record(bytes.as_slice()),
        }
    }
}
