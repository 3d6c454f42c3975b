//! What can go wrong with a server.

ghost use Rattle.std.specs.Prelude.{◌≡◌};
ghost use Rattle.ipc_server.specs.Fault.{of_commit_error};

use ipc_store::CommitError;
use thiserror::Error;

/// Why a server was not made.
#[derive(Clone, Copy, Debug, PartialEq, Eq, Error)]
pub enum ServerError {
    /// Memory was refused.
    #[error("no memory")]
    NoMemory,
    /// The system refused to watch the socket.
    #[error("the socket cannot be watched")]
    Socket,
}

/// Why a turn was broken off.
#[derive(Clone, Copy, Debug, PartialEq, Eq, Error)]
pub enum ServeFault {
    /// The hub goes on no more. Its store has to be opened again.
    #[error("the server has stopped")]
    Stopped,
    /// A call on the disk has failed. The hub goes on no more.
    #[error("the disk has failed")]
    Device,
    /// The system refused to wait for the sockets. Nothing else was done.
    #[error("the sockets cannot be waited for")]
    Socket,
}

impl From<CommitError> for ServeFault {
    ghost from_gives = { λ error fault. fault ≡ of_commit_error error };

    fn from(error: CommitError) -> Self {
        match error {
            CommitError::Device => ServeFault::Device,
            CommitError::Stopped => ServeFault::Stopped,
        }
    }
}
