//! What can go wrong with a call of the hub.

ghost use Rattle.std.specs.Prelude.{◌≡◌};
ghost use Rattle.ipc_hub.specs.View.{of_commit_error};

use ipc_store::CommitError;
use thiserror::Error;

/// Why a connection was not made.
#[derive(Clone, Copy, Debug, PartialEq, Eq, Error)]
pub enum ConnectError {
    /// The hub goes on no more.
    #[error("the hub has stopped")]
    Stopped,
    /// A connection has the number.
    #[error("connection in use")]
    InUse,
    /// Memory was refused.
    #[error("no memory")]
    NoMemory,
}

/// Why bytes of a client, or its end, were not taken.
#[derive(Clone, Copy, Debug, PartialEq, Eq, Error)]
pub enum ServeError {
    /// No connection has the number.
    #[error("no such connection")]
    Unknown,
    /// A call on the disk has failed. The hub goes on no more.
    #[error("the disk has failed")]
    Device,
    /// The hub goes on no more. Its store has to be opened again. It is so once the epochs are at their end, too.
    #[error("the hub has stopped")]
    Stopped,
}

impl From<CommitError> for ServeError {
    ghost from_gives = { λ error e. e ≡ of_commit_error error };

    fn from(error: CommitError) -> Self {
        match error {
            CommitError::Device => ServeError::Device,
            CommitError::Stopped => ServeError::Stopped,
        }
    }
}
