//! Why a machine does not take a state.

ghost use Rattle.std.specs.Prelude.{◌≡◌};
ghost use Rattle.ipc_engine.specs.declared.fault.StateFault.TheVariants.{NoMemory};

use std::alloc::AllocError;
use thiserror::Error;

/// Why there is no machine that has a given state.
#[derive(Clone, Copy, Debug, PartialEq, Eq, Error)]
pub enum StateFault {
    /// The state is not sound.
    #[error("the state is not sound")]
    Unsound,
    /// Memory was refused.
    #[error("no memory")]
    NoMemory,
}

impl From<AllocError> for StateFault {
    ghost from_gives = { λ _ e. e ≡ NoMemory };

    fn from(_: AllocError) -> Self {
        StateFault::NoMemory
    }
}
