//! What a call is made on, and how it is judged.

use crate::fault::Fault;
use std::alloc::AllocError;

/// What a call changes, if it is not refused.
pub(crate) trait Subject: Drop {
    /// Makes the call of this name.
    fn call(&mut self, name: &str) -> Result<(), Fault>;

    /// What its public functions tell of it.
    fn tells(&self) -> Seen;
}

/// Numbers that tell of something.
pub(crate) type Seen = [u64; 17];

/// Some numbers, and zeros.
pub(crate) fn seen(numbers: &[u64]) -> Seen {
    let mut all = [0; 17];
    for (to, from) in all.iter_mut().zip(numbers) {
        *to = *from;
    }
    all
}

/// What has been made is let go.
pub(crate) fn done<T: Drop>(made: Result<T, AllocError>) -> Result<(), Fault> {
    drop(made?);
    Ok(())
}

/// Makes the call of a name on what was made for it. If it is refused its object is as before, and the call is done
/// when it is made again. Whether it was refused.
pub(crate) fn is_refused<S: Subject>(made: Result<S, Fault>, name: &str) -> Result<bool, Fault> {
    let mut subject = made?;
    let before = subject.tells();
    match subject.call(name) {
        Ok(()) => return Ok(false),
        Err(Fault::NoMemory) => {}
        Err(fault) => return Err(fault),
    }
    if subject.tells() != before {
        return Err(Fault::NotAsBefore);
    }
    match subject.call(name) {
        Ok(()) => Ok(true),
        Err(_) => Err(Fault::RefusedAgain),
    }
}
