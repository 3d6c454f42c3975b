//! What makes calls on a disk: stopped at each of them, with each choice of the unsynced sectors that a crash keeps,
//! and with each of them failing once.

use crate::fault::Fault;
use crate::runs::MOST_CALLS;

/// What can be made anew as often as it is stopped.
pub(crate) trait Stops {
    /// Stops it after so many calls, and tests what a crash leaves by this choice. How many sectors are not synced at
    /// the stop; None if it is not stopped.
    fn stop(&mut self, calls: u64, keep: u64) -> Result<Option<u32>, Fault>;
}

/// What can be made anew as often as one of its calls fails.
pub(crate) trait Fails {
    /// Lets the call fail that comes after so many others, and tests what is left. If it is a write, it may be done.
    /// Whether there is such a call.
    fn fail(&mut self, at: u64, done: bool) -> Result<bool, Fault>;
}

/// Stops it at each of its calls, with each choice of a crash. How many calls it makes.
pub(crate) fn stop_each<S: Stops>(stopped: &mut S) -> Result<u64, Fault> {
    for calls in 0..MOST_CALLS {
        if !stop_at(stopped, calls)? {
            return Ok(calls);
        }
    }
    Err(Fault::NoEnd)
}

/// Stops it after so many calls, with each choice of a crash. Whether it was stopped.
fn stop_at<S: Stops>(stopped: &mut S, calls: u64) -> Result<bool, Fault> {
    let mut unsynced = 0;
    for before in 0..MOST_CHOICES {
        let Some(keep) = choice(before, unsynced) else {
            return Ok(true);
        };
        let Some(left) = stopped.stop(calls, keep)? else {
            return Ok(false);
        };
        unsynced = left;
    }
    Err(Fault::NoEnd)
}

/// The choice of a crash after `before` other ones: each combination of up to six unsynced sectors, and of more none,
/// all and each alone.
fn choice(before: u32, unsynced: u32) -> Option<u64> {
    if let Some(combinations) = [1, 2, 4, 8, 16, 32, 64].get(unsynced as usize) {
        return (before < *combinations).then_some(u64::from(before));
    }
    match before.checked_sub(2) {
        Some(place) if place < unsynced => 1_u64.checked_shl(place),
        Some(_) => None,
        None if before == 0 => Some(0),
        None => Some(u64::MAX),
    }
}

/// Lets one of its calls fail after another, from the one on that comes after `first` others. How many there are.
pub(crate) fn fail_each<F: Fails>(failing: &mut F, first: u64, done: bool) -> Result<u64, Fault> {
    for at in first..MOST_CALLS {
        if !failing.fail(at, done)? {
            return Ok(at.saturating_sub(first));
        }
    }
    Err(Fault::NoEnd)
}

/// More choices than a crash has.
const MOST_CHOICES: u32 = 70;
