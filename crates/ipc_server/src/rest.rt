//! How long a server waits before a turn that is made only when there is something to do.

ghost use Rattle.std.specs.Prelude.{◌≡◌};
ghost use Rattle.ipc_server.specs.Rest.{longest_wait, until_due};

use ipc_base::Moment;

/// The longest wait before a turn, in milliseconds.
pub(crate) const LONGEST_REST: u64 = 60_000;

/// How long a wait for a deadline may take before the clock is read again, in milliseconds. The
/// system's clock may have been stepped forward meanwhile.
const LONGEST_LOOK: u64 = 1_000;

/// How long an accept that has failed is not tried again, in milliseconds.
const LONGEST_RETRY: u64 = 100;

/// How many milliseconds a wait may take at a moment, by the earliest deadline of the calls that wait,
/// whether an accept has failed, and whether there is work already.
pub(crate) fn longest_wait(now: Moment, deadline: Option<Moment>, failed: bool, busy: bool) -> u64
    ensures { result ≡ longest_wait now.0 deadline failed busy }
{
    if busy {
        return 0;
    }
    let longest = if failed { LONGEST_RETRY } else { LONGEST_REST };
    longest.min(until_due(now, deadline))
}

// How many milliseconds a wait may take at a moment, by the earliest deadline alone.
fn until_due(now: Moment, deadline: Option<Moment>) -> u64
    ensures { result ≡ until_due now.0 deadline }
{
    match deadline {
        None => LONGEST_REST,
        Some(deadline) => LONGEST_LOOK.min(deadline.0.saturating_sub(now.0)),
    }
}
