//! A server's turns, at the moments of a clock.

ghost use Rattle.std.specs.Prelude.{◌≡◌, ◌≤◌, ℕ, IfErr, IfOk, OnOk};
ghost use Rattle.ipc_server.specs.Served.{Served, StopsShort};

use crate::fault::ServeFault;
use crate::observer::Observer;
use crate::rest::LONGEST_REST;
use crate::server::Server;
use ipc_base::Moment;
use ipc_disk::SectorDisk;
use std::time::{Clock, SystemTime, UNIX_EPOCH};

/// The most waits before a turn: more than there can be, unless signals cut most of them short.
const MOST_WAITS: u64 = 60_000;

impl<D: SectorDisk> Server<D> {
    /// Serves for so many turns, each at the moment that the clock then tells, or at the one of the
    /// turn before if the clock has fallen. A turn that is broken off is the last. The observer sees the
    /// server after each turn.
    pub fn serve<O: Observer<D>>(
        &mut self,
        clock: &impl Clock,
        turns: u32,
        observer: &mut O,
    ) -> Result<(), ServeFault>
        ensures ok { OnOk result ((moment : ℕ)
            × Served D.medium 0 self.old.hub turns moment self.new.hub) }
        ensures err { IfErr result (λ fault.
            StopsShort D.medium D.counts 0 self.old.hub turns self.new.hub fault) }
    {
        let mut moment = Moment(0);
        for count in 0..turns {
            moment = later(moment, clock);
            self.turn(moment)?;
            observer.turned(self.hub(), u64::from(count) + 1);
        }
        Ok(())
    }

    /// Serves for so many turns, on demand: before each turn it waits until there is something to do, for a
    /// minute at most, and only then takes the turn's moment. The observer also sees the server while it waits, as
    /// often as it asks for.
    pub fn serve_on_demand<O: Observer<D>>(
        &mut self,
        clock: &impl Clock,
        turns: u32,
        observer: &mut O,
    ) -> Result<(), ServeFault>
        ensures ok { OnOk result ((moment : ℕ)
            × Served D.medium 0 self.old.hub turns moment self.new.hub) }
        ensures err { IfErr result (λ fault.
            StopsShort D.medium D.counts 0 self.old.hub turns self.new.hub fault) }
    {
        let mut moment = Moment(0);
        for round in 0..turns {
            moment = self.rest(clock, moment, observer)?;
            self.turn(moment)?;
            observer.turned(self.hub(), u64::from(round) + 1);
        }
        Ok(())
    }

    // Waits until there is something to do: a socket has told of something, the earliest deadline of a
    // call that waits has come, or a minute has passed. A wait that a signal has cut short is followed by
    // another. Gives the moment then, or the last one if the clock has fallen.
    fn rest<O: Observer<D>>(
        &mut self,
        clock: &impl Clock,
        last: Moment,
        observer: &mut O,
    ) -> Result<Moment, ServeFault>
        ensures same { self.new.hub ≡ self.old.hub }
        ensures later { IfOk result (λ moment. last.0 ≤ moment.0) }
        ensures err { IfErr result (λ fault. fault ≡ ServeFault.Socket) }
    {
        self.begin_rest();
        let begun = running(clock);
        for _wait in 0..MOST_WAITS {
            let now = now(clock);
            let rested = running(clock).saturating_sub(begun);
            let longest = self
                .longest_wait(now)
                .min(LONGEST_REST.saturating_sub(rested));
            if longest == 0 {
                break;
            }
            let told = self.rest_for(now, longest.min(observer.patience()))?;
            if told {
                break;
            }
            observer.waited(self.hub());
        }
        Ok(later(last, clock))
    }
}

// The moment that the clock tells, or the last one if the clock has fallen.
fn later(last: Moment, clock: &impl Clock) -> Moment
    ensures { last.0 ≤ result.0 }
{
    Moment(last.0.max(now(clock).0))
}

/// The milliseconds since 1970, or 0 where the clock cannot be read.
pub fn now(clock: &impl Clock) -> Moment {
    let Ok(time) = SystemTime::now(clock) else {
        return Moment(0);
    };
    let Ok(since) = time.duration_since(UNIX_EPOCH) else {
        return Moment(0);
    };
    Moment(u64::try_from(since.as_millis()).unwrap_or(0))
}

// The milliseconds that a clock which is never stepped has run, or 0 where it cannot be read.
fn running(clock: &impl Clock) -> u64 {
    match clock.monotonic() {
        Ok(time) => u64::try_from(time.as_millis()).unwrap_or(0),
        Err(_) => 0,
    }
}
