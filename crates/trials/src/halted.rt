//! A hub that is fed by hand, on a disk of which one call fails: from then on it stops, and leaves the disk alone.

use crate::fault::Fault;
use crate::request::Field::{Long, Text, Word};
use crate::request::{GROUP, HELLO, MAKE, MSGGET, MSGSND, USER, request};
use crate::runs::MOST_CALLS;
use crate::stages::Trial;
use ipc_base::Moment;
use ipc_disk::{FuseDisk, OnceDisk, SectorDisk};
use ipc_hub::{ConnectError, Hub, ServeError};
use ipc_image::{FORMAT, LONGEST_RECORD};
use ipc_store::{CommitError, Store};
use std::alloc::Global;

/// The bytes of the text of the longest msgsnd(2), which is too long; how many of these a batch has room for; and the
/// text of a shorter one, with which they fill it to the last byte. Each comes with a tick of 13 bytes, and a call's
/// record has 17 beside its request, of which 21 come before the text.
const LONGEST: u32 = FORMAT.request - 21;

const MANY: u32 = (FORMAT.batch - 4 - 51) / (13 + LONGEST_RECORD);

const SHORTER: u32 = FORMAT.batch - 4 - MANY * (13 + LONGEST_RECORD) - 51;

/// The last frame of a connection, after the disk has failed.
const EIO: [u8; 10] = [0, 0, 0, 6, 0, 0, 0, 0, 0, 5];

/// How many clients there are at first.
const CLIENTS: u32 = 3;

/// What is done with a hub: by all clients, or by the first one.
#[derive(Clone, Copy)]
enum Step {
    Hello,
    Get,
    /// Requests that fill a batch.
    Fill,
    Tick,
    Leave,
    Release,
    Save,
}

/// One after another. Whatever call comes when a batch is full has to make it last.
const STEPS: [Step; 15] = [
    Step::Hello,
    Step::Release,
    Step::Get,
    Step::Save,
    Step::Fill,
    Step::Get,
    Step::Release,
    Step::Fill,
    Step::Tick,
    Step::Release,
    Step::Fill,
    Step::Leave,
    Step::Release,
    Step::Save,
    Step::Release,
];

/// How many calls of each kind were told that the disk has failed.
#[derive(Clone, Copy)]
struct Halts {
    feeds: u64,
    ticks: u64,
    hangups: u64,
    releases: u64,
    saves: u64,
}

impl Halts {
    fn add(&mut self, step: Step) {
        let count = match step {
            Step::Hello | Step::Get | Step::Fill => &mut self.feeds,
            Step::Tick => &mut self.ticks,
            Step::Leave => &mut self.hangups,
            Step::Release => &mut self.releases,
            Step::Save => &mut self.saves,
        };
        *count = count.saturating_add(1);
    }
}

/// Lets one call on the disk of a hub fail after another, from the first that comes after its opening, until none is
/// left: as the only one, and then with all calls that come after it. A disk of the second kind counts one failure
/// alone if the hub leaves it alone. How many feeds, ticks, hang-ups, releases and saves were told.
pub(crate) fn halt_hubs(trial: &Trial<'_>, first: u64) -> Result<[u64; 5], Fault> {
    let mut halts = Halts {
        feeds: 0,
        ticks: 0,
        hangups: 0,
        releases: 0,
        saves: 0,
    };
    for at in first..MOST_CALLS {
        let steps = [halt_once(trial, at, false)?, halt_once(trial, at, true)?];
        halt_from(trial, at)?;
        for step in steps {
            match step {
                Some(step) => halts.add(step),
                None => return Ok([
                    halts.feeds,
                    halts.ticks,
                    halts.hangups,
                    halts.releases,
                    halts.saves,
                ]),
            }
        }
    }
    Err(Fault::NoEnd)
}

/// The step in which a hub is told that a call fails as the only one, if there is such a call.
fn halt_once(trial: &Trial<'_>, at: u64, done: bool) -> Result<Option<Step>, Fault> {
    let (step, told, disk) = halt(trial.alloc, OnceDisk::new(trial.device()?, at, done))?;
    if disk.has_failed() != step.is_some() || !told {
        return Err(goes_on(at, done));
    }
    Ok(step)
}

/// A call fails, and all that come after it.
fn halt_from(trial: &Trial<'_>, at: u64) -> Result<(), Fault> {
    let (step, told, disk) = halt(trial.alloc, FuseDisk::new(trial.device()?, at, 0))?;
    if disk.failures() != u64::from(step.is_some()) || !told {
        return Err(goes_on(at, false));
    }
    Ok(())
}

fn goes_on(at: u64, done: bool) -> Fault {
    Fault::case(
        "call # of a hub fails, and is done: # (1 if it is). It goes on, or a client is not told",
        &[at, u64::from(done)],
    )
}

/// The frames of the requests.
#[derive(Drop)]
struct Frames {
    hello: Vec<u8>,
    get: Vec<u8>,
    longest: Vec<u8>,
    shorter: Vec<u8>,
}

/// How a hub on a disk has ended: in which step the disk has failed, if it has; whether the hub then was as it has to
/// be; and its disk.
type Halted<D> = (Option<Step>, bool, D);

/// Feeds a hub on a disk, until it is told that the disk has failed, or to the end.
fn halt<D: SectorDisk + Drop>(alloc: Global, disk: D) -> Result<Halted<D>, Fault> {
    let mut hub = match Store::open(alloc, disk) {
        Ok(store) => Hub::new(alloc, store),
        Err(unopened) => return Err(Fault::from(unopened.error)),
    };
    let ended = take_steps(alloc, &mut hub);
    let disk = hub.close().close();
    let (step, told) = ended?;
    Ok((step, told, disk))
}

/// The step in which the disk has failed, and whether the hub then is as it has to be.
fn take_steps<D: SectorDisk>(
    alloc: Global,
    hub: &mut Hub<D>,
) -> Result<(Option<Step>, bool), Fault> {
    let frames = Frames {
        hello: request(alloc, 1, HELLO, &[Word(USER), Word(GROUP)])?,
        get: request(alloc, 2, MSGGET, &[Word(7), Word(MAKE)])?,
        longest: request(
            alloc,
            3,
            MSGSND,
            &[Word(1), Word(0), Long(1), Text(LONGEST)],
        )?,
        shorter: request(
            alloc,
            3,
            MSGSND,
            &[Word(1), Word(0), Long(1), Text(SHORTER)],
        )?,
    };
    for conn in 0..CLIENTS {
        hub.connect(conn)?;
    }
    for step in STEPS {
        match take_step(hub, &frames, step) {
            Ok(()) => {}
            Err(Fault::Device) => return Ok((Some(step), has_halted(hub, &frames.hello))),
            Err(fault) => return Err(fault),
        }
    }
    Ok((None, true))
}

fn take_step<D: SectorDisk>(hub: &mut Hub<D>, frames: &Frames, step: Step) -> Result<(), Fault> {
    match step {
        Step::Hello => {
            for conn in 0..CLIENTS {
                feed(hub, conn, &frames.hello)?;
            }
            Ok(())
        }
        Step::Get => feed(hub, 0, &frames.get),
        Step::Fill => {
            // A feed asks for the room of a longest request.
            feed(hub, 0, &frames.shorter)?;
            for _ in 0..MANY {
                feed(hub, 0, &frames.longest)?;
            }
            Ok(())
        }
        Step::Tick => Ok(hub.tick(Moment(0))?),
        Step::Leave => Ok(hub.hangup(CLIENTS - 1, Moment(0))?),
        Step::Release => {
            hub.release()?;
            consume_all(hub);
            Ok(())
        }
        Step::Save => {
            hub.save()?;
            consume_all(hub);
            Ok(())
        }
    }
}

/// The clients take all that they may see.
fn consume_all<D: SectorDisk>(hub: &mut Hub<D>) {
    for conn in 0..CLIENTS {
        consume(hub, conn);
    }
}

/// A client takes all that it may see.
pub(crate) fn consume<D: SectorDisk>(hub: &mut Hub<D>, conn: u32) {
    let shown = hub.output(conn).len();
    hub.consume(conn, shown);
}

/// Feeds a connection a frame, which it takes whole.
pub(crate) fn feed<D: SectorDisk>(hub: &mut Hub<D>, conn: u32, piece: &[u8]) -> Result<(), Fault> {
    if hub.feed(conn, piece, Moment(0))? < piece.len() {
        return Err(Fault::Unserved);
    }
    Ok(())
}

/// Every call is refused, without a word to the disk, and each client is told EIO as the last that it hears.
fn has_halted<D: SectorDisk>(hub: &mut Hub<D>, hello: &[u8]) -> bool {
    is_told(hub)
        && matches!(hub.feed(0, hello, Moment(1)), Err(ServeError::Stopped))
        && matches!(hub.tick(Moment(1)), Err(CommitError::Stopped))
        && matches!(hub.hangup(0, Moment(1)), Err(ServeError::Stopped))
        && matches!(hub.release(), Err(CommitError::Stopped))
        && matches!(hub.save(), Err(CommitError::Stopped))
        && matches!(hub.connect(CLIENTS), Err(ConnectError::Stopped))
        && is_told(hub)
}

fn is_told<D: SectorDisk>(hub: &Hub<D>) -> bool {
    hub.connections()
        .iter()
        .all(|client| client.ended() && client.output().ends_with(&EIO))
}
