//! The figures of a server, as text in the format of Prometheus.

use crate::timed::SyncTimes;
use ipc_base::{Errno, Moment};
use ipc_disk::SectorDisk;
use ipc_engine::{Engine, Row};
use ipc_hub::Hub;
use ipc_limits::Limits;
use ipc_state::State;
use ipc_store::{Store, Tally};
use ipc_wire::request_name;
use std::alloc::Global;
use std::io::Write;
use std::{fmt, io};

/// The version of the program, as its command line tells it.
const VERSION: &str = "0.1.0";

/// The number after the greatest of a process, and of an identifier.
const NUMBERS_END: u32 = 1 << 31;

/// No error has a greater number.
const GREATEST_ERRNO: u16 = 127;

/// What the hub of a server does not tell: when it began, how many turns it has made, how often its figures could not
/// be written, and how long its syncs took.
#[derive(Drop)]
pub struct Figures {
    pub began: Moment,
    pub turns: u64,
    pub failures: u64,
    pub syncs: SyncTimes,
}

/// Writes all of them.
pub fn write_figures<D: SectorDisk, W: Write>(
    alloc: Global,
    w: &mut W,
    hub: &Hub<D>,
    figures: &Figures,
) -> io::Result<()> {
    let store = hub.store();
    write_server(w, figures)?;
    write_clients(w, hub)?;
    write_events(w, store.tally())?;
    write_refusals(w, store.tally())?;
    write_device(w, store, &figures.syncs)?;
    write_objects(alloc, w, store.engine())
}

/// The type of a metric, as the format has it.
#[derive(Clone, Copy)]
enum Kind {
    Counter,
    Gauge,
    Summary,
}

impl fmt::Display for Kind {
    fn fmt<W: fmt::Write>(&self, f: &mut fmt::Formatter<W>) -> fmt::Result {
        match self {
            Kind::Counter => write!(f, "counter"),
            Kind::Gauge => write!(f, "gauge"),
            Kind::Summary => write!(f, "summary"),
        }
    }
}

/// So many nanoseconds, in seconds.
#[derive(Clone, Copy)]
struct Seconds(u64);

impl fmt::Display for Seconds {
    fn fmt<W: fmt::Write>(&self, f: &mut fmt::Formatter<W>) -> fmt::Result {
        let seconds = self.0 / 1_000_000_000;
        let rest = self.0 % 1_000_000_000;
        write!(f, "{seconds}.{rest:09}")
    }
}

/// A moment, in seconds since 1970.
#[derive(Clone, Copy)]
struct Since(Moment);

impl fmt::Display for Since {
    fn fmt<W: fmt::Write>(&self, f: &mut fmt::Formatter<W>) -> fmt::Result {
        let seconds = self.0.0 / 1_000;
        let rest = self.0.0 % 1_000;
        write!(f, "{seconds}.{rest:03}")
    }
}

// The lines before the values of a metric: what it is, and its type.
fn write_head<W: Write>(w: &mut W, name: &str, kind: Kind, help: &str) -> io::Result<()> {
    writeln!(w, "# HELP {name} {help}")?;
    writeln!(w, "# TYPE {name} {kind}")
}

// A metric of one value.
fn write_one<W: Write>(
    w: &mut W,
    name: &str,
    kind: Kind,
    help: &str,
    value: impl fmt::Display + Drop,
) -> io::Result<()> {
    write_head(w, name, kind, help)?;
    writeln!(w, "{name} {value}")
}

// What the server is, and how it does.
fn write_server<W: Write>(w: &mut W, figures: &Figures) -> io::Result<()> {
    write_head(
        w,
        "ipcd_build_info",
        Kind::Gauge,
        "The version of the program.",
    )?;
    writeln!(w, "ipcd_build_info{{version=\"{}\"}} 1", VERSION)?;
    write_one(
        w,
        "ipcd_start_time_seconds",
        Kind::Gauge,
        "When the server began, since 1970.",
        Since(figures.began),
    )?;
    write_one(
        w,
        "ipcd_turns_total",
        Kind::Counter,
        "Turns of the server's loop.",
        figures.turns,
    )?;
    write_one(
        w,
        "ipcd_metrics_failures_total",
        Kind::Counter,
        "How often this file could not be written.",
        figures.failures,
    )
}

// Who is connected, what waits, and what has come and gone.
fn write_clients<D: SectorDisk, W: Write>(w: &mut W, hub: &Hub<D>) -> io::Result<()> {
    let state = hub.store().engine().state();
    write_one(
        w,
        "ipcd_connections",
        Kind::Gauge,
        "Connections of clients.",
        hub.connections().len(),
    )?;
    write_one(
        w,
        "ipcd_processes",
        Kind::Gauge,
        "Processes: connections that have said HELLO.",
        state.processes().len(),
    )?;
    write_one(
        w,
        "ipcd_processes_limit",
        Kind::Gauge,
        "The most processes.",
        state.limits().processes,
    )?;
    write_one(
        w,
        "ipcd_waiting_calls",
        Kind::Gauge,
        "Calls that wait.",
        state.waits().len(),
    )?;
    write_one(
        w,
        "ipcd_received_bytes_total",
        Kind::Counter,
        "Bytes of requests taken from clients.",
        hub.received(),
    )?;
    write_one(
        w,
        "ipcd_sent_bytes_total",
        Kind::Counter,
        "Bytes of replies that clients have taken.",
        hub.sent(),
    )
}

// The events by what they are.
fn write_events<W: Write>(w: &mut W, tally: &Tally) -> io::Result<()> {
    write_head(
        w,
        "ipcd_events_total",
        Kind::Counter,
        "Events that the server has accepted: requests, ticks of the clock and exits.",
    )?;
    write_event(w, "hello", tally.connects)?;
    write_event(w, "interrupt", tally.interrupts)?;
    write_event(w, "tick", tally.ticks)?;
    write_event(w, "exit", tally.exits)?;
    for opcode in 0..=u8::MAX {
        let count = tally.calls(opcode);
        if count == 0 {
            continue;
        }
        if let Some(name) = request_name(opcode) {
            write_event(w, name, count)?;
        }
    }
    Ok(())
}

fn write_event<W: Write>(w: &mut W, name: &str, count: u64) -> io::Result<()> {
    writeln!(w, "ipcd_events_total{{event=\"{name}\"}} {count}")
}

// The refusals by their errors.
fn write_refusals<W: Write>(w: &mut W, tally: &Tally) -> io::Result<()> {
    write_head(
        w,
        "ipcd_refusals_total",
        Kind::Counter,
        "Replies that are errors, by their names in errno(3).",
    )?;
    for number in 0..=GREATEST_ERRNO {
        let Some(errno) = Errno::from_number(number) else {
            continue;
        };
        let count = tally.refusals(errno);
        if count > 0 {
            writeln!(w, "ipcd_refusals_total{{errno=\"{errno:?}\"}} {count}")?;
        }
    }
    Ok(())
}

// The device: what was written, and how long it took.
fn write_device<D: SectorDisk, W: Write>(
    w: &mut W,
    store: &Store<D>,
    syncs: &SyncTimes,
) -> io::Result<()> {
    let tally = store.tally();
    write_one(
        w,
        "ipcd_commits_total",
        Kind::Counter,
        "Commits: events that became durable at once.",
        tally.commits,
    )?;
    write_one(
        w,
        "ipcd_saves_total",
        Kind::Counter,
        "Commits that saved the objects and emptied the journal.",
        tally.saves,
    )?;
    write_head(
        w,
        "ipcd_sync_seconds",
        Kind::Summary,
        "How long the syncs of the device took.",
    )?;
    writeln!(w, "ipcd_sync_seconds_sum {}", Seconds(syncs.sum))?;
    writeln!(w, "ipcd_sync_seconds_count {}", syncs.count)?;
    write_one(
        w,
        "ipcd_longest_sync_seconds",
        Kind::Gauge,
        "The longest of these syncs.",
        Seconds(syncs.longest),
    )?;
    write_one(
        w,
        "ipcd_journal_used_sectors",
        Kind::Gauge,
        "Sectors of the journal that are used. It is full before each save.",
        store.journal_used(),
    )?;
    write_one(
        w,
        "ipcd_journal_sectors",
        Kind::Gauge,
        "Sectors of the journal.",
        store.journal_sectors(),
    )?;
    write_one(
        w,
        "ipcd_clock_seconds",
        Kind::Gauge,
        "The clock of the device, since 1970. It never falls.",
        Since(store.engine().state().clock()),
    )
}

/// The objects of one kind, and what they hold.
#[derive(Clone, Copy)]
struct KindTotals {
    objects: u64,
    bytes: u128,
}

impl KindTotals {
    const NONE: KindTotals = KindTotals {
        objects: 0,
        bytes: 0,
    };

    // One more object, which holds so many bytes.
    fn add(&mut self, bytes: u128) {
        self.objects = self.objects.saturating_add(1);
        self.bytes = self.bytes.saturating_add(bytes);
    }
}

/// The objects of all kinds, the messages of both kinds of queues, and the semaphores of all sets.
#[derive(Drop)]
struct Totals {
    msg: KindTotals,
    sem: KindTotals,
    pmq: KindTotals,
    psm: KindTotals,
    shm: KindTotals,
    seg: KindTotals,
    sent: usize,
    queued: usize,
    semaphores: usize,
}

// Counts what a listing has.
fn totals_of<N>(rows: &[Row<N>]) -> Totals {
    let mut totals = Totals {
        msg: KindTotals::NONE,
        sem: KindTotals::NONE,
        pmq: KindTotals::NONE,
        psm: KindTotals::NONE,
        shm: KindTotals::NONE,
        seg: KindTotals::NONE,
        sent: 0,
        queued: 0,
        semaphores: 0,
    };
    for row in rows {
        match row {
            Row::Msg {
                bytes,
                messages,
                ..
            } => {
                totals.msg.add(*bytes);
                totals.sent = totals.sent.saturating_add(*messages);
            }
            Row::Sem { nsems, .. } => {
                totals.sem.add(0);
                totals.semaphores = totals.semaphores.saturating_add(*nsems);
            }
            Row::Pmq { messages, .. } => {
                totals.pmq.add(0);
                totals.queued = totals.queued.saturating_add(*messages);
            }
            Row::Psm { .. } => totals.psm.add(0),
            Row::Shm { length, .. } => totals.shm.add(*length as u128),
            Row::Seg { length, .. } => totals.seg.add(*length as u128),
        }
    }
    totals
}

// The objects of each kind, as `ipcd list` names it, and what they hold, against the limits.
fn write_objects<W: Write>(alloc: Global, w: &mut W, engine: &Engine) -> io::Result<()> {
    let limits = engine.limits();
    let totals = {
        let rows = engine.list(alloc)?;
        totals_of(rows.as_slice())
    };
    write_counts(w, limits, &totals)?;
    write_messages(w, limits, &totals)?;
    write_bytes(w, limits, &totals, queued_bytes(engine.state()))?;
    write_queues(w, engine.state())?;
    write_numbers_left(w, engine.state())
}

/// What is told of each message queue of System V. When the oldest of its messages came no state tells.
#[derive(Clone, Copy)]
enum Column {
    Messages,
    Bytes,
    LastSend,
    LastReceive,
}

// The queues of System V, which are few, one by one.
fn write_queues<W: Write>(w: &mut W, state: &State) -> io::Result<()> {
    write_head(
        w,
        "ipcd_queue_messages",
        Kind::Gauge,
        "Messages in a queue of System V.",
    )?;
    write_column(w, state, "ipcd_queue_messages", Column::Messages)?;
    write_head(
        w,
        "ipcd_queue_bytes",
        Kind::Gauge,
        "Bytes of the messages in it.",
    )?;
    write_column(w, state, "ipcd_queue_bytes", Column::Bytes)?;
    write_head(
        w,
        "ipcd_queue_last_send_seconds",
        Kind::Gauge,
        "When a message was sent to it last, since 1970; 0 for never.",
    )?;
    write_column(w, state, "ipcd_queue_last_send_seconds", Column::LastSend)?;
    write_head(
        w,
        "ipcd_queue_last_receive_seconds",
        Kind::Gauge,
        "When one was received from it last, since 1970; 0 for never.",
    )?;
    write_column(
        w,
        state,
        "ipcd_queue_last_receive_seconds",
        Column::LastReceive,
    )
}

// The values of one metric, for each queue.
fn write_column<W: Write>(w: &mut W, state: &State, name: &str, column: Column) -> io::Result<()> {
    for item in state.msg_queues() {
        let stat = item.value.object.stat();
        match column {
            Column::Messages => write_queue(w, name, item.number, stat.qnum)?,
            Column::Bytes => write_queue(w, name, item.number, stat.bytes)?,
            Column::LastSend => write_queue(w, name, item.number, Since(stat.stime))?,
            Column::LastReceive => write_queue(w, name, item.number, Since(stat.rtime))?,
        }
    }
    Ok(())
}

// The value of a metric for one queue.
fn write_queue<W: Write>(
    w: &mut W,
    name: &str,
    number: u32,
    value: impl fmt::Display + Drop,
) -> io::Result<()> {
    writeln!(w, "{name}{{msqid=\"{number}\"}} {value}")
}

// How many numbers there are still, of those that are given once and never again.
fn write_numbers_left<W: Write>(w: &mut W, state: &State) -> io::Result<()> {
    let name = "ipcd_numbers_left";
    write_head(
        w,
        name,
        Kind::Gauge,
        "Numbers of processes, and identifiers of a kind, that were not given yet.",
    )?;
    write_kind(w, name, "process", left_from(state.next_pid()))?;
    write_kind(w, name, "msg", left_from(state.next_msg_queue()))?;
    write_kind(w, name, "sem", left_from(state.next_semset()))?;
    write_kind(w, name, "seg", left_from(state.next_shm()))
}

// How many numbers there are from the next one on.
fn left_from(next: u32) -> u32 {
    NUMBERS_END.saturating_sub(next)
}

// The bytes of all texts in POSIX queues, which a listing does not have.
fn queued_bytes(state: &State) -> usize {
    let mut bytes = 0usize;
    for item in state.mqs() {
        let queue = &item.value.object;
        for at in 0..queue.len() {
            bytes = bytes.saturating_add(queue.message(at).text.len());
        }
    }
    bytes
}

fn write_counts<W: Write>(w: &mut W, limits: &Limits, totals: &Totals) -> io::Result<()> {
    let name = "ipcd_objects";
    write_head(
        w,
        name,
        Kind::Gauge,
        "Objects of a kind, as `ipcd list` names it.",
    )?;
    write_kind(w, name, "msg", totals.msg.objects)?;
    write_kind(w, name, "sem", totals.sem.objects)?;
    write_kind(w, name, "pmq", totals.pmq.objects)?;
    write_kind(w, name, "psm", totals.psm.objects)?;
    write_kind(w, name, "shm", totals.shm.objects)?;
    write_kind(w, name, "seg", totals.seg.objects)?;
    let name = "ipcd_objects_limit";
    write_head(w, name, Kind::Gauge, "The most objects of a kind.")?;
    write_kind(w, name, "msg", limits.msgmni)?;
    write_kind(w, name, "sem", limits.semmni)?;
    write_kind(w, name, "pmq", limits.queues)?;
    write_kind(w, name, "psm", limits.named_semaphores)?;
    write_kind(w, name, "shm", limits.segments)?;
    write_kind(w, name, "seg", limits.shmmni)
}

fn write_messages<W: Write>(w: &mut W, limits: &Limits, totals: &Totals) -> io::Result<()> {
    let name = "ipcd_messages";
    write_head(w, name, Kind::Gauge, "Messages in queues of a kind.")?;
    write_kind(w, name, "msg", totals.sent)?;
    write_kind(w, name, "pmq", totals.queued)?;
    write_one(
        w,
        "ipcd_semaphores",
        Kind::Gauge,
        "Semaphores of all sets.",
        totals.semaphores,
    )?;
    write_one(
        w,
        "ipcd_semaphores_limit",
        Kind::Gauge,
        "The most semaphores of all sets.",
        limits.semmns,
    )
}

fn write_bytes<W: Write>(
    w: &mut W,
    limits: &Limits,
    totals: &Totals,
    queued: usize,
) -> io::Result<()> {
    let name = "ipcd_bytes";
    write_head(w, name, Kind::Gauge, "Bytes that objects of a kind hold.")?;
    write_kind(w, name, "msg", totals.msg.bytes)?;
    write_kind(w, name, "pmq", queued)?;
    write_kind(w, name, "shm", totals.shm.bytes)?;
    write_kind(w, name, "seg", totals.seg.bytes)?;
    let name = "ipcd_bytes_limit";
    write_head(
        w,
        name,
        Kind::Gauge,
        "The most bytes that objects of a kind hold.",
    )?;
    write_kind(
        w,
        name,
        "msg",
        u128::from(limits.msgmni) * u128::from(limits.msgmnb),
    )?;
    let queued = u128::from(limits.queues) * u128::from(limits.maxmsg);
    write_kind(w, name, "pmq", queued * u128::from(limits.msgsize))?;
    write_kind(w, name, "shm", limits.segment_bytes)?;
    write_kind(w, name, "seg", limits.shmall)
}

// The value of a metric for one kind of objects.
fn write_kind<W: Write>(
    w: &mut W,
    name: &str,
    kind: &str,
    value: impl fmt::Display + Drop,
) -> io::Result<()> {
    writeln!(w, "{name}{{kind=\"{kind}\"}} {value}")
}
