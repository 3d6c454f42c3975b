//! A script: lines of what connections do and when, run on a hub.

ghost use Rattle.std.specs.Prelude.{◌≡◌, ◌≢◌, ◌<◌, ◌≤◌, ◌+◌, ◌*◌, ℕ, true, false, List, [], length, position};
ghost use Rattle.std.specs.Prelude.{⊤, nat_eq, nat_lt, Err, IfOk, IfErr, IfSome, OnErr, OnOk};
ghost use Rattle.std.specs.List.{prefix_len};
ghost use Rattle.std.specs.Io.KnownBytes.{Appends};
ghost use Rattle.ipc_limits.specs.declared.limits.Limits.{Limits};
ghost use Rattle.ipc_disk.specs.Medium.{IsHonest};
ghost use Rattle.ipc_engine.specs.Event.{PlainEvent};
ghost use Rattle.ipc_store.specs.Histories.{Takes};
ghost use Rattle.ipc_store.specs.View.{Spends};
ghost use Rattle.ipc_hub.specs.Clients.{Clients, no_clients, hangup};
ghost use Rattle.ipc_hub.specs.Relations.Matches.{StoredMatches};
ghost use Rattle.ipc_hub.specs.View.{HasStopped};
ghost use Rattle.ipc_script.specs.Leaves.{Leaves};
ghost use Rattle.ipc_script.specs.Line.{longest_script};
ghost use Rattle.ipc_script.specs.Line.PlainLine.{Data, Stop};
ghost use Rattle.ipc_script.specs.Halting.{HaltsIn, last_words as words_of};
ghost use Rattle.ipc_script.specs.Script.{Run, Runs, MayStop, WritesMore, WritesPart, IsYoung};
ghost use Rattle.ipc_script.specs.Script.{DiskFailed};
ghost use Rattle.ipc_script.specs.Script.{is_open, opened as opened_run};
ghost use Rattle.ipc_script.specs.Relations.Lasts.{LastsAs, StaysCommitted, CommitsOrFails};
ghost use Rattle.ipc_script.specs.Relations.Lines.{plain_line};
ghost use Rattle.ipc_script.specs.Relations.Faults.{ByFault, IfRefused, of_serve_error};
ghost use Rattle.ipc_script.specs.Relations.Matches.{RunMatches, RunMatchesBetween, HaltsAt, MatchesFailed};
ghost use Rattle.ipc_script.specs.Relations.Numbers.{HasNumbers, Costs, byte_cost, line_cost};
ghost use Rattle.ipc_script.specs.Relations.Pieces.{SimulatesPiece, PieceBreaksOff, PieceFails, PieceHalts};
ghost use Rattle.ipc_script.specs.Relations.Simulation.{SimulatesLine, SimulatesScript};

use crate::fault::ScriptFault;
use crate::input::read_script;
use crate::line::{Line, first_line, line_of};
use crate::reopening::reopened;
use crate::report::{Opened, report, report_all};
use ipc_base::Moment;
use ipc_disk::SectorDisk;
use ipc_hub::{ConnectError, Hub, ServeError};
use ipc_store::Store;
use std::alloc::Global;
use std::io::{Read, Write};

/// Reads a script to its end, and runs it line by line. After each line the frames that it let out
/// are written. The run stops at the first line that is refused; what the lines before it did
/// stands. If memory or a write failed, what was written is a beginning of the run's text; if the
/// disk failed, it begins with the text of the lines before; after a read that failed nothing was
/// written. A fault of the disk is answered only if the disk has counted a failure, or if the store
/// had stopped or was near the end of its numbers. Gives back the disk in every case. The script is
/// all that the reader gives; of a reader that does not tell its bytes the clause says that there is
/// one. Of a script with a line `stop` it says something if the disk is honest.
pub fn run_script<D: SectorDisk, R: Read, W: Write>(
    alloc: Global,
    store: Store<D>,
    reader: &mut R,
    writer: &mut W,
) -> (Result<(), ScriptFault>, D)
    ensures { (script : List ℕ) × IfSome (R.remaining reader.old) (λ input. script ≡ input)
        × ((events : List PlainEvent) → length events ≡ store.confirmed + store.waiting →
        MayStop (D.medium store.disk) script →
        Runs store.machine.limits (no_clients store.machine.state events) script
        (W.contents writer.old) (W.contents writer.new) result.0)
        × (IsYoung store → MayStop (D.medium store.disk) script → IfErr result.0 (λ e.
        DiskFailed e (D.counts store.disk).failures (D.counts result.1).failures))
        × ((events : List PlainEvent) → length events ≡ store.confirmed + store.waiting →
        MayStop (D.medium store.disk) script → Leaves D.medium store.machine.limits
        (no_clients store.machine.state events) script
        (W.contents writer.old) (W.contents writer.new) store result.1 result.0) }
{
    match read_script(alloc, reader) {
        Ok(script) => run_lines(alloc, Hub::new(alloc, store), &script, writer),
        Err(fault) => (Err(fault), store.close()),
    }
}

/// Runs the lines of a script on a server without connections, and gives back its disk.
fn run_lines<D: SectorDisk, W: Write>(
    alloc: Global,
    hub: Hub<D>,
    script: &[u8],
    writer: &mut W,
) -> (Result<(), ScriptFault>, D)
    requires { length script.now ≤ longest_script }
    ensures runs { (limits : Limits) (h : Clients) → StoredMatches limits hub h → h.clients ≡ [] →
        MayStop (D.medium hub.store.disk) script.now →
        SimulatesScript limits h script.now
        (W.contents writer.old) (W.contents writer.new) result.0 }
    ensures leaves { (limits : Limits) (h : Clients) → StoredMatches limits hub h → h.clients ≡ [] →
        MayStop (D.medium hub.store.disk) script.now → Leaves D.medium limits h script.now
        (W.contents writer.old) (W.contents writer.new) hub.store result.1 result.0 }
    ensures disk { HasNumbers (byte_cost * length script.now) hub.store →
        MayStop (D.medium hub.store.disk) script.now →
        IfErr result.0 (λ e. DiskFailed e (D.counts hub.store.disk).failures
        (D.counts result.1).failures) }
{
    let mut hub = hub;
    let mut opened = Vec::new(alloc);
    let mut rest = script;
    let mut number: u64 = 0;
    'lines: while !rest.is_empty() {
        let (text, beyond) = first_line(rest);
        number += 1;
        let Some(line) = line_of(text) else {
            return (Err(ScriptFault::BadLine(number)), hub.close().close());
        };
        if let Line::Stop = line {
            hub = match reopened(alloc, hub) {
                Ok(next) => next,
                Err((fault, disk)) => return (Err(fault), disk),
            };
            opened.clear();
        } else if let Err(fault) = run_line(alloc, &mut hub, &mut opened, line, number, writer) {
            return (Err(fault), hub.close().close());
        }
        rest = beyond;
    }
    (Ok(()), hub.close().close())
}

/// Runs a line that is not `stop`. If the disk has failed, what the connections have to say is
/// written, as far as memory and the writer allow.
fn run_line<D: SectorDisk, W: Write>(
    alloc: Global,
    hub: &mut Hub<D>,
    opened: &mut Vec<Opened>,
    line: Line<'_>,
    number: u64,
    writer: &mut W,
) -> Result<(), ScriptFault>
    requires { plain_line line ≢ Stop }
    ensures line { (limits : Limits) (r : Run) →
        RunMatchesBetween limits hub.old opened.old.items r →
        SimulatesLine D.medium limits number r (plain_line line.entry) hub.old
        hub.new opened.new.items (W.contents writer.old) (W.contents writer.new) result }
    ensures halted { result ≡ Err ScriptFault.Device → HasNumbers (line_cost (plain_line line.entry)) hub.old.store →
        (limits : Limits) (r : Run) → RunMatchesBetween limits hub.old opened.old.items r →
        HaltsIn limits r (plain_line line.entry) hub.new.store.confirmed []
        (W.contents writer.old) (W.contents writer.new) }
    ensures commits { CommitsOrFails hub.old.store hub.new.store result }
    ensures honest { OnOk result (IsHonest (D.medium hub.old.store.disk)
        → IsHonest (D.medium hub.new.store.disk)) }
    ensures costs { Costs D.counts (line_cost (plain_line line.entry))
        hub.old.store hub.new.store result }
{
    match serve_line(alloc, hub, opened, line, number, writer) {
        Err(ScriptFault::Device) => {
            last_words(alloc, hub, opened, writer);
            Err(ScriptFault::Device)
        }
        result => result,
    }
}

/// What a line does, if the disk does not fail, and what is written then.
fn serve_line<D: SectorDisk, W: Write>(
    alloc: Global,
    hub: &mut Hub<D>,
    opened: &mut Vec<Opened>,
    line: Line<'_>,
    number: u64,
    writer: &mut W,
) -> Result<(), ScriptFault>
    requires { plain_line line ≢ Stop }
    ensures line { (limits : Limits) (r : Run) →
        RunMatchesBetween limits hub.old opened.old.items r →
        SimulatesLine D.medium limits number r (plain_line line.entry) hub.old
        hub.new opened.new.items (W.contents writer.old) (W.contents writer.new) result }
    ensures halted { result ≡ Err ScriptFault.Device → HasNumbers (line_cost (plain_line line.entry)) hub.old.store →
        (limits : Limits) (r : Run) → RunMatchesBetween limits hub.old opened.old.items r →
        HaltsAt limits r (plain_line line.entry) hub.new opened.new.items
        (W.contents writer.old) (W.contents writer.new) }
    ensures commits { CommitsOrFails hub.old.store hub.new.store result }
    ensures honest { IsHonest (D.medium hub.old.store.disk)
        → IsHonest (D.medium hub.new.store.disk) }
    ensures costs { Costs D.counts (line_cost (plain_line line.entry))
        hub.old.store hub.new.store result }
{
    match line {
        Line::Open { conn } => open(hub, opened, conn, number)?,
        Line::Data { moment, conn, hex } => {
            let bytes = hex.decode(alloc)?;
            let sender = Sender {
                conn,
                moment: Moment(moment),
                number,
            };
            return feed(alloc, hub, opened, sender, &bytes, writer);
        }
        Line::End { moment, conn } => close(hub, opened, conn, Moment(moment), number)?,
        Line::Tick { moment } => match hub.tick(Moment(moment)) {
            Ok(()) => {}
            Err(_) => return Err(ScriptFault::Device),
        },
        Line::Save => match hub.save() {
            Ok(()) => {}
            Err(_) => return Err(ScriptFault::Device),
        },
        Line::Stop => unreachable!(),
    }
    report(alloc, hub, opened, writer)
}

/// The disk has failed: writes what the connections have to say, as far as memory and the writer
/// allow.
fn last_words<D: SectorDisk, W: Write>(
    alloc: Global,
    hub: &mut Hub<D>,
    opened: &mut [Opened],
    writer: &mut W,
)
    ensures says { (limits : Limits) (r : Run) → MatchesFailed limits hub.old opened.old r →
        WritesPart (W.contents writer.old) (W.contents writer.new) (words_of hub.old.store.confirmed r) }
    ensures grows { WritesMore (W.contents writer.old) (W.contents writer.new) [] }
    ensures store { hub.new.store ≡ hub.old.store }
{
    match report_all(alloc, hub, opened, writer) {
        Ok(()) | Err(_) => {}
    }
}

/// Opens a connection, and keeps those that are open in rising order.
fn open<D: SectorDisk>(
    hub: &mut Hub<D>,
    opened: &mut Vec<Opened>,
    conn: u32,
    number: u64,
) -> Result<(), ScriptFault>
    ensures ok { OnOk result ((limits : Limits) (r : Run) →
        RunMatchesBetween limits hub.old opened.old.items r → (is_open r conn ≡ false)
        × RunMatches limits hub.new opened.new.items (opened_run r conn)) }
    ensures err { IfErr result (λ e. IfRefused e ((e ≡ ScriptFault.InUse number)
        × (hub.new ≡ hub.old))) }
    ensures in_use { IfErr result (λ e. IfRefused e ((limits : Limits) (r : Run) →
        RunMatchesBetween limits hub.old opened.old.items r → is_open r conn ≡ true)) }
    ensures goes { ¬ HasStopped hub.old → result ≢ Err ScriptFault.Device }
    ensures store { hub.new.store ≡ hub.old.store }
    ensures honest { IsHonest (D.medium hub.old.store.disk)
        → IsHonest (D.medium hub.new.store.disk) }
    ensures costs { Costs D.counts 0 hub.old.store hub.new.store result }
{
    opened.reserve(1)?;
    match hub.connect(conn) {
        Ok(()) => {}
        Err(ConnectError::InUse) => return Err(ScriptFault::InUse(number)),
        Err(ConnectError::NoMemory) => return Err(ScriptFault::NoMemory),
        Err(ConnectError::Stopped) => return Err(ScriptFault::Device),
    }
    let place = place_for(opened, conn);
    opened.insert(place, Opened { conn, told: false })?;
    Ok(())
}

/// How many of the connections, which rise, are below a number.
fn place_for(opened: &[Opened], conn: u32) -> usize
    ensures ok { result ≡ prefix_len (λ o. nat_lt o.conn conn) opened.now }
    ensures within { result ≤ length opened.now }
{
    opened.iter().take_while(|other| other.conn < conn).count()
}

/// The client of a connection is gone.
fn close<D: SectorDisk>(
    hub: &mut Hub<D>,
    opened: &mut Vec<Opened>,
    conn: u32,
    moment: Moment,
    number: u64,
) -> Result<(), ScriptFault>
    ensures ok { OnOk result ((limits : Limits) (r : Run) →
        RunMatchesBetween limits hub.old opened.old.items r → (is_open r conn ≡ true)
        × RunMatches limits hub.new opened.new.items
        (record r { hub = hangup limits r.hub conn moment.0 })
        × LastsAs D.medium r.hub (hangup limits r.hub conn moment.0) hub.old.store hub.new.store) }
    ensures err { IfErr result (λ e. IfRefused e ((e ≡ ScriptFault.Unknown number)
        × (hub.new ≡ hub.old))) }
    ensures takes { OnErr result (Takes D.medium hub.old.store [] hub.new.store) }
    ensures halted { result ≡ Err ScriptFault.Device → HasNumbers 3 hub.old.store → (limits : Limits) (r : Run) →
        RunMatches limits hub.old opened.old.items r → MatchesFailed limits hub.new opened.new.items r }
    ensures unknown { IfErr result (λ e. IfRefused e ((limits : Limits) (r : Run) →
        RunMatchesBetween limits hub.old opened.old.items r → is_open r conn ≡ false)) }
    ensures commits { IfErr result (λ e.
        ByFault e (StaysCommitted hub.old.store hub.new.store) ⊤ (StaysCommitted hub.old.store hub.new.store)) }
    ensures honest { IsHonest (D.medium hub.old.store.disk)
        → IsHonest (D.medium hub.new.store.disk) }
    ensures costs { Costs D.counts 3 hub.old.store hub.new.store result }
{
    match hub.hangup(conn, moment) {
        Ok(()) => {}
        Err(error) => return Err(fault_of(error, number)),
    }
    if let Some(place) = place_of(opened, conn) {
        opened.remove(place);
    }
    Ok(())
}

/// Where a connection stands among those that are open.
fn place_of(opened: &[Opened], conn: u32) -> Option<usize>
    ensures ok { result ≡ position (λ o. nat_eq o.conn conn) opened.now }
    ensures within { IfSome result (λ place. place < length opened.now) }
{
    opened.iter().position(|other| other.conn == conn)
}

/// Who sends the bytes of a line, when, and in which line.
#[derive(Clone, Copy)]
struct Sender {
    conn: u32,
    moment: Moment,
    number: u64,
}

/// Feeds a connection all of these bytes, and writes what they let out.
fn feed<D: SectorDisk, W: Write>(
    alloc: Global,
    hub: &mut Hub<D>,
    opened: &mut [Opened],
    sender: Sender,
    bytes: &[u8],
    writer: &mut W,
) -> Result<(), ScriptFault>
    requires { 0 < length bytes.now }
    ensures line { (limits : Limits) (r : Run) → RunMatchesBetween limits hub.old opened.old r →
        SimulatesLine D.medium limits sender.number r
        (Data sender.moment.0 sender.conn bytes.now) hub.old
        hub.new opened.new (W.contents writer.old) (W.contents writer.new) result }
    ensures halted { result ≡ Err ScriptFault.Device → HasNumbers (5 * length bytes.now) hub.old.store →
        (limits : Limits) (r : Run) → RunMatchesBetween limits hub.old opened.old r →
        HaltsAt limits r (Data sender.moment.0 sender.conn bytes.now) hub.new opened.new
        (W.contents writer.old) (W.contents writer.new) }
    ensures commits { CommitsOrFails hub.old.store hub.new.store result }
    ensures honest { IsHonest (D.medium hub.old.store.disk)
        → IsHonest (D.medium hub.new.store.disk) }
    ensures costs { Costs D.counts (5 * length bytes.now) hub.old.store hub.new.store result }
{
    let mut rest = bytes;
    // A round takes at least one byte, since no frame waits as it begins.
    'pieces: for _ in 0..bytes.len() {
        let taken = feed_some(alloc, hub, opened, sender, rest, writer)?;
        rest = &rest[taken..];
        if rest.is_empty() {
            return Ok(());
        }
    }
    Ok(())
}

/// Feeds a connection some of these bytes, and writes what they let out. Answers how many.
fn feed_some<D: SectorDisk, W: Write>(
    alloc: Global,
    hub: &mut Hub<D>,
    opened: &mut [Opened],
    sender: Sender,
    bytes: &[u8],
    writer: &mut W,
) -> Result<usize, ScriptFault>
    ensures ok { IfOk result (λ taken. (limits : Limits) (r : Run) →
        RunMatchesBetween limits hub.old opened.old r →
        SimulatesPiece D.medium limits r sender bytes.now taken hub.old.store
        hub.new opened.new (W.contents writer.old) (W.contents writer.new)) }
    ensures within { IfOk result (λ taken. taken ≤ length bytes.now) }
    ensures err { IfErr result (λ e. ByFault e
        ((limits : Limits) (r : Run) → RunMatchesBetween limits hub.old opened.old r →
        PieceBreaksOff D.medium limits r sender bytes.now hub.old.store hub.new.store
        (W.contents writer.old) (W.contents writer.new))
        (((limits : Limits) (r : Run) → RunMatchesBetween limits hub.old opened.old r →
        PieceFails D.medium limits r sender bytes.now hub.old.store hub.new.store)
        × Appends (W.contents writer.old) (W.contents writer.new) [])
        ((e ≡ ScriptFault.Unknown sender.number)
        × Appends (W.contents writer.old) (W.contents writer.new) []
        × (hub.new ≡ hub.old))) }
    ensures unknown { IfErr result (λ e. IfRefused e ((limits : Limits) (r : Run) →
        RunMatchesBetween limits hub.old opened.old r → is_open r sender.conn ≡ false)) }
    ensures commits { CommitsOrFails hub.old.store hub.new.store result }
    ensures honest { IsHonest (D.medium hub.old.store.disk)
        → IsHonest (D.medium hub.new.store.disk) }
    ensures halted { result ≡ Err ScriptFault.Device → HasNumbers (4 + length bytes.now) hub.old.store →
        (limits : Limits) (r : Run) → RunMatchesBetween limits hub.old opened.old r →
        PieceHalts limits r sender bytes.now hub.new opened.new }
    ensures spends { HasNumbers (4 + length bytes.now) hub.old.store → IfOk result (λ taken.
        Spends D.counts (4 + taken) hub.old.store hub.new.store) }
    ensures disk { HasNumbers (4 + length bytes.now) hub.old.store → IfErr result (λ e.
        DiskFailed e (D.counts hub.old.store.disk).failures
        (D.counts hub.new.store.disk).failures) }
{
    match hub.feed(sender.conn, bytes, sender.moment) {
        Ok(taken) => {
            report(alloc, hub, opened, writer)?;
            Ok(taken)
        }
        Err(error) => Err(fault_of(error, sender.number)),
    }
}

/// The fault of a line of which a call of the hub was refused.
fn fault_of(error: ServeError, number: u64) -> ScriptFault
    ensures { result ≡ of_serve_error error number }
{
    match error {
        ServeError::Unknown => ScriptFault::Unknown(number),
        ServeError::Device | ServeError::Stopped => ScriptFault::Device,
    }
}
