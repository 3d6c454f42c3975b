//! What a script's run writes: a line for each frame, and one for a connection that the server has
//! ended.

ghost use Rattle.std.specs.Prelude.{◌≡◌, ⊤, ◌<◌, ◌≤◌, ℕ, List, [], ◌++◌, length, string_bytes};
ghost use Rattle.std.specs.Prelude.{Err, IfOk, IfErr, IfSome, OnOk};
ghost use Rattle.std.specs.Io.KnownBytes.{Appends};
ghost use Rattle.ipc_limits.specs.declared.limits.Limits.{Limits};
ghost use Rattle.ipc_disk.specs.Medium.{IsHonest};
ghost use Rattle.ipc_store.specs.Histories.{Takes};
ghost use Rattle.ipc_hub.specs.Clients.{Clients, accepted, client_at};
ghost use Rattle.ipc_hub.specs.Relations.Matches.{IsFrame, HubMatches};
ghost use Rattle.ipc_script.specs.Script.{Run, WritesPart, WritesMore, conn_text, report as report_of};
ghost use Rattle.ipc_script.specs.Script.{frame_line as frame_text, end_line as end_text};
ghost use Rattle.ipc_script.specs.Relations.Faults.{ByFault, WorldFailed};
ghost use Rattle.ipc_script.specs.Relations.Matches.{RunMatches, ProgressMatches, HasWholeFrames, MatchesFailed};
ghost use Rattle.ipc_script.specs.Relations.Matches.{CanReport, opened_of};
ghost use Rattle.ipc_script.specs.Relations.Lasts.{Empties};
ghost use Rattle.ipc_script.specs.Relations.Numbers.{Costs, HasNumbers};
ghost use Rattle.ipc_script.specs.Relations.Report.{without_frames, frames_text, SimulatesReportAt};

use crate::fault::ScriptFault;
use ipc_disk::SectorDisk;
use ipc_hub::Hub;
use std::alloc::{AllocError, Global};
use std::io::Write;

/// A connection that the script has open.
#[derive(Clone, Copy)]
pub struct Opened {
    pub conn: u32,
    /// Its end was written.
    pub told: bool,
}

/// Makes what was accepted last, and lets its frames be seen. Then writes the frames of each
/// connection, a line each, and takes them; then, once, that the server has ended it. If the disk
/// fails nothing is written.
pub fn report<D: SectorDisk, W: Write>(
    alloc: Global,
    hub: &mut Hub<D>,
    opened: &mut [Opened],
    writer: &mut W,
) -> Result<(), ScriptFault>
    ensures ok { OnOk result ((limits : Limits) (r : Run) → RunMatches limits hub.old opened.old r →
        ProgressMatches limits hub.new opened.new
        (W.contents writer.old) (W.contents writer.new) (report_of r)) }
    ensures err { IfErr result (λ e. ByFault e
        ((limits : Limits) (r : Run) → RunMatches limits hub.old opened.old r →
        WritesPart (W.contents writer.old) (W.contents writer.new) (report_of r).text)
        (Appends (W.contents writer.old) (W.contents writer.new) []) ⊥) }
    ensures halted { result ≡ Err ScriptFault.Device → HasNumbers 1 hub.old.store → (limits : Limits) (r : Run) →
        RunMatches limits hub.old opened.old r → MatchesFailed limits hub.new opened.new r }
    ensures takes { Takes D.medium hub.old.store [] hub.new.store }
    ensures empties { Empties hub.new.store result }
    ensures honest { IsHonest (D.medium hub.old.store.disk)
        → IsHonest (D.medium hub.new.store.disk) }
    ensures costs { Costs D.counts 1 hub.old.store hub.new.store result }
{
    match hub.release() {
        Ok(()) => report_all(alloc, hub, opened, writer),
        Err(_) => Err(ScriptFault::Device),
    }
}

/// Writes the frames that are seen of each connection, and takes them; then, once, that the server
/// has ended it.
pub fn report_all<D: SectorDisk, W: Write>(
    alloc: Global,
    hub: &mut Hub<D>,
    opened: &mut [Opened],
    writer: &mut W,
) -> Result<(), ScriptFault>
    ensures ok { OnOk result ((limits : Limits) (r : Run) → RunMatches limits hub.old opened.old r →
        hub.old.store.confirmed ≡ accepted r.hub → ProgressMatches limits hub.new opened.new
        (W.contents writer.old) (W.contents writer.new) (report_of r)) }
    ensures says { (limits : Limits) (r : Run) → CanReport limits hub.old.hub opened.old r →
        WritesPart (W.contents writer.old) (W.contents writer.new) (report_of r).text }
    ensures err { IfErr result (λ e. WorldFailed e ⊤) }
    ensures store { hub.new.store ≡ hub.old.store }
    ensures grows { WritesMore (W.contents writer.old) (W.contents writer.new) [] }
{
    for (place, connection) in opened.iter_mut().enumerate() {
        report_connection(alloc, hub, place, connection, writer)?;
    }
    Ok(())
}

/// Writes what there is to say of a connection, which stands at this place among those that are
/// open.
fn report_connection<D: SectorDisk, W: Write>(
    alloc: Global,
    hub: &mut Hub<D>,
    place: usize,
    connection: &mut Opened,
    writer: &mut W,
) -> Result<(), ScriptFault>
    ensures ok { OnOk result ((limits : Limits) (r : Run) →
        HubMatches limits (accepted r.hub) hub.old.hub r.hub →
        IfSome (client_at r.hub connection.old.conn) HasWholeFrames →
        connection.old ≡ opened_of r.told connection.old.conn →
        SimulatesReportAt limits r hub.new.hub connection.old.conn connection.new
        (W.contents writer.old) (W.contents writer.new)) }
    ensures err { IfErr result (λ e. WorldFailed e ((limits : Limits) (r : Run) →
        HubMatches limits (accepted r.hub) hub.old.hub r.hub →
        IfSome (client_at r.hub connection.old.conn) HasWholeFrames →
        connection.old ≡ opened_of r.told connection.old.conn →
        WritesPart (W.contents writer.old) (W.contents writer.new)
        (conn_text r connection.old.conn))) }
    ensures store { hub.new.store ≡ hub.old.store }
    ensures grows { WritesMore (W.contents writer.old) (W.contents writer.new) [] }
{
    if hub.is_silent(place, connection.conn) {
        return Ok(());
    }
    report_frames(alloc, hub, connection.conn, writer)?;
    if !connection.told && hub.ended(connection.conn) {
        connection.told = true;
        let line = end_line(alloc, connection.conn)?;
        write_all(writer, line.as_bytes())?;
    }
    Ok(())
}

/// Writes the frames that the client of a connection may see, and takes them.
fn report_frames<D: SectorDisk, W: Write>(
    alloc: Global,
    hub: &mut Hub<D>,
    conn: u32,
    writer: &mut W,
) -> Result<(), ScriptFault>
    ensures ok { OnOk result ((limits : Limits) (h : Clients) →
        HubMatches limits (accepted h) hub.old.hub h → IfSome (client_at h conn) HasWholeFrames →
        HubMatches limits (accepted h) hub.new.hub (without_frames h conn)
        × Appends (W.contents writer.old) (W.contents writer.new) (frames_text h conn)) }
    ensures err { IfErr result (λ e. WorldFailed e ((limits : Limits) (h : Clients) →
        HubMatches limits (accepted h) hub.old.hub h → IfSome (client_at h conn) HasWholeFrames →
        WritesPart (W.contents writer.old) (W.contents writer.new) (frames_text h conn))) }
    ensures store { hub.new.store ≡ hub.old.store }
    ensures grows { WritesMore (W.contents writer.old) (W.contents writer.new) [] }
{
    'frames: while !hub.output(conn).is_empty() {
        let output = hub.output(conn);
        let count = first_frame(output);
        let line = frame_line(alloc, conn, &output[..count])?;
        write_all(writer, line.as_bytes())?;
        hub.consume(conn, count);
    }
    Ok(())
}

/// How many bytes the first frame of an output has.
fn first_frame(output: &[u8]) -> usize
    requires { 0 < length output.now }
    ensures some { 0 < result }
    ensures within { result ≤ length output.now }
    ensures frame { (frame rest : List ℕ) → IsFrame frame → output.now ≡ frame ++ rest →
        result ≡ length frame }
{
    match output.split_first_chunk::<4>() {
        Some((length, rest)) => 4 + rest.len().min(u32::from_be_bytes(*length) as usize),
        None => output.len(),
    }
}

/// The line of a frame.
fn frame_line(alloc: Global, conn: u32, frame: &[u8]) -> Result<String, ScriptFault>
    ensures ok { IfOk result (λ line. string_bytes line ≡ frame_text conn frame.now) }
    ensures err { IfErr result (λ e. WorldFailed e ⊤) }
{
    let digits = hex::encode(alloc, frame)?;
    Ok(format!(in alloc; "{conn} {digits}\n")?)
}

/// The line that says that a connection has ended.
fn end_line(alloc: Global, conn: u32) -> Result<String, ScriptFault>
    ensures ok { IfOk result (λ line. string_bytes line ≡ end_text conn) }
    ensures err { IfErr result (λ e. WorldFailed e ⊤) }
{
    Ok(format!(in alloc; "{conn} end\n")?)
}

/// A write that fails or takes nothing is a fault.
pub(crate) fn write_all<W: Write>(writer: &mut W, bytes: &[u8]) -> Result<(), ScriptFault>
    ensures ok { OnOk result (Appends (W.contents writer.old) (W.contents writer.new) bytes.now) }
    ensures err { IfErr result (λ e.
        WorldFailed e (WritesPart (W.contents writer.old) (W.contents writer.new) bytes.now)) }
    ensures grows { WritesMore (W.contents writer.old) (W.contents writer.new) [] }
{
    let mut rest = bytes;
    'pieces: while !rest.is_empty() {
        let Ok(taken) = writer.write(rest) else {
            return Err(ScriptFault::Output);
        };
        if taken == 0 {
            return Err(ScriptFault::Output);
        }
        rest = &rest[taken..];
    }
    Ok(())
}
