//! The records of events: written, and read.

ghost use Rattle.std.specs.Prelude.{
  ◌≡◌,
  ◌≤◌,
  ◌<◌,
  ◌+◌,
  ◌^◌,
  ◌↔◌,
  ◌++◌,
  IsTrue,
  true,
  length,
  drop,
  Option,
  Some,
  option_map,
  IfSome,
};
ghost use Rattle.std.specs.Bool.{OnTrue, OnFalse};
ghost use Rattle.ipc_base.specs.Fields.{Puts};
ghost use Rattle.ipc_engine.specs.Event.{PlainEvent};
ghost use Rattle.ipc_engine.specs.View.{plain_event};
ghost use Rattle.ipc_image.specs.Format.{longest_record};
ghost use Rattle.ipc_image.specs.Records.{
  kind_of,
  details,
  record_bytes,
  HasDetails,
  HasRecord,
  BeginsWith,
  plain_found,
};
ghost use Rattle.ipc_image.specs.RecordParts.{IsText, IsOf};

use ipc_base::{Cred, Cursor, Moment, Pid, Put};
use ipc_engine::Event;
use ipc_wire::read_request;

/// The kinds of records.
const CONNECT: u8 = 1;

const CALL: u8 = 2;

const INTERRUPT: u8 = 3;

const TICK: u8 = 4;

const EXIT: u8 = 5;

const RESTART: u8 = 6;

/// How many bytes the record of an event takes, its length with it.
pub fn record_len(event: &Event<'_>) -> usize
    ensures exact { result ≡ length (record_bytes (plain_event event.now)) }
    ensures bounded { result ≤ longest_record }
{
    13 + match event {
        Event::Connect { .. } => 12,
        Event::Call { request, .. } => 4 + request.bytes().len(),
        Event::Interrupt { .. } => 8,
        Event::Exit { .. } => 4,
        Event::Tick { .. } => 0,
        Event::Restart => 0,
    }
}

/// Writes the record of an event to the front of the buffer. Answers `false`, and changes nothing, if the
/// buffer is shorter than the record or the request is too long for a length field of four bytes.
#[tactic(auto, unfolding(crate::specs::Records::record_bytes))]
pub fn write_event(event: &Event<'_>, out: &mut [u8]) -> bool
    ensures fits { IsTrue result ↔ ((length (record_bytes (plain_event event.now)) ≤ length out.old)
        × (9 + length (details (plain_event event.now)) < 2 ^ 32)) }
    ensures written { OnTrue result (out.new
        ≡ record_bytes (plain_event event.now) ++ drop (length (record_bytes (plain_event event.now))) out.old) }
    ensures has { OnTrue result (HasRecord (plain_event event.now)) }
    ensures unchanged { OnFalse result (out.new ≡ out.old) }
{
    let whole = record_len(event);
    let Ok(length) = u32::try_from(whole - 4) else {
        return false;
    };
    if whole > out.len() {
        return false;
    }
    let mut put = Put::new(0);
    put.u32(out, length);
    put.u8(out, kind_of(event));
    put.u64(out, event.moment().0);
    put_details(&mut put, out, event);
    true
}

/// The kind of an event's record.
fn kind_of(event: &Event<'_>) -> u8
    ensures { result ≡ kind_of (plain_event event.now) }
{
    match event {
        Event::Connect { .. } => CONNECT,
        Event::Call { .. } => CALL,
        Event::Interrupt { .. } => INTERRUPT,
        Event::Tick { .. } => TICK,
        Event::Exit { .. } => EXIT,
        Event::Restart => RESTART,
    }
}

/// Puts what an event says besides its moment into a buffer that has room for it.
fn put_details(put: &mut Put, out: &mut [u8], event: &Event<'_>)
    requires { put.old + length (details (plain_event event.now)) ≤ length out.old }
    ensures has { HasDetails (plain_event event.now) }
    ensures bytes { Puts (details (plain_event event.now)) put.old put.new out.old out.new true }
{
    match event {
        Event::Connect { cred, serial, .. } => {
            put.u32(out, *serial);
            put.u32(out, cred.uid);
            put.u32(out, cred.gid);
        }
        Event::Call { pid, request, .. } => {
            put.u32(out, pid.0);
            put.bytes(out, request.bytes());
        }
        Event::Interrupt { pid, serial, .. } => {
            put.u32(out, pid.0);
            put.u32(out, *serial);
        }
        Event::Exit { pid, .. } => {
            put.u32(out, pid.0);
        }
        Event::Tick { .. } => {}
        Event::Restart => {}
    }
}

/// The event with whose record the bytes begin, and how many bytes the record takes; `None` if they begin with
/// no whole record. It takes no memory: the text of a request stays where it is.
pub fn read_event(bytes: &[u8]) -> Option<(usize, Event<'_>)>
    ensures some { IfSome (option_map plain_found result) (λ found. BeginsWith bytes.now found.1
        × (found.0 ≡ length (record_bytes found.1))) }
    ensures only { (e : PlainEvent) → BeginsWith bytes.now e
        → option_map plain_found result ≡ Some (length (record_bytes e), e) }
{
    let mut cursor = Cursor::new(bytes);
    let length = cursor.u32()? as usize;
    let text = cursor.bytes(length)?;
    let event = read_text(text)?;
    Some((4 + length, event))
}

/// The event of which these bytes are the record without its length.
fn read_text(text: &[u8]) -> Option<Event<'_>>
    ensures some { IfSome (option_map plain_event result) (λ e. IsText text.now e) }
    ensures only { (e : PlainEvent) → IsText text.now e → option_map plain_event result ≡ Some e }
{
    let mut cursor = Cursor::new(text);
    let kind = cursor.u8()?;
    let moment = Moment(cursor.u64()?);
    read_details(kind, moment, cursor.rest())
}

/// The event of this kind at this moment that says these bytes besides.
fn read_details(kind: u8, moment: Moment, bytes: &[u8]) -> Option<Event<'_>>
    ensures some { IfSome (option_map plain_event result) (λ e. IsOf kind moment.0 bytes.now e) }
    ensures only { (e : PlainEvent) → IsOf kind moment.0 bytes.now e → option_map plain_event result ≡ Some e }
{
    match kind {
        CONNECT => read_connect(moment, bytes),
        CALL => read_call(moment, bytes),
        INTERRUPT => read_interrupt(moment, bytes),
        TICK if bytes.is_empty() => Some(Event::Tick { moment }),
        EXIT => read_exit(moment, bytes),
        RESTART if bytes.is_empty() && moment.0 == 0 => Some(Event::Restart),
        _ => None,
    }
}

fn read_connect(moment: Moment, bytes: &[u8]) -> Option<Event<'_>>
    ensures some { IfSome (option_map plain_event result) (λ e. IsOf 1 moment.0 bytes.now e) }
    ensures only { (e : PlainEvent) → IsOf 1 moment.0 bytes.now e → option_map plain_event result ≡ Some e }
{
    let mut cursor = Cursor::new(bytes);
    let serial = cursor.u32()?;
    let uid = cursor.u32()?;
    let gid = cursor.u32()?;
    if !cursor.is_empty() {
        return None;
    }
    let cred = Cred { uid, gid };
    Some(Event::Connect {
        cred,
        serial,
        moment,
    })
}

fn read_call(moment: Moment, bytes: &[u8]) -> Option<Event<'_>>
    ensures some { IfSome (option_map plain_event result) (λ e. IsOf 2 moment.0 bytes.now e) }
    ensures only { (e : PlainEvent) → IsOf 2 moment.0 bytes.now e → option_map plain_event result ≡ Some e }
{
    let mut cursor = Cursor::new(bytes);
    let pid = Pid(cursor.u32()?);
    let request = read_request(cursor.rest())?;
    Some(Event::Call {
        pid,
        request,
        moment,
    })
}

fn read_interrupt(moment: Moment, bytes: &[u8]) -> Option<Event<'_>>
    ensures some { IfSome (option_map plain_event result) (λ e. IsOf 3 moment.0 bytes.now e) }
    ensures only { (e : PlainEvent) → IsOf 3 moment.0 bytes.now e → option_map plain_event result ≡ Some e }
{
    let mut cursor = Cursor::new(bytes);
    let pid = Pid(cursor.u32()?);
    let serial = cursor.u32()?;
    if !cursor.is_empty() {
        return None;
    }
    Some(Event::Interrupt {
        pid,
        serial,
        moment,
    })
}

fn read_exit(moment: Moment, bytes: &[u8]) -> Option<Event<'_>>
    ensures some { IfSome (option_map plain_event result) (λ e. IsOf 5 moment.0 bytes.now e) }
    ensures only { (e : PlainEvent) → IsOf 5 moment.0 bytes.now e → option_map plain_event result ≡ Some e }
{
    let mut cursor = Cursor::new(bytes);
    let pid = Pid(cursor.u32()?);
    if !cursor.is_empty() {
        return None;
    }
    Some(Event::Exit { pid, moment })
}
