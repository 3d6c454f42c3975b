//! A listing of the objects of a store.

ghost use Rattle.std.specs.Prelude.{◌≡◌, string_bytes, Some, IfOk, OnOk, OnErr};
ghost use Rattle.std.specs.Io.KnownBytes.{Appends};
ghost use Rattle.ipc_engine.specs.Listing.{plain_row, rows_of};
ghost use Rattle.ipc_script.specs.Dump.{dump_text, row_line as row_text};
ghost use Rattle.ipc_script.specs.Dump.{number_text, key_text, mode_text, is_plain, byte_text, name_text};
ghost use Rattle.ipc_script.specs.Relations.Columns.{msg_text, sem_text, pmq_text, psm_text, shm_text, seg_text};
ghost use Rattle.ipc_script.specs.Script.{WritesPart};
ghost use Rattle.ipc_script.specs.declared.listing.DumpError.TheVariants.{NoMemory};

use crate::report::write_all;
use ipc_disk::SectorDisk;
use ipc_engine::{Engine, Row};
use ipc_store::Store;
use std::alloc::{AllocError, Global};
use std::fmt;
use std::io::Write;
use thiserror::Error;

/// Why a listing broke off. What was written before is a beginning of it.
#[derive(Clone, Copy, Debug, PartialEq, Eq, Error)]
pub enum DumpError {
    /// Memory was refused.
    #[error("no memory")]
    NoMemory,
    /// A write failed, or took nothing.
    #[error("output fault")]
    Output,
}

impl From<AllocError> for DumpError {
    ghost from_gives = { λ _ e. e ≡ NoMemory };

    fn from(_: AllocError) -> Self {
        DumpError::NoMemory
    }
}

/// Writes a line for each object of the machine of a store, as `list_objects` does.
pub fn dump<D: SectorDisk, W: Write>(
    alloc: Global,
    store: &Store<D>,
    writer: &mut W,
) -> Result<(), DumpError>
    ensures ok { OnOk result (Appends (W.contents writer.old) (W.contents writer.new)
        (dump_text (rows_of store.now.machine.state))) }
    ensures err { OnErr result (WritesPart (W.contents writer.old) (W.contents writer.new)
        (dump_text (rows_of store.now.machine.state))) }
{
    list_objects(alloc, store.engine(), writer)
}

/// Writes a line for each object of a machine, as ipcs(1) lists them. First the message queues and then the
/// semaphore sets, each by rising identifier: `msg` or `sem`, and then its identifier, key, mode, owner and
/// group; of a queue its bytes of text and its messages, of a semaphore set how many semaphores it has. Then
/// the POSIX queues, by name: `pmq`, its mode, owner and group, its messages, the most messages, the most bytes
/// of one, and its name. Then the named semaphores and the segments, by name: `psm` or `shm`, and then its mode,
/// owner and group, the value of a semaphore or the bytes of a segment, and its name. What was unlinked has none,
/// so that its line ends with a space. A backslash of a name, and a byte that is no character from `!` to `~`, is
/// written as `\x` and two hexadecimal digits. Last come the System V segments, by rising identifier: `seg`, and then
/// its identifier, key, mode, owner and group, its bytes, and how many have it attached.
pub fn list_objects<W: Write>(
    alloc: Global,
    engine: &Engine,
    writer: &mut W,
) -> Result<(), DumpError>
    ensures ok { OnOk result (Appends (W.contents writer.old) (W.contents writer.new)
        (dump_text (rows_of engine.now.state))) }
    ensures err { OnErr result (WritesPart (W.contents writer.old) (W.contents writer.new)
        (dump_text (rows_of engine.now.state))) }
{
    let rows = engine.list(alloc)?;
    for row in rows.iter() {
        let line = line_of(alloc, row)?;
        if write_all(writer, line.as_bytes()).is_err() {
            return Err(DumpError::Output);
        }
    }
    Ok(())
}

/// A number in ten places.
#[derive(Clone, Copy)]
struct Number(u128);

impl fmt::Display for Number {
    ghost output = { λ number. Some (number_text number.0) };

    fn fmt<W: fmt::Write>(&self, f: &mut fmt::Formatter<W>) -> fmt::Result {
        write!(f, "{:>10}", self.0)
    }
}

/// A key in eleven places.
#[derive(Clone, Copy)]
struct Key(i32);

impl fmt::Display for Key {
    ghost output = { λ key. Some (key_text key.0) };

    fn fmt<W: fmt::Write>(&self, f: &mut fmt::Formatter<W>) -> fmt::Result {
        write!(f, "{:>11}", self.0)
    }
}

/// A mode in four octal digits.
#[derive(Clone, Copy)]
struct Mode(u32);

impl fmt::Display for Mode {
    ghost output = { λ mode. Some (mode_text mode.0) };

    fn fmt<W: fmt::Write>(&self, f: &mut fmt::Formatter<W>) -> fmt::Result {
        write!(f, "{:04o}", self.0)
    }
}

/// The line of a message queue.
#[derive(Clone, Copy)]
struct MsgLine {
    id: Number,
    key: Key,
    mode: Mode,
    uid: Number,
    gid: Number,
    bytes: Number,
    messages: Number,
}

impl fmt::Display for MsgLine {
    ghost output = { λ line. Some (msg_text line) };

    fn fmt<W: fmt::Write>(&self, f: &mut fmt::Formatter<W>) -> fmt::Result {
        write!(
            f,
            "msg {} {} {} {} {} {} {}\n",
            self.id, self.key, self.mode, self.uid, self.gid, self.bytes, self.messages
        )
    }
}

/// The line of a semaphore set.
#[derive(Clone, Copy)]
struct SemLine {
    id: Number,
    key: Key,
    mode: Mode,
    uid: Number,
    gid: Number,
    nsems: Number,
}

impl fmt::Display for SemLine {
    ghost output = { λ line. Some (sem_text line) };

    fn fmt<W: fmt::Write>(&self, f: &mut fmt::Formatter<W>) -> fmt::Result {
        write!(
            f,
            "sem {} {} {} {} {} {}\n",
            self.id, self.key, self.mode, self.uid, self.gid, self.nsems
        )
    }
}

/// A byte of a name, as it is if it is plain; else `\x` and two hexadecimal digits.
#[derive(Clone, Copy)]
struct Byte(u8);

impl fmt::Display for Byte {
    ghost output = { λ byte. Some (byte_text byte.0) };

    fn fmt<W: fmt::Write>(&self, f: &mut fmt::Formatter<W>) -> fmt::Result {
        if is_plain(self.0) {
            write!(f, "{}", char::from(self.0))
        } else {
            write!(f, "\\x{:02x}", self.0)
        }
    }
}

/// Whether it is a character that prints, and neither a space nor a backslash.
fn is_plain(byte: u8) -> bool
    ensures { result ≡ is_plain byte }
{
    byte.is_ascii_graphic() && byte != b'\\'
}

/// A name.
#[derive(Clone, Copy)]
struct Name<'a>(&'a [u8]);

impl<'a> fmt::Display for Name<'a> {
    ghost output = { λ name. Some (name_text name.0.now) };

    fn fmt<W: fmt::Write>(&self, f: &mut fmt::Formatter<W>) -> fmt::Result {
        for byte in self.0 {
            write!(f, "{}", Byte(*byte))?;
        }
        Ok(())
    }
}

/// The line of a POSIX queue.
#[derive(Clone, Copy)]
struct PmqLine<'a> {
    mode: Mode,
    uid: Number,
    gid: Number,
    messages: Number,
    maxmsg: Number,
    msgsize: Number,
    name: Name<'a>,
}

impl<'a> fmt::Display for PmqLine<'a> {
    ghost output = { λ line. Some (pmq_text line) };

    fn fmt<W: fmt::Write>(&self, f: &mut fmt::Formatter<W>) -> fmt::Result {
        write!(
            f,
            "pmq {} {} {} {} {} {} {}\n",
            self.mode, self.uid, self.gid, self.messages, self.maxmsg, self.msgsize, self.name
        )
    }
}

/// The line of a named semaphore.
#[derive(Clone, Copy)]
struct PsmLine<'a> {
    mode: Mode,
    uid: Number,
    gid: Number,
    value: Number,
    name: Name<'a>,
}

impl<'a> fmt::Display for PsmLine<'a> {
    ghost output = { λ line. Some (psm_text line) };

    fn fmt<W: fmt::Write>(&self, f: &mut fmt::Formatter<W>) -> fmt::Result {
        write!(
            f,
            "psm {} {} {} {} {}\n",
            self.mode, self.uid, self.gid, self.value, self.name
        )
    }
}

/// The line of a segment.
#[derive(Clone, Copy)]
struct ShmLine<'a> {
    mode: Mode,
    uid: Number,
    gid: Number,
    length: Number,
    name: Name<'a>,
}

impl<'a> fmt::Display for ShmLine<'a> {
    ghost output = { λ line. Some (shm_text line) };

    fn fmt<W: fmt::Write>(&self, f: &mut fmt::Formatter<W>) -> fmt::Result {
        write!(
            f,
            "shm {} {} {} {} {}\n",
            self.mode, self.uid, self.gid, self.length, self.name
        )
    }
}

/// The line of a System V segment.
#[derive(Clone, Copy)]
struct SegLine {
    id: Number,
    key: Key,
    mode: Mode,
    uid: Number,
    gid: Number,
    length: Number,
    attachments: Number,
}

impl fmt::Display for SegLine {
    ghost output = { λ line. Some (seg_text line) };

    fn fmt<W: fmt::Write>(&self, f: &mut fmt::Formatter<W>) -> fmt::Result {
        write!(
            f,
            "seg {} {} {} {} {} {} {}\n",
            self.id, self.key, self.mode, self.uid, self.gid, self.length, self.attachments
        )
    }
}

/// The line of an object. Refused for want of memory.
fn line_of(alloc: Global, row: &Row<&[u8]>) -> Result<String, AllocError>
    ensures { IfOk result (λ line. string_bytes line ≡ row_text (plain_row row.now)) }
{
    match *row {
        Row::Msg {
            id,
            key,
            mode,
            uid,
            gid,
            bytes,
            messages,
        } => MsgLine {
            id: Number(u128::from(id.0)),
            key: Key(key),
            mode: Mode(mode),
            uid: Number(u128::from(uid)),
            gid: Number(u128::from(gid)),
            bytes: Number(bytes),
            messages: Number(messages as u128),
        }
        .to_string(alloc),
        Row::Sem {
            id,
            key,
            mode,
            uid,
            gid,
            nsems,
        } => SemLine {
            id: Number(u128::from(id.0)),
            key: Key(key),
            mode: Mode(mode),
            uid: Number(u128::from(uid)),
            gid: Number(u128::from(gid)),
            nsems: Number(nsems as u128),
        }
        .to_string(alloc),
        Row::Pmq {
            mode,
            uid,
            gid,
            messages,
            maxmsg,
            msgsize,
            name,
        } => PmqLine {
            mode: Mode(mode),
            uid: Number(u128::from(uid)),
            gid: Number(u128::from(gid)),
            messages: Number(messages as u128),
            maxmsg: Number(u128::from(maxmsg)),
            msgsize: Number(u128::from(msgsize)),
            name: Name(name),
        }
        .to_string(alloc),
        Row::Psm {
            mode,
            uid,
            gid,
            value,
            name,
        } => PsmLine {
            mode: Mode(mode),
            uid: Number(u128::from(uid)),
            gid: Number(u128::from(gid)),
            value: Number(u128::from(value)),
            name: Name(name),
        }
        .to_string(alloc),
        Row::Shm {
            mode,
            uid,
            gid,
            length,
            name,
        } => ShmLine {
            mode: Mode(mode),
            uid: Number(u128::from(uid)),
            gid: Number(u128::from(gid)),
            length: Number(length as u128),
            name: Name(name),
        }
        .to_string(alloc),
        Row::Seg {
            id,
            key,
            mode,
            uid,
            gid,
            length,
            attachments,
        } => SegLine {
            id: Number(u128::from(id.0)),
            key: Key(key),
            mode: Mode(mode),
            uid: Number(u128::from(uid)),
            gid: Number(u128::from(gid)),
            length: Number(length as u128),
            attachments: Number(attachments as u128),
        }
        .to_string(alloc),
    }
}
