//! Requests of one moment, which a hub that is fed by hand makes last at once.

use crate::fault::Fault;
use crate::halted::{consume, feed};
use crate::request::Field::{Bytes, Long, Word};
use crate::request::{Field, GROUP, HELLO, MAKE, MSGGET, MSGSND, USER, reply, request};
use crate::runs::{new_device, sector};
use crate::told::Told;
use ipc_disk::{MemoryDisk, SectorDisk};
use ipc_hub::Hub;
use ipc_image::{Format, JOURNAL};
use ipc_limits::Limits;
use ipc_store::Store;
use std::alloc::Global;

/// How many clients there are.
const CLIENTS: u32 = 3;

/// Where the journal's header says how many sectors of it are used.
const USED: usize = 8;

/// The bytes before a batch in a tagged sector.
const TAG: usize = 16;

/// What a hub was left with: its disk, and the clients that have the reply to a msgsnd.
#[derive(Drop)]
struct Left {
    disk: MemoryDisk,
    replies: u64,
}

/// Each of three clients sends a message at one moment, and then one release makes the three last. What it has written,
/// with the length of the batch, and the clients that have a reply.
pub(crate) fn batch_of_three(alloc: Global, limits: &Limits) -> Result<Told, Fault> {
    let before = hub_left(alloc, limits, false)?;
    let mut after = hub_left(alloc, limits, true)?;
    let bytes = u64::from(last_batch(&mut after.disk, Format::of(limits))?);
    let writes = after.disk.writes().saturating_sub(before.disk.writes());
    let syncs = after.disk.syncs().saturating_sub(before.disk.syncs());
    Ok(Told::new(
        "a batch of # bytes, # writes, # syncs, # replies",
        &[bytes, writes, syncs, after.replies],
    ))
}

/// Feeds a hub on a new device, with the messages or without.
fn hub_left(alloc: Global, limits: &Limits, messages: bool) -> Result<Left, Fault> {
    let mut hub = match Store::open(alloc, new_device(alloc, limits)?) {
        Ok(store) => Hub::new(alloc, store),
        Err(unopened) => return Err(Fault::from(unopened.error)),
    };
    let served = serve(alloc, &mut hub, messages);
    let disk = hub.close().close();
    let replies = served?;
    Ok(Left { disk, replies })
}

/// Makes the clients' processes and their queue, and then sends the messages, if that is asked for. How many clients
/// may see the reply to theirs, and nothing else.
fn serve(alloc: Global, hub: &mut Hub<MemoryDisk>, messages: bool) -> Result<u64, Fault> {
    for client in 1..=CLIENTS {
        hub.connect(client)?;
    }
    feed_each(alloc, hub, HELLO, &[Word(USER), Word(GROUP)])?;
    let get = request(alloc, 1, MSGGET, &[Word(7), Word(MAKE)])?;
    feed(hub, 1, &get)?;
    hub.release()?;
    for client in 1..=CLIENTS {
        consume(hub, client);
    }
    if messages {
        feed_each(
            alloc,
            hub,
            MSGSND,
            &[Word(1), Word(0), Long(1), Bytes(b"hi")],
        )?;
        hub.release()?;
    }
    replies_of(alloc, hub)
}

/// Gives each client's connection the same request, all at one moment.
fn feed_each(
    alloc: Global,
    hub: &mut Hub<MemoryDisk>,
    opcode: u8,
    fields: &[Field],
) -> Result<(), Fault> {
    for client in 1..=CLIENTS {
        let piece = request(alloc, client, opcode, fields)?;
        feed(hub, client, &piece)?;
    }
    Ok(())
}

/// How many clients may see a reply that a call is done, and nothing else.
fn replies_of(alloc: Global, hub: &Hub<MemoryDisk>) -> Result<u64, Fault> {
    let mut replies: u64 = 0;
    for client in 1..=CLIENTS {
        let wanted = reply(alloc, client)?;
        replies = replies.saturating_add(u64::from(hub.output(client) == wanted.as_slice()));
    }
    Ok(replies)
}

/// How many bytes the last batch of the journal has, with its length; it is one of less than a sector.
fn last_batch(disk: &mut MemoryDisk, form: Format) -> Result<u32, Fault> {
    if form.tags {
        return last_tagged(disk, form.journal);
    }
    let header = sector(disk, JOURNAL)?;
    let used = number_at(&header, USED);
    let last = sector(disk, JOURNAL.saturating_add(used))?;
    Ok(number_at(&last, 0).saturating_add(4))
}

/// The same of a journal of tagged sectors: its last batch is in the last sector that is not of epoch 0.
fn last_tagged(disk: &mut MemoryDisk, count: u32) -> Result<u32, Fault> {
    let mut bytes = 0;
    for place in 0..count {
        let tagged = sector(disk, JOURNAL.saturating_add(place))?;
        if tagged.starts_with(&[0; 8]) {
            break;
        }
        bytes = number_at(&tagged, TAG).saturating_add(4);
    }
    Ok(bytes)
}

/// The number of four bytes at a place, or 0 where there are fewer.
fn number_at(bytes: &[u8], at: usize) -> u32 {
    let Some(field) = bytes.get(at..) else {
        return 0;
    };
    match field.first_chunk::<4>() {
        Some(field) => u32::from_be_bytes(*field),
        None => 0,
    }
}
