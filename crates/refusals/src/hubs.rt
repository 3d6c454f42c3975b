//! Calls of a hub, of which `connect` alone may be refused, and the making of a server.

use crate::fault::Fault;
use crate::subject::{Seen, Subject, seen};
use ipc_base::Moment;
use ipc_disk::MemoryDisk;
use ipc_hub::Hub;
use ipc_image::{FORMAT, checked_need};
use ipc_limits::Limits;
use ipc_server::{Server, ServerError};
use ipc_store::Store;
use mio::net::UnixListener;
use std::alloc::Global;
use std::fs::File;
use std::net::Net;
use std::rt::Files;

/// The name of a call that makes a server.
pub(crate) const SERVER: &str = "Server::new";

/// The names of those that may be refused.
pub(crate) const NAMES: [&str; 2] = ["Hub::connect", SERVER];

/// The names of those that take no memory.
pub(crate) const PROMISED: [&str; 5] = [
    "Hub::tick",
    "Hub::hangup",
    "Hub::release",
    "Hub::release on a full journal",
    "Hub::save",
];

/// More commits than the journal has sectors.
const COMMITS: u64 = 300;

/// HELLO, and the frames by which the first queue is made and a message waits in it.
const READY: [&[u8]; 3] = [
    b"\0\0\0\x0d\0\0\0\x01\x01\0\0\x03\xe8\0\0\0\x64",
    b"\0\0\0\x0d\0\0\0\x02\x0a\0\0\0\x07\0\0\x03\x80",
    b"\0\0\0\x17\0\0\0\x03\x0b\0\0\0\x01\0\0\0\0\0\0\0\0\0\0\0\x05hi",
];

/// Their replies.
const MADE: &[u8] =
    b"\0\0\0\x0a\0\0\0\x01\0\0\0\0\0\x01\0\0\0\x0a\0\0\0\x02\0\0\0\0\0\x01\0\0\0\x06\0\0\0\x03\0\0";

/// The frame of a msgrcv(2) of it, and its reply.
const MSGRCV: &[u8] = b"\0\0\0\x19\0\0\0\x04\x0c\0\0\0\x01\0\0\0\0\0\0\0\x40\0\0\0\0\0\0\0\0";

const RECEIVED: &[u8] = b"\0\0\0\x10\0\0\0\x04\0\0\0\0\0\0\0\0\0\x05hi";

/// A hub of one client, whose message waits in a queue.
pub(crate) fn hub_for(alloc: Global) -> Result<Hub<MemoryDisk>, Fault> {
    let mut hub = Hub::new(alloc, new_store(alloc)?);
    hub.connect(1)?;
    for frame in READY {
        hub.feed(1, frame, Moment(3))?;
    }
    hub.release()?;
    // A request that is refused for memory is answered so.
    if hub.output(1) != MADE {
        return Err(Fault::NoMemory);
    }
    let shown = hub.output(1).len();
    hub.consume(1, shown);
    Ok(hub)
}

/// The disk of that hub: the queue is saved, and the journal has a tick and a msgrcv.
pub(crate) fn used_disk(alloc: Global) -> Result<MemoryDisk, Fault> {
    let mut hub = hub_for(alloc)?;
    hub.save()?;
    receive(&mut hub)?;
    Ok(hub.close().close())
}

/// A new device under small limits, on a disk of just as many sectors as it needs.
fn new_device(alloc: Global) -> Result<MemoryDisk, Fault> {
    let limits = Limits::small();
    let Ok(need) = checked_need(FORMAT, &limits) else {
        return Err(Fault::Unready);
    };
    let mut disk = MemoryDisk::new(alloc, need)?;
    Store::format(&mut disk, &limits)?;
    Ok(disk)
}

/// A store on a new device.
fn new_store(alloc: Global) -> Result<Store<MemoryDisk>, Fault> {
    match Store::open(alloc, new_device(alloc)?) {
        Ok(store) => Ok(store),
        Err(unopened) => Err(Fault::from(unopened.error)),
    }
}

impl Subject for Hub<MemoryDisk> {
    fn call(&mut self, name: &str) -> Result<(), Fault> {
        match name {
            "Hub::connect" => self.connect(2)?,
            "Hub::tick" => self.tick(Moment(9))?,
            "Hub::hangup" => self.hangup(1, Moment(9))?,
            "Hub::release" => receive(self)?,
            "Hub::release on a full journal" => {
                for moment in 0..COMMITS {
                    self.tick(Moment(moment))?;
                    self.release()?;
                }
            }
            "Hub::save" => self.save()?,
            _ => return Err(Fault::Usage),
        }
        Ok(())
    }

    fn tells(&self) -> Seen {
        let connections = self.connections().len() as u64;
        seen(&[connections, self.output(1).len() as u64])
    }
}

/// The client receives the message.
fn receive(hub: &mut Hub<MemoryDisk>) -> Result<(), Fault> {
    hub.feed(1, MSGRCV, Moment(9))?;
    hub.release()?;
    if hub.output(1) == RECEIVED {
        Ok(())
    } else {
        Err(Fault::Unready)
    }
}

/// Makes a server of a hub without clients. If it is refused, hub and socket come back, and make one. Whether it was
/// refused.
pub(crate) fn server_refused(
    rt: &(impl AllocGlobal + Files<File = File> + Net),
) -> Result<bool, Fault> {
    let hub = Hub::new(rt.alloc(), new_store(rt.alloc())?);
    // The system chooses a name for the socket, of which there is no file.
    let Ok(listener) = UnixListener::bind(rt, "") else {
        return Err(Fault::Unready);
    };
    let unserved = match Server::new(rt, hub, listener) {
        Ok(_) => return Ok(false),
        Err(unserved) => unserved,
    };
    if unserved.error != ServerError::NoMemory {
        return Err(Fault::Unready);
    }
    match Server::new(rt, unserved.hub, unserved.listener) {
        Ok(_) => Ok(true),
        Err(_) => Err(Fault::RefusedAgain),
    }
}
