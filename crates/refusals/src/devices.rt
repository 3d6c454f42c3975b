//! Openings of a device, and of its parts; the upgrade of one; and a disk that grows.

use crate::fault::Fault;
use crate::hubs::used_disk;
use crate::subject::{Seen, Subject, seen};
use ipc_base::ObjectMap;
use ipc_checkpoint::{Checkpoint, Layout, LoadError};
use ipc_disk::{MemoryDisk, Range, SectorDisk, sectors_for_len, write_bytes};
use ipc_engine::StateFault;
use ipc_heap::Heap;
use ipc_image::{FORMAT, JOURNAL, checked_need, engine_of};
use ipc_limits::Limits;
use ipc_store::Store;
use std::alloc::Global;

/// The name of the call that is made on a device of version 1.
pub(crate) const UPGRADE: &str = "Store::upgrade";

/// Their names.
pub(crate) const NAMES: [&str; 6] = [
    "Heap::open",
    "Checkpoint::load",
    "engine_of",
    "Store::open",
    UPGRADE,
    "MemoryDisk::grow",
];

/// How many sectors a state takes under small limits, and where the objects lie.
const AREA: u32 = 553;

const LAYOUT: Layout = Layout {
    range: Range {
        first: JOURNAL + FORMAT.journal,
        count: 2 * AREA,
    },
    root: FORMAT.root,
    area: AREA,
};

const SECTORS: u32 = JOURNAL + FORMAT.journal + 2 * AREA;

/// A device with a queue that is saved, and its objects if they are loaded already.
#[derive(Drop)]
pub(crate) struct Device {
    alloc: Global,
    disk: Option<MemoryDisk>,
    objects: Option<ObjectMap>,
}

/// A device for the call of this name.
pub(crate) fn device_for(alloc: Global, name: &str) -> Result<Device, Fault> {
    let mut disk = used_disk(alloc)?;
    let objects = match name {
        "engine_of" => Some(load(alloc, &mut disk)?),
        _ => None,
    };
    Ok(Device {
        alloc,
        disk: Some(disk),
        objects,
    })
}

/// A device of version 1, of which these are the bytes, on a disk with room for one of version 2.
pub(crate) fn old_device(alloc: Global, image: &[u8]) -> Result<Device, Fault> {
    let Ok(sectors) = u32::try_from(sectors_for_len(image.len())) else {
        return Err(Fault::Input);
    };
    let mut disk = MemoryDisk::new(alloc, sectors)?;
    write_bytes(&mut disk, 0, image)?;
    disk.sync()?;
    let Ok(need) = checked_need(FORMAT, &Limits::small()) else {
        return Err(Fault::Unready);
    };
    disk.grow(need)?;
    Ok(Device {
        alloc,
        disk: Some(disk),
        objects: None,
    })
}

impl Subject for Device {
    fn call(&mut self, name: &str) -> Result<(), Fault> {
        let alloc = self.alloc;
        if name == "Store::open" || name == UPGRADE {
            return self.hand_over(name);
        }
        match (&mut self.disk, &self.objects) {
            (_, Some(objects)) => make_engine(alloc, objects),
            (Some(disk), None) if name == "Heap::open" => open_heap(alloc, disk),
            (Some(disk), None) if name == "MemoryDisk::grow" => Ok(disk.grow(2 * SECTORS)?),
            (Some(disk), None) => load(alloc, disk).map(|_| ()),
            (None, None) => Err(Fault::Unready),
        }
    }

    fn tells(&self) -> Seen {
        match &self.disk {
            Some(disk) => seen(&[u64::from(disk.sectors()), disk.writes()]),
            None => [0; 17],
        }
    }
}

impl Device {
    /// Opens a store on the disk, or upgrades it. The disk comes back.
    fn hand_over(&mut self, name: &str) -> Result<(), Fault> {
        let Some(disk) = self.disk.take() else {
            return Err(Fault::Unready);
        };
        let (outcome, disk) = if name == UPGRADE {
            upgrade(self.alloc, disk)
        } else {
            open(self.alloc, disk)
        };
        self.disk = Some(disk);
        outcome
    }
}

/// Opens a store on a disk, which comes back.
fn open(alloc: Global, disk: MemoryDisk) -> (Result<(), Fault>, MemoryDisk) {
    match Store::open(alloc, disk) {
        Ok(store) => (Ok(()), store.close()),
        Err(unopened) => (Err(Fault::from(unopened.error)), unopened.disk),
    }
}

/// Upgrades the device of a disk, which comes back.
fn upgrade(alloc: Global, disk: MemoryDisk) -> (Result<(), Fault>, MemoryDisk) {
    match Store::upgrade(alloc, disk, &Limits::small()) {
        Ok(disk) => (Ok(()), disk),
        Err(unupgraded) => (Err(Fault::from(unupgraded.error)), unupgraded.disk),
    }
}

fn open_heap(alloc: Global, disk: &mut MemoryDisk) -> Result<(), Fault> {
    if disk.sectors() != SECTORS {
        return Err(Fault::Unready);
    }
    match Heap::open(alloc, disk, LAYOUT.range, LAYOUT.root) {
        Ok(_) => Ok(()),
        Err(ipc_heap::OpenError::NoMemory) => Err(Fault::NoMemory),
        Err(_) => Err(Fault::Unready),
    }
}

fn make_engine(alloc: Global, objects: &ObjectMap) -> Result<(), Fault> {
    match engine_of(alloc, objects, Limits::small(), FORMAT) {
        Ok(_) => Ok(()),
        Err(StateFault::NoMemory) => Err(Fault::NoMemory),
        Err(StateFault::Unsound) => Err(Fault::Unready),
    }
}

fn load(alloc: Global, disk: &mut MemoryDisk) -> Result<ObjectMap, Fault> {
    if disk.sectors() != SECTORS {
        return Err(Fault::Unready);
    }
    match Checkpoint::load(alloc, disk, LAYOUT) {
        Ok((_, objects)) => Ok(objects),
        Err(LoadError::NoMemory) => Err(Fault::NoMemory),
        Err(_) => Err(Fault::Unready),
    }
}
