//! The law over lives, used on disks in memory.

ghost use Rattle.std.specs.Prelude.{[], ◌∷◌, List, IfSome};
ghost use Rattle.ipc_limits.specs.declared.limits.Limits.{Limits};
ghost use Rattle.ipc_disk.specs.Medium.{Image};
ghost use Rattle.ipc_disk.specs.Memory.{memory_medium};
ghost use Rattle.ipc_disk.specs.declared.memory.MemoryDisk.{MemoryDisk};
ghost use Rattle.ipc_store.specs.Histories.{Past, new_past, state_after};
ghost use Rattle.ipc_image.specs.Format.{format, format_one};
ghost use Rattle.ipc_state.specs.State.{State, restart};
ghost use Rattle.ipc_store.specs.Image.{as_of, own_limits, StandsFor, StandsForIn};
ghost use Rattle.ipc_store.specs.Lives.{StandsAfter};
ghost use Rattle.ipc_store.specs.Meanwhile.{IsRead, IsReadInParts};
ghost use Rattle.ipc_store.specs.View.{StoreView};
ghost use Rattle.ipc_hub.specs.Clients.{Clients};
ghost use Rattle.ipc_hub.specs.Lives.{HasHistory, Life, Lives, Seen};
ghost use Rattle.premises.specs.Remembering.{remembering_medium};
ghost use Rattle.premises.specs.Visits.{AreSeen, Saw, Goes, Ends};

use crate::remembering::RememberingDisk;
use ipc_base::Moment;
use ipc_disk::{MemoryDisk, disks_in_memory_are_honest};
use ipc_engine::Engine;
use ipc_hub::{Hub, no_answer_is_taken_back};
use ipc_limits::Limits;
use ipc_store::{CommitError, Store, an_open_finds_what_stands_there, look};
use std::alloc::{AllocError, Global};

/// A disk in memory is honest, whatever calls led to it. So of lives on one that was made a device
/// the law asks nothing more.
pub fn lives_in_memory()
    ensures { (past : Past) (disk : MemoryDisk) (lives : List Life) (opened : StoreView MemoryDisk)
        → ((image : Image) → (memory_medium disk).images_now image
        → StandsFor past.limits (state_after past) image)
        → Lives memory_medium past.limits disk lives opened
        → HasHistory (memory_medium opened.disk) past lives opened }
{
    no_answer_is_taken_back::<MemoryDisk>();
    disks_in_memory_are_honest();
}

/// One life on a new device in memory: time passes, and that is made durable. Then the device is opened again. The
/// clauses of these calls give the premises of the law.
pub fn one_life(
    alloc: Global,
    limits: &Limits,
    sectors: u32,
    moment: Moment,
) -> Option<Store<MemoryDisk>>
    ensures { IfSome result (λ store. (life : Life)
        × HasHistory (memory_medium store.disk) (new_past (own_limits limits.now)) (life ∷ []) store) }
{
    disks_in_memory_are_honest();
    let disk = new_device(alloc, limits, sectors)?;
    live(alloc, disk, moment)
}

/// One life on a device of version 1 in memory: the device is upgraded and opened, time passes, and that is made
/// durable. Then the device is opened again. Its history begins with the state for which it stood, after a restart.
pub fn one_life_after_an_upgrade(
    alloc: Global,
    disk: MemoryDisk,
    limits: &Limits,
    moment: Moment,
) -> Option<Store<MemoryDisk>>
    ensures { IfSome result (λ store. (own : Limits) × ((s : State)
        × StandsForIn format_one own s (memory_medium disk).contents
        × ((life : Life) × HasHistory (memory_medium store.disk)
        (record {
          limits = as_of format limits.now;
          base = restart (as_of format limits.now) s;
          events = [];
        }) (life ∷ []) store))) }
{
    disks_in_memory_are_honest();
    let Ok(upgraded) = Store::upgrade(alloc, disk, limits) else {
        return None;
    };
    live(alloc, upgraded, moment)
}

/// A look at a new device in memory: what it reads while nobody writes is such as the law of looks asks for.
pub fn one_look(alloc: Global, limits: &Limits, sectors: u32) -> Option<Engine>
    ensures { IfSome result (λ engine. (image : Image) × StandsFor engine.limits engine.state image
        × IsRead image image image × IsReadInParts image image image) }
{
    disks_in_memory_are_honest();
    let mut disk = new_device(alloc, limits, sectors)?;
    match look(alloc, &mut disk) {
        Ok(engine) => Some(engine),
        Err(_) => None,
    }
}

// A disk in memory that is a new device: it stands for the first state.
fn new_device(alloc: Global, limits: &Limits, sectors: u32) -> Option<MemoryDisk>
    ensures { IfSome result (λ disk. StandsAfter (new_past (own_limits limits.now)) (memory_medium disk)) }
{
    disks_in_memory_are_honest();
    let Ok(mut disk) = MemoryDisk::new(alloc, sectors) else {
        return None;
    };
    match Store::format(&mut disk, limits) {
        Ok(()) => Some(disk),
        Err(_) => None,
    }
}

// One life on a device in memory: time passes, and that is made durable. Then the device is opened again.
fn live(alloc: Global, disk: MemoryDisk, moment: Moment) -> Option<Store<MemoryDisk>>
    ensures { IfSome result (λ store. (past : Past) → StandsAfter past (memory_medium disk) → (life : Life)
        × HasHistory (memory_medium store.disk) past (life ∷ []) store) }
{
    no_answer_is_taken_back::<MemoryDisk>();
    disks_in_memory_are_honest();
    let Ok(store) = Store::open(alloc, disk) else {
        return None;
    };
    let mut hub = Hub::new(alloc, store);
    let Ok(()) = hub.tick(moment) else {
        return None;
    };
    let Ok(()) = hub.release() else {
        return None;
    };
    match Store::open(alloc, hub.close().close()) {
        Ok(store) => Some(store),
        Err(_) => None,
    }
}

/// One life on a disk that forgets nothing, which is made a device first. A client says HELLO, that is made to last,
/// and the client sees what it is answered. More of its bytes come, and are released. If the disk keeps so few calls
/// that it fails in that release, this is the moment at which the machine stops; else that is at its end. The unsynced
/// sectors at the places that are true in `keep` have their last values then. It answers what the client saw, and the
/// store that is opened on what is left: its history has the event of each frame that was seen.
pub fn one_life_with_a_crash(
    alloc: Global,
    limits: &Limits,
    disk: RememberingDisk,
    hello: &[u8],
    requests: &[u8],
    moment: Moment,
    keep: &[bool],
) -> Option<(Vec<u8>, Store<RememberingDisk>)>
    ensures { IfSome result (λ found. (life : Life) × Saw found.0.items life
        × HasHistory (remembering_medium found.1.disk) (new_past (own_limits limits.now)) (life ∷ []) found.1) }
{
    no_answer_is_taken_back::<RememberingDisk>();
    an_open_finds_what_stands_there::<RememberingDisk>();
    let mut disk = disk;
    let Ok(()) = Store::format(&mut disk, limits) else {
        return None;
    };
    let Ok(store) = Store::open(alloc, disk) else {
        return None;
    };
    let mut hub = Hub::new(alloc, store);
    let Some(seen) = greet(alloc, &mut hub, hello, moment) else {
        return None;
    };
    let Some(()) = ask(&mut hub, requests, moment) else {
        return None;
    };
    let disk = hub.close().close();
    let at = disk.moment();
    let Some(left) = disk.crashed(at, keep) else {
        return None;
    };
    match Store::open(alloc, left) {
        Ok(store) => Some((seen, store)),
        Err(_) => None,
    }
}

// A connection comes and sends bytes, what they do is made to last, and its output is looked at.
fn greet(
    alloc: Global,
    hub: &mut Hub<RememberingDisk>,
    hello: &[u8],
    moment: Moment,
) -> Option<Vec<u8>>
    ensures { IfSome result (λ seen. (limits : Limits) (opened : StoreView RememberingDisk) (h : Clients)
        → Goes remembering_medium limits opened hub.old h [] → (then : Clients) × ((frames : List Seen)
        × AreSeen seen.items frames × Goes remembering_medium limits opened hub.new then frames)) }
{
    let Ok(()) = hub.connect(1) else {
        return None;
    };
    let Ok(_) = hub.feed(1, hello, moment) else {
        return None;
    };
    let Ok(()) = hub.release() else {
        return None;
    };
    match Vec::from_slice(alloc, hub.output(1)) {
        Ok(seen) => Some(seen),
        Err(AllocError) => None,
    }
}

// It sends more bytes, and what they do is released, in which the disk may fail.
fn ask(hub: &mut Hub<RememberingDisk>, requests: &[u8], moment: Moment) -> Option<()>
    ensures { IfSome result (λ _. (limits : Limits) (opened : StoreView RememberingDisk) (h : Clients)
        (seen : List Seen) → Goes remembering_medium limits opened hub.old h seen
        → Ends remembering_medium limits opened hub.new seen) }
{
    let Ok(_) = hub.feed(1, requests, moment) else {
        return None;
    };
    match hub.release() {
        Ok(()) => Some(()),
        Err(CommitError::Device) => Some(()),
        Err(CommitError::Stopped) => None,
    }
}
