//! A disk that forgets nothing: it keeps what it had before each write and each sync since its making, and a crash may
//! leave any choice of its unsynced sectors. That it meets the trait shows that what the trait says of the images since
//! a moment does not make a disk forget them.

ghost use Rattle.std.specs.Prelude.{◌≡◌, ◌⊎◌, ◌<◌, ◌≤◌, ◌^◌, ◌++◌, ℕ, [], ◌∷◌, length, map, All};
ghost use Rattle.std.specs.Prelude.{replicate, slice_get, IfOk, IfSome, OnOk, OnErr, Some};
ghost use Rattle.ipc_disk.specs.Medium.{Image, IsDurable};
ghost use Rattle.ipc_disk.specs.Relations.Slots.{IsWhole, flushed, synced_slot};
ghost use Rattle.premises.specs.Remembered.{slot_of, slots_of, past_of, IsFull, IsLeftOf};

use ipc_disk::{DiskFault, SectorDisk};
use std::alloc::{AllocError, Global};

/// A sector's value at the last sync, and the last that was written.
#[derive(Clone, Copy)]
struct Slot {
    synced: [u8; 512],
    last: [u8; 512],
}

const ZEROS: Slot = Slot {
    synced: [0; 512],
    last: [0; 512],
};

/// A disk in memory. A write or a sync fails if what the disk had before it is too much to keep: if there is no memory
/// for that, or so many writes and syncs are kept as it keeps at most. Then nothing has changed but the count of
/// failures.
#[derive(Drop)]
pub struct RememberingDisk {
    alloc: Global,
    slots: Vec<Slot>,
    past: Vec<Vec<Slot>>,
    most: usize,
    failures: u64,
    writes: u64,
    syncs: u64,
    ghost whole: { All IsWhole (slots_of slots.items) },
    ghost few: { length slots.items < 2 ^ 32 },
    ghost were: { All (IsFull (length slots.items)) (past_of (map (λ v. v.items) past.items)) },
    ghost failures_fit: { failures < 2 ^ 64 },
    ghost writes_fit: { writes < 2 ^ 64 },
    ghost syncs_fit: { syncs < 2 ^ 64 },
}

impl RememberingDisk {
    ghost use Rattle.premises.specs.Remembering.{remembering_size, remembering_medium};

    /// A disk of zeros, which keeps so many writes and syncs at most.
    pub fn new(alloc: Global, sectors: u32, most: usize) -> Result<RememberingDisk, AllocError>
        ensures zeros { IfOk result (λ disk. (remembering_medium disk).contents
            ≡ replicate sectors (replicate 512 0)) }
        ensures size { IfOk result (λ disk. remembering_size disk ≡ sectors) }
    {
        let mut slots = Vec::with_capacity(alloc, sectors as usize)?;
        for _ in 0..sectors {
            slots.push(ZEROS)?;
        }
        Ok(RememberingDisk {
            alloc,
            slots,
            past: Vec::new(alloc),
            most,
            failures: 0,
            writes: 0,
            syncs: 0,
        })
    }

    /// How many writes and syncs it keeps: the moment of now.
    pub fn moment(&self) -> usize
        ensures { result ≡ (remembering_medium self.now).moment }
    {
        self.past.len()
    }

    /// The disk that a crash leaves which came after so many writes and syncs, where the unsynced sectors at the places
    /// that are true in `keep` had their last values by then; its own past is gone. None if there were not so many, or
    /// for want of memory.
    pub fn crashed(self, at: usize, keep: &[bool]) -> Option<RememberingDisk>
        // What it may leave itself could be left at that moment.
        ensures images { IfSome result (λ left. (t : ℕ) (image : Image) → t ≤ at
            → (remembering_medium left).images_now image → (remembering_medium self).images_since t image) }
        ensures durable { IfSome result (λ left. IsDurable (remembering_medium left)) }
        ensures size { IfSome result (λ left. remembering_size left ≡ remembering_size self) }
    {
        let Some(slots) = self.had(at) else {
            return None;
        };
        let Ok(slots) = choose(self.alloc, slots, keep) else {
            return None;
        };
        Some(RememberingDisk {
            alloc: self.alloc,
            slots,
            past: Vec::new(self.alloc),
            most: self.most,
            failures: self.failures,
            writes: self.writes,
            syncs: self.syncs,
        })
    }

    // What it had after so many writes and syncs.
    fn had(&self, at: usize) -> Option<&[Slot]>
        ensures { IfSome result (λ slots. slice_get (past_of (map (λ v. v.items) self.now.past.items)
            ++ slots_of self.now.slots.items ∷ []) at ≡ Some (slots_of slots.now)) }
    {
        if at == self.past.len() {
            return Some(&self.slots);
        }
        match self.past.get(at) {
            Some(slots) => Some(slots),
            None => None,
        }
    }
}

// What the disk has is kept.
fn keep_past(
    alloc: Global,
    past: &mut Vec<Vec<Slot>>,
    slots: &[Slot],
    most: usize,
) -> Result<(), AllocError>
    ensures ok { OnOk result (map (λ v. v.items) past.new.items
        ≡ map (λ v. v.items) past.old.items ++ slots.now ∷ []) }
    ensures err { OnErr result (past.new.items ≡ past.old.items) }
{
    if past.len() >= most {
        return Err(AllocError);
    }
    let entry = Vec::from_slice(alloc, slots)?;
    past.push(entry)?;
    Ok(())
}

// A sync of one sector: its last value is its synced one.
fn flush_one(slot: &mut Slot)
    ensures { slot_of slot.new ≡ flushed (slot_of slot.old) }
{
    slot.synced = slot.last;
}

// A sync of all sectors.
fn flush(slots: &mut [Slot])
    ensures { slots_of slots.new ≡ map flushed (slots_of slots.old) }
{
    for slot in slots.iter_mut() {
        flush_one(slot);
    }
}

// A crash, at one sector: one value is left, and it is synced.
fn choose_one(slot: &Slot, keep: bool) -> Slot
    ensures { (slot_of result ≡ synced_slot slot.now.synced) ⊎ (slot_of result ≡ synced_slot slot.now.last) }
{
    let value = if keep { slot.last } else { slot.synced };
    Slot {
        synced: value,
        last: value,
    }
}

// A crash: of each sector one value is left, and it is synced.
fn choose(alloc: Global, slots: &[Slot], keep: &[bool]) -> Result<Vec<Slot>, AllocError>
    ensures { IfOk result (λ left. IsLeftOf (slots_of slots.now) (slots_of left.items)) }
{
    let mut left = Vec::with_capacity(alloc, slots.len())?;
    for (place, slot) in slots.iter().enumerate() {
        let kept = keep.get(place).copied().unwrap_or(false);
        left.push(choose_one(slot, kept))?;
    }
    Ok(left)
}

impl SectorDisk for RememberingDisk {
    ghost use Rattle.premises.specs.Remembering.{remembering_size, remembering_medium, remembering_counts};
    ghost use Rattle.premises.specs.Remembered.{IsShaped-remembering, only_now-remembered};

    ghost size = { remembering_size };

    ghost medium = { remembering_medium };

    ghost counts = { remembering_counts };

    ghost fits = { λ disk. disk.few };

    ghost in_range = { λ disk. record {
      failures_fit = disk.failures_fit;
      writes_fit = disk.writes_fit;
      syncs_fit = disk.syncs_fit;
    } };

    ghost shaped = { λ disk image left. IsShaped-remembering disk.slots.items image disk.whole left };

    ghost only_now = { λ disk image left.
        only_now-remembered (past_of (map (λ v. v.items) disk.past.items)) (slots_of disk.slots.items) image left };

    fn sectors(&self) -> u32 {
        self.slots.len() as u32
    }

    fn read(&mut self, at: u32, into: &mut [u8; 512]) -> Result<(), DiskFault> {
        *into = self.slots[at as usize].last;
        Ok(())
    }

    fn write(&mut self, at: u32, from: &[u8; 512]) -> Result<(), DiskFault> {
        let Ok(()) = keep_past(self.alloc, &mut self.past, &self.slots, self.most) else {
            self.failures = self.failures.saturating_add(1);
            return Err(DiskFault);
        };
        self.slots[at as usize].last = *from;
        self.writes = self.writes.saturating_add(1);
        Ok(())
    }

    fn sync(&mut self) -> Result<(), DiskFault> {
        let Ok(()) = keep_past(self.alloc, &mut self.past, &self.slots, self.most) else {
            self.failures = self.failures.saturating_add(1);
            return Err(DiskFault);
        };
        flush(&mut self.slots);
        self.syncs = self.syncs.saturating_add(1);
        Ok(())
    }
}
