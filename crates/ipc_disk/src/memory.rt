//! A disk in memory, which never fails.

ghost use Rattle.std.specs.Prelude.{◌≡◌, ◌<◌, ◌≤◌, ◌-◌, ◌^◌, ◌++◌, [], ◌∷◌, length, map, max};
ghost use Rattle.std.specs.Prelude.{All, Some, IfOk, IsOk, OnOk, OnErr};
ghost use Rattle.std.specs.Prelude.{replicate, slice_get, slice_set, vec_capacity};
ghost use Rattle.std.proofs.Common.{lit<};
ghost use Rattle.ipc_disk.specs.Calls.{IsOneCall};
ghost use Rattle.ipc_disk.specs.Counts.{with_write, with_sync};
ghost use Rattle.ipc_disk.specs.Medium.{IsHonest, IsDurable, Stays, Writes};
ghost use Rattle.ipc_disk.specs.Growth.{HasGrown, with_zeros};
ghost use Rattle.ipc_disk.specs.Since.{EachImageSince};
ghost use Rattle.ipc_disk.specs.Crash.{survivors, survivor, is_unsynced, survives as kept};
ghost use Rattle.ipc_disk.specs.Relations.Slots.{IsWhole, ListsUnsynced, flushed, synced_slot};

use crate::{DiskFault, SectorDisk};
use std::alloc::{AllocError, Global};

/// A sector's value at the last sync, and the last that was written.
#[derive(Clone, Copy)]
struct Slot {
    synced: [u8; 512],
    last: [u8; 512],
}

const ZEROS: Slot = Slot {
    synced: [0; 512],
    last: [0; 512],
};

/// A disk in memory, all zeros at first. No call of it fails. A crash leaves of each sector its value at the
/// last sync, or the last that was written.
#[derive(Drop)]
pub struct MemoryDisk {
    slots: Vec<Slot>,
    // The sector of each write since the last sync, but of no more writes than there are sectors.
    unsynced: Vec<u32>,
    writes: u64,
    syncs: u64,
    ghost whole: { All IsWhole slots.items },
    ghost few: { length slots.items < 2 ^ 32 },
    ghost room: { length slots.items ≤ vec_capacity unsynced },
    ghost places: { All (λ at. at < length slots.items) unsynced.items },
    ghost listed: { length unsynced.items < length slots.items
        → ListsUnsynced unsynced.items slots.items },
    ghost writes_fit: { writes < 2 ^ 64 },
    ghost syncs_fit: { syncs < 2 ^ 64 },
}

impl MemoryDisk {
    ghost use Rattle.ipc_disk.specs.Memory.{memory_size, memory_medium, memory_counts};
    ghost use Rattle.ipc_disk.specs.Memory.{synced_image, unsynced_count, chosen_image};

    /// A disk of so many sectors. All the memory that it ever takes is taken here.
    pub fn new(alloc: Global, sectors: u32) -> Result<MemoryDisk, AllocError>
        ensures size { IfOk result (λ disk. memory_size disk ≡ sectors) }
        ensures zeros { IfOk result (λ disk. (memory_medium disk).contents
            ≡ replicate sectors (replicate 512 0)) }
        ensures synced { IfOk result (λ disk. synced_image disk ≡ (memory_medium disk).contents) }
        ensures durable { IfOk result (λ disk. IsDurable (memory_medium disk)) }
        ensures honest { IfOk result (λ disk. IsHonest (memory_medium disk)) }
        ensures unused { IfOk result (λ disk. memory_counts disk
            ≡ record { failures = 0; writes = 0; syncs = 0 }) }
    {
        let slots = zeros(alloc, sectors)?;
        let unsynced = Vec::with_capacity(alloc, sectors as usize)?;
        Ok(MemoryDisk {
            slots,
            unsynced,
            writes: 0,
            syncs: 0,
        })
    }

    // How many sectors have a last value that is not the synced one.
    pub(crate) fn unsynced(&self) -> u32
        ensures { result ≡ unsynced_count self.now }
    {
        self.slots
            .iter()
            .filter(|slot| slot.synced != slot.last)
            .count() as u32
    }

    // The disk that a crash leaves, where `keep` chooses.
    pub(crate) fn crash(self, keep: u64) -> MemoryDisk
        ensures contents { (memory_medium result).contents ≡ chosen_image keep self }
        ensures synced { synced_image result ≡ (memory_medium result).contents }
        ensures durable { IsDurable (memory_medium result) }
        ensures size { memory_size result ≡ memory_size self }
        ensures counts { memory_counts result ≡ memory_counts self }
    {
        let mut disk = self;
        choose(&mut disk.slots, keep);
        disk.unsynced.clear();
        disk
    }

    /// Gives it so many sectors, if it has fewer: zeros, synced, after those that it has. These stay as they are. If
    /// memory is refused, all of it does. The next sync goes over all sectors.
    pub fn grow(&mut self, sectors: u32) -> Result<(), AllocError>
        ensures size { OnOk result (memory_size self.new ≡ max (memory_size self.old) sectors) }
        ensures contents { OnOk result ((memory_medium self.new).contents
            ≡ with_zeros (sectors - memory_size self.old) (memory_medium self.old).contents) }
        ensures synced { OnOk result (synced_image self.new
            ≡ with_zeros (sectors - memory_size self.old) (synced_image self.old)) }
        ensures err { OnErr result (Stays (memory_medium self.old) (memory_medium self.new)) }
        ensures err_synced { OnErr result (synced_image self.new ≡ synced_image self.old) }
        ensures counts { memory_counts self.new ≡ memory_counts self.old }
        // A crash at any moment.
        ensures any_moment { EachImageSince (memory_medium self.old) (memory_medium self.new)
            (HasGrown (sectors - memory_size self.old) (memory_medium self.old)) }
    {
        let sectors = sectors as usize;
        if sectors <= self.slots.len() {
            return Ok(());
        }
        // Room in the list comes first: after it only what changes nothing can be refused.
        let more = sectors.saturating_sub(self.unsynced.len());
        self.unsynced.reserve(more)?;
        self.slots.resize(sectors, ZEROS)?;
        // A list that had no place for a write would have one now. A full one stands for all sectors.
        self.unsynced.resize(sectors, 0).unwrap();
        Ok(())
    }

    /// Its writes so far, at most 18446744073709551615.
    pub fn writes(&self) -> u64
        ensures { result ≡ (memory_counts self.now).writes }
    {
        self.writes
    }

    /// Its syncs so far, at most 18446744073709551615.
    pub fn syncs(&self) -> u64
        ensures { result ≡ (memory_counts self.now).syncs }
    {
        self.syncs
    }
}

// So many sectors of zeros, all of them synced.
fn zeros(alloc: Global, sectors: u32) -> Result<Vec<Slot>, AllocError>
    ensures { IfOk result (λ slots. slots.items ≡ replicate sectors ZEROS) }
{
    let mut slots = Vec::with_capacity(alloc, sectors as usize)?;
    for _ in 0..sectors {
        slots.push(ZEROS)?;
    }
    Ok(slots)
}

// Lists a write, where fewer are listed than there are sectors.
fn list(unsynced: &mut Vec<u32>, at: u32, sectors: usize)
    requires { sectors ≤ vec_capacity unsynced.old }
    ensures listed { length unsynced.old.items < sectors
        → unsynced.new.items ≡ unsynced.old.items ++ at ∷ [] }
    ensures full { sectors ≤ length unsynced.old.items → unsynced.new.items ≡ unsynced.old.items }
    ensures room { sectors ≤ vec_capacity unsynced.new }
{
    if unsynced.len() < sectors {
        unsynced.push(at).unwrap();
    }
}

// A sync of one sector: its last value is its synced one.
fn flush_one(slot: &mut Slot)
    ensures { slot.new ≡ flushed slot.old }
{
    slot.synced = slot.last;
}

// A sync of all sectors.
fn flush_all(slots: &mut [Slot])
    ensures { slots.new ≡ map flushed slots.old }
{
    for slot in slots.iter_mut() {
        flush_one(slot);
    }
}

// A sync where the unsynced sectors are listed: it goes over these alone.
fn flush_listed(slots: &mut [Slot], listed: &[u32])
    requires places { All (λ at. at < length slots.old) listed.now }
    requires listed { ListsUnsynced listed.now slots.old }
    ensures { slots.new ≡ map flushed slots.old }
{
    for at in listed {
        flush_one(&mut slots[*at as usize]);
    }
}

// A sync, which goes over no more sectors than there were writes since the last one.
fn flush(slots: &mut [Slot], unsynced: &[u32])
    requires places { All (λ at. at < length slots.old) unsynced.now }
    requires listed { length unsynced.now < length slots.old → ListsUnsynced unsynced.now slots.old }
    ensures { slots.new ≡ map flushed slots.old }
{
    if unsynced.len() < slots.len() {
        flush_listed(slots, unsynced);
    } else {
        flush_all(slots);
    }
}

// Whether bit `i` mod 64 of `keep` is set.
fn survives(keep: u64, i: usize) -> bool
    ensures { result ≡ kept keep i }
{
    keep & (1 << (i % 64)) != 0
}

// A crash, at a sector before which there are so many unsynced ones: one value is left, and it is synced. The answer
// is whether the sector was unsynced.
fn choose_one(slot: &mut Slot, keep: u64, before: usize) -> bool
    ensures left { slot.new ≡ synced_slot (survivor keep before slot.old) }
    ensures unsynced { result ≡ is_unsynced slot.old }
{
    let unsynced = slot.synced != slot.last;
    if unsynced && !survives(keep, before) {
        slot.last = slot.synced;
    }
    flush_one(slot);
    unsynced
}

// A crash: of each sector one value is left, and it is synced.
fn choose(slots: &mut [Slot], keep: u64)
    ensures { slots.new ≡ map synced_slot (survivors keep 0 slots.old) }
{
    let mut before = 0;
    for slot in slots.iter_mut() {
        if choose_one(slot, keep, before) {
            before += 1;
        }
    }
}

impl SectorDisk for MemoryDisk {
    ghost use Rattle.ipc_disk.specs.Memory.{memory_size, memory_medium, memory_counts, synced_image};
    ghost use Rattle.ipc_disk.specs.Relations.Slots.{IsShaped-MayLeave};

    ghost size = { memory_size };

    ghost medium = { memory_medium };

    ghost counts = { memory_counts };

    ghost fits = { λ disk. disk.few };

    ghost in_range = { λ disk. record {
      failures_fit = lit< tt;
      writes_fit = disk.writes_fit;
      syncs_fit = disk.syncs_fit;
    } };

    ghost shaped = { λ disk image left. IsShaped-MayLeave disk.slots.items image disk.whole left };

    ghost only_now = { λ disk image left. left };

    fn sectors(&self) -> u32 {
        self.slots.len() as u32
    }

    fn read(&mut self, at: u32, into: &mut [u8; 512]) -> Result<(), DiskFault>
        requires { at < memory_size self.old }
        // What the trait says.
        ensures bytes { OnOk result (IsHonest (memory_medium self.old)
            → slice_get (memory_medium self.old).contents at ≡ Some into.new) }
        ensures medium { Stays (memory_medium self.old) (memory_medium self.new) }
        ensures call { IsOneCall memory_size memory_counts result (λ n. n) self.old self.new }
        // It never fails.
        ensures never_fails { IsOk result }
        ensures unchanged { self.new ≡ self.old }
    {
        *into = self.slots[at as usize].last;
        Ok(())
    }

    fn write(&mut self, at: u32, from: &[u8; 512]) -> Result<(), DiskFault>
        requires { at < memory_size self.old }
        // What the trait says.
        ensures written { OnOk result (IsHonest (memory_medium self.old)
            → (memory_medium self.new).contents ≡ slice_set (memory_medium self.old).contents at from.now) }
        ensures medium { Writes at from.now (memory_medium self.old) (memory_medium self.new) }
        ensures call { IsOneCall memory_size memory_counts result with_write self.old self.new }
        // It never fails.
        ensures never_fails { IsOk result }
        ensures synced { synced_image self.new ≡ synced_image self.old }
    {
        self.slots[at as usize].last = *from;
        list(&mut self.unsynced, at, self.slots.len());
        self.writes = self.writes.saturating_add(1);
        Ok(())
    }

    fn sync(&mut self) -> Result<(), DiskFault>
        // What the trait says.
        ensures durable { OnOk result (IsDurable (memory_medium self.new)) }
        ensures medium { Stays (memory_medium self.old) (memory_medium self.new) }
        ensures call { IsOneCall memory_size memory_counts result with_sync self.old self.new }
        // It never fails.
        ensures never_fails { IsOk result }
        ensures synced { synced_image self.new ≡ (memory_medium self.old).contents }
    {
        flush(&mut self.slots, &self.unsynced);
        self.unsynced.clear();
        self.syncs = self.syncs.saturating_add(1);
        Ok(())
    }
}
