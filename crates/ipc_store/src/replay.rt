//! The replay of a journal: a machine goes through the events of its batches.

ghost use Rattle.std.specs.Prelude.{◌≡◌, ◌≤◌, true, ℕ, [], List, length, map, OnOk};
ghost use Rattle.std.specs.Prelude.{IfOk, IfErr, IsErrOf};
ghost use Rattle.ipc_disk.specs.Calls.{OnlyReads};
ghost use Rattle.ipc_disk.specs.Medium.{IsHonest};
ghost use Rattle.ipc_disk.specs.Range.{IsWithin};
ghost use Rattle.ipc_journal.specs.Reader.{place_of, range_read, HasRead, IsReaderOf};
ghost use Rattle.ipc_state.specs.State.{State};
ghost use Rattle.ipc_image.specs.declared.format.Format.{Format as AnyForm};
ghost use Rattle.ipc_engine.specs.Changes.{IsTracked};
ghost use Rattle.ipc_engine.specs.Event.{PlainEvent};
ghost use Rattle.ipc_store.specs.Batch.{batch_bytes, most_bytes};
ghost use Rattle.ipc_store.specs.Image.{journal_form, journal_range};
ghost use Rattle.ipc_store.specs.Relations.Loading.{IsDamage};
ghost use Rattle.ipc_store.specs.Relations.Replay.{Replays, IsBadAt, AreRecords};

use crate::fault::OpenError;
use ipc_disk::SectorDisk;
use ipc_engine::Engine;
use ipc_image::read_event;
use ipc_journal::Reader;
use std::alloc::AllocError;

/// Leads a machine through the events of a journal. Each of its batches is read into `room`, and has at most so many
/// bytes.
pub(crate) fn replay<D: SectorDisk>(
    disk: &mut D,
    reader: &mut Reader,
    engine: &mut Engine,
    room: &mut [u8],
) -> Result<(), OpenError>
    requires within { IsWithin (range_read reader.old) (D.size disk.old) }
    requires room { length room.old ≤ most_bytes }
    ensures of { (form : AnyForm) (epoch : ℕ) → IsReaderOf (journal_form form) (journal_range form) epoch reader.old
        → IsReaderOf (journal_form form) (journal_range form) epoch reader.new }
    // The batches lead to the state of the machine.
    ensures limits { engine.new.limits ≡ engine.old.limits }
    ensures tracked { (base : State) → IsTracked engine.old.changed base engine.old.state
        → IsTracked engine.new.changed base engine.new.state }
    ensures replays { OnOk result (IsHonest (D.medium disk.old) → (form : AnyForm) (epoch : ℕ)
        → IsReaderOf (journal_form form) (journal_range form) epoch reader.old
        → HasRead reader.old [] (D.medium disk.old).contents
        → (batches : List (List PlainEvent))
        × Replays form (length room.old) engine.old.limits engine.old.state epoch (D.medium disk.old).contents
        batches engine.new.state × HasRead reader.new (map batch_bytes batches) (D.medium disk.old).contents) }
    // Some bytes are no such batches; the fault is in the first batch that goes wrong.
    ensures refused { IfErr result (IsDamage (λ sector. IsHonest (D.medium disk.old) → (form : AnyForm) (epoch : ℕ)
        → IsReaderOf (journal_form form) (journal_range form) epoch reader.old
        → HasRead reader.old [] (D.medium disk.old).contents
        → IsBadAt form (length room.old) engine.old.limits engine.old.state epoch (D.medium disk.old).contents
        sector)) }
    // It only reads.
    ensures reads { OnlyReads D.size D.medium D.counts (IsErrOf result OpenError.Device) disk.old disk.new }
    ensures room { length room.new ≡ length room.old }
{
    loop {
        let sector = reader.sector();
        let Some(len) = reader.next_batch(disk, room)? else {
            return Ok(());
        };
        if !go_through(engine, &room[4..len])? {
            return Err(OpenError::Damaged { sector });
        }
    }
}

/// Leads the machine through the events whose records these are, from the first to the last.
/// `false` if the bytes are no records, or if an event names a process that is not connected.
fn go_through(engine: &mut Engine, records: &[u8]) -> Result<bool, AllocError>
    ensures limits { engine.new.limits ≡ engine.old.limits }
    ensures tracked { (base : State) → IsTracked engine.old.changed base engine.old.state
        → IsTracked engine.new.changed base engine.new.state }
    ensures all { IfOk result (λ good. good ≡ true → (events : List PlainEvent)
        × AreRecords engine.old.limits engine.old.state records.now events engine.new.state) }
    ensures only { (events : List PlainEvent) (s : State)
        → AreRecords engine.old.limits engine.old.state records.now events s
        → IfOk result (λ good. (good ≡ true) × (engine.new.state ≡ s)) }
{
    let mut at = 0;
    while at < records.len() {
        let Some((len, event)) = read_event(&records[at..]) else {
            return Ok(false);
        };
        if !engine.is_for_process(&event) {
            return Ok(false);
        }
        engine.step(event)?;
        at += len;
    }
    Ok(true)
}
