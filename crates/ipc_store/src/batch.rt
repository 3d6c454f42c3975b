//! The batch of the events that wait for a commit.

ghost use Rattle.std.specs.Prelude.{◌≡◌, ◌≤◌, ◌+◌, ◌-◌, ◌++◌, [], length, take, drop};
ghost use Rattle.byteorder.specs.Endian.{big_bytes};
ghost use Rattle.ipc_engine.specs.View.{plain_event};
ghost use Rattle.ipc_image.specs.Records.{record_bytes, HasRecord};
ghost use Rattle.ipc_store.specs.Batch.{most_bytes, most_records, tick_record};

use byteorder::{BigEndian, ByteOrder};
use ipc_engine::Event;
use ipc_image::{FORMAT, record_len, write_event};
use std::marker::Model;

/// The most bytes of a batch, with its length.
pub(crate) const MOST_BYTES: usize = FORMAT.batch as usize;

/// The bytes of the record of a tick, than which none is shorter: its length, its kind and its moment.
pub const TICK_RECORD: usize = 13;

/// The bytes of the record of an exit: it has the pid besides.
pub const EXIT_RECORD: usize = TICK_RECORD + 4;

/// The bytes of a batch as they go to the journal: each record is written straight into its place.
#[derive(Drop)]
pub(crate) struct Batch {
    // The length of the records, the records, and bytes that mean nothing.
    bytes: Vec<u8>,
    // How many bytes mean something.
    len: usize,
    count: u64,
}

impl Model for Batch {
    ghost use Rattle.std.specs.Prelude.{take, drop};
    ghost use Rattle.ipc_store.specs.View.{BatchView};
    ghost use Rattle.ipc_store.specs.Relations.Batch.{IsFilled};

    ghost Value = { BatchView };

    ghost view = { λ b. record { records = drop 4 (take b.len b.bytes.items); count = b.count } };

    ghost invariant = { λ b. IsFilled b.bytes.items b.len b.count };
}

impl Batch {
    ghost use Rattle.std.specs.Prelude.{◌*◌, ◌↔◌, IsTrue};

    /// A batch without events, in these bytes.
    pub(crate) fn new(room: Vec<u8>) -> Batch
        requires { length room.items ≡ most_bytes }
        ensures { result ≡ record { records = []; count = 0 } }
    {
        let mut bytes = room;
        BigEndian::write_u32(&mut bytes, 0);
        Batch {
            bytes,
            len: 4,
            count: 0,
        }
    }

    /// Whether records of so many bytes fit.
    pub(crate) fn has_room_for(&self, bytes: usize) -> bool
        ensures { IsTrue result ↔ (4 + length self.now.records + bytes ≤ most_bytes) }
    {
        bytes <= MOST_BYTES - self.len
    }

    /// How many events wait.
    pub(crate) fn count(&self) -> u64
        ensures count { result ≡ self.now.count }
        ensures few { tick_record * self.now.count ≤ most_records }
        ensures some { tick_record * self.now.count ≤ length self.now.records }
        ensures none { self.now.count ≡ 0 → self.now.records ≡ [] }
    {
        self.count
    }

    /// Adds the record of an event.
    pub(crate) fn push(&mut self, event: &Event<'_>)
        requires room { 4 + length self.old.records + length (record_bytes (plain_event event.now)) ≤ most_bytes }
        ensures record { HasRecord (plain_event event.now) }
        ensures records { self.new.records ≡ self.old.records ++ record_bytes (plain_event event.now) }
        ensures count { self.new.count ≡ self.old.count + 1 }
    {
        self.len = put_record(&mut self.bytes, self.len, event);
        self.count += 1;
    }

    /// The bytes of the batch.
    pub(crate) fn bytes(&self) -> &[u8]
        ensures bytes { result.now ≡ big_bytes 4 (length self.now.records) ++ self.now.records }
        ensures size { 4 + length self.now.records ≤ most_bytes }
    {
        &self.bytes[..self.len]
    }

    /// No event waits any more.
    pub(crate) fn clear(&mut self)
        ensures { self.new ≡ record { records = []; count = 0 } }
    {
        BigEndian::write_u32(&mut self.bytes, 0);
        self.len = 4;
        self.count = 0;
    }
}

// Puts the record of an event directly after the batch in the first `len` bytes. Answers how many bytes the batch has
// then.
fn put_record(bytes: &mut [u8], len: usize, event: &Event<'_>) -> usize
    requires size { length bytes.old ≡ most_bytes }
    requires least { 4 ≤ len }
    requires room { len + length (record_bytes (plain_event event.now)) ≤ most_bytes }
    ensures record { HasRecord (plain_event event.now) }
    ensures len { result ≡ len + length (record_bytes (plain_event event.now)) }
    ensures least { len + tick_record ≤ result }
    ensures most { result ≤ most_bytes }
    ensures size { length bytes.new ≡ most_bytes }
    ensures field { take 4 bytes.new ≡ big_bytes 4 (result - 4) }
    ensures records { drop 4 (take result bytes.new)
        ≡ drop 4 (take len bytes.old) ++ record_bytes (plain_event event.now) }
{
    let end = len + record_len(event);
    write_event(event, &mut bytes[len..]);
    BigEndian::write_u32(bytes, (end - 4) as u32);
    end
}
