//! The reading of a journal, from its beginning.

ghost use Rattle.std.specs.Prelude.{◌≡◌, ◌⊎◌, ◌+◌, ◌-◌, ◌<◌, ◌≤◌, ◌^◌, ◌++◌, ◌∷◌, [], List, ℕ, length, take, drop};
ghost use Rattle.std.specs.Prelude.{Ok, None, Some, OnErr, IfOk, IsErrOf, slice_index};
ghost use Rattle.ipc_disk.specs.Calls.{OnlyReads};
ghost use Rattle.ipc_disk.specs.Medium.{IsHonest};
ghost use Rattle.ipc_disk.specs.Range.{IsWithin};
ghost use Rattle.ipc_journal.specs.Batch.{IsBatch};
ghost use Rattle.ipc_journal.specs.declared.form.Form.TheVariants.{Headed, Tagged};
ghost use Rattle.ipc_journal.specs.Journal.{head, most_sectors, sector_of, sectors_in, EndsAt, HasBadHeader};
ghost use Rattle.ipc_journal.specs.Journal.{HasLater, HasMore, HasNone, IsAt, IsEndRead, IsNext, IsRangeFor};

use crate::form::Form;
use crate::journal::Journal;
use crate::{JournalError, headed, tagged};
use ipc_disk::{Range, SectorDisk};

/// A journal that is read from its beginning, batch by batch. Each of its sectors is read once, in rising order.
#[derive(Clone, Copy, Debug, PartialEq, Eq)]
pub struct Reader {
    form: Form,
    range: Range,
    epoch: u64,
    // where its batches end at the latest
    end: u32,
    used: u32,
    batches: u32,
    ghost counted: { range.count ≤ most_sectors form },
    ghost room: { head form + end ≤ range.count },
    ghost placed: { range.first + range.count < 2 ^ 32 },
    ghost last: { form ≡ Tagged → end ≡ range.count },
    ghost passed: { used ≤ end },
    ghost few: { batches ≤ used },
}

impl Reader {
    ghost use Rattle.ipc_journal.specs.Reader.{place_of, before_of, form_read, range_read, epoch_read};
    ghost use Rattle.ipc_journal.specs.Reader.{EndsAfter, HasNoneAfter, HasRead, IsNextOf, IsReaderOf};
    ghost use Rattle.ipc_journal.specs.View.{form_of, range_of, epoch_of, used_of, count_of};

    /// Before the first batch. A header is read: one of an earlier epoch reads as no batch, whatever else it says; one
    /// of a later epoch, or with more used sectors than there are, is `Damaged` at its sector.
    pub fn open<D: SectorDisk>(
        disk: &mut D,
        form: Form,
        range: Range,
        epoch: u64,
    ) -> Result<Reader, JournalError>
        requires counted { IsRangeFor form range }
        requires within { IsWithin range (D.size disk.old) }
        ensures of { IfOk result (λ reader. IsReaderOf form range epoch reader) }
        ensures begins { IfOk result (λ reader. IsHonest (D.medium disk.old)
            → HasRead reader [] (D.medium disk.old).contents) }
        ensures first { IfOk result (λ reader. (place_of reader ≡ 0) × (before_of reader ≡ 0)) }
        ensures damaged { (sector : ℕ) → IsErrOf result (JournalError.Damaged sector)
            → IsHonest (D.medium disk.old) → HasBadHeader form range epoch (D.medium disk.old).contents }
        ensures named { (sector : ℕ) → IsErrOf result (JournalError.Damaged sector)
            → sector ≡ range.first }
        // It only reads: a crash at any moment leaves what it could before. `Device` is one failure more.
        ensures reads { OnlyReads D.size D.medium D.counts (IsErrOf result JournalError.Device) disk.old disk.new }
    {
        let end = last_place(disk, form, range, epoch)?;
        Ok(Reader {
            form,
            range,
            epoch,
            end,
            used: 0,
            batches: 0,
        })
    }

    /// The sector in which the next batch begins, if there is one.
    pub fn sector(&self) -> u32
        ensures { result ≡ sector_of (form_read self.now) (range_read self.now) (place_of self.now) }
    {
        self.range.first + self.form.head() + self.used
    }

    /// The next batch, with its length field, into the front of `into`; its length. `None` if there are no more.
    /// `Damaged` names the first sector of a batch whose length does not fit its sectors, or `into`, or the sector
    /// after the batches if it is of a later epoch. After an error, and after `None`, the reader is as it was. What
    /// follows the batch in `into` is as it was, and with a header all of it after `None` and `Damaged`.
    pub fn next_batch<D: SectorDisk>(
        &mut self,
        disk: &mut D,
        into: &mut [u8],
    ) -> Result<Option<usize>, JournalError>
        requires { IsWithin (range_read self.old) (D.size disk.old) }
        ensures of { IsReaderOf (form_read self.old) (range_read self.old) (epoch_read self.old) self.new }
        // A batch more.
        ensures more { IfOk result (λ found. (len : ℕ) → found ≡ Some len → IsHonest (D.medium disk.old)
            → (batches : List (List ℕ)) → HasRead self.old batches (D.medium disk.old).contents
            → HasRead self.new (batches ++ take len into.new ∷ []) (D.medium disk.old).contents) }
        ensures next { IfOk result (λ found. (len : ℕ) → found ≡ Some len → IsHonest (D.medium disk.old)
            → (batches : List (List ℕ)) → HasRead self.old batches (D.medium disk.old).contents
            → IsNextOf self.old (take len into.new) (D.medium disk.old).contents) }
        ensures least { IfOk result (λ found. (len : ℕ) → found ≡ Some len → 4 ≤ len) }
        ensures fits { IfOk result (λ found. (len : ℕ) → found ≡ Some len → len ≤ length into.old) }
        ensures beyond { IfOk result (λ found. (len : ℕ) → found ≡ Some len
            → drop len into.new ≡ drop len into.old) }
        ensures bytes { IfOk result (λ found. (len : ℕ) → found ≡ Some len → (i : ℕ) → slice_index into.new i < 256) }
        ensures passes { IfOk result (λ found. (len : ℕ) → found ≡ Some len
            → place_of self.new ≡ place_of self.old + sectors_in (form_read self.old) len) }
        ensures counts { IfOk result (λ found. (len : ℕ) → found ≡ Some len
            → before_of self.new ≡ before_of self.old + 1) }
        ensures goes_on { IfOk result (λ found. (len : ℕ) → found ≡ Some len
            → place_of self.old < place_of self.new) }
        ensures inside { IfOk result (λ found. (len : ℕ) → found ≡ Some len
            → head (form_read self.old) + place_of self.new ≤ (range_read self.old).count) }
        // No more.
        ensures ended { result ≡ Ok None → IsHonest (D.medium disk.old)
            → (batches : List (List ℕ)) → HasRead self.old batches (D.medium disk.old).contents
            → EndsAfter self.old (D.medium disk.old).contents }
        ensures none { result ≡ Ok None → self.new ≡ self.old }
        ensures unread { result ≡ Ok None → form_read self.old ≡ Headed → into.new ≡ into.old }
        // When it is damaged.
        ensures kept { OnErr result (self.new ≡ self.old) }
        ensures untouched { (sector : ℕ) → IsErrOf result (JournalError.Damaged sector)
            → form_read self.old ≡ Headed → into.new ≡ into.old }
        ensures damaged { (sector : ℕ) → IsErrOf result (JournalError.Damaged sector)
            → IsHonest (D.medium disk.old)
            → (batches : List (List ℕ)) → HasRead self.old batches (D.medium disk.old).contents
            → HasNoneAfter self.old (length into.old) (D.medium disk.old).contents }
        ensures named { (sector : ℕ) → IsErrOf result (JournalError.Damaged sector)
            → sector ≡ sector_of (form_read self.old) (range_read self.old) (place_of self.old) }
        // It only reads: a crash at any moment leaves what it could before. `Device` is one failure more.
        ensures reads { OnlyReads D.size D.medium D.counts (IsErrOf result JournalError.Device) disk.old disk.new }
    {
        let Some(len) = self.read_next(disk, into)? else {
            return Ok(None);
        };
        self.used += self.form.sectors_in(len) as u32;
        self.batches += 1;
        Ok(Some(len))
    }

    /// The journal, after its last batch.
    pub fn into_journal(self) -> Journal
        ensures form { form_of result ≡ form_read self }
        ensures range { range_of result ≡ range_read self }
        ensures epoch { epoch_of result ≡ epoch_read self }
        ensures used { used_of result ≡ place_of self }
        ensures count { count_of result ≡ before_of self }
    {
        Journal::after(self.form, self.range, self.epoch, self.used, self.batches)
    }

    // The next batch, and nothing of the reader changes.
    fn read_next<D: SectorDisk>(
        &self,
        disk: &mut D,
        into: &mut [u8],
    ) -> Result<Option<usize>, JournalError>
        requires { IsWithin self.now.range (D.size disk.old) }
        ensures is { IfOk result (λ found. (len : ℕ) → found ≡ Some len → IsHonest (D.medium disk.old)
            → IsBatch (take len into.new)
            × IsAt self.now.form self.now.range self.now.epoch self.now.used self.now.batches (take len into.new)
            (D.medium disk.old).contents) }
        ensures least { IfOk result (λ found. (len : ℕ) → found ≡ Some len → 4 ≤ len) }
        ensures fits { IfOk result (λ found. (len : ℕ) → found ≡ Some len → len ≤ length into.old) }
        ensures beyond { IfOk result (λ found. (len : ℕ) → found ≡ Some len
            → drop len into.new ≡ drop len into.old) }
        ensures unread { result ≡ Ok None → self.now.form ≡ Headed → into.new ≡ into.old }
        ensures untouched { (sector : ℕ) → IsErrOf result (JournalError.Damaged sector)
            → self.now.form ≡ Headed → into.new ≡ into.old }
        ensures inside { IfOk result (λ found. (len : ℕ) → found ≡ Some len
            → self.now.used + sectors_in self.now.form len ≤ self.now.end) }
        ensures ended { result ≡ Ok None → IsHonest (D.medium disk.old)
            → IsEndRead self.now.form self.now.range self.now.epoch self.now.end (D.medium disk.old).contents
            → EndsAt self.now.form self.now.range self.now.epoch self.now.used self.now.batches
            (D.medium disk.old).contents }
        ensures damaged { (sector : ℕ) → IsErrOf result (JournalError.Damaged sector)
            → IsHonest (D.medium disk.old)
            → IsEndRead self.now.form self.now.range self.now.epoch self.now.end (D.medium disk.old).contents
            → HasLater self.now.form self.now.range self.now.epoch self.now.used (D.medium disk.old).contents
            ⊎ (HasMore self.now.form self.now.range self.now.epoch self.now.used self.now.batches
            (D.medium disk.old).contents
            × HasNone self.now.form self.now.range self.now.epoch self.now.used self.now.batches
            (length into.old) (D.medium disk.old).contents) }
        ensures named { (sector : ℕ) → IsErrOf result (JournalError.Damaged sector)
            → sector ≡ sector_of self.now.form self.now.range self.now.used }
        ensures reads { OnlyReads D.size D.medium D.counts (IsErrOf result JournalError.Device) disk.old disk.new }
    {
        match self.form {
            Form::Headed => headed::read_next(disk, self.range, self.used, self.end, into),
            Form::Tagged => {
                tagged::read_next(disk, self.range, self.epoch, self.used, self.batches, into)
            }
        }
    }
}

// Where the batches of a journal end at the latest.
fn last_place<D: SectorDisk>(
    disk: &mut D,
    form: Form,
    range: Range,
    epoch: u64,
) -> Result<u32, JournalError>
    requires counted { IsRangeFor form range }
    requires within { IsWithin range (D.size disk.old) }
    ensures end { IfOk result (λ end. IsHonest (D.medium disk.old)
        → IsEndRead form range epoch end (D.medium disk.old).contents) }
    ensures room { IfOk result (λ end. head form + end ≤ range.count) }
    ensures last { IfOk result (λ end. form ≡ Tagged → end ≡ range.count) }
    ensures damaged { (sector : ℕ) → IsErrOf result (JournalError.Damaged sector)
        → IsHonest (D.medium disk.old) → HasBadHeader form range epoch (D.medium disk.old).contents }
    ensures named { (sector : ℕ) → IsErrOf result (JournalError.Damaged sector)
        → sector ≡ range.first }
    ensures reads { OnlyReads D.size D.medium D.counts (IsErrOf result JournalError.Device) disk.old disk.new }
{
    match form {
        Form::Headed => headed::read_header(disk, range, epoch),
        Form::Tagged => Ok(range.count),
    }
}
