//! The journal: its value, and the calls on it.

ghost use Rattle.std.specs.Prelude.{◌≡◌, ◌↔◌, ◌+◌, ◌-◌, ◌<◌, ◌≤◌, ℕ};
ghost use Rattle.std.specs.Prelude.{◌++◌, [], ◌∷◌, List, length};
ghost use Rattle.std.specs.Prelude.{Ok, OnOk, OnErr, IsTrue};
ghost use Rattle.ipc_disk.specs.Range.{IsWithin, IsOutside};
ghost use Rattle.ipc_journal.specs.Journal.{head, most_sectors};

use crate::form::Form;
use crate::{headed, tagged};
use ipc_disk::{DiskFault, Range, SectorDisk};

/// What is known of a journal on a disk: its form, its sectors, its epoch, how many sectors its batches take, and how
/// many batches it has.
#[derive(Clone, Copy, Debug, PartialEq, Eq)]
pub struct Journal {
    form: Form,
    range: Range,
    epoch: u64,
    used: u32,
    batches: u32,
    ghost counted: { range.count ≤ most_sectors form },
    ghost room: { head form + used ≤ range.count },
    ghost few: { batches ≤ used },
}

impl Journal {
    ghost use Rattle.ipc_disk.specs.Calls.{IsSameDisk, CountsCalls, CountsFault};
    ghost use Rattle.ipc_disk.specs.Counts.{counted, with_calls};
    ghost use Rattle.ipc_disk.specs.Medium.{Image, IsHonest, IsDurable};
    ghost use Rattle.ipc_disk.specs.Since.{EachImageSince, LeavesAlone};
    ghost use Rattle.ipc_journal.specs.Batch.{IsBatch};
    ghost use Rattle.ipc_journal.specs.Journal.{sectors_in, sectors_of, Holds, IsClear, IsOlder, IsRangeFor, IsWritten};
    ghost use Rattle.ipc_journal.specs.View.{form_of, range_of, epoch_of, used_of, count_of, Fits};
    ghost use Rattle.ipc_journal.specs.View.{append_writes, append_syncs, create_writes};
    ghost use Rattle.ipc_journal.specs.Matches.{IsKept, JournalMatches};
    ghost use Rattle.ipc_journal.specs.Meanwhile.{Comes, ComesInOrder};

    /// Makes of a range an empty journal of this epoch: a header that counts no batch, or zeros in each sector. It does
    /// not sync.
    pub fn create<D: SectorDisk>(
        disk: &mut D,
        form: Form,
        range: Range,
        epoch: u64,
    ) -> Result<(), DiskFault>
        requires counted { IsRangeFor form range }
        requires later { 0 < epoch }
        requires within { IsWithin range (D.size disk.old) }
        // There is no batch, and nothing of this epoch.
        ensures empty { OnOk result (IsHonest (D.medium disk.old)
            → Holds form range epoch [] (D.medium disk.new).contents) }
        ensures clear { OnOk result (IsHonest (D.medium disk.old)
            → IsClear form range epoch 0 (D.medium disk.new).contents) }
        // A crash at any moment of the call, also of one that fails: where a journal with a header has no batch, it has
        // none while its sectors become those of one with tags.
        ensures any_moment { form ≡ Form.Tagged → (other : ℕ) → 0 < other → IsHonest (D.medium disk.old)
            → ((image : Image) → (D.medium disk.old).images_now image → Holds Form.Headed range other [] image)
            → EachImageSince (D.medium disk.old) (D.medium disk.new) (Holds Form.Headed range other []) }
        ensures others { IsHonest (D.medium disk.old)
            → LeavesAlone (IsOutside range) (D.medium disk.old) (D.medium disk.new) }
        // Failures and counts.
        ensures same { IsSameDisk D.size D.medium disk.old disk.new }
        ensures counts { CountsCalls D.counts result (with_calls (create_writes form range) 0) disk.old disk.new }
    {
        match form {
            Form::Headed => headed::put_header(disk, range, epoch),
            Form::Tagged => tagged::erase(disk, range),
        }
    }

    /// A journal after so many batches.
    pub(crate) fn after(form: Form, range: Range, epoch: u64, used: u32, batches: u32) -> Journal
        requires counted { range.count ≤ most_sectors form }
        requires room { head form + used ≤ range.count }
        requires few { batches ≤ used }
        ensures form { form_of result ≡ form }
        ensures range { range_of result ≡ range }
        ensures epoch { epoch_of result ≡ epoch }
        ensures used { used_of result ≡ used }
        ensures count { count_of result ≡ batches }
    {
        Journal {
            form,
            range,
            epoch,
            used,
            batches,
        }
    }

    /// Empty at a later epoch. Nothing is written: what stands there is of earlier epochs from now on.
    pub fn turn(&mut self, epoch: u64)
        requires { epoch_of self.old < epoch }
        ensures form { form_of self.new ≡ form_of self.old }
        ensures range { range_of self.new ≡ range_of self.old }
        ensures epoch { epoch_of self.new ≡ epoch }
        ensures unused { used_of self.new ≡ 0 }
        ensures none { count_of self.new ≡ 0 }
        ensures empty { (batches : List (List ℕ)) (image : Image)
            → Holds (form_of self.old) (range_of self.old) (epoch_of self.old) batches image
            → IsClear (form_of self.old) (range_of self.old) (epoch_of self.old)
            (sectors_of (form_of self.old) batches) image
            → Holds (form_of self.new) (range_of self.new) epoch [] image }
        ensures any_image { (image : Image) → IsOlder (form_of self.old) (range_of self.old) epoch image
            → Holds (form_of self.new) (range_of self.new) epoch [] image }
    {
        self.epoch = epoch;
        self.used = 0;
        self.batches = 0;
    }

    /// The sectors that it has.
    pub fn range(&self) -> Range
        ensures { result ≡ range_of self.now }
    {
        self.range
    }

    /// How many of its sectors batches take, a header not among them.
    pub fn used(&self) -> u32
        ensures { result ≡ used_of self.now }
    {
        self.used
    }

    /// A batch of so many bytes, with the four of its length, can be appended.
    pub fn fits(&self, len: usize) -> bool
        ensures { IsTrue result ↔ Fits self.now len }
    {
        self.form.sectors_in(len) <= (self.range.count - self.form.head() - self.used) as usize
    }

    /// Appends a batch, with its length field. A crash at any moment leaves the batches of before, with this one or
    /// without; once it is Ok, with it. After an `Err` this value is as it was, and what stands on the disk may not be:
    /// open the journal again.
    pub fn append<D: SectorDisk>(&mut self, disk: &mut D, batch: &[u8]) -> Result<(), DiskFault>
        requires within { IsWithin (range_of self.old) (D.size disk.old) }
        requires fits { Fits self.old (length batch.now) }
        requires batch { IsBatch batch.now }
        // The journal has one batch more, on the disk to the byte, or the value is as it was.
        ensures form { form_of self.new ≡ form_of self.old }
        ensures range { range_of self.new ≡ range_of self.old }
        ensures epoch { epoch_of self.new ≡ epoch_of self.old }
        ensures used { OnOk result (used_of self.new
            ≡ used_of self.old + sectors_in (form_of self.old) (length batch.now)) }
        ensures count { OnOk result (count_of self.new ≡ count_of self.old + 1) }
        ensures acknowledged { OnOk result ((batches : List (List ℕ))
            → JournalMatches self.old batches (D.medium disk.old)
            → JournalMatches self.new (batches ++ batch.now ∷ []) (D.medium disk.new)) }
        ensures written { OnOk result (IsHonest (D.medium disk.old)
            → IsWritten (form_of self.old) (range_of self.old) (epoch_of self.old) (used_of self.old)
            (count_of self.old) batch.now (D.medium disk.new).contents) }
        ensures durable { OnOk result (IsDurable (D.medium disk.new)) }
        ensures kept { OnErr result (self.new ≡ self.old) }
        // A crash at any moment of the call, also of one that fails, and who reads meanwhile.
        ensures any_moment { (batches : List (List ℕ)) → JournalMatches self.old batches (D.medium disk.old)
            → ComesInOrder D.medium self.old batches batch.now disk.old disk.new }
        ensures others { IsHonest (D.medium disk.old)
            → LeavesAlone (IsOutside (range_of self.old)) (D.medium disk.old) (D.medium disk.new) }
        // Failures and counts.
        ensures same { IsSameDisk D.size D.medium disk.old disk.new }
        ensures counts { CountsCalls D.counts result
            (with_calls (append_writes (form_of self.old) (length batch.now)) (append_syncs (form_of self.old)))
            disk.old disk.new }
    {
        self.put(disk, batch)?;
        self.used += self.form.sectors_in(batch.len()) as u32;
        self.batches += 1;
        Ok(())
    }

    // Puts a batch after those that there are, and the value is as it was.
    fn put<D: SectorDisk>(&self, disk: &mut D, batch: &[u8]) -> Result<(), DiskFault>
        requires within { IsWithin (range_of self.now) (D.size disk.old) }
        requires fits { Fits self.now (length batch.now) }
        requires batch { IsBatch batch.now }
        ensures acknowledged { OnOk result ((batches : List (List ℕ))
            → JournalMatches self.now batches (D.medium disk.old)
            → IsKept (form_of self.now) (range_of self.now) (epoch_of self.now) (batches ++ batch.now ∷ [])
            (D.medium disk.new)) }
        ensures written { OnOk result (IsHonest (D.medium disk.old)
            → IsWritten (form_of self.now) (range_of self.now) (epoch_of self.now) (used_of self.now)
            (count_of self.now) batch.now (D.medium disk.new).contents) }
        ensures durable { OnOk result (IsDurable (D.medium disk.new)) }
        ensures any_moment { (batches : List (List ℕ)) → JournalMatches self.now batches (D.medium disk.old)
            → ComesInOrder D.medium self.now batches batch.now disk.old disk.new }
        ensures others { IsHonest (D.medium disk.old)
            → LeavesAlone (IsOutside (range_of self.now)) (D.medium disk.old) (D.medium disk.new) }
        ensures same { IsSameDisk D.size D.medium disk.old disk.new }
        ensures counts { CountsCalls D.counts result
            (with_calls (append_writes (form_of self.now) (length batch.now)) (append_syncs (form_of self.now)))
            disk.old disk.new }
    {
        match self.form {
            Form::Headed => headed::append(disk, self.range, self.epoch, self.used, batch),
            Form::Tagged => tagged::append(
                disk,
                self.range,
                self.epoch,
                self.used,
                self.batches,
                batch,
            ),
        }
    }

    /// Clears what stands after the batches, so that no sector there is of this epoch: of tagged sectors, each of this
    /// epoch or a later one gets zeros, in rising order, and if there was one, a sync follows. With a header it makes
    /// no call. After an `Err` some of them may have zeros: the batches are as they were.
    pub fn clear_tail<D: SectorDisk>(&self, disk: &mut D) -> Result<(), DiskFault>
        requires within { IsWithin (range_of self.now) (D.size disk.old) }
        // Nothing after the batches is of this epoch, on a disk on which a crash leaves what is read.
        ensures cleared { OnOk result ((batches : List (List ℕ)) → 0 < epoch_of self.now → IsHonest (D.medium disk.old)
            → IsDurable (D.medium disk.old) → used_of self.now ≡ sectors_of (form_of self.now) batches
            → count_of self.now ≡ length batches
            → Holds (form_of self.now) (range_of self.now) (epoch_of self.now) batches (D.medium disk.old).contents
            → JournalMatches self.now batches (D.medium disk.new)) }
        ensures durable { OnOk result (IsHonest (D.medium disk.old)
            → IsDurable (D.medium disk.old) → IsDurable (D.medium disk.new)) }
        // A crash at any moment of the call, also of one that fails.
        ensures any_moment { (batches : List (List ℕ)) → 0 < epoch_of self.now → IsHonest (D.medium disk.old)
            → used_of self.now ≡ sectors_of (form_of self.now) batches → count_of self.now ≡ length batches
            → ((image : Image) → (D.medium disk.old).images_now image
            → Holds (form_of self.now) (range_of self.now) (epoch_of self.now) batches image)
            → EachImageSince (D.medium disk.old) (D.medium disk.new)
            (Holds (form_of self.now) (range_of self.now) (epoch_of self.now) batches) }
        ensures others { IsHonest (D.medium disk.old)
            → LeavesAlone (IsOutside (range_of self.now)) (D.medium disk.old) (D.medium disk.new) }
        // Failures and counts.
        ensures none { form_of self.now ≡ Form.Headed → disk.new ≡ disk.old }
        ensures nothing { head (form_of self.now) + used_of self.now ≡ (range_of self.now).count → disk.new ≡ disk.old }
        ensures same { IsSameDisk D.size D.medium disk.old disk.new }
        ensures counts { CountsFault D.counts result disk.old disk.new }
        ensures writes { OnOk result ((D.counts disk.new).writes
            ≤ counted (D.counts disk.old).writes ((range_of self.now).count - used_of self.now)) }
        ensures syncs { OnOk result ((D.counts disk.new).syncs ≤ counted (D.counts disk.old).syncs 1) }
        ensures quiet { OnOk result (IsHonest (D.medium disk.old)
            → IsClear (form_of self.now) (range_of self.now) (epoch_of self.now) (used_of self.now)
            (D.medium disk.old).contents → D.counts disk.new ≡ D.counts disk.old) }
    {
        match self.form {
            Form::Headed => Ok(()),
            Form::Tagged => tagged::clear(disk, self.range, self.epoch, self.used, self.batches),
        }
    }
}
