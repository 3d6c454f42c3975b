//! A journal of batches of bytes in a range of sectors: after a crash at any moment an append is there whole or
//! not at all. It has one of two forms (`Form`): with a header, or of tagged sectors.
//!
//! Where a rule stands (definition, code, proof):
//!
//! - Which batches an image has, whatever the form of the journal: `specs/Journal.antt`, `src/journal.rt`,
//!   `src/reader.rt`
//! - A journal with a header: `specs/Headed.antt`, `src/headed.rt`; docs/DEVICE.md
//! - One of tagged sectors: `specs/Tagged.antt`, `src/tagged.rt`. An append that was torn: `proofs/Mixed.antt`. The
//!   clearing of what it has left: `proofs/Cleared.antt`
//!
//! What the clauses say:
//!
//! All of it holds over every disk that meets the trait and is honest.
//!
//! - `create` makes an empty journal without a sync (`empty`), after whose batches nothing is of its epoch (`clear`).
//! - `append`: at every moment of the call each image that a crash may leave holds the batches of before, with the new
//!   one or without (`any_moment`, `ComesInOrder` of `specs/Meanwhile.antt`). With a header, the sectors of the batch
//!   stand before the header counts it: up to some moment each image has the batches of before, and from then on the
//!   sectors of the new one are there as well. Of tagged sectors those of this epoch stay as they were. Once it is Ok
//!   every image has the new batch (`acknowledged`), which stands on the disk to the byte, with a header that counts
//!   it or with its tags (`written`), and a crash leaves what is read (`durable`). It makes one write for each sector
//!   of the batch and one sync, and with a header one more of each (`counts`). If it fails, the value is as it was
//!   (`kept`).
//! - `clear_tail`: once it is Ok no sector after the batches is of this epoch, so that of a batch that is torn later no
//!   sector of before can be taken for one of its own (`cleared`). At every moment each image holds the same batches
//!   (`any_moment`). It makes at most one write for each sector that is left and one sync (`writes`, `syncs`), and none
//!   if nothing there is of this epoch or a later one (`quiet`). With a header it makes no call (`none`).
//! - `Reader` reads a journal from its beginning, each sector once and in rising order. `open` reads a header of an
//!   earlier epoch as empty, and is `Damaged` only at a later epoch or at a count that is too large (`damaged`), with
//!   the header's sector (`named`). Of tagged sectors it reads none.
//! - `next_batch` gives the batches that stand there, in order (`more`, `next`), each of at least four bytes (`least`).
//!   After `None` the journal ends there, with the batches that were read (`ended`): a header says so, or no batch goes
//!   on there of which all sectors stand. It is `Damaged` only if the journal has one batch more and none of at most so
//!   many bytes stands there, or if a sector of a later epoch does (`damaged`), with the sector (`named`). After an
//!   error and after `None` the reader is as it was (`kept`, `none`). `into_journal` is the journal after what was
//!   read.
//! - `fits` is exact, `used` is how many sectors batches take, and `range` are its sectors. `turn` empties the journal
//!   without a write (`empty`): all that stands there is of earlier epochs then.
//! - No call writes outside the journal's range (`others`; `open` and `next_batch` only read: `reads`), and the disk is
//!   the same after it (`same`). A failure is answered only if the disk counted one (`counts`, `reads`).
//! - Laws:
//!   - an image holds one list of batches at an epoch, and no two (`an_image_is_one_journal`).
//!   - who reads the header, and then each sector of the body in an image in which the batches of that header stand,
//!     has read those batches (`a_journal_that_grows_is_read_whole`).
//!   - who reads tagged sectors, each in an image that is a part of one in which all batches stand that come, has read
//!     some of these, from the first on, and all that stand in each of those images
//!     (`tagged_batches_are_read_from_the_first_on`). `append` says of its images that they are such parts.
#![tactic(auto)]

mod error;
mod form;
mod headed;
mod journal;
mod laws;
mod reader;
mod tagged;

pub use error::JournalError;
pub use form::Form;
pub use journal::Journal;
pub use laws::{
    a_journal_that_grows_is_read_whole, an_image_is_one_journal,
    tagged_batches_are_read_from_the_first_on,
};
pub use reader::Reader;
