//! The store: a machine whose events last. Each accepted event joins a batch, a commit appends the batch to the journal
//! of a device, and an open leads the machine through what stands there.
//!
//! Where a rule stands (definition, code, proof):
//!
//! - What an image stands for: `specs/Image.antt`; the replay: `src/replay.rt`, `proofs/Replaying.antt`; the order of
//!   an open's tests: `src/loading.rt`
//! - When events are made to last: `src/store.rt`, `specs/Batch.antt`, `src/batch.rt`
//! - What a call promises over crashes: `specs/Histories.antt`, `proofs/Committing.antt`, `proofs/Devices.antt`,
//!   `proofs/Accepting.antt`, `proofs/Lives.antt`
//! - What a stopped call leaves to the next open: `specs/Lives.antt`, `proofs/Leaving.antt`
//! - How a device is made: `src/format.rt`, `specs/Relations/Format.antt`, `proofs/Formatting.antt`
//! - How a device of version 1 is upgraded: `src/upgrade.rt`, `specs/Upgrade.antt`, `specs/Relations/Upgrade.antt`,
//!   `proofs/Upgrading.antt`, `proofs/Upgrades.antt`
//! - How a device of version 2 becomes one of version 3: `src/larger.rt`, `src/exceeding.rt`, `specs/Larger.antt`,
//!   `specs/Relations/Larger.antt`, `proofs/Enlarging.antt`, `proofs/LargerRefusals.antt`; after stopped upgrades:
//!   `specs/Enlargements.antt`, `proofs/Enlargements.antt`
//! - How a device is made of a machine's state: `src/copying.rt`
//! - What is counted: `src/tally.rt`
//! - How a device in use is looked at: `src/looking.rt`, `specs/Look.antt`; what is there for that while a store goes
//!   on: `specs/Meanwhile.antt`; how its file is read: `src/file.rt` and `src/system.rt` of `ipc_disk`
//!
//! What the clauses say:
//!
//! All that is said of crashes holds over every disk that meets the trait and is honest. What an image stands for is
//! `StandsFor` of `specs/Image.antt`, a definition by the form of the device alone (`StandsForIn`, of each of three
//! versions): its objects stand for a base, and the batches of its journal, at the same epoch, lead from there to the
//! state. Limits name the form of a device that is opened: their version, and their journal (`device_form` of
//! `ipc_image`). A store that has not stopped, on an honest disk, always matches what stands there, and what differs
//! from the state that was saved there counts as changed: that is its invariant, which `close` shows (`matches`).
//!
//! - `Store::format` makes a device of the version and with the journal that the limits name: every image that a crash
//!   may leave afterwards stands for the first state under them (`ok`, `own_limits`), and it is what is read
//!   (`durable`). During the call each image is one of before, or not formatted, or stands for the first state
//!   (`any_moment`). It is refused for limits that fail a test of the version (`limits`), then for too few
//!   sectors (`small`), each exactly then and with the disk untouched (`untouched`), and by the disk (`counts`). The
//!   superblock names all sectors of the disk (`whole`). `Store::format_large` does the same for version 3 with a
//!   journal of a given number of sectors, whatever the limits name.
//! - `Store::copy_onto` does the same with the version, the journal, the limits and the state of a machine: every image
//!   that a crash may leave afterwards stands for that state (`ok`, `durable`), and during the call each is one of
//!   before, or not formatted, or stands for that state (`any_moment`). It is refused as `Store::format` is (`limits`,
//!   `small`, `untouched`, `counts`), and for limits that name no form of a device that is opened (`own_fault`); those
//!   of a device that was opened are not. The superblock names all sectors of the disk (`whole`).
//! - `Store::open` gives a store that goes on from the state for which the disk stood, after a restart, with no event
//!   waiting (`ok`) and one confirmed (`confirmed`); its epoch is at most the one after that of the disk (`numbers`).
//!   During the call each image is one of before, or stands for that state or for that state after a restart
//!   (`any_moment`), and whoever reads the disk meanwhile finds what was saved, as beside a commit (`meanwhile`). Of a
//!   journal of tagged sectors those after the batches that name the epoch are cleared before the restart. A disk that
//!   stands for no state is never opened (`ok`), and nothing is written to it (`untouched`). No other refusal but the
//!   disk's writes anything either (`unwritten`). What each error says of the disk is one relation (`refused`;
//!   `IsRefusal` of `specs/Refusals.antt`). `Damaged` names the first sector in which a damage is seen, of the objects
//!   just that of the heap (`IsFirstDamage`). `Damaged` with the root's sector also says that an open would have to
//!   save and that the epochs are at their end: the device stands for a state, its objects and its journal are of the
//!   last epoch, and the journal has no room for a batch (`IsAtEnd`). `Device` says that the disk counted a failure,
//!   which no other answer has seen (`counts`). So a disk that stands for a state is refused by the disk, for want of
//!   memory or at the end of the epochs alone (`refusals`). With each refusal the disk is handed back.
//! - `Store::upgrade` makes a device of version 1 one of version 2, where it lies. During the call each image is one of
//!   before, or stands in version 1, under the limits of its superblock, for the state for which the disk stood, or in
//!   version 2, under the limits of the upgrade, for that state after a restart (`any_moment`, `UpgradesTo` of
//!   `specs/Upgrade.antt`). Once it is Ok each image stands for the latter (`ok`, `IsUpgraded`), and a crash leaves
//!   what is read (`durable`). If limits and room are right, a disk that stands for a state in version 1 is refused by
//!   the disk, for want of memory, or because its epoch is the last one (`refusals`). `BadLimits` by `check` comes
//!   before any call on the disk, and leaves it as it is (`checked`). What each error says of the disk is one relation,
//!   which also has the order of the tests (`refused`, `small`; `IsUpgradeRefusal` of `specs/Refusals.antt`). If it is
//!   not refused by the disk, it has written nothing (`unwritten`).
//! - `Store::upgrade_large` makes a device of version 2 one of version 3 with a journal of 257 sectors, where it lies.
//!   It saves the state after a restart in version 2, writes it beside that in the objects of version 3, clears the
//!   journal, and then writes the superblock. During the call each image is one of before, or stands in version 2,
//!   under the limits of its superblock, for the state for which the disk stood or for that state after a restart, or
//!   in version 3, under the limits of the upgrade, for that state after a restart (`any_moment`, `EnlargesTo` of
//!   `specs/Larger.antt`). Once it is Ok each image stands for the latter (`ok`, `IsEnlarged`), and a crash leaves what
//!   is read (`durable`). What each error says of the disk is one relation, which also has the order of the tests
//!   (`refused`; `IsLargerRefusal` of `specs/Refusals.antt`): the limits of version 3 on messages, adjustments and
//!   bytes of queues come last, with the first field that the state after a restart exceeds (`exceeded_field`). If
//!   limits and room are right and none is exceeded, a disk that stands for a state in version 2 is refused by the
//!   disk, for want of memory, or because it has not two epochs more (`refusals`). Before other errors than the disk's
//!   and that of memory nothing is written (`unwritten`).
//! - `Store::step` takes the machine's step (`state`, `outcomes`) and adds the event to those that wait (`matches`,
//!   `records`, `waiting`). What a save has to write grows by no more than what the event changes (`only`). It makes no
//!   call on the disk (`disk`). It wants room in the batch for the event's record and a connected process. It is
//!   `Stopped` after a failed commit and at the last number of events (`stopped`), it may be refused for memory only
//!   where the machine may (`memory`), and after a refusal nothing has changed (`err`).
//! - `tally` is what the store has done since it was opened: its events by what they are, the refusals among its
//!   replies by their errors, its commits and saves. Nothing that a store does hangs on it, and the value that clauses
//!   speak of has none: that it counts right is tested (`metrics.py` of `tests/`). `disk`, `journal_used` and
//!   `journal_sectors` show parts of the store.
//! - `Store::commit` makes what waits last (`matches`; `commits`, by `IsCommitted` of `specs/View.antt`, whose fields
//!   are named in what follows: `confirmed`). If the batch fits into the journal, it makes one write for each sector of
//!   the batch and one sync, and with a header one more of each (`counts`), and the machine stays as it is, also in
//!   what counts as changed (`keeps`); if not, it saves the state, and the epoch rises by one, the journal is empty and
//!   nothing counts as changed (`turned`). On an honest disk such a save writes the sectors of the first four objects
//!   and of those that count as changed, the sectors of the table, and one, with two syncs (`writes`). With nothing
//!   waiting nothing changes (`nothing`). Afterwards no record waits (`records`); after an error the same number of
//!   events waits (`still_waits`). At every moment of the call, also of one that fails, each image stands for the state
//!   before or after the events that wait (`any_moment`, `left`). After an error the store is stopped (`stops`), and a
//!   stopped store changes nothing more (`kept`). It is `Stopped` if it was, or if it would have to save at the last
//!   epoch, exactly then (`stopped`), and then the disk is as it was (`unwritten`). `Device` comes only if the disk
//!   counted a failure, and the other answers only if it did not (`faults`); it uses one number at most, an epoch
//!   (`spends`).
//! - `Store::save` promises the same by a save in every case, also if nothing waits: after Ok the epoch is the next
//!   one, the journal is empty and nothing counts as changed (`turned`), and it writes as much (`writes`). Neither
//!   takes memory: neither can answer `NoMemory`.
//! - `step`, `commit` and `save` have one clause that says what they do to the history of the store over crashes
//!   (`takes`; `Takes` of `specs/Histories.antt`), and `open` one that says how a history begins (`ok`; `OpensOn`).
//! - Laws over these clauses, so that whoever meets them meets the laws. They speak of lives, of which the disk that is
//!   left may have images that stand for different states (`specs/Lives.antt`): a call that is stopped leaves what was
//!   acknowledged, and some of the other events, from the first on (`a_stop_leaves_what_was_acknowledged`); after any
//!   number of opens that are stopped an open finds just that, and the store has it as its history, and a restart
//!   (`an_open_finds_what_was_acknowledged`); opens that are stopped leave that as it is; and on a disk that stands for
//!   the state after some events, from any base on, an open gives a store with these as its history
//!   (`an_open_finds_what_stands_there`). Between opens that are stopped the disk may grow, or begin to
//!   (`StoppedOpens`). A device of version 1 that stands for a state stays one, or becomes one of version 2 that stands
//!   for it after a restart, over any number of upgrades that are stopped, and of growths; after one that is Ok the law
//!   over lives begins with that state (`an_upgrade_keeps_the_state`). So it is of a device of version 2 and upgrades
//!   to version 3, but that it may also stand in version 2 for the state after a restart
//!   (`an_upgrade_to_version_three_keeps_the_state`).
//! - `look` gives the machine that a disk stands for, without a restart (`ok`). A disk that stands for a state is
//!   refused for a failed read or for want of memory alone (`refusals`), and what it is refused for is as of an open
//!   (`refused`). It makes no write and no sync, and what is read stays (`alone`, `specs/Look.antt`). That is said of a
//!   disk that nobody else writes meanwhile.
//! - Of a disk that a store writes there is a law over the clause `meanwhile` of `open`, `commit` and `save`, which all
//!   calls that the history of a store has keep too (`Moves` `later`): whoever reads the disk in such a call finds
//!   images that go on from those of before, with the same superblock and root, the same sectors of objects and table,
//!   and the batches that there were, or more after them; or else the root is of a later epoch. And the sectors of a
//!   batch stand before a header counts it, or, with tagged sectors, each image has a part of them and no others
//!   (`StaysReadable` of `specs/Meanwhile.antt`). The law is of sectors that were read one after another, each as some
//!   image has it that goes on from the first one under the same root. With a header that was read before the body of
//!   the journal, they stand for the state for which the device stood when that header was read. With tagged sectors,
//!   if each of those images is a part of what comes, they stand for the state after some of the batches that come
//!   meanwhile, from the first on, and so for no earlier state than that of the first image (`a_look_is_of_one_image`
//!   `headed`, `tagged`). An open clears sectors that a torn batch has left, so the law says nothing of a tagged
//!   journal that is read before and after an open. Each image of a call goes on from what was read before it, if all
//!   of that was synced, and what goes on over some calls, and then over others, has gone on over all of them
//!   (`a_store_goes_on`). No clause says that a look reads in this order, nor that between two equal roots there was no
//!   other, since epochs only rise: the code of `look` does the one, and both are tested (docs/PROMISES.md). Of a
//!   format or an upgrade meanwhile the law does not speak.
//! - An image stands for one state under one set of limits, and no two (`an_image_stands_for_one_state`); a batch is of
//!   one list of events (`a_batch_is_of_one_list`).
//! - `engine`, `confirmed`, `has_room`, `has_room_for`, `events_left` and `close` show the value, each by its one
//!   clause.
#![tactic(auto)]

mod anew;
mod batch;
mod copying;
mod exceeding;
mod fault;
mod format;
mod larger;
mod laws;
mod loading;
mod looking;
mod opening;
mod places;
mod replay;
mod store;
mod tally;
mod upgrade;

pub use batch::{EXIT_RECORD, TICK_RECORD};
pub use fault::{CommitError, FormatError, OpenError, StepError, UpgradeError};
pub use laws::{
    a_batch_is_of_one_list, a_look_is_of_one_image, a_stop_leaves_what_was_acknowledged,
    a_store_goes_on, an_image_stands_for_one_state, an_open_finds_what_stands_there,
    an_open_finds_what_was_acknowledged, an_upgrade_keeps_the_state,
    an_upgrade_to_version_three_keeps_the_state,
};
pub use looking::look;
pub use opening::Unopened;
pub use store::Store;
pub use tally::Tally;
pub use upgrade::Unupgraded;
