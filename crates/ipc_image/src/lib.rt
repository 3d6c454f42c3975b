//! What the server keeps on a device: how large it must be, its superblock, the records of events, and the state as
//! objects.
//!
//! Words for the state as objects:
//!
//! | word | what it is |
//! |---|---|
//! | `OwnObject` | one object of the state that has an object of the device for itself, of any kind |
//! | `Stored` | the trait of those: their bytes in a window, how they are read back, which numbers their objects have |
//! | `Entry` | one with a key or a name, beside who may use it; of `ipc_state` |
//! | `Kind` | the trait of what an `Entry` with a key holds: its own numbers and its parts |
//! | `Saved` | the trait of what shares an object of the device with others like it, as processes do |
//! | `Shape` | the form of a `Saved` one: the sizes of its numbers, and how many bytes come after these |
//! | `Tree` | a value of a `Shape`: the numbers, and the bytes after them |
//! | `Wide` | the trait of what is read before a save, so that each of its numbers is known to have its place |
//!
//! Where a rule stands (definition, code, proof):
//!
//! - The superblock, and the places on a device: `specs/Superblock.antt`, `src/superblock.rt`, `src/places.rt`;
//!   docs/DEVICE.md
//! - What a version fixes, and the form of a device: `specs/Format.antt`, `src/format.rt`
//! - How many sectors a device needs: `specs/Sizes.antt`, `src/sizes.rt`, `proofs/Bounds.antt`; docs/DEVICE.md
//! - The record of an event: `specs/Records.antt`, `src/records.rt`, `proofs/EventRecords.antt`
//! - The bytes of a saved object: `specs/Saved.antt`, `specs/Shape.antt`, and its file in `src/` (`src/clock.rt`,
//!   `src/process.rt`, `src/waiting.rt`, ..); docs/DEVICE.md
//! - Lists, objects with a key, objects of a kind: `src/saved.rt`, `src/entry.rt`, `src/kind.rt`, `src/stored.rt`
//! - A message queue's object with marks: `src/marked_queue.rt`
//! - Which object is which, and in what order a state is rebuilt: `src/state_objects.rt`, `src/restoring.rt`
//! - Which objects count as changed, by number: `specs/Changed.antt`, `src/engine_objects.rt`
//!
//! What the clauses say:
//!
//! - What a device says is read by its form (`Format`): version 1, version 2, or version 3 with a journal of 8 to 65535
//!   sectors, and no other (`specs/Format.antt`). Devices of versions 2 and 3 are opened (`opened`). `Format::three` is
//!   the form of version 3 with a given journal, `Format::of` that of a device whose server has given limits, and
//!   `Format::named` the one by which a sector is read when its device is opened (`is`, `known`).
//! - `area` and `need` are the numbers of sectors of the definitions (`specs/Sizes.antt`) for a device of a given
//!   form, under limits that it may have (`AreOf`; `exact`): at most 8000000 and 16065538 (`bounded`). No sum or
//!   product on the way overflows. `checked_need` is `need` (`exact`) if the greatest values of the version accept the
//!   limits (`within`) and their area is not above 8000000 sectors; limits with the version and the journal of the form
//!   are then its limits (`of`). Else it names the first test that fails, the area as field 22 (`first`, `none`).
//! - `write_superblock` makes the sector exactly the bytes of the definition (`specs/Superblock.antt`), zeros
//!   included.
//! - `read_superblock` answers a number of sectors and limits only if the sector is the superblock of a device of the
//!   given form, with these (`ok`), of no more sectors than the disk has (`room`), and answers them whenever it is
//!   (`only`); the limits passed their check (`passed`) by the greatest values of the version, have the version and the
//!   journal of the form, and one of which the version has no number is 1 (`of`). Each fault is answered if, and only
//!   if, it is the first: `NotFormatted` if the sector does not begin as a superblock (`not_formatted`), `Version` with
//!   the version that it names, if that is not the form's or the sector names features (`version`), `Damaged` if it is
//!   of the version and the superblock of no device of this form for which the disk has room, with any limits
//!   (`damaged`).
//! - `write_event` writes exactly the record of the event (`specs/Records.antt`) to the front of the buffer
//!   (`written`), if it has room and the request is not too long for a length field (`fits`); if not, it answers
//!   `false` and has changed nothing (`unchanged`). `record_len` is the number of these bytes (`exact`), at most 65809
//!   (`bounded`). Each event has a record (`has`): its numbers fit, and its request has a frame.
//! - `read_event` answers an event and a number of bytes only if the bytes begin with that event's record, which has
//!   that many (`some`), and answers them whenever they do, whatever follows (`only`). It takes no memory.
//! - Laws:
//!   - what was written is read back (`superblock_is_read`).
//!   - in each form a sector is the superblock of one device with one set of limits, and no two
//!     (`a_sector_is_one_superblock`); it is one in one form alone (`one`), and if that is opened, it is the one that
//!     the sector names (`named` of `a_sector_is_of_one_form`).
//!   - A record that was written is read, whatever follows it (`record_is_read`); bytes begin with the record of one
//!     event at most, so no record is the beginning of another (`a_record_is_of_one_event`).
//! - `objects_of` are the objects of a machine's state on a device of a form that is opened, `saved_in` of
//!   `specs/Saved.antt` (`objects`). The first four may differ from what was saved, and each other one if the machine
//!   counts it as changed (`differs`, by `differs_in` of `specs/Changed.antt`). They stand for that state (`stand`),
//!   and fit into an area with their table if the version may have the machine's limits (`fit`). `start_objects` are
//!   those of the first state. Both take no memory.
//! - `engine_of` gives the machine whose state some objects of a device of the given form stand for (`stands`), under
//!   these limits (`limits`), without replies (`outcomes`). It is `Unsound` only if they stand for no sound state
//!   (`damaged`): also if one of them is of a kind that the version has not, or a queue has given a token. Law: a
//!   sound state fits, as objects, into an area under its limits (`a_saved_state_fits`), whose bytes can be counted in
//!   four (`an_area_can_be_counted`); in each form objects stand for one state, and no two
//!   (`objects_stand_for_one_state`).
//! - `first_below` is the first limit that is below another one, in the order of the limits, and none if each is at
//!   least as great (`specs/Greater.antt`).
#![tactic(auto)]

mod adjustment_list;
mod adjustments;
mod clock;
mod engine_objects;
mod entry;
mod fault;
mod fields;
mod format;
mod greater;
mod kind;
mod laws;
mod marked_queue;
mod mq;
mod msg_queue;
mod perm;
mod places;
mod process;
mod psem;
mod pshm;
mod records;
mod restoring;
mod saved;
mod semset;
mod shm;
mod sizes;
mod state_objects;
mod stored;
mod superblock;
mod waiting;
mod widths;
mod window;

pub use engine_objects::{EngineObjects, objects_of};
pub use fault::SuperblockFault;
pub use format::{FORMAT, FORMAT_ONE, Format, LONGEST_RECORD};
pub use greater::first_below;
pub use laws::{
    a_record_is_of_one_event, a_saved_state_fits, a_sector_is_of_one_form,
    a_sector_is_one_superblock, an_area_can_be_counted, objects_stand_for_one_state,
    record_is_read, superblock_is_read,
};
pub use places::{JOURNAL, SUPERBLOCK};
pub use records::{read_event, record_len, write_event};
pub use restoring::engine_of;
pub use sizes::{MOST_AREA, area, checked_need, need};
pub use state_objects::{StateObjects, start_objects};
pub use superblock::{Superblock, read_superblock, write_superblock};
