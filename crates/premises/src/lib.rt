//! The premises of the laws, met at concrete types: a disk that forgets nothing is a disk, and lives of a server on
//! disks in memory are lives.
//!
//! What the clauses say:
//!
//! `one_life` of `premises` goes this way once, on a disk in memory: it formats, opens, makes two calls, closes and
//! opens again, and its clause is the law's conclusion, of some life. `one_life_with_a_crash` goes it with more in it,
//! on a disk that keeps what it had before each of its writes and syncs, and of whose unsynced sectors a crash may
//! leave any choice (`RememberingDisk`, of which the images since a moment are those and no other). A client says
//! HELLO, sees what it is answered, and sends more bytes; in the release of these the disk fails, at the call that its
//! caller chooses, or the release ends; and the machine stops there, with the unsynced sectors that its caller chooses.
//! Its clause is the law's conclusion of a life that saw these bytes (`Saw`, `specs/Visits.antt`). Tried once with a
//! HELLO, a msgget and a msgsnd: at each call of that release and with none, all, the even or the odd ones of its
//! sectors, the store that is opened has the queue or has it not, and the client had seen its process.
#![tactic(auto)]

pub mod lives;
pub mod remembering;
