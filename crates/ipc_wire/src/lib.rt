//! The frames of the protocol: requests read from the front of a stream of bytes, and replies written as bytes.
//!
//! Where a rule stands (definition, code, proof):
//!
//! - A row of the table of requests: 'A call more' in docs/CHANGING.md has its files; its name: `src/names.rt`
//! - What may follow the fields of a request: `Rest` in `specs/Fields.antt`; its units `specs/Values.antt`,
//!   `specs/SemBufs.antt`
//! - How a stream is cut into frames: `specs/Stream.antt`, `src/reading.rt`
//! - A longer frame: `greatest_length` in `specs/Sizes.antt`, `GREATEST_LENGTH` in `src/reading.rt`
//! - A body of a reply that is numbers or bytes: `push_fields` in `src/record.rt`; the call fills it
//! - A body of a new form: `specs/Reply.antt`, `src/reply.rt`, `src/writing.rt`,
//!   `proofs/writing/put_field/Answers.antt`
//!
//! What the clauses say:
//!
//! - `read_frame` is the first frame of the stream by the definition `first` (`exact`). If no frame is whole yet, fewer
//!   bytes are there than the longest frame has (`waiting`). A request that is read has a frame (`has_frame`), as every
//!   `Request` has by its type: a serial that is not 0, and fields that are not too long. By its type, too, a `Request`
//!   keeps the bytes that it came in, those of its frame after the length, which are its one spelling
//!   (`Request::bytes`).
//! - The definition has a table with a row for each request (`specs/Table.antt`): its fields, what the rest of the
//!   frame after them is (nothing, bytes, or whole units of so many bytes), and the request that these make. Reading,
//!   spelling and size follow from the row.
//! - `bytes_missing` says of a frame that is not whole how many bytes are missing at least (`exact`): at least one
//!   (`some`), and no more than a whole frame can have (`bounded`). The hub takes no more bytes at once.
//! - If the buffer is long enough and the reply is not too long for its length field, `write_reply` answers `true`
//!   (`fits`) and has written exactly the reply's bytes (`written`). If not, it answers `false` and has changed nothing
//!   (`unchanged`). `reply_len` is the number of these bytes.
//! - Of what a request asks, `request_parts` gives the opcode, the fields and the rest apart (`opcode`, `fields`), each
//!   number in the range of its field and the rest in whole units (`numbers`, `rest`), and `request_len` is the number
//!   of the bytes of its frame after the length: so a call that waits is written without a buffer for all of it.
//!   `read_request` answers a request only if the bytes are its frame without the length (`some`), and answers it
//!   whenever they are (`only`).
//! - `Request::opcode` is the byte of the frame that says what it asks, and `request_name` has a name just for those
//!   bytes that the table has.
//! - `push_fields` adds the bytes of some fields to the body of a reply (`bytes`), in a buffer that has room for them,
//!   and leaves at least that room (`room`): so it takes no memory. `Body::borrowed` is the same body.
//! - Laws:
//!   - A request or a fault at the front of some bytes is at the front of the whole stream, whatever bytes follow
//!     (`found_frame_stays`).
//!   - A frame becomes whole exactly with its last byte (`frame_is_bounded` `last`).
//!   - Reading a stream in two pieces gives the same requests, rest and fault as reading it at once
//!     (`stream_in_pieces`).
//!   - The bytes of a request are read as that request, whatever bytes follow (`spelled_request_is_read`), and no other
//!     bytes are (`read_request_is_spelled`).
#![tactic(auto)]

mod fields;
mod laws;
mod names;
mod posix;
mod reading;
mod record;
mod reply;
mod request;
mod sem_bufs;
mod shm_fields;
mod spelling;
mod values;
mod writing;

pub use laws::{
    found_frame_stays, frame_is_bounded, read_request_is_spelled, spelled_request_is_read,
    stream_begins, stream_in_pieces,
};
pub use names::request_name;
pub use posix::PosixCall;
pub use reading::{
    GREATEST_FRAME, GREATEST_LENGTH, LEAST_LENGTH, bytes_missing, read_frame, read_request,
};
pub use record::{Record, push_fields};
pub use reply::{Body, Reply};
pub use request::{Frame, Request, RequestKind, SysvCall};
pub use sem_bufs::{SemBuf, SemBufs};
pub use spelling::{RequestParts, request_len, request_parts};
pub use values::Values;
pub use writing::{reply_len, write_reply};
