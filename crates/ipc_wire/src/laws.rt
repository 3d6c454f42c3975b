//! Laws of the frames, for crates that read or write streams of them: functions that do nothing, and whose
//! contracts are the laws.

ghost use Rattle.std.specs.Prelude.{◌≡◌, ◌<◌, ◌≤◌, ◌+◌, ℕ, List, ◌++◌, length, take, drop, All};
ghost use Rattle.ipc_wire.specs.Request.{PlainRequest};
ghost use Rattle.ipc_wire.specs.Stream.{first, missing, TakesBytes, stream_of, begins_with, continued};
ghost use Rattle.ipc_wire.specs.Stream.PlainFrame.{More, Whole, Fault};
ghost use Rattle.ipc_wire.specs.Sizes.{greatest_frame};
ghost use Rattle.ipc_wire.specs.Spelling.{frame, HasFrame};

/// A request or fault that stands at the front of a beginning of a stream stands at the front of the stream.
pub fn found_frame_stays()
    ensures whole { (bytes more : List ℕ) (used : ℕ) (request : PlainRequest) →
        first bytes ≡ Whole used request → first (bytes ++ more) ≡ Whole used request }
    ensures fault { (bytes more : List ℕ) (serial : ℕ) →
        first bytes ≡ Fault serial → first (bytes ++ more) ≡ Fault serial }
{}

/// How many bytes are looked at: a request takes from nine of them to all; a frame that is not whole has fewer
/// than the longest one, misses a byte at least, and becomes whole exactly with its last byte.
pub fn frame_is_bounded()
    ensures whole { (bytes : List ℕ) → TakesBytes (first bytes) (length bytes) }
    ensures waiting { (bytes : List ℕ) → first bytes ≡ More → length bytes < greatest_frame }
    ensures missing { (bytes : List ℕ) → first bytes ≡ More
        → (0 < missing bytes) × (length bytes + missing bytes ≤ greatest_frame) }
    ensures last { (bytes more : List ℕ) (used : ℕ) (request : PlainRequest)
        → first bytes ≡ More → length more ≤ missing bytes
        → first (bytes ++ more) ≡ Whole used request → used ≡ length (bytes ++ more) }
{}

/// A stream is its first frame and the stream after it.
pub fn stream_begins()
    ensures { (bytes : List ℕ) →
        stream_of bytes ≡ begins_with (first bytes) bytes (λ used. stream_of (drop used bytes)) }
{}

/// A stream that comes in two pieces has the requests of the first piece, and then those of its rest with the
/// second piece after it.
pub fn stream_in_pieces()
    ensures { (bytes more : List ℕ) →
        stream_of (bytes ++ more) ≡ continued (stream_of bytes).requests (stream_of bytes).ending more }
{}

/// The frame of a request is read as that request, whatever stands after it.
pub fn spelled_request_is_read()
    ensures { (request : PlainRequest) (rest : List ℕ) → HasFrame request →
        first (frame request ++ rest) ≡ Whole (length (frame request)) request }
{}

/// What is read as a request is its frame: no other bytes are.
pub fn read_request_is_spelled()
    ensures bytes { (bytes : List ℕ) (used : ℕ) (request : PlainRequest) → All (λ byte. byte < 256) bytes →
        first bytes ≡ Whole used request → take used bytes ≡ frame request }
    ensures has_frame { (bytes : List ℕ) (used : ℕ) (request : PlainRequest) → All (λ byte. byte < 256) bytes →
        first bytes ≡ Whole used request → HasFrame request }
{}
