//! Operations of semop(2), where they lie side by side in a frame.

ghost use Rattle.std.specs.Prelude.{◌≡◌, ◌%◌, length};

/// An operation on a semaphore, as `struct sembuf` of semop(2) has it: the number of the semaphore in its set, what is
/// added, and the flags.
#[derive(Clone, Copy, Debug, PartialEq, Eq)]
pub struct SemBuf {
    pub num: u16,
    pub op: i16,
    pub flags: u16,
}

/// A count of bytes in whole sixes: operations side by side, each number with its most significant byte first.
#[derive(Clone, Copy)]
pub struct SemBufs<'a> {
    bytes: &'a [u8],
    ghost whole: { length bytes.now % 6 ≡ 0 },
}

impl<'a> SemBufs<'a> {
    ghost use Rattle.std.specs.Prelude.{◌==◌, ◌<◌, if◌then◌else◌, option_map, slice_get, Some, None};
    ghost use Rattle.ipc_wire.specs.SemBufs.{bytes_of, operations_in};

    /// The operations that these bytes spell, or `None` if they are no whole sixes.
    pub fn new(bytes: &'a [u8]) -> Option<SemBufs<'a>>
        ensures { option_map bytes_of result ≡ if length bytes.now % 6 == 0 then Some bytes.now else None }
    {
        if bytes.len() % 6 != 0 {
            return None;
        }
        Some(SemBufs { bytes })
    }

    /// The bytes, in whole sixes.
    pub fn bytes(&self) -> &'a [u8]
        ensures bytes { result.now ≡ bytes_of self.now }
        ensures whole { length (bytes_of self.now) % 6 ≡ 0 }
    {
        self.bytes
    }

    /// How many operations there are.
    #[tactic(auto, using(crate::proofs::SixNumbers::operations_count))]
    pub fn len(&self) -> usize
        ensures { result ≡ length (operations_in (bytes_of self.now)) }
    {
        self.bytes.len() / 6
    }

    /// The operation at this place; the first is at 0.
    #[tactic(auto, using(crate::proofs::SixNumbers::operations_count))]
    pub fn at(&self, place: usize) -> SemBuf
        requires { place < length (operations_in (bytes_of self.now)) }
        ensures { slice_get (operations_in (bytes_of self.now)) place ≡ Some result }
    {
        let start = 6 * place;
        SemBuf {
            num: u16::from_be_bytes([self.bytes[start], self.bytes[start + 1]]),
            op: i16::from_be_bytes([self.bytes[start + 2], self.bytes[start + 3]]),
            flags: u16::from_be_bytes([self.bytes[start + 4], self.bytes[start + 5]]),
        }
    }
}
