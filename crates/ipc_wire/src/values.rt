//! Numbers of two bytes, where they lie side by side in a frame.

ghost use Rattle.std.specs.Prelude.{◌≡◌, ◌%◌, length};

/// An even count of bytes: numbers of two bytes side by side, each with its most significant byte first.
#[derive(Clone, Copy)]
pub struct Values<'a> {
    bytes: &'a [u8],
    ghost even: { length bytes.now % 2 ≡ 0 },
}

impl<'a> Values<'a> {
    ghost use Rattle.std.specs.Prelude.{◌==◌, ◌<◌, if◌then◌else◌, option_map, slice_get, Some, None};
    ghost use Rattle.ipc_wire.specs.Values.{bytes_of, numbers_in};

    /// The numbers that these bytes spell, or `None` if the count of the bytes is odd.
    pub fn new(bytes: &'a [u8]) -> Option<Values<'a>>
        ensures { option_map bytes_of result ≡ if length bytes.now % 2 == 0 then Some bytes.now else None }
    {
        if bytes.len() % 2 != 0 {
            return None;
        }
        Some(Values { bytes })
    }

    /// The bytes, an even count.
    pub fn bytes(&self) -> &'a [u8]
        ensures bytes { result.now ≡ bytes_of self.now }
        ensures even { length (bytes_of self.now) % 2 ≡ 0 }
    {
        self.bytes
    }

    /// How many numbers there are.
    #[tactic(auto, using(crate::proofs::PairNumbers::numbers_count))]
    pub fn len(&self) -> usize
        ensures { result ≡ length (numbers_in (bytes_of self.now)) }
    {
        self.bytes.len() / 2
    }

    /// The number at this place; the first is at 0.
    #[tactic(auto, using(crate::proofs::PairNumbers::numbers_count))]
    pub fn at(&self, place: usize) -> u16
        requires { place < length (numbers_in (bytes_of self.now)) }
        ensures { slice_get (numbers_in (bytes_of self.now)) place ≡ Some result }
    {
        let start = 2 * place;
        u16::from_be_bytes([self.bytes[start], self.bytes[start + 1]])
    }
}
