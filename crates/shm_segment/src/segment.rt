//! A shared memory segment.

ghost use Rattle.std.specs.Prelude.{◌≡◌, ◌↔◌, true, length as count, IsTrue, IfOk};
ghost use Rattle.shm_segment.specs.Segment.{Segment as Plain, empty_segment, truncated, is_within, part, written};

use std::alloc::{AllocError, Global};
use std::marker::Model;

/// A shared memory segment (shm_overview(7)): its bytes. A contract sees it as a list of bytes. A read or a write takes
/// no longer with more bytes around its range.
#[derive(Drop)]
pub struct Segment {
    bytes: Vec<u8>,
}

impl Model for Segment {
    ghost Value = { Plain };

    ghost view = { λ s. record { bytes = s.bytes.items } };
}

impl Segment {
    /// A segment without bytes. It takes no memory.
    pub fn new(alloc: Global) -> Segment
        ensures { result ≡ empty_segment }
    {
        Segment {
            bytes: Vec::new(alloc),
        }
    }

    /// A segment of so many bytes, each 0. Refused for want of memory.
    pub fn zeroed(alloc: Global, length: usize) -> Result<Segment, AllocError>
        ensures { IfOk result (λ s. s ≡ truncated length empty_segment) }
    {
        let mut bytes = Vec::new(alloc);
        bytes.resize(length, 0)?;
        Ok(Segment { bytes })
    }

    /// A segment of these bytes. Refused for want of memory.
    pub fn of_bytes(alloc: Global, bytes: &[u8]) -> Result<Segment, AllocError>
        ensures { IfOk result (λ s. s.bytes ≡ bytes.now) }
    {
        let bytes = bytes.to_vec(alloc)?;
        Ok(Segment { bytes })
    }

    /// Makes it as long as a segment of zeros, as ftruncate(2) does: bytes past that length are cut off, or zeros are
    /// put at the end. It takes the memory of those zeros, and gives its own back.
    pub fn truncate(&mut self, zeros: Segment)
        requires { zeros ≡ truncated (count zeros.bytes) empty_segment }
        ensures { self.new ≡ truncated (count zeros.bytes) self.old }
    {
        let mut left = zeros;
        let kept = left.bytes.len().min(self.bytes.len());
        left.write(0, &self.bytes[..kept]);
        *self = left;
    }

    /// Whether a range is within it: `length` bytes from the offset on. Any two numbers will do; their
    /// sum does not wrap. A range of no bytes may be at the end.
    pub fn is_within(&self, offset: u64, length: u64) -> bool
        ensures { result ≡ is_within offset length self.now }
    {
        let all = self.bytes.len() as u64;
        offset <= all && length <= all - offset
    }

    /// The bytes of a range, which is within it.
    pub fn read(&self, offset: usize, length: usize) -> &[u8]
        requires { is_within offset length self.now ≡ true }
        ensures { result.now ≡ part offset length self.now }
    {
        &self.bytes[offset..offset + length]
    }

    /// Writes bytes in the place of as many from the offset on; their range is within it. All others stay.
    pub fn write(&mut self, offset: usize, bytes: &[u8])
        requires { is_within offset (count bytes.now) self.old ≡ true }
        ensures { self.new ≡ written offset bytes.now self.old }
    {
        self.bytes[offset..offset + bytes.len()].copy_from_slice(bytes);
    }

    /// Its bytes.
    pub fn bytes(&self) -> &[u8]
        ensures { result.now ≡ self.now.bytes }
    {
        &self.bytes
    }

    /// How many bytes it has.
    pub fn len(&self) -> usize
        ensures { result ≡ count self.now.bytes }
    {
        self.bytes.len()
    }

    /// Whether it has no bytes.
    pub fn is_empty(&self) -> bool
        ensures { IsTrue result ↔ (count self.now.bytes ≡ 0) }
    {
        self.bytes.is_empty()
    }
}
