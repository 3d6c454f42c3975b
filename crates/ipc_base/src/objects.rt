//! Numbered objects as bytes: what a checkpoint saves, and what it gives back.

ghost use Rattle.std.specs.Prelude.{◌≡◌, ◌<◌, ◌+◌, ◌^◌, ◌↔◌, IsTrue, ◌++◌, ◌∷◌, [], ℕ, Bool, true, ⊤};
ghost use Rattle.std.specs.Prelude.{length, map, slice_get};
ghost use Rattle.std.specs.Prelude.{Some, option_map, OnOk, OnErr, ◌≤◌, ◌-◌, take, drop, replicate};
ghost use Rattle.ipc_base.specs.declared.objects.Mark.{Mark};
ghost use Rattle.ipc_base.specs.Objects.{PlainObjects, AreObjects, window};
ghost use Rattle.ipc_base.specs.Table.{keys_of, IsRising};

use std::alloc::{AllocError, Global};
use std::marker::Model;

/// How far an object was read: its first parts, and how many bytes they have. What its parts are is known to the
/// objects alone.
#[derive(Clone, Copy, Debug, PartialEq, Eq)]
pub struct Mark {
    pub parts: usize,
    pub bytes: u64,
}

/// Objects by rising number, each some bytes. They are read piece by piece, so that whoever has them need not have
/// their bytes in one place.
pub trait Objects {
    /// The numbers, and the bytes of each.
    ghost objects: { Self → PlainObjects };

    /// Whether the i-th may differ from what was saved last.
    ghost differs: { Self → ℕ → Bool };

    /// Whether a mark is one of the i-th.
    ghost marks: { Self → ℕ → Mark → Type 0 };

    /// How many there are. Their numbers rise, and none of them is empty.
    fn count(&self) -> u32
        ensures count { result ≡ length (objects self.now) }
        ensures objects { AreObjects (objects self.now) };

    /// The number of the i-th.
    fn number(&self, i: u32) -> u64
        requires { i < length (objects self.now) }
        ensures { option_map (λ o. o.0) (slice_get (objects self.now) i) ≡ Some result };

    /// Whether the i-th may differ from what was saved last.
    fn changed(&self, i: u32) -> bool
        requires { i < length (objects self.now) }
        ensures { result ≡ differs self.now i };

    /// How many bytes the i-th has, at least one.
    fn len(&self, i: u32) -> u64
        requires { i < length (objects self.now) }
        ensures { option_map (λ o. length o.1) (slice_get (objects self.now) i) ≡ Some result };

    /// The mark of the i-th of which nothing was read.
    fn start(&self, i: u32) -> Mark
        requires { i < length (objects self.now) }
        ensures { marks self.now i result };

    /// 512 bytes of the i-th from a place on, with zeros past its end. With the mark of an earlier place they are found
    /// without going over what lies before it. The mark goes on to this place.
    fn bytes(&self, i: u32, place: u64, mark: &mut Mark, into: &mut [u8; 512])
        requires object { i < length (objects self.now) }
        requires mark { marks self.now i mark.old }
        ensures bytes { option_map (λ o. window place o.1) (slice_get (objects self.now) i) ≡ Some into.new }
        ensures mark { marks self.now i mark.new };
}

/// An object that was read: its number, and its bytes.
#[derive(Drop)]
struct Object {
    number: u64,
    bytes: Vec<u8>,
}

/// Objects in memory, as they were read. A contract sees them as `PlainObjects`.
#[derive(Drop)]
pub struct ObjectMap {
    alloc: Global,
    objects: Vec<Object>,
}

impl Model for ObjectMap {
    ghost use Rattle.std.specs.Prelude.{map};
    ghost use Rattle.ipc_base.specs.Objects.{PlainObjects, AreObjects};
    ghost use Rattle.ipc_base.specs.ObjectRows.{object_row};

    ghost Value = { PlainObjects };

    ghost view = { λ m. map object_row m.objects.items };

    ghost invariant = { λ m. AreObjects (map object_row m.objects.items) };
}

impl ObjectMap {
    /// No objects. It takes no memory.
    pub fn new(alloc: Global) -> ObjectMap
        ensures { result ≡ [] }
    {
        ObjectMap {
            alloc,
            objects: Vec::new(alloc),
        }
    }

    /// Whether a number is above those of all objects that are there.
    pub fn is_next(&self, number: u64) -> bool
        ensures { IsTrue result ↔ IsRising 0 (keys_of self.now) number }
    {
        match self.objects.last() {
            Some(object) => object.number < number,
            None => true,
        }
    }

    /// Adds an object after the others. Refused for want of memory, nothing has changed.
    pub fn push(&mut self, number: u64, bytes: &[u8]) -> Result<(), AllocError>
        requires next { IsRising 0 (keys_of self.old) number }
        requires some { 0 < length bytes.now }
        requires count { length self.old + 1 < 2 ^ 32 }
        ensures ok { OnOk result (self.new ≡ self.old ++ (number, bytes.now) ∷ []) }
        ensures err { OnErr result (self.new ≡ self.old) }
    {
        let mut own = Vec::with_capacity(self.alloc, bytes.len())?;
        own.extend_from_slice(bytes)?;
        self.objects.push(Object { number, bytes: own })?;
        Ok(())
    }

    /// The bytes of the i-th.
    pub fn object(&self, i: u32) -> &[u8]
        requires { i < length self.now }
        ensures { option_map (λ o. o.1) (slice_get self.now i) ≡ Some result.now }
    {
        &self.objects[i as usize].bytes
    }
}

/// Each of them counts as changed.
impl Objects for ObjectMap {
    ghost objects = { λ m. m };

    ghost differs = { λ m i. true };

    ghost marks = { λ m i mark. ⊤ };

    fn count(&self) -> u32 {
        self.objects.len() as u32
    }

    fn number(&self, i: u32) -> u64 {
        self.objects[i as usize].number
    }

    fn changed(&self, i: u32) -> bool {
        true
    }

    fn len(&self, i: u32) -> u64 {
        self.objects[i as usize].bytes.len() as u64
    }

    fn start(&self, i: u32) -> Mark {
        Mark { parts: 0, bytes: 0 }
    }

    fn bytes(&self, i: u32, place: u64, mark: &mut Mark, into: &mut [u8; 512]) {
        *into = window_of(&self.objects[i as usize].bytes, place);
    }
}

/// 512 of these bytes from a place on, with zeros past their end.
pub fn window_of(bytes: &[u8], place: u64) -> [u8; 512]
    ensures { result ≡ window place bytes.now }
{
    padded(piece_from(bytes, place))
}

// The bytes from a place on, at most 512 of them.
fn piece_from(bytes: &[u8], place: u64) -> &[u8]
    ensures piece { result.now ≡ take 512 (drop place bytes.now) }
    ensures short { length result.now ≤ 512 }
{
    if place >= bytes.len() as u64 {
        return &bytes[bytes.len()..];
    }
    let rest = &bytes[place as usize..];
    if rest.len() < 512 { rest } else { &rest[..512] }
}

// These bytes, filled up with zeros.
fn padded(bytes: &[u8]) -> [u8; 512]
    requires { length bytes.now ≤ 512 }
    ensures { result ≡ bytes.now ++ replicate (512 - length bytes.now) 0 }
{
    let mut sector = [0; 512];
    sector[..bytes.len()].copy_from_slice(bytes);
    sector
}
