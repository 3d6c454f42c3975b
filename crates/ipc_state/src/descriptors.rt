//! The descriptors of one process.

ghost use Rattle.std.specs.Prelude.{◌≡◌, ◌≢◌, ◌<◌, ◌≤◌, ◌==◌, ◌^◌, ◌+◌, ◌++◌, ◌∷◌, ◌↔◌, ℕ, [], None, true};
ghost use Rattle.std.specs.Prelude.{length, map, nat_eq, position, IfOk, OnOk, OnErr, IsTrue, IsSome};
ghost use Rattle.ipc_base.specs.Table.{keys_of, value_at, without, IsRising};
ghost use Rattle.ipc_state.specs.Descriptors.{Table, lowest_unused, opened, with_flags};
ghost use Rattle.ipc_state.specs.Descriptors.{most_descriptors, descriptor_row};

use crate::numbered::{HasNumber, rise};
use crate::parked::Object;
use std::alloc::{AllocError, Global};
use std::cell::Cell;
use std::marker::Model;

/// What a descriptor is open on, and the flags that still mean something after the open.
#[derive(Clone, Copy, Debug, PartialEq, Eq)]
pub struct Descriptor {
    pub on: Object,
    pub flags: u32,
}

/// A descriptor with its number.
#[derive(Clone, Copy, Debug, PartialEq, Eq)]
pub struct DescriptorRow {
    pub fd: u32,
    pub descriptor: Descriptor,
}

impl HasNumber for DescriptorRow {
    ghost number_of = { λ r. r.fd };

    fn number(&self) -> u32 {
        self.fd
    }
}

/// For so many descriptors a process has room: under any limits it has no more.
const MOST_DESCRIPTORS: usize = 32;

/// The descriptors of one process, by rising number. A contract sees a table. There is room for as many as there may
/// be, from `new` on, which alone may be refused.
#[derive(Drop)]
pub struct Descriptors {
    rows: Vec<DescriptorRow>,
    /// Not set unless the numbers rise: those that were read may stand in any order until they are tested.
    rise: bool,
    /// Where one was found last. There one is looked for first, so that a call finds its descriptor once.
    hint: Cell<usize>,
}

impl Model for Descriptors {
    ghost use Rattle.std.specs.Prelude.{◌≡◌, ◌≤◌, ◌^◌, true, map, vec_capacity};
    ghost use Rattle.ipc_base.specs.Table.{keys_of, IsRising};
    ghost use Rattle.ipc_state.specs.Descriptors.{Table, descriptor_row, most_descriptors};

    ghost Value = { Table };

    ghost view = { λ t. map descriptor_row t.rows.items };

    ghost invariant = { λ t. (most_descriptors ≤ vec_capacity t.rows)
        × (t.rise ≡ true → IsRising 0 (keys_of (map descriptor_row t.rows.items)) (2 ^ 32)) };
}

impl Descriptors {
    /// None yet. Refused for want of memory.
    pub fn new(alloc: Global) -> Result<Descriptors, AllocError>
        ensures { IfOk result (λ t. t ≡ []) }
    {
        Ok(Descriptors {
            rows: Vec::with_capacity(alloc, MOST_DESCRIPTORS)?,
            rise: true,
            hint: Cell::new(0),
        })
    }

    /// The descriptors, by rising number.
    pub fn rows(&self) -> &[DescriptorRow]
        ensures { map descriptor_row result.now ≡ self.now }
    {
        &self.rows
    }

    /// How many there are.
    pub fn len(&self) -> usize
        ensures { result ≡ length self.now }
    {
        self.rows.len()
    }

    /// Whether there is none.
    pub fn is_empty(&self) -> bool
        ensures { IsTrue result ↔ (self.now ≡ []) }
    {
        self.rows.is_empty()
    }

    /// The descriptor that has a number, if the number is in use.
    pub fn get(&self, fd: u32) -> Option<Descriptor>
        ensures { result ≡ value_at nat_eq self.now fd }
    {
        let place = place_of(&self.rows, fd, self.rise, self.hint.get())?;
        self.hint.set(place);
        Some(self.rows[place].descriptor)
    }

    /// Adds a descriptor under the lowest number that is not in use, which it gives; the numbers rise, and there are
    /// not as many yet as there may be. It takes no memory. See open(2).
    pub fn open(&mut self, descriptor: Descriptor) -> u32
        requires few { length self.old < most_descriptors }
        requires rising { IsRising 0 (keys_of self.old) (2 ^ 32) }
        ensures table { self.new ≡ opened self.old descriptor }
        ensures fd { result ≡ lowest_unused self.old }
    {
        let place = lowest_unused_place(&self.rows);
        let fd = place as u32;
        self.rows
            .insert(place, DescriptorRow { fd, descriptor })
            .unwrap();
        fd
    }

    /// Replaces the flags of a descriptor, as mq_setattr(3) does; nothing changes if the number is not in use.
    pub fn set_flags(&mut self, fd: u32, flags: u32)
        ensures { self.new ≡ with_flags self.old fd flags }
    {
        if let Some(place) = place_of(&self.rows, fd, self.rise, self.hint.get()) {
            self.rows[place].descriptor.flags = flags;
        }
    }

    /// Takes a descriptor out, and gives it, if the number is in use. The others stay. See mq_close(3).
    pub fn close(&mut self, fd: u32) -> Option<Descriptor>
        ensures descriptor { result ≡ value_at nat_eq self.old fd }
        ensures others { self.new ≡ without nat_eq self.old fd }
    {
        let place = place_of(&self.rows, fd, self.rise, self.hint.get())?;
        Some(self.rows.remove(place).descriptor)
    }

    /// Whether the numbers rise, each below this one.
    pub(crate) fn rise(&self, high: u32) -> bool
        ensures { IsTrue result ↔ IsRising 0 (keys_of self.now) high }
    {
        rise(&self.rows, 0, high)
    }

    /// Takes all out.
    pub fn clear(&mut self)
        ensures { self.new ≡ [] }
    {
        self.rows.clear();
        self.rise = true;
    }

    /// Adds a descriptor that was read, at the end. Where there are more than there are places for, it grows. Refused
    /// for want of memory, and then all is as before.
    pub fn restore(&mut self, fd: u32, descriptor: Descriptor) -> Result<(), AllocError>
        ensures ok { OnOk result (self.new ≡ self.old ++ (fd, descriptor) ∷ []) }
        ensures err { OnErr result (self.new ≡ self.old) }
    {
        self.rows.push(DescriptorRow { fd, descriptor })?;
        self.rise = false;
        Ok(())
    }
}

/// The place of the first row that has a number. Where the numbers rise, there is no other.
fn place_of(rows: &[DescriptorRow], fd: u32, rise: bool, hint: usize) -> Option<usize>
    requires { rise ≡ true → IsRising 0 (keys_of (map descriptor_row rows.now)) (2 ^ 32) }
    ensures { result ≡ position (λ r. r.fd == fd) rows.now }
{
    if rise && hint < rows.len() && rows[hint].fd == fd {
        return Some(hint);
    }
    rows.iter().position(|row| row.fd == fd)
}

/// The lowest number that is not in use. Each smaller number stands at its own place, so it is where its row goes.
fn lowest_unused_place(rows: &[DescriptorRow]) -> usize
    ensures unused { result ≡ lowest_unused (map descriptor_row rows.now) }
    ensures within { result ≤ length rows.now }
{
    let mut lowest = 0;
    for row in rows {
        if row.fd as usize != lowest {
            return lowest;
        }
        lowest += 1;
    }
    lowest
}

/// A law: the lowest number that is not in use is not in use, and each below it is. If there are fewer descriptors than
/// so many, the number is smaller too.
pub fn lowest_unused_is_so()
    ensures unused { (table : Table) (high : ℕ) → IsRising 0 (keys_of table) high
        → value_at nat_eq table (lowest_unused table) ≡ None }
    ensures lowest { (table : Table) (fd : ℕ) → fd < lowest_unused table → IsSome (value_at nat_eq table fd) }
    ensures few { (table : Table) (most : ℕ) → length table < most → lowest_unused table < most }
{}

/// A law: after an open the numbers still rise, there is one descriptor more, it is found, and each other is what it
/// was.
pub fn opened_is_there()
    ensures rising { (table : Table) (d : Descriptor) (high : ℕ) → IsRising 0 (keys_of table) high
        → lowest_unused table < high → IsRising 0 (keys_of (opened table d)) high }
    ensures there { (table : Table) (d : Descriptor) (high : ℕ) → IsRising 0 (keys_of table) high
        → value_at nat_eq (opened table d) (lowest_unused table) ≡ Some d }
    ensures others { (table : Table) (d : Descriptor) (fd : ℕ) → fd ≢ lowest_unused table
        → value_at nat_eq (opened table d) fd ≡ value_at nat_eq table fd }
    ensures one { (table : Table) (d : Descriptor) → length (opened table d) ≡ length table + 1 }
{}
