//! A run: neighbouring sectors that were written and wait to be put into a disk.

ghost use Rattle.std.specs.Prelude.{◌≡◌, ◌-◌, ◌+◌, ◌≤◌, ◌<◌, ◌++◌, ◌↔◌, [], ◌∷◌};
ghost use Rattle.std.specs.Prelude.{All, IsTrue, length, slice_get, slice_set};
ghost use Rattle.std.specs.Prelude.{IfSome, Some, IsSome};
ghost use Rattle.ipc_disk.specs.Medium.{IsSector};
ghost use Rattle.ipc_disk.specs.Range.{IsInside};
ghost use Rattle.ipc_disk.specs.declared.run.TheConstants.{LONGEST};

use crate::Range;

// The most sectors that one write puts into a disk.
const LONGEST: usize = 64;

/// The sectors of `range`, in order, at the front of `sectors`.
#[derive(Drop)]
pub(crate) struct Run {
    pub(crate) range: Range,
    sectors: [[u8; 512]; LONGEST],
    ghost short: { range.count ≤ LONGEST },
    ghost all: { length sectors ≡ LONGEST },
    ghost whole: { All IsSector sectors },
}

// The place of a sector in a range that has it.
fn place(range: Range, at: u32) -> Option<usize>
    ensures inside { IsSome result ↔ IsInside range at }
    ensures place { IfSome result (λ k. k ≡ at - range.first) }
{
    if at < range.first || range.count <= at - range.first {
        return None;
    }
    Some((at - range.first) as usize)
}

impl Run {
    ghost use Rattle.ipc_disk.specs.Run.{run_values, IsNext, Joins};

    /// The empty run before the sector `first`.
    pub(crate) fn new(first: u32) -> Run
        ensures range { result.range ≡ record { first = first; count = 0 } }
        ensures values { run_values result ≡ [] }
    {
        Run {
            range: Range { first, count: 0 },
            sectors: [[0; 512]; LONGEST],
        }
    }

    /// The sector `at`, if the run has it.
    pub(crate) fn get(&self, at: u32) -> Option<&[u8; 512]>
        ensures inside { IsSome result ↔ IsInside self.now.range at }
        ensures value { IfSome result (λ sector.
            slice_get (run_values self.now) (at - self.now.range.first) ≡ Some sector.now) }
    {
        let place = place(self.range, at)?;
        Some(&self.sectors[place])
    }

    /// Whether the run has the sector `at`, or has a place for it as its next one.
    pub(crate) fn joins(&self, at: u32) -> bool
        ensures { IsTrue result ↔ Joins self.now.range at }
    {
        self.range.first <= at
            && at - self.range.first <= self.range.count
            && ((at - self.range.first) as usize) < LONGEST
    }

    /// Writes the sector `at`, which the run has, or which is its next one.
    pub(crate) fn set(&mut self, at: u32, from: &[u8; 512])
        requires { Joins self.old.range at }
        ensures first { self.new.range.first ≡ self.old.range.first }
        ensures inside { IsInside self.old.range at → self.new.range ≡ self.old.range }
        ensures replaces { IsInside self.old.range at → run_values self.new
            ≡ slice_set (run_values self.old) (at - self.old.range.first) from.now }
        ensures next { IsNext self.old.range at → self.new.range.count ≡ self.old.range.count + 1 }
        ensures appends { IsNext self.old.range at → run_values self.new
            ≡ run_values self.old ++ from.now ∷ [] }
    {
        let place = at - self.range.first;
        let sectors = &mut self.sectors;
        sectors[place as usize].copy_from_slice(from);
        if place == self.range.count {
            self.range.count += 1;
        }
    }

    /// Its sectors.
    pub(crate) fn sectors(&self) -> &[[u8; 512]]
        ensures { result.now ≡ run_values self.now }
    {
        &self.sectors[..self.range.count as usize]
    }

    /// Lets its sectors go, and begins again before the sector `first`.
    pub(crate) fn start_at(&mut self, first: u32)
        ensures range { self.new.range ≡ record { first = first; count = 0 } }
        ensures values { run_values self.new ≡ [] }
    {
        self.range = Range { first, count: 0 };
    }
}
