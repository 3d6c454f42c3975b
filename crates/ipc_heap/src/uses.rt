//! Who uses a sector.

ghost use Rattle.std.specs.Prelude.{◌≡◌, ◌<◌, ◌≤◌, ◌+◌, ◌++◌, true, false, IfSome, IfNone, length, map, All};
ghost use Rattle.std.specs.Prelude.{IfOk, slice_get, slice_set, replicate, take, drop, Some};
ghost use Rattle.ipc_heap.specs.Relations.Uses.{IsTaken, AreGiven};
ghost use Rattle.ipc_heap.specs.View.{is_free, turned};

use std::alloc::{AllocError, Global};
use std::marker::Model;

/// Whether what is saved on the disk uses a sector, and whether the map does that will be saved next.
#[derive(Clone, Copy, Debug, PartialEq, Eq)]
pub(crate) struct Use {
    pub saved: bool,
    pub next: bool,
}

/// Nothing uses it.
pub(crate) const UNUSED: Use = Use {
    saved: false,
    next: false,
};

impl Use {
    /// Whether nothing uses it.
    pub fn is_free(self) -> bool
        ensures { result ≡ is_free self }
    {
        !(self.saved || self.next)
    }
}

/// Who uses each sector of a range.
#[derive(Drop)]
pub(crate) struct Uses {
    uses: Vec<Use>,
    /// Where the next search for a free sector begins. It means nothing.
    hint: usize,
    /// From here on nothing uses a sector, so that a save need not look there.
    top: usize,
}

impl Model for Uses {
    ghost use Rattle.std.specs.Prelude.{List};
    ghost use Rattle.ipc_heap.specs.declared.uses.Use.{Use};

    ghost Value = { List Use };

    ghost use Rattle.ipc_heap.specs.Relations.Uses.{HasTop};

    ghost view = { λ u. u.uses.items };

    ghost invariant = { λ u. HasTop u.uses.items u.top };
}

impl Uses {
    /// So many sectors, which nothing uses. They are written at once.
    pub fn new(alloc: Global, count: usize) -> Result<Uses, AllocError>
        ensures { IfOk result (λ uses. uses ≡ replicate count (record { saved = false; next = false })) }
    {
        let uses = vec![in alloc; UNUSED; count]?;
        Ok(Uses {
            uses,
            hint: 0,
            top: 0,
        })
    }

    /// Who uses a sector.
    pub fn of(&self, i: usize) -> Use
        requires { i < length self.now }
        ensures { slice_get self.now i ≡ Some result }
    {
        self.uses[i]
    }

    /// Notes who uses a sector.
    pub fn note(&mut self, i: usize, by: Use)
        requires { i < length self.old }
        ensures { self.new ≡ slice_set self.old i by }
    {
        self.uses[i] = by;
        self.top = self.top.max(i + 1);
    }

    /// Takes a free sector, if there is one, for what will be saved next. The search begins at the hint, so that
    /// sectors that are taken one after another rise.
    pub fn take(&mut self) -> Option<usize>
        ensures taken { IfSome result (λ i. IsTaken self.old i self.new) }
        ensures none { IfNone result (All (λ u. is_free u ≡ false) self.old × (self.new ≡ self.old)) }
    {
        let found = match find_free(&self.uses, self.hint) {
            Some(i) => Some(i),
            None => find_free(&self.uses, 0),
        };
        let Some(i) = found else {
            return None;
        };
        self.uses[i].next = true;
        self.hint = i + 1;
        self.top = self.top.max(i + 1);
        Some(i)
    }

    /// What will be saved next is saved, and the next search begins at the first sector.
    pub fn turn_over(&mut self)
        ensures { self.new ≡ map turned self.old }
    {
        turn_first(&mut self.uses, self.top);
        self.hint = 0;
    }

    /// Sectors are not those of the map any more.
    pub fn give_back(&mut self, first: u32, sectors: &[u32])
        requires { All (λ s. (first ≤ s) × (s < first + length self.old)) sectors.now }
        ensures { AreGiven first self.old sectors.now self.new }
    {
        for sector in sectors {
            self.uses[(*sector - first) as usize].next = false;
        }
    }
}

// What will be saved next is saved, in so many sectors.
fn turn_first(uses: &mut [Use], count: usize)
    requires { count ≤ length uses.old }
    ensures { uses.new ≡ map turned (take count uses.old) ++ drop count uses.old }
{
    for each in &mut uses[..count] {
        each.saved = each.next;
    }
}

// The first free sector from a place on.
fn find_free(uses: &[Use], from: usize) -> Option<usize>
    ensures some { IfSome result (λ i. (i < length uses.now) × (slice_get (map is_free uses.now) i ≡ Some true)) }
    ensures none { IfNone result (from ≡ 0 → All (λ u. is_free u ≡ false) uses.now) }
{
    for i in from..uses.len() {
        if uses[i].is_free() {
            return Some(i);
        }
    }
    None
}
