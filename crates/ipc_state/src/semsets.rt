//! The semaphore sets.

ghost use Rattle.std.specs.Prelude.{◌≡◌, ◌≤◌, ◌+◌, ◌↔◌, ⊤, ℕ, ℤ, true, false, is_some, None, Some, option_map};
ghost use Rattle.std.specs.Prelude.{map, length, All, IsTrue, OnOk, OnErr};
ghost use Rattle.std.specs.Borrow.{sem};
ghost use Rattle.std.specs.Option.{option_copied_mut};
ghost use Rattle.ipc_limits.specs.Limits.{ArePassed};
ghost use Rattle.ipc_base.specs.Table.{IsRising, keys_of};
ghost use Rattle.ipc_state.specs.declared.parked.ObjectKind.TheVariants as kinds;
ghost use Rattle.ipc_state.specs.Held.{Ready, left};
ghost use Rattle.ipc_state.specs.Bound.{permitting};
ghost use Rattle.ipc_state.specs.Keyed.{HaveKeys, KeyedEntry, keyed};
ghost use Rattle.ipc_state.specs.LendsSemset.{lends_semset};
ghost use Rattle.ipc_state.specs.Numbered.{entry_of, is_full, with_entry};
ghost use Rattle.ipc_state.specs.Restored.{with_last_semset};
ghost use Rattle.ipc_state.specs.Sound.{AreSound, IsSoundSemset, semaphore_count};
ghost use Rattle.ipc_state.specs.State.{removed, with_new_semset};
ghost use Rattle.ipc_state.specs.Tables.{item_row};
ghost use Rattle.sysv_sem.specs.Set.{Set, new_set};

use crate::numbered::Item;
use crate::objects::{Counted, Keyed, KeyedEntry, Renew};
use crate::sound::SoundAlone;
use crate::state::State;
use ipc_base::{Id, Moment};
use ipc_limits::Limits;
use ipc_perm::Perm;
use std::alloc::AllocError;
use sysv_sem::SemSet;

impl State {
    /// The identifier of the next semaphore set.
    pub fn next_semset(&self) -> u32
        ensures { result ≡ self.now.state.semset.next }
    {
        self.semset.next()
    }

    /// The semaphore sets, by identifier.
    pub fn semsets(&self) -> &[Item<KeyedEntry<SemSet>>]
        ensures { map item_row result.now ≡ self.now.state.semset.entries }
    {
        self.semset.items()
    }

    /// The semaphore sets, under limits that passed their check.
    pub fn semset(&self) -> &Keyed<SemSet>
        ensures sets { result.now.objects ≡ self.now.state.semset }
        ensures passed { ArePassed self.now.limits }
    {
        &self.semset
    }

    /// The set that an identifier has, to be changed.
    pub fn semset_mut(&mut self, id: Id) -> Option<&mut SemSet>
        ensures* writes_back { sem 𝓛 (lends_semset self.entry id.0 result) }
        ensures object { option_copied_mut result ≡ option_map (λ e. e.object) (entry_of self.old.state.semset id.0) }
    {
        self.semset.get_mut(id.0)
    }

    /// Replaces who may use the set of an identifier.
    pub fn set_semset_perm(&mut self, id: Id, perm: Perm)
        requires { is_some (entry_of self.old.state.semset id.0) ≡ true }
        ensures { (e : KeyedEntry Set) → entry_of self.old.state.semset id.0 ≡ Some e
            → self.new ≡ record self.old {
              state = record self.old.state {
                semset = with_entry self.old.state.semset id.0 (permitting e perm);
              };
            } }
    {
        self.semset.set_perm(id.0, perm);
    }

    /// Takes the memory for one set more of this key, and of so many semaphores.
    pub fn reserve_semset(&mut self, key: i32, nsems: usize) -> Result<(), AllocError>
        ensures ok { OnOk result (self.new ≡ record self.old { ready = Ready.Semset key nsems }) }
        ensures err { OnErr result (self.new ≡ record self.old { ready = Ready.Nothing }) }
    {
        self.release();
        let set = SemSet::new(self.alloc, nsems, self.clock)?;
        self.semset.reserve(key, set)
    }

    /// Adds a set, of the key and with as many semaphores as there is memory for, under the next identifier, which it
    /// gives.
    pub fn add_semset(&mut self, perm: Perm) -> Id
        ghost asked: { ℤ × ℕ }
        requires ready { self.old.ready ≡ Ready.Semset asked.0 asked.1 }
        requires unused { keyed self.old.state.semset asked.0 ≡ None }
        requires numbers { IsRising 1 (keys_of self.old.state.semset.entries) self.old.state.semset.next }
        requires more { is_full self.old.limits.semmni self.old.state.semset ≡ false }
        ensures added { self.new ≡ left self.old (with_new_semset self.old.state asked.0 perm asked.1) }
        ensures id { result.0 ≡ self.old.state.semset.next }
    {
        let number = self.semset.add(perm, self.clock);
        self.release();
        Id(number)
    }

    /// Takes a set out. It takes no memory.
    pub fn remove_semset(&mut self, id: Id)
        requires named { HaveKeys self.old.state.semset }
        requires there { is_some (entry_of self.old.state.semset id.0) ≡ true }
        ensures { self.new ≡ left self.old (removed self.old.state kinds.Semset id.0) }
    {
        self.semset.remove(id.0);
        self.release();
    }

    /// Whether so many semaphores more may come: all sets together have no more than the limit says then.
    pub fn may_have_more(&self, nsems: usize) -> bool
        ensures { IsTrue result ↔ (semaphore_count self.now.state.semset + nsems ≤ self.now.limits.semmns) }
    {
        let most = self.limits.semmns as usize;
        nsems <= most && self.semset.count_at_most(most - nsems)
    }

    /// Adds a set that was read, at the end. Refused for want of memory, all is as before.
    pub fn restore_semset(&mut self, id: Id, entry: KeyedEntry<SemSet>) -> Result<(), AllocError>
        ensures state { OnOk result (self.new.state ≡ with_last_semset self.old.state id.0 entry) }
        ensures limits { self.new.limits ≡ self.old.limits }
        ensures err { OnErr result (self.new.state ≡ self.old.state) }
    {
        self.semset.restore(id.0, entry)
    }

    /// Whether the sets are sound.
    pub(crate) fn are_semsets_sound(&self) -> bool
        ensures { IsTrue result
            ↔ AreSound self.now.limits self.now.state.processes.entries kinds.Semset self.now.state.semset }
    {
        self.semset.are_sound(self.limits.semmni, &self.limits)
            && self.semset.count_at_most(self.limits.semmns as usize)
    }
}

impl Renew for SemSet {
    type Spec = Moment;

    ghost MayBe = { λ asked. ⊤ };

    ghost renewed = { λ set asked. new_set (length set.semaphores) asked.0 };

    fn make(&mut self, asked: Moment) {
        self.renew(asked);
    }
}

impl Counted for SemSet {
    ghost count = { λ set. length set.semaphores };

    fn count(&self) -> u128 {
        self.stat().nsems as u128
    }
}

impl SoundAlone for SemSet {
    ghost IsSound = { IsSoundSemset };

    fn is_sound(&self, limits: &Limits) -> bool {
        let semaphores = self.semaphores();
        0 < semaphores.len() && semaphores.len() <= limits.semmsl as usize
    }
}
