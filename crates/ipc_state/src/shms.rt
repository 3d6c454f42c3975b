//! The System V shared memory segments.

ghost use Rattle.std.specs.Prelude.{◌≡◌, ◌≤◌, ◌+◌, ◌↔◌, ⊤, ℕ, ℤ, true, false, is_some, None, Some, option_map};
ghost use Rattle.std.specs.Prelude.{map, length, IsTrue, OnOk, OnErr};
ghost use Rattle.std.specs.Borrow.{sem};
ghost use Rattle.std.specs.List.{list_all};
ghost use Rattle.std.specs.Option.{option_copied_mut};
ghost use Rattle.ipc_limits.specs.Limits.{ArePassed};
ghost use Rattle.ipc_base.specs.Table.{IsRising, keys_of};
ghost use Rattle.ipc_state.specs.declared.parked.ObjectKind.TheVariants as kinds;
ghost use Rattle.ipc_state.specs.Held.{Ready, left, zero_bytes};
ghost use Rattle.ipc_state.specs.Bound.{permitting};
ghost use Rattle.ipc_state.specs.Keyed.{HaveKeys, KeyedEntry, keyed};
ghost use Rattle.ipc_state.specs.Kinds.{is_bound_so};
ghost use Rattle.ipc_state.specs.LendsShm.{lends_shm};
ghost use Rattle.ipc_state.specs.Numbered.{entry_of, is_full, with_entry};
ghost use Rattle.ipc_state.specs.Restored.{with_last_shm};
ghost use Rattle.ipc_state.specs.Sound.{AreSound, IsSoundShm, shm_bytes};
ghost use Rattle.ipc_state.specs.State.{unlinked, with_new_shm};
ghost use Rattle.ipc_state.specs.Tables.{item_row};
ghost use Rattle.shm_segment.specs.SysSegment.{SysSegment, marked, renewed};

use crate::keys::IPC_PRIVATE;
use crate::numbered::Item;
use crate::objects::{Counted, Keyed, KeyedEntry, Leaves, Renew};
use crate::parked::ObjectKind;
use crate::sound::SoundAlone;
use crate::state::State;
use ipc_base::{Id, Moment, Pid};
use ipc_limits::Limits;
use ipc_perm::Perm;
use shm_segment::SysSegment;
use std::alloc::AllocError;

impl State {
    /// The identifier of the next segment.
    pub fn next_shm(&self) -> u32
        ensures { result ≡ self.now.state.shm.next }
    {
        self.shm.next()
    }

    /// The segments, by identifier.
    pub fn shms(&self) -> &[Item<KeyedEntry<SysSegment>>]
        ensures { map item_row result.now ≡ self.now.state.shm.entries }
    {
        self.shm.items()
    }

    /// The System V segments, under limits that passed their check.
    pub fn shm(&self) -> &Keyed<SysSegment>
        ensures segments { result.now.objects ≡ self.now.state.shm }
        ensures passed { ArePassed self.now.limits }
    {
        &self.shm
    }

    /// The segment that an identifier has, to be changed.
    pub fn shm_mut(&mut self, id: Id) -> Option<&mut SysSegment>
        ensures* writes_back { sem 𝓛 (lends_shm self.entry id.0 result) }
        ensures object { option_copied_mut result ≡ option_map (λ e. e.object) (entry_of self.old.state.shm id.0) }
    {
        self.shm.get_mut(id.0)
    }

    /// Replaces who may use the segment of an identifier.
    pub fn set_shm_perm(&mut self, id: Id, perm: Perm)
        requires { is_some (entry_of self.old.state.shm id.0) ≡ true }
        ensures { (e : KeyedEntry SysSegment) → entry_of self.old.state.shm id.0 ≡ Some e
            → self.new ≡ record self.old {
              state = record self.old.state {
                shm = with_entry self.old.state.shm id.0 (permitting e perm);
              };
            } }
    {
        self.shm.set_perm(id.0, perm);
    }

    /// Takes the memory for one segment more of this key, and of so many bytes.
    pub fn reserve_shm(&mut self, key: i32, size: usize) -> Result<(), AllocError>
        ensures ok { OnOk result (self.new
            ≡ record self.old { ready = Ready.Shm key (zero_bytes size) }) }
        ensures err { OnErr result (self.new ≡ record self.old { ready = Ready.Nothing }) }
    {
        self.release();
        let segment = SysSegment::new(self.alloc, size, Pid(0), self.clock)?;
        self.shm.reserve(key, segment)
    }

    /// Adds a segment that a process makes, of the key and with as many bytes as there is memory for, under the next
    /// identifier, which it gives.
    pub fn add_shm(&mut self, perm: Perm, pid: Pid) -> Id
        ghost asked: { ℤ × ℕ }
        requires ready { self.old.ready ≡ Ready.Shm asked.0 (zero_bytes asked.1) }
        requires unused { keyed self.old.state.shm asked.0 ≡ None }
        requires numbers { IsRising 1 (keys_of self.old.state.shm.entries) self.old.state.shm.next }
        requires more { is_full self.old.limits.shmmni self.old.state.shm ≡ false }
        ensures added { self.new ≡ left self.old (with_new_shm self.old.state asked.0 perm pid.0 asked.1) }
        ensures id { result.0 ≡ self.old.state.shm.next }
    {
        let number = self.shm.add(perm, (pid, self.clock));
        self.release();
        Id(number)
    }

    /// Marks a segment, whose key is free then; it goes, if nobody has it attached. It takes no memory.
    pub fn mark_shm(&mut self, id: Id)
        requires named { HaveKeys self.old.state.shm }
        requires there { is_some (entry_of self.old.state.shm id.0) ≡ true }
        ensures { self.new ≡ left self.old (unlinked self.old.state kinds.Shm id.0) }
    {
        self.shm.unbind(id.0);
        self.sweep();
    }

    /// Whether so many bytes more may come: all segments together have no more than the limit says then.
    pub fn may_have_more_bytes(&self, size: usize) -> bool
        ensures { IsTrue result ↔ (shm_bytes self.now.state.shm + size ≤ self.now.limits.shmall) }
    {
        let most = self.limits.shmall as usize;
        size <= most && self.shm.count_at_most(most - size)
    }

    /// Adds a segment that was read, at the end. Refused for want of memory, all is as before.
    pub fn restore_shm(&mut self, id: Id, entry: KeyedEntry<SysSegment>) -> Result<(), AllocError>
        ensures state { OnOk result (self.new.state ≡ with_last_shm self.old.state id.0 entry) }
        ensures limits { self.new.limits ≡ self.old.limits }
        ensures err { OnErr result (self.new.state ≡ self.old.state) }
    {
        self.shm.restore(id.0, entry)
    }

    /// Whether the segments are sound.
    pub(crate) fn are_shms_sound(&self) -> bool
        ensures { IsTrue result
            ↔ AreSound self.now.limits self.now.state.processes.entries kinds.Shm self.now.state.shm }
    {
        let most = self.limits.shmmni;
        self.shm
            .are_kept(most, &self.limits, &self.processes, ObjectKind::Shm)
            && are_bound_so(self.shm.items())
            && self.shm.count_at_most(self.limits.shmall as usize)
    }
}

/// Whether each that is marked has no key.
fn are_bound_so(items: &[Item<KeyedEntry<SysSegment>>]) -> bool
    ensures { result
        ≡ list_all (λ e. is_bound_so kinds.Shm e.value.bound e.value.perm e.value.object) items.now }
{
    items.iter().all(|item| is_bound_so(&item.value))
}

fn is_bound_so(entry: &KeyedEntry<SysSegment>) -> bool
    ensures { result ≡ is_bound_so kinds.Shm entry.now.bound entry.now.perm entry.now.object }
{
    !entry.object.is_marked() || entry.bound == IPC_PRIVATE
}

impl Renew for SysSegment {
    type Spec = (Pid, Moment);

    ghost MayBe = { λ asked. ⊤ };

    ghost renewed = { λ segment asked. renewed segment asked.0 asked.1.0 };

    fn make(&mut self, asked: (Pid, Moment)) {
        self.renew(asked.0, asked.1);
    }
}

impl Leaves for SysSegment {
    ghost leaves = { λ x. x.is_marked };

    ghost parted = { marked };

    fn leaves(&self) -> bool {
        self.is_marked()
    }

    fn part(&mut self) {
        self.mark();
    }
}

impl Counted for SysSegment {
    ghost count = { λ segment. length segment.memory.bytes };

    fn count(&self) -> u128 {
        self.bytes().len() as u128
    }
}

impl SoundAlone for SysSegment {
    ghost IsSound = { IsSoundShm };

    fn is_sound(&self, limits: &Limits) -> bool {
        let bytes = self.bytes().len();
        0 < bytes && bytes <= limits.shmmax as usize
    }
}
