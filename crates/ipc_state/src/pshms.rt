//! The shared memory segments. See shm_overview(7).

ghost use Rattle.std.specs.Prelude.{◌≡◌, ◌≤◌, ◌↔◌, ⊤, ℕ, List, true, false, is_some, Some, None};
ghost use Rattle.std.specs.Prelude.{option_map, length, IsTrue, OnOk, OnErr};
ghost use Rattle.std.specs.Borrow.{sem};
ghost use Rattle.std.specs.Option.{option_copied_mut};
ghost use Rattle.ipc_limits.specs.Limits.{ArePassed};
ghost use Rattle.ipc_base.specs.Table.{IsRising, keys_of};
ghost use Rattle.ipc_keys.specs.declared.check.NameKind.TheVariants as names;
ghost use Rattle.ipc_state.specs.declared.parked.ObjectKind.TheVariants as kinds;
ghost use Rattle.ipc_state.specs.Held.{Ready, left};
ghost use Rattle.ipc_state.specs.LendsNamed.{lends_pshm};
ghost use Rattle.ipc_state.specs.Numbered.{entry_of};
ghost use Rattle.ipc_state.specs.Named.{HaveNames, named};
ghost use Rattle.ipc_state.specs.Restored.{with_last_pshm};
ghost use Rattle.ipc_state.specs.Sound.{AreSound, segment_bytes};
ghost use Rattle.shm_segment.specs.Segment.{Segment, empty_segment, truncated};
ghost use Rattle.ipc_state.specs.State.{has_all_pshms, unlinked, with_new_pshm};

use crate::objects::{Counted, Leaves, Named, NamedEntry, Renew};
use crate::sound::SoundAlone;
use crate::state::State;
use ipc_base::Cred;
use ipc_keys::{Name, NameKind};
use ipc_limits::Limits;
use ipc_perm::Perm;
use shm_segment::Segment;
use std::alloc::{AllocError, Global};

impl State {
    /// The segments, under limits that passed their check.
    pub fn pshms(&self) -> &Named<Segment>
        ensures objects { result.now.objects ≡ self.now.state.pshm }
        ensures passed { ArePassed self.now.limits }
    {
        &self.pshm
    }

    /// The segment that a number has, to be changed.
    pub fn pshm_mut(&mut self, number: u32) -> Option<&mut Segment>
        ensures* writes_back { sem 𝓛 (lends_pshm self.entry number result) }
        ensures object { option_copied_mut result ≡ option_map (λ e. e.object) (entry_of self.old.state.pshm number) }
    {
        self.pshm.get_mut(number)
    }

    /// Takes the memory for one segment more of this name.
    pub fn reserve_pshm(&mut self, name: &[u8]) -> Result<(), AllocError>
        ensures ok { OnOk result (self.new ≡ record self.old { ready = Ready.Pshm name.now }) }
        ensures err { OnErr result (self.new ≡ record self.old { ready = Ready.Nothing }) }
    {
        self.release();
        let name = Name::new(self.alloc, name)?;
        self.pshm.reserve(name, Segment::new(self.alloc))
    }

    /// Takes the memory of so many zeros, which a segment takes that grows to this length.
    pub fn reserve_zeros(&mut self, length: usize) -> Result<(), AllocError>
        ensures ok { OnOk result (self.new
            ≡ record self.old { ready = Ready.Zeros (truncated length empty_segment) }) }
        ensures err { OnErr result (self.new ≡ record self.old { ready = Ready.Nothing }) }
    {
        self.release();
        self.zeros = Some(Segment::zeroed(self.alloc, length)?);
        Ok(())
    }

    /// The zeros that are ready, if any are. It takes no memory.
    pub fn take_zeros(&mut self) -> Option<Segment>
        ensures zeros { (zeros : Segment) → self.old.ready ≡ Ready.Zeros zeros → result ≡ Some zeros }
        ensures left { self.new ≡ left self.old self.old.state }
    {
        let zeros = self.zeros.take();
        self.release();
        zeros
    }

    /// Whether all segments have together no more bytes than `most`.
    pub fn have_at_most_bytes(&self, most: usize) -> bool
        ensures { IsTrue result ↔ (segment_bytes self.now.state.pshm ≤ most) }
    {
        self.pshm.count_at_most(most)
    }

    /// Adds a segment without bytes, of the name for which there is memory, under the next number, which it gives.
    pub fn add_pshm(&mut self, cred: Cred, mode: u32) -> u32
        ghost name: { List ℕ }
        requires ready { self.old.ready ≡ Ready.Pshm name }
        requires unused { named self.old.state.pshm name ≡ None }
        requires numbers { IsRising 1 (keys_of self.old.state.pshm.entries) self.old.state.pshm.next }
        requires more { has_all_pshms self.old.limits self.old.state ≡ false }
        ensures added { self.new ≡ left self.old (with_new_pshm self.old.state name cred mode) }
        ensures number { result ≡ self.old.state.pshm.next }
    {
        let perm = Perm::new(cred, mode);
        let number = self.pshm.add(perm, self.alloc);
        self.release();
        number
    }

    /// Takes the name of a segment, and it, if it is not open. It takes no memory.
    pub fn unlink_pshm(&mut self, number: u32)
        requires named { HaveNames self.old.state.pshm }
        requires there { is_some (entry_of self.old.state.pshm number) ≡ true }
        ensures { self.new ≡ left self.old (unlinked self.old.state (kinds.Named names.Pshm) number) }
    {
        self.pshm.unbind(number);
        self.sweep();
    }

    /// Adds a segment that was read, at the end. Refused for want of memory, all is as before.
    pub fn restore_pshm(
        &mut self,
        number: u32,
        entry: NamedEntry<Segment>,
    ) -> Result<(), AllocError>
        ensures state { OnOk result (self.new.state ≡ with_last_pshm self.old.state number entry) }
        ensures limits { self.new.limits ≡ self.old.limits }
        ensures err { OnErr result (self.new.state ≡ self.old.state) }
    {
        self.pshm.restore(number, entry)
    }

    /// Whether the segments are sound.
    pub(crate) fn are_pshms_sound(&self) -> bool
        ensures { IsTrue result
            ↔ AreSound self.now.limits self.now.state.processes.entries (kinds.Named names.Pshm) self.now.state.pshm }
    {
        let most = self.limits.segments;
        self.pshm
            .are_held(most, &self.limits, &self.processes, NameKind::Pshm)
            && self.pshm.count_at_most(self.limits.segment_bytes as usize)
    }
}

impl Renew for Segment {
    type Spec = Global;

    ghost MayBe = { λ alloc. ⊤ };

    ghost renewed = { λ segment alloc. empty_segment };

    fn make(&mut self, alloc: Global) {
        *self = Segment::new(alloc);
    }
}

impl Counted for Segment {
    ghost count = { λ segment. length segment.bytes };

    fn count(&self) -> u128 {
        self.len() as u128
    }
}

impl Leaves for Segment {
    ghost leaves = { λ x. true };

    ghost parted = { λ x. x };

    fn leaves(&self) -> bool {
        true
    }

    fn part(&mut self) {}
}

impl SoundAlone for Segment {
    ghost IsSound = { λ limits x. ⊤ };

    fn is_sound(&self, _limits: &Limits) -> bool {
        true
    }
}
