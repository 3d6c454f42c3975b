//! The named semaphores. See sem_overview(7).

ghost use Rattle.std.specs.Prelude.{◌≡◌, ◌≤◌, ◌↔◌, ℕ, List, true, false, is_some, None, option_map};
ghost use Rattle.std.specs.Prelude.{IsTrue, OnOk, OnErr};
ghost use Rattle.std.specs.Borrow.{sem};
ghost use Rattle.std.specs.Option.{option_copied_mut};
ghost use Rattle.ipc_limits.specs.Limits.{ArePassed};
ghost use Rattle.ipc_base.specs.Table.{IsRising, keys_of};
ghost use Rattle.ipc_keys.specs.declared.check.NameKind.TheVariants as names;
ghost use Rattle.ipc_state.specs.declared.parked.ObjectKind.TheVariants as kinds;
ghost use Rattle.posix_sem.specs.Semaphore.{sem_value_max};
ghost use Rattle.ipc_state.specs.Held.{Ready, left};
ghost use Rattle.ipc_state.specs.LendsNamed.{lends_psem};
ghost use Rattle.ipc_state.specs.Numbered.{entry_of};
ghost use Rattle.ipc_state.specs.Named.{HaveNames, named};
ghost use Rattle.ipc_state.specs.Restored.{with_last_psem};
ghost use Rattle.ipc_state.specs.Sound.{AreSound};
ghost use Rattle.ipc_state.specs.State.{has_all_psems, unlinked, with_new_psem};

use crate::objects::{Leaves, Named, NamedEntry, Renew};
use crate::sound::SoundAlone;
use crate::state::State;
use ipc_base::Cred;
use ipc_keys::{Name, NameKind};
use ipc_limits::Limits;
use ipc_perm::Perm;
use posix_sem::{NamedSem, SEM_VALUE_MAX};
use std::alloc::AllocError;

impl State {
    /// The named semaphores, under limits that passed their check.
    pub fn psems(&self) -> &Named<NamedSem>
        ensures objects { result.now.objects ≡ self.now.state.psem }
        ensures passed { ArePassed self.now.limits }
    {
        &self.psem
    }

    /// The semaphore that a number has, to be changed.
    pub fn psem_mut(&mut self, number: u32) -> Option<&mut NamedSem>
        ensures* writes_back { sem 𝓛 (lends_psem self.entry number result) }
        ensures object { option_copied_mut result
            ≡ option_map (λ e. e.object) (entry_of self.old.state.psem number) }
    {
        self.psem.get_mut(number)
    }

    /// Takes the memory for one semaphore more of this name.
    pub fn reserve_psem(&mut self, name: &[u8]) -> Result<(), AllocError>
        ensures ok { OnOk result (self.new ≡ record self.old { ready = Ready.Psem name.now }) }
        ensures err { OnErr result (self.new ≡ record self.old { ready = Ready.Nothing }) }
    {
        self.release();
        let name = Name::new(self.alloc, name)?;
        self.psem.reserve(name, NamedSem::new(0))
    }

    /// Adds a semaphore of this value, of the name for which there is memory, under the next number, which it gives.
    pub fn add_psem(&mut self, cred: Cred, mode: u32, value: u32) -> u32
        ghost name: { List ℕ }
        requires ready { self.old.ready ≡ Ready.Psem name }
        requires unused { named self.old.state.psem name ≡ None }
        requires numbers { IsRising 1 (keys_of self.old.state.psem.entries) self.old.state.psem.next }
        requires more { has_all_psems self.old.limits self.old.state ≡ false }
        requires value { value ≤ sem_value_max }
        ensures added { self.new ≡ left self.old (with_new_psem self.old.state name cred mode value) }
        ensures number { result ≡ self.old.state.psem.next }
    {
        let perm = Perm::new(cred, mode);
        let number = self.psem.add(perm, value);
        self.release();
        number
    }

    /// Takes the name of a semaphore, and it, if it is not open. It takes no memory.
    pub fn unlink_psem(&mut self, number: u32)
        requires named { HaveNames self.old.state.psem }
        requires there { is_some (entry_of self.old.state.psem number) ≡ true }
        ensures { self.new ≡ left self.old (unlinked self.old.state (kinds.Named names.Psem) number) }
    {
        self.psem.unbind(number);
        self.sweep();
    }

    /// Adds a semaphore that was read, at the end. Refused for want of memory, all is as before.
    pub fn restore_psem(
        &mut self,
        number: u32,
        entry: NamedEntry<NamedSem>,
    ) -> Result<(), AllocError>
        ensures state { OnOk result (self.new.state ≡ with_last_psem self.old.state number entry) }
        ensures limits { self.new.limits ≡ self.old.limits }
        ensures err { OnErr result (self.new.state ≡ self.old.state) }
    {
        self.psem.restore(number, entry)
    }

    /// Whether the semaphores are sound.
    pub(crate) fn are_psems_sound(&self) -> bool
        ensures { IsTrue result
            ↔ AreSound self.now.limits self.now.state.processes.entries (kinds.Named names.Psem) self.now.state.psem }
    {
        let most = self.limits.named_semaphores;
        self.psem
            .are_held(most, &self.limits, &self.processes, NameKind::Psem)
    }
}

impl Renew for NamedSem {
    type Spec = u32;

    ghost MayBe = { λ value. value ≤ sem_value_max };

    ghost renewed = { λ semaphore value. value };

    fn make(&mut self, value: u32) {
        *self = NamedSem::new(value);
    }
}

impl Leaves for NamedSem {
    ghost leaves = { λ x. true };

    ghost parted = { λ x. x };

    fn leaves(&self) -> bool {
        true
    }

    fn part(&mut self) {}
}

impl SoundAlone for NamedSem {
    ghost IsSound = { λ limits value. value ≤ sem_value_max };

    fn is_sound(&self, _limits: &Limits) -> bool {
        self.value() <= SEM_VALUE_MAX
    }
}
