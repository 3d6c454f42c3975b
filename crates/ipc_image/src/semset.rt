//! A semaphore set's object: its numbers, and its semaphores.

ghost use Rattle.std.specs.Prelude.{◌≡◌, ◌≢◌, ◌++◌, Err, IfOk, OnOk, ◌∷◌, ◌<◌};
ghost use Rattle.std.specs.Prelude.{◌≤◌, ◌*◌, ◌^◌, [], ℕ, List, All, length};
ghost use Rattle.std.proofs.Common.{sym, refl};
ghost use Rattle.ipc_base.proofs.CallerLemmas.{numbers_are};
ghost use Rattle.ipc_base.specs.Numbers.{fields_bytes, FitFields};
ghost use Rattle.sysv_sem.specs.declared.set.Semaphore.{Semaphore as PlainSemaphore};
ghost use Rattle.sysv_sem.specs.Operation.{most_value};
ghost use Rattle.sysv_sem.specs.Set.{Set};
ghost use Rattle.ipc_engine.specs.declared.fault.StateFault.{StateFault};
ghost use Rattle.ipc_image.specs.Saved.{semaphore_shape, semaphore_numbers, semaphore_bytes, FitsSemaphore};
ghost use Rattle.ipc_image.specs.Saved.{set_sizes, set_numbers, semaphores_of};
ghost use Rattle.ipc_image.specs.SavedParts.{with_semaphores, set_from, put_sets, with_more};
ghost use Rattle.ipc_image.specs.Relations.Trees.{semaphore_one};
ghost use Rattle.ipc_image.specs.Relations.Shapes.{plain_one};

use crate::fields::{EIGHT, FOUR, TWO, put_fields};
use crate::kind::Kind;
use crate::saved::{InSlice, Saved, put_counted, read_counted};
use crate::widths::{Wide, read_each};
use crate::window::Window;
use ipc_base::{Field, Id, Mark, Moment, Pid, take_fields};
use ipc_engine::StateFault;
use ipc_state::{KeyedEntry, State};
use std::alloc::{AllocError, Global};
use sysv_sem::{MOST_VALUE, SemSet, Semaphore};

impl Saved for Semaphore {
    type Into = SemSet;

    ghost Plain = { PlainSemaphore };

    ghost plain = { λ x. x };

    ghost shape = { semaphore_shape };

    ghost tree = { semaphore_numbers };

    ghost Fits = { FitsSemaphore };

    ghost Seen = { Set };

    ghost seen = { λ s. s };

    ghost items = { semaphores_of };

    ghost put = { with_semaphores };

    ghost place = { record { same = λ s. refl; found = λ s xs. refl; again = λ s xs ys. refl } };

    ghost known = { λ x fit. fit.1 };

    ghost one = { semaphore_one };

    fn len(&self) -> u64 {
        6
    }

    fn put(&self, window: &mut Window) {
        put_fields(window, &[Field::U16(self.value), Field::U32(self.pid.0)]);
    }

    fn take<'b>(into: &mut SemSet, bytes: &'b [u8]) -> Result<&'b [u8], StateFault> {
        let (numbers, rest) = take_fields(bytes, &[TWO, FOUR]).ok_or(StateFault::Unsound)?;
        if numbers[0] > u64::from(MOST_VALUE) {
            return Err(StateFault::Unsound);
        }
        into.restore(Semaphore {
            value: numbers[0] as u16,
            pid: Pid(numbers[1] as u32),
        })?;
        Ok(rest)
    }
}

impl Wide for Semaphore {
    ghost IsSmall = { λ x. x.value ≤ most_value };

    ghost IsWide = { FitsSemaphore };

    fn read(&self) {
        let _value = self.value;
        let _pid = self.pid.0;
    }
}

impl Kind for SemSet {
    ghost sizes = { set_sizes };

    ghost numbers = { set_numbers };

    ghost Part = { PlainSemaphore };

    ghost part_bytes = { semaphore_bytes };

    ghost FitsPart = { FitsSemaphore };

    ghost parts = { semaphores_of };

    ghost from = { set_from };

    ghost known = { λ ns xs fit. (sym (numbers_are set_sizes ns fit), refl) };

    ghost whole = { λ s. refl };

    ghost part_one = { plain_one semaphore_shape semaphore_numbers FitsSemaphore (λ x fit. fit.1) semaphore_one };

    ghost IsSmall = { λ s. length s.semaphores < 2 ^ 32 };

    ghost FIRST = { 2 * 2 ^ 32 };

    const FIRST: u64 = 2 << 32;

    ghost items = { λ s. s.0.semset.entries };

    ghost put = { put_sets };

    ghost place = { record { same = λ s. refl; found = λ s xs. refl; again = λ s xs ys. refl } };

    fn read_numbers(&self) {
        let stat = self.stat();
        read_times(stat.otime, stat.ctime);
        read_each(self.semaphores());
    }

    #[tactic(auto, using(crate::proofs::SavedObjects::set_counts))]
    fn len(&self) -> u64 {
        20 + 6 * self.stat().nsems as u64
    }

    fn put_numbers(&self, window: &mut Window) {
        let stat = self.stat();
        put_fields(
            window,
            &[Field::U64(stat.otime.0), Field::U64(stat.ctime.0)],
        );
    }

    fn put_parts(&self, window: &mut Window, mark: &mut Mark) {
        put_counted(window, &InSlice(self.semaphores()), mark);
    }

    fn read_head(alloc: Global, bytes: &[u8]) -> Result<(SemSet, &[u8]), StateFault>
        ensures ok { IfOk result (λ found. (ns : List ℕ) × FitFields set_sizes ns
            × (bytes.now ≡ fields_bytes set_sizes ns ++ found.1.now) × (found.0 ≡ set_from ns [])) }
        ensures damaged { result ≡ Err StateFault.Unsound → (ns rest : List ℕ) → FitFields set_sizes ns
            → bytes.now ≢ fields_bytes set_sizes ns ++ rest }
    {
        let (numbers, rest) = take_fields(bytes, &[EIGHT, EIGHT]).ok_or(StateFault::Unsound)?;
        Ok((
            SemSet::restored(alloc, Moment(numbers[0]), Moment(numbers[1])),
            rest,
        ))
    }

    fn read_parts(&mut self, bytes: &[u8]) -> Result<(), StateFault> {
        read_counted::<Semaphore>(self, bytes)
    }

    fn add(state: &mut State, id: Id, entry: KeyedEntry<SemSet>) -> Result<(), AllocError>
        ensures { OnOk result ((state.new.state, state.new.limits) ≡ with_more (λ s. s.0.semset.entries) put_sets
            (state.old.state, state.old.limits) ((id.0, entry) ∷ [])) }
    {
        state.restore_semset(id, entry)
    }
}

fn read_times(otime: Moment, ctime: Moment)
    ensures { (otime.0 < 2 ^ 64) × (ctime.0 < 2 ^ 64) }
{}
