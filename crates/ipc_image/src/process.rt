//! A process in the object of processes, with its descriptors.

ghost use Rattle.std.specs.Prelude.{◌≡◌, ◌≢◌, ◌<◌, ℕ, refl, IfSome, IfNone};
ghost use Rattle.ipc_limits.specs.declared.limits.Limits.{Limits};
ghost use Rattle.ipc_state.specs.declared.descriptors.Descriptor.{Descriptor as PlainDescriptor};
ghost use Rattle.ipc_state.specs.declared.parked.ObjectKind.{ObjectKind as PlainKind};
ghost use Rattle.ipc_state.specs.declared.processes.Process.{Process as PlainProcess};
ghost use Rattle.ipc_state.specs.Descriptors.{Table, descriptor_row};
ghost use Rattle.ipc_state.specs.State.{State as PlainState};
ghost use Rattle.ipc_state.specs.Tables.{item_row};
ghost use Rattle.ipc_image.specs.Saved.{descriptor_shape, descriptor_numbers, FitsDescriptor};
ghost use Rattle.ipc_image.specs.Saved.{kind_number};
ghost use Rattle.ipc_image.specs.Saved.{process_shape, process_tree, FitsProcess};
ghost use Rattle.ipc_image.specs.SavedParts.{put_processes};
ghost use Rattle.ipc_image.specs.Relations.Trees.{descriptor_one, process_one};

use crate::fields::{FOUR, put_fields};
use crate::saved::{InSlice, Saved, put_from, take_list};
use crate::window::Window;
use ipc_base::{Cred, Field, Pid, take_fields};
use ipc_engine::StateFault;
use ipc_keys::NameKind;
use ipc_state::{Descriptor, DescriptorRow, Descriptors, Item, Object, ObjectKind, Process, State};

/// The kinds of objects: a message queue and a semaphore set of System V, a POSIX queue, a named semaphore, a segment
/// with a name, and one of System V.
const MSG_QUEUE: u32 = 1;

const SEMSET: u32 = 2;

const QUEUE: u32 = 3;

const SEMAPHORE: u32 = 4;

const SEGMENT: u32 = 5;

const SYS_SEGMENT: u32 = 6;

impl Saved for DescriptorRow {
    type Into = Descriptors;

    ghost Plain = { ℕ × PlainDescriptor };

    ghost plain = { descriptor_row };

    ghost shape = { descriptor_shape };

    ghost tree = { descriptor_numbers };

    ghost Fits = { FitsDescriptor };

    ghost Seen = { Table };

    ghost seen = { λ t. t };

    ghost items = { λ t. t };

    ghost put = { λ before t. t };

    ghost place = { record { same = λ t. refl; found = λ t ds. refl; again = λ t ds es. refl } };

    ghost known = { λ d fit. fit };

    ghost one = { descriptor_one };

    fn len(&self) -> u64 {
        16
    }

    fn put(&self, window: &mut Window) {
        let descriptor = self.descriptor;
        put_fields(
            window,
            &[
                Field::U32(self.fd),
                Field::U32(kind_number(descriptor.on.kind)),
                Field::U32(descriptor.on.number),
                Field::U32(descriptor.flags),
            ],
        );
    }

    fn take<'b>(into: &mut Descriptors, bytes: &'b [u8]) -> Result<&'b [u8], StateFault> {
        let (numbers, rest) = take_fields(bytes, &[FOUR, FOUR, FOUR, FOUR]).ok_or(
            StateFault::Unsound,
        )?;
        let Some(kind) = kind_of(numbers[1] as u32) else {
            return Err(StateFault::Unsound);
        };
        let number = numbers[2] as u32;
        let descriptor = Descriptor {
            on: Object { kind, number },
            flags: numbers[3] as u32,
        };
        into.restore(numbers[0] as u32, descriptor)?;
        Ok(rest)
    }
}

/// The number of a kind of objects.
pub(crate) fn kind_number(kind: ObjectKind) -> u32
    ensures { result ≡ kind_number kind }
{
    match kind {
        ObjectKind::MsgQueue => MSG_QUEUE,
        ObjectKind::Semset => SEMSET,
        ObjectKind::Named(NameKind::Mq) => QUEUE,
        ObjectKind::Named(NameKind::Psem) => SEMAPHORE,
        ObjectKind::Named(NameKind::Pshm) => SEGMENT,
        ObjectKind::Shm => SYS_SEGMENT,
    }
}

// The kind of a number, if it is one of a kind.
fn kind_of(number: u32) -> Option<ObjectKind>
    ensures some { IfSome result (λ kind. number ≡ kind_number kind) }
    ensures none { IfNone result ((kind : PlainKind) → number ≢ kind_number kind) }
{
    match number {
        MSG_QUEUE => Some(ObjectKind::MsgQueue),
        SEMSET => Some(ObjectKind::Semset),
        QUEUE => Some(ObjectKind::Named(NameKind::Mq)),
        SEMAPHORE => Some(ObjectKind::Named(NameKind::Psem)),
        SEGMENT => Some(ObjectKind::Named(NameKind::Pshm)),
        SYS_SEGMENT => Some(ObjectKind::Shm),
        _ => None,
    }
}

impl Saved for Item<Process> {
    type Into = State;

    ghost Plain = { ℕ × PlainProcess };

    ghost plain = { item_row };

    ghost shape = { process_shape };

    ghost tree = { process_tree };

    ghost Fits = { FitsProcess };

    ghost Seen = { PlainState × Limits };

    ghost seen = { λ s. (s.state, s.limits) };

    ghost items = { λ s. s.0.processes.entries };

    ghost put = { put_processes };

    ghost place = { record { same = λ s. refl; found = λ s xs. refl; again = λ s xs ys. refl } };

    ghost known = { λ p fit. fit.0 };

    ghost one = { process_one };

    fn len(&self) -> u64 {
        16 + 16 * self.value.descriptors.len() as u64
    }

    fn put(&self, window: &mut Window) {
        let rows = self.value.descriptors.rows();
        put_fields(
            window,
            &[
                Field::U32(self.number),
                Field::U32(self.value.cred.uid),
                Field::U32(self.value.cred.gid),
                Field::U32(rows.len() as u32),
            ],
        );
        put_from(window, &InSlice(rows), 0);
    }

    fn take<'b>(into: &mut State, bytes: &'b [u8]) -> Result<&'b [u8], StateFault> {
        let (numbers, after) = take_fields(bytes, &[FOUR, FOUR, FOUR, FOUR]).ok_or(
            StateFault::Unsound,
        )?;
        let mut descriptors = Descriptors::new(into.allocator())?;
        let rest = take_list::<DescriptorRow>(&mut descriptors, numbers[3] as u32, after)?;
        let cred = Cred {
            uid: numbers[1] as u32,
            gid: numbers[2] as u32,
        };
        into.restore_process(Pid(numbers[0] as u32), Process { cred, descriptors })?;
        Ok(rest)
    }
}
