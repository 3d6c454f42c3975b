//! That each number of a state has its place in a field. The type of a number says how large it is
//! at most, and says so once the number is read; so each is read here, and nothing else is done.
//! Messages are not read: a queue says of them what is needed; nor are the requests of calls that wait, which have
//! frames.

ghost use Rattle.std.specs.Prelude.{◌<◌, ◌^◌, All, ⊤, length};
ghost use Rattle.ipc_limits.specs.Limits.{ArePassed};
ghost use Rattle.ipc_base.specs.Numbers.{FitFields};
ghost use Rattle.sem_undo.specs.Undo.{IsKept};
ghost use Rattle.ipc_state.specs.Descriptors.{descriptor_row};
ghost use Rattle.ipc_state.specs.Tables.{item_row};
ghost use Rattle.ipc_state.specs.Waiting.{IsSoundWaiting};
ghost use Rattle.ipc_engine.specs.Sound.{IsSound};
ghost use Rattle.ipc_image.specs.Kind.{FitsIn};
ghost use Rattle.ipc_image.specs.Saved.{clock_sizes, clock_numbers, adjustments_of, HasAllPlaces};
ghost use Rattle.ipc_image.specs.Saved.{FitsAdjustment, FitsDescriptor, FitsProcess, FitsWaiting};

use crate::process::kind_number;
use crate::stored::Stored;
use ipc_state::{Awaited, DescriptorRow, Item, Parked, Process, State};
use ipc_wait::Waiting;
use sem_undo::{SemUndo, UndoRow};

/// What has numbers.
pub(crate) trait Wide {
    /// What is known of a sound one.
    ghost IsSmall: { Self → Type 0 };

    /// Each of its numbers has its place.
    ghost IsWide: { Self → Type 0 };

    /// Reads each of its numbers.
    fn read(&self)
        requires { IsSmall self.now }
        ensures { IsWide self.now };
}

impl Wide for Item<Process> {
    ghost IsSmall = { λ p. length p.value.descriptors < 2 ^ 32 };

    ghost IsWide = { λ p. FitsProcess (item_row p) };

    fn read(&self) {
        let _pid = self.number;
        let _uid = self.value.cred.uid;
        let _gid = self.value.cred.gid;
        read_each(self.value.descriptors.rows());
    }
}

impl Wide for DescriptorRow {
    ghost IsSmall = { λ r. ⊤ };

    ghost IsWide = { λ r. FitsDescriptor (descriptor_row r) };

    fn read(&self) {
        let _fd = self.fd;
        let _kind = kind_number(self.descriptor.on.kind);
        let _number = self.descriptor.on.number;
        let _flags = self.descriptor.flags;
    }
}

impl Wide for Waiting<Awaited, Parked> {
    ghost IsSmall = { IsSoundWaiting };

    ghost IsWide = { FitsWaiting };

    fn read(&self) {
        let _pid = self.pid.0;
    }
}

impl Wide for UndoRow {
    ghost IsSmall = { λ r. IsKept r.adjustment };

    ghost IsWide = { λ r. IsKept r.adjustment × (r.set.0 < 2 ^ 32) × (r.num < 2 ^ 16) };

    fn read(&self) {
        let _set = self.set.0;
        let _num = self.num;
    }
}

impl Wide for Item<SemUndo> {
    ghost IsSmall = { λ u. ⊤ };

    ghost IsWide = { λ u. All FitsAdjustment (adjustments_of (item_row u)) };

    fn read(&self) {
        let _pid = self.number;
        read_each(self.value.rows());
    }
}

impl<T: Stored> Wide for Item<T> {
    ghost IsSmall = { λ i. T.IsSmall i.value };

    ghost IsWide = { λ i. FitsIn T.Fits (item_row i) };

    fn read(&self) {
        let _number = self.number;
        self.value.read_numbers();
    }
}

/// Reads each number of these.
pub(crate) fn read_each<T: Wide>(items: &[T])
    requires { All T.IsSmall items.now }
    ensures { All T.IsWide items.now }
{
    for item in items {
        item.read();
    }
}

/// Reads each number of a state.
pub(crate) fn read_state(state: &State)
    requires passed { ArePassed state.now.limits }
    requires sound { IsSound state.now.limits state.now.state }
    ensures { HasAllPlaces state.now.state }
{
    read_clock(state);
    read_each(state.processes());
    read_each(state.waits());
    read_each(state.adjustments());
    read_each(state.msg_queues());
    read_each(state.semsets());
    read_each(state.mqs());
    read_each(state.psems().items());
    read_each(state.pshms().items());
    read_each(state.shms());
}

fn read_clock(state: &State)
    ensures { FitFields clock_sizes (clock_numbers state.now.state) }
{
    let _clock = state.clock().0;
    let _next_pid = state.next_pid();
    let _next_msg_queue = state.next_msg_queue();
    let _next_semset = state.next_semset();
    let _next_mq = state.next_mq();
    let _next_psem = state.psems().next();
    let _next_pshm = state.pshms().next();
    let _next_shm = state.next_shm();
}
