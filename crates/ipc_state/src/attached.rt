//! Attachments: how segments are detached, and how many descriptors are open on one. See shmop(2).

ghost use Rattle.std.specs.Prelude.{◌≡◌, ◌<◌, ◌^◌, map, count_by};
ghost use Rattle.ipc_state.specs.declared.parked.ObjectKind.TheVariants as kinds;
ghost use Rattle.ipc_state.specs.Attached.{detached_all, detached_by, detached_each, detached_on, shown_mode};
ghost use Rattle.ipc_state.specs.Descriptors.{descriptor_row};
ghost use Rattle.ipc_state.specs.Opening.{descriptor_at, descriptors_of, is_on, object_as, open_count};
ghost use Rattle.ipc_state.specs.Sound.{HasSoundParts};
ghost use Rattle.ipc_state.specs.Tables.{item_row};

use crate::descriptors::DescriptorRow;
use crate::holding::is_on;
use crate::numbered::Item;
use crate::objects::Keyed;
use crate::parked::{Object, ObjectKind};
use crate::processes::Process;
use crate::state::State;
use ipc_base::{Id, Moment, Pid};
use shm_segment::SysSegment;

impl State {
    /// The segment is detached on which a descriptor of a process is open, if it is open on one.
    pub(crate) fn detach(&mut self, pid: Pid, fd: u32)
        ensures { self.new ≡ record self.old {
          state = record self.old.state {
            shm = detached_by self.old.state.clock pid.0 self.old.state.shm
                (descriptor_at self.old.state.processes.entries pid.0 fd);
          };
        } }
    {
        if let Some(descriptor) = self.descriptor(pid, fd) {
            detach_on(&mut self.shm, self.clock, pid, descriptor.on);
        }
    }

    /// The segments are detached that a process has attached.
    pub(crate) fn detach_all(&mut self, pid: Pid)
        ensures { self.new ≡ record self.old {
          state = record self.old.state {
            shm = detached_all self.old.state.clock pid.0 self.old.state.shm
                (descriptors_of self.old.state.processes.entries pid.0);
          };
        } }
    {
        if let Some(process) = self.processes.get(pid.0) {
            detach_rows(
                &mut self.shm,
                self.clock,
                pid,
                process.value.descriptors.rows(),
            );
        }
    }

    /// The segments are detached that any process has attached.
    pub(crate) fn detach_each(&mut self)
        ensures { self.new ≡ record self.old {
          state = record self.old.state {
            shm = detached_each self.old.state.clock self.old.state.shm self.old.state.processes.entries;
          };
        } }
    {
        detach_processes(&mut self.shm, self.clock, self.processes.items());
    }

    /// How many descriptors of all processes are open on a segment.
    pub fn attachments(&self, id: Id) -> usize
        requires { HasSoundParts self.now.limits self.now.state }
        ensures count { result ≡ open_count self.now.state.processes.entries (object_as kinds.Shm id.0) }
        ensures few { result < 2 ^ 32 }
    {
        let this = Object {
            kind: ObjectKind::Shm,
            number: id.0,
        };
        count_open(self.processes.items(), this)
    }
}

/// The bit of a mode that shows that a segment is marked: it is destroyed when nobody has it attached. See shmctl(2).
const SHM_DEST: u32 = 0o1000;

/// A mode as shmctl(2) shows it, with that bit if the segment is marked.
pub fn shown_mode(mode: u32, is_marked: bool) -> u32
    ensures { result ≡ shown_mode mode is_marked }
{
    if is_marked { mode | SHM_DEST } else { mode }
}

/// How many descriptors of these processes are open on it.
fn count_open(processes: &[Item<Process>], this: Object) -> usize
    requires { open_count (map item_row processes.now) this < 2 ^ 32 }
    ensures { result ≡ open_count (map item_row processes.now) this }
{
    processes
        .iter()
        .map(|item| count_on(item.value.descriptors.rows(), this))
        .sum()
}

/// How many of these are open on it.
fn count_on(rows: &[DescriptorRow], this: Object) -> usize
    ensures { result ≡ count_by (λ d. is_on this d.1.on) (map descriptor_row rows.now) }
{
    rows.iter()
        .filter(|row| is_on(this, row.descriptor.on))
        .count()
}

/// The segments are detached that these processes have attached.
fn detach_processes(segments: &mut Keyed<SysSegment>, now: Moment, processes: &[Item<Process>])
    ensures { segments.new ≡ record segments.old {
      objects = detached_each now.0 segments.old.objects (map item_row processes.now);
    } }
{
    for item in processes {
        detach_rows(
            segments,
            now,
            Pid(item.number),
            item.value.descriptors.rows(),
        );
    }
}

/// The segments are detached on which these descriptors of a process are open.
fn detach_rows(segments: &mut Keyed<SysSegment>, now: Moment, pid: Pid, rows: &[DescriptorRow])
    ensures { segments.new ≡ record segments.old {
      objects = detached_all now.0 pid.0 segments.old.objects (map descriptor_row rows.now);
    } }
{
    for row in rows {
        detach_on(segments, now, pid, row.descriptor.on);
    }
}

/// A process has detached this object, if it is a segment that is there.
fn detach_on(segments: &mut Keyed<SysSegment>, now: Moment, pid: Pid, on: Object)
    ensures { segments.new
        ≡ record segments.old { objects = detached_on now.0 pid.0 segments.old.objects on } }
{
    let Object {
        kind: ObjectKind::Shm,
        number,
    } = on
    else {
        return;
    };
    if let Some(segment) = segments.get_mut(number) {
        segment.detach(pid, now);
    }
}
