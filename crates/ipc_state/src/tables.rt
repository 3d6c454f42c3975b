//! The descriptors of the processes, as they come, change and go. See open(2), mq_setattr(3), close(2) and shmdt(2).

ghost use Rattle.std.specs.Prelude.{◌≡◌, ◌<◌, ◌^◌, ◌&&◌, true, false, is_some, length, nat_eq, Some};
ghost use Rattle.ipc_base.specs.Table.{keys_of, without, IsRising};
ghost use Rattle.ipc_state.specs.Descriptors.{lowest_unused, most_descriptors, opened, with_flags};
ghost use Rattle.ipc_state.specs.Held.{left};
ghost use Rattle.ipc_state.specs.Numbered.{entry_of};
ghost use Rattle.ipc_state.specs.Opening.{descriptors_of, with_table};
ghost use Rattle.ipc_state.specs.Sound.{HasSoundParts};
ghost use Rattle.ipc_state.specs.State.{closed, has_all_descriptors, is_process, with_descriptor};
ghost use Rattle.ipc_state.specs.State.{with_descriptor_flags};
ghost use Rattle.ipc_state.specs.Tables.{has_place, numbered_of};
ghost use Rattle.ipc_state.specs.Touching.{closed_on, is_made_by, is_queue, is_segment, registration_of};

use crate::descriptors::Descriptor;
use crate::numbered::Numbered;
use crate::parked::{Awaited, Object, ObjectKind};
use crate::processes::Process;
use crate::state::State;
use ipc_base::Pid;
use ipc_keys::NameKind;

impl State {
    /// Whether a process has as many descriptors as the limit says; no process has none.
    pub fn has_all_descriptors(&self, pid: Pid) -> bool
        ensures { result ≡ has_all_descriptors self.now.limits self.now.state pid.0 }
    {
        self.limits.descriptors as usize <= self.processes.count_descriptors(pid.0)
    }

    /// Opens a descriptor of a process, under the lowest number that it does not use, which it gives. It takes no
    /// memory.
    pub fn open_descriptor(&mut self, pid: Pid, descriptor: Descriptor) -> u32
        requires sound { HasSoundParts self.old.limits self.old.state }
        requires process { is_process self.old.state pid.0 ≡ true }
        requires few { has_all_descriptors self.old.limits self.old.state pid.0 ≡ false }
        ensures state { self.new ≡ record self.old { state = with_descriptor self.old.state pid.0 descriptor } }
        ensures fd { result ≡ lowest_unused (descriptors_of self.old.state.processes.entries pid.0) }
    {
        self.processes.open(pid.0, descriptor)
    }

    /// Replaces the flags of a descriptor; nothing changes if the number is not in use. It takes no memory.
    pub fn set_descriptor_flags(&mut self, pid: Pid, fd: u32, flags: u32)
        ensures { self.new ≡ record self.old { state = with_descriptor_flags self.old.state pid.0 fd flags } }
    {
        self.processes.set_flags(pid.0, fd, flags);
    }

    /// Closes a descriptor of a process, or detaches an attachment. The registration by it goes with it, and the
    /// object, if it does not stay by itself and is no longer open. It takes no memory.
    pub fn close_descriptor(&mut self, pid: Pid, fd: u32)
        ensures { self.new ≡ left self.old (closed self.old.state pid.0 fd) }
    {
        self.detach(pid, fd);
        self.processes.close(pid.0, fd);
        self.deregister(Some(pid.0), Some(fd));
        self.sweep();
    }

    /// The object that a close of a descriptor changes: the segment that it detaches, or the queue with which the
    /// process is registered by it.
    pub fn closed_on(&self, pid: Pid, fd: u32) -> Option<Object>
        ensures { result ≡ closed_on self.now.state pid.0 fd }
    {
        let on = self.object_of(pid, Awaited::Descriptor(fd))?;
        if is_segment(on.kind) || self.is_registered_by(pid, fd, on) {
            Some(on)
        } else {
            None
        }
    }

    /// Whether it is a queue with which the process is registered by this descriptor.
    fn is_registered_by(&self, pid: Pid, fd: u32, on: Object) -> bool
        ensures { result ≡ (is_queue on.kind
            && is_made_by (Some pid.0) (Some fd) (registration_of self.now.state on.number)) }
    {
        let ObjectKind::Named(NameKind::Mq) = on.kind else {
            return false;
        };
        let Some(entry) = self.mq(on.number) else {
            return false;
        };
        match entry.object.registration() {
            Some(registration) => registration.pid == pid && registration.descriptor == fd,
            None => false,
        }
    }
}

/// Whether descriptors that are open on objects of the kind are attachments.
pub fn is_segment(kind: ObjectKind) -> bool
    ensures { result ≡ is_segment kind }
{
    kind == ObjectKind::Shm
}

impl Numbered<Process> {
    /// How many descriptors a process has.
    fn count_descriptors(&self, pid: u32) -> usize
        ensures { result ≡ length (descriptors_of (numbered_of self.now).entries pid) }
    {
        match self.get(pid) {
            Some(item) => item.value.descriptors.len(),
            None => 0,
        }
    }

    /// Opens a descriptor of a process that is there.
    fn open(&mut self, pid: u32, descriptor: Descriptor) -> u32
        requires there { is_some (entry_of (numbered_of self.old) pid) ≡ true }
        requires few { length (descriptors_of (numbered_of self.old).entries pid) < most_descriptors }
        requires rising { IsRising 0 (keys_of (descriptors_of (numbered_of self.old).entries pid)) (2 ^ 32) }
        ensures items { numbered_of self.new ≡ with_table (numbered_of self.old) pid
            (opened (descriptors_of (numbered_of self.old).entries pid) descriptor) }
        ensures place { has_place self.new ≡ has_place self.old }
        ensures fd { result ≡ lowest_unused (descriptors_of (numbered_of self.old).entries pid) }
    {
        self.get_mut(pid).unwrap().descriptors.open(descriptor)
    }

    /// Replaces the flags of a descriptor of a process, if the number is in use.
    fn set_flags(&mut self, pid: u32, fd: u32, flags: u32)
        ensures items { numbered_of self.new ≡ with_table (numbered_of self.old) pid
            (with_flags (descriptors_of (numbered_of self.old).entries pid) fd flags) }
        ensures place { has_place self.new ≡ has_place self.old }
    {
        if let Some(process) = self.get_mut(pid) {
            process.descriptors.set_flags(fd, flags);
        }
    }

    /// Takes out a descriptor of a process, if the number is in use.
    fn close(&mut self, pid: u32, fd: u32)
        ensures items { numbered_of self.new ≡ with_table (numbered_of self.old) pid
            (without nat_eq (descriptors_of (numbered_of self.old).entries pid) fd) }
        ensures place { has_place self.new ≡ has_place self.old }
    {
        if let Some(process) = self.get_mut(pid) {
            process.descriptors.close(fd);
        }
    }
}
