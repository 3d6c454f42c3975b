//! The calls on POSIX message queues: mq_open(3), mq_unlink(3), mq_notify(3), mq_getattr(3), mq_setattr(3), and
//! close(2). None takes memory in its attempt.

ghost use Rattle.std.specs.Prelude.{◌≡◌, ◌+◌, ◌≤◌, ◌++◌, Some, None, true, is_some, length};
ghost use Rattle.std.specs.Prelude.{vec_len, vec_capacity, IfOk, OnOk};
ghost use Rattle.ipc_limits.specs.Limits.{ArePassed};
ghost use Rattle.ipc_base.specs.Numbers.{record_bytes};
ghost use Rattle.ipc_keys.specs.declared.check.NameKind.TheVariants as names;
ghost use Rattle.ipc_state.specs.Finish.{Finishes, ended, finish_of};
ghost use Rattle.ipc_state.specs.Held.{Ready, left};
ghost use Rattle.ipc_state.specs.Named.{named};
ghost use Rattle.ipc_state.specs.Numbered.{entry_of};
ghost use Rattle.ipc_state.specs.Sound.{HasSoundParts};
ghost use Rattle.ipc_state.specs.State.{with_mq};
ghost use Rattle.ipc_state.specs.Touching.{mq_object};
ghost use Rattle.posix_mq.specs.Queue.{Queue, registered};
ghost use Rattle.posix_calls.specs.Mq as defined;
ghost use Rattle.posix_calls.specs.Open as opening;
ghost use Rattle.posix_calls.specs.Registrations.{registrations};
ghost use Rattle.posix_calls.specs.Seen.{found_of, plain_found};
ghost use Rattle.ipc_state.specs.Spare.{IsSpare, KeepsBuffer};

use crate::access::{described, unlinkable};
use ipc_base::{Cred, Errno, Field, OpenFlags, Pid};
use ipc_keys::{NameKind, check_name};
use ipc_state::{Answer, Object, ObjectKind, State, is_segment, take_spare};
use ipc_wire::{Body, push_fields};
use posix_mq::{Mq, Registration};

/// What a descriptor finds: the number of its queue, the queue, and its flags.
#[derive(Clone, Copy)]
pub(crate) struct Found<'a> {
    pub(crate) number: u32,
    pub(crate) queue: &'a Mq,
    pub(crate) flags: OpenFlags,
}

/// The queue on which a descriptor of the process is open.
pub(crate) fn open_mq(state: &State, pid: Pid, fd: u32) -> Result<Found<'_>, Errno>
    ensures found { found_of result ≡ defined.open_mq state.now.state pid.0 fd }
    ensures queue { IfOk result (λ found. mq_object state.now.state found.number ≡ Some found.queue.now) }
    ensures there { IfOk result (λ found. is_some (entry_of state.now.state.mq found.number) ≡ true) }
    ensures passed { OnOk result (ArePassed state.now.limits) }
{
    let descriptor = described(state, pid, fd)?;
    let Object {
        kind: ObjectKind::Named(NameKind::Mq),
        number,
    } = descriptor.on
    else {
        return Err(Errno::EBADF);
    };
    let Some(entry) = state.mq(number) else {
        return Err(Errno::EBADF);
    };
    Ok(Found {
        number,
        queue: &entry.object,
        flags: OpenFlags(descriptor.flags),
    })
}

/// close(2), and so mq_close(3). An attachment is detached by shmdt(2) alone.
pub(crate) fn close(state: &mut State, pid: Pid, fd: u32) -> Answer
    ensures finish { Finishes (finish_of state.new.state result)
        ≡ ended state.old.state (defined.close state.old.state pid.0 fd) }
    ensures held { state.old.ready ≡ Ready.Nothing → state.new ≡ left state.old state.new.state }
{
    if is_segment(described(state, pid, fd)?.on.kind) {
        return Err(Errno::EBADF);
    }
    state.close_descriptor(pid, fd);
    Ok(Body::Empty)
}

/// Adds what mq_getattr(3) tells to a body that has room for it.
fn push_attr(body: &mut Vec<u8>, found: &Found<'_>)
    requires room { vec_len body.old + 16 ≤ vec_capacity body.old }
    requires count { length found.now.queue.now.messages ≤ found.now.queue.now.maxmsg }
    ensures bytes { body.new.items ≡ body.old.items ++ record_bytes (defined.attr_fields (plain_found found.now)) }
    ensures room { vec_capacity body.old ≤ vec_capacity body.new }
{
    let attr = found.queue.attr();
    push_fields(
        body,
        &[
            Field::U32(found.flags.0 & OpenFlags::O_NONBLOCK.0),
            Field::U32(attr.maxmsg),
            Field::U32(attr.msgsize),
            Field::U32(attr.curmsgs as u32),
        ],
    );
}

/// mq_getattr(3); the record is made in the spare buffer.
pub(crate) fn mq_getattr(state: &State, pid: Pid, fd: u32, spare: &mut Vec<u8>) -> Answer
    requires sound { HasSoundParts state.now.limits state.now.state }
    requires spare { IsSpare state.now.limits spare.old }
    ensures finish { Finishes (finish_of state.now.state result)
        ≡ ended state.now.state (defined.mq_getattr state.now.state pid.0 fd) }
    ensures spare { KeepsBuffer state.now.limits spare.new result }
{
    let found = open_mq(state, pid, fd)?;
    let mut body = take_spare(spare);
    push_attr(&mut body, &found);
    Ok(Body::Record(body))
}

/// mq_setattr(3): O_NONBLOCK alone may be changed. The record, made in the spare buffer, tells what was before.
pub(crate) fn mq_setattr(
    state: &mut State,
    pid: Pid,
    fd: u32,
    flags: OpenFlags,
    spare: &mut Vec<u8>,
) -> Answer
    requires sound { HasSoundParts state.old.limits state.old.state }
    requires spare { IsSpare state.old.limits spare.old }
    ensures finish { Finishes (finish_of state.new.state result)
        ≡ ended state.old.state (defined.mq_setattr state.old.state pid.0 fd flags.0) }
    ensures held { state.new ≡ record state.old { state = state.new.state } }
    ensures spare { KeepsBuffer state.old.limits spare.new result }
{
    let found = open_mq(state, pid, fd)?;
    if flags.0 & OpenFlags::O_NONBLOCK.0 != flags.0 {
        return Err(Errno::EINVAL);
    }
    let mut body = take_spare(spare);
    push_attr(&mut body, &found);
    let access = found.flags.access_mode();
    state.set_descriptor_flags(pid, fd, access + flags.0);
    Ok(Body::Record(body))
}

/// Whether the process has registered.
fn is_own(pid: Pid, registration: Option<Registration>) -> bool
    ensures { result ≡ defined.is_own pid.0 registration }
{
    match registration {
        Some(registration) => registration.pid == pid,
        None => false,
    }
}

/// With how many queues a process is registered. See mq_notify(3).
pub fn registrations(state: &State, pid: Pid) -> usize
    ensures { result ≡ registrations state.now.state pid.0 }
{
    let mut count = 0;
    for item in state.mqs() {
        let is_one = is_own(pid, item.value.object.registration());
        count += usize::from(is_one);
    }
    count
}

/// Takes away the registration of the process, if it has one.
fn give_up(queue: &mut Mq, pid: Pid)
    ensures { queue.new ≡ defined.given_up pid.0 queue.old }
{
    if is_own(pid, queue.registration()) {
        queue.deregister();
    }
}

/// Takes away the registration of the process with a queue that is there, if it has one.
fn unregister(state: &mut State, pid: Pid, number: u32)
    requires { is_some (entry_of state.old.state.mq number) ≡ true }
    ensures { (q : Queue) → mq_object state.old.state number ≡ Some q
        → state.new ≡ record state.old { state = with_mq state.old.state number (defined.given_up pid.0 q) } }
{
    give_up(state.mq_object_mut(number).unwrap(), pid);
}

/// Registers with a queue that is there and has no registration.
fn register(state: &mut State, number: u32, registration: Registration)
    requires there { is_some (entry_of state.old.state.mq number) ≡ true }
    requires free { (q : Queue) → mq_object state.old.state number ≡ Some q → q.registration ≡ None }
    ensures { (q : Queue) → mq_object state.old.state number ≡ Some q
        → state.new ≡ record state.old { state = with_mq state.old.state number (registered q registration) } }
{
    state.mq_object_mut(number).unwrap().register(registration);
}

/// Who is told from now on: a kind of 1 sends nothing, and its cookie is 0.
fn registration(pid: Pid, fd: u32, kind: u32, cookie: u32) -> Registration
    ensures { result ≡ defined.registration pid.0 fd kind cookie }
{
    let sends = kind == 2;
    Registration {
        pid,
        descriptor: fd,
        sends,
        cookie: if sends { cookie } else { 0 },
    }
}

/// mq_notify(3).
pub(crate) fn mq_notify(state: &mut State, pid: Pid, fd: u32, kind: u32, cookie: u32) -> Answer
    ensures finish { Finishes (finish_of state.new.state result)
        ≡ ended state.old.state (defined.mq_notify state.old.state pid.0 fd kind cookie) }
    ensures held { state.new ≡ record state.old { state = state.new.state } }
{
    if kind > 2 {
        return Err(Errno::EINVAL);
    }
    let found = open_mq(state, pid, fd)?;
    let number = found.number;
    if kind == 0 {
        unregister(state, pid, number);
        return Ok(Body::Empty);
    }
    if found.queue.registration().is_some() {
        return Err(Errno::EBUSY);
    }
    register(state, number, registration(pid, fd, kind, cookie));
    Ok(Body::Empty)
}

/// mq_unlink(3).
pub(crate) fn mq_unlink(state: &mut State, cred: Cred, name: &[u8]) -> Answer
    requires sound { HasSoundParts state.old.limits state.old.state }
    ensures finish { Finishes (finish_of state.new.state result)
        ≡ ended state.old.state (opening.unlink names.Mq state.old.state cred name.now) }
    ensures held { state.old.ready ≡ Ready.Nothing → state.new ≡ left state.old state.new.state }
{
    check_name(NameKind::Mq, name)?;
    let number = unlinkable(state.named_mqs(), cred, name)?;
    state.unlink_mq(number);
    Ok(Body::Empty)
}
