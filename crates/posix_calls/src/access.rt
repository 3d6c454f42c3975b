//! What is alike for the named objects of every kind: the flags of open(2), which object a name finds, who may use it,
//! and descriptors. See mq_overview(7), sem_overview(7) and shm_overview(7).

ghost use Rattle.std.specs.Prelude.{◌≡◌, true, false, is_some, Some, None, IfOk};
ghost use Rattle.ipc_state.specs.Directory.{ArePositive};
ghost use Rattle.ipc_state.specs.Named.{named};
ghost use Rattle.ipc_state.specs.Numbered.{entry_of};
ghost use Rattle.ipc_state.specs.Sound.{HasSoundParts};
ghost use Rattle.ipc_state.specs.State.{has_all_descriptors, is_process};
ghost use Rattle.ipc_state.specs.Steps.{result_of};
ghost use Rattle.posix_calls.specs.Open as defined;
ghost use Rattle.posix_calls.specs.Seen.{lent_of, opened_of};

use bitflags::Flags;
use ipc_base::{Cred, Errno, OpenFlags, Pid};
use ipc_perm::{Access, Perm, may};
use ipc_state::{Descriptor, Named, NamedEntry, Object, State};

/// Whether a descriptor with these flags is open to read.
pub(crate) fn reads(flags: OpenFlags) -> bool
    ensures { result ≡ defined.reads flags.0 }
{
    flags.access_mode() != 1
}

/// Whether a descriptor with these flags is open to write.
pub(crate) fn writes(flags: OpenFlags) -> bool
    ensures { result ≡ defined.writes flags.0 }
{
    flags.access_mode() != 0
}

/// What an open asks of an object that is there.
pub(crate) fn asked_by(flags: OpenFlags) -> Access
    ensures { result.0 ≡ defined.asked_by flags.0 }
{
    match flags.access_mode() {
        0 => Access::READ,
        1 => Access::WRITE,
        _ => Access(Access::READ.0 + Access::WRITE.0),
    }
}

/// Whether an open wants a new object alone.
fn is_exclusive(flags: OpenFlags) -> bool
    ensures { result ≡ defined.is_exclusive flags.0 }
{
    flags.contains(OpenFlags::O_CREAT) && flags.contains(OpenFlags::O_EXCL)
}

/// Whether a caller may unlink an object: its owner, or uid 0.
fn may_unlink(cred: Cred, perm: &Perm) -> bool
    ensures { result ≡ defined.may_unlink cred perm.now }
{
    cred.uid == perm.uid || cred.uid == 0
}

/// The object that an open finds by its name; none, if it may make one.
pub(crate) fn lookup<T>(
    objects: &Named<T>,
    name: &[u8],
    flags: OpenFlags,
) -> Result<Option<u32>, Errno>
    requires { ArePositive objects.now.objects.entries }
    ensures found { result_of result ≡ defined.sought objects.now.objects name.now flags.0 }
    ensures unused { IfOk result (λ found. found ≡ None → named objects.now.objects name.now ≡ None) }
{
    let Some(number) = objects.of_name(name) else {
        if !flags.contains(OpenFlags::O_CREAT) {
            return Err(Errno::ENOENT);
        }
        return Ok(None);
    };
    if is_exclusive(flags) {
        return Err(Errno::EEXIST);
    }
    Ok(Some(number))
}

/// Refuses a caller that may not use the object of a number as is asked.
pub(crate) fn usable<'a, T>(
    objects: &'a Named<T>,
    cred: Cred,
    number: u32,
    asked: Access,
) -> Result<&'a NamedEntry<T>, Errno>
    ensures entry { lent_of result ≡ defined.usable objects.now.objects cred number asked.0 }
    ensures there { IfOk result (λ entry. entry_of objects.now.objects number ≡ Some entry.now) }
{
    let Some(entry) = objects.get(number) else {
        return Err(Errno::ENOENT);
    };
    if !may(&cred, &entry.perm, asked) {
        return Err(Errno::EACCES);
    }
    Ok(entry)
}

/// The object that a name names, for a caller that may unlink it.
pub(crate) fn unlinkable<T>(objects: &Named<T>, cred: Cred, name: &[u8]) -> Result<u32, Errno>
    requires { ArePositive objects.now.objects.entries }
    ensures number { result_of result ≡ defined.unlinkable objects.now.objects cred name.now }
    ensures there { IfOk result (λ number. is_some (entry_of objects.now.objects number) ≡ true) }
{
    let Some(number) = objects.of_name(name) else {
        return Err(Errno::ENOENT);
    };
    let Some(entry) = objects.get(number) else {
        return Err(Errno::ENOENT);
    };
    if !may_unlink(cred, &entry.perm) {
        return Err(Errno::EACCES);
    }
    Ok(number)
}

/// What a descriptor of the process is, or the refusal.
pub(crate) fn described_or(
    refusal: Errno,
    state: &State,
    pid: Pid,
    fd: u32,
) -> Result<Descriptor, Errno>
    ensures { result_of result ≡ defined.described_or refusal state.now.state pid.0 fd }
{
    match state.descriptor(pid, fd) {
        Some(descriptor) => Ok(descriptor),
        None => Err(refusal),
    }
}

/// What a descriptor of the process is.
pub(crate) fn described(state: &State, pid: Pid, fd: u32) -> Result<Descriptor, Errno>
    ensures { result_of result ≡ defined.described state.now.state pid.0 fd }
{
    described_or(Errno::EBADF, state, pid, fd)
}

/// Opens a descriptor on an object, and gives its number.
pub(crate) fn open_on(state: &mut State, pid: Pid, on: Object, flags: u32) -> u32
    requires sound { HasSoundParts state.old.limits state.old.state }
    requires process { is_process state.old.state pid.0 ≡ true }
    requires few { has_all_descriptors state.old.limits state.old.state pid.0 ≡ false }
    ensures opens { opened_of state.new.state result ≡ defined.opens state.old.state pid.0 flags on }
    ensures held { state.new ≡ record state.old { state = state.new.state } }
{
    state.open_descriptor(pid, Descriptor { on, flags })
}
