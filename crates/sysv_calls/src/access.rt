//! What is alike for the objects of every kind: which of them a get finds, who may use them, and their records. See
//! sysvipc(7).

ghost use Rattle.std.specs.Prelude.{◌≡◌, ◌+◌, ◌≤◌, ◌++◌, vec_len, vec_capacity};
ghost use Rattle.ipc_base.specs.Numbers.{record_bytes};
ghost use Rattle.ipc_state.specs.Directory.{ArePositive};
ghost use Rattle.sysv_calls.specs.Access as defined;
ghost use Rattle.sysv_calls.specs.Records.{perm_fields};
ghost use Rattle.sysv_calls.specs.Seen.{attempt_of, sought_of};

use bitflags::Flags;
use ipc_base::{Cred, Errno, Field, GetFlags, Id};
use ipc_perm::{Access, may, owns};
use ipc_state::{IPC_PRIVATE, Keyed, KeyedEntry};
use ipc_wire::push_fields;

/// What an identifier has, for a caller that may use it so; `again` for a call that waited.
pub(crate) fn accessible<T>(
    objects: &Keyed<T>,
    cred: Cred,
    again: bool,
    id: Id,
    access: Access,
) -> Result<&KeyedEntry<T>, Errno>
    ensures { attempt_of result ≡ defined.accessible again objects.now.objects cred id.0 access.0 }
{
    let Some(entry) = objects.get(id.0) else {
        return Err(gone(again));
    };
    if !may(&cred, &entry.perm, access) {
        return Err(Errno::EACCES);
    }
    Ok(entry)
}

/// Why an identifier has nothing: it is not valid, or its object was removed while the call waited.
pub(crate) fn gone(again: bool) -> Errno
    ensures { result ≡ defined.gone again }
{
    if again { Errno::EIDRM } else { Errno::EINVAL }
}

/// What an identifier has, for a caller that may change it by IPC_SET and remove it.
pub(crate) fn owned<T>(objects: &Keyed<T>, cred: Cred, id: Id) -> Result<&KeyedEntry<T>, Errno>
    ensures { attempt_of result ≡ defined.owned objects.now.objects cred id.0 }
{
    let Some(entry) = objects.get(id.0) else {
        return Err(Errno::EINVAL);
    };
    if !owns(&cred, &entry.perm) {
        return Err(Errno::EPERM);
    }
    Ok(entry)
}

/// The object that a get finds by its key; none, if it may make one.
pub(crate) fn lookup<T>(objects: &Keyed<T>, key: i32, flags: GetFlags) -> Result<Option<Id>, Errno>
    requires { ArePositive objects.now.objects.entries }
    ensures { sought_of result ≡ defined.sought objects.now.objects key flags.0 }
{
    let Some(id) = objects.of_key(key) else {
        if !may_make(key, flags) {
            return Err(Errno::ENOENT);
        }
        return Ok(None);
    };
    if is_exclusive(flags) {
        return Err(Errno::EEXIST);
    }
    Ok(Some(id))
}

/// Whether a get wants a new object alone.
fn is_exclusive(flags: GetFlags) -> bool
    ensures { result ≡ defined.is_exclusive flags.0 }
{
    flags.contains(GetFlags::IPC_CREAT) && flags.contains(GetFlags::IPC_EXCL)
}

/// Whether a get may make an object.
fn may_make(key: i32, flags: GetFlags) -> bool
    ensures { result ≡ defined.may_make key flags.0 }
{
    key == IPC_PRIVATE || flags.contains(GetFlags::IPC_CREAT)
}

/// Adds what is alike for the records of every kind to a body that has room for it.
pub(crate) fn push_perm<T>(body: &mut Vec<u8>, entry: &KeyedEntry<T>, mode: u32)
    requires { vec_len body.old + 24 ≤ vec_capacity body.old }
    ensures bytes { body.new.items ≡ body.old.items ++ record_bytes (perm_fields entry.now mode) }
    ensures room { vec_capacity body.old ≤ vec_capacity body.new }
{
    let perm = &entry.perm;
    push_fields(
        body,
        &[
            Field::I32(entry.bound),
            Field::U32(perm.uid),
            Field::U32(perm.gid),
            Field::U32(perm.cuid),
            Field::U32(perm.cgid),
            Field::U32(mode),
        ],
    );
}
