//! Which names there may be.

ghost use Rattle.std.specs.Prelude.{◌≡◌};
ghost use Rattle.ipc_keys.specs.Names.{begins_with_slash, queue_fault, form_fault, check_name};

use ipc_base::Errno;

/// What a name is for.
#[derive(Clone, Copy, Debug, PartialEq, Eq)]
pub enum NameKind {
    /// A message queue, of mq_overview(7).
    Mq,
    /// A semaphore, of sem_overview(7).
    Psem,
    /// A memory segment, of shm_overview(7).
    Pshm,
}

/// Whether there may be such a name: a slash and then one or more bytes, none of them a slash or 0. The
/// slash counts among its bytes, of which a queue and a segment have at most 255, and a semaphore 251.
///
/// A longer name is ENAMETOOLONG. Of a queue, a name without a slash at its start or with a byte 0 is
/// EINVAL, a slash alone ENOENT, and one with a second slash EACCES; of the others each is EINVAL.
pub fn check_name(kind: NameKind, name: &[u8]) -> Result<(), Errno>
    ensures { result ≡ check_name kind name.now }
{
    let (fault, most) = match kind {
        NameKind::Mq => (queue_fault(name), 255),
        NameKind::Psem => (form_fault(name), 251),
        NameKind::Pshm => (form_fault(name), 255),
    };
    match fault {
        Some(errno) => Err(errno),
        None if name.len() > most => Err(Errno::ENAMETOOLONG),
        None => Ok(()),
    }
}

/// What is wrong with the form of a queue's name.
fn queue_fault(name: &[u8]) -> Option<Errno>
    ensures { result ≡ queue_fault name.now }
{
    if !begins_with_slash(name) || name.contains(&0) {
        Some(Errno::EINVAL)
    } else if name.len() == 1 {
        Some(Errno::ENOENT)
    } else if name[1..].contains(&b'/') {
        Some(Errno::EACCES)
    } else {
        None
    }
}

/// What is wrong with the form of the name of a semaphore or a segment.
fn form_fault(name: &[u8]) -> Option<Errno>
    ensures { result ≡ form_fault name.now }
{
    let has_form = begins_with_slash(name)
        && name.len() > 1
        && !name.contains(&0)
        && !name[1..].contains(&b'/');
    if has_form { None } else { Some(Errno::EINVAL) }
}

/// Whether the first byte is a slash.
fn begins_with_slash(name: &[u8]) -> bool
    ensures { result ≡ begins_with_slash name.now }
{
    !name.is_empty() && name[0] == b'/'
}
