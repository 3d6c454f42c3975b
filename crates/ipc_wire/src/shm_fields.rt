//! What each request on System V segments asks, read from its fields.

ghost use Rattle.std.specs.Prelude.{◌≡◌, option_map};
ghost use Rattle.ipc_wire.specs.Request.{plain_kind};
ghost use Rattle.ipc_wire.specs.Stream.{made_by};
ghost use Rattle.ipc_wire.specs.Table as table;

use crate::fields::{read_number, read_two_numbers};
use crate::request::{RequestKind, SysvCall};
use ipc_base::{Cursor, GetFlags, Id, ShmFlags};

#[tactic(auto, unfolding(ipc_base::specs::Numbers::number_in))]
pub(crate) fn read_shmget(fields: &[u8]) -> Option<RequestKind<'_>>
    ensures { option_map plain_kind result ≡ made_by table.shmget fields.now }
{
    let mut cursor = Cursor::new(fields);
    let key = cursor.i32()?;
    let size = cursor.u64()?;
    let flags = GetFlags(cursor.u32()?);
    if !cursor.is_empty() {
        return None;
    }
    Some(RequestKind::Sysv(SysvCall::Shmget { key, size, flags }))
}

pub(crate) fn read_shmat(fields: &[u8]) -> Option<RequestKind<'_>>
    ensures { option_map plain_kind result ≡ made_by table.shmat fields.now }
{
    let (id, flags) = read_two_numbers(fields)?;
    let id = Id(id);
    let flags = ShmFlags(flags);
    Some(RequestKind::Sysv(SysvCall::Shmat { id, flags }))
}

pub(crate) fn read_shmdt(fields: &[u8]) -> Option<RequestKind<'_>>
    ensures { option_map plain_kind result ≡ made_by table.shmdt fields.now }
{
    let attachment = read_number(fields)?;
    Some(RequestKind::Sysv(SysvCall::Shmdt { attachment }))
}

pub(crate) fn read_shmctl_stat(fields: &[u8]) -> Option<RequestKind<'_>>
    ensures { option_map plain_kind result ≡ made_by table.shmctl_stat fields.now }
{
    let id = Id(read_number(fields)?);
    Some(RequestKind::Sysv(SysvCall::ShmctlStat { id }))
}

#[tactic(auto, unfolding(ipc_base::specs::Numbers::number_in))]
pub(crate) fn read_shmctl_set(fields: &[u8]) -> Option<RequestKind<'_>>
    ensures { option_map plain_kind result ≡ made_by table.shmctl_set fields.now }
{
    let mut cursor = Cursor::new(fields);
    let id = Id(cursor.u32()?);
    let uid = cursor.u32()?;
    let gid = cursor.u32()?;
    let mode = cursor.u32()?;
    if !cursor.is_empty() {
        return None;
    }
    Some(RequestKind::Sysv(SysvCall::ShmctlSet { id, uid, gid, mode }))
}

pub(crate) fn read_shmctl_rmid(fields: &[u8]) -> Option<RequestKind<'_>>
    ensures { option_map plain_kind result ≡ made_by table.shmctl_rmid fields.now }
{
    let id = Id(read_number(fields)?);
    Some(RequestKind::Sysv(SysvCall::ShmctlRmid { id }))
}

#[tactic(auto, unfolding(ipc_base::specs::Numbers::number_in))]
pub(crate) fn read_attached_read(fields: &[u8]) -> Option<RequestKind<'_>>
    ensures { option_map plain_kind result ≡ made_by table.attached_read fields.now }
{
    let mut cursor = Cursor::new(fields);
    let attachment = cursor.u32()?;
    let offset = cursor.u64()?;
    let length = cursor.u32()?;
    if !cursor.is_empty() {
        return None;
    }
    Some(RequestKind::Sysv(SysvCall::AttachedRead {
        attachment,
        offset,
        length,
    }))
}

#[tactic(auto, unfolding(ipc_base::specs::Numbers::number_in))]
pub(crate) fn read_attached_write(fields: &[u8]) -> Option<RequestKind<'_>>
    ensures { option_map plain_kind result ≡ made_by table.attached_write fields.now }
{
    let mut cursor = Cursor::new(fields);
    let attachment = cursor.u32()?;
    let offset = cursor.u64()?;
    let bytes = cursor.rest();
    Some(RequestKind::Sysv(SysvCall::AttachedWrite {
        attachment,
        offset,
        bytes,
    }))
}
