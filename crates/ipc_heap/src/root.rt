//! The root: the one sector that tells where the table stands.

ghost use Rattle.std.specs.Prelude.{◌↔◌, IsTrue, MatchOption};
ghost use Rattle.ipc_disk.specs.Range.{IsInside};
ghost use Rattle.ipc_heap.specs.Damage.{IsRoot};
ghost use Rattle.ipc_heap.specs.Relations.Root.{IsRead};

use byteorder::{BigEndian, ByteOrder};
use ipc_disk::Range;

/// The numbers of a root: the epoch, the first sector of the table, and how many bytes the table has.
#[derive(Clone, Copy)]
pub(crate) struct Root {
    pub epoch: u64,
    pub first: u32,
    pub len: u32,
}

/// The bytes of a root.
pub(crate) fn root_sector(root: Root) -> [u8; 512]
    ensures { IsRead result root }
{
    let mut sector = [0; 512];
    BigEndian::write_u64(&mut sector, root.epoch);
    BigEndian::write_u32(&mut sector[8..], root.first);
    BigEndian::write_u32(&mut sector[12..], root.len);
    sector
}

/// The numbers that stand in a sector, if they can be a root's.
pub(crate) fn root_in(sector: &[u8; 512], range: Range) -> Option<Root>
    ensures { MatchOption result (IsRoot range sector.now → ⊥)
        (λ root. IsRead sector.now root × IsRoot range sector.now) }
{
    let root = Root {
        epoch: BigEndian::read_u64(sector),
        first: BigEndian::read_u32(&sector[8..]),
        len: BigEndian::read_u32(&sector[12..]),
    };
    let most = 508 * u64::from(range.count);
    if root.epoch == 0
        || root.len < 4
        || u64::from(root.len) > most
        || !is_inside(range, root.first)
    {
        return None;
    }
    Some(root)
}

/// Whether a sector is one of a range.
pub(crate) fn is_inside(range: Range, at: u32) -> bool
    ensures { IsTrue result ↔ IsInside range at }
{
    range.first <= at && at - range.first < range.count
}
