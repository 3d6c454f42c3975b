//! Who may use an object, by the numbers of its object on the device.

ghost use Rattle.std.specs.Prelude.{◌≡◌, pos, drop, true};
ghost use Rattle.ipc_base.specs.Numbers.{FitFields};
ghost use Rattle.ipc_state.specs.Named.{is_own};
ghost use Rattle.ipc_image.specs.Saved.{head_sizes, head_numbers};
ghost use Rattle.ipc_image.specs.SavedParts.{own_perm, perm_from};

use ipc_perm::Perm;

/// Of an object with a key, by the numbers of its head.
pub(crate) fn perm_in(numbers: &[u64; 6]) -> Perm
    requires { FitFields head_sizes numbers.now }
    ensures { result ≡ perm_from numbers.now }
{
    Perm {
        uid: numbers[1] as u32,
        gid: numbers[2] as u32,
        cuid: numbers[3] as u32,
        cgid: numbers[4] as u32,
        mode: numbers[5] as u32,
    }
}

/// Of an object with a name: whoever made it owns it.
pub(crate) fn own_perm(uid: u32, gid: u32, mode: u32) -> Perm
    ensures perm { result ≡ own_perm uid gid mode }
    ensures own { is_own result ≡ true }
{
    Perm {
        uid,
        gid,
        cuid: uid,
        cgid: gid,
        mode,
    }
}

/// Reads each number of it, so that each has its place.
pub(crate) fn read_perm(perm: Perm)
    ensures { FitFields (drop 1 head_sizes) (drop 1 (head_numbers (pos 0) perm)) }
{}
