//! The owner, the maker and the mode of an object.

ghost use Rattle.std.specs.Prelude.{◌≡◌, ◌<◌};
ghost use Rattle.ipc_perm.specs.Perm.{perm_of, owned_by};

use ipc_base::Cred;

/// The owner of an object, who made it, and its mode, of nine bits. See sysvipc(7).
#[derive(Clone, Copy, Debug, PartialEq, Eq)]
pub struct Perm {
    pub uid: u32,
    pub gid: u32,
    pub cuid: u32,
    pub cgid: u32,
    pub mode: u32,
}

impl Perm {
    /// Of a new object, by who makes it and the flags: the mode is their low nine bits.
    pub fn new(cred: Cred, flags: u32) -> Perm
        ensures perm { result ≡ perm_of cred flags }
        ensures mode { result.mode < 512 }
    {
        Perm {
            uid: cred.uid,
            gid: cred.gid,
            cuid: cred.uid,
            cgid: cred.gid,
            mode: flags & 0o777,
        }
    }

    /// With this owner, and with the low nine bits of `mode` as its mode, as IPC_SET of msgctl(2) and
    /// semctl(2) sets them; who made the object stays.
    pub fn owned_by(self, uid: u32, gid: u32, mode: u32) -> Perm
        ensures perm { result ≡ owned_by self uid gid mode }
        ensures mode { result.mode < 512 }
    {
        Perm {
            uid,
            gid,
            cuid: self.cuid,
            cgid: self.cgid,
            mode: mode & 0o777,
        }
    }
}
