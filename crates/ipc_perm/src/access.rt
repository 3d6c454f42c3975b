//! What a caller asks of an object, and whether its permissions give it.

ghost use Rattle.std.specs.Prelude.{⊤, ◌≡◌, [], ◌∷◌, codes};
ghost use Rattle.ipc_perm.specs.Perm.{asked_by, class_of, class_bits, may, owns};

use crate::perm::Perm;
use bitflags::{Flag, Flags, bitflag_items};
use ipc_base::Cred;

/// What a call asks of an object: to read it, to change it, or both.
#[derive(Clone, Copy, Debug, PartialEq, Eq)]
pub struct Access(pub u32);

bitflag_items! {
    impl Access: u32 {
        const READ = 4;
        const WRITE = 2;
    }
}

impl Flags for Access {
    type Bits = u32;

    ghost exact = { ⊤ };

    ghost table = { (codes "READ", 4) ∷ (codes "WRITE", 2) ∷ [] };

    ghost set_of = { λ a. a.0 };

    fn flags<'a>() -> &'a [Flag<Access>] {
        Access::FLAGS
    }

    fn bits(&self) -> u32 {
        self.0
    }

    fn from_bits_retain(bits: u32) -> Access {
        Access(bits)
    }
}

impl Access {
    /// What a get of an object that is there asks by its flags: to read, if they have a read bit of any
    /// class, and to write, if they have a write bit of any class. Other bits ask nothing.
    pub fn asked_by(flags: u32) -> Access
        ensures { result.0 ≡ asked_by flags }
    {
        let read = if flags & 0o444 == 0 { 0 } else { 4 };
        let write = if flags & 0o222 == 0 { 0 } else { 2 };
        Access(read + write)
    }
}

/// The callers that one digit of a mode is for.
#[derive(Clone, Copy, Debug, PartialEq, Eq)]
pub enum Class {
    /// The owner and the maker.
    User,
    /// Who has the group of one of them.
    Group,
    /// Everyone else.
    Other,
}

impl Class {
    /// The class that a caller is in.
    fn of(cred: &Cred, perm: &Perm) -> Class
        ensures { result ≡ class_of cred.now perm.now }
    {
        if cred.uid == perm.uid || cred.uid == perm.cuid {
            Class::User
        } else if cred.gid == perm.gid || cred.gid == perm.cgid {
            Class::Group
        } else {
            Class::Other
        }
    }

    /// What a mode gives to the class.
    fn access(self, mode: u32) -> Access
        ensures { result.0 ≡ class_bits mode self }
    {
        match self {
            Class::User => Access((mode >> 6) & 7),
            Class::Group => Access((mode >> 3) & 7),
            Class::Other => Access(mode & 7),
        }
    }
}

/// Whether the caller may access the object in each way asked: the mode gives it to the caller's class,
/// or the caller's uid is 0. See sysvipc(7).
pub fn may(cred: &Cred, perm: &Perm, access: Access) -> bool
    ensures { result ≡ may cred.now perm.now access.0 }
{
    cred.uid == 0 || Class::of(cred, perm).access(perm.mode).contains(access)
}

/// Whether the caller may change and remove the object: its uid is that of the owner, that of the maker,
/// or 0. See msgctl(2).
pub fn owns(cred: &Cred, perm: &Perm) -> bool
    ensures { result ≡ owns cred.now perm.now }
{
    cred.uid == perm.uid || cred.uid == perm.cuid || cred.uid == 0
}
