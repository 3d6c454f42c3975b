//! The flags of the calls, by their names in the manual pages. A bit that has no name here is kept
//! and means nothing.

ghost use Rattle.std.specs.Prelude.{⊤, [], ◌∷◌, ◌≡◌, codes};
ghost use Rattle.std.specs.Int.RustNames.{bit_and};

use bitflags::{Flag, Flags, bitflag_items};

/// The flags of msgget(2) and semget(2); the low nine bits are the mode.
#[derive(Clone, Copy, Debug, PartialEq, Eq)]
pub struct GetFlags(pub u32);

bitflag_items! {
    impl GetFlags: u32 {
        const IPC_CREAT = 0o1000;
        const IPC_EXCL = 0o2000;
    }
}

impl Flags for GetFlags {
    type Bits = u32;

    ghost exact = { ⊤ };

    ghost table = { (codes "IPC_CREAT", 512) ∷ (codes "IPC_EXCL", 1024) ∷ [] };

    ghost set_of = { λ f. f.0 };

    fn flags<'a>() -> &'a [Flag<GetFlags>] {
        GetFlags::FLAGS
    }

    fn bits(&self) -> u32 {
        self.0
    }

    fn from_bits_retain(bits: u32) -> GetFlags {
        GetFlags(bits)
    }
}

/// The flags of msgop(2).
#[derive(Clone, Copy, Debug, PartialEq, Eq)]
pub struct MsgFlags(pub u32);

bitflag_items! {
    impl MsgFlags: u32 {
        const IPC_NOWAIT = 0o4000;
        const MSG_NOERROR = 0o10000;
        const MSG_EXCEPT = 0o20000;
    }
}

impl Flags for MsgFlags {
    type Bits = u32;

    ghost exact = { ⊤ };

    ghost table = { (codes "IPC_NOWAIT", 2048) ∷ (codes "MSG_NOERROR", 4096) ∷ (codes "MSG_EXCEPT", 8192) ∷ [] };

    ghost set_of = { λ f. f.0 };

    fn flags<'a>() -> &'a [Flag<MsgFlags>] {
        MsgFlags::FLAGS
    }

    fn bits(&self) -> u32 {
        self.0
    }

    fn from_bits_retain(bits: u32) -> MsgFlags {
        MsgFlags(bits)
    }
}

/// The flags of shmat(2).
#[derive(Clone, Copy, Debug, PartialEq, Eq)]
pub struct ShmFlags(pub u32);

bitflag_items! {
    impl ShmFlags: u32 {
        const SHM_RDONLY = 0o10000;
    }
}

impl Flags for ShmFlags {
    type Bits = u32;

    ghost exact = { ⊤ };

    ghost table = { (codes "SHM_RDONLY", 4096) ∷ [] };

    ghost set_of = { λ f. f.0 };

    fn flags<'a>() -> &'a [Flag<ShmFlags>] {
        ShmFlags::FLAGS
    }

    fn bits(&self) -> u32 {
        self.0
    }

    fn from_bits_retain(bits: u32) -> ShmFlags {
        ShmFlags(bits)
    }
}

/// The flags of one operation of semop(2).
#[derive(Clone, Copy, Debug, PartialEq, Eq)]
pub struct SemFlags(pub u16);

bitflag_items! {
    impl SemFlags: u16 {
        const IPC_NOWAIT = 0o4000;
        const SEM_UNDO = 0o10000;
    }
}

impl Flags for SemFlags {
    type Bits = u16;

    ghost exact = { ⊤ };

    ghost table = { (codes "IPC_NOWAIT", 2048) ∷ (codes "SEM_UNDO", 4096) ∷ [] };

    ghost set_of = { λ f. f.0 };

    fn flags<'a>() -> &'a [Flag<SemFlags>] {
        SemFlags::FLAGS
    }

    fn bits(&self) -> u16 {
        self.0
    }

    fn from_bits_retain(bits: u16) -> SemFlags {
        SemFlags(bits)
    }
}

/// The flags of mq_open(3), sem_open(3) and shm_open(3), as open(2) has them, and of mq_setattr(3). The low two bits
/// are the access mode.
#[derive(Clone, Copy, Debug, PartialEq, Eq)]
pub struct OpenFlags(pub u32);

bitflag_items! {
    impl OpenFlags: u32 {
        const O_WRONLY = 0o1;
        const O_RDWR = 0o2;
        const O_CREAT = 0o100;
        const O_EXCL = 0o200;
        const O_TRUNC = 0o1000;
        const O_NONBLOCK = 0o4000;
    }
}

impl Flags for OpenFlags {
    type Bits = u32;

    ghost exact = { ⊤ };

    ghost table = { (codes "O_WRONLY", 1) ∷ (codes "O_RDWR", 2) ∷ (codes "O_CREAT", 64) ∷ (codes "O_EXCL", 128)
        ∷ (codes "O_TRUNC", 512) ∷ (codes "O_NONBLOCK", 2048) ∷ [] };

    ghost set_of = { λ f. f.0 };

    fn flags<'a>() -> &'a [Flag<OpenFlags>] {
        OpenFlags::FLAGS
    }

    fn bits(&self) -> u32 {
        self.0
    }

    fn from_bits_retain(bits: u32) -> OpenFlags {
        OpenFlags(bits)
    }
}

impl OpenFlags {
    /// The access mode of open(2): 0 is O_RDONLY, 1 O_WRONLY and 2 O_RDWR; 3 is none of them.
    pub fn access_mode(self) -> u32
        ensures { result ≡ bit_and self.0 3 }
    {
        self.0 & 3
    }
}
