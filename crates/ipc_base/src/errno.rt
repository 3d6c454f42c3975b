//! The error numbers of errno(3) that the server answers.

ghost use Rattle.std.specs.Prelude.{◌≡◌, IfSome};
ghost use Rattle.ipc_base.specs.Errno.{number_of};

/// An error of errno(3), by its name there.
#[derive(Clone, Copy, Debug, PartialEq, Eq)]
pub enum Errno {
    /// Operation not permitted.
    EPERM,
    /// No such file or directory: no object has the key or name.
    ENOENT,
    /// Interrupted system call.
    EINTR,
    /// Input/output error: the device failed.
    EIO,
    /// Argument list too long: a message or a list of operations is too long.
    E2BIG,
    /// Bad file descriptor.
    EBADF,
    /// Resource temporarily unavailable: the call would have to wait.
    EAGAIN,
    /// Not enough memory.
    ENOMEM,
    /// Permission denied.
    EACCES,
    /// Device or resource busy.
    EBUSY,
    /// File exists: the key or name has an object.
    EEXIST,
    /// Invalid argument.
    EINVAL,
    /// Too many processes.
    ENFILE,
    /// Too many open descriptors.
    EMFILE,
    /// File too large: a semaphore number outside the set.
    EFBIG,
    /// No space left: a limit of objects is reached.
    ENOSPC,
    /// Result too large: a semaphore value or adjustment out of range.
    ERANGE,
    /// File name too long.
    ENAMETOOLONG,
    /// No message of the desired type.
    ENOMSG,
    /// Identifier removed.
    EIDRM,
    /// Protocol error: the bytes are no frame, or the frame has no place here.
    EPROTO,
    /// Value too large: a named semaphore at its maximum.
    EOVERFLOW,
    /// Message too long.
    EMSGSIZE,
    /// Connection timed out.
    ETIMEDOUT,
    /// Operation already in progress: a call of the process waits.
    EALREADY,
}

impl Errno {
    /// Its number, as Linux has it.
    pub fn number(self) -> u16
        ensures { result ≡ number_of self }
    {
        match self {
            Errno::EPERM => 1,
            Errno::ENOENT => 2,
            Errno::EINTR => 4,
            Errno::EIO => 5,
            Errno::E2BIG => 7,
            Errno::EBADF => 9,
            Errno::EAGAIN => 11,
            Errno::ENOMEM => 12,
            Errno::EACCES => 13,
            Errno::EBUSY => 16,
            Errno::EEXIST => 17,
            Errno::EINVAL => 22,
            Errno::ENFILE => 23,
            Errno::EMFILE => 24,
            Errno::EFBIG => 27,
            Errno::ENOSPC => 28,
            Errno::ERANGE => 34,
            Errno::ENAMETOOLONG => 36,
            Errno::ENOMSG => 42,
            Errno::EIDRM => 43,
            Errno::EPROTO => 71,
            Errno::EOVERFLOW => 75,
            Errno::EMSGSIZE => 90,
            Errno::ETIMEDOUT => 110,
            Errno::EALREADY => 114,
        }
    }

    /// The error of a number, or `None` where no error here has it.
    pub fn from_number(number: u16) -> Option<Errno>
        ensures known { IfSome result (λ e. number_of e ≡ number) }
        ensures each { (e : Errno) → number_of e ≡ number → result ≡ Some e }
    {
        Some(match number {
            1 => Errno::EPERM,
            2 => Errno::ENOENT,
            4 => Errno::EINTR,
            5 => Errno::EIO,
            7 => Errno::E2BIG,
            9 => Errno::EBADF,
            11 => Errno::EAGAIN,
            12 => Errno::ENOMEM,
            13 => Errno::EACCES,
            16 => Errno::EBUSY,
            17 => Errno::EEXIST,
            22 => Errno::EINVAL,
            23 => Errno::ENFILE,
            24 => Errno::EMFILE,
            27 => Errno::EFBIG,
            28 => Errno::ENOSPC,
            34 => Errno::ERANGE,
            36 => Errno::ENAMETOOLONG,
            42 => Errno::ENOMSG,
            43 => Errno::EIDRM,
            71 => Errno::EPROTO,
            75 => Errno::EOVERFLOW,
            90 => Errno::EMSGSIZE,
            110 => Errno::ETIMEDOUT,
            114 => Errno::EALREADY,
            _ => return None,
        })
    }
}
