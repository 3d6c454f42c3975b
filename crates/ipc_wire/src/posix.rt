//! The POSIX calls, as requests ask for them.

use ipc_base::OpenFlags;

/// A POSIX call with its fields, as they stand in the frame: no value is tested.
#[derive(Clone, Copy)]
pub enum PosixCall<'a> {
    /// close(2), of a descriptor of any kind.
    Close {
        fd: u32,
    },
    /// mq_open(3). The attributes of a new queue are `maxmsg` messages of at most `msgsize` bytes each; if `attr` is 0,
    /// none are given, and both numbers mean nothing. The name is the rest of the frame and may be empty.
    MqOpen {
        flags: OpenFlags,
        mode: u32,
        attr: u8,
        maxmsg: i32,
        msgsize: i32,
        name: &'a [u8],
    },
    /// mq_unlink(3); the name is the rest of the frame and may be empty.
    MqUnlink {
        name: &'a [u8],
    },
    /// mq_send(3), with the deadline of mq_timedsend(3): the moment, in milliseconds of the server's clock, at which it
    /// waits no longer and is ETIMEDOUT; the greatest number is none. The text is the rest of the frame and may be
    /// empty.
    MqSend {
        fd: u32,
        deadline: u64,
        priority: u32,
        text: &'a [u8],
    },
    /// mq_receive(3), with the deadline of mq_timedreceive(3), a moment as that of `MqSend`; the size is in bytes.
    MqReceive {
        fd: u32,
        deadline: u64,
        size: u32,
    },
    /// mq_notify(3). A `kind` of 0 takes the registration away; 1 registers, but nothing is sent, as with SIGEV_NONE;
    /// 2 registers for a notification, which brings the cookie.
    MqNotify {
        fd: u32,
        kind: u32,
        cookie: u32,
    },
    /// mq_getattr(3).
    MqGetattr {
        fd: u32,
    },
    /// mq_setattr(3), as mq_getattr(3) has it.
    MqSetattr {
        fd: u32,
        flags: OpenFlags,
    },
    /// sem_open(3): a new semaphore has this value. The name is the rest of the frame and may be empty.
    SemOpen {
        flags: OpenFlags,
        mode: u32,
        value: u32,
        name: &'a [u8],
    },
    /// sem_unlink(3); the name is the rest of the frame and may be empty.
    SemUnlink {
        name: &'a [u8],
    },
    /// sem_post(3).
    SemPost {
        fd: u32,
    },
    /// sem_wait(3), with the deadline of sem_timedwait(3), a moment as that of `MqSend`.
    SemWait {
        fd: u32,
        deadline: u64,
    },
    /// sem_trywait(3), as sem_wait(3) has it.
    SemTrywait {
        fd: u32,
    },
    /// sem_getvalue(3).
    SemGetvalue {
        fd: u32,
    },
    /// shm_open(3). The name is the rest of the frame and may be empty.
    ShmOpen {
        flags: OpenFlags,
        mode: u32,
        name: &'a [u8],
    },
    /// shm_unlink(3), as shm_open(3) has it; the name is the rest of the frame and may be empty.
    ShmUnlink {
        name: &'a [u8],
    },
    /// ftruncate(2) of a segment; the length is in bytes.
    Ftruncate {
        fd: u32,
        length: u64,
    },
    /// A read of a segment (shm_overview(7)): so many bytes from the offset on.
    ShmRead {
        fd: u32,
        offset: u64,
        length: u32,
    },
    /// A write to a segment (shm_overview(7)): the rest of the frame, from the offset on.
    ShmWrite {
        fd: u32,
        offset: u64,
        bytes: &'a [u8],
    },
    /// fstat(2) of a segment.
    ShmStat {
        fd: u32,
    },
}
