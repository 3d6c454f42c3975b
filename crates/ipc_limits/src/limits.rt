//! The twenty-two limits of a server, with the version of the device whose rules hold, and its journal.

ghost use Rattle.std.specs.Prelude.{◌≡◌, ◌≤◌, IfErr, OnOk, position, not};
ghost use Rattle.ipc_limits.specs.Limits.{
  tests,
  standard_limits,
  small_limits,
  standard_of_three,
  small_of_three,
  has_rules_of_three,
  if_of_three,
  message_limit,
  adjustment_limit,
  queue_bytes_limit,
  exceeds,
  ArePassed,
  AreWithin,
  longest_reply,
  is_within as passes_within,
};

use thiserror::Error;

/// The limits of a server, named as in the manual pages, with the version and the journal of its device. Each limit is
/// at least 1, and at most a value that this version fixes. The limits have the numbers from 0 on, `processes` being
/// the first; the version and the journal have none, and `check` does not test them.
#[derive(Clone, Copy, Debug, PartialEq, Eq)]
pub struct Limits {
    /// The version of the device, whose rules hold.
    pub version: u32,
    /// Sectors of the journal of the device: 257 on versions 1 and 2, and 8 to 65535 on version 3.
    pub journal: u32,
    /// Processes at a time.
    pub processes: u32,
    /// Message queues.
    pub msgmni: u32,
    /// Bytes of one message.
    pub msgmax: u32,
    /// Bytes of one queue, and so its `qbytes` at first.
    pub msgmnb: u32,
    /// Semaphore sets.
    pub semmni: u32,
    /// Semaphores of one set.
    pub semmsl: u32,
    /// Semaphores of all sets.
    pub semmns: u32,
    /// Operations of one semop(2).
    pub semopm: u32,
    /// POSIX queues.
    pub queues: u32,
    /// Messages of one POSIX queue.
    pub maxmsg: u32,
    /// Bytes of one message of a POSIX queue.
    pub msgsize: u32,
    /// Named semaphores.
    pub named_semaphores: u32,
    /// Shared memory segments.
    pub segments: u32,
    /// Bytes of all segments.
    pub segment_bytes: u32,
    /// Bytes that one call reads or writes of a segment.
    pub call_bytes: u32,
    /// Descriptors of one process.
    pub descriptors: u32,
    /// System V shared memory segments.
    pub shmmni: u32,
    /// Bytes of one System V segment.
    pub shmmax: u32,
    /// Bytes of all System V segments.
    pub shmall: u32,
    /// Messages of one System V queue. Versions 1 and 2 have no such limit, and 1 here.
    pub msgqlen: u32,
    /// Nonzero adjustments of one process. Versions 1 and 2 have no such limit, and 1 here.
    pub semume: u32,
    /// Bytes of all POSIX queues: of each, `maxmsg * (8 + msgsize)`. Versions 1 and 2 have no such limit, and 1 here.
    pub queue_bytes: u32,
}

/// The limits fail at a field. Fields are counted from 0 in the order of `Limits`, `processes` being the first.
#[derive(Clone, Copy, Debug, PartialEq, Eq, Error)]
#[error("limit {field} is out of range")]
pub struct BadLimits {
    pub field: u32,
}

/// Those of a server that serves on version 2 of the device, as `Limits::standard` gives them.
pub const STANDARD: Limits = Limits {
    version: 2,
    journal: 257,
    processes: 64,
    msgmni: 64,
    msgmax: 65536,
    msgmnb: 65536,
    semmni: 32,
    semmsl: 64,
    semmns: 512,
    semopm: 32,
    queues: 32,
    maxmsg: 10,
    msgsize: 8192,
    named_semaphores: 64,
    segments: 32,
    segment_bytes: 1048576,
    call_bytes: 8192,
    descriptors: 32,
    shmmni: 32,
    shmmax: 1048576,
    shmall: 1048576,
    msgqlen: 1,
    semume: 1,
    queue_bytes: 1,
};

/// Those of a server that serves on version 3 of the device, as `Limits::standard_of_three` gives them.
pub const STANDARD_OF_THREE: Limits = Limits {
    version: 3,
    msgqlen: 4096,
    semume: 512,
    queue_bytes: 2624000,
    ..STANDARD
};

impl Limits {
    /// The limits of a server that serves, on version 2.
    pub fn standard() -> Limits
        ensures limits { result ≡ standard_limits }
        ensures passed { ArePassed result }
    {
        STANDARD
    }

    /// The limits of a server that serves, on version 3, with a journal as long as that of version 2.
    pub fn standard_of_three() -> Limits
        ensures limits { result ≡ standard_of_three }
        ensures passed { ArePassed result }
    {
        STANDARD_OF_THREE
    }

    /// The limits of a small server on version 2, as for trials.
    pub fn small() -> Limits
        ensures limits { result ≡ small_limits }
        ensures passed { ArePassed result }
    {
        Limits {
            version: 2,
            journal: 257,
            processes: 4,
            msgmni: 2,
            msgmax: 64,
            msgmnb: 128,
            semmni: 2,
            semmsl: 4,
            semmns: 8,
            semopm: 4,
            queues: 2,
            maxmsg: 2,
            msgsize: 64,
            named_semaphores: 2,
            segments: 2,
            segment_bytes: 2048,
            call_bytes: 64,
            descriptors: 4,
            shmmni: 2,
            shmmax: 1024,
            shmall: 2048,
            msgqlen: 1,
            semume: 1,
            queue_bytes: 1,
        }
    }

    /// The limits of a small server on version 3, as for trials.
    pub fn small_of_three() -> Limits
        ensures limits { result ≡ small_of_three }
        ensures passed { ArePassed result }
    {
        Limits {
            version: 3,
            msgqlen: 8,
            semume: 4,
            queue_bytes: 288,
            ..Limits::small()
        }
    }

    /// Whether the rules of version 3 of the device hold.
    pub fn has_rules_of_three(&self) -> bool
        ensures { result ≡ has_rules_of_three self.now }
    {
        3 <= self.version
    }

    /// The most messages of one System V queue, on a version that has this limit.
    pub fn message_limit(&self) -> Option<u32>
        ensures { result ≡ message_limit self.now }
    {
        self.if_of_three(self.msgqlen)
    }

    /// The most nonzero adjustments of one process, on a version that has this limit.
    pub fn adjustment_limit(&self) -> Option<u32>
        ensures { result ≡ adjustment_limit self.now }
    {
        self.if_of_three(self.semume)
    }

    /// The most bytes of all POSIX queues, on a version that has this limit.
    pub fn queue_bytes_limit(&self) -> Option<u32>
        ensures { result ≡ queue_bytes_limit self.now }
    {
        self.if_of_three(self.queue_bytes)
    }

    fn if_of_three(&self, most: u32) -> Option<u32>
        ensures { result ≡ if_of_three self.now most }
    {
        if self.has_rules_of_three() {
            Some(most)
        } else {
            None
        }
    }

    /// Tests each field in order: it is at least 1 and at most its value in `most`, `msgmax` is at most `msgmnb`,
    /// `semmsl` at most `semmns`, and `shmmax` at most `shmall`. The fault names the first field that fails.
    pub fn check(&self, most: &Limits) -> Result<(), BadLimits>
        ensures ok { OnOk result (AreWithin most.now self.now) }
        ensures passed { ArePassed most.now → OnOk result (ArePassed self.now) }
        ensures first { IfErr result (λ fault. position not (tests most.now self.now) ≡ Some fault.field) }
    {
        let passes = [
            is_within(self.processes, most.processes),
            is_within(self.msgmni, most.msgmni),
            is_within(self.msgmax, most.msgmax) && self.msgmax <= self.msgmnb,
            is_within(self.msgmnb, most.msgmnb),
            is_within(self.semmni, most.semmni),
            is_within(self.semmsl, most.semmsl) && self.semmsl <= self.semmns,
            is_within(self.semmns, most.semmns),
            is_within(self.semopm, most.semopm),
            is_within(self.queues, most.queues),
            is_within(self.maxmsg, most.maxmsg),
            is_within(self.msgsize, most.msgsize),
            is_within(self.named_semaphores, most.named_semaphores),
            is_within(self.segments, most.segments),
            is_within(self.segment_bytes, most.segment_bytes),
            is_within(self.call_bytes, most.call_bytes),
            is_within(self.descriptors, most.descriptors),
            is_within(self.shmmni, most.shmmni),
            is_within(self.shmmax, most.shmmax) && self.shmmax <= self.shmall,
            is_within(self.shmall, most.shmall),
            is_within(self.msgqlen, most.msgqlen),
            is_within(self.semume, most.semume),
            is_within(self.queue_bytes, most.queue_bytes),
        ];
        match first_failing(&passes) {
            None => Ok(()),
            Some(field) => Err(BadLimits {
                field: field as u32,
            }),
        }
    }

    /// The bytes of the longest reply under these limits, from 78 to 65554.
    pub fn longest_reply(&self) -> u32
        requires { ArePassed self.now }
        ensures longest { result ≡ longest_reply self.now }
        ensures bounded { result ≤ 65554 }
    {
        let body = 68
            .max(8 + self.msgmax)
            .max(2 * self.semmsl)
            .max(4 + self.msgsize)
            .max(self.call_bytes);
        10 + body
    }
}

/// Whether a count is more than a limit allows. If there is no limit, none is.
pub fn exceeds(count: u64, limit: Option<u32>) -> bool
    ensures { result ≡ exceeds count limit }
{
    match limit {
        None => false,
        Some(most) => u64::from(most) < count,
    }
}

fn first_failing(passes: &[bool]) -> Option<usize>
    ensures { result ≡ position not passes.now }
{
    passes.iter().position(|passes| !*passes)
}

fn is_within(value: u32, most: u32) -> bool
    ensures { result ≡ passes_within value most }
{
    1 <= value && value <= most
}
