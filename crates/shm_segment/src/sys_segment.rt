//! A System V shared memory segment.

ghost use Rattle.std.specs.Prelude.{◌≡◌, true, length, IfOk};
ghost use Rattle.shm_segment.specs.Segment.{is_within, part};
ghost use Rattle.shm_segment.specs.SysSegment.{
  SysSegment as Plain,
  new_segment,
  renewed,
  attached,
  detached,
  marked,
  changed,
  written,
  stat_of,
};

use crate::segment::Segment;
use ipc_base::{Moment, Pid};
use std::alloc::{AllocError, Global};
use std::marker::Model;

/// The numbers of a segment, as shmctl(2) tells them, but for how many have it attached.
#[derive(Clone, Copy, Debug, PartialEq, Eq)]
pub struct ShmStat {
    /// How many bytes there are.
    pub size: usize,
    /// When it was attached last, and detached last; 0 for never.
    pub atime: Moment,
    pub dtime: Moment,
    /// When it was made, or changed by shmctl(2).
    pub ctime: Moment,
    /// Who made it, and who attached or detached it last; 0 for nobody.
    pub cpid: Pid,
    pub lpid: Pid,
    /// Whether it is destroyed when nobody has it attached.
    pub is_marked: bool,
}

/// A System V shared memory segment (shmop(2)): its bytes, as many as when it was made, and its numbers. But for `new`
/// and `restored`, no call takes memory.
#[derive(Drop)]
pub struct SysSegment {
    memory: Segment,
    atime: Moment,
    dtime: Moment,
    ctime: Moment,
    cpid: Pid,
    lpid: Pid,
    is_marked: bool,
}

impl Model for SysSegment {
    ghost Value = { Plain };

    ghost view = { λ s. record {
      memory = s.memory;
      atime = s.atime.0;
      dtime = s.dtime.0;
      ctime = s.ctime.0;
      cpid = s.cpid;
      lpid = s.lpid;
      is_marked = s.is_marked;
    } };
}

impl SysSegment {
    /// A segment of so many bytes, each 0, which a process makes. Refused for want of memory.
    pub fn new(alloc: Global, size: usize, cpid: Pid, now: Moment) -> Result<SysSegment, AllocError>
        ensures { IfOk result (λ s. s ≡ new_segment size cpid now.0) }
    {
        Ok(SysSegment {
            memory: Segment::zeroed(alloc, size)?,
            atime: Moment(0),
            dtime: Moment(0),
            ctime: now,
            cpid,
            lpid: Pid(0),
            is_marked: false,
        })
    }

    /// A segment whose bytes and numbers are known; `size` is not looked at. Refused for want of memory.
    pub fn restored(alloc: Global, stat: ShmStat, bytes: &[u8]) -> Result<SysSegment, AllocError>
        ensures bytes { IfOk result (λ s. s.memory.bytes ≡ bytes.now) }
        ensures stat { IfOk result (λ s. stat_of s ≡ record stat { size = length bytes.now }) }
    {
        Ok(SysSegment {
            memory: Segment::of_bytes(alloc, bytes)?,
            atime: stat.atime,
            dtime: stat.dtime,
            ctime: stat.ctime,
            cpid: stat.cpid,
            lpid: stat.lpid,
            is_marked: stat.is_marked,
        })
    }

    /// Makes it one that a process makes now, of the bytes that it has.
    pub fn renew(&mut self, cpid: Pid, now: Moment)
        ensures { self.new ≡ renewed self.old cpid now.0 }
    {
        self.atime = Moment(0);
        self.dtime = Moment(0);
        self.ctime = now;
        self.cpid = cpid;
        self.lpid = Pid(0);
        self.is_marked = false;
    }

    /// Whether it is destroyed when nobody has it attached.
    pub fn is_marked(&self) -> bool
        ensures { result ≡ self.now.is_marked }
    {
        self.is_marked
    }

    /// Notes that a process has attached it. See shmat(2).
    pub fn attach(&mut self, pid: Pid, now: Moment)
        ensures { self.new ≡ attached self.old pid now.0 }
    {
        self.atime = now;
        self.lpid = pid;
    }

    /// Notes that a process has detached it. See shmdt(2).
    pub fn detach(&mut self, pid: Pid, now: Moment)
        ensures { self.new ≡ detached self.old pid now.0 }
    {
        self.dtime = now;
        self.lpid = pid;
    }

    /// Marks it: it is to be destroyed when nobody has it attached. No moment is noted. See IPC_RMID of shmctl(2).
    pub fn mark(&mut self)
        ensures { self.new ≡ marked self.old }
    {
        self.is_marked = true;
    }

    /// Its numbers.
    pub fn stat(&self) -> ShmStat
        ensures { result ≡ stat_of self.now }
    {
        ShmStat {
            size: self.memory.len(),
            atime: self.atime,
            dtime: self.dtime,
            ctime: self.ctime,
            cpid: self.cpid,
            lpid: self.lpid,
            is_marked: self.is_marked,
        }
    }

    /// Notes a change of who may use it. See IPC_SET of shmctl(2).
    pub fn set(&mut self, now: Moment)
        ensures { self.new ≡ changed self.old now.0 }
    {
        self.ctime = now;
    }

    /// Whether a range is within it: `length` bytes from the offset on, any two numbers.
    pub fn is_within(&self, offset: u64, length: u64) -> bool
        ensures { result ≡ is_within offset length self.now.memory }
    {
        self.memory.is_within(offset, length)
    }

    /// The bytes of a range, which is within it.
    pub fn read(&self, offset: usize, length: usize) -> &[u8]
        requires { is_within offset length self.now.memory ≡ true }
        ensures { result.now ≡ part offset length self.now.memory }
    {
        self.memory.read(offset, length)
    }

    /// Writes bytes in the place of as many from the offset on; their range is within it. All others stay.
    pub fn write(&mut self, offset: usize, bytes: &[u8])
        requires { is_within offset (length bytes.now) self.old.memory ≡ true }
        ensures { self.new ≡ written offset bytes.now self.old }
    {
        self.memory.write(offset, bytes);
    }

    /// Its bytes.
    pub fn bytes(&self) -> &[u8]
        ensures { result.now ≡ self.now.memory.bytes }
    {
        self.memory.bytes()
    }
}
