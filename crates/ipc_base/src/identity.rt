//! Who calls, what is named, and when.

/// A user and a group, as a process states them of itself. Uid 0 passes every permission test.
#[derive(Clone, Copy, Debug, PartialEq, Eq)]
pub struct Cred {
    pub uid: u32,
    pub gid: u32,
}

/// The number of a process, from 1. A number is never given again; 0 names none.
#[derive(Clone, Copy, Debug, PartialEq, Eq)]
pub struct Pid(pub u32);

/// The identifier of an object, counted from 1 for each kind and never given again.
#[derive(Clone, Copy, Debug, PartialEq, Eq)]
pub struct Id(pub u32);

/// A number of milliseconds that was handed in.
#[derive(Clone, Copy, Debug, PartialEq, Eq)]
pub struct Moment(pub u64);
