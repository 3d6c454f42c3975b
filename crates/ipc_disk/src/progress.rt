//! How far a long call is, for whoever waits for it.

/// Hears how far a long call is. No clause binds it: whatever it does with what it hears, the call
/// goes on, and keeps what it promises.
pub trait Progress {
    /// So many sectors are done.
    fn reached(&mut self, sectors: u32);
}

/// Hears nothing.
#[derive(Drop)]
pub(crate) struct Silent;

impl Progress for Silent {
    fn reached(&mut self, _sectors: u32) {}
}
