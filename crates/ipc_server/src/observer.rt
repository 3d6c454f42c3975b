//! Who sees a server while it serves.

use ipc_disk::SectorDisk;
use ipc_hub::Hub;

/// Is shown the hub of a server as it serves, and can change nothing of it.
pub trait Observer<D: SectorDisk> {
    /// A turn has ended, the one of this number, counted from 1.
    fn turned(&mut self, hub: &Hub<D>, turn: u64);

    /// For how many milliseconds the server may wait before this is shown its hub again. Where the
    /// server has something to do earlier, it waits no longer than that.
    fn patience(&self) -> u64;

    /// The server has waited so long, or something has come to do, and it has made no turn since.
    fn waited(&mut self, hub: &Hub<D>);
}

/// Nobody: a server that is not observed waits as long as it has nothing to do.
#[derive(Clone, Copy)]
pub struct Unobserved;

impl<D: SectorDisk> Observer<D> for Unobserved {
    fn turned(&mut self, _hub: &Hub<D>, _turn: u64) {}

    fn patience(&self) -> u64 {
        u64::MAX
    }

    fn waited(&mut self, _hub: &Hub<D>) {}
}
