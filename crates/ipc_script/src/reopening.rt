//! A server that is stopped, and its device opened again.

ghost use Rattle.std.specs.Prelude.{◌≡◌, ⊤, [], ◌∷◌, IfOk, IfErr};
ghost use Rattle.ipc_limits.specs.declared.limits.Limits.{Limits};
ghost use Rattle.ipc_disk.specs.Medium.{IsHonest};
ghost use Rattle.ipc_state.specs.State.{restart};
ghost use Rattle.ipc_engine.specs.Event.{Restart};
ghost use Rattle.ipc_store.specs.Histories.{Takes};
ghost use Rattle.ipc_store.specs.View.{Spends, StoreView};
ghost use Rattle.ipc_hub.specs.Clients.{Clients, no_clients};
ghost use Rattle.ipc_hub.specs.Relations.Matches.{StoredMatches};
ghost use Rattle.ipc_script.specs.Leaves.{UnlessDisk};
ghost use Rattle.ipc_script.specs.Script.{DiskFailed};
ghost use Rattle.ipc_script.specs.Stops.{IsHanded, IsReopened};
ghost use Rattle.ipc_script.specs.Relations.Faults.{ByFault};
ghost use Rattle.ipc_script.specs.Relations.Numbers.{HasNumbers};

use crate::fault::ScriptFault;
use ipc_disk::SectorDisk;
use ipc_hub::Hub;
use ipc_store::{OpenError, Store, Unopened};
use std::alloc::Global;

/// Drops a server and all its connections without a word, and opens its device again. If it is not
/// opened, gives back the disk, and why.
pub(crate) fn reopened<D: SectorDisk>(
    alloc: Global,
    hub: Hub<D>,
) -> Result<Hub<D>, (ScriptFault, D)>
    ensures ok { IfOk result (λ next. (limits : Limits) (h : Clients) → StoredMatches limits hub h →
        IsHonest (D.medium hub.store.disk) →
        StoredMatches limits next (no_clients (restart limits h.state) (Restart ∷ []))) }
    ensures honest { IfOk result (λ next.
        IsHonest (D.medium hub.store.disk) → IsHonest (D.medium next.store.disk)) }
    ensures stops { IfOk result (λ next. IsHonest (D.medium hub.store.disk) →
        (closed : StoreView D) × Takes D.medium hub.store [] closed
        × ((limits : Limits) (h : Clients) → StoredMatches limits hub h → closed.machine.state ≡ h.state)
        × IsReopened D.medium closed next.store) }
    ensures err { IfErr result (λ e. ByFault e.0 ⊤ ⊤ ⊥) }
    ensures left { IfErr result (λ e. IsHonest (D.medium hub.store.disk) →
        (closed : StoreView D) × Takes D.medium hub.store [] closed × IsHanded D.medium closed e.1
        × UnlessDisk e.0 (closed.waiting ≡ 0)) }
    ensures spends { IfOk result (λ next. IsHonest (D.medium hub.store.disk) →
        HasNumbers 3 hub.store → Spends D.counts 3 hub.store next.store) }
    ensures disk { IfErr result (λ e. IsHonest (D.medium hub.store.disk) →
        HasNumbers 3 hub.store → DiskFailed e.0 (D.counts hub.store.disk).failures
        (D.counts e.1).failures) }
{
    let mut hub = hub;
    // After a line no event waits, and this does nothing. What came before the first may wait.
    if let Err(_) = hub.release() {
        return Err((ScriptFault::Device, hub.close().close()));
    }
    match Store::open(alloc, hub.close().close()) {
        Ok(store) => Ok(Hub::new(alloc, store)),
        Err(Unopened { error, disk }) => Err((fault_of(error), disk)),
    }
}

/// The fault of a script whose device was not opened again.
fn fault_of(error: OpenError) -> ScriptFault
    ensures fault { ByFault result ⊤ ⊤ ⊥ }
    ensures device { error ≡ OpenError.Device → result ≡ ScriptFault.Device }
    ensures memory { error ≡ OpenError.NoMemory → result ≡ ScriptFault.NoMemory }
{
    match error {
        OpenError::NoMemory => ScriptFault::NoMemory,
        OpenError::Device => ScriptFault::Device,
        OpenError::NotFormatted => ScriptFault::NotFormatted,
        OpenError::Version { found } => ScriptFault::Version(found),
        OpenError::Damaged { sector } => ScriptFault::Damaged(sector),
    }
}
