//! What is done with all clients, in rising number.

ghost use Rattle.std.specs.Prelude.{◌≡◌, ◌==◌, ◌&&◌, ℕ, not, true, false, List, [], Option, None, IfErr, OnErr, OnOk};
ghost use Rattle.ipc_hub.specs.View.{StoredHub, is_connected, numbers_of};
ghost use Rattle.ipc_server.specs.Runs.{RunsCalls, RunsSuch, StopsAt};
ghost use Rattle.ipc_hub.specs.Relations.Faults.{Halts};
ghost use Rattle.ipc_server.specs.Rounds.{EndsConnection, EndsRound};
ghost use Rattle.ipc_server.specs.Rest.{has_work};
ghost use Rattle.ipc_server.specs.Rows.{clients_of, EachBelow, IsServing, KeepsClients, StandsIn, Stays};
ghost use Rattle.ipc_server.specs.Streams.{AnswersEach, AreSent, HearsEach, PartsWith, SendsEach, Streams};
ghost use Rattle.ipc_server.specs.View.{EachClient, HaveOwnNumbers, SomeClient, WasRead, WasWritten};
ghost use Rattle.ipc_server.specs.View.{client_of, has_failed, is_gone};

use crate::client::Client;
use ipc_base::Moment;
use ipc_disk::SectorDisk;
use ipc_hub::{Hub, ServeError};
use ipc_store::CommitError;
use mio::event::Source;
use mio::{Registry, Token};
use slab::Slab;
use std::io::{Read, Write};

/// Feeds the hub what the clients have written, makes all of it last at once, and writes to them what
/// they may see. Then parts with those that are gone.
pub(crate) fn serve_all<D: SectorDisk, S: Read + Write + Drop>(
    hub: &mut Hub<D>,
    clients: &mut Slab<Client<S>>,
    moment: Moment,
) -> Result<(), CommitError>
    ensures goes { OnOk result (RunsCalls D.medium moment.0 hub.old hub.new) }
    // Each client is fed what its own socket has given, and what it is sent is written to that.
    ensures streams { IsServing hub.old.hub clients.old → OnOk result (RunsSuch D.medium moment.0 hub.old hub.new
        (Streams S.remaining S.contents clients.old clients.new)) }
    ensures committed { OnOk result (hub.new.store.waiting ≡ 0) }
    ensures breaks { IfErr result (λ e. StopsAt D.medium D.counts moment.0 hub.old hub.new e) }
    ensures serving { IsServing hub.old.hub clients.old → IsServing hub.new.hub clients.new }
    ensures read { IsServing hub.old.hub clients.old
        → OnOk result (EachClient WasRead (clients_of clients.new)) }
    ensures parted { IsServing hub.old.hub clients.old → OnOk result ((written : StoredHub D)
        × (RunsCalls D.medium moment.0 hub.old written) × (EndsRound D.medium moment.0 written hub.new)
        × EachClient (λ c. is_gone written.hub c ≡ false) (clients_of clients.new)) }
    ensures written { IsServing hub.old.hub clients.old
        → OnOk result (EachClient (WasWritten hub.new.hub) (clients_of clients.new)) }
    ensures failed { IsServing hub.old.hub clients.old → OnOk result ((number : ℕ)
        → has_failed (clients_of clients.old) number ≡ true
        → client_of (clients_of clients.new) number ≡ None) }
{
    take_in_all(hub, clients, moment)?;
    answer_all(hub, clients)?;
    note_ends(hub, clients);
    part_with_gone(hub, clients, moment)?;
    answer_all(hub, clients)
}

// Feeds the hub what the clients have written.
fn take_in_all<D: SectorDisk, S: Read>(
    hub: &mut Hub<D>,
    clients: &mut Slab<Client<S>>,
    moment: Moment,
) -> Result<(), CommitError>
    ensures hears { OnOk result (RunsSuch D.medium moment.0 hub.old hub.new
        (HearsEach S.remaining clients.old clients.new)) }
    ensures breaks { IfErr result (λ e. StopsAt D.medium D.counts moment.0 hub.old hub.new e) }
    ensures numbers { numbers_of hub.new.hub ≡ numbers_of hub.old.hub }
    ensures keeps { KeepsClients clients.old clients.new }
    ensures read { OnOk result (EachBelow clients.new.capacity (λ c. c.over ≡ false → WasRead c)
        (clients_of clients.new)) }
{
    for key in 0..clients.capacity() {
        if let Some(client) = clients.get_mut(key) {
            client.take_in(hub, moment)?;
        }
    }
    Ok(())
}

// Makes all that was accepted last, and then writes to the clients what they may see.
fn answer_all<D: SectorDisk, S: Write>(
    hub: &mut Hub<D>,
    clients: &mut Slab<Client<S>>,
) -> Result<(), CommitError>
    ensures answers { OnOk result (AnswersEach D.medium S.contents hub.old hub.new clients.old clients.new) }
    ensures committed { OnOk result (hub.new.store.waiting ≡ 0) }
    ensures refused { IfErr result (λ e. Halts D.medium D.counts hub.old hub.new e) }
    ensures numbers { numbers_of hub.new.hub ≡ numbers_of hub.old.hub }
    ensures keeps { KeepsClients clients.old clients.new }
    ensures stays { Stays (clients_of clients.old) (clients_of clients.new) }
    ensures written { HaveOwnNumbers (clients_of clients.old) → OnOk result
        (EachBelow clients.new.capacity (WasWritten hub.new.hub) (clients_of clients.new)) }
{
    hub.release()?;
    put_out_all(hub, clients);
    Ok(())
}

/// Writes to the clients what they may see.
pub(crate) fn put_out_all<D: SectorDisk, S: Write>(hub: &mut Hub<D>, clients: &mut Slab<Client<S>>)
    ensures sends { SendsEach S.contents hub.old hub.new clients.old clients.new }
    ensures numbers { numbers_of hub.new.hub ≡ numbers_of hub.old.hub }
    ensures keeps { KeepsClients clients.old clients.new }
    ensures stays { Stays (clients_of clients.old) (clients_of clients.new) }
    ensures written { HaveOwnNumbers (clients_of clients.old)
        → EachBelow clients.new.capacity (WasWritten hub.new.hub) (clients_of clients.new) }
{
    for key in 0..clients.capacity() {
        if let Some(client) = clients.get_mut(key) {
            client.put_out(hub);
        }
    }
}

// Notes which clients are gone, all of them before the first is parted with.
fn note_ends<D: SectorDisk, S>(hub: &Hub<D>, clients: &mut Slab<Client<S>>)
    ensures keeps { KeepsClients clients.old clients.new }
    // No socket is written to.
    ensures sockets { (contents : S → Option (List ℕ)) → AreSent contents clients.old clients.new [] }
    ensures stands { StandsIn (clients_of clients.old) (clients_of clients.new) }
    ensures gone { EachBelow clients.new.capacity
        (λ c. c.over ≡ false → is_gone hub.now.hub c ≡ false) (clients_of clients.new) }
    ensures failed { EachBelow clients.new.capacity
        (λ c. c.writing.failed ≡ true → c.over ≡ true) (clients_of clients.new) }
{
    for key in 0..clients.capacity() {
        if let Some(client) = clients.get_mut(key) {
            client.note_end(hub);
        }
    }
}

// Hangs up and closes the connections whose clients are gone.
fn part_with_gone<D: SectorDisk, S: Drop>(
    hub: &mut Hub<D>,
    clients: &mut Slab<Client<S>>,
    moment: Moment,
) -> Result<(), CommitError>
    // The connections that are hung up are none of those clients that are left.
    ensures hangs_up { OnOk result (PartsWith D.medium moment.0 hub.old hub.new clients.old clients.new) }
    ensures breaks { IfErr result (λ e. StopsAt D.medium D.counts moment.0 hub.old hub.new e) }
    ensures sockets { (contents : S → Option (List ℕ)) → AreSent contents clients.old clients.new [] }
    ensures serving { IsServing hub.old.hub clients.old → IsServing hub.new.hub clients.new }
    ensures capacity { clients.new.capacity ≡ clients.old.capacity }
    ensures stands { StandsIn (clients_of clients.old) (clients_of clients.new) }
    ensures left { OnOk result (EachBelow clients.new.capacity (λ c. c.over ≡ false)
        (clients_of clients.new)) }
{
    for key in 0..clients.capacity() {
        let Some(client) = clients.get(key) else {
            continue;
        };
        if client.is_over() {
            hang_up(hub, client.conn(), moment)?;
            clients.try_remove(key);
        }
    }
    Ok(())
}

// Hangs up a connection.
fn hang_up<D: SectorDisk>(hub: &mut Hub<D>, conn: u32, moment: Moment) -> Result<(), CommitError>
    ensures hangs_up { OnOk result (EndsConnection D.medium moment.0 conn hub.old hub.new) }
    ensures breaks { IfErr result (λ e. StopsAt D.medium D.counts moment.0 hub.old hub.new e) }
    ensures leaves { OnOk result ((other : ℕ) → is_connected hub.new.hub other
        ≡ (not (other == conn) && is_connected hub.old.hub other)) }
    ensures stays { OnErr result (numbers_of hub.new.hub ≡ numbers_of hub.old.hub) }
{
    match hub.hangup(conn, moment) {
        Ok(()) => Ok(()),
        // It was hung up before: nothing was done.
        Err(ServeError::Unknown) => Ok(()),
        Err(ServeError::Device) => Err(CommitError::Device),
        Err(ServeError::Stopped) => Err(CommitError::Stopped),
    }
}

/// Whether a turn has something to do with one of the clients.
pub(crate) fn any_has_work<D: SectorDisk, S>(hub: &Hub<D>, clients: &Slab<Client<S>>) -> bool
    ensures some { result ≡ true
        → SomeClient (λ c. has_work hub.now.hub c ≡ true) (clients_of clients.now) }
    ensures none { result ≡ false → EachBelow clients.now.capacity
        (λ c. has_work hub.now.hub c ≡ false) (clients_of clients.now) }
{
    for key in 0..clients.capacity() {
        let Some(client) = clients.get(key) else {
            continue;
        };
        if client.has_work(hub) {
            return true;
        }
    }
    false
}

/// The system says of a client, if one has the key, that a read may give something.
pub(crate) fn wake<S>(clients: &mut Slab<Client<S>>, key: usize)
    ensures { KeepsClients clients.old clients.new }
{
    if let Some(client) = clients.get_mut(key) {
        client.wake();
    }
}

/// Has the system tell when the sockets that are full have room again.
pub(crate) fn ask_for_space<S: Source>(clients: &mut Slab<Client<S>>, registry: &Registry)
    ensures { KeepsClients clients.old clients.new }
{
    for key in 0..clients.capacity() {
        if let Some(client) = clients.get_mut(key) {
            client.ask_for_space(registry, Token(key));
        }
    }
}
