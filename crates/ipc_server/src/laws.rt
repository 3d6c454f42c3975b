//! What follows from what a turn promises. A call of it does nothing; its contract is the law.

ghost use Rattle.std.specs.Prelude.{◌≤◌, ℕ, All, List};
ghost use Rattle.ipc_limits.specs.declared.limits.Limits.{Limits};
ghost use Rattle.ipc_store.specs.View.{StoreView};
ghost use Rattle.ipc_store.specs.declared.fault.CommitError.{CommitError};
ghost use Rattle.ipc_hub.specs.Clients.{Clients};
ghost use Rattle.ipc_hub.specs.Lives.{Seen, Serving};
ghost use Rattle.ipc_hub.specs.View.{StoredHub};
ghost use Rattle.ipc_hub.specs.Relations.Matches.{StoredMatches};
ghost use Rattle.ipc_server.specs.declared.fault.ServeFault.{ServeFault};
ghost use Rattle.ipc_server.specs.Acts.{Act};
ghost use Rattle.ipc_server.specs.Runs.{RunsRound, Steps, StopsAt};
ghost use Rattle.ipc_server.specs.Served.{Served, StopsShort};
ghost use Rattle.ipc_server.specs.Turns.{GoesOn, SendsOf, Turns};

use ipc_disk::SectorDisk;

/// Any number of turns of a server, and the first calls of one more, are calls on its hub, one after
/// another. All that its clients were sent, in any of them, is of frames that were in an output of the
/// hub then. So the law over lives (`no_answer_is_taken_back`) holds of these frames and of a life that
/// ends within any call of a turn: what was written to a client before that call is not taken back, also
/// if it was written in the same turn.
pub fn turns_are_calls_on_a_hub<D: SectorDisk>()
    ensures calls { (limits : Limits) (opened : StoreView D) (moment : ℕ) (last : StoredHub D) (now : Clients)
        (seen : List Seen) → Turns D.medium limits opened moment last now seen
        → Serving D.medium limits opened last now seen }
    // Each byte that a client is sent in calls of a turn is of one of the frames that they add, which was seen in the
    // output of its own connection.
    ensures sent { (limits : Limits) (moment : ℕ) (last next : StoredHub D) (now : Clients) (acts : List Act)
        (sent : List Seen) → Steps D.medium moment limits last now next acts sent → All (SendsOf sent) acts }
    // A turn that went on, as its clause says, is one more of these.
    ensures turn { (limits : Limits) (opened : StoreView D) (before moment : ℕ) (last next : StoredHub D)
        (now : Clients) (seen : List Seen)
        → Turns D.medium limits opened before last now seen
        → StoredMatches limits last now → before ≤ moment → RunsRound D.medium moment last next
        → (goes : GoesOn D.medium limits opened moment next seen) × StoredMatches limits next goes.clients }
    // So is one that the disk has broken off.
    ensures broken { (limits : Limits) (opened : StoreView D) (before moment : ℕ) (last next : StoredHub D)
        (now : Clients) (seen : List Seen) (error : CommitError)
        → Turns D.medium limits opened before last now seen → StoredMatches limits last now
        → before ≤ moment → StopsAt D.medium D.counts moment last next error
        → GoesOn D.medium limits opened moment next seen }
    // As many as a server serves for are so many more.
    ensures served { (limits : Limits) (opened : StoreView D) (since moment turns : ℕ) (last next : StoredHub D)
        (now : Clients) (seen : List Seen)
        → Turns D.medium limits opened since last now seen
        → StoredMatches limits last now → Served D.medium since last turns moment next
        → (goes : GoesOn D.medium limits opened moment next seen) × StoredMatches limits next goes.clients }
    // So are those that it serves for until a fault.
    ensures stops_short { (limits : Limits) (opened : StoreView D) (since turns : ℕ) (last next : StoredHub D)
        (now : Clients) (seen : List Seen) (fault : ServeFault)
        → Turns D.medium limits opened since last now seen
        → StoredMatches limits last now → StopsShort D.medium D.counts since last turns next fault
        → (moment : ℕ) × GoesOn D.medium limits opened moment next seen }
{}
