//! What follows from the definitions alone, and from what the calls of a hub promise. A call of one does nothing; its
//! contract is the law.

ghost use Rattle.std.specs.Prelude.{◌≡◌, ℕ, Bool, List, ◌++◌, length, drop};
ghost use Rattle.ipc_limits.specs.declared.limits.Limits.{Limits};
ghost use Rattle.ipc_hub.specs.Clients.{Client, Clients, client_at, feed, take_in, arriving, fitted, all_bytes, shown};
ghost use Rattle.ipc_hub.specs.Unmarked.{unmarked};
ghost use Rattle.ipc_store.specs.Histories.{Past};
ghost use Rattle.ipc_store.specs.Lives.{StandsAfter};
ghost use Rattle.ipc_store.specs.View.{StoreView};
ghost use Rattle.ipc_hub.specs.Lives.{ClientCall, Life, Lives, Rested, HasHistory, RestsAfter};
ghost use Rattle.ipc_hub.specs.Relations.Matches.{AreFrames};
ghost use Rattle.ipc_hub.specs.Replies.{IsAnswered};
ghost use Rattle.ipc_engine.specs.Event.{PlainEvent};
ghost use Rattle.ipc_state.specs.State.{State};

use ipc_disk::SectorDisk;
use ipc_engine::{event_sets_clock, late_tick_does_nothing, nobody_waits_who_could_go_on};
use ipc_store::{
    a_stop_leaves_what_was_acknowledged, an_open_finds_what_stands_there,
    an_open_finds_what_was_acknowledged,
};

/// Bytes of a connection that are taken in in two pieces are taken in at once, with the same requests refused
/// for memory.
pub fn bytes_come_in_any_pieces()
    ensures { (limits : Limits) (h : Clients) (conn moment : ℕ) (bytes more : List ℕ) (refused later : List Bool)
        → take_in limits (take_in limits h conn bytes moment refused) conn more moment later
        ≡ take_in limits h conn (bytes ++ more) moment
        (fitted (length (arriving (client_at h conn) bytes)) refused ++ later) }
{}

/// Bytes that are fed in two pieces at one moment do what they do at once, with the same requests refused for memory.
/// Only the second tick is counted, too, so that the marks of later frames are greater by one.
pub fn feeds_come_in_any_pieces()
    ensures { (limits : Limits) (h : Clients) (conn moment : ℕ) (bytes more : List ℕ) (refused later : List Bool)
        → unmarked (feed limits (feed limits h conn bytes moment refused) conn more moment later)
        ≡ unmarked (feed limits h conn (bytes ++ more) moment
        (fitted (length (arriving (client_at h conn) bytes)) refused ++ later)) }
{
    event_sets_clock();
    late_tick_does_nothing();
    nobody_waits_who_could_go_on();
}

/// When all events are confirmed, as after a release, a client may see all its frames.
pub fn released_frames_are_all_shown()
    ensures { (accepted : ℕ) (c : Client) → AreFrames accepted c.frames
        → shown accepted c ≡ drop c.consumed (all_bytes c.frames) }
{}

/// A call of the definitions takes no event back. It keeps the state that after the events, and each frame of each
/// client an answer to this client.
pub fn calls_keep_answers()
    ensures { (limits : Limits) (base : State) (h next : Clients) → IsAnswered limits base h
        → ClientCall limits h next → IsAnswered limits base next
        × ((more : List PlainEvent) × (next.events ≡ h.events ++ more)) }
{}

/// Over any number of lives on a disk, each of which may end at any moment of any call, and any
/// number of opens that are stopped at any moment before one succeeds: the machine has one history.
/// It has what was there before, and of each life some of the accepted events, from the first on.
/// All that were confirmed are among them, and so is the event of each frame that a client could
/// see, in any life; the frame is a reply to the process that the client's own HELLO gave, or a refusal. Each open
/// gives the state after the history so far, and a restart. It is so of the disk at rest after these lives, whatever
/// it keeps, and of the store that is opened on it.
pub fn no_answer_is_taken_back<D: SectorDisk>()
    ensures rests { (past : Past) (disk left : D) (lives : List Life) → StandsAfter past (D.medium disk)
        → Rested D.medium past.limits disk lives left → RestsAfter past lives (D.medium left) }
    ensures history { (past : Past) (disk : D) (lives : List Life) (opened : StoreView D)
        → StandsAfter past (D.medium disk) → Lives D.medium past.limits disk lives opened
        → HasHistory (D.medium opened.disk) past lives opened }
{
    a_stop_leaves_what_was_acknowledged::<D>();
    an_open_finds_what_stands_there::<D>();
    an_open_finds_what_was_acknowledged::<D>();
}
