//! What follows from what a run promises. A call of it does nothing; its contract is the law.

ghost use Rattle.std.specs.Prelude.{◌≡◌, ℕ, List};
ghost use Rattle.ipc_limits.specs.declared.limits.Limits.{Limits};
ghost use Rattle.ipc_engine.specs.Event.{PlainEvent};
ghost use Rattle.ipc_hub.specs.Clients.{Clients};
ghost use Rattle.ipc_store.specs.Histories.{History, Keeps, Takes};
ghost use Rattle.ipc_store.specs.View.{StoreView};
ghost use Rattle.ipc_script.specs.ByLines.{HasRunLines, KeepsLines};
ghost use Rattle.ipc_script.specs.Script.{IsYoung, Run};
ghost use Rattle.ipc_script.specs.Stops.{ContinuesFrom, LivesOn};

use ipc_disk::SectorDisk;
use ipc_hub::calls_keep_answers;
use ipc_store::an_open_finds_what_stands_there;

/// Over the lives of a run, as many as there were lines `stop` and one more, the device has one
/// history: nothing that was accepted before the run or in a line of it is taken back at a stop, each
/// of which adds a restart. If the last store goes on and nothing waits in it, its disk stands for the
/// state after that history.
pub fn a_stop_takes_nothing_back<D: SectorDisk>()
    ensures { (old new : StoreView D) (before : History) → Keeps (D.medium old.disk) old before
        → LivesOn D.medium old new → ContinuesFrom D.medium before new }
{
    an_open_finds_what_stands_there::<D>();
}

/// A machine that is stopped at any moment of a line leaves the lines before, whose text was written:
/// the disk stands for the state after all that was accepted before the script and in those lines,
/// and some of the events of the line, from the first on. So it is if nothing waited before the
/// script, and if the store was young then. Of the events that were accepted in the lines, the last
/// are those by which the definitions come to the run, since its last restart; and each frame in the text
/// of these lines is a reply of one of the events that the device keeps, to the process that the HELLO of its own
/// connection gave, or a refusal.
pub fn lines_that_were_run_stay<D: SectorDisk>()
    ensures { (limits : Limits) (h : Clients) (old last next : StoreView D) (before : History) (number : ℕ)
        (lines : List (List ℕ)) (r : Run) (text : List ℕ) (events : List PlainEvent)
        → Keeps (D.medium old.disk) old before → old.waiting ≡ 0
        → HasRunLines D.medium limits old h number lines last r text → IsYoung old
        → Takes D.medium last events next
        → KeepsLines D.medium limits before h number lines last r text events next }
{
    calls_keep_answers();
    an_open_finds_what_stands_there::<D>();
}
