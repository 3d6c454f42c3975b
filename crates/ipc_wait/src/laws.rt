//! Laws of the definitions alone. A call of one does nothing; its contract is the law.

ghost use Rattle.std.specs.Prelude.{◌≡◌, ◌≢◌, ◌≤◌, ◌++◌, ◌∷◌, [], Bool, true, if◌then◌else◌, List};
ghost use Rattle.std.specs.Prelude.{Some, None, find, is_some};
ghost use Rattle.ipc_base.specs.declared.identity.Moment.{Moment};
ghost use Rattle.ipc_base.specs.declared.identity.Pid.{Pid};
ghost use Rattle.ipc_wait.specs.Waits.{HaveDistinctPids, waiting_call_of, without, calls_on, is_due};
ghost use Rattle.ipc_wait.specs.Waits.{calls_due, has_come, next_deadline};
ghost use Rattle.ipc_wait.specs.declared.list.Waiting.{Waiting};

/// A call that enters is the last on its object, and changes nothing on another. If it is due, it is
/// the last that is.
pub fn entered_is_last<O, C>()
    ensures on { (eq : O → O → Bool) (on : O) (calls : List (Waiting O C)) (w : Waiting O C)
        → calls_on eq on (calls ++ w ∷ [])
        ≡ (if eq w.on on then calls_on eq on calls ++ w ∷ [] else calls_on eq on calls) }
    ensures due { (now : Moment) (calls : List (Waiting O C)) (w : Waiting O C)
        → calls_due now (calls ++ w ∷ [])
        ≡ (if is_due now w then calls_due now calls ++ w ∷ [] else calls_due now calls) }
{}

/// If the call of a process leaves, the process has none, and each other one has what it had. The other
/// calls stay in order, on each object and among those that are due.
pub fn others_stay<O, C>()
    ensures left { (pid : Pid) (calls : List (Waiting O C))
        → waiting_call_of pid (without pid calls) ≡ None }
    ensures others { (pid other : Pid) (calls : List (Waiting O C)) → other ≢ pid
        → waiting_call_of other (without pid calls) ≡ waiting_call_of other calls }
    ensures on { (eq : O → O → Bool) (on : O) (pid : Pid) (calls : List (Waiting O C))
        → calls_on eq on (without pid calls) ≡ without pid (calls_on eq on calls) }
    ensures due { (now : Moment) (pid : Pid) (calls : List (Waiting O C))
        → calls_due now (without pid calls) ≡ without pid (calls_due now calls) }
{}

/// A call on an object is that of its process, and if it leaves, those before it and after it there are
/// left.
pub fn others_on_its_object_stay<O, C>()
    ensures found { (eq : O → O → Bool) (on : O) (calls before after : List (Waiting O C))
        (w : Waiting O C) → HaveDistinctPids calls → calls_on eq on calls ≡ before ++ w ∷ after
        → waiting_call_of w.pid calls ≡ Some w }
    ensures left { (eq : O → O → Bool) (on : O) (calls before after : List (Waiting O C))
        (w : Waiting O C) → HaveDistinctPids calls → calls_on eq on calls ≡ before ++ w ∷ after
        → calls_on eq on (without w.pid calls) ≡ before ++ after }
{}

/// A call that is due stays so; and one is due if and only if the earliest deadline has come.
pub fn deadlines_come<O, C>()
    ensures stays { (now later : Moment) (w : Waiting O C) → now.0 ≤ later.0 → is_due now w ≡ true
        → is_due later w ≡ true }
    ensures next { (now : Moment) (calls : List (Waiting O C))
        → has_come now (next_deadline calls) ≡ is_some (find (is_due now) calls) }
{}
