//! Laws of the definitions alone. A call of one does nothing; its contract is the law.

ghost use Rattle.std.specs.Prelude.{◌≡◌, ◌≢◌, ◌+◌, ◌<◌, ◌≤◌, ℕ, Bool, true, false};
ghost use Rattle.std.specs.Prelude.{List, [], ◌∷◌, ◌++◌, length, map, max};
ghost use Rattle.std.specs.Prelude.{None, Some, All, is_some, nat_eq, not};
ghost use Rattle.std.specs.List.{fold};
ghost use Rattle.std.specs.List.Sorted.{IsPermutation, IsSortedBy, IsStableBy};
ghost use Rattle.ipc_base.specs.Table.{keys_of, value_at};
ghost use Rattle.ipc_base.specs.declared.errno.Errno.{Errno};
ghost use Rattle.ipc_base.specs.declared.errno.Errno.TheVariants.{EALREADY};
ghost use Rattle.ipc_limits.specs.declared.limits.Limits.{Limits};
ghost use Rattle.ipc_base.specs.declared.identity.Cred.{Cred};
ghost use Rattle.ipc_wire.specs.Request.{PlainKind, PlainRequest, Interrupt as Interrupts};
ghost use Rattle.ipc_keys.specs.declared.check.NameKind.{NameKind};
ghost use Rattle.ipc_state.specs.declared.parked.Awaited.{Awaited};
ghost use Rattle.ipc_state.specs.declared.parked.ObjectKind.TheVariants as kinds;
ghost use Rattle.ipc_state.specs.Attached.{detached_each};
ghost use Rattle.ipc_state.specs.Finish.{Finish, Finishes, Waits, refused};
ghost use Rattle.ipc_state.specs.Bound.{kept_if, holding};
ghost use Rattle.ipc_state.specs.Kinds.{Content};
ghost use Rattle.ipc_state.specs.Named.{NamedEntry, has_name};
ghost use Rattle.ipc_state.specs.Numbered.{entry_of};
ghost use Rattle.posix_mq.specs.Queue.{Queue as Mq, deregistered};
ghost use Rattle.ipc_state.specs.State.{State, start, cred_of, is_process, is_waiting, next_pid_after, restart};
ghost use Rattle.ipc_state.specs.State.{undone, with_waiting};
ghost use Rattle.ipc_state.specs.Waiting.{PlainWaiting, awaited_by, expiry};
ghost use Rattle.ipc_wait.specs.Waits.{calls_due, calls_left, is_due};
ghost use Rattle.sysv_calls.specs.Concern.{change_of, concerns};
ghost use Rattle.ipc_engine.specs.Event.{PlainEvent, Connect, Call, Interrupt, Tick, Exit, Restart, moment_of};
ghost use Rattle.ipc_engine.specs.Step.{step, run, silent, replied, after, settle, resumed, can_resume, most_replies};
ghost use Rattle.ipc_engine.specs.Step.{due, expired, is_call, tried, waiting_on};
ghost use Rattle.ipc_state.specs.Sound.{HasSoundParts, FitsBody};
ghost use Rattle.ipc_engine.specs.Bytes.{IsAnswered, IsGreeted, allowed, asked_count, asks, bytes_to, most_owed, owed};
ghost use Rattle.ipc_engine.specs.Bytes.{replies_to, unanswered};
ghost use Rattle.ipc_engine.specs.Engine.{IsForProcess, HasRequest};
ghost use Rattle.ipc_engine.specs.Listing.{by_name, is_named_before};
ghost use Rattle.ipc_engine.specs.Idle.{AreForProcesses, IsAnsweredAlone, Rise, answer, answers, is_accepted, is_idle};
ghost use Rattle.ipc_engine.specs.Idle.{recorded};
ghost use Rattle.ipc_engine.specs.Sound.{IsSound, NoneIsDue};

/// The state is sound before the first event, and after each event if it was before. The process that the event names
/// is connected, and the request of a call has a frame.
pub fn step_keeps_soundness()
    ensures start { (limits : Limits) → IsSound limits start }
    ensures step { (limits : Limits) (s : State) (e : PlainEvent)
        → IsSound limits s → IsForProcess s e → HasRequest e → IsSound limits (step limits s e).state }
{}

/// After an event no call waits that could go on, and none whose deadline has come; the latter whatever the state was.
pub fn nobody_waits_who_could_go_on()
    ensures waits { (limits : Limits) (s : State) (e : PlainEvent)
        → IsSound limits s → IsForProcess s e → HasRequest e
        → All (λ w. can_resume limits (step limits s e).state w ≡ false) (step limits s e).state.wait }
    ensures early { (limits : Limits) (s : State) (e : PlainEvent) → NoneIsDue (step limits s e).state }
{}

/// If none of those before a call in the list can go on, and it can, then it is the first that is answered: it leaves
/// the list, its process is sent one reply to it, whoever is to be told of a message that it sent is told, and all are
/// looked at again.
pub fn the_earliest_goes_on_first()
    ensures first { (limits : Limits) (s : State) (before later : List PlainWaiting) (w : PlainWaiting)
        → HasSoundParts limits s → s.wait ≡ before ++ w ∷ later
        → All (λ v. can_resume limits s v ≡ false) before → can_resume limits s w ≡ true
        → settle limits s ≡ after (resumed limits s w) (settle limits) }
    ensures answered { (limits : Limits) (s : State) (before later : List PlainWaiting) (w : PlainWaiting)
        → HasSoundParts limits s → s.wait ≡ before ++ w ∷ later → can_resume limits s w ≡ true
        → IsAnswered w (resumed limits s w) }
    ensures left { (limits : Limits) (s : State) (before later : List PlainWaiting) (w : PlainWaiting)
        → HasSoundParts limits s → s.wait ≡ before ++ w ∷ later
        → (resumed limits s w).state.wait ≡ before ++ later }
{}

/// A call that waits has to wait on when a call of another process has come to its end, if what that changes does not
/// concern it. So those are tried again that it concerns, and no other.
pub fn calls_of_no_concern_wait_on()
    ensures { (limits : Limits) (s : State) (pid other : ℕ) (again : Bool) (kind waiting : PlainKind) (f : Finish)
        → tried limits s pid again kind ≡ Finishes f → other ≢ pid → concerns (change_of kind) waiting ≡ false
        → tried limits s other true waiting ≡ Waits → tried limits f.state other true waiting ≡ Waits }
{}

/// No body of a reply is longer than the longest one.
pub fn replies_fit()
    ensures { (limits : Limits) (s : State) (e : PlainEvent)
        → IsSound limits s → All (λ o. FitsBody limits o.body) (step limits s e).outcomes }
{}

/// No event causes more frames than `most_replies`.
pub fn replies_are_few()
    ensures { (limits : Limits) (s : State) (e : PlainEvent) → IsSound limits s
        → length (step limits s e).outcomes ≤ most_replies limits }
{}

/// A request is answered once at most, at once or later: the replies that a process is sent by an event, and what it
/// waits for then, are no more than what it waited for, and one more if it makes a request by it. Notifications, which
/// have serial 0, are no replies.
pub fn a_request_is_answered_once()
    ensures { (limits : Limits) (s : State) (e : PlainEvent) (pid : ℕ) → IsSound limits s → 0 < pid
        → replies_to pid (step limits s e).outcomes + unanswered (step limits s e).state pid
        ≤ unanswered s pid + asked_count s e pid }
{}

/// An event sends a process no more bytes of frames than it has asked for: what it is sent and what it is owed then are
/// no more than what it was owed, and one longest reply if it makes a request, or is the one that a HELLO makes. A
/// process that has registered with a POSIX queue is owed the notification; the reply to its mq_notify(3) is so short
/// that both are no more than the longest.
pub fn replies_are_asked_for()
    ensures { (limits : Limits) (s : State) (e : PlainEvent) (pid : ℕ) → IsSound limits s → 0 < pid
        → bytes_to pid (step limits s e).outcomes + owed limits (step limits s e).state pid
        ≤ owed limits s pid + allowed limits s e pid }
{}

/// No process is owed more than `most_owed`, and what is no process is owed nothing.
pub fn debts_are_bounded()
    ensures most { (limits : Limits) (s : State) (pid : ℕ) → IsSound limits s → owed limits s pid ≤ most_owed limits }
    ensures none { (limits : Limits) (s : State) (pid : ℕ) → IsSound limits s → is_process s pid ≡ false
        → owed limits s pid ≡ 0 }
{}

/// If a process makes a request and is sent nothing for it, then no call of it waited before, and one waits now.
pub fn unanswered_request_waits()
    ensures { (limits : Limits) (s : State) (e : PlainEvent) (pid : ℕ) → IsSound limits s → is_process s pid ≡ true
        → asks s e pid ≡ true → bytes_to pid (step limits s e).outcomes ≡ 0
        → (unanswered s pid ≡ 0) × (unanswered (step limits s e).state pid ≡ 1) }
{}

/// The last reply of a HELLO is its own.
pub fn hello_is_answered_last()
    ensures { (limits : Limits) (s : State) (cred : Cred) (serial moment : ℕ) → IsSound limits s
        → IsGreeted s (step limits s (Connect cred serial moment)) }
{}

/// A tick at a moment that has been changes nothing and says nothing, if no call waits whose deadline has come: so
/// after every event, and in every sound state.
pub fn late_tick_does_nothing()
    ensures tick { (limits : Limits) (s : State) (moment : ℕ)
        → NoneIsDue s → moment ≤ s.clock → step limits s (Tick moment) ≡ silent s }
    ensures sound { (limits : Limits) (s : State) → IsSound limits s → NoneIsDue s }
{}

/// A run is a run of its parts: the second part begins where the first ends, and the replies of the first come
/// first.
pub fn run_of_parts()
    ensures state { (limits : Limits) (s : State) (before after : List PlainEvent)
        → (run limits s (before ++ after)).state ≡ (run limits (run limits s before).state after).state }
    ensures outcomes { (limits : Limits) (s : State) (before after : List PlainEvent)
        → (run limits s (before ++ after)).outcomes
        ≡ (run limits s before).outcomes ++ (run limits (run limits s before).state after).outcomes }
{}

/// An event sets the clock to its moment, or leaves it where it is later.
pub fn event_sets_clock()
    ensures { (limits : Limits) (s : State) (e : PlainEvent)
        → (step limits s e).state.clock ≡ max s.clock (moment_of e) }
{}

/// A call that is refused leaves what its moment leaves, and so does one of a process of which a call waits: it is
/// refused with EALREADY.
pub fn refused_call_changes_nothing()
    ensures refused { (limits : Limits) (s : State) (pid moment : ℕ) (request : PlainRequest) (e : Errno)
        → IsSound limits s → is_call request.kind ≡ true
        → tried limits (due moment s).state pid false request.kind ≡ Finishes (refused (due moment s).state e)
        → (step limits s (Call pid request moment)).state ≡ (due moment s).state }
    ensures waiting { (limits : Limits) (s : State) (pid moment : ℕ) (request : PlainRequest)
        → is_call request.kind ≡ true → is_waiting (due moment s).state pid ≡ true
        → step limits s (Call pid request moment)
        ≡ after (due moment s) (λ t. replied pid request.serial (refused t EALREADY)) }
{}

/// A call that cannot go on joins the end of those that wait, and is not answered yet. If its deadline is at or before
/// the clock, it is answered instead, as if the deadline had come while it waited.
pub fn call_that_cannot_go_on_waits()
    ensures joins { (limits : Limits) (s : State) (pid moment : ℕ) (request : PlainRequest) (on : Awaited)
        → awaited_by request.kind ≡ Some on → is_waiting (due moment s).state pid ≡ false
        → tried limits (due moment s).state pid false request.kind ≡ Waits
        → is_due (record { 0 = max s.clock moment }) (waiting_on (due moment s).state pid request on) ≡ false
        → step limits s (Call pid request moment)
        ≡ after (due moment s) (λ t. silent (with_waiting t (waiting_on t pid request on))) }
    ensures ends { (limits : Limits) (s : State) (pid moment : ℕ) (request : PlainRequest) (on : Awaited)
        → awaited_by request.kind ≡ Some on → is_waiting (due moment s).state pid ≡ false
        → tried limits (due moment s).state pid false request.kind ≡ Waits
        → is_due (record { 0 = max s.clock moment }) (waiting_on (due moment s).state pid request on) ≡ true
        → step limits s (Call pid request moment)
        ≡ after (due moment s) (λ t. replied pid request.serial (refused t (expiry request.kind))) }
{}

/// A moment ends the calls whose deadline is at or before it, and no other: each is answered once, in the order in
/// which they came.
pub fn deadlines_end_calls()
    ensures answered { (limits : Limits) (s : State) (moment : ℕ)
        → (step limits s (Tick moment)).outcomes
        ≡ map expired (calls_due (record { 0 = max s.clock moment }) s.wait) }
    ensures left { (limits : Limits) (s : State) (moment : ℕ)
        → (step limits s (Tick moment)).state.wait ≡ calls_left (record { 0 = max s.clock moment }) s.wait }
{}

/// A restart takes all calls away that wait, and sends nobody anything.
pub fn restart_leaves_no_call()
    ensures none { (limits : Limits) (s : State) → (step limits s Restart).state.wait ≡ [] }
    ensures silent { (limits : Limits) (s : State) → (step limits s Restart).outcomes ≡ [] }
{}

/// A call whose request is an INTERRUPT is an interrupt.
pub fn interrupt_call_is_an_interrupt()
    ensures { (limits : Limits) (s : State) (pid serial moment : ℕ)
        → step limits s (Call pid (record { serial = serial; kind = Interrupts }) moment)
        ≡ step limits s (Interrupt pid serial moment) }
{}

/// A connected process has a number from 1 to below the next.
pub fn pid_is_below_next()
    ensures least { (limits : Limits) (s : State) (pid : ℕ)
        → IsSound limits s → is_process s pid ≡ true → 1 ≤ pid }
    ensures below { (limits : Limits) (s : State) (pid : ℕ)
        → IsSound limits s → is_process s pid ≡ true → pid < s.processes.next }
{}

/// A HELLO that gets a process gets one that was not there, and every other stays.
pub fn connect_adds_one_process()
    ensures fresh { (limits : Limits) (s : State) (cred : Cred) (serial moment pid : ℕ)
        → IsSound limits s → is_process s pid ≡ true
        → All (λ o. o.errno ≡ None → o.pid ≢ pid) (step limits s (Connect cred serial moment)).outcomes }
    ensures there { (limits : Limits) (s : State) (cred : Cred) (serial moment : ℕ)
        → All (λ o. o.errno ≡ None
        → is_process (step limits s (Connect cred serial moment)).state o.pid ≡ true)
        (step limits s (Connect cred serial moment)).outcomes }
    ensures others { (limits : Limits) (s : State) (cred : Cred) (serial moment pid : ℕ)
        → is_process s pid ≡ true
        → is_process (step limits s (Connect cred serial moment)).state pid ≡ true }
{}

/// An exit takes its process out, and every other stays.
pub fn exit_removes_one_process()
    ensures gone { (limits : Limits) (s : State) (pid moment : ℕ)
        → IsSound limits s → is_process (step limits s (Exit pid moment)).state pid ≡ false }
    ensures others { (limits : Limits) (s : State) (pid other moment : ℕ) → other ≢ pid
        → is_process (step limits s (Exit pid moment)).state other ≡ is_process s other }
{}

/// After a restart no process is connected.
pub fn restart_leaves_no_process()
    ensures { (limits : Limits) (s : State) (pid : ℕ)
        → is_process (step limits s Restart).state pid ≡ false }
{}

/// After its exit a process has no adjustments.
pub fn exit_leaves_no_adjustment()
    ensures { (limits : Limits) (s : State) (pid moment : ℕ) → IsSound limits s
        → is_process s pid ≡ true
        → is_some (value_at nat_eq (step limits s (Exit pid moment)).state.undo pid) ≡ false }
{}

/// After a restart there are no adjustments: they were added to the semaphores, by rising pid, set and number.
pub fn restart_adds_adjustments()
    ensures none { (limits : Limits) (s : State) → (step limits s Restart).state.undo ≡ [] }
    ensures added { (limits : Limits) (s : State) → (step limits s Restart).state.semset ≡ fold undone s.semset s.undo }
{}

/// A restart leaves the queues, the identifiers of the sets and the numbers of those to come as they are, but for the
/// next process, which has the number 1 on version 3 (`next_pid`). Of POSIX
/// queues, named semaphores and segments those with a name are left, as they were but for a registration with a queue,
/// and no other. Of the System V segments, each detached by every process that had it attached, those that are not
/// marked are left (`shared`).
pub fn restart_keeps_objects()
    ensures next_pid { (limits : Limits) (s : State)
        → (step limits s Restart).state.processes.next ≡ next_pid_after limits s }
    ensures queues { (limits : Limits) (s : State) → (step limits s Restart).state.msg ≡ s.msg }
    ensures sets { (limits : Limits) (s : State)
        → keys_of (step limits s Restart).state.semset.entries ≡ keys_of s.semset.entries }
    ensures next_semset { (limits : Limits) (s : State) → (step limits s Restart).state.semset.next ≡ s.semset.next }
    ensures named { (limits : Limits) (s : State) (n : ℕ) (e : NamedEntry Mq) → entry_of s.mq n ≡ Some e
        → has_name e ≡ true
        → entry_of (step limits s Restart).state.mq n ≡ Some (holding e (deregistered e.object)) }
    ensures no_other { (limits : Limits) (s : State)
        → All (λ e. has_name e.1 ≡ true) (step limits s Restart).state.mq.entries }
    ensures next_mq { (limits : Limits) (s : State) → (step limits s Restart).state.mq.next ≡ s.mq.next }
    ensures psems { (limits : Limits) (s : State)
        → (step limits s Restart).state.psem ≡ kept_if (λ e. has_name e.1) s.psem }
    ensures segments { (limits : Limits) (s : State)
        → (step limits s Restart).state.pshm ≡ kept_if (λ e. has_name e.1) s.pshm }
    ensures shared { (limits : Limits) (s : State) → IsSound limits s
        → (step limits s Restart).state.shm
        ≡ kept_if (λ e. not e.1.object.is_marked) (detached_each s.clock s.shm s.processes.entries) }
{}

/// A restart twice is a restart once.
pub fn restart_twice_is_once()
    ensures state { (limits : Limits) (s : State) → restart limits (restart limits s) ≡ restart limits s }
    ensures step { (limits : Limits) (s : State)
        → step limits (step limits s Restart).state Restart ≡ step limits s Restart }
{}

/// A call leaves the pids, the next one, and the user and the group of each process as they are, but not always the
/// descriptors. An interrupt and a tick leave the processes as they are.
pub fn call_interrupt_and_tick_keep_processes()
    ensures next { (limits : Limits) (s : State) (pid moment : ℕ) (request : PlainRequest)
        → (step limits s (Call pid request moment)).state.processes.next ≡ s.processes.next }
    ensures pids { (limits : Limits) (s : State) (pid moment : ℕ) (request : PlainRequest)
        → keys_of (step limits s (Call pid request moment)).state.processes.entries ≡ keys_of s.processes.entries }
    ensures creds { (limits : Limits) (s : State) (pid other moment : ℕ) (request : PlainRequest)
        → cred_of (step limits s (Call pid request moment)).state other ≡ cred_of s other }
    ensures interrupt { (limits : Limits) (s : State) (pid serial moment : ℕ)
        → (step limits s (Interrupt pid serial moment)).state.processes ≡ s.processes }
    ensures tick { (limits : Limits) (s : State) (moment : ℕ)
        → (step limits s (Tick moment)).state.processes ≡ s.processes }
{}

/// Objects with a name are listed in the order of their names, byte by byte: none is named before the one ahead of it
/// (`sorted`). Those of the same name, in a sound state those without one, stay as they stood, by rising number
/// (`stable`). They are those that are there, each once (`all`).
pub fn objects_are_listed_by_name()
    ensures sorted { (kind : NameKind) (entries : List (ℕ × NamedEntry (Content (kinds.Named kind))))
        → IsSortedBy is_named_before (by_name entries) }
    ensures stable { (kind : NameKind) (entries : List (ℕ × NamedEntry (Content (kinds.Named kind))))
        → IsStableBy is_named_before entries (by_name entries) }
    ensures all { (kind : NameKind) (entries : List (ℕ × NamedEntry (Content (kinds.Named kind))))
        → IsPermutation entries (by_name entries) }
{}

/// An idle event leaves the state as it was but for the clock, and is answered to who asks alone. An exit and a restart
/// are never idle.
pub fn idle_events_set_the_clock_alone()
    ensures state { (limits : Limits) (s : State) (e : PlainEvent) → IsSound limits s → is_idle limits s e ≡ true
        → record (step limits s e).state { clock = s.clock } ≡ s }
    ensures alone { (limits : Limits) (s : State) (e : PlainEvent) → IsSound limits s → is_idle limits s e ≡ true
        → IsAnsweredAlone e (step limits s e).outcomes }
    ensures exit { (limits : Limits) (s : State) (pid moment : ℕ) → is_accepted limits s (Exit pid moment) ≡ true }
    ensures restart { (limits : Limits) (s : State) → is_accepted limits s Restart ≡ true }
{}

/// The state after an event is that after the events that are recorded of it; beside the state after its step it has
/// another clock at most.
pub fn recorded_events_give_the_state()
    ensures run { (limits : Limits) (s : State) (e : PlainEvent)
        → (run limits s (recorded limits s e)).state ≡ (answer limits s e).state }
    ensures clock { (limits : Limits) (s : State) (e : PlainEvent) → IsSound limits s
        → record (step limits s e).state { clock = (answer limits s e).state.clock } ≡ (answer limits s e).state }
{}

/// Whether idle events are accepted shows in no reply: where no moment is below one before it, events without a restart
/// are answered as they would be if all were accepted, and the states differ in the clock at most.
pub fn idle_events_show_in_no_reply()
    ensures outcomes { (limits : Limits) (s : State) (es : List PlainEvent) → IsSound limits s → Rise s.clock es
        → AreForProcesses limits s es
        → (answers limits s es).outcomes ≡ (run limits s es).outcomes }
    ensures state { (limits : Limits) (s : State) (es : List PlainEvent) → IsSound limits s → Rise s.clock es
        → AreForProcesses limits s es
        → record (run limits s es).state { clock = (answers limits s es).state.clock } ≡ (answers limits s es).state }
{}

/// After an event a tick at its moment does nothing and says nothing.
pub fn second_tick_does_nothing()
    ensures { (limits : Limits) (s : State) (e : PlainEvent) → e ≢ Restart
        → answer limits (answer limits s e).state (Tick (moment_of e)) ≡ silent (answer limits s e).state }
{}
