//! What a store has done since it was opened, in numbers for whoever looks at it. Nothing that it does hangs on them.

ghost use Rattle.std.specs.Prelude.{◌≡◌, ◌<◌, Some, None, slice_get};
ghost use Rattle.ipc_base.specs.Errno.{number_of};

use ipc_base::Errno;
use ipc_engine::{Event, Outcome};

/// Its events by what they are, of the calls by their opcodes; its replies that are refusals, by their errors; its
/// commits, and those of them that saved the state. Each number ends at 18446744073709551615.
#[derive(Drop)]
pub struct Tally {
    pub connects: u64,
    pub interrupts: u64,
    pub ticks: u64,
    pub exits: u64,
    pub commits: u64,
    pub saves: u64,
    calls: [u64; 256],
    refusals: [u64; 128],
}

impl Tally {
    pub(crate) fn new() -> Tally {
        Tally {
            connects: 0,
            interrupts: 0,
            ticks: 0,
            exits: 0,
            commits: 0,
            saves: 0,
            calls: [0; 256],
            refusals: [0; 128],
        }
    }

    /// The calls of this opcode.
    pub fn calls(&self, opcode: u8) -> u64
        ensures { slice_get self.now.calls opcode ≡ Some result }
    {
        self.calls[usize::from(opcode)]
    }

    /// The replies with this error.
    pub fn refusals(&self, errno: Errno) -> u64
        ensures { slice_get self.now.refusals (number_of errno) ≡ Some result }
    {
        self.refusals[usize::from(errno.number())]
    }

    /// One more event, and its replies.
    pub(crate) fn count(&mut self, event: &Event<'_>, outcomes: &[Outcome]) {
        self.count_event(event);
        for outcome in outcomes {
            if let Some(errno) = outcome.errno {
                self.count_refusal(errno);
            }
        }
    }

    fn count_event(&mut self, event: &Event<'_>) {
        match event {
            Event::Connect { .. } => add_one(&mut self.connects),
            Event::Call { request, .. } => add_one(&mut self.calls[usize::from(request.opcode())]),
            Event::Interrupt { .. } => add_one(&mut self.interrupts),
            Event::Tick { .. } => add_one(&mut self.ticks),
            Event::Exit { .. } => add_one(&mut self.exits),
            Event::Restart => {}
        }
    }

    /// One more reply with this error.
    pub(crate) fn count_refusal(&mut self, errno: Errno) {
        add_one(&mut self.refusals[usize::from(errno.number())]);
    }

    /// One more commit, which has saved the state or not.
    pub(crate) fn count_commit(&mut self, saved: bool) {
        add_one(&mut self.commits);
        if saved {
            add_one(&mut self.saves);
        }
    }
}

fn add_one(count: &mut u64) {
    *count = count.saturating_add(1);
}
