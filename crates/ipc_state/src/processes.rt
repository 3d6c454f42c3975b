//! The connected processes.

ghost use Rattle.std.specs.Prelude.{◌≡◌, true, false, [], map, OnOk, OnErr};
ghost use Rattle.ipc_state.specs.Held.{Ready, left};
ghost use Rattle.ipc_state.specs.Restored.{with_last_process};
ghost use Rattle.ipc_state.specs.State.{
  is_process,
  cred_of,
  has_all_processes,
  with_process,
  without_process,
  exit,
  next_pid_after,
  restart,
};
ghost use Rattle.ipc_state.specs.Tables.{item_row};

use crate::descriptors::Descriptors;
use crate::numbered::Item;
use crate::state::State;
use ipc_base::{Cred, Pid};
use sem_undo::SemUndo;
use std::alloc::AllocError;

/// What a connected process has: its user and group, and its descriptors.
#[derive(Drop)]
pub struct Process {
    pub cred: Cred,
    pub descriptors: Descriptors,
}

impl State {
    /// The number of the next process.
    pub fn next_pid(&self) -> u32
        ensures { result ≡ self.now.state.processes.next }
    {
        self.processes.next()
    }

    /// The connected processes, by pid.
    pub fn processes(&self) -> &[Item<Process>]
        ensures { map item_row result.now ≡ self.now.state.processes.entries }
    {
        self.processes.items()
    }

    /// Whether a process has this number.
    pub fn has_process(&self, pid: Pid) -> bool
        ensures { result ≡ is_process self.now.state pid.0 }
    {
        self.processes.get(pid.0).is_some()
    }

    /// The user and the group of a connected process.
    pub fn cred(&self, pid: Pid) -> Cred
        requires { is_process self.now.state pid.0 ≡ true }
        ensures { result ≡ cred_of self.now.state pid.0 }
    {
        self.processes.get(pid.0).unwrap().value.cred
    }

    /// Whether no process can be added: there are as many as the limit says, or no number is left.
    pub fn has_all_processes(&self) -> bool
        ensures { result ≡ has_all_processes self.now.limits self.now.state }
    {
        self.processes.is_full(self.limits.processes)
    }

    /// Takes the memory for one process more.
    pub fn reserve_process(&mut self) -> Result<(), AllocError>
        ensures ok { OnOk result (self.new ≡ record self.old { ready = Ready.Process }) }
        ensures err { OnErr result (self.new ≡ record self.old { ready = Ready.Nothing }) }
    {
        self.release();
        let undo = SemUndo::new(self.alloc)?;
        let descriptors = Descriptors::new(self.alloc)?;
        self.processes.reserve()?;
        self.undo.reserve()?;
        self.fresh = Some((undo, descriptors));
        Ok(())
    }

    /// Adds a process under the next number, which it gives. It takes no memory.
    pub fn add_process(&mut self, cred: Cred) -> Pid
        requires ready { self.old.ready ≡ Ready.Process }
        requires more { has_all_processes self.old.limits self.old.state ≡ false }
        ensures added { self.new ≡ left self.old (with_process self.old.state cred) }
        ensures pid { result.0 ≡ self.old.state.processes.next }
    {
        let (mut undo, mut descriptors) = self.fresh.take().unwrap();
        undo.clear_all();
        descriptors.clear();
        let pid = self.processes.add(Process { cred, descriptors });
        self.undo.push(pid, undo);
        self.release();
        Pid(pid)
    }

    /// Takes a process out, if it is there, with its descriptors, its registrations and its call that waits; its
    /// adjustments are added, and what it has attached is detached. Objects without a name, and segments that are
    /// marked, go that only it had open.
    pub fn remove_process(&mut self, pid: Pid)
        ensures { self.new ≡ left self.old (exit self.old.state pid.0) }
    {
        self.drop_process(pid);
        self.deregister(Some(pid.0), None);
        self.sweep();
    }

    /// Takes a process out, and its call that waits; its adjustments are added, and what it has attached is detached.
    fn drop_process(&mut self, pid: Pid)
        ensures { self.new ≡ left self.old (without_process self.old.state pid.0) }
    {
        self.add_adjustments_of(pid);
        self.detach_all(pid);
        self.undo.remove(pid.0);
        self.processes.remove(pid.0);
        let _waiting = self.wait.leave(pid);
        self.release();
    }

    /// The server has stopped and begun anew: no process is left, no call waits, nobody is registered, the adjustments
    /// are added, what is attached is detached, and objects without a name go, and segments that are marked. On version
    /// 3 the next process has the number 1. It takes no memory.
    pub fn restart(&mut self)
        ensures { self.new ≡ left self.old (restart self.old.limits self.old.state) }
    {
        self.add_all_adjustments();
        self.detach_each();
        self.undo.clear();
        self.clear_processes();
        self.wait.clear();
        self.deregister(None, None);
        self.sweep();
    }

    /// No process is left. On version 3 the next one has the number 1.
    fn clear_processes(&mut self)
        ensures { self.new ≡ left self.old (record self.old.state {
          processes = record { next = next_pid_after self.old.limits self.old.state; entries = [] };
        }) }
    {
        self.processes.clear();
        if self.limits.has_rules_of_three() {
            self.processes.set_next(1);
        }
        self.release();
    }

    /// Adds a process that was read, at the end. Refused for want of memory, all is as before.
    pub fn restore_process(&mut self, pid: Pid, process: Process) -> Result<(), AllocError>
        ensures state { OnOk result (self.new.state ≡ with_last_process self.old.state pid.0 process) }
        ensures limits { self.new.limits ≡ self.old.limits }
        ensures err { OnErr result (self.new ≡ self.old) }
    {
        self.processes.reserve()?;
        self.processes.push(pid.0, process);
        Ok(())
    }
}
