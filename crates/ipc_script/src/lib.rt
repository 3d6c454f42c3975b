//! Scripts: lines of what connections do and when, run on a fresh hub. What it lets out is written.
//!
//! Where a rule stands (definition, code, proof):
//!
//! - A line: `specs/Line.antt`, `src/line.rt`; what it does and writes: `specs/Script.antt`, `src/script.rt`,
//!   `src/report.rt`
//! - The lines `save` and `stop`: `src/reopening.rt`; the listing: `specs/Dump.antt`, `src/listing.rt`
//! - What a script leaves on its disk: `specs/Leaves.antt`, `specs/Stops.antt`, `specs/ByLines.antt`, `src/laws.rt`,
//!   `proofs/Going.antt`
//! - What is written when the disk fails: `specs/Halting.antt`, `proofs/Halting.antt`
//! - A fault's text: `specs/Fault.antt`, `src/fault.rt`
//!
//! What the clauses say:
//!
//! `run_script` has one clause, which cites `Runs` of `specs/Script.antt`. It holds for every reader: there is a
//! script, and if the reader tells what bytes it has, the script is these. If the writer tells what it holds, then:
//!
//! - If the answer is Ok, what was written is the text of the script's run by the definitions: after each line, of each
//!   connection in rising number, a line for each frame, and one if the server has ended it.
//! - `BadLine`, `InUse` and `Unknown` carry the number of the first line that is bad, opens an open connection, or
//!   names one that is not open. What was written is the text of the run up to that line.
//! - `TooLong`: the script is too long, and nothing was written. `Input`: a read failed, and nothing was written.
//! - `NoMemory` and `Output`: what was written is a beginning of the run's text (`BreaksOff`).
//! - `Device`, `NotFormatted`, `Version` and `Damaged`: the disk failed, or was not opened again by a line `stop`. Of a
//!   store that goes on and has used less than 2^63 of its numbers, no script is refused so unless the disk has counted
//!   one failure more, and then the answer is `Device` (`IsYoung`, `DiskFailed`; of a script with a line `stop` if the
//!   disk is honest). What was written is the text of the lines before, and then some more (`Halts`). Of such a store
//!   it is known what: what was done of the line and had been written, and then a beginning of what the connections had
//!   to say when the server had failed, which is their frames that are confirmed, an EIO frame, and their ends
//!   (`specs/Halting.antt`, `halted` of `EndsAfter`); how much of that, memory and the writer decide. That it is all of
//!   it if they allow is tested (`script_calls.py` of `tests/`, in `make serves`; `make runs`).
//!
//! After a line `stop` the text goes on from the state after a restart, with no connection. That the device opens to
//! that state is known of an honest disk alone, so of a script with such a line the clause holds if the disk is honest
//! (`MayStop`).
//!
//! The disk is handed back in every case. The clause says what is on it (`specs/Leaves.antt`), of a script with a line
//! `stop` if the disk is honest:
//!
//! - The run is lives of the device, one more than there were lines `stop` (`lives`, `specs/Stops.antt`). In each the
//!   store takes some events (`Takes` of `ipc_store`), so a crash at any moment of it leaves what was acknowledged
//!   before it, and of the other events some, from the first on. At a `stop` the store goes on and nothing waits in it,
//!   and the next one is opened on its disk; a crash within that open leaves what any open leaves (`IsReopened`).
//! - The disk that is handed back is that of the store that was closed last. If memory, a write or the disk failed and
//!   a line `stop` did not open it again, it is what that open left (`handed`).
//! - If nothing waited before the run, nothing waits after it, so that all of these events stand there, unless the
//!   fault is the disk's (`settled`).
//! - If the answer is Ok, the events lead to the state to which the script's lines lead by the definitions
//!   (`script_after`), for the same pieces and refusals as the text that was written, and a store that was young goes
//!   on (`state`).
//! - Line by line (`by_lines`, `specs/ByLines.antt`): the first lines of the script were run, each as the definitions
//!   run it, and their whole text was written. The store took the events of each, which are those by which the clients
//!   of the definitions come from before the line to after it (`LastsAs`), and left none that waits if none waited
//!   before; a store that was young goes on. If the answer is Ok, or the next line is wrong, or the script was not
//!   read, nothing was accepted after these lines and nothing more was written: the store that is closed is as they
//!   left it, in the state of the run. If memory, a write or the disk failed, it took the events of a first part of the
//!   next line, or none (`TakesNext`: of a line of bytes so many of them, for some cut; of another line the whole), and
//!   maybe more was written.
//!
//! Two laws follow:
//!
//! - `a_stop_takes_nothing_back`: over the lives of a run the device has one history. Nothing that was accepted before
//!   the run or in it is taken back at a `stop`, each of which adds a restart. If the last store goes on and nothing
//!   waits in it, its disk stands for the state after that history.
//! - `lines_that_were_run_stay`: a machine that is stopped at any moment of a line leaves all that was accepted before
//!   the script and in the lines before, whose text was written, and some of the line's events, from the first on. So
//!   it is if nothing waited before the script, and if the store was young then (`IsYoung`). Of the events that were
//!   accepted in the lines the last are those by which the definitions come to the run, since its last restart
//!   (`KeepsLines` `named`). Each frame in the text of a line is a reply of one of the events that the device keeps, to
//!   the process that the HELLO of its own connection gave, or a refusal (ENOMEM, EPROTO, EIO), if it was so of the hub
//!   before the script (`IsTold` `answers`, `TellsLines`).
//!
//! The laws go by whole lines: that each piece of a long line, and the text of a line itself, are written only after
//! their events were made last follows from the clauses of the hub alone.
//!
//! Two things are a choice in the run: in which pieces, each of at least one byte, `feed` took the bytes of a line, and
//! which requests were refused for memory.
//!
//! `list_objects` writes the rows of `Engine::list` of a machine, a line for each (`specs/Dump.antt`): all of them if
//! it is Ok, else a beginning of them; `dump` those of a store's machine.
//!
//! Below it: `line_of` is the line that a text spells, `first_line` cuts the script as the definition does,
//! `Hex::decode` is the bytes of its digits, `read_script` is all that there was to read. A fault prints as its text
//! (`specs/Fault.antt`).
#![tactic(auto)]

mod digits;
mod fault;
mod input;
mod laws;
mod line;
mod listing;
mod reopening;
mod report;
mod script;

pub use fault::ScriptFault;
pub use laws::{a_stop_takes_nothing_back, lines_that_were_run_stay};
pub use listing::{DumpError, dump, list_objects};
pub use script::run_script;
