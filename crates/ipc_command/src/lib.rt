//! The command line of `ipcd`: its words, and what they ask for.
//!
//! Where a rule stands (definition, code, proof):
//!
//! - The words of a command: `specs/Command.antt`, `src/command.rt`; its rows: `runs.sh` and `words.py` of `tests/`
//!
//! What the clauses say:
//!
//! - The command line is the one of the definitions (`specs/Command.antt`): `ipcd`, below it `replay`, `format`,
//!   `upgrade`, `run`, `dump`, `list`, `backup`, `check` and `serve` with their flags and words (`command_line`).
//!   `parse` says of any words that are taken what they ask for, by what the parser's definitions find in them
//!   (`asked`), and of these words in particular, whatever the program is called: `replay` and `replay --small`
//!   (`standard`, `small`), `format DEVICE [--small] [--sectors N]` (`format`), `format DEVICE [--small] --journal N`
//!   (`journal`), `upgrade` with the words of the first (`upgrade`), `run DEVICE` (`run`), `dump DEVICE` (`dump`),
//!   `list DEVICE` (`list`), `backup DEVICE COPY` (`backup`), `check DEVICE` (`check`) and `serve DEVICE SOCKET
//!   [--turns N] [--metrics FILE]` (`serve`), for every DEVICE, COPY, SOCKET and FILE that is no flag and every N that
//!   fits into 32 bits, of a journal from 8 to 65535; these are refused for want of memory alone. No words are taken in
//!   which the parser's definitions find a fault, and the error is one of their faults, or want of memory (`refused`).
//! - `Refusal::status` is the exit status of a command line that asks for nothing, and `limits_of` the limits by
//!   whether small ones are asked for (`limits`), which are within the standard ones (`passed`, `within`).
#![tactic(auto)]

mod command;

pub use command::{Refusal, Request, limits_of, parse, request_of};
