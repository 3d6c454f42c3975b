//! How far the making of a device is, said on a terminal.

use ipc_disk::Progress;
use std::io::IsTerminal;

/// Says how many sectors a file has of those that it is to have, in one line that each number writes
/// anew. It says nothing if standard error is no terminal.
#[derive(Drop)]
pub struct Meter<'a, E> {
    errors: &'a E,
    sectors: u32,
    is_terminal: bool,
    // The line has begun.
    is_open: bool,
}

impl<'a, E: Eprint + IsTerminal> Meter<'a, E> {
    /// A meter for so many sectors, which has said nothing.
    pub fn new(errors: &'a E, sectors: u32) -> Self {
        Meter {
            errors,
            sectors,
            is_terminal: errors.is_terminal(),
            is_open: false,
        }
    }

    /// Ends the line if it has begun: what is said next begins a line of its own.
    pub fn end(self) {
        if self.is_open {
            let _said = eprintln!(self.errors);
        }
    }
}

impl<E: Eprint> Progress for Meter<'_, E> {
    fn reached(&mut self, sectors: u32) {
        if !self.is_terminal {
            return;
        }
        self.is_open = true;
        // The device is made also if the terminal is gone.
        let _said = eprint!(self.errors; "\ripcd: {sectors} of {} sectors", self.sectors);
    }
}
