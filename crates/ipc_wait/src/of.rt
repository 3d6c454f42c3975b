//! The calls on an object.

ghost use Rattle.std.specs.Prelude.{◌≡◌};
ghost use Rattle.std.specs.Iterator.{YieldsFirstRef, item_count};
ghost use Rattle.ipc_wait.specs.Waits.{calls_on};

use crate::list::Waiting;
use std::marker::Model;

/// The calls on an object that are left to give, in order.
#[derive(Drop)]
pub struct Of<'a, O: Copy + Eq, C> {
    rest: &'a [Waiting<O, C>],
    on: O,
}

impl<'a, O: Copy + Eq, C> Model for Of<'a, O, C> {
    ghost use Rattle.std.specs.Prelude.{List};
    ghost use Rattle.ipc_wait.specs.declared.list.Waiting.{Waiting};
    ghost use Rattle.ipc_wait.specs.Waits.{calls_on};

    ghost Value = { List (Waiting O C) };

    ghost view = { λ s. calls_on O.eq s.on s.rest.now };
}

impl<'a, O: Copy + Eq, C> Of<'a, O, C> {
    pub(crate) fn new(rest: &'a [Waiting<O, C>], on: O) -> Of<'a, O, C>
        ensures { result ≡ calls_on O.eq on rest.now }
    {
        Of { rest, on }
    }
}

impl<'a, O: Copy + Eq, C> Iterator for Of<'a, O, C> {
    type Item = &'a Waiting<O, C>;

    ghost next_gives = { YieldsFirstRef (λ s. s) };

    ghost remaining = { item_count (λ s. s) };

    fn next(&mut self) -> Option<&'a Waiting<O, C>> {
        while let Some((first, others)) = self.rest.split_first() {
            self.rest = others;
            if first.on == self.on {
                return Some(first);
            }
        }
        None
    }
}
