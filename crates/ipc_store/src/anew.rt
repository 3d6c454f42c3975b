//! Objects that are written anew.

ghost use Rattle.std.specs.Prelude.{true};

use ipc_base::{Mark, Objects};

/// Some objects, each of which counts as changed: a save writes all of them.
#[derive(Drop)]
pub(crate) struct Anew<O>(pub(crate) O);

impl<O: Objects> Objects for Anew<O> {
    ghost objects = { λ a. O.objects a.0 };

    ghost differs = { λ a i. true };

    ghost marks = { λ a. O.marks a.0 };

    fn count(&self) -> u32 {
        self.0.count()
    }

    fn number(&self, i: u32) -> u64 {
        self.0.number(i)
    }

    fn changed(&self, _: u32) -> bool {
        true
    }

    fn len(&self, i: u32) -> u64 {
        self.0.len(i)
    }

    fn start(&self, i: u32) -> Mark {
        self.0.start(i)
    }

    fn bytes(&self, i: u32, place: u64, mark: &mut Mark, into: &mut [u8; 512]) {
        self.0.bytes(i, place, mark, into);
    }
}
