//! The state of a machine as objects, of which those count as changed that have since it was saved.

ghost use Rattle.std.specs.Prelude.{◌≡◌};
ghost use Rattle.ipc_base.specs.Objects.{Fit};
ghost use Rattle.ipc_image.specs.Changed.{differs_in};
ghost use Rattle.ipc_image.specs.Format.{IsOpened};
ghost use Rattle.ipc_image.specs.Saved.{saved_in, StandForStateIn};
ghost use Rattle.ipc_image.specs.Superblock.{AreOf};
ghost use Rattle.ipc_image.specs.SavedParts.{IsMarkOf};
ghost use Rattle.ipc_image.specs.Sizes.{area_in};

use crate::format::Format;
use crate::state_objects::{StateObjects, all_of};
use ipc_base::{Mark, Objects};
use ipc_engine::Engine;
use std::marker::Model;

/// The objects of a machine's state. The four that every state has count as changed always, each other if the machine
/// says so. A contract sees the form of the device and the state, and what has changed.
#[derive(Drop)]
pub struct EngineObjects<'a> {
    all: StateObjects<'a>,
    engine: &'a Engine,
}

impl<'a> Model for EngineObjects<'a> {
    ghost use Rattle.std.specs.Prelude.{List};
    ghost use Rattle.std.specs.Coded.{codes};
    ghost use Rattle.sem_undo.specs.Undo.{undo_code};
    ghost use Rattle.ipc_state.specs.declared.parked.Object.{Object as PlainObject};
    ghost use Rattle.ipc_state.specs.State.{State as PlainState};
    ghost use Rattle.ipc_image.specs.declared.format.Format.{Format as PlainFormat};

    ghost Value = { (PlainFormat × PlainState) × List PlainObject };

    ghost coded = { Prim.hlevel (codes, undo_code) };

    ghost view = { λ o. (o.all, o.engine.now.changed) };
}

/// The objects of the machine's state on a device of that version. It takes no memory. They stand for that state, and
/// fit where objects are kept under the machine's limits, if the version may have these.
pub fn objects_of<'a>(engine: &'a Engine, form: Format) -> EngineObjects<'a>
    requires { IsOpened form }
    ensures objects { ⟦<EngineObjects<'a> as Objects>⟧.objects result ≡ saved_in form engine.now.state }
    ensures differs { ⟦<EngineObjects<'a> as Objects>⟧.differs result
        ≡ differs_in engine.now.changed (saved_in form engine.now.state) }
    ensures stand { StandForStateIn form engine.now.limits engine.now.state (saved_in form engine.now.state) }
    ensures fit { AreOf form engine.now.limits
        → Fit (area_in form engine.now.limits) (saved_in form engine.now.state) }
{
    EngineObjects {
        all: all_of(engine, form),
        engine,
    }
}

impl<'a> Objects for EngineObjects<'a> {
    ghost objects = { λ o. saved_in o.0.0 o.0.1 };

    ghost differs = { λ o. differs_in o.1 (saved_in o.0.0 o.0.1) };

    ghost marks = { λ o i m. IsMarkOf o.0.0 o.0.1 i m };

    fn count(&self) -> u32 {
        self.all.count()
    }

    fn number(&self, i: u32) -> u64 {
        self.all.number(i)
    }

    fn changed(&self, i: u32) -> bool {
        let number = self.all.number(i);
        self.engine
            .changed((number >> 32) as u32, (number % (1 << 32)) as u32)
    }

    fn len(&self, i: u32) -> u64 {
        self.all.len(i)
    }

    fn start(&self, i: u32) -> Mark {
        self.all.start(i)
    }

    fn bytes(&self, i: u32, place: u64, mark: &mut Mark, into: &mut [u8; 512]) {
        self.all.bytes(i, place, mark, into);
    }
}
