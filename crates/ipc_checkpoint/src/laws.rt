//! What follows from the definitions alone.

ghost use Rattle.std.specs.Prelude.{◌≡◌, ℕ};
ghost use Rattle.ipc_base.specs.Objects.{PlainObjects};
ghost use Rattle.ipc_disk.specs.Medium.{Image};
ghost use Rattle.ipc_checkpoint.specs.declared.layout.Layout.{Layout};
ghost use Rattle.ipc_checkpoint.specs.Checkpoint.{Holds};

/// An image of a disk is one checkpoint, and no two.
pub fn an_image_is_one_checkpoint()
    ensures { (layout : Layout) (epoch other : ℕ) (objects others : PlainObjects) (image : Image)
        → Holds layout epoch objects image → Holds layout other others image
        → (epoch ≡ other) × (objects ≡ others) }
{}
