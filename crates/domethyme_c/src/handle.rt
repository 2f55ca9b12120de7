ghost use Rattle.std.specs.Prelude.{◌≡◌, IfNone, IfSome, None, Option, Some};
ghost use Rattle.core.specs.Mem.{manually_drop_value};

use crate::engine::Engine;
use crate::held::Held;
use std::alloc::Global;
use std::mem::{ManuallyDrop, replace};

/// What a caller has: an engine, or none where it is closed. C sees one pointer.
#[repr(C)]
pub struct Handle {
    held: Held,
}

impl Handle {
    /// Takes the engine out, which leaves the handle closed, or `None` where it is closed.
    pub(crate) fn take(&mut self, alloc: Global) -> Option<Box<ManuallyDrop<Engine>>>
        ensures none { IfNone result (self.old.held.hierarchy ≡ None) }
        ensures some { IfSome result (λ b. self.old.held.hierarchy ≡ Some (manually_drop_value b.value)) }
        ensures closed { self.new.held.hierarchy ≡ None }
    {
        replace(&mut self.held, Held::closed(alloc)).into_box()
    }

    /// Puts an engine in. One that was there is dropped.
    pub(crate) fn put(&mut self, alloc: Global, engine: Box<ManuallyDrop<Engine>>)
        ensures { self.new.held.hierarchy ≡ Some (manually_drop_value engine.value) }
    {
        self.close(alloc);
        replace(&mut self.held, Held::of(alloc, engine)).end();
    }

    /// Drops the engine.
    pub(crate) fn close(&mut self, alloc: Global)
        ensures { self.new.held.hierarchy ≡ None }
    {
        if let Some(engine) = self.take(alloc) {
            drop(ManuallyDrop::into_inner(Box::into_inner(engine)));
        }
    }
}
