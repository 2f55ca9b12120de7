ghost use Rattle.std.specs.Prelude.{◌≡◌, IfNone, IfSome, IsSome, None, Option, Some};
ghost use Rattle.core.specs.Bool.{MatchBool};
ghost use Rattle.core.specs.Mem.{manually_drop_value};
ghost use Rattle.ch_graph.specs.Hierarchy.{Hierarchy};

use crate::engine::Engine;
use std::alloc::Global;
use std::marker::Model;
use std::mem::ManuallyDrop;

/// A pointer that owns an engine, or null.
///
/// The engine is kept from dropping by itself (`ManuallyDrop`), as what is behind a pointer is.
#[repr(C)]
pub(crate) struct Held {
    at: *mut u8,
    alloc: Global,
    pub(crate) ghost hierarchy: { Option Hierarchy },
}

impl Model for Held {
    ghost use Rattle.domethyme_c.specs.Handles.{holds};

    ghost also_owns = { λ h. holds h.alloc h.at h.hierarchy };
}

impl Held {
    /// Null.
    pub(crate) fn closed(alloc: Global) -> Held
        ensures { result.hierarchy ≡ None }
    {
        Held {
            at: std::ptr::null_mut(),
            alloc,
        }
    }

    /// The pointer of a box, which it owns from now on.
    pub(crate) fn of(alloc: Global, engine: Box<ManuallyDrop<Engine>>) -> Held
        ensures { result.hierarchy ≡ Some (manually_drop_value engine.value) }
    {
        let at = Box::into_raw(engine);
        Held {
            at: at as *mut u8,
            alloc,
        }
    }

    /// The box again, or `None` for null.
    pub(crate) fn into_box(mut self) -> Option<Box<ManuallyDrop<Engine>>>
        ensures none { IfNone result (self.hierarchy ≡ None) }
        ensures some { IfSome result (λ b. self.hierarchy ≡ Some (manually_drop_value b.value)) }
    {
        if self.is_closed() {
            self.end();
            return None;
        }
        Some(self.into_open())
    }

    // Whether it is null.
    fn is_closed(&mut self) -> bool
        ensures { MatchBool result (self.old.hierarchy ≡ None) (IsSome self.old.hierarchy) × (self.new ≡ self.old) }
    {
        self.at.is_null()
    }

    // The box again, of a pointer that isn't null.
    fn into_open(self) -> Box<ManuallyDrop<Engine>>
        requires { IsSome self.hierarchy }
        ensures { self.hierarchy ≡ Some (manually_drop_value result.value) }
    {
        let Held { at, alloc } = self;
        unsafe { Box::from_raw(alloc, at as *mut ManuallyDrop<Engine>) }
    }

    /// Lets null go.
    pub(crate) fn end(self)
        requires { self.hierarchy ≡ None }
    {
        let Held { at: _, alloc: _ } = self;
    }
}
