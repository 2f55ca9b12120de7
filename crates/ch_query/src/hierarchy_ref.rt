ghost use Rattle.std.specs.Prelude.{◌≡◌, IfOk};
ghost use Rattle.std.specs.Arc.{arc_value};
ghost use Rattle.ch_graph.specs.Hierarchy.{Hierarchy};

use ch_graph::Hierarchy;
use std::alloc::AllocError;
use std::ops::Deref;
use std::sync::Arc;

/// A reference to a hierarchy that never changes: a borrowed one, `&Hierarchy`, or a counted one, `Arc<Hierarchy>`.
pub trait HierarchyRef: Drop {
    ghost referred: { Self → Hierarchy };

    /// Returns the hierarchy.
    fn hierarchy(&self) -> &Hierarchy
        ensures { result.now ≡ referred self.now };

    /// Returns another reference to the same hierarchy. Takes no memory; fails where a counter of references is full.
    fn another(&self) -> Result<Self, AllocError>
        ensures { IfOk result (λ other. referred other ≡ referred self.now) };
}

impl HierarchyRef for &Hierarchy {
    ghost referred = { λ h. h.now };

    fn hierarchy(&self) -> &Hierarchy {
        *self
    }

    fn another(&self) -> Result<Self, AllocError> {
        Ok(*self)
    }
}

impl HierarchyRef for Arc<Hierarchy> {
    ghost referred = { λ h. arc_value h };

    fn hierarchy(&self) -> &Hierarchy {
        self.deref()
    }

    fn another(&self) -> Result<Self, AllocError> {
        Arc::try_clone(self)
    }
}
