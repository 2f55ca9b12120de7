ghost use Rattle.std.specs.Prelude.{◌≡◌, IfErr, IfOk, IfSome, Some, option_map};
ghost use Rattle.std.specs.Arc.{arc_value};
ghost use Rattle.ch_table.specs.Selection.{IsSelection};

use ch_graph::Hierarchy;
use ch_route::{RouterOf, Selection};
use crossbeam_queue::protocol::{Outcome, Protocol, Split};
use crossbeam_queue::{Pass, RuledArrayQueue};
use std::alloc::{AllocError, Global};
use std::hint::spin_loop;
use std::marker::Model;
use std::snapshot::Snapshot;
use std::sync::Arc;

// How often a handle looks for what another one has just taken to copy.
const TRIES: u32 = 64;

/// What handles of a hierarchy share: a selection of it, or none. Contracts see which hierarchy that is.
#[derive(Drop)]
pub struct SharedSelection {
    selection: Option<Arc<Selection>>,
    of: Snapshot<RouterOf<Arc<Hierarchy>>>,
}

impl Model for SharedSelection {
    ghost use Rattle.std.specs.Prelude.{IfSome, option_map};
    ghost use Rattle.std.specs.Arc.{arc_value};
    ghost use Rattle.ch_graph.specs.Hierarchy as hierarchies;
    ghost use Rattle.ch_table.specs.Selection.{IsSelection};

    ghost Value = { hierarchies.Hierarchy };

    ghost view = { λ s. s.of.value };

    ghost invariant = { λ s. IfSome (option_map arc_value s.selection) (IsSelection s.of.value) };
}

/// The rule of what is shared: it is all of one hierarchy, which each handle that shares it knows.
pub struct OneHierarchy;

impl Protocol<SharedSelection, Option<Hierarchy>> for OneHierarchy {
    ghost use Rattle.std.specs.Prelude.{None};
    ghost use Rattle.domethyme_c.specs.Engines.{AreOfOne};

    ghost holds = { AreOfOne };

    ghost first = { None };
}

/// The first handle gets to know the hierarchy.
struct Names;

impl Outcome<SharedSelection, Option<Hierarchy>> for Names {
    ghost then = { λ known shared new. new ≡ Some shared };
}

/// A handle puts in what is of its hierarchy.
struct Puts;

impl Outcome<SharedSelection, Option<Hierarchy>> for Puts {
    ghost then = { λ known shared new. new ≡ known };
}

/// What a handle takes out is of its hierarchy.
struct Takes;

impl Outcome<SharedSelection, Option<Hierarchy>> for Takes {
    ghost then = { λ known shared new. (new ≡ known) × (known ≡ Some shared) };
}

/// Another handle knows what the first one knows.
struct Beside;

impl Split<Option<Hierarchy>> for Beside {
    ghost left = { λ known. known };

    ghost right = { λ known. known };
}

type Slot = RuledArrayQueue<SharedSelection, Option<Hierarchy>, OneHierarchy>;

/// A handle's share in the last selection that any handle of its hierarchy made. Contracts see which hierarchy that is.
///
/// No call waits for another handle. One that looks while others copy the selection may find none.
#[derive(Drop)]
pub(crate) struct Sharing {
    shelf: Arc<Slot>,
    pass: Pass<SharedSelection, Option<Hierarchy>>,
}

impl Model for Sharing {
    ghost use Rattle.std.specs.Prelude.{Option};
    ghost use Rattle.std.specs.Arc.{arc_value};
    ghost use Rattle.ch_graph.specs.Hierarchy as hierarchies;
    ghost use Rattle.crossbeam_queue.specs.Passes.{IsPassOf, view as known_to};

    ghost Value = { Option hierarchies.Hierarchy };

    ghost view = { λ s. known_to s.pass };

    ghost invariant = { λ s. IsPassOf (arc_value s.shelf) s.pass };
}

impl Sharing {
    /// Shares nothing yet, for handles of the hierarchy of a router.
    pub(crate) fn new(
        alloc: Global,
        router: &RouterOf<Arc<Hierarchy>>,
    ) -> Result<Sharing, AllocError>
        ensures { IfOk result (λ sharing. sharing ≡ Some router.now) }
    {
        let (shelf, mut pass) = Slot::ruled(alloc, 1)?;
        let nothing = SharedSelection {
            selection: None,
            of: Snapshot::of(router),
        };
        // A new queue has room, which no clause says.
        if shelf.try_push_as::<Names>(&mut pass, nothing).is_err() {
            return Err(AllocError);
        }
        let shelf = Arc::new(alloc, shelf)?;
        Ok(Sharing { shelf, pass })
    }

    /// The same share for another handle of the router's hierarchy.
    pub(crate) fn beside(
        &mut self,
        router: &RouterOf<Arc<Hierarchy>>,
    ) -> Result<Sharing, AllocError>
        requires { self.old ≡ Some router.now }
        ensures kept { self.new ≡ self.old }
        ensures same { IfOk result (λ sharing. sharing ≡ self.old) }
    {
        let _ = router;
        let shelf = Arc::try_clone(&self.shelf)?;
        let pass = self.shelf.another::<Beside>(&mut self.pass);
        Ok(Sharing { shelf, pass })
    }

    /// Returns the selection of the router's hierarchy that is shared, if it is one of these targets.
    pub(crate) fn find(
        &mut self,
        router: &RouterOf<Arc<Hierarchy>>,
        targets: &[u32],
    ) -> Option<Arc<Selection>>
        requires { self.old ≡ Some router.now }
        ensures selection { IfSome result (λ s. IsSelection router.now (arc_value s)) }
        ensures targets { IfSome result (λ s. (arc_value s).targets ≡ targets.now) }
        ensures kept { self.new ≡ self.old }
    {
        let _ = router;
        'tries: for _ in 0..TRIES {
            if let Some(shared) = self.shelf.try_pop_as::<Takes>(&mut self.pass) {
                let found = shared.copy(targets);
                let _ = self.shelf.try_push_as::<Puts>(&mut self.pass, shared);
                return found;
            }
            spin_loop();
        }
        None
    }

    /// Shares a selection in place of another, or none. It tries again if another handle puts back what it took to copy.
    pub(crate) fn put(
        &mut self,
        router: &RouterOf<Arc<Hierarchy>>,
        selection: Option<Arc<Selection>>,
    )
        requires known { self.old ≡ Some router.now }
        requires selection { IfSome (option_map arc_value selection) (IsSelection router.now) }
        ensures { self.new ≡ self.old }
    {
        let mut shared = SharedSelection {
            selection,
            of: Snapshot::of(router),
        };
        'tries: for _ in 0..TRIES {
            match self.replace(router, shared) {
                Ok(()) => return,
                Err(back) => shared = back,
            }
            spin_loop();
        }
    }

    // Shares this in place of what is shared, or returns it.
    fn replace(
        &mut self,
        router: &RouterOf<Arc<Hierarchy>>,
        shared: SharedSelection,
    ) -> Result<(), SharedSelection>
        requires known { self.old ≡ Some router.now }
        requires same { shared ≡ router.now }
        ensures kept { self.new ≡ self.old }
        ensures back { IfErr result (λ back. back ≡ router.now) }
    {
        let _ = router;
        drop(self.shelf.try_pop_as::<Takes>(&mut self.pass));
        self.shelf.try_push_as::<Puts>(&mut self.pass, shared)
    }
}

impl SharedSelection {
    // The selection, if it is one of these targets.
    fn copy(&self, targets: &[u32]) -> Option<Arc<Selection>>
        ensures selection { IfSome result (λ s. IsSelection self.now (arc_value s)) }
        ensures targets { IfSome result (λ s. (arc_value s).targets ≡ targets.now) }
    {
        let Some(selection) = &self.selection else {
            return None;
        };
        if selection.targets() != targets {
            return None;
        }
        Arc::try_clone(selection).ok()
    }
}
