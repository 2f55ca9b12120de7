ghost use Rattle.ch_laws.specs.Theorems.{GoesOn, HasRun, PlanIsLawful, ReachesOn, VerdictsAreLawful};

/// Shortcuts that may be put in are a lawful contraction where each other pair has a witness. A caller that has tested
/// them, as the overlay does, has the next state by this.
pub fn plan_is_lawful()
    ensures { PlanIsLawful }
{}

/// Verdicts that were made by rows, however long ago, are a plan with its witnesses where those rows are still the
/// rows of their nodes; no other row matters.
pub fn verdicts_are_lawful()
    ensures { VerdictsAreLawful }
{}

/// A reached state stays reached by one more lawful contraction, and the log grows by its entry. It does nothing when
/// it runs.
pub fn reached_goes_on()
    ensures { ReachesOn }
{}

/// Each alive node of a reached state can be contracted next: nothing but a heavy pair or a direct arc spares a pair
/// its shortcut, and that is lawful.
pub fn alive_nodes_can_be_contracted()
    ensures { GoesOn }
{}

/// Each graph has a run of contractions to the end, and a hierarchy that is made of it: the other laws speak of
/// something.
pub fn each_graph_has_a_run()
    ensures { HasRun }
{}
