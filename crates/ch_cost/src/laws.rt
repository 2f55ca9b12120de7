ghost use Rattle.ch_cost.specs.CostLaws.{CostLaws};

/// The laws of costs: sums associate, commute and keep the order, an arc costs more than nothing, what is within a
/// bound stays so in its parts, and what a short cost keeps is the cost that it was made of.
pub fn cost_laws()
    ensures { CostLaws }
{}
