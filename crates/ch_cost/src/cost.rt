ghost use Rattle.std.specs.Prelude.{◌≡◌, ◌↔◌, IsTrue, Some, SomeIff, refl};
ghost use Rattle.ch_cost.specs.Cost.{◌⊕◌, of_weight, cost_of_arcs, of_walk, length_of, arcs_of, ◌≼◌, ◌≺◌, compare, same, FitsWords, IsWithin, IsNoLonger, IsInLimit, IsSummable};
ghost use Rattle.ch_cost.specs.Cost.Laws.{same-laws, same-partial, same-compare, compare-total, compare-partial};

use std::cmp::Ordering;

/// What a walk costs: the sum of the weights of its arcs, in the unit of the graph's text, and how many arcs it has.
///
/// Costs are compared by their weights, and those of equal weight by their arcs: so of all least walks one of least cost
/// has the fewest arcs, and an arc costs more than nothing even where its weight is 0. The methods here and `Ord`
/// compare alike. No call takes memory or fails.
#[derive(Clone, Copy, Debug)]
pub struct Cost {
    weight: u64,
    arcs: u64,
}

impl Cost {
    /// The cost of no arc.
    pub const ZERO: Cost = Cost { weight: 0, arcs: 0 };

    /// The greatest cost that can be written, for where nothing is known yet.
    pub const GREATEST: Cost = Cost {
        weight: u64::MAX,
        arcs: u64::MAX,
    };

    /// Returns the cost of one arc of this weight.
    pub fn of_weight(weight: u32) -> Cost
        ensures { result ≡ of_weight weight }
    {
        Cost {
            weight: u64::from(weight),
            arcs: 1,
        }
    }

    /// Returns the most that `count` arcs of at most the weight `heaviest` cost together.
    pub fn of_arcs(count: u32, heaviest: u32) -> Cost
        ensures { result ≡ cost_of_arcs count heaviest }
    {
        let arcs = u64::from(count);
        Cost {
            weight: arcs * u64::from(heaviest),
            arcs,
        }
    }

    /// Returns the cost of a walk of this length and of this many arcs, as they are written in a file.
    pub fn of_walk(length: u64, arcs: u64) -> Cost
        ensures { result ≡ of_walk length arcs }
    {
        Cost {
            weight: length,
            arcs,
        }
    }

    /// Returns the cost of two walks, one after the other. Each number of both is at most 2^57, so the sums fit.
    pub fn plus(self, other: Cost) -> Cost
        requires first { IsInLimit self }
        requires second { IsInLimit other }
        ensures { result ≡ self ⊕ other }
    {
        self.plus_wide(other)
    }

    /// Returns the cost of two walks, one after the other, where each number of both is at most 2^62: as
    /// [`Cost::plus`], for walks that are longer than a graph's, since more was added to them at their ends.
    pub fn plus_wide(self, other: Cost) -> Cost
        requires first { IsSummable self }
        requires second { IsSummable other }
        ensures { result ≡ self ⊕ other }
    {
        Cost {
            weight: self.weight + other.weight,
            arcs: self.arcs + other.arcs,
        }
    }

    /// Returns the sum of two costs, or `None` where a number of it doesn't fit 64 bits. The costs may be of any size.
    pub fn checked_plus(self, other: Cost) -> Option<Cost>
        ensures { SomeIff result (FitsWords (self ⊕ other)) (self ⊕ other) }
    {
        let weight = self.weight.checked_add(other.weight)?;
        let arcs = self.arcs.checked_add(other.arcs)?;
        Some(Cost { weight, arcs })
    }

    /// Returns the sum of two costs, or `None` where it isn't within the bound. The costs may be of any size.
    pub fn plus_within(self, other: Cost, bound: Cost) -> Option<Cost>
        ensures { SomeIff result (IsWithin (self ⊕ other) bound) (self ⊕ other) }
    {
        let sum = self.checked_plus(other)?;
        if !sum.is_within(bound) {
            return None;
        }
        Some(sum)
    }

    /// Whether this cost is at most the other.
    pub fn is_at_most(self, other: Cost) -> bool
        ensures { IsTrue result ↔ (self ≼ other) }
    {
        (self.weight < other.weight) | ((self.weight == other.weight) & (self.arcs <= other.arcs))
    }

    /// Whether this cost is below the other.
    pub fn is_below(self, other: Cost) -> bool
        ensures { IsTrue result ↔ (self ≺ other) }
    {
        (self.weight < other.weight) | ((self.weight == other.weight) & (self.arcs < other.arcs))
    }

    /// Whether each number of this cost is at most the bound's. A cost that isn't within the bound is heavy.
    pub fn is_within(self, bound: Cost) -> bool
        ensures { IsTrue result ↔ IsWithin self bound }
    {
        (self.weight <= bound.weight) & (self.arcs <= bound.arcs)
    }

    /// Whether the length is at most the bound's, whatever the arcs.
    pub fn is_no_longer(self, bound: Cost) -> bool
        ensures { IsTrue result ↔ IsNoLonger self bound }
    {
        self.length() <= bound.length()
    }

    /// Whether this cost may be a summand of [`Cost::plus`].
    pub fn is_in_limit(self) -> bool
        ensures { IsTrue result ↔ IsInLimit self }
    {
        (self.weight <= 1 << 57) & (self.arcs <= 1 << 57)
    }

    /// Returns the sum of the weights, in the unit of the graph's text.
    pub fn length(self) -> u64
        ensures { result ≡ length_of self }
    {
        self.weight
    }

    /// Returns the number of arcs of the walk.
    pub fn arcs(self) -> u64
        ensures { result ≡ arcs_of self }
    {
        self.arcs
    }
}

impl PartialEq for Cost {
    ghost eq = { same };

    ghost laws = { same-partial };

    fn eq(&self, other: &Cost) -> bool {
        (self.weight == other.weight) & (self.arcs == other.arcs)
    }
}

impl Eq for Cost {
    ghost laws = { same-laws };
}

impl Ord for Cost {
    ghost cmp = { compare };

    ghost total = { compare-total };

    ghost matches_partial_cmp = { λ _ _. refl };

    ghost matches_eq = { same-compare };

    fn cmp(&self, other: &Cost) -> Ordering {
        self.weight
            .cmp(&other.weight)
            .then(self.arcs.cmp(&other.arcs))
    }
}

impl PartialOrd for Cost {
    ghost partial_cmp = { λ a b. Some (compare a b) };

    ghost laws = { compare-partial };

    fn partial_cmp(&self, other: &Cost) -> Option<Ordering> {
        Some(self.cmp(other))
    }
}
