use ch_cost::{Cost, ShortCost};

/// A length and a number of arcs.
pub type Numbers = (u64, u64);

/// The cost of these numbers.
pub fn cost_of((length, arcs): Numbers) -> Cost {
    Cost::of_walk(length, arcs)
}

fn sum(a: Cost, b: Cost) -> Option<Cost> {
    if a.is_in_limit() && b.is_in_limit() {
        Some(a.plus(b))
    } else {
        None
    }
}

// Whether each of these statements holds.
fn all_hold(statements: &[bool]) -> bool {
    let mut all = true;
    for holds in statements {
        all &= *holds;
    }
    all
}

#[test]
fn sums(rt: HostRuntime) {
    let seven = Cost::of_weight(7);
    let most = Cost::of_arcs((1 << 25) - 1, u32::MAX);
    let statements = [
        Cost::of_weight(7) == Cost::of_walk(7, 1),
        Cost::of_arcs(3, u32::MAX) == Cost::of_walk(12_884_901_885, 3),
        Cost::of_arcs(0, u32::MAX) == Cost::ZERO,
        Cost::ZERO == Cost::of_walk(0, 0),
        Cost::GREATEST == Cost::of_walk(u64::MAX, u64::MAX),
        sum(Cost::of_weight(2), seven) == Some(Cost::of_walk(9, 2)),
        sum(Cost::ZERO, seven) == Some(seven),
        sum(most, most) == Some(Cost::of_walk(288_230_367_494_668_290, 67_108_862)),
        Cost::of_walk(9, 2).length() == 9,
        Cost::of_walk(9, 2).arcs() == 2,
    ];
    assert!(rt; all_hold(&statements));
}

/// Costs, each below the next.
const RISING: &[Numbers] = &[
    (0, 0),
    (0, 1),
    (0, u64::MAX),
    (1, 0),
    (7, 1),
    (7, 2),
    (8, 1),
    (u64::MAX, 0),
    (u64::MAX, u64::MAX),
];

// Whether two costs compare as their places do.
fn compare_so((first, a): (usize, Cost), (second, b): (usize, Cost)) -> bool {
    (a.cmp(&b) == first.cmp(&second))
        & (a.partial_cmp(&b) == Some(first.cmp(&second)))
        & (a.is_below(b) == (first < second))
        & (a.is_at_most(b) == (first <= second))
        & ((a == b) == (first == second))
}

// Whether a cost and each of these compare as their places do.
fn compares_so(first: (usize, Cost), all: &[Numbers]) -> bool {
    let mut holds = true;
    for (second, numbers) in all.iter().enumerate() {
        holds &= compare_so(first, (second, cost_of(*numbers)));
    }
    holds
}

// Whether each two of these do.
fn all_compare_so(all: &[Numbers]) -> bool {
    let mut holds = true;
    for (first, numbers) in all.iter().enumerate() {
        holds &= compares_so((first, cost_of(*numbers)), all);
    }
    holds
}

#[test]
fn weights_are_compared_before_arcs(rt: HostRuntime) {
    assert!(rt; all_compare_so(RISING));
}

/// A cost, whether it is within that of a length of 12 and 3 arcs, and whether its length is at most 12.
type Bounded = (Numbers, bool, bool);

const BOUNDED: &[Bounded] = &[
    ((12, 3), true, true),
    ((0, 0), true, true),
    ((13, 3), false, false),
    ((12, 4), false, true),
    ((0, 4), false, true),
    ((13, 0), false, false),
    ((0, u64::MAX), false, true),
];

// Whether a cost is within that bound, no longer, and their sum, as its case says.
fn is_bounded_so((numbers, is_within, is_no_longer): Bounded) -> bool {
    let bound = Cost::of_walk(12, 3);
    let cost = cost_of(numbers);
    let sum = Cost::ZERO.plus_within(cost, bound);
    (cost.is_within(bound) == is_within)
        & (cost.is_no_longer(bound) == is_no_longer)
        & (sum == if is_within { Some(cost) } else { None })
}

fn are_bounded_so(cases: &[Bounded]) -> bool {
    let mut holds = true;
    for case in cases {
        holds &= is_bounded_so(*case);
    }
    holds
}

#[test]
fn a_cost_is_heavy_by_either_number(rt: HostRuntime) {
    assert!(rt; are_bounded_so(BOUNDED));
}

#[test]
fn summands_have_a_limit(rt: HostRuntime) {
    let limit = 1 << 57;
    let statements = [
        Cost::of_walk(limit, limit).is_in_limit(),
        !Cost::of_walk(limit + 1, 0).is_in_limit(),
        !Cost::of_walk(0, limit + 1).is_in_limit(),
    ];
    assert!(rt; all_hold(&statements));
}

/// Two costs, and their sum where both numbers of it fit 64 bits.
type Sum = (Numbers, Numbers, Option<Numbers>);

const SUMS: &[Sum] = &[
    ((u64::MAX - 1, 2), (1, 3), Some((u64::MAX, 5))),
    ((u64::MAX, 2), (1, 3), None),
    ((2, u64::MAX - 1), (3, 1), Some((5, u64::MAX))),
    ((2, u64::MAX), (3, 1), None),
    ((u64::MAX, u64::MAX), (0, 0), Some((u64::MAX, u64::MAX))),
    ((u64::MAX, u64::MAX), (u64::MAX, u64::MAX), None),
];

// Whether two costs have this sum.
fn is_sum((first, second, sum): Sum) -> bool {
    let found = cost_of(first).checked_plus(cost_of(second));
    match sum {
        Some(numbers) => found == Some(cost_of(numbers)),
        None => found.is_none(),
    }
}

fn are_sums(cases: &[Sum]) -> bool {
    let mut holds = true;
    for case in cases {
        holds &= is_sum(*case);
    }
    holds
}

#[test]
fn sums_of_any_costs(rt: HostRuntime) {
    assert!(rt; are_sums(SUMS));
}

/// Costs, and whether each fits in half of its memory.
const SHORT: &[(Numbers, bool)] = &[
    ((0, 0), true),
    ((7, 1), true),
    ((4_294_967_294, 4_294_967_295), true),
    ((4_294_967_295, 1), false),
    ((4_294_967_303, 1), false),
    ((7, 4_294_967_296), false),
    ((7, 4_294_967_297), false),
    ((u64::MAX, u64::MAX), false),
];

// Whether a cost fits in half of its memory, as its case says.
fn is_short(cost: Cost, fits: bool) -> bool {
    ShortCost::of(cost).cost() == if fits { Some(cost) } else { None }
}

fn are_short(cases: &[(Numbers, bool)]) -> bool {
    let mut holds = true;
    for (numbers, fits) in cases {
        holds &= is_short(cost_of(*numbers), *fits);
    }
    holds
}

#[test]
fn short_costs(rt: HostRuntime) {
    assert!(rt; are_short(SHORT) & ShortCost::none().cost().is_none());
}
