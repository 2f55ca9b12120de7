ghost use Rattle.std.specs.Prelude.{◌≡◌, ◌+◌, ◌<◌, ◌≤◌, ◌^◌, length, slice_index, All, IfErr, IfOk, OnOk};
ghost use Rattle.ch_graph.specs.declared.hierarchy.LinkId.{LinkId as an_id};
ghost use Rattle.ch_sums.specs.Numbers.{AreNumbersOf, IsNumbersFault, count_arcs, one_arc, sum_at};
ghost use Rattle.ch_sums.specs.Order.{AreOwn, IsAdded, IsPlace, IsRefused};

use crate::error::NumbersError;
use crate::order::{LinkPlace, by_lower_end};
use ch_graph::{Hierarchy, Link, LinkId, Parts, links_unfold};
use std::alloc::Global;
use std::marker::Model;

/// The greatest number that a link may have. A rise-fall walk has fewer than 2^26 links, so no sum is above 2^62.
const GREATEST: u64 = 1 << 36;

/// A number for each link of a hierarchy: what the numbers of the arcs that it represents sum to.
///
/// It never changes, and takes 8 bytes a link.
#[derive(Drop)]
pub struct Numbers {
    links: Vec<u64>,
}

impl Model for Numbers {
    ghost use Rattle.std.specs.Prelude.{◌≤◌, ◌^◌, ℕ, List, All};

    ghost Value = { List ℕ };

    ghost view = { λ n. n.links.items };

    ghost invariant = { λ n. All (λ x. x ≤ 2 ^ 36) n.links.items };
}

impl Numbers {
    /// Makes the numbers of all links of those that are given for the links without a middle, in the order of the links.
    ///
    /// Fails with `Count` unless there is one for each of these, and with `TooGreat` where a link would have more than
    /// 2^36. Takes the time of a sort of the links, and 16 bytes a link while it runs.
    pub fn new(alloc: Global, hierarchy: &Hierarchy, given: &[u32]) -> Result<Numbers, NumbersError>
        ensures count { IfOk result (λ numbers. length given.now ≡ count_arcs hierarchy.now.links) }
        ensures numbers { IfOk result (λ numbers. AreNumbersOf hierarchy.now given.now numbers) }
        ensures refused { IfErr result (IsNumbersFault hierarchy.now given.now) }
    {
        links_unfold();
        let _well_made = hierarchy.nodes();
        let mut links = own_numbers(alloc, hierarchy, given)?;
        let order = by_lower_end(alloc, hierarchy)?;
        'places: for place in 0..order.len() {
            add_halves(hierarchy, order[place], &mut links)?;
        }
        Ok(Numbers { links })
    }

    /// Returns the numbers, in the order of the links.
    pub fn as_slice(&self) -> &[u64]
        ensures numbers { result.now ≡ self.now }
        ensures small { All (λ x. x ≤ 2 ^ 36) self.now }
    {
        self.links.as_slice()
    }

    /// Returns what the numbers of links sum to: of fewer than 2^26 of them.
    pub fn along(&self, links: &[LinkId]) -> u64
        requires links_in { All (λ (id : an_id). id.0 < length self.now) links.now }
        requires few { length links.now ≤ 2 ^ 26 }
        ensures { result ≡ sum_at self.now links.now }
    {
        let mut sum = 0;
        'links: for at in 0..links.len() {
            sum += self.links[links[at].0];
        }
        sum
    }
}

// The given number of each link without a middle, and 0 for each other.
fn own_numbers(
    alloc: Global,
    hierarchy: &Hierarchy,
    given: &[u32],
) -> Result<Vec<u64>, NumbersError>
    ensures own { IfOk result (λ numbers. AreOwn hierarchy.now given.now (length hierarchy.now.links) numbers.items) }
    ensures count { IfOk result (λ numbers. length given.now ≡ count_arcs hierarchy.now.links) }
    ensures refused { IfErr result (IsNumbersFault hierarchy.now given.now) }
{
    let links = hierarchy.links();
    if count_arcs(links) != given.len() {
        return Err(NumbersError::Count);
    }
    let mut numbers = Vec::new(alloc);
    let mut next = 0;
    'links: for at in 0..links.len() {
        numbers.push(own_number(links[at], given, next))?;
        next += one_arc(links[at]);
    }
    Ok(numbers)
}

// How many links have no middle.
fn count_arcs(links: &[Link]) -> usize
    ensures { result ≡ count_arcs links.now }
{
    let mut count = 0;
    'links: for at in 0..links.len() {
        count += one_arc(links[at]);
    }
    count
}

// 1 for a link without a middle, and else 0.
fn one_arc(link: Link) -> usize
    ensures { result ≡ one_arc link.middle }
{
    match link.middle.node() {
        None => 1,
        Some(_) => 0,
    }
}

// The number at a place for a link without a middle, and else 0.
fn own_number(link: Link, given: &[u32], next: usize) -> u64
    requires { next + one_arc link.middle ≤ length given.now }
    ensures arc { one_arc link.middle ≡ 1 → result ≡ slice_index given.now next }
    ensures small { result ≤ 2 ^ 36 }
{
    match link.middle.node() {
        None => u64::from(given[next]),
        Some(_) => 0,
    }
}

// Puts the sum of its halves' numbers for the link at a place, if it has a middle.
fn add_halves(
    hierarchy: &Hierarchy,
    place: LinkPlace,
    numbers: &mut Vec<u64>,
) -> Result<(), NumbersError>
    requires place { IsPlace hierarchy.now place }
    requires count { length numbers.old.items ≡ length hierarchy.now.links }
    requires small { All (λ x. x ≤ 2 ^ 36) numbers.old.items }
    ensures added { OnOk result (IsAdded hierarchy.now place.at numbers.old.items numbers.new.items) }
    ensures refused { IfErr result (IsRefused hierarchy.now place.at numbers.old.items) }
{
    match hierarchy.parts(LinkId(place.at)) {
        Parts::Arc(_) => Ok(()),
        Parts::Shortcut(first, second) => {
            let sum = numbers[first.0] + numbers[second.0];
            if sum > GREATEST {
                return Err(NumbersError::TooGreat);
            }
            numbers[place.at] = sum;
            Ok(())
        }
    }
}
