ghost use Rattle.std.specs.Prelude.{◌≡◌, ◌+◌, ◌<◌, ◌≤◌, ◌^◌, length, option_map, All, Err, IfOk, OnErr, OnOk, ◌*◌};
ghost use Rattle.ch_cost.specs.Cost.{length_of};
ghost use Rattle.ch_graph.specs.declared.version.Version.TheVariants.{One};
ghost use Rattle.ch_graph.specs.Graph.{Graph, IsLeastLength};
ghost use Rattle.ch_graph.specs.Hierarchy.{IsRight, IsWellMade};
ghost use Rattle.ch_graph.specs.Limits.{IsGraph};
ghost use Rattle.ch_laws.specs.ByWeight.{IsRightByWeight};
ghost use Rattle.ch_query.specs.Seeds.{AreSeeds};
ghost use Rattle.ch_route.specs.Between.{HasTooLongBetween, IsLeastBetween, IsLeastLengthBetween, IsLengthBetween, IsLengthBetweenBy, IsRouteBetweenBy, IsRowLengthFrom, IsRowLengthWithin, IsShortestBetween};
ghost use Rattle.ch_route.specs.Routes.{HasTooLong, IsFewestWalk, IsLeastWalk, IsLengthBy, IsRouteBy, IsRowLength};
ghost use Rattle.ch_table.specs.Lengths.{IsRow, AreFirstRows, AreRows};
ghost use Rattle.ch_table.specs.Selection.{IsSelection};
ghost use Rattle.ch_unpack.specs.declared.error.UnpackError.TheVariants.{TooLong};

use crate::laws::routes_are_least;
use crate::route::{Route, RouteBetween};
use ch_cost::Cost;
use ch_graph::{Hierarchy, places_name_links};
use ch_laws::right_is_right_by_weight;
use ch_query::{HierarchyRef, SearchOf, Seed, ways_are_walks};
use ch_table::Selection;
use ch_unpack::{UnpackError, unpack};
use std::alloc::{AllocError, Global};
use std::marker::Model;

/// Answers pairs of nodes by one hierarchy, which it borrows or owns a share of, each with a shortest path or with its
/// length alone.
///
/// It holds what [`SearchOf`] holds: about 16 bytes a node and 16 a link, or 24 and 20 where there are 2^32 links or more,
/// and what the largest call so far needed beside it. After a call that failed it works as a new one.
#[derive(Drop)]
pub struct RouterOf<H: HierarchyRef> {
    alloc: Global,
    search: SearchOf<H>,
}

/// A router that borrows its hierarchy.
pub type Router<'a> = RouterOf<&'a Hierarchy>;

impl<H: HierarchyRef> Model for RouterOf<H> {
    ghost use Rattle.ch_graph.specs.Hierarchy as hierarchies;

    ghost Value = { hierarchies.Hierarchy };

    ghost view = { λ r. r.search };
}

impl<H: HierarchyRef> RouterOf<H> {
    /// Returns a router of a hierarchy. Looks at each node a fixed number of times and at each link twice.
    pub fn new(alloc: Global, hierarchy: H) -> Result<RouterOf<H>, AllocError>
        ensures { IfOk result (λ router. router ≡ H.referred hierarchy) }
    {
        let search = SearchOf::new(alloc, hierarchy)?;
        Ok(RouterOf { alloc, search })
    }

    /// Another router of the same hierarchy, for another caller.
    ///
    /// The two share what never changes ([`Search::beside`]), so this one takes 8 bytes a node and nothing for a link.
    pub fn beside(&self) -> Result<RouterOf<H>, AllocError>
        ensures { IfOk result (λ router. router ≡ self.now) }
    {
        let search = self.search.beside(self.alloc)?;
        Ok(RouterOf {
            alloc: self.alloc,
            search,
        })
    }

    /// Returns the number of nodes of the hierarchy.
    pub fn nodes(&self) -> u32
        ensures count { result ≡ length self.now.ranks }
        ensures made { IsWellMade self.now }
    {
        self.search.hierarchy().nodes()
    }

    /// Returns a shortest path from the first node of the pair to the second, or `None` where there is no way.
    ///
    /// The cost is the value of the hierarchy, and the nodes are those of the arcs that a rise-fall walk of that cost
    /// represents. Where the hierarchy is right for a graph the route is a least walk of it, and of all least walks one
    /// with the fewest arcs; where it is right by weight, as in version 1, it is any least walk. From a node to itself it
    /// is that node alone, at no cost.
    ///
    /// Fails with `TooLong` where the route would repeat a node, which it doesn't by a hierarchy that is right for some
    /// graph, in the sense of its version, and with `OutOfMemory`. Takes the time of [`Search::distance`] and of
    /// [`unpack`], and memory for the nodes of the route beside what the search keeps.
    #[tactic(auto, using(crate::proofs::RoutesAreLeast::never_long))]
    pub fn route(&mut self, pair: (u32, u32)) -> Result<Option<Route>, UnpackError>
        requires source_in { pair.0 < length self.old.ranks }
        requires target_in { pair.1 < length self.old.ranks }
        ensures found { IfOk result (IsRouteBy self.old pair.0 pair.1) }
        ensures exact { IfOk result (λ route. (g : Graph) → IsGraph g → IsRight g self.old → IsFewestWalk g pair.0 pair.1 route) }
        ensures by_weight { IfOk result (λ route. (g : Graph) → IsRightByWeight g self.old → IsLeastWalk g pair.0 pair.1 route) }
        ensures kept { self.new ≡ self.old }

        // Where it is refused as too long.
        ensures too_long { result ≡ Err TooLong → HasTooLong self.old pair.0 pair.1 }
        ensures never_long { result ≡ Err TooLong → (g : Graph) → IsGraph g → IsRight g self.old → ⊥ }
        ensures never_long_by_weight { result ≡ Err TooLong → self.old.version ≡ One → (g : Graph) → IsGraph g → IsRightByWeight g self.old → ⊥ }
    {
        routes_are_least();
        let _well_made = self.nodes();
        self.least_route(pair)
    }

    /// Returns the least length of a way from the first node of the pair to the second, or `None` where there is no way.
    ///
    /// It is the length of the route that [`Router::route`] finds, also where that is too long. Where the hierarchy is
    /// right for a graph, be it by weight alone, it is the least over all walks of the graph. Takes the time of
    /// [`Search::cost`], and memory for what the search keeps.
    pub fn length(&mut self, pair: (u32, u32)) -> Result<Option<u64>, AllocError>
        requires source_in { pair.0 < length self.old.ranks }
        requires target_in { pair.1 < length self.old.ranks }
        ensures found { IfOk result (IsLengthBy self.old pair.0 pair.1) }
        ensures exact { IfOk result (λ length. (g : Graph) → IsRight g self.old → IsLeastLength g pair.0 pair.1 length) }
        ensures by_weight { IfOk result (λ length. (g : Graph) → IsRightByWeight g self.old → IsLeastLength g pair.0 pair.1 length) }
        ensures kept { self.new ≡ self.old }
    {
        routes_are_least();
        let cost = self.search.cost(pair.0, pair.1)?;
        Ok(length_of(cost))
    }

    /// Returns a shortest path from one of the starts to one of the ends, by what start, way and end cost together,
    /// or `None` where there is no way from a start to an end.
    ///
    /// Where the hierarchy is right for a graph, its cost is the least over all pairs of a start and an end of the distance
    /// from the one to the other with what both cost, and the nodes are those of a least walk of the graph between the two
    /// that were taken, of all least walks one with the fewest arcs. Where it is right by weight, as in version 1, its
    /// length is the least over all walks from a start to an end, with what both add, and the nodes are those of any least
    /// walk between the two that were taken. Where several pairs cost the least, any of them may be taken. Each list has
    /// nodes from 0, and costs of at most 2^57 in length and 2^25 arcs; the cost of a part of an arc is
    /// [`Cost::of_weight`](ch_cost::Cost::of_weight) of that part.
    ///
    /// Fails as [`Router::route`] does. Takes the time of [`Search::between`] and of [`unpack`], and memory for the nodes
    /// of the route beside what the search keeps.
    pub fn between(
        &mut self,
        starts: &[Seed],
        ends: &[Seed],
    ) -> Result<Option<RouteBetween>, UnpackError>
        requires starts { AreSeeds self.old starts.now }
        requires ends { AreSeeds self.old ends.now }
        ensures found { IfOk result (IsRouteBetweenBy self.old starts.now ends.now) }
        ensures exact { IfOk result (λ route. (g : Graph) → IsGraph g → IsRight g self.old → IsLeastBetween g starts.now ends.now route) }
        ensures by_weight { IfOk result (λ route. (g : Graph) → IsRightByWeight g self.old → IsShortestBetween IsLeastWalk g starts.now ends.now route) }
        ensures kept { self.new ≡ self.old }

        // Where it is refused as too long.
        ensures too_long { result ≡ Err TooLong → HasTooLongBetween self.old starts.now ends.now }
        ensures never_long { result ≡ Err TooLong → (g : Graph) → IsGraph g → IsRight g self.old → ⊥ }
        ensures never_long_by_weight { result ≡ Err TooLong → self.old.version ≡ One → (g : Graph) → IsGraph g → IsRightByWeight g self.old → ⊥ }
    {
        routes_are_least();
        let _well_made = self.nodes();
        self.least_between(starts, ends)
    }

    /// Returns the length of that route: the least over all pairs of a start and an end of the length of the start,
    /// of a walk between them and of the end together, or `None` where no pair has a walk.
    ///
    /// Takes the time of [`Search::cost_between`], and memory for what the search keeps.
    pub fn length_between(
        &mut self,
        starts: &[Seed],
        ends: &[Seed],
    ) -> Result<Option<u64>, AllocError>
        requires starts { AreSeeds self.old starts.now }
        requires ends { AreSeeds self.old ends.now }
        ensures found { IfOk result (IsLengthBetweenBy self.old starts.now ends.now) }
        ensures exact { IfOk result (λ length. (g : Graph) → IsRight g self.old → IsLengthBetween g starts.now ends.now length) }
        ensures by_weight { IfOk result (λ length. (g : Graph) → IsRightByWeight g self.old → IsLeastLengthBetween g starts.now ends.now length) }
        ensures kept { self.new ≡ self.old }
    {
        routes_are_least();
        let _well_made = self.nodes();
        let cost = self.search.cost_between(starts, ends)?;
        Ok(length_of(cost))
    }

    /// Selects the part of the hierarchy that paths to these targets fall through, for rows of lengths to them.
    ///
    /// Takes the time and the memory of [`Selection::new`].
    pub fn select(&self, targets: &[u32]) -> Result<Selection, AllocError>
        requires targets { All (λ t. t < length self.now.ranks) targets.now }
        ensures selection { IfOk result (λ s. IsSelection self.now s) }
        ensures targets { IfOk result (λ s. s.targets ≡ targets.now) }
    {
        Selection::new(self.alloc, &self.search, targets)
    }

    /// Writes the least length of a path from each source to each target of a selection, row by row from a place on, or
    /// [`NO_LENGTH`](ch_table::NO_LENGTH) where there is none: what [`Router::length`] returns for each pair.
    ///
    /// The selection is of the same hierarchy. Takes the time and the memory of [`Selection::lengths`]. If memory is
    /// refused, some first rows may be written, but not all: a single row is as before.
    pub fn lengths(
        &mut self,
        sources: &[u32],
        selection: &Selection,
        rows: &mut [u64],
        from: usize,
    ) -> Result<(), AllocError>
        requires sources { All (λ s. s < length self.old.ranks) sources.now }
        requires selection { IsSelection self.old selection.now }
        requires room { from + length sources.now * length selection.now.targets ≤ length rows.old }
        ensures rows { OnOk result (AreRows (IsRowLength self.old) sources.now selection.now.targets from (length sources.now) rows.old rows.new) }
        ensures refused { OnErr result (AreFirstRows (IsRowLength self.old) sources.now selection.now.targets from rows.old rows.new) }
        ensures kept { self.new ≡ self.old }
    {
        routes_are_least();
        selection.lengths(&mut self.search, sources, rows, from)
    }

    /// The same from several starts, each with a cost of its own, where the length is at most the limit with its start:
    /// what [`Router::length_between`] returns for each target alone, or [`NO_LENGTH`](ch_table::NO_LENGTH) where that is
    /// more. A limit of 2^62 cuts no path off.
    pub fn lengths_from(
        &mut self,
        starts: &[Seed],
        limit: u64,
        selection: &Selection,
        row: &mut [u64],
        from: usize,
    ) -> Result<(), AllocError>
        requires starts { AreSeeds self.old starts.now }
        requires limit { limit ≤ 2 ^ 62 }
        requires selection { IsSelection self.old selection.now }
        requires room { from + length selection.now.targets ≤ length row.old }
        ensures within { OnOk result (IsRow (IsRowLengthWithin self.old starts.now limit) selection.now.targets from row.old row.new) }
        ensures row { OnOk result (limit ≡ 2 ^ 62 → IsRow (IsRowLengthFrom self.old starts.now) selection.now.targets from row.old row.new) }
        ensures refused { OnErr result (row.new ≡ row.old) }
        ensures kept { self.new ≡ self.old }
    {
        routes_are_least();
        right_is_right_by_weight();
        ways_are_walks();
        let _well_made = self.nodes();
        selection.lengths_from(&mut self.search, starts, limit, row, from)
    }

    // The route between starts and ends by the hierarchy alone.
    fn least_between(
        &mut self,
        starts: &[Seed],
        ends: &[Seed],
    ) -> Result<Option<RouteBetween>, UnpackError>
        requires starts { AreSeeds self.old starts.now }
        requires ends { AreSeeds self.old ends.now }
        ensures found { IfOk result (IsRouteBetweenBy self.old starts.now ends.now) }
        ensures too_long { result ≡ Err TooLong → HasTooLongBetween self.old starts.now ends.now }
        ensures kept { self.new ≡ self.old }
    {
        places_name_links();
        let Some(found) = self.search.between(starts, ends)? else {
            return Ok(None);
        };
        if found.start >= starts.len() {
            unreachable!();
        }
        let source = starts[found.start].node;
        let nodes = unpack(
            self.alloc,
            self.search.hierarchy(),
            source,
            found.links.as_slice(),
        )?;
        Ok(Some(RouteBetween {
            start: found.start,
            end: found.end,
            cost: found.cost,
            nodes,
        }))
    }

    // The route by the hierarchy alone.
    fn least_route(&mut self, pair: (u32, u32)) -> Result<Option<Route>, UnpackError>
        requires source_in { pair.0 < length self.old.ranks }
        requires target_in { pair.1 < length self.old.ranks }
        ensures found { IfOk result (IsRouteBy self.old pair.0 pair.1) }
        ensures too_long { result ≡ Err TooLong → HasTooLong self.old pair.0 pair.1 }
        ensures kept { self.new ≡ self.old }
    {
        places_name_links();
        let Some(found) = self.search.distance(pair.0, pair.1)? else {
            return Ok(None);
        };
        let nodes = unpack(
            self.alloc,
            self.search.hierarchy(),
            pair.0,
            found.links.as_slice(),
        )?;
        Ok(Some(Route {
            cost: found.cost,
            nodes,
        }))
    }
}

/// The length of a cost, if there is one.
fn length_of(cost: Option<Cost>) -> Option<u64>
    ensures { result ≡ option_map length_of cost }
{
    match cost {
        Some(cost) => Some(cost.length()),
        None => None,
    }
}
