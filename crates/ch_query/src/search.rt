ghost use Rattle.std.specs.Prelude.{◌≡◌, ◌<◌, ℕ, length, option_map, Some, IfOk, IfSome, OnOk};
ghost use Rattle.ch_cost.specs.Cost.{zero_cost, IsSummable};
ghost use Rattle.ch_graph.specs.Graph as graphs;
ghost use Rattle.ch_graph.specs.Hierarchy.{IsRight, IsValue, IsWellMade};
ghost use Rattle.ch_graph.specs.Unfolding.{Joined};
ghost use Rattle.ch_query.specs.declared.side.Side.TheVariants.{Rise, Fall as falling};
ghost use Rattle.ch_query.specs.Climb.{LeadsUp};
ghost use Rattle.ch_query.specs.Places.{IsRiseFallAt};
ghost use Rattle.ch_query.specs.Seeds.{AreSeeds, IsValueBetween, IsWalkBetween, IsLeastWalkBetween, IsDistanceBetween, longest};
ghost use Rattle.ch_query.specs.Sums.{AreSumsOf, HaveNumbers};
ghost use Rattle.ch_query.specs.Ways.{AreFallsTo, AreLeastClimbs};

use crate::climb::Climbed;
use crate::fall::Fall;
use crate::frontier::Frontier;
use crate::half::Half;
use crate::hierarchy_ref::HierarchyRef;
use crate::layout::Layout;
use crate::query::Query;
use crate::seed::Seed;
use crate::side::Side;
use ch_cost::Cost;
use ch_graph::{Hierarchy, LinkId};
use std::alloc::{AllocError, Global};
use std::marker::Model;
use std::ops::Deref;
use std::sync::Arc;

/// A least walk of links.
#[derive(Drop)]
pub struct Found {
    /// What the links cost together.
    pub cost: Cost,
    /// The places of the links in the hierarchy, in the order of the walk: first those that rise, then those
    /// that fall.
    pub links: Vec<LinkId>,
}

/// A least walk of links from one of several starts to one of several ends.
#[derive(Drop)]
pub struct FoundBetween {
    /// What the start, the links and the end cost together.
    pub cost: Cost,
    /// The place of the start in the list of starts.
    pub start: usize,
    /// The place of the end in the list of ends.
    pub end: usize,
    /// The places of the links in the hierarchy, in the order of the walk: first those that rise, then those
    /// that fall.
    pub links: Vec<LinkId>,
}

/// Answers queries of one hierarchy, which it borrows or owns a share of: `H` is `&Hierarchy` or `Arc<Hierarchy>`.
///
/// It keeps for either side the steps over the links that it climbs, apart from them the places of those links, and
/// a mark for each node, all by rank: about 16 bytes a node and 16 a link, or 24 and 20 where there are 2^32 links or
/// more. The steps and places can be shared with other searches ([`Search::beside`]). The marks of one call are kept for
/// the next, which takes back what the one before it saw. So after a call that ran out of memory it answers as a new
/// one. Either side's queue and its list of seen nodes are kept too; but where one of them has room for more than 65,536
/// entries, both are freed when the call ends.
#[derive(Drop)]
pub struct SearchOf<H: HierarchyRef> {
    hierarchy: H,
    layout: Arc<Layout>,
    up: Frontier,
    down: Frontier,
}

/// A search that borrows its hierarchy.
pub type Search<'a> = SearchOf<&'a Hierarchy>;

impl<H: HierarchyRef> Model for SearchOf<H> {
    ghost use Rattle.ch_graph.specs.Hierarchy as hierarchies;
    ghost use Rattle.std.specs.Arc.{arc_value};
    ghost use Rattle.ch_query.specs.Ready.{IsReady};

    ghost Value = { hierarchies.Hierarchy };

    ghost view = { λ s. H.referred s.hierarchy };

    ghost invariant = { λ s. IsReady (H.referred s.hierarchy) (arc_value s.layout) s.up s.down };
}

impl<H: HierarchyRef> SearchOf<H> {
    /// Returns a search of a hierarchy. Looks at each node a fixed number of times and at each link twice.
    pub fn new(alloc: Global, hierarchy: H) -> Result<SearchOf<H>, AllocError>
        ensures { IfOk result (λ search. search ≡ H.referred hierarchy) }
    {
        let nodes = hierarchy.hierarchy().nodes();
        let layout = Layout::new(alloc, hierarchy.hierarchy())?;
        let layout = Arc::new(alloc, layout)?;
        let up = Frontier::new(alloc, nodes)?;
        let down = Frontier::new(alloc, nodes)?;
        Ok(SearchOf {
            hierarchy,
            layout,
            up,
            down,
        })
    }

    /// Another search of the same hierarchy, for another caller.
    ///
    /// The two share the steps and the places of the links, which never change, so this one takes 8 bytes a node for its
    /// marks and what its calls keep, and nothing for a link. Either may be dropped first.
    pub fn beside(&self, alloc: Global) -> Result<SearchOf<H>, AllocError>
        ensures { IfOk result (λ search. search ≡ self.now) }
    {
        let hierarchy = self.hierarchy.another()?;
        let layout = Arc::try_clone(&self.layout)?;
        let nodes = self.hierarchy().nodes();
        let up = Frontier::new(alloc, nodes)?;
        let down = Frontier::new(alloc, nodes)?;
        Ok(SearchOf {
            hierarchy,
            layout,
            up,
            down,
        })
    }

    /// Returns the hierarchy.
    pub fn hierarchy(&self) -> &Hierarchy
        ensures { result.now ≡ self.now }
    {
        self.hierarchy.hierarchy()
    }

    /// Returns the least rise-fall walk from `source` to `target`: links that first rise in rank and then fall, of a
    /// length within the hierarchy's bound. `None` where there is no such walk.
    ///
    /// From a node to itself it is the walk of no link, at no cost. Both nodes are numbered from 0. A call costs what
    /// it touches: each side settles its nodes in the order of their lengths, by a heap, and stops where the next one
    /// is longer than the best walk so far. Memory is taken by the number of nodes that a call comes to.
    ///
    /// This is a hierarchy of the graph that is drawn at [`Graph::least`](ch_graph::Graph::least), with the rank of each
    /// node in brackets. Node 4 was contracted before 1 and 3, so there is a shortcut between these, there and back, of
    /// length 2 and two arcs:
    ///
    /// ```text
    ///         2               3
    /// 0 [0] ------> 1 [4] --------- 2 [2]
    ///               |   \           |
    ///             1 |       \ 2     | 5
    ///               |           \   |
    ///               4 [1] --------- 3 [3]
    ///                         1
    /// ```
    ///
    /// From 0 to 3 the walk rises to 1, which has the greatest rank, and falls by the shortcut: the links from 0 to 1 and
    /// from 1 to 3, which cost 4, of three arcs. From 2 to 3 it is one link, which rises and costs 5, of one arc; the walk
    /// over 1 is as long, and of three arcs. From 3 to 0 there is none.
    pub fn distance(&mut self, source: u32, target: u32) -> Result<Option<Found>, AllocError>
        requires source_in { source < length self.old.ranks }
        requires target_in { target < length self.old.ranks }
        ensures value { IfOk result (λ found. IsValue self.old source target (option_map (λ f. f.cost) found)) }
        ensures walk { IfOk result (λ found. IfSome found (λ f. IsRiseFallAt self.old f.links.items source target f.cost)) }
        ensures joined { IfOk result (λ found. IfSome found (λ f. Joined self.old source f.links.items)) }
        ensures kept { self.new ≡ self.old }
    {
        let start = [free(source)];
        let end = [free(target)];
        let bound = self.hierarchy.hierarchy().bound();
        let found = self.least_walk(&start, &end, bound)?;
        let Some(FoundBetween { cost, links, .. }) = found else {
            return Ok(None);
        };
        Ok(Some(Found { cost, links }))
    }

    /// Returns what the walk of [`Search::distance`] costs, without the walk: `None` where there is none.
    ///
    /// It costs what `distance` costs but for the links, which aren't looked for.
    pub fn cost(&mut self, source: u32, target: u32) -> Result<Option<Cost>, AllocError>
        requires source_in { source < length self.old.ranks }
        requires target_in { target < length self.old.ranks }
        ensures value { IfOk result (IsValue self.old source target) }
        ensures kept { self.new ≡ self.old }
    {
        let start = [free(source)];
        let end = [free(target)];
        let bound = self.hierarchy.hierarchy().bound();
        self.least_cost(&start, &end, bound)
    }

    /// Returns the least rise-fall walk from one of the starts to one of the ends, by what start, walk and end cost
    /// together, and the places of these two in their lists. `None` where no walk of at most 2^62 leads from a start to
    /// an end, as for an empty list.
    ///
    /// In a graph that the hierarchy is right for it is the least over all pairs of a start and an end of the distance
    /// from the one to the other with what both cost (`exact`), and the links are a least walk of their pair (`walk`). A
    /// node may be in a list more than once. Where several pairs cost the least, any of them may be found.
    ///
    /// Each list has nodes from 0, and costs of at most 2^57 in length and 2^25 arcs. Sums are cut off at 2^62, which no
    /// walk of a graph comes to. It costs what [`Search::distance`] costs, and a look at each start and at each end more.
    ///
    /// Between two places inside of arcs, the starts are the heads of the first place's arcs and the ends the tails of the
    /// other's, each with the cost of the part of the arc. A way within one arc passes no node, and isn't found here.
    pub fn between(
        &mut self,
        starts: &[Seed],
        ends: &[Seed],
    ) -> Result<Option<FoundBetween>, AllocError>
        requires starts { AreSeeds self.old starts.now }
        requires ends { AreSeeds self.old ends.now }
        ensures exact { IfOk result (λ found. (g : graphs.Graph) → IsRight g self.old → IsDistanceBetween g starts.now ends.now (option_map (λ f. f.cost) found)) }
        ensures value { IfOk result (λ found. IsValueBetween self.old starts.now ends.now longest (option_map (λ f. f.cost) found)) }
        ensures walk { IfOk result (λ found. IfSome found (λ f. IsLeastWalkBetween self.old starts.now ends.now f.start f.end f.links.items f.cost)) }
        ensures kept { self.new ≡ self.old }
    {
        let bound = Cost::of_walk(SUM_LIMIT, 0);
        self.least_walk(starts, ends, bound)
    }

    /// Returns what start, walk and end of [`Search::between`] cost together, without the walk: `None` where there is
    /// none.
    pub fn cost_between(
        &mut self,
        starts: &[Seed],
        ends: &[Seed],
    ) -> Result<Option<Cost>, AllocError>
        requires starts { AreSeeds self.old starts.now }
        requires ends { AreSeeds self.old ends.now }
        ensures exact { IfOk result (λ found. (g : graphs.Graph) → IsRight g self.old → IsDistanceBetween g starts.now ends.now found) }
        ensures value { IfOk result (IsValueBetween self.old starts.now ends.now longest) }
        ensures kept { self.new ≡ self.old }
    {
        let bound = Cost::of_walk(SUM_LIMIT, 0);
        self.least_cost(starts, ends, bound)
    }

    /// Lists the least climb to each node that links which rise lead to from one of the starts, with what the start
    /// costs, in place of what the list had: of those that are no longer than the bound. A call that fails leaves any
    /// part of them in the list.
    ///
    /// It is half of a query, whose other half is the links that fall from there ([`Search::falls_to`]). Ranks are below
    /// the number of nodes, and no node is listed twice. Takes the time of a side of a query that has no end, by the heap
    /// of [`Search::distance`], and 16 bytes for each node that it comes to.
    pub fn climb(
        &mut self,
        starts: &[Seed],
        bound: Cost,
        climbs: &mut Vec<Climbed>,
    ) -> Result<(), AllocError>
        requires starts { AreSeeds self.old starts.now }
        requires bound { IsSummable bound }
        ensures climbs { OnOk result (AreLeastClimbs self.old Rise starts.now bound climbs.new.items) }
        ensures kept { self.new ≡ self.old }
    {
        let half = Half {
            hierarchy: self.hierarchy.hierarchy(),
            steps: &self.layout.rising,
            side: Side::Rise,
            seeds: starts,
            bound,
        };
        let climbed = half.climb(&mut self.up, climbs);
        self.up.shrink();
        climbed
    }

    /// Lists the same climbs, and writes for each node that is listed, at its rank in `sums`, what the numbers of the links
    /// of one climb to it sum to. That climb is as long as is listed. `numbers` has a number of at most 2^36 for each link,
    /// by the link's place, and `sums` has a place for each rank.
    pub fn climb_summed(
        &mut self,
        starts: &[Seed],
        bound: Cost,
        numbers: &[u64],
        climbs: &mut Vec<Climbed>,
        sums: &mut [u64],
    ) -> Result<(), AllocError>
        requires starts { AreSeeds self.old starts.now }
        requires bound { IsSummable bound }
        requires numbers { HaveNumbers self.old numbers.now }
        requires room { length sums.old ≡ length self.old.ranks }
        ensures climbs { OnOk result (AreLeastClimbs self.old Rise starts.now bound climbs.new.items) }
        ensures sums { OnOk result (AreSumsOf self.old numbers.now starts.now sums.new climbs.new.items) }
        ensures room { length sums.new ≡ length sums.old }
        ensures kept { self.new ≡ self.old }
    {
        let half = Half {
            hierarchy: self.hierarchy.hierarchy(),
            steps: &self.layout.rising,
            side: Side::Rise,
            seeds: starts,
            bound,
        };
        let climbed = half.climb_summed(&mut self.up, numbers, climbs, sums);
        self.up.shrink();
        climbed
    }

    /// Returns the link that falls from the node of the rank `head` to that of the rank `foot`. There is one.
    ///
    /// Takes time by the number of links that fall to the latter.
    pub fn link_down(&self, foot: u32, head: u32) -> LinkId
        requires { (k : ℕ) × LeadsUp self.now falling foot head k }
        ensures { (k : ℕ) → LeadsUp self.now falling foot head k → result.0 ≡ k }
    {
        let link = self
            .layout
            .falling
            .link_between(self.hierarchy.hierarchy(), Side::Fall, foot, head);
        LinkId(link)
    }

    /// Lists the links that fall to the node of a rank, in place of what the list had. A call that fails leaves any part
    /// of them in the list.
    ///
    /// Takes time by the number of these links, and 16 bytes for each.
    pub fn falls_to(&self, rank: u32, falls: &mut Vec<Fall>) -> Result<(), AllocError>
        requires rank_in { rank < length self.now.ranks }
        ensures falls { OnOk result (AreFallsTo self.now rank falls.new.items) }
    {
        self.layout
            .falling
            .list_falls(self.hierarchy.hierarchy(), rank, falls)
    }

    /// The least walk from a start to an end, if one is no longer than the bound with both. Frees the memory of a far
    /// search.
    fn least_walk(
        &mut self,
        starts: &[Seed],
        ends: &[Seed],
        bound: Cost,
    ) -> Result<Option<FoundBetween>, AllocError>
        requires starts { AreSeeds self.old starts.now }
        requires ends { AreSeeds self.old ends.now }
        requires bound { IsSummable bound }
        ensures made { IsWellMade self.old }
        ensures value { IfOk result (λ found. IsValueBetween self.old starts.now ends.now bound (option_map (λ f. f.cost) found)) }
        ensures walk { IfOk result (λ found. IfSome found (λ f. IsWalkBetween self.old starts.now ends.now f.start f.end f.links.items f.cost)) }
        ensures kept { self.new ≡ self.old }
    {
        let query = Query {
            hierarchy: self.hierarchy.hierarchy(),
            layout: self.layout.deref(),
            starts,
            ends,
            bound,
        };
        let found = query.found(&mut self.up, &mut self.down);
        self.up.shrink();
        self.down.shrink();
        found
    }

    /// What that walk costs with its start and its end. Frees the memory of a far search.
    fn least_cost(
        &mut self,
        starts: &[Seed],
        ends: &[Seed],
        bound: Cost,
    ) -> Result<Option<Cost>, AllocError>
        requires starts { AreSeeds self.old starts.now }
        requires ends { AreSeeds self.old ends.now }
        requires bound { IsSummable bound }
        ensures made { IsWellMade self.old }
        ensures value { IfOk result (IsValueBetween self.old starts.now ends.now bound) }
        ensures kept { self.new ≡ self.old }
    {
        let query = Query {
            hierarchy: self.hierarchy.hierarchy(),
            layout: self.layout.deref(),
            starts,
            ends,
            bound,
        };
        let found = query.cost(&mut self.up, &mut self.down);
        self.up.shrink();
        self.down.shrink();
        found
    }
}

/// The greatest length that a start, a walk and an end may have together.
const SUM_LIMIT: u64 = 1 << 62;

/// A node as a start or an end that costs nothing.
fn free(node: u32) -> Seed
    ensures { result ≡ record { node = node; cost = zero_cost } }
{
    Seed {
        node,
        cost: Cost::ZERO,
    }
}
