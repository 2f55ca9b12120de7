ghost use Rattle.std.specs.Prelude.{◌≡◌, ◌+◌, ◌<◌, ◌≤◌, length, All, AllPairs, IfOk, OnOk};
ghost use Rattle.ch_graph.specs.Hierarchy.{IsWellMade, rank_of};
ghost use Rattle.ch_query.specs.declared.fall.Fall.{Fall as a_fall};
ghost use Rattle.ch_query.specs.Ways.{AreFallsTo};
ghost use Rattle.ch_table.specs.Laying.{AreAllDown, AreDown, AreListedTo, AreMarkedWith, IsMarked};
ghost use Rattle.ch_table.specs.Selection.{AreEnds, ArePlaced, AreRanksAbove, IsSelection, lists_of};

use crate::steps::{Links, Steps};
use ch_graph::Hierarchy;
use ch_query::{Fall, HierarchyRef, SearchOf};
use memchr::memchr;
use std::alloc::{AllocError, Global};

/// The nodes that walks to some targets fall through, from the lowest rank up, each at a place, and the links to each.
#[derive(Drop)]
pub struct Columns {
    /// The targets.
    pub targets: Vec<u32>,
    /// The place of each target.
    pub ends: Vec<u32>,
    /// The rank of each place.
    pub ranks: Vec<u32>,
    /// For each rank its place and one more, or 0 for a node that isn't selected.
    pub places: Vec<u32>,
    /// The links.
    pub links: Links,
}

impl Columns {
    /// Selects what walks to the targets fall through.
    pub fn new<H: HierarchyRef>(
        alloc: Global,
        search: &SearchOf<H>,
        targets: &[u32],
    ) -> Result<Columns, AllocError>
        requires targets { All (λ t. t < length search.now.ranks) targets.now }
        ensures selection { IfOk result (λ c. IsSelection search.now (lists_of c)) }
        ensures targets { IfOk result (λ c. c.targets.items ≡ targets.now) }
    {
        let hierarchy = search.hierarchy();
        let nodes = hierarchy.nodes();
        let Down { ranks, mut steps } = down_to(alloc, search, targets)?;
        let places = places_of(alloc, nodes, &ranks)?;
        let ends = ends_of(alloc, hierarchy, &ranks, &places, targets)?;
        steps.ranks_to_places(&places);
        let links = Links::new(alloc, steps)?;
        let mut kept = Vec::new(alloc);
        kept.extend_from_slice(targets)?;
        Ok(Columns {
            targets: kept,
            ends,
            ranks,
            places,
            links,
        })
    }
}

// Some ranks, and the links to each, with the ranks of the nodes that they leave.
#[derive(Drop)]
struct Down {
    ranks: Vec<u32>,
    steps: Steps<u64>,
}

// The ranks of the targets and of all nodes that lead down to them, from the lowest up. A link falls to a node of lower
// rank, so that each node is marked before its turn.
fn down_to<H: HierarchyRef>(
    alloc: Global,
    search: &SearchOf<H>,
    targets: &[u32],
) -> Result<Down, AllocError>
    requires targets { All (λ t. t < length search.now.ranks) targets.now }
    ensures { IfOk result (λ d. AreAllDown search.now targets.now d.ranks.items d.steps.first.items d.steps.tails.items d.steps.lengths.items) }
{
    let nodes = search.hierarchy().nodes() as usize;
    let marks = marks_of(alloc, search.hierarchy(), targets)?;
    let mut marked = Marked {
        marks,
        falls: Vec::new(alloc),
        down: Down {
            ranks: Vec::new(alloc),
            steps: Steps::new(alloc)?,
        },
    };
    let mut low = 0;
    'ranks: while low < nodes {
        low = marked.pass(search, targets, low)?;
    }
    Ok(marked.down)
}

// What stands for a marked rank; 0 for another.
const MARK: u8 = 1;

// Which ranks are marked, and those of them that were passed.
#[derive(Drop)]
struct Marked {
    marks: Vec<u8>,
    // The links to the last that was passed.
    falls: Vec<Fall>,
    down: Down,
}

impl Marked {
    // Passes the first marked rank from this one on: it is listed with its links, and the nodes that these leave are
    // marked. Returns the rank behind it, or that behind all.
    fn pass<H: HierarchyRef>(
        &mut self,
        search: &SearchOf<H>,
        targets: &[u32],
        low: usize,
    ) -> Result<usize, AllocError>
        requires low_in { low < length search.now.ranks }
        requires ends_in { All (λ t. rank_of search.now t < length search.now.ranks) targets.now }
        requires listed { AreListedTo search.now targets.now self.old.marks.items self.old.down.ranks.items self.old.down.steps.tails.items low }
        requires down { AreDown search.now self.old.down.ranks.items self.old.down.steps.first.items self.old.down.steps.tails.items self.old.down.steps.lengths.items }
        ensures on { IfOk result (λ next. low < next) }
        ensures within { IfOk result (λ next. next ≤ length search.now.ranks) }
        ensures listed { IfOk result (λ next. AreListedTo search.now targets.now self.new.marks.items self.new.down.ranks.items self.new.down.steps.tails.items next) }
        ensures down { OnOk result (AreDown search.now self.new.down.ranks.items self.new.down.steps.first.items self.new.down.steps.tails.items self.new.down.steps.lengths.items) }
    {
        let nodes = search.hierarchy().nodes();
        match memchr(MARK, &self.marks[low..]) {
            None => Ok(nodes as usize),
            Some(skipped) => {
                let rank = low + skipped;
                self.down.ranks.push(rank as u32)?;
                search.falls_to(rank as u32, &mut self.falls)?;
                mark_tails(&self.falls, &mut self.marks);
                self.down.steps.lay(&self.falls)?;
                Ok(rank + 1)
            }
        }
    }
}

// The ranks of the targets, marked.
fn marks_of(alloc: Global, hierarchy: &Hierarchy, targets: &[u32]) -> Result<Vec<u8>, AllocError>
    requires targets { All (λ t. t < length hierarchy.now.ranks) targets.now }
    ensures nodes { IfOk result (λ marks. length marks.items ≡ length hierarchy.now.ranks) }
    ensures ends { IfOk result (λ marks. All (λ t. IsMarked marks.items (rank_of hierarchy.now t)) targets.now) }
{
    let mut marks = vec![in alloc; 0u8; hierarchy.nodes() as usize]?;
    'targets: for target in targets {
        marks[hierarchy.rank(*target) as usize] = MARK;
    }
    Ok(marks)
}

// Marks the nodes that links leave.
fn mark_tails(falls: &[Fall], marks: &mut Vec<u8>)
    requires { All (λ (f : a_fall). f.tail < length marks.old.items) falls.now }
    ensures { AreMarkedWith falls.now marks.old.items marks.new.items }
{
    'falls: for fall in falls {
        marks[fall.tail as usize] = MARK;
    }
}

// For each rank its place and one more.
fn places_of(alloc: Global, nodes: u32, ranks: &[u32]) -> Result<Vec<u32>, AllocError>
    requires few { length ranks.now ≤ nodes }
    requires rising { AllPairs ◌<◌ ranks.now }
    requires in_range { All (λ r. r < nodes) ranks.now }
    ensures { IfOk result (λ places. ArePlaced nodes ranks.now places.items) }
{
    let mut places = vec![in alloc; 0u32; nodes as usize]?;
    'places: for place in 0..ranks.len() {
        places[ranks[place] as usize] = place as u32 + 1;
    }
    Ok(places)
}

// The place of each target.
fn ends_of(
    alloc: Global,
    hierarchy: &Hierarchy,
    ranks: &[u32],
    places: &[u32],
    targets: &[u32],
) -> Result<Vec<u32>, AllocError>
    requires above { AreRanksAbove hierarchy.now targets.now ranks.now }
    requires placed { ArePlaced (length hierarchy.now.ranks) ranks.now places.now }
    requires targets { All (λ t. t < length hierarchy.now.ranks) targets.now }
    ensures { IfOk result (λ ends. AreEnds hierarchy.now targets.now ranks.now ends.items) }
{
    let mut ends = Vec::new(alloc);
    'targets: for target in targets {
        ends.push(places[hierarchy.rank(*target) as usize] - 1)?;
    }
    Ok(ends)
}
