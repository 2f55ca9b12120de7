ghost use Rattle.std.specs.Prelude.{◌≡◌, ◌<◌, IfOk, length, slice_index};
ghost use Rattle.std.specs.Arc.{arc_value};
ghost use Rattle.std.specs.List.{range_with_len};
ghost use Rattle.ch_query.specs.Sums.{HaveNumbers};
ghost use Rattle.ch_table.specs.Selection.{IsSelection};
ghost use Rattle.ch_table.specs.Sums.{AreStepNumbers};
ghost use Rattle.domethyme_c.specs.StepLinks.{AreGathered, AreStepLinks};

use ch_graph::Hierarchy;
use ch_query::SearchOf;
use ch_route::Selection;
use std::alloc::{AllocError, Global};
use std::sync::Arc;

// With more links their places are no numbers.
const MOST_LINKS: usize = 1 << 36;

/// A selection, and which links its steps are: the numbers of any set are read by these.
#[derive(Drop)]
pub(crate) struct StepLinks {
    pub(crate) selection: Arc<Selection>,
    // None where the hierarchy has more than the most.
    links: Vec<u64>,
}

impl StepLinks {
    /// Finds the links. Each is looked up among those of a node, so it takes many times as long as a row.
    pub(crate) fn new(
        alloc: Global,
        search: &SearchOf<Arc<Hierarchy>>,
        selection: Arc<Selection>,
    ) -> Result<StepLinks, AllocError>
        requires { IsSelection search.now (arc_value selection) }
        ensures found { IfOk result (λ s. AreStepLinks search.now s) }
        ensures same { IfOk result (λ s. arc_value s.selection ≡ arc_value selection) }
    {
        let count = link_count(search);
        if count > MOST_LINKS {
            return Ok(StepLinks {
                selection,
                links: Vec::new(alloc),
            });
        }
        let places = places_to(alloc, count as u64)?;
        let links = selection.step_numbers(alloc, search, places.as_slice())?;
        Ok(StepLinks { selection, links })
    }

    /// The numbers of the steps, of those of all links.
    pub(crate) fn numbers(
        &self,
        alloc: Global,
        search: &SearchOf<Arc<Hierarchy>>,
        numbers: &[u64],
    ) -> Result<Vec<u64>, AllocError>
        requires links { AreStepLinks search.now self.now }
        requires numbers { HaveNumbers search.now numbers.now }
        ensures { IfOk result (λ steps. AreStepNumbers search.now numbers.now (arc_value self.now.selection) steps.items) }
    {
        if numbers.len() > MOST_LINKS {
            return self.selection.step_numbers(alloc, search, numbers);
        }
        let links = self.links.as_slice();
        let steps = gathered(alloc, links, numbers)?;
        Ok(steps)
    }
}

// How many links there are.
fn link_count(search: &SearchOf<Arc<Hierarchy>>) -> usize
    ensures { result ≡ length search.now.links }
{
    search.hierarchy().links().len()
}

// The numbers from 0, so many.
fn places_to(alloc: Global, count: u64) -> Result<Vec<u64>, AllocError>
    ensures { IfOk result (λ places. places.items ≡ range_with_len 0 count) }
{
    (0..count).collect(alloc)
}

// The number of each of some links.
fn gathered(alloc: Global, links: &[u64], numbers: &[u64]) -> Result<Vec<u64>, AllocError>
    ensures { IfOk result (λ steps. AreGathered links.now numbers.now steps.items) }
{
    let mut steps = Vec::with_capacity(alloc, links.len())?;
    'links: for at in 0..links.len() {
        steps.push(number_at(numbers, links[at]))?;
    }
    Ok(steps)
}

// The number of a link, or 0 of none.
fn number_at(numbers: &[u64], link: u64) -> u64
    ensures { link < length numbers.now → result ≡ slice_index numbers.now link }
{
    if link < numbers.len() as u64 {
        return numbers[link as usize];
    }
    0
}
