ghost use Rattle.std.specs.Prelude.{◌≡◌, ◌+◌, ◌<◌, ◌≤◌, length, slice_index, IfOk};
ghost use Rattle.ch_graph.specs.Hierarchy.{IsWellMade};
ghost use Rattle.ch_query.specs.Sums.{HaveNumbers};
ghost use Rattle.ch_table.specs.Selection.{AreLinksOf, IsSelection, lists_of};
ghost use Rattle.ch_table.specs.Sums.{AreStepNumbers, AreStepNumbersTo};

use crate::columns::Columns;
use crate::steps::{Links, Number, Steps};
use ch_query::{HierarchyRef, SearchOf};
use std::alloc::{AllocError, Global};

impl Columns {
    /// Lists the numbers of the links of the selection, of those of all links.
    pub fn step_numbers<H: HierarchyRef>(
        &self,
        alloc: Global,
        search: &SearchOf<H>,
        numbers: &[u64],
    ) -> Result<Vec<u64>, AllocError>
        requires selection { IsSelection search.now (lists_of self.now) }
        requires numbers { HaveNumbers search.now numbers.now }
        ensures { IfOk result (λ listed. AreStepNumbers search.now numbers.now (lists_of self.now) listed.items) }
    {
        let mut listed = vec![in alloc; 0u64; self.links.count()]?;
        self.list_all_numbers(search, numbers, listed.as_mut_slice());
        Ok(listed)
    }

    // Those of all places, one after the other.
    fn list_all_numbers<H: HierarchyRef>(
        &self,
        search: &SearchOf<H>,
        numbers: &[u64],
        listed: &mut [u64],
    )
        requires selection { IsSelection search.now (lists_of self.now) }
        requires numbers { HaveNumbers search.now numbers.now }
        requires room { length listed.old ≡ length (lists_of self.now).tails }
        ensures { AreStepNumbers search.now numbers.now (lists_of self.now) listed.new }
    {
        match &self.links {
            Links::Short(steps) => self.list_numbers(steps, search, numbers, listed),
            Links::Long(steps) => self.list_numbers(steps, search, numbers, listed),
        }
    }

    // The same by the links of the selection, in either kind of numbers.
    fn list_numbers<W: Number, H: HierarchyRef>(
        &self,
        steps: &Steps<W>,
        search: &SearchOf<H>,
        numbers: &[u64],
        listed: &mut [u64],
    )
        requires selection { IsSelection search.now (lists_of self.now) }
        requires steps { AreLinksOf W.number steps.now (lists_of self.now) }
        requires numbers { HaveNumbers search.now numbers.now }
        requires room { length listed.old ≡ length (lists_of self.now).tails }
        ensures { AreStepNumbers search.now numbers.now (lists_of self.now) listed.new }
    {
        let _well_made = search.hierarchy().nodes();
        'places: for place in 0..self.ranks.len() {
            self.list_numbers_of(steps, search, numbers, place, listed);
        }
    }

    // Those of the links of a place.
    fn list_numbers_of<W: Number, H: HierarchyRef>(
        &self,
        steps: &Steps<W>,
        search: &SearchOf<H>,
        numbers: &[u64],
        place: usize,
        listed: &mut [u64],
    )
        requires made { IsWellMade search.now }
        requires selection { IsSelection search.now (lists_of self.now) }
        requires steps { AreLinksOf W.number steps.now (lists_of self.now) }
        requires numbers { HaveNumbers search.now numbers.now }
        requires place_in { place < length self.now.ranks.items }
        requires before { AreStepNumbersTo search.now numbers.now (lists_of self.now) (slice_index (lists_of self.now).first place) listed.old }
        ensures { AreStepNumbersTo search.now numbers.now (lists_of self.now) (slice_index (lists_of self.now).first (place + 1)) listed.new }
    {
        let begin = steps.begin(place);
        let end = steps.begin(place + 1);
        let foot = self.ranks[place];
        'steps: for at in begin..end {
            let head = self.ranks[steps.tails[at] as usize];
            let link = search.link_down(foot, head);
            listed[at] = numbers[link.0];
        }
    }
}
