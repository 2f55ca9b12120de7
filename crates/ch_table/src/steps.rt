ghost use Rattle.std.specs.Prelude.{◌≡◌, ◌<◌, ◌∷◌, [], ℕ, length, map, slice_index, All, IfOk, IfSome, OnOk};
ghost use Rattle.ch_table.specs.Laying.{ArePlacesOf, IsLaidMore};
ghost use Rattle.ch_table.specs.Selection.{steps_of};

use ch_query::Fall;
use std::alloc::{AllocError, Global};

/// A number as links are kept with it: in 4 bytes or in 8.
pub trait Number: Copy {
    ghost number: { Self → ℕ };

    /// Returns the number.
    fn get(self) -> u64
        ensures { result ≡ number self };
}

impl Number for u32 {
    ghost number = { λ n. n };

    #[inline(always)]
    fn get(self) -> u64 {
        u64::from(self)
    }
}

impl Number for u64 {
    ghost number = { λ n. n };

    #[inline(always)]
    fn get(self) -> u64 {
        self
    }
}

/// The links of a selection, place by place.
#[derive(Drop)]
pub struct Steps<W> {
    /// For each place where its links begin, and then how many there are.
    pub first: Vec<W>,
    /// For each link the place of the node that it leaves, or its rank as long as it has no place.
    pub tails: Vec<u32>,
    /// For each link its length.
    pub lengths: Vec<W>,
}

/// The links with numbers of either kind: short ones take 8 bytes a link and 4 a place, and long ones 12 and 8.
#[derive(Drop)]
pub enum Links {
    /// There are fewer than 2^32 links, and each is shorter than that.
    Short(Steps<u32>),
    /// Any links.
    Long(Steps<u64>),
}

impl<W: Number> Steps<W> {
    /// Where the links of a place begin.
    #[inline(always)]
    pub fn begin(&self, place: usize) -> usize
        requires { place < length self.now.first.items }
        ensures { result ≡ slice_index (map W.number self.now.first.items) place }
    {
        self.first[place].get() as usize
    }

    /// The length of a link.
    #[inline(always)]
    pub fn length(&self, at: usize) -> u64
        requires { at < length self.now.lengths.items }
        ensures { result ≡ slice_index (map W.number self.now.lengths.items) at }
    {
        self.lengths[at].get()
    }
}

impl Steps<u64> {
    /// No place.
    pub fn new(alloc: Global) -> Result<Steps<u64>, AllocError>
        ensures first { IfOk result (λ s. s.first.items ≡ 0 ∷ []) }
        ensures tails { IfOk result (λ s. s.tails.items ≡ []) }
        ensures lengths { IfOk result (λ s. s.lengths.items ≡ []) }
    {
        Ok(Steps {
            first: vec![in alloc; 0u64; 1]?,
            tails: Vec::new(alloc),
            lengths: Vec::new(alloc),
        })
    }

    /// Lays down one more place, with the links that fall to its node.
    pub fn lay(&mut self, falls: &[Fall]) -> Result<(), AllocError>
        ensures { OnOk result (IsLaidMore falls.now self.old.first.items self.old.tails.items self.old.lengths.items self.new.first.items self.new.tails.items self.new.lengths.items) }
    {
        'falls: for fall in falls {
            self.tails.push(fall.tail)?;
            self.lengths.push(fall.length)?;
        }
        let count = self.tails.len() as u64;
        self.first.push(count)?;
        Ok(())
    }

    /// Changes the ranks of the nodes that links leave for their places. `places` has for each rank its place and one more.
    pub fn ranks_to_places(&mut self, places: &[u32])
        requires ranks { All (λ r. r < length places.now) self.old.tails.items }
        requires placed { All (λ r. 0 < slice_index places.now r) self.old.tails.items }
        ensures tails { ArePlacesOf places.now self.old.tails.items self.new.tails.items }
        ensures first { self.new.first.items ≡ self.old.first.items }
        ensures lengths { self.new.lengths.items ≡ self.old.lengths.items }
    {
        'tails: for at in 0..self.tails.len() {
            self.tails[at] = places[self.tails[at] as usize] - 1;
        }
    }
}

impl Links {
    /// How many there are.
    pub fn count(&self) -> usize
        ensures { result ≡ length (steps_of self.now).tails.items }
    {
        match self {
            Links::Short(steps) => steps.tails.len(),
            Links::Long(steps) => steps.tails.len(),
        }
    }

    /// Keeps the links in short numbers where all fit.
    pub fn new(alloc: Global, steps: Steps<u64>) -> Result<Links, AllocError>
        ensures first { IfOk result (λ l. (steps_of l).first.items ≡ steps.first.items) }
        ensures tails { IfOk result (λ l. (steps_of l).tails.items ≡ steps.tails.items) }
        ensures lengths { IfOk result (λ l. (steps_of l).lengths.items ≡ steps.lengths.items) }
    {
        let Some(first) = short(alloc, &steps.first)? else {
            return Ok(Links::Long(steps));
        };
        let Some(lengths) = short(alloc, &steps.lengths)? else {
            return Ok(Links::Long(steps));
        };
        Ok(Links::Short(Steps {
            first,
            tails: steps.tails,
            lengths,
        }))
    }
}

// The numbers in 4 bytes each, or `None` where one doesn't fit.
fn short(alloc: Global, numbers: &[u64]) -> Result<Option<Vec<u32>>, AllocError>
    ensures { IfOk result (λ found. IfSome found (λ short. short.items ≡ numbers.now)) }
{
    let mut short = Vec::with_capacity(alloc, numbers.len())?;
    'numbers: for number in numbers {
        if *number > u64::from(u32::MAX) {
            return Ok(None);
        }
        short.push(*number as u32)?;
    }
    Ok(Some(short))
}
